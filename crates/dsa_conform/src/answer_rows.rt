//! Worked rows of the texts that answer a step, by computation.

ghost use Rattle.std.specs.Prelude.{ℕ, Bool, List, ◌≡◌, [], ◌∷◌, true, false, codes, map};
ghost use Rattle.std.specs.List.{list_all, list_any};
ghost use Rattle.dsa_book.specs.declared.event.Event.{Event};
ghost use Rattle.dsa_book.specs.declared.event.Event.TheVariants as event;
ghost use Rattle.dsa_book.specs.declared.event.Kind.TheVariants.{Movdir64b};
ghost use Rattle.dsa_book.specs.declared.event.Portal.TheVariants.{Limited};
ghost use Rattle.dsa_desc.specs.declared.Outcome.TheVariants.{Success};
ghost use Rattle.dsa_regs.specs.declared.Command.TheVariants.{DrainAll};
ghost use Rattle.dsa_regs.specs.Fault.{fault_number};
ghost use Rattle.dsa_scenario.specs.Worked.{fill, group_of_a_run, queue_of_a_run, record_ticket};
ghost use Rattle.dsa_conform.specs.Answers.{each_fault, following, is_answer_to, is_cleared, is_counted, is_number, is_refusal_text, is_status, is_take, leading_word};
ghost use Rattle.dsa_conform.specs.Worked.{submitted_to};

/// Parts of texts: a first word, what follows a beginning, numbers, and statuses.
#[tactic(auto, unfolding(dsa_scenario::specs::Worked::digits_on_literals))]
pub fn parts()
    ensures word { leading_word (codes "taken 3 from 1") ≡ codes "taken" }
    ensures one_word { leading_word (codes "idle") ≡ codes "idle" }
    ensures blank_first { leading_word (codes " 3") ≡ [] }
    ensures tab { leading_word (codes "ended\t1") ≡ codes "ended\t1" }
    ensures rest { following (codes "ended 12") (codes "ended ") ≡ codes "12" }
    ensures whole { following (codes "ended ") (codes "ended ") ≡ [] }
    ensures later { following (codes "ender 12") (codes "ended ") ≡ [] }
    ensures earlier { following (codes "endec 12") (codes "ended ") ≡ [] }
    ensures shorter { following (codes "end") (codes "ended ") ≡ [] }
    ensures numbers { list_all is_number
        (codes "0" ∷ codes "7" ∷ codes "10" ∷ codes "4294967295" ∷ [])
        ≡ true }
    ensures no_numbers { list_any is_number
        ([] ∷ codes "00" ∷ codes "07" ∷ codes "-1" ∷ codes "+1" ∷ codes "1 " ∷ codes " 1"
        ∷ codes "1a" ∷ codes "1/" ∷ codes "1:" ∷ [])
        ≡ false }
    ensures statuses { list_all is_status
        (codes "00" ∷ codes "05" ∷ codes "1a" ∷ codes "f9" ∷ [])
        ≡ true }
    ensures no_statuses { list_any is_status
        ([] ∷ codes "5" ∷ codes "005" ∷ codes "1A" ∷ codes "1g" ∷ codes "`0" ∷ codes "/0"
        ∷ codes "0:" ∷ codes " 5" ∷ [])
        ≡ false }
{}

/// Answers with numbers: an entry that was taken, an error, a refusal, and others.
#[tactic(auto, unfolding(dsa_scenario::specs::Worked::digits_on_literals))]
pub fn numbered()
    ensures counted { is_counted (codes "ended ") (codes "ended 12") ≡ true }
    ensures not_counted { list_any (is_counted (codes "ended "))
        (codes "ended" ∷ codes "ended " ∷ codes "ended  1" ∷ codes "ended 1 "
        ∷ codes "started 1" ∷ [])
        ≡ false }
    ensures takes { list_all is_take (codes "taken from 0" ∷ codes "taken 3 from 12" ∷ []) ≡ true }
    ensures no_takes { list_any is_take
        (codes "taken" ∷ codes "taken 0" ∷ codes "taken from" ∷ codes "taken from "
        ∷ codes "taken from 00" ∷ codes "taken 3 from " ∷ codes "taken 03 from 1"
        ∷ codes "taken  from 1" ∷ codes "taken 3 to 1" ∷ codes "taken 3 from 1 " ∷ [])
        ≡ false }
    ensures errors { list_all is_cleared
        (codes "cleared 0 at-limit" ∷ codes "cleared 12 not-enabled" ∷ codes "cleared 3 wrong-kind"
        ∷ codes "cleared 0 at-limit overflow" ∷ codes "cleared 0 not-enabled overflow"
        ∷ codes "cleared 0 wrong-kind overflow" ∷ [])
        ≡ true }
    ensures no_errors { list_any is_cleared
        (codes "cleared" ∷ codes "cleared 0" ∷ codes "cleared at-limit" ∷ codes "cleared 0 overflow"
        ∷ codes "cleared 00 at-limit" ∷ codes "cleared 0 at-limit "
        ∷ codes "cleared 0  at-limit" ∷ [])
        ≡ false }
    ensures faults { map fault_number each_fault
        ≡ 1 ∷ 2 ∷ 3 ∷ 4 ∷ 5 ∷ 6 ∷ 7 ∷ 8 ∷ 9 ∷ 10 ∷ 11 ∷ 12 ∷ 13 ∷ 14 ∷ 15 ∷ 16 ∷ 17 ∷ 18 ∷ 19
        ∷ 20 ∷ [] }
    ensures refusals { list_all is_refusal_text
        (codes "refused 1 SizesTooLarge" ∷ codes "refused 17 Busy" ∷ codes "refused 20 BadIndex"
        ∷ [])
        ≡ true }
    ensures no_refusals { list_any is_refusal_text
        (codes "refused" ∷ codes "refused 17" ∷ codes "refused 17 " ∷ codes "refused 16 Busy"
        ∷ codes "refused 017 Busy" ∷ codes "refused 17 busy" ∷ codes "refused 17 Busy "
        ∷ codes "refused Busy" ∷ codes "refused 21 BadIndex" ∷ [])
        ≡ false }
{}

/// The answers to the steps of each kind.
#[tactic(auto, unfolding(dsa_scenario::specs::Worked::digits_on_literals))]
pub fn by_kind()
    ensures enqcmd { list_all (is_answer_to (submitted_to 0))
        (codes "accepted 3" ∷ codes "accepted" ∷ codes "retry not-enabled"
        ∷ codes "retry wrong-kind" ∷ codes "retry at-limit" ∷ codes "full" ∷ [])
        ≡ true }
    ensures no_enqcmd { list_any (is_answer_to (submitted_to 0))
        (codes "accepted 03" ∷ codes "accepted " ∷ codes "retry" ∷ codes "retry at-limit "
        ∷ codes "dropped at-limit" ∷ codes "full " ∷ [] ∷ [])
        ≡ false }
    ensures movdir { list_all (is_answer_to (event.Submit 0 0 Limited Movdir64b fill))
        (codes "accepted 3" ∷ codes "accepted" ∷ codes "dropped not-enabled"
        ∷ codes "dropped wrong-kind" ∷ codes "dropped at-limit" ∷ codes "full" ∷ [])
        ≡ true }
    ensures no_movdir { list_any (is_answer_to (event.Submit 0 0 Limited Movdir64b fill))
        (codes "accepted x" ∷ codes "dropped" ∷ codes "retry at-limit" ∷ [])
        ≡ false }
    ensures dispatch { list_all (is_answer_to (event.Dispatch 0))
        (codes "taken 3 from 1" ∷ codes "taken from 1" ∷ codes "idle" ∷ codes "full" ∷ [])
        ≡ true }
    ensures no_dispatch { list_any (is_answer_to (event.Dispatch 0))
        (codes "taken 0" ∷ codes "taken from 00" ∷ codes "idle " ∷ codes "nothing" ∷ [])
        ≡ false }
    ensures fetch { list_all (is_answer_to (event.Fetch 0 fill))
        (codes "fetched 3" ∷ codes "fetched" ∷ codes "no-batch" ∷ codes "all-fetched" ∷ codes "full"
        ∷ [])
        ≡ true }
    ensures no_fetch { list_any (is_answer_to (event.Fetch 0 fill))
        (codes "fetched three" ∷ codes "no-batch 3" ∷ codes "started 3" ∷ [])
        ≡ false }
    ensures start { list_all (is_answer_to (event.Start 0))
        (codes "started 3" ∷ codes "started" ∷ codes "fence-wait" ∷ codes "no-buffers"
        ∷ codes "abandoned 3" ∷ codes "nothing" ∷ codes "full" ∷ [])
        ≡ true }
    ensures no_start { list_any (is_answer_to (event.Start 0))
        (codes "started 3 4" ∷ codes "abandoned" ∷ codes "fence_wait" ∷ codes "fetched 3" ∷ [])
        ≡ false }
    ensures finish { list_all (is_answer_to (event.Finish 0 (record_ticket 3 0) Success))
        (codes "done 01" ∷ codes "not-ready" ∷ codes "gone" ∷ codes "full" ∷ [])
        ≡ true }
    ensures no_finish { list_any (is_answer_to (event.Finish 0 (record_ticket 3 0) Success))
        (codes "done 1" ∷ codes "done" ∷ codes "done 0A" ∷ codes "not ready" ∷ codes "idle" ∷ [])
        ≡ false }
    ensures command { list_all (is_answer_to (event.Issue DrainAll))
        (codes "ended 3" ∷ codes "active" ∷ codes "refused 17 Busy" ∷ codes "full" ∷ [])
        ≡ true }
    ensures no_command { list_any (is_answer_to (event.Issue DrainAll))
        (codes "ended" ∷ codes "refused" ∷ codes "refused 16 Busy" ∷ codes "finished" ∷ [])
        ≡ false }
    ensures poll { list_all (is_answer_to event.Poll)
        (codes "finished" ∷ codes "active" ∷ codes "nothing" ∷ codes "full" ∷ [])
        ≡ true }
    ensures no_poll { list_any (is_answer_to event.Poll)
        (codes "?" ∷ codes "finished 3" ∷ codes "idle" ∷ [])
        ≡ false }
    ensures write_queue { list_all (is_answer_to (event.WriteQueue 0 queue_of_a_run))
        (codes "written" ∷ codes "refused 15 Locked" ∷ codes "full" ∷ [])
        ≡ true }
    ensures no_write_queue { list_any (is_answer_to (event.WriteQueue 0 queue_of_a_run))
        (codes "refused 5 Locked" ∷ codes "ended 0" ∷ [])
        ≡ false }
    ensures write_group { list_all (is_answer_to (event.WriteGroup 0 group_of_a_run))
        (codes "written" ∷ codes "refused 20 BadIndex" ∷ codes "full" ∷ [])
        ≡ true }
    ensures no_write_group { list_any (is_answer_to (event.WriteGroup 0 group_of_a_run))
        (codes "refused 2 BadGroup" ∷ codes "nothing" ∷ [])
        ≡ false }
    ensures clear { list_all (is_answer_to event.ClearError)
        (codes "cleared 1 at-limit overflow" ∷ codes "nothing" ∷ codes "full" ∷ [])
        ≡ true }
    ensures no_clear { list_any (is_answer_to event.ClearError)
        (codes "cleared 1" ∷ codes "cleared" ∷ codes "active" ∷ [])
        ≡ false }
{}
