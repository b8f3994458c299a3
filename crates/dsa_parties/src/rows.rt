//! Worked rows: what scripts, turns and replies come to, each on a function with nothing to do.

ghost use Rattle.std.specs.Prelude.{◌≡◌, Some, None, [], ◌∷◌, map, true, false};
ghost use Rattle.std.specs.declared.alloc.Global.{Global};
ghost use Rattle.dsa_desc.specs.declared.Outcome.TheVariants as outcome;
ghost use Rattle.dsa_regs.specs.declared.Command.TheVariants.{AbortAll, DrainAll};
ghost use Rattle.dsa_regs.specs.declared.Fault.TheVariants.{BadIndex, Busy};
ghost use Rattle.dsa_book.specs.declared.answer.Cause.TheVariants.{AtLimit};
ghost use Rattle.dsa_book.specs.declared.answer.IssueAnswer.TheVariants as issue;
ghost use Rattle.dsa_book.specs.declared.answer.PollAnswer.TheVariants as poll;
ghost use Rattle.dsa_book.specs.declared.answer.Reply.TheVariants as reply;
ghost use Rattle.dsa_book.specs.declared.answer.SubmitAnswer.TheVariants as submit;
ghost use Rattle.dsa_parties.specs.declared.places.Move.TheVariants as moves;
ghost use Rattle.dsa_parties.specs.declared.script.Act.TheVariants as act;
ghost use Rattle.dsa_parties.specs.declared.script.RetryPolicy.TheVariants as policy;
ghost use Rattle.dsa_parties.specs.declared.script.Until.TheVariants as until;
ghost use Rattle.dsa_parties.specs.Offers.{may_give, moves_of, next_member};
ghost use Rattle.dsa_parties.specs.Scripts.{is_boundary, is_member_label, is_script, member_count};
ghost use Rattle.dsa_parties.specs.Standing.{act_of, ends_polling, is_through, next_act, place_after, standing_after, standing_first};
ghost use Rattle.dsa_parties.specs.Worked.{all_at, clients_parted_at, five_entries, four_acts, note_of_label, operation_of_size, part_between, place_at, turn_by, two_parts, worked_script};

/// Which scripts fit.
pub fn scripts_that_fit()
    ensures whole { is_script five_entries (clients_parted_at 4) four_acts two_parts ≡ true }
    ensures other_part { is_script five_entries (clients_parted_at 3) four_acts two_parts ≡ true }
    ensures within_a_batch { is_script five_entries (clients_parted_at 2) four_acts two_parts
        ≡ false }
    ensures acts_left { is_script five_entries (clients_parted_at 4) four_acts
        (part_between 0 3 ∷ [])
        ≡ false }
    ensures a_gap { is_script five_entries (clients_parted_at 4) four_acts
        (part_between 0 2 ∷ part_between 3 4 ∷ []) ≡ false }
    ensures nothing { is_script [] [] [] [] ≡ true }
{}

/// What the labels of a script are of.
pub fn labels_of_entries()
    ensures members { map (member_count five_entries) (0 ∷ 1 ∷ 2 ∷ 3 ∷ 4 ∷ 5 ∷ [])
        ≡ 2 ∷ 0 ∷ 0 ∷ 0 ∷ 0 ∷ 0 ∷ [] }
    ensures of_batch { map (is_member_label five_entries 0) (0 ∷ 1 ∷ 2 ∷ 3 ∷ [])
        ≡ false ∷ true ∷ true ∷ false ∷ [] }
    ensures boundaries { map (is_boundary five_entries) (0 ∷ 1 ∷ 2 ∷ 3 ∷ 4 ∷ 5 ∷ [])
        ≡ true ∷ false ∷ false ∷ true ∷ true ∷ true ∷ [] }
    ensures successes { map (λ label. may_give five_entries label outcome.Success)
        (0 ∷ 1 ∷ 2 ∷ 5 ∷ []) ≡ true ∷ false ∷ true ∷ false ∷ [] }
    ensures faults { map (λ label. may_give five_entries label outcome.PageFault)
        (0 ∷ 1 ∷ 2 ∷ 5 ∷ []) ≡ true ∷ true ∷ false ∷ false ∷ [] }
{}

/// The member that is fetched next.
pub fn members_in_turn()
    ensures first { next_member five_entries (note_of_label 0 0 false)
        ≡ Some (record { label = 1; desc = operation_of_size 3 4096 }) }
    ensures second { next_member five_entries (note_of_label 0 1 false)
        ≡ Some (record { label = 2; desc = operation_of_size 5 64 }) }
    ensures no_third { next_member five_entries (note_of_label 0 2 false) ≡ None }
    ensures closed { next_member five_entries (note_of_label 0 1 true) ≡ None }
    ensures no_batch { next_member five_entries (note_of_label 3 0 false) ≡ None }
{}

/// Where a client stands after an answer.
pub fn places_after_answers()
    ensures accepted { place_after (reply.Submit (submit.Dropped AtLimit)) (turn_by policy.Again 1)
        ≡ place_at 5 0 }
    ensures gives_up { place_after (reply.Submit (submit.Retry AtLimit)) (turn_by policy.GiveUp 0)
        ≡ place_at 5 0 }
    ensures again { place_after (reply.Submit (submit.Retry AtLimit)) (turn_by policy.Again 0)
        ≡ place_at 4 0 }
    ensures once_more { place_after (reply.Submit (submit.Retry AtLimit))
        (turn_by (policy.AtMost 2) 1) ≡ place_at 4 2 }
    ensures no_more { place_after (reply.Submit (submit.Retry AtLimit))
        (turn_by (policy.AtMost 2) 2) ≡ place_at 5 0 }
{}

/// Which answers end an act.
pub fn acts_that_are_over()
    ensures once { map (ends_polling until.Once) (poll.Finished ∷ poll.Active ∷ poll.Nothing ∷ [])
        ≡ true ∷ true ∷ true ∷ [] }
    ensures finished { map (ends_polling until.Finished)
        (poll.Finished ∷ poll.Active ∷ poll.Nothing ∷ []) ≡ true ∷ false ∷ false ∷ [] }
    ensures over { map (ends_polling until.Over) (poll.Finished ∷ poll.Active ∷ poll.Nothing ∷ [])
        ≡ true ∷ false ∷ true ∷ [] }
    ensures again { map (λ answer. is_through (reply.Issue answer) (act.Issue DrainAll true))
        (issue.Refused Busy ∷ issue.Refused BadIndex ∷ issue.Active ∷ issue.Ended 3 ∷ [])
        ≡ false ∷ true ∷ true ∷ true ∷ [] }
    ensures once_issued { is_through (reply.Issue (issue.Refused Busy)) (act.Issue AbortAll false)
        ≡ true }
{}

/// What two administrators do next, and where all stand after their moves.
pub fn moves_of_a_script()
    ensures first { (memory : Global) → standing_first (worked_script memory)
        ≡ all_at (place_at 0 0) (place_at 4 0) 0 3 }
    ensures acts { (memory : Global) → map (act_of (worked_script memory)
        (all_at (place_at 0 0) (place_at 4 0) 1 4)) (0 ∷ 1 ∷ 2 ∷ [])
        ≡ Some (act.Poll until.Over) ∷ None ∷ None ∷ [] }
    ensures next { (memory : Global) → map (next_act (worked_script memory)
        (all_at (place_at 0 0) (place_at 4 0) 1 3)) (0 ∷ 1 ∷ 2 ∷ []) ≡ Some 1 ∷ Some 3 ∷ None ∷ [] }
    ensures behind_a_batch { (memory : Global) → standing_after (worked_script memory)
        (all_at (place_at 0 0) (place_at 4 0) 0 3) (moves.Client 0)
        (reply.Submit (submit.Dropped AtLimit))
        ≡ all_at (place_at 3 0) (place_at 4 0) 0 3 }
    ensures behind_a_poll { (memory : Global) → standing_after (worked_script memory)
        (all_at (place_at 0 0) (place_at 4 0) 1 3) (moves.Administrator 0)
        (reply.Poll poll.Nothing)
        ≡ all_at (place_at 0 0) (place_at 4 0) 2 3 }
    ensures by_an_engine { (memory : Global) → standing_after (worked_script memory)
        (all_at (place_at 0 0) (place_at 4 0) 1 3) (moves.Start 3)
        (reply.Poll poll.Nothing)
        ≡ all_at (place_at 0 0) (place_at 4 0) 1 3 }
    ensures all { (memory : Global) → moves_of (worked_script memory)
        ≡ moves.Client 0 ∷ moves.Client 1 ∷ moves.Administrator 0 ∷ moves.Administrator 1
        ∷ moves.Dispatch 0 ∷ moves.Dispatch 3 ∷ moves.Fetch 0 ∷ moves.Fetch 3 ∷ moves.Start 0
        ∷ moves.Start 3 ∷ [] }
{}
