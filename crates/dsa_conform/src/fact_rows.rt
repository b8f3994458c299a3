//! Worked facts against answers, by computation.

ghost use Rattle.std.specs.Prelude.{ℕ, List, ◌≡◌, [], ◌∷◌, Some, None, Ok, Err, true, false, codes, map};
ghost use Rattle.dsa_book.specs.declared.event.Event.TheVariants as event;
ghost use Rattle.dsa_book.specs.declared.event.Kind.TheVariants.{Enqcmd, Movdir64b};
ghost use Rattle.dsa_book.specs.declared.event.Portal.TheVariants.{Limited, Unlimited};
ghost use Rattle.dsa_book.specs.declared.answer.DispatchAnswer.TheVariants.{Idle};
ghost use Rattle.dsa_book.specs.declared.answer.Reply.TheVariants as reply;
ghost use Rattle.dsa_book.specs.Machine.{intake_of};
ghost use Rattle.dsa_desc.specs.declared.Outcome.TheVariants.{PageFault, Success};
ghost use Rattle.dsa_engines.specs.declared.reasons.QueueReason.TheVariants.{NoBuffers};
ghost use Rattle.dsa_queues.specs.declared.reasons.SubmitReason.TheVariants as submit;
ghost use Rattle.dsa_regs.specs.declared.Phase.TheVariants.{On};
ghost use Rattle.dsa_scenario.specs.declared.run.Record.TheVariants.{Refused};
ghost use Rattle.dsa_regs.specs.declared.Command.TheVariants.{AbortAll, DrainAll, EnableDevice, EnableWq};
ghost use Rattle.dsa_device.specs.Running.{running_at_first};
ghost use Rattle.dsa_scenario.specs.Steps.{standing};
ghost use Rattle.dsa_scenario.specs.Worked.{caps_of_a_run, fill, group_of_a_run, no_command, queue_of_a_run, record_ticket, smallest_caps};
ghost use Rattle.dsa_conform.specs.Seen.{nothing_seen};
ghost use Rattle.dsa_conform.specs.Against.{ended_fact, fact_against, fetch_fact, first_text, is_possible, issue_fact, kind_label, late_fact, name_of_reply, name_taken, passed_fact, queue_fact, row_of_reason, row_of_text, row_seen, taken_fact, unmarked};
ghost use Rattle.dsa_conform.specs.Facts.{may_start_words, next_name_words, no_failure_words, noted_words, queue_count_words, removes_nothing_words, room_words, unlocked_words, waits_for_nothing_words};
ghost use Rattle.dsa_conform.specs.Worked.{after_a_take_with_room, after_all, after_all_with_batches, after_some, against_at, answered, answered_with, caps_of_three_queues, flagged, records_of_two_queues, smallest_device_at_first, state_with_a_drain, submitted_to, want_of_a_row, with_room, work_beside_a_group, work_of_a_batch};

/// Sentences of facts.
#[tactic(auto, unfolding(dsa_scenario::specs::Worked::digits_on_literals))]
pub fn sentences()
    ensures room { room_words 9 1 ≡ codes "the history has room for 9 steps, and has 1" }
    ensures one_room { room_words 1 0 ≡ codes "the history has room for 1 step, and has 0" }
    ensures name { next_name_words 12 ≡ codes "the next name is 12" }
    ensures queues { queue_count_words 2 ≡ codes "the device has 2 queues" }
    ensures one_queue { queue_count_words 1 ≡ codes "the device has 1 queue" }
    ensures start { may_start_words 3 ≡ codes "e3 has a member that may start" }
    ensures waits { waits_for_nothing_words 7 ≡ codes "7 waits for nothing" }
    ensures failed { no_failure_words 7 ≡ codes "nothing of 7 failed" }
    ensures removes { removes_nothing_words ≡ codes "the command removes no entry" }
    ensures unlocked { unlocked_words ≡ codes "the device has it, and nothing locks it" }
    ensures noted { noted_words 2 ≡ codes "an error of q2 is noted" }
{}

/// What a step of a kind is never answered, and what a history without room is.
#[tactic(auto, unfolding(crate::specs::Worked::texts_on_literals))]
pub fn never()
    ensures no_answer { against_at smallest_device_at_first event.Poll (codes "?")
        ≡ codes "no poll is answered so" }
    ensures other_kind { against_at after_all (event.Dispatch 0) (codes "no-batch")
        ≡ codes "no dispatch is answered so" }
    ensures misspelled { against_at after_all (submitted_to 0) (codes "retry-at-limit")
        ≡ codes "no enqcmd is answered so" }
    ensures no_flag { fact_against smallest_device_at_first (Ok event.Poll) (flagged true)
        ≡ codes "no poll is answered so" }
    ensures flag_beside { fact_against smallest_device_at_first (Ok event.Poll)
        (answered_with (codes "nothing") false)
        ≡ codes "no poll is answered so" }
    ensures retry_of_movdir { against_at after_all
        (event.Submit 0 0 Limited Movdir64b fill) (codes "retry at-limit")
        ≡ codes "no movdir is answered so" }
    ensures flag_of_movdir { fact_against after_all
        (Ok (event.Submit 0 0 Limited Movdir64b fill)) (flagged false)
        ≡ codes "no movdir is answered so" }
    ensures labels { map kind_label
        (event.Fetch 0 fill
        ∷ event.Start 0
        ∷ event.Finish 0 (record_ticket 3 0) Success
        ∷ event.Issue DrainAll
        ∷ event.WriteQueue 0 queue_of_a_run
        ∷ event.WriteGroup 0 group_of_a_run
        ∷ event.ClearError
        ∷ [])
        ≡ codes "fetch" ∷ codes "start" ∷ codes "finish" ∷ codes "command" ∷ codes "queue"
        ∷ codes "group" ∷ codes "clear" ∷ [] }
    ensures word { fact_against after_all (Err no_command) (answered (codes "refused 17 Busy"))
        ≡ codes "no command has the number 0, with 0 in bits 30:25" }
    ensures ended_word { fact_against after_all (Err no_command) (answered (codes "ended 0"))
        ≡ codes "no command is answered so" }
    ensures flag_of_word { fact_against after_all (Err no_command)
        (answered_with (codes "refused 13 BadCommand") true)
        ≡ codes "no command is answered so" }
    ensures no_room { against_at (running_at_first smallest_caps 0) event.Poll (codes "nothing")
        ≡ codes "the history has room for 0 steps" }
    ensures room_first { against_at (standing caps_of_three_queues 8 records_of_two_queues)
        (submitted_to 0) (codes "retry not-enabled")
        ≡ codes "the history has room for 8 steps" }
    ensures never_before_room { against_at (running_at_first smallest_caps 0) event.Poll
        (codes "idle")
        ≡ codes "no poll is answered so" }
    ensures room { against_at smallest_device_at_first event.Poll (codes "full")
        ≡ codes "the history has room for 9 steps, and has 0" }
    ensures made { against_at (after_some 7) event.Poll (codes "full")
        ≡ codes "the history has room for 9 steps, and has 7" }
{}

/// Facts against answers to submissions: a check that was passed, the one that decides, or the
/// name.
#[tactic(auto, unfolding(crate::specs::Worked::texts_on_literals))]
pub fn submissions()
    ensures enabled { against_at after_all (submitted_to 0) (codes "retry not-enabled")
        ≡ codes "the device is on, and q0 is on" }
    ensures kind { against_at after_all (submitted_to 0) (codes "retry wrong-kind")
        ≡ codes "q0 is shared, and takes enqcmd" }
    ensures limit { against_at after_all (submitted_to 2) (codes "retry at-limit")
        ≡ codes "q2 holds 1 entry, and the limited portal goes up to 8" }
    ensures empty { against_at (after_some 6) (submitted_to 2) (codes "retry at-limit")
        ≡ codes "q2 holds 0 entries, and the limited portal goes up to 8" }
    ensures flag { fact_against after_all (Ok (submitted_to 0)) (flagged true)
        ≡ codes "q0 holds 1 entry, and the limited portal goes up to 8" }
    ensures flag_of_accepted { fact_against after_all (Ok (submitted_to 0))
        (answered_with (codes "accepted") true)
        ≡ codes "q0 holds 1 entry, and the limited portal goes up to 8" }
    ensures flag_of_kind { fact_against after_all (Ok (submitted_to 0))
        (answered_with (codes "retry wrong-kind") true)
        ≡ codes "q0 is shared, and takes enqcmd" }
    ensures name { against_at after_all (submitted_to 0) (codes "accepted 7")
        ≡ codes "the next name is 2" }
    ensures off { against_at after_all (submitted_to 1) (codes "accepted")
        ≡ codes "the device is on, and q1 is off" }
    ensures off_first { against_at after_all (submitted_to 1) (codes "retry at-limit")
        ≡ codes "the device is on, and q1 is off" }
    ensures off_by_flag { fact_against after_all (Ok (submitted_to 1)) (flagged false)
        ≡ codes "the device is on, and q1 is off" }
    ensures none { against_at after_all (submitted_to 3) (codes "retry at-limit")
        ≡ codes "the device has no q3" }
    ensures other_kind { against_at after_all (event.Submit 0 0 Limited Movdir64b fill)
        (codes "dropped at-limit")
        ≡ codes "q0 is shared, and takes enqcmd" }
    ensures before_kind { against_at after_all (event.Submit 0 0 Limited Movdir64b fill)
        (codes "dropped not-enabled")
        ≡ codes "the device is on, and q0 is on" }
    ensures rows { row_seen (Some (codes "retry at-limit")) (Some false) ≡ 2 }
    ensures accepted_row { row_seen (Some (codes "accepted")) None ≡ 3 }
    ensures set_row { row_seen (Some (codes "accepted")) (Some true) ≡ 2 }
    ensures clear_row { row_seen None (Some false) ≡ 3 }
{}

/// Facts against what an engine was seen to take.
#[tactic(auto, unfolding(crate::specs::Worked::texts_on_literals))]
pub fn takes()
    ensures idle { against_at after_all (event.Dispatch 0) (codes "idle")
        ≡ codes "e0 may take 0 from q0" }
    ensures idle_later { against_at after_a_take_with_room (event.Dispatch 1) (codes "idle")
        ≡ codes "e1 may take 1 from q2" }
    ensures no_group { against_at after_all (event.Dispatch 0) (codes "taken from 1")
        ≡ codes "q1 is not in group 0" }
    ensures no_queue { against_at after_all (event.Dispatch 0) (codes "taken from 3")
        ≡ codes "the device has 3 queues" }
    ensures other_name { against_at after_all (event.Dispatch 0) (codes "taken 0 from 2")
        ≡ codes "q2's front is 1" }
    ensures empty { against_at after_a_take_with_room (event.Dispatch 0) (codes "taken 0 from 0")
        ≡ codes "q0 is empty" }
    ensures no_engine { against_at after_all (event.Dispatch 2) (codes "taken from 0")
        ≡ codes "the device has no e2" }
    ensures idle_by_nature { against_at (after_some 6) (event.Dispatch 0) (codes "taken from 2")
        ≡ codes "q2 is empty" }
{}

/// Facts against answers of other steps.
#[tactic(auto, unfolding(crate::specs::Worked::texts_on_literals))]
pub fn others()
    ensures gone { against_at after_a_take_with_room
        (event.Finish 0 (record_ticket 3 0) Success) (codes "gone")
        ≡ codes "the entry stands in e0" }
    ensures not_ready { against_at after_a_take_with_room
        (event.Finish 0 (record_ticket 3 0) Success) (codes "not-ready")
        ≡ codes "0 waits for nothing" }
    ensures other_status { against_at after_a_take_with_room
        (event.Finish 0 (record_ticket 3 0) Success) (codes "done 03")
        ≡ codes "nothing of 0 failed" }
    ensures page_fault { against_at after_a_take_with_room
        (event.Finish 0 (record_ticket 3 0) PageFault) (codes "done 01")
        ≡ codes "page fault" }
    ensures in_queue { against_at after_all (event.Finish 0 (record_ticket 3 0) Success)
        (codes "done 01")
        ≡ codes "the entry stands in q0" }
    ensures no_name { against_at after_all (event.Finish 0 (record_ticket 9 7) Success)
        (codes "not-ready")
        ≡ codes "no entry has the name 7" }
    ensures no_batch { against_at after_all (event.Fetch 0 fill) (codes "fetched")
        ≡ codes "e0 works on no batch" }
    ensures no_member { against_at after_all (event.Start 0) (codes "started 4")
        ≡ codes "no member waits on e0" }
    ensures not_busy { against_at after_all (event.Issue (EnableWq 1)) (codes "refused 17 Busy")
        ≡ codes "no command is active" }
    ensures wrong_phase { against_at after_all (event.Issue (EnableWq 2)) (codes "ended 0")
        ≡ codes "q2 is on" }
    ensures waits { against_at after_all (event.Issue DrainAll) (codes "ended 0")
        ≡ codes "the command waits for 2 entries, q0: 0; q2: 1" }
    ensures waits_for_none { against_at (after_some 6) (event.Issue DrainAll) (codes "active")
        ≡ codes "the command waits for 0 entries" }
    ensures removes { against_at after_all (event.Issue AbortAll) (codes "ended 1")
        ≡ codes "q0 loses 0; q2 loses 1" }
    ensures removes_none { against_at (after_some 6) (event.Issue AbortAll) (codes "ended 1")
        ≡ codes "the command removes no entry" }
    ensures poll { against_at after_all event.Poll (codes "finished")
        ≡ codes "no command is active" }
    ensures written { against_at after_all (event.WriteQueue 3 queue_of_a_run) (codes "written")
        ≡ codes "the device has 3 queues" }
    ensures unlocked { against_at smallest_device_at_first (event.WriteGroup 0 group_of_a_run)
        (codes "refused 15 Locked")
        ≡ codes "the device has it, and nothing locks it" }
    ensures cleared { against_at after_all event.ClearError (codes "cleared 0 at-limit")
        ≡ codes "no error is noted" }
    ensures part { unmarked (codes ": q1 is empty") ≡ codes "q1 is empty" }
    ensures no_part { unmarked [] ≡ [] }
    ensures first { first_text (codes "a") (codes "b") ≡ codes "a" }
    ensures second { first_text [] (codes "b") ≡ codes "b" }
{}

/// The rows of the table of a submission, by what was seen and by what decides.
pub fn rows_of_submissions()
    ensures texts { map row_of_text
        (codes "retry not-enabled" ∷ codes "dropped not-enabled" ∷ codes "retry wrong-kind"
        ∷ codes "dropped wrong-kind" ∷ codes "retry at-limit" ∷ codes "dropped at-limit"
        ∷ codes "accepted" ∷ [])
        ≡ 0 ∷ 0 ∷ 1 ∷ 1 ∷ 2 ∷ 2 ∷ 3 ∷ [] }
    ensures reasons { map row_of_reason
        (Some (submit.NotEnabled On None)
        ∷ Some (submit.WrongKind true)
        ∷ Some (submit.AtLimit 1 8 Limited)
        ∷ None
        ∷ [])
        ≡ 0 ∷ 1 ∷ 2 ∷ 3 ∷ [] }
    ensures decides { passed_fact (intake_of after_all.state) 0 Limited 1 1 ≡ [] }
    ensures no_name { name_of_reply (reply.Dispatch Idle) ≡ 0 }
    ensures refused { name_taken (Refused no_command) ≡ 0 }
{}

/// Facts against a take, where the numbers of a device differ.
#[tactic(auto, unfolding(crate::specs::Worked::texts_on_literals))]
pub fn further_takes()
    ensures last_digit { against_at after_all (event.Dispatch 0) (codes "taken from 12")
        ≡ codes "the device has 3 queues" }
    ensures queues { against_at after_all_with_batches (event.Dispatch 0) (codes "taken from 3")
        ≡ codes "the device has 3 queues" }
    ensures queue_count { taken_fact after_all_with_batches.state.work 0 None None
        ≡ codes "the device has 3 queues" }
    ensures kept { queue_fact work_beside_a_group 0 0 None (Some (NoBuffers want_of_a_row))
        ≡ codes "q0's front 0 needs 4 read buffers, group 0 uses 5 of 6, all groups use 8 of 7, and 9 are kept, 4 for group 1" }
    ensures other_name { against_at after_a_take_with_room (event.Dispatch 0) (codes "idle")
        ≡ codes "e0 may take 1 from q2" }
{}

/// Facts against other answers, where several could be meant.
#[tactic(auto, unfolding(crate::specs::Worked::texts_on_literals))]
pub fn further_others()
    ensures busy { issue_fact state_with_a_drain DrainAll (codes "refused 17 Busy") ≡ [] }
    ensures not_issued { issue_fact state_with_a_drain DrainAll (codes "active") ≡ [] }
    ensures ended { ended_fact state_with_a_drain.active
        ≡ codes "drain-all has ended, and no poll has reported it" }
    ensures fetched { fetch_fact work_of_a_batch 0 (codes "fetched 7")
        ≡ codes "the next name is 2" }
    ensures no_batch { fetch_fact work_of_a_batch 0 (codes "no-batch")
        ≡ codes "e0 has fetched 2 of 5 members" }
    ensures late_poll { late_fact state_with_a_drain event.Poll nothing_seen
        ≡ codes "drain-all has ended, and no poll has reported it" }
    ensures late_dispatch { late_fact state_with_a_drain (event.Dispatch 0) nothing_seen ≡ [] }
    ensures late_fetch { late_fact state_with_a_drain (event.Fetch 0 fill) nothing_seen
        ≡ codes "e0 has fetched 0 of 0 members" }
    ensures late_start { late_fact state_with_a_drain (event.Start 0) nothing_seen
        ≡ codes "e0 has a member that may start" }
    ensures late_write { late_fact state_with_a_drain (event.WriteQueue 0 queue_of_a_run)
        nothing_seen
        ≡ codes "the device has it, and nothing locks it" }
    ensures without_blank { unmarked (codes ":q1 is empty") ≡ [] }
    ensures room { against_at (with_room 12 smallest_device_at_first) event.Poll (codes "full")
        ≡ codes "the history has room for 9 steps, and has 0" }
    ensures no_room { against_at (with_room 7 (after_some 7)) event.Poll (codes "full")
        ≡ codes "the history has room for 9 steps, and has 7" }
{}
