//! Answers: which of two queues an engine takes from, slots and buffers, what is stored, and
//! answers that may never come.

ghost use Rattle.std.specs.Prelude.{◌≡◌, ◌++◌, [], ◌∷◌, true, false, take};
ghost use Rattle.dsa_desc.specs.declared.Outcome.TheVariants.{Success};
ghost use Rattle.dsa_regs.specs.declared.Command.TheVariants.{DrainAll};
ghost use Rattle.dsa_regs.specs.declared.Fault.TheVariants.{BadIndex, Locked, WrongState};
ghost use Rattle.dsa_book.specs.declared.answer.Cause.TheVariants.{AtLimit, NotEnabled, WrongKind};
ghost use Rattle.dsa_book.specs.declared.answer.SubmitAnswer.TheVariants.{Retry, Dropped, Full};
ghost use Rattle.dsa_book.specs.declared.answer.DispatchAnswer.TheVariants.{Taken, Idle, Full};
ghost use Rattle.dsa_book.specs.declared.answer.FetchAnswer.TheVariants.{NoBatch, AllFetched, Full};
ghost use Rattle.dsa_book.specs.declared.answer.StartAnswer.TheVariants.{FenceWait, Nothing, Full};
ghost use Rattle.dsa_book.specs.declared.answer.FinishAnswer.TheVariants.{Gone, Full};
ghost use Rattle.dsa_book.specs.declared.answer.IssueAnswer.TheVariants.{Refused, Full};
ghost use Rattle.dsa_book.specs.declared.answer.PollAnswer.TheVariants.{Finished, Nothing, Full};
ghost use Rattle.dsa_book.specs.declared.answer.WriteAnswer.TheVariants.{Written, Refused, Full};
ghost use Rattle.dsa_book.specs.declared.answer.ClearAnswer.TheVariants.{Cleared, Nothing, Full};
ghost use Rattle.dsa_book.specs.declared.answer.Reply.TheVariants.{Submit, Dispatch, Fetch, Start, Finish, Issue, Poll, Clear};
ghost use Rattle.dsa_book.specs.declared.event.Event.TheVariants.{Submit, Dispatch, Fetch, Start, Finish, Issue, Poll, WriteQueue, ClearError};
ghost use Rattle.dsa_book.specs.declared.event.Kind.TheVariants.{Enqcmd, Movdir64b};
ghost use Rattle.dsa_book.specs.declared.event.Portal.TheVariants.{Limited};
ghost use Rattle.dsa_book.specs.Machine.{is_run, is_legal, stored_steps};
ghost use Rattle.dsa_regs.specs.Worked.{caps, shared_queue, first_group};
ghost use Rattle.dsa_worked.specs.Setup.{room, setup, is_run_here, may_not_follow, state_after, no_op, ticket, step, written, movdir, dispatched, step_of_a_fetch, started, finished, issued, polled, cleared, step_of_a_queue_write, step_of_a_group_write, ended, begun, member, step_of_a_take, may_answer, wrong_after};
ghost use Rattle.dsa_worked.specs.Submissions.{one_move, dedicated_queue_overflows};
ghost use Rattle.dsa_worked.specs.Batches.{three_groups, fence_waits};
ghost use Rattle.dsa_worked.specs.Answers.{two_queues_of_a_group, a_choice_of_queues, one_of_two_queues_waits, slots_are_full, one_group, buffers_of_two_engines, engines_that_are_not_there, steps_not_stored, steps_stored, room_for_steps_not_stored, each_event_is_full, may_answer_there};

/// Of two queues with work an engine takes the front of either, and nothing else.
pub fn a_choice_of_queues()
    ensures from_the_first { may_answer_there a_choice_of_queues (step_of_a_take 0 0 0) ≡ true }
    ensures from_the_second { may_answer_there a_choice_of_queues
        (dispatched 0 (Taken (ticket 2 2) 1)) ≡ true }
    ensures one_after_the_other { is_run three_groups room
        (two_queues_of_a_group ++ a_choice_of_queues ++ dispatched 0 (Taken (ticket 2 2) 1)
        ∷ step_of_a_take 0 0 0 ∷ []) ≡ true }
    ensures the_other_engine_has_the_third { may_answer_there a_choice_of_queues
        (dispatched 1 (Taken (ticket 3 3) 2)) ≡ true }
    ensures an_engine_of_no_group_is_idle { may_answer_there a_choice_of_queues (dispatched 2 Idle)
        ≡ true }
    ensures not_from_the_third { may_answer_there a_choice_of_queues
        (dispatched 0 (Taken (ticket 3 3) 2)) ≡ false }
    ensures not_behind_the_front { may_answer_there a_choice_of_queues (step_of_a_take 0 1 1)
        ≡ false }
    ensures not_under_the_other_queue { may_answer_there a_choice_of_queues
        (dispatched 0 (Taken (ticket 0 0) 1)) ≡ false }
    ensures not_under_another_name { may_answer_there a_choice_of_queues (step_of_a_take 0 0 1)
        ≡ false }
    ensures not_idle { may_answer_there a_choice_of_queues (dispatched 0 Idle) ≡ false }
{}

/// Where the front of one queue must wait, the other queue is the only choice.
pub fn one_of_two_queues_waits()
    ensures run { may_answer_there one_of_two_queues_waits (dispatched 0 (Taken (ticket 2 2) 1))
        ≡ true }
    ensures no_second_batch { may_answer_there one_of_two_queues_waits (step_of_a_take 0 1 1)
        ≡ false }
    ensures not_idle { may_answer_there one_of_two_queues_waits (dispatched 0 Idle) ≡ false }
{}

/// An engine has as many entries in progress as it has slots, members not counted.
pub fn slots_are_full()
    ensures run { is_run_here slots_are_full ≡ true }
    ensures members_take_no_slot { wrong_after 5 slots_are_full (dispatched 0 Idle) ≡ true }
    ensures no_third_entry { wrong_after 6 slots_are_full (step_of_a_take 0 3 3) ≡ true }
    ensures not_full_for_good { wrong_after 8 slots_are_full (dispatched 0 Idle) ≡ true }
{}

/// The engines of a group share its buffers, and take from any of its queues.
pub fn buffers_of_two_engines()
    ensures run { is_run caps room (one_group ++ buffers_of_two_engines) ≡ true }
    ensures no_more_than_the_group_may_use { may_answer one_group 5 buffers_of_two_engines
        (step_of_a_take 1 2 2) ≡ false }
    ensures given_back { may_answer one_group 8 buffers_of_two_engines (dispatched 1 Idle) ≡ false }
{}

/// An engine that the device does not have has nothing.
pub fn engines_that_are_not_there()
    ensures run { is_run_here engines_that_are_not_there ≡ true }
    ensures nothing_is_taken { wrong_after 1 engines_that_are_not_there
        (dispatched 2 (Taken (ticket 0 0) 0)) ≡ true }
{}

/// A history keeps none of the first, and all of the second.
pub fn stored_kinds()
    ensures not_stored { stored_steps steps_not_stored ≡ [] }
    ensures stored { stored_steps steps_stored ≡ steps_stored }
    ensures no_history { is_legal caps (polled Nothing ∷ []) ≡ false }
    ensures a_history { is_legal caps setup ≡ true }
{}

/// Steps that are not stored need no room and change nothing: with room for the stored ones alone,
/// Full comes behind the last of these.
pub fn room_for_steps_not_stored()
    ensures run { is_run caps 17 (setup ++ room_for_steps_not_stored) ≡ true }
    ensures not_full_with_more_room { is_run caps 18 (setup ++ room_for_steps_not_stored) ≡ false }
    ensures full_with_less { is_run caps 16 (setup ++ room_for_steps_not_stored) ≡ false }
    ensures nothing_changes { state_after (take 5 room_for_steps_not_stored) ≡ state_after [] }
    ensures nothing_changes_later { state_after (take 10 room_for_steps_not_stored)
        ≡ state_after (take 8 room_for_steps_not_stored) }
{}

/// Each event has its own Full, which comes at a full history alone, and there nothing else may.
pub fn each_event_is_full()
    ensures run { is_run caps 7 (setup ++ each_event_is_full) ≡ true }
    ensures no_submission { is_run caps room (setup ++ take 1 each_event_is_full) ≡ false }
    ensures no_dispatch { may_not_follow [] (dispatched 0 Full) ≡ true }
    ensures no_fetch { may_not_follow [] (step_of_a_fetch 0 no_op Full) ≡ true }
    ensures no_start { may_not_follow [] (started 0 Full) ≡ true }
    ensures no_finish { may_not_follow [] (finished 0 (ticket 0 0) Full) ≡ true }
    ensures no_issue { may_not_follow [] (issued DrainAll Full) ≡ true }
    ensures no_poll { may_not_follow [] (polled Full) ≡ true }
    ensures no_queue_write { may_not_follow [] (step_of_a_queue_write 2 shared_queue Full) ≡ true }
    ensures no_group_write { may_not_follow [] (step_of_a_group_write 2 first_group Full) ≡ true }
    ensures no_clear { may_not_follow [] (cleared Full) ≡ true }
    ensures nothing_for_a_poll { is_run caps 7 (setup ++ polled Nothing ∷ []) ≡ false }
    ensures nothing_for_a_dispatch { is_run caps 7 (setup ++ dispatched 0 Idle ∷ []) ≡ false }
    ensures of_another_kind { is_run caps 7 (setup ++ step Poll (Clear Full) ∷ []) ≡ false }
{}

/// An event is answered by a reply of its own kind.
pub fn replies_of_another_kind()
    ensures submission { may_not_follow []
        (step (Submit 0 0 Limited (Enqcmd 5) no_op) (Dispatch Idle))
        ≡ true }
    ensures dispatch { may_not_follow [] (step (Dispatch 0) (Fetch NoBatch)) ≡ true }
    ensures fetch { may_not_follow [] (step (Fetch 0 no_op) (Start Nothing)) ≡ true }
    ensures start { may_not_follow [] (step (Start 0) (Finish Gone)) ≡ true }
    ensures finish { may_not_follow [] (step (Finish 0 (ticket 0 0) Success) (Poll Nothing))
        ≡ true }
    ensures issue { may_not_follow [] (step (Issue DrainAll) (Poll Finished)) ≡ true }
    ensures poll { may_not_follow [] (step Poll (Clear Nothing)) ≡ true }
    ensures write { may_not_follow [] (step (WriteQueue 0 shared_queue) (Issue (Refused Locked)))
        ≡ true }
    ensures clear { may_not_follow [] (step ClearError (Poll Nothing)) ≡ true }
{}

/// A write that is refused has the fault of its first cause.
pub fn faults_of_writes()
    ensures run { is_run_here
        (step_of_a_queue_write 0 shared_queue (Refused Locked)
        ∷ step_of_a_queue_write 2 shared_queue (Refused BadIndex)
        ∷ step_of_a_group_write 0 first_group (Refused Locked)
        ∷ step_of_a_group_write 2 first_group (Refused BadIndex)
        ∷ [])
        ≡ true }
    ensures locked_is_no_bad_index { may_not_follow []
        (step_of_a_queue_write 0 shared_queue (Refused BadIndex))
        ≡ true }
    ensures locked_is_no_wrong_state { may_not_follow []
        (step_of_a_queue_write 0 shared_queue (Refused WrongState))
        ≡ true }
    ensures a_bad_index_is_not_locked { may_not_follow []
        (step_of_a_queue_write 2 shared_queue (Refused Locked))
        ≡ true }
    ensures of_a_group { may_not_follow [] (step_of_a_group_write 0 first_group (Refused BadIndex))
        ≡ true }
    ensures of_no_group { may_not_follow [] (step_of_a_group_write 2 first_group (Refused Locked))
        ≡ true }
    ensures not_written { may_not_follow [] (step_of_a_queue_write 0 shared_queue Written) ≡ true }
    ensures no_group_is_written { may_not_follow [] (step_of_a_group_write 2 first_group Written)
        ≡ true }
{}

/// A descriptor that is dropped, and one that is to come again, has the first cause that stands.
pub fn causes_of_drops()
    ensures at_limit { wrong_after 2 dedicated_queue_overflows (movdir no_op (Dropped WrongKind))
        ≡ true }
    ensures at_limit_is_not_off { wrong_after 2 dedicated_queue_overflows
        (movdir no_op (Dropped NotEnabled)) ≡ true }
    ensures a_drop_is_no_retry { wrong_after 2 dedicated_queue_overflows
        (movdir no_op (Retry AtLimit)) ≡ true }
    ensures wrong_kind { may_not_follow [] (written 0 Limited Movdir64b no_op (Dropped AtLimit))
        ≡ true }
    ensures wrong_kind_before_the_limit { wrong_after 2 dedicated_queue_overflows
        (written 1 Limited (Enqcmd 5) no_op (Retry AtLimit)) ≡ true }
    ensures a_retry_is_no_drop { may_not_follow []
        (written 1 Limited (Enqcmd 5) no_op (Dropped WrongKind))
        ≡ true }
    ensures not_enabled { may_not_follow [] (written 9 Limited Movdir64b no_op (Dropped WrongKind))
        ≡ true }
    ensures not_enabled_is_no_limit { may_not_follow []
        (written 9 Limited (Enqcmd 5) no_op (Retry AtLimit))
        ≡ true }
    ensures another_queue_is_not_noted { wrong_after 3 dedicated_queue_overflows
        (cleared (Cleared (record { queue = 0; cause = AtLimit; overflow = false }))) ≡ true }
    ensures another_cause_is_not_noted { wrong_after 3 dedicated_queue_overflows
        (cleared (Cleared (record { queue = 1; cause = WrongKind; overflow = false }))) ≡ true }
    ensures one_drop_is_no_overflow { wrong_after 3 dedicated_queue_overflows
        (cleared (Cleared (record { queue = 1; cause = AtLimit; overflow = true }))) ≡ true }
    ensures something_is_noted { wrong_after 3 dedicated_queue_overflows (cleared Nothing) ≡ true }
{}

/// Tickets in answers are of the right cell and name.
pub fn tickets_of_answers()
    ensures fetched_under_another_name { wrong_after 2 fence_waits (member 0 no_op 1 2) ≡ true }
    ensures fetched_in_a_cell_in_use { wrong_after 2 fence_waits (member 0 no_op 0 1) ≡ true }
    ensures fetched_past_the_last_cell { wrong_after 2 fence_waits (member 0 no_op 28 1) ≡ true }
    ensures started_under_another_name { wrong_after 6 fence_waits (begun 0 1 2) ≡ true }
    ensures started_in_another_cell { wrong_after 6 fence_waits (begun 0 2 1) ≡ true }
    ensures taken_under_another_name { wrong_after 1 one_move (step_of_a_take 0 0 1) ≡ true }
    ensures taken_in_another_cell { wrong_after 1 one_move (step_of_a_take 0 1 0) ≡ true }
    ensures nothing_is_started_twice { wrong_after 7 fence_waits (begun 0 1 1) ≡ true }
    ensures no_wait_without_a_member { may_not_follow [] (started 0 FenceWait) ≡ true }
    ensures not_nothing_with_a_member { wrong_after 6 fence_waits (started 0 Nothing) ≡ true }
    ensures not_all_fetched_before_the_count { wrong_after 4 fence_waits
        (step_of_a_fetch 0 no_op AllFetched) ≡ true }
    ensures all_fetched_is_no_want_of_a_batch { wrong_after 5 fence_waits
        (step_of_a_fetch 0 no_op NoBatch) ≡ true }
    ensures nothing_ends_twice { may_not_follow one_move (ended 0 0 0 0x01) ≡ true }
{}
