//! Batches beside other work: what a batch waits for, what marks it as failed, fences, the limits
//! of its queue, and aborts.

ghost use Rattle.std.specs.Prelude.{◌≡◌, ◌++◌, [], ◌∷◌, Some, None, true, false, take};
ghost use Rattle.dsa_regs.specs.declared.Command.TheVariants.{AbortAll, AbortWq};
ghost use Rattle.dsa_book.specs.declared.answer.DispatchAnswer.TheVariants.{Idle};
ghost use Rattle.dsa_book.specs.declared.answer.FetchAnswer.TheVariants.{NoBatch, AllFetched};
ghost use Rattle.dsa_book.specs.declared.answer.StartAnswer.TheVariants.{FenceWait, NoBuffers, Abandoned};
ghost use Rattle.dsa_book.specs.declared.answer.FinishAnswer.TheVariants.{Done, NotReady, Gone};
ghost use Rattle.dsa_book.specs.declared.answer.IssueAnswer.TheVariants.{Ended};
ghost use Rattle.dsa_book.specs.declared.fate.Fate.TheVariants.{Aborted, Abandoned};
ghost use Rattle.dsa_book.specs.Machine.{is_run};
ghost use Rattle.dsa_regs.specs.Worked.{caps};
ghost use Rattle.dsa_worked.specs.Setup.{room, is_run_here, fates_after, content_after, row, held_entry, no_op, batch, ticket, masked, dispatched, step_of_a_fetch, started, finished, faulted, issued, ended, begun, member, step_of_a_take, may_answer, completed, completed_in, no_entries, with_list, wrong_after};
ghost use Rattle.dsa_worked.specs.Members.{batch_is_not_ready, batches_beside_a_batch, failures_beside_a_batch, three_are_abandoned, fence_waits_behind_a_failure, no_fence_behind_a_failure, fence_on_an_unsupported_operation, few_buffers, fence_before_buffers, failure_before_buffers, small_limits, limits_of_a_queue, abort_of_all_lists, abort_beside_a_batch};

/// A batch ends when all its members were fetched and have ended, with 0x01 whatever the outcome
/// that it is ended with.
pub fn batch_is_not_ready()
    ensures run { is_run_here batch_is_not_ready ≡ true }
    ensures fates { fates_after batch_is_not_ready
        ≡ Some (completed_in 0 1 0x01 ∷ completed_in 0 2 0x01 ∷ completed 0 0x01 ∷ []) }
    ensures not_with_none_fetched { wrong_after 2 batch_is_not_ready (ended 0 0 0 0x01) ≡ true }
    ensures not_with_one_to_fetch { wrong_after 6 batch_is_not_ready (ended 0 0 0 0x01) ≡ true }
    ensures not_with_one_that_waits { wrong_after 8 batch_is_not_ready (ended 0 0 0 0x01) ≡ true }
    ensures not_with_one_that_runs { wrong_after 10 batch_is_not_ready (ended 0 0 0 0x01) ≡ true }
    ensures not_gone { wrong_after 6 batch_is_not_ready (finished 0 (ticket 0 0) Gone) ≡ true }
    ensures no_longer_than_that { wrong_after 12 batch_is_not_ready
        (finished 0 (ticket 0 0) NotReady) ≡ true }
    ensures no_fault_of_its_own { wrong_after 12 batch_is_not_ready
        (faulted 0 (ticket 0 0) (Done 0x03)) ≡ true }
{}

/// An engine works on one well-formed batch at a time. One that is not well formed is no batch, and
/// its failure is not the other's.
pub fn batches_beside_a_batch()
    ensures run { is_run_here batches_beside_a_batch ≡ true }
    ensures fates { fates_after batches_beside_a_batch
        ≡ Some (completed 1 0x14 ∷ completed_in 0 2 0x01 ∷ completed_in 0 4 0x01 ∷ completed 0 0x01
        ∷ []) }
    ensures one_that_is_not_well_formed_is_taken { wrong_after 3 batches_beside_a_batch
        (dispatched 0 Idle) ≡ true }
    ensures the_open_batch_is_still_open { wrong_after 4 batches_beside_a_batch
        (step_of_a_fetch 0 no_op NoBatch) ≡ true }
    ensures no_second_batch { wrong_after 7 batches_beside_a_batch (step_of_a_take 0 1 3) ≡ true }
    ensures not_abandoned_for_it { wrong_after 11 batches_beside_a_batch (started 0 (Abandoned 1))
        ≡ true }
    ensures not_failed_for_it { wrong_after 13 batches_beside_a_batch (ended 0 0 0 0x05) ≡ true }
    ensures the_second_is_taken_then { wrong_after 14 batches_beside_a_batch (dispatched 0 Idle)
        ≡ true }
{}

/// What fails beside a batch, submitted or on another engine, is no failure of the batch.
pub fn failures_beside_a_batch()
    ensures run { is_run_here failures_beside_a_batch ≡ true }
    ensures fates { fates_after failures_beside_a_batch
        ≡ Some (completed 1 0x03 ∷ completed_in 2 3 0x03 ∷ completed_in 0 4 0x01
        ∷ completed_in 0 5 0x01 ∷ completed 0 0x01 ∷ completed_in 2 6 0x01 ∷ completed 2 0x05
        ∷ []) }
    ensures not_abandoned_for_it { wrong_after 11 failures_beside_a_batch (started 0 (Abandoned 1))
        ≡ true }
    ensures not_failed_for_it { wrong_after 16 failures_beside_a_batch (ended 0 0 0 0x05) ≡ true }
    ensures its_own_batch_fails { wrong_after 20 failures_beside_a_batch (ended 1 2 2 0x01) ≡ true }
    ensures a_ticket_is_of_its_engine { wrong_after 9 failures_beside_a_batch
        (faulted 0 (ticket 3 3) (Done 0x03)) ≡ true }
{}

/// A failure before a fence abandons all members that are left, the first of them first, and no
/// more are fetched.
pub fn three_are_abandoned()
    ensures run { is_run_here three_are_abandoned ≡ true }
    ensures fates { fates_after three_are_abandoned
        ≡ Some (completed_in 0 1 0x03 ∷ row 2 (Some 0) Abandoned ∷ row 3 (Some 0) Abandoned
        ∷ row 4 (Some 0) Abandoned ∷ completed 0 0x05 ∷ []) }
    ensures content { content_after (take 9 three_are_abandoned)
        ≡ Some (with_list 2 (held_entry 0 0 None (record (batch 5) { pasid = 5 }) 0 true ∷ [])
        no_entries) }
    ensures not_one_alone { wrong_after 8 three_are_abandoned (started 0 (Abandoned 1)) ≡ true }
    ensures not_the_failed_one { wrong_after 8 three_are_abandoned (started 0 (Abandoned 4))
        ≡ true }
    ensures no_fifth_member { wrong_after 9 three_are_abandoned (member 0 no_op 1 5) ≡ true }
    ensures the_batch_may_end { wrong_after 9 three_are_abandoned (finished 0 (ticket 0 0) NotReady)
        ≡ true }
{}

/// A fence waits for what runs before it, also where something failed before it.
pub fn fence_waits_behind_a_failure()
    ensures run { is_run_here fence_waits_behind_a_failure ≡ true }
    ensures fates { fates_after fence_waits_behind_a_failure
        ≡ Some (completed_in 0 1 0x03 ∷ completed_in 0 2 0x01 ∷ row 3 (Some 0) Abandoned
        ∷ completed 0 0x05 ∷ []) }
    ensures not_abandoned_at_once { wrong_after 8 fence_waits_behind_a_failure
        (started 0 (Abandoned 2)) ≡ true }
    ensures not_alone { wrong_after 8 fence_waits_behind_a_failure (started 0 (Abandoned 1))
        ≡ true }
    ensures not_started { wrong_after 10 fence_waits_behind_a_failure (begun 0 3 3) ≡ true }
    ensures waits_no_longer { wrong_after 10 fence_waits_behind_a_failure (started 0 FenceWait)
        ≡ true }
{}

/// Without a fence a failure keeps no member from starting.
pub fn no_fence_behind_a_failure()
    ensures run { is_run_here no_fence_behind_a_failure ≡ true }
    ensures fates { fates_after no_fence_behind_a_failure
        ≡ Some (completed_in 0 1 0x03 ∷ completed_in 0 2 0x01 ∷ completed 0 0x05 ∷ []) }
    ensures more_is_fetched { wrong_after 5 no_fence_behind_a_failure
        (step_of_a_fetch 0 no_op AllFetched) ≡ true }
    ensures not_abandoned { wrong_after 6 no_fence_behind_a_failure (started 0 (Abandoned 1))
        ≡ true }
    ensures a_later_success_is_no_excuse { wrong_after 8 no_fence_behind_a_failure
        (ended 0 0 0 0x01) ≡ true }
{}

/// A fence counts whatever the operation is.
pub fn fence_on_an_unsupported_operation()
    ensures run { is_run_here fence_on_an_unsupported_operation ≡ true }
    ensures it_waits { wrong_after 5 fence_on_an_unsupported_operation (begun 0 2 2) ≡ true }
    ensures it_fails { wrong_after 8 fence_on_an_unsupported_operation (ended 0 2 2 0x01) ≡ true }
{}

/// A fence is asked before read buffers are.
pub fn fence_before_buffers()
    ensures run { is_run caps room (few_buffers ++ fence_before_buffers) ≡ true }
    ensures fence_first { may_answer few_buffers 7 fence_before_buffers (started 0 NoBuffers)
        ≡ false }
    ensures no_start_without_buffers { may_answer few_buffers 9 fence_before_buffers (begun 0 3 3)
        ≡ false }
    ensures no_longer_for_the_fence { may_answer few_buffers 9 fence_before_buffers
        (started 0 FenceWait) ≡ false }
{}

/// A failure before a fence is asked before read buffers are.
pub fn failure_before_buffers()
    ensures run { is_run caps room (few_buffers ++ failure_before_buffers) ≡ true }
    ensures failure_first { may_answer few_buffers 8 failure_before_buffers (started 0 NoBuffers)
        ≡ false }
{}

/// Statuses go by the limits of an entry's queue, which may be below those of the device.
pub fn limits_of_a_queue()
    ensures run { is_run caps room (small_limits ++ limits_of_a_queue) ≡ true }
    ensures no_page_fault_of_what_is_too_large { may_answer small_limits 2 limits_of_a_queue
        (faulted 0 (ticket 0 0) (Done 0x03)) ≡ false }
    ensures no_larger_transfer { may_answer small_limits 2 limits_of_a_queue (ended 0 0 0 0x01)
        ≡ false }
    ensures no_larger_batch { may_answer small_limits 8 limits_of_a_queue (member 0 no_op 1 3)
        ≡ false }
    ensures the_other_queue_has_its_own { may_answer small_limits 11 limits_of_a_queue
        (ended 1 0 3 0x13) ≡ false }
    ensures members_have_those_of_their_queue { may_answer small_limits 16 limits_of_a_queue
        (ended 0 1 5 0x01) ≡ false }
{}

/// Fate rows of an abort are in order: queues by number, then what is in progress on each engine,
/// then the members of each.
pub fn abort_of_all_lists()
    ensures run { is_run_here abort_of_all_lists ≡ true }
    ensures fates { fates_after abort_of_all_lists
        ≡ Some (row 5 None (Aborted 4)
        ∷ row 4 None (Aborted 4)
        ∷ row 0 None (Aborted 4)
        ∷ row 2 None (Aborted 4)
        ∷ row 1 (Some 0) (Aborted 4)
        ∷ row 3 (Some 2) (Aborted 4)
        ∷ []) }
    ensures content { content_after (take 9 abort_of_all_lists) ≡ Some no_entries }
    ensures members_too { wrong_after 8 abort_of_all_lists (issued AbortAll (Ended 4)) ≡ true }
    ensures the_batch_is_gone { wrong_after 9 abort_of_all_lists (member 0 no_op 0 6) ≡ true }
{}

/// An abort of one queue takes its batch with the member and the note, and the other engine's batch
/// keeps its own.
pub fn abort_beside_a_batch()
    ensures run { is_run_here abort_beside_a_batch ≡ true }
    ensures fates { fates_after abort_beside_a_batch
        ≡ Some (row 4 None (Aborted 9) ∷ row 2 None (Aborted 9) ∷ row 3 (Some 2) (Aborted 9) ∷ []) }
    ensures content { content_after (take 9 abort_beside_a_batch)
        ≡ Some (with_list 0 (held_entry 5 5 None (record no_op { pasid = 5 }) 0 false ∷ [])
        (with_list 2 (held_entry 0 0 None (record (batch 2) { pasid = 5 }) 0 true ∷ [])
        (with_list 4 (held_entry 1 1 (Some 0) (record no_op { pasid = 5 }) 0 false ∷ [])
        no_entries))) }
    ensures no_member_is_left { wrong_after 8 abort_beside_a_batch
        (issued (AbortWq (masked 2)) (Ended 2)) ≡ true }
    ensures the_other_batch_is_not_gone { wrong_after 10 abort_beside_a_batch
        (step_of_a_fetch 0 no_op NoBatch) ≡ true }
{}
