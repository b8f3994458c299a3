//! The Drain operation: what a Drain waits for, what it does not wait for, and one at a time on an
//! engine.

ghost use Rattle.std.specs.Prelude.{◌≡◌, ◌++◌, [], ◌∷◌, Some, None, true, false, map, take};
ghost use Rattle.dsa_book.specs.declared.answer.DispatchAnswer.TheVariants.{Idle};
ghost use Rattle.dsa_book.specs.declared.answer.FinishAnswer.TheVariants.{Done, NotReady, Gone};
ghost use Rattle.dsa_book.specs.Machine.{is_run};
ghost use Rattle.dsa_regs.specs.Worked.{caps};
ghost use Rattle.dsa_worked.specs.Setup.{room, is_run_here, fates_after, content_after, held_entry, no_op, drain, ticket, dispatched, finished, faulted, ended, step_of_a_take, may_answer, completed, completed_in, no_entries, with_list, wrong_after};
ghost use Rattle.dsa_worked.specs.Answers.{one_group};
ghost use Rattle.dsa_worked.specs.Drains.{drains_of_two_pasids, drain_behind_a_batch, drain_behind_another_engine, drain_beside_another_pasid, drain_beside_another_queue, drain_before_others, drain_before_a_batch, drains_of_two_engines, drains_of_two_queues, drain_in_a_batch, fenced_drain_does_not_wait, fenced_drains_beside_a_drain};

/// A Drain ends when what came before it under its PASID has ended, and an engine takes no second
/// one until then.
pub fn drains_of_two_pasids()
    ensures run { is_run_here drains_of_two_pasids ≡ true }
    ensures fates { fates_after drains_of_two_pasids
        ≡ Some (completed 1 0x01 ∷ completed 0 0x01 ∷ completed 2 0x01 ∷ completed 3 0x01 ∷ []) }
    ensures not_at_once { map (wrong_after 8 drains_of_two_pasids)
        (ended 0 2 2 0x01 ∷ finished 0 (ticket 2 2) Gone ∷ [])
        ≡ true ∷ true ∷ [] }
    ensures no_longer_than_that { map (wrong_after 11 drains_of_two_pasids)
        (finished 0 (ticket 2 2) NotReady ∷ faulted 0 (ticket 2 2) (Done 0x03) ∷ [])
        ≡ true ∷ true ∷ [] }
    ensures no_second_drain { wrong_after 11 drains_of_two_pasids (step_of_a_take 0 3 3) ≡ true }
    ensures the_second_is_taken_then { wrong_after 13 drains_of_two_pasids (dispatched 0 Idle)
        ≡ true }
    ensures the_second_has_nothing_to_wait_for { wrong_after 14 drains_of_two_pasids
        (finished 0 (ticket 3 3) NotReady) ≡ true }
{}

/// A Drain waits for a batch, also where all members of the batch have ended.
pub fn drain_behind_a_batch()
    ensures run { is_run_here drain_behind_a_batch ≡ true }
    ensures fates { fates_after drain_behind_a_batch
        ≡ Some (completed_in 0 1 0x01 ∷ completed_in 0 3 0x01 ∷ completed 0 0x01 ∷ completed 2 0x01
        ∷ []) }
    ensures not_beside_the_members { wrong_after 5 drain_behind_a_batch (ended 0 2 2 0x01) ≡ true }
    ensures not_before_the_batch { wrong_after 11 drain_behind_a_batch (ended 0 2 2 0x01) ≡ true }
    ensures no_longer_than_that { wrong_after 13 drain_behind_a_batch
        (finished 0 (ticket 2 2) NotReady) ≡ true }
{}

/// A Drain waits for what another engine of its group has taken.
pub fn drain_behind_another_engine()
    ensures run { is_run caps room (one_group ++ drain_behind_another_engine) ≡ true }
    ensures not_at_once { may_answer one_group 4 drain_behind_another_engine (ended 1 1 1 0x01)
        ≡ false }
    ensures no_longer_than_that { may_answer one_group 6 drain_behind_another_engine
        (finished 1 (ticket 1 1) NotReady) ≡ false }
{}

/// A Drain does not wait for another PASID.
pub fn drain_beside_another_pasid()
    ensures run { is_run_here drain_beside_another_pasid ≡ true }
    ensures fates { fates_after drain_beside_another_pasid ≡ Some (completed 1 0x01 ∷ []) }
    ensures does_not_wait { wrong_after 4 drain_beside_another_pasid
        (finished 0 (ticket 1 1) NotReady) ≡ true }
{}

/// A Drain does not wait for another queue.
pub fn drain_beside_another_queue()
    ensures run { is_run_here drain_beside_another_queue ≡ true }
    ensures content { content_after drain_beside_another_queue
        ≡ Some (with_list 1 (held_entry 1 1 None (record no_op { pasid = 7 }) 1 false ∷ [])
        (with_list 3 (held_entry 0 0 None (record no_op { pasid = 7 }) 1 true ∷ []) no_entries)) }
    ensures does_not_wait { wrong_after 5 drain_beside_another_queue
        (finished 0 (ticket 2 2) NotReady) ≡ true }
{}

/// A Drain has a slot of its engine, and does not wait for what came behind it.
pub fn drain_before_others()
    ensures run { is_run_here drain_before_others ≡ true }
    ensures content { content_after (take 4 drain_before_others)
        ≡ Some (with_list 0 (held_entry 1 1 None (record no_op { pasid = 5 }) 0 false
        ∷ held_entry 2 2 None (record no_op { pasid = 5 }) 0 false ∷ [])
        (with_list 2 (held_entry 0 0 None (record drain { pasid = 5 }) 0 true ∷ []) no_entries)) }
    ensures others_are_taken_beside_it { wrong_after 4 drain_before_others (dispatched 0 Idle)
        ≡ true }
    ensures it_has_a_slot { wrong_after 5 drain_before_others (step_of_a_take 0 2 2) ≡ true }
    ensures does_not_wait { wrong_after 6 drain_before_others (finished 0 (ticket 0 0) NotReady)
        ≡ true }
    ensures its_slot_is_free_then { wrong_after 7 drain_before_others (dispatched 0 Idle) ≡ true }
{}

/// A Drain does not wait for members of a batch that came behind it.
pub fn drain_before_a_batch()
    ensures run { is_run_here drain_before_a_batch ≡ true }
    ensures does_not_wait { wrong_after 6 drain_before_a_batch (finished 0 (ticket 0 0) NotReady)
        ≡ true }
{}

/// An engine with a Drain takes no second one; another engine of its group does, where it waits for
/// the first.
pub fn drains_of_two_engines()
    ensures run { is_run caps room (one_group ++ drains_of_two_engines) ≡ true }
    ensures no_second_drain { may_answer one_group 3 drains_of_two_engines (step_of_a_take 0 1 1)
        ≡ false }
    ensures not_idle_elsewhere { may_answer one_group 4 drains_of_two_engines (dispatched 1 Idle)
        ≡ false }
    ensures drains_wait_for_drains { may_answer one_group 5 drains_of_two_engines (ended 1 1 1 0x01)
        ≡ false }
    ensures the_first_does_not_wait { may_answer one_group 5 drains_of_two_engines
        (finished 0 (ticket 0 0) NotReady) ≡ false }
{}

/// Where a second Drain must wait in one queue, the other queue of the engine is the only choice.
pub fn drains_of_two_queues()
    ensures run { is_run caps room (one_group ++ drains_of_two_queues) ≡ true }
    ensures not_idle { may_answer one_group 4 drains_of_two_queues (dispatched 0 Idle) ≡ false }
    ensures no_second_drain { may_answer one_group 4 drains_of_two_queues (step_of_a_take 0 1 1)
        ≡ false }
    ensures no_second_drain_with_a_slot { may_answer one_group 7 drains_of_two_queues
        (step_of_a_take 0 1 1) ≡ false }
{}

/// A Drain in a batch is not supported: it waits for nothing, and the batch fails.
pub fn drain_in_a_batch()
    ensures run { is_run_here drain_in_a_batch ≡ true }
    ensures fates { fates_after drain_in_a_batch
        ≡ Some (completed_in 1 2 0x10 ∷ completed_in 1 3 0x01 ∷ completed 1 0x05 ∷ []) }
    ensures not_supported { wrong_after 6 drain_in_a_batch (ended 0 2 2 0x01) ≡ true }
    ensures does_not_wait { wrong_after 6 drain_in_a_batch (finished 0 (ticket 2 2) NotReady)
        ≡ true }
{}

/// A Drain with a fence is not well formed, and waits for nothing.
pub fn fenced_drain_does_not_wait()
    ensures run { is_run_here fenced_drain_does_not_wait ≡ true }
    ensures fates { fates_after fenced_drain_does_not_wait ≡ Some (completed 1 0x11 ∷ []) }
    ensures does_not_wait { wrong_after 4 fenced_drain_does_not_wait
        (finished 0 (ticket 1 1) NotReady) ≡ true }
    ensures no_success { wrong_after 4 fenced_drain_does_not_wait (ended 0 1 1 0x01) ≡ true }
{}

/// A Drain that is not well formed keeps none from being taken, and none keeps it; but it is waited
/// for.
pub fn fenced_drains_beside_a_drain()
    ensures run { is_run_here fenced_drains_beside_a_drain ≡ true }
    ensures fates { fates_after fenced_drains_beside_a_drain
        ≡ Some (completed 0 0x11 ∷ completed 1 0x01 ∷ completed 2 0x11 ∷ []) }
    ensures a_drain_is_taken_beside_it { wrong_after 4 fenced_drains_beside_a_drain
        (dispatched 0 Idle) ≡ true }
    ensures it_is_waited_for { wrong_after 5 fenced_drains_beside_a_drain (ended 0 1 1 0x01)
        ≡ true }
    ensures it_is_taken_beside_a_drain { wrong_after 7 fenced_drains_beside_a_drain
        (dispatched 0 Idle) ≡ true }
{}
