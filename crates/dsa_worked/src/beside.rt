//! Entries beside one another in an engine: the batch of a member, Drains, aborts and notes.

ghost use Rattle.std.specs.Prelude.{◌≡◌, ◌++◌, [], ◌∷◌, Some, None, true, false};
ghost use Rattle.dsa_book.specs.declared.answer.FinishAnswer.TheVariants.{NotReady};
ghost use Rattle.dsa_book.specs.declared.answer.DispatchAnswer.TheVariants.{Idle};
ghost use Rattle.dsa_book.specs.declared.answer.FetchAnswer.TheVariants.{NoBatch};
ghost use Rattle.dsa_book.specs.declared.answer.WriteAnswer.TheVariants.{Written};
ghost use Rattle.dsa_regs.specs.Worked.{shared_queue};
ghost use Rattle.dsa_worked.specs.Setup.{is_run_here, held_entry, no_op, batch, ticket, dispatched, finished, step_of_a_fetch, step_of_a_queue_write, no_entries, with_list, wrong_after};
ghost use Rattle.dsa_worked.specs.Answers.{one_group};
ghost use Rattle.dsa_worked.specs.Beside.{content_there, batch_after_an_earlier_entry, batch_after_a_later_entry, abort_of_a_batch_beside_an_entry, abort_of_an_entry_beside_a_batch, drain_beside_a_greater_pasid, drain_beside_a_lower_queue, a_greater_size_is_locked};

/// A member has the PASID and the queue of its batch, whatever else is in progress before the
/// batch.
pub fn batch_of_a_member()
    ensures after_an_earlier_entry { content_there (one_group ++ batch_after_an_earlier_entry)
        ≡ Some (with_list 2 (held_entry 0 0 None (record no_op { pasid = 5 }) 0 true
        ∷ held_entry 1 1 None (record (batch 2) { pasid = 7 }) 1 true ∷ [])
        (with_list 4 (held_entry 2 2 (Some 1) (record no_op { pasid = 7 }) 1 false ∷ [])
        no_entries)) }
    ensures after_a_later_entry { content_there (one_group ++ batch_after_a_later_entry)
        ≡ Some (with_list 2 (held_entry 1 1 None (record no_op { pasid = 5 }) 0 true
        ∷ held_entry 0 0 None (record (batch 2) { pasid = 7 }) 1 true ∷ [])
        (with_list 4 (held_entry 2 2 (Some 0) (record no_op { pasid = 7 }) 1 false ∷ [])
        no_entries)) }
{}

/// The note of an engine goes with its batch, and with nothing else.
pub fn aborts_beside_a_batch()
    ensures batch { is_run_here abort_of_a_batch_beside_an_entry ≡ true }
    ensures another_is_taken { wrong_after 6 abort_of_a_batch_beside_an_entry (dispatched 0 Idle)
        ≡ true }
    ensures entry { is_run_here abort_of_an_entry_beside_a_batch ≡ true }
    ensures still_open { wrong_after 5 abort_of_an_entry_beside_a_batch
        (step_of_a_fetch 0 no_op NoBatch) ≡ true }
{}

/// A Drain does not wait for a greater PASID, or for a queue of a lower number.
pub fn drains_beside_others()
    ensures pasid { is_run_here drain_beside_a_greater_pasid ≡ true }
    ensures does_not_wait_for_the_pasid { wrong_after 4 drain_beside_a_greater_pasid
        (finished 0 (ticket 1 1) NotReady) ≡ true }
    ensures queue { is_run_here drain_beside_a_lower_queue ≡ true }
    ensures does_not_wait_for_the_queue { wrong_after 4 drain_beside_a_lower_queue
        (finished 1 (ticket 1 1) NotReady) ≡ true }
{}

/// The size of a queue is locked against a greater one as against a smaller one.
pub fn a_greater_size_is_locked()
    ensures run { is_run_here a_greater_size_is_locked ≡ true }
    ensures not_written { wrong_after 1 a_greater_size_is_locked
        (step_of_a_queue_write 0 (record shared_queue { size = 5 }) Written) ≡ true }
{}
