//! Batches: members, fences, failures and read buffers.

ghost use Rattle.std.specs.Prelude.{◌≡◌, ◌++◌, [], ◌∷◌, Some, None, true, false, take};
ghost use Rattle.dsa_book.specs.declared.answer.DispatchAnswer.TheVariants.{Idle};
ghost use Rattle.dsa_book.specs.declared.answer.FetchAnswer.TheVariants.{NoBatch};
ghost use Rattle.dsa_book.specs.declared.answer.StartAnswer.TheVariants.{NoBuffers, FenceWait};
ghost use Rattle.dsa_book.specs.declared.fate.Fate.TheVariants.{Abandoned};
ghost use Rattle.dsa_book.specs.Machine.{is_run};
ghost use Rattle.dsa_regs.specs.Worked.{caps};
ghost use Rattle.dsa_worked.specs.Setup.{room, setup, is_run_here, fates_after, content_after, account_after, row, held_entry, no_op, batch, dispatched, step_of_a_fetch, started, ended, begun, member, step_of_a_take, completed, completed_in, no_entries, with_list, nothing_counted, wrong_after};
ghost use Rattle.dsa_worked.specs.Batches.{buffers_of_a_batch, fence_waits, failure_abandons, batch_counts, batch_in_a_batch, more_slots, buffers_of_two_groups, three_groups, three_groups_setup, buffers_reserved_for_another};

/// Members start while buffers are to be had, and no longer.
pub fn buffers_of_a_batch()
    ensures run { is_run_here buffers_of_a_batch ≡ true }
    ensures fates { fates_after buffers_of_a_batch ≡ Some (completed 0 0x01 ∷ []) }
    ensures no_start_without_buffers { wrong_after 11 buffers_of_a_batch (begun 1 5 5) ≡ true }
    ensures no_wait_with_buffers { wrong_after 13 buffers_of_a_batch (started 1 NoBuffers) ≡ true }
    ensures no_start_out_of_order { wrong_after 9 buffers_of_a_batch (begun 1 4 4) ≡ true }
{}

/// A member with a fence starts when all members before it have ended.
pub fn fence_waits()
    ensures run { is_run_here fence_waits ≡ true }
    ensures content { content_after fence_waits ≡ Some no_entries }
    ensures fates { fates_after fence_waits
        ≡ Some (completed_in 0 2 0x01 ∷ completed_in 0 1 0x01 ∷ completed_in 0 3 0x01
        ∷ completed 0 0x01 ∷ []) }
    ensures their_start_is_not_enough { wrong_after 8 fence_waits (begun 0 3 3) ≡ true }
    ensures one_end_is_not_enough { wrong_after 10 fence_waits (begun 0 3 3) ≡ true }
    ensures no_longer_than_that { wrong_after 12 fence_waits (started 0 FenceWait) ≡ true }
    ensures a_batch_ends_after_its_members { wrong_after 13 fence_waits (ended 0 0 0 0x01) ≡ true }
    ensures no_more_members_than_its_count { wrong_after 5 fence_waits (member 0 no_op 4 4) ≡ true }
{}

/// A member that fails before a fence abandons the rest of the batch, and the batch fails.
pub fn failure_abandons()
    ensures run { is_run_here failure_abandons ≡ true }
    ensures fates { fates_after failure_abandons
        ≡ Some (completed_in 0 1 0x03 ∷ row 2 (Some 0) Abandoned ∷ completed 0 0x05 ∷ []) }
    ensures account { account_after failure_abandons
        ≡ Some (record nothing_counted {
          accepted = 1;
          fetched = 2;
          done = 2;
          lost = 1;
          steps
              = 15;
        }) }
    ensures no_start_behind_a_failure { wrong_after 6 failure_abandons (begun 0 2 2) ≡ true }
    ensures no_success_after_a_failure { wrong_after 9 failure_abandons (ended 0 0 0 0x01) ≡ true }
{}

/// Batches of 1 and of 9 descriptors are not lawful and open nothing, where 2 to 8 are; one of 8 is
/// fetched.
pub fn batch_counts()
    ensures run { is_run_here batch_counts ≡ true }
    ensures fates { fates_after batch_counts ≡ Some (completed 0 0x14 ∷ completed 1 0x14 ∷ []) }
    ensures content { content_after batch_counts
        ≡ Some (with_list 2 (held_entry 0 2 None (record (batch 8) { pasid = 5 }) 0 true ∷ [])
        (with_list 4 (held_entry 1 3 (Some 2) (record no_op { pasid = 5 }) 0 false ∷ [])
        no_entries)) }
    ensures nothing_to_fetch_of_one { wrong_after 2 batch_counts (member 0 no_op 1 1) ≡ true }
    ensures a_lawful_batch_is_open { wrong_after 9 batch_counts (step_of_a_fetch 0 no_op NoBatch)
        ≡ true }
{}

/// A batch in a batch is not supported, and the batch fails.
pub fn batch_in_a_batch()
    ensures run { is_run_here batch_in_a_batch ≡ true }
    ensures fates { fates_after batch_in_a_batch
        ≡ Some (completed_in 0 1 0x10 ∷ completed_in 0 2 0x01 ∷ completed 0 0x05 ∷ []) }
{}

/// With four slots: 8 and 12 buffers are 20, and there are 16.
pub fn buffers_of_two_groups()
    ensures run { is_run (more_slots caps) room (setup ++ buffers_of_two_groups) ≡ true }
    ensures no_more_than_there_are { is_run (more_slots caps) room
        (setup ++ take 9 buffers_of_two_groups ++ step_of_a_take 1 4 4 ∷ []) ≡ false }
{}

/// Four buffers are free, and reserved for the third group: the second gets none of them, and the
/// third does.
pub fn buffers_reserved_for_another()
    ensures run { is_run three_groups room (three_groups_setup ++ buffers_reserved_for_another)
        ≡ true }
    ensures free_is_not_enough { is_run three_groups room
        (three_groups_setup ++ take 8 buffers_reserved_for_another ++ step_of_a_take 1 3 3 ∷ [])
        ≡ false }
    ensures reserved_is_kept { is_run three_groups room
        (three_groups_setup ++ take 9 buffers_reserved_for_another ++ dispatched 2 Idle ∷ [])
        ≡ false }
{}
