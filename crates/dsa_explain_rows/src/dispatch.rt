//! Why an idle engine takes nothing from a queue, with the numbers of read buffers.

ghost use Rattle.std.specs.Prelude.{◌≡◌, ◌++◌, [], ◌∷◌, Some, None, true, false, map, take};
ghost use Rattle.dsa_worked.specs.Setup.{batch, move, no_op, to_shared};
ghost use Rattle.dsa_worked.specs.Answers.{one_of_two_queues_waits, slots_are_full};
ghost use Rattle.dsa_worked.specs.Batches.{buffers_of_a_batch, buffers_reserved_for_another};
ghost use Rattle.dsa_worked.specs.Commands.{drain_of_a_batch};
ghost use Rattle.dsa_worked.specs.Drains.{drains_of_two_pasids, fenced_drains_beside_a_drain};
ghost use Rattle.dsa_worked.specs.Members.{batches_beside_a_batch};
ghost use Rattle.dsa_worked.specs.States.{seen_after};
ghost use Rattle.dsa_engines.specs.declared.reasons.EngineReason.TheVariants.{NoEngine, NoGroup};
ghost use Rattle.dsa_engines.specs.declared.reasons.QueueReason.TheVariants.{Empty, NoSlot, NoBuffers, OtherBatch, OtherDrain};
ghost use Rattle.dsa_engines.specs.Dispatch.{all_have_reasons, batch_name, drain_name, engine_reason, is_offered, queue_reason};
ghost use Rattle.dsa_buffers.specs.Buffers.{buffers_in_use, kept_for, kept_from, want_of};
ghost use Rattle.dsa_engines.specs.Engines.{buffers_at};
ghost use Rattle.dsa_explain_rows.specs.After.{of_three_groups, of_two_queues};
ghost use Rattle.dsa_explain_rows.specs.Wants.{want_of_the_first, want_of_the_second, kept_want};

/// An engine that is not there, and one of no group, take nothing whatever the queues hold.
pub fn engines()
    ensures first { seen_after (λ w. engine_reason w 0) [] ≡ Some None }
    ensures last { seen_after (λ w. engine_reason w 1) [] ≡ Some None }
    ensures not_there { seen_after (λ w. engine_reason w 2) [] ≡ Some (Some NoEngine) }
    ensures of_no_group { of_two_queues (λ w. engine_reason w 2) [] ≡ Some (Some NoGroup) }
    ensures of_the_second_group { of_two_queues (λ w. engine_reason w 1) [] ≡ Some None }
    ensures neither { of_two_queues (λ w. engine_reason w 3) [] ≡ Some (Some NoEngine) }
{}

/// Queues of the engine's group are offered to it, and no others.
pub fn offers()
    ensures of_its_group { seen_after (λ w. is_offered w 0 0) [] ≡ Some true }
    ensures of_another { seen_after (λ w. is_offered w 0 1) [] ≡ Some false }
    ensures two { of_two_queues (λ w. map (is_offered w 0) (0 ∷ 1 ∷ 2 ∷ [])) []
        ≡ Some (true ∷ true ∷ false ∷ []) }
    ensures no_group { of_two_queues (λ w. map (is_offered w 2) (0 ∷ 1 ∷ 2 ∷ [])) []
        ≡ Some (false ∷ false ∷ false ∷ []) }
    ensures no_engine { seen_after (λ w. is_offered w 2 0) [] ≡ Some false }
    ensures no_queue { seen_after (λ w. is_offered w 0 2) [] ≡ Some false }
{}

/// An empty queue, where what an engine has taken is not counted.
pub fn empty_queues()
    ensures empty { seen_after (λ w. queue_reason w 0 0) [] ≡ Some (Some Empty) }
    ensures taken { seen_after (λ w. queue_reason w 0 0) (take 2 slots_are_full)
        ≡ Some (Some Empty) }
    ensures of_another_group { seen_after (λ w. queue_reason w 0 1) [] ≡ Some None }
    ensures no_engine { seen_after (λ w. queue_reason w 2 0) [] ≡ Some None }
    ensures no_queue { seen_after (λ w. queue_reason w 0 2) [] ≡ Some None }
    ensures no_group { of_two_queues (λ w. queue_reason w 2 0) [] ≡ Some None }
{}

/// The slots of the engine, before all else that stands against the front.
pub fn held_entries()
    ensures both { seen_after (λ w. queue_reason w 0 0) (take 6 slots_are_full)
        ≡ Some (Some (NoSlot 2 2)) }
    ensures one { seen_after (λ w. queue_reason w 0 0) (take 4 slots_are_full) ≡ Some None }
    ensures one_left { seen_after (λ w. queue_reason w 0 0) (take 8 slots_are_full) ≡ Some None }
    ensures before_buffers { seen_after (λ w. queue_reason w 0 0)
        (take 4 buffers_of_a_batch ++ to_shared (move 16384) 2 2 ∷ [])
        ≡ Some (Some (NoSlot 2 2)) }
    ensures before_a_batch { seen_after (λ w. queue_reason w 0 0)
        (take 4 drain_of_a_batch ++ to_shared (batch 2) 2 2 ∷ [])
        ≡ Some (Some (NoSlot 2 2)) }
    ensures before_a_drain { seen_after (λ w. queue_reason w 0 0) (take 9 drains_of_two_pasids)
        ≡ Some (Some (NoSlot 2 2)) }
{}

/// The read buffers that a front needs do not fit the group, by what it may use, or by what is kept
/// for another.
pub fn buffers()
    ensures allowed { seen_after (λ w. queue_reason w 0 0) (take 15 buffers_of_a_batch)
        ≡ Some (Some (NoBuffers want_of_the_first)) }
    ensures kept { of_three_groups (λ w. queue_reason w 1 1) (take 8 buffers_reserved_for_another)
        ≡ Some (Some (NoBuffers kept_want)) }
    ensures not_from_itself { of_three_groups (λ w. queue_reason w 2 2)
        (take 8 buffers_reserved_for_another)
        ≡ Some None }
    ensures before { seen_after (λ w. queue_reason w 0 0) (take 1 buffers_of_a_batch) ≡ Some None }
{}

/// One batch at a time, of those that are well formed; it is told by its name.
pub fn batches()
    ensures first { seen_after (λ w. queue_reason w 0 0) (take 7 batches_beside_a_batch)
        ≡ Some (Some (OtherBatch 0)) }
    ensures second { seen_after (λ w. queue_reason w 0 0)
        (take 7 drain_of_a_batch ++ to_shared (batch 2) 0 3 ∷ [])
        ≡ Some (Some (OtherBatch 1)) }
    ensures not_well_formed { seen_after (λ w. queue_reason w 0 0) (take 3 batches_beside_a_batch)
        ≡ Some None }
    ensures no_batch { seen_after (λ w. queue_reason w 0 0)
        (take 7 drain_of_a_batch ++ to_shared no_op 0 3 ∷ [])
        ≡ Some None }
    ensures none_before { seen_after (λ w. queue_reason w 0 0) (take 1 batches_beside_a_batch)
        ≡ Some None }
    ensures name { seen_after (λ w. batch_name w 0) (take 5 drain_of_a_batch) ≡ Some 1 }
    ensures no_name { seen_after (λ w. batch_name w 1) (take 5 drain_of_a_batch) ≡ Some 0 }
    ensures of_two_queues { of_two_queues (λ w. map (queue_reason w 0) (0 ∷ 1 ∷ 2 ∷ []))
        one_of_two_queues_waits
        ≡ Some (Some (OtherBatch 0) ∷ None ∷ None ∷ []) }
{}

/// One Drain at a time, of those that are well formed; it is told by its name.
pub fn drains()
    ensures other { seen_after (λ w. queue_reason w 0 0) (take 11 drains_of_two_pasids)
        ≡ Some (Some (OtherDrain 2)) }
    ensures ended { seen_after (λ w. queue_reason w 0 0) (take 13 drains_of_two_pasids)
        ≡ Some None }
    ensures no_drain { seen_after (λ w. queue_reason w 0 0) (take 1 drains_of_two_pasids)
        ≡ Some None }
    ensures beside_one_that_is_not_well_formed { seen_after (λ w. queue_reason w 0 0)
        (take 4 fenced_drains_beside_a_drain)
        ≡ Some None }
    ensures not_well_formed { seen_after (λ w. queue_reason w 0 0)
        (take 7 fenced_drains_beside_a_drain)
        ≡ Some None }
    ensures name { seen_after (λ w. drain_name w 0) (take 9 drains_of_two_pasids) ≡ Some 2 }
    ensures no_name { seen_after (λ w. drain_name w 0) (take 7 drains_of_two_pasids) ≡ Some 0 }
{}

/// Whether each queue that is offered to an engine has a reason.
pub fn queues_with_reasons()
    ensures idle { seen_after (λ w. all_have_reasons w 0) [] ≡ Some true }
    ensures one_to_take { seen_after (λ w. all_have_reasons w 0) (take 1 slots_are_full)
        ≡ Some false }
    ensures of_another_group { seen_after (λ w. all_have_reasons w 1) (take 1 slots_are_full)
        ≡ Some true }
    ensures one_of_two { of_two_queues (λ w. all_have_reasons w 0) one_of_two_queues_waits
        ≡ Some false }
    ensures both { of_two_queues (λ w. all_have_reasons w 0) (take 3 one_of_two_queues_waits)
        ≡ Some true }
{}

/// What is kept for a group is what it has reserved and does not use.
pub fn kept()
    ensures each { seen_after (λ w. map (kept_for (buffers_at w)) (0 ∷ 1 ∷ 2 ∷ [])) []
        ≡ Some (4 ∷ 8 ∷ 0 ∷ []) }
    ensures part { seen_after (λ w. map (kept_for (buffers_at w)) (0 ∷ 1 ∷ []))
        (take 10 buffers_of_a_batch)
        ≡ Some (0 ∷ 4 ∷ []) }
    ensures none { seen_after (λ w. map (kept_for (buffers_at w)) (0 ∷ 1 ∷ []))
        (take 14 buffers_of_a_batch)
        ≡ Some (0 ∷ 0 ∷ []) }
    ensures from { seen_after (λ w. map (kept_from (buffers_at w)) (0 ∷ 1 ∷ 2 ∷ [])) []
        ≡ Some (8 ∷ 4 ∷ 12 ∷ []) }
    ensures from_part { seen_after (λ w. map (kept_from (buffers_at w)) (0 ∷ 1 ∷ []))
        (take 10 buffers_of_a_batch)
        ≡ Some (4 ∷ 0 ∷ []) }
    ensures from_three { of_three_groups (λ w. map (kept_from (buffers_at w)) (0 ∷ 1 ∷ 2 ∷ [])) []
        ≡ Some (8 ∷ 8 ∷ 8 ∷ []) }
    ensures in_use { seen_after (λ w. buffers_in_use (buffers_at w)) (take 10 buffers_of_a_batch)
        ≡ Some 12 }
    ensures none_in_use { seen_after (λ w. buffers_in_use (buffers_at w)) [] ≡ Some 0 }
{}

/// The numbers of a want.
pub fn wants()
    ensures want { seen_after (λ w. want_of (buffers_at w) 1 3) (take 10 buffers_of_a_batch)
        ≡ Some want_of_the_second }
{}
