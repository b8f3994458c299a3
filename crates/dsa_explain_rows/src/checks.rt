//! What the check of an enable has against a configuration, with its numbers.

ghost use Rattle.std.specs.Prelude.{◌≡◌, ◌^◌, ◌-◌, [], ◌∷◌, Some, None, map};
ghost use Rattle.dsa_regs.specs.Worked.{caps, dedicated_queue, first_group, groups, second_group, shared_queue};
ghost use Rattle.dsa_regs.specs.declared.Fault.TheVariants as fault;
ghost use Rattle.dsa_worked.specs.Batches.{three_groups};
ghost use Rattle.dsa_regs.specs.declared.reasons.CheckReason.TheVariants.{AllowedOutOfRange, BatchTooLarge, GroupWithoutEngine, GroupWithoutQueue, NamesMissing, NoGroup, PriorityTooLarge, PriorityZero, ReservedTooMany, SizeZero, SizesTooLarge, ThresholdAboveSize, ThresholdZero, TransferTooLarge, TwoGroups};
ghost use Rattle.dsa_regs.specs.declared.reasons.Bound.TheVariants.{Need, Reserved, Unreserved};
ghost use Rattle.dsa_regs.specs.declared.reasons.Named.TheVariants.{Engine, Queue};
ghost use Rattle.dsa_regs.specs.Config.{at_most_a_word, check_fault, check_queue_reason, first_past, group_after};
ghost use Rattle.dsa_explain_rows.specs.Checks.{groups_reason, pair, pair_with, three, trio_with, pair_of_queues, pair_of_engines};

/// Nothing is against the groups of the set-up, with sizes up to what the device has.
pub fn groups_without_a_fault()
    ensures set_up { groups_reason caps 6 groups ≡ None }
    ensures all_places { groups_reason caps 8 groups ≡ None }
    ensures all_reserved { groups_reason caps 6
        (pair (record first_group { allowed = 4 }) (record second_group { reserved = 12 }))
        ≡ None }
    ensures three { groups_reason three_groups 12 three ≡ None }
{}

/// The first group that names what the device does not have, by its first such queue, or else its
/// first such engine.
#[tactic(auto, unfolding(dsa_regs::specs::Config::first_past))]
pub fn missing_names()
    ensures queue { groups_reason caps 6 (pair_with (record second_group { queues = 6 }))
        ≡ Some (NamesMissing 1 (Queue 2) 2) }
    ensures engine { groups_reason caps 6 (pair_with (record second_group { engines = 6 }))
        ≡ Some (NamesMissing 1 (Engine 2) 2) }
    ensures queue_before_engine { groups_reason caps 6
        (pair_with (record second_group { queues = 10; engines = 6 }))
        ≡ Some (NamesMissing 1 (Queue 3) 2) }
    ensures first_of_two { groups_reason caps 6 (pair_with (record second_group { queues = 26 }))
        ≡ Some (NamesMissing 1 (Queue 3) 2) }
    ensures first_group { groups_reason caps 6
        (pair (record first_group { engines = 17 }) (record second_group { queues = 6 }))
        ≡ Some (NamesMissing 0 (Engine 4) 2) }
    ensures before_the_sizes { groups_reason caps 9 (pair_with (record second_group { queues = 6 }))
        ≡ Some (NamesMissing 1 (Queue 2) 2) }
    ensures counts { groups_reason (record caps { engines = 3 }) 6
        (pair_with (record second_group { engines = 10 }))
        ≡ Some (NamesMissing 1 (Engine 3) 3) }
    ensures past { map (first_past 2) (3 ∷ 4 ∷ 24 ∷ 9223372036854775808 ∷ [])
        ≡ 64 ∷ 2 ∷ 3 ∷ 63 ∷ [] }
{}

/// The sizes of the queues, up to what a word holds.
pub fn sizes()
    ensures one_more { groups_reason caps 9 groups ≡ Some (SizesTooLarge 9 8) }
    ensures most { groups_reason caps (2 ^ 32) groups ≡ Some (SizesTooLarge (2 ^ 32 - 1) 8) }
    ensures before_two_groups { groups_reason caps 9
        (pair_with (record second_group { engines = 3 }))
        ≡ Some (SizesTooLarge 9 8) }
    ensures words { map at_most_a_word (7 ∷ (2 ^ 32 - 1) ∷ (2 ^ 32) ∷ [])
        ≡ 7 ∷ (2 ^ 32 - 1) ∷ (2 ^ 32 - 1) ∷ [] }
{}

/// The first queue that two groups name, or else the first such engine, with the first two of its
/// groups.
pub fn names_of_two_groups()
    ensures queue { groups_reason caps 6 (pair (record first_group { queues = 3 }) second_group)
        ≡ Some (TwoGroups (Queue 1) 0 1) }
    ensures engine { groups_reason caps 6 (pair_with (record second_group { engines = 3 }))
        ≡ Some (TwoGroups (Engine 0) 0 1) }
    ensures queue_before_engine { groups_reason caps 6
        (pair_with (record second_group { queues = 3; engines = 3 }))
        ≡ Some (TwoGroups (Queue 0) 0 1) }
    ensures last_two { groups_reason three_groups 12
        (trio_with (record first_group { queues = 6; engines = 4 }))
        ≡ Some (TwoGroups (Queue 1) 1 2) }
    ensures first_queue { groups_reason three_groups 12
        (trio_with (record first_group { queues = 7; engines = 4 }))
        ≡ Some (TwoGroups (Queue 0) 0 2) }
    ensures third_queue { groups_reason (record caps { queues = 3 }) 6 (pair_of_queues 5 6)
        ≡ Some (TwoGroups (Queue 2) 0 1) }
    ensures third_engine { groups_reason (record caps { engines = 3 }) 6 (pair_of_engines 5 6)
        ≡ Some (TwoGroups (Engine 2) 0 1) }
    ensures more_queues_than_engines { groups_reason (record caps { queues = 4 }) 6
        (pair_of_queues 13 10) ≡ Some (TwoGroups (Queue 3) 0 1) }
    ensures more_engines_than_queues { groups_reason (record caps { engines = 4 }) 6
        (pair_of_engines 13 10) ≡ Some (TwoGroups (Engine 3) 0 1) }
    ensures before_the_reserve { groups_reason caps 6
        (pair_with (record second_group { engines = 3; reserved = 13 }))
        ≡ Some (TwoGroups (Engine 0) 0 1) }
    ensures next { map
        (group_after (Queue 0) (first_group ∷ first_group ∷ second_group ∷ first_group ∷ []))
        (0 ∷ 1 ∷ 3 ∷ [])
        ≡ 1 ∷ 3 ∷ 4 ∷ [] }
    ensures next_of_engines { group_after (Engine 0)
        (first_group ∷ record second_group { queues = 1 } ∷ first_group ∷ []) 0
        ≡ 2 }
{}

/// The read buffers that all groups reserve.
pub fn reserves()
    ensures one_more { groups_reason caps 6 (pair_with (record second_group { reserved = 13 }))
        ≡ Some (ReservedTooMany 17 16) }
    ensures before_what_is_allowed { groups_reason caps 6
        (pair (record first_group { allowed = 3 }) (record second_group { reserved = 14 }))
        ≡ Some (ReservedTooMany 18 16) }
{}

/// The first group that may use too few read buffers or too many, by the first bound that its
/// number breaks.
pub fn bounds()
    ensures reserved { groups_reason caps 6 (pair_with (record second_group { allowed = 7 }))
        ≡ Some (AllowedOutOfRange 1 7 (Reserved 8)) }
    ensures unreserved { groups_reason caps 6
        (pair (record first_group { allowed = 9 }) second_group)
        ≡ Some (AllowedOutOfRange 0 9 (Unreserved 8)) }
    ensures need { groups_reason caps 6
        (pair (record first_group { reserved = 0; allowed = 3 }) second_group)
        ≡ Some (AllowedOutOfRange 0 3 Need) }
    ensures reserved_before_need { groups_reason caps 6
        (pair (record first_group { allowed = 3 }) second_group)
        ≡ Some (AllowedOutOfRange 0 3 (Reserved 4)) }
    ensures unreserved_before_need { groups_reason caps 6
        (pair (record first_group { reserved = 0; allowed = 3 })
        (record second_group { reserved = 14; allowed = 14 }))
        ≡ Some (AllowedOutOfRange 0 3 (Unreserved 2)) }
    ensures first_group { groups_reason caps 6
        (pair (record first_group { allowed = 9 }) (record second_group { allowed = 7 }))
        ≡ Some (AllowedOutOfRange 0 9 (Unreserved 8)) }
    ensures before_the_engine { groups_reason caps 6
        (pair_with (record second_group { engines = 0; allowed = 7 }))
        ≡ Some (AllowedOutOfRange 1 7 (Reserved 8)) }
{}

/// The first group with a queue and no engine, and then the first with an engine and no queue.
pub fn halves_of_groups()
    ensures no_engine { groups_reason caps 6 (pair_with (record second_group { engines = 0 }))
        ≡ Some (GroupWithoutEngine 1) }
    ensures no_queue { groups_reason caps 6 (pair_with (record second_group { queues = 0 }))
        ≡ Some (GroupWithoutQueue 1) }
    ensures engine_first { groups_reason caps 6
        (pair (record first_group { queues = 0 }) (record second_group { engines = 0 }))
        ≡ Some (GroupWithoutEngine 1) }
    ensures first_without_queue { groups_reason caps 6 (pair_of_queues 0 0)
        ≡ Some (GroupWithoutQueue 0) }
{}

/// What is against a queue, with its numbers.
pub fn queues()
    ensures none { check_queue_reason caps groups 0 shared_queue ≡ None }
    ensures dedicated { check_queue_reason caps groups 1 dedicated_queue ≡ None }
    ensures size { check_queue_reason caps groups 0 (record shared_queue { size = 0 })
        ≡ Some (SizeZero 0) }
    ensures priority { check_queue_reason caps groups 1 (record dedicated_queue { priority = 0 })
        ≡ Some (PriorityZero 1) }
    ensures large_priority { check_queue_reason caps groups 0
        (record shared_queue { priority = 16 })
        ≡ Some (PriorityTooLarge 0 16) }
    ensures threshold { check_queue_reason caps groups 0 (record shared_queue { threshold = 0 })
        ≡ Some (ThresholdZero 0) }
    ensures large_threshold { check_queue_reason caps groups 0
        (record shared_queue { threshold = 5 })
        ≡ Some (ThresholdAboveSize 0 5 4) }
    ensures batch { check_queue_reason caps groups 0 (record shared_queue { max_batch_shift = 4 })
        ≡ Some (BatchTooLarge 0 4 3) }
    ensures transfer { check_queue_reason caps groups 1
        (record dedicated_queue { max_xfer_shift = 22 })
        ≡ Some (TransferTooLarge 1 22 20) }
    ensures no_group { check_queue_reason caps groups 2 shared_queue ≡ Some (NoGroup 2) }
{}

/// Of several causes the first.
pub fn first_causes_of_a_queue()
    ensures size { check_queue_reason caps groups 0 (record shared_queue { size = 0; priority = 0 })
        ≡ Some (SizeZero 0) }
    ensures priority { check_queue_reason caps groups 0
        (record shared_queue { priority = 16; threshold = 0 })
        ≡ Some (PriorityTooLarge 0 16) }
    ensures threshold { check_queue_reason caps groups 0
        (record shared_queue { threshold = 5; max_batch_shift = 4 })
        ≡ Some (ThresholdAboveSize 0 5 4) }
    ensures shifts { check_queue_reason caps [] 0
        (record shared_queue { max_batch_shift = 4; max_xfer_shift = 22 })
        ≡ Some (BatchTooLarge 0 4 3) }
    ensures transfer { check_queue_reason caps [] 0 (record shared_queue { max_xfer_shift = 22 })
        ≡ Some (TransferTooLarge 0 22 20) }
{}

/// The fault of each reason.
pub fn faults()
    ensures of_groups { map check_fault
        (NamesMissing 0 (Queue 2) 2
        ∷ SizesTooLarge 9 8
        ∷ TwoGroups (Queue 0) 0 1
        ∷ ReservedTooMany 17 16
        ∷ AllowedOutOfRange 0 3 Need
        ∷ GroupWithoutEngine 0
        ∷ GroupWithoutQueue 0
        ∷ [])
        ≡ fault.BadIndex
        ∷ fault.SizesTooLarge
        ∷ fault.TwoGroups
        ∷ fault.ReservedTooMany
        ∷ fault.AllowedOutOfRange
        ∷ fault.GroupWithoutEngine
        ∷ fault.GroupWithoutQueue
        ∷ [] }
    ensures of_fields { map check_fault
        (SizeZero 0
        ∷ PriorityZero 0
        ∷ PriorityTooLarge 0 16
        ∷ ThresholdZero 0
        ∷ ThresholdAboveSize 0 5 4
        ∷ [])
        ≡ fault.SizeZero
        ∷ fault.PriorityZero
        ∷ fault.PriorityTooLarge
        ∷ fault.ThresholdZero
        ∷ fault.ThresholdAboveSize
        ∷ [] }
    ensures of_shifts { map check_fault
        (BatchTooLarge 0 4 3 ∷ TransferTooLarge 0 22 20 ∷ NoGroup 0 ∷ [])
        ≡ fault.BatchTooLarge ∷ fault.TransferTooLarge ∷ fault.NoGroup ∷ [] }
{}
