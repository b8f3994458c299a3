//! Devices that have not as many of one thing as of another, so that none is taken for another:
//! their lists and cells, the check of their groups, their first state and their last numbers.

ghost use Rattle.std.specs.Prelude.{◌≡◌, ◌++◌, [], ◌∷◌, Some, None, true, false, map, take, replicate};
ghost use Rattle.dsa_regs.specs.declared.Phase.TheVariants.{Off, On};
ghost use Rattle.dsa_regs.specs.declared.Command.TheVariants.{EnableWq, DisableDevice};
ghost use Rattle.dsa_regs.specs.declared.Fault.TheVariants.{BadIndex, TwoGroups, SizesTooLarge, AllowedOutOfRange, ReservedTooMany, GroupWithoutEngine};
ghost use Rattle.dsa_regs.specs.declared.layout.ListUse.TheVariants.{Queue, Progress, Members};
ghost use Rattle.dsa_regs.specs.declared.reasons.Named.TheVariants as named;
ghost use Rattle.dsa_regs.specs.Caps.{check_caps, cell_count, list_count, first_members, list_number, list_use, engine_of_list};
ghost use Rattle.dsa_regs.specs.Config.{zero_queue, check_device, is_any_shared, count_of, missing_name, shared_name};
ghost use Rattle.dsa_book.specs.declared.answer.DispatchAnswer.TheVariants.{Taken, Idle};
ghost use Rattle.dsa_book.specs.declared.answer.FetchAnswer.TheVariants.{NoBatch};
ghost use Rattle.dsa_book.specs.declared.answer.WriteAnswer.TheVariants.{Written};
ghost use Rattle.dsa_book.specs.Machine.{is_run};
ghost use Rattle.dsa_book.specs.State.{opening};
ghost use Rattle.dsa_worked.specs.Setup.{room, no_op, ticket, dispatched, obeyed, step_of_a_fetch, step_of_a_queue_write, step_of_a_group_write, ended};
ghost use Rattle.dsa_worked.specs.Uneven.{many_queues, many_engines, many_groups, three_two_one, small_queue, of_these, last_of_many_queues, engine_beyond_the_last, last_of_many_engines, batch_of_the_last_engine, last_of_many_groups, reset_of_the_last_queue, phases_there, configs_there, used_there, first_state};

/// The cells and the lists of each device, and what each list is for.
pub fn lists_and_cells()
    ensures lawful { map check_caps
        (many_queues ∷ many_engines ∷ many_groups ∷ three_two_one ∷ [])
        ≡ replicate 4 true }
    ensures cells { map cell_count
        (many_queues ∷ many_engines ∷ many_groups ∷ three_two_one ∷ [])
        ≡ 23 ∷ 23 ∷ 15 ∷ 84 ∷ [] }
    ensures lists { map list_count
        (many_queues ∷ many_engines ∷ many_groups ∷ three_two_one ∷ [])
        ≡ 9 ∷ 15 ∷ 7 ∷ 7 ∷ [] }
    ensures members { map first_members
        (many_queues ∷ many_engines ∷ many_groups ∷ three_two_one ∷ [])
        ≡ 8 ∷ 8 ∷ 5 ∷ 5 ∷ [] }
    ensures of_many_queues { map (list_number many_queues)
        (Queue 0 ∷ Queue 6 ∷ Progress 0 ∷ Members 0 ∷ [])
        ≡ 0 ∷ 6 ∷ 7 ∷ 8 ∷ [] }
    ensures of_many_engines { map (list_number many_engines)
        (Queue 0 ∷ Progress 0 ∷ Progress 6 ∷ Members 0 ∷ Members 6 ∷ [])
        ≡ 0 ∷ 1 ∷ 7 ∷ 8 ∷ 14 ∷ [] }
    ensures uses_of_many_queues { map (list_use many_queues) (0 ∷ 6 ∷ 7 ∷ 8 ∷ [])
        ≡ Queue 0 ∷ Queue 6 ∷ Progress 0 ∷ Members 0 ∷ [] }
    ensures uses_of_many_engines { map (list_use many_engines) (0 ∷ 1 ∷ 7 ∷ 8 ∷ 14 ∷ [])
        ≡ Queue 0 ∷ Progress 0 ∷ Progress 6 ∷ Members 0 ∷ Members 6 ∷ [] }
    ensures engines { map engine_of_list (Queue 3 ∷ Progress 4 ∷ Members 5 ∷ [])
        ≡ None ∷ Some 4 ∷ Some 5 ∷ [] }
{}

/// Queues are checked by the number of queues, and engines by that of engines.
pub fn checks_of_groups()
    ensures last_queue { check_device many_queues [] (of_these 64 1 ∷ []) ≡ None }
    ensures no_such_queue { check_device many_queues [] (of_these 128 1 ∷ []) ≡ Some BadIndex }
    ensures no_such_engine { check_device many_queues [] (of_these 64 2 ∷ []) ≡ Some BadIndex }
    ensures last_engine { check_device many_engines [] (of_these 1 64 ∷ []) ≡ None }
    ensures no_such_last_engine { check_device many_engines [] (of_these 1 128 ∷ [])
        ≡ Some BadIndex }
    ensures no_second_queue { check_device many_engines [] (of_these 2 64 ∷ []) ≡ Some BadIndex }
    ensures last_queue_in_two { check_device many_queues []
        (of_these 64 1 ∷ of_these 64 0 ∷ [])
        ≡ Some TwoGroups }
    ensures last_engine_in_two { check_device many_engines []
        (of_these 1 64 ∷ of_these 0 64 ∷ [])
        ≡ Some TwoGroups }
    ensures missing_queue_is_not_shared { is_any_shared many_engines
        (of_these 3 1 ∷ of_these 2 2 ∷ [])
        ≡ false }
    ensures missing_engine_is_not_shared { is_any_shared many_queues
        (of_these 1 3 ∷ of_these 2 2 ∷ [])
        ≡ false }
{}

/// Sizes and read buffers are checked by their own numbers, and only where a group has an engine or
/// a queue.
pub fn checks_of_numbers()
    ensures sizes { check_device many_queues
        (record zero_queue { size = 5 } ∷ []) (of_these 64 1 ∷ [])
        ≡ Some SizesTooLarge }
    ensures sizes_of_many_engines { check_device many_engines
        (record zero_queue { size = 2 } ∷ []) (of_these 1 1 ∷ [])
        ≡ None }
    ensures allowed { check_device many_queues []
        (record (of_these 64 1) { allowed = 6 } ∷ [])
        ≡ Some AllowedOutOfRange }
    ensures reserved { check_device many_engines []
        (record (of_these 1 1) { reserved = 5; allowed = 5 } ∷ [])
        ≡ Some ReservedTooMany }
    ensures below_need_without_an_engine { check_device many_queues []
        (record (of_these 64 0) { allowed = 0 } ∷ [])
        ≡ Some GroupWithoutEngine }
    ensures none_allowed { check_device many_queues []
        (record (of_these 64 1) { allowed = 0 } ∷ [])
        ≡ Some AllowedOutOfRange }
    ensures reserved_alone { check_device many_queues []
        (record (of_these 0 0) { reserved = 1 } ∷ [])
        ≡ None }
    ensures counts { map (count_of many_queues) (named.Queue 9 ∷ named.Engine 9 ∷ []) ≡ 7 ∷ 1 ∷ [] }
    ensures counts_of_many_engines { map (count_of many_engines)
        (named.Queue 9 ∷ named.Engine 9 ∷ [])
        ≡ 1 ∷ 7 ∷ [] }
{}

/// The first name that a group has and the device has not, and the first that two groups have.
#[tactic(auto, unfolding(dsa_regs::specs::Config::first_past))]
pub fn names_of_reasons()
    ensures missing_of_many_queues { map (missing_name many_queues)
        (of_these 128 1 ∷ of_these 192 1 ∷ of_these 64 2 ∷ of_these 64 126 ∷ [])
        ≡ named.Queue 7 ∷ named.Queue 7 ∷ named.Engine 1 ∷ named.Engine 1 ∷ [] }
    ensures missing_of_many_engines { map (missing_name many_engines)
        (of_these 2 64 ∷ of_these 254 64 ∷ of_these 1 128 ∷ of_these 1 192 ∷ [])
        ≡ named.Queue 1 ∷ named.Queue 1 ∷ named.Engine 7 ∷ named.Engine 7 ∷ [] }
    ensures shared_of_many_queues { map (λ bits. shared_name many_queues
        (of_these bits 1 ∷ of_these bits 0 ∷ []))
        (64 ∷ 32 ∷ 96 ∷ [])
        ≡ named.Queue 6 ∷ named.Queue 5 ∷ named.Queue 5 ∷ [] }
    ensures shared_with_smaller_transfers { shared_name (record many_queues { max_xfer_shift = 5 })
        (of_these 64 1 ∷ of_these 64 0 ∷ [])
        ≡ named.Queue 6 }
    ensures shared_of_many_engines { map (λ bits. shared_name many_engines
        (of_these 2 bits ∷ of_these 2 bits ∷ []))
        (64 ∷ 32 ∷ 96 ∷ [])
        ≡ named.Engine 6 ∷ named.Engine 5 ∷ named.Engine 5 ∷ [] }
{}

/// A device before its first step has a configuration and a phase for each queue, a configuration
/// for each group, a note for each engine and all its lists.
pub fn first_states()
    ensures many_queues { opening many_queues ≡ first_state many_queues 7 2 9 1 }
    ensures many_engines { opening many_engines ≡ first_state many_engines 1 1 15 7 }
{}

/// The last of many queues and the last group are there, and the ones beyond them are not.
pub fn last_of_many_queues()
    ensures run { is_run many_queues room last_of_many_queues ≡ true }
    ensures phases { phases_there many_queues last_of_many_queues
        ≡ Some (replicate 6 Off ++ On ∷ []) }
    ensures configs { configs_there many_queues last_of_many_queues
        ≡ Some (replicate 6 zero_queue ++ small_queue ∷ []) }
    ensures no_queue_beyond_the_last { is_run many_queues room
        (take 4 last_of_many_queues ++ obeyed (EnableWq 7) ∷ [])
        ≡ false }
    ensures no_write_beyond_the_last { is_run many_queues room
        (step_of_a_queue_write 7 small_queue Written ∷ [])
        ≡ false }
    ensures no_group_beyond_the_last { is_run many_queues room
        (step_of_a_group_write 2 (of_these 64 1) Written ∷ [])
        ≡ false }
    ensures off_with_the_device { phases_there many_queues
        (last_of_many_queues ++ obeyed DisableDevice ∷ [])
        ≡ Some (replicate 7 Off) }
{}

/// An engine that the device does not have ends no member of the engine before it.
pub fn engine_beyond_the_last()
    ensures run { is_run many_queues room engine_beyond_the_last ≡ true }
    ensures ends_no_member { is_run many_queues room
        (take 12 engine_beyond_the_last ++ ended 1 1 1 0x01 ∷ []) ≡ false }
    ensures not_idle { is_run many_queues room
        (take 17 engine_beyond_the_last ++ dispatched 0 Idle ∷ [])
        ≡ false }
{}

/// The read buffers in use are those of all engines of the group, and of no others.
pub fn last_of_many_engines()
    ensures run { is_run many_engines room last_of_many_engines ≡ true }
    ensures none_are_left { is_run many_engines room
        (take 13 last_of_many_engines ++ dispatched 2 (Taken (ticket 4 4) 0) ∷ [])
        ≡ false }
    ensures used { used_there many_engines (take 13 last_of_many_engines) ≡ Some (4 ∷ []) }
    ensures given_back { used_there many_engines (take 16 last_of_many_engines) ≡ Some (3 ∷ []) }
{}

/// The last engine keeps its note when another PASID is aborted.
pub fn batch_of_the_last_engine()
    ensures run { is_run many_engines room batch_of_the_last_engine ≡ true }
    ensures still_open { is_run many_engines room
        (take 7 batch_of_the_last_engine ++ step_of_a_fetch 6 no_op NoBatch ∷ [])
        ≡ false }
{}

/// The last of many groups has its queue, its engine and its read buffers.
pub fn last_of_many_groups()
    ensures run { is_run many_groups room last_of_many_groups ≡ true }
    ensures used { used_there many_groups last_of_many_groups ≡ Some (replicate 7 0 ++ 1 ∷ []) }
    ensures one_slot { is_run many_groups room
        (take 7 last_of_many_groups ++ dispatched 1 (Taken (ticket 1 1) 2) ∷ [])
        ≡ false }
{}

/// A reset of the last of many queues leaves its size alone.
pub fn reset_of_the_last_queue()
    ensures run { is_run many_queues room reset_of_the_last_queue ≡ true }
    ensures configs { configs_there many_queues reset_of_the_last_queue
        ≡ Some (replicate 6 zero_queue ++ record zero_queue { size = 2 } ∷ []) }
    ensures phases { phases_there many_queues reset_of_the_last_queue ≡ Some (replicate 7 Off) }
{}
