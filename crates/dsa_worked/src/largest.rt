//! The largest device: its last queue and its last engine, and the largest batch.

ghost use Rattle.std.specs.Prelude.{◌≡◌, ◌++◌, [], ◌∷◌, Some, Ok, true, false};
ghost use Rattle.dsa_regs.specs.declared.Command.TheVariants.{DisableWq, EnableWq};
ghost use Rattle.dsa_regs.specs.declared.Fault.TheVariants.{BadQueue};
ghost use Rattle.dsa_regs.specs.Caps.{check_caps, cell_count};
ghost use Rattle.dsa_regs.specs.Command.{command_of};
ghost use Rattle.dsa_book.specs.declared.answer.DispatchAnswer.TheVariants.{Idle};
ghost use Rattle.dsa_book.specs.declared.answer.FinishAnswer.TheVariants.{Done, NotReady, Full};
ghost use Rattle.dsa_book.specs.Machine.{is_run};
ghost use Rattle.dsa_worked.specs.Setup.{room, dispatched, step_of_a_refusal, completed};
ghost use Rattle.dsa_worked.specs.Largest.{one_large_group, last_of_all, batch_of_the_last_queue, fates_there};

/// 64 queues, 64 engines and 4096 places in one group: its cells, and the words that are issued
/// there.
pub fn largest_device()
    ensures caps { check_caps one_large_group ≡ true }
    ensures cells { cell_count one_large_group ≡ 70656 }
    ensures enables_the_last_queue { command_of 6291519 ≡ Ok (EnableWq 63) }
    ensures disables_the_last_queue { command_of 7569408
        ≡ Ok (DisableWq (record { group = 3; mask = 32768 })) }
    ensures disables_one_beyond_it { command_of 7602177
        ≡ Ok (DisableWq (record { group = 4; mask = 1 })) }
{}

/// The last queue takes the largest batch, the last engine works on it, and the queue is not there
/// that would be one more.
pub fn batch_of_the_last_queue()
    ensures run { is_run one_large_group room (batch_of_the_last_queue 1024 NotReady) ≡ true }
    ensures seven_are_stored { is_run one_large_group 7 (batch_of_the_last_queue 1024 Full) ≡ true }
    ensures no_larger_batch { is_run one_large_group room (batch_of_the_last_queue 1024 (Done 0x14))
        ≡ false }
    ensures no_queue_beyond_the_last { is_run one_large_group room
        (last_of_all ++ step_of_a_refusal BadQueue (EnableWq 64) ∷ [])
        ≡ true }
    ensures no_engine_beyond_the_last { is_run one_large_group room
        (last_of_all ++ dispatched 64 Idle ∷ [])
        ≡ true }
{}

/// A batch that is larger by one ends at once.
pub fn batch_beyond_the_largest()
    ensures run { is_run one_large_group room (batch_of_the_last_queue 1025 (Done 0x14)) ≡ true }
    ensures fates { fates_there (batch_of_the_last_queue 1025 (Done 0x14))
        ≡ Some (completed 0 0x14 ∷ []) }
    ensures not_open { is_run one_large_group room (batch_of_the_last_queue 1025 NotReady) ≡ false }
{}
