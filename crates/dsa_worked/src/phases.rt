//! Phases: which commands may come where, what they do to one queue of two, resets, and writes.

ghost use Rattle.std.specs.Prelude.{◌≡◌, [], ◌∷◌, Some, None, true, false, take};
ghost use Rattle.dsa_regs.specs.declared.Phase.TheVariants.{Off, On, Stopping};
ghost use Rattle.dsa_regs.specs.declared.Command.TheVariants.{EnableDevice, EnableWq, DisableWq, DrainWq, DrainAll, AbortWq, AbortAll, ResetWq, ResetDevice};
ghost use Rattle.dsa_regs.specs.declared.Fault.TheVariants.{Busy, WrongState, BadQueue, BadIndex, Locked, SizeZero, PriorityZero};
ghost use Rattle.dsa_book.specs.declared.answer.Cause.TheVariants.{AtLimit, NotEnabled};
ghost use Rattle.dsa_book.specs.declared.answer.SubmitAnswer.TheVariants.{Retry};
ghost use Rattle.dsa_book.specs.declared.answer.IssueAnswer.TheVariants.{Ended, Active, Refused};
ghost use Rattle.dsa_book.specs.declared.answer.PollAnswer.TheVariants.{Finished, Active};
ghost use Rattle.dsa_book.specs.declared.answer.WriteAnswer.TheVariants.{Written, Refused};
ghost use Rattle.dsa_book.specs.declared.answer.ClearAnswer.TheVariants.{Cleared};
ghost use Rattle.dsa_book.specs.declared.fate.Fate.TheVariants.{Aborted};
ghost use Rattle.dsa_book.specs.Machine.{is_run};
ghost use Rattle.dsa_regs.specs.Worked.{caps, shared_queue, dedicated_queue, first_group};
ghost use Rattle.dsa_regs.specs.Config.{zero_queue};
ghost use Rattle.dsa_worked.specs.Setup.{room, is_run_here, may_not_follow, fates_after, content_after, phases_after, configs_after, row, held_entry, no_op, masked, enqcmd, issued, polled, cleared, step_of_a_queue_write, step_of_a_group_write, to_shared, to_dedicated, obeyed, step_of_a_refusal, may_answer, completed, no_entries, with_list, wrong_after};
ghost use Rattle.dsa_worked.specs.Phases.{commands_while_off, commands_of_a_queue_that_is_off, masks_with_a_missing_queue, commands_while_busy, drain_of_one_queue_of_two, abort_of_one_queue_of_two, disable_of_one_queue_of_two, enable_of_one_queue_of_two, disable_with_a_queue_that_is_off, reset_of_all, reset_of_one_queue_of_two, writes_and_locks};

/// While the device is Off it may be enabled and reset, and nothing else.
pub fn commands_while_off()
    ensures run { is_run caps room commands_while_off ≡ true }
    ensures a_reset_is_not_refused { is_run caps room
        (step_of_a_refusal WrongState ResetDevice ∷ []) ≡ false }
    ensures nothing_to_disable { is_run caps room (obeyed (DisableWq (masked 1)) ∷ []) ≡ false }
    ensures nothing_to_drain { is_run caps room (obeyed DrainAll ∷ []) ≡ false }
    ensures no_reset_of_a_queue { is_run caps room (obeyed (ResetWq (masked 1)) ∷ []) ≡ false }
    ensures a_missing_queue_comes_first { is_run caps room
        (step_of_a_refusal WrongState (EnableWq 2) ∷ []) ≡ false }
    ensures the_state_comes_before_the_check { is_run caps room
        (step_of_a_refusal SizeZero (EnableWq 0) ∷ []) ≡ false }
{}

/// A queue that is On is not enabled again, and one that is Off is reset, but not disabled, drained
/// or aborted.
pub fn commands_of_a_queue_that_is_off()
    ensures run { is_run_here commands_of_a_queue_that_is_off ≡ true }
    ensures phases { phases_after (take 2 commands_of_a_queue_that_is_off)
        ≡ Some (On, On ∷ Off ∷ []) }
    ensures phases_after_resets { phases_after commands_of_a_queue_that_is_off
        ≡ Some (On, Off ∷ Off ∷ []) }
    ensures not_enabled_again { may_not_follow [] (obeyed (EnableWq 0)) ≡ true }
    ensures not_disabled_again { wrong_after 2 commands_of_a_queue_that_is_off
        (obeyed (DisableWq (masked 2))) ≡ true }
    ensures not_drained { wrong_after 2 commands_of_a_queue_that_is_off
        (obeyed (DrainWq (masked 2))) ≡ true }
    ensures not_aborted { wrong_after 2 commands_of_a_queue_that_is_off
        (obeyed (AbortWq (masked 2))) ≡ true }
    ensures not_drained_beside_one_that_is_on { wrong_after 2 commands_of_a_queue_that_is_off
        (obeyed (DrainWq (masked 3))) ≡ true }
    ensures not_aborted_beside_one_that_is_on { wrong_after 2 commands_of_a_queue_that_is_off
        (obeyed (AbortWq (masked 3))) ≡ true }
    ensures a_reset_is_not_refused { wrong_after 2 commands_of_a_queue_that_is_off
        (step_of_a_refusal WrongState (ResetWq (masked 2))) ≡ true }
{}

/// Every queue of a mask is one that the device has, and there is one.
pub fn masks_with_a_missing_queue()
    ensures run { is_run_here masks_with_a_missing_queue ≡ true }
    ensures no_disable_of_the_other { may_not_follow [] (obeyed (DisableWq (masked 5))) ≡ true }
    ensures no_drain_of_the_other { may_not_follow [] (obeyed (DrainWq (masked 5))) ≡ true }
    ensures no_abort_of_the_other { may_not_follow [] (obeyed (AbortWq (masked 5))) ≡ true }
    ensures no_reset_of_the_other { may_not_follow [] (obeyed (ResetWq (masked 5))) ≡ true }
    ensures no_wrong_state { may_not_follow [] (step_of_a_refusal WrongState (DrainWq (masked 5)))
        ≡ true }
{}

/// While a command is active, no other may come.
pub fn commands_while_busy()
    ensures run { is_run_here commands_while_busy ≡ true }
    ensures no_reset { wrong_after 2 commands_while_busy (issued ResetDevice (Ended 1)) ≡ true }
    ensures no_abort { wrong_after 2 commands_while_busy (issued AbortAll (Ended 1)) ≡ true }
    ensures busy_comes_before_a_bad_mask { wrong_after 2 commands_while_busy
        (step_of_a_refusal BadQueue (DrainWq (masked 0))) ≡ true }
    ensures busy_comes_before_the_state { wrong_after 2 commands_while_busy
        (step_of_a_refusal WrongState EnableDevice) ≡ true }
{}

/// A drain of a queue waits for that queue alone, and stops none.
pub fn drain_of_one_queue_of_two()
    ensures run { is_run_here drain_of_one_queue_of_two ≡ true }
    ensures fates { fates_after drain_of_one_queue_of_two
        ≡ Some (completed 0 0x01 ∷ completed 1 0x01 ∷ []) }
    ensures phases_meanwhile { phases_after (take 4 drain_of_one_queue_of_two)
        ≡ Some (On, On ∷ On ∷ []) }
    ensures phases { phases_after drain_of_one_queue_of_two ≡ Some (On, On ∷ On ∷ []) }
    ensures does_not_wait_for_the_other { wrong_after 1 drain_of_one_queue_of_two
        (issued (DrainWq (masked 1)) Active) ≡ true }
    ensures waits_for_its_own { wrong_after 3 drain_of_one_queue_of_two
        (obeyed (DrainWq (masked 2))) ≡ true }
    ensures waits_for_what_was_taken { wrong_after 5 drain_of_one_queue_of_two (polled Finished)
        ≡ true }
    ensures no_longer_than_its_own { wrong_after 7 drain_of_one_queue_of_two (polled Active)
        ≡ true }
    ensures over_once { wrong_after 8 drain_of_one_queue_of_two (polled Finished) ≡ true }
    ensures a_drain_of_all_waits_for_both { wrong_after 9 drain_of_one_queue_of_two
        (obeyed DrainAll) ≡ true }
{}

/// An abort of a queue takes what it and its engine hold of that queue, and nothing of the other.
pub fn abort_of_one_queue_of_two()
    ensures run { is_run_here abort_of_one_queue_of_two ≡ true }
    ensures fates { fates_after abort_of_one_queue_of_two
        ≡ Some (row 2 None (Aborted 9) ∷ row 1 None (Aborted 9) ∷ []) }
    ensures content { content_after (take 5 abort_of_one_queue_of_two)
        ≡ Some (with_list 0 (held_entry 0 0 None (record no_op { pasid = 5 }) 0 false ∷ [])
        no_entries) }
    ensures phases { phases_after abort_of_one_queue_of_two ≡ Some (On, On ∷ On ∷ []) }
    ensures not_the_other { wrong_after 4 abort_of_one_queue_of_two
        (issued (AbortWq (masked 2)) (Ended 3)) ≡ true }
    ensures not_what_waits_alone { wrong_after 4 abort_of_one_queue_of_two
        (issued (AbortWq (masked 2)) (Ended 1)) ≡ true }
{}

/// A disable of a queue goes from Active by Stopping to Off, and the other queue goes on.
pub fn disable_of_one_queue_of_two()
    ensures run { is_run_here disable_of_one_queue_of_two ≡ true }
    ensures fates { fates_after disable_of_one_queue_of_two ≡ Some (completed 1 0x01 ∷ []) }
    ensures stopping { phases_after (take 3 disable_of_one_queue_of_two)
        ≡ Some (On, On ∷ Stopping ∷ []) }
    ensures still_stopping { phases_after (take 9 disable_of_one_queue_of_two)
        ≡ Some (On, On ∷ Stopping ∷ []) }
    ensures off { phases_after (take 10 disable_of_one_queue_of_two) ≡ Some (On, On ∷ Off ∷ []) }
    ensures on_again { phases_after disable_of_one_queue_of_two ≡ Some (On, On ∷ On ∷ []) }
    ensures not_at_once { wrong_after 2 disable_of_one_queue_of_two (obeyed (DisableWq (masked 2)))
        ≡ true }
    ensures nothing_comes_in_meanwhile { wrong_after 3 disable_of_one_queue_of_two
        (to_dedicated no_op 2 2) ≡ true }
    ensures the_other_is_not_stopped { wrong_after 4 disable_of_one_queue_of_two
        (enqcmd no_op (Retry NotEnabled)) ≡ true }
    ensures locked_until_off { wrong_after 5 disable_of_one_queue_of_two
        (step_of_a_queue_write 1 dedicated_queue Written) ≡ true }
    ensures not_before_its_end { wrong_after 7 disable_of_one_queue_of_two (polled Finished)
        ≡ true }
    ensures does_not_wait_for_the_other { wrong_after 9 disable_of_one_queue_of_two (polled Active)
        ≡ true }
    ensures off_until_enabled { wrong_after 11 disable_of_one_queue_of_two (to_dedicated no_op 1 3)
        ≡ true }
{}

/// An enable of a queue enables that queue alone.
pub fn enable_of_one_queue_of_two()
    ensures run { is_run_here enable_of_one_queue_of_two ≡ true }
    ensures off { phases_after (take 1 enable_of_one_queue_of_two) ≡ Some (On, Off ∷ Off ∷ []) }
    ensures on { phases_after enable_of_one_queue_of_two ≡ Some (On, Off ∷ On ∷ []) }
    ensures the_other_is_off { may_not_follow enable_of_one_queue_of_two (to_shared no_op 0 0)
        ≡ true }
{}

/// A disable of the device stops the queues that are On. While it lasts, a queue that is Off may be
/// written, but not its size.
pub fn disable_with_a_queue_that_is_off()
    ensures run { is_run_here disable_with_a_queue_that_is_off ≡ true }
    ensures fates { fates_after disable_with_a_queue_that_is_off ≡ Some (completed 0 0x01 ∷ []) }
    ensures stopping { phases_after (take 3 disable_with_a_queue_that_is_off)
        ≡ Some (Stopping, Stopping ∷ Off ∷ []) }
    ensures off { phases_after disable_with_a_queue_that_is_off ≡ Some (Off, Off ∷ Off ∷ []) }
    ensures configs { configs_after disable_with_a_queue_that_is_off
        ≡ Some (shared_queue ∷ record dedicated_queue { size = 1 } ∷ []) }
    ensures no_size_meanwhile { wrong_after 4 disable_with_a_queue_that_is_off
        (step_of_a_queue_write 1 (record dedicated_queue { size = 1 }) Written) ≡ true }
    ensures no_group_meanwhile { wrong_after 6 disable_with_a_queue_that_is_off
        (step_of_a_group_write 0 first_group Written) ≡ true }
    ensures not_before_its_end { wrong_after 8 disable_with_a_queue_that_is_off (polled Finished)
        ≡ true }
    ensures any_size_then { wrong_after 11 disable_with_a_queue_that_is_off
        (step_of_a_queue_write 1 (record dedicated_queue { size = 1 }) (Refused Locked)) ≡ true }
{}

/// A reset of the device leaves no noted error and no configuration, and may come while the device
/// is Off.
pub fn reset_of_all()
    ensures run { is_run_here reset_of_all ≡ true }
    ensures fates { fates_after reset_of_all
        ≡ Some (row 0 None (Aborted 5) ∷ row 1 None (Aborted 5) ∷ []) }
    ensures phases { phases_after (take 4 reset_of_all) ≡ Some (Off, Off ∷ Off ∷ []) }
    ensures configs { configs_after (take 4 reset_of_all) ≡ Some (zero_queue ∷ zero_queue ∷ []) }
    ensures no_noted_error { wrong_after 4 reset_of_all
        (cleared (Cleared (record { queue = 1; cause = AtLimit; overflow = false }))) ≡ true }
    ensures not_refused_while_off { wrong_after 6 reset_of_all
        (step_of_a_refusal WrongState ResetDevice) ≡ true }
    ensures no_noted_error_while_off { wrong_after 7 reset_of_all
        (cleared (Cleared (record { queue = 1; cause = NotEnabled; overflow = false }))) ≡ true }
    ensures no_size { wrong_after 10 reset_of_all (step_of_a_refusal PriorityZero (EnableWq 1))
        ≡ true }
    ensures no_group { wrong_after 11 reset_of_all (obeyed (EnableWq 0)) ≡ true }
{}

/// A reset of a queue takes its entries and all its configuration but the size; the other queue
/// keeps all.
pub fn reset_of_one_queue_of_two()
    ensures run { is_run_here reset_of_one_queue_of_two ≡ true }
    ensures fates { fates_after reset_of_one_queue_of_two ≡ Some (row 0 None (Aborted 10) ∷ []) }
    ensures phases { phases_after (take 3 reset_of_one_queue_of_two) ≡ Some (On, Off ∷ On ∷ []) }
    ensures configs { configs_after (take 3 reset_of_one_queue_of_two)
        ≡ Some (record zero_queue { size = 4 } ∷ dedicated_queue ∷ []) }
    ensures not_the_other { wrong_after 2 reset_of_one_queue_of_two
        (issued (ResetWq (masked 1)) (Ended 2)) ≡ true }
    ensures the_size_is_locked { wrong_after 4 reset_of_one_queue_of_two
        (step_of_a_queue_write 0 (record shared_queue { size = 3 }) Written) ≡ true }
    ensures the_same_size_is_not { wrong_after 4 reset_of_one_queue_of_two
        (step_of_a_queue_write 0 shared_queue (Refused Locked)) ≡ true }
{}

/// A queue that is Off may be written, its size while the device is Off; a group while the device
/// is Off.
pub fn writes_and_locks()
    ensures run { is_run caps room writes_and_locks ≡ true }
    ensures any_size_while_off { may_answer [] 1 writes_and_locks
        (step_of_a_queue_write 0 shared_queue (Refused Locked)) ≡ false }
    ensures no_queue_is_not_locked { may_answer [] 8 writes_and_locks
        (step_of_a_queue_write 2 shared_queue (Refused Locked)) ≡ false }
    ensures no_group_is_not_locked { may_answer [] 10 writes_and_locks
        (step_of_a_group_write 2 first_group (Refused Locked)) ≡ false }
    ensures locked_is_no_bad_index { may_answer [] 6 writes_and_locks
        (step_of_a_queue_write 0 (record shared_queue { size = 3 }) (Refused BadIndex)) ≡ false }
    ensures locked_is_no_wrong_state { may_answer [] 9 writes_and_locks
        (step_of_a_group_write 0 first_group (Refused WrongState)) ≡ false }
    ensures locked_while_on { may_answer [] 12 writes_and_locks
        (step_of_a_queue_write 0 (record shared_queue { threshold = 3 }) Written) ≡ false }
    ensures busy_is_no_cause { may_answer [] 12 writes_and_locks
        (step_of_a_queue_write 0 (record shared_queue { threshold = 3 }) (Refused Busy)) ≡ false }
{}
