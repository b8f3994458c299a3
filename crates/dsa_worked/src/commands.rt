//! Commands: drains, aborts, resets, disables, and why commands and writes are refused.

ghost use Rattle.std.specs.Prelude.{◌≡◌, [], ◌∷◌, Some, None, true, false, map};
ghost use Rattle.dsa_regs.specs.declared.Command.TheVariants.{EnableWq, DisableDevice, DrainWq, DrainPasid, AbortPasid, DisableWq};
ghost use Rattle.dsa_regs.specs.declared.Fault.TheVariants.{SizesTooLarge, TwoGroups, ReservedTooMany, AllowedOutOfRange, GroupWithoutEngine, GroupWithoutQueue, BadIndex, SizeZero};
ghost use Rattle.dsa_book.specs.declared.answer.DispatchAnswer.TheVariants.{Idle};
ghost use Rattle.dsa_book.specs.declared.answer.FinishAnswer.TheVariants.{Gone};
ghost use Rattle.dsa_book.specs.declared.answer.IssueAnswer.TheVariants.{Ended, Active};
ghost use Rattle.dsa_book.specs.declared.answer.PollAnswer.TheVariants.{Finished, Active};
ghost use Rattle.dsa_book.specs.declared.fate.Fate.TheVariants.{Aborted};
ghost use Rattle.dsa_regs.specs.Worked.{dedicated_queue, first_group, second_group};
ghost use Rattle.dsa_worked.specs.Setup.{is_run_here, may_not_follow, fates_after, content_after, next_name_after, account_after, row, held_entry, no_op, ticket, dispatched, finished, issued, polled, ended, step_of_a_take, to_shared, obeyed, step_of_a_refusal, completed, completed_in, no_entries, with_list, nothing_counted, wrong_after};
ghost use Rattle.dsa_worked.specs.Commands.{drain_of_a_queue, drain_of_a_batch, drain_of_a_pasid, abort_of_a_pasid, abort_takes_members, batch_after_an_abort, old_ticket_is_gone, abort_and_reset, names_go_on_after_a_reset, reset_of_a_queue, disable_and_enable_again, refused_enables_and_writes, priorities, queues_that_are_not_there, refuses_device};

/// A drain of a queue waits for what was submitted before it: it does not end at once, and what
/// comes later does not hold it up.
pub fn drain_of_a_queue()
    ensures run { is_run_here drain_of_a_queue ≡ true }
    ensures fates { fates_after drain_of_a_queue ≡ Some (completed 0 0x01 ∷ []) }
    ensures content { content_after drain_of_a_queue
        ≡ Some (with_list 0 (held_entry 1 1 None (record no_op { pasid = 5 }) 0 false ∷ [])
        no_entries) }
    ensures not_at_once { wrong_after 1 drain_of_a_queue
        (obeyed (DrainWq (record { group = 0; mask = 1 }))) ≡ true }
    ensures not_before_its_end { wrong_after 6 drain_of_a_queue (polled Finished) ≡ true }
    ensures not_until_the_queue_is_empty { wrong_after 7 drain_of_a_queue (polled Active) ≡ true }
{}

/// A drain waits for a batch, whose members end before it.
pub fn drain_of_a_batch()
    ensures run { is_run_here drain_of_a_batch ≡ true }
    ensures fates { fates_after drain_of_a_batch
        ≡ Some (completed 0 0x01 ∷ completed_in 1 2 0x01 ∷ completed_in 1 3 0x01 ∷ completed 1 0x01
        ∷ []) }
    ensures not_before_the_batch { wrong_after 14 drain_of_a_batch (polled Finished) ≡ true }
{}

/// A drain of a PASID waits for entries of that PASID, and for no others.
pub fn drain_of_a_pasid()
    ensures run { is_run_here drain_of_a_pasid ≡ true }
    ensures not_for_others { wrong_after 2 drain_of_a_pasid (issued (DrainPasid 7) Active) ≡ true }
{}

/// An abort of a PASID takes the entries of that PASID alone, and the others keep their order.
pub fn abort_of_a_pasid()
    ensures run { is_run_here abort_of_a_pasid ≡ true }
    ensures next_name { next_name_after abort_of_a_pasid ≡ Some 4 }
    ensures fates { fates_after abort_of_a_pasid
        ≡ Some (row 0 None (Aborted 12) ∷ row 2 None (Aborted 12) ∷ []) }
    ensures content { content_after abort_of_a_pasid
        ≡ Some (with_list 2 (held_entry 1 1 None (record no_op { pasid = 6 }) 0 true
        ∷ held_entry 3 3 None (record no_op { pasid = 6 }) 0 true ∷ []) no_entries) }
    ensures account { account_after abort_of_a_pasid
        ≡ Some (record nothing_counted { accepted = 4; lost = 2; held = 2; steps = 14 }) }
    ensures not_all { wrong_after 4 abort_of_a_pasid (issued (AbortPasid 5) (Ended 4)) ≡ true }
    ensures in_order { wrong_after 5 abort_of_a_pasid (step_of_a_take 0 3 3) ≡ true }
{}

/// An abort of a PASID takes a batch with all its members.
pub fn abort_takes_members()
    ensures run { is_run_here abort_takes_members ≡ true }
    ensures fates { fates_after abort_takes_members
        ≡ Some (row 0 None (Aborted 12) ∷ row 2 (Some 0) (Aborted 12) ∷ row 3 (Some 0) (Aborted 12)
        ∷ completed 1 0x01 ∷ []) }
    ensures content { content_after abort_takes_members ≡ Some no_entries }
    ensures no_member_is_left { wrong_after 7 abort_takes_members (issued (AbortPasid 5) (Ended 1))
        ≡ true }
    ensures no_member_ends_later { wrong_after 8 abort_takes_members (ended 0 2 2 0x01) ≡ true }
{}

/// With a batch that is aborted its engine's note goes, and the engine takes another.
pub fn batch_after_an_abort()
    ensures run { is_run_here batch_after_an_abort ≡ true }
    ensures not_idle { wrong_after 4 batch_after_an_abort (dispatched 0 Idle) ≡ true }
{}

/// The ticket of an entry that was aborted does not end the entry that stands in its cell now.
pub fn old_ticket_is_gone()
    ensures run { is_run_here old_ticket_is_gone ≡ true }
    ensures fates { fates_after old_ticket_is_gone
        ≡ Some (row 0 None (Aborted 4) ∷ completed 1 0x01 ∷ []) }
    ensures its_own_ticket_ends_it { map (wrong_after 5 old_ticket_is_gone)
        (ended 0 0 0 0x01 ∷ finished 0 (ticket 0 1) Gone ∷ [])
        ≡ true ∷ true ∷ [] }
{}

/// An abort of two queues, and a reset of the device, which is off then.
pub fn abort_and_reset()
    ensures run { is_run_here abort_and_reset ≡ true }
    ensures fates { fates_after abort_and_reset
        ≡ Some (row 0 None (Aborted 9) ∷ row 1 None (Aborted 9) ∷ row 2 None (Aborted 5) ∷ []) }
{}

/// A reset takes all but the names that were given.
pub fn names_go_on_after_a_reset()
    ensures run { is_run_here names_go_on_after_a_reset ≡ true }
    ensures next_name { next_name_after names_go_on_after_a_reset ≡ Some 4 }
    ensures names_do_not_begin_again { wrong_after 14 names_go_on_after_a_reset
        (to_shared no_op 0 0) ≡ true }
{}

/// A reset of a queue takes its entries and all its configuration but the size, so it has no
/// priority then.
pub fn reset_of_a_queue()
    ensures run { is_run_here reset_of_a_queue ≡ true }
    ensures fates { fates_after reset_of_a_queue ≡ Some (row 0 None (Aborted 10) ∷ []) }
    ensures size_is_kept { wrong_after 2 reset_of_a_queue (step_of_a_refusal SizeZero (EnableWq 0))
        ≡ true }
{}

/// Disable Device waits until nothing is held. Enabled again, the device has its queues off.
pub fn disable_and_enable_again()
    ensures run { is_run_here disable_and_enable_again ≡ true }
    ensures fates { fates_after disable_and_enable_again ≡ Some (completed 0 0x01 ∷ []) }
    ensures not_at_once { wrong_after 1 disable_and_enable_again (obeyed DisableDevice) ≡ true }
    ensures nothing_comes_in_meanwhile { wrong_after 2 disable_and_enable_again
        (to_shared no_op 1 1) ≡ true }
    ensures queues_are_off_then { wrong_after 7 disable_and_enable_again (to_shared no_op 0 1)
        ≡ true }
{}

/// Each reason why Enable Device is refused, with one change to a configuration that it would take.
pub fn refused_devices()
    ensures reserved { refuses_device dedicated_queue first_group
        (record second_group { reserved = 13 }) ReservedTooMany ≡ true }
    ensures two_groups { refuses_device dedicated_queue first_group
        (record second_group { engines = 3 }) TwoGroups ≡ true }
    ensures no_queue { refuses_device dedicated_queue first_group
        (record second_group { queues = 0 }) GroupWithoutQueue ≡ true }
    ensures no_engine { refuses_device dedicated_queue first_group
        (record second_group { engines = 0 }) GroupWithoutEngine ≡ true }
    ensures sizes { refuses_device (record dedicated_queue { size = 5 }) first_group second_group
        SizesTooLarge ≡ true }
    ensures allowed { refuses_device dedicated_queue (record first_group { allowed = 9 })
        second_group AllowedOutOfRange ≡ true }
    ensures no_such_queue { refuses_device dedicated_queue first_group
        (record second_group { queues = 6 }) BadIndex ≡ true }
    ensures the_first_cause { refuses_device (record dedicated_queue { size = 5 }) first_group
        (record second_group { engines = 3 }) TwoGroups ≡ false }
    ensures another_cause { refuses_device dedicated_queue first_group
        (record second_group { reserved = 13 }) AllowedOutOfRange ≡ false }
{}

/// Enable WQ is refused for its queue's configuration, and writes to what is on are locked.
pub fn refused_enables_and_writes()
    ensures run { is_run_here refused_enables_and_writes ≡ true }
{}

/// Priorities are 1 to 15.
pub fn priorities()
    ensures run { is_run_here priorities ≡ true }
    ensures sixteen_is_not_accepted { wrong_after 2 priorities (obeyed (EnableWq 0)) ≡ true }
{}

/// Masks without a bit, and queues and groups that the device does not have.
pub fn queues_that_are_not_there()
    ensures run { is_run_here queues_that_are_not_there ≡ true }
    ensures no_bit_is_no_success { may_not_follow []
        (obeyed (DisableWq (record { group = 0; mask = 0 }))) ≡ true }
{}
