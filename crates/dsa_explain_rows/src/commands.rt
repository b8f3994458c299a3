//! Why a command is refused, what it waits for or removes, and why the active one is not over.

ghost use Rattle.std.specs.Prelude.{◌≡◌, [], ◌∷◌, Some, None, true, false, map, take};
ghost use Rattle.dsa_regs.specs.Worked.{dedicated_queue, first_group, second_group, shared_queue};
ghost use Rattle.dsa_regs.specs.declared.Command.TheVariants.{AbortAll, AbortPasid, AbortWq, DisableDevice, DisableWq, DrainAll, DrainPasid, DrainWq, EnableDevice, EnableWq, ResetDevice, ResetWq};
ghost use Rattle.dsa_regs.specs.declared.Deed.TheVariants as deed;
ghost use Rattle.dsa_regs.specs.declared.Fault.TheVariants as fault;
ghost use Rattle.dsa_regs.specs.declared.Phase.TheVariants.{Off, On};
ghost use Rattle.dsa_regs.specs.declared.layout.ListUse.TheVariants.{Members, Progress, Queue};
ghost use Rattle.dsa_book.specs.declared.answer.IssueAnswer.TheVariants.{Active, Ended, Refused};
ghost use Rattle.dsa_book.specs.declared.answer.PollAnswer.TheVariants as polled;
ghost use Rattle.dsa_book.specs.declared.fate.Fate.TheVariants.{Aborted};
ghost use Rattle.dsa_worked.specs.Setup.{configured, masked, no_op, row, held_entry};
ghost use Rattle.dsa_worked.specs.Commands.{abort_of_a_pasid, drain_of_a_batch, drain_of_a_pasid, drain_of_a_queue, old_ticket_is_gone, refused_enables_and_writes};
ghost use Rattle.dsa_worked.specs.Members.{abort_of_all_lists};
ghost use Rattle.dsa_worked.specs.Phases.{commands_of_a_queue_that_is_off, commands_while_off};
ghost use Rattle.dsa_admin.specs.declared.reasons.IssueReason.TheVariants.{Busy, Check, NoQueue, WrongPhase};
ghost use Rattle.dsa_admin.specs.declared.reasons.PollReason.TheVariants.{Nothing, Waits};
ghost use Rattle.dsa_regs.specs.declared.reasons.CheckReason.TheVariants as check;
ghost use Rattle.dsa_regs.specs.declared.reasons.Named.TheVariants as named;
ghost use Rattle.dsa_admin.specs.Worked.{by_name, disable_of_queue, drain_of_pasid, drain_of_queue};
ghost use Rattle.dsa_admin.specs.Command.{fault_of_command, issue_by, issue_reason, poll_answer_by, poll_reason};
ghost use Rattle.dsa_explain.specs.Wait.{is_late, is_waiting};
ghost use Rattle.dsa_explain.specs.Held.{abort_row, aborted_entries, awaited_lists, is_named_by, losses};
ghost use Rattle.dsa_explain.specs.declared.held.Named.TheVariants.{Awaited, Removed};
ghost use Rattle.dsa_explain_rows.specs.After.{told_after, told_from_first};
ghost use Rattle.dsa_explain_rows.specs.Waits.{active_after, held_as, wait_after, awaited_after, lost_after};

/// Another command is active: which, and for how many entries it waits; whatever else stands
/// against the new one.
pub fn busy()
    ensures one { told_after (λ s. issue_reason s DrainAll) (take 2 drain_of_a_queue)
        ≡ Some (Some (Busy (DrainWq (masked 1)) 1)) }
    ensures one_behind_it { told_after (λ s. issue_reason s DrainAll) (take 4 drain_of_a_queue)
        ≡ Some (Some (Busy (DrainWq (masked 1)) 1)) }
    ensures two { told_after (λ s. issue_reason s AbortAll) (take 6 drain_of_a_batch)
        ≡ Some (Some (Busy (DrainWq (masked 1)) 2)) }
    ensures at_its_end { told_after (λ s. issue_reason s DrainAll) (take 7 drain_of_a_queue)
        ≡ Some (Some (Busy (DrainWq (masked 1)) 0)) }
    ensures over { told_after (λ s. issue_reason s DrainAll) (take 8 drain_of_a_queue) ≡ Some None }
    ensures before_the_queue { told_after (λ s. issue_reason s (EnableWq 2))
        (take 2 drain_of_a_queue)
        ≡ Some (Some (Busy (DrainWq (masked 1)) 1)) }
    ensures before_the_phase { told_after (λ s. issue_reason s EnableDevice)
        (take 2 drain_of_a_queue)
        ≡ Some (Some (Busy (DrainWq (masked 1)) 1)) }
{}

/// The first queue that is named and not there, or that none is named; before the phases.
pub fn missing_queues()
    ensures one { told_after (λ s. issue_reason s (EnableWq 2)) []
        ≡ Some (Some (NoQueue (Some 2))) }
    ensures beside_one_that_is_there { told_after (λ s. issue_reason s (DrainWq (masked 5))) []
        ≡ Some (Some (NoQueue (Some 2))) }
    ensures first_of_two { told_after (λ s. issue_reason s (ResetWq (masked 12))) []
        ≡ Some (Some (NoQueue (Some 2))) }
    ensures of_another_sixteen { told_after
        (λ s. issue_reason s (AbortWq (record { group = 1; mask = 1 }))) []
        ≡ Some (Some (NoQueue (Some 16))) }
    ensures none { told_after (λ s. issue_reason s (DisableWq (masked 0))) []
        ≡ Some (Some (NoQueue None)) }
    ensures before_the_phase { told_from_first (λ s. issue_reason s (EnableWq 2)) []
        ≡ Some (Some (NoQueue (Some 2))) }
    ensures none_while_off { told_from_first (λ s. issue_reason s (DrainWq (masked 0))) []
        ≡ Some (Some (NoQueue None)) }
{}

/// The device, or the first queue that is named, does not stand as the command needs.
pub fn phases()
    ensures device_off { told_from_first (λ s. issue_reason s DrainAll) []
        ≡ Some (Some (WrongPhase None Off)) }
    ensures device_on { told_after (λ s. issue_reason s EnableDevice) []
        ≡ Some (Some (WrongPhase None On)) }
    ensures device_of_a_queue { told_from_first (λ s. issue_reason s (DrainWq (masked 1))) []
        ≡ Some (Some (WrongPhase None Off)) }
    ensures device_of_a_pasid { told_from_first (λ s. issue_reason s (AbortPasid 5)) []
        ≡ Some (Some (WrongPhase None Off)) }
    ensures queue_on { told_after (λ s. issue_reason s (EnableWq 1)) []
        ≡ Some (Some (WrongPhase (Some 1) On)) }
    ensures queue_off { told_after (λ s. issue_reason s (DrainWq (masked 2)))
        (take 2 commands_of_a_queue_that_is_off)
        ≡ Some (Some (WrongPhase (Some 1) Off)) }
    ensures beside_one_that_is_on { told_after (λ s. issue_reason s (DisableWq (masked 3)))
        (take 2 commands_of_a_queue_that_is_off)
        ≡ Some (Some (WrongPhase (Some 1) Off)) }
    ensures reset { told_after (λ s. issue_reason s (ResetWq (masked 3)))
        (take 2 commands_of_a_queue_that_is_off)
        ≡ Some None }
    ensures reset_of_the_device { told_from_first (λ s. issue_reason s ResetDevice) [] ≡ Some None }
{}

/// What the configuration has against an enable, behind all else; and none.
pub fn checks()
    ensures threshold { told_after (λ s. issue_reason s (EnableWq 0))
        (take 2 refused_enables_and_writes)
        ≡ Some (Some (Check (check.ThresholdZero 0))) }
    ensures size { told_from_first (λ s. issue_reason s (EnableWq 0)) (take 14 commands_while_off)
        ≡ Some (Some (Check (check.SizeZero 0))) }
    ensures device { told_from_first (λ s. issue_reason s EnableDevice)
        (configured shared_queue dedicated_queue first_group
        (record second_group { engines = 3 }))
        ≡ Some (Some (Check (check.TwoGroups (named.Engine 0) 0 1))) }
    ensures phase_before { told_from_first (λ s. issue_reason s (EnableWq 0)) []
        ≡ Some (Some (WrongPhase None Off)) }
    ensures none_of_the_device { told_from_first (λ s. issue_reason s EnableDevice)
        (configured shared_queue dedicated_queue first_group second_group)
        ≡ Some None }
    ensures none_of_a_queue { told_after (λ s. issue_reason s (EnableWq 0))
        (take 6 refused_enables_and_writes)
        ≡ Some None }
    ensures no_enable { told_after (λ s. issue_reason s (DrainPasid 5)) [] ≡ Some None }
    ensures faults { map fault_of_command
        (Busy DrainAll 1 ∷ NoQueue None ∷ WrongPhase None Off ∷ Check (check.NoGroup 2) ∷ [])
        ≡ fault.Busy ∷ fault.BadQueue ∷ fault.WrongState ∷ fault.NoGroup ∷ [] }
{}

/// By a reason a command is refused for its fault, and without one it is carried out.
pub fn commands_by_reasons()
    ensures refused { told_after (λ s. (issue_by s DrainAll (Some (Busy AbortAll 1))).0) []
        ≡ Some (Refused fault.Busy) }
    ensures active { told_after (λ s. (issue_by s DrainAll None).0) (take 1 drain_of_a_queue)
        ≡ Some Active }
    ensures ended { told_after (λ s. (issue_by s AbortAll None).0) (take 1 drain_of_a_queue)
        ≡ Some (Ended 1) }
{}

/// Why a poll does not find the active command over.
pub fn polls()
    ensures nothing { told_after poll_reason [] ≡ Some (Some Nothing) }
    ensures waits { told_after poll_reason (take 4 drain_of_a_queue) ≡ Some (Some (Waits 1)) }
    ensures waits_for_two { told_after poll_reason (take 6 drain_of_a_batch)
        ≡ Some (Some (Waits 2)) }
    ensures at_its_end { told_after poll_reason (take 7 drain_of_a_queue) ≡ Some None }
    ensures over { told_after poll_reason (take 8 drain_of_a_queue) ≡ Some (Some Nothing) }
    ensures answers { map poll_answer_by (None ∷ Some Nothing ∷ Some (Waits 1) ∷ [])
        ≡ polled.Finished ∷ polled.Nothing ∷ polled.Active ∷ [] }
{}

/// The first entry that the active command waits for.
pub fn awaited_entries()
    ensures in_a_queue { awaited_after (take 2 drain_of_a_queue) ≡ Some (Some (0, Queue 0)) }
    ensures in_progress { awaited_after (take 6 drain_of_a_queue) ≡ Some (Some (0, Progress 0)) }
    ensures of_a_pasid { awaited_after (take 4 drain_of_a_pasid) ≡ Some (Some (0, Queue 0)) }
    ensures batch { awaited_after (take 7 drain_of_a_batch) ≡ Some (Some (1, Progress 0)) }
    ensures at_its_end { awaited_after (take 7 drain_of_a_queue) ≡ Some None }
    ensures none { awaited_after (take 1 drain_of_a_queue) ≡ Some None }
{}

/// The entries that an abort ends, list by list: queues first, then what is in progress, then
/// members.
pub fn aborts()
    ensures all { lost_after AbortAll (take 8 abort_of_all_lists)
        ≡ Some ((5, Queue 0) ∷ (4, Queue 1) ∷ (0, Progress 0) ∷ (2, Progress 1) ∷ (1, Members 0)
        ∷ (3, Members 1) ∷ []) }
    ensures of_a_queue { lost_after (AbortWq (masked 2)) (take 8 abort_of_all_lists)
        ≡ Some ((4, Queue 1) ∷ (2, Progress 1) ∷ (3, Members 1) ∷ []) }
    ensures of_a_pasid { lost_after (AbortPasid 5) (take 8 abort_of_all_lists)
        ≡ Some ((5, Queue 0) ∷ (0, Progress 0) ∷ (1, Members 0) ∷ []) }
    ensures of_another_pasid { lost_after (AbortPasid 6) (take 8 abort_of_all_lists) ≡ Some [] }
    ensures entry { told_after (λ s. aborted_entries s AbortAll) (take 4 old_ticket_is_gone)
        ≡ Some (held_as (Queue 0) (held_entry 0 1 None (record no_op { pasid = 5 }) 0 false) ∷ []) }
    ensures rows { told_after
        (λ s. map (abort_row (AbortPasid 5)) (aborted_entries s (AbortPasid 5)))
        (take 8 abort_of_all_lists)
        ≡ Some
        (row 5 None (Aborted 12) ∷ row 0 None (Aborted 12) ∷ row 1 (Some 0) (Aborted 12) ∷ []) }
{}

/// What each list loses by an abort or a reset, the front first; a list that loses nothing is left
/// out.
pub fn removals()
    ensures all { told_after (λ s. losses s ResetDevice) (take 8 abort_of_all_lists)
        ≡ Some ((Queue 0, 5 ∷ [])
        ∷ (Queue 1, 4 ∷ [])
        ∷ (Progress 0, 0 ∷ [])
        ∷ (Progress 1, 2 ∷ [])
        ∷ (Members 0, 1 ∷ [])
        ∷ (Members 1, 3 ∷ [])
        ∷ []) }
    ensures of_a_queue { told_after (λ s. losses s (ResetWq (masked 2))) (take 8 abort_of_all_lists)
        ≡ Some ((Queue 1, 4 ∷ []) ∷ (Progress 1, 2 ∷ []) ∷ (Members 1, 3 ∷ []) ∷ []) }
    ensures some_of_a_list { told_after (λ s. losses s (AbortPasid 5)) (take 4 abort_of_a_pasid)
        ≡ Some ((Queue 0, 0 ∷ 2 ∷ []) ∷ []) }
    ensures by_name { told_after (λ s. losses s AbortAll) (take 4 old_ticket_is_gone)
        ≡ Some ((Queue 0, 1 ∷ []) ∷ []) }
    ensures nothing { told_after (λ s. losses s (AbortPasid 7)) (take 4 abort_of_a_pasid)
        ≡ Some [] }
{}

/// What a command waits for in each list: of a drain no members and no later names, of a disable
/// all; and what is named of both.
pub fn awaited()
    ensures drain { told_after (λ s. awaited_lists (record { command = DrainAll; mark = 5 }) s)
        (take 8 abort_of_all_lists)
        ≡ Some ((Queue 1, 4 ∷ []) ∷ (Progress 0, 0 ∷ []) ∷ (Progress 1, 2 ∷ []) ∷ []) }
    ensures disable { told_after
        (λ s. awaited_lists (record { command = DisableWq (masked 1); mark = 0 }) s)
        (take 8 abort_of_all_lists)
        ≡ Some ((Queue 0, 5 ∷ []) ∷ (Progress 0, 0 ∷ []) ∷ (Members 0, 1 ∷ []) ∷ []) }
    ensures nothing { told_after
        (λ s. awaited_lists (record { command = DrainAll; mark = 0 }) s)
        (take 8 abort_of_all_lists)
        ≡ Some [] }
    ensures named { map
        (λ pair. is_named_by (Awaited (record { command = DrainAll; mark = 1 })) pair.1)
        (held_entry 0 0 None no_op 0 true ∷ held_entry 1 1 None no_op 0 true ∷ [])
        ≡ true ∷ false ∷ [] }
    ensures removed { map (λ pair. is_named_by (Removed (AbortWq (masked 1))) pair.1)
        (held_entry 0 0 None no_op 0 true
        ∷ held_entry 1 1 (Some 0) no_op 0 true
        ∷ held_entry 2 2 None no_op 1 true
        ∷ [])
        ≡ true ∷ true ∷ false ∷ [] }
{}

/// A disable and a drain wait, and nothing else does.
pub fn deeds_that_wait()
    ensures { map is_waiting
        (deed.Enable ∷ deed.Disable ∷ deed.Drain ∷ deed.Abort ∷ deed.Reset ∷ [])
        ≡ false ∷ true ∷ true ∷ false ∷ false ∷ [] }
{}

/// A queue is searched no further by queues where the front is not waited for, and by a PASID from
/// the mark on; each other list is searched to its end.
pub fn ends_of_searches()
    ensures queue { map (is_late (drain_of_queue 3) (Queue 0)) by_name
        ≡ false ∷ false ∷ true ∷ true ∷ true ∷ [] }
    ensures disable { map (is_late (disable_of_queue 3) (Queue 0)) by_name
        ≡ false ∷ false ∷ true ∷ false ∷ false ∷ [] }
    ensures pasid { map (is_late (drain_of_pasid 3) (Queue 0)) by_name
        ≡ false ∷ false ∷ false ∷ true ∷ true ∷ [] }
    ensures progress { map (is_late (drain_of_queue 3) (Progress 0)) by_name
        ≡ false ∷ false ∷ false ∷ false ∷ false ∷ [] }
{}

/// What a command waits for: what was submitted before it, and a disable for members too; nothing
/// where it is refused, over at once, or neither a drain nor a disable.
pub fn waits()
    ensures drain { wait_after (take 1 drain_of_a_queue) (DrainWq (masked 1))
        ≡ Some (1, 0, Queue 0) }
    ensures another_queue { wait_after (take 1 drain_of_a_queue) (DrainWq (masked 2)) ≡ None }
    ensures busy { wait_after (take 2 drain_of_a_queue) DrainAll ≡ None }
    ensures pasid { wait_after (take 2 drain_of_a_pasid) (DrainPasid 6) ≡ Some (1, 1, Queue 0) }
    ensures other_pasid { wait_after (take 2 drain_of_a_pasid) (DrainPasid 7) ≡ None }
    ensures no_members { wait_after (take 5 drain_of_a_batch) DrainAll ≡ Some (2, 0, Progress 0) }
    ensures members { wait_after (take 5 drain_of_a_batch) DisableDevice ≡ Some (3, 0, Progress 0) }
    ensures over_at_once { wait_after (take 1 drain_of_a_queue) (DisableWq (masked 2)) ≡ None }
    ensures abort { wait_after (take 5 drain_of_a_batch) AbortAll ≡ None }
    ensures enable { wait_after (take 5 drain_of_a_batch) EnableDevice ≡ None }
{}

/// What came behind a drain does not count in what it waits for.
pub fn waits_of_the_active_command()
    ensures behind { active_after (take 4 drain_of_a_queue) ≡ Some (1, 0, Queue 0) }
    ensures none { active_after (take 1 drain_of_a_queue) ≡ None }
    ensures at_its_end { active_after (take 7 drain_of_a_queue) ≡ None }
{}
