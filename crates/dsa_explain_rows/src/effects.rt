//! What a step that may come does: a state for each effect and the one after it, and states in
//! which it may not come.

ghost use Rattle.std.specs.Prelude.{[], ◌∷◌, None, Some, false, true};
ghost use Rattle.dsa_regs.specs.Worked.{caps, dedicated_queue, first_group, second_group, shared_queue};
ghost use Rattle.dsa_regs.specs.declared.Command.TheVariants.{AbortAll, DisableDevice, DrainAll};
ghost use Rattle.dsa_regs.specs.declared.Deed.TheVariants.{Drain, Enable};
ghost use Rattle.dsa_regs.specs.declared.Phase.TheVariants.{Off, On, Stopping};
ghost use Rattle.dsa_regs.specs.declared.Scope.TheVariants.{Device, Queue, Queues};
ghost use Rattle.dsa_book.specs.Commands.{after_abort, reset, work_with_setup};
ghost use Rattle.dsa_book.specs.State.{State};
ghost use Rattle.dsa_book.specs.Work.{after_abandon, after_end, after_fetch, after_start, after_take};
ghost use Rattle.dsa_book.specs.declared.answer.Cause.TheVariants.{WrongKind};
ghost use Rattle.dsa_book.specs.declared.event.Kind.TheVariants.{Enqcmd, Movdir64b};
ghost use Rattle.dsa_desc.specs.declared.Outcome.TheVariants.{PageFault};
ghost use Rattle.dsa_engines.specs.Batch.{MayStart, MayTell, block_of_group};
ghost use Rattle.dsa_laws.specs.Change.{IsAbandoned, IsAborted, IsAccepted, IsBegun, IsCleared, IsDeviceEnabled, IsEnded, IsFetched, IsGranted, IsGroupWritten, IsNoted, IsOver, IsQueueEnabled, IsQueueWritten, IsReset, IsStarted, IsTaken, IsWaiting};
ghost use Rattle.dsa_worked.specs.Changes.{none_held};
ghost use Rattle.dsa_worked.specs.Setup.{masked, no_op};
ghost use Rattle.dsa_explain_rows.specs.Effects.{another_device, batch_of_four, engines_with, in_second_queue, note_failed, note_open, notes_of, on_first_engine, one_group_in, on_the_second, seven_moves, seven_waits, seven_with_fence, six_runs, state_on, state_over, two_cells_in_use, with_members, on_batch, without_queues, without_groups, ChangesWork, after_no_op_in, waiting_for};
ghost use Rattle.dsa_explain_rows.specs.Tables.{two_groups};

/// Entries come in, are taken, fetched, started, abandoned and ended.
pub fn of_entries()
    ensures accepted_by_movdir { IsAccepted (state_on in_second_queue [])
        (after_no_op_in 1 Movdir64b (state_on in_second_queue [])) }
    ensures accepted_by_enqcmd { IsAccepted (state_on in_second_queue [])
        (after_no_op_in 0 (Enqcmd 5) (state_on in_second_queue [])) }
    ensures taken { IsTaken (state_on in_second_queue []) (state_on on_first_engine []) }
    ensures fetched { ChangesWork IsFetched
        (λ w. (after_fetch w 1 no_op (record { 0 = 3 }) note_open batch_of_four.1).1)
        (on_batch [] note_open) }
    ensures started_with_a_fence { ChangesWork IsStarted (λ w. after_start w 1)
        (on_batch (seven_with_fence ∷ []) note_open) }
    ensures started_beside_another { ChangesWork IsStarted (λ w. after_start w 1)
        (on_batch (six_runs ∷ seven_waits ∷ []) note_failed) }
    ensures started_with_two_buffers { ChangesWork IsStarted (λ w. after_start w 1)
        (on_batch (seven_moves ∷ []) note_open) }
    ensures abandoned { ChangesWork IsAbandoned (λ w. after_abandon w 1)
        (on_batch (seven_with_fence ∷ []) note_failed) }
    ensures ended { ChangesWork IsEnded (λ w. after_end w 1 six_runs PageFault)
        (on_batch (six_runs ∷ []) note_open) }
{}

/// Where nothing is held no entry is taken, fetched, started, abandoned or ended, and where no
/// queue is On none comes in.
pub fn of_no_entries()
    ensures not_accepted { (s' : State) → ¬ IsAccepted (state_over (one_group_in On []) [] []) s' }
    ensures not_taken { (s' : State) → ¬ IsTaken (state_on [] []) s' }
    ensures not_fetched { (s' : State) → ¬ IsFetched (state_on [] []) s' }
    ensures not_started { (s' : State) → ¬ IsStarted (state_on [] []) s' }
    ensures not_abandoned { (s' : State) → ¬ IsAbandoned (state_on [] []) s' }
    ensures not_ended { (s' : State) → ¬ IsEnded (state_on [] []) s' }
{}

/// Queue 1 is configured while it is Off, with another size while the device is Off too; group 1
/// is configured while the device is Off.
pub fn of_configurations()
    ensures size { IsQueueWritten (state_over (one_group_in Off (Off ∷ Off ∷ [])) [] [])
        (state_over (record (one_group_in Off (Off ∷ Off ∷ [])) {
          configs = shared_queue ∷ record dedicated_queue { size = 3 } ∷ [];
        }) [] []) }
    ensures same_size { IsQueueWritten (state_over (one_group_in On (On ∷ Off ∷ [])) [] [])
        (state_over (record (one_group_in On (On ∷ Off ∷ [])) {
          configs = shared_queue ∷ record dedicated_queue { priority = 3 } ∷ [];
        }) [] []) }
    ensures group { IsGroupWritten (state_over (one_group_in Off []) [] [])
        (state_over (record (one_group_in Off []) {
          groups = record first_group { queues = 3; engines = 3 } ∷ second_group ∷ [];
        }) [] []) }
    ensures noted { IsNoted (state_on [] [])
        (state_over (record (one_group_in On (On ∷ On ∷ [])) {
          noted = Some (record { queue = 0; cause = WrongKind; overflow = false });
        }) [] []) }
    ensures cleared { IsCleared
        (state_over (record (one_group_in On (On ∷ On ∷ [])) {
          noted = Some (record { queue = 0; cause = WrongKind; overflow = true });
        }) [] [])
        (state_on [] []) }
    ensures no_queues { (s' : State)
        → ¬ IsQueueWritten (state_over (record (one_group_in Off []) {
          caps = record caps { queues = 0 };
        }) [] []) s' }
    ensures no_groups { (s' : State)
        → ¬ IsGroupWritten (state_over (record (one_group_in Off []) {
          caps = record caps { groups = 0 };
        }) [] []) s' }
{}

/// Queue 1 is enabled; disables and drains wait for entry 4 or are over; an abort and a reset
/// lose it.
pub fn of_commands()
    ensures enabled { IsQueueEnabled (state_over (one_group_in On (Off ∷ Off ∷ [])) [] [])
        (state_over (one_group_in On (Off ∷ On ∷ [])) [] []) }
    ensures disable_waits { IsWaiting (state_on in_second_queue [])
        (waiting_for DisableDevice
        (state_over (one_group_in Stopping (Stopping ∷ Stopping ∷ [])) in_second_queue [])) }
    ensures drain_waits { IsWaiting (state_on in_second_queue [])
        (waiting_for DrainAll (state_on in_second_queue [])) }
    ensures disable_is_over { IsOver (state_on none_held [])
        (state_over (one_group_in Off (Off ∷ Off ∷ [])) none_held []) }
    ensures aborted { ChangesWork IsAborted (λ w. after_abort 4 Device w)
        (state_on in_second_queue []) }
    ensures reset { ChangesWork IsReset
        (λ w. work_with_setup (after_abort 5 Device w)
        (reset Device (one_group_in On (On ∷ On ∷ [])))) (state_on in_second_queue []) }
    ensures reset_while_off { ChangesWork IsReset
        (λ w. work_with_setup (after_abort 5 Device w) (reset Device (one_group_in Off [])))
        (state_over (one_group_in Off []) none_held []) }
{}

/// A command is refused while another is active, for a queue that is not there, in another phase,
/// and for a fault; what begins is a disable or a drain with the next name as its mark.
pub fn of_refused_commands()
    ensures granted { IsGranted (state_on [] []) Drain Device }
    ensures another_active { ¬ IsGranted (waiting_for DrainAll (state_on [] [])) Drain Device }
    ensures no_such_queue { ¬ IsGranted (state_on [] []) Drain (Queue 2) }
    ensures no_queue_named { ¬ IsGranted (state_on [] []) Drain (Queues (masked 0)) }
    ensures is_off { ¬ IsGranted (state_over (one_group_in Off []) [] []) Drain Device }
    ensures has_a_fault { ¬ IsGranted
        (state_over (record (one_group_in Off []) { groups = first_group ∷ first_group ∷ [] })
        [] [])
        Enable Device }
    ensures begun { IsBegun (state_on [] []) (record { command = DrainAll; mark = 9 }) }
    ensures disables { IsBegun (state_on [] []) (record { command = DisableDevice; mark = 9 }) }
    ensures aborts { ¬ IsBegun (state_on [] []) (record { command = AbortAll; mark = 9 }) }
    ensures refused { ¬ IsBegun (state_over (one_group_in Off []) [] [])
        (record { command = DrainAll; mark = 9 }) }
    ensures earlier_mark { ¬ IsBegun (state_on [] []) (record { command = DrainAll; mark = 8 }) }
{}

/// No effect makes another device of it.
pub fn of_another_device()
    ensures accepted { ¬ IsAccepted (state_on in_second_queue []) another_device }
    ensures taken { ¬ IsTaken (state_on in_second_queue []) another_device }
    ensures fetched { ¬ IsFetched (on_batch [] note_open) another_device }
    ensures started { ¬ IsStarted (on_batch (seven_with_fence ∷ []) note_open) another_device }
    ensures abandoned { ¬ IsAbandoned (on_batch (seven_with_fence ∷ []) note_failed)
        another_device }
    ensures ended { ¬ IsEnded (on_batch (six_runs ∷ []) note_open) another_device }
    ensures queue_written { ¬ IsQueueWritten (state_over (one_group_in On (On ∷ Off ∷ [])) [] [])
        another_device }
    ensures group_written { ¬ IsGroupWritten (state_over (one_group_in Off []) [] [])
        another_device }
    ensures noted { ¬ IsNoted (state_on [] []) another_device }
    ensures cleared { ¬ IsCleared
        (state_over (record (one_group_in On []) {
          noted = Some (record { queue = 0; cause = WrongKind; overflow = true });
        }) [] [])
        another_device }
    ensures queue_enabled { ¬ IsQueueEnabled
        (state_over (one_group_in On (Off ∷ Off ∷ [])) [] []) another_device }
    ensures device_enabled { ¬ IsDeviceEnabled (state_over (one_group_in Off []) [] [])
        another_device }
    ensures waiting { ¬ IsWaiting (state_on in_second_queue []) another_device }
    ensures over { ¬ IsOver (state_on none_held []) (waiting_for DrainAll another_device) }
    ensures aborted { ¬ IsAborted (state_on in_second_queue []) another_device }
    ensures reset { ¬ IsReset (state_on in_second_queue []) (waiting_for DrainAll another_device) }
{}

/// What lacks one of the things that it needs.
pub fn of_what_is_missing()
    ensures empty_queue { ¬ IsTaken (state_on [] []) (state_on on_first_engine []) }
    ensures not_served { ¬ IsTaken
        (state_over (record (one_group_in On []) { groups = [] }) in_second_queue [])
        (state_over (record (one_group_in On []) { groups = [] }) on_first_engine []) }
    ensures queue_is_off { ¬ IsAccepted (state_over (one_group_in On []) none_held [])
        (after_no_op_in 1 Movdir64b (state_over (one_group_in On []) none_held [])) }
    ensures no_group { ¬ IsGroupWritten (without_groups (first_group ∷ []))
        (without_groups (second_group ∷ [])) }
    ensures device_is_on { ¬ IsGroupWritten
        (state_over (record (one_group_in On []) { groups = first_group ∷ [] }) [] [])
        (state_over (record (one_group_in On []) { groups = second_group ∷ [] }) [] []) }
    ensures no_queue { ¬ IsQueueWritten (without_queues (shared_queue ∷ []))
        (without_queues (dedicated_queue ∷ [])) }
    ensures nothing_held { ¬ IsWaiting (state_on none_held [])
        (waiting_for DrainAll (state_on none_held [])) }
    ensures device_is_off { ¬ IsQueueEnabled (state_over (one_group_in Off (Off ∷ Off ∷ [])) [] [])
        (state_over (one_group_in Off (Off ∷ On ∷ [])) [] []) }
    ensures first_queue { IsQueueEnabled (state_over (one_group_in On (Off ∷ Off ∷ [])) [] [])
        (state_over (one_group_in On (On ∷ Off ∷ [])) [] []) }
{}

/// One thing alone keeps an entry from coming in: its queue is at its limit or of the other kind,
/// or each cell is in use; from being taken: another is at the front; from being fetched: there is
/// no note, no batch, no member left, or no free cell.
pub fn of_entries_that_lack_one_thing()
    ensures at_the_limit { (s' : State)
        → ¬ IsAccepted (state_over (record (one_group_in On (Off ∷ On ∷ [])) {
          configs = shared_queue ∷ record dedicated_queue { size = 1 } ∷ [];
        }) in_second_queue []) s' }
    ensures other_kind { ¬ IsAccepted on_the_second (after_no_op_in 1 (Enqcmd 5) on_the_second) }
    ensures no_cells { (s' : State)
        → ¬ IsAccepted (state_over (record (one_group_in On (On ∷ On ∷ [])) {
          caps = record caps { total_size = 0; engines = 0 };
        }) none_held []) s' }
    ensures another_front { ¬ ChangesWork IsTaken (λ w. after_take w 0 1 seven_waits)
        (state_on in_second_queue []) }
    ensures no_note { (s' : State)
        → ¬ IsFetched (state_on (with_members []) (None ∷ None ∷ [])) s' }
    ensures no_batch { (s' : State) → ¬ IsFetched (state_on [] (notes_of note_open)) s' }
    ensures all_fetched { (s' : State)
        → ¬ IsFetched (on_batch [] (record note_open { fetched = 4 })) s' }
    ensures no_free_cell { (s' : State) → ¬ IsFetched two_cells_in_use s' }
{}

/// One thing alone keeps a member from being started: a fence waits, one failed, or read buffers
/// are wanting; from being abandoned: a fence waits, none failed, there is no fence, or none
/// waits; and a batch from its end: a member is left.
pub fn of_members_that_lack_one_thing()
    ensures fence_waits { (s' : State)
        → ¬ IsStarted (on_batch (six_runs ∷ seven_with_fence ∷ []) note_open) s' }
    ensures one_failed { (s' : State)
        → ¬ IsStarted (on_batch (seven_with_fence ∷ []) note_failed) s' }
    ensures no_buffers { (s' : State)
        → ¬ IsStarted (state_over (record (one_group_in On (On ∷ On ∷ [])) {
          groups = record first_group { queues = 3; engines = 3; allowed = 1 } ∷ [];
        }) (with_members (seven_moves ∷ [])) (notes_of note_open)) s' }
    ensures fence_is_not_abandoned { (s' : State)
        → ¬ IsAbandoned (on_batch (six_runs ∷ seven_with_fence ∷ []) note_failed) s' }
    ensures none_failed { (s' : State)
        → ¬ IsAbandoned (on_batch (seven_with_fence ∷ []) note_open) s' }
    ensures no_fence { (s' : State) → ¬ IsAbandoned (on_batch (seven_waits ∷ []) note_failed) s' }
    ensures none_waits { (s' : State) → ¬ IsAbandoned (on_batch (six_runs ∷ []) note_failed) s' }
    ensures member_left { (s' : State) → ¬ IsEnded (on_batch (seven_waits ∷ []) note_open) s' }
{}

/// Queues that are On are not enabled again, and not configured, nor is another size given while
/// the device is On; no command is over where none is active and none may begin; an abort needs the
/// device On, and loses nothing by the number of a drain, nor a reset by that of an abort; nothing
/// is noted that was not refused.
pub fn of_commands_that_lack_one_thing()
    ensures queues_are_on { (s' : State) → ¬ IsQueueEnabled (state_on [] []) s' }
    ensures none_begins { (s' : State) → ¬ IsOver (state_over (one_group_in Off []) [] []) s' }
    ensures none_aborts { (s' : State)
        → ¬ IsAborted (state_over (one_group_in Off []) [] []) s' }
    ensures no_abort { ¬ ChangesWork IsAborted (λ w. after_abort 3 Device w)
        (state_on in_second_queue []) }
    ensures no_reset { ¬ ChangesWork IsReset
        (λ w. work_with_setup (after_abort 4 Device w)
        (reset Device (one_group_in On (On ∷ On ∷ [])))) (state_on in_second_queue []) }
    ensures locked { (s' : State) → ¬ IsQueueWritten (state_on [] []) s' }
    ensures smaller { ¬ IsQueueWritten (state_over (one_group_in On (On ∷ Off ∷ [])) [] [])
        (state_over (record (one_group_in On (On ∷ Off ∷ [])) {
          configs = shared_queue ∷ record dedicated_queue { size = 1 } ∷ [];
        }) [] []) }
    ensures larger { ¬ IsQueueWritten (state_over (one_group_in On (On ∷ Off ∷ [])) [] [])
        (state_over (record (one_group_in On (On ∷ Off ∷ [])) {
          configs = shared_queue ∷ record dedicated_queue { size = 3 } ∷ [];
        }) [] []) }
    ensures not_refused { ¬ IsNoted (state_on [] [])
        (state_over (record (one_group_in On (On ∷ On ∷ [])) {
          noted = Some (record { queue = 1; cause = WrongKind; overflow = false });
        }) [] []) }
{}

/// Engine 1 of group 0 may start member 7 of its batch.
pub fn of_starts()
    ensures with_a_fence { MayStart (one_group_in On []) (engines_with note_open)
        (with_members (seven_with_fence ∷ [])) 1 seven_with_fence 0 }
    ensures beside_another { MayStart (one_group_in On []) (engines_with note_failed)
        (with_members (six_runs ∷ seven_waits ∷ [])) 1 seven_waits 0 }
    ensures none_waits { ¬ MayStart (one_group_in On []) (engines_with note_open)
        (with_members []) 1 seven_waits 0 }
    ensures fence_waits { ¬ MayStart (one_group_in On []) (engines_with note_open)
        (with_members (six_runs ∷ seven_with_fence ∷ [])) 1 seven_with_fence 0 }
    ensures one_failed { ¬ MayStart (one_group_in On []) (engines_with note_failed)
        (with_members (seven_with_fence ∷ [])) 1 seven_with_fence 0 }
    ensures no_home { ¬ MayStart (one_group_in On [])
        (record (engines_with note_open) { homes = [] })
        (with_members (seven_waits ∷ [])) 1 seven_waits 0 }
    ensures another_home { ¬ MayStart (one_group_in On []) (engines_with note_open)
        (with_members (seven_waits ∷ [])) 1 seven_waits 1 }
    ensures no_engine { ¬ MayStart
        (record (one_group_in On []) { caps = record caps { engines = 1 } })
        (engines_with note_open) ([] ∷ [] ∷ [] ∷ [] ∷ (seven_waits ∷ []) ∷ []) 1 seven_waits 0 }
    ensures no_group { ¬ MayStart (one_group_in On [])
        (record (engines_with note_open) { homes = None ∷ Some 2 ∷ [] })
        (with_members (seven_waits ∷ [])) 1 seven_waits 2 }
    ensures no_room { ¬ MayStart (one_group_in On [])
        (record (engines_with note_open) { buffers = record two_groups { used = 7 ∷ 0 ∷ [] } })
        (with_members (seven_moves ∷ [])) 1 seven_moves 0 }
    ensures told_of_the_group { MayTell two_groups (block_of_group 4 (Some 1)) }
    ensures told_of_no_group { MayTell two_groups (block_of_group 4 None) }
    ensures beyond_the_groups { ¬ MayTell two_groups (block_of_group 4 (Some 2)) }
{}
