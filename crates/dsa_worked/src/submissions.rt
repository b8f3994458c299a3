//! Submissions: portals, kinds of queues, sizes and flags, tickets, and a history that is full.

ghost use Rattle.std.specs.Prelude.{◌≡◌, ◌++◌, [], ◌∷◌, Some, None, true, false, take, slice_get};
ghost use Rattle.dsa_book.specs.declared.event.Actor.TheVariants.{Client, Engine};
ghost use Rattle.dsa_book.specs.declared.answer.Cause.TheVariants.{AtLimit, NotEnabled, WrongKind};
ghost use Rattle.dsa_book.specs.declared.answer.SubmitAnswer.TheVariants.{Accepted, Retry, Full};
ghost use Rattle.dsa_book.specs.declared.answer.DispatchAnswer.TheVariants.{Taken, Idle};
ghost use Rattle.dsa_book.specs.declared.answer.FinishAnswer.TheVariants.{Gone};
ghost use Rattle.dsa_book.specs.declared.answer.ClearAnswer.TheVariants.{Cleared};
ghost use Rattle.dsa_book.specs.declared.event.Kind.TheVariants.{Enqcmd};
ghost use Rattle.dsa_book.specs.declared.event.Portal.TheVariants.{Limited};
ghost use Rattle.dsa_book.specs.Machine.{is_run};
ghost use Rattle.dsa_book.specs.Totals.{steps_of_actor};
ghost use Rattle.dsa_regs.specs.Worked.{caps};
ghost use Rattle.dsa_worked.specs.Setup.{setup, is_run_here, may_not_follow, fates_after, content_after, next_name_after, account_after, held_entry, no_op, ticket, written, enqcmd, enqcmd_unlimited, dispatched, finished, cleared, ended, step_of_a_take, to_shared, completed, no_entries, with_list, nothing_counted, wrong_after};
ghost use Rattle.dsa_worked.specs.Submissions.{one_move, two_portals, dedicated_queue_overflows, causes_of_retry, first_drop_is_noted, transfer_sizes, operations_and_flags, history_is_full, no_room_at_all, forged_tickets, of_two_clients};

/// A Move from its submission to its status.
pub fn one_move()
    ensures run { is_run_here one_move ≡ true }
    ensures next_name { next_name_after one_move ≡ Some 1 }
    ensures content { content_after one_move ≡ Some no_entries }
    ensures fates { fates_after one_move ≡ Some (completed 0 0x01 ∷ []) }
    ensures account { account_after one_move
        ≡ Some (record nothing_counted { accepted = 1; done = 1; steps = 10 }) }
    ensures not_another_status { wrong_after 2 one_move (ended 0 0 0 0x03) ≡ true }
{}

/// The threshold bounds the limited portal of a shared queue, its size the unlimited one.
pub fn two_portals()
    ensures run { is_run_here two_portals ≡ true }
    ensures next_name { next_name_after two_portals ≡ Some 5 }
    ensures fates { fates_after two_portals ≡ Some [] }
    ensures account { account_after two_portals
        ≡ Some (record nothing_counted { accepted = 5; retried = 3; held = 5; steps = 16 }) }
    ensures threshold_is_for_the_limited_portal { wrong_after 3 two_portals
        (enqcmd_unlimited 5 no_op (Retry AtLimit)) ≡ true }
    ensures taken_entries_are_no_occupancy { wrong_after 8 two_portals
        (enqcmd_unlimited 5 no_op (Retry AtLimit)) ≡ true }
    ensures no_room_at_the_threshold { wrong_after 2 two_portals (to_shared no_op 2 2) ≡ true }
    ensures no_retry_below_the_threshold { wrong_after 1 two_portals (enqcmd no_op (Retry AtLimit))
        ≡ true }
    ensures no_other_cause { wrong_after 2 two_portals (enqcmd no_op (Retry NotEnabled)) ≡ true }
    ensures no_cell_in_use { wrong_after 1 two_portals (to_shared no_op 0 1) ≡ true }
    ensures no_cell_past_the_last { wrong_after 1 two_portals (to_shared no_op 28 1) ≡ true }
    ensures no_other_name { wrong_after 1 two_portals (to_shared no_op 1 2) ≡ true }
    ensures not_full_before_capacity { wrong_after 1 two_portals (enqcmd no_op Full) ≡ true }
    ensures not_idle_with_work { wrong_after 1 two_portals (dispatched 0 Idle) ≡ true }
    ensures front_first { wrong_after 2 two_portals (step_of_a_take 0 1 1) ≡ true }
    ensures no_engine_of_another_group { wrong_after 2 two_portals
        (dispatched 1 (Taken (ticket 0 0) 0)) ≡ true }
{}

/// A dedicated queue that is full drops descriptors, and the noted error overflows.
pub fn dedicated_queue_overflows()
    ensures run { is_run_here dedicated_queue_overflows ≡ true }
    ensures next_name { next_name_after dedicated_queue_overflows ≡ Some 2 }
    ensures content { content_after dedicated_queue_overflows
        ≡ Some (with_list 1 (held_entry 0 0 None (record no_op { pasid = 7 }) 1 false
        ∷ held_entry 1 1 None (record no_op { pasid = 7 }) 1 false ∷ []) no_entries) }
    ensures overflow_is_marked { wrong_after 4 dedicated_queue_overflows
        (cleared (Cleared (record { queue = 1; cause = AtLimit; overflow = false }))) ≡ true }
{}

/// ENQCMD to a dedicated queue, MOVDIR64B to a shared one, a queue that was disabled, and one that
/// the device does not have.
pub fn causes_of_retry()
    ensures run { is_run_here causes_of_retry ≡ true }
    ensures next_name { next_name_after causes_of_retry ≡ Some 0 }
    ensures account { account_after causes_of_retry ≡ Some (record nothing_counted { steps = 12 }) }
    ensures dedicated_takes_no_enqcmd { may_not_follow []
        (written 1 Limited (Enqcmd 5) no_op (Accepted (ticket 0 0)))
        ≡ true }
    ensures no_such_queue_is_no_wrong_kind { may_not_follow []
        (written 9 Limited (Enqcmd 5) no_op (Retry WrongKind))
        ≡ true }
{}

/// The noted error is of the first descriptor that was dropped, whatever was dropped later.
pub fn first_drop_is_noted()
    ensures run { is_run_here first_drop_is_noted ≡ true }
    ensures last_is_not_noted { wrong_after 4 first_drop_is_noted
        (cleared (Cleared (record { queue = 9; cause = NotEnabled; overflow = true }))) ≡ true }
{}

/// Moves of 0, of 2 ^ 20 and of one more byte, where a transfer may have 2 ^ 20.
pub fn transfer_sizes()
    ensures run { is_run_here transfer_sizes ≡ true }
    ensures fates { fates_after transfer_sizes
        ≡ Some (completed 0 0x13 ∷ completed 1 0x01 ∷ completed 2 0x13 ∷ []) }
{}

/// Drain is an operation, a fence has no place outside a batch, other flags are ignored, and
/// operation 6 is not supported.
pub fn operations_and_flags()
    ensures run { is_run_here operations_and_flags ≡ true }
    ensures fates { fates_after operations_and_flags
        ≡ Some (completed 0 0x01 ∷ completed 1 0x11 ∷ completed 2 0x01 ∷ completed 3 0x10 ∷ []) }
    ensures a_drain_is_supported { wrong_after 2 operations_and_flags (ended 0 0 0 0x10) ≡ true }
    ensures a_fence_is_no_success { wrong_after 5 operations_and_flags (ended 0 0 1 0x01) ≡ true }
    ensures other_operations_fail { wrong_after 11 operations_and_flags (ended 0 0 3 0x01) ≡ true }
{}

/// A history with room for ten steps, of which the set-up took seven: from then on each answer is
/// Full, and nothing changes.
pub fn history_is_full()
    ensures run { is_run caps 10 (setup ++ history_is_full) ≡ true }
    ensures not_a_step_later { is_run caps 11 (setup ++ history_is_full) ≡ false }
    ensures not_a_step_earlier { is_run caps 9 (setup ++ history_is_full) ≡ false }
{}

/// A device with no room for a step answers Full to all.
pub fn no_room_at_all()
    ensures run { is_run caps 0 no_room_at_all ≡ true }
    ensures nothing_else { is_run caps 0 (take 1 setup) ≡ false }
{}

/// Tickets that name no running entry of the engine are Gone.
pub fn forged_tickets()
    ensures run { is_run_here forged_tickets ≡ true }
    ensures next_name { next_name_after forged_tickets ≡ Some 1 }
    ensures content { content_after forged_tickets
        ≡ Some (with_list 2 (held_entry 0 0 None (record no_op { pasid = 5 }) 0 true ∷ [])
        no_entries) }
    ensures waiting_entries_do_not_end { wrong_after 1 forged_tickets (ended 0 0 0 0x01) ≡ true }
    ensures no_other_engine_ends_it { wrong_after 3 forged_tickets (ended 1 0 0 0x01) ≡ true }
    ensures its_own_is_not_gone { wrong_after 3 forged_tickets (finished 0 (ticket 0 0) Gone)
        ≡ true }
{}

/// The steps of an actor are its own, in the order of the history.
pub fn steps_of_two_clients()
    ensures first { steps_of_actor of_two_clients (Client 0)
        ≡ take 1 of_two_clients ++ enqcmd_unlimited 5 no_op (Accepted (ticket 2 2)) ∷ [] }
    ensures second { slice_get (steps_of_actor of_two_clients (Client 1)) 0
        ≡ slice_get of_two_clients 1 }
    ensures engine { steps_of_actor of_two_clients (Engine 0) ≡ [] }
{}
