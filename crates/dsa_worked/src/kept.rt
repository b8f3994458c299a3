//! What the layers of the device keep beside the lists, at chosen states: read buffers, groups and
//! notes of engines, whether a submission is accepted, and what a command takes out.

ghost use Rattle.std.specs.Prelude.{◌≡◌, [], ◌∷◌, Some, None, true, false, map, take, replicate};
ghost use Rattle.dsa_regs.specs.declared.Command.TheVariants.{AbortPasid};
ghost use Rattle.dsa_regs.specs.declared.Scope.TheVariants.{Pasid};
ghost use Rattle.dsa_regs.specs.declared.layout.ListUse.TheVariants.{Queue, Progress, Members};
ghost use Rattle.dsa_regs.specs.Config.{zero_group};
ghost use Rattle.dsa_book.specs.declared.event.Kind.TheVariants.{Enqcmd, Movdir64b};
ghost use Rattle.dsa_book.specs.declared.event.Portal.TheVariants.{Limited};
ghost use Rattle.dsa_book.specs.declared.fate.Fate.TheVariants.{Aborted};
ghost use Rattle.dsa_queues.specs.Queues.{intake, is_accepting};
ghost use Rattle.dsa_engines.specs.Engines.{buffers_of, buffers_at_rest, homes_of, engines_at_first, is_running, buffers_after_return, buffers_after_removal, notes_without, engines_after_removal, is_fetching};
ghost use Rattle.dsa_admin.specs.Admin.{is_meant, is_spared, row_of_abort, rows_of_abort, notes_left, names_bad_queue};
ghost use Rattle.dsa_worked.specs.Setup.{no_op, batch, row, held_entry};
ghost use Rattle.dsa_worked.specs.Batches.{fence_waits};
ghost use Rattle.dsa_worked.specs.States.{seen_after, running_member, waiting_member};
ghost use Rattle.dsa_worked.specs.Uneven.{many_queues, many_engines, many_groups, of_these, last_of_many_queues, last_of_many_engines, seen_there};
ghost use Rattle.dsa_worked.specs.Values.{a_note};
ghost use Rattle.dsa_worked.specs.Kept.{two_groups_in_use, engines_in_use, a_batch, a_move, of_pasid};

/// The read buffers of a device: all of it, its groups, and what is in use.
pub fn read_buffers()
    ensures in_use { seen_there (λ s. buffers_of s.work.setup s.work.content) many_engines
        (take 13 last_of_many_engines)
        ≡ Some (record { total = 4; groups = of_these 1 124 ∷ []; used = 4 ∷ [] }) }
    ensures at_rest { seen_there (λ s. buffers_at_rest s.work.setup) many_groups []
        ≡ Some (record { total = 6; groups = replicate 8 zero_group; used = replicate 8 0 }) }
    ensures returned { (buffers_after_return (Some 1) 3 two_groups_in_use).used ≡ 8 ∷ 4 ∷ [] }
    ensures none_returned { buffers_after_return None 3 two_groups_in_use ≡ two_groups_in_use }
{}

/// The group of each engine, and what engines keep before the device is first enabled.
pub fn groups_of_engines()
    ensures of_many { seen_there (λ s. homes_of s.work.setup) many_engines
        (take 4 last_of_many_engines)
        ≡ Some (None ∷ None ∷ Some 0 ∷ Some 0 ∷ Some 0 ∷ Some 0 ∷ Some 0 ∷ []) }
    ensures of_one { seen_there (λ s. homes_of s.work.setup) many_queues last_of_many_queues
        ≡ Some (Some 1 ∷ []) }
    ensures at_first { engines_at_first many_engines
        ≡ record {
          notes = replicate 7 None;
          buffers = record { total = 0; groups = []; used = [] };
          homes = [];
        } }
{}

/// With a batch in progress its engine's note goes, and with a Move its read buffers are given
/// back.
pub fn removals()
    ensures notes { map (λ from. notes_without from (Some a_note ∷ Some a_note ∷ []))
        (Queue 1 ∷ Progress 1 ∷ Members 1 ∷ [])
        ≡ (Some a_note ∷ Some a_note ∷ [])
        ∷ (Some a_note ∷ None ∷ [])
        ∷ (Some a_note ∷ Some a_note ∷ [])
        ∷ [] }
    ensures of_a_batch { seen_after
        (λ w. (engines_after_removal w.setup (Progress 1) a_batch engines_in_use).notes) []
        ≡ Some (Some a_note ∷ None ∷ []) }
    ensures of_a_move { seen_after
        (λ w. (engines_after_removal w.setup (Progress 1) a_move engines_in_use).notes) []
        ≡ Some (Some a_note ∷ Some a_note ∷ []) }
    ensures its_buffers { seen_after
        (λ w. (engines_after_removal w.setup (Progress 1) a_move engines_in_use).buffers.used) []
        ≡ Some (8 ∷ 5 ∷ []) }
    ensures of_a_queue { seen_after
        (λ w. (buffers_after_removal w.setup engines_in_use None a_move).used) []
        ≡ Some (8 ∷ 7 ∷ []) }
{}

/// An entry runs or waits, and an engine fetches while its batch has members left.
pub fn work_of_engines()
    ensures running { map is_running (running_member ∷ waiting_member ∷ []) ≡ true ∷ false ∷ [] }
    ensures fetching { seen_after (λ w. is_fetching w 0) (take 2 fence_waits) ≡ Some true }
    ensures all_fetched { seen_after (λ w. is_fetching w 0) (take 5 fence_waits) ≡ Some false }
    ensures no_note { seen_after (λ w. is_fetching w 0) [] ≡ Some false }
    ensures no_batch { seen_after (λ w. is_fetching (record w { content = [] }) 0)
        (take 2 fence_waits)
        ≡ Some false }
    ensures no_batch_all_fetched { seen_after (λ w. is_fetching (record w { content = [] }) 0)
        (take 5 fence_waits)
        ≡ Some false }
{}

/// A submission is accepted where nothing turns it away.
pub fn accepted_submissions()
    ensures shared { seen_after
        (λ w. map (is_accepting (intake w.setup w.content) 0 Limited)
        (Enqcmd 5 ∷ Movdir64b ∷ []))
        []
        ≡ Some (true ∷ false ∷ []) }
    ensures dedicated { seen_after
        (λ w. map (is_accepting (intake w.setup w.content) 1 Limited)
        (Enqcmd 5 ∷ Movdir64b ∷ []))
        []
        ≡ Some (false ∷ true ∷ []) }
{}

/// An abort takes the entries that it is about, with a row for each, and spares the others; a
/// batch takes its engine's note along.
pub fn taken_by_aborts()
    ensures meant { map (is_meant (AbortPasid 5)) (of_pasid 1 5 ∷ of_pasid 2 6 ∷ [])
        ≡ true ∷ false ∷ [] }
    ensures spared { map (is_spared (AbortPasid 5)) (of_pasid 1 5 ∷ of_pasid 2 6 ∷ [])
        ≡ false ∷ true ∷ [] }
    ensures row { row_of_abort (AbortPasid 5) (held_entry 7 3 (Some 2) no_op 1 false).1
        ≡ row 3 (Some 2) (Aborted 12) }
    ensures rows { rows_of_abort (AbortPasid 5) (of_pasid 1 5 ∷ of_pasid 2 6 ∷ of_pasid 3 5 ∷ [])
        ≡ row 1 None (Aborted 12) ∷ row 3 None (Aborted 12) ∷ [] }
    ensures note { seen_after
        (λ w. notes_left w.setup (Pasid 0) (Progress 1)
        (held_entry 0 0 None (batch 2) 0 true ∷ []) (Some a_note ∷ Some a_note ∷ []))
        []
        ≡ Some (Some a_note ∷ None ∷ []) }
    ensures no_note { seen_after
        (λ w. notes_left w.setup (Pasid 0) (Progress 1)
        (held_entry 0 0 None no_op 0 true ∷ []) (Some a_note ∷ Some a_note ∷ []))
        []
        ≡ Some (Some a_note ∷ Some a_note ∷ []) }
{}

/// No queue, and one that the device does not have, beside others or alone.
pub fn bad_queues()
    ensures { seen_after
        (λ w. map (names_bad_queue w.setup)
        ([] ∷ (0 ∷ 1 ∷ []) ∷ (1 ∷ []) ∷ (0 ∷ 2 ∷ []) ∷ (2 ∷ []) ∷ []))
        []
        ≡ Some (true ∷ false ∷ false ∷ true ∷ true ∷ []) }
{}
