//! Keys: what each part of one is, and which states have equal keys.

ghost use Rattle.std.specs.Prelude.{◌≡◌, [], ◌∷◌, Some, None, true, false, map, option_map, is_some};
ghost use Rattle.dsa_regs.specs.declared.Command.TheVariants.{DrainAll, DisableDevice};
ghost use Rattle.dsa_regs.specs.declared.Phase.TheVariants.{Off, On};
ghost use Rattle.dsa_book.specs.declared.answer.Cause.TheVariants.{AtLimit};
ghost use Rattle.dsa_book.specs.declared.answer.FinishAnswer.TheVariants.{Done, NotReady};
ghost use Rattle.dsa_book.specs.declared.answer.Reply.TheVariants.{Finish};
ghost use Rattle.dsa_worked.specs.Setup.{no_op, move, batch, drain, held_entry};
ghost use Rattle.dsa_keys.specs.Key.{key, labelled_entry, waits_as_drain, without_next_name};
ghost use Rattle.dsa_keys_rows.specs.Holding.{hundreds, drain_12, move_in, listed};
ghost use Rattle.dsa_keys_rows.specs.Holding.{labels_elsewhere, set_up_at, no_lists, state_by};
ghost use Rattle.dsa_keys_rows.specs.Holding.{state_of_lists, one_held, noting, half_fetched};
ghost use Rattle.dsa_keys_rows.specs.Holding.{drained_by, busy, busy_elsewhere};
ghost use Rattle.dsa_keys_rows.specs.Histories.{one_way, other_way, drain_behind, drain_before, key_there, ended_there};

/// Entries by their labels.
pub fn entries_by_label()
    ensures waiting { labelled_entry hundreds (held_entry 4 12 None no_op 2 false)
        ≡ record { label = 112; desc = no_op; queue = 2; running = false; member = false } }
    ensures member { labelled_entry hundreds (held_entry 5 13 (Some 10) (move 8) 1 true)
        ≡ record { label = 113; desc = move 8; queue = 1; running = true; member = true } }
{}

/// Of all entries Drains alone wait, and for those that came before them.
pub fn waits_of_entries()
    ensures earlier { waits_as_drain drain_12 (move_in 2 11) ≡ true }
    ensures later { waits_as_drain drain_12 (move_in 2 13) ≡ false }
    ensures other_queue { waits_as_drain drain_12 (move_in 1 11) ≡ false }
    ensures no_drain { waits_as_drain (record drain_12 { desc = no_op }) (move_in 2 11) ≡ false }
{}

/// The parts of a key.
pub fn parts_of_a_key()
    ensures set_up { (key hundreds busy).setup ≡ set_up_at 0 }
    ensures lists { (key hundreds busy).lists
        ≡ (record { label = 112; desc = no_op; queue = 0; running = false; member = false } ∷ [])
        ∷ []
        ∷ (record { label = 114; desc = drain; queue = 2; running = false; member = false } ∷ [])
        ∷ (record { label = 110; desc = batch 3; queue = 0; running = true; member = false } ∷ [])
        ∷ (record { label = 111; desc = move 8; queue = 2; running = true; member = false } ∷ [])
        ∷ (record { label = 113; desc = no_op; queue = 0; running = true; member = true } ∷ [])
        ∷ [] ∷ [] }
    ensures notes { (key hundreds busy).notes
        ≡ Some (record half_fetched { batch = 110 }) ∷ None ∷ [] }
    ensures waits { (key hundreds busy).waits
        ≡ (false ∷ false ∷ false ∷ false ∷ false ∷ [])
        ∷ (false ∷ false ∷ false ∷ true ∷ false ∷ [])
        ∷ (false ∷ false ∷ false ∷ false ∷ false ∷ [])
        ∷ (false ∷ false ∷ false ∷ false ∷ false ∷ [])
        ∷ (false ∷ false ∷ false ∷ false ∷ false ∷ []) ∷ [] }
    ensures command { (key hundreds busy).command ≡ Some DrainAll }
    ensures awaited { (key hundreds busy).awaited
        ≡ false ∷ false ∷ true ∷ true ∷ false ∷ [] }
    ensures no_command { (key hundreds (state_of_lists no_lists)).command ≡ None }
{}

/// Names and cells are in no key, and neither is what has ended.
pub fn names_and_cells_are_in_no_key()
    ensures states { key hundreds busy ≡ key labels_elsewhere busy_elsewhere }
    ensures histories { key_there (listed (5 ∷ 6 ∷ [])) one_way
        ≡ key_there (listed (9 ∷ 6 ∷ 5 ∷ [])) other_way }
    ensures they_come { is_some (key_there (listed (5 ∷ 6 ∷ [])) one_way) ≡ true }
{}

/// Entries that differ in one thing have other keys.
pub fn other_entries_have_other_keys()
    ensures label { ¬ key hundreds (one_held 0 (held_entry 1 5 None no_op 0 false))
        ≡ key hundreds (one_held 0 (held_entry 1 6 None no_op 0 false)) }
    ensures descriptor { ¬ key hundreds (one_held 2 (held_entry 1 5 None no_op 2 false))
        ≡ key hundreds (one_held 2 (held_entry 1 5 None (move 8) 2 false)) }
    ensures queue { ¬ key hundreds (one_held 4 (held_entry 1 5 None no_op 0 true))
        ≡ key hundreds (one_held 4 (held_entry 1 5 None no_op 2 true)) }
    ensures running { ¬ key hundreds (one_held 5 (held_entry 1 5 (Some 3) no_op 0 false))
        ≡ key hundreds (one_held 5 (held_entry 1 5 (Some 3) no_op 0 true)) }
    ensures member { ¬ key hundreds (one_held 3 (held_entry 1 5 None no_op 0 true))
        ≡ key hundreds (one_held 3 (held_entry 1 5 (Some 3) no_op 0 true)) }
    ensures list { ¬ key hundreds (one_held 3 (held_entry 1 5 None no_op 0 true))
        ≡ key hundreds (one_held 4 (held_entry 1 5 None no_op 0 true)) }
{}

/// Notes that differ in one thing have other keys.
pub fn other_notes_have_other_keys()
    ensures batch { ¬ key hundreds (noting half_fetched)
        ≡ key hundreds (noting (record half_fetched { batch = 11 })) }
    ensures count { ¬ key hundreds (noting half_fetched)
        ≡ key hundreds (noting (record half_fetched { count = 4 })) }
    ensures fetched { ¬ key hundreds (noting half_fetched)
        ≡ key hundreds (noting (record half_fetched { fetched = 3 })) }
    ensures failed { ¬ key hundreds (noting half_fetched)
        ≡ key hundreds (noting (record half_fetched { failed = true })) }
    ensures closed { ¬ key hundreds (noting half_fetched)
        ≡ key hundreds (noting (record half_fetched { closed = true })) }
    ensures engine { ¬ key hundreds (noting half_fetched)
        ≡ key hundreds (state_by no_lists (None ∷ Some half_fetched ∷ []) None) }
{}

/// Set-ups but for the next name, and commands, are in the key: what a command waits for, and not
/// the mark by which it does.
pub fn other_commands_have_other_keys()
    ensures next_name { without_next_name (set_up_at 7) ≡ without_next_name (set_up_at 8) }
    ensures device { ¬ without_next_name (set_up_at 7)
        ≡ without_next_name (record (set_up_at 7) { device = Off }) }
    ensures noted { ¬ without_next_name (set_up_at 7)
        ≡ without_next_name
        (record (set_up_at 7) {
          noted = Some (record { queue = 1; cause = AtLimit; overflow = false });
        }) }
    ensures command { ¬ key hundreds (drained_by DrainAll 12)
        ≡ key hundreds (drained_by DisableDevice 12) }
    ensures awaited { ¬ key hundreds (drained_by DrainAll 11)
        ≡ key hundreds (drained_by DrainAll 12) }
    ensures mark { key hundreds (drained_by DrainAll 12) ≡ key hundreds (drained_by DrainAll 13) }
{}

/// What a Drain waits for is in the key: two states whose keys have equal lists, and the Drain ends
/// in one of them alone.
pub fn what_a_drain_waits_for_is_in_the_key()
    ensures lists { option_map (λ k. k.lists) (key_there (listed (5 ∷ 6 ∷ [])) drain_behind)
        ≡ option_map (λ k. k.lists) (key_there (listed (6 ∷ 5 ∷ [])) drain_before) }
    ensures behind { option_map (λ k. k.waits) (key_there (listed (5 ∷ 6 ∷ [])) drain_behind)
        ≡ Some ((false ∷ true ∷ []) ∷ (false ∷ false ∷ []) ∷ []) }
    ensures before { option_map (λ k. k.waits) (key_there (listed (6 ∷ 5 ∷ [])) drain_before)
        ≡ Some ((false ∷ false ∷ []) ∷ (false ∷ false ∷ []) ∷ []) }
    ensures waits { is_some (ended_there (listed (5 ∷ 6 ∷ [])) drain_behind 6 (Finish NotReady))
        ≡ true }
    ensures ends { is_some (ended_there (listed (6 ∷ 5 ∷ [])) drain_before 6 (Finish (Done 1)))
        ≡ true }
    ensures does_not_wait { is_some (ended_there (listed (6 ∷ 5 ∷ [])) drain_before 6
        (Finish NotReady))
        ≡ false }
{}
