//! Short keys, and what labels say of entries.

ghost use Rattle.std.specs.Prelude.{◌≡◌, [], ◌∷◌, Some, None, true, false, map};
ghost use Rattle.dsa_desc.specs.Descriptor.{with_pasid};
ghost use Rattle.dsa_book.specs.declared.event.Event.TheVariants as event;
ghost use Rattle.dsa_book.specs.declared.event.Kind.TheVariants.{Enqcmd, Movdir64b};
ghost use Rattle.dsa_book.specs.declared.event.Portal.TheVariants.{Limited};
ghost use Rattle.dsa_worked.specs.Setup.{no_op, move, drain, held_entry};
ghost use Rattle.dsa_keys.specs.Short.{described_entry, drains_among, short_entry, short_key};
ghost use Rattle.dsa_keys.specs.Short.{BringsDescribed, IsDescribed};
ghost use Rattle.dsa_keys_rows.specs.Holding.{hundreds, busy, half_fetched, noting, one_held};
ghost use Rattle.dsa_keys_rows.specs.Holding.{described, batch_in_queue, move_to_queue_2};
ghost use Rattle.dsa_keys_rows.specs.Holding.{dedicated_as, labels_elsewhere, busy_elsewhere};

/// Entries as their labels say: a dedicated queue has a PASID of its own.
pub fn described_entries()
    ensures enqcmd { described_entry described (dedicated_as 9) 112 true
        ≡ record {
          label = 112;
          desc = with_pasid (move 8) 5;
          queue = 0;
          running = true;
          member = false;
        } }
    ensures movdir { described_entry described (dedicated_as 9) 120 false
        ≡ record {
          label = 120;
          desc = with_pasid no_op 9;
          queue = 1;
          running = false;
          member = true;
        } }
    ensures as_said { IsDescribed described hundreds
        (one_held 0 (held_entry 3 12 None (with_pasid (move 8) 5) 0 false)) }
    ensures other_size { ¬ IsDescribed described hundreds
        (one_held 0 (held_entry 3 12 None (with_pasid (move 9) 5) 0 false)) }
    ensures other_pasid { ¬ IsDescribed described hundreds
        (one_held 0 (held_entry 3 12 None (with_pasid (move 8) 6) 0 false)) }
    ensures other_queue { ¬ IsDescribed described hundreds
        (one_held 0 (held_entry 3 12 None (with_pasid (move 8) 5) 1 false)) }
    ensures a_member { ¬ IsDescribed described hundreds
        (one_held 5 (held_entry 3 12 (Some 7) (with_pasid (move 8) 5) 0 false)) }
{}

/// Events that bring in what the label of the next name says, which is 120 here.
pub fn events_that_bring_in()
    ensures submission { BringsDescribed (move_to_queue_2 false) hundreds busy
        (event.Submit 3 2 Limited (Enqcmd 5) (move 8)) }
    ensures other_queue { ¬ BringsDescribed (move_to_queue_2 false) hundreds busy
        (event.Submit 3 1 Limited (Enqcmd 5) (move 8)) }
    ensures other_pasid { ¬ BringsDescribed (move_to_queue_2 false) hundreds busy
        (event.Submit 3 2 Limited (Enqcmd 6) (move 8)) }
    ensures member { ¬ BringsDescribed (move_to_queue_2 true) hundreds busy
        (event.Submit 3 2 Limited (Enqcmd 5) (move 8)) }
    ensures fetch { BringsDescribed (batch_in_queue 2) hundreds busy (event.Fetch 0 no_op) }
    ensures fetch_to_another_queue { ¬ BringsDescribed (batch_in_queue 1) hundreds busy
        (event.Fetch 0 no_op) }
    ensures fetch_of_another { ¬ BringsDescribed (batch_in_queue 2) hundreds busy
        (event.Fetch 0 (move 8)) }
    ensures any_other { BringsDescribed described hundreds busy (event.Start 0) }
{}

/// Short keys.
pub fn short_keys()
    ensures entry { short_entry hundreds (held_entry 4 12 (Some 10) no_op 2 true)
        ≡ record { label = 112; running = true } }
    ensures drains { drains_among
        (held_entry 4 12 None no_op 2 true ∷ held_entry 5 13 None drain 0 false ∷ [])
        ≡ held_entry 5 13 None drain 0 false ∷ [] }
    ensures lists { (short_key hundreds busy).lists
        ≡ (record { label = 112; running = false } ∷ []) ∷ []
        ∷ (record { label = 114; running = false } ∷ [])
        ∷ (record { label = 110; running = true } ∷ [])
        ∷ (record { label = 111; running = true } ∷ [])
        ∷ (record { label = 113; running = true } ∷ []) ∷ [] ∷ [] }
    ensures waits { (short_key hundreds busy).waits
        ≡ (false ∷ false ∷ false ∷ true ∷ false ∷ []) ∷ [] }
    ensures notes { (short_key hundreds busy).notes
        ≡ Some (record half_fetched { batch = 110 }) ∷ None ∷ [] }
    ensures awaited { (short_key hundreds busy).awaited
        ≡ false ∷ false ∷ true ∷ true ∷ false ∷ [] }
    ensures elsewhere { short_key hundreds busy ≡ short_key labels_elsewhere busy_elsewhere }
{}
