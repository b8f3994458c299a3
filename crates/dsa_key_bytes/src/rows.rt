//! Worked rows: bytes of numbers and of small keys, as contracts of functions with nothing to do.

ghost use Rattle.std.specs.Prelude.{◌≡◌, ◌+◌, [], ◌∷◌, None, Some, flat_map, map, true, false};
ghost use Rattle.dsa_regs.specs.Caps.{each_of};
ghost use Rattle.dsa_regs.specs.declared.Command.TheVariants.{AbortAll, AbortPasid, DrainAll, DrainWq, EnableWq};
ghost use Rattle.dsa_book.specs.declared.answer.Cause.TheVariants.{AtLimit, WrongKind};
ghost use Rattle.dsa_book.specs.State.{opening_setup};
ghost use Rattle.dsa_key_bytes.specs.declared.entries.Mark.TheVariants.{Awaited, Label};
ghost use Rattle.dsa_key_bytes.specs.Numbers.{number_bytes};
ghost use Rattle.dsa_key_bytes.specs.KeyBytes.{changing_key_bytes, configured_numbers, held_numbers, key_bytes, standing_numbers};
ghost use Rattle.dsa_key_bytes.specs.Line.{emptied, with_byte};
ghost use Rattle.dsa_key_bytes.specs.Marks.{drain_numbers, label_numbers, mark_numbers};
ghost use Rattle.dsa_key_bytes.specs.Worked.{key_entry, key_with, labels_by_name, note_of_numbers, noted_for, setup_of_numbers, draining_state};

/// Numbers: seven bits in each byte.
pub fn bytes_of_numbers()
    ensures zero { number_bytes 0 ≡ 0 ∷ [] }
    ensures one_byte { number_bytes 127 ≡ 127 ∷ [] }
    ensures two_bytes { number_bytes 128 ≡ 128 ∷ 1 ∷ [] }
    ensures more { number_bytes 300 ≡ 172 ∷ 2 ∷ [] }
{}

/// A key of a device with one queue, one group and one engine: an entry with the label 5 waits, and
/// one with the label 100 runs, for which the active Drain All waits.
pub fn bytes_of_a_small_key()
    ensures changing { changing_key_bytes (record {
      setup = opening_setup (each_of 1);
      lists = (record { label = 5; running = false } ∷ [])
          ∷ (record { label = 100; running = true } ∷ []) ∷ [] ∷ [];
      notes = None ∷ [];
      waits = [];
      command = Some DrainAll;
      awaited = false ∷ true ∷ [];
    })
        ≡ 0 ∷ 1 ∷ 0 ∷ 0 ∷ 3 ∷ 11 ∷ 0 ∷ 202 ∷ 1 ∷ 0 ∷ 0 ∷ 1 ∷ 0 ∷ 0 ∷ 1 ∷ 3 ∷ 0 ∷ 0
        ∷ 1 ∷ 2 ∷ 0 ∷ [] }
    ensures whole { key_bytes (record {
      setup = opening_setup (each_of 1);
      lists = [] ∷ [] ∷ [] ∷ [];
      notes = None ∷ [];
      waits = [];
      command = None;
      awaited = [];
    })
        ≡ 1 ∷ 1 ∷ 1 ∷ 1 ∷ 1 ∷ 1 ∷ 1 ∷ 1 ∷ 1 ∷ 0 ∷ 0 ∷ 0 ∷ 0 ∷ 0 ∷ 0 ∷ 0 ∷ 1 ∷ 0 ∷ 0 ∷ 0 ∷ 0
        ∷ 0 ∷ 1 ∷ 0 ∷ 0 ∷ 3 ∷ 0 ∷ 0 ∷ 0 ∷ 1 ∷ 0 ∷ 0 ∷ 0 ∷ 0 ∷ [] }
{}

/// What is configured, in numbers; and the phases and the noted error.
pub fn setups_in_numbers()
    ensures configured { configured_numbers setup_of_numbers
        ≡ 2 ∷ 1 ∷ 3 ∷ 12 ∷ 16 ∷ 4 ∷ 5 ∷ 20 ∷ 2 ∷ 21 ∷ 22 ∷ 1 ∷ 24 ∷ 25 ∷ 26 ∷ 27 ∷ 21 ∷ 22 ∷ 0 ∷ 24
        ∷ 25 ∷ 26 ∷ 27 ∷ 1 ∷ 31 ∷ 32 ∷ 33 ∷ 34 ∷ [] }
    ensures standing { standing_numbers setup_of_numbers
        ≡ 1 ∷ 2 ∷ 2 ∷ 0 ∷ 1 ∷ 7 ∷ 1 ∷ 1 ∷ [] }
    ensures other_causes { map (λ cause. standing_numbers
        (record setup_of_numbers { noted = noted_for cause false })) (AtLimit ∷ WrongKind ∷ [])
        ≡ (1 ∷ 2 ∷ 2 ∷ 0 ∷ 1 ∷ 7 ∷ 0 ∷ 0 ∷ []) ∷ (1 ∷ 2 ∷ 2 ∷ 0 ∷ 1 ∷ 7 ∷ 2 ∷ 0 ∷ []) ∷ [] }
{}

/// Notes and commands, in numbers: each command with whom it is about.
pub fn keys_in_numbers()
    ensures notes { held_numbers (key_with
        (note_of_numbers true false ∷ None ∷ note_of_numbers false true ∷ []) None)
        ≡ 0 ∷ 3 ∷ 1 ∷ 41 ∷ 3 ∷ 2 ∷ 1 ∷ 0 ∷ 0 ∷ 1 ∷ 41 ∷ 3 ∷ 2 ∷ 0 ∷ 1 ∷ 1 ∷ 2 ∷ 1 ∷ 0 ∷ 0 ∷ 0 ∷ 0
        ∷ [] }
    ensures device { held_numbers (key_with [] (Some AbortAll))
        ≡ 0 ∷ 0 ∷ 1 ∷ 2 ∷ 1 ∷ 0 ∷ 0 ∷ 1 ∷ 4 ∷ 0 ∷ 0 ∷ 0 ∷ [] }
    ensures queue { held_numbers (key_with [] (Some (EnableWq 9)))
        ≡ 0 ∷ 0 ∷ 1 ∷ 2 ∷ 1 ∷ 0 ∷ 0 ∷ 1 ∷ 6 ∷ 9 ∷ 0 ∷ 0 ∷ [] }
    ensures queues { held_numbers (key_with [] (Some (DrainWq (record { group = 2; mask = 5 }))))
        ≡ 0 ∷ 0 ∷ 1 ∷ 2 ∷ 1 ∷ 0 ∷ 0 ∷ 1 ∷ 8 ∷ 2 ∷ 5 ∷ 0 ∷ [] }
    ensures pasid { held_numbers (key_with [] (Some (AbortPasid 11)))
        ≡ 0 ∷ 0 ∷ 1 ∷ 2 ∷ 1 ∷ 0 ∷ 0 ∷ 1 ∷ 12 ∷ 11 ∷ 0 ∷ 0 ∷ [] }
{}

/// Lines have room for so many bytes: those of more are gone.
pub fn lines_of_bytes()
    ensures room { with_byte (record { capacity = 3; bytes = Some (7 ∷ 8 ∷ []) }) 9
        ≡ record { capacity = 3; bytes = Some (7 ∷ 8 ∷ 9 ∷ []) } }
    ensures no_room { with_byte (record { capacity = 2; bytes = Some (7 ∷ 8 ∷ []) }) 9
        ≡ record { capacity = 2; bytes = None } }
    ensures gone { with_byte (record { capacity = 2; bytes = None }) 9
        ≡ record { capacity = 2; bytes = None } }
    ensures emptied { emptied (record { capacity = 2; bytes = None })
        ≡ record { capacity = 2; bytes = Some [] } }
{}

/// Lists of entries, in numbers; and for which entries one waits as a Drain.
pub fn entries_in_numbers()
    ensures labels { label_numbers (λ name. name + 50) (key_entry 2 0 6 ∷ key_entry 4 2 6 ∷ [])
        ≡ 106 ∷ 110 ∷ 0 ∷ [] }
    ensures a_drain { drain_numbers draining_state (key_entry 4 2 6)
        ≡ 1 ∷ 2 ∷ 1 ∷ 1 ∷ 0 ∷ [] }
    ensures no_drain { drain_numbers draining_state (key_entry 4 0 6) ≡ [] }
    ensures awaited { flat_map (mark_numbers draining_state Awaited)
        (key_entry 2 0 6 ∷ key_entry 4 2 6 ∷ key_entry 5 0 6 ∷ []) ≡ 2 ∷ 2 ∷ 1 ∷ [] }
    ensures labelled { flat_map (mark_numbers draining_state (Label labels_by_name))
        (key_entry 2 0 6 ∷ key_entry 4 2 6 ∷ []) ≡ 126 ∷ 130 ∷ [] }
{}
