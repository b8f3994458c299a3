//! Worked rows: parts of acts with other numbers, each on a function with nothing to do.

ghost use Rattle.std.specs.Prelude.{◌≡◌, ◌∷◌, [], map, true, false};
ghost use Rattle.dsa_explore.specs.declared.found.Finding.TheVariants.{Removal, Wait};
ghost use Rattle.dsa_tables.specs.declared.parts.Part.TheVariants.{Removals, Waits};
ghost use Rattle.dsa_tables.specs.Lines.{is_in_part};

/// A part has the waits, or the removals, of one act.
pub fn parts_of_one_act()
    ensures waits { map (λ act. is_in_part (Waits 2) (Wait act 5)) (1 ∷ 2 ∷ 3 ∷ [])
        ≡ false ∷ true ∷ false ∷ [] }
    ensures removals { map (λ act. is_in_part (Removals 2) (Removal act 5)) (1 ∷ 2 ∷ 3 ∷ [])
        ≡ false ∷ true ∷ false ∷ [] }
{}
