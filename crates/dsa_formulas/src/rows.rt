//! Worked rows of formulas and facts, each on a function with nothing to do.

ghost use Rattle.std.specs.Prelude.{◌≡◌, [], ◌∷◌, Bool, map, true, false};
ghost use Rattle.dsa_desc.specs.declared.Descriptor.{Descriptor};
ghost use Rattle.dsa_regs.specs.declared.Phase.TheVariants.{Off, On, Stopping};
ghost use Rattle.dsa_formulas.specs.declared.formula.Being.TheVariants.{Held, Waiting};
ghost use Rattle.dsa_formulas.specs.declared.formula.Fact.{Fact};
ghost use Rattle.dsa_formulas.specs.declared.formula.Term.TheVariants.{Both, Either, Known, Not};
ghost use Rattle.dsa_formulas.specs.{Facts.{is_found_so, is_in_phase}, Formulas.{holds_there}};

/// What known truths come to. Without a term nothing holds, and a term that joins too few leaves
/// them.
pub fn of_known_truths()
    ensures one { (so : Fact → Bool) → map (holds_there so)
        ([] ∷ (Known true ∷ []) ∷ (Known false ∷ []) ∷ (Known true ∷ Not ∷ [])
        ∷ (Known false ∷ Not ∷ []) ∷ [])
        ≡ false ∷ true ∷ false ∷ false ∷ true ∷ [] }
    ensures both { (so : Fact → Bool) → map (holds_there so)
        ((Known false ∷ Known false ∷ Both ∷ []) ∷ (Known true ∷ Known false ∷ Both ∷ [])
        ∷ (Known false ∷ Known true ∷ Both ∷ []) ∷ (Known true ∷ Known true ∷ Both ∷ []) ∷ [])
        ≡ false ∷ false ∷ false ∷ true ∷ [] }
    ensures either { (so : Fact → Bool) → map (holds_there so)
        ((Known false ∷ Known false ∷ Either ∷ []) ∷ (Known true ∷ Known false ∷ Either ∷ [])
        ∷ (Known false ∷ Known true ∷ Either ∷ []) ∷ (Known true ∷ Known true ∷ Either ∷ [])
        ∷ [])
        ≡ false ∷ true ∷ true ∷ true ∷ [] }
    ensures nested { (so : Fact → Bool) → map (holds_there so)
        ((Known true ∷ Known false ∷ Known true ∷ Either ∷ Not ∷ Both ∷ [])
        ∷ (Known true ∷ Known false ∷ Known false ∷ Either ∷ Not ∷ Both ∷ []) ∷ [])
        ≡ false ∷ true ∷ [] }
    ensures few { (so : Fact → Bool) → map (holds_there so)
        ((Not ∷ []) ∷ (Both ∷ []) ∷ (Known true ∷ Both ∷ []) ∷ (Known true ∷ Either ∷ []) ∷ [])
        ≡ false ∷ false ∷ true ∷ true ∷ [] }
{}

/// A phase is this one alone.
pub fn of_phases()
    ensures off { map (is_in_phase Off) (Off ∷ On ∷ Stopping ∷ []) ≡ true ∷ false ∷ false ∷ [] }
    ensures on { map (is_in_phase On) (Off ∷ On ∷ Stopping ∷ []) ≡ false ∷ true ∷ false ∷ [] }
    ensures stopping { map (is_in_phase Stopping) (Off ∷ On ∷ Stopping ∷ [])
        ≡ false ∷ false ∷ true ∷ [] }
{}

/// A held entry with the label is held. It waits while it does not run and is no member.
pub fn of_entries()
    ensures held { (desc : Descriptor) → map (λ label. is_found_so label Held
        (record { label = 3; desc = desc; queue = 0; running = true; member = false }))
        (2 ∷ 3 ∷ []) ≡ false ∷ true ∷ [] }
    ensures waiting { (desc : Descriptor) → map (is_found_so 3 Waiting)
        (record { label = 3; desc = desc; queue = 0; running = false; member = false }
        ∷ record { label = 3; desc = desc; queue = 0; running = true; member = false }
        ∷ record { label = 3; desc = desc; queue = 0; running = false; member = true }
        ∷ record { label = 2; desc = desc; queue = 0; running = false; member = false } ∷ [])
        ≡ true ∷ false ∷ false ∷ false ∷ [] }
{}
