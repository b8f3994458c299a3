//! What is so where parties stand, and formulas that hold in a world.

ghost use Rattle.std.specs.Prelude.{◌≡◌, ◌∷◌, [], map, true, false};
ghost use Rattle.std.specs.declared.alloc.Global.{Global};
ghost use Rattle.dsa_regs.specs.declared.Phase.TheVariants.{Off, On, Stopping};
ghost use Rattle.dsa_parties.specs.Worked.{worked_script};
ghost use Rattle.dsa_formulas.specs.declared.formula.Being.TheVariants.{Held, Waiting};
ghost use Rattle.dsa_formulas.specs.declared.formula.Fact.TheVariants as fact;
ghost use Rattle.dsa_formulas.specs.declared.formula.Term.TheVariants.{Both, Is, Not};
ghost use Rattle.dsa_formulas.specs.{Facts.{is_so}, Formulas.{holds_in_world}};
ghost use Rattle.dsa_statement_rows.specs.Standings.{half_through, half_through_world, stopping_key};

/// What is so of the device and its queues. A queue that the device does not have is in no phase,
/// and no entries wait there.
pub fn facts_of_the_device()
    ensures device { (memory : Global) → map
        (is_so (worked_script memory) half_through stopping_key)
        (fact.Device Off ∷ fact.Device On ∷ fact.Device Stopping ∷ [])
        ≡ false ∷ true ∷ false ∷ [] }
    ensures phases { (memory : Global) → map
        (is_so (worked_script memory) half_through stopping_key)
        (fact.Queue 0 Stopping ∷ fact.Queue 0 On ∷ fact.Queue 1 On ∷ fact.Queue 2 Off
        ∷ fact.Queue 3 Off ∷ [])
        ≡ true ∷ false ∷ true ∷ true ∷ false ∷ [] }
    ensures filled { (memory : Global) → map
        (is_so (worked_script memory) half_through stopping_key)
        (fact.Filled 0 0 ∷ fact.Filled 0 1 ∷ fact.Filled 2 0 ∷ fact.Filled 2 1 ∷ fact.Filled 2 2
        ∷ fact.Filled 3 1 ∷ [])
        ≡ true ∷ false ∷ true ∷ true ∷ false ∷ false ∷ [] }
{}

/// What is so of entries: any of them is looked for, whichever list it is in.
pub fn facts_of_entries()
    ensures held { (memory : Global) → map
        (λ label. is_so (worked_script memory) half_through stopping_key (fact.Entry label Held))
        (10 ∷ 20 ∷ 21 ∷ 30 ∷ 40 ∷ [])
        ≡ true ∷ true ∷ true ∷ true ∷ false ∷ [] }
    ensures waiting { (memory : Global) → map
        (λ label. is_so (worked_script memory) half_through stopping_key (fact.Entry label Waiting))
        (10 ∷ 21 ∷ 40 ∷ []) ≡ true ∷ false ∷ false ∷ [] }
{}

/// What is so of parties: which watches have come, and who is through. A party that the script does
/// not have is through.
pub fn facts_of_parties()
    ensures came { (memory : Global) → map
        (λ watch. is_so (worked_script memory) half_through stopping_key (fact.Came watch))
        (0 ∷ 1 ∷ 2 ∷ 4 ∷ []) ≡ false ∷ true ∷ false ∷ false ∷ [] }
    ensures clients { (memory : Global) → map
        (λ client. is_so (worked_script memory) half_through stopping_key (fact.Client client))
        (0 ∷ 1 ∷ 2 ∷ []) ≡ true ∷ false ∷ true ∷ [] }
    ensures administrators { (memory : Global) → map (λ administrator. is_so (worked_script memory)
        half_through stopping_key (fact.Administrator administrator)) (0 ∷ 1 ∷ 2 ∷ [])
        ≡ false ∷ true ∷ true ∷ [] }
{}

/// Formulas that hold in a world, and that do not.
pub fn formulas_in_a_world()
    ensures each { (memory : Global) → map
        (λ terms. holds_in_world (worked_script memory) terms half_through_world)
        ((Is (fact.Entry 10 Waiting) ∷ []) ∷ (Is (fact.Entry 40 Held) ∷ [])
        ∷ (Is (fact.Came 1) ∷ Is (fact.Device Off) ∷ Not ∷ Both ∷ []) ∷ [])
        ≡ true ∷ false ∷ true ∷ [] }
{}
