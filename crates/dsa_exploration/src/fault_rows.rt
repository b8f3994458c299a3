//! Worked rows: what is told after a search, on a function with nothing to do.

ghost use Rattle.std.specs.Prelude.{◌≡◌, ◌∷◌, [], None, Some, map, true, false};
ghost use Rattle.dsa_scenario.specs.declared.faults.ScenarioFault.TheVariants.{Broken, Incomplete};
ghost use Rattle.dsa_exploration.specs.Exploration.{fault_of_search};

/// A search that is not complete is told, and a broken question before that.
pub fn told_after_searches()
    ensures each { map (fault_of_search None) (true ∷ false ∷ []) ≡ None ∷ Some Incomplete ∷ [] }
    ensures broken { map (fault_of_search (Some 3)) (true ∷ false ∷ [])
        ≡ Some (Broken 3) ∷ Some (Broken 3) ∷ [] }
{}
