//! How reports and dialogues stop.

ghost use Rattle.std.specs.Prelude.{◌≡◌, ⊤, ℕ, ◌∷◌, [], List, Option, Some, codes, false};
ghost use Rattle.dsa_scenario.specs.declared.faults.ScenarioFault.{ScenarioFault};
ghost use Rattle.dsa_scenario.specs.declared.faults.ScenarioFault.TheVariants.{Write};
ghost use Rattle.dsa_serve.specs.Dialogue.{IsStopped};
ghost use Rattle.dsa_cli.specs.CommandLine.{IsServeStopped, IsServeStoppedIn};
ghost use Rattle.dsa_cli.specs.Endings.{IsStoppedOnTheWay};
ghost use Rattle.dsa_cli.specs.Worked.{option_row};
ghost use Rattle.dsa_cli.specs.declared.reports.Written.TheVariants.{Strict};

/// A writer that refuses may have taken some of a text that is written on the way.
pub fn writers_that_refuse()
    ensures cut { IsStoppedOnTheWay Write (λ _ _ _ _. ⊤) (λ _ _ _ _. ⊥) (Some []) (Some [])
        (λ n. Some (n ∷ [])) 3 4 }
{}

/// A dialogue whose writer refuses may have written answers, and it is written as the options say.
pub fn dialogues_that_stop()
    ensures written { (had left : Option (List ℕ))
        → IsStopped false Write had left (Some (3 ∷ [])) (Some (4 ∷ []))
        → IsServeStoppedIn Strict Write had left (λ n. Some (n ∷ [])) 3 4 }
    ensures strictly { (fault : ScenarioFault) (had left : Option (List ℕ)) (old new : ℕ)
        (stopped : IsServeStopped (option_row (codes "friendly") (codes "false")) fault had left
        (λ n. Some (n ∷ [])) old new)
        → stopped.0 ≡ Strict }
{}
