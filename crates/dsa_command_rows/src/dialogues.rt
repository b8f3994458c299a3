//! Steps of a dialogue, and what is written where it stops.

ghost use Rattle.std.specs.Prelude.{ℕ, ◌∷◌, [], Some, codes, false};
ghost use Rattle.dsa_book.specs.declared.event.Event.TheVariants.{Poll};
ghost use Rattle.dsa_scenario.specs.declared.actions.Action.TheVariants.{Ask};
ghost use Rattle.dsa_scenario.specs.declared.faults.ScenarioFault.TheVariants.{Write};
ghost use Rattle.dsa_scenario.specs.Steps.{visit};
ghost use Rattle.dsa_serve.specs.Answers.{AreStepsOf};
ghost use Rattle.dsa_serve.specs.Dialogue.{IsStopped};
ghost use Rattle.dsa_serve.specs.Requests.{Explain};
ghost use Rattle.dsa_serve.specs.Worked.{polled_record, unseen, with_a_fate};

/// A step that is explained is one of them, and comes behind no other request.
pub fn steps_that_are_explained()
    ensures one_too_many { ¬ AreStepsOf with_a_fate 3 (Explain (Ask Poll) unseen ∷ [])
        (visit 3 with_a_fate polled_record with_a_fate
        ∷ visit 4 with_a_fate polled_record with_a_fate ∷ []) }
{}

/// What is written answers what was read, and not the other way round.
pub fn answers_that_are_read()
    ensures no_document { ¬ IsStopped false Write (Some (codes "ready 0\n")) (Some []) (Some [])
        (Some (codes "{")) }
{}
