//! Laws of explanations that show own names, each on a function with nothing to do.

ghost use Rattle.std.specs.Prelude.{ℕ, List};
ghost use Rattle.serde_json.specs.Data.{Data};
ghost use Rattle.dsa_device.specs.Running.{Running};
ghost use Rattle.dsa_scenario.specs.Steps.{Visit};
ghost use Rattle.dsa_chosen.specs.declared.selection.Selection.{Selection};
ghost use Rattle.dsa_chosen.specs.Run.{AreChosenOf};
ghost use Rattle.dsa_named.specs.{Names.{AreNameless}, Steps.{with_names}};
ghost use Rattle.dsa_named_lines.specs.Run.{AreNamedLinesOf};

/// Where no step object has an own name, the lines are those without names.
pub fn nothing_named_changes_nothing()
    ensures { (objects : List Data) (selection : Selection)
        → (steps : List Visit) (last : Running) (text : List ℕ)
        → AreNameless objects → with_names objects (AreNamedLinesOf selection) steps last text
        → AreChosenOf selection steps last text }
{}
