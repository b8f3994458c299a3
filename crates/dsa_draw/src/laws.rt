//! Laws of drawings, each on a function with nothing to do.

ghost use Rattle.std.specs.Prelude.{◌≡◌, ◌++◌, [], ℕ, List, codes, decimal, map};
ghost use Rattle.serde_json.specs.Data.{Data};
ghost use Rattle.dsa_device.specs.Running.{Running};
ghost use Rattle.dsa_scenario.specs.Steps.{Visit};
ghost use Rattle.dsa_explain_lines.specs.Lines.{explanation_of_step};
ghost use Rattle.dsa_named.specs.{Names.{AreNameless}, Steps.{NamedVisit, named_visit, with_names}};
ghost use Rattle.dsa_named_lines.specs.Lines.{line_with_names};
ghost use Rattle.dsa_draw.specs.declared.{moment.Moment.{Moment}, range.StepRange.{StepRange}};
ghost use Rattle.dsa_draw.specs.{Columns.{step_words}, Drawings.{IsDrawnOf}, Moments.{IsMomentOf}};

/// The line of an explanation is the number of the step, and then the words that are the title of
/// its column; both show the own names of the entries that they mention.
pub fn titles_explain_steps()
    ensures named { (named : NamedVisit) (moment : Moment)
        → IsMomentOf named moment
        → line_with_names named
        ≡ decimal named.step.number ++ codes " " ++ (step_words moment ++ codes "\n") }
    ensures nameless { (step : Visit) (moment : Moment)
        → IsMomentOf (named_visit [] step) moment
        → explanation_of_step step
        ≡ decimal step.number ++ codes " " ++ (step_words moment ++ codes "\n") }
{}

/// Where no step object has an own name, the drawing is that of steps without names.
pub fn nothing_named_changes_nothing()
    ensures { (objects : List Data) (range : StepRange)
        → (steps : List Visit) (last : Running) (text : List ℕ)
        → AreNameless objects → with_names objects (IsDrawnOf range) steps last text
        → IsDrawnOf range (map (named_visit []) steps) last text }
{}
