//! Laws of traces that show own names, each on a function with nothing to do.

ghost use Rattle.std.specs.Prelude.{◌≡◌, ℕ, List, [], ◌∷◌, ◌++◌};
ghost use Rattle.serde_json.specs.Data.{Data};
ghost use Rattle.dsa_device.specs.Running.{Running};
ghost use Rattle.dsa_scenario.specs.Steps.{Visit};
ghost use Rattle.dsa_named.specs.{Names.{AreNameless, Own}, Steps.{with_names}};
ghost use Rattle.dsa_trace.specs.declared.form.{Part.TheVariants.{LineEnd}, Trace.{Trace}};
ghost use Rattle.dsa_trace.specs.{Lines.{trace_line_of_step}, Marks.{mark}, Run.{IsTraceOf}};
ghost use Rattle.dsa_named_trace.specs.{Lines.{noted_line, trace_note}, Run.{IsNamedTraceOf}};

/// Where no step object has an own name, the text is the trace without names.
pub fn nothing_named_traces_the_same()
    ensures { (objects : List Data) (form : Trace)
        → (steps : List Visit) (last : Running) (text : List ℕ)
        → AreNameless objects → with_names objects (IsNamedTraceOf form) steps last text
        → IsTraceOf form steps last text }
{}

/// A line with own names is the line of the trace with a note before its end.
pub fn names_come_before_the_end()
    ensures { (form : Trace) (step : Visit) (own : Own) (more : List Own)
        → (front : List ℕ)
        × (trace_line_of_step form step ≡ front ++ mark form LineEnd)
        × (noted_line form (own ∷ more) (trace_line_of_step form step)
        ≡ front ++ trace_note form (own ∷ more) ++ mark form LineEnd) }
{}
