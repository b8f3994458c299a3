//! A law of the fates in a line, on a function with nothing to do.

ghost use Rattle.std.specs.Prelude.{◌≡◌, ◌++◌};
ghost use Rattle.dsa_book.specs.declared.event.Step.{Step};
ghost use Rattle.dsa_book.specs.{Machine.{LeadsTo}, State.{State}};
ghost use Rattle.dsa_scenario.specs.declared.run.Record.TheVariants.{Stepped};
ghost use Rattle.dsa_trace.specs.Ended.{ended_rows};

/// The fates in the line of a step are exactly those that the step added to the fates before it.
pub fn lines_have_the_fates_that_steps_added()
    ensures { (s s' : State) (step : Step)
        → LeadsTo s step.event step.reply s'
        → s'.work.fates ≡ s.work.fates ++ ended_rows (Stepped step) s'.work.fates }
{}
