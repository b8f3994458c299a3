//! Laws of what is chosen, each on a function with nothing to do.

ghost use Rattle.std.specs.Prelude.{◌≡◌, ℕ, List, ◌++◌, None, drop, length, false, true};
ghost use Rattle.dsa_base.specs.Lists.{In};
ghost use Rattle.dsa_book.specs.declared.event.Step.{Step};
ghost use Rattle.dsa_book.specs.declared.fate.FateRow.{FateRow};
ghost use Rattle.dsa_book.specs.{Machine.{LeadsTo}, State.{State}, Totals.{is_done}};
ghost use Rattle.dsa_device.specs.Running.{Running};
ghost use Rattle.dsa_scenario.specs.{declared.run.Record.{Record}, Lines.{record_text}, Steps.{Visit}};
ghost use Rattle.dsa_explain_lines.specs.Run.{IsExplanationOf};
ghost use Rattle.dsa_chosen.specs.Run.{AreChosenOf};
ghost use Rattle.dsa_chosen.specs.Selected.{is_step_about, lost_rows};
ghost use Rattle.dsa_chosen.specs.Words.{first_word, is_answer_word};

/// Whatever entry ends with a step, the step is about it; and what a step is said to abort or to
/// abandon ended with it.
pub fn steps_are_about_what_they_end()
    ensures ended { (s s' : State) (step : Step) (row : FateRow)
        → LeadsTo s step.event step.reply s'
        → In row (drop (length s.work.fates) s'.work.fates)
        → is_step_about row.name step s'.work.fates ≡ true }
    ensures lost { (s s' : State) (step : Step)
        → LeadsTo s step.event step.reply s'
        → is_done step.reply ≡ false
        → s'.work.fates ≡ s.work.fates ++ lost_rows step.reply s'.work.fates }
{}

/// Each answer begins with one of the words with which answers are said to begin.
pub fn answers_begin_with_answer_words()
    ensures { (entry : Record) → is_answer_word (first_word (record_text entry)) ≡ true }
{}

/// Where nothing is wanted, the whole explanation is kept.
pub fn nothing_wanted_keeps_all()
    ensures { (steps : List Visit) (last : Running) (text : List ℕ)
        → AreChosenOf (record { name = None; client = None; answers = None }) steps last text
        → IsExplanationOf steps last text }
{}
