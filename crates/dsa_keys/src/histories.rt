//! Laws of histories: what each state that a history leads to keeps of the mark of its active
//! command, and that the key law speaks of it.

ghost use Rattle.std.specs.Prelude.{List};
ghost use Rattle.dsa_regs.specs.declared.Caps.{Caps};
ghost use Rattle.dsa_book.specs.declared.event.Step.{Step};
ghost use Rattle.dsa_book.specs.State.{State};
ghost use Rattle.dsa_book.specs.Machine.{Reaches};
ghost use Rattle.dsa_keys.specs.Labels.{Labels, HasDistinctLabels};
ghost use Rattle.dsa_keys.specs.Marks.{HasLawfulMark};
ghost use Rattle.dsa_keys.specs.Steps.{IsLabelled};

/// The mark of the active command is a name that was given, or the next one.
pub fn marks_are_given_names()
    ensures { (caps : Caps) (history : List Step) (s : State)
        → Reaches caps history s
        → HasLawfulMark s }
{}

/// Each state that a history leads to is labelled by any labels that tell its names apart.
pub fn histories_lead_to_labelled_states()
    ensures { (caps : Caps) (labels : Labels) (history : List Step) (s : State)
        → Reaches caps history s
        → HasDistinctLabels labels s
        → IsLabelled caps labels s }
{}
