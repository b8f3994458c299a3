//! Which member of a batch failed.

ghost use Rattle.std.specs.Prelude.{◌≡◌, ℕ, List, Option, Some, true, is_some};
ghost use Rattle.dsa_regs.specs.declared.Caps.{Caps};
ghost use Rattle.dsa_book.specs.declared.event.Step.{Step};
ghost use Rattle.dsa_book.specs.State.{State};
ghost use Rattle.dsa_book.specs.Machine.{Reaches};
ghost use Rattle.dsa_book.specs.Work.{has_failed_member};
ghost use Rattle.dsa_engines.specs.declared.reasons.StartReason.TheVariants.{Failed};
ghost use Rattle.dsa_engines.specs.Batch.{failed_member, start_reason};

/// In every state that a history leads to, where a member of an engine's batch was not successful
/// the fates name one, and so does the reason why the rest is abandoned.
pub fn failed_members_are_named()
    ensures named { (caps : Caps) (history : List Step) (s : State) (engine : ℕ)
        → Reaches caps history s
        → has_failed_member s.work engine ≡ true
        → is_some (failed_member s.work engine) ≡ true }
    ensures told { (caps : Caps) (history : List Step) (s : State) (engine : ℕ)
        (member left : ℕ) (failed : Option ℕ)
        → Reaches caps history s
        → start_reason s.work engine ≡ Some (Failed member failed left)
        → is_some failed ≡ true }
{}
