//! Laws of logs, each on a function with nothing to do.

ghost use Rattle.std.specs.Prelude.{◌≡◌, ℕ, ◌+◌, ◌≤◌, List, ◌++◌, length, Some, true};
ghost use Rattle.dsa_regs.specs.declared.Caps.{Caps};
ghost use Rattle.dsa_book.specs.declared.event.Step.{Step};
ghost use Rattle.dsa_book.specs.State.{State};
ghost use Rattle.dsa_book.specs.Machine.{is_run, replay, stored_steps};
ghost use Rattle.dsa_keys.specs.Labels.{Labels};
ghost use Rattle.dsa_keys.specs.Parties.{Made, World, world_after_all};
ghost use Rattle.dsa_parties.specs.declared.places.Move.{Move};
ghost use Rattle.dsa_parties.specs.declared.script.Script.{Script};
ghost use Rattle.dsa_parties.specs.Good.{first_world};
ghost use Rattle.dsa_parties.specs.Offers.{parties_of};
ghost use Rattle.dsa_parties.specs.Standing.{Standing};
ghost use Rattle.dsa_obeys.specs.Obeys.{Obeys};
ghost use Rattle.dsa_obeys.specs.Walks.{IsObeyingRun, IsWalkOf};

/// Each run that obeys a script, after a set-up that let nothing in, is a walk of the script's
/// parties, made by the same parties for the same. Left out are steps that change nothing: an
/// engine's for what is not there, and those for which the history has no room.
pub fn runs_are_walks()
    ensures { (caps : Caps) (capacity : ℕ) (script : Script) (labels : Labels)
        (before steps : List Step) (s s' : State)
        → is_run caps capacity (before ++ steps) ≡ true
        → replay caps (stored_steps before) ≡ Some s
        → s.work.setup.next_name ≡ 0
        → (obeying : Obeys script s steps)
        → replay caps (stored_steps (before ++ steps)) ≡ Some s'
        → IsWalkOf script (first_world script labels s) obeying.log s' }
{}

/// Each walk of a script's parties from the end of such a set-up leaves a log that obeys the
/// script. Where the history has room for all its steps, they are a run to the state at its end.
pub fn walks_are_runs()
    ensures { (caps : Caps) (capacity : ℕ) (script : Script) (labels : Labels)
        (before : List Step) (s : State) (moves : List (Made Move)) (last : World Standing)
        → is_run caps capacity before ≡ true
        → replay caps (stored_steps before) ≡ Some s
        → s.work.setup.next_name ≡ 0
        → length before + length moves ≤ capacity
        → world_after_all (parties_of script) (first_world script labels s) moves ≡ Some last
        → IsObeyingRun caps capacity script before (first_world script labels s) moves last }
{}
