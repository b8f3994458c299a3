//! What the lock keeps.

ghost use Rattle.std.specs.Prelude.{◌≡◌, false};
ghost use Rattle.dsa_laws.specs.Refusals.{EachHasItsCause};
ghost use Rattle.dsa_laws.specs.WellFormed.{IsWellFormed};
ghost use Rattle.dsa_device.specs.Running.{IsReplay};

use crate::blanks::Sharing;
use crate::locked::Locked;
use dsa_store::EntryStore;

/// What holds whenever the lock is free, for a caller to name: the history of the device did not
/// begin anew, its state is the replay of its history, which is legal and within its capacity, it
/// is well formed, and each submission of the history was refused for a cause exactly where its
/// queue turned it away for this cause. The call does nothing.
pub fn state_is_replay<S: EntryStore, L: Sharing>(locked: &Locked<S, L>)
    ensures replay { IsReplay locked.now }
    ensures well_formed { IsWellFormed locked.now.caps locked.now.state }
    ensures refusals { EachHasItsCause locked.now.caps locked.now.history }
    ensures not_anew { locked.now.anew ≡ false }
    ensures named { (locked.now.caps ≡ L.caps) × (locked.now.capacity ≡ L.capacity) }
{
    locked.device.state_is_replay();
}
