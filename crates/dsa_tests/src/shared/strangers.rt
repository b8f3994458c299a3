//! Two shared devices, and a seat of each: a device takes a step of its own seats alone. That the
//! seat of the other does not compile is tried by an edit of this file, in `must-not-compile`.

use dsa_book::DispatchAnswer;
use dsa_shared::{EngineSeat, SharedDevice, Sharing};
use dsa_store::EntryStore;
use std::sync::Wait;

// An engine of the one device asks it for an entry.
pub(crate) fn dispatch_at_home<S: EntryStore, L: Sharing, M: Sharing, R: Wait>(
    rt: &R,
    home: &SharedDevice<S, L>,
    seat: &mut EngineSeat<L>,
    stranger: &mut EngineSeat<M>,
) -> Option<DispatchAnswer> {
    if stranger.number() == seat.number() {
        return None;
    }
    Some(home.dispatch(rt, seat))
}
