//! One step that goes on in any case: as was seen, where that is allowed, and else as the device
//! does.

ghost use Rattle.std.specs.Prelude.{◌≡◌, ◌==◌, false, Ok, IfOk, length};
ghost use Rattle.dsa_book.specs.declared.event.Event.TheVariants as event;
ghost use Rattle.dsa_scenario.specs.Run.{answered_by, Leads};
ghost use Rattle.dsa_conform.specs.Seen.{seen_as, shows};
ghost use Rattle.dsa_conform.specs.Allowed.{IsClosest};

use crate::following::take;
use crate::observed::Observed;
use crate::offering::{asked_engine, find_shown};
use crate::shown::is_shown;
use dsa_book::Event;
use dsa_device::Device;
use dsa_scenario::{Asked, Record, ask};
use dsa_store::EntryStore;
use std::alloc::{AllocError, Global};

/// What a device answered, and whether that shows what was seen.
#[derive(Clone, Copy, Debug, PartialEq, Eq)]
pub struct Closest {
    pub entry: Record,
    pub is_shown: bool,
}

// The device's own answer.
fn ask_closest<S: EntryStore>(
    alloc: Global,
    device: &mut Device<S>,
    asked: &Asked,
    seen: &Observed<'_>,
) -> Result<Closest, AllocError>
    ensures gone { IfOk result
        (λ it. (answered_by it.entry ≡ asked.now) × Leads device.old it.entry device.new) }
    ensures shown { IfOk result (λ it. it.is_shown ≡ shows (seen_as seen.now) it.entry) }
{
    let entry = ask(device, asked);
    let is_shown = is_shown(alloc, seen, &entry)?;
    Ok(Closest { entry, is_shown })
}

// A dispatch: the engine takes from the first queue where that shows what was seen.
fn dispatch_closest<S: EntryStore>(
    alloc: Global,
    device: &mut Device<S>,
    engine: u16,
    seen: &Observed<'_>,
) -> Result<Closest, AllocError>
    requires { (length device.old.history == device.old.capacity) ≡ false }
    ensures closest { IfOk result
        (λ it. IsClosest device.old (Ok (event.Dispatch engine)) (seen_as seen.now) device.new
        it.entry) }
    ensures shown { IfOk result (λ it. it.is_shown ≡ shows (seen_as seen.now) it.entry) }
{
    if let Some(queue) = find_shown(alloc, device, engine, seen)? {
        let entry = take(device, engine, queue);
        return Ok(Closest {
            entry,
            is_shown: true,
        });
    }
    ask_closest(alloc, device, &Ok(Event::Dispatch { engine }), seen)
}

/// Goes on by an answer that is allowed and shows what was seen, and where none does, by the
/// device's own. If nothing was seen, that is the device's own too.
pub fn follow_closest<S: EntryStore>(
    alloc: Global,
    device: &mut Device<S>,
    asked: &Asked,
    seen: &Observed<'_>,
) -> Result<Closest, AllocError>
    ensures closest { IfOk result
        (λ it. IsClosest device.old asked.now (seen_as seen.now) device.new it.entry) }
    ensures shown { IfOk result (λ it. it.is_shown ≡ shows (seen_as seen.now) it.entry) }
{
    if !seen.is_seen() {
        return ask_closest(alloc, device, asked, seen);
    }
    let Some(engine) = asked_engine(asked) else {
        return ask_closest(alloc, device, asked, seen);
    };
    if device.is_full() {
        return ask_closest(alloc, device, asked, seen);
    }
    dispatch_closest(alloc, device, engine, seen)
}
