//! One step by what was seen of it.

ghost use Rattle.std.specs.Prelude.{◌≡◌, ◌==◌, true, false, Some, Ok, IfOk, length};
ghost use Rattle.dsa_book.specs.declared.event.Event.TheVariants as event;
ghost use Rattle.dsa_book.specs.Work.{qualifies};
ghost use Rattle.dsa_scenario.specs.Run.{Leads};
ghost use Rattle.dsa_conform.specs.Seen.{seen_as};
ghost use Rattle.dsa_conform.specs.Allowed.{HasOneAnswer, IsFollowed, offer};

use crate::observed::Observed;
use crate::offering::{asked_engine, find_shown, offers};
use crate::shown::is_shown;
use dsa_book::{Event, Reply, Step};
use dsa_device::Device;
use dsa_scenario::{Asked, Record, ask};
use dsa_store::EntryStore;
use std::alloc::{AllocError, Global};

/// What became of a step of which something was seen.
#[derive(Drop)]
pub enum Followed {
    /// The device answered so, and that shows what was seen.
    Shown(Record),
    /// None of the answers that are allowed shows what was seen: these are all, but for the cell of
    /// an entry that comes in.
    Differs(Vec<Record>),
}

// A step that has one answer, but for the cell of an entry that comes in.
fn follow_only<S: EntryStore>(
    alloc: Global,
    device: &mut Device<S>,
    asked: &Asked,
    seen: &Observed<'_>,
) -> Result<Followed, AllocError>
    requires { HasOneAnswer device.old asked.now }
    ensures { IfOk result
        (λ followed. IsFollowed device.old asked.now (seen_as seen.now) device.new followed) }
{
    let entry = ask(device, asked);
    if is_shown(alloc, seen, &entry)? {
        return Ok(Followed::Shown(entry));
    }
    Ok(Followed::Differs(vec![in alloc; entry]?))
}

/// The engine takes from the queue.
pub fn take<S: EntryStore>(device: &mut Device<S>, engine: u16, queue: u16) -> Record
    requires room { (length device.old.history == device.old.capacity) ≡ false }
    requires qualifies { qualifies device.old.state.work engine queue ≡ true }
    ensures offered { offer device.old.state.work engine queue ≡ Some result }
    ensures leads { Leads device.old result device.new }
{
    let Some(answer) = device.dispatch_from(engine, queue) else {
        unreachable!();
    };
    Record::Stepped(Step {
        event: Event::Dispatch { engine },
        reply: Reply::Dispatch(answer),
    })
}

// A dispatch: the engine takes from the first queue where that shows what was seen.
fn follow_engine<S: EntryStore>(
    alloc: Global,
    device: &mut Device<S>,
    engine: u16,
    seen: &Observed<'_>,
) -> Result<Followed, AllocError>
    ensures { IfOk result
        (λ followed. IsFollowed device.old (Ok (event.Dispatch engine)) (seen_as seen.now)
        device.new followed) }
{
    if device.is_full() {
        return follow_only(alloc, device, &Ok(Event::Dispatch { engine }), seen);
    }
    if let Some(queue) = find_shown(alloc, device, engine, seen)? {
        return Ok(Followed::Shown(take(device, engine, queue)));
    }
    let found = offers(alloc, device, engine)?;
    if found.as_slice().is_empty() {
        return follow_only(alloc, device, &Ok(Event::Dispatch { engine }), seen);
    }
    Ok(Followed::Differs(found))
}

/// Goes on by an answer that is allowed and shows what was seen, or tells all that are allowed
/// where none does.
pub fn follow<S: EntryStore>(
    alloc: Global,
    device: &mut Device<S>,
    asked: &Asked,
    seen: &Observed<'_>,
) -> Result<Followed, AllocError>
    ensures { IfOk result
        (λ followed. IsFollowed device.old asked.now (seen_as seen.now) device.new followed) }
{
    let Some(engine) = asked_engine(asked) else {
        return follow_only(alloc, device, asked, seen);
    };
    follow_engine(alloc, device, engine, seen)
}
