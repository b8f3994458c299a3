//! The queues that an engine may take from.

ghost use Rattle.std.specs.Prelude.{◌≡◌, ◌⊎◌, ◌<◌, ◌++◌, ◌∷◌, [], ℕ, OnOk, IfOk, MatchOption, Some, Ok, ◌==◌, length, true, false, filter_map};
ghost use Rattle.dsa_scenario.specs.declared.run.Record.{Record};
ghost use Rattle.dsa_base.specs.Lists.{In};
ghost use Rattle.dsa_book.specs.declared.event.Event.TheVariants as event;
ghost use Rattle.dsa_book.specs.Work.{qualifies};
ghost use Rattle.dsa_conform.specs.Allowed.{IsNoDispatch, offer, offers};
ghost use Rattle.dsa_conform.specs.Ways.{IsFork};
ghost use Rattle.dsa_conform.specs.Seen.{seen_as, shows};

use crate::observed::Observed;
use crate::shown::is_shown;
use dsa_book::{DispatchAnswer, Event, Reply, Step};
use dsa_device::Device;
use dsa_scenario::{Asked, Record};
use dsa_store::EntryStore;
use std::alloc::{AllocError, Global};

/// The answer that the front of the queue is taken, where the engine may take it.
pub fn offer<S: EntryStore>(device: &Device<S>, engine: u16, queue: u16) -> Option<Record>
    ensures { result ≡ offer device.now.state.work engine queue }
{
    let ticket = device.offered(engine, queue)?;
    Some(Record::Stepped(Step {
        event: Event::Dispatch { engine },
        reply: Reply::Dispatch(DispatchAnswer::Taken { ticket, queue }),
    }))
}

// Adds the answer of the queue, where it has one.
fn add_offer<S: EntryStore>(
    found: &mut Vec<Record>,
    device: &Device<S>,
    engine: u16,
    queue: u16,
) -> Result<(), AllocError>
    ensures { OnOk result
        (found.new.items
        ≡ found.old.items ++ filter_map (offer device.now.state.work engine) (queue ∷ [])) }
{
    if let Some(entry) = offer(device, engine, queue) {
        found.push(entry)?;
    }
    Ok(())
}

/// An answer for each queue that the engine may take from.
pub fn offers<S: EntryStore>(
    alloc: Global,
    device: &Device<S>,
    engine: u16,
) -> Result<Vec<Record>, AllocError>
    ensures { IfOk result (λ found. found.items ≡ offers device.now.state.work engine) }
{
    device.state_is_replay();
    let mut found = Vec::new(alloc);
    for queue in 0..device.caps().queues {
        add_offer(&mut found, device, engine, queue)?;
    }
    Ok(found)
}

/// The first queue whose front the engine may take, where that shows what was seen.
pub fn find_shown<S: EntryStore>(
    alloc: Global,
    device: &Device<S>,
    engine: u16,
    seen: &Observed<'_>,
) -> Result<Option<u16>, AllocError>
    ensures { IfOk result
        (λ first. MatchOption first
        ((q : ℕ)
        → (entry : Record) → q < device.now.state.work.setup.caps.queues
        → offer device.now.state.work engine q ≡ Some entry
        → shows (seen_as seen.now) entry ≡ false)
        (λ q. (entry : Record)
        × (offer device.now.state.work engine q ≡ Some entry)
        × (shows (seen_as seen.now) entry ≡ true)
        × ((p : ℕ)
        → (other : Record) → p < q
        → offer device.now.state.work engine p ≡ Some other
        → shows (seen_as seen.now) other ≡ false))) }
{
    device.state_is_replay();
    for queue in 0..device.caps().queues {
        if let Some(entry) = offer(device, engine, queue) {
            if is_shown(alloc, seen, &entry)? {
                return Ok(Some(queue));
            }
        }
    }
    Ok(None)
}

/// The engine that is asked to take an entry.
pub fn asked_engine(asked: &Asked) -> Option<u16>
    ensures { MatchOption result (IsNoDispatch asked.now)
        (λ engine. asked.now ≡ Ok (event.Dispatch engine)) }
{
    match *asked {
        Ok(Event::Dispatch { engine }) => Some(engine),
        _ => None,
    }
}

// Adds the queue, where its front may be taken and that shows what was seen.
fn add_shown<S: EntryStore>(
    alloc: Global,
    found: &mut Vec<u16>,
    device: &Device<S>,
    engine: u16,
    queue: u16,
    seen: &Observed<'_>,
) -> Result<(), AllocError>
    ensures keeps { OnOk result ((q : ℕ) → In q found.old.items → In q found.new.items) }
    ensures each { OnOk result ((q : ℕ)
        → In q found.new.items
        → In q found.old.items
        ⊎ ((entry : Record)
        × (offer device.now.state.work engine q ≡ Some entry)
        × (shows (seen_as seen.now) entry ≡ true))) }
    ensures adds { OnOk result ((entry : Record)
        → offer device.now.state.work engine queue ≡ Some entry
        → shows (seen_as seen.now) entry ≡ true
        → In queue found.new.items) }
{
    let Some(entry) = offer(device, engine, queue) else {
        return Ok(());
    };
    if !is_shown(alloc, seen, &entry)? {
        return Ok(());
    }
    found.push(queue)?;
    Ok(())
}

// The queues whose front the engine may take, where that shows what was seen.
fn shown_queues<S: EntryStore>(
    alloc: Global,
    device: &Device<S>,
    engine: u16,
    seen: &Observed<'_>,
) -> Result<Vec<u16>, AllocError>
    ensures all { IfOk result (λ found. (q : ℕ) → (entry : Record)
        → q < device.now.state.work.setup.caps.queues
        → offer device.now.state.work engine q ≡ Some entry
        → shows (seen_as seen.now) entry ≡ true
        → In q found.items) }
    ensures each { IfOk result (λ found. (q : ℕ)
        → In q found.items
        → (entry : Record)
        × (offer device.now.state.work engine q ≡ Some entry)
        × (shows (seen_as seen.now) entry ≡ true)) }
{
    device.state_is_replay();
    let mut found = Vec::new(alloc);
    for queue in 0..device.caps().queues {
        add_shown(alloc, &mut found, device, engine, queue, seen)?;
    }
    Ok(found)
}

// Whether the engine may take from more than one queue.
fn has_choice<S: EntryStore>(device: &Device<S>, engine: u16) -> bool
    ensures { result ≡ false → (q p : ℕ)
        → q < device.now.state.work.setup.caps.queues
        → p < device.now.state.work.setup.caps.queues
        → qualifies device.now.state.work engine q ≡ true
        → qualifies device.now.state.work engine p ≡ true
        → q ≡ p }
{
    device.state_is_replay();
    let mut first = None;
    for queue in 0..device.caps().queues {
        if device.offered(engine, queue).is_some() {
            if first.is_some() {
                return true;
            }
            first = Some(queue);
        }
    }
    false
}

// The queues that show what was seen, where there are more than one.
fn dispatch_fork<S: EntryStore>(
    alloc: Global,
    device: &Device<S>,
    engine: u16,
    seen: &Observed<'_>,
) -> Result<Vec<u16>, AllocError>
    requires { (length device.now.history == device.now.capacity) ≡ false }
    ensures { IfOk result
        (λ queues. IsFork device.now (Ok (event.Dispatch engine)) (seen_as seen.now)
        queues.items) }
{
    let none = Vec::new(alloc);
    if !has_choice(device, engine) {
        return Ok(none);
    }
    let queues = shown_queues(alloc, device, engine, seen)?;
    if queues.as_slice().len() < 2 {
        return Ok(none);
    }
    Ok(queues)
}

/// The queues that an engine may have taken from, where there are more than one.
pub fn fork<S: EntryStore>(
    alloc: Global,
    device: &Device<S>,
    asked: &Asked,
    seen: &Observed<'_>,
) -> Result<Vec<u16>, AllocError>
    ensures { IfOk result
        (λ queues. IsFork device.now asked.now (seen_as seen.now) queues.items) }
{
    let none = Vec::new(alloc);
    let Some(engine) = asked_engine(asked) else {
        return Ok(none);
    };
    if device.is_full() {
        return Ok(none);
    }
    dispatch_fork(alloc, device, engine, seen)
}
