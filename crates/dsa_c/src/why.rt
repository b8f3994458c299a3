//! Why the device behind a handle would answer an event as it does. Nothing changes.

ghost use Rattle.std.specs.Prelude.{◌≡◌, ℕ, true, [], IfOk, drop, string_bytes, is_some};
ghost use Rattle.std.specs.List.{list_any};
ghost use Rattle.dsa_base.specs.Numbers.{numbers_below};
ghost use Rattle.dsa_event_text.specs.Added.{Adds};
ghost use Rattle.dsa_book.specs.declared.answer.Reply.TheVariants as reply;
ghost use Rattle.dsa_book.specs.declared.answer.DispatchAnswer.{DispatchAnswer};
ghost use Rattle.dsa_book.specs.declared.event.Event.TheVariants.{Dispatch};
ghost use Rattle.dsa_book.specs.Work.{qualifies};
ghost use Rattle.dsa_device.specs.Running.{Running, after_answer};
ghost use Rattle.dsa_explain_lines.specs.Lines.{is_taken_by};
ghost use Rattle.dsa_c.specs.Buffers.{with_text_for_c};
ghost use Rattle.dsa_c.specs.Events.{event_from_c};
ghost use Rattle.dsa_c.specs.Why.{IsToldIn, is_taking, reason_asked, reason_part};

use crate::buffers::write_text;
use crate::events::{DeviceEvent, event_from_c};
use crate::handle::{Handle, let_device};
use crate::numbers::{NO_MEMORY, NONE};
use dsa_book::Event;
use dsa_device::Device;
use dsa_event_text::Added;
use dsa_explain_lines::add_part;
use dsa_store::EntryStore;
use std::alloc::{AllocError, Global};

/// Whether the engine may take the front of the queue.
pub(crate) fn may_take<S: EntryStore>(device: &Device<S>, engine: u16, queue: u16) -> bool
    ensures { result ≡ qualifies device.now.state.work engine queue }
{
    device.offered(engine, queue).is_some()
}

// Whether the engine may take the front of a queue below this number.
fn has_offer<S: EntryStore>(device: &Device<S>, engine: u16, queues: u16) -> bool
    ensures { result ≡ list_any (qualifies device.now.state.work engine) (numbers_below queues) }
{
    for queue in 0..queues {
        if may_take(device, engine, queue) {
            return true;
        }
    }
    false
}

/// Whether the event is a dispatch that takes an entry.
pub(crate) fn is_taking<S: EntryStore>(device: &Device<S>, event: &Event) -> bool
    ensures { result ≡ is_taking device.now event.now }
{
    device.state_is_replay();
    match *event {
        Event::Dispatch { engine } => {
            !device.is_full() && has_offer(device, engine, device.caps().queues)
        }
        _ => false,
    }
}

// A dispatch is said to take an entry exactly where it takes one, whatever the device may answer.
#[allow(dead_code)]
fn dispatches_take_as_is_said()
    ensures { (now : Running) (engine : ℕ) (answer : DispatchAnswer)
        → is_some (after_answer now (Dispatch engine) (reply.Dispatch answer)) ≡ true
        → is_taking now (Dispatch engine) ≡ is_taken_by (reply.Dispatch answer) }
{}

// Adds what a line of `explain` would tell behind the answer to the event.
fn add_reason<S: EntryStore>(text: &mut String, device: &Device<S>, event: &Event) -> Added
    ensures { Adds result text.old text.new (reason_part device.now event.now) }
{
    if is_taking(device, event) {
        return Ok(());
    }
    add_part(text, device, &Ok(*event))
}

fn reason_part<S: EntryStore>(
    alloc: Global,
    device: &Device<S>,
    event: &Event,
) -> Result<String, AllocError>
    ensures { IfOk result (λ part. string_bytes part ≡ reason_part device.now event.now) }
{
    let mut part = String::new(alloc);
    add_reason(&mut part, device, event)?;
    Ok(part)
}

// What stands behind the mark of a part.
fn words_of(part: &[u8]) -> &[u8]
    ensures { result.now ≡ drop 2 part.now }
{
    if part.len() < 2 {
        return &part[part.len()..];
    }
    &part[2..]
}

// Writes no text, for the cause of this number.
fn tell_nothing(number: u64, places: &mut [u8]) -> u64
    ensures number { result ≡ number }
    ensures empty { places.new ≡ with_text_for_c places.old [] }
{
    write_text(b"", places);
    number
}

/// Writes why a step of the event would be answered as it would, as far as there is room.
#[unsafe(no_mangle)]
pub extern "C" fn dsa_why(
    alloc: Global,
    handle: &mut Handle,
    event: &DeviceEvent,
    buffer: &mut [u8],
) -> u64
    ensures told { IsToldIn (reason_asked handle.old.place.machine (event_from_c event.now))
        result buffer.old buffer.new }
    ensures kept { handle.new.place.machine ≡ handle.old.place.machine }
{
    let Some(event) = event_from_c(event) else {
        return tell_nothing(NONE, buffer);
    };
    let_device!(device, handle, tell_nothing(NONE, buffer));
    let Ok(part) = reason_part(alloc, device, &event) else {
        return tell_nothing(NO_MEMORY, buffer);
    };
    let words = words_of(part.as_bytes());
    write_text(words, buffer);
    words.len() as u64
}
