//! Why an engine does not take what an answer that was seen says.

ghost use Rattle.std.specs.Prelude.{◌≡◌, ◌<◌, IfOk, IfSome, nat_eq, slice_get};
ghost use Rattle.std.specs.List.{ends_with};
ghost use Rattle.dsa_event_text.specs.Added.{Adds};
ghost use Rattle.dsa_book.specs.Work.{front_of};
ghost use Rattle.dsa_engines.specs.Batch.{name_of_entry};
ghost use Rattle.dsa_engines.specs.Dispatch.{engine_reason, queue_reason};
ghost use Rattle.dsa_conform.specs.Allowed.{offer, offers};
ghost use Rattle.dsa_conform.specs.Against.{dispatch_fact, idle_fact, name_of_reply, name_taken, ends_with_queue, queue_fact, queue_named, taken_fact};

use crate::facts::{add_front_is, add_may_take, add_not_of_group, add_queue_count};
use crate::offering::{offer, offers};
use crate::way::queue_of_record;
use dsa_book::{DispatchAnswer, Reply};
use dsa_device::Device;
use dsa_event_text::{Added, add_number};
use dsa_explain_lines::{add_engine_reason, add_queue_keeping, add_queue_reason};
use dsa_scenario::Record;
use dsa_store::EntryStore;
use std::alloc::{AllocError, Global};

fn name_of_reply(reply: &Reply) -> u32
    ensures { result ≡ name_of_reply reply.now }
{
    match reply {
        Reply::Dispatch(DispatchAnswer::Taken { ticket, .. }) => ticket.name,
        _ => 0,
    }
}

// The name of the entry that is taken, and of any other answer 0.
fn name_taken(entry: &Record) -> u32
    ensures { result ≡ name_taken entry.now }
{
    match entry {
        Record::Stepped(step) => name_of_reply(&step.reply),
        Record::Refused(_) => 0,
    }
}

// Whether the text ends with the other.
fn has_end(text: &str, end: &str) -> bool
    ensures { result ≡ ends_with nat_eq text.now end.now }
{
    text.ends_with(end)
}

// Whether the text ends with this queue.
fn ends_with_queue(alloc: Global, text: &str, queue: u16) -> Result<bool, AllocError>
    ensures { IfOk result (λ named. named ≡ ends_with_queue text.now queue) }
{
    let mut end = String::new(alloc);
    add_number(&mut end, " from ", u32::from(queue))?;
    Ok(has_end(text, end.as_str()))
}

// The queue below this number that the text ends with.
fn queue_named(alloc: Global, queues: u16, text: &str) -> Result<Option<u16>, AllocError>
    ensures named { IfOk result (λ named. named ≡ queue_named queues text.now) }
    ensures below { IfOk result (λ named. IfSome named (λ queue. queue < queues)) }
{
    for queue in 0..queues {
        let named = ends_with_queue(alloc, text, queue)?;
        if named {
            return Ok(Some(queue));
        }
    }
    Ok(None)
}

// The name of the front of the queue.
fn front_name<S: EntryStore>(device: &Device<S>, queue: u16) -> u32
    requires { queue < device.now.caps.queues }
    ensures { result ≡ name_of_entry (front_of device.now.state.work queue) }
{
    device.state_is_replay();
    device.waiting_at(queue, 0).map_or(0, |pair| pair.1.name)
}

// Why the engine does not take another entry than it may, or none, from this queue.
fn add_queue_fact<S: EntryStore>(
    text: &mut String,
    device: &Device<S>,
    engine: u16,
    queue: u16,
) -> Added
    requires { queue < device.now.caps.queues }
    ensures { Adds result text.old text.new
        (queue_fact device.now.state.work engine queue (offer device.now.state.work engine queue)
        (queue_reason device.now.state.work engine queue)) }
{
    if let Some(entry) = offer(device, engine, queue) {
        return add_front_is(text, queue, name_taken(&entry));
    }
    let Some(reason) = device.queue_reason(engine, queue) else {
        return add_not_of_group(text, queue, device.group_of(engine).unwrap_or(0));
    };
    add_queue_reason(text, queue, front_name(device, queue), &reason)?;
    add_queue_keeping(text, device, &reason)
}

// Why the engine does not take the entry that the text says.
fn add_taken_fact<S: EntryStore>(
    alloc: Global,
    text: &mut String,
    device: &Device<S>,
    engine: u16,
    seen: &str,
) -> Added
    ensures { Adds result text.old text.new
        (taken_fact device.now.state.work engine (engine_reason device.now.state.work engine)
        (queue_named device.now.state.work.setup.caps.queues seen.now)) }
{
    device.state_is_replay();
    if let Some(reason) = device.engine_reason(engine) {
        return add_engine_reason(text, engine, &reason);
    }
    match queue_named(alloc, device.caps().queues, seen)? {
        Some(queue) => add_queue_fact(text, device, engine, queue),
        None => add_queue_count(text, device.caps().queues),
    }
}

// What an idle engine might take first.
fn add_idle_fact<S: EntryStore>(
    alloc: Global,
    text: &mut String,
    device: &Device<S>,
    engine: u16,
) -> Added
    ensures { Adds result text.old text.new
        (idle_fact engine (slice_get (offers device.now.state.work engine) 0)) }
{
    let found = offers(alloc, device, engine)?;
    match found.as_slice().first() {
        Some(entry) => {
            let queue = queue_of_record(entry).unwrap_or(0);
            add_may_take(text, engine, name_taken(entry), queue)
        }
        None => Ok(()),
    }
}

/// Adds why the engine does not take what the text says.
pub fn add_dispatch_fact<S: EntryStore>(
    alloc: Global,
    text: &mut String,
    device: &Device<S>,
    engine: u16,
    seen: &str,
) -> Added
    ensures { Adds result text.old text.new
        (dispatch_fact device.now.state.work engine seen.now) }
{
    if seen == "idle" {
        return add_idle_fact(alloc, text, device, engine);
    }
    add_taken_fact(alloc, text, device, engine, seen)
}
