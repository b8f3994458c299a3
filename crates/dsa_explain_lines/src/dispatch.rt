//! Idle engines.

ghost use Rattle.std.specs.{Prelude.{◌≡◌, ◌<◌, cond, codes, flat_map, is_some}, List.{list_any}};
ghost use Rattle.dsa_base.specs.Numbers.{numbers_below};
ghost use Rattle.dsa_event_text.specs.Added.{Adds};
ghost use Rattle.dsa_book.specs.Work.{front_of};
ghost use Rattle.dsa_engines.specs.{Batch.{name_of_entry}, Dispatch.{queue_reason}};
ghost use Rattle.dsa_explain_lines.specs.Parts.{any_reason, dispatch_part, joint, queue_part, queues_part};
ghost use Rattle.dsa_explain_lines.specs.Sentences.{engine_sentence, front_words, queue_sentence};

use crate::keeping::add_queue_keeping;
use crate::words::{
    add_counted, add_counted_twice, add_no_engine, add_no_group, add_no_queue, add_want,
};
use dsa_device::Device;
use dsa_engines::{EngineReason, QueueReason};
use dsa_event_text::{Added, add_count, add_number};
use dsa_store::EntryStore;

/// Adds the sentence of why no queue is looked at for the engine.
pub fn add_engine_reason(text: &mut String, engine: u16, reason: &EngineReason) -> Added
    ensures { Adds result text.old text.new (engine_sentence engine reason.now) }
{
    match *reason {
        EngineReason::NoEngine => add_no_engine(text, engine),
        EngineReason::NoGroup => add_no_group(text, engine),
    }
}

// The front of a queue, by its name, and what it is.
fn add_front(text: &mut String, queue: u16, name: u32, after: &str) -> Added
    ensures { Adds result text.old text.new (front_words queue name after.now) }
{
    add_counted_twice(text, "q", u32::from(queue), "'s front ", name, after)
}

/// Adds the sentence of why an engine does not take the front of the queue, which has this name.
pub fn add_queue_reason(text: &mut String, queue: u16, name: u32, reason: &QueueReason) -> Added
    ensures { Adds result text.old text.new (queue_sentence queue name reason.now) }
{
    match reason {
        QueueReason::Empty => add_counted(text, "q", u32::from(queue), " is empty"),
        QueueReason::NoSlot { used, slots } => {
            add_front(text, queue, name, " waits for a slot, of which ")?;
            add_number(text, "", *used)?;
            add_count(text, " of ", u64::from(*slots), "is in use", "are in use")
        }
        QueueReason::NoBuffers(want) => {
            add_front(text, queue, name, " ")?;
            add_want(text, want)
        }
        QueueReason::OtherBatch { batch } => {
            add_front(text, queue, name, " is a batch")?;
            add_counted(text, ", and the engine works on batch ", *batch, "")
        }
        QueueReason::OtherDrain { drain } => {
            add_front(text, queue, name, " is a drain")?;
            add_counted(
                text,
                ", and drain ",
                *drain,
                " is in progress on the engine",
            )
        }
    }
}

/// The name of the front of the queue.
pub fn front_name<S: EntryStore>(device: &Device<S>, queue: u16) -> u32
    requires { queue < device.now.caps.queues }
    ensures { result ≡ name_of_entry (front_of device.now.state.work queue) }
{
    device.state_is_replay();
    match device.waiting_at(queue, 0) {
        Some((_, entry)) => entry.name,
        None => 0,
    }
}

/// Whether a queue below this number has a reason.
pub fn any_reason<S: EntryStore>(device: &Device<S>, engine: u16, queues: u16) -> bool
    ensures { result ≡ any_reason device.now.state.work engine queues }
{
    for queue in 0..queues {
        if device.queue_reason(engine, queue).is_some() {
            return true;
        }
    }
    false
}

// What stands before the queue's reason: the mark, or what joins it to one before.
fn joint<S: EntryStore>(device: &Device<S>, engine: u16, queue: u16) -> &'static str
    ensures { result.now ≡ joint device.now.state.work engine queue }
{
    if any_reason(device, engine, queue) {
        "; "
    } else {
        ": "
    }
}

// The reason of the queue, where it has one.
fn add_queue<S: EntryStore>(text: &mut String, device: &Device<S>, engine: u16, queue: u16) -> Added
    requires { queue < device.now.caps.queues }
    ensures { Adds result text.old text.new (queue_part device.now.state.work engine queue) }
{
    let Some(reason) = device.queue_reason(engine, queue) else {
        return Ok(());
    };
    text.push_str(joint(device, engine, queue))?;
    add_queue_reason(text, queue, front_name(device, queue), &reason)?;
    add_queue_keeping(text, device, &reason)
}

// The reason of each queue of the engine's group.
fn add_queues<S: EntryStore>(text: &mut String, device: &Device<S>, engine: u16) -> Added
    ensures { Adds result text.old text.new
        (flat_map (queue_part device.now.state.work engine)
        (numbers_below device.now.caps.queues)) }
{
    for queue in 0..device.caps().queues {
        add_queue(text, device, engine, queue)?;
    }
    Ok(())
}

// The reason of each queue of the group of an idle engine, or that the group has no queue.
fn add_queues_part<S: EntryStore>(text: &mut String, device: &Device<S>, engine: u16) -> Added
    ensures { Adds result text.old text.new (queues_part device.now.state.work engine) }
{
    device.state_is_replay();
    if any_reason(device, engine, device.caps().queues) {
        return add_queues(text, device, engine);
    }
    text.push_str(": ")?;
    add_no_queue(text, engine)
}

/// Adds why the engine takes nothing: its own reason, or that of each queue of its group.
pub fn add_dispatch_part<S: EntryStore>(text: &mut String, device: &Device<S>, engine: u16) -> Added
    ensures { Adds result text.old text.new (dispatch_part device.now.state.work engine) }
{
    device.state_is_replay();
    let Some(reason) = device.engine_reason(engine) else {
        return add_queues_part(text, device, engine);
    };
    text.push_str(": ")?;
    add_engine_reason(text, engine, &reason)
}
