//! A device that answers as was seen, and others like it that take from other queues.

ghost use Rattle.std.specs.Prelude.{◌≡◌, ◌++◌, ◌∷◌, [], ◌+◌, ◌==◌, ◌≤◌, ℕ, List, Ok, Some, true, false, OnOk, IfOk, map, take, length, min, cond, is_some};
ghost use Rattle.dsa_scenario.specs.declared.actions.Action.{Action};
ghost use Rattle.dsa_scenario.specs.Run.{answered_by, Leads};
ghost use Rattle.dsa_book.specs.Work.{qualifies};
ghost use Rattle.dsa_conform.specs.Allowed.{offer};
ghost use Rattle.dsa_conform.specs.Seen.{Seen, seen_as};
ghost use Rattle.dsa_conform.specs.Run.{AreAllRead, IsFollowedTo};
ghost use Rattle.dsa_conform.specs.AsSeen.{IsStepMade};
ghost use Rattle.dsa_conform.specs.Sights.{steps_counted};
ghost use Rattle.dsa_conform.specs.Ways.{IsWayBy, queue_of_reply, queue_of_record, queues_taken};
ghost use Rattle.dsa_regs.specs.declared.Caps.{Caps};
ghost use Rattle.dsa_book.specs.declared.event.Event.TheVariants as event;

use crate::observed::Observed;
use crate::shown::is_shown;
use crate::sights::{Sights, step_at};
use dsa_book::{DispatchAnswer, Event, Reply, Step, Ticket};
use dsa_cells::LinkedStore;
use dsa_device::Device;
use dsa_scenario::{Action, Asked, Head, Record, Run, ask, event_for, note_ticket, open_run};
use dsa_store::EntryStore;
use std::alloc::{AllocError, Global};

/// A device that answers as was seen so far, and the tickets that it gave, by name.
#[derive(Drop)]
pub struct Way {
    pub device: Device<LinkedStore>,
    pub tickets: Vec<Ticket>,
}

/// A device that was asked nothing yet.
pub fn first_way(alloc: Global, head: &Head<'_>) -> Result<Way, AllocError>
    ensures { IfOk result
        (λ way. IsFollowedTo head.now.caps head.now.capacity [] 0 way.device way.tickets.items) }
{
    let Ok(run) = open_run::<LinkedStore>(alloc, head) else {
        return Err(AllocError);
    };
    let Run { device, tickets } = run;
    Ok(Way { device, tickets })
}

// The queue that the answer tells an entry to be taken from.
fn queue_of_reply(reply: &Reply) -> Option<u16>
    ensures { result ≡ queue_of_reply reply.now }
{
    match reply {
        Reply::Dispatch(DispatchAnswer::Taken { queue, .. }) => Some(*queue),
        _ => None,
    }
}

/// The same of a record.
pub fn queue_of_record(entry: &Record) -> Option<u16>
    ensures { result ≡ queue_of_record entry.now }
{
    match entry {
        Record::Stepped(step) => queue_of_reply(&step.reply),
        Record::Refused(_) => None,
    }
}

// Adds the queue that the step took an entry from.
fn add_queue(queues: &mut Vec<u16>, step: &Step) -> Result<(), AllocError>
    ensures { OnOk result
        (queues.new.items ≡ queues.old.items ++ queues_taken (step.now ∷ [])) }
{
    if let Some(queue) = queue_of_reply(&step.reply) {
        queues.push(queue)?;
    }
    Ok(())
}

/// The queues that these steps took entries from, in turn.
pub fn queues_taken(alloc: Global, steps: &[Step]) -> Result<Vec<u16>, AllocError>
    ensures { IfOk result (λ queues. queues.items ≡ queues_taken steps.now) }
{
    let mut queues = Vec::new(alloc);
    for step in steps {
        add_queue(&mut queues, step)?;
    }
    Ok(queues)
}

// Asks an engine to take an entry: from this queue, where it may.
fn take_or_ask<S: EntryStore>(device: &mut Device<S>, engine: u16, queue: u16) -> Record
    ensures answers { answered_by result ≡ Ok (event.Dispatch engine) }
    ensures leads { Leads device.old result device.new }
    ensures taken { (length device.old.history == device.old.capacity) ≡ false
        → qualifies device.old.state.work engine queue ≡ true
        → offer device.old.state.work engine queue ≡ Some result }
{
    let event = Event::Dispatch { engine };
    match device.dispatch_from(engine, queue) {
        Some(answer) => Record::Stepped(Step {
            event,
            reply: Reply::Dispatch(answer),
        }),
        None => ask(device, &Ok(event)),
    }
}

// Asks the device for the event. Where it is to take an entry, it takes from the queue if it may.
fn ask_for<S: EntryStore>(device: &mut Device<S>, asked: &Asked, queue: Option<u16>) -> Record
    ensures answers { answered_by result ≡ asked.now }
    ensures leads { Leads device.old result device.new }
    ensures taken { (engine : ℕ) → (from : ℕ) → asked.now ≡ Ok (event.Dispatch engine)
        → queue ≡ Some from
        → (length device.old.history == device.old.capacity) ≡ false
        → qualifies device.old.state.work engine from ≡ true
        → offer device.old.state.work engine from ≡ Some result }
{
    match (*asked, queue) {
        (Ok(Event::Dispatch { engine }), Some(queue)) => take_or_ask(device, engine, queue),
        _ => ask(device, asked),
    }
}

/// One step more, by an entry of this queue where one is taken.
///
/// The queues are those of a device that has answered as was seen, so this one does too. If it did
/// not, that is told as memory that is refused.
pub fn step_again(
    alloc: Global,
    way: &mut Way,
    queue: Option<u16>,
    action: Action,
    seen: &Observed<'_>,
) -> Result<Record, AllocError>
    ensures made { IfOk result (λ entry. IsStepMade way.old.device way.old.tickets.items action
        (seen_as seen.now) entry way.new.device way.new.tickets.items) }
    ensures follows { IfOk result (λ entry. (caps : Caps)
        → (capacity : ℕ) → (done : List (Action × Seen)) → (number : ℕ)
        → IsFollowedTo caps capacity done number way.old.device way.old.tickets.items
        → IsFollowedTo caps capacity (done ++ (action, seen_as seen.now) ∷ []) (number + 1)
        way.new.device way.new.tickets.items) }
{
    let asked = event_for(&way.tickets, action);
    let entry = ask_for(&mut way.device, &asked, queue);
    note_ticket(&mut way.tickets, &entry)?;
    if !is_shown(alloc, seen, &entry)? {
        return Err(AllocError);
    }
    Ok(entry)
}

/// One more entry was taken, where the answer tells so.
pub fn count_taken(taken: usize, entry: &Record) -> usize
    ensures { result ≡ min (taken + cond (is_some (queue_of_record entry.now)) 1 0) usize.MAX }
{
    match queue_of_record(entry) {
        Some(_) => taken.saturating_add(1),
        None => taken,
    }
}

// Whether the device took from these queues in turn.
fn took_from(alloc: Global, way: &Way, choices: &[u16]) -> Result<bool, AllocError>
    ensures { IfOk result
        (λ same. same ≡ true → queues_taken way.now.device.history ≡ choices.now) }
{
    let queues = queues_taken(alloc, way.device.history())?;
    Ok(queues.as_slice() == choices)
}

/// A device that goes the first steps as they were seen, and takes from these queues in turn.
pub fn walk_again(
    alloc: Global,
    sights: &Sights<'_>,
    count: usize,
    choices: &[u16],
) -> Result<Way, AllocError>
    requires inside { count ≤ length sights.now.head.now.steps.now }
    requires read { AreAllRead (steps_counted sights.now) }
    ensures { IfOk result
        (λ way. IsWayBy sights.now.head.now.caps sights.now.head.now.capacity
        (steps_counted sights.now) count choices.now way) }
{
    let mut way = first_way(alloc, sights.head)?;
    let mut taken = 0;
    for i in 0..count {
        let Some((action, seen)) = step_at(sights, i) else {
            unreachable!();
        };
        let queue = choices.get(taken).copied();
        let entry = step_again(alloc, &mut way, queue, action, &seen)?;
        taken = count_taken(taken, &entry);
    }
    if !took_from(alloc, &way, choices)? {
        return Err(AllocError);
    }
    Ok(way)
}
