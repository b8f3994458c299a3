//! A device on which the parties of a script moved.

ghost use Rattle.std.specs.Prelude.{◌≡◌, ◌≢◌, ◌&&◌, ◌==◌, ℕ, ◌+◌, nat_lt, Some, None, IfOk, IfSome, IfNone};
ghost use Rattle.std.specs.Prelude.{[], drop, true, false, find, length, option_map};
ghost use Rattle.dsa_store.specs.Content.{HeldEntry};
ghost use Rattle.dsa_book.specs.Machine.{next};
ghost use Rattle.dsa_keys.specs.Labels.{with_label};
ghost use Rattle.dsa_keys.specs.Steps.{event_by_label};
ghost use Rattle.dsa_parties.specs.Standing.{stand_of, standing_first};
ghost use Rattle.dsa_device.specs.Running.{after_answer, running_at_first};
ghost use Rattle.dsa_parties.specs.Offers.{bare_offer, has_engine, label_ticket, may_give};
ghost use Rattle.dsa_parties.specs.declared.places.Move.TheVariants as move;
ghost use Rattle.dsa_book.specs.declared.event.Event.TheVariants as event;
ghost use Rattle.dsa_base.specs.Rows.{when};
ghost use Rattle.dsa_explore.specs.declared.walked.Offered.{Offered};
ghost use Rattle.dsa_explore.specs.Asks.{ask_of};
ghost use Rattle.dsa_explore.specs.Ready.{is_filled, CannotFollow, IsOneMore};
ghost use Rattle.dsa_explore.specs.Rows.{labels_of};
ghost use Rattle.dsa_explore.specs.Search.{queue_taken_from};
ghost use Rattle.dsa_explore.specs.Walked.{HasNoDevice, IsOffer};

use crate::found::Ask;
use crate::rows::label_of;
use crate::running::running_on;
use dsa_book::{BatchNote, Event, FateRow, Reply, Ticket};
use dsa_desc::Outcome;
use dsa_device::MakeFault;
use dsa_linked::LinkedDevice;
use dsa_parties::{Move, Places, Script};
use dsa_regs::Caps;
use dsa_store::{Cell, Entry};
use std::alloc::{AllocError, Global};

/// What is explored: the parties of a script, on a device with these capabilities, after the events
/// of a set-up.
#[derive(Clone, Copy)]
pub struct Plan<'a> {
    pub caps: Caps,
    pub script: &'a Script,
    pub setup: &'a [Event],
}

/// A device, the labels of its names, and where the parties stand.
#[derive(Drop)]
pub struct Walked {
    pub machine: LinkedDevice,
    pub labels: Vec<u32>,
    pub places: Places,
}

/// An event by labels, and the label of an entry that it may bring in.
#[derive(Clone, Copy)]
pub struct Offered {
    pub event: Event,
    pub label: u32,
}

/// A new device, with the parties where they begin. `None` where there is none with these
/// capabilities and this capacity.
pub fn new_walked(
    alloc: Global,
    plan: &Plan<'_>,
    capacity: u64,
) -> Result<Option<Box<Walked>>, AllocError>
    ensures first { IfOk result
        (λ found. IfSome found
        (λ walked. walked.value.machine.device ≡ running_at_first plan.now.caps capacity)) }
    ensures no_labels { IfOk result
        (λ found. IfSome found (λ walked. walked.value.labels.items ≡ [])) }
    ensures places { IfOk result
        (λ found. IfSome found
        (λ walked. stand_of walked.value.places ≡ standing_first plan.now.script.now)) }
    ensures some { IfOk result
        (λ found. IfSome found (λ walked. ¬ (HasNoDevice plan.now.caps capacity))) }
    ensures none { IfOk result (λ found. IfNone found (HasNoDevice plan.now.caps capacity)) }
{
    match LinkedDevice::new(alloc, plan.caps, capacity) {
        Ok(machine) => {
            let labels = Vec::new(alloc);
            let places = plan.script.first_places(alloc)?;
            let walked = Box::new(
                alloc,
                Walked {
                    machine,
                    labels,
                    places,
                },
            )?;
            Ok(Some(walked))
        }
        Err(MakeFault::OutOfMemory) => Err(AllocError),
        Err(_) => Ok(None),
    }
}

/// Whether a name was given.
pub fn has_names(machine: &LinkedDevice) -> bool
    ensures { result ≡ nat_lt 0 machine.now.device.state.work.setup.next_name }
{
    machine.device.next_name() > 0
}

// What is asked for and brings in nothing, if the engine makes steps.
fn bare_of(script: &Script, engine: u16, event: Event) -> Option<Offered>
    ensures { option_map (λ (o : Offered). record { event = o.event; label = o.label }) result
        ≡ when (has_engine script.now engine) (bare_offer script.now event) }
{
    if !script.has_engine(engine) {
        return None;
    }
    Some(Offered {
        event,
        label: script.spare_label(),
    })
}

// What a client submits next.
fn client_offer(script: &Script, walked: &Walked, client: u16) -> Option<Offered>
    ensures { IsOffer script.now walked.now (move.Client client) result }
{
    let Some(turn) = script.turn(&walked.places, client) else {
        return None;
    };
    Some(Offered {
        event: turn.event(),
        label: turn.place.next,
    })
}

// What an administrator does next.
fn act_offer(script: &Script, walked: &Walked, administrator: u16) -> Option<Offered>
    ensures { IsOffer script.now walked.now (move.Administrator administrator) result }
{
    let Some(act) = script.act(&walked.places, administrator) else {
        return None;
    };
    Some(Offered {
        event: act.event(),
        label: script.spare_label(),
    })
}

// The member that an engine fetches next.
fn fetch_offer(script: &Script, walked: &Walked, engine: u16) -> Option<Offered>
    ensures { IsOffer script.now walked.now (move.Fetch engine) result }
{
    if !script.has_engine(engine) {
        return None;
    }
    let Some(note) = walked.machine.device.batch(engine) else {
        return None;
    };
    let batch = label_of(walked.labels.as_slice(), note.batch);
    let Some(member) = script.next_member(&BatchNote { batch, ..note }) else {
        return None;
    };
    Some(Offered {
        event: Event::Fetch {
            engine,
            desc: member.desc,
        },
        label: member.label,
    })
}

// The end of an entry, which has its label.
fn finish_offer(script: &Script, engine: u16, label: u32, outcome: Outcome) -> Option<Offered>
    ensures { option_map (λ (o : Offered). record { event = o.event; label = o.label }) result
        ≡ when (has_engine script.now engine && may_give script.now.entries.items label outcome)
        (bare_offer script.now (event.Finish engine (label_ticket label) outcome)) }
{
    if !script.may_give(label, outcome) {
        return None;
    }
    let ticket = Ticket {
        cell: Cell(0),
        name: label,
    };
    let event = Event::Finish {
        engine,
        ticket,
        outcome,
    };
    bare_of(script, engine, event)
}

/// What is asked for by this move, where the parties stand.
pub fn offer(script: &Script, walked: &Walked, by: Move) -> Option<Offered>
    ensures { IsOffer script.now walked.now by result }
{
    match by {
        Move::Client(client) => client_offer(script, walked, client),
        Move::Administrator(administrator) => act_offer(script, walked, administrator),
        Move::Dispatch { engine } => bare_of(script, engine, Event::Dispatch { engine }),
        Move::Fetch { engine } => fetch_offer(script, walked, engine),
        Move::Start { engine } => bare_of(script, engine, Event::Start { engine }),
        Move::Finish {
            engine,
            label,
            outcome,
        } => finish_offer(script, engine, label, outcome),
    }
}

/// The name has this label, which is that of the last name that has one or of the next. False where
/// it is another.
pub fn set_label(labels: &mut Vec<u32>, name: u32, label: u32) -> Result<bool, AllocError>
    ensures set { IfOk result
        (λ is_set. is_set ≡ true → labels_of labels.new.items
        ≡ with_label (labels_of labels.old.items) name label) }
    ensures count { IfOk result (λ is_set. is_set ≡ true → length labels.new.items ≡ name + 1) }
    ensures unset { IfOk result
        (λ is_set. is_set ≡ false
        → (length labels.old.items ≢ name) × (length labels.old.items ≢ name + 1)) }
{
    let name = name as usize;
    if labels.len() == name + 1 {
        labels[name] = label;
        return Ok(true);
    }
    if labels.len() == name {
        labels.push(label)?;
        return Ok(true);
    }
    Ok(false)
}

// Whether the name of the entry has this label.
fn has_label(labels: &[u32], label: u32, pair: &(Cell, Entry)) -> bool
    ensures { result ≡ (labels_of labels.now pair.now.1.name == label) }
{
    label_of(labels, pair.1.name) == label
}

// The first of these entries whose name has the label.
fn find_labelled(labels: &[u32], label: u32, entries: &[(Cell, Entry)]) -> Option<(Cell, Entry)>
    ensures { result
        ≡ find (λ (pair : HeldEntry). labels_of labels.now pair.1.name == label) entries.now }
{
    entries
        .iter()
        .copied()
        .find(|pair| has_label(labels, label, pair))
}

/// The event with the ticket of the running entry that has the label in its place. `None` where
/// none has.
pub fn event_by_label(
    alloc: Global,
    walked: &Walked,
    event: Event,
) -> Result<Option<Event>, AllocError>
    ensures found { IfOk result
        (λ found. IfSome found
        (λ by_name. event_by_label (labels_of walked.now.labels.items)
        walked.now.machine.device.state event
        ≡ Some by_name)) }
    ensures none { IfOk result
        (λ found. IfNone found
        (event_by_label (labels_of walked.now.labels.items) walked.now.machine.device.state event
        ≡ None)) }
{
    let Event::Finish {
        engine,
        ticket,
        outcome,
    } = event
    else {
        return Ok(Some(event));
    };
    let labels = walked.labels.as_slice();
    let running = running_on(alloc, &walked.machine.device, engine)?;
    let Some((cell, entry)) = find_labelled(labels, ticket.name, running.as_slice()) else {
        return Ok(None);
    };
    let ticket = Ticket {
        cell,
        name: entry.name,
    };
    Ok(Some(Event::Finish {
        engine,
        ticket,
        outcome,
    }))
}

/// The step of the event, which takes an entry from the queue if one is named. `None` where it
/// cannot, and where the history has no room.
pub fn step_from(machine: &mut LinkedDevice, event: Event, queue: Option<u16>) -> Option<Reply>
    ensures next { IfSome result
        (λ reply. next machine.old.device.state event reply ≡ Some machine.new.device.state) }
    ensures answered { IfSome result
        (λ reply. after_answer machine.old.device event reply ≡ Some machine.new.device) }
    ensures queue { IfSome result
        (λ reply. (q p : ℕ) → queue ≡ Some q → queue_taken_from reply ≡ Some p → q ≡ p) }
    ensures none { IfNone result
        (is_filled machine.old.device ≡ false
        → CannotFollow machine.old.device.state event queue) }
    ensures room { IfSome result (λ reply. IsOneMore machine.old.device machine.new.device) }
{
    if machine.device.is_full() {
        return None;
    }
    let Some(queue) = queue else {
        let reply = machine.device.step(event);
        return Some(reply);
    };
    let Event::Dispatch { engine } = event else {
        return None;
    };
    let Some(answer) = machine.device.dispatch_from(engine, queue) else {
        return None;
    };
    Some(Reply::Dispatch(answer))
}

/// What ended since so many had.
pub fn ends_since(walked: &Walked, before: usize) -> &[FateRow]
    ensures { result.now ≡ drop before walked.now.machine.device.state.work.fates }
{
    let fates = walked.machine.device.fates();
    if before > fates.len() {
        return &[];
    }
    &fates[before..]
}

/// What the party asks for by this move.
pub fn ask_of(plan: &Plan<'_>, walked: &Walked, by: Move) -> Option<Ask>
    ensures { result ≡ ask_of plan.now.script.now (stand_of walked.now.places) by }
{
    match by {
        Move::Client(client) => {
            let turn = plan.script.turn(&walked.places, client)?;
            Some(Ask::Submission(turn.place.next))
        }
        Move::Administrator(administrator) => {
            let act = plan.script.next_act(&walked.places, administrator)?;
            Some(Ask::Act(act))
        }
        _ => None,
    }
}
