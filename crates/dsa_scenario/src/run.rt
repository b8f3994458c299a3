//! What a document's actions come to on a device.

ghost use Rattle.std.specs.Prelude.{◌≡◌, ◌++◌, [], ◌∷◌, OnOk, slice_get, filter_map};
ghost use Rattle.dsa_book.specs.declared.event.Event.{Event};
ghost use Rattle.dsa_scenario.specs.Run.{ticket_given_by, ticket_of_name, event_of, answered_by, IsTable, Leads};

use crate::actions::{Action, BadWord};
use dsa_book::{Event, FetchAnswer, Reply, Step, SubmitAnswer, Ticket};
use dsa_desc::Outcome;
use dsa_device::Device;
use dsa_store::{Cell, EntryStore};
use std::alloc::AllocError;

/// What became of one step object.
#[derive(Clone, Copy, Debug, PartialEq, Eq)]
pub enum Record {
    /// The device was asked and answered.
    Stepped(Step),
    /// The word is no command.
    Refused(BadWord),
}

#[inline(always)]
fn ticket_given(entry: &Record) -> Option<Ticket>
    ensures { result ≡ ticket_given_by entry.now }
{
    match entry {
        Record::Stepped(step) => match step.reply {
            Reply::Submit(SubmitAnswer::Accepted(ticket)) => Some(ticket),
            Reply::Fetch(FetchAnswer::Fetched(ticket)) => Some(ticket),
            _ => None,
        },
        Record::Refused(_) => None,
    }
}

// The ticket under which the name was given: names are given in turn, and so it stands at its
// name's place.
#[inline(always)]
fn ticket_for(tickets: &[Ticket], name: u32) -> Ticket
    ensures { (before : _)
        → IsTable (slice_get tickets.now) before
        → result ≡ ticket_of_name before name }
{
    let unknown = Ticket {
        cell: Cell(0),
        name,
    };
    tickets.get(name as usize).copied().unwrap_or(unknown)
}

/// Notes the ticket that this record gives.
#[inline(always)]
pub fn note_ticket(tickets: &mut Vec<Ticket>, entry: &Record) -> Result<(), AllocError>
    ensures { OnOk result
        (tickets.new.items ≡ tickets.old.items ++ filter_map ticket_given_by (entry.now ∷ [])) }
{
    if let Some(ticket) = ticket_given(entry) {
        tickets.push(ticket)?;
    }
    Ok(())
}

// The end of the entry with this name. A call of its own keeps the other events in one piece.
#[inline(never)]
fn finish_of(tickets: &[Ticket], engine: u16, name: u32, outcome: Outcome) -> Event
    ensures { (before : _)
        → IsTable (slice_get tickets.now) before
        → result ≡ Event.Finish engine (ticket_of_name before name) outcome }
{
    Event::Finish {
        engine,
        ticket: ticket_for(tickets, name),
        outcome,
    }
}

/// The event that the action asks for, or the refusal of its word. The tickets stand at the places
/// of their names.
#[inline(always)]
pub fn event_for(tickets: &[Ticket], action: Action) -> Result<Event, BadWord>
    ensures { (before : _)
        → IsTable (slice_get tickets.now) before
        → result ≡ event_of before action }
{
    match action {
        Action::Ask(event) => Ok(event),
        Action::Finish {
            engine,
            name,
            outcome,
        } => Ok(finish_of(tickets, engine, name, outcome)),
        Action::Refuse(word) => Err(word),
    }
}

/// Asks the device for the event. The refusal of a word asks nothing of it.
#[inline(always)]
pub fn ask<S: EntryStore>(device: &mut Device<S>, asked: &Result<Event, BadWord>) -> Record
    ensures answers { answered_by result ≡ asked.now }
    ensures leads { Leads device.old result device.new }
{
    match *asked {
        Ok(event) => {
            let reply = device.step(event);
            Record::Stepped(Step { event, reply })
        }
        Err(word) => Record::Refused(word),
    }
}
