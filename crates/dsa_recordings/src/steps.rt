//! Step objects.

ghost use Rattle.dsa_book.specs.declared.event.Event.TheVariants as event;
ghost use Rattle.std.specs.Prelude.{◌≡◌, ◌++◌, codes, flat_map};
ghost use Rattle.dsa_event_text.specs.Added.{Adds};
ghost use Rattle.dsa_scenario.specs.Actions.{kind_text};
ghost use Rattle.dsa_recordings.specs.Recordings.{fields_of_event, is_limited, kind_of_event};
ghost use Rattle.dsa_recordings.specs.Recordings.{members_of_step, word_or_none};
ghost use Rattle.dsa_recordings.specs.Texts.{further_member, object_text};

use crate::members::{add_desc, add_number_at, add_truth_at};
use dsa_book::{Event, Kind, Portal, Step, Ticket};
use dsa_desc::{Descriptor, Outcome};
use dsa_event_text::Added;
use dsa_regs::{Command, GroupConfig, QueueConfig};
use dsa_scenario::{Record, StepKind, add_answer};

fn is_limited(portal: Portal) -> bool
    ensures { result ≡ is_limited portal }
{
    match portal {
        Portal::Limited => true,
        Portal::Unlimited => false,
    }
}

fn word_or_none(command: Command) -> u32
    ensures { result ≡ word_or_none command }
{
    command.word().unwrap_or(0)
}

fn kind_of_event(event: &Event) -> StepKind
    ensures { result ≡ kind_of_event event.now }
{
    match event {
        Event::Submit {
            kind: Kind::Enqcmd { .. },
            ..
        } => StepKind::Enqcmd,
        Event::Submit {
            kind: Kind::Movdir64b,
            ..
        } => StepKind::Movdir,
        Event::Dispatch { .. } => StepKind::Dispatch,
        Event::Fetch { .. } => StepKind::Fetch,
        Event::Start { .. } => StepKind::Start,
        Event::Finish { .. } => StepKind::Finish,
        Event::Issue { .. } => StepKind::Command,
        Event::Poll => StepKind::Poll,
        Event::WriteQueue { .. } => StepKind::Queue,
        Event::WriteGroup { .. } => StepKind::Group,
        Event::ClearError => StepKind::Clear,
    }
}

fn add_queue(text: &mut String, queue: u16, config: QueueConfig) -> Added
    ensures { Adds result text.old text.new
        (flat_map further_member (fields_of_event (event.WriteQueue queue config))) }
{
    add_number_at(text, "queue", u64::from(queue))?;
    add_number_at(text, "size", u64::from(config.size))?;
    add_number_at(text, "threshold", u64::from(config.threshold))?;
    add_truth_at(text, "dedicated", config.dedicated)?;
    add_number_at(text, "priority", u64::from(config.priority))?;
    add_number_at(text, "pasid", u64::from(config.pasid))?;
    add_number_at(text, "batch", u64::from(config.max_batch_shift))?;
    add_number_at(text, "xfer", u64::from(config.max_xfer_shift))
}

fn add_group(text: &mut String, group: u16, config: GroupConfig) -> Added
    ensures { Adds result text.old text.new
        (flat_map further_member (fields_of_event (event.WriteGroup group config))) }
{
    add_number_at(text, "group", u64::from(group))?;
    add_number_at(text, "queues", config.queues)?;
    add_number_at(text, "engines", config.engines)?;
    add_number_at(text, "reserved", u64::from(config.reserved))?;
    add_number_at(text, "allowed", u64::from(config.allowed))
}

fn add_submission(
    text: &mut String,
    client: u16,
    queue: u16,
    portal: Portal,
    kind: Kind,
    desc: Descriptor,
) -> Added
    ensures { Adds result text.old text.new
        (flat_map further_member (fields_of_event (event.Submit client queue portal kind desc))) }
{
    add_number_at(text, "client", u64::from(client))?;
    add_number_at(text, "queue", u64::from(queue))?;
    add_truth_at(text, "limited", is_limited(portal))?;
    match kind {
        Kind::Enqcmd { pasid } => {
            add_number_at(text, "pasid", u64::from(pasid))?;
            add_desc(text, desc)
        }
        Kind::Movdir64b => add_desc(text, desc),
    }
}

fn add_fetch(text: &mut String, engine: u16, desc: Descriptor) -> Added
    ensures { Adds result text.old text.new
        (flat_map further_member (fields_of_event (event.Fetch engine desc))) }
{
    add_number_at(text, "engine", u64::from(engine))?;
    add_desc(text, desc)
}

fn add_finish(text: &mut String, engine: u16, ticket: Ticket, outcome: Outcome) -> Added
    ensures { Adds result text.old text.new
        (flat_map further_member (fields_of_event (event.Finish engine ticket outcome))) }
{
    add_number_at(text, "engine", u64::from(engine))?;
    add_number_at(text, "name", u64::from(ticket.name))?;
    add_truth_at(text, "fault", matches!(outcome, Outcome::PageFault))
}

// The keys of the event's kind, with their values.
fn add_fields(text: &mut String, event: Event) -> Added
    ensures { Adds result text.old text.new (flat_map further_member (fields_of_event event)) }
{
    match event {
        Event::Submit {
            client,
            queue,
            portal,
            kind,
            desc,
        } => { add_submission(text, client, queue, portal, kind, desc) }
        Event::Dispatch { engine } | Event::Start { engine } => {
            add_number_at(text, "engine", u64::from(engine))
        }
        Event::Fetch { engine, desc } => add_fetch(text, engine, desc),
        Event::Finish {
            engine,
            ticket,
            outcome,
        } => add_finish(text, engine, ticket, outcome),
        Event::Issue { command } => {
            add_number_at(text, "word", u64::from(word_or_none(command)))
        }
        Event::WriteQueue { queue, config } => add_queue(text, queue, config),
        Event::WriteGroup { group, config } => add_group(text, group, config),
        Event::Poll | Event::ClearError => Ok(()),
    }
}

/// Adds a step object, with the answer.
pub fn add_step(text: &mut String, step: &Step) -> Added
    ensures { Adds result text.old text.new (object_text (members_of_step step.now)) }
{
    text.push_str("{\"do\":\"")?;
    text.push_str(kind_of_event(&step.event).name())?;
    text.push_str("\"")?;
    add_fields(text, step.event)?;
    text.push_str(",\"answer\":\"")?;
    add_answer(text, &Record::Stepped(*step))?;
    text.push_str("\"}")
}
