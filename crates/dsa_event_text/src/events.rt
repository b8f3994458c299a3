//! Events in words.

ghost use Rattle.std.specs.Prelude.{◌≡◌, ◌++◌, codes};
ghost use Rattle.std.specs.Fmt.{decimal};
ghost use Rattle.dsa_event_text.specs.Added.{Adds};
ghost use Rattle.dsa_event_text.specs.Text.{descriptor_text, event_text, instruction_text, outcome_label, portal_label};

use crate::Added;
use crate::commands::add_command;
use crate::descriptors::add_descriptor;
use crate::numbers::add_number;
use dsa_book::{Event, Kind, Portal};
use dsa_desc::{Descriptor, Outcome};

/// A PASID has 20 bits (Intel DSA specification, descriptor format).
const PASIDS: u32 = 1 << 20;

/// The word of a portal.
pub fn portal_label(portal: Portal) -> &'static str
    ensures { result.now ≡ portal_label portal }
{
    match portal {
        Portal::Limited => "limited",
        Portal::Unlimited => "unlimited",
    }
}

fn outcome_label(outcome: Outcome) -> &'static str
    ensures { result.now ≡ outcome_label outcome }
{
    match outcome {
        Outcome::Success => "success",
        Outcome::PageFault => "page-fault",
    }
}

fn add_kind(text: &mut String, kind: Kind) -> Added
    ensures { Adds result text.old text.new (instruction_text kind) }
{
    match kind {
        Kind::Enqcmd { pasid } => add_number(text, "enqcmd pasid ", pasid % PASIDS),
        Kind::Movdir64b => text.push_str("movdir"),
    }
}

// The queue, the portal and the instruction of a submission.
fn add_portal(text: &mut String, queue: u16, portal: Portal, kind: Kind) -> Added
    ensures { Adds result text.old text.new
        (codes "submit q" ++ decimal queue ++ codes " " ++ portal_label portal ++ codes " "
        ++ instruction_text kind) }
{
    add_number(text, "submit q", u32::from(queue))?;
    text.push_str(" ")?;
    text.push_str(portal_label(portal))?;
    text.push_str(" ")?;
    add_kind(text, kind)
}

// A word, a number and a descriptor.
fn add_described(text: &mut String, word: &str, number: u16, desc: &Descriptor) -> Added
    ensures { Adds result text.old text.new
        (word.now ++ decimal number ++ codes " " ++ descriptor_text desc.now) }
{
    add_number(text, word, u32::from(number))?;
    text.push_str(" ")?;
    add_descriptor(text, desc)
}

fn add_finish(text: &mut String, engine: u16, name: u32, outcome: Outcome) -> Added
    ensures { Adds result text.old text.new
        (codes "finish e" ++ decimal engine ++ codes " name " ++ decimal name ++ codes " "
        ++ outcome_label outcome) }
{
    add_number(text, "finish e", u32::from(engine))?;
    add_number(text, " name ", name)?;
    text.push_str(" ")?;
    text.push_str(outcome_label(outcome))
}

/// Adds the words of an event.
pub fn add_event(text: &mut String, event: &Event) -> Added
    ensures { Adds result text.old text.new (event_text event.now) }
{
    match event {
        Event::Submit {
            client,
            queue,
            portal,
            kind,
            desc,
        } => {
            add_portal(text, *queue, *portal, *kind)?;
            add_described(text, " client ", *client, desc)
        }
        Event::Dispatch { engine } => add_number(text, "dispatch e", u32::from(*engine)),
        Event::Fetch { engine, desc } => add_described(text, "fetch e", *engine, desc),
        Event::Start { engine } => add_number(text, "start e", u32::from(*engine)),
        Event::Finish {
            engine,
            ticket,
            outcome,
        } => add_finish(text, *engine, ticket.name, *outcome),
        Event::Issue { command } => {
            text.push_str("command ")?;
            add_command(text, command)
        }
        Event::Poll => text.push_str("poll"),
        Event::WriteQueue { queue, .. } => add_number(text, "write queue ", u32::from(*queue)),
        Event::WriteGroup { group, .. } => add_number(text, "write group ", u32::from(*group)),
        Event::ClearError => text.push_str("clear"),
    }
}
