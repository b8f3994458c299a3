//! What a line tells behind an answer.

ghost use Rattle.std.specs.Prelude.{◌≡◌, ◌++◌, codes};
ghost use Rattle.dsa_event_text.specs.Added.{Adds};
ghost use Rattle.dsa_book.specs.Machine.{intake_of};
ghost use Rattle.dsa_queues.specs.{Submission.{submit_reason}, Write.{clear_reason, write_group_reason, write_queue_reason}};
ghost use Rattle.dsa_admin.specs.Command.{poll_reason};
ghost use Rattle.dsa_engines.specs.Batch.{fetch_reason};
ghost use Rattle.dsa_explain.specs.Done.{done_reason};
ghost use Rattle.dsa_explain.specs.Held.{awaited_entry};
ghost use Rattle.dsa_explain_lines.specs.Sentences.{clear_sentence, done_sentence, fetch_sentence, no_engine, poll_sentence, submit_sentence, write_sentence};
ghost use Rattle.dsa_explain_lines.specs.Parts.{event_part, finish_part, full_part, issue_part, names_part, no_command_part, part_of, reserved_part, start_part, told_of};

use crate::commands::{add_issue_reason, add_poll_reason};
use crate::dispatch::add_dispatch_part;
use crate::ended::add_unended;
use crate::ends::add_done_reason;
use crate::engines::{add_fetch_reason, add_start_reason};
use crate::keeping::add_start_keeping;
use crate::removals::add_deed_part;
use crate::submissions::add_submit_reason;
use crate::words::add_no_engine;
use crate::writes::{add_clear_reason, add_write_reason};
use dsa_book::{Event, Kind, Portal, Ticket};
use dsa_desc::Outcome;
use dsa_device::{Device, WriteReason};
use dsa_event_text::{Added, add_count, add_number};
use dsa_explain::{awaited_entry, done_reason};
use dsa_regs::{Command, CommandWord};
use dsa_scenario::Asked;
use dsa_store::EntryStore;
use std::fmt::Write;

fn add_submit_part<S: EntryStore>(
    text: &mut String,
    device: &Device<S>,
    queue: u16,
    portal: Portal,
    kind: Kind,
) -> Added
    ensures { Adds result text.old text.new
        (told_of (submit_sentence queue)
        (submit_reason (intake_of device.now.state) queue portal kind)) }
{
    let Some(reason) = device.why_submit(queue, portal, kind) else {
        return Ok(());
    };
    text.push_str(": ")?;
    add_submit_reason(text, queue, &reason)
}

fn add_fetch_part<S: EntryStore>(text: &mut String, device: &Device<S>, engine: u16) -> Added
    ensures { Adds result text.old text.new
        (told_of (fetch_sentence engine) (fetch_reason device.now.state.work engine)) }
{
    let Some(reason) = device.fetch_reason(engine) else {
        return Ok(());
    };
    text.push_str(": ")?;
    add_fetch_reason(text, engine, &reason)
}

fn add_missing_engine(text: &mut String, engine: u16) -> Added
    ensures { Adds result text.old text.new (codes ": " ++ no_engine engine) }
{
    text.push_str(": ")?;
    add_no_engine(text, engine)
}

fn add_start_part<S: EntryStore>(text: &mut String, device: &Device<S>, engine: u16) -> Added
    ensures { Adds result text.old text.new (start_part device.now.state.work engine) }
{
    device.state_is_replay();
    if engine >= device.caps().engines {
        return add_missing_engine(text, engine);
    }
    let Some(reason) = device.start_reason(engine) else {
        return Ok(());
    };
    text.push_str(": ")?;
    add_start_reason(text, engine, &reason)?;
    add_start_keeping(text, device, &reason)
}

// Why an entry ends without success, where it does.
fn add_done_part<S: EntryStore>(
    text: &mut String,
    device: &Device<S>,
    engine: u16,
    ticket: Ticket,
    outcome: Outcome,
) -> Added
    ensures { Adds result text.old text.new
        (told_of done_sentence (done_reason device.now.state.work engine ticket outcome)) }
{
    let Some(reason) = done_reason(device, engine, ticket, outcome) else {
        return Ok(());
    };
    text.push_str(": ")?;
    add_done_reason(text, &reason)
}

fn add_finish_part<S: EntryStore>(
    text: &mut String,
    device: &Device<S>,
    engine: u16,
    ticket: Ticket,
    outcome: Outcome,
) -> Added
    ensures { Adds result text.old text.new
        (finish_part device.now.state.work engine ticket outcome) }
{
    let Some(reason) = device.finish_reason(engine, ticket) else {
        return add_done_part(text, device, engine, ticket, outcome);
    };
    text.push_str(": ")?;
    add_unended(text, device, engine, ticket, &reason)
}

fn add_issue_part<S: EntryStore>(text: &mut String, device: &Device<S>, command: Command) -> Added
    ensures { Adds result text.old text.new (issue_part device.now.state command) }
{
    let Some(reason) = device.why_issue(command) else {
        return add_deed_part(text, device, &command);
    };
    text.push_str(": ")?;
    add_issue_reason(text, &awaited_entry(device), &reason)
}

fn add_poll_part<S: EntryStore>(text: &mut String, device: &Device<S>) -> Added
    ensures { Adds result text.old text.new
        (told_of (poll_sentence (awaited_entry device.now.state)) (poll_reason device.now.state)) }
{
    let Some(reason) = device.why_poll() else {
        return Ok(());
    };
    text.push_str(": ")?;
    add_poll_reason(text, &awaited_entry(device), &reason)
}

// Why a configuration is refused, where it is.
fn add_write_part(text: &mut String, one: &str, many: &str, reason: &Option<WriteReason>) -> Added
    ensures { Adds result text.old text.new (told_of (write_sentence one.now many.now) reason.now) }
{
    let Some(reason) = reason else {
        return Ok(());
    };
    text.push_str(": ")?;
    add_write_reason(text, one, many, reason)
}

fn add_clear_part<S: EntryStore>(text: &mut String, device: &Device<S>) -> Added
    ensures { Adds result text.old text.new
        (told_of clear_sentence (clear_reason device.now.state.work.setup.noted)) }
{
    let Some(reason) = device.why_clear() else {
        return Ok(());
    };
    text.push_str(": ")?;
    add_clear_reason(text, &reason)
}

/// Adds why the device answers the event as it does. Nothing is added where it has no reason to
/// turn it down.
pub fn add_event_part<S: EntryStore>(text: &mut String, device: &Device<S>, event: &Event) -> Added
    ensures { Adds result text.old text.new (event_part device.now.state event.now) }
{
    match *event {
        Event::Submit {
            queue,
            portal,
            kind,
            ..
        } => add_submit_part(text, device, queue, portal, kind),
        Event::Dispatch { engine } => add_dispatch_part(text, device, engine),
        Event::Fetch { engine, .. } => add_fetch_part(text, device, engine),
        Event::Start { engine } => add_start_part(text, device, engine),
        Event::Finish {
            engine,
            ticket,
            outcome,
        } => add_finish_part(text, device, engine, ticket, outcome),
        Event::Issue { command } => add_issue_part(text, device, command),
        Event::Poll => add_poll_part(text, device),
        Event::WriteQueue { queue, config } => {
            let reason = device.why_write_queue(queue, &config);
            add_write_part(text, "queue", "queues", &reason)
        }
        Event::WriteGroup { group, .. } => {
            let reason = device.why_write_group(group);
            add_write_part(text, "group", "groups", &reason)
        }
        Event::ClearError => add_clear_part(text, device),
    }
}

fn add_no_command(text: &mut String, number: u32, reserved: u32) -> Added
    ensures { Adds result text.old text.new (no_command_part number reserved) }
{
    add_number(text, ": no command has the number ", number)?;
    add_reserved(text, reserved)
}

fn add_reserved(text: &mut String, reserved: u32) -> Added
    ensures { Adds result text.old text.new (reserved_part reserved) }
{
    write!(text, ", with {reserved} in bits 30:25")
}

// That no more names were left, where that is why the history has no more room.
fn add_names_left<S: EntryStore>(text: &mut String, device: &Device<S>) -> Added
    ensures { Adds result text.old text.new (names_part device.now) }
{
    if device.capacity() < device.room() {
        text.push_str(", as many as names were left")
    } else {
        Ok(())
    }
}

// What is told of any event where the history is full.
fn add_full<S: EntryStore>(text: &mut String, device: &Device<S>) -> Added
    ensures { Adds result text.old text.new (full_part device.now) }
{
    let before = ": the history has room for ";
    add_count(text, before, device.capacity(), "step", "steps")?;
    add_names_left(text, device)
}

/// Adds why the device answers the event as it does, or why the word is refused.
pub fn add_part<S: EntryStore>(text: &mut String, device: &Device<S>, asked: &Asked) -> Added
    ensures { Adds result text.old text.new (part_of device.now asked.now) }
{
    let event = match asked {
        Ok(event) => event,
        Err(refused) => {
            let word = CommandWord(refused.word);
            return add_no_command(text, word.number(), word.reserved());
        }
    };
    if device.is_full() {
        return add_full(text, device);
    }
    add_event_part(text, device, event)
}
