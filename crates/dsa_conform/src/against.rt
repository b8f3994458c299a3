//! Which fact of a device speaks against an answer that was seen.

ghost use Rattle.std.specs.Prelude.{◌≡◌, IfOk, codes, cond, string_bytes};
ghost use Rattle.dsa_event_text.specs.Added.{Adds};
ghost use Rattle.dsa_explain_lines.specs.Parts.{part_of};
ghost use Rattle.dsa_conform.specs.Seen.{seen_as};
ghost use Rattle.dsa_conform.specs.Facts.{never_words};
ghost use Rattle.dsa_conform.specs.Against.{checked_fact, early_fact, ended_fact, event_fact, fact_against, fetch_fact, finish_fact, is_refusal, issue_fact, late_fact, list_fact, noted_fact, text_seen, unmarked};

use crate::answering::{is_possible, is_refusal, kind_label, text_seen};
use crate::answers::leading_word;
use crate::facts::{
    add_may_start, add_never, add_next_name, add_no_failure, add_noted, add_removes_nothing,
    add_room, add_unlocked, add_waits_for_nothing,
};
use crate::observed::Observed;
use crate::passed::{add_passed, row_of_reason, row_seen};
use crate::untaken::add_dispatch_fact;
use dsa_book::{Event, Ticket};
use dsa_device::{Device, IssueReason, PollReason};
use dsa_engines::{FetchReason, FinishReason};
use dsa_event_text::Added;
use dsa_explain_lines::{
    add_fetch_reason, add_finish_reason, add_issue_reason, add_poll_reason, add_wait_count,
};
use dsa_regs::Command;
use dsa_scenario::Asked;
use dsa_store::EntryStore;
use std::alloc::{AllocError, Global};

// The list that the entry of the ticket stands in.
fn add_list_fact<S: EntryStore>(
    text: &mut String,
    device: &Device<S>,
    engine: u16,
    ticket: Ticket,
) -> Added
    ensures { Adds result text.old text.new (list_fact device.now.state.work engine ticket) }
{
    device.state_is_replay();
    match device.list_with(ticket.cell) {
        Some(list) => add_finish_reason(text, engine, &FinishReason::Elsewhere { list }),
        None => Ok(()),
    }
}

// That an entry is there which was seen to be gone, or waits for nothing which was seen to wait.
fn add_finish_fact<S: EntryStore>(
    text: &mut String,
    device: &Device<S>,
    engine: u16,
    ticket: Ticket,
    seen: &str,
) -> Added
    ensures { Adds result text.old text.new
        (finish_fact device.now.state.work engine ticket seen.now) }
{
    if seen == "gone" {
        return add_list_fact(text, device, engine, ticket);
    }
    if seen == "not-ready" && device.finish_reason(engine, ticket).is_none() {
        return add_waits_for_nothing(text, ticket.name);
    }
    Ok(())
}

// The same of what was seen.
fn add_finish_seen<S: EntryStore>(
    text: &mut String,
    device: &Device<S>,
    engine: u16,
    ticket: Ticket,
    seen: &Observed<'_>,
) -> Added
    ensures { Adds result text.old text.new
        (finish_fact device.now.state.work engine ticket (text_seen (seen_as seen.now))) }
{
    add_finish_fact(text, device, engine, ticket, text_seen(seen))
}

// That no command is active, or that this one waits for nothing.
fn add_issue_fact<S: EntryStore>(
    text: &mut String,
    device: &Device<S>,
    command: Command,
    seen: &str,
) -> Added
    ensures { Adds result text.old text.new (issue_fact device.now.state command seen.now) }
{
    if seen == "refused 17 Busy" && device.active_command().is_none() {
        return add_poll_reason(text, &None, &PollReason::Nothing);
    }
    if seen == "active" && device.why_issue(command).is_none() {
        return add_wait_count(text, 0);
    }
    Ok(())
}

// A fact of what is checked before that which decides.
fn add_early<S: EntryStore>(
    alloc: Global,
    text: &mut String,
    device: &Device<S>,
    event: &Event,
    seen: &Observed<'_>,
) -> Added
    ensures { Adds result text.old text.new
        (early_fact device.now.state event.now (seen_as seen.now)) }
{
    match *event {
        Event::Submit {
            queue,
            portal,
            kind,
            ..
        } => {
            let decides = row_of_reason(&device.why_submit(queue, portal, kind));
            add_passed(
                text,
                device,
                queue,
                portal,
                row_seen(seen.answer, seen.zf),
                decides,
            )
        }
        Event::Dispatch { engine } => {
            add_dispatch_fact(alloc, text, device, engine, text_seen(seen))
        }
        Event::Finish { engine, ticket, .. } => {
            add_finish_seen(text, device, engine, ticket, seen)
        }
        Event::Issue { command } => add_issue_fact(text, device, command, text_seen(seen)),
        _ => Ok(()),
    }
}

// That members are left to be fetched, or the name of the next one.
fn add_fetch_fact<S: EntryStore>(
    text: &mut String,
    device: &Device<S>,
    engine: u16,
    seen: &str,
) -> Added
    ensures { Adds result text.old text.new (fetch_fact device.now.state.work engine seen.now) }
{
    if leading_word(seen) == "fetched" {
        return add_next_name(text, device.next_name());
    }
    let (count, fetched) = match device.batch(engine) {
        Some(note) => (note.count, note.fetched),
        None => (0, 0),
    };
    let reason = FetchReason::AllFetched {
        count,
        fetched,
        closed: false,
    };
    add_fetch_reason(text, engine, &reason)
}

// That the active command is at its end.
fn add_ended_fact<S: EntryStore>(text: &mut String, device: &Device<S>) -> Added
    ensures { Adds result text.old text.new (ended_fact device.now.state.active) }
{
    let Some(active) = device.active_command() else {
        return Ok(());
    };
    let reason = IssueReason::Busy {
        active: active.command,
        awaited: 0,
    };
    add_issue_reason(text, &None, &reason)
}

// The queue of the error that is noted.
fn add_noted_fact<S: EntryStore>(text: &mut String, device: &Device<S>) -> Added
    ensures { Adds result text.old text.new (noted_fact device.now.state.work.setup.noted) }
{
    match device.noted() {
        Some(noted) => add_noted(text, noted.queue),
        None => Ok(()),
    }
}

// A fact by which the step is not turned down.
fn add_late<S: EntryStore>(
    text: &mut String,
    device: &Device<S>,
    event: &Event,
    seen: &Observed<'_>,
) -> Added
    ensures { Adds result text.old text.new
        (late_fact device.now.state event.now (seen_as seen.now)) }
{
    match *event {
        Event::Submit { .. } => add_next_name(text, device.next_name()),
        Event::Dispatch { .. } => Ok(()),
        Event::Fetch { engine, .. } => add_fetch_fact(text, device, engine, text_seen(seen)),
        Event::Start { engine } => add_may_start(text, engine),
        Event::Finish { ticket, .. } => add_no_failure(text, ticket.name),
        Event::Issue { .. } => add_removes_nothing(text),
        Event::Poll => add_ended_fact(text, device),
        Event::WriteQueue { .. } => add_unlocked(text),
        Event::WriteGroup { .. } => add_unlocked(text),
        Event::ClearError => add_noted_fact(text, device),
    }
}

// Adds what a part of a line tells, without its mark.
fn add_unmarked(text: &mut String, part: &str) -> Added
    ensures { Adds result text.old text.new (unmarked part.now) }
{
    match part.strip_prefix(": ") {
        Some(rest) => text.push_str(rest),
        None => Ok(()),
    }
}

// The first fact in the order in which the device checks: one that was passed, the one that
// decides, or that none does.
fn checked_fact<S: EntryStore>(
    alloc: Global,
    device: &Device<S>,
    event: &Event,
    seen: &Observed<'_>,
    part: &str,
) -> Result<String, AllocError>
    ensures { IfOk result
        (λ text. string_bytes text
        ≡ checked_fact device.now.state event.now (seen_as seen.now) part.now) }
{
    let mut text = String::new(alloc);
    add_early(alloc, &mut text, device, event, seen)?;
    if !text.is_empty() {
        return Ok(text);
    }
    add_unmarked(&mut text, part)?;
    if !text.is_empty() {
        return Ok(text);
    }
    add_late(&mut text, device, event, seen)?;
    Ok(text)
}

// The same, with the room of the history before all of them.
fn event_fact<S: EntryStore>(
    alloc: Global,
    device: &Device<S>,
    event: &Event,
    seen: &Observed<'_>,
    part: &str,
) -> Result<String, AllocError>
    ensures { IfOk result
        (λ text. string_bytes text ≡ event_fact device.now event.now (seen_as seen.now) part.now) }
{
    let mut text = String::new(alloc);
    if device.is_full() {
        add_unmarked(&mut text, part)?;
        return Ok(text);
    }
    if text_seen(seen) == "full" {
        add_room(&mut text, device.capacity(), device.history().len())?;
        return Ok(text);
    }
    checked_fact(alloc, device, event, seen, part)
}

// That a step of this kind never has such an answer.
fn never_fact(alloc: Global, kind: &str) -> Result<String, AllocError>
    ensures { IfOk result (λ text. string_bytes text ≡ never_words kind.now) }
{
    let mut text = String::new(alloc);
    add_never(&mut text, kind)?;
    Ok(text)
}

// What is told of a word that is no command.
fn word_fact(alloc: Global, seen: &Observed<'_>, part: &str) -> Result<String, AllocError>
    ensures { IfOk result
        (λ text. string_bytes text
        ≡ cond (is_refusal (seen_as seen.now)) (unmarked part.now)
        (never_words (codes "command"))) }
{
    if !is_refusal(seen) {
        return never_fact(alloc, "command");
    }
    let mut text = String::new(alloc);
    add_unmarked(&mut text, part)?;
    Ok(text)
}

/// The fact of the device that speaks against what was seen of its answer, where this part is told
/// of the answer that it gives.
pub fn fact_against<S: EntryStore>(
    alloc: Global,
    device: &Device<S>,
    asked: &Asked,
    seen: &Observed<'_>,
    part: &str,
) -> Result<String, AllocError>
    requires { part.now ≡ part_of device.now asked.now }
    ensures { IfOk result
        (λ text. string_bytes text ≡ fact_against device.now asked.now (seen_as seen.now)) }
{
    match asked {
        Err(_) => word_fact(alloc, seen, part),
        Ok(event) if is_possible(event, seen) => event_fact(alloc, device, event, seen, part),
        Ok(event) => never_fact(alloc, kind_label(event)),
    }
}
