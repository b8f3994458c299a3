//! Commands that are refused, and one that is not over.

ghost use Rattle.dsa_event_text.specs.Added.{Adds};
ghost use Rattle.dsa_explain_lines.specs.Sentences.{active_words, busy_words, ended_words, first_words, held_words, issue_sentence, named_words, poll_sentence, wait_count, whose_words};

use crate::checks::add_check_reason;
use crate::words::{add_counted, add_phase};
use dsa_device::{IssueReason, PollReason};
use dsa_event_text::{Added, add_command, add_count, add_list, add_number};
use dsa_explain::ListedEntry;
use dsa_regs::Command;

fn add_busy(text: &mut String, awaited: u64, first: &Option<ListedEntry>) -> Added
    ensures { Adds result text.old text.new (busy_words awaited first.now) }
{
    let before = " is active, and waits for ";
    add_count(text, before, awaited, "entry", "entries")?;
    add_first(text, first)
}

// Says that the command waits for nothing any more.
fn add_ended(text: &mut String) -> Added
    ensures { Adds result text.old text.new ended_words }
{
    text.push_str(" has ended, and no poll has reported it")
}

// The active command, and what it waits for.
fn add_active(
    text: &mut String,
    active: &Command,
    awaited: u64,
    first: &Option<ListedEntry>,
) -> Added
    ensures { Adds result text.old text.new (active_words active.now awaited first.now) }
{
    add_command(text, active)?;
    if awaited == 0 {
        return add_ended(text);
    }
    add_busy(text, awaited, first)
}

// The queue that is missing, where one is named.
fn add_named(text: &mut String, queue: Option<u32>) -> Added
    ensures { Adds result text.old text.new (named_words queue) }
{
    match queue {
        Some(queue) => add_number(text, "the device has no q", queue),
        None => text.push_str("no queue is named"),
    }
}

// A queue, or the device.
fn add_whose(text: &mut String, queue: Option<u32>) -> Added
    ensures { Adds result text.old text.new (whose_words queue) }
{
    match queue {
        Some(queue) => add_number(text, "q", queue),
        None => text.push_str("the device"),
    }
}

/// Adds the sentence of why a command is refused, with the first entry that the active command
/// waits for.
pub fn add_issue_reason(
    text: &mut String,
    first: &Option<ListedEntry>,
    reason: &IssueReason,
) -> Added
    ensures { Adds result text.old text.new (issue_sentence first.now reason.now) }
{
    match reason {
        IssueReason::Busy { active, awaited } => add_active(text, active, *awaited, first),
        IssueReason::NoQueue { queue } => add_named(text, *queue),
        IssueReason::WrongPhase { queue, phase } => {
            add_whose(text, *queue)?;
            add_phase(text, " is ", *phase)
        }
        IssueReason::Check(reason) => add_check_reason(text, reason),
    }
}

/// Adds the name of an entry, and its list.
pub fn add_held(text: &mut String, held: &ListedEntry) -> Added
    ensures { Adds result text.old text.new (held_words held.now) }
{
    add_counted(text, "", held.entry.name, " in ")?;
    add_list(text, held.list)
}

fn add_first(text: &mut String, first: &Option<ListedEntry>) -> Added
    ensures { Adds result text.old text.new (first_words first.now) }
{
    let Some(held) = first else {
        return Ok(());
    };
    text.push_str(", first for ")?;
    add_held(text, held)
}

/// Adds how many entries a command waits for.
pub fn add_wait_count(text: &mut String, awaited: u64) -> Added
    ensures { Adds result text.old text.new (wait_count awaited) }
{
    add_count(text, "the command waits for ", awaited, "entry", "entries")
}

/// Adds the sentence of why the active command is not over, with the first entry that it waits for.
pub fn add_poll_reason(text: &mut String, first: &Option<ListedEntry>, reason: &PollReason) -> Added
    ensures { Adds result text.old text.new (poll_sentence first.now reason.now) }
{
    match *reason {
        PollReason::Nothing => text.push_str("no command is active"),
        PollReason::Waits { awaited } => {
            add_wait_count(text, awaited)?;
            add_first(text, first)
        }
    }
}
