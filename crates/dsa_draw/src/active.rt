//! How long commands were active, by steps.

ghost use Rattle.std.specs.Prelude.{◌≡◌, ◌++◌, [], IfOk, OnOk, string_bytes};
ghost use Rattle.dsa_event_text.specs.Added.{Adds};
ghost use Rattle.dsa_event_text.specs.Text.{command_with_operand};
ghost use Rattle.dsa_count.specs.Waits.{active_in, reports_end};
ghost use Rattle.dsa_draw.specs.Active.{end_from, waits_begun, waits_from, finished_text, wait_phrase, wait_words, wait_title_text, wait_label_text, wait_bar_text, wait_part_text, waits_text};

use crate::geometry::columns_wide;
use crate::labels::letters_in;
use crate::moment::Moment;
use crate::page::{add_box, add_letters};
use crate::range::Extent;
use dsa_book::{Event, IssueAnswer, PollAnswer, Reply, Step};
use dsa_event_text::{Added, add_command, add_count, add_number};
use dsa_regs::Command;
use dsa_scenario::Record;
use std::alloc::{AllocError, Global};

/// A command that was active.
#[derive(Clone, Copy)]
pub struct Wait {
    pub command: Command,
    /// The step that issued it.
    pub begin: u32,
    /// The step that reported its end.
    pub end: Option<u32>,
}

// The command that a step left active.
fn active_in(entry: &Record) -> Option<Command>
    ensures { result ≡ active_in entry.now }
{
    match entry {
        Record::Stepped(
            Step {
                event: Event::Issue { command },
                reply: Reply::Issue(IssueAnswer::Active),
            },
        ) => Some(*command),
        _ => None,
    }
}

fn reports_end(entry: &Record) -> bool
    ensures { result ≡ reports_end entry.now }
{
    match entry {
        Record::Stepped(
            Step {
                reply: Reply::Poll(PollAnswer::Finished),
                ..
            },
        ) => true,
        _ => false,
    }
}

// The first of these steps that reported it; the first of all has this number.
fn end_from(later: &[Moment], first: u32) -> Option<u32>
    ensures { result ≡ end_from first later.now }
{
    let mut step = first;
    for moment in later {
        if reports_end(&moment.entry) {
            return Some(step);
        }
        step = step.saturating_add(1);
    }
    None
}

fn push_wait(
    waits: &mut Vec<Wait>,
    entry: &Record,
    later: &[Moment],
    step: u32,
) -> Result<(), AllocError>
    ensures { OnOk result
        (waits.new.items ≡ waits.old.items ++ waits_begun step later.now (active_in entry.now)) }
{
    let Some(command) = active_in(entry) else {
        return Ok(());
    };
    waits.push(Wait {
        command,
        begin: step,
        end: end_from(later, step.saturating_add(1)),
    })?;
    Ok(())
}

/// The commands that were active, in the order in which they were issued.
pub fn waits_of(alloc: Global, moments: &[Moment]) -> Result<Vec<Wait>, AllocError>
    ensures { IfOk result (λ waits. waits.items ≡ waits_from 0 moments.now) }
{
    let mut waits = Vec::new(alloc);
    let mut step = 0u32;
    for (place, moment) in moments.iter().enumerate() {
        push_wait(&mut waits, &moment.entry, &moments[place + 1..], step)?;
        step = step.saturating_add(1);
    }
    Ok(waits)
}

#[tactic(auto, unfolding(crate::specs::Active::finished_text))]
fn add_finished(text: &mut String, steps: u32) -> Added
    ensures { Adds result text.old text.new (finished_text steps) }
{
    add_count(text, ": finished after ", u64::from(steps), "step", "steps")
}

// How long it was active, of so many steps.
fn add_wait_phrase(text: &mut String, wait: &Wait, last: u32) -> Added
    ensures { Adds result text.old text.new (wait_phrase last wait.now.begin wait.now.end) }
{
    match wait.end {
        Some(end) => {
            add_number(text, " to ", end)?;
            add_finished(text, end.saturating_sub(wait.begin))
        }
        None => {
            let steps = last.saturating_sub(wait.begin.saturating_add(1));
            add_count(
                text,
                ": still active after ",
                u64::from(steps),
                "step",
                "steps",
            )
        }
    }
}

#[tactic(auto, unfolding(crate::specs::Active::wait_words))]
fn add_wait_words(text: &mut String, wait: &Wait, last: u32) -> Added
    ensures { Adds result text.old text.new (wait_words last wait.now) }
{
    add_command(text, &wait.command)?;
    add_number(text, ", active from step ", wait.begin)?;
    add_wait_phrase(text, wait, last)
}

fn add_wait_title(text: &mut String, wait: &Wait, last: u32) -> Added
    ensures { Adds result text.old text.new (wait_title_text last wait.now) }
{
    text.push_str("<title>")?;
    add_wait_words(text, wait, last)?;
    text.push_str("</title>")
}

// The command is named where there is room.
fn add_wait_label(
    alloc: Global,
    text: &mut String,
    command: &Command,
    begin: u32,
    end: u32,
) -> Added
    ensures { Adds result text.old text.new (wait_label_text begin end command.now) }
{
    let mut label = String::new(alloc);
    add_command(&mut label, command)?;
    if label.len() as u64 <= letters_in(columns_wide(begin, end)) {
        add_letters(text, begin, 155, label.as_str())
    } else {
        Ok(())
    }
}

fn add_wait(alloc: Global, text: &mut String, wait: &Wait, extent: Extent) -> Added
    ensures { Adds result text.old text.new (wait_bar_text extent wait.now) }
{
    let begin = extent.range.column_of(wait.begin);
    let end = extent.range.column_of(wait.end.unwrap_or(extent.last));
    text.push_str("<g>")?;
    add_wait_title(text, wait, extent.last)?;
    add_box(text, "active", begin, end, 146)?;
    add_wait_label(alloc, text, &wait.command, begin, end)?;
    text.push_str("</g>\n")
}

// A bar has a column at least.
fn add_wait_within(alloc: Global, text: &mut String, wait: &Wait, extent: Extent) -> Added
    ensures { Adds result text.old text.new (wait_part_text extent wait.now) }
{
    let end = wait.end.unwrap_or(extent.last);
    if extent.range.is_within(wait.begin, end) {
        add_wait(alloc, text, wait, extent)
    } else {
        Ok(())
    }
}

/// A bar for each of them.
pub fn add_waits(alloc: Global, text: &mut String, waits: &[Wait], extent: Extent) -> Added
    ensures { Adds result text.old text.new (waits_text extent waits.now) }
{
    for wait in waits {
        add_wait_within(alloc, text, wait, extent)?;
    }
    Ok(())
}
