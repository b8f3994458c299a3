//! How many steps commands waited.

ghost use Rattle.std.specs.Prelude.{◌≡◌, ◌<◌, IfSome, length, position};
ghost use Rattle.dsa_event_text.specs.Added.{Adds};
ghost use Rattle.dsa_count.specs.Waits.{active_in, command_line, command_lines, reports_end, end_wait_text};

use crate::tallies::add_count_of;
use dsa_book::{Event, IssueAnswer, PollAnswer, Reply};
use dsa_event_text::{Added, add_command, add_count};
use dsa_regs::Command;
use dsa_scenario::Record;

/// The command of a step that was answered active.
fn active_in(entry: &Record) -> Option<Command>
    ensures { result ≡ active_in entry.now }
{
    let Record::Stepped(step) = entry else {
        return None;
    };
    match (step.event, step.reply) {
        (Event::Issue { command }, Reply::Issue(IssueAnswer::Active)) => Some(command),
        _ => None,
    }
}

// A poll reported that the command is over.
fn reports_end(entry: &Record) -> bool
    ensures { result ≡ reports_end entry.now }
{
    match entry {
        Record::Stepped(step) => matches!(step.reply, Reply::Poll(PollAnswer::Finished)),
        Record::Refused(_) => false,
    }
}

fn place_of_end(later: &[Record]) -> Option<usize>
    ensures place { result ≡ position reports_end later.now }
    ensures bound { IfSome result (λ place. place < length later.now) }
{
    later.iter().position(|entry| reports_end(entry))
}

#[tactic(auto, unfolding(crate::specs::Waits::end_wait_text))]
fn add_wait(text: &mut String, later: &[Record]) -> Added
    ensures { Adds result text.old text.new (end_wait_text later.now) }
{
    match place_of_end(later) {
        Some(place) => add_count(text, ": finished after ", place as u64 + 1, "step", "steps"),
        None => add_count(
            text,
            ": still active after ",
            later.len() as u64,
            "step",
            "steps",
        ),
    }
}

// The line of a step, where its command was answered active.
fn add_command_line(text: &mut String, number: usize, entry: &Record, later: &[Record]) -> Added
    ensures { Adds result text.old text.new (command_line number entry.now later.now) }
{
    let Some(command) = active_in(entry) else {
        return Ok(());
    };
    add_count_of(text, "command ", number, " ")?;
    add_command(text, &command)?;
    add_wait(text, later)?;
    text.push_str("\n")
}

/// Adds a line for each command that was answered active, with how many steps it waited.
pub fn add_commands(text: &mut String, records: &[Record]) -> Added
    ensures { Adds result text.old text.new (command_lines 0 records.now) }
{
    for (number, entry) in records.iter().enumerate() {
        add_command_line(text, number, entry, &records[number + 1..])?;
    }
    Ok(())
}
