//! The line of fates.

ghost use Rattle.std.specs.Prelude.{◌≡◌, ◌<◌, ◌≤◌, flat_map};
ghost use Rattle.dsa_base.specs.Numbers.{numbers_below};
ghost use Rattle.dsa_event_text.specs.Added.{Adds};
ghost use Rattle.dsa_count.specs.Fates.{end_words, ended_of, fate_numbered, fate_part, fates_line};
ghost use Rattle.dsa_count.specs.Fates.{is_same_fate, numbered_part, numbered_parts};

use crate::tallies::{add_count_of, add_reply};
use dsa_book::{Fate, FateRow, FinishAnswer, Reply};
use dsa_event_text::{Added, add_number};

/// What numbers a fate: the status of an entry that completed, or the command that removed it.
#[derive(Clone, Copy)]
enum Numbered {
    Status,
    Command,
}

fn is_same_fate(fate: Fate, other: Fate) -> bool
    ensures { result ≡ is_same_fate fate other }
{
    match (fate, other) {
        (Fate::Completed(status), Fate::Completed(other)) => status == other,
        (Fate::Aborted(command), Fate::Aborted(other)) => command == other,
        (Fate::Abandoned, Fate::Abandoned) => true,
        _ => false,
    }
}

fn ended_of(fate: Fate, rows: &[FateRow]) -> usize
    ensures { result ≡ ended_of fate rows.now }
{
    rows.iter()
        .filter(|row| is_same_fate(fate, row.fate))
        .count()
}

fn add_end(text: &mut String, fate: Fate) -> Added
    ensures { Adds result text.old text.new (end_words fate) }
{
    match fate {
        Fate::Completed(status) => add_reply(text, Reply::Finish(FinishAnswer::Done(status))),
        Fate::Aborted(command) => add_number(text, "aborted ", u32::from(command)),
        Fate::Abandoned => text.push_str("abandoned"),
    }
}

// How many ended so, where any did.
fn add_part(text: &mut String, rows: &[FateRow], fate: Fate) -> Added
    ensures { Adds result text.old text.new (fate_part rows.now fate) }
{
    let count = ended_of(fate, rows);
    if count == 0 {
        return Ok(());
    }
    add_count_of(text, ", ", count, " ")?;
    add_end(text, fate)
}

fn fate_numbered(numbered: Numbered, number: u8) -> Fate
    ensures { result ≡ fate_numbered numbered number }
{
    match numbered {
        Numbered::Status => Fate::Completed(number),
        Numbered::Command => Fate::Aborted(number),
    }
}

// Those of the numbers below this one.
fn add_below(text: &mut String, rows: &[FateRow], numbered: Numbered, below: u16) -> Added
    requires { below ≤ 256 }
    ensures { Adds result text.old text.new
        (flat_map (numbered_part rows.now numbered) (numbers_below below)) }
{
    for number in 0..below {
        add_part(text, rows, fate_numbered(numbered, number as u8))?;
    }
    Ok(())
}

#[tactic(auto, unfolding(crate::specs::Fates::numbered_parts))]
fn add_numbered(text: &mut String, rows: &[FateRow], numbered: Numbered) -> Added
    ensures { Adds result text.old text.new (numbered_parts rows.now numbered) }
{
    add_below(text, rows, numbered, 256)
}

/// Adds how many entries ended, and how.
#[tactic(auto, unfolding(crate::specs::Fates::fates_line))]
pub fn add_fates(text: &mut String, rows: &[FateRow]) -> Added
    ensures { Adds result text.old text.new (fates_line rows.now) }
{
    add_count_of(text, "fates: ", rows.len(), " ended")?;
    add_numbered(text, rows, Numbered::Status)?;
    add_numbered(text, rows, Numbered::Command)?;
    add_part(text, rows, Fate::Abandoned)?;
    text.push_str("\n")
}
