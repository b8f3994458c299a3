//! The lines of submissions.

ghost use Rattle.std.specs.Prelude.{◌≡◌, ◌++◌, decimal, flat_map};
ghost use Rattle.dsa_event_text.specs.Added.{Adds};
ghost use Rattle.dsa_scenario.specs.Lines.{reply_text};
ghost use Rattle.dsa_count.specs.Tallies.{named_line, named_lines, party_text};
ghost use Rattle.dsa_count.specs.Tallies.{tallies_of, tallies_text, tally_line, turned_part};
ghost use Rattle.dsa_count.specs.Tallies.{ways_part};

use crate::submissions::{
    Party, Submission, above, accepted_of, is_party_named, submissions_in, turned_away_of,
};
use dsa_book::{Cause, Event, Reply, Step, SubmitAnswer};
use dsa_event_text::{Added, add_number};
use dsa_scenario::{Record, add_answer};
use itoa::Buffer;
use std::alloc::Global;

// Each way in which a submission is turned away.
const WAYS: [SubmitAnswer; 7] = [
    SubmitAnswer::Retry(Cause::AtLimit),
    SubmitAnswer::Retry(Cause::NotEnabled),
    SubmitAnswer::Retry(Cause::WrongKind),
    SubmitAnswer::Dropped(Cause::AtLimit),
    SubmitAnswer::Dropped(Cause::NotEnabled),
    SubmitAnswer::Dropped(Cause::WrongKind),
    SubmitAnswer::Full,
];

fn add_party(text: &mut String, party: Party, number: u32) -> Added
    ensures { Adds result text.old text.new (party_text party number) }
{
    match party {
        Party::All => text.push_str("submissions"),
        Party::Client => add_number(text, "client ", number),
        Party::Queue => add_number(text, "queue ", number),
    }
}

/// Adds a mark, a count and a space.
pub fn add_count_of(text: &mut String, mark: &str, count: usize, behind: &str) -> Added
    ensures { Adds result text.old text.new (mark.now ++ decimal count ++ behind.now) }
{
    let mut buffer = Buffer::new();
    text.push_str(mark)?;
    text.push_str(buffer.format(count))?;
    text.push_str(behind)
}

/// Adds the words of an answer, as a run prints them.
pub fn add_reply(text: &mut String, reply: Reply) -> Added
    ensures { Adds result text.old text.new (reply_text reply) }
{
    let event = Event::Poll;
    add_answer(text, &Record::Stepped(Step { event, reply }))
}

// How many of them were turned away so, where any were.
fn add_turned(
    text: &mut String,
    party: Party,
    number: u32,
    submissions: &[Submission],
    answer: SubmitAnswer,
) -> Added
    ensures { Adds result text.old text.new (turned_part party number submissions.now answer) }
{
    let count = turned_away_of(party, number, answer, submissions);
    if count == 0 {
        return Ok(());
    }
    add_count_of(text, ", ", count, " ")?;
    add_reply(text, Reply::Submit(answer))
}

fn add_each_way(
    text: &mut String,
    party: Party,
    number: u32,
    submissions: &[Submission],
    ways: &[SubmitAnswer],
) -> Added
    ensures { Adds result text.old text.new
        (flat_map (turned_part party number submissions.now) ways.now) }
{
    for way in ways {
        add_turned(text, party, number, submissions, *way)?;
    }
    Ok(())
}

// How many were turned away, by cause.
#[tactic(auto, unfolding(crate::specs::Tallies::ways_part))]
fn add_ways(text: &mut String, party: Party, number: u32, submissions: &[Submission]) -> Added
    ensures { Adds result text.old text.new (ways_part party number submissions.now) }
{
    add_each_way(text, party, number, submissions, &WAYS)
}

#[tactic(auto, unfolding(crate::specs::Tallies::tally_line))]
fn add_tally(text: &mut String, party: Party, number: u32, submissions: &[Submission]) -> Added
    ensures { Adds result text.old text.new (tally_line party number submissions.now) }
{
    add_party(text, party, number)?;
    add_count_of(
        text,
        ": ",
        accepted_of(party, number, submissions),
        " accepted",
    )?;
    add_ways(text, party, number, submissions)?;
    text.push_str("\n")
}

// The line of a client or of a queue that a submission names.
fn add_named(text: &mut String, party: Party, submissions: &[Submission], number: u32) -> Added
    ensures { Adds result text.old text.new (named_line party submissions.now number) }
{
    if !is_party_named(party, number, submissions) {
        return Ok(());
    }
    add_tally(text, party, number, submissions)
}

fn add_each_named(text: &mut String, party: Party, submissions: &[Submission]) -> Added
    ensures { Adds result text.old text.new (named_lines party submissions.now) }
{
    for number in 0..above(party, submissions) {
        add_named(text, party, submissions, number)?;
    }
    Ok(())
}

#[tactic(auto, unfolding(crate::specs::Tallies::tallies_of))]
fn add_tallies_of(text: &mut String, submissions: &[Submission]) -> Added
    ensures { Adds result text.old text.new (tallies_of submissions.now) }
{
    add_tally(text, Party::All, 0, submissions)?;
    add_each_named(text, Party::Client, submissions)?;
    add_each_named(text, Party::Queue, submissions)
}

/// Adds how many submissions were accepted and turned away: of all, of each client, and of each
/// queue.
pub fn add_tallies(alloc: Global, text: &mut String, records: &[Record]) -> Added
    ensures { Adds result text.old text.new (tallies_text records.now) }
{
    let submissions = submissions_in(alloc, records)?;
    add_tallies_of(text, &submissions)
}
