//! The submissions of a run, and whose they are.

ghost use Rattle.std.specs.Prelude.{◌≡◌, ◌<◌, ◌+◌, ◌^◌, max, ◌++◌, [], ◌∷◌, IfOk, OnOk, filter_map};
ghost use Rattle.dsa_count.specs.Submissions.{above, accepted_of, is_accepted_answer, is_alike, is_cause, is_party_named, number_in, submission_in, turned_away_of};

use dsa_book::{Cause, Event, Reply, SubmitAnswer};
use dsa_scenario::Record;
use std::alloc::{AllocError, Global};

/// A submission: who made it, to which queue, and what was answered.
#[derive(Clone, Copy)]
pub struct Submission {
    pub client: u16,
    pub queue: u16,
    pub answer: SubmitAnswer,
}

/// Whose submissions are counted together: all of them, those of a client, or those to a queue.
#[derive(Clone, Copy)]
pub enum Party {
    All,
    Client,
    Queue,
}

/// The submission of a record, where it is one.
pub fn submission_in(entry: &Record) -> Option<Submission>
    ensures { result ≡ submission_in entry.now }
{
    let Record::Stepped(step) = entry else {
        return None;
    };
    let Event::Submit { client, queue, .. } = step.event else {
        return None;
    };
    match step.reply {
        Reply::Submit(answer) => Some(Submission {
            client,
            queue,
            answer,
        }),
        _ => None,
    }
}

// Adds the submission of a record, where it is one.
fn note_submission(submissions: &mut Vec<Submission>, entry: &Record) -> Result<(), AllocError>
    ensures { OnOk result
        (submissions.new.items
        ≡ submissions.old.items ++ filter_map submission_in (entry.now ∷ [])) }
{
    if let Some(made) = submission_in(entry) {
        submissions.push(made)?;
    }
    Ok(())
}

/// The submissions among these records, in order.
pub fn submissions_in(alloc: Global, records: &[Record]) -> Result<Vec<Submission>, AllocError>
    ensures { IfOk result (λ made. made.items ≡ filter_map submission_in records.now) }
{
    let mut submissions = Vec::new(alloc);
    for entry in records {
        note_submission(&mut submissions, entry)?;
    }
    Ok(submissions)
}

/// The number of the client or of the queue; 0 where all are counted together.
pub fn number_in(party: Party, made: &Submission) -> u32
    ensures number { result ≡ number_in party made.now }
    ensures small { result < 2 ^ 16 }
{
    match party {
        Party::All => 0,
        Party::Client => u32::from(made.client),
        Party::Queue => u32::from(made.queue),
    }
}

// The greater of a number and of one more than what a submission names.
fn raised_by(most: u32, party: Party, made: &Submission) -> u32
    ensures { result ≡ max most (number_in party made.now + 1) }
{
    let next = number_in(party, made) + 1;
    if most < next { next } else { most }
}

/// A number above all clients or queues that are named; 0 where none is.
pub fn above(party: Party, submissions: &[Submission]) -> u32
    ensures { result ≡ above party submissions.now }
{
    let mut most = 0;
    for made in submissions {
        most = raised_by(most, party, made);
    }
    most
}

/// Whether a submission names this client or this queue.
pub fn is_party_named(party: Party, number: u32, submissions: &[Submission]) -> bool
    ensures { result ≡ is_party_named party number submissions.now }
{
    submissions
        .iter()
        .any(|made| number_in(party, made) == number)
}

fn is_accepted_answer(answer: SubmitAnswer) -> bool
    ensures { result ≡ is_accepted_answer answer }
{
    matches!(answer, SubmitAnswer::Accepted(_))
}

fn is_cause(cause: Cause, other: Cause) -> bool
    ensures { result ≡ is_cause cause other }
{
    match cause {
        Cause::AtLimit => matches!(other, Cause::AtLimit),
        Cause::NotEnabled => matches!(other, Cause::NotEnabled),
        Cause::WrongKind => matches!(other, Cause::WrongKind),
    }
}

// Both turned their submissions away, in the same way and for the same cause.
fn is_alike(answer: SubmitAnswer, other: SubmitAnswer) -> bool
    ensures { result ≡ is_alike answer other }
{
    match (answer, other) {
        (SubmitAnswer::Retry(cause), SubmitAnswer::Retry(other)) => is_cause(cause, other),
        (SubmitAnswer::Dropped(cause), SubmitAnswer::Dropped(other)) => is_cause(cause, other),
        (SubmitAnswer::Full, SubmitAnswer::Full) => true,
        _ => false,
    }
}

/// How many submissions of this client, or to this queue, were accepted.
pub fn accepted_of(party: Party, number: u32, submissions: &[Submission]) -> usize
    ensures { result ≡ accepted_of party number submissions.now }
{
    submissions
        .iter()
        .filter(|made| number_in(party, made) == number && is_accepted_answer(made.answer))
        .count()
}

/// How many of them were turned away by such an answer.
pub fn turned_away_of(
    party: Party,
    number: u32,
    answer: SubmitAnswer,
    submissions: &[Submission],
) -> usize
    ensures { result ≡ turned_away_of party number answer submissions.now }
{
    submissions
        .iter()
        .filter(|made| number_in(party, made) == number && is_alike(answer, made.answer))
        .count()
}
