//! Which steps are selected.

ghost use Rattle.std.specs.Prelude.{◌≡◌, ◌==◌, IfOk};
ghost use Rattle.std.specs.List.{list_any};
ghost use Rattle.dsa_base.specs.Rows.{passes};
ghost use Rattle.dsa_book.specs.declared.event.Actor.TheVariants.{Client};
ghost use Rattle.dsa_book.specs.Totals.{lost_by, same_actor};
ghost use Rattle.dsa_chosen.specs.Selected.{is_about, is_by, is_met, is_row_of, is_selected};
ghost use Rattle.dsa_chosen.specs.Selected.{lost_rows, name_answered, name_asked};
ghost use Rattle.dsa_chosen.specs.Words.{is_answered};

use crate::words::AnswerWords;
use dsa_book::{
    Actor, DispatchAnswer, Event, FateRow, FetchAnswer, IssueAnswer, Reply, StartAnswer,
    SubmitAnswer,
};
use dsa_scenario::Record;
use std::alloc::{AllocError, Global};

/// Which steps are kept. Each field that has a value leaves only the steps that meet it.
#[derive(Clone, Copy, Debug, PartialEq, Eq)]
pub struct Selection<'a> {
    /// The steps about the entry of this name. Its fate is kept, too.
    pub name: Option<u32>,
    /// The steps of this client.
    pub client: Option<u16>,
    /// The steps whose answers begin with one of these words.
    pub answers: Option<AnswerWords<'a>>,
}

fn name_asked(event: &Event) -> Option<u32>
    ensures { result ≡ name_asked event.now }
{
    match event {
        Event::Finish { ticket, .. } => Some(ticket.name),
        _ => None,
    }
}

fn name_answered(reply: &Reply) -> Option<u32>
    ensures { result ≡ name_answered reply.now }
{
    match reply {
        Reply::Submit(SubmitAnswer::Accepted(ticket)) => Some(ticket.name),
        Reply::Dispatch(DispatchAnswer::Taken { ticket, .. }) => Some(ticket.name),
        Reply::Fetch(FetchAnswer::Fetched(ticket)) => Some(ticket.name),
        Reply::Start(StartAnswer::Started(ticket)) => Some(ticket.name),
        _ => None,
    }
}

// How many entries a step aborted or abandoned.
fn lost_by(reply: &Reply) -> u32
    ensures { result ≡ lost_by reply.now }
{
    match reply {
        Reply::Start(StartAnswer::Abandoned(count)) => *count,
        Reply::Issue(IssueAnswer::Ended { aborted }) => *aborted,
        _ => 0,
    }
}

fn lost_rows<'a>(reply: &Reply, fates: &'a [FateRow]) -> &'a [FateRow]
    ensures { result.now ≡ lost_rows reply.now fates.now }
{
    let first = fates.len().saturating_sub(lost_by(reply) as usize);
    &fates[first..]
}

fn has_row(name: u32, rows: &[FateRow]) -> bool
    ensures { result ≡ list_any (is_row_of name) rows.now }
{
    rows.iter().any(|row| row.name == name)
}

fn tells(told: Option<u32>, name: u32) -> bool
    ensures { result ≡ passes (λ other. other == name) told }
{
    match told {
        Some(other) => other == name,
        None => false,
    }
}

/// Whether a step with this record, after which these are the fates, is about the entry of this
/// name: its event or its answer tells the name, or it aborted or abandoned the entry.
pub fn is_about(name: u32, entry: &Record, fates: &[FateRow]) -> bool
    ensures { result ≡ is_about name entry.now fates.now }
{
    let Record::Stepped(step) = entry else {
        return false;
    };
    tells(name_asked(&step.event), name)
        || tells(name_answered(&step.reply), name)
        || has_row(name, lost_rows(&step.reply, fates))
}

fn is_client(actor: Actor, client: u16) -> bool
    ensures { result ≡ same_actor actor (Client client) }
{
    match actor {
        Actor::Client(other) => other == client,
        _ => false,
    }
}

/// Whether the client made the step.
pub fn is_by(client: u16, entry: &Record) -> bool
    ensures { result ≡ is_by client entry.now }
{
    match entry {
        Record::Stepped(step) => is_client(step.event.actor(), client),
        Record::Refused(_) => false,
    }
}

impl Selection<'_> {
    fn meets_name(&self, entry: &Record, fates: &[FateRow]) -> bool
        ensures { result ≡ is_met (λ name. is_about name entry.now fates.now) self.now.name }
    {
        match self.name {
            Some(name) => is_about(name, entry, fates),
            None => true,
        }
    }

    fn meets_client(&self, entry: &Record) -> bool
        ensures { result ≡ is_met (λ client. is_by client entry.now) self.now.client }
    {
        match self.client {
            Some(client) => is_by(client, entry),
            None => true,
        }
    }

    fn meets_answers(&self, alloc: Global, entry: &Record) -> Result<bool, AllocError>
        ensures { IfOk result (λ meets. meets
            ≡ is_met (λ answers. is_answered answers.text.now entry.now) self.now.answers) }
    {
        match &self.answers {
            Some(answers) => answers.is_answered(alloc, entry),
            None => Ok(true),
        }
    }

    /// Whether a step with this record, after which these are the fates, is selected.
    pub fn selects(
        &self,
        alloc: Global,
        entry: &Record,
        fates: &[FateRow],
    ) -> Result<bool, AllocError>
        ensures { IfOk result (λ is. is ≡ is_selected self.now entry.now fates.now) }
    {
        if self.meets_name(entry, fates) && self.meets_client(entry) {
            self.meets_answers(alloc, entry)
        } else {
            Ok(false)
        }
    }
}
