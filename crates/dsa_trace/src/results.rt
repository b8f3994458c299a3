//! What a step answered, as an object.

ghost use Rattle.std.specs.Prelude.{◌≡◌, ◌==◌, ◌++◌, codes, decimal};
ghost use Rattle.dsa_regs.specs.Fault.{fault_name, fault_number};
ghost use Rattle.std.specs.List.{before_first};
ghost use Rattle.dsa_event_text.specs.Added.{Adds};
ghost use Rattle.dsa_trace.specs.Results.{cause_member, fault_members, result_kind, name_member};
ghost use Rattle.dsa_trace.specs.Results.{record_members, reply_members, status_member};

use crate::errors::{add_cause, add_error_members};
use dsa_book::{
    Cause, ClearAnswer, DispatchAnswer, FetchAnswer, FinishAnswer, IssueAnswer, NotedError, Reply,
    StartAnswer, SubmitAnswer, Ticket, WriteAnswer,
};
use dsa_event_text::{Added, add_number};
use dsa_regs::Fault;
use dsa_scenario::{Record, add_answer};
use std::alloc::Global;

// What stands before the first space.
fn first_word(text: &str) -> &str
    ensures { result.now ≡ before_first (λ b. b == 32) text.now }
{
    match text.split_once(' ') {
        Some((word, _rest)) => word,
        None => text,
    }
}

/// Adds the first word of the answer.
pub fn add_kind(alloc: Global, text: &mut String, entry: &Record) -> Added
    ensures { Adds result text.old text.new (result_kind entry.now) }
{
    let mut answer = String::new(alloc);
    add_answer(&mut answer, entry)?;
    text.push_str(first_word(&answer))
}

fn add_name(text: &mut String, ticket: Ticket) -> Added
    ensures { Adds result text.old text.new (name_member ticket.name) }
{
    add_number(text, ",\"name\":", ticket.name)
}

/// Adds the status of an entry that has completed.
pub fn add_status(text: &mut String, status: u8) -> Added
    ensures { Adds result text.old text.new (status_member status) }
{
    add_number(text, ",\"status\":", u32::from(status))
}

fn add_turned_away(text: &mut String, cause: Cause) -> Added
    ensures { Adds result text.old text.new (cause_member cause) }
{
    add_cause(text, ",\"cause\":\"", cause)?;
    text.push_str("\"")
}

fn add_fault_number(text: &mut String, fault: Fault) -> Added
    ensures { Adds result text.old text.new (codes ",\"fault\":" ++ decimal (fault_number fault)) }
{
    add_number(text, ",\"fault\":", u32::from(fault.number()))
}

// A word behind the text before it.
fn add_word(text: &mut String, before: &str, word: &str) -> Added
    ensures { Adds result text.old text.new (before.now ++ word.now) }
{
    text.push_str(before)?;
    text.push_str(word)
}

fn add_fault_name(text: &mut String, fault: Fault) -> Added
    ensures { Adds result text.old text.new (codes ",\"fault_name\":\"" ++ fault_name fault) }
{
    add_word(text, ",\"fault_name\":\"", fault.name())
}

fn add_fault(text: &mut String, fault: Fault) -> Added
    ensures { Adds result text.old text.new (fault_members fault) }
{
    add_fault_number(text, fault)?;
    add_fault_name(text, fault)?;
    text.push_str("\"")
}

fn add_cleared(text: &mut String, noted: &NotedError) -> Added
    ensures { Adds result text.old text.new
        (reply_members (Reply.Clear (ClearAnswer.Cleared noted.now))) }
{
    text.push_str(",")?;
    add_error_members(text, noted)
}

fn add_taken(text: &mut String, ticket: Ticket, queue: u16) -> Added
    ensures { Adds result text.old text.new
        (reply_members (Reply.Dispatch (DispatchAnswer.Taken ticket queue))) }
{
    add_name(text, ticket)?;
    add_number(text, ",\"queue\":", u32::from(queue))
}

fn add_reply_members(text: &mut String, reply: &Reply) -> Added
    ensures { Adds result text.old text.new (reply_members reply.now) }
{
    match reply {
        Reply::Submit(SubmitAnswer::Accepted(ticket)) => add_name(text, *ticket),
        Reply::Submit(SubmitAnswer::Retry(cause)) => add_turned_away(text, *cause),
        Reply::Submit(SubmitAnswer::Dropped(cause)) => add_turned_away(text, *cause),
        Reply::Dispatch(DispatchAnswer::Taken { ticket, queue }) => add_taken(
            text, *ticket, *queue,
        ),
        Reply::Fetch(FetchAnswer::Fetched(ticket)) => add_name(text, *ticket),
        Reply::Start(StartAnswer::Started(ticket)) => add_name(text, *ticket),
        Reply::Start(StartAnswer::Abandoned(count)) => add_number(text, ",\"count\":", *count),
        Reply::Finish(FinishAnswer::Done(status)) => add_status(text, *status),
        Reply::Issue(IssueAnswer::Ended { aborted }) => add_number(text, ",\"aborted\":", *aborted),
        Reply::Issue(IssueAnswer::Refused(fault)) => add_fault(text, *fault),
        Reply::Write(WriteAnswer::Refused(fault)) => add_fault(text, *fault),
        Reply::Clear(ClearAnswer::Cleared(noted)) => add_cleared(text, noted),
        _ => Ok(()),
    }
}

/// Adds what the answer tells, each behind a comma and its key.
pub fn add_record_members(text: &mut String, entry: &Record) -> Added
    ensures { Adds result text.old text.new (record_members entry.now) }
{
    match entry {
        Record::Stepped(step) => add_reply_members(text, &step.reply),
        Record::Refused(refused) => add_fault(text, refused.fault),
    }
}
