//! Lines: one for each step object, and one for each entry that ended.

ghost use Rattle.std.specs.Prelude.{◌≡◌, ◌<◌, ◌++◌, false, OnOk, string_bytes, flat_map};
ghost use Rattle.std.specs.Fmt.{decimal, digit_glyph};
ghost use Rattle.dsa_scenario.specs.Lines.{two_digits, cause_text, refusal_text, submit_text, dispatch_text, fetch_text, start_text, finish_text, issue_text, poll_text, write_text, noted_text, clear_text, reply_text, parent_text, fate_text, row_text, record_text, line_of_text};

use crate::run::Record;
use dsa_book::{
    Cause, ClearAnswer, DispatchAnswer, Fate, FateRow, FetchAnswer, FinishAnswer, IssueAnswer,
    NotedError, PollAnswer, Reply, StartAnswer, SubmitAnswer, WriteAnswer,
};
use dsa_regs::Fault;
use itoa::Buffer;
use std::alloc::AllocError;
use std::fmt::Write;

fn cause_text(cause: Cause) -> &'static str
    ensures { result.now ≡ cause_text cause }
{
    match cause {
        Cause::AtLimit => "at-limit",
        Cause::NotEnabled => "not-enabled",
        Cause::WrongKind => "wrong-kind",
    }
}

// A hexadecimal digit in lower case.
#[inline(always)]
fn hex_digit(n: u8) -> char
    requires { n < 16 }
    ensures { result ≡ digit_glyph false n }
{
    char::from(if n < 10 { b'0' + n } else { b'a' + (n - 10) })
}

// Two hexadecimal digits. The formatter would pad them, at more than the rest of the line costs.
#[inline(always)]
fn add_status(text: &mut String, status: u8) -> Result<(), AllocError>
    ensures { OnOk result (string_bytes text.new ≡ string_bytes text.old ++ two_digits status) }
{
    text.push(hex_digit(status / 16))?;
    text.push(hex_digit(status % 16))
}

// A word and a number.
#[inline(always)]
fn add_number(text: &mut String, word: &str, number: u32) -> Result<(), AllocError>
    ensures { OnOk result
        (string_bytes text.new ≡ string_bytes text.old ++ word.now ++ decimal number) }
{
    let mut buffer = Buffer::new();
    text.push_str(word)?;
    text.push_str(buffer.format(number))
}

// A word and a status.
#[inline(always)]
fn add_ended(text: &mut String, word: &str, status: u8) -> Result<(), AllocError>
    ensures { OnOk result
        (string_bytes text.new ≡ string_bytes text.old ++ (word.now ++ two_digits status)) }
{
    text.push_str(word)?;
    add_status(text, status)
}

fn add_refusal(text: &mut String, fault: Fault) -> Result<(), AllocError>
    ensures { OnOk result (string_bytes text.new ≡ string_bytes text.old ++ refusal_text fault) }
{
    add_number(text, "refused ", u32::from(fault.number()))?;
    text.push_str(" ")?;
    text.push_str(fault.name())
}

fn add_submit(text: &mut String, answer: SubmitAnswer) -> Result<(), AllocError>
    ensures { OnOk result (string_bytes text.new ≡ string_bytes text.old ++ submit_text answer) }
{
    match answer {
        SubmitAnswer::Accepted(ticket) => add_number(text, "accepted ", ticket.name),
        SubmitAnswer::Retry(cause) => write!(text, "retry {}", cause_text(cause)),
        SubmitAnswer::Dropped(cause) => write!(text, "dropped {}", cause_text(cause)),
        SubmitAnswer::Full => text.push_str("full"),
    }
}

#[inline(always)]
fn add_dispatch(text: &mut String, answer: DispatchAnswer) -> Result<(), AllocError>
    ensures { OnOk result (string_bytes text.new ≡ string_bytes text.old ++ dispatch_text answer) }
{
    match answer {
        DispatchAnswer::Taken { ticket, queue } => {
            add_number(text, "taken ", ticket.name)?;
            add_number(text, " from ", u32::from(queue))
        }
        DispatchAnswer::Idle => text.push_str("idle"),
        DispatchAnswer::Full => text.push_str("full"),
    }
}

fn add_fetch(text: &mut String, answer: FetchAnswer) -> Result<(), AllocError>
    ensures { OnOk result (string_bytes text.new ≡ string_bytes text.old ++ fetch_text answer) }
{
    match answer {
        FetchAnswer::Fetched(ticket) => add_number(text, "fetched ", ticket.name),
        FetchAnswer::NoBatch => text.push_str("no-batch"),
        FetchAnswer::AllFetched => text.push_str("all-fetched"),
        FetchAnswer::Full => text.push_str("full"),
    }
}

fn add_start(text: &mut String, answer: StartAnswer) -> Result<(), AllocError>
    ensures { OnOk result (string_bytes text.new ≡ string_bytes text.old ++ start_text answer) }
{
    match answer {
        StartAnswer::Started(ticket) => add_number(text, "started ", ticket.name),
        StartAnswer::FenceWait => text.push_str("fence-wait"),
        StartAnswer::NoBuffers => text.push_str("no-buffers"),
        StartAnswer::Abandoned(count) => add_number(text, "abandoned ", count),
        StartAnswer::Nothing => text.push_str("nothing"),
        StartAnswer::Full => text.push_str("full"),
    }
}

fn add_finish(text: &mut String, answer: FinishAnswer) -> Result<(), AllocError>
    ensures { OnOk result (string_bytes text.new ≡ string_bytes text.old ++ finish_text answer) }
{
    match answer {
        FinishAnswer::Done(status) => add_ended(text, "done ", status),
        FinishAnswer::NotReady => text.push_str("not-ready"),
        FinishAnswer::Gone => text.push_str("gone"),
        FinishAnswer::Full => text.push_str("full"),
    }
}

fn add_issue(text: &mut String, answer: IssueAnswer) -> Result<(), AllocError>
    ensures { OnOk result (string_bytes text.new ≡ string_bytes text.old ++ issue_text answer) }
{
    match answer {
        IssueAnswer::Ended { aborted } => add_number(text, "ended ", aborted),
        IssueAnswer::Active => text.push_str("active"),
        IssueAnswer::Refused(fault) => add_refusal(text, fault),
        IssueAnswer::Full => text.push_str("full"),
    }
}

fn add_poll(text: &mut String, answer: PollAnswer) -> Result<(), AllocError>
    ensures { OnOk result (string_bytes text.new ≡ string_bytes text.old ++ poll_text answer) }
{
    text.push_str(match answer {
        PollAnswer::Finished => "finished",
        PollAnswer::Active => "active",
        PollAnswer::Nothing => "nothing",
        PollAnswer::Full => "full",
    })
}

fn add_write(text: &mut String, answer: WriteAnswer) -> Result<(), AllocError>
    ensures { OnOk result (string_bytes text.new ≡ string_bytes text.old ++ write_text answer) }
{
    match answer {
        WriteAnswer::Written => text.push_str("written"),
        WriteAnswer::Refused(fault) => add_refusal(text, fault),
        WriteAnswer::Full => text.push_str("full"),
    }
}

fn add_noted(text: &mut String, noted: NotedError) -> Result<(), AllocError>
    ensures { OnOk result (string_bytes text.new ≡ string_bytes text.old ++ noted_text noted) }
{
    let overflow = if noted.overflow { " overflow" } else { "" };
    let cause = cause_text(noted.cause);
    write!(text, "cleared {} {cause}{overflow}", noted.queue)
}

fn add_clear(text: &mut String, answer: ClearAnswer) -> Result<(), AllocError>
    ensures { OnOk result (string_bytes text.new ≡ string_bytes text.old ++ clear_text answer) }
{
    match answer {
        ClearAnswer::Cleared(noted) => add_noted(text, noted),
        ClearAnswer::Nothing => text.push_str("nothing"),
        ClearAnswer::Full => text.push_str("full"),
    }
}

#[inline(always)]
fn add_reply(text: &mut String, reply: Reply) -> Result<(), AllocError>
    ensures { OnOk result (string_bytes text.new ≡ string_bytes text.old ++ reply_text reply) }
{
    match reply {
        Reply::Submit(answer) => add_submit(text, answer),
        Reply::Dispatch(answer) => add_dispatch(text, answer),
        Reply::Fetch(answer) => add_fetch(text, answer),
        Reply::Start(answer) => add_start(text, answer),
        Reply::Finish(answer) => add_finish(text, answer),
        Reply::Issue(answer) => add_issue(text, answer),
        Reply::Poll(answer) => add_poll(text, answer),
        Reply::Write(answer) => add_write(text, answer),
        Reply::Clear(answer) => add_clear(text, answer),
    }
}

/// Adds what a record answers: its line without the line's end.
#[inline(always)]
pub fn add_answer(text: &mut String, entry: &Record) -> Result<(), AllocError>
    ensures { OnOk result (string_bytes text.new ≡ string_bytes text.old ++ record_text entry.now) }
{
    match entry {
        Record::Stepped(step) => add_reply(text, step.reply),
        Record::Refused(word) => add_refusal(text, word.fault),
    }
}

/// Adds the line of a record.
#[inline(always)]
pub fn add_record(text: &mut String, entry: &Record) -> Result<(), AllocError>
    ensures { OnOk result
        (string_bytes text.new ≡ string_bytes text.old ++ line_of_text (record_text entry.now)) }
{
    add_answer(text, entry)?;
    text.push_str("\n")
}

fn add_parent(text: &mut String, parent: Option<u32>) -> Result<(), AllocError>
    ensures { OnOk result (string_bytes text.new ≡ string_bytes text.old ++ parent_text parent) }
{
    match parent {
        Some(name) => add_number(text, "", name),
        None => text.push_str("-"),
    }
}

fn add_fate(text: &mut String, fate: Fate) -> Result<(), AllocError>
    ensures { OnOk result (string_bytes text.new ≡ string_bytes text.old ++ fate_text fate) }
{
    match fate {
        Fate::Completed(status) => add_ended(text, "completed ", status),
        Fate::Aborted(command) => add_number(text, "aborted ", u32::from(command)),
        Fate::Abandoned => text.push_str("abandoned"),
    }
}

fn add_row(text: &mut String, row: &FateRow) -> Result<(), AllocError>
    ensures { OnOk result
        (string_bytes text.new ≡ string_bytes text.old ++ line_of_text (row_text row.now)) }
{
    add_number(text, "fate ", row.name)?;
    text.push_str(" ")?;
    add_parent(text, row.parent)?;
    text.push_str(" ")?;
    add_fate(text, row.fate)?;
    text.push_str("\n")
}

/// Adds a line for each fate row.
pub fn add_rows(text: &mut String, fates: &[FateRow]) -> Result<(), AllocError>
    ensures { OnOk result
        (string_bytes text.new
        ≡ string_bytes text.old ++ flat_map (λ row. line_of_text (row_text row)) fates.now) }
{
    for row in fates {
        add_row(text, row)?;
    }
    Ok(())
}
