//! What engines do not do with members and with entries in progress.

ghost use Rattle.dsa_event_text.specs.Added.{Adds};
ghost use Rattle.dsa_explain_lines.specs.Sentences.{closed_words, failed_words, fetch_sentence, fetched_words, finish_sentence, start_sentence};

use crate::words::{add_counted, add_counted_twice, add_no_engine, add_no_group, add_want};
use dsa_engines::{FetchReason, FinishReason, StartReason};
use dsa_event_text::{Added, add_count, add_list, add_number};

// That the rest of a batch is abandoned, where the batch is closed.
fn add_closed(text: &mut String, closed: bool) -> Added
    ensures { Adds result text.old text.new (closed_words closed) }
{
    if closed {
        text.push_str(", and the rest is abandoned")
    } else {
        Ok(())
    }
}

// How many members of its batch the engine has fetched.
fn add_fetched(text: &mut String, engine: u16, fetched: u32, count: u32) -> Added
    ensures { Adds result text.old text.new (fetched_words engine fetched count) }
{
    add_counted_twice(text, "e", u32::from(engine), " has fetched ", fetched, "")?;
    add_count(text, " of ", u64::from(count), "member", "members")
}

/// Adds the sentence of why the engine fetches no member.
pub fn add_fetch_reason(text: &mut String, engine: u16, reason: &FetchReason) -> Added
    ensures { Adds result text.old text.new (fetch_sentence engine reason.now) }
{
    match *reason {
        FetchReason::NoEngine => add_no_engine(text, engine),
        FetchReason::NoBatch => add_counted(text, "e", u32::from(engine), " works on no batch"),
        FetchReason::AllFetched {
            count,
            fetched,
            closed,
        } => {
            add_fetched(text, engine, fetched, count)?;
            add_closed(text, closed)
        }
    }
}

// The member that failed, where its fate says which.
fn add_failed(text: &mut String, failed: Option<u32>) -> Added
    ensures { Adds result text.old text.new (failed_words failed) }
{
    match failed {
        Some(name) => add_number(text, "member ", name),
        None => text.push_str("a member"),
    }
}

/// Adds the sentence of why the engine starts no member.
pub fn add_start_reason(text: &mut String, engine: u16, reason: &StartReason) -> Added
    ensures { Adds result text.old text.new (start_sentence engine reason.now) }
{
    match reason {
        StartReason::Nothing => add_counted(text, "no member waits on e", u32::from(engine), ""),
        StartReason::Fence { member, waits_for } => {
            let between = " has a fence, and waits for ";
            add_counted_twice(text, "member ", *member, between, *waits_for, "")
        }
        StartReason::Failed {
            member,
            failed,
            left,
        } => {
            add_counted(text, "member ", *member, " has a fence, ")?;
            add_failed(text, *failed)?;
            let (before, left) = (" before it failed, and ", u64::from(*left));
            add_count(text, before, left, "ends unstarted", "end unstarted")
        }
        StartReason::NoBuffers(want) => {
            text.push_str("the member ")?;
            add_want(text, want)
        }
        StartReason::NoGroup => add_no_group(text, engine),
    }
}

/// Adds the sentence of why the engine does not end the entry.
pub fn add_finish_reason(text: &mut String, engine: u16, reason: &FinishReason) -> Added
    ensures { Adds result text.old text.new (finish_sentence engine reason.now) }
{
    match *reason {
        FinishReason::NoEngine => add_no_engine(text, engine),
        FinishReason::NoEntry => text.push_str("the cell of the ticket holds no entry"),
        FinishReason::OtherName { name } => {
            add_counted(text, "the cell of the ticket holds ", name, " by now")
        }
        FinishReason::Elsewhere { list } => {
            text.push_str("the entry stands in ")?;
            add_list(text, list)
        }
        FinishReason::NotStarted => text.push_str("the member has not started"),
        FinishReason::MembersLeft { left } => {
            let (one, many) = ("member has not ended", "members have not ended");
            add_count(text, "", u64::from(left), one, many)
        }
        FinishReason::StillToFetch { fetched, count } => {
            add_fetched(text, engine, fetched, count)
        }
        FinishReason::DrainWaits { first } => add_counted(text, "the drain waits for ", first, ""),
    }
}
