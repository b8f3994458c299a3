//! Why an entry ends without success.

ghost use Rattle.dsa_event_text.specs.Added.{Adds};
ghost use Rattle.dsa_explain_lines.specs.Sentences.{done_sentence, first_of_words, members_failed_words, outside_limit_words, power_words, status_digits, unsupported_words};

use crate::words::add_counted;
use dsa_desc::opcode::Operation;
use dsa_event_text::{Added, add_number};
use dsa_explain::DoneReason;
use itoa::Buffer;
use std::fmt::Write;

// That the operation is none, or none for a batch.
fn add_unsupported(text: &mut String, op: u8) -> Added
    ensures { Adds result text.old text.new (unsupported_words op) }
{
    match Operation::of(op) {
        Some(operation) => {
            text.push_str(operation.word)?;
            text.push_str(" is not supported in a batch")
        }
        None => write!(text, "operation 0x{op:x} is not supported"),
    }
}

// Two to the power of the shift.
fn add_power(text: &mut String, shift: u8) -> Added
    ensures { Adds result text.old text.new (power_words shift) }
{
    if shift < 32 {
        add_number(text, "", 1 << shift)
    } else {
        add_number(text, "2^", u32::from(shift))
    }
}

// That a number is below the least that it may be, or above a limit of the queue.
fn add_outside_limit(
    text: &mut String,
    before: &str,
    n: u32,
    least: u32,
    limit: &str,
    shift: u8,
    queue: u16,
) -> Added
    ensures { Adds result text.old text.new
        (outside_limit_words before.now n least limit.now shift queue) }
{
    add_number(text, before, n)?;
    if n < least {
        return add_number(text, " is below ", least);
    }
    text.push_str(" is above ")?;
    add_power(text, shift)?;
    add_number(text, limit, u32::from(queue))
}

// A status in two hexadecimal digits.
fn add_status(text: &mut String, status: u8) -> Added
    ensures { Adds result text.old text.new (status_digits status) }
{
    if status < 16 {
        text.push_str("0")?;
    }
    write!(text, "{status:x}")
}

// How many members failed, where one is not all of them.
fn add_first_of(text: &mut String, failed: usize) -> Added
    ensures { Adds result text.old text.new (first_of_words failed) }
{
    if failed < 2 {
        return Ok(());
    }
    let mut buffer = Buffer::new();
    text.push_str(", the first of ")?;
    text.push_str(buffer.format(failed))
}

// The first of the members that failed, and how many there are.
fn add_members_failed(text: &mut String, first: u32, status: u8, failed: usize) -> Added
    ensures { Adds result text.old text.new (members_failed_words first status failed) }
{
    add_counted(text, "member ", first, " ended with ")?;
    add_status(text, status)?;
    add_first_of(text, failed)
}

/// Adds the sentence of why an entry ends without success.
pub fn add_done_reason(text: &mut String, reason: &DoneReason) -> Added
    ensures { Adds result text.old text.new (done_sentence reason.now) }
{
    match *reason {
        DoneReason::NotSupported { op } => add_unsupported(text, op),
        DoneReason::FenceOutside => text.push_str("a fence outside a batch"),
        DoneReason::SizeOutside { size, shift, queue } => {
            add_outside_limit(
                text,
                "size ",
                size,
                1,
                ", the transfer limit of q",
                shift,
                queue,
            )
        }
        DoneReason::CountOutside {
            count,
            shift,
            queue,
        } => {
            add_outside_limit(
                text,
                "count ",
                count,
                2,
                ", the batch limit of q",
                shift,
                queue,
            )
        }
        DoneReason::MembersFailed {
            first,
            status,
            failed,
        } => add_members_failed(text, first, status, failed),
        DoneReason::FailureForgotten => text.push_str("a member failed"),
        DoneReason::PageFault => text.push_str("page fault"),
    }
}
