//! What the check of an enable finds.

ghost use Rattle.std.specs.Prelude.{codes};
ghost use Rattle.dsa_event_text.specs.Added.{Adds};
ghost use Rattle.dsa_explain_lines.specs.Sentences.{above_words, check_sentence, counted, queue_check_words};

use crate::groups::{add_missing, add_outside, add_shared};
use crate::words::{add_counted, add_counted_twice, add_group};
use dsa_event_text::{Added, add_count, add_number};
use dsa_regs::CheckReason;

// What there is to say of a queue.
fn add_field(text: &mut String, before: &str, number: u16, after: &str) -> Added
    ensures { Adds result text.old text.new (counted before.now number after.now) }
{
    add_counted(text, before, u32::from(number), after)
}

// A field of a queue that is above what it may be.
fn add_above(
    text: &mut String,
    field: &str,
    queue: u16,
    value: u32,
    bound: &str,
    most: u32,
) -> Added
    ensures { Adds result text.old text.new (above_words field.now queue value bound.now most) }
{
    add_number(text, field, u32::from(queue))?;
    add_counted_twice(text, " is ", value, bound, most, "")
}

// A shift of a queue that is above that of the device.
fn add_shift(text: &mut String, field: &str, queue: u16, asked: u8, most: u8) -> Added
    ensures { Adds result text.old text.new
        (above_words field.now queue asked (codes ", above the device's ") most) }
{
    let (asked, most) = (u32::from(asked), u32::from(most));
    add_above(text, field, queue, asked, ", above the device's ", most)
}

// What it finds of a queue.
fn add_queue_check(text: &mut String, reason: &CheckReason) -> Added
    ensures { Adds result text.old text.new (queue_check_words reason.now) }
{
    match *reason {
        CheckReason::SizeZero { queue } => add_field(text, "the size of q", queue, " is 0"),
        CheckReason::PriorityZero { queue } => add_field(text, "the priority of q", queue, " is 0"),
        CheckReason::PriorityTooLarge { queue, priority } => {
            let priority = u32::from(priority);
            add_above(text, "the priority of q", queue, priority, ", above ", 15)
        }
        CheckReason::ThresholdZero { queue } => {
            add_field(text, "the threshold of q", queue, " is 0")
        }
        CheckReason::ThresholdAboveSize {
            queue,
            threshold,
            size,
        } => {
            let (value, size) = (u32::from(threshold), u32::from(size));
            add_above(
                text,
                "the threshold of q",
                queue,
                value,
                ", above its size of ",
                size,
            )
        }
        CheckReason::BatchTooLarge { queue, asked, most } => {
            add_shift(text, "the batch shift of q", queue, asked, most)
        }
        CheckReason::TransferTooLarge { queue, asked, most } => {
            add_shift(text, "the transfer shift of q", queue, asked, most)
        }
        CheckReason::NoGroup { queue } => add_field(text, "no group has q", queue, ""),
        _ => Ok(()),
    }
}

/// Adds the sentence of what the check of an enable finds.
pub fn add_check_reason(text: &mut String, reason: &CheckReason) -> Added
    ensures { Adds result text.old text.new (check_sentence reason.now) }
{
    match *reason {
        CheckReason::NamesMissing {
            group,
            named,
            count,
        } => add_missing(text, group, named, count),
        CheckReason::SizesTooLarge { sizes, total } => {
            let before = "the sizes of the queues are ";
            add_counted_twice(text, before, sizes, ", of ", u32::from(total), "")
        }
        CheckReason::TwoGroups {
            named,
            first,
            second,
        } => add_shared(text, named, first, second),
        CheckReason::ReservedTooMany { reserved, total } => {
            let (before, reserved) = ("the groups reserve ", u64::from(reserved));
            add_count(text, before, reserved, "read buffer", "read buffers")?;
            add_counted(text, ", of ", u32::from(total), "")
        }
        CheckReason::AllowedOutOfRange {
            group,
            allowed,
            bound,
        } => add_outside(text, group, allowed, bound),
        CheckReason::GroupWithoutEngine { group } => {
            add_group(text, "group ", group, " has a queue and no engine")
        }
        CheckReason::GroupWithoutQueue { group } => {
            add_group(text, "group ", group, " has an engine and no queue")
        }
        _ => add_queue_check(text, reason),
    }
}
