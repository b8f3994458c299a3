//! Sentences about a device, each of which speaks against an answer that was seen.

ghost use Rattle.std.specs.Prelude.{◌++◌, decimal};
ghost use Rattle.dsa_event_text.specs.Added.{Adds};
ghost use Rattle.dsa_conform.specs.Facts.{front_is_words, may_start_words, may_take_words, never_words, next_name_words, no_failure_words, not_of_group_words, noted_words, queue_count_words, removes_nothing_words, room_words, unlocked_words, waits_for_nothing_words};

use dsa_event_text::{Added, add_count, add_number};
use itoa::Buffer;

// Adds a text with a number in it.
fn add_counted(text: &mut String, before: &str, number: u32, after: &str) -> Added
    ensures { Adds result text.old text.new (before.now ++ decimal number ++ after.now) }
{
    add_number(text, before, number)?;
    text.push_str(after)
}

// Adds a text with two numbers in it.
fn add_both(text: &mut String, before: &str, first: u32, between: &str, second: u32) -> Added
    ensures { Adds result text.old text.new
        (before.now ++ decimal first ++ (between.now ++ decimal second)) }
{
    add_number(text, before, first)?;
    add_number(text, between, second)
}

// Adds a text and a size.
fn add_size(text: &mut String, before: &str, size: usize) -> Added
    ensures { Adds result text.old text.new (before.now ++ decimal size) }
{
    let mut buffer = Buffer::new();
    text.push_str(before)?;
    text.push_str(buffer.format(size))
}

/// Says that a step of this kind never has such an answer.
pub fn add_never(text: &mut String, kind: &str) -> Added
    ensures { Adds result text.old text.new (never_words kind.now) }
{
    text.push_str("no ")?;
    text.push_str(kind)?;
    text.push_str(" is answered so")
}

/// Adds for how many steps the history has room, and how many it has.
pub fn add_room(text: &mut String, capacity: u64, made: usize) -> Added
    ensures { Adds result text.old text.new (room_words capacity made) }
{
    let before = "the history has room for ";
    add_count(text, before, capacity, "step", "steps")?;
    add_size(text, ", and has ", made)
}

/// Adds the name that the next entry gets.
pub fn add_next_name(text: &mut String, name: u32) -> Added
    ensures { Adds result text.old text.new (next_name_words name) }
{
    add_number(text, "the next name is ", name)
}

/// Adds how many queues the device has.
pub fn add_queue_count(text: &mut String, queues: u16) -> Added
    ensures { Adds result text.old text.new (queue_count_words queues) }
{
    let count = u64::from(queues);
    add_count(text, "the device has ", count, "queue", "queues")
}

/// Says that the queue is not one of the engine's group.
pub fn add_not_of_group(text: &mut String, queue: u16, group: u16) -> Added
    ensures { Adds result text.old text.new (not_of_group_words queue group) }
{
    add_both(
        text,
        "q",
        u32::from(queue),
        " is not in group ",
        u32::from(group),
    )
}

/// Adds the front of the queue, by its name.
pub fn add_front_is(text: &mut String, queue: u16, name: u32) -> Added
    ensures { Adds result text.old text.new (front_is_words queue name) }
{
    add_number(text, "q", u32::from(queue))?;
    add_number(text, "'s front is ", name)
}

/// Says that the engine may take the front of the queue, which has this name.
pub fn add_may_take(text: &mut String, engine: u16, name: u32, queue: u16) -> Added
    ensures { Adds result text.old text.new (may_take_words engine name queue) }
{
    add_number(text, "e", u32::from(engine))?;
    add_number(text, " may take ", name)?;
    add_number(text, " from q", u32::from(queue))
}

/// Says that the engine has a member that may start.
pub fn add_may_start(text: &mut String, engine: u16) -> Added
    ensures { Adds result text.old text.new (may_start_words engine) }
{
    add_number(text, "e", u32::from(engine))?;
    text.push_str(" has a member that may start")
}

/// Says that the entry of this name waits for nothing.
pub fn add_waits_for_nothing(text: &mut String, name: u32) -> Added
    ensures { Adds result text.old text.new (waits_for_nothing_words name) }
{
    add_number(text, "", name)?;
    text.push_str(" waits for nothing")
}

/// Says that nothing of the entry of this name failed.
pub fn add_no_failure(text: &mut String, name: u32) -> Added
    ensures { Adds result text.old text.new (no_failure_words name) }
{
    add_number(text, "nothing of ", name)?;
    text.push_str(" failed")
}

/// Says that the command removes nothing.
pub fn add_removes_nothing(text: &mut String) -> Added
    ensures { Adds result text.old text.new removes_nothing_words }
{
    text.push_str("the command removes no entry")
}

/// Says that nothing locks a configuration.
pub fn add_unlocked(text: &mut String) -> Added
    ensures { Adds result text.old text.new unlocked_words }
{
    text.push_str("the device has it, and nothing locks it")
}

/// Says that an error of the queue is noted.
pub fn add_noted(text: &mut String, queue: u16) -> Added
    ensures { Adds result text.old text.new (noted_words queue) }
{
    add_counted(text, "an error of q", u32::from(queue), " is noted")
}
