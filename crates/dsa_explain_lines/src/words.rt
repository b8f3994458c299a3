//! What the sentences of several reasons have.

ghost use Rattle.std.specs.Prelude.{◌≡◌};
ghost use Rattle.dsa_event_text.specs.Added.{Adds};
ghost use Rattle.dsa_explain_lines.specs.Sentences.{counted, counted_twice, no_engine, no_group, no_queue, phased, want_words};

use dsa_buffers::BufferWant;
use dsa_event_text::{Added, add_count, add_number, phase_word};
use dsa_regs::Phase;
use itoa::Buffer;

/// Adds a text with a number in it.
pub fn add_counted(text: &mut String, before: &str, number: u32, after: &str) -> Added
    ensures { Adds result text.old text.new (counted before.now number after.now) }
{
    add_number(text, before, number)?;
    text.push_str(after)
}

/// Adds a text with the number of a group in it.
pub fn add_group(text: &mut String, before: &str, group: usize, after: &str) -> Added
    ensures { Adds result text.old text.new (counted before.now group after.now) }
{
    let mut buffer = Buffer::new();
    text.push_str(before)?;
    text.push_str(buffer.format(group))?;
    text.push_str(after)
}

/// Adds a text with the numbers of two groups in it.
pub fn add_two_groups(
    text: &mut String,
    before: &str,
    first: usize,
    between: &str,
    second: usize,
    after: &str,
) -> Added
    ensures { Adds result text.old text.new
        (counted_twice before.now first between.now second after.now) }
{
    let mut buffer = Buffer::new();
    add_group(text, before, first, between)?;
    text.push_str(buffer.format(second))?;
    text.push_str(after)
}

/// Adds a text with two numbers in it.
pub fn add_counted_twice(
    text: &mut String,
    before: &str,
    first: u32,
    between: &str,
    second: u32,
    after: &str,
) -> Added
    ensures { Adds result text.old text.new
        (counted_twice before.now first between.now second after.now) }
{
    add_number(text, before, first)?;
    add_number(text, between, second)?;
    text.push_str(after)
}

/// Adds a text and a phase.
pub fn add_phase(text: &mut String, before: &str, phase: Phase) -> Added
    ensures { Adds result text.old text.new (phased before.now phase) }
{
    text.push_str(before)?;
    text.push_str(phase_word(phase))
}

/// Says that there is no such engine.
pub fn add_no_engine(text: &mut String, engine: u16) -> Added
    ensures { Adds result text.old text.new (no_engine engine) }
{
    add_number(text, "the device has no e", u32::from(engine))
}

/// Says that the engine is of no group.
pub fn add_no_group(text: &mut String, engine: u16) -> Added
    ensures { Adds result text.old text.new (no_group engine) }
{
    add_counted(text, "e", u32::from(engine), " is of no group")
}

/// Says that the engine is of a group without a queue.
pub fn add_no_queue(text: &mut String, engine: u16) -> Added
    ensures { Adds result text.old text.new (no_queue engine) }
{
    add_counted(
        text,
        "e",
        u32::from(engine),
        " is of a group without a queue",
    )
}

/// Adds the numbers by which read buffers do not fit a group.
pub fn add_want(text: &mut String, want: &BufferWant) -> Added
    ensures { Adds result text.old text.new (want_words want.now) }
{
    let (asked, kept) = (u64::from(want.asked), u64::from(want.kept));
    let (used, allowed) = (u32::from(want.used), u32::from(want.allowed));
    let buffers = u32::from(want.buffers);
    add_count(text, "needs ", asked, "read buffer", "read buffers")?;
    add_counted(text, ", group ", u32::from(want.group), "")?;
    add_counted_twice(text, " uses ", used, " of ", allowed, "")?;
    add_counted_twice(text, ", all groups use ", want.in_use, " of ", buffers, "")?;
    add_count(text, ", and ", kept, "is kept", "are kept")
}
