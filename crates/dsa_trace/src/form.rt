//! The forms of a trace, and what stands before the parts of their lines.

ghost use Rattle.std.specs.Prelude.{◌≡◌, decimal, length, replicate};
ghost use Rattle.dsa_event_text.specs.Added.{Adds};
ghost use Rattle.dsa_trace.specs.Columns.{aligned, marked};
ghost use Rattle.dsa_trace.specs.Marks.{comma, mark, marks, pad};

use dsa_event_text::{Added, add_number};
use itoa::Buffer;

/// The form of a trace (profile).
#[derive(Clone, Copy, Debug, PartialEq, Eq)]
pub enum Trace {
    /// A row of a table for each step, with what is configured.
    Table,
    /// Such a row with all queues, engines and groups.
    Wide,
    /// A JSON object for each step, in a line of its own.
    Json,
    /// A row for each step with what the step changed.
    Changes,
}

/// What a line has an array of.
#[derive(Clone, Copy)]
pub enum Items {
    Queues,
    Engines,
    Groups,
}

/// A part of a line.
#[derive(Clone, Copy)]
pub enum Part {
    Step,
    Event,
    Answer,
    AnswerEnd,
    Result,
    Fates,
    FatesEnd,
    StateStart,
    ObjectEnd,
    DevicePhase,
    NoError,
    Error,
    Items(Items),
    NoCommand,
    NoMoreCommand,
    Active,
    Awaited,
    LineEnd,
    Queue,
    Occupancy,
    Threshold,
    Size,
    QueuePhase,
    TextEnd,
    Waiting,
    Engine,
    InProgress,
    Slots,
    Members,
    Names,
    MemberNames,
    NamesEnd,
    NoBatch,
    Batch,
    Group,
    Used,
    Allowed,
    Reserved,
    Held,
    InList,
    HeldEnd,
}

// The text before this part, in a row and in a JSON object.
#[inline(always)]
fn marks(part: Part) -> (&'static str, &'static str)
    ensures table { result.0.now ≡ (marks part).0 }
    ensures json { result.1.now ≡ (marks part).1 }
{
    match part {
        Part::Step => ("", "{\"step\":"),
        Part::Event => (" | ", ",\"event\":\""),
        Part::Answer => (" -> ", "\",\"answer\":\""),
        Part::AnswerEnd => ("", "\","),
        Part::Result => ("", "\"result\":{\"kind\":\""),
        Part::Fates => ("", "},\"fates\":["),
        Part::FatesEnd => ("", "],"),
        Part::StateStart => ("", "{"),
        Part::ObjectEnd => ("", "}"),
        Part::DevicePhase => ("", "\"phase\":\""),
        Part::NoError => ("", "\",\"error\":null"),
        Part::Error => ("", "\",\"error\":{"),
        Part::Items(Items::Queues) => (" |", ",\"queues\":["),
        Part::Items(Items::Engines) => (" |", "],\"engines\":["),
        Part::Items(Items::Groups) => (" |", "],\"groups\":["),
        Part::NoCommand => ("", "],\"active\":null"),
        Part::NoMoreCommand => (" | no command", ""),
        Part::Active => (" | ", "],\"active\":{\"command\":\""),
        Part::Awaited => (" awaits ", "\",\"awaited\":"),
        Part::LineEnd => ("\n", "}\n"),
        Part::Queue => (" q", "{\"queue\":"),
        Part::Occupancy => (" ", ",\"occupancy\":"),
        Part::Threshold => ("/", ",\"threshold\":"),
        Part::Size => ("/", ",\"size\":"),
        Part::QueuePhase => ("", ",\"phase\":\""),
        Part::TextEnd => ("", "\""),
        Part::Waiting => ("", ",\"waiting\":["),
        Part::Engine => (" e", "{\"engine\":"),
        Part::InProgress => (" ", ",\"in_progress\":"),
        Part::Slots => ("/", ",\"slots\":"),
        Part::Members => (" m", ",\"members\":"),
        Part::Names => ("", ",\"names\":["),
        Part::MemberNames => ("", ",\"member_names\":["),
        Part::NamesEnd => ("", "]"),
        Part::NoBatch => ("", ",\"batch\":null"),
        Part::Batch => ("", ",\"batch\":{"),
        Part::Group => (" g", "{\"group\":"),
        Part::Used => (" ", ",\"used\":"),
        Part::Allowed => ("/", ",\"allowed\":"),
        Part::Reserved => ("", ",\"reserved\":"),
        Part::Held => ("held ", "{\"held\":"),
        Part::InList => (" in ", ",\"list\":\""),
        Part::HeldEnd => ("\n", "\"}\n"),
    }
}

impl Trace {
    /// What stands before the part, or in its place.
    #[inline(always)]
    pub fn mark(self, part: Part) -> &'static str
        ensures { result.now ≡ mark self part }
    {
        let (row, json) = marks(part);
        match self {
            Trace::Table | Trace::Wide | Trace::Changes => row,
            Trace::Json => json,
        }
    }
}

/// Adds the mark of a part.
#[inline(always)]
pub fn add_mark(text: &mut String, form: Trace, part: Part) -> Added
    ensures { Adds result text.old text.new (mark form part) }
{
    text.push_str(form.mark(part))
}

/// Adds a number behind the mark of its part.
#[inline(always)]
pub fn add_marked(text: &mut String, form: Trace, part: Part, number: u32) -> Added
    ensures { Adds result text.old text.new (marked form part number) }
{
    add_number(text, form.mark(part), number)
}

// How many digits a number has.
fn digit_count(number: u64) -> usize
    ensures { result ≡ length (decimal number) }
{
    let mut buffer = Buffer::new();
    buffer.format(number).len()
}

fn add_spaces(text: &mut String, count: usize) -> Added
    ensures { Adds result text.old text.new (replicate count 32) }
{
    for _ in 0..count {
        text.push_str(" ")?;
    }
    Ok(())
}

/// Adds what makes a number in a row as wide as the greatest one.
pub fn add_pad(text: &mut String, form: Trace, number: u64, most: u64) -> Added
    ensures { Adds result text.old text.new (pad form number most) }
{
    match form {
        Trace::Json | Trace::Changes => Ok(()),
        Trace::Table | Trace::Wide => add_spaces(
            text,
            digit_count(most).saturating_sub(digit_count(number)),
        ),
    }
}

/// Adds a number behind the mark of its part, in a row as wide as the greatest one.
pub fn add_aligned(text: &mut String, form: Trace, part: Part, number: u32, most: u32) -> Added
    ensures { Adds result text.old text.new (aligned form part number most) }
{
    add_mark(text, form, part)?;
    add_pad(text, form, u64::from(number), u64::from(most))?;
    add_number(text, "", number)
}

/// Adds what stands between the items of an array, before the item at this place.
pub fn add_comma(text: &mut String, form: Trace, place: u16) -> Added
    ensures { Adds result text.old text.new (comma form place) }
{
    match form {
        Trace::Json if place > 0 => text.push_str(","),
        _ => Ok(()),
    }
}
