//! The phases of the device and of queues, as thin lines.

ghost use Rattle.std.specs.Prelude.{◌≡◌, ◌++◌, ◌==◌, [], cond};
ghost use Rattle.dsa_event_text.specs.Added.{Adds};
ghost use Rattle.dsa_draw.specs.Bands.{phase_of_queue, phase_in, is_same_phase, stretch_after, phase_holder_text, phase_line_text, phase_line_title, phase_stretch_text, stretch_text, stretches_text, phases_text};

use crate::geometry::{column_left, columns_wide};
use crate::moment::{Level, Moment};
use dsa_event_text::{Added, add_number, phase_word};
use dsa_regs::Phase;
use std::fmt::Write;

/// What has a phase.
#[derive(Clone, Copy)]
pub enum Holder {
    Device,
    Queue(u16),
}

/// A phase, and the step since which it has it.
#[derive(Clone, Copy)]
struct Stretch {
    phase: Phase,
    begin: u32,
}

fn phase_of_queue(level: Option<Level>) -> Phase
    ensures { result ≡ phase_of_queue level }
{
    match level {
        Some(level) => level.phase.unwrap_or(Phase::Off),
        None => Phase::Off,
    }
}

// The phase at a moment. A queue that the device does not have is off.
fn phase_in(holder: Holder, moment: &Moment) -> Phase
    ensures { result ≡ phase_in holder moment.now }
{
    match holder {
        Holder::Device => moment.phase,
        Holder::Queue(queue) => phase_of_queue(moment.queues.get(usize::from(queue)).copied()),
    }
}

fn is_same(phase: Phase, other: Phase) -> bool
    ensures { result ≡ is_same_phase phase other }
{
    match phase {
        Phase::Off => other == Phase::Off,
        Phase::On => other == Phase::On,
        Phase::Stopping => other == Phase::Stopping,
    }
}

fn stretch_after(stretch: Stretch, phase: Phase, step: u32) -> Stretch
    ensures { result ≡ stretch_after step phase stretch }
{
    if is_same(stretch.phase, phase) {
        stretch
    } else {
        Stretch { phase, begin: step }
    }
}

fn add_holder(text: &mut String, holder: Holder) -> Added
    ensures { Adds result text.old text.new (phase_holder_text holder) }
{
    match holder {
        Holder::Device => text.push_str("device"),
        Holder::Queue(queue) => add_number(text, "queue ", u32::from(queue)),
    }
}

#[tactic(auto, unfolding(crate::specs::Bands::phase_line_text))]
fn add_line(text: &mut String, word: &str, begin: u32, end: u32, y: u32) -> Added
    ensures { Adds result text.old text.new (phase_line_text word.now begin end y) }
{
    let x = column_left(begin);
    let wide = columns_wide(begin, end);
    write!(text, "<path class=\"{word}\" d=\"M{x} {y}h{wide}\"><title>")
}

#[tactic(auto, unfolding(crate::specs::Bands::phase_line_title))]
fn add_line_title(text: &mut String, holder: Holder, word: &str) -> Added
    ensures { Adds result text.old text.new (phase_line_title holder word.now) }
{
    add_holder(text, holder)?;
    write!(text, " {word}</title></path>\n")
}

fn add_phase(text: &mut String, holder: Holder, y: u32, stretch: Stretch, end: u32) -> Added
    ensures { Adds result text.old text.new (phase_stretch_text holder y end stretch) }
{
    let word = phase_word(stretch.phase);
    add_line(text, word, stretch.begin, end, y)?;
    add_line_title(text, holder, word)
}

// While it is off there is no line.
fn add_stretch(text: &mut String, holder: Holder, y: u32, stretch: Stretch, end: u32) -> Added
    ensures { Adds result text.old text.new (stretch_text holder y end stretch) }
{
    match stretch.phase {
        Phase::Off => Ok(()),
        _ => add_phase(text, holder, y, stretch, end),
    }
}

// A line where a stretch ends since the phase is another.
fn add_change(
    text: &mut String,
    holder: Holder,
    y: u32,
    stretch: Stretch,
    phase: Phase,
    step: u32,
) -> Added
    ensures { Adds result text.old text.new
        (cond (is_same_phase stretch.phase phase) [] (stretch_text holder y step stretch)) }
{
    if is_same(stretch.phase, phase) {
        return Ok(());
    }
    add_stretch(text, holder, y, stretch, step)
}

/// A line at `y` for each stretch of steps in which it was on or stopping.
pub fn add_phases(text: &mut String, moments: &[Moment], holder: Holder, y: u32) -> Added
    ensures { Adds result text.old text.new (phases_text holder y moments.now) }
{
    let mut step = 0u32;
    let mut stretch = Stretch {
        phase: Phase::Off,
        begin: 0,
    };
    for moment in moments {
        let phase = phase_in(holder, moment);
        add_change(text, holder, y, stretch, phase, step)?;
        stretch = stretch_after(stretch, phase, step);
        step = step.saturating_add(1);
    }
    add_stretch(text, holder, y, stretch, step)
}
