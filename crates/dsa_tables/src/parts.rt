//! The parts of lines, and which findings each has.

ghost use Rattle.std.specs.Prelude.{◌≡◌, ◌==◌};
ghost use Rattle.dsa_book.specs.declared.answer.Reply.{Reply};
ghost use Rattle.dsa_explore.specs.declared.found.Finding.TheVariants.{Answer};
ghost use Rattle.dsa_tables.specs.declared.parts.Part.TheVariants.{Entry, Answers};
ghost use Rattle.dsa_tables.specs.Lines.{is_in_part, part_mark, part_none};

use dsa_explore::{Ask, Finding};

/// A part of a line.
#[derive(Clone, Copy)]
pub enum Part {
    /// What became of the entry with this label.
    Entry(usize),
    /// What was answered to the act with this number.
    Answers(usize),
    /// The entries that the act's command waits for.
    Waits(usize),
    /// The entries that the act removed.
    Removals(usize),
}

// Whether the label, or the act, has this number.
fn is_number(label: u32, number: usize) -> bool
    ensures { result ≡ (label == number) }
{
    label as usize == number
}

// Whether the submission with this label is asked for.
fn is_submission(ask: Ask, label: usize) -> bool
    ensures { (reply : Reply) → result ≡ is_in_part (Entry label) (Answer ask reply) }
{
    match ask {
        Ask::Submission(other) => is_number(other, label),
        Ask::Act(_) => false,
    }
}

// Whether the act with this number is asked for.
fn is_act(ask: Ask, act: usize) -> bool
    ensures { (reply : Reply) → result ≡ is_in_part (Answers act) (Answer ask reply) }
{
    match ask {
        Ask::Submission(_) => false,
        Ask::Act(other) => is_number(other, act),
    }
}

/// Whether the finding belongs to the part.
pub fn is_in_part(part: Part, finding: &Finding) -> bool
    ensures { result ≡ is_in_part part finding.now }
{
    match (part, *finding) {
        (Part::Entry(label), Finding::Answer { ask, .. }) => is_submission(ask, label),
        (Part::Entry(number), Finding::End { label, .. }) => is_number(label, number),
        (Part::Answers(act), Finding::Answer { ask, .. }) => is_act(ask, act),
        (Part::Waits(number), Finding::Wait { act, .. }) => is_number(act, number),
        (Part::Removals(number), Finding::Removal { act, .. }) => is_number(act, number),
        _ => false,
    }
}

/// What stands before the first finding of the part.
pub fn part_mark(part: Part) -> &'static str
    ensures { result.now ≡ part_mark part }
{
    match part {
        Part::Entry(_) | Part::Answers(_) => ": ",
        Part::Waits(_) => "; waits for ",
        Part::Removals(_) => "; removes ",
    }
}

/// What stands there where the part has no finding.
pub fn part_none(part: Part) -> &'static str
    ensures { result.now ≡ part_none part }
{
    match part {
        Part::Entry(_) | Part::Answers(_) => ": nothing",
        Part::Waits(_) | Part::Removals(_) => "",
    }
}
