//! The lines that are told of parties and questions.

ghost use Rattle.std.specs.Prelude.{◌≡◌, option_map};
ghost use Rattle.dsa_event_text.specs.Added.{Adds};
ghost use Rattle.dsa_party_check.specs.Complaints.{complained};
ghost use Rattle.dsa_party_check.specs.PartyLines.{complaint_line, inside_text, kind_words};
ghost use Rattle.dsa_party_check.specs.PartyLines.{part_of_fault, place_text, seat_text};
ghost use Rattle.dsa_party_check.specs.PartyLines.{where_text};

use crate::complaint::{Complaint, Inside, Subject};
use dsa_check::{Spot, add_mark};
use dsa_event_text::Added;
use dsa_questions::key_of;
use dsa_scenario::{ScenarioFault, StepKind};
use std::fmt::Write;

fn add_place(text: &mut String, spot: Option<Spot>) -> Added
    ensures { Adds result text.old text.new (place_text spot) }
{
    match spot {
        Some(spot) => write!(text, "line {}, column {}, ", spot.line, spot.column),
        None => Ok(()),
    }
}

// Which of its list a subject is.
fn add_seat(text: &mut String, subject: Subject) -> Added
    ensures { Adds result text.old text.new (seat_text subject) }
{
    match subject {
        Subject::Client(place) => write!(text, " (client {place})"),
        Subject::Administrator(place) => write!(text, " (admin {place})"),
        Subject::Question(kind, place) => write!(text, " ({} {place})", key_of(kind)),
        Subject::Document | Subject::Parties => Ok(()),
    }
}

// The part that has the fault.
fn add_part(text: &mut String, fault: ScenarioFault) -> Added
    ensures { Adds result text.old text.new (part_of_fault fault) }
{
    match fault {
        ScenarioFault::BadParty(i) => write!(text, "party {i}"),
        ScenarioFault::BadQuestion(i) => write!(text, "question {i}"),
        _ => text.push_str("parties"),
    }
}

fn add_kind(text: &mut String, kind: Option<StepKind>) -> Added
    ensures { Adds result text.old text.new (kind_words kind) }
{
    match kind {
        Some(kind) => write!(text, " ({})", kind.name()),
        None => Ok(()),
    }
}

fn add_member(text: &mut String, step: usize, kind: Option<StepKind>, member: usize) -> Added
    ensures { Adds result text.old text.new (inside_text (Inside.Member step kind member)) }
{
    write!(text, ", step {step}")?;
    add_kind(text, kind)?;
    write!(text, ", member {member}")
}

fn add_step(text: &mut String, step: usize, kind: Option<StepKind>) -> Added
    ensures { Adds result text.old text.new (inside_text (Inside.Step step kind)) }
{
    write!(text, ", step {step}")?;
    add_kind(text, kind)
}

fn add_inside(text: &mut String, inside: Inside) -> Added
    ensures { Adds result text.old text.new (inside_text inside) }
{
    match inside {
        Inside::Step { step, kind } => add_step(text, step, kind),
        Inside::Member { step, kind, member } => add_member(text, step, kind, member),
        Inside::All => Ok(()),
    }
}

// Where it is.
fn add_where(
    text: &mut String,
    fault: ScenarioFault,
    subject: Subject,
    inside: Inside,
    spot: Option<Spot>,
) -> Added
    ensures { Adds result text.old text.new (where_text fault subject inside spot) }
{
    add_place(text, spot)?;
    add_part(text, fault)?;
    add_seat(text, subject)?;
    add_inside(text, inside)
}

/// Adds the line of a complaint.
pub fn add_line(
    text: &mut String,
    is_warning: bool,
    fault: ScenarioFault,
    subject: Subject,
    complaint: &Complaint,
    spot: Option<Spot>,
) -> Added
    ensures { Adds result text.old text.new
        (complaint_line is_warning fault subject (complained complaint.now) spot) }
{
    add_mark(text, is_warning)?;
    add_where(text, fault, subject, complaint.inside, spot)?;
    text.push_str(": ")?;
    text.push_str(complaint.reason.as_str())?;
    text.push_str("\n")
}
