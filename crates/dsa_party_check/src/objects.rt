//! What is told of parties and questions as JSON objects, one a line.

ghost use Rattle.std.specs.Prelude.{◌≡◌, ◌++◌, codes, option_map, string_bytes, IsUtf8, OnOk, IfOk};
ghost use Rattle.std.specs.Prelude.{Some};
ghost use Rattle.json.specs.Print.{print};
ghost use Rattle.dsa_event_text.specs.Added.{Adds};
ghost use Rattle.dsa_check.specs.Objects.{text_member};
ghost use Rattle.dsa_party_check.specs.Complaints.{complained};
ghost use Rattle.dsa_party_check.specs.PartyObjects.{complaint_object, members_of_fault};
ghost use Rattle.dsa_party_check.specs.PartyObjects.{inside_members};
ghost use Rattle.dsa_party_check.specs.PartyObjects.{members_of_complaint, said_members};
ghost use Rattle.dsa_party_check.specs.PartyObjects.{spot_members};
ghost use Rattle.dsa_party_check.specs.PartyObjects.{numbered_members, step_members};

use crate::complaint::{Complaint, Inside};
use dsa_check::{Spot, add_size, add_text, level_name};
use dsa_event_text::Added;
use dsa_scenario::{ScenarioFault, StepKind};
use json::Writer;
use std::alloc::{AllocError, Global};

fn add_spot(writer: &mut Writer, spot: Option<Spot>) -> Result<(), AllocError>
    ensures tokens { OnOk result
        (writer.new.tokens ≡ writer.old.tokens ++ spot_members spot) }
    ensures before { writer.new.before ≡ writer.old.before }
{
    match spot {
        Some(spot) => {
            add_size(writer, "line", Some(spot.line))?;
            add_size(writer, "column", Some(spot.column))
        }
        None => Ok(()),
    }
}

fn add_numbered(writer: &mut Writer, part: &str, number: u64) -> Result<(), AllocError>
    ensures tokens { OnOk result
        (writer.new.tokens ≡ writer.old.tokens ++ numbered_members part.now number) }
    ensures before { writer.new.before ≡ writer.old.before }
{
    add_text(writer, "part", part)?;
    writer.key(part)?;
    writer.u64(number)
}

fn add_fault(writer: &mut Writer, fault: ScenarioFault) -> Result<(), AllocError>
    ensures tokens { OnOk result
        (writer.new.tokens ≡ writer.old.tokens ++ members_of_fault fault) }
    ensures before { writer.new.before ≡ writer.old.before }
{
    match fault {
        ScenarioFault::BadParty(i) => add_numbered(writer, "party", i),
        ScenarioFault::BadQuestion(i) => add_numbered(writer, "question", i),
        _ => add_text(writer, "part", "parties"),
    }
}

fn add_step(writer: &mut Writer, step: usize, kind: Option<StepKind>) -> Result<(), AllocError>
    ensures tokens { OnOk result
        (writer.new.tokens ≡ writer.old.tokens ++ step_members step kind) }
    ensures before { writer.new.before ≡ writer.old.before }
{
    add_size(writer, "step", Some(step))?;
    match kind {
        Some(kind) => add_text(writer, "kind", kind.name()),
        None => Ok(()),
    }
}

fn add_inside(writer: &mut Writer, inside: Inside) -> Result<(), AllocError>
    ensures tokens { OnOk result
        (writer.new.tokens ≡ writer.old.tokens ++ inside_members inside) }
    ensures before { writer.new.before ≡ writer.old.before }
{
    match inside {
        Inside::Step { step, kind } => add_step(writer, step, kind),
        Inside::Member { step, kind, member } => {
            add_step(writer, step, kind)?;
            add_size(writer, "member", Some(member))
        }
        Inside::All => Ok(()),
    }
}

fn add_key(writer: &mut Writer, name: Option<&str>) -> Result<(), AllocError>
    ensures tokens { OnOk result
        (writer.new.tokens
        ≡ writer.old.tokens
        ++ text_member (codes "key") (option_map (λ name. name.now) name.entry)) }
    ensures before { writer.new.before ≡ writer.old.before }
{
    match name {
        Some(name) => add_text(writer, "key", name),
        None => Ok(()),
    }
}

fn add_said(writer: &mut Writer, is_warning: bool, complaint: &Complaint) -> Result<(), AllocError>
    ensures tokens { OnOk result
        (writer.new.tokens
        ≡ writer.old.tokens ++ said_members is_warning (complained complaint.now)) }
    ensures before { writer.new.before ≡ writer.old.before }
{
    add_key(writer, complaint.name.as_deref())?;
    add_text(writer, "level", level_name(is_warning))?;
    add_text(writer, "reason", complaint.reason.as_str())
}

// The object of a complaint.
fn object_of(
    alloc: Global,
    is_warning: bool,
    fault: ScenarioFault,
    complaint: &Complaint,
    spot: Option<Spot>,
) -> Result<Vec<u8>, AllocError>
    ensures text { IfOk result (λ bytes. bytes.items
        ≡ print (members_of_complaint is_warning fault (complained complaint.now) spot)) }
    ensures utf8 { IfOk result (λ bytes. IsUtf8 bytes.items) }
{
    let mut writer = Writer::new(Vec::new(alloc));
    writer.begin_object()?;
    add_spot(&mut writer, spot)?;
    add_fault(&mut writer, fault)?;
    add_inside(&mut writer, complaint.inside)?;
    add_said(&mut writer, is_warning, complaint)?;
    writer.end_object()?;
    Ok(writer.into_inner())
}

/// Adds the line of a complaint as a JSON object.
pub fn add_object(
    alloc: Global,
    text: &mut String,
    is_warning: bool,
    fault: ScenarioFault,
    complaint: &Complaint,
    spot: Option<Spot>,
) -> Added
    ensures { Adds result text.old text.new
        (complaint_object is_warning fault (complained complaint.now) spot) }
{
    let object = object_of(alloc, is_warning, fault, complaint, spot)?;
    let line = String::from_utf8_lossy(alloc, object.as_slice())?;
    text.push_str(line.as_str())?;
    text.push_str("\n")
}
