//! The remarks of a check as JSON objects, one a line.

ghost use Rattle.std.specs.Prelude.{◌≡◌, ◌++◌, codes, option_map, option_and_then, IsUtf8, OnOk, IfOk};
ghost use Rattle.json.specs.Print.{print};
ghost use Rattle.dsa_event_text.specs.Added.{Adds};
ghost use Rattle.dsa_check.specs.Objects.{number_member, text_member, line_told, column_told};
ghost use Rattle.dsa_check.specs.Objects.{part_name, step_number, level_name, place_members};
ghost use Rattle.dsa_check.specs.Objects.{part_members, reason_members, object_of_remark};
ghost use Rattle.dsa_check.specs.Objects.{object_line};
ghost use Rattle.dsa_check.specs.Remarks.{name_of};

use crate::finding::{Finding, Reason};
use crate::places::Spot;
use crate::remarks::Remark;
use crate::report::add_known;
use dsa_event_text::Added;
use dsa_scenario::ScenarioFault;
use json::Writer;
use std::alloc::{AllocError, Global};

fn line_told(finding: &Finding, spot: Option<Spot>) -> Option<usize>
    ensures { result ≡ line_told finding.now spot }
{
    match spot {
        Some(spot) => Some(spot.line),
        None => finding.place.line,
    }
}

fn column_told(finding: &Finding, spot: Option<Spot>) -> Option<usize>
    ensures { result ≡ column_told finding.now spot }
{
    match spot {
        Some(spot) => Some(spot.column),
        None => finding.place.column,
    }
}

fn part_name(fault: ScenarioFault) -> &'static str
    ensures { result.now ≡ part_name fault }
{
    match fault {
        ScenarioFault::BadDocument => "document",
        ScenarioFault::BadStep(_) => "step",
        ScenarioFault::BadCaps => "caps",
        ScenarioFault::BadCapacity => "capacity",
        _ => "text",
    }
}

fn step_number(fault: ScenarioFault) -> Option<u64>
    ensures { result ≡ step_number fault }
{
    match fault {
        ScenarioFault::BadStep(i) => Some(i),
        _ => None,
    }
}

/// Whether a fault is told or a warning, in words.
pub fn level_name(is_warning: bool) -> &'static str
    ensures { result.now ≡ level_name is_warning }
{
    if is_warning { "warning" } else { "fault" }
}

fn add_number(writer: &mut Writer, key: &str, number: Option<u64>) -> Result<(), AllocError>
    ensures tokens { OnOk result
        (writer.new.tokens ≡ writer.old.tokens ++ number_member key.now number) }
    ensures before { writer.new.before ≡ writer.old.before }
{
    match number {
        Some(number) => {
            writer.key(key)?;
            writer.u64(number)
        }
        None => Ok(()),
    }
}

/// Adds a member with this number, where there is one.
pub fn add_size(writer: &mut Writer, key: &str, size: Option<usize>) -> Result<(), AllocError>
    ensures tokens { OnOk result
        (writer.new.tokens ≡ writer.old.tokens ++ number_member key.now size) }
    ensures before { writer.new.before ≡ writer.old.before }
{
    match size {
        Some(size) => add_number(writer, key, Some(size as u64)),
        None => Ok(()),
    }
}

/// Adds a member with this text.
pub fn add_text(writer: &mut Writer, key: &str, text: &str) -> Result<(), AllocError>
    ensures tokens { OnOk result
        (writer.new.tokens ≡ writer.old.tokens ++ text_member key.now (Some text.now)) }
    ensures before { writer.new.before ≡ writer.old.before }
{
    writer.key(key)?;
    writer.string(text)
}

fn add_place(writer: &mut Writer, finding: &Finding, spot: Option<Spot>) -> Result<(), AllocError>
    ensures tokens { OnOk result
        (writer.new.tokens ≡ writer.old.tokens ++ place_members finding.now spot) }
    ensures before { writer.new.before ≡ writer.old.before }
{
    add_size(writer, "line", line_told(finding, spot))?;
    add_size(writer, "column", column_told(finding, spot))
}

fn add_part(writer: &mut Writer, finding: &Finding) -> Result<(), AllocError>
    ensures tokens { OnOk result
        (writer.new.tokens ≡ writer.old.tokens ++ part_members finding.now) }
    ensures before { writer.new.before ≡ writer.old.before }
{
    add_text(writer, "part", part_name(finding.fault))?;
    add_number(writer, "step", step_number(finding.fault))?;
    match finding.place.kind {
        Some(kind) => add_text(writer, "kind", kind.name()),
        None => Ok(()),
    }
}

fn add_key(writer: &mut Writer, reason: Option<&Reason>) -> Result<(), AllocError>
    ensures tokens { OnOk result
        (writer.new.tokens ≡ writer.old.tokens
        ++ text_member (codes "key")
        (option_and_then name_of (option_map (λ r. r.now) reason.entry))) }
    ensures before { writer.new.before ≡ writer.old.before }
{
    let Some(reason) = reason else {
        return Ok(());
    };
    match reason.name() {
        Some(name) => add_text(writer, "key", name),
        None => Ok(()),
    }
}

fn add_reason(
    alloc: Global,
    writer: &mut Writer,
    is_warning: bool,
    reason: Option<&Reason>,
) -> Result<(), AllocError>
    ensures tokens { OnOk result
        (writer.new.tokens ≡ writer.old.tokens
        ++ reason_members is_warning (option_map (λ r. r.now) reason.entry)) }
    ensures before { writer.new.before ≡ writer.old.before }
{
    let mut known = String::new(alloc);
    add_known(&mut known, reason)?;
    add_key(writer, reason)?;
    add_text(writer, "level", level_name(is_warning))?;
    add_text(writer, "reason", known.as_str())
}

// The object of a remark.
fn object_of(alloc: Global, remark: &Remark<'_>) -> Result<Vec<u8>, AllocError>
    ensures text { IfOk result (λ bytes. bytes.items ≡ print (object_of_remark remark.now)) }
    ensures utf8 { IfOk result (λ bytes. IsUtf8 bytes.items) }
{
    let mut writer = Writer::new(Vec::new(alloc));
    writer.begin_object()?;
    add_place(&mut writer, remark.finding, remark.spot)?;
    add_part(&mut writer, remark.finding)?;
    add_reason(alloc, &mut writer, remark.is_warning, remark.reason)?;
    writer.end_object()?;
    Ok(writer.into_inner())
}

/// Adds the line of a remark.
pub fn add_object(alloc: Global, text: &mut String, remark: &Remark<'_>) -> Added
    ensures { Adds result text.old text.new (object_line remark.now) }
{
    let object = object_of(alloc, remark)?;
    let line = String::from_utf8_lossy(alloc, object.as_slice())?;
    text.push_str(line.as_str())?;
    text.push_str("\n")
}
