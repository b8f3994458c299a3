//! What a check remarks of a document, a line each, and where.

ghost use Rattle.std.specs.Prelude.{◌≡◌, ◌∷◌, [], true, flat_map, option_map, Some, None};
ghost use Rattle.std.specs.Prelude.{IfOk, OnOk, IfSome};
ghost use Rattle.serde_json.specs.View.{view};
ghost use Rattle.dsa_scenario.specs.Document.{IsJson};
ghost use Rattle.dsa_check.specs.Findings.{AppendsAll};
ghost use Rattle.dsa_check.specs.Places.{IsSpot, IsShallow};
ghost use Rattle.dsa_check.specs.Remarks.{said_of_fault, said_of_reasons, said_of_warning};
ghost use Rattle.dsa_check.specs.Remarks.{part_at, IsRemarkPlaced, IsPlacedFor, AreRemarksOf, Says};
ghost use Rattle.dsa_check.specs.Remarks.{IsWalked, IsHolder, IsHolderOf, AreHoldersOf};
ghost use Rattle.dsa_check.specs.Remarks.{IsPointedIn, IsPointedAt, IsFlawAt};
ghost use Rattle.dsa_scenario.specs.declared.faults.ScenarioFault.TheVariants.{NotJson};

use crate::finding::{Finding, Place, Reason};
use crate::members::{last_member, offset_of};
use crate::places::{START, Spot};
use crate::scan::{Extent, Member, Scan, scan_text};
use crate::step_lines::{is_text_at, items_of};
use dsa_scenario::{ScenarioFault, parse_json};
use serde_json::Value;
use std::alloc::{AllocError, Global};

/// A line of a check: a fault or a warning, one of its reasons, and where that points to, as far as
/// it is known. A fault of which nothing finer is known has no reason.
#[derive(Clone, Copy)]
pub struct Remark<'a> {
    pub is_warning: bool,
    pub finding: &'a Finding,
    pub reason: Option<&'a Reason>,
    pub spot: Option<Spot>,
}

/// The most reasons of a finding whose place is sought.
const MOST_PLACED: usize = 16;

// A document, where a walk over its bytes has found its parts, and the last place that was sought.
#[derive(Drop)]
struct Walked<'v> {
    document: &'v Value,
    scan: Scan,
    // The array of the steps, which is the last of this key.
    steps: Option<Extent>,
    last: Spot,
}

// A value of a document, its text, and the members that a walk has found there.
#[derive(Drop)]
struct Holder<'v> {
    value: &'v Value,
    begin: Spot,
    end: usize,
    members: Vec<Member>,
}

// The value of a part, and the caps of a document, where the part is all of it.
#[derive(Drop)]
struct Holders<'v> {
    own: Option<Holder<'v>>,
    caps: Option<Holder<'v>>,
}

// The value that a part of the document is.
fn part_at(document: &Value, part: ScenarioFault) -> Option<&Value>
    requires { IsShallow (view document.now) }
    ensures value { option_map (λ v. view v.now) result ≡ part_at (view document.now) part }
    ensures shallow { IfSome result (λ v. IsShallow (view v.now)) }
{
    match part {
        ScenarioFault::BadDocument | ScenarioFault::BadCapacity => Some(document),
        ScenarioFault::BadStep(i) => items_of(document).get(i as usize),
        ScenarioFault::BadCaps => document.get("caps"),
        _ => None,
    }
}

// Where the walk has found an item of the last array of steps.
fn step_extent(walked: &Walked<'_>, i: usize) -> Option<Extent> {
    let steps = walked.steps?;
    let extent = *walked.scan.steps.get(i)?;
    if steps.begin < extent.begin && extent.end < steps.end {
        Some(extent)
    } else {
        None
    }
}

// The value of the last member of this key of a document.
fn value_extent(
    alloc: Global,
    bytes: &[u8],
    scan: &Scan,
    key: &str,
) -> Result<Option<Extent>, AllocError> {
    match last_member(alloc, bytes, scan.members.as_slice(), key)? {
        Some(member) => Ok(Some(member.value)),
        None => Ok(None),
    }
}

// Where the walk has found it.
fn extent_of(
    alloc: Global,
    bytes: &[u8],
    walked: &Walked<'_>,
    part: ScenarioFault,
) -> Result<Option<Extent>, AllocError> {
    match part {
        ScenarioFault::BadDocument | ScenarioFault::BadCapacity => Ok(Some(Extent {
            begin: bytes.iter().position(|byte| *byte > b' ').unwrap_or(0),
            end: bytes.len(),
        })),
        ScenarioFault::BadStep(i) => Ok(step_extent(walked, i as usize)),
        ScenarioFault::BadCaps => value_extent(alloc, bytes, &walked.scan, "caps"),
        _ => Ok(None),
    }
}

// The place at this offset.
fn spot_at(bytes: &[u8], last: Spot, at: usize) -> Spot
    requires { IsSpot bytes.now last }
    ensures { IsSpot bytes.now result }
{
    if last.at <= at {
        last.moved_to(bytes, at)
    } else {
        START.moved_to(bytes, at)
    }
}

// A value where its text is.
fn holder_at<'v>(
    alloc: Global,
    bytes: &[u8],
    value: &'v Value,
    begin: Spot,
    end: usize,
) -> Result<Option<Holder<'v>>, AllocError>
    requires spot { IsSpot bytes.now begin }
    requires shallow { IsShallow (view value.now) }
    ensures held { IfOk result (λ holder. IfSome holder (IsHolder bytes.now)) }
    ensures value { IfOk result (λ holder. IfSome holder (λ h.
        view h.value.now ≡ view value.entry.now)) }
{
    if !is_text_at(alloc, bytes, begin.at, end, value)? {
        return Ok(None);
    }
    let Some(text) = bytes.get(begin.at..end) else {
        return Ok(None);
    };
    let members = scan_text(alloc, text)?.members;
    Ok(Some(Holder {
        value,
        begin,
        end,
        members,
    }))
}

// A part of the document, where its text is found.
fn holder_of<'v>(
    alloc: Global,
    bytes: &[u8],
    walked: &mut Walked<'v>,
    part: ScenarioFault,
) -> Result<Option<Holder<'v>>, AllocError>
    requires { IsWalked bytes.now walked.old }
    ensures walked { IsWalked bytes.now walked.new }
    ensures held { IfOk result (λ holder. IfSome holder (IsHolderOf bytes.now part)) }
{
    let Some(value) = part_at(walked.document, part) else {
        return Ok(None);
    };
    let Some(Extent { begin, end }) = extent_of(alloc, bytes, walked, part)? else {
        return Ok(None);
    };
    walked.last = spot_at(bytes, walked.last, begin);
    holder_at(alloc, bytes, value, walked.last, end)
}

// What the reasons of this fault may point into.
fn holders_of<'v>(
    alloc: Global,
    bytes: &[u8],
    walked: &mut Option<Walked<'v>>,
    part: ScenarioFault,
) -> Result<Holders<'v>, AllocError>
    requires { IfSome walked.old (IsWalked bytes.now) }
    ensures walked { IfSome walked.new (IsWalked bytes.now) }
    ensures held { IfOk result (AreHoldersOf bytes.now part) }
{
    let Some(walked) = walked else {
        return Ok(Holders {
            own: None,
            caps: None,
        });
    };
    let own = holder_of(alloc, bytes, walked, part)?;
    let caps = match part {
        ScenarioFault::BadDocument => holder_of(alloc, bytes, walked, ScenarioFault::BadCaps)?,
        _ => None,
    };
    Ok(Holders { own, caps })
}

// The place that a reason points to in its holder.
fn spot_in(
    alloc: Global,
    bytes: &[u8],
    holder: &Holder<'_>,
    reason: &Reason,
) -> Result<Option<Spot>, AllocError>
    requires { IsHolder bytes.now holder.now }
    ensures { IfOk result (λ spot. IfSome spot (IsPointedIn bytes.now holder.now reason.now)) }
{
    let Holder {
        value,
        begin,
        end,
        members,
    } = holder;
    let Some(text) = bytes.get(begin.at..*end) else {
        return Ok(None);
    };
    let members = members.as_slice();
    match offset_of(alloc, text, members, value, reason.aim(), reason.name())? {
        Some(offset) if offset <= text.len() => {
            Ok(Some(begin.moved_to(bytes, begin.at + offset)))
        }
        _ => Ok(None),
    }
}

// The place that a reason points to, where it is found.
fn pointed_by(
    alloc: Global,
    bytes: &[u8],
    holders: &Holders<'_>,
    part: ScenarioFault,
    reason: &Reason,
) -> Result<Option<Spot>, AllocError>
    requires { AreHoldersOf bytes.now part holders.now }
    ensures { IfOk result (λ spot. IfSome spot (IsPointedAt bytes.now part reason.now)) }
{
    let holder = if reason.is_of_caps() {
        &holders.caps
    } else {
        &holders.own
    };
    match holder {
        Some(holder) => spot_in(alloc, bytes, holder, reason),
        None => Ok(None),
    }
}

fn is_place_of(place: Place, spot: Spot) -> bool
    ensures { result ≡ true
        → (place.line ≡ Some spot.line) × (place.column ≡ Some spot.column) }
{
    place.line == Some(spot.line) && place.column == Some(spot.column)
}

// The place of a text that is no JSON, by its line and its column.
fn flaw_of(bytes: &[u8], finding: &Finding) -> Option<Spot>
    ensures { finding.now.fault ≡ NotJson → IfSome result (IsFlawAt bytes.now finding.now) }
{
    let mut spot = START;
    for _turn in 0..bytes.len() {
        if !is_place_of(finding.place, spot) {
            spot = spot.next(bytes);
        }
    }
    is_place_of(finding.place, spot).then_some(spot)
}

// The place of a reason before which so many came.
fn spot_for(
    alloc: Global,
    bytes: &[u8],
    holders: &Holders<'_>,
    finding: &Finding,
    i: usize,
    reason: &Reason,
) -> Result<Option<Spot>, AllocError>
    requires { AreHoldersOf bytes.now finding.now.fault holders.now }
    ensures { IfOk result (λ spot. IsPlacedFor bytes.now finding.now spot (Some reason.now)) }
{
    match finding.fault {
        ScenarioFault::NotJson => Ok(flaw_of(bytes, finding)),
        _ if i < MOST_PLACED => pointed_by(alloc, bytes, holders, finding.fault, reason),
        _ => Ok(None),
    }
}

// Adds the remark of a reason before which so many came.
fn add_reason<'a>(
    alloc: Global,
    bytes: &[u8],
    holders: &Holders<'_>,
    is_warning: bool,
    finding: &'a Finding,
    i: usize,
    reason: &'a Reason,
    remarks: &mut Vec<Remark<'a>>,
) -> Result<(), AllocError>
    requires { AreHoldersOf bytes.now finding.now.fault holders.now }
    ensures all { OnOk result (Says remarks.old.items remarks.new.items
        ((is_warning, finding.entry.now, Some reason.entry.now) ∷ [])) }
    ensures placed { OnOk result
        (AppendsAll (IsRemarkPlaced bytes.now) remarks.old.items remarks.new.items) }
{
    let spot = spot_for(alloc, bytes, holders, finding, i, reason)?;
    remarks.push(Remark {
        is_warning,
        finding,
        reason: Some(reason),
        spot,
    })?;
    Ok(())
}

// Adds a remark for each of these reasons of the finding.
fn add_each<'a>(
    alloc: Global,
    bytes: &[u8],
    holders: &Holders<'_>,
    is_warning: bool,
    finding: &'a Finding,
    reasons: &'a [Reason],
    remarks: &mut Vec<Remark<'a>>,
) -> Result<(), AllocError>
    requires { AreHoldersOf bytes.now finding.now.fault holders.now }
    ensures all { OnOk result (Says remarks.old.items remarks.new.items
        (said_of_reasons is_warning finding.entry.now reasons.entry.now)) }
    ensures placed { OnOk result
        (AppendsAll (IsRemarkPlaced bytes.now) remarks.old.items remarks.new.items) }
{
    for (i, reason) in reasons.iter().enumerate() {
        add_reason(
            alloc, bytes, holders, is_warning, finding, i, reason, remarks,
        )?;
    }
    Ok(())
}

// Adds a remark for each reason of the finding.
fn add_reasons<'a>(
    alloc: Global,
    bytes: &[u8],
    walked: &mut Option<Walked<'_>>,
    is_warning: bool,
    finding: &'a Finding,
    remarks: &mut Vec<Remark<'a>>,
) -> Result<(), AllocError>
    requires { IfSome walked.old (IsWalked bytes.now) }
    ensures walked { IfSome walked.new (IsWalked bytes.now) }
    ensures all { OnOk result (Says remarks.old.items remarks.new.items
        (said_of_reasons is_warning finding.entry.now finding.entry.now.reasons.items)) }
    ensures placed { OnOk result
        (AppendsAll (IsRemarkPlaced bytes.now) remarks.old.items remarks.new.items) }
{
    let holders = holders_of(alloc, bytes, walked, finding.fault)?;
    let reasons = finding.reasons.as_slice();
    add_each(
        alloc, bytes, &holders, is_warning, finding, reasons, remarks,
    )
}

// The place of a fault of which nothing finer is known.
fn bare_spot(bytes: &[u8], fault: &Finding) -> Option<Spot>
    ensures { IsPlacedFor bytes.now fault.now result None }
{
    match fault.fault {
        ScenarioFault::NotJson => flaw_of(bytes, fault),
        _ => None,
    }
}

// Adds the remarks of a fault.
fn add_fault<'a>(
    alloc: Global,
    bytes: &[u8],
    walked: &mut Option<Walked<'_>>,
    fault: &'a Finding,
    remarks: &mut Vec<Remark<'a>>,
) -> Result<(), AllocError>
    requires { IfSome walked.old (IsWalked bytes.now) }
    ensures walked { IfSome walked.new (IsWalked bytes.now) }
    ensures all { OnOk result (Says remarks.old.items remarks.new.items
        (said_of_fault fault.entry.now)) }
    ensures placed { OnOk result
        (AppendsAll (IsRemarkPlaced bytes.now) remarks.old.items remarks.new.items) }
{
    if !fault.reasons.is_empty() {
        return add_reasons(alloc, bytes, walked, false, fault, remarks);
    }
    remarks.push(Remark {
        is_warning: false,
        finding: fault,
        reason: None,
        spot: bare_spot(bytes, fault),
    })?;
    Ok(())
}

// Adds the remarks of all faults.
fn add_faults<'a>(
    alloc: Global,
    bytes: &[u8],
    walked: &mut Option<Walked<'_>>,
    faults: &'a [Finding],
    remarks: &mut Vec<Remark<'a>>,
) -> Result<(), AllocError>
    requires { IfSome walked.old (IsWalked bytes.now) }
    ensures walked { IfSome walked.new (IsWalked bytes.now) }
    ensures all { OnOk result (Says remarks.old.items remarks.new.items
        (flat_map said_of_fault faults.entry.now)) }
    ensures placed { OnOk result
        (AppendsAll (IsRemarkPlaced bytes.now) remarks.old.items remarks.new.items) }
{
    for fault in faults {
        add_fault(alloc, bytes, walked, fault, remarks)?;
    }
    Ok(())
}

// Adds the remarks of all warnings.
fn add_warnings<'a>(
    alloc: Global,
    bytes: &[u8],
    walked: &mut Option<Walked<'_>>,
    warnings: &'a [Finding],
    remarks: &mut Vec<Remark<'a>>,
) -> Result<(), AllocError>
    requires { IfSome walked.old (IsWalked bytes.now) }
    ensures walked { IfSome walked.new (IsWalked bytes.now) }
    ensures all { OnOk result (Says remarks.old.items remarks.new.items
        (flat_map said_of_warning warnings.entry.now)) }
    ensures placed { OnOk result
        (AppendsAll (IsRemarkPlaced bytes.now) remarks.old.items remarks.new.items) }
{
    for warning in warnings {
        add_reasons(alloc, bytes, walked, true, warning, remarks)?;
    }
    Ok(())
}

// The document, and a walk over its bytes.
fn walk<'v>(alloc: Global, bytes: &[u8], document: &'v Value) -> Result<Walked<'v>, AllocError>
    requires { IsJson bytes.now (view document.now) }
    ensures { IfOk result (IsWalked bytes.now) }
{
    let scan = scan_text(alloc, bytes)?;
    let steps = value_extent(alloc, bytes, &scan, "steps")?;
    Ok(Walked {
        document,
        scan,
        steps,
        last: START,
    })
}

// The remarks of findings, of which those of a document are placed.
fn remarks_with<'a>(
    alloc: Global,
    bytes: &[u8],
    walked: &mut Option<Walked<'_>>,
    faults: &'a [Finding],
    warnings: &'a [Finding],
) -> Result<Vec<Remark<'a>>, AllocError>
    requires { IfSome walked.old (IsWalked bytes.now) }
    ensures { IfOk result (λ remarks.
        AreRemarksOf bytes.now faults.entry.now warnings.entry.now remarks.items) }
{
    let mut remarks: Vec<Remark<'a>> = Vec::new(alloc);
    add_faults(alloc, bytes, walked, faults, &mut remarks)?;
    add_warnings(alloc, bytes, walked, warnings, &mut remarks)?;
    Ok(remarks)
}

/// What a check remarks of these bytes, which have these faults and these warnings.
pub fn remarks_of<'a>(
    alloc: Global,
    bytes: &[u8],
    faults: &'a [Finding],
    warnings: &'a [Finding],
) -> Result<Vec<Remark<'a>>, AllocError>
    ensures { IfOk result (λ remarks.
        AreRemarksOf bytes.now faults.entry.now warnings.entry.now remarks.items) }
{
    if faults.is_empty() && warnings.is_empty() {
        return Ok(Vec::new(alloc));
    }
    match parse_json(alloc, bytes) {
        Ok(document) => {
            let mut walked = Some(walk(alloc, bytes, &document)?);
            remarks_with(alloc, bytes, &mut walked, faults, warnings)
        }
        Err(ScenarioFault::OutOfMemory) => Err(AllocError),
        Err(_) => remarks_with(alloc, bytes, &mut None, faults, warnings),
    }
}
