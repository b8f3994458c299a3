//! The faults of a document.

ghost use Rattle.std.specs.Prelude.{◌≡◌, ◌≤◌, ℕ, length, true, false, List, ◌++◌, [], ◌∷◌, map};
ghost use Rattle.std.specs.Prelude.{IsUtf8, IfOk, IfSome, OnOk};
ghost use Rattle.serde_json.specs.View.{view};
ghost use Rattle.json.specs.Json.{document as document_of};
ghost use Rattle.std.specs.List.{All, AllByRecursion};
ghost use Rattle.dsa_scenario.specs.Actions.{action_of};
ghost use Rattle.dsa_check.specs.Findings.{AppendsAll, IsFounded, IsWrongAt, AreOfUtf8, IsInText};
ghost use Rattle.dsa_check.specs.Findings.{IsFindingOf, IsFindingIn, AreFounded};
ghost use Rattle.dsa_check.specs.Places.{IsSpot, IsShallow};
ghost use Rattle.dsa_check.specs.Flaws.{IsOpenFrom};
ghost use Rattle.dsa_check.specs.Warnings.{AreWarningsOf, HasPlace, warnings_told, warnings_of_value};
ghost use Rattle.dsa_check.specs.Judgement.{faults_told, Notes, AreFaultsOf, IsJudged, head_faults};
ghost use Rattle.dsa_check.specs.Judgement.{caps_at, capacity_at, fault_of_step};
ghost use Rattle.dsa_check.specs.Judgement.{bad_steps, caps_faults, capacity_faults};
ghost use Rattle.dsa_check.specs.Judgement.{faults_of_value};

use crate::finding::{Finding, Judgement, Place, Reason, whole};
use crate::places::{START, Spot};
use crate::reasons::{capacity_reasons, caps_reasons, document_reasons, step_reasons};
use crate::repeats::read_written;
use crate::scan::{Flaw, is_json, scan_text};
use crate::step_lines::{Steps, items_of, line_of, no_steps};
use crate::syntax::{end_of, syntax_of};
use crate::tables::MAX_CAPACITY;
use crate::warnings::warnings_in;
use dsa_event_text::Added;
use dsa_regs::check_caps;
use dsa_scenario::{
    ScenarioFault, kind_of, parse_action, parse_caps, parse_head, parse_json, u64_field,
};
use json::Scratch;
use serde_json::Value;
use std::alloc::{AllocError, Global};
use std::str;

// Whether what begins at this place goes on to the end of the bytes, if a sign stands there.
fn is_open_from(alloc: Global, bytes: &[u8], at: usize) -> Result<bool, AllocError>
    ensures { IfOk result (λ is. is ≡ true → IsOpenFrom bytes.now at) }
{
    let Some(sign) = bytes.get(at).copied() else {
        return Ok(true);
    };
    let mut text = Vec::new(alloc);
    text.extend_from_slice(&bytes[at..])?;
    text.extend_from_slice(end_of(sign).as_bytes())?;
    is_json(alloc, text.as_slice())
}

// Where what has to end begins, if it does at this place; else the end of the bytes.
fn begun_at(alloc: Global, bytes: &[u8], at: usize) -> Result<Spot, AllocError>
    ensures spot { IfOk result (IsSpot bytes.now) }
    ensures goes_on { IfOk result (λ spot. IsOpenFrom bytes.now spot.at) }
{
    let begin = START.moved_to(bytes, at);
    let is_open = is_open_from(alloc, bytes, begin.at)?;
    if is_open {
        Ok(begin)
    } else {
        Ok(begin.moved_to(bytes, bytes.len()))
    }
}

/// The first place where the bytes are no JSON, and what is wrong there. It is told only where all
/// before it is right.
pub fn flaw_of(alloc: Global, bytes: &[u8]) -> Result<(Spot, Vec<Reason>), AllocError>
    ensures spot { IfOk result (λ flaw. IsSpot bytes.now flaw.0) }
    ensures told { IfOk result
        (λ flaw. AllByRecursion (IsWrongAt bytes.now flaw.0.at) flaw.1.items) }
    ensures few { IfOk result (λ flaw. length flaw.1.items ≤ 1) }
    ensures of_utf8 { IfOk result (λ flaw. AreOfUtf8 bytes.now flaw.1.items) }
{
    if let Err(error) = str::from_utf8(bytes) {
        let spot = START.moved_to(bytes, error.valid_up_to());
        return Ok((spot, vec![in alloc; Reason::NotUtf8]?));
    }
    let scan = scan_text(alloc, bytes)?;
    let Some(Flaw { at, wanted }) = scan.flaw else {
        return Ok((START, Vec::new(alloc)));
    };
    let spot = START.moved_to(bytes, at);
    let (before, rest) = bytes.split_at(spot.at);
    if !scan.begins_json(alloc, before, wanted)? {
        return Ok((START, Vec::new(alloc)));
    }
    let begin = begun_at(alloc, before, scan.last_begun())?;
    let syntax = syntax_of(alloc, before, rest, wanted, begin)?;
    Ok((spot, vec![in alloc; Reason::Syntax(syntax)]?))
}

// What is wrong with bytes that are no JSON.
fn no_json(alloc: Global, bytes: &[u8]) -> Result<Vec<Finding>, AllocError>
    ensures faults { IfOk result
        (λ findings. faults_told findings.items ≡ ScenarioFault.NotJson ∷ []) }
    ensures told { IfOk result (λ findings. AllByRecursion (IsInText bytes.now) findings.items) }
{
    let flaw = flaw_of(alloc, bytes)?;
    let place = Place {
        line: Some(flaw.0.line),
        column: Some(flaw.0.column),
        kind: None,
    };
    let finding = Finding {
        fault: ScenarioFault::NotJson,
        place,
        reasons: flaw.1,
    };
    Ok(vec![in alloc; finding]?)
}

// The caps, the capacity and the steps of a document, where one of them is missing or of another
// form.
fn judge_head(alloc: Global, document: &Value, findings: &mut Vec<Finding>) -> Added
    ensures faults { OnOk result
        (Notes findings.old.items findings.new.items (head_faults (view document.now))) }
    ensures told { (bytes : List ℕ) → OnOk result
        (AppendsAll (IsFounded bytes (view document.now)) findings.old.items findings.new.items) }
{
    if parse_head(document).is_none() {
        let reasons = document_reasons(alloc, document)?;
        findings.push(whole(ScenarioFault::BadDocument, reasons))?;
    }
    Ok(())
}

// A step that is no step object.
fn bad_step(
    alloc: Global,
    bytes: &[u8],
    steps: &mut Steps,
    i: usize,
    step: &Value,
) -> Result<Finding, AllocError>
    requires spot { IsSpot bytes.now steps.old.spot }
    requires shallow { IsShallow (view step.now) }
    ensures spot { IsSpot bytes.now steps.new.spot }
    ensures told { IfOk result (IsFindingOf bytes.now i (view step.now)) }
{
    let place = Place {
        line: line_of(alloc, bytes, steps, i, step)?,
        column: None,
        kind: kind_of(step),
    };
    Ok(Finding {
        fault: ScenarioFault::BadStep(i as u64),
        place,
        reasons: step_reasons(alloc, step)?,
    })
}

// One item, where it is no step object.
fn judge_item(
    alloc: Global,
    bytes: &[u8],
    steps: &mut Steps,
    i: usize,
    step: &Value,
    findings: &mut Vec<Finding>,
) -> Result<(), AllocError>
    requires spot { IsSpot bytes.now steps.old.spot }
    requires shallow { IsShallow (view step.now) }
    ensures spot { IsSpot bytes.now steps.new.spot }
    ensures faults { OnOk result
        (Notes findings.old.items findings.new.items
        (fault_of_step i (action_of (view step.now)))) }
    ensures told { OnOk result
        (AppendsAll (IsFindingOf bytes.now i (view step.now)) findings.old.items
        findings.new.items) }
{
    if parse_action(step).is_none() {
        findings.push(bad_step(alloc, bytes, steps, i, step)?)?;
    }
    Ok(())
}

// The items that are no step objects.
fn judge_items(
    alloc: Global,
    bytes: &[u8],
    items: &[Value],
    findings: &mut Vec<Finding>,
) -> Result<(), AllocError>
    requires { All (λ item. IsShallow (view item)) items.now }
    ensures faults { OnOk result
        (Notes findings.old.items findings.new.items (bad_steps 0 (map view items.now))) }
    ensures told { OnOk result
        (AppendsAll (IsFindingIn bytes.now (map view items.now)) findings.old.items
        findings.new.items) }
{
    let mut steps = no_steps();
    for (i, item) in items.iter().enumerate() {
        judge_item(alloc, bytes, &mut steps, i, item, findings)?;
    }
    Ok(())
}

// The caps, where they are read, and no device has them.
fn judge_caps(alloc: Global, document: &Value, findings: &mut Vec<Finding>) -> Added
    ensures faults { OnOk result
        (Notes findings.old.items findings.new.items (caps_faults (caps_at (view document.now)))) }
    ensures told { (bytes : List ℕ) → OnOk result
        (AppendsAll (IsFounded bytes (view document.now)) findings.old.items findings.new.items) }
{
    let Some(object) = document.get("caps") else {
        return Ok(());
    };
    match parse_caps(object) {
        Some(caps) if !check_caps(&caps) => {
            let reasons = caps_reasons(alloc, document)?;
            Ok(findings.push(whole(ScenarioFault::BadCaps, reasons))?)
        }
        _ => Ok(()),
    }
}

// The capacity, where it is read, and no history has it.
fn judge_capacity(alloc: Global, document: &Value, findings: &mut Vec<Finding>) -> Added
    ensures faults { OnOk result
        (Notes findings.old.items findings.new.items
        (capacity_faults (capacity_at (view document.now)))) }
    ensures told { (bytes : List ℕ) → OnOk result
        (AppendsAll (IsFounded bytes (view document.now)) findings.old.items findings.new.items) }
{
    if let Some(capacity) = u64_field(document, "capacity") {
        if capacity > MAX_CAPACITY {
            let reasons = capacity_reasons(alloc, document)?;
            findings.push(whole(ScenarioFault::BadCapacity, reasons))?;
        }
    }
    Ok(())
}

// All faults of a JSON value. Its steps are judged also where its head is none.
fn judge_value(alloc: Global, bytes: &[u8], document: &Value) -> Result<Vec<Finding>, AllocError>
    requires { IsShallow (view document.now) }
    ensures faults { IfOk result
        (λ findings. faults_told findings.items ≡ faults_of_value (view document.now)) }
    ensures told { IfOk result
        (λ findings. AllByRecursion (IsFounded bytes.now (view document.now)) findings.items) }
{
    let mut findings = Vec::new(alloc);
    judge_head(alloc, document, &mut findings)?;
    judge_items(alloc, bytes, items_of(document), &mut findings)?;
    judge_caps(alloc, document, &mut findings)?;
    judge_capacity(alloc, document, &mut findings)?;
    Ok(findings)
}

// All faults and all warnings of a JSON value.
fn judge_json(alloc: Global, bytes: &[u8], document: &Value) -> Result<Judgement, AllocError>
    requires shallow { IsShallow (view document.now) }
    requires text { IsUtf8 bytes.now }
    ensures faults { IfOk result
        (λ told. faults_told told.faults.items ≡ faults_of_value (view document.now)) }
    ensures told { IfOk result
        (λ told. AllByRecursion (IsFounded bytes.now (view document.now)) told.faults.items) }
    ensures warnings { IfOk result
        (λ told. warnings_told told.warnings.items
        ≡ warnings_of_value (document_of bytes.now) (view document.now)) }
    ensures placed { IfOk result
        (λ told. AllByRecursion (HasPlace bytes.now (view document.now)) told.warnings.items) }
{
    let faults = judge_value(alloc, bytes, document)?;
    let mut scratch = Scratch::new(alloc);
    let written = read_written(alloc, bytes, &mut scratch)?;
    let warnings = warnings_in(alloc, bytes, document, written.as_ref())?;
    Ok(Judgement { faults, warnings })
}

/// All faults of the document in these bytes, in the order in which a run would tell each where no
/// other came before it, and all warnings. There is no fault exactly where the document is right.
pub fn judge_document(alloc: Global, bytes: &[u8]) -> Result<Judgement, AllocError>
    ensures all { IfOk result (λ told. AreFaultsOf bytes.now (faults_told told.faults.items)) }
    ensures first { IfOk result (λ told. IsJudged bytes.now (faults_told told.faults.items)) }
    ensures told { IfOk result (λ told. AreFounded bytes.now told.faults.items) }
    ensures warned { IfOk result (λ told. AreWarningsOf bytes.now told.warnings.items) }
{
    match parse_json(alloc, bytes) {
        Ok(document) => judge_json(alloc, bytes, &document),
        Err(ScenarioFault::OutOfMemory) => Err(AllocError),
        Err(_) => Ok(Judgement {
            faults: no_json(alloc, bytes)?,
            warnings: Vec::new(alloc),
        }),
    }
}
