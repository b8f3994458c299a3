//! A document in, its strict form out.

ghost use Rattle.std.specs.Prelude.{◌≡◌, ◌≢◌, ◌⊎◌, ◌++◌, [], ℕ, List, map, filter, not};
ghost use Rattle.std.specs.Prelude.{IfErr, IfOk, IsUtf8};
ghost use Rattle.std.specs.Prelude.{MatchOption, OnOk, Some, string_bytes};
ghost use Rattle.std.specs.List.{list_any};
ghost use Rattle.serde_json.specs.{Find.{get}, View.{items_view, view}};
ghost use Rattle.dsa_scenario.specs.Document.{IsFaultOf, IsJson, head_of};
ghost use Rattle.dsa_scenario.specs.declared.faults.ScenarioFault.{ScenarioFault};
ghost use Rattle.dsa_expand.specs.Members.{AreFlat, pair_of, pairs_of_step};
ghost use Rattle.dsa_expand.specs.Steps.{is_friendly};
ghost use Rattle.dsa_expand.specs.Values.{pairs_of};
ghost use Rattle.dsa_expand.specs.Expansion.{AreLikely, HasNoStrictForm, HasStepFault};
ghost use Rattle.dsa_expand.specs.Expansion.{IsExpansion, IsLaidOut};
ghost use Rattle.dsa_expand.specs.Expansion.{IsStrictForm, IsUnlikelyAt};
ghost use Rattle.dsa_expand.specs.Walk.{IsToldOfDevice};
ghost use Rattle.dsa_expand.specs.Expansion.{head_pairs, is_part, pair_at};

use crate::layout::document_text;
use crate::members::{Content, Member, StrictStep};
use crate::steps::{is_friendly, strict_step};
use crate::walk::{open_walk, walk_steps};
use dsa_scenario::{Head, Render, Rendered, Rendering, ScenarioFault, parse_head, parse_json};
use serde_json::Value;
use std::alloc::{AllocError, Global};

/// The most bytes of a document.
const MAX_BYTES: usize = 1_048_576;

/// The strict form of a document, as a way to make a text of it.
#[derive(Clone, Copy, Debug, PartialEq, Eq)]
pub struct Expansion;

fn is_part(key: &str) -> bool
    ensures { result ≡ is_part key.now }
{
    matches!(key, "caps" | "capacity" | "steps")
}

// Adds the member at the key, if the document has one.
fn add_part<'v>(
    document: &'v Value,
    key: &'v str,
    members: &mut Vec<Member<'v>>,
) -> Result<(), AllocError>
    ensures { OnOk result
        (map pair_of members.new.items
        ≡ map pair_of members.old.items
        ++ pair_at key.now (get key.now (view document.now))) }
{
    if let Some(value) = document.get(key) {
        members.push(Member {
            key,
            content: Content::Read(value),
        })?;
    }
    Ok(())
}

// Adds the members that are no parts of a document.
fn add_remarks<'v>(document: &'v Value, members: &mut Vec<Member<'v>>) -> Result<(), AllocError>
    ensures { OnOk result
        (map pair_of members.new.items
        ≡ map pair_of members.old.items
        ++ filter (λ pair. not (is_part pair.0)) (pairs_of (view document.now))) }
{
    let Some(all) = document.as_object() else {
        return Ok(());
    };
    for (key, value) in all.iter() {
        if !is_part(key.as_str()) {
            members.push(Member {
                key: key.as_str(),
                content: Content::Read(value),
            })?;
        }
    }
    Ok(())
}

// The members of a document beside its steps.
fn head_members(alloc: Global, document: &Value) -> Result<Vec<Member<'_>>, AllocError>
    ensures { IfOk result
        (λ members. map pair_of members.items ≡ head_pairs (view document.now)) }
{
    let mut members = Vec::new(alloc);
    add_part(document, "caps", &mut members)?;
    add_part(document, "capacity", &mut members)?;
    add_remarks(document, &mut members)?;
    Ok(members)
}

// The number of the first step that has no strict form, whatever the names are.
fn first_unlikely(alloc: Global, steps: &[Value]) -> Result<Option<usize>, AllocError>
    requires { AreFlat 127 (map view steps.now) }
    ensures { IfOk result
        (λ found. MatchOption found
        (AreLikely (map view steps.now))
        (λ i. IsUnlikelyAt (map view steps.now) i)) }
{
    for (i, step) in steps.iter().enumerate() {
        let Some(_) = strict_step(alloc, None, step)? else {
            return Ok(Some(i));
        };
    }
    Ok(None)
}

fn has_friendly(steps: &[Value]) -> bool
    ensures { result ≡ list_any is_friendly (map view steps.now) }
{
    steps.iter().any(|step| is_friendly(step))
}

// The bytes as they are.
fn same_text(alloc: Global, bytes: &[u8]) -> Result<String, AllocError>
    requires { IsUtf8 bytes.now }
    ensures { IfOk result (λ text. string_bytes text ≡ bytes.now) }
{
    let Ok(text) = str::from_utf8(bytes) else {
        unreachable!();
    };
    String::from_str(alloc, text)
}

// The text of a strict document, where the one in these bytes is strict or is not.
fn text_for(
    alloc: Global,
    bytes: &[u8],
    document: &Value,
    steps: &[Value],
    strict: &[StrictStep<'_>],
) -> Result<String, AllocError>
    requires { IsUtf8 bytes.now }
    ensures { IfOk result
        (λ text. IsLaidOut (list_any is_friendly (map view steps.now)) bytes.now
        (view document.now) (map pairs_of_step strict.now) (string_bytes text)) }
{
    if !has_friendly(steps) {
        return same_text(alloc, bytes);
    }
    let members = head_members(alloc, document)?;
    document_text(alloc, members.as_slice(), strict)
}

// The fault of a document for which no device can be made: that of a step comes first.
fn fault_of_device(alloc: Global, steps: &[Value], fault: ScenarioFault) -> ScenarioFault
    requires { AreFlat 127 (map view steps.now) }
    ensures { (result ≡ ScenarioFault.OutOfMemory)
        ⊎ ((fault ≢ ScenarioFault.OutOfMemory)
        × IsToldOfDevice (map view steps.now) fault result) }
{
    if !matches!(fault, ScenarioFault::BadCaps | ScenarioFault::BadCapacity) {
        return ScenarioFault::OutOfMemory;
    }
    match first_unlikely(alloc, steps) {
        Ok(Some(i)) => ScenarioFault::BadStep(i as u64),
        Ok(None) => fault,
        Err(_) => ScenarioFault::OutOfMemory,
    }
}

// The strict form of the document in these bytes, which has this head.
fn expand_document(
    alloc: Global,
    bytes: &[u8],
    document: &Value,
    head: &Head<'_>,
) -> Result<String, ScenarioFault>
    requires json { IsJson bytes.now (view document.now) }
    requires head { head_of (view document.now)
        ≡ Some (head.now.caps, head.now.capacity, items_view head.now.steps.now) }
    ensures ok { IfOk result (λ text. IsStrictForm bytes.now (string_bytes text)) }
    ensures err { IfErr result
        (λ e. (e ≡ ScenarioFault.OutOfMemory) ⊎ HasStepFault bytes.now e) }
{
    let mut walk = match open_walk(alloc, head.caps, head.capacity) {
        Ok(walk) => walk,
        Err(fault) => return Err(fault_of_device(alloc, head.steps, fault)),
    };
    if let Some(i) = walk_steps(alloc, &mut walk, head.steps)? {
        return Err(ScenarioFault::BadStep(i as u64));
    }
    let text = text_for(alloc, bytes, document, head.steps, walk.strict.as_slice())?;
    Ok(text)
}

/// The strict form of the document in these bytes, or the fault for which it has none. The strict
/// form may be longer than a document.
pub fn strict_form(alloc: Global, bytes: &[u8]) -> Result<String, ScenarioFault>
    ensures ok { IfOk result (λ text. IsStrictForm bytes.now (string_bytes text)) }
    ensures err { IfErr result
        (λ e. (e ≡ ScenarioFault.OutOfMemory) ⊎ HasNoStrictForm bytes.now e) }
{
    let value = parse_json(alloc, bytes)?;
    let Some(head) = parse_head(&value) else {
        return Err(ScenarioFault::BadDocument);
    };
    expand_document(alloc, bytes, &value, &head)
}

// What is made of a document with this fault: no text.
fn fault_alone(alloc: Global, fault: ScenarioFault) -> Rendering
    ensures text { string_bytes result.text ≡ [] }
    ensures fault { result.fault ≡ Some fault }
{
    Rendering {
        text: String::new(alloc),
        fault: Some(fault),
        document: None,
    }
}

// What is made of a document with this strict form, which is to be no longer than a document.
fn rendering_of(alloc: Global, text: String) -> Rendering
    ensures { (bytes : List ℕ) → IsStrictForm bytes (string_bytes text)
        → IsExpansion bytes result.fault (string_bytes result.text) }
{
    if text.len() > MAX_BYTES {
        return fault_alone(alloc, ScenarioFault::TooLong);
    }
    Rendering {
        text,
        fault: None,
        document: None,
    }
}

// What is made of a document that has no strict form for this fault.
fn rendering_without(alloc: Global, fault: ScenarioFault) -> Rendered
    ensures ok { IfOk result
        (λ r. (bytes : List ℕ) → (fault ≡ ScenarioFault.OutOfMemory) ⊎ HasNoStrictForm bytes fault
        → IsExpansion bytes r.fault (string_bytes r.text)) }
    ensures err { IfErr result
        (λ e. (bytes : List ℕ) → (fault ≡ ScenarioFault.OutOfMemory) ⊎ HasNoStrictForm bytes fault
        → (e ≡ ScenarioFault.OutOfMemory) ⊎ IsFaultOf bytes e) }
{
    match fault {
        ScenarioFault::NotJson | ScenarioFault::BadDocument | ScenarioFault::OutOfMemory => {
            Err(fault)
        }
        _ => Ok(fault_alone(alloc, fault)),
    }
}

impl Render for Expansion {
    ghost is_rendering = { λ expansion bytes fault text. IsExpansion bytes fault text };

    fn render(&self, alloc: Global, bytes: &[u8]) -> Rendered {
        match strict_form(alloc, bytes) {
            Ok(text) => Ok(rendering_of(alloc, text)),
            Err(fault) => rendering_without(alloc, fault),
        }
    }
}
