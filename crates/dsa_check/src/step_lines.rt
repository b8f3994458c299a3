//! Where the steps of a document stand in its text.

ghost use Rattle.std.specs.Prelude.{◌≡◌, ℕ, List, None, true, false, map, slice_range, IfOk, IfSome};
ghost use Rattle.std.specs.List.{All};
ghost use Rattle.serde_json.specs.{View.{view}, Written.{has_float}};
ghost use Rattle.dsa_check.specs.Judgement.{step_items_of};
ghost use Rattle.dsa_check.specs.Places.{IsSpot, IsShallow, AreTextOf, BeginsOnLine};
ghost use Rattle.dsa_check.specs.Places.{IsFoundBetween, IsToldWhereFound, extent_at};

use crate::places::{START, Spot};
use crate::scan::{Extent, scan_text};
use dsa_scenario::{ScenarioFault, parse_json};
use serde_json::Value;
use std::alloc::{AllocError, Global};

/// The items of a document's steps in its text, as far as they have been asked for.
#[derive(Drop)]
pub struct Steps {
    pub extents: Option<Vec<Extent>>,
    /// Where the last one that was asked for begins.
    pub spot: Spot,
}

/// The items of a document's steps; none where it has no list of them.
pub fn items_of(document: &Value) -> &[Value]
    requires { IsShallow (view document.now) }
    ensures items { map view result.now ≡ step_items_of (view document.now) }
    ensures shallow { All (λ item. IsShallow (view item)) result.now }
{
    let Some(value) = document.get("steps") else {
        return &[];
    };
    let Some(items) = value.as_array() else {
        return &[];
    };
    items.as_slice()
}

/// None of them has been asked for.
pub fn no_steps() -> Steps
    ensures spot { (bytes : List ℕ) → IsSpot bytes result.spot }
    ensures unread { result.extents ≡ None }
{
    Steps {
        extents: None,
        spot: START,
    }
}

// Where an item of the steps stands, by the only walk over a document that is JSON.
fn extent_of(
    alloc: Global,
    bytes: &[u8],
    steps: &mut Steps,
    i: usize,
) -> Result<Option<Extent>, AllocError>
    ensures kept { steps.new.spot ≡ steps.old.spot }
    ensures told { IfOk result (λ extent. extent ≡ extent_at steps.new.extents i) }
{
    if steps.extents.is_none() {
        steps.extents = Some(scan_text(alloc, bytes)?.steps);
    }
    match &steps.extents {
        Some(extents) => Ok(extents.get(i).copied()),
        None => Ok(None),
    }
}

// Whether two values are the same, by their texts.
fn is_same(alloc: Global, value: &Value, other: &Value) -> Result<bool, AllocError>
    requires value { IsShallow (view value.now) }
    requires other { IsShallow (view other.now) }
    ensures same { IfOk result (λ same. same ≡ true → view value.now ≡ view other.now) }
    ensures told { has_float (view value.now) ≡ false → view value.now ≡ view other.now
        → IfOk result (λ same. same ≡ true) }
{
    let text = value.to_string(alloc)?;
    let other_text = other.to_string(alloc)?;
    Ok(text.as_str() == other_text.as_str())
}

// Whether the bytes are a text of the value, from its first byte on.
fn is_text_of(alloc: Global, bytes: &[u8], value: &Value) -> Result<bool, AllocError>
    requires { IsShallow (view value.now) }
    ensures so { IfOk result (λ is. is ≡ true → AreTextOf (view value.now) bytes.now) }
    ensures told { has_float (view value.now) ≡ false → AreTextOf (view value.now) bytes.now
        → IfOk result (λ is. is ≡ true) }
{
    match bytes.first() {
        Some(first) if *first > b' ' => {}
        _ => return Ok(false),
    }
    match parse_json(alloc, bytes) {
        Ok(read) => is_same(alloc, &read, value),
        Err(ScenarioFault::OutOfMemory) => Err(AllocError),
        Err(_) => Ok(false),
    }
}

/// Whether the bytes between these places are a text of the value.
pub fn is_text_at(
    alloc: Global,
    bytes: &[u8],
    at: usize,
    end: usize,
    value: &Value,
) -> Result<bool, AllocError>
    requires { IsShallow (view value.now) }
    ensures so { IfOk result
        (λ is. is ≡ true → AreTextOf (view value.now) (slice_range bytes.now at end)) }
    ensures told { (from : ℕ) → IsFoundBetween bytes.now (view value.now) from at end
        → IfOk result (λ is. is ≡ true) }
{
    match bytes.get(at..end) {
        Some(text) => is_text_of(alloc, text, value),
        None => Ok(false),
    }
}

/// The line on which a step begins, where its text is found.
pub fn line_of(
    alloc: Global,
    bytes: &[u8],
    steps: &mut Steps,
    i: usize,
    step: &Value,
) -> Result<Option<usize>, AllocError>
    requires spot { IsSpot bytes.now steps.old.spot }
    requires shallow { IsShallow (view step.now) }
    ensures spot { IsSpot bytes.now steps.new.spot }
    ensures line { IfOk result (λ line. IfSome line (BeginsOnLine bytes.now (view step.now))) }
    ensures told { IfOk result
        (IsToldWhereFound bytes.now (view step.now) steps.old.spot.at
        (extent_at steps.new.extents i)) }
{
    let Some(Extent { begin, end }) = extent_of(alloc, bytes, steps, i)? else {
        return Ok(None);
    };
    let spot = steps.spot.moved_to(bytes, begin);
    steps.spot = spot;
    let is_found = is_text_at(alloc, bytes, spot.at, end, step)?;
    if is_found {
        Ok(Some(spot.line))
    } else {
        Ok(None)
    }
}
