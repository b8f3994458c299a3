//! Where the keys and the values of an object are in its text.

ghost use Rattle.std.specs.Prelude.{◌≡◌, ◌≢◌, ◌++◌, true, take, drop, option_map, slice_get};
ghost use Rattle.std.specs.Prelude.{slice_range, Some, IfOk, IfSome};
ghost use Rattle.std.specs.List.{list_all};
ghost use Rattle.serde_json.specs.{Data.{Data, string}, Find.{get}, View.{view}};
ghost use Rattle.dsa_scenario.specs.Document.{IsJson};
ghost use Rattle.dsa_check.specs.Members.{HasJsonBetween, other_text, other_value, IsValueAt};
ghost use Rattle.dsa_check.specs.Members.{is_gap};
ghost use Rattle.dsa_check.specs.Remarks.{IsAimedAt};

use crate::finding::Aim;
use crate::scan::{Extent, Member, is_json};
use dsa_scenario::{ScenarioFault, parse_json};
use serde_json::Value;
use std::alloc::{AllocError, Global};

// Whether a JSON text is there, from its first byte on.
fn has_json_at(alloc: Global, text: &[u8], extent: Extent) -> Result<bool, AllocError>
    ensures { IfOk result
        (λ is. is ≡ true → HasJsonBetween text.now extent.begin extent.end) }
{
    let Some(piece) = text.get(extent.begin..extent.end) else {
        return Ok(false);
    };
    match piece.first() {
        Some(first) if *first > b' ' => is_json(alloc, piece),
        _ => Ok(false),
    }
}

// What takes the place of a value to see where it is.
fn other_text(is_null: bool) -> &'static str
    ensures { result.now ≡ other_text is_null }
{
    if is_null { "false" } else { "null" }
}

// Whether the value is null.
fn is_null(value: Option<&Value>) -> bool
    ensures { option_map (λ v. view v.now) value.entry ≢ Some (other_value result) }
{
    matches!(value, Some(Value::Null))
}

// Whether the value is what took its place.
fn is_other(value: Option<&Value>, is_null: bool) -> bool
    ensures { result ≡ true
        → option_map (λ v. view v.now) value.entry ≡ Some (other_value is_null) }
{
    match value {
        Some(Value::Null) => !is_null,
        Some(Value::Bool(truth)) => is_null && !*truth,
        _ => false,
    }
}

// Whether the object has another value at the key, where that takes the place of these bytes.
fn has_other(
    alloc: Global,
    text: &[u8],
    extent: Extent,
    key: &str,
    is_null: bool,
) -> Result<bool, AllocError>
    ensures { IfOk result (λ is. is ≡ true → (object : Data)
        × IsJson (take extent.begin text.now ++ other_text is_null ++ drop extent.end text.now)
        object
        × (get key.now object ≡ Some (other_value is_null))) }
{
    let (Some(before), Some(after)) = (text.get(..extent.begin), text.get(extent.end..)) else {
        return Ok(false);
    };
    let mut changed = Vec::new(alloc);
    changed.extend_from_slice(before)?;
    changed.extend_from_slice(other_text(is_null).as_bytes())?;
    changed.extend_from_slice(after)?;
    match parse_json(alloc, changed.as_slice()) {
        Ok(object) => Ok(is_other(object.get(key), is_null)),
        Err(ScenarioFault::OutOfMemory) => Err(AllocError),
        Err(_) => Ok(false),
    }
}

// Whether the value that counts at the key is there.
fn is_value_at(
    alloc: Global,
    text: &[u8],
    object: &Value,
    key: &str,
    extent: Extent,
) -> Result<bool, AllocError>
    ensures { IfOk result (λ is. is ≡ true
        → IsValueAt text.now (view object.now) key.now extent.begin extent.end) }
{
    let is_null = is_null(object.get(key));
    Ok(has_json_at(alloc, text, extent)? && has_other(alloc, text, extent, key, is_null)?)
}

// Whether these bytes are a text of the key.
fn is_key(alloc: Global, written: &[u8], key: &str) -> Result<bool, AllocError>
    ensures { IfOk result (λ is. is ≡ true → IsJson written.now (string key.now)) }
{
    match parse_json(alloc, written) {
        Ok(Value::String(text)) => Ok(text.as_str() == key),
        Err(ScenarioFault::OutOfMemory) => Err(AllocError),
        _ => Ok(false),
    }
}

/// The last member of this key.
pub fn last_member(
    alloc: Global,
    text: &[u8],
    members: &[Member],
    key: &str,
) -> Result<Option<Member>, AllocError>
    ensures { IfOk result (λ member. IfSome member (λ m.
        IsJson (slice_range text.now m.key.begin m.key.end) (string key.now))) }
{
    for member in members.iter().rev() {
        if let Some(written) = text.get(member.key.begin..member.key.end)
            && is_key(alloc, written, key)?
        {
            return Ok(Some(*member));
        }
    }
    Ok(None)
}

fn is_gap(byte: u8) -> bool
    ensures { result ≡ is_gap byte }
{
    byte == b':' || byte <= b' '
}

fn are_gaps(bytes: &[u8]) -> bool
    ensures { result ≡ list_all is_gap bytes.now }
{
    bytes.iter().all(|byte| is_gap(*byte))
}

// Whether a key begins at the first place, and only a colon and white space are between the others.
fn parts_value(text: &[u8], begin: usize, end: usize, value: usize) -> bool
    ensures quote { result ≡ true → slice_get text.now begin ≡ Some 34 }
    ensures gap { result ≡ true → list_all is_gap (slice_range text.now end value) ≡ true }
{
    match (text.get(begin), text.get(end..value)) {
        (Some(b'"'), Some(gap)) => are_gaps(gap),
        _ => false,
    }
}

/// How far from the begin of the object's text that is what is aimed at, where it is found among
/// these members.
pub fn offset_of(
    alloc: Global,
    text: &[u8],
    members: &[Member],
    object: &Value,
    aim: Aim,
    name: Option<&str>,
) -> Result<Option<usize>, AllocError>
    ensures { IfOk result (λ offset. IfSome offset
        (IsAimedAt text.now (view object.now) aim (option_map (λ name. name.now) name.entry))) }
{
    let (Some(key), Aim::Value | Aim::Key) = (name, aim) else {
        return Ok(Some(0));
    };
    let Some(member) = last_member(alloc, text, members, key)? else {
        return Ok(None);
    };
    if !is_value_at(alloc, text, object, key, member.value)? {
        return Ok(None);
    }
    if aim == Aim::Value {
        return Ok(Some(member.value.begin));
    }
    let Member {
        key: written,
        value,
    } = member;
    let is_parted = parts_value(text, written.begin, written.end, value.begin);
    Ok(is_parted.then_some(written.begin))
}
