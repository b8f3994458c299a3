//! The conditions on rows of a table.

ghost use Rattle.std.specs.Prelude.{◌≡◌, ◌+◌, ◌<◌, [], bytes_eq, codes, drop, length, map};
ghost use Rattle.std.specs.Prelude.{option_map, position, string_bytes, IfOk, IfSome};
ghost use Rattle.std.specs.List.{list_any};
ghost use Rattle.serde_json.specs.{View.{view}, Find.{get}};
ghost use Rattle.dsa_base.specs.Rows.{when};
ghost use Rattle.dsa_scenario.specs.Fields.{text_of};
ghost use Rattle.dsa_plans.specs.Said.{each_onto, items_in, read_onto, read_or};
ghost use Rattle.dsa_questions.specs.Conditions.{act_named_at, alternatives_by};
ghost use Rattle.dsa_questions.specs.Conditions.{condition_said, conditions_said, entry_said, has_keys};
ghost use Rattle.dsa_questions.specs.Conditions.{place_number, number_called};

use crate::question::Condition;
use crate::words::{became_called, replied_called};
use dsa_plans::PartyScripts;
use serde_json::Value;
use std::alloc::{AllocError, Global};
use std::slice::from_ref;

/// The items of an array.
#[tactic(auto, using(dsa_plans::proofs::Items::listed))]
pub fn items_in(value: &Value) -> Option<&[Value]>
    ensures { option_map (λ items. map view items.now) result ≡ items_in (view value.now) }
{
    Some(value.as_array()?.as_slice())
}

/// The items of the array at the key; none where nothing stands there.
pub fn items_or_none<'v>(object: &'v Value, key: &str) -> Option<&'v [Value]>
    ensures { option_map (λ items. map view items.now) result
        ≡ read_or [] items_in (get key.now (view object.now)) }
{
    match object.get(key) {
        None => Some(&[]),
        Some(value) => items_in(value),
    }
}

/// The text at the key.
pub fn text_at<'v>(object: &'v Value, key: &str) -> Option<&'v str>
    ensures { option_map (λ text. text.now) result ≡ text_of key.now (view object.now) }
{
    object.get(key)?.as_str()
}

// The place of the first label that is this text.
fn first_called(labels: &[String], text: &str) -> Option<usize>
    ensures place { result
        ≡ position (λ label. bytes_eq label text.now) (map string_bytes labels.now) }
    ensures within { IfSome result (λ place. place < length labels.now) }
{
    labels.iter().position(|label| label.as_str() == text)
}

/// Whether a label is this text.
pub fn is_called(labels: &[String], text: &str) -> bool
    ensures { result ≡ list_any (λ label. bytes_eq label text.now) (map string_bytes labels.now) }
{
    labels.iter().any(|label| label.as_str() == text)
}

// The labels behind this place.
fn behind(labels: &[String], place: usize) -> &[String]
    requires { place < length labels.now }
    ensures { result.now ≡ drop (place + 1) labels.now }
{
    &labels[place + 1..]
}

/// The number of the one label that is this text.
pub fn number_called(labels: &[String], text: &str) -> Option<usize>
    ensures { result ≡ number_called (map string_bytes labels.now) text.now }
{
    let first = first_called(labels, text)?;
    if is_called(behind(labels, first), text) {
        None
    } else {
        Some(first)
    }
}

/// That of the text at the key.
pub fn place_number(labels: &[String], key: &str, object: &Value) -> Option<usize>
    ensures { result ≡ place_number (map string_bytes labels.now) key.now (view object.now) }
{
    number_called(labels, text_at(object, key)?)
}

/// Whether it is an object with so many keys.
pub fn has_keys(count: usize, value: &Value) -> bool
    ensures { result ≡ has_keys count (view value.now) }
{
    match value.as_object() {
        Some(members) => members.len() == count,
        None => false,
    }
}

// What becomes of an entry.
fn entry_said(labels: &[String], object: &Value) -> Option<Condition>
    ensures { result ≡ entry_said (map string_bytes labels.now) (view object.now) }
{
    let label = place_number(labels, "entry", object)?;
    let became = became_called(text_at(object, "is")?)?;
    Some(Condition::Entry { label, became })
}

// What this act is answered, what its command waits for, or what it removes.
fn act_named_at(labels: &[String], acts: &[String], object: &Value) -> Option<Condition>
    ensures { result
        ≡ act_named_at (map string_bytes labels.now) (map string_bytes acts.now) (view object.now) }
{
    let act = place_number(acts, "command", object)?;
    if let Some(is) = object.get("is") {
        let replied = replied_called(is.as_str()?)?;
        return Some(Condition::Act { act, replied });
    }
    if object.get("waits-for").is_some() {
        let label = place_number(labels, "waits-for", object)?;
        return Some(Condition::Wait { act, label });
    }
    let label = place_number(labels, "removes", object)?;
    Some(Condition::Removal { act, label })
}

// A condition.
fn condition_said(parties: &PartyScripts, value: &Value) -> Option<Condition>
    ensures { result
        ≡ condition_said (map string_bytes parties.now.labels.items)
        (map string_bytes parties.now.acts.items) (view value.now) }
{
    let labels = parties.labels.as_slice();
    if !has_keys(2, value) {
        None
    } else if value.get("entry").is_some() {
        entry_said(labels, value)
    } else {
        act_named_at(labels, parties.acts.as_slice(), value)
    }
}

// Adds these conditions, and says whether all can be read.
fn add_conditions(
    conditions: &mut Vec<Condition>,
    parties: &PartyScripts,
    items: &[Value],
) -> Result<bool, AllocError>
    ensures { IfOk result (λ good. when good conditions.new.items
        ≡ each_onto
        (read_onto
        (condition_said (map string_bytes parties.now.labels.items)
        (map string_bytes parties.now.acts.items)))
        conditions.old.items (map view items.now)) }
{
    for item in items {
        let Some(condition) = condition_said(parties, item) else {
            return Ok(false);
        };
        conditions.push(condition)?;
    }
    Ok(true)
}

// The conditions of which one is to come.
fn alternatives(that: &Value) -> Option<&[Value]>
    ensures { option_map (λ items. map view items.now) result
        ≡ alternatives_by (view that.now) (get (codes "any") (view that.now)) }
{
    match that.get("any") {
        None => Some(from_ref(that)),
        Some(any) => {
            if has_keys(1, that) {
                items_in(any)
            } else {
                None
            }
        }
    }
}

/// The conditions on rows that stand at `that`.
pub fn conditions_said(
    alloc: Global,
    parties: &PartyScripts,
    that: &Value,
) -> Result<Option<Vec<Condition>>, AllocError>
    ensures { IfOk result (λ found. option_map (λ conditions. conditions.items) found
        ≡ conditions_said (map string_bytes parties.now.labels.items)
        (map string_bytes parties.now.acts.items) (view that.now)) }
{
    let Some(items) = alternatives(that) else {
        return Ok(None);
    };
    let mut conditions = Vec::new(alloc);
    if add_conditions(&mut conditions, parties, items)? {
        Ok(Some(conditions))
    } else {
        Ok(None)
    }
}
