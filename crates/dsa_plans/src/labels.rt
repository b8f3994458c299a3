//! The labels of entries and of acts.

ghost use Rattle.std.specs.Prelude.{◌≡◌, ◌+◌, ◌≤◌, ◌++◌, [], ◌∷◌, map, string_bytes, IfOk, OnOk};
ghost use Rattle.serde_json.specs.View.{view};
ghost use Rattle.dsa_base.specs.Numbers.{numbers_below};
ghost use Rattle.dsa_event_text.specs.Added.{Adds};
ghost use Rattle.dsa_plans.specs.PartyLabels.{act_label, act_labels, administrator_labels};
ghost use Rattle.dsa_plans.specs.PartyLabels.{client_labels, entry_labels, items_or, letter_of};
ghost use Rattle.dsa_plans.specs.PartyLabels.{member_text, numbered_from, step_label, step_labels};

use crate::said::{items_in, label_of};
use dsa_event_text::{Added, add_number};
use dsa_named::own_text;
use serde_json::Value;
use std::alloc::{AllocError, Global};

/// The items of the array at the key, or none.
pub fn items_or<'v>(object: &'v Value, key: &str) -> &'v [Value]
    ensures { map view result.now ≡ items_or key.now (view object.now) }
{
    match object.get(key) {
        Some(value) => match items_in(value) {
            Some(items) => items,
            None => &[],
        },
        None => &[],
    }
}

// Adds the letter of a party.
fn add_letter(text: &mut String, first: u8, party: usize) -> Added
    requires { first + 26 ≤ 128 }
    ensures { Adds result text.old text.new (letter_of first party ∷ []) }
{
    text.push(char::from(first + (party % 26) as u8))
}

// The label of a step at this place of a party.
fn step_label(
    alloc: Global,
    first: u8,
    party: usize,
    place: usize,
    step: &Value,
) -> Result<String, AllocError>
    requires { first + 26 ≤ 128 }
    ensures { IfOk result
        (λ label. string_bytes label ≡ step_label first party place (view step.now)) }
{
    if let Some(own) = own_text(step) {
        return String::from_str(alloc, own);
    }
    let mut label = String::new(alloc);
    add_letter(&mut label, first, party)?;
    add_number(&mut label, "", label_of(place)?)?;
    Ok(label)
}

// The label of a member.
fn member_text(alloc: Global, label: &str, k: usize) -> Result<String, AllocError>
    ensures { IfOk result (λ text. string_bytes text ≡ member_text label.now k) }
{
    let mut text = String::from_str(alloc, label)?;
    add_number(&mut text, "/", label_of(k)?)?;
    Ok(text)
}

// Adds the labels of so many members.
fn add_member_labels(
    alloc: Global,
    labels: &mut Vec<String>,
    label: &str,
    count: usize,
) -> Result<(), AllocError>
    ensures { OnOk result
        (map string_bytes labels.new.items
        ≡ map string_bytes labels.old.items ++ map (member_text label.now) (numbers_below count)) }
{
    for k in 0..count {
        labels.push(member_text(alloc, label, k)?)?;
    }
    Ok(())
}

// Adds the labels of a client's step and of its members.
fn add_step_labels(
    alloc: Global,
    labels: &mut Vec<String>,
    party: usize,
    place: usize,
    step: &Value,
) -> Result<(), AllocError>
    ensures { OnOk result
        (map string_bytes labels.new.items
        ≡ map string_bytes labels.old.items ++ step_labels party place (view step.now)) }
{
    let label = step_label(alloc, b'a', party, place, step)?;
    labels.push(String::from_str(alloc, label.as_str())?)?;
    add_member_labels(
        alloc,
        labels,
        label.as_str(),
        items_or(step, "members").len(),
    )
}

// Adds the labels of what a client submits.
fn add_client_labels(
    alloc: Global,
    labels: &mut Vec<String>,
    party: usize,
    client: &Value,
) -> Result<(), AllocError>
    ensures { OnOk result
        (map string_bytes labels.new.items
        ≡ map string_bytes labels.old.items ++ client_labels party (view client.now)) }
{
    for (place, step) in items_or(client, "steps").iter().enumerate() {
        add_step_labels(alloc, labels, party, place, step)?;
    }
    Ok(())
}

// Adds the labels of what an administrator does.
fn add_administrator_labels(
    alloc: Global,
    labels: &mut Vec<String>,
    party: usize,
    administrator: &Value,
) -> Result<(), AllocError>
    ensures { OnOk result
        (map string_bytes labels.new.items
        ≡ map string_bytes labels.old.items
        ++ administrator_labels party (view administrator.now)) }
{
    for (place, step) in items_or(administrator, "steps").iter().enumerate() {
        labels.push(step_label(alloc, b'A', party, place, step)?)?;
    }
    Ok(())
}

/// The labels of all entries of the object `parties`.
pub fn entry_labels(alloc: Global, object: &Value) -> Result<Vec<String>, AllocError>
    ensures { IfOk result
        (λ labels. map string_bytes labels.items ≡ entry_labels (view object.now)) }
{
    let mut labels = Vec::new(alloc);
    for (party, client) in items_or(object, "clients").iter().enumerate() {
        add_client_labels(alloc, &mut labels, party, client)?;
    }
    Ok(labels)
}

/// The labels of all acts of the object `parties`.
pub fn act_labels(alloc: Global, object: &Value) -> Result<Vec<String>, AllocError>
    ensures { IfOk result
        (λ labels. map string_bytes labels.items ≡ act_labels (view object.now)) }
{
    let mut labels = Vec::new(alloc);
    for (party, administrator) in items_or(object, "admins").iter().enumerate() {
        add_administrator_labels(alloc, &mut labels, party, administrator)?;
    }
    Ok(labels)
}
