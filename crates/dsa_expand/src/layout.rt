//! The text of a strict document: a line for each step.

ghost use Rattle.std.specs.Prelude.{◌≡◌, ◌++◌, List, ℕ, map, codes, OnOk, IfOk, string_bytes};
ghost use Rattle.json.specs.Print.{quoted};
ghost use Rattle.serde_json.specs.View.{view};
ghost use Rattle.dsa_expand.specs.Layout.{AreMembersTexts, AreObjectsTexts, IsDocumentText};
ghost use Rattle.dsa_expand.specs.Layout.{IsObjectText, IsValueText, key_with_colon};
ghost use Rattle.dsa_expand.specs.Members.{pair_of, pairs_of_step};

use crate::members::{Member, StrictStep};
use serde_json::Value;
use std::alloc::{AllocError, Global};

fn quoted(alloc: Global, key: &str) -> Result<String, AllocError>
    ensures { IfOk result (λ text. string_bytes text ≡ quoted key.now) }
{
    Value::try_from_str(alloc, key)?.to_string(alloc)
}

fn text_of(alloc: Global, value: &Value) -> Result<String, AllocError>
    ensures { IfOk result (λ text. IsValueText (view value.now) (string_bytes text)) }
{
    value.to_string(alloc)
}

// Adds a member, with a text before it.
fn add_member(
    alloc: Global,
    text: &mut String,
    before: &str,
    member: &Member<'_>,
) -> Result<(), AllocError>
    ensures { OnOk result
        ((value : List ℕ) × IsValueText (pair_of member.now).1 value
        × (string_bytes text.new
        ≡ string_bytes text.old
        ++ (before.now ++ (key_with_colon (pair_of member.now).0 ++ value)))) }
{
    text.push_str(before)?;
    text.push_str(quoted(alloc, member.key)?.as_str())?;
    text.push_str(": ")?;
    text.push_str(text_of(alloc, member.content.value())?.as_str())
}

// Adds members in their order.
fn add_members(
    alloc: Global,
    text: &mut String,
    first: &str,
    next: &str,
    members: &[Member<'_>],
) -> Result<(), AllocError>
    ensures { OnOk result
        ((added : List ℕ) × AreMembersTexts first.now next.now (map pair_of members.now) added
        × (string_bytes text.new ≡ string_bytes text.old ++ added)) }
{
    let mut before = first;
    for member in members {
        add_member(alloc, text, before, member)?;
        before = next;
    }
    Ok(())
}

// Adds an object, with a text before it.
fn add_object(
    alloc: Global,
    text: &mut String,
    before: &str,
    members: &[Member<'_>],
) -> Result<(), AllocError>
    ensures { OnOk result
        ((object : List ℕ) × IsObjectText (map pair_of members.now) object
        × (string_bytes text.new ≡ string_bytes text.old ++ (before.now ++ object))) }
{
    text.push_str(before)?;
    text.push_str("{")?;
    add_members(alloc, text, "", ", ", members)?;
    text.push_str("}")
}

/// The text of an object with these members, on one line.
pub fn object_text(alloc: Global, members: &[Member<'_>]) -> Result<String, AllocError>
    ensures { IfOk result
        (λ text. IsObjectText (map pair_of members.now) (string_bytes text)) }
{
    let mut text = String::new(alloc);
    add_object(alloc, &mut text, "", members)?;
    Ok(text)
}

// Adds the steps in their order.
fn add_steps(
    alloc: Global,
    text: &mut String,
    first: &str,
    next: &str,
    steps: &[StrictStep<'_>],
) -> Result<(), AllocError>
    ensures { OnOk result
        ((added : List ℕ)
        × AreObjectsTexts first.now next.now (map pairs_of_step steps.now) added
        × (string_bytes text.new ≡ string_bytes text.old ++ added)) }
{
    let mut before = first;
    for step in steps {
        add_object(alloc, text, before, step.members.as_slice())?;
        before = next;
    }
    Ok(())
}

/// The text of a document with these members and these steps.
pub fn document_text(
    alloc: Global,
    head: &[Member<'_>],
    steps: &[StrictStep<'_>],
) -> Result<String, AllocError>
    ensures { IfOk result
        (λ text. IsDocumentText (map pair_of head.now) (map pairs_of_step steps.now)
        (string_bytes text)) }
{
    let mut text = String::from_str(alloc, "{")?;
    add_members(alloc, &mut text, "\n  ", ",\n  ", head)?;
    text.push_str(",\n  \"steps\": [")?;
    add_steps(alloc, &mut text, "\n    ", ",\n    ", steps)?;
    text.push_str("\n  ]\n}")?;
    Ok(text)
}
