//! Steps in the strict form.

ghost use Rattle.std.specs.Prelude.{◌≡◌, ◌≤◌, ◌++◌, ◌∷◌, [], map, option_map, filter, not, codes, IfOk, IfSome, OnOk, Some};
ghost use Rattle.std.specs.{Prelude.{bytes_eq}, List.{list_any}};
ghost use Rattle.serde_json.specs.{Data.{depth, string}, Find.{get}, View.{view}};
ghost use Rattle.dsa_scenario.specs.{Actions.{action_of, kind_text, rows_of_kind}, Fields.{row_of_field}};
ghost use Rattle.dsa_expand.specs.Steps.{fields_onto, is_said_by, is_in_strict, known_name, given_name};
ghost use Rattle.dsa_expand.specs.Steps.{object_with, other_members, says_command, strict_at};
ghost use Rattle.dsa_expand.specs.Steps.{strict_descriptor, strict_name, strict_set};
ghost use Rattle.dsa_expand.specs.Steps.{strict_by, strict_step, strict_value, strict_word};
ghost use Rattle.dsa_expand.specs.Steps.{is_friendly, is_friendly_at, is_friendly_value};
ghost use Rattle.dsa_expand.specs.Members.{content_as, given_as, known_as, pair_of, pairs_of_step};
ghost use Rattle.dsa_expand.specs.Members.{AreShallow};

use crate::commands::word_said;
use crate::descriptors::{descriptor_said, digits_of};
use crate::layout::object_text;
use crate::members::{Content, Member, StrictStep};
use crate::values::set_of;
use dsa_scenario::{Field, StepKind, kind_of, parse_action, parse_json};
use serde_json::Value;
use std::alloc::{AllocError, Global};

/// A text that a step has at `as`, and the name that it gave.
#[derive(Drop)]
pub struct GivenName {
    pub text: String,
    pub name: u32,
}

/// What is known of names: those that were given so far, or where no device can be made nothing.
pub type Known<'n> = Option<&'n [GivenName]>;

/// The object with these members, which is read of its text: that is JSON, so only memory may be
/// wanting.
pub fn object_with(alloc: Global, members: &[Member<'_>]) -> Result<Value, AllocError>
    requires { AreShallow 126 (map pair_of members.now) }
    ensures { IfOk result (λ value. view value ≡ object_with (map pair_of members.now)) }
{
    let text = object_text(alloc, members)?;
    match parse_json(alloc, text.as_bytes()) {
        Ok(value) => Ok(value),
        Err(_) => Err(AllocError),
    }
}

// The name that was given last under this text.
fn name_of(given: &[GivenName], text: &str) -> Option<u32>
    ensures { result ≡ given_name (map given_as given.now) text.now }
{
    let mut found = None;
    for one in given {
        if one.text.as_str() == text {
            found = Some(one.name);
        }
    }
    found
}

// The name that is known under this text.
fn known_name(known: Known<'_>, text: &str) -> Option<u32>
    ensures { result ≡ known_name (known_as (option_map (λ g. g.now) known.entry)) text.now }
{
    match known {
        Some(given) => name_of(given, text),
        None => Some(0),
    }
}

fn strict_descriptor(alloc: Global, value: &Value) -> Result<Option<Content<'_>>, AllocError>
    ensures { IfOk result
        (λ strict. option_map content_as strict ≡ strict_descriptor (view value.now)) }
{
    if !value.is_object() {
        return Ok(Some(Content::Read(value)));
    }
    match descriptor_said(value) {
        Some(descriptor) => {
            let digits = digits_of(alloc, descriptor)?;
            Ok(Some(Content::Made(Value::String(digits))))
        }
        None => Ok(None),
    }
}

#[tactic(auto, using(crate::proofs::Lists::listed))]
fn strict_set(value: &Value) -> Option<Content<'_>>
    ensures { option_map content_as result ≡ strict_set (view value.now) }
{
    let Some(numbers) = value.as_array() else {
        return Some(Content::Read(value));
    };
    let set = set_of(0, 64, numbers.as_slice())?;
    Some(Content::Made(Value::from(set)))
}

fn strict_name<'v>(known: Known<'_>, value: &'v Value) -> Option<Content<'v>>
    ensures { option_map content_as result
        ≡ strict_name (known_as (option_map (λ g. g.now) known.entry)) (view value.now) }
{
    let Some(text) = value.as_str() else {
        return Some(Content::Read(value));
    };
    let name = known_name(known, text)?;
    Some(Content::Made(Value::from(name)))
}

// What stands at this key, in the strict form.
fn strict_value<'v>(
    alloc: Global,
    known: Known<'_>,
    key: &str,
    value: &'v Value,
) -> Result<Option<Content<'v>>, AllocError>
    ensures { IfOk result
        (λ strict. option_map content_as strict
        ≡ strict_value (known_as (option_map (λ g. g.now) known.entry)) key.now (view value.now)) }
{
    match key {
        "desc" => strict_descriptor(alloc, value),
        "queues" | "engines" => Ok(strict_set(value)),
        "name" => Ok(strict_name(known, value)),
        _ => Ok(Some(Content::Read(value))),
    }
}

// The command word of the step.
fn strict_word(step: &Value) -> Option<Content<'_>>
    ensures { option_map content_as result
        ≡ strict_word (view step.now) (get (codes "word") (view step.now))
        (get (codes "command") (view step.now)) }
{
    match (step.get("word"), step.get("command")) {
        (Some(word), None) => Some(Content::Read(word)),
        (None, Some(called)) => Some(Content::Made(Value::from(word_said(step, called)?))),
        _ => None,
    }
}

/// What stands at the key of the strict step.
pub fn strict_at<'v>(
    alloc: Global,
    step: &'v Value,
    known: Known<'_>,
    key: &str,
) -> Result<Option<Content<'v>>, AllocError>
    ensures { IfOk result
        (λ strict. option_map content_as strict
        ≡ strict_at (known_as (option_map (λ g. g.now) known.entry)) (view step.now) key.now) }
{
    if key == "word" {
        return Ok(strict_word(step));
    }
    match step.get(key) {
        Some(value) => strict_value(alloc, known, key, value),
        None => Ok(None),
    }
}

// The first member of a step: its kind.
fn kind_member<'v>(alloc: Global, kind: StepKind) -> Result<Member<'v>, AllocError>
    ensures { IfOk result (λ member. pair_of member ≡ (codes "do", string (kind_text kind))) }
{
    let name = Value::try_from_str(alloc, kind.name())?;
    Ok(Member {
        key: "do",
        content: Content::Made(name),
    })
}

// The kind of a step and what stands at the keys of the kind.
fn strict_fields<'v>(
    alloc: Global,
    known: Known<'_>,
    kind: StepKind,
    step: &'v Value,
) -> Result<Option<Vec<Member<'v>>>, AllocError>
    ensures { IfOk result
        (λ strict. option_map (λ members. map pair_of members.items) strict
        ≡ fields_onto (known_as (option_map (λ g. g.now) known.entry)) (view step.now)
        ((codes "do", string (kind_text kind)) ∷ []) (rows_of_kind kind)) }
{
    let mut members = vec![in alloc; kind_member(alloc, kind)?]?;
    for field in kind.fields() {
        let Some(content) = strict_at(alloc, step, known, field.name)? else {
            return Ok(None);
        };
        members.push(Member {
            key: field.name,
            content,
        })?;
    }
    Ok(Some(members))
}

// Whether the step says its command by a name.
fn says_command(kind: StepKind, step: &Value) -> bool
    ensures { result ≡ says_command kind (view step.now) }
{
    match kind {
        StepKind::Command => step.get("command").is_some(),
        _ => false,
    }
}

fn has_field(fields: &[Field], key: &str) -> bool
    ensures { result ≡ list_any (λ row. bytes_eq row.0 key.now) (map row_of_field fields.now) }
{
    fields.iter().any(|field| field.name == key)
}

fn is_said_by(key: &str) -> bool
    ensures { result ≡ is_said_by key.now }
{
    matches!(key, "command" | "operand" | "queues")
}

// Whether the strict step has the key among those of its kind, or says it otherwise.
fn is_in_strict(kind: StepKind, step: &Value, key: &str) -> bool
    ensures { result ≡ is_in_strict kind (view step.now) key.now }
{
    let is_asked = key == "do" || has_field(kind.fields(), key);
    is_asked || says_command(kind, step) && is_said_by(key)
}

// Adds all other members of the step.
fn add_others<'v>(
    kind: StepKind,
    step: &'v Value,
    members: &mut Vec<Member<'v>>,
) -> Result<(), AllocError>
    ensures { OnOk result
        (map pair_of members.new.items
        ≡ map pair_of members.old.items ++ other_members kind (view step.now)) }
{
    let Some(all) = step.as_object() else {
        return Ok(());
    };
    for (key, value) in all.iter() {
        if !is_in_strict(kind, step, key.as_str()) {
            members.push(Member {
                key: key.as_str(),
                content: Content::Read(value),
            })?;
        }
    }
    Ok(())
}

/// The members of the strict step that this one of the kind means.
pub fn strict_members<'v>(
    alloc: Global,
    known: Known<'_>,
    kind: StepKind,
    step: &'v Value,
) -> Result<Option<Vec<Member<'v>>>, AllocError>
    ensures { IfOk result
        (λ strict. option_map (λ members. map pair_of members.items) strict
        ≡ strict_by (known_as (option_map (λ g. g.now) known.entry)) kind (view step.now)) }
{
    let Some(mut members) = strict_fields(alloc, known, kind, step)? else {
        return Ok(None);
    };
    add_others(kind, step, &mut members)?;
    Ok(Some(members))
}

/// The strict step that this one means.
pub fn strict_step<'v>(
    alloc: Global,
    known: Known<'_>,
    step: &'v Value,
) -> Result<Option<StrictStep<'v>>, AllocError>
    requires { depth (view step.now) ≤ 127 }
    ensures strict { IfOk result
        (λ strict. option_map pairs_of_step strict
        ≡ strict_step (known_as (option_map (λ g. g.now) known.entry)) (view step.now)) }
    ensures asks { IfOk result
        (λ strict. IfSome strict
        (λ one. Some one.action ≡ action_of (object_with (pairs_of_step one)))) }
{
    let Some(kind) = kind_of(step) else {
        return Ok(None);
    };
    let Some(members) = strict_members(alloc, known, kind, step)? else {
        return Ok(None);
    };
    match parse_action(&object_with(alloc, members.as_slice())?) {
        Some(action) => Ok(Some(StrictStep { members, action })),
        None => Ok(None),
    }
}

// Whether what stands at this key is of the friendly form.
fn is_friendly_value(key: &str, value: &Value) -> bool
    ensures { result ≡ is_friendly_value key.now (view value.now) }
{
    match key {
        "desc" => value.is_object(),
        "queues" | "engines" => value.is_array(),
        "name" => value.is_string(),
        _ => false,
    }
}

fn is_friendly_at(step: &Value, key: &str) -> bool
    ensures { result ≡ is_friendly_at (view step.now) key.now }
{
    match step.get(key) {
        Some(value) => is_friendly_value(key, value),
        None => false,
    }
}

fn has_friendly_at(fields: &[Field], step: &Value) -> bool
    ensures { result
        ≡ list_any (λ row. is_friendly_at (view step.now) row.0) (map row_of_field fields.now) }
{
    fields.iter().any(|field| is_friendly_at(step, field.name))
}

/// Whether the step has something in the friendly form.
pub fn is_friendly(step: &Value) -> bool
    ensures { result ≡ is_friendly (view step.now) }
{
    let Some(kind) = kind_of(step) else {
        return false;
    };
    says_command(kind, step) || has_friendly_at(kind.fields(), step)
}
