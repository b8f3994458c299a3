//! What is wrong with an object.

ghost use Rattle.std.specs.Prelude.{◌≡◌, [], ◌∷◌, map, codes, true, false, is_some, Some, None};
ghost use Rattle.std.specs.Prelude.{IfOk, OnOk, IfSome, string_bytes};
ghost use Rattle.serde_json.specs.View.{view};
ghost use Rattle.serde_json.specs.Find.{get, as_str};
ghost use Rattle.dsa_check.specs.declared.finding.Reason.TheVariants.{NoObject};
ghost use Rattle.dsa_check.specs.Findings.{Appends, AreInCaps, AreDocumentReasons};
ghost use Rattle.dsa_check.specs.Reasons.{digits_reason, text_reason, unfit_reason, is_unfit};
ghost use Rattle.dsa_check.specs.Reasons.{is_plain, is_asked, IsStrayKey, IsReasonAt, AreReasonsAt};
ghost use Rattle.dsa_check.specs.Reasons.{found_of, AreReasonsOf, IsKindReason, AreStepReasons};
ghost use Rattle.dsa_scenario.specs.{Fields.{row_of_field}, Actions.{kind_of}};
ghost use Rattle.dsa_check.specs.Tables.{device_rows, history_rows};

use crate::fields::{Key, found_in, is_of};
use crate::finding::Reason;
use crate::friendly::expands_missing;
use crate::near::{near_key, near_kind};
use crate::syntax::is_plain;
use crate::tables::{CAPS, DEVICE_CAPS, DOCUMENT, HISTORY_CAPACITY};
use dsa_scenario::{Field, Form, kind_of};
use serde_json::Value;
use std::alloc::{AllocError, Global};

const MOST_DIGITS: usize = 128;

// What is wrong with a text that is not the bytes of a descriptor.
fn digits_reason(key: Key, text: &str) -> Option<Reason>
    ensures { result ≡ digits_reason key text.now }
{
    let count = text.len();
    match text.bytes().position(|byte| !byte.is_ascii_hexdigit()) {
        Some(before) => Some(Reason::NoDigit {
            key,
            at: before.saturating_add(1),
        }),
        None if count > MOST_DIGITS => Some(Reason::ManyDigits { key, count }),
        None if count % 2 == 1 => Some(Reason::OddDigits { key, count }),
        None => None,
    }
}

// What is wrong with the digits of a value, where digits are wanted and it is a text.
fn text_reason(key: Key, wanted: Form, value: &Value) -> Option<Reason>
    ensures { result ≡ text_reason key wanted (as_str (view value.now)) }
{
    match value.as_str() {
        Some(text) if wanted == Form::Digits => digits_reason(key, text),
        _ => None,
    }
}

// What is wrong with a value that may not stand there.
fn unfit_reason(key: Key, wanted: Form, value: &Value) -> Reason
    ensures { result ≡ unfit_reason key wanted (view value.now) }
{
    match text_reason(key, wanted, value) {
        Some(reason) => reason,
        None => Reason::Unfit {
            key,
            found: found_in(value),
            wanted,
        },
    }
}

// What is wrong at a key of the object, if anything is.
fn field_reason(
    alloc: Global,
    object: &Value,
    fields: &[Field],
    field: Field,
    in_caps: bool,
) -> Result<Option<Reason>, AllocError>
    ensures told { IfOk result
        (λ told. is_some told ≡ is_unfit (view object.now) (row_of_field field)) }
    ensures so { IfOk result
        (λ told. IfSome told
        (IsReasonAt (view object.now) (map row_of_field fields.now) in_caps
        (row_of_field field))) }
{
    let name = field.name;
    let key = Key { name, in_caps };
    match object.get(name) {
        Some(value) if is_of(field.form, value) => Ok(None),
        Some(value) => Ok(Some(unfit_reason(key, field.form, value))),
        None => match near_key(alloc, object, fields, name)? {
            Some(found) => Ok(Some(Reason::Misspelled { key, found })),
            None if expands_missing(object, name) => Ok(Some(Reason::Expandable { key })),
            None => Ok(Some(Reason::Missing { key })),
        },
    }
}

// Adds what is wrong at a key of the object, if anything is.
fn add_reason(
    alloc: Global,
    object: &Value,
    fields: &[Field],
    field: Field,
    in_caps: bool,
    reasons: &mut Vec<Reason>,
) -> Result<(), AllocError>
    ensures { OnOk result
        (Appends
        (AreReasonsAt (view object.now) (map row_of_field fields.now) in_caps
        (row_of_field field ∷ []))
        reasons.old.items reasons.new.items) }
{
    if let Some(reason) = field_reason(alloc, object, fields, field, in_caps)? {
        reasons.push(reason)?;
    }
    Ok(())
}

/// Adds what is wrong at these keys of the object: a reason for each that is missing, or where
/// something else stands.
pub fn add_reasons(
    alloc: Global,
    object: &Value,
    fields: &[Field],
    in_caps: bool,
    reasons: &mut Vec<Reason>,
) -> Result<(), AllocError>
    ensures { OnOk result
        (Appends (AreReasonsOf (view object.now) (map row_of_field fields.now) in_caps)
        reasons.old.items reasons.new.items) }
{
    for field in fields {
        add_reason(alloc, object, fields, *field, in_caps, reasons)?;
    }
    Ok(())
}

/// The name, where it can be told as it stands.
pub fn plain_name(alloc: Global, name: &str) -> Result<Option<String>, AllocError>
    ensures plain { IfOk result (λ told. is_some told ≡ is_plain name.now) }
    ensures text { IfOk result (λ told. IfSome told (λ text. string_bytes text ≡ name.now)) }
{
    if !is_plain(name) {
        return Ok(None);
    }
    Ok(Some(String::from_str(alloc, name)?))
}

// What is wrong with what the object says of its kind, where it names none.
fn kind_reason(alloc: Global, step: &Value) -> Result<Reason, AllocError>
    ensures { kind_of (view step.now) ≡ None → IfOk result (IsKindReason (view step.now)) }
{
    let key = Key {
        name: "do",
        in_caps: false,
    };
    match step.get("do") {
        None => match near_key(alloc, step, &[], key.name)? {
            Some(found) => Ok(Reason::Misspelled { key, found }),
            None => Ok(Reason::Missing { key }),
        },
        Some(value) => match value.as_str() {
            Some(name) => Ok(Reason::UnknownKind {
                found: plain_name(alloc, name)?,
                near: near_kind(alloc, name)?,
            }),
            None => Ok(unfit_reason(key, Form::Text, value)),
        },
    }
}

// What is wrong with a value that is no object.
fn no_object(alloc: Global, value: &Value) -> Result<Vec<Reason>, AllocError>
    ensures { IfOk result (λ reasons. reasons.items ≡ NoObject (found_of (view value.now)) ∷ []) }
{
    let found = found_in(value);
    Ok(vec![in alloc; Reason::NoObject { found }]?)
}

/// What is wrong with an item of the steps.
pub fn step_reasons(alloc: Global, step: &Value) -> Result<Vec<Reason>, AllocError>
    ensures { IfOk result (λ reasons. AreStepReasons (view step.now) reasons.items) }
{
    if step.as_object().is_none() {
        return no_object(alloc, step);
    }
    let mut reasons = Vec::new(alloc);
    match kind_of(step) {
        Some(kind) => add_reasons(alloc, step, kind.fields(), false, &mut reasons)?,
        None => reasons.push(kind_reason(alloc, step)?)?,
    }
    Ok(reasons)
}

// Adds what is wrong with the keys of the caps, where they are an object.
fn add_caps_reasons(
    alloc: Global,
    document: &Value,
    reasons: &mut Vec<Reason>,
) -> Result<(), AllocError>
    ensures { OnOk result
        (Appends (AreInCaps (get (codes "caps") (view document.now))) reasons.old.items
        reasons.new.items) }
{
    match document.get("caps") {
        Some(caps) if caps.as_object().is_some() => add_reasons(alloc, caps, &CAPS, true, reasons),
        _ => Ok(()),
    }
}

/// What is wrong with the keys of a document and of its caps.
pub fn document_reasons(alloc: Global, document: &Value) -> Result<Vec<Reason>, AllocError>
    ensures { IfOk result (λ reasons. AreDocumentReasons (view document.now) reasons.items) }
{
    if document.as_object().is_none() {
        return no_object(alloc, document);
    }
    let mut reasons = Vec::new(alloc);
    add_reasons(alloc, document, &DOCUMENT, false, &mut reasons)?;
    add_caps_reasons(alloc, document, &mut reasons)?;
    Ok(reasons)
}

/// Which of these capabilities no device has.
pub fn caps_reasons(alloc: Global, document: &Value) -> Result<Vec<Reason>, AllocError>
    ensures { IfOk result (λ reasons. IfSome (get (codes "caps") (view document.now)) (λ caps.
        AreReasonsOf caps device_rows false reasons.items)) }
{
    let mut reasons = Vec::new(alloc);
    let Some(caps) = document.get("caps") else {
        return Ok(reasons);
    };
    add_reasons(alloc, caps, &DEVICE_CAPS, false, &mut reasons)?;
    Ok(reasons)
}

/// The reason for a capacity above the maximum.
pub fn capacity_reasons(alloc: Global, document: &Value) -> Result<Vec<Reason>, AllocError>
    ensures { IfOk result
        (λ reasons. AreReasonsOf (view document.now) history_rows false reasons.items) }
{
    let mut reasons = Vec::new(alloc);
    add_reasons(alloc, document, &HISTORY_CAPACITY, false, &mut reasons)?;
    Ok(reasons)
}
