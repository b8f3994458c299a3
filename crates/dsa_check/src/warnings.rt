//! What is odd in a document, and no fault of it.

ghost use Rattle.std.specs.Prelude.{◌≡◌, ◌++◌, ◌&&◌, ◌||◌, ◌∷◌, if◌then◌else◌, not, bytes_eq, ℕ};
ghost use Rattle.std.specs.Prelude.{List, [], map, codes, string_bytes, option_map, Some, None, IfOk};
ghost use Rattle.std.specs.Prelude.{OnOk};
ghost use Rattle.std.specs.List.{All, AllByRecursion};
ghost use Rattle.serde_json.specs.{View.{view}, Find.{get}};
ghost use Rattle.json.specs.Value.{value_view};
ghost use Rattle.dsa_scenario.specs.Fields.{row_of_field};
ghost use Rattle.dsa_check.specs.Repeats.{keys_written, has_text};
ghost use Rattle.dsa_check.specs.Findings.{AppendsAll};
ghost use Rattle.dsa_check.specs.Lines.{reason_text};
ghost use Rattle.dsa_check.specs.Places.{IsSpot, IsShallow};
ghost use Rattle.dsa_check.specs.Warnings.{names_of, remark_names, is_named, told_for, told_keys};
ghost use Rattle.dsa_check.specs.Warnings.{is_stray, stray_key_text, stray_texts, twice_key_text};
ghost use Rattle.dsa_check.specs.Warnings.{twice_texts, object_texts, odd_at, warned_in};
ghost use Rattle.dsa_check.specs.Warnings.{has_no_word, has_wrong_name, odd_name_of_kind};
ghost use Rattle.dsa_check.specs.Warnings.{stray_texts_of_kind};
ghost use Rattle.dsa_check.specs.Warnings.{step_texts, warnings_of_step, step_warnings};
ghost use Rattle.dsa_check.specs.Warnings.{caps_warnings, warnings_of_value, warnings_told};
ghost use Rattle.dsa_check.specs.Warnings.{HasPlace, IsOfStep, IsOfItem, IsOfPart, Tells, Warns};

use crate::fields::{Key, found_in, is_of};
use crate::finding::{Finding, Place, Reason, whole};
use crate::friendly::calls_command;
use crate::near::{near_key, near_name};
use crate::reasons::plain_name;
use crate::repeats::{caps_written, members_of, note_key, step_written};
use crate::step_lines::{Steps, items_of, line_of, no_steps};
use crate::tables::{CAPS, DOCUMENT};
use dsa_named::own_text;
use dsa_scenario::{Field, Form, ScenarioFault, StepKind, kind_of};
use json::Value as Written;
use serde_json::Value;
use std::alloc::{AllocError, Global};
use std::collections::BTreeSet;

/// The key with the answer that another device was seen to give to a step.
pub const ANSWER: Field = Field {
    name: "answer",
    form: Form::Text,
};

/// The key with the zero flag that was seen after it.
pub const FLAG: Field = Field {
    name: "zf",
    form: Form::Truth,
};

// The key with the own name of an entry.
const NAME: Field = Field {
    name: "as",
    form: Form::Text,
};

// The key of a remark, which any object may have.
const REMARK_NAMES: [&str; 1] = ["note"];

// The keys of a document beside those that a run reads: the parties of a search, its questions, and
// a remark.
const DOCUMENT_NAMES: [&str; 5] = ["parties", "never", "sometimes", "always", "note"];

// The keys of a step beside those of its kind.
const STEP_NAMES: [&str; 4] = ["do", "answer", "zf", "note"];

// The same of a step that gives a name, with the own name.
const OWN_NAMES: [&str; 5] = ["do", "answer", "zf", "note", "as"];

// The same of a command that is called by its name, with what says it.
const COMMAND_NAMES: [&str; 7] = ["do", "answer", "zf", "note", "command", "operand", "queues"];

/// Adds what stands at the key of a step, where it is of another form.
pub fn add_odd(step: &Value, field: Field, reasons: &mut Vec<Reason>) -> Result<(), AllocError>
    ensures { OnOk result
        (Tells reasons.old.items reasons.new.items
        (odd_at (view step.now) (row_of_field field))) }
{
    let Some(value) = step.get(field.name) else {
        return Ok(());
    };
    if !is_of(field.form, value) {
        let key = Key {
            name: field.name,
            in_caps: false,
        };
        reasons.push(Reason::Unfit {
            key,
            found: found_in(value),
            wanted: field.form,
        })?;
    }
    Ok(())
}

// Whether a text stands where a step has its own name, and is none.
fn has_wrong_name(step: &Value) -> bool
    ensures { result ≡ has_wrong_name (view step.now) }
{
    match step.get("as") {
        Some(value) => value.as_str().is_some() && own_text(step).is_none(),
        None => false,
    }
}

// Adds what stands where a step of a kind that gives a name has its own name, and is none.
fn add_odd_name(kind: StepKind, step: &Value, reasons: &mut Vec<Reason>) -> Result<(), AllocError>
    ensures { OnOk result
        (Tells reasons.old.items reasons.new.items (odd_name_of_kind (view step.now) (Some kind))) }
{
    if !matches!(kind, StepKind::Enqcmd | StepKind::Movdir | StepKind::Fetch) {
        return Ok(());
    }
    add_odd(step, NAME, reasons)?;
    if has_wrong_name(step) {
        reasons.push(Reason::NoOwnName)?;
    }
    Ok(())
}

/// The names of these fields, and these.
pub fn names_of(
    alloc: Global,
    fields: &[Field],
    more: &[&'static str],
) -> Result<Vec<&'static str>, AllocError>
    ensures { IfOk result
        (λ names. map (λ name. name.now) names.items
        ≡ names_of (map row_of_field fields.now) ++ map (λ name. name.now) more.now) }
{
    let mut names = Vec::new(alloc);
    for field in fields {
        names.push(field.name)?;
    }
    names.extend_from_slice(more)?;
    Ok(names)
}

/// Whether the key is one of these.
pub fn is_named(names: &[&'static str], key: &str) -> bool
    ensures { result ≡ is_named (map (λ name. name.now) names.now) key.now }
{
    names.iter().any(|name| *name == key)
}

// Adds the key that a fault tells as the spelling of the one of this name, if that is missing.
fn add_told(
    alloc: Global,
    object: &Value,
    fields: &[Field],
    name: &str,
    told: &mut Vec<String>,
) -> Result<(), AllocError>
    ensures { OnOk result (map string_bytes told.new.items
        ≡ map string_bytes told.old.items
        ++ told_for (view object.now) (map row_of_field fields.now) name.now) }
{
    if object.get(name).is_some() {
        return Ok(());
    }
    if let Some(key) = near_key(alloc, object, fields, name)? {
        told.push(key)?;
    }
    Ok(())
}

// The keys that faults tell as the spelling of others, which are missing.
fn told_keys(alloc: Global, object: &Value, fields: &[Field]) -> Result<Vec<String>, AllocError>
    ensures { IfOk result (λ told. map string_bytes told.items
        ≡ told_keys (view object.now) (map row_of_field fields.now)) }
{
    let mut told = Vec::new(alloc);
    for field in fields {
        add_told(alloc, object, fields, field.name, &mut told)?;
    }
    Ok(told)
}

fn is_told(told: &[String], key: &str) -> bool
    ensures { result ≡ is_named (map string_bytes told.now) key.now }
{
    told.iter().any(|other| other.as_str() == key)
}

// Whether nothing reads the key, and no fault tells it.
fn is_stray(names: &[&'static str], told: &[String], key: &str) -> bool
    ensures { result
        ≡ is_stray (map (λ name. name.now) names.now) (map string_bytes told.now) key.now }
{
    !is_named(names, key) && !is_told(told, key)
}

// What is told of a key that nothing reads.
fn stray(alloc: Global, names: &[&'static str], key: &str) -> Result<Reason, AllocError>
    ensures { IfOk result (λ reason. reason_text reason
        ≡ stray_key_text (map (λ name. name.now) names.now) key.now) }
{
    Ok(Reason::Stray {
        found: plain_name(alloc, key)?,
        near: near_name(alloc, names, key)?,
    })
}

// Adds the keys of the object that nothing reads.
fn add_strays(
    alloc: Global,
    object: &Value,
    fields: &[Field],
    more: &[&'static str],
    reasons: &mut Vec<Reason>,
) -> Result<(), AllocError>
    ensures { OnOk result
        (Tells reasons.old.items reasons.new.items
        (stray_texts (view object.now) (map row_of_field fields.now)
        (map (λ name. name.now) more.now))) }
{
    let Some(members) = object.as_object() else {
        return Ok(());
    };
    let names = names_of(alloc, fields, more)?;
    let told = told_keys(alloc, object, fields)?;
    for key in members.keys() {
        if is_stray(names.as_slice(), told.as_slice(), key.as_str()) {
            reasons.push(stray(alloc, names.as_slice(), key.as_str())?)?;
        }
    }
    Ok(())
}

// Notes a key of the text, and adds it where it comes for the second time.
fn add_again<'a>(
    alloc: Global,
    seen: &mut BTreeSet<&'a str>,
    again: &mut BTreeSet<&'a str>,
    key: &'a str,
    reasons: &mut Vec<Reason>,
) -> Result<(), AllocError>
    ensures seen { OnOk result ((text : List ℕ)
        → has_text seen.new text ≡ (bytes_eq key.entry.now text || has_text seen.old text)) }
    ensures again { OnOk result ((text : List ℕ)
        → has_text again.new text
        ≡ (bytes_eq key.entry.now text && has_text seen.old text || has_text again.old text)) }
    ensures told { OnOk result (Tells reasons.old.items reasons.new.items
        (if has_text seen.old key.entry.now && not (has_text again.old key.entry.now)
        then twice_key_text key.entry.now ∷ [] else [])) }
{
    if note_key(seen, again, key)? {
        reasons.push(Reason::Twice {
            found: plain_name(alloc, key)?,
        })?;
    }
    Ok(())
}

// Adds the keys of an object of the text that come more than once.
fn add_twice<'a>(
    alloc: Global,
    written: Option<&Written<'a>>,
    reasons: &mut Vec<Reason>,
) -> Result<(), AllocError>
    ensures { OnOk result
        (Tells reasons.old.items reasons.new.items
        (twice_texts (keys_written (option_map (λ v. value_view v.now) written.entry)))) }
{
    let Some(members) = members_of(written) else {
        return Ok(());
    };
    let (mut seen, mut again) = (BTreeSet::new(alloc), BTreeSet::new(alloc));
    for member in members {
        add_again(alloc, &mut seen, &mut again, member.0, reasons)?;
    }
    Ok(())
}

// Whether a step has no word, and calls its command by its name.
fn has_no_word(step: &Value) -> bool
    ensures { result ≡ has_no_word (view step.now) }
{
    step.get("word").is_none() && calls_command(step)
}

// Adds the keys of a step of this kind that nothing reads.
fn add_strays_of_step(
    alloc: Global,
    kind: StepKind,
    step: &Value,
    reasons: &mut Vec<Reason>,
) -> Result<(), AllocError>
    ensures { OnOk result
        (Tells reasons.old.items reasons.new.items
        (stray_texts_of_kind (view step.now) (Some kind))) }
{
    match kind {
        StepKind::Enqcmd | StepKind::Movdir | StepKind::Fetch => {
            add_strays(alloc, step, kind.fields(), &OWN_NAMES, reasons)
        }
        StepKind::Command if has_no_word(step) => {
            add_strays(alloc, step, kind.fields(), &COMMAND_NAMES, reasons)
        }
        _ => add_strays(alloc, step, kind.fields(), &STEP_NAMES, reasons),
    }
}

// What is odd in an item of the steps.
fn step_oddities(
    alloc: Global,
    step: &Value,
    written: Option<&Written<'_>>,
) -> Result<Vec<Reason>, AllocError>
    ensures { IfOk result (λ reasons. map reason_text reasons.items
        ≡ step_texts (keys_written (option_map (λ v. value_view v.now) written.entry))
        (view step.now)) }
{
    let mut reasons = Vec::new(alloc);
    add_odd(step, ANSWER, &mut reasons)?;
    add_odd(step, FLAG, &mut reasons)?;
    if let Some(kind) = kind_of(step) {
        add_odd_name(kind, step, &mut reasons)?;
        add_strays_of_step(alloc, kind, step, &mut reasons)?;
    }
    add_twice(alloc, written, &mut reasons)?;
    Ok(reasons)
}

// Adds the warnings of an item of the steps.
fn warn_of_step(
    alloc: Global,
    bytes: &[u8],
    steps: &mut Steps,
    i: usize,
    step: &Value,
    written: Option<&Written<'_>>,
    warnings: &mut Vec<Finding>,
) -> Result<(), AllocError>
    requires spot { IsSpot bytes.now steps.old.spot }
    requires shallow { IsShallow (view step.now) }
    ensures spot { IsSpot bytes.now steps.new.spot }
    ensures all { OnOk result
        (Warns warnings.old.items warnings.new.items
        (warnings_of_step (option_map (λ v. value_view v.now) written.entry) i (view step.now))) }
    ensures placed { OnOk result
        (AppendsAll (IsOfStep bytes.now i (view step.now)) warnings.old.items
        warnings.new.items) }
{
    let reasons = step_oddities(alloc, step, step_written(written, i))?;
    if reasons.is_empty() {
        return Ok(());
    }
    let place = Place {
        line: line_of(alloc, bytes, steps, i, step)?,
        column: None,
        kind: kind_of(step),
    };
    warnings.push(Finding {
        fault: ScenarioFault::BadStep(i as u64),
        place,
        reasons,
    })?;
    Ok(())
}

// Adds the warnings of all items of the steps.
fn warn_of_items(
    alloc: Global,
    bytes: &[u8],
    items: &[Value],
    written: Option<&Written<'_>>,
    warnings: &mut Vec<Finding>,
) -> Result<(), AllocError>
    requires { All (λ item. IsShallow (view item)) items.now }
    ensures all { OnOk result
        (Warns warnings.old.items warnings.new.items
        (step_warnings (option_map (λ v. value_view v.now) written.entry) 0
        (map view items.now))) }
    ensures placed { OnOk result
        (AppendsAll (IsOfItem bytes.now (map view items.now)) warnings.old.items
        warnings.new.items) }
{
    let mut steps = no_steps();
    for (i, item) in items.iter().enumerate() {
        warn_of_step(alloc, bytes, &mut steps, i, item, written, warnings)?;
    }
    Ok(())
}

// Adds the keys of the document or of its caps that nothing reads.
fn warn_of_keys(
    alloc: Global,
    part: ScenarioFault,
    object: &Value,
    fields: &[Field],
    more: &[&'static str],
    written: Option<&Written<'_>>,
    warnings: &mut Vec<Finding>,
) -> Result<(), AllocError>
    ensures all { OnOk result
        (Warns warnings.old.items warnings.new.items
        (warned_in part None
        (object_texts (keys_written (option_map (λ v. value_view v.now) written.entry))
        (view object.now) (map row_of_field fields.now) (map (λ name. name.now) more.now)))) }
    ensures placed { OnOk result
        (AppendsAll (IsOfPart part) warnings.old.items warnings.new.items) }
{
    let mut reasons = Vec::new(alloc);
    add_strays(alloc, object, fields, more, &mut reasons)?;
    add_twice(alloc, written, &mut reasons)?;
    if !reasons.is_empty() {
        warnings.push(whole(part, reasons))?;
    }
    Ok(())
}

// Adds those of its caps, where they are there.
fn warn_of_caps(
    alloc: Global,
    document: &Value,
    written: Option<&Written<'_>>,
    warnings: &mut Vec<Finding>,
) -> Result<(), AllocError>
    ensures all { OnOk result
        (Warns warnings.old.items warnings.new.items
        (caps_warnings (option_map (λ v. value_view v.now) written.entry)
        (get (codes "caps") (view document.now)))) }
    ensures placed { OnOk result
        (AppendsAll (IsOfPart ScenarioFault.BadCaps) warnings.old.items warnings.new.items) }
{
    match document.get("caps") {
        Some(caps) => {
            let (part, there) = (ScenarioFault::BadCaps, caps_written(written));
            warn_of_keys(alloc, part, caps, &CAPS, &REMARK_NAMES, there, warnings)
        }
        None => Ok(()),
    }
}

/// All warnings of a JSON value.
pub fn warnings_in(
    alloc: Global,
    bytes: &[u8],
    document: &Value,
    written: Option<&Written<'_>>,
) -> Result<Vec<Finding>, AllocError>
    requires { IsShallow (view document.now) }
    ensures all { IfOk result (λ warnings. warnings_told warnings.items
        ≡ warnings_of_value (option_map (λ v. value_view v.now) written.entry)
        (view document.now)) }
    ensures placed { IfOk result
        (λ warnings. AllByRecursion (HasPlace bytes.now (view document.now)) warnings.items) }
{
    let mut warnings = Vec::new(alloc);
    warn_of_keys(
        alloc,
        ScenarioFault::BadDocument,
        document,
        &DOCUMENT,
        &DOCUMENT_NAMES,
        written,
        &mut warnings,
    )?;
    warn_of_caps(alloc, document, written, &mut warnings)?;
    warn_of_items(alloc, bytes, items_of(document), written, &mut warnings)?;
    Ok(warnings)
}
