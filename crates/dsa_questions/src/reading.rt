//! The questions of a document.

ghost use Rattle.std.specs.Prelude.{◌≡◌, ◌⊎◌, ◌++◌, ◌∷◌, [], Ok, Err, codes, map, option_map, string_bytes};
ghost use Rattle.std.specs.Prelude.{IfErr, IfOk, OnOk};
ghost use Rattle.serde_json.specs.{View.{view}, Find.{get}};
ghost use Rattle.dsa_base.specs.Rows.{when};
ghost use Rattle.dsa_scenario.specs.declared.faults.ScenarioFault.{ScenarioFault};
ghost use Rattle.dsa_plans.specs.Plans.{ok_and_then};
ghost use Rattle.dsa_questions.specs.declared.question.Kind.{Kind};
ghost use Rattle.dsa_questions.specs.Conditions.{has_keys};
ghost use Rattle.dsa_questions.specs.Formed.{as_names};
ghost use Rattle.dsa_questions.specs.Reading.{inquiry_of, key_of, keys_wanted, list_onto, name_by};
ghost use Rattle.dsa_questions.specs.Reading.{most_nested, question_onto, questions_onto, questions_said};
ghost use Rattle.dsa_questions.specs.Reading.{rows_wanted, terms_for, wanted_onto};

use crate::conditions::{conditions_said, has_keys, items_or_none};
use crate::question::{Condition, Kind, Question, Questions, Sought};
use crate::stating::{Formed, Naming, add_formula};
use crate::words::is_name;
use dsa_formulas::Term;
use dsa_scenario::ScenarioFault;
use itoa::Buffer;
use serde_json::Value;
use std::alloc::{AllocError, Global};
use std::mem;

/// How deep a formula may be nested: as deep as a document.
#[tactic(auto, unfolding(crate::specs::Reading::most_nested))]
pub fn most_nested() -> u32
    ensures { result ≡ most_nested }
{
    128
}

// The name of the question with this number.
fn name_said(alloc: Global, number: usize, object: &Value) -> Result<Option<String>, AllocError>
    ensures { IfOk result (λ found. option_map string_bytes found
        ≡ name_by number (get (codes "name") (view object.now))) }
{
    let Some(value) = object.get("name") else {
        let mut buffer = Buffer::new();
        return Ok(Some(String::from_str(alloc, buffer.format(number))?));
    };
    match value.as_str() {
        Some(text) if is_name(text) => Ok(Some(String::from_str(alloc, text)?)),
        _ => Ok(None),
    }
}

/// Whether a question has no other key than its name and `that`.
pub fn has_question_keys(object: &Value) -> bool
    ensures { result ≡ has_keys (keys_wanted (view object.now)) (view object.now) }
{
    let count = if object.get("name").is_some() { 2 } else { 1 };
    has_keys(count, object)
}

// The conditions, if rows can answer the question.
fn rows_wanted(
    alloc: Global,
    kind: Kind,
    naming: &Naming<'_>,
    that: &Value,
) -> Result<Option<Vec<Condition>>, AllocError>
    ensures { IfOk result (λ found. option_map (λ conditions. conditions.items) found
        ≡ rows_wanted kind (as_names naming.now) (view that.now)) }
{
    match kind {
        Kind::Always => Ok(None),
        Kind::Never | Kind::Sometimes => conditions_said(alloc, naming.parties, that),
    }
}

// The terms of what is asked for.
fn terms_for(kind: Kind, terms: Vec<Term>) -> Result<Vec<Term>, AllocError>
    ensures { IfOk result (λ wanted. wanted.items ≡ terms_for kind terms.items) }
{
    let mut terms = terms;
    if matches!(kind, Kind::Always) {
        terms.push(Term::Not)?;
    }
    Ok(terms)
}

// Adds a question of this kind and name that asks for states, and says whether it can be read.
fn add_states(
    alloc: Global,
    questions: &mut Questions,
    kind: Kind,
    naming: &Naming<'_>,
    name: String,
    that: &Value,
) -> Result<bool, AllocError>
    ensures { IfOk result (λ good. when good (inquiry_of questions.new)
        ≡ wanted_onto kind (as_names naming.now) (inquiry_of questions.old) (string_bytes name)
        (view that.now) None) }
{
    let mut so_far = Formed {
        terms: Vec::new(alloc),
        watches: mem::replace(&mut questions.watches, Vec::new(alloc)),
    };
    if !add_formula(&mut so_far, most_nested(), naming, that)? {
        return Ok(false);
    }
    questions.watches = so_far.watches;
    let sought = Sought::States(terms_for(kind, so_far.terms)?);
    questions.items.push(Question { kind, name, sought })?;
    Ok(true)
}

// Adds a question of this kind and name, and says whether it can be read.
fn add_wanted(
    alloc: Global,
    questions: &mut Questions,
    kind: Kind,
    naming: &Naming<'_>,
    name: String,
    that: &Value,
) -> Result<bool, AllocError>
    ensures { IfOk result (λ good. when good (inquiry_of questions.new)
        ≡ wanted_onto kind (as_names naming.now) (inquiry_of questions.old) (string_bytes name)
        (view that.now) (rows_wanted kind (as_names naming.now) (view that.now))) }
{
    let Some(conditions) = rows_wanted(alloc, kind, naming, that)? else {
        return add_states(alloc, questions, kind, naming, name, that);
    };
    let sought = Sought::Rows(conditions);
    questions.items.push(Question { kind, name, sought })?;
    Ok(true)
}

/// Adds a question of this kind, and says whether it can be read.
pub fn add_question(
    alloc: Global,
    questions: &mut Questions,
    kind: Kind,
    naming: &Naming<'_>,
    object: &Value,
) -> Result<bool, AllocError>
    ensures { IfOk result (λ good. when good (inquiry_of questions.new)
        ≡ question_onto kind (as_names naming.now) (inquiry_of questions.old) (view object.now)) }
{
    if !has_question_keys(object) {
        return Ok(false);
    }
    let Some(name) = name_said(alloc, questions.items.len(), object)? else {
        return Ok(false);
    };
    let Some(that) = object.get("that") else {
        return Ok(false);
    };
    add_wanted(alloc, questions, kind, naming, name, that)
}

// Adds these questions; the first that cannot be read is bad.
fn add_questions(
    alloc: Global,
    questions: &mut Questions,
    kind: Kind,
    naming: &Naming<'_>,
    items: &[Value],
) -> Result<(), ScenarioFault>
    ensures ok { OnOk result
        (questions_onto kind (as_names naming.now) (inquiry_of questions.old) (map view items.now)
        ≡ Ok (inquiry_of questions.new)) }
    ensures err { IfErr result (λ e. (e ≡ ScenarioFault.OutOfMemory)
        ⊎ (questions_onto kind (as_names naming.now) (inquiry_of questions.old) (map view items.now)
        ≡ Err e)) }
{
    for item in items {
        let number = questions.items.len();
        if !add_question(alloc, questions, kind, naming, item)? {
            return Err(ScenarioFault::BadQuestion(number as u64));
        }
    }
    Ok(())
}

/// The key of questions.
pub fn key_of(kind: Kind) -> &'static str
    ensures { result.now ≡ key_of kind }
{
    match kind {
        Kind::Never => "never",
        Kind::Sometimes => "sometimes",
        Kind::Always => "always",
    }
}

// Adds the questions at the key.
fn add_list(
    alloc: Global,
    questions: &mut Questions,
    kind: Kind,
    naming: &Naming<'_>,
    document: &Value,
) -> Result<(), ScenarioFault>
    ensures ok { OnOk result
        (list_onto kind (as_names naming.now) (view document.now) (inquiry_of questions.old)
        ≡ Ok (inquiry_of questions.new)) }
    ensures err { IfErr result (λ e. (e ≡ ScenarioFault.OutOfMemory)
        ⊎ (list_onto kind (as_names naming.now) (view document.now) (inquiry_of questions.old)
        ≡ Err e)) }
{
    let Some(items) = items_or_none(document, key_of(kind)) else {
        return Err(ScenarioFault::BadQuestion(questions.items.len() as u64));
    };
    add_questions(alloc, questions, kind, naming, items)
}

// Adds the questions of `never` and of `sometimes`.
fn add_two_lists(
    alloc: Global,
    questions: &mut Questions,
    naming: &Naming<'_>,
    document: &Value,
) -> Result<(), ScenarioFault>
    ensures ok { OnOk result
        (ok_and_then (list_onto Kind.Sometimes (as_names naming.now) (view document.now))
        (list_onto Kind.Never (as_names naming.now) (view document.now) (inquiry_of questions.old))
        ≡ Ok (inquiry_of questions.new)) }
    ensures err { IfErr result (λ e. (e ≡ ScenarioFault.OutOfMemory)
        ⊎ (ok_and_then (list_onto Kind.Sometimes (as_names naming.now) (view document.now))
        (list_onto Kind.Never (as_names naming.now) (view document.now) (inquiry_of questions.old))
        ≡ Err e)) }
{
    add_list(alloc, questions, Kind::Never, naming, document)?;
    add_list(alloc, questions, Kind::Sometimes, naming, document)
}

/// Reads the questions of a document, where this may be named.
///
/// The keys `never`, `sometimes` and `always` have arrays of questions, in this order, and all are
/// counted from 0. A question has a condition at `that`, and may have a `name`, one to eighty
/// characters that can be shown as they are; else its number is its name. It has no other key.
///
/// A `never` or a `sometimes` may ask for rows of the table, by one of these objects, with two
/// keys: `entry` with a label, and `is` with a word of what becomes of the entry; `command` with
/// the label of a step of an administrator, and `is` with a word of its answer, `waits-for` with
/// the label of an entry, or `removes` with one. Or by an object with the key `any` alone, an array
/// of these.
///
/// Each other condition asks for states, and so does each `always`. `entry` and `is`, also with
/// `held` and `waiting`, and `command` and `is` stand there as they do for rows; `entry` may have
/// `accepted-before` with the label of a step of an administrator; `queue` has a `phase` or an
/// `occupancy`; and `device` with a phase, `client` and `admin` with a number stand alone. Objects
/// with the key `all`, `any` or `not` alone join conditions. The script has to watch for what is
/// said to have come: the watches are all of these, by their numbers.
///
/// A label that nobody has, or that several have, makes the question bad, and so does all that
/// cannot be read.
pub fn read_questions(
    alloc: Global,
    naming: &Naming<'_>,
    document: &Value,
) -> Result<Questions, ScenarioFault>
    ensures ok { IfOk result
        (λ questions. questions_said (as_names naming.now) (view document.now)
        ≡ Ok (inquiry_of questions)) }
    ensures err { IfErr result (λ e. (e ≡ ScenarioFault.OutOfMemory)
        ⊎ (questions_said (as_names naming.now) (view document.now) ≡ Err e)) }
{
    let mut questions = Questions {
        items: Vec::new(alloc),
        watches: Vec::new(alloc),
    };
    add_two_lists(alloc, &mut questions, naming, document)?;
    add_list(alloc, &mut questions, Kind::Always, naming, document)?;
    Ok(questions)
}
