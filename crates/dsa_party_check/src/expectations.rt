//! What may stand at the keys of a condition of a question, and what is told where something else
//! does.

ghost use Rattle.std.specs.Prelude.{◌≡◌, ◌++◌, codes, flat_map, map, option_map, string_bytes};
ghost use Rattle.std.specs.Prelude.{is_some, option_and_then, IfOk, OnOk};
ghost use Rattle.serde_json.specs.{View.{view}, Find.{as_str, get}};
ghost use Rattle.dsa_plans.specs.Said.{whole_below};
ghost use Rattle.dsa_questions.specs.{Conditions.{number_called}, Formed.{as_names}};
ghost use Rattle.dsa_questions.specs.Words.{became_called, being_called};
ghost use Rattle.dsa_event_text.specs.Added.{Adds};
ghost use Rattle.dsa_party_check.specs.Complaints.{complained, Complains};
ghost use Rattle.dsa_party_check.specs.Expectations.{act_text, became_words, below_text};
ghost use Rattle.dsa_party_check.specs.Expectations.{condition_complaint, replied_words};
ghost use Rattle.dsa_party_check.specs.Expectations.{expected_reason, expected_text, wanted_label_text};
ghost use Rattle.dsa_party_check.specs.Expectations.{expecting, is_as_expected, is_label};
ghost use Rattle.dsa_party_check.specs.Expectations.{keys_expected, of_condition, range_end};
ghost use Rattle.dsa_party_check.specs.Expectations.{of_expectation, of_expectations, of_expected};
ghost use Rattle.dsa_party_check.specs.Expectations.{of_one_key, of_single};

use crate::complaint::{Complaint, Inside};
use crate::rules::add_shown;
use dsa_check::{Aim, add_wanted, found_in};
use dsa_event_text::Added;
use dsa_plans::items_or;
use dsa_questions::{
    Naming, became_called, being_called, is_called, number_called, phase_called, replied_called,
};
use dsa_scenario::Form;
use serde_json::Value;
use std::alloc::{AllocError, Global};
use std::fmt::Write;

/// What is expected at a key of a condition.
#[derive(Clone, Copy, PartialEq, Eq)]
pub enum Expected {
    /// The label of an entry.
    Entry,
    /// The label of a step of an administrator.
    Act,
    /// A word of what becomes of an entry, or of how it is held.
    Became,
    /// A word of an answer.
    Replied,
    Phase,
    Queue,
    Client,
    Administrator,
    Occupancy,
}

/// A key of a condition, and what is expected there.
#[derive(Clone, Copy)]
pub struct Expectation {
    pub name: &'static str,
    pub expected: Expected,
}

/// A table of keys, each with what is expected there.
#[macro_export]
macro_rules! expectations_of {
    ($($name:literal: $expected:expr),*) => {
        [$($crate::expectations::Expectation { name: $name, expected: $expected }),*]
    };
}

const OF_ENTRY: [Expectation; 3] = expectations_of!(
    "entry": Expected::Entry,
    "is": Expected::Became,
    "accepted-before": Expected::Act
);

const OF_COMMAND: [Expectation; 4] = expectations_of!(
    "command": Expected::Act,
    "is": Expected::Replied,
    "waits-for": Expected::Entry,
    "removes": Expected::Entry
);

const OF_OTHERS: [Expectation; 6] = expectations_of!(
    "queue": Expected::Queue,
    "phase": Expected::Phase,
    "occupancy": Expected::Occupancy,
    "device": Expected::Phase,
    "client": Expected::Client,
    "admin": Expected::Administrator
);

// The keys of a condition, by whose it is.
fn keys_expected(condition: &Value) -> &'static [Expectation]
    ensures { map expecting result.now ≡ keys_expected (view condition.now) }
{
    if condition.get("entry").is_some() {
        &OF_ENTRY
    } else if condition.get("command").is_some() {
        &OF_COMMAND
    } else {
        &OF_OTHERS
    }
}

// Below what a number has to be.
fn limit_of(naming: &Naming<'_>, expected: Expected) -> usize
    ensures { result ≡ range_end (as_names naming.now) expected }
{
    match expected {
        Expected::Queue => usize::from(naming.caps.queues),
        Expected::Client => naming.parties.script.clients.len(),
        Expected::Administrator => naming.parties.script.administrators.len(),
        _ => 1 << 16,
    }
}

fn is_below(limit: usize, value: &Value) -> bool
    ensures { result ≡ is_some (whole_below limit (view value.now)) }
{
    match value.as_u64() {
        Some(number) => number < limit as u64,
        None => false,
    }
}

// Whether it is the label of one entry, or of one step of an administrator, of these.
fn is_own_label(labels: &[String], value: &Value) -> bool
    ensures { result
        ≡ is_some
        (option_and_then (number_called (map string_bytes labels.now)) (as_str (view value.now))) }
{
    match value.as_str() {
        Some(text) => number_called(labels, text).is_some(),
        None => false,
    }
}

fn is_as_expected(naming: &Naming<'_>, expected: Expected, value: &Value) -> bool
    ensures { result ≡ is_as_expected (as_names naming.now) expected (view value.now) }
{
    let word = value.as_str();
    match expected {
        Expected::Entry => is_own_label(naming.parties.labels.as_slice(), value),
        Expected::Act => is_own_label(naming.parties.acts.as_slice(), value),
        Expected::Became => match word {
            Some(word) => became_called(word).is_some() || being_called(word).is_some(),
            None => false,
        },
        Expected::Replied => match word {
            Some(word) => replied_called(word).is_some(),
            None => false,
        },
        Expected::Phase => match word {
            Some(word) => phase_called(word).is_some(),
            None => false,
        },
        _ => is_below(limit_of(naming, expected), value),
    }
}

// Whether a label is this.
fn is_label(labels: &[String], value: &Value) -> bool
    ensures { result ≡ is_label (map string_bytes labels.now) (as_str (view value.now)) }
{
    match value.as_str() {
        Some(text) => is_called(labels, text),
        None => false,
    }
}

fn entry_text(there: bool) -> &'static str
    ensures { result.now ≡ wanted_label_text there }
{
    if there {
        "a label that one entry alone has"
    } else {
        "the label of an entry"
    }
}

fn act_text(there: bool) -> &'static str
    ensures { result.now ≡ act_text there }
{
    if there {
        "a label that one step of an administrator alone has"
    } else {
        "the label of a step of an administrator"
    }
}

fn add_below(text: &mut String, limit: usize, value: &Value) -> Added
    ensures { Adds result text.old text.new (below_text limit (view value.now)) }
{
    if limit == 0 {
        return text.push_str("another condition");
    }
    let most = (limit - 1) as u64;
    add_wanted(text, found_in(value), Form::Whole { least: 0, most })
}

fn add_both(text: &mut String, first: &str, second: &str) -> Added
    ensures { Adds result text.old text.new (first.now ++ second.now) }
{
    text.push_str(first)?;
    text.push_str(second)
}

// The words of what becomes of an entry.
fn add_became_words(text: &mut String) -> Added
    ensures { Adds result text.old text.new became_words }
{
    add_both(
        text,
        "\"accepted\", \"retry\", \"dropped\", \"completed\", \"successful\", \"failed\", ",
        "\"aborted\", \"abandoned\", \"held\" or \"waiting\"",
    )
}

// The words of answers.
fn add_replied_words(text: &mut String) -> Added
    ensures { Adds result text.old text.new replied_words }
{
    add_both(
        text,
        "\"ended\", \"active\", \"refused\", \"finished\", \"nothing\", ",
        "\"written\" or \"cleared\"",
    )
}

// What is expected, where this is found.
fn add_expected(text: &mut String, naming: &Naming<'_>, expected: Expected, value: &Value) -> Added
    ensures { Adds result text.old text.new
        (expected_text (as_names naming.now) expected (view value.now)) }
{
    match expected {
        Expected::Entry => {
            text.push_str(entry_text(is_label(naming.parties.labels.as_slice(), value)))
        }
        Expected::Act => text.push_str(act_text(is_label(naming.parties.acts.as_slice(), value))),
        Expected::Became => add_became_words(text),
        Expected::Replied => add_replied_words(text),
        Expected::Phase => text.push_str("\"off\", \"on\" or \"stopping\""),
        _ => add_below(text, limit_of(naming, expected), value),
    }
}

fn add_expected_reason(
    text: &mut String,
    naming: &Naming<'_>,
    expectation: Expectation,
    value: &Value,
) -> Added
    ensures { Adds result text.old text.new
        (expected_reason (as_names naming.now) expectation.name.now expectation.expected
        (view value.now)) }
{
    write!(text, "\"{}\" is ", expectation.name)?;
    add_shown(text, value)?;
    text.push_str(", ")?;
    add_expected(text, naming, expectation.expected, value)?;
    text.push_str(" is wanted")
}

/// What is told of a condition, for this reason.
pub fn condition_complaint(alloc: Global, reason: String) -> Result<Complaint, AllocError>
    ensures { IfOk result
        (λ c. complained c ≡ condition_complaint (string_bytes reason)) }
{
    Ok(Complaint {
        inside: Inside::All,
        aim: Aim::Value,
        name: Some(String::from_str(alloc, "that")?),
        reason,
    })
}

// Adds what is told of a key of a condition.
fn add_expectation(
    alloc: Global,
    complaints: &mut Vec<Complaint>,
    naming: &Naming<'_>,
    expectation: Expectation,
    condition: &Value,
) -> Result<(), AllocError>
    ensures { OnOk result
        (Complains complaints.old.items complaints.new.items
        (of_expectation (as_names naming.now) (view condition.now) (expecting expectation))) }
{
    let Some(value) = condition.get(expectation.name) else {
        return Ok(());
    };
    if is_as_expected(naming, expectation.expected, value) {
        return Ok(());
    }
    let mut reason = String::new(alloc);
    add_expected_reason(&mut reason, naming, expectation, value)?;
    complaints.push(condition_complaint(alloc, reason)?)?;
    Ok(())
}

// Adds what is told of these keys of a condition.
fn add_expectations(
    alloc: Global,
    complaints: &mut Vec<Complaint>,
    naming: &Naming<'_>,
    expectations: &[Expectation],
    condition: &Value,
) -> Result<(), AllocError>
    ensures { OnOk result
        (Complains complaints.old.items complaints.new.items
        (of_expectations (as_names naming.now) (view condition.now)
        (map expecting expectations.now))) }
{
    for expectation in expectations {
        add_expectation(alloc, complaints, naming, *expectation, condition)?;
    }
    Ok(())
}

// Adds what is told of these conditions and of those in them, which are nested so deep at most.
#[cycle(conditions)]
fn add_conditions(
    alloc: Global,
    complaints: &mut Vec<Complaint>,
    depth: u32,
    naming: &Naming<'_>,
    conditions: &[Value],
) -> Result<(), AllocError>
    ensures { OnOk result
        (Complains complaints.old.items complaints.new.items
        (flat_map (of_condition depth (as_names naming.now)) (map view conditions.now))) }
{
    for condition in conditions {
        add_condition(alloc, complaints, depth, naming, condition)?;
    }
    Ok(())
}

// Adds what is told of what stands at `not`, or else of the condition itself.
#[cycle(conditions)]
fn add_single(
    alloc: Global,
    complaints: &mut Vec<Complaint>,
    depth: u32,
    naming: &Naming<'_>,
    condition: &Value,
) -> Result<(), AllocError>
    ensures { OnOk result
        (Complains complaints.old.items complaints.new.items
        (of_single (of_condition depth (as_names naming.now)) (as_names naming.now)
        (view condition.now) (get (codes "not") (view condition.now)))) }
{
    match condition.get("not") {
        Some(negated) => add_condition(alloc, complaints, depth, naming, negated),
        None => add_expectations(
            alloc,
            complaints,
            naming,
            keys_expected(condition),
            condition,
        ),
    }
}

// Adds what is told of what stands at `all` or `any`, or else of one condition.
#[cycle(conditions)]
fn add_one_key(
    alloc: Global,
    complaints: &mut Vec<Complaint>,
    depth: u32,
    naming: &Naming<'_>,
    condition: &Value,
) -> Result<(), AllocError>
    ensures { OnOk result
        (Complains complaints.old.items complaints.new.items
        (of_one_key (of_condition depth (as_names naming.now)) (as_names naming.now)
        (view condition.now))) }
{
    if condition.get("all").is_some() {
        let all = items_or(condition, "all");
        return add_conditions(alloc, complaints, depth, naming, all);
    }
    if condition.get("any").is_some() {
        let any = items_or(condition, "any");
        return add_conditions(alloc, complaints, depth, naming, any);
    }
    add_single(alloc, complaints, depth, naming, condition)
}

/// Adds what is told of a condition and of those in it, which are nested so deep at most.
#[cycle(conditions)]
pub fn add_condition(
    alloc: Global,
    complaints: &mut Vec<Complaint>,
    depth: u32,
    naming: &Naming<'_>,
    condition: &Value,
) -> Result<(), AllocError>
    ensures { OnOk result
        (Complains complaints.old.items complaints.new.items
        (of_condition depth (as_names naming.now) (view condition.now))) }
{
    if depth == 0 {
        return Ok(());
    }
    add_one_key(alloc, complaints, depth - 1, naming, condition)
}
