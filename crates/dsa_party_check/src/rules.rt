//! What may stand at the keys of parties and of their steps, and what is told where
//! something else does.

ghost use Rattle.std.specs.Prelude.{◌≡◌, ◌++◌, ◌∷◌, codes, false, map, option_map, string_bytes};
ghost use Rattle.std.specs.Prelude.{◌<◌, ◌||◌, flat_map, is_none, is_some, length, not, None};
ghost use Rattle.std.specs.Prelude.{option_and_then, IfOk, IfSome, OnOk};
ghost use Rattle.serde_json.specs.{View.{view}, Find.{as_str, get}};
ghost use Rattle.dsa_event_text.specs.Added.{Adds};
ghost use Rattle.dsa_check.specs.Reasons.{first_no_digit, fits_form};
ghost use Rattle.std.specs.Char.{is_ascii_hexdigit};
ghost use Rattle.dsa_scenario.specs.{Actions.{action_of}, Fields.{row_of_field}};
ghost use Rattle.dsa_party_check.specs.Complaints.{complained, Complains};
ghost use Rattle.dsa_party_check.specs.Rules.{digits_flaw_text, digits_wanted, flaw_of_digits};
ghost use Rattle.dsa_party_check.specs.Rules.{is_acted, is_issued, is_kept};
ghost use Rattle.dsa_party_check.specs.Rules.{is_submitted, no_object, of_field, of_fields};
ghost use Rattle.dsa_party_check.specs.Rules.{of_rule};
ghost use Rattle.dsa_party_check.specs.Rules.{of_rules, told_value, unkept, unkept_text, want_text};
ghost use Rattle.dsa_party_check.specs.Rules.{reason_at, wanted_instead, wanting_of, wants_digits};

use crate::complaint::{Complaint, Inside, plain_complaint};
use dsa_book::Event;
use dsa_check::{Aim, add_found, add_wanted, found_in, is_of, is_plain};
use dsa_event_text::{Added, add_count};
use dsa_parties::Outcomes;
use dsa_plans::{busy_at, outcomes_at, retry_at, until_at};
use dsa_questions::has_question_name;
use dsa_scenario::{Action, Field, Form, StepKind, kind_of, parse_action};
use serde_json::Value;
use std::alloc::{AllocError, Global};
use std::fmt::Write;

/// What is wanted at a key.
#[derive(Clone, Copy, PartialEq, Eq)]
pub enum Want {
    Needed(Form),
    /// Where something stands there.
    Allowed(Form),
    Nothing,
    /// The kind of a client's step.
    Submits,
    /// The kind of an administrator's step.
    Acts,
    /// The word of a command.
    Word,
    Retry,
    Fault,
    Busy,
    Until,
    /// The name of a question, where it has one.
    Name,
}

/// A key, and what is wanted there.
#[derive(Clone, Copy)]
pub struct Rule {
    pub name: &'static str,
    pub want: Want,
}

/// A table of keys, each with what is wanted there.
#[macro_export]
macro_rules! rules_of {
    ($($name:literal: $want:expr),*) => {
        [$($crate::rules::Rule { name: $name, want: $want }),*]
    };
}

/// Whether a client makes steps of this kind.
pub fn is_submitted(kind: Option<StepKind>) -> bool
    ensures { result ≡ is_submitted kind }
{
    matches!(kind, Some(StepKind::Enqcmd | StepKind::Movdir))
}

/// Whether an administrator does.
pub fn is_acted(kind: Option<StepKind>) -> bool
    ensures { result ≡ is_acted kind }
{
    matches!(
        kind,
        Some(
            StepKind::Queue | StepKind::Group | StepKind::Command | StepKind::Poll | StepKind::Clear
        )
    )
}

fn is_issued(action: Option<Action>) -> bool
    ensures { result ≡ is_issued action }
{
    matches!(action, Some(Action::Ask(Event::Issue { .. })))
}

fn fits(form: Form, value: Option<&Value>) -> bool
    ensures { result ≡ fits_form form (option_map (λ v. view v.now) value.entry) }
{
    match value {
        Some(value) => is_of(form, value),
        None => false,
    }
}

// Whether the object has at the key what is wanted.
fn is_kept(rule: Rule, object: &Value) -> bool
    ensures { result ≡ is_kept rule.name.now rule.want (view object.now) }
{
    let found = object.get(rule.name);
    match rule.want {
        Want::Needed(form) => fits(form, found),
        Want::Allowed(form) => found.is_none() || fits(form, found),
        Want::Nothing => found.is_none(),
        Want::Submits => is_submitted(kind_of(object)),
        Want::Acts => is_acted(kind_of(object)),
        Want::Word => is_issued(parse_action(object)),
        Want::Retry => retry_at(object).is_some(),
        Want::Fault => outcomes_at(object, Outcomes::SuccessAlone).is_some(),
        Want::Busy => busy_at(object).is_some(),
        Want::Until => until_at(object).is_some(),
        Want::Name => has_question_name(object),
    }
}

/// Adds a value, as it is told.
pub fn add_shown(text: &mut String, value: &Value) -> Added
    ensures { Adds result text.old text.new
        (told_value (view value.now) (as_str (view value.now))) }
{
    match value.as_str() {
        Some(shown) if is_plain(shown) => write!(text, "\"{shown}\""),
        Some(_) => text.push_str("a text"),
        None => add_found(text, found_in(value)),
    }
}

// What is wanted, where this is found.
fn add_want(text: &mut String, want: Want, value: &Value) -> Added
    ensures { Adds result text.old text.new (want_text want (view value.now)) }
{
    match want {
        Want::Needed(form) | Want::Allowed(form) => add_wanted(text, found_in(value), form),
        Want::Submits => text.push_str("\"enqcmd\" or \"movdir\""),
        Want::Acts => { text.push_str("\"queue\", \"group\", \"command\", \"poll\" or \"clear\"") }
        Want::Word => text.push_str("the word of a command"),
        Want::Retry => {
            text.push_str("\"give-up\", \"again\" or a whole number from 0 to 4294967295")
        }
        Want::Fault => text.push_str("true, false or \"may\""),
        Want::Busy => text.push_str("\"give-up\" or \"again\""),
        Want::Until => text.push_str("\"once\", \"finished\" or \"over\""),
        Want::Name => text.push_str(
            "a text of 1 to 80 printable ASCII characters other than \" and \\",
        ),
        Want::Nothing => text.push_str("nothing"),
    }
}

fn is_no_digit(byte: u8) -> bool
    ensures { result ≡ not (is_ascii_hexdigit byte) }
{
    !byte.is_ascii_hexdigit()
}

// The place of the first character that is no hexadecimal digit.
fn first_no_digit(text: &str) -> Option<usize>
    ensures place { result ≡ first_no_digit text.now }
    ensures bound { IfSome result (λ at. at < length text.now) }
{
    text.as_bytes().iter().position(|byte| is_no_digit(*byte))
}

// How many digits there may be, if there are so many.
fn digits_wanted(count: usize) -> &'static str
    ensures { result.now ≡ digits_wanted count }
{
    if count > 128 {
        ", at most 128 are wanted"
    } else {
        ", an even number is wanted"
    }
}

fn add_count_of_digits(text: &mut String, count: usize) -> Added
    ensures { Adds result text.old text.new (flaw_of_digits count None) }
{
    add_count(text, " has ", count as u64, "digit", "digits")?;
    text.push_str(digits_wanted(count))
}

/// What is wrong with a text that is not the bytes of a descriptor.
pub fn add_digits_flaw(text: &mut String, digits: &str) -> Added
    ensures { Adds result text.old text.new (digits_flaw_text digits.now) }
{
    match first_no_digit(digits) {
        Some(before) => write!(
            text,
            " has no hexadecimal digit at character {}",
            before + 1
        ),
        None => add_count_of_digits(text, digits.len()),
    }
}

fn wants_digits(want: Want) -> bool
    ensures { result ≡ wants_digits want }
{
    matches!(want, Want::Needed(Form::Digits))
}

fn add_instead(text: &mut String, want: Want, value: &Value) -> Added
    ensures { Adds result text.old text.new (wanted_instead want (view value.now)) }
{
    text.push_str(" is ")?;
    add_shown(text, value)?;
    text.push_str(", ")?;
    add_want(text, want, value)?;
    text.push_str(" is wanted")
}

// What is said of a value that may not stand there.
fn add_unkept(text: &mut String, want: Want, value: &Value) -> Added
    ensures { Adds result text.old text.new (unkept_text want (view value.now)) }
{
    match (want, value.as_str()) {
        (Want::Nothing, _) => text.push_str(" may not stand here"),
        (_, Some(digits)) if wants_digits(want) => add_digits_flaw(text, digits),
        _ => add_instead(text, want, value),
    }
}

fn add_reason(text: &mut String, rule: Rule, found: Option<&Value>) -> Added
    ensures { Adds result text.old text.new
        (reason_at rule.name.now rule.want (option_map (λ v. view v.now) found.entry)) }
{
    write!(text, "\"{}\"", rule.name)?;
    match found {
        Some(value) => add_unkept(text, rule.want, value),
        None => text.push_str(" is missing"),
    }
}

/// What is told of the key of a rule, and of what stands there.
pub fn unkept(
    alloc: Global,
    inside: Inside,
    rule: Rule,
    object: &Value,
) -> Result<Complaint, AllocError>
    ensures { IfOk result (λ complaint. complained complaint
        ≡ unkept inside rule.name.now rule.want (get rule.name.now (view object.now))) }
{
    let found = object.get(rule.name);
    let mut reason = String::new(alloc);
    add_reason(&mut reason, rule, found)?;
    let aim = if found.is_some() {
        Aim::Value
    } else {
        Aim::Whole
    };
    Ok(Complaint {
        inside,
        aim,
        name: Some(String::from_str(alloc, rule.name)?),
        reason,
    })
}

/// Adds what is told of a rule.
pub fn add_rule(
    alloc: Global,
    complaints: &mut Vec<Complaint>,
    inside: Inside,
    rule: Rule,
    object: &Value,
) -> Result<(), AllocError>
    ensures { OnOk result
        (Complains complaints.old.items complaints.new.items
        (of_rule inside (view object.now) (wanting_of rule))) }
{
    if !is_kept(rule, object) {
        complaints.push(unkept(alloc, inside, rule, object)?)?;
    }
    Ok(())
}

/// Adds what is told of these rules.
pub fn add_rules(
    alloc: Global,
    complaints: &mut Vec<Complaint>,
    inside: Inside,
    rules: &[Rule],
    object: &Value,
) -> Result<(), AllocError>
    ensures { OnOk result
        (Complains complaints.old.items complaints.new.items
        (of_rules inside (view object.now) (map wanting_of rules.now))) }
{
    for rule in rules {
        add_rule(alloc, complaints, inside, *rule, object)?;
    }
    Ok(())
}

// Adds what is told of a key of a kind of steps.
fn add_field(
    alloc: Global,
    complaints: &mut Vec<Complaint>,
    inside: Inside,
    field: Field,
    object: &Value,
) -> Result<(), AllocError>
    ensures { OnOk result
        (Complains complaints.old.items complaints.new.items
        (of_field inside (view object.now) (row_of_field field))) }
{
    if field.name == "client" {
        return Ok(());
    }
    let rule = Rule {
        name: field.name,
        want: Want::Needed(field.form),
    };
    add_rule(alloc, complaints, inside, rule, object)
}

/// Adds what is told of the keys of a kind of steps.
pub fn add_fields(
    alloc: Global,
    complaints: &mut Vec<Complaint>,
    inside: Inside,
    fields: &[Field],
    object: &Value,
) -> Result<(), AllocError>
    ensures { OnOk result
        (Complains complaints.old.items complaints.new.items
        (of_fields inside (view object.now) (map row_of_field fields.now))) }
{
    for field in fields {
        add_field(alloc, complaints, inside, *field, object)?;
    }
    Ok(())
}

/// What is told of a value that is no object.
pub fn no_object(alloc: Global, inside: Inside, value: &Value) -> Result<Vec<Complaint>, AllocError>
    ensures { IfOk result
        (λ all. map complained all.items ≡ no_object inside (view value.now)) }
{
    let mut reason = String::new(alloc);
    add_found(&mut reason, found_in(value))?;
    reason.push_str(" stands here, an object is wanted")?;
    let complaint = plain_complaint(inside, reason);
    Ok(vec![in alloc; complaint]?)
}
