//! What a line asks.

ghost use Rattle.std.specs.Prelude.{◌≡◌, ◌++◌, ℕ, List, codes, map, option_map, true, IfOk};
ghost use Rattle.std.specs.Prelude.{string_bytes};
ghost use Rattle.serde_json.specs.View.{view};
ghost use Rattle.dsa_conform.specs.Seen.{seen_as};
ghost use Rattle.dsa_scenario.specs.Fields.{text_of};
ghost use Rattle.dsa_check.specs.Lines.{reason_text};
ghost use Rattle.dsa_check.specs.OneStep.{AreStepTexts, joined_text};
ghost use Rattle.dsa_serve.specs.Requests.{explained_of, is_explanation, request_as, request_of};
ghost use Rattle.dsa_serve.specs.Requests.{request_of_word, step_within, stuck_text, AreTextsOf};
ghost use Rattle.dsa_serve.specs.Requests.{TellsNoJson, TellsNoStep};

use dsa_book::PastFates;
use dsa_check::{Reason, add_flaw, add_joined, reasons_of_keys, reasons_of_step};
use dsa_conform::{Observed, parse_step};
use dsa_scenario::{Action, Field, Form, table_of};
use serde_json::Value;
use std::alloc::{AllocError, Global};

/// The most bytes that a line has, without its line feed (profile).
pub const MAX_LINE: usize = 1_048_576;

/// The key of an explanation beside its word.
const EXPLANATION: [Field; 1] = table_of!("step": Form::Object);

/// What a line asks.
#[derive(Clone, Copy, Debug, PartialEq, Eq)]
pub enum Line<'v> {
    /// To make a step, of which this was seen.
    Step(Action, Observed<'v>),
    /// To make such a step, and to say why it is answered so.
    Explain(Action, Observed<'v>),
    /// To show the device as it stands.
    Show,
    /// To tell the fates that were not told yet.
    Fates,
    /// To begin the history anew, with the fates so far or without them.
    BeginAnew(PastFates),
}

// The word at `do`.
fn word_of(value: &Value) -> Option<&str>
    ensures { option_map (λ word. word.now) result ≡ text_of (codes "do") (view value.now) }
{
    value.get("do")?.as_str()
}

/// Whether the word at `do` asks for an explanation.
pub fn is_explanation(value: &Value) -> bool
    ensures { result ≡ is_explanation (view value.now) }
{
    match word_of(value) {
        Some(word) => word == "explain",
        None => false,
    }
}

/// The step object that a value is, or that it asks to explain.
pub fn step_within(value: &Value) -> Option<&Value>
    ensures { option_map (λ step. view step.now) result ≡ step_within (view value.now) }
{
    if is_explanation(value) {
        return value.get("step");
    }
    Some(value)
}

// What the step object inside `explain` asks, and what it says was seen.
fn parse_explained(value: &Value) -> Option<(Action, Observed<'_>)>
    ensures { option_map (λ o. (o.0, seen_as o.1)) result ≡ explained_of (view value.now) }
{
    if !is_explanation(value) {
        return None;
    }
    parse_step(value.get("step")?)
}

// What this word asks by itself.
fn parse_word(word: &str) -> Option<Line<'_>>
    ensures { option_map request_as result ≡ request_of_word word.now }
{
    match word {
        "show" => Some(Line::Show),
        "fates" => Some(Line::Fates),
        "begin-anew" => Some(Line::BeginAnew(PastFates::Kept)),
        "begin-anew-without-fates" => Some(Line::BeginAnew(PastFates::Forgotten)),
        _ => None,
    }
}

/// What a JSON value asks, if anything.
pub fn parse_line(value: &Value) -> Option<Line<'_>>
    ensures { option_map request_as result ≡ request_of (view value.now) }
{
    if let Some((action, seen)) = parse_step(value) {
        return Some(Line::Step(action, seen));
    }
    if let Some((action, seen)) = parse_explained(value) {
        return Some(Line::Explain(action, seen));
    }
    match word_of(value) {
        Some(word) => parse_word(word),
        None => None,
    }
}

// What is wrong with a value that asks nothing, or with the object that it asks to explain.
fn reasons_of(alloc: Global, value: &Value) -> Result<Vec<Reason>, AllocError>
    ensures { IfOk result
        (λ reasons. AreTextsOf (view value.now) (is_explanation (view value.now))
        (map reason_text reasons.items)) }
{
    if !is_explanation(value) {
        return reasons_of_step(alloc, value);
    }
    match value.get("step") {
        Some(step) => reasons_of_step(alloc, step),
        None => reasons_of_keys(alloc, value, &EXPLANATION),
    }
}

// That a value is no step, by these reasons.
fn told(alloc: Global, reasons: &[Reason]) -> Result<String, AllocError>
    ensures { IfOk result
        (λ why. string_bytes why
        ≡ codes "no step: " ++ joined_text (map reason_text reasons.now)) }
{
    let mut why = String::from_str(alloc, "no step: ")?;
    add_joined(&mut why, reasons)?;
    Ok(why)
}

/// Why a value asks nothing.
pub fn no_step(alloc: Global, value: &Value) -> Result<String, AllocError>
    ensures { IfOk result (λ why. TellsNoStep (view value.now) (string_bytes why)) }
{
    let reasons = reasons_of(alloc, value)?;
    told(alloc, reasons.as_slice())
}

/// Why a value is no strict step.
pub fn no_strict_step(alloc: Global, step: &Value) -> Result<String, AllocError>
    ensures { IfOk result
        (λ why. (texts : List (List ℕ))
        × AreStepTexts (view step.now) texts
        × (string_bytes why ≡ codes "no step: " ++ joined_text texts)) }
{
    let reasons = reasons_of_step(alloc, step)?;
    told(alloc, reasons.as_slice())
}

/// Why a step asks nothing that has nothing strict at this key, nor anything that means it.
pub fn no_strict_form(alloc: Global, key: &str) -> Result<String, AllocError>
    ensures { IfOk result (λ why. string_bytes why ≡ stuck_text key.now) }
{
    let mut why = String::from_str(alloc, "no step: \"")?;
    why.push_str(key)?;
    why.push_str("\" has no strict form")?;
    Ok(why)
}

/// Why a line is no JSON text, and where.
pub fn no_json(alloc: Global, line: &[u8]) -> Result<String, AllocError>
    ensures { IfOk result (λ why. TellsNoJson line.now (string_bytes why)) }
{
    let mut why = String::from_str(alloc, "not JSON: ")?;
    add_flaw(alloc, &mut why, line)?;
    Ok(why)
}
