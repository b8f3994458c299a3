//! What is wrong with one object, outside a document.

ghost use Rattle.std.specs.Prelude.{◌++◌, codes, flat_map, map, false, IfOk};
ghost use Rattle.serde_json.specs.View.{view};
ghost use Rattle.dsa_scenario.specs.Fields.{row_of_field};
ghost use Rattle.dsa_event_text.specs.Added.{Adds};
ghost use Rattle.dsa_check.specs.Lines.{reason_text};
ghost use Rattle.dsa_check.specs.OneStep.{AreStepTexts, AreKeyTexts, joined_text};

use crate::finding::Reason;
use crate::reasons::{add_reasons, step_reasons};
use crate::report::add_reason;
use crate::warnings::{ANSWER, FLAG, add_odd};
use dsa_event_text::Added;
use dsa_scenario::Field;
use serde_json::Value;
use std::alloc::{AllocError, Global};

/// What is wrong with an object that is to be a step, and after that with what it says was seen.
pub fn reasons_of_step(alloc: Global, step: &Value) -> Result<Vec<Reason>, AllocError>
    ensures { IfOk result
        (λ reasons. AreStepTexts (view step.now) (map reason_text reasons.items)) }
{
    let mut reasons = step_reasons(alloc, step)?;
    add_odd(step, ANSWER, &mut reasons)?;
    add_odd(step, FLAG, &mut reasons)?;
    Ok(reasons)
}

/// What is wrong at these keys of an object.
pub fn reasons_of_keys(
    alloc: Global,
    object: &Value,
    fields: &[Field],
) -> Result<Vec<Reason>, AllocError>
    ensures { IfOk result
        (λ reasons. AreKeyTexts (view object.now) (map row_of_field fields.now)
        (map reason_text reasons.items)) }
{
    let mut reasons = Vec::new(alloc);
    add_reasons(alloc, object, fields, false, &mut reasons)?;
    Ok(reasons)
}

// Adds each of these reasons behind a semicolon.
fn add_further(text: &mut String, reasons: &[Reason]) -> Added
    ensures { Adds result text.old text.new
        (flat_map (λ next. codes "; " ++ next) (map reason_text reasons.now)) }
{
    for reason in reasons {
        text.push_str("; ")?;
        add_reason(text, reason)?;
    }
    Ok(())
}

/// Adds these reasons, with a semicolon between each two.
pub fn add_joined(text: &mut String, reasons: &[Reason]) -> Added
    ensures { Adds result text.old text.new (joined_text (map reason_text reasons.now)) }
{
    let Some((first, more)) = reasons.split_first() else {
        return Ok(());
    };
    add_reason(text, first)?;
    add_further(text, more)
}
