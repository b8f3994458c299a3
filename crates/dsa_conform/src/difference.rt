//! The lines of a step that differs.

ghost use Rattle.std.specs.Prelude.{◌≡◌, ◌++◌, OnOk, string_bytes};
ghost use Rattle.dsa_conform.specs.Lines.{flag_text, seen_words, seen_line, against_line, allowed_line, asked_step_line};
ghost use Rattle.dsa_conform.specs.Seen.{seen_as};

use crate::observed::Observed;
use crate::quoted::add_seen_text;
use dsa_explain_lines::{add_asked, add_shown};
use dsa_scenario::{Record, add_answer};
use itoa::Buffer;
use std::alloc::AllocError;

/// Adds the number of the step, and what was asked.
pub fn add_step(text: &mut String, number: usize, entry: &Record) -> Result<(), AllocError>
    ensures { OnOk result
        (string_bytes text.new ≡ string_bytes text.old ++ asked_step_line number entry.now) }
{
    let mut buffer = Buffer::new();
    text.push_str("step ")?;
    text.push_str(buffer.format(number))?;
    text.push_str(": ")?;
    add_asked(text, entry)?;
    text.push_str("\n")
}

fn flag_text(flag: bool) -> &'static str
    ensures { result.now ≡ flag_text flag }
{
    if flag { "zf true" } else { "zf false" }
}

fn add_seen_words(text: &mut String, seen: &Observed<'_>) -> Result<(), AllocError>
    ensures { OnOk result
        (string_bytes text.new
        ≡ string_bytes text.old ++ seen_words (seen_as seen.now).answer (seen_as seen.now).zf) }
{
    match (seen.answer, seen.zf) {
        (Some(answer), Some(flag)) => {
            add_seen_text(text, answer)?;
            text.push_str(", ")?;
            text.push_str(flag_text(flag))
        }
        (Some(answer), None) => add_seen_text(text, answer),
        (None, Some(flag)) => text.push_str(flag_text(flag)),
        (None, None) => Ok(()),
    }
}

/// Adds what was seen.
pub fn add_seen(text: &mut String, seen: &Observed<'_>) -> Result<(), AllocError>
    ensures { OnOk result
        (string_bytes text.new ≡ string_bytes text.old ++ seen_line (seen_as seen.now)) }
{
    text.push_str("seen: ")?;
    add_seen_words(text, seen)?;
    text.push_str("\n")
}

/// Adds a fact that speaks against what was seen.
pub fn add_against(text: &mut String, fact: &str) -> Result<(), AllocError>
    ensures { OnOk result
        (string_bytes text.new ≡ string_bytes text.old ++ against_line fact.now) }
{
    text.push_str("against: ")?;
    text.push_str(fact)?;
    text.push_str("\n")
}

/// Adds an answer that is allowed, and why it comes.
pub fn add_allowed(text: &mut String, told: &str, entry: &Record) -> Result<(), AllocError>
    ensures { OnOk result
        (string_bytes text.new ≡ string_bytes text.old ++ allowed_line told.now entry.now) }
{
    text.push_str("allowed: ")?;
    add_answer(text, entry)?;
    add_shown(text, entry, told)
}
