//! Questions by what stands before the colon in their lines.

ghost use Rattle.std.specs.Prelude.{◌≡◌, ◌++◌, codes, map, nat_eq, string_bytes, true, false, IfNone, IfOk, IfSome};
ghost use Rattle.std.specs.List.{starts_with};
ghost use Rattle.dsa_event_text.specs.Added.{Adds};
ghost use Rattle.dsa_questions.specs.Reading.{question_asked};
ghost use Rattle.dsa_questions.specs.Shown.{HasNoneAsked, IsFirstAsked, begins_with_kind, begins_with_name};
ghost use Rattle.dsa_questions.specs.Shown.{calls_question, question_name};

use crate::question::Question;
use crate::reading::key_of;
use dsa_event_text::Added;
use dsa_plans::PartyScripts;
use std::alloc::{AllocError, Global};

// Adds how the question is called.
#[tactic(auto, unfolding(crate::specs::Shown::question_name))]
fn add_question_name(text: &mut String, question: &Question) -> Added
    ensures { Adds result text.old text.new (question_name (question_asked question.now)) }
{
    text.push_str(key_of(question.kind))?;
    text.push_str(" ")?;
    text.push_str(question.name.as_str())
}

// Whether the question is called so.
fn has_name(alloc: Global, question: &Question, name: &str) -> Result<bool, AllocError>
    ensures same { IfOk result
        (λ has. has ≡ true → question_name (question_asked question.now) ≡ name.now) }
    ensures other { IfOk result
        (λ has. has ≡ false → question_name (question_asked question.now) ≡ name.now → ⊥) }
{
    let mut text = String::new(alloc);
    add_question_name(&mut text, question)?;
    Ok(text.as_str() == name)
}

/// The first of these questions that is called so. A question is called by what stands before the
/// colon in its line, as `never a move is lost`, or `sometimes 3` where it has no name.
pub fn question_called<'q>(
    alloc: Global,
    questions: &'q [Question],
    name: &str,
) -> Result<Option<&'q Question>, AllocError>
    ensures found { IfOk result
        (λ found. IfSome found
        (λ question. IsFirstAsked (map question_asked questions.now) name.now
        (question_asked question.now))) }
    ensures none { IfOk result
        (λ found. IfNone found (HasNoneAsked (map question_asked questions.now) name.now)) }
{
    for question in questions {
        if has_name(alloc, question, name)? {
            return Ok(Some(question));
        }
    }
    Ok(None)
}

// Whether the text begins with the word of a kind.
fn begins_with_kind(text: &str) -> bool
    ensures { result ≡ begins_with_kind text.now }
{
    let text = text.as_bytes();
    text.starts_with(b"never ") || text.starts_with(b"sometimes ") || text.starts_with(b"always ")
}

// Whether the text begins with this name, a colon and a space.
fn begins_with(alloc: Global, name: &str, text: &str) -> Result<bool, AllocError>
    ensures { IfOk result
        (λ begins. begins ≡ starts_with nat_eq text.now (name.now ++ codes ": ")) }
{
    let mut beginning = String::from_str(alloc, name)?;
    beginning.push_str(": ")?;
    Ok(text.as_bytes().starts_with(beginning.as_bytes()))
}

// Whether it begins so with one of these names.
fn begins_with_name(alloc: Global, names: &[String], text: &str) -> Result<bool, AllocError>
    ensures { IfOk result
        (λ begins. begins ≡ begins_with_name (map string_bytes names.now) text.now) }
{
    for name in names {
        if begins_with(alloc, name.as_str(), text)? {
            return Ok(true);
        }
    }
    Ok(false)
}

/// Whether a question may be called so: the text begins with the word of a kind, and no row of
/// these parties is called so.
pub fn calls_question(alloc: Global, parties: &PartyScripts, text: &str) -> Result<bool, AllocError>
    ensures { IfOk result
        (λ calls. calls
        ≡ calls_question (map string_bytes parties.now.labels.items)
        (map string_bytes parties.now.acts.items) text.now) }
{
    if !begins_with_kind(text) {
        return Ok(false);
    }
    if begins_with_name(alloc, parties.labels.as_slice(), text)? {
        return Ok(false);
    }
    Ok(!begins_with_name(alloc, parties.acts.as_slice(), text)?)
}
