//! What a search found and what it says of questions, as JSON objects, one in each line.

ghost use Rattle.std.specs.Prelude.{◌≡◌, map, string_bytes};
ghost use Rattle.dsa_event_text.specs.Added.{Adds};
ghost use Rattle.dsa_questions.specs.Objects.{objects_with_answers, question_members, question_object};
ghost use Rattle.dsa_questions.specs.Objects.{question_objects, steps_member, verdict_members};
ghost use Rattle.dsa_questions.specs.Told.{as_answer};

use crate::lines::verdict_words;
use crate::question::Kind;
use crate::reading::key_of;
use crate::verdicts::{Answered, Outlook};
use dsa_event_text::{Added, add_number};
use dsa_explore::Explored;
use dsa_plans::PartyScripts;
use dsa_tables::{add_objects, add_search_object};
use std::alloc::Global;

// Adds the fewest steps, where it comes.
fn add_steps_member(text: &mut String, outlook: Outlook) -> Added
    ensures { Adds result text.old text.new (steps_member outlook) }
{
    match outlook {
        Outlook::With(steps) => add_number(text, ",\"steps\":", steps),
        Outlook::InNoOrder | Outlook::NotSoFar => Ok(()),
    }
}

// Adds whose verdict it is.
fn add_question_members(text: &mut String, kind: Kind, name: &str) -> Added
    ensures { Adds result text.old text.new (question_members kind name.now) }
{
    text.push_str("{\"question\":\"")?;
    text.push_str(name)?;
    text.push_str("\",\"kind\":\"")?;
    text.push_str(key_of(kind))?;
    text.push_str("\",\"verdict\":\"")
}

// Adds the verdict.
fn add_verdict_members(text: &mut String, kind: Kind, outlook: Outlook) -> Added
    ensures { Adds result text.old text.new (verdict_members kind outlook) }
{
    text.push_str(verdict_words(kind, outlook))?;
    text.push_str("\"")?;
    add_steps_member(text, outlook)?;
    text.push_str("}\n")
}

// Adds the object of a question.
#[tactic(auto, unfolding(crate::specs::Objects::question_object))]
fn add_question_object(text: &mut String, answer: &Answered<'_>) -> Added
    ensures { Adds result text.old text.new (question_object (as_answer answer.now)) }
{
    add_question_members(text, answer.kind, answer.name)?;
    add_verdict_members(text, answer.kind, answer.outlook)
}

/// Adds the objects of all questions.
pub fn add_question_objects(text: &mut String, answers: &[Answered<'_>]) -> Added
    ensures { Adds result text.old text.new (question_objects (map as_answer answers.now)) }
{
    for answer in answers {
        add_question_object(text, answer)?;
    }
    Ok(())
}

/// Adds what a search found as JSON objects, one in each line: one for each row of the table, in
/// its order and with the names that the parties have, one for each way in which runs can end, one
/// for each question, and one that says how far the search came.
pub fn add_answered_objects(
    alloc: Global,
    text: &mut String,
    parties: &PartyScripts,
    answers: &[Answered<'_>],
    explored: &Explored,
) -> Added
    ensures { Adds result text.old text.new
        (objects_with_answers (map string_bytes parties.now.labels.items)
        (map string_bytes parties.now.acts.items) (map as_answer answers.now) explored.now) }
{
    let labels = parties.labels.as_slice();
    add_objects(alloc, text, labels, parties.acts.as_slice(), explored)?;
    add_question_objects(text, answers)?;
    add_search_object(text, explored)
}
