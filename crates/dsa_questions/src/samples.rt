//! What random walks found, with what it says of questions.

ghost use Rattle.std.specs.Prelude.{◌≡◌, map, string_bytes, IfOk};
ghost use Rattle.dsa_event_text.specs.Added.{Adds};
ghost use Rattle.dsa_questions.specs.Reading.{question_asked};
ghost use Rattle.dsa_questions.specs.Samples.{answers_of_walks, objects_of_walks, text_of_walks};
ghost use Rattle.dsa_questions.specs.Told.{as_answer};

use crate::lines::add_questions;
use crate::objects::add_question_objects;
use crate::question::Question;
use crate::verdicts::{Answered, answer_with};
use dsa_event_text::Added;
use dsa_explore::Sampled;
use dsa_plans::PartyScripts;
use dsa_tables::{add_lines, add_objects, add_walks, add_walks_object};
use std::alloc::{AllocError, Global};

/// What random walks say of these questions. They leave open what is asked of states.
pub fn answer_walks<'a>(
    alloc: Global,
    sampled: &Sampled,
    questions: &'a [Question],
) -> Result<Vec<Answered<'a>>, AllocError>
    ensures { IfOk result
        (λ answers. map as_answer answers.items
        ≡ answers_of_walks sampled.now (map question_asked questions.now)) }
{
    let mut answers = Vec::new(alloc);
    for question in questions {
        answers.push(answer_with(&sampled.explored, question, None))?;
    }
    Ok(answers)
}

/// Adds the table of random walks: the lines of the table of a search, and then one that says how
/// many walks were made.
pub fn add_sampled_table(
    text: &mut String,
    parties: &PartyScripts,
    answers: &[Answered<'_>],
    sampled: &Sampled,
) -> Added
    ensures { Adds result text.old text.new
        (text_of_walks (map string_bytes parties.now.labels.items)
        (map string_bytes parties.now.acts.items) (map as_answer answers.now) sampled.now) }
{
    let labels = parties.labels.as_slice();
    add_lines(text, labels, parties.acts.as_slice(), &sampled.explored)?;
    add_questions(text, answers)?;
    add_walks(text, sampled)
}

/// Adds what random walks found as JSON objects, as those of a search, and then one that says how
/// many walks were made.
pub fn add_sampled_objects(
    alloc: Global,
    text: &mut String,
    parties: &PartyScripts,
    answers: &[Answered<'_>],
    sampled: &Sampled,
) -> Added
    ensures { Adds result text.old text.new
        (objects_of_walks (map string_bytes parties.now.labels.items)
        (map string_bytes parties.now.acts.items) (map as_answer answers.now) sampled.now) }
{
    let labels = parties.labels.as_slice();
    add_objects(
        alloc,
        text,
        labels,
        parties.acts.as_slice(),
        &sampled.explored,
    )?;
    add_question_objects(text, answers)?;
    add_walks_object(text, sampled)
}
