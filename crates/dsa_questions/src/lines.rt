//! The table of a search with the lines of questions.

ghost use Rattle.std.specs.Prelude.{◌≡◌, ◌++◌, map, string_bytes};
ghost use Rattle.dsa_event_text.specs.Added.{Adds};
ghost use Rattle.dsa_questions.specs.Lines.{text_with_answers, question_line, question_lines};
ghost use Rattle.dsa_questions.specs.Lines.{steps_words, verdict_words};
ghost use Rattle.dsa_questions.specs.Told.{as_answer};

use crate::question::Kind;
use crate::reading::key_of;
use crate::verdicts::{Answered, Outlook};
use dsa_event_text::{Added, add_number};
use dsa_explore::Explored;
use dsa_plans::PartyScripts;
use dsa_tables::{add_lines, add_search};

/// What is said of a question.
pub fn verdict_words(kind: Kind, outlook: Outlook) -> &'static str
    ensures { result.now ≡ verdict_words kind outlook }
{
    match (kind, outlook) {
        (Kind::Never | Kind::Always, Outlook::With(_)) => "broken",
        (Kind::Never | Kind::Always, Outlook::InNoOrder) => "kept",
        (Kind::Never | Kind::Always, Outlook::NotSoFar) => "kept so far",
        (Kind::Sometimes, Outlook::With(_)) => "kept",
        (Kind::Sometimes, Outlook::InNoOrder) => "broken",
        (Kind::Sometimes, Outlook::NotSoFar) => "not seen so far",
    }
}

// Adds the fewest steps, in brackets, where it comes.
fn add_steps(text: &mut String, outlook: Outlook) -> Added
    ensures { Adds result text.old text.new (steps_words outlook) }
{
    match outlook {
        Outlook::With(steps) => {
            add_number(text, " [", steps)?;
            text.push_str("]")
        }
        Outlook::InNoOrder | Outlook::NotSoFar => Ok(()),
    }
}

// The line of a question.
#[tactic(auto, unfolding(crate::specs::Lines::question_line))]
fn add_question(text: &mut String, answer: &Answered<'_>) -> Added
    ensures { Adds result text.old text.new (question_line (as_answer answer.now)) }
{
    text.push_str(key_of(answer.kind))?;
    text.push_str(" ")?;
    text.push_str(answer.name)?;
    text.push_str(": ")?;
    text.push_str(verdict_words(answer.kind, answer.outlook))?;
    add_steps(text, answer.outlook)?;
    text.push_str("\n")
}

/// Adds the lines of all questions.
pub fn add_questions(text: &mut String, answers: &[Answered<'_>]) -> Added
    ensures { Adds result text.old text.new (question_lines (map as_answer answers.now)) }
{
    for answer in answers {
        add_question(text, answer)?;
    }
    Ok(())
}

/// Adds the table of a search: a line for each label and for each act of an administrator, by the
/// names that the parties have, then a line for each question, and then one that says how far the
/// search came.
pub fn add_answered_table(
    text: &mut String,
    parties: &PartyScripts,
    answers: &[Answered<'_>],
    explored: &Explored,
) -> Added
    ensures { Adds result text.old text.new
        (text_with_answers (map string_bytes parties.now.labels.items)
        (map string_bytes parties.now.acts.items) (map as_answer answers.now) explored.now) }
{
    let labels = parties.labels.as_slice();
    add_lines(text, labels, parties.acts.as_slice(), explored)?;
    add_questions(text, answers)?;
    add_search(text, explored)
}
