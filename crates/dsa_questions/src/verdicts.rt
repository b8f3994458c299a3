//! What a search says of questions.

ghost use Rattle.std.specs.Prelude.{◌≡◌, map, None};
ghost use Rattle.dsa_questions.specs.Reading.{question_asked, wanted_said};
ghost use Rattle.dsa_questions.specs.Told.{as_answer};
ghost use Rattle.dsa_questions.specs.Verdicts.{answer_with, comes_by, outlook_by, outlook_of, fewer, fewest_from};
ghost use Rattle.dsa_questions.specs.Verdicts.{first_broken, is_broken_by};

use crate::asked::is_row_asked;
use crate::question::{Condition, Kind, Question, Sought};
use dsa_explore::{Explored, Found};

/// Whether what a question asks for comes in some order.
#[derive(Clone, Copy, Debug, PartialEq, Eq)]
pub enum Outlook {
    /// It may come with so many steps. If the search is complete, it never does with fewer.
    With(u32),
    /// It cannot come in any order.
    InNoOrder,
    /// It did not come before the search met its bounds.
    NotSoFar,
}

// The fewer of these steps and those so far.
fn fewer(least: Option<u32>, steps: u32) -> u32
    ensures { result ≡ fewer least steps }
{
    match least {
        Some(least) => least.min(steps),
        None => steps,
    }
}

/// The fewest steps of a row that is asked for.
pub fn fewest(conditions: &[Condition], rows: &[Found]) -> Option<u32>
    ensures { result ≡ fewest_from conditions.now None rows.now }
{
    let mut least = None;
    for row in rows {
        if is_row_asked(conditions, &row.finding) {
            least = Some(fewer(least, row.steps));
        }
    }
    least
}

// Whether what is asked for comes, by the fewest steps with which it was found, and by whether all
// was tried.
fn comes_by(is_complete: bool, least: Option<u32>) -> Outlook
    ensures { result ≡ comes_by is_complete least }
{
    match least {
        Some(steps) => Outlook::With(steps),
        None if is_complete => Outlook::InNoOrder,
        None => Outlook::NotSoFar,
    }
}

/// Whether one of the conditions comes, by what a search found.
pub fn outlook_of(conditions: &[Condition], explored: &Explored) -> Outlook
    ensures { result ≡ outlook_of conditions.now explored.now }
{
    comes_by(
        explored.is_complete,
        fewest(conditions, explored.rows.as_slice()),
    )
}

// Whether what must never come comes, what has to hold always does not, or what has to come in
// some order comes in none.
fn is_broken_by(kind: Kind, outlook_of: Outlook) -> bool
    ensures { result ≡ is_broken_by kind outlook_of }
{
    matches!(
        (kind, outlook_of),
        (Kind::Never | Kind::Always, Outlook::With(_)) | (Kind::Sometimes, Outlook::InNoOrder)
    )
}

// ---- answers

/// A question with what is said of it.
#[derive(Clone, Copy)]
pub struct Answered<'a> {
    pub kind: Kind,
    pub name: &'a str,
    pub outlook: Outlook,
}

// Whether one of the conditions comes, or such a state does, which these are the fewest steps to.
fn outlook_by(explored: &Explored, sought: &Sought, met: Option<u32>) -> Outlook
    ensures { result ≡ outlook_by explored.now (wanted_said sought.now) met }
{
    match sought {
        Sought::Rows(conditions) => outlook_of(conditions.as_slice(), explored),
        Sought::States(_) => comes_by(explored.is_complete, met),
    }
}

/// What a search says of a question, with these fewest steps to a state that it asks for.
pub fn answer_with<'a>(
    explored: &Explored,
    question: &'a Question,
    met: Option<u32>,
) -> Answered<'a>
    ensures { as_answer result ≡ answer_with explored.now (question_asked question.now) met }
{
    Answered {
        kind: question.kind,
        name: question.name.as_str(),
        outlook: outlook_by(explored, &question.sought, met),
    }
}

/// The number of the first question that is broken.
pub fn first_broken(answers: &[Answered<'_>]) -> Option<u64>
    ensures { result ≡ first_broken (map as_answer answers.now) }
{
    for (number, answer) in answers.iter().enumerate() {
        if is_broken_by(answer.kind, answer.outlook) {
            return Some(number as u64);
        }
    }
    None
}
