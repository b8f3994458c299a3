//! The steps that show what answers a question.

ghost use Rattle.std.specs.Prelude.{◌≡◌, ◌==◌, ◌&&◌, find, None, IfNone, IfOk, IfSome};
ghost use Rattle.dsa_explore.specs.Kept.{KeepsWays};
ghost use Rattle.dsa_questions.specs.Asked.{is_row_asked};
ghost use Rattle.dsa_questions.specs.Reading.{question_asked};
ghost use Rattle.dsa_questions.specs.Shown.{HasNoneToShow, IsAnswerShown, IsSoonest};
ghost use Rattle.dsa_questions.specs.Verdicts.{fewest_from};

use crate::answers::first_met;
use crate::asked::is_row_asked;
use crate::question::{Condition, Question, Sought};
use crate::verdicts::fewest;
use dsa_book::Step;
use dsa_explore::{Found, Plan, Searched, show};
use std::alloc::{AllocError, Global};

// The first row that is asked for with so many steps.
fn row_with(conditions: &[Condition], rows: &[Found], steps: u32) -> Option<Found>
    ensures { result
        ≡ find (λ row. is_row_asked conditions.now row.finding && row.steps == steps) rows.now }
{
    for row in rows {
        if is_row_asked(conditions, &row.finding) && row.steps == steps {
            return Some(*row);
        }
    }
    None
}

// A row that is asked for, with the fewest steps.
fn soonest_row(conditions: &[Condition], rows: &[Found]) -> Option<Found>
    ensures found { IfSome result (IsSoonest conditions.now rows.now) }
    ensures none { IfNone result (fewest_from conditions.now None rows.now ≡ None) }
{
    row_with(conditions, rows, fewest(conditions, rows)?)
}

/// The steps of the set-up, and then those of the parties that show what the question asks for:
/// as many as its line in the table says. The last one tells a finding that is asked for, or leads
/// to a state that is asked for. `None` only where nothing that is asked for was found.
pub fn show_answer(
    alloc: Global,
    plan: &Plan<'_>,
    searched: &Searched,
    question: &Question,
) -> Result<Option<Vec<Step>>, AllocError>
    ensures shown { IfOk result
        (λ found. IfSome found
        (λ steps. KeepsWays plan.now.caps plan.now.script.now plan.now.setup.now searched.now
        → IsAnswerShown plan.now.caps plan.now.script.now plan.now.setup.now searched.now.explored
        (question_asked question.now) steps.items)) }
    ensures none { IfOk result
        (λ found. IfNone found
        (KeepsWays plan.now.caps plan.now.script.now plan.now.setup.now searched.now
        → HasNoneToShow plan.now.caps plan.now.script.now plan.now.setup.now searched.now.explored
        (question_asked question.now))) }
{
    match &question.sought {
        Sought::Rows(conditions) => {
            let rows = searched.explored.rows.as_slice();
            let Some(row) = soonest_row(conditions.as_slice(), rows) else {
                return Ok(None);
            };
            show(alloc, plan, searched, &row)
        }
        Sought::States(terms) => {
            let Some(met) = first_met(alloc, plan, searched, terms.as_slice())? else {
                return Ok(None);
            };
            Ok(Some(met.steps))
        }
    }
}
