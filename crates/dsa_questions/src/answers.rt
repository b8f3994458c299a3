//! What a search says of questions: states are looked through one after the other.

ghost use Rattle.std.specs.Prelude.{◌≡◌, map, option_map, IfOk, IfSome};
ghost use Rattle.dsa_formulas.specs.Formulas.{holds_in_world};
ghost use Rattle.dsa_explore.specs.declared.visiting.Visited.{Visited};
ghost use Rattle.dsa_explore.specs.Kept.{KeepsWays};
ghost use Rattle.dsa_explore.specs.Walked.{world_of};
ghost use Rattle.dsa_questions.specs.Answers.{AreAnswers, IsFirstMet, IsMetFor};
ghost use Rattle.dsa_questions.specs.Reading.{question_asked, wanted_said};
ghost use Rattle.dsa_questions.specs.{Shown.{IsStateShown}, Told.{as_answer}};

use crate::question::{Question, Sought};
use crate::verdicts::{Answered, answer_with};
use dsa_explore::{Plan, Searched, Visited, Walked, visit};
use dsa_formulas::{Term, is_met};
use std::alloc::{AllocError, Global};

// Whether the formula holds where the parties stand.
fn holds(
    alloc: Global,
    plan: &Plan<'_>,
    walked: &Walked,
    terms: &[Term],
) -> Result<bool, AllocError>
    ensures { IfOk result
        (λ holds. holds
        ≡ holds_in_world plan.now.script.now terms.now (world_of walked.now)) }
{
    is_met(
        alloc,
        plan.script,
        &walked.places,
        walked.labels.as_slice(),
        &walked.machine.device,
        terms,
    )
}

/// The first state in which the formula holds. The states are looked through in the order in which
/// they are reached, so the fewest steps lead to this one.
pub fn first_met(
    alloc: Global,
    plan: &Plan<'_>,
    searched: &Searched,
    terms: &[Term],
) -> Result<Option<Visited>, AllocError>
    ensures met { IfOk result
        (λ met. KeepsWays plan.now.caps plan.now.script.now plan.now.setup.now searched.now
        → IsFirstMet plan.now.caps plan.now.script.now plan.now.setup.now searched.now.explored
        terms.now (option_map (λ (visited : Visited). visited.level) met)) }
    ensures shown { IfOk result
        (λ met. IfSome met
        (λ visited. KeepsWays plan.now.caps plan.now.script.now plan.now.setup.now searched.now
        → IsStateShown plan.now.caps plan.now.script.now plan.now.setup.now terms.now visited.level
        visited.steps.items)) }
{
    for number in 0..searched.explored.states {
        let Some(visited) = visit(alloc, plan, searched, number)? else {
            return Ok(None);
        };
        if holds(alloc, plan, &visited.walked, terms)? {
            return Ok(Some(visited));
        }
    }
    Ok(None)
}

// The fewest steps to a state that is asked for; rows need none.
fn met_for(
    alloc: Global,
    plan: &Plan<'_>,
    searched: &Searched,
    sought: &Sought,
) -> Result<Option<u32>, AllocError>
    ensures { IfOk result
        (λ met. KeepsWays plan.now.caps plan.now.script.now plan.now.setup.now searched.now
        → IsMetFor plan.now.caps plan.now.script.now plan.now.setup.now searched.now.explored
        (wanted_said sought.now) met) }
{
    match sought {
        Sought::Rows(_) => Ok(None),
        Sought::States(terms) => {
            let met = first_met(alloc, plan, searched, terms.as_slice())?;
            Ok(met.map(|visited| visited.level))
        }
    }
}

/// What a search says of these questions.
pub fn answer_all<'a>(
    alloc: Global,
    plan: &Plan<'_>,
    searched: &Searched,
    questions: &'a [Question],
) -> Result<Vec<Answered<'a>>, AllocError>
    ensures { IfOk result
        (λ answers. KeepsWays plan.now.caps plan.now.script.now plan.now.setup.now searched.now
        → AreAnswers plan.now.caps plan.now.script.now plan.now.setup.now searched.now.explored
        (map question_asked questions.now) (map as_answer answers.items)) }
{
    let mut answers = Vec::new(alloc);
    for question in questions {
        let met = met_for(alloc, plan, searched, &question.sought)?;
        answers.push(answer_with(&searched.explored, question, met))?;
    }
    Ok(answers)
}
