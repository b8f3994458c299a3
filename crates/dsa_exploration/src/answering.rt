//! From the questions of a document to the document of what answers one of them.

ghost use Rattle.std.specs.Prelude.{◌≡◌, [], ℕ, List, Ok, map, string_bytes, true, IfOk};
ghost use Rattle.serde_json.specs.View.{view};
ghost use Rattle.dsa_explore.specs.Kept.{KeepsWays};
ghost use Rattle.dsa_questions.specs.declared.question.Question.{Question};
ghost use Rattle.dsa_parties.specs.declared.watches.Watch.{Watch};
ghost use Rattle.dsa_questions.specs.{Reading.{Inquiry, question_asked, questions_said}, Stating.{nameable}};
ghost use Rattle.dsa_questions.specs.Shown.{calls_question};
ghost use Rattle.dsa_exploration.specs.Plan.{setup_events, IsPlan};
ghost use Rattle.dsa_exploration.specs.Showing.{IsAnswerShowingOf, IsSearchFor};

use crate::exploration::{fault_alone, watching};
use crate::setup::{Beginning, setup_events};
use crate::showing::{Showing, fault_without_row};
use dsa_explore::{Plan, Searched, search_all};
use dsa_plans::PartyScripts;
use dsa_questions::{Naming, Question, question_called, read_questions, show_answer};
use dsa_recordings::add_document;
use dsa_regs::Caps;
use dsa_scenario::{Action, Rendering, ScenarioFault};
use serde_json::Value;
use std::alloc::{AllocError, Global};

// The document of what answers the question that is called so.
fn answer_question(
    alloc: Global,
    plan: &Plan<'_>,
    searched: &Searched,
    questions: &[Question],
    showing: &Showing<'_>,
) -> Result<Rendering, AllocError>
    ensures { IfOk result
        (λ r. (bytes : List ℕ) (labels acts : List (List ℕ)) (watches : List Watch)
        → IsSearchFor showing.now.bounds bytes plan.now.caps plan.now.script.now plan.now.setup.now
        labels acts (record { asked = map question_asked questions.now; watches = watches })
        searched.now.explored
        → calls_question labels acts showing.now.row.now ≡ true
        → KeepsWays plan.now.caps plan.now.script.now plan.now.setup.now searched.now
        → IsAnswerShowingOf showing.now.bounds showing.now.row.now bytes r.fault
        (string_bytes r.text)) }
{
    let fault = fault_without_row(searched.explored.is_complete);
    let Some(question) = question_called(alloc, questions, showing.row)? else {
        return Ok(fault_alone(alloc, fault));
    };
    let Some(steps) = show_answer(alloc, plan, searched, question)? else {
        return Ok(fault_alone(alloc, fault));
    };
    let mut text = String::new(alloc);
    add_document(&mut text, &plan.caps, steps.len() as u64, steps.as_slice())?;
    Ok(Rendering {
        text,
        fault: None,
        document: None,
    })
}

// What answers the question that is called so, of the parties after these actions, where their
// script watches for what the questions speak of.
fn answer_parties(
    alloc: Global,
    caps: Caps,
    actions: &[Action],
    parties: &PartyScripts,
    questions: &[Question],
    showing: &Showing<'_>,
) -> Result<Rendering, AllocError>
    ensures { IfOk result
        (λ r. (bytes : List ℕ)
        (plan : IsPlan bytes caps parties.now.script (setup_events actions.now)
        (map string_bytes parties.now.labels.items) (map string_bytes parties.now.acts.items)
        parties.now.script.watches.items)
        → questions_said
        (nameable caps parties.now.script (map string_bytes parties.now.labels.items)
        (map string_bytes parties.now.acts.items)) plan.document
        ≡ Ok
        (record {
          asked = map question_asked questions.now;
          watches = parties.now.script.watches.items;
        })
        → calls_question (map string_bytes parties.now.labels.items)
        (map string_bytes parties.now.acts.items) showing.now.row.now
        ≡ true
        → IsAnswerShowingOf showing.now.bounds showing.now.row.now bytes r.fault
        (string_bytes r.text)) }
{
    let setup = setup_events(alloc, actions)?;
    let plan = Plan {
        caps,
        script: &parties.script,
        setup: setup.as_slice(),
    };
    let Some(searched) = search_all(alloc, &plan, showing.bounds)? else {
        return Ok(fault_alone(alloc, ScenarioFault::BadSetup));
    };
    let rendering = answer_question(alloc, &plan, &searched, questions, showing)?;
    Ok(rendering)
}

/// What answers the question that is called so, of these parties of a document, which begins so.
pub fn answer_begun(
    alloc: Global,
    document: &Value,
    begun: &Beginning,
    parties: PartyScripts,
    showing: &Showing<'_>,
) -> Result<Rendering, AllocError>
    ensures { IfOk result
        (λ r. (bytes : List ℕ)
        (plan : IsPlan bytes begun.now.caps parties.script (setup_events begun.now.actions.items)
        (map string_bytes parties.labels.items) (map string_bytes parties.acts.items) [])
        → plan.document ≡ view document.now
        → calls_question (map string_bytes parties.labels.items)
        (map string_bytes parties.acts.items) showing.now.row.now
        ≡ true
        → IsAnswerShowingOf showing.now.bounds showing.now.row.now bytes r.fault
        (string_bytes r.text)) }
{
    let naming = Naming {
        caps: &begun.caps,
        parties: &parties,
    };
    let questions = match read_questions(alloc, &naming, document) {
        Ok(questions) => questions,
        Err(bad) => match bad {
            ScenarioFault::OutOfMemory => return Err(AllocError),
            _ => return Ok(fault_alone(alloc, bad)),
        },
    };
    let parties = watching(parties, questions.watches);
    let actions = begun.actions.as_slice();
    let asked = questions.items.as_slice();
    let rendering = answer_parties(alloc, begun.caps, actions, &parties, asked, showing)?;
    Ok(rendering)
}
