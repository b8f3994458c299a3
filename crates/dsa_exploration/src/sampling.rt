//! From the bytes of a document to the text of random walks of its parties.

ghost use Rattle.std.specs.Prelude.{◌≡◌, ◌⊎◌, [], ℕ, List, Ok, false, map, string_bytes, IfErr, IfOk};
ghost use Rattle.serde_json.specs.View.{view};
ghost use Rattle.dsa_scenario.specs.Document.{IsFaultOf, IsJson};
ghost use Rattle.dsa_event_text.specs.Added.{Adds};
ghost use Rattle.dsa_questions.specs.{Stating.{nameable}, Told.{as_answer}, Verdicts.{first_broken}};
ghost use Rattle.dsa_questions.specs.Reading.{question_asked, questions_said};
ghost use Rattle.dsa_exploration.specs.Plan.{setup_events, IsPlan};
ghost use Rattle.dsa_exploration.specs.Exploration.{fault_of_search};
ghost use Rattle.dsa_exploration.specs.Sampling.{walks_text_in, IsSamplingOf};

use crate::exploration::{Form, fault_alone, fault_of_search, watching};
use crate::setup::{Beginning, read_beginning, setup_events};
use dsa_event_text::Added;
use dsa_explore::{Plan, Sampled, Walks, sample};
use dsa_plans::{PartyScripts, read_parties};
use dsa_questions::{
    Answered, Naming, Question, add_sampled_objects, add_sampled_table, answer_walks, first_broken,
    read_questions,
};
use dsa_regs::Caps;
use dsa_scenario::{Action, Render, Rendered, Rendering, ScenarioFault, parse_json};
use serde_json::Value;
use std::alloc::{AllocError, Global};

/// Random walks of a document's parties, in place of a search of every order of their steps.
///
/// The text has the lines of [`Exploring`](crate::Exploring), with what the walks found, and says
/// at its end how many were made. The faults are those of a search that met its bounds: `Broken`
/// is told after walks that break a question, and else `Incomplete`.
#[derive(Clone, Copy, Debug, PartialEq, Eq)]
pub struct Sampling {
    pub form: Form,
    pub walks: Walks,
}

// Adds the text of random walks in this form.
fn add_text_in(
    alloc: Global,
    text: &mut String,
    form: Form,
    parties: &PartyScripts,
    answers: &[Answered<'_>],
    sampled: &Sampled,
) -> Added
    ensures { Adds result text.old text.new
        (walks_text_in form (map string_bytes parties.now.labels.items)
        (map string_bytes parties.now.acts.items) (map as_answer answers.now) sampled.now) }
{
    match form {
        Form::Table => add_sampled_table(text, parties, answers, sampled),
        Form::Json => add_sampled_objects(alloc, text, parties, answers, sampled),
    }
}

// What is told of random walks in this form, with the names that the parties have, and with what
// they say of questions.
fn told(
    alloc: Global,
    form: Form,
    parties: &PartyScripts,
    answers: &[Answered<'_>],
    sampled: &Sampled,
) -> Result<Rendering, AllocError>
    ensures text { IfOk result
        (λ r. string_bytes r.text
        ≡ walks_text_in form (map string_bytes parties.now.labels.items)
        (map string_bytes parties.now.acts.items) (map as_answer answers.now) sampled.now) }
    ensures fault { IfOk result
        (λ r. r.fault
        ≡ fault_of_search (first_broken (map as_answer answers.now)) false) }
{
    let mut text = String::new(alloc);
    add_text_in(alloc, &mut text, form, parties, answers, sampled)?;
    let fault = fault_of_search(first_broken(answers), false);
    Ok(Rendering {
        text,
        fault,
        document: None,
    })
}

// What random walks of the parties find after these actions, where their script watches for what
// the questions speak of.
fn sample_parties(
    alloc: Global,
    caps: Caps,
    actions: &[Action],
    parties: &PartyScripts,
    questions: &[Question],
    sampling: Sampling,
) -> Result<Rendering, AllocError>
    ensures { IfOk result
        (λ r. (bytes : List ℕ)
        (plan : IsPlan bytes caps parties.now.script (setup_events actions.now)
        (map string_bytes parties.now.labels.items) (map string_bytes parties.now.acts.items)
        parties.now.script.watches.items)
        → questions_said
        (nameable caps parties.now.script (map string_bytes parties.now.labels.items)
        (map string_bytes parties.now.acts.items)) plan.document
        ≡ Ok
        (record {
          asked = map question_asked questions.now;
          watches = parties.now.script.watches.items;
        })
        → IsSamplingOf sampling.form sampling.walks bytes r.fault (string_bytes r.text)) }
{
    let setup = setup_events(alloc, actions)?;
    let plan = Plan {
        caps,
        script: &parties.script,
        setup: setup.as_slice(),
    };
    let Some(sampled) = sample(alloc, &plan, sampling.walks)? else {
        return Ok(fault_alone(alloc, ScenarioFault::BadSetup));
    };
    let answers = answer_walks(alloc, &sampled, questions)?;
    let rendering = told(alloc, sampling.form, parties, answers.as_slice(), &sampled)?;
    Ok(rendering)
}

// What random walks of these parties of a document find, which begins so.
fn sample_begun(
    alloc: Global,
    document: &Value,
    begun: &Beginning,
    parties: PartyScripts,
    sampling: Sampling,
) -> Result<Rendering, AllocError>
    ensures { IfOk result
        (λ r. (bytes : List ℕ)
        (plan : IsPlan bytes begun.now.caps parties.script (setup_events begun.now.actions.items)
        (map string_bytes parties.labels.items) (map string_bytes parties.acts.items) [])
        → plan.document ≡ view document.now
        → IsSamplingOf sampling.form sampling.walks bytes r.fault (string_bytes r.text)) }
{
    let naming = Naming {
        caps: &begun.caps,
        parties: &parties,
    };
    let questions = match read_questions(alloc, &naming, document) {
        Ok(questions) => questions,
        Err(bad) => match bad {
            ScenarioFault::OutOfMemory => return Err(AllocError),
            _ => return Ok(fault_alone(alloc, bad)),
        },
    };
    let parties = watching(parties, questions.watches);
    let actions = begun.actions.as_slice();
    let asked = questions.items.as_slice();
    let rendering = sample_parties(alloc, begun.caps, actions, &parties, asked, sampling)?;
    Ok(rendering)
}

// What random walks of the parties of a document find.
fn sample_value(alloc: Global, document: &Value, sampling: Sampling) -> Rendered
    ensures ok { IfOk result
        (λ r. (bytes : List ℕ)
        → IsJson bytes (view document.now)
        → IsSamplingOf sampling.form sampling.walks bytes r.fault (string_bytes r.text)) }
    ensures err { IfErr result
        (λ e. (bytes : List ℕ)
        → IsJson bytes (view document.now)
        → (e ≡ ScenarioFault.OutOfMemory) ⊎ IsFaultOf bytes e) }
{
    let begun = read_beginning(alloc, document)?;
    let parties = match read_parties(alloc, &begun.caps, document) {
        Ok(parties) => parties,
        Err(fault) => match fault {
            ScenarioFault::OutOfMemory => return Err(fault),
            _ => return Ok(fault_alone(alloc, fault)),
        },
    };
    let rendering = sample_begun(alloc, document, &begun, parties, sampling)?;
    Ok(rendering)
}

impl Render for Sampling {
    ghost is_rendering = { λ sampling bytes fault text.
        IsSamplingOf sampling.form sampling.walks bytes fault text };

    fn render(&self, alloc: Global, bytes: &[u8]) -> Rendered {
        let document = parse_json(alloc, bytes)?;
        sample_value(alloc, &document, *self)
    }
}
