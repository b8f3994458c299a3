//! From the bytes of a document to the text of its search.

ghost use Rattle.std.specs.Prelude.{◌≡◌, ◌⊎◌, [], ℕ, List, Ok, Some, map, string_bytes, IfErr, IfOk};
ghost use Rattle.serde_json.specs.View.{view};
ghost use Rattle.dsa_scenario.specs.Document.{IsFaultOf, IsJson};
ghost use Rattle.dsa_event_text.specs.Added.{Adds};
ghost use Rattle.dsa_plans.specs.Plans.{tables_of};
ghost use Rattle.dsa_questions.specs.{Reading.{Inquiry, question_asked, questions_said}, Stating.{nameable}};
ghost use Rattle.dsa_questions.specs.{Told.{as_answer}, Verdicts.{first_broken}};
ghost use Rattle.dsa_exploration.specs.Plan.{setup_events, IsPlan};
ghost use Rattle.dsa_exploration.specs.Exploration.{fault_of_search, search_text_in, IsExplorationOf};

use crate::setup::{Beginning, read_beginning, setup_events};
use dsa_event_text::Added;
use dsa_explore::{Bounds, Explored, Plan, search_all};
use dsa_parties::Watch;
use dsa_plans::{PartyScripts, read_parties};
use dsa_questions::{
    Answered, Naming, Question, add_answered_objects, add_answered_table, answer_all, first_broken,
    read_questions,
};
use dsa_regs::Caps;
use dsa_scenario::{Action, Render, Rendered, Rendering, ScenarioFault, parse_json};
use serde_json::Value;
use std::alloc::{AllocError, Global};

/// What the text of a search looks like.
#[derive(Clone, Copy, Debug, PartialEq, Eq)]
pub enum Form {
    /// A line for each entry, each step of an administrator, all ends, and each question.
    Table,
    /// A JSON object in each line: one for each of what these lines have.
    Json,
}

/// A search of every order of the steps of a document's parties.
///
/// The steps of the document are the set-up, which is made before. A word that is no command makes
/// no event there, and a `finish` calls an entry that is not there. The document has to be one that
/// can be run.
///
/// What such a run is told comes first, then a fault of the parties, and then one of the questions.
/// `BadSetup` is told of a set-up that lets an entry come in. With these four there is no text.
/// `Broken` is told after the text of a search that breaks a question, and else `Incomplete` after
/// that of one that met its bounds.
#[derive(Clone, Copy, Debug, PartialEq, Eq)]
pub struct Exploring {
    pub form: Form,
    pub bounds: Bounds,
}

/// No text, and this fault.
pub fn fault_alone(alloc: Global, fault: ScenarioFault) -> Rendering
    ensures text { string_bytes result.text ≡ [] }
    ensures fault { result.fault ≡ Some fault }
{
    Rendering {
        text: String::new(alloc),
        fault: Some(fault),
        document: None,
    }
}

/// What is told of a search, after its text.
pub fn fault_of_search(broken: Option<u64>, is_complete: bool) -> Option<ScenarioFault>
    ensures { result ≡ fault_of_search broken is_complete }
{
    match broken {
        Some(question) => Some(ScenarioFault::Broken(question)),
        None if is_complete => None,
        None => Some(ScenarioFault::Incomplete),
    }
}

// Adds the text of a search in this form.
fn add_text_in(
    alloc: Global,
    text: &mut String,
    form: Form,
    parties: &PartyScripts,
    answers: &[Answered<'_>],
    explored: &Explored,
) -> Added
    ensures { Adds result text.old text.new
        (search_text_in form (map string_bytes parties.now.labels.items)
        (map string_bytes parties.now.acts.items) (map as_answer answers.now) explored.now) }
{
    match form {
        Form::Table => add_answered_table(text, parties, answers, explored),
        Form::Json => add_answered_objects(alloc, text, parties, answers, explored),
    }
}

// What is told of a search in this form, with the names that the parties have, and with these
// answers.
fn told(
    alloc: Global,
    form: Form,
    parties: &PartyScripts,
    answers: &[Answered<'_>],
    explored: &Explored,
) -> Result<Rendering, AllocError>
    ensures text { IfOk result
        (λ r. string_bytes r.text
        ≡ search_text_in form (map string_bytes parties.now.labels.items)
        (map string_bytes parties.now.acts.items) (map as_answer answers.now) explored.now) }
    ensures fault { IfOk result
        (λ r. r.fault
        ≡ fault_of_search (first_broken (map as_answer answers.now)) explored.now.is_complete) }
{
    let mut text = String::new(alloc);
    add_text_in(alloc, &mut text, form, parties, answers, explored)?;
    let fault = fault_of_search(first_broken(answers), explored.is_complete);
    Ok(Rendering {
        text,
        fault,
        document: None,
    })
}

// What comes of the parties after these actions, where their script watches for what the questions
// speak of.
fn explore_parties(
    alloc: Global,
    caps: Caps,
    actions: &[Action],
    parties: &PartyScripts,
    questions: &[Question],
    exploring: Exploring,
) -> Result<Rendering, AllocError>
    ensures { IfOk result
        (λ r. (bytes : List ℕ)
        (plan : IsPlan bytes caps parties.now.script (setup_events actions.now)
        (map string_bytes parties.now.labels.items) (map string_bytes parties.now.acts.items)
        parties.now.script.watches.items)
        → questions_said
        (nameable caps parties.now.script (map string_bytes parties.now.labels.items)
        (map string_bytes parties.now.acts.items)) plan.document
        ≡ Ok
        (record {
          asked = map question_asked questions.now;
          watches = parties.now.script.watches.items;
        })
        → IsExplorationOf exploring.form exploring.bounds bytes r.fault (string_bytes r.text)) }
{
    let setup = setup_events(alloc, actions)?;
    let plan = Plan {
        caps,
        script: &parties.script,
        setup: setup.as_slice(),
    };
    let Some(searched) = search_all(alloc, &plan, exploring.bounds)? else {
        return Ok(fault_alone(alloc, ScenarioFault::BadSetup));
    };
    let answers = answer_all(alloc, &plan, &searched, questions)?;
    let explored = &searched.explored;
    let rendering = told(alloc, exploring.form, parties, answers.as_slice(), explored)?;
    Ok(rendering)
}

/// The parties, whose script watches for this.
pub fn watching(parties: PartyScripts, watches: Vec<Watch>) -> PartyScripts
    ensures labels { result.labels ≡ parties.labels }
    ensures acts { result.acts ≡ parties.acts }
    ensures tables { tables_of result.script ≡ tables_of parties.script }
    ensures watches { result.script.watches ≡ watches }
{
    let mut parties = parties;
    parties.script.watches = watches;
    parties
}

// What comes of these parties of a document, which begins so.
fn explore_begun(
    alloc: Global,
    document: &Value,
    begun: &Beginning,
    parties: PartyScripts,
    exploring: Exploring,
) -> Result<Rendering, AllocError>
    ensures { IfOk result
        (λ r. (bytes : List ℕ)
        (plan : IsPlan bytes begun.now.caps parties.script (setup_events begun.now.actions.items)
        (map string_bytes parties.labels.items) (map string_bytes parties.acts.items) [])
        → plan.document ≡ view document.now
        → IsExplorationOf exploring.form exploring.bounds bytes r.fault (string_bytes r.text)) }
{
    let naming = Naming {
        caps: &begun.caps,
        parties: &parties,
    };
    let questions = match read_questions(alloc, &naming, document) {
        Ok(questions) => questions,
        Err(bad) => match bad {
            ScenarioFault::OutOfMemory => return Err(AllocError),
            _ => return Ok(fault_alone(alloc, bad)),
        },
    };
    let parties = watching(parties, questions.watches);
    let actions = begun.actions.as_slice();
    let asked = questions.items.as_slice();
    let rendering = explore_parties(alloc, begun.caps, actions, &parties, asked, exploring)?;
    Ok(rendering)
}

// What comes of the parties of a document.
fn explore_value(alloc: Global, document: &Value, exploring: Exploring) -> Rendered
    ensures ok { IfOk result
        (λ r. (bytes : List ℕ)
        → IsJson bytes (view document.now)
        → IsExplorationOf exploring.form exploring.bounds bytes r.fault (string_bytes r.text)) }
    ensures err { IfErr result
        (λ e. (bytes : List ℕ)
        → IsJson bytes (view document.now)
        → (e ≡ ScenarioFault.OutOfMemory) ⊎ IsFaultOf bytes e) }
{
    let begun = read_beginning(alloc, document)?;
    let parties = match read_parties(alloc, &begun.caps, document) {
        Ok(parties) => parties,
        Err(fault) => match fault {
            ScenarioFault::OutOfMemory => return Err(fault),
            _ => return Ok(fault_alone(alloc, fault)),
        },
    };
    let rendering = explore_begun(alloc, document, &begun, parties, exploring)?;
    Ok(rendering)
}

impl Render for Exploring {
    ghost is_rendering = { λ exploring bytes fault text.
        IsExplorationOf exploring.form exploring.bounds bytes fault text };

    fn render(&self, alloc: Global, bytes: &[u8]) -> Rendered {
        let document = parse_json(alloc, bytes)?;
        explore_value(alloc, &document, *self)
    }
}
