//! From the bytes of a document to the document of a row of its table, or of what answers a
//! question.

ghost use Rattle.std.specs.Prelude.{◌≡◌, ◌⊎◌, [], ℕ, List, map, string_bytes, false, IfErr, IfOk, if◌then◌else◌};
ghost use Rattle.serde_json.specs.View.{view};
ghost use Rattle.dsa_scenario.specs.Document.{IsFaultOf, IsJson};
ghost use Rattle.dsa_explore.specs.Kept.{KeepsWays};
ghost use Rattle.dsa_exploration.specs.Plan.{setup_events, IsPlan};
ghost use Rattle.dsa_questions.specs.Shown.{calls_question};
ghost use Rattle.dsa_exploration.specs.Showing.{IsRowShowingOf, IsSearchOf, IsShowingOf};

use crate::answering::answer_begun;
use crate::exploration::fault_alone;
use crate::setup::{read_beginning, setup_events};
use dsa_explore::{Bounds, Plan, Searched, search_all, show};
use dsa_plans::{PartyScripts, read_parties};
use dsa_questions::calls_question;
use dsa_recordings::add_document;
use dsa_regs::Caps;
use dsa_scenario::{Action, Render, Rendered, Rendering, ScenarioFault, parse_json};
use dsa_tables::row_named;
use serde_json::Value;
use std::alloc::{AllocError, Global};

/// The steps that show a row of the table of a search, or what answers a question, as a scenario
/// document: those of the set-up, and then as many steps of the parties as the table says. The last
/// of them tells the row, or a row that is asked for, or leads to a state that is asked for. Each
/// has its answer.
///
/// The row is called by what stands before its steps in the table, as `x0: aborted 10`,
/// `drain: active`, `drain: waits for x0` or `reset: removes x0`, and the question by what stands
/// before the colon, as `never a move is lost`. Where several are called so, it is the first one,
/// and rows come before questions. Only a question breaks by such steps if it is a `never` or an
/// `always`, and a `sometimes` is kept by them.
///
/// The faults of [`Exploring`](crate::Exploring) come first, where a row is called those of
/// questions excepted. Then `NoSuchRow` is told where a complete search has no such row or nothing
/// that the question asks for, and `Incomplete` where another search has none. With a fault there
/// is no text.
#[derive(Clone, Copy, Debug, PartialEq, Eq)]
pub struct Showing<'a> {
    pub bounds: Bounds,
    pub row: &'a str,
}

/// The fault where there is nothing to show, by whether the search is complete.
pub fn fault_without_row(is_complete: bool) -> ScenarioFault
    ensures { result ≡ (if is_complete then ScenarioFault.NoSuchRow else ScenarioFault.Incomplete) }
{
    if is_complete {
        ScenarioFault::NoSuchRow
    } else {
        ScenarioFault::Incomplete
    }
}

// The document of the row that is called so.
fn show_row(
    alloc: Global,
    plan: &Plan<'_>,
    parties: &PartyScripts,
    searched: &Searched,
    showing: &Showing<'_>,
) -> Result<Rendering, AllocError>
    ensures { IfOk result
        (λ r. (bytes : List ℕ)
        → IsSearchOf showing.now.bounds bytes plan.now.caps plan.now.script.now plan.now.setup.now
        (map string_bytes parties.now.labels.items) (map string_bytes parties.now.acts.items)
        searched.now.explored
        → calls_question (map string_bytes parties.now.labels.items)
        (map string_bytes parties.now.acts.items) showing.now.row.now
        ≡ false
        → KeepsWays plan.now.caps plan.now.script.now plan.now.setup.now searched.now
        → IsRowShowingOf showing.now.bounds showing.now.row.now bytes r.fault
        (string_bytes r.text)) }
{
    let labels = parties.labels.as_slice();
    let acts = parties.acts.as_slice();
    let explored = &searched.explored;
    let Some(row) = row_named(alloc, labels, acts, explored.rows.as_slice(), showing.row)? else {
        return Ok(fault_alone(alloc, fault_without_row(explored.is_complete)));
    };
    let Some(steps) = show(alloc, plan, searched, &row)? else {
        return Ok(fault_alone(alloc, ScenarioFault::Incomplete));
    };
    let mut text = String::new(alloc);
    add_document(&mut text, &plan.caps, steps.len() as u64, steps.as_slice())?;
    Ok(Rendering {
        text,
        fault: None,
        document: None,
    })
}

// What shows a row of the parties after these actions.
fn show_parties(
    alloc: Global,
    caps: Caps,
    actions: &[Action],
    parties: &PartyScripts,
    showing: &Showing<'_>,
) -> Result<Rendering, AllocError>
    ensures { IfOk result
        (λ r. (bytes : List ℕ)
        → IsPlan bytes caps parties.now.script (setup_events actions.now)
        (map string_bytes parties.now.labels.items) (map string_bytes parties.now.acts.items) []
        → calls_question (map string_bytes parties.now.labels.items)
        (map string_bytes parties.now.acts.items) showing.now.row.now
        ≡ false
        → IsRowShowingOf showing.now.bounds showing.now.row.now bytes r.fault
        (string_bytes r.text)) }
{
    let setup = setup_events(alloc, actions)?;
    let plan = Plan {
        caps,
        script: &parties.script,
        setup: setup.as_slice(),
    };
    let Some(searched) = search_all(alloc, &plan, showing.bounds)? else {
        return Ok(fault_alone(alloc, ScenarioFault::BadSetup));
    };
    let rendering = show_row(alloc, &plan, parties, &searched, showing)?;
    Ok(rendering)
}

// What shows a row of the parties of a document, or what answers its question.
fn show_value(alloc: Global, document: &Value, showing: &Showing<'_>) -> Rendered
    ensures ok { IfOk result
        (λ r. (bytes : List ℕ)
        → IsJson bytes (view document.now)
        → IsShowingOf showing.now.bounds showing.now.row.now bytes r.fault (string_bytes r.text)) }
    ensures err { IfErr result
        (λ e. (bytes : List ℕ)
        → IsJson bytes (view document.now)
        → (e ≡ ScenarioFault.OutOfMemory) ⊎ IsFaultOf bytes e) }
{
    let begun = read_beginning(alloc, document)?;
    let parties = match read_parties(alloc, &begun.caps, document) {
        Ok(parties) => parties,
        Err(fault) => match fault {
            ScenarioFault::OutOfMemory => return Err(fault),
            _ => return Ok(fault_alone(alloc, fault)),
        },
    };
    if calls_question(alloc, &parties, showing.row)? {
        let rendering = answer_begun(alloc, document, &begun, parties, showing)?;
        return Ok(rendering);
    }
    let actions = begun.actions.as_slice();
    let rendering = show_parties(alloc, begun.caps, actions, &parties, showing)?;
    Ok(rendering)
}

impl Render for Showing<'_> {
    ghost is_rendering = { λ showing bytes fault text.
        IsShowingOf showing.bounds showing.row.now bytes fault text };

    fn render(&self, alloc: Global, bytes: &[u8]) -> Rendered {
        let document = parse_json(alloc, bytes)?;
        show_value(alloc, &document, self)
    }
}
