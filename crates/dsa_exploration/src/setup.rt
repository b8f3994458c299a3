//! The set-up of a search: a document's steps.

ghost use Rattle.std.specs.Prelude.{◌≡◌, ◌⊎◌, ◌++◌, [], ◌∷◌, ℕ, List, filter_map, IfErr, IfOk, OnOk};
ghost use Rattle.serde_json.specs.View.{view};
ghost use Rattle.dsa_scenario.specs.Document.{IsFaultOf, IsJson};
ghost use Rattle.dsa_exploration.specs.Plan.{setup_event, setup_events, IsRunnable};

use dsa_book::Event;
use dsa_regs::Caps;
use dsa_scenario::{Action, ScenarioFault, check_head, event_for, parse_head, read_actions};
use serde_json::Value;
use std::alloc::{AllocError, Global};

/// What a plain run of a document begins with.
#[derive(Drop)]
pub struct Beginning {
    pub caps: Caps,
    pub actions: Vec<Action>,
}

/// The caps of a document and what its steps ask, or the fault that a plain run is told.
pub fn read_beginning(alloc: Global, document: &Value) -> Result<Beginning, ScenarioFault>
    ensures ok { IfOk result
        (λ r. (bytes : List ℕ)
        → IsJson bytes (view document.now)
        → IsRunnable bytes (view document.now) r.caps r.actions.items) }
    ensures err { IfErr result
        (λ e. (bytes : List ℕ)
        → IsJson bytes (view document.now)
        → (e ≡ ScenarioFault.OutOfMemory) ⊎ IsFaultOf bytes e) }
{
    let Some(head) = parse_head(document) else {
        return Err(ScenarioFault::BadDocument);
    };
    check_head(&head)?;
    let actions = read_actions(alloc, head.steps)?;
    Ok(Beginning {
        caps: head.caps,
        actions,
    })
}

// Adds the event of an action. No name was given yet.
fn add_event(events: &mut Vec<Event>, action: Action) -> Result<(), AllocError>
    ensures { OnOk result
        (events.new.items ≡ events.old.items ++ filter_map setup_event (action ∷ [])) }
{
    if let Ok(event) = event_for(&[], action) {
        events.push(event)?;
    }
    Ok(())
}

/// The events of the set-up, by what the steps ask. A word that is no command makes none.
pub fn setup_events(alloc: Global, actions: &[Action]) -> Result<Vec<Event>, AllocError>
    ensures { IfOk result (λ events. events.items ≡ setup_events actions.now) }
{
    let mut events = Vec::new(alloc);
    for action in actions {
        add_event(&mut events, *action)?;
    }
    Ok(events)
}
