//! A run of the steps of a document, one after the other: each is expanded by the names that those
//! before it gave.

ghost use Rattle.std.specs.Prelude.{◌≡◌, ◌⊎◌, ◌++◌, [], ◌∷◌, ℕ, List, map, take, slice_get, None, Some};
ghost use Rattle.std.specs.Prelude.{IfErr, IfOk, MatchOption, OnOk, codes, option_map};
ghost use Rattle.serde_json.specs.{Data.{Data}, View.{view}};
ghost use Rattle.dsa_regs.specs.declared.Caps.{Caps};
ghost use Rattle.dsa_scenario.specs.declared.faults.ScenarioFault.{ScenarioFault};
ghost use Rattle.dsa_scenario.specs.{Actions.{action_of}, Document.{IsOpenable, IsOpeningFault}};
ghost use Rattle.dsa_scenario.specs.Fields.{text_of};
ghost use Rattle.dsa_expand.specs.Members.{AreFlat, given_as, pairs_of_step};
ghost use Rattle.dsa_expand.specs.Steps.{Given, with_given, object_with, strict_step};
ghost use Rattle.dsa_expand.specs.Expansion.{IsStuckAt};
ghost use Rattle.dsa_expand.specs.Walk.{IsWalkedOver};

use crate::members::StrictStep;
use crate::steps::{GivenName, strict_step};
use dsa_cells::LinkedStore;
use dsa_named::name_given;
use dsa_regs::Caps;
use dsa_scenario::{Head, Record, Run, ScenarioFault, ask, event_for, note_ticket, open_run};
use serde_json::Value;
use std::alloc::{AllocError, Global};

/// A run, the own names of its entries, and the strict forms of its steps.
#[derive(Drop)]
pub struct Walk<'v> {
    pub run: Run<LinkedStore>,
    pub given: Vec<GivenName>,
    pub strict: Vec<StrictStep<'v>>,
}

/// A walk of no step, on a new device.
pub fn open_walk<'v>(alloc: Global, caps: Caps, capacity: u64) -> Result<Walk<'v>, ScenarioFault>
    ensures opening { OnOk result (IsOpenable caps capacity) }
    ensures first { IfOk result
        (λ walk. IsWalkedOver caps capacity [] walk.run.device walk.run.tickets.items
        (map given_as walk.given.items) (map pairs_of_step walk.strict.items)) }
    ensures fault { IfErr result
        (λ e. (e ≡ ScenarioFault.OutOfMemory) ⊎ IsOpeningFault caps capacity e) }
{
    let head = Head {
        caps,
        capacity,
        steps: &[],
    };
    let run = open_run(alloc, &head)?;
    Ok(Walk {
        run,
        given: Vec::new(alloc),
        strict: Vec::new(alloc),
    })
}

// The text that a step has at `as`.
fn own_name(step: &Value) -> Option<&str>
    ensures { option_map (λ text. text.now) result ≡ text_of (codes "as") (view step.now) }
{
    step.get("as")?.as_str()
}

/// Notes the name that a step was given under its own.
pub fn note_name(
    alloc: Global,
    given: &mut Vec<GivenName>,
    step: &Value,
    entry: &Record,
) -> Result<(), AllocError>
    ensures { OnOk result
        (map given_as given.new.items
        ≡ with_given (map given_as given.old.items) (view step.now) entry.now) }
{
    let Some(text) = own_name(step) else {
        return Ok(());
    };
    let Some(name) = name_given(entry) else {
        return Ok(());
    };
    given.push(GivenName {
        text: String::from_str(alloc, text)?,
        name,
    })?;
    Ok(())
}

// Makes a step, of which this is the strict form.
fn make_step<'v>(
    alloc: Global,
    walk: &mut Walk<'v>,
    step: &Value,
    strict: StrictStep<'v>,
) -> Result<(), AllocError>
    requires form { strict_step (Some (map given_as walk.old.given.items)) (view step.now)
        ≡ Some (pairs_of_step strict) }
    requires asks { Some strict.action ≡ action_of (object_with (pairs_of_step strict)) }
    ensures { OnOk result
        ((caps : Caps) → (capacity : ℕ) → (steps : List Data)
        → IsWalkedOver caps capacity steps walk.old.run.device walk.old.run.tickets.items
        (map given_as walk.old.given.items) (map pairs_of_step walk.old.strict.items)
        → IsWalkedOver caps capacity (steps ++ view step.now ∷ []) walk.new.run.device
        walk.new.run.tickets.items (map given_as walk.new.given.items)
        (map pairs_of_step walk.new.strict.items)) }
{
    let asked = event_for(&walk.run.tickets, strict.action);
    let entry = ask(&mut walk.run.device, &asked);
    note_ticket(&mut walk.run.tickets, &entry)?;
    note_name(alloc, &mut walk.given, step, &entry)?;
    walk.strict.push(strict)?;
    Ok(())
}

/// Makes the steps one after the other, up to the first that has no strict form, of which it gives
/// the number.
pub fn walk_steps<'v>(
    alloc: Global,
    walk: &mut Walk<'v>,
    steps: &'v [Value],
) -> Result<Option<usize>, AllocError>
    requires { AreFlat 127 (map view steps.now) }
    ensures { IfOk result
        (λ found. (caps : Caps) → (capacity : ℕ)
        → IsWalkedOver caps capacity [] walk.old.run.device walk.old.run.tickets.items
        (map given_as walk.old.given.items) (map pairs_of_step walk.old.strict.items)
        → MatchOption found
        (IsWalkedOver caps capacity (map view steps.now) walk.new.run.device
        walk.new.run.tickets.items (map given_as walk.new.given.items)
        (map pairs_of_step walk.new.strict.items))
        (λ i. IsStuckAt caps capacity (map view steps.now) i)) }
{
    for (i, step) in steps.iter().enumerate() {
        let Some(strict) = strict_step(alloc, Some(walk.given.as_slice()), step)? else {
            return Ok(Some(i));
        };
        make_step(alloc, walk, step, strict)?;
    }
    Ok(None)
}
