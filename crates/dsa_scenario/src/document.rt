//! Documents: JSON texts with the caps, the capacity and the steps of a scenario.

ghost use Rattle.std.specs.Prelude.{◌≡◌, ◌⊎◌, map, option_map, IfOk, IfErr, IfNone, IfSome, OnOk, MatchOption};
ghost use Rattle.serde_json.specs.View.{view, items_view};
ghost use Rattle.serde_json.specs.Errors.{IsMemory};
ghost use Rattle.dsa_scenario.specs.Document.{head_of, AreSteps, IsBadAt, IsFirstBad, IsFaultOfHead, IsJson, IsNoJson};
ghost use Rattle.dsa_scenario.specs.Document.{IsOpenable, IsOpeningFault};

use crate::actions::{parse_action, parse_caps};
use crate::faults::ScenarioFault;
use crate::fields::u64_field;
use dsa_device::{MakeFault, check_opening};
use dsa_regs::Caps;
use serde_json::{Error, Value};
use std::alloc::Global;

/// The three keys of a document.
#[derive(Drop)]
pub struct Head<'v> {
    pub caps: Caps,
    pub capacity: u64,
    pub steps: &'v [Value],
}

fn json_fault(error: Error) -> ScenarioFault
    ensures memory { IsMemory error → result ≡ ScenarioFault.OutOfMemory }
    ensures other { ¬ IsMemory error → result ≡ ScenarioFault.NotJson }
{
    if error.is_memory() {
        ScenarioFault::OutOfMemory
    } else {
        ScenarioFault::NotJson
    }
}

/// Reads a JSON value.
pub fn parse_json(alloc: Global, bytes: &[u8]) -> Result<Value, ScenarioFault>
    ensures ok { IfOk result (λ v. IsJson bytes.now (view v)) }
    ensures err { IfErr result
        (λ e. (e ≡ ScenarioFault.OutOfMemory)
        ⊎ ((e ≡ ScenarioFault.NotJson) × IsNoJson bytes.now)) }
{
    match Value::from_slice(alloc, bytes) {
        Ok(value) => Ok(value),
        Err(error) => Err(json_fault(error)),
    }
}

/// The three keys of a document, where it has them.
pub fn parse_head(document: &Value) -> Option<Head<'_>>
    ensures { option_map (λ h. (h.caps, h.capacity, items_view h.steps.now)) result
        ≡ head_of (view document.now) }
{
    let caps = parse_caps(document.get("caps")?)?;
    let capacity = u64_field(document, "capacity")?;
    let steps = document.get("steps")?.as_array()?.as_slice();
    Some(Head {
        caps,
        capacity,
        steps,
    })
}

// The first item that is no step object, by its number.
fn first_bad(steps: &[Value]) -> Option<usize>
    ensures { MatchOption result (AreSteps (map view steps.now)) (IsBadAt (map view steps.now)) }
{
    for (i, step) in steps.iter().enumerate() {
        let Some(_) = parse_action(step) else {
            return Some(i);
        };
    }
    None
}

/// What keeps a device from being made of these caps and this capacity.
pub fn opening_fault(caps: &Caps, capacity: u64) -> Option<ScenarioFault>
    ensures none { IfNone result (IsOpenable caps.now capacity) }
    ensures some { IfSome result (IsOpeningFault caps.now capacity) }
{
    match check_opening(caps, capacity) {
        None => None,
        Some(MakeFault::BadCaps) => Some(ScenarioFault::BadCaps),
        Some(_) => Some(ScenarioFault::BadCapacity),
    }
}

/// Whether each item is a step object.
pub fn check_steps(steps: &[Value]) -> Result<(), ScenarioFault>
    ensures ok { OnOk result (AreSteps (map view steps.now)) }
    ensures bad { IfErr result (IsFirstBad (map view steps.now)) }
{
    match first_bad(steps) {
        Some(i) => Err(ScenarioFault::BadStep(i as u64)),
        None => Ok(()),
    }
}

/// Whether a device can be made as the head says.
///
/// A step object that is none comes before a fault of the device, so all of them are read before
/// that is told.
pub fn check_head(head: &Head<'_>) -> Result<(), ScenarioFault>
    ensures opening { OnOk result (IsOpenable head.now.caps head.now.capacity) }
    ensures fault { IfErr result
        (IsFaultOfHead head.now.caps head.now.capacity (map view head.now.steps.now)) }
{
    let Some(fault) = opening_fault(&head.caps, head.capacity) else {
        return Ok(());
    };
    check_steps(head.steps)?;
    Err(fault)
}
