//! How far a device answers by itself as was seen.

ghost use Rattle.std.specs.Prelude.{◌≡◌, ◌≤◌, ℕ, List, IfOk, map, length};
ghost use Rattle.serde_json.specs.View.{view};
ghost use Rattle.dsa_regs.specs.declared.Caps.{Caps};
ghost use Rattle.dsa_scenario.specs.declared.actions.Action.{Action};
ghost use Rattle.dsa_conform.specs.Run.{AreAllRead, AreRead};
ghost use Rattle.dsa_conform.specs.Seen.{Seen, seen_as};
ghost use Rattle.dsa_conform.specs.AsSeen.{IsShownUpTo, IsStepTried};

use crate::observed::{Observed, parse_step};
use crate::shown::is_shown;
use crate::way::{Way, first_way};
use dsa_scenario::{Action, Head, ask, event_for, note_ticket};
use std::alloc::{AllocError, Global};

// One step more, by the device's own answer: whether that shows what was seen.
fn step_alone(
    alloc: Global,
    way: &mut Way,
    action: Action,
    seen: &Observed<'_>,
) -> Result<bool, AllocError>
    ensures { IfOk result
        (λ shown. IsStepTried way.old.device way.old.tickets.items action (seen_as seen.now) shown
        way.new.device way.new.tickets.items) }
{
    let asked = event_for(&way.tickets, action);
    let entry = ask(&mut way.device, &asked);
    note_ticket(&mut way.tickets, &entry)?;
    is_shown(alloc, seen, &entry)
}

/// How many of the first steps a device answers by itself as was seen.
pub fn count_alone(alloc: Global, head: &Head<'_>) -> Result<usize, AllocError>
    requires { AreAllRead (map view head.now.steps.now) }
    ensures inside { IfOk result (λ count. count ≤ length head.now.steps.now) }
    ensures shown { IfOk result (λ count. (observed : List (Action × Seen))
        → AreRead (map view head.now.steps.now) observed
        → IsShownUpTo head.now.caps head.now.capacity observed count) }
{
    let mut way = first_way(alloc, head)?;
    for (i, step) in head.steps.iter().enumerate() {
        let Some((action, seen)) = parse_step(step) else {
            unreachable!();
        };
        if !step_alone(alloc, &mut way, action, &seen)? {
            return Ok(i);
        }
    }
    Ok(head.steps.len())
}
