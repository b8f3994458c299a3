//! Administrators: what each of their steps does.

ghost use Rattle.std.specs.Prelude.{◌≡◌, [], ◌∷◌, codes, map, IfOk};
ghost use Rattle.serde_json.specs.View.{view};
ghost use Rattle.dsa_base.specs.Rows.{when};
ghost use Rattle.dsa_plans.specs.Said.{each_onto, lacks, read_onto};
ghost use Rattle.dsa_plans.specs.Acting.{act_asked, act_said, administrator_onto};

use crate::said::{busy_at, label_of, steps_of, until_at};
use dsa_book::Event;
use dsa_parties::{Act, Part};
use dsa_scenario::{Action, parse_action};
use serde_json::Value;
use std::alloc::AllocError;

// What an administrator does by a step that asks this.
fn act_asked(step: &Value, action: Action) -> Option<Act>
    ensures { result ≡ act_asked (view step.now) action }
{
    match action {
        Action::Ask(Event::Issue { command }) => Some(Act::Issue {
            command,
            again: busy_at(step)?,
        }),
        Action::Ask(Event::Poll) => Some(Act::Poll {
            until: until_at(step)?,
        }),
        Action::Ask(Event::WriteQueue { queue, config }) => {
            Some(Act::WriteQueue { queue, config })
        }
        Action::Ask(Event::WriteGroup { group, config }) => {
            Some(Act::WriteGroup { group, config })
        }
        Action::Ask(Event::ClearError) => Some(Act::ClearError),
        _ => None,
    }
}

// Whether the step has no condition.
fn is_unconditional(step: &Value) -> bool
    ensures { result ≡ lacks (codes "when" ∷ codes "if" ∷ []) (view step.now) }
{
    step.get("when").is_none() && step.get("if").is_none()
}

/// What an administrator does by a step, if it can be read.
pub fn act_said(step: &Value) -> Option<Act>
    ensures { result ≡ act_said (view step.now) }
{
    if !is_unconditional(step) {
        return None;
    }
    act_asked(step, parse_action(step)?)
}

// Adds what these steps do, and says whether all can be read.
fn add_acts(acts: &mut Vec<Act>, steps: &[Value]) -> Result<bool, AllocError>
    ensures { IfOk result (λ good. when good acts.new.items
        ≡ each_onto (read_onto act_said) acts.old.items (map view steps.now)) }
{
    for step in steps {
        let Some(act) = act_said(step) else {
            return Ok(false);
        };
        acts.push(act)?;
    }
    Ok(true)
}

/// Adds an administrator, and says whether it can be read.
pub fn add_administrator(
    acts: &mut Vec<Act>,
    administrators: &mut Vec<Part>,
    administrator: &Value,
) -> Result<bool, AllocError>
    ensures { IfOk result (λ good. when good (acts.new.items, administrators.new.items)
        ≡ administrator_onto (acts.old.items, administrators.old.items)
        (view administrator.now)) }
{
    let Some(steps) = steps_of(administrator) else {
        return Ok(false);
    };
    let first = label_of(acts.len())?;
    if !add_acts(acts, steps)? {
        return Ok(false);
    }
    let end = label_of(acts.len())?;
    administrators.push(Part { first, end })?;
    Ok(true)
}
