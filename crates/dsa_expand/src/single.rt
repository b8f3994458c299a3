//! One step outside a document.

ghost use Rattle.std.specs.Prelude.{◌≡◌, ◌≤◌, IfOk, Some, map, option_map};
ghost use Rattle.serde_json.specs.{Data.{depth}, View.{view}};
ghost use Rattle.dsa_scenario.specs.Actions.{rows_of_kind};
ghost use Rattle.dsa_expand.specs.Members.{given_as, known_as};
ghost use Rattle.dsa_expand.specs.Single.{sense_as, sense_of, stuck_at};

use crate::steps::{GivenName, Known, object_with, strict_at, strict_members};
use dsa_scenario::{StepKind, kind_of};
use serde_json::Value;
use std::alloc::{AllocError, Global};

/// What a value means that is to be a step.
#[derive(Drop)]
pub enum Meaning {
    /// Itself: it is of no kind of step.
    Itself,
    /// This value, in which each key of the kind is strict.
    Strict(Value),
    /// Nothing: what it has at this key means nothing, or it has nothing there.
    Nothing(&'static str),
}

// The first key of the kind at which the step has nothing that is strict or means something strict.
fn stuck_at(
    alloc: Global,
    known: Known<'_>,
    kind: StepKind,
    step: &Value,
) -> Result<Option<&'static str>, AllocError>
    ensures { IfOk result
        (λ key. option_map (λ k. k.now) key
        ≡ stuck_at (known_as (option_map (λ g. g.now) known.entry)) (view step.now)
        (rows_of_kind kind)) }
{
    for field in kind.fields() {
        if strict_at(alloc, step, known, field.name)?.is_none() {
            return Ok(Some(field.name));
        }
    }
    Ok(None)
}

/// What a value means that is to be a step, where these names were given.
pub fn meaning_of(alloc: Global, given: &[GivenName], step: &Value) -> Result<Meaning, AllocError>
    requires { depth (view step.now) ≤ 127 }
    ensures { IfOk result
        (λ meaning. sense_as meaning ≡ sense_of (Some (map given_as given.now)) (view step.now)) }
{
    let Some(kind) = kind_of(step) else {
        return Ok(Meaning::Itself);
    };
    if let Some(members) = strict_members(alloc, Some(given), kind, step)? {
        return Ok(Meaning::Strict(object_with(alloc, members.as_slice())?));
    }
    match stuck_at(alloc, Some(given), kind, step)? {
        Some(key) => Ok(Meaning::Nothing(key)),
        None => unreachable!(),
    }
}
