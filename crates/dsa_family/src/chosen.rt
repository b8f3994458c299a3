//! What one world has.

ghost use Rattle.std.specs.Prelude.{◌≡◌, ◌++◌, IfOk, OnOk, map, option_map};
ghost use Rattle.serde_json.specs.View.{view};
ghost use Rattle.dsa_family.specs.Axes.{AreFewWorlds, chosen_in, with_chosen};
ghost use Rattle.dsa_family.specs.Places.{keys_of_path, set_at_place};
ghost use Rattle.dsa_family.specs.Told.{chosen_as, varied_as};

use crate::axes::{Axis, worlds_of};
use crate::places::{keys_of_path, set_at_place};
use serde_json::Value;
use std::alloc::{AllocError, Global};

/// A place, and the value that it has in one world.
#[derive(Clone, Copy)]
pub struct Choice<'v> {
    pub at: &'v str,
    pub value: &'v Value,
}

// Adds what the world of this number has at these places.
#[tactic(auto, using(crate::proofs::Counts::few_later, crate::proofs::Counts::some_weight))]
fn add_chosen<'v>(
    axes: &[Axis<'v>],
    world: u64,
    choices: &mut Vec<Choice<'v>>,
) -> Result<(), AllocError>
    requires { AreFewWorlds (map varied_as axes.now) }
    ensures { OnOk result
        (map chosen_as choices.new.items
        ≡ map chosen_as choices.old.items ++ chosen_in (map varied_as axes.now) world) }
{
    let Some((axis, rest)) = axes.split_first() else {
        return Ok(());
    };
    let Some(weight) = worlds_of(rest) else {
        unreachable!();
    };
    let place = world / weight % axis.values.len() as u64;
    choices.push(Choice {
        at: axis.at,
        value: &axis.values[place as usize],
    })?;
    add_chosen(rest, world, choices)
}

/// What the world of this number has at these places.
pub fn chosen_in<'v>(
    alloc: Global,
    axes: &[Axis<'v>],
    world: u64,
) -> Result<Vec<Choice<'v>>, AllocError>
    requires { AreFewWorlds (map varied_as axes.now) }
    ensures { IfOk result
        (λ choices. map chosen_as choices.items ≡ chosen_in (map varied_as axes.now) world) }
{
    let mut choices = Vec::new(alloc);
    add_chosen(axes, world, &mut choices)?;
    Ok(choices)
}

// The document with this value.
fn with_choice(
    alloc: Global,
    choice: &Choice<'_>,
    document: &Value,
) -> Result<Option<Value>, AllocError>
    ensures { IfOk result
        (λ made. option_map view made
        ≡ set_at_place (keys_of_path (chosen_as choice.now).0) (chosen_as choice.now).1
        (view document.now)) }
{
    let keys = keys_of_path(alloc, choice.at)?;
    set_at_place(alloc, keys.as_slice(), choice.value, document)
}

/// The document with these values.
pub fn with_chosen(
    alloc: Global,
    choices: &[Choice<'_>],
    base: &Value,
) -> Result<Option<Value>, AllocError>
    ensures { IfOk result
        (λ made. option_map view made
        ≡ with_chosen (map chosen_as choices.now) (view base.now)) }
{
    let mut document = base.clone()?;
    for choice in choices {
        let Some(changed) = with_choice(alloc, choice, &document)? else {
            return Ok(None);
        };
        document = changed;
    }
    Ok(Some(document))
}
