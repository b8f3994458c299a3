//! A document that stands for a family in, what is made of each of its documents out.

ghost use Rattle.std.specs.Prelude.{◌≡◌, ◌++◌, ℕ, List, Option, IfErr, IfOk, OnOk, codes, map, string_bytes};
ghost use Rattle.std.specs.Option.{option_or};
ghost use Rattle.serde_json.specs.View.{view};
ghost use Rattle.dsa_scenario.specs.declared.faults.ScenarioFault.{ScenarioFault};
ghost use Rattle.dsa_family.specs.Axes.{AreFewWorlds, axes_said};
ghost use Rattle.dsa_family.specs.Family.{AreMadeOfWorlds, IsFamilyOf, IsMadeOfAxes, IsWorldMade};
ghost use Rattle.dsa_family.specs.Places.{without_key};
ghost use Rattle.dsa_family.specs.Told.{varied_as};

use crate::chosen::chosen_in;
use crate::headings::{Heading, add_heading};
use crate::worlds::{
    VARY, WorldShard, Worlds, fault_alone, read_worlds, render_world, world_numbers,
};
use dsa_scenario::{Render, Rendered, Rendering, ScenarioFault, parse_json};
use serde_json::Value;
use std::alloc::Global;

/// A way to make a text of a document that may stand for a family: of each world of the shard its
/// first line, and then what the inner way makes of its document.
///
/// A document without `vary` is left to the inner way, whatever the shard is. `BadDocument` is told
/// of a `vary` that cannot be read, and of a world where an earlier value took away the place of a
/// later one. The fault that is told after the text is the first one that a world has.
#[derive(Clone, Copy, Debug, Drop, PartialEq, Eq)]
pub struct Family<R> {
    pub inner: R,
    pub heading: Heading,
    pub shard: WorldShard,
}

// Adds the world of this number.
fn add_world<R: Render>(
    alloc: Global,
    family: &Family<R>,
    worlds: &Worlds<'_>,
    world: u64,
    made: &mut Rendering,
) -> Result<(), ScenarioFault>
    requires { AreFewWorlds (map varied_as worlds.now.axes.items) }
    ensures ok { OnOk result
        ((own : List ℕ) × (here : Option ScenarioFault)
        × IsWorldMade (R.is_rendering family.now.inner) family.now.heading
        (view worlds.now.base) (map varied_as worlds.now.axes.items) world here own
        × (made.new.fault ≡ option_or made.old.fault here)
        × (string_bytes made.new.text ≡ string_bytes made.old.text ++ own)) }
    ensures err { IfErr result (λ e. e ≡ ScenarioFault.OutOfMemory) }
{
    let choices = chosen_in(alloc, worlds.axes.as_slice(), world)?;
    add_heading(
        alloc,
        &mut made.text,
        family.heading,
        world,
        choices.as_slice(),
    )?;
    let own = render_world(alloc, &family.inner, &worlds.base, choices.as_slice())?;
    made.text.push_str(own.text.as_str())?;
    made.fault = made.fault.or(own.fault);
    Ok(())
}

// What is made of the worlds of these numbers.
fn render_worlds<R: Render>(
    alloc: Global,
    family: &Family<R>,
    worlds: &Worlds<'_>,
    numbers: &[u64],
) -> Rendered
    requires { AreFewWorlds (map varied_as worlds.now.axes.items) }
    ensures ok { IfOk result
        (λ r. AreMadeOfWorlds (R.is_rendering family.now.inner) family.now.heading
        (view worlds.now.base) (map varied_as worlds.now.axes.items) numbers.now r.fault
        (string_bytes r.text)) }
    ensures err { IfErr result (λ e. e ≡ ScenarioFault.OutOfMemory) }
{
    let mut made = Rendering {
        text: String::new(alloc),
        fault: None,
        document: None,
    };
    for world in numbers {
        add_world(alloc, family, worlds, *world, &mut made)?;
    }
    Ok(made)
}

// What is made of a document that has this at `vary`.
fn render_vary<R: Render>(
    alloc: Global,
    family: &Family<R>,
    document: &Value,
    vary: &Value,
) -> Rendered
    ensures ok { IfOk result
        (λ r. IsMadeOfAxes (R.is_rendering family.now.inner) family.now.heading family.now.shard
        (without_key (codes "vary") (view document.now))
        (axes_said (view vary.now) (without_key (codes "vary") (view document.now)))
        r.fault (string_bytes r.text)) }
    ensures err { IfErr result (λ e. e ≡ ScenarioFault.OutOfMemory) }
{
    let Some(worlds) = read_worlds(alloc, document, vary)? else {
        return Ok(fault_alone(alloc, ScenarioFault::BadDocument));
    };
    let numbers = world_numbers(alloc, family.shard, worlds.axes.as_slice())?;
    render_worlds(alloc, family, &worlds, numbers.as_slice())
}

impl<R: Render> Render for Family<R> {
    ghost is_rendering = { λ family bytes fault text.
        IsFamilyOf (R.is_rendering family.inner) family.heading family.shard bytes fault text };

    fn render(&self, alloc: Global, bytes: &[u8]) -> Rendered {
        let document = parse_json(alloc, bytes)?;
        match document.get(VARY) {
            Some(vary) => render_vary(alloc, self, &document, vary),
            None => self.inner.render(alloc, bytes),
        }
    }
}
