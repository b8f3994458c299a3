//! A document that stands for a family in, what is made of the first of its documents that has it
//! out.

ghost use Rattle.std.specs.Prelude.{◌≡◌, None, IfErr, IfOk, codes, map, string_bytes};
ghost use Rattle.serde_json.specs.View.{view};
ghost use Rattle.dsa_scenario.specs.declared.faults.ScenarioFault.{ScenarioFault};
ghost use Rattle.dsa_family.specs.Axes.{AreFewWorlds, axes_said, world_of_family};
ghost use Rattle.dsa_family.specs.Family.{IsFirstOf, IsFirstOfAxes, IsFirstOfWorlds, IsMadeOfWorld};
ghost use Rattle.dsa_family.specs.Places.{without_key};
ghost use Rattle.dsa_family.specs.Told.{varied_as};

use crate::chosen::chosen_in;
use crate::worlds::{
    VARY, WorldShard, Worlds, fault_alone, read_worlds, render_world, world_numbers,
};
use dsa_scenario::{Render, Rendered, ScenarioFault, parse_json};
use serde_json::Value;
use std::alloc::Global;

/// A way to make a text of a document that may stand for a family: what the inner way makes of the
/// first world of the shard that it makes without a fault.
///
/// A document without `vary` is left to the inner way. Where there is no such world, the fault of
/// the first world is told, and `NoSuchRow` of a shard without worlds.
#[derive(Clone, Copy, Debug, Drop, PartialEq, Eq)]
pub struct FirstOfFamily<R> {
    pub inner: R,
    pub shard: WorldShard,
}

// What is made of the document of the world of this number.
fn render_numbered<R: Render>(alloc: Global, inner: &R, worlds: &Worlds<'_>, world: u64) -> Rendered
    requires { AreFewWorlds (map varied_as worlds.now.axes.items) }
    ensures ok { IfOk result
        (λ r. IsMadeOfWorld (R.is_rendering inner.now)
        (world_of_family (view worlds.now.base) (map varied_as worlds.now.axes.items) world)
        r.fault (string_bytes r.text)) }
    ensures err { IfErr result (λ e. e ≡ ScenarioFault.OutOfMemory) }
{
    let choices = chosen_in(alloc, worlds.axes.as_slice(), world)?;
    render_world(alloc, inner, &worlds.base, choices.as_slice())
}

// What is made of the first of the worlds of these numbers that has it.
fn render_first<R: Render>(
    alloc: Global,
    inner: &R,
    worlds: &Worlds<'_>,
    numbers: &[u64],
) -> Rendered
    requires { AreFewWorlds (map varied_as worlds.now.axes.items) }
    ensures ok { IfOk result
        (λ r. IsFirstOfWorlds (R.is_rendering inner.now) (view worlds.now.base)
        (map varied_as worlds.now.axes.items) None numbers.now r.fault (string_bytes r.text)) }
    ensures err { IfErr result (λ e. e ≡ ScenarioFault.OutOfMemory) }
{
    let mut found = None;
    for world in numbers {
        let own = render_numbered(alloc, inner, worlds, *world)?;
        match own.fault {
            None => return Ok(own),
            Some(fault) => found = found.or(Some(fault)),
        }
    }
    let fault = found.unwrap_or(ScenarioFault::NoSuchRow);
    Ok(fault_alone(alloc, fault))
}

// What is made of a document that has this at `vary`.
fn render_vary<R: Render>(
    alloc: Global,
    first: &FirstOfFamily<R>,
    document: &Value,
    vary: &Value,
) -> Rendered
    ensures ok { IfOk result
        (λ r. IsFirstOfAxes (R.is_rendering first.now.inner) first.now.shard
        (without_key (codes "vary") (view document.now))
        (axes_said (view vary.now) (without_key (codes "vary") (view document.now)))
        r.fault (string_bytes r.text)) }
    ensures err { IfErr result (λ e. e ≡ ScenarioFault.OutOfMemory) }
{
    let Some(worlds) = read_worlds(alloc, document, vary)? else {
        return Ok(fault_alone(alloc, ScenarioFault::BadDocument));
    };
    let numbers = world_numbers(alloc, first.shard, worlds.axes.as_slice())?;
    render_first(alloc, &first.inner, &worlds, numbers.as_slice())
}

impl<R: Render> Render for FirstOfFamily<R> {
    ghost is_rendering = { λ first bytes fault text.
        IsFirstOf (R.is_rendering first.inner) first.shard bytes fault text };

    fn render(&self, alloc: Global, bytes: &[u8]) -> Rendered {
        let document = parse_json(alloc, bytes)?;
        match document.get(VARY) {
            Some(vary) => render_vary(alloc, self, &document, vary),
            None => self.inner.render(alloc, bytes),
        }
    }
}
