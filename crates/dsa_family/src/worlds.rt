//! The worlds of a document.

ghost use Rattle.std.specs.Prelude.{◌≡◌, [], IfErr, IfOk, IfSome, Some, codes, map, option_map, string_bytes};
ghost use Rattle.serde_json.specs.View.{view};
ghost use Rattle.dsa_scenario.specs.declared.faults.ScenarioFault.{ScenarioFault};
ghost use Rattle.dsa_family.specs.Axes.{AreFewWorlds, axes_said, with_chosen};
ghost use Rattle.dsa_family.specs.Family.{IsMadeOfBytes, IsMadeOfWorld, is_in_world_shard, world_numbers};
ghost use Rattle.dsa_family.specs.Places.{without_key};
ghost use Rattle.dsa_family.specs.Told.{chosen_as, varied_as};

use crate::axes::{Axis, axes_said, worlds_of};
use crate::chosen::{Choice, with_chosen};
use crate::places::without_key;
use dsa_scenario::{Render, Rendered, Rendering, ScenarioFault};
use serde_json::Value;
use std::alloc::{AllocError, Global};

/// The key of what a document varies.
pub const VARY: &str = "vary";

/// The worlds whose numbers leave `number` when they are divided by `count`.
#[derive(Clone, Copy, Debug, PartialEq, Eq)]
pub struct WorldShard {
    pub number: u32,
    pub count: u32,
}

/// A document without the key `vary`, and what that says of it.
#[derive(Drop)]
pub struct Worlds<'v> {
    pub base: Value,
    pub axes: Vec<Axis<'v>>,
}

// Whether the world of this number is one of the shard.
fn is_in_shard(shard: WorldShard, world: u64) -> bool
    ensures { result ≡ is_in_world_shard shard world }
{
    if shard.count == 0 {
        return false;
    }
    world % u64::from(shard.count) == u64::from(shard.number)
}

/// The worlds of a document that has this at `vary`.
pub fn read_worlds<'v>(
    alloc: Global,
    document: &Value,
    vary: &'v Value,
) -> Result<Option<Worlds<'v>>, AllocError>
    ensures axes { IfOk result
        (λ read. option_map (λ worlds. map varied_as worlds.axes.items) read
        ≡ axes_said (view vary.now) (without_key (codes "vary") (view document.now))) }
    ensures base { IfOk result
        (λ read. IfSome read
        (λ worlds. view worlds.base ≡ without_key (codes "vary") (view document.now))) }
    ensures few { IfOk result
        (λ read. IfSome read (λ worlds. AreFewWorlds (map varied_as worlds.axes.items))) }
{
    let base = without_key(VARY, document)?;
    let Some(axes) = axes_said(alloc, vary, &base)? else {
        return Ok(None);
    };
    Ok(Some(Worlds { base, axes }))
}

/// The numbers of the worlds of the shard.
pub fn world_numbers(
    alloc: Global,
    shard: WorldShard,
    axes: &[Axis<'_>],
) -> Result<Vec<u64>, AllocError>
    requires { AreFewWorlds (map varied_as axes.now) }
    ensures { IfOk result
        (λ numbers. numbers.items ≡ world_numbers shard (map varied_as axes.now)) }
{
    let Some(count) = worlds_of(axes) else {
        unreachable!();
    };
    let mut numbers = Vec::new(alloc);
    for world in 0..count {
        if is_in_shard(shard, world) {
            numbers.push(world)?;
        }
    }
    Ok(numbers)
}

/// No text, and this fault.
pub fn fault_alone(alloc: Global, fault: ScenarioFault) -> Rendering
    ensures text { string_bytes result.text ≡ [] }
    ensures fault { result.fault ≡ Some fault }
{
    Rendering {
        text: String::new(alloc),
        fault: Some(fault),
        document: None,
    }
}

// What is made of the text of a world's document.
fn render_written<R: Render>(alloc: Global, inner: &R, bytes: &[u8]) -> Rendered
    ensures ok { IfOk result
        (λ r. IsMadeOfBytes (R.is_rendering inner.now) bytes.now r.fault
        (string_bytes r.text)) }
    ensures err { IfErr result (λ e. e ≡ ScenarioFault.OutOfMemory) }
{
    match inner.render(alloc, bytes) {
        Ok(rendering) => Ok(rendering),
        Err(ScenarioFault::OutOfMemory) => Err(ScenarioFault::OutOfMemory),
        Err(fault) => Ok(fault_alone(alloc, fault)),
    }
}

/// What is made of the document of a world that has these values.
pub fn render_world<R: Render>(
    alloc: Global,
    inner: &R,
    base: &Value,
    choices: &[Choice<'_>],
) -> Rendered
    ensures ok { IfOk result
        (λ r. IsMadeOfWorld (R.is_rendering inner.now)
        (with_chosen (map chosen_as choices.now) (view base.now)) r.fault
        (string_bytes r.text)) }
    ensures err { IfErr result (λ e. e ≡ ScenarioFault.OutOfMemory) }
{
    let Some(document) = with_chosen(alloc, choices, base)? else {
        return Ok(fault_alone(alloc, ScenarioFault::BadDocument));
    };
    let written = document.to_string(alloc)?;
    render_written(alloc, inner, written.as_bytes())
}
