//! What a document varies.

ghost use Rattle.std.specs.Prelude.{◌≡◌, ◌<◌, None, Some, IfOk, IfSome, cond, length, map, nat_le, option_map};
ghost use Rattle.std.specs.List.{list_all};
ghost use Rattle.serde_json.specs.View.{view};
ghost use Rattle.dsa_family.specs.Axes.{AreFewWorlds, HaveValues, all_said, axes_said, has_place};
ghost use Rattle.dsa_family.specs.Axes.{varied_said, worlds_of};
ghost use Rattle.dsa_family.specs.Told.{varied_as};

use crate::places::{keys_of_path, set_at_place};
use serde_json::Value;
use std::alloc::{AllocError, Global};

/// The most worlds of a family.
const MAX_WORLDS: u64 = 65_536;

/// A place, and the values that it takes.
#[derive(Clone, Copy)]
pub struct Axis<'v> {
    pub at: &'v str,
    pub values: &'v [Value],
}

// What an object of `vary` says.
fn axis_said(item: &Value) -> Option<Axis<'_>>
    ensures said { option_map varied_as result ≡ varied_said (view item.now) }
    ensures some { IfSome result (λ axis. 0 < length axis.values.now) }
{
    let at = item.get("at")?.as_str()?;
    let values = item.get("values")?.as_array()?.as_slice();
    if values.is_empty() {
        return None;
    }
    Some(Axis { at, values })
}

// What all objects of `vary` say.
fn all_said(alloc: Global, items: &[Value]) -> Result<Option<Vec<Axis<'_>>>, AllocError>
    ensures said { IfOk result
        (λ said. option_map (λ axes. map varied_as axes.items) said
        ≡ all_said (map view items.now)) }
    ensures some { IfOk result
        (λ said. IfSome said (λ axes. HaveValues (map varied_as axes.items))) }
{
    let mut axes = Vec::new(alloc);
    for item in items {
        let Some(axis) = axis_said(item) else {
            return Ok(None);
        };
        axes.push(axis)?;
    }
    Ok(Some(axes))
}

/// How many worlds there are, if they are not too many.
#[tactic(auto, using(crate::proofs::Counts::values_later))]
pub fn worlds_of(axes: &[Axis<'_>]) -> Option<u64>
    requires { HaveValues (map varied_as axes.now) }
    ensures { result
        ≡ cond (nat_le (worlds_of (map varied_as axes.now)) 65536)
        (Some (worlds_of (map varied_as axes.now))) None }
{
    let Some((axis, rest)) = axes.split_first() else {
        return Some(1);
    };
    let count = (axis.values.len() as u64).checked_mul(worlds_of(rest)?)?;
    if count <= MAX_WORLDS {
        Some(count)
    } else {
        None
    }
}

// Whether the document has the place.
fn has_place(alloc: Global, base: &Value, axis: &Axis<'_>) -> Result<bool, AllocError>
    ensures { IfOk result (λ has. has ≡ has_place (view base.now) (varied_as axis.now)) }
{
    let keys = keys_of_path(alloc, axis.at)?;
    let made = set_at_place(alloc, keys.as_slice(), &Value::Null, base)?;
    Ok(made.is_some())
}

// Whether the document has all places.
fn has_places(alloc: Global, base: &Value, axes: &[Axis<'_>]) -> Result<bool, AllocError>
    ensures { IfOk result
        (λ has. has ≡ list_all (has_place (view base.now)) (map varied_as axes.now)) }
{
    for axis in axes {
        if !has_place(alloc, base, axis)? {
            return Ok(false);
        }
    }
    Ok(true)
}

/// What `vary` says of the document without it.
pub fn axes_said<'v>(
    alloc: Global,
    vary: &'v Value,
    base: &Value,
) -> Result<Option<Vec<Axis<'v>>>, AllocError>
    ensures said { IfOk result
        (λ said. option_map (λ axes. map varied_as axes.items) said
        ≡ axes_said (view vary.now) (view base.now)) }
    ensures few { IfOk result
        (λ said. IfSome said (λ axes. AreFewWorlds (map varied_as axes.items))) }
{
    let Some(items) = vary.as_array() else {
        return Ok(None);
    };
    let Some(axes) = all_said(alloc, items.as_slice())? else {
        return Ok(None);
    };
    if has_places(alloc, base, axes.as_slice())? && worlds_of(axes.as_slice()).is_some() {
        Ok(Some(axes))
    } else {
        Ok(None)
    }
}
