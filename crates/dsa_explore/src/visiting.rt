//! Stored worlds that devices come to again.

ghost use Rattle.std.specs.Prelude.{◌≡◌, Some, slice_get, IfOk, IfSome, IfNone};
ghost use Rattle.dsa_keys.specs.Parties.{Stored};
ghost use Rattle.dsa_parties.specs.Standing.{Standing};
ghost use Rattle.dsa_explore.specs.Kept.{KeepsWays, IsVisitOf};

use crate::making::walk_kept;
use crate::search::Searched;
use crate::showing::{level_of, room_to_lead};
use crate::trying::path_to;
use crate::walked::{Plan, Walked};
use dsa_book::Step;
use std::alloc::{AllocError, Global};

/// A device on which the parties stand as in a world that a search stored, how many moves lead
/// there, and the steps of the set-up and of these moves.
#[derive(Drop)]
pub struct Visited {
    pub walked: Box<Walked>,
    pub level: u32,
    pub steps: Vec<Step>,
}

/// Leads a new device to the world that the search stored under this number. They are numbered from
/// 0, in the order of how many moves lead there. `None` only where there is none.
pub fn visit(
    alloc: Global,
    plan: &Plan<'_>,
    searched: &Searched,
    number: u32,
) -> Result<Option<Visited>, AllocError>
    ensures visited { IfOk result
        (λ found. IfSome found
        (λ visited. (keeps : KeepsWays plan.now.caps plan.now.script.now plan.now.setup.now
        searched.now) → IsVisitOf keeps number visited)) }
    ensures none { IfOk result
        (λ found. IfNone found ((keeps : KeepsWays plan.now.caps plan.now.script.now
        plan.now.setup.now searched.now)
        → (x : Stored Standing)
        → slice_get keeps.table number ≡ Some x
        → ⊥)) }
{
    let nodes = searched.nodes.as_slice();
    let Some(level) = level_of(nodes, number) else {
        return Ok(None);
    };
    let Some(path) = path_to(alloc, nodes, number)? else {
        return Ok(None);
    };
    let path = path.as_slice();
    let Some(kept) = walk_kept(alloc, plan, path, room_to_lead(plan, path))? else {
        return Ok(None);
    };
    Ok(Some(Visited {
        walked: kept.walked,
        level,
        steps: kept.steps,
    }))
}
