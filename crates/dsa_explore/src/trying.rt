//! Devices that come to stored worlds.

ghost use Rattle.std.specs.Prelude.{◌≡◌, ℕ, ◌+◌, ◌^◌, ◌≤◌, ◌<◌, min, length, List, Some, IfOk, IfErr, IfSome, IfNone, OnOk};
ghost use Rattle.std.specs.Prelude.{◌==◌, nat_lt, slice_get, true, false, drop, reverse};
ghost use Rattle.dsa_keys.specs.Parties.{World, Stored, HaveEqualKeys};
ghost use Rattle.dsa_parties.specs.Standing.{Standing};
ghost use Rattle.dsa_parties.specs.declared.places.Move.{Move};
ghost use Rattle.dsa_explore.specs.Search.{Space, IsFine, queue_taken_from};
ghost use Rattle.dsa_explore.specs.Halting.{IsHalted};
ghost use Rattle.dsa_explore.specs.Ready.{is_filled, HasLabels, HasRoomLeft};
ghost use Rattle.dsa_explore.specs.Trying.{IsAt, IsAttempted, IsSearch, IsThere, AreTried};
ghost use Rattle.dsa_explore.specs.Walked.{space_of, world_of, IsFirst};
ghost use Rattle.dsa_explore.specs.Ways.{IsWay, TellWays};

use crate::awaited::labels_waited_for;
use crate::halting::Halt;
use crate::keys::{Key, write_world};
use crate::making::{make, walk_kept};
use crate::rows::Told;
use crate::stored::{Node, Search, Try, note};
use crate::walked::{Plan, Walked, ask_of, ends_since};
use dsa_book::{DispatchAnswer, Reply};
use std::alloc::{AllocError, Global};

/// For how many steps a device has room beside those that lead to a world.
const SPARE_STEPS: u64 = 16;

/// For how many steps a device has room at most.
const MOST_STEPS: u64 = 1_048_576;

// The node of this number.
fn node_at(nodes: &[Node], number: u32) -> Option<Node>
    ensures { result ≡ slice_get nodes.now number }
{
    nodes.get(number as usize).copied()
}

// Whether the node is that of the first world.
fn is_first(node: &Node) -> bool
    ensures { result ≡ (node.now.level == 0) }
{
    node.level == 0
}

// The tries, the last one first.
fn reversed(tries: Vec<Try>) -> Vec<Try>
    ensures { result.items ≡ reverse tries.items }
{
    let mut reversed = tries;
    reversed.reverse();
    reversed
}

/// The tries that lead to the world of this number. `None` where the nodes do not tell.
pub fn path_to(alloc: Global, nodes: &[Node], number: u32) -> Result<Option<Vec<Try>>, AllocError>
    ensures way { IfOk result
        (λ found. IfSome found (λ path. (space : Space Standing Move)
        → (first : World Standing)
        → (table : List (Stored Standing))
        → (x : Stored Standing)
        → TellWays space first nodes.now table
        → slice_get table number ≡ Some x
        → IsWay space first path.items x.world × (length path.items ≡ x.level))) }
    ensures none { IfOk result
        (λ found. IfNone found ((space : Space Standing Move)
        → (first : World Standing)
        → (table : List (Stored Standing))
        → (x : Stored Standing)
        → TellWays space first nodes.now table
        → slice_get table number ≡ Some x
        → ⊥)) }
{
    let mut path = Vec::new(alloc);
    let mut at = number;
    for _ in 0..nodes.len() {
        let Some(node) = node_at(nodes, at) else {
            return Ok(None);
        };
        if is_first(&node) {
            return Ok(Some(reversed(path)));
        }
        path.push(node.tried)?;
        at = node.parent;
    }
    Ok(None)
}

/// A history with room for the set-up, for these tries and for some more, as far as there may be.
pub fn room_for(plan: &Plan<'_>, path: &[Try]) -> u64
    ensures { result ≡ min (2 ^ 20) (length plan.now.setup.now + length path.now + 16) }
{
    let steps = (plan.setup.len() as u64).saturating_add(path.len() as u64);
    steps.saturating_add(SPARE_STEPS).min(MOST_STEPS)
}

/// Whether a history has room for one more step, after the set-up and as many as this level.
pub fn has_room(plan: &Plan<'_>, level: u32) -> bool
    ensures { result ≡ nat_lt (length plan.now.setup.now + level) (2 ^ 20) }
{
    (plan.setup.len() as u64).saturating_add(level as u64) < MOST_STEPS
}

// A new device on which these tries were made.
fn walk(
    alloc: Global,
    plan: &Plan<'_>,
    path: &[Try],
) -> Result<Result<Box<Walked>, Halt>, AllocError>
    ensures fine { IfOk result
        (λ found. IfOk found
        (λ walked. IsFine (space_of plan.now.caps plan.now.script.now) (world_of walked.value))) }
    ensures there { IfOk result
        (λ found. IfOk found
        (λ walked. (first x : World Standing)
        → IsFirst plan.now.caps plan.now.script.now plan.now.setup.now first
        → IsWay (space_of plan.now.caps plan.now.script.now) first path.now x
        → HaveEqualKeys (world_of walked.value) x)) }
    ensures labels { IfOk result (λ found. IfOk found (λ walked. HasLabels walked.value)) }
    ensures room { IfOk result
        (λ found. IfOk found
        (λ walked. HasRoomLeft (length plan.now.setup.now + length path.now)
        (min (2 ^ 20) (length plan.now.setup.now + length path.now + 16)) walked.value)) }
    ensures halted { IfOk result
        (λ found. IfErr found
        (λ halt. (first x : World Standing)
        → IsFirst plan.now.caps plan.now.script.now plan.now.setup.now first
        → IsWay (space_of plan.now.caps plan.now.script.now) first path.now x
        → (halt ≡ Halt.Steps) × (2 ^ 20 ≤ length plan.now.setup.now + length path.now))) }
{
    let Some(kept) = walk_kept(alloc, plan, path, room_for(plan, path))? else {
        return Ok(Err(Halt::Steps));
    };
    Ok(Ok(kept.walked))
}

/// A device on which the parties stand as in the stored world of this number.
pub fn go_to(
    alloc: Global,
    plan: &Plan<'_>,
    search: &Search,
    number: u32,
) -> Result<Result<Box<Walked>, Halt>, AllocError>
    ensures there { IfOk result
        (λ found. IfOk found (λ walked. (first : World Standing)
        → (table : List (Stored Standing))
        → (x : Stored Standing)
        → IsFirst plan.now.caps plan.now.script.now plan.now.setup.now first
        → IsSearch (space_of plan.now.caps plan.now.script.now) first search.now table
        → slice_get table number ≡ Some x
        → IsThere (space_of plan.now.caps plan.now.script.now) x (world_of walked.value))) }
    ensures labels { IfOk result (λ found. IfOk found (λ walked. HasLabels walked.value)) }
    ensures room { IfOk result
        (λ found. IfOk found (λ walked. (first : World Standing)
        → (table : List (Stored Standing))
        → (x : Stored Standing)
        → IsSearch (space_of plan.now.caps plan.now.script.now) first search.now table
        → slice_get table number ≡ Some x
        → HasRoomLeft (length plan.now.setup.now + x.level)
        (min (2 ^ 20) (length plan.now.setup.now + x.level + 16)) walked.value)) }
    ensures halted { IfOk result
        (λ found. IfErr found (λ halt. (first : World Standing)
        → (table : List (Stored Standing))
        → (x : Stored Standing)
        → IsFirst plan.now.caps plan.now.script.now plan.now.setup.now first
        → IsSearch (space_of plan.now.caps plan.now.script.now) first search.now table
        → slice_get table number ≡ Some x
        → (halt ≡ Halt.Steps) × (2 ^ 20 ≤ length plan.now.setup.now + x.level))) }
{
    let Some(path) = path_to(alloc, search.nodes.as_slice(), number)? else {
        return Ok(Err(Halt::Lost));
    };
    let found = walk(alloc, plan, path.as_slice())?;
    Ok(found)
}

/// The same try, which takes an entry from the queue that the reply tells, or from none.
pub fn as_taken(tried: Try, reply: Reply) -> Try
    ensures by { result.by ≡ tried.by }
    ensures queue { result.queue ≡ queue_taken_from reply }
{
    let queue = match reply {
        Reply::Dispatch(DispatchAnswer::Taken { queue, .. }) => Some(queue),
        _ => None,
    };
    Try { queue, ..tried }
}

/// The device, if the parties stand there as in the stored world of this number and its history has
/// room, and else another where they do. `None` where the way there is not found again.
pub fn come(
    alloc: Global,
    plan: &Plan<'_>,
    search: &Search,
    walked: Box<Walked>,
    is_there: bool,
    number: u32,
) -> Result<Result<Box<Walked>, Halt>, AllocError>
    ensures there { IfOk result
        (λ found. IfOk found (λ here. (first : World Standing)
        → (table : List (Stored Standing))
        → (x : Stored Standing)
        → IsFirst plan.now.caps plan.now.script.now plan.now.setup.now first
        → IsSearch (space_of plan.now.caps plan.now.script.now) first search.now table
        → slice_get table number ≡ Some x
        → (is_there ≡ true
        → IsThere (space_of plan.now.caps plan.now.script.now) x (world_of walked.value))
        → IsThere (space_of plan.now.caps plan.now.script.now) x (world_of here.value))) }
    ensures labels { IfOk result
        (λ found. IfOk found (λ here. (is_there ≡ true → HasLabels walked.value)
        → HasLabels here.value)) }
    ensures room { IfOk result
        (λ found. IfOk found (λ here. is_filled here.value.machine.device ≡ false)) }
    ensures halted { IfOk result
        (λ found. IfErr found (λ halt. (first : World Standing)
        → (table : List (Stored Standing))
        → (x : Stored Standing)
        → IsFirst plan.now.caps plan.now.script.now plan.now.setup.now first
        → IsSearch (space_of plan.now.caps plan.now.script.now) first search.now table
        → slice_get table number ≡ Some x
        → (halt ≡ Halt.Steps) × (2 ^ 20 ≤ length plan.now.setup.now + x.level))) }
{
    if is_there {
        if !walked.machine.device.is_full() {
            return Ok(Ok(walked));
        }
    }
    let again = match go_to(alloc, plan, search, number)? {
        Ok(again) => again,
        Err(halt) => return Ok(Err(halt)),
    };
    if again.machine.device.is_full() {
        return Ok(Err(Halt::Steps));
    }
    Ok(Ok(again))
}
