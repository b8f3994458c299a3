//! The whole search.

ghost use Rattle.std.specs.Prelude.{◌≡◌, ◌⊎◌, ◌≤◌, ◌<◌, [], ◌∷◌, List, length, true, false};
ghost use Rattle.std.specs.Prelude.{IfOk, IfSome, IfNone, OnOk};
ghost use Rattle.dsa_seen.specs.Table.{HasOneNumberEach};
ghost use Rattle.dsa_explore.specs.Bounds.{IsBounded};
ghost use Rattle.dsa_explore.specs.Counted.{FoundNothing};
ghost use Rattle.dsa_explore.specs.Stored.{last_level, node_levels};
ghost use Rattle.dsa_explore.specs.Keys.{world_bytes};
ghost use Rattle.dsa_keys.specs.Parties.{World, Stored};
ghost use Rattle.dsa_parties.specs.Standing.{Standing};
ghost use Rattle.dsa_explore.specs.Ends.{AreEndingsOf};
ghost use Rattle.dsa_explore.specs.Kept.{KeepsWays};
ghost use Rattle.dsa_explore.specs.Trying.{HasRoomBehind, IsSearch};
ghost use Rattle.dsa_explore.specs.Walked.{CannotBegin, IsExplored, IsFirst, NeedsDepth, space_of, world_of};

use crate::crews::{Alone, Crew};
use crate::ends::endings_of;
use crate::expanding::expand_all;
use crate::found::{Ending, Explored};
use crate::keys::{Key, write_world};
use crate::making::begin;
use crate::stored::{Node, Search, Try};
use crate::walked::{Plan, Walked};
use dsa_parties::Move;
use dsa_seen::{Inserted, Seen};
use std::alloc::{AllocError, Global};

/// How large a search may become: how many states it may store, and how many bytes the key of a
/// state may have.
#[derive(Clone, Copy, Debug, PartialEq, Eq)]
pub struct Bounds {
    pub states: u32,
    pub key_bytes: u32,
}

/// What a search found, and how each state was first reached.
#[derive(Drop)]
pub struct Searched {
    pub explored: Explored,
    pub(crate) nodes: Vec<Node>,
}

// A search that stored nothing, with the memory for its states.
fn new_search(alloc: Global, bounds: Bounds) -> Result<Search, AllocError>
    ensures keys { IfOk result (λ search. search.seen.strings ≡ []) }
    ensures nodes { IfOk result (λ search. search.nodes.items ≡ []) }
    ensures rows { IfOk result (λ search. search.rows.items ≡ []) }
    ensures most { IfOk result (λ search. search.seen.most ≡ bounds.states) }
    ensures width { IfOk result (λ search. search.seen.width ≡ bounds.key_bytes) }
    ensures front { IfOk result (λ search. search.front ≡ 0) }
    ensures tried { IfOk result (λ search. search.tried ≡ 0) }
{
    let seen = Seen::new(alloc, bounds.states, bounds.key_bytes)?;
    let nodes = Vec::with_capacity(alloc, bounds.states as usize)?;
    let rows = Vec::new(alloc);
    Ok(Search {
        seen,
        nodes,
        rows,
        front: 0,
        tried: 0,
    })
}

// Stores the world as the first, by its key. False where it does not fit.
fn store_first(search: &mut Search, walked: &Walked, key: &mut Key) -> Result<bool, AllocError>
    requires keys { search.old.seen.strings ≡ [] }
    requires nodes { search.old.nodes.items ≡ [] }
    ensures keys { IfOk result
        (λ fits. fits ≡ true
        → search.new.seen.strings ≡ world_bytes (world_of walked.now) ∷ []) }
    ensures levels { IfOk result (λ fits. fits ≡ true → node_levels search.new ≡ 0 ∷ []) }
    ensures rows { OnOk result (search.new.rows ≡ search.old.rows) }
    ensures front { OnOk result (search.new.front ≡ search.old.front) }
    ensures most { OnOk result (search.new.seen.most ≡ search.old.seen.most) }
    ensures width { OnOk result (search.new.seen.width ≡ search.old.seen.width) }
    ensures room { OnOk result (key.new.line.capacity ≡ key.old.line.capacity) }
    ensures met { IfOk result
        (λ fits. fits ≡ false
        → key.old.line.capacity ≡ search.old.seen.width
        → (search.old.seen.most ≡ 0)
        ⊎ (search.old.seen.width < length (world_bytes (world_of walked.now)))) }
    ensures unstored { IfOk result (λ fits. fits ≡ false → search.new ≡ search.old) }
{
    if !write_world(walked, key)? {
        return Ok(false);
    }
    let Inserted::New(_) = search.seen.insert(key.bytes.as_slice()) else {
        return Ok(false);
    };
    let tried = Try {
        by: Move::Client(0),
        queue: None,
    };
    search.nodes.push(Node {
        parent: 0,
        tried,
        level: 0,
    })?;
    Ok(true)
}

// What the search found.
fn ended(search: Search, is_complete: bool, ends: Option<Vec<Ending>>) -> Searched
    ensures rows { result.explored.rows ≡ search.rows }
    ensures states { result.explored.states ≡ length search.seen.strings }
    ensures once { HasOneNumberEach search.seen.strings }
    ensures most { result.explored.states ≤ search.seen.most }
    ensures tried { result.explored.tried ≡ search.tried }
    ensures depth { result.explored.depth ≡ last_level (node_levels search) }
    ensures is_complete { result.explored.is_complete ≡ is_complete }
    ensures ends { result.explored.ends ≡ ends }
    ensures nodes { result.nodes ≡ search.nodes }
{
    let depth = match search.nodes.as_slice().last() {
        Some(node) => node.level,
        None => 0,
    };
    let explored = Explored {
        rows: search.rows,
        states: search.seen.len(),
        tried: search.tried,
        depth,
        is_complete,
        ends,
    };
    Searched {
        explored,
        nodes: search.nodes,
    }
}

// How runs can end, if the search is complete.
fn ends_of(
    alloc: Global,
    plan: &Plan<'_>,
    search: &Search,
    is_complete: bool,
    key: &mut Key,
) -> Result<Option<Vec<Ending>>, AllocError>
    ensures complete { IfOk result (λ ends. IfSome ends (λ endings. is_complete ≡ true)) }
    ensures none { IfOk result
        (λ ends. IfNone ends (is_complete ≡ true → (first : World Standing)
        → (table : List (Stored Standing))
        → IsFirst plan.now.caps plan.now.script.now plan.now.setup.now first
        → IsSearch (space_of plan.now.caps plan.now.script.now) first search.now table
        → HasRoomBehind (length plan.now.setup.now) table
        → ⊥)) }
    ensures ends { IfOk result
        (λ ends. IfSome ends (λ endings. (first : World Standing)
        → (table : List (Stored Standing))
        → IsFirst plan.now.caps plan.now.script.now plan.now.setup.now first
        → IsSearch (space_of plan.now.caps plan.now.script.now) first search.now table
        → key.old.line.capacity ≡ search.now.seen.width
        → AreEndingsOf plan.now.script.now table endings.items)) }
{
    if !is_complete {
        return Ok(None);
    }
    endings_of(alloc, plan, search, key)
}

/// Searches every order of the parties' steps after the set-up, breadth first.
///
/// Each row may come with as many steps as it says. If the search is complete, all that may come is
/// a row, each row has the fewest steps, and the states are all that can be reached, each counted
/// once; some state needs as many steps as the depth; and it says each way in which a run can end.
///
/// If it is not, a bound was met. As many states are stored as may be, and one more can be reached;
/// or a state can be reached whose key has more bytes than it may have; or the set-up and as many
/// steps as the depth fill a history. If there is no room for the first state, the search finds
/// nothing.
///
/// The crew makes the tries. What is found does not depend on it.
///
/// [`show`](crate::show) finds the steps of each row again.
///
/// `None` if no device can be made with these capabilities, or the set-up lets an entry come in.
pub fn search_by<C: Crew>(
    alloc: Global,
    plan: &Plan<'_>,
    bounds: Bounds,
    crew: &C,
) -> Result<Option<Searched>, AllocError>
    ensures explored { IfOk result
        (λ found. IfSome found (λ searched. IsExplored plan.now.caps plan.now.script.now
        plan.now.setup.now searched.explored)) }
    ensures states { IfOk result
        (λ found. IfSome found (λ searched. searched.explored.states ≤ bounds.states)) }
    ensures bounded { IfOk result
        (λ found. IfSome found (λ searched. searched.explored.is_complete ≡ false
        → IsBounded bounds plan.now.caps plan.now.script.now plan.now.setup.now
        searched.explored)) }
    ensures depth { IfOk result
        (λ found. IfSome found (λ searched. searched.explored.is_complete ≡ true
        → NeedsDepth plan.now.caps plan.now.script.now plan.now.setup.now searched.explored)) }
    ensures nothing { IfOk result
        (λ found. IfSome found
        (λ searched. searched.explored.states ≡ 0 → FoundNothing searched.explored)) }
    ensures ways { IfOk result
        (λ found. IfSome found (λ searched. KeepsWays plan.now.caps plan.now.script.now
        plan.now.setup.now searched)) }
    ensures none { IfOk result
        (λ found. IfNone found (CannotBegin plan.now.caps plan.now.setup.now)) }
{
    let mut search = new_search(alloc, bounds)?;
    let mut key = Key::new(alloc, bounds.key_bytes)?;
    let Some(walked) = begin(alloc, plan, plan.setup.len() as u64)? else {
        return Ok(None);
    };
    if !store_first(&mut search, &walked, &mut key)? {
        return Ok(Some(ended(search, false, None)));
    }
    let halted = expand_all(alloc, plan, &mut search, bounds, crew)?;
    let is_complete = halted.is_none();
    let ends = ends_of(alloc, plan, &search, is_complete, &mut key)?;
    Ok(Some(ended(search, is_complete, ends)))
}

/// The same search, by this thread alone.
pub fn search_all(
    alloc: Global,
    plan: &Plan<'_>,
    bounds: Bounds,
) -> Result<Option<Searched>, AllocError>
    ensures explored { IfOk result
        (λ found. IfSome found (λ searched. IsExplored plan.now.caps plan.now.script.now
        plan.now.setup.now searched.explored)) }
    ensures states { IfOk result
        (λ found. IfSome found (λ searched. searched.explored.states ≤ bounds.states)) }
    ensures bounded { IfOk result
        (λ found. IfSome found (λ searched. searched.explored.is_complete ≡ false
        → IsBounded bounds plan.now.caps plan.now.script.now plan.now.setup.now
        searched.explored)) }
    ensures depth { IfOk result
        (λ found. IfSome found (λ searched. searched.explored.is_complete ≡ true
        → NeedsDepth plan.now.caps plan.now.script.now plan.now.setup.now searched.explored)) }
    ensures nothing { IfOk result
        (λ found. IfSome found
        (λ searched. searched.explored.states ≡ 0 → FoundNothing searched.explored)) }
    ensures ways { IfOk result
        (λ found. IfSome found (λ searched. KeepsWays plan.now.caps plan.now.script.now
        plan.now.setup.now searched)) }
    ensures none { IfOk result
        (λ found. IfNone found (CannotBegin plan.now.caps plan.now.setup.now)) }
{
    search_by(alloc, plan, bounds, &Alone)
}

/// The same search, without the ways to its states.
pub fn explore(
    alloc: Global,
    plan: &Plan<'_>,
    bounds: Bounds,
) -> Result<Option<Explored>, AllocError>
    ensures explored { IfOk result
        (λ found. IfSome found
        (λ explored. IsExplored plan.now.caps plan.now.script.now plan.now.setup.now explored)) }
    ensures states { IfOk result
        (λ found. IfSome found (λ explored. explored.states ≤ bounds.states)) }
    ensures bounded { IfOk result
        (λ found. IfSome found (λ explored. explored.is_complete ≡ false
        → IsBounded bounds plan.now.caps plan.now.script.now plan.now.setup.now explored)) }
    ensures depth { IfOk result
        (λ found. IfSome found (λ explored. explored.is_complete ≡ true
        → NeedsDepth plan.now.caps plan.now.script.now plan.now.setup.now explored)) }
    ensures nothing { IfOk result
        (λ found. IfSome found (λ explored. explored.states ≡ 0 → FoundNothing explored)) }
    ensures none { IfOk result
        (λ found. IfNone found (CannotBegin plan.now.caps plan.now.setup.now)) }
{
    let Some(searched) = search_all(alloc, plan, bounds)? else {
        return Ok(None);
    };
    Ok(Some(searched.explored))
}
