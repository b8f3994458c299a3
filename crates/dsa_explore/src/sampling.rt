//! Random walks, and what they find.

ghost use Rattle.std.specs.Prelude.{◌≡◌, ℕ, ◌+◌, ◌*◌, ◌^◌, ◌<◌, ◌≤◌, None, IfOk, IfSome, IfNone, OnOk, false, length};
ghost use Rattle.dsa_keys.specs.Parties.{World};
ghost use Rattle.dsa_parties.specs.Standing.{Standing};
ghost use Rattle.dsa_explore.specs.Sampling.{is_in_shard, IsSampled};
ghost use Rattle.dsa_explore.specs.Search.{IsFine};
ghost use Rattle.dsa_explore.specs.Walked.{CannotBegin, IsFirst, space_of};
ghost use Rattle.dsa_explore.specs.Walking.{IsTallyOf};

use crate::choices::choices_of;
use crate::found::{Explored, Found};
use crate::making::begin;
use crate::merging::merge_rows;
use crate::walked::Plan;
use crate::walking::{Keys, walk_at_random};
use std::alloc::{AllocError, Global};

/// Which random walks are made: of so many, those whose numbers leave `shard` when they are divided
/// by `shards`. The first number is 0. The choices of a walk depend on the seed and on its number
/// alone.
#[derive(Clone, Copy, Debug, PartialEq, Eq)]
pub struct Walks {
    pub count: u32,
    pub seed: u64,
    pub shard: u32,
    pub shards: u32,
}

/// What random walks found, and how many were made. They store no state. The steps that were tried
/// are those that led on, and the depth is the most of one walk.
#[derive(Debug, Drop)]
pub struct Sampled {
    pub walks: u32,
    pub explored: Explored,
}

/// What was found so far: by how many walks, with how many steps in all and at most.
#[derive(Drop)]
pub struct Tally {
    pub rows: Vec<Found>,
    pub walks: u32,
    pub steps: u64,
    pub depth: u32,
}

// Whether the walk of this number is made.
fn is_in_shard(walks: &Walks, number: u32) -> bool
    ensures { result ≡ is_in_shard walks.now number }
{
    if walks.shards == 0 {
        return false;
    }
    number % walks.shards == walks.shard
}

// Makes the walk of this number, and adds what it found.
fn add_walk(
    alloc: Global,
    plan: &Plan<'_>,
    tally: &mut Tally,
    seed: u64,
    number: u32,
    keys: &mut Keys,
) -> Result<(), AllocError>
    requires number { number + 1 < 2 ^ 32 }
    requires walks { tally.old.walks ≤ number }
    requires steps { tally.old.steps ≤ number * 1_048_576 }
    requires before { keys.old.before.line.capacity ≡ 2 ^ 20 }
    requires after { keys.old.after.line.capacity ≡ 2 ^ 20 }
    ensures sampled { OnOk result ((first : World Standing)
        → IsFirst plan.now.caps plan.now.script.now plan.now.setup.now first
        → IsFine (space_of plan.now.caps plan.now.script.now) first
        → IsTallyOf (space_of plan.now.caps plan.now.script.now) first
        (length plan.now.setup.now) tally.old
        → IsTallyOf (space_of plan.now.caps plan.now.script.now) first
        (length plan.now.setup.now) tally.new) }
    ensures walks { OnOk result (tally.new.walks ≡ tally.old.walks + 1) }
    ensures steps { OnOk result (tally.new.steps ≤ tally.old.steps + 1_048_576) }
    ensures before { OnOk result (keys.new.before.line.capacity ≡ 2 ^ 20) }
    ensures after { OnOk result (keys.new.after.line.capacity ≡ 2 ^ 20) }
{
    let walk = walk_at_random(alloc, plan, choices_of(seed, number), keys)?;
    merge_rows(&mut tally.rows, walk.rows.as_slice())?;
    let steps = walk.way.len() as u32;
    tally.walks += 1;
    tally.steps += u64::from(steps);
    tally.depth = tally.depth.max(steps);
    Ok(())
}

// What was found, as a search that stored no state.
fn ended(tally: Tally) -> Sampled
    ensures walks { result.walks ≡ tally.walks }
    ensures rows { result.explored.rows ≡ tally.rows }
    ensures states { result.explored.states ≡ 0 }
    ensures tried { result.explored.tried ≡ tally.steps }
    ensures depth { result.explored.depth ≡ tally.depth }
    ensures is_complete { result.explored.is_complete ≡ false }
    ensures ends { result.explored.ends ≡ None }
{
    let explored = Explored {
        rows: tally.rows,
        states: 0,
        tried: tally.steps,
        depth: tally.depth,
        is_complete: false,
        ends: None,
    };
    Sampled {
        walks: tally.walks,
        explored,
    }
}

/// Makes random walks from where the parties begin after the set-up.
///
/// Each walk makes steps that change where the parties stand, until none does, or a history is full
/// with the set-up and the walk. What a walk tells is a row, with the fewest steps that one of the
/// walks took. So each row may come as it says, and nothing is said of what else may come.
///
/// `None` if no device can be made with these capabilities, or the set-up lets an entry come in.
pub fn sample(alloc: Global, plan: &Plan<'_>, walks: Walks) -> Result<Option<Sampled>, AllocError>
    ensures sampled { IfOk result
        (λ found. IfSome found (λ sampled. IsSampled plan.now.caps plan.now.script.now
        plan.now.setup.now walks sampled)) }
    ensures none { IfOk result
        (λ found. IfNone found (CannotBegin plan.now.caps plan.now.setup.now)) }
{
    let Some(_) = begin(alloc, plan, plan.setup.len() as u64)? else {
        return Ok(None);
    };
    let mut keys = Keys::new(alloc)?;
    let rows = Vec::new(alloc);
    let mut tally = Tally {
        rows,
        walks: 0,
        steps: 0,
        depth: 0,
    };
    for number in 0..walks.count {
        if is_in_shard(&walks, number) {
            add_walk(alloc, plan, &mut tally, walks.seed, number, &mut keys)?;
        }
    }
    Ok(Some(ended(tally)))
}
