//! One random walk: one of the steps that lead on is made after the other, until none leads on.

ghost use Rattle.std.specs.Prelude.{◌≡◌, ℕ, ◌+◌, ◌^◌, ◌≤◌, ◌<◌, length, Some, IfOk, IfSome, IfNone, OnOk, true, false};
ghost use Rattle.dsa_base.specs.Lists.{In};
ghost use Rattle.dsa_book.specs.declared.answer.Reply.{Reply};
ghost use Rattle.dsa_keys.specs.Parties.{World, world_after};
ghost use Rattle.dsa_parties.specs.declared.places.Move.{Move};
ghost use Rattle.dsa_parties.specs.Offers.{parties_of};
ghost use Rattle.dsa_parties.specs.Standing.{Standing};
ghost use Rattle.dsa_explore.specs.Keys.{world_bytes};
ghost use Rattle.dsa_explore.specs.Ready.{is_filled, CannotMake, HasLabels};
ghost use Rattle.dsa_explore.specs.Search.{IsFine, queue_taken_from};
ghost use Rattle.dsa_explore.specs.Trying.{IsThere};
ghost use Rattle.dsa_explore.specs.Walked.{IsFirst, space_of, world_of};
ghost use Rattle.dsa_explore.specs.Walking.{HasLed, HasStopped, IsAtWalk, IsMadeTry};
ghost use Rattle.dsa_explore.specs.Ways.{IsWay};

use crate::awaited::labels_waited_for;
use crate::choices::choose;
use crate::found::Found;
use crate::keys::{Key, write_world};
use crate::making::{make, walk_kept};
use crate::rows::{Told, add_findings};
use crate::stored::Try;
use crate::tries::tries_at;
use crate::trying::as_taken;
use crate::walked::{Plan, Walked, ask_of, ends_since};
use dsa_book::Reply;
use rand_xoshiro::SplitMix64;
use std::alloc::{AllocError, Global};

/// How many steps the history of a device has at most, and a walk.
const MOST_STEPS: u64 = 1_048_576;

/// How many bytes the key of a world may have on a walk.
const MOST_KEY_BYTES: u32 = 1_048_576;

/// For how many steps a device has room at least, if it may.
const SPARE_STEPS: u64 = 64;

/// Where a try led.
#[derive(Clone, Copy, Debug, PartialEq, Eq)]
pub enum Leads {
    /// It cannot be made.
    Nowhere,
    /// The key is the same.
    Back,
    /// The key is another; this is the try, with the queue that an entry was taken from.
    On(Try),
    /// A key has too many bytes.
    TooFar,
}

/// The keys of a world before and after a try.
#[derive(Drop)]
pub struct Keys {
    before: Key,
    after: Key,
}

impl Keys {
    /// No keys, with the memory for them.
    pub fn new(alloc: Global) -> Result<Keys, AllocError>
        ensures before { IfOk result (λ keys. keys.before.line.capacity ≡ 2 ^ 20) }
        ensures after { IfOk result (λ keys. keys.after.line.capacity ≡ 2 ^ 20) }
    {
        let before = Key::new(alloc, MOST_KEY_BYTES)?;
        let after = Key::new(alloc, MOST_KEY_BYTES)?;
        Ok(Keys { before, after })
    }

    // Whether both are the same.
    fn are_equal(&self) -> bool
        ensures same { result ≡ true → self.now.after.bytes.items ≡ self.now.before.bytes.items }
        ensures other { result ≡ false
            → self.now.after.bytes.items ≡ self.now.before.bytes.items
            → ⊥ }
    {
        self.after.bytes.as_slice() == self.before.bytes.as_slice()
    }
}

/// A walk: the tries that led on, and what all its tries told.
#[derive(Drop)]
pub struct Walk {
    pub way: Vec<Try>,
    pub rows: Vec<Found>,
}

// ---- where it stands

// For how many steps a device has room that comes to the end of this way.
fn room_behind(plan: &Plan<'_>, way: &[Try]) -> u64
    ensures more { length plan.now.setup.now + length way.now < 2 ^ 20
        → length plan.now.setup.now + length way.now < result }
    ensures set_up { length plan.now.setup.now ≤ 2 ^ 20 → length plan.now.setup.now ≤ result }
    ensures most { result ≤ 2 ^ 20 }
{
    let steps = (plan.setup.len() as u64).saturating_add(way.len() as u64);
    steps
        .saturating_mul(2)
        .saturating_add(SPARE_STEPS)
        .min(MOST_STEPS)
}

// A new device on which this way was walked. `None` where no history has room for one step more.
fn stand_again(
    alloc: Global,
    plan: &Plan<'_>,
    way: &[Try],
) -> Result<Option<Box<Walked>>, AllocError>
    ensures there { IfOk result
        (λ found. IfSome found (λ walked. (first last : World Standing)
        → IsFirst plan.now.caps plan.now.script.now plan.now.setup.now first
        → IsWay (space_of plan.now.caps plan.now.script.now) first way.now last
        → IsThere (space_of plan.now.caps plan.now.script.now)
        (record { level = length way.now; world = last }) (world_of walked.value))) }
    ensures labels { IfOk result (λ found. IfSome found (λ walked. HasLabels walked.value)) }
    ensures room { IfOk result
        (λ found. IfSome found (λ walked. is_filled walked.value.machine.device ≡ false)) }
    ensures none { IfOk result
        (λ found. IfNone found ((first last : World Standing)
        → IsFirst plan.now.caps plan.now.script.now plan.now.setup.now first
        → IsWay (space_of plan.now.caps plan.now.script.now) first way.now last
        → 2 ^ 20 ≤ length plan.now.setup.now + length way.now)) }
{
    let Some(kept) = walk_kept(alloc, plan, way, room_behind(plan, way))? else {
        return Ok(None);
    };
    if kept.walked.machine.device.is_full() {
        return Ok(None);
    }
    Ok(Some(kept.walked))
}

// The device, if it stands at the end of the way and its history has room, and else another.
fn stand(
    alloc: Global,
    plan: &Plan<'_>,
    way: &[Try],
    walked: Box<Walked>,
    is_there: bool,
) -> Result<Option<Box<Walked>>, AllocError>
    ensures there { IfOk result
        (λ found. IfSome found (λ here. (first last : World Standing)
        → IsFirst plan.now.caps plan.now.script.now plan.now.setup.now first
        → IsWay (space_of plan.now.caps plan.now.script.now) first way.now last
        → (is_there ≡ true → IsThere (space_of plan.now.caps plan.now.script.now)
        (record { level = length way.now; world = last }) (world_of walked.value))
        → IsThere (space_of plan.now.caps plan.now.script.now)
        (record { level = length way.now; world = last }) (world_of here.value))) }
    ensures labels { IfOk result
        (λ found. IfSome found (λ here. (is_there ≡ true → HasLabels walked.value)
        → HasLabels here.value)) }
    ensures room { IfOk result
        (λ found. IfSome found (λ here. is_filled here.value.machine.device ≡ false)) }
    ensures none { IfOk result
        (λ found. IfNone found ((first last : World Standing)
        → IsFirst plan.now.caps plan.now.script.now plan.now.setup.now first
        → IsWay (space_of plan.now.caps plan.now.script.now) first way.now last
        → 2 ^ 20 ≤ length plan.now.setup.now + length way.now)) }
{
    if is_there {
        if !walked.machine.device.is_full() {
            return Ok(Some(walked));
        }
    }
    let again = stand_again(alloc, plan, way)?;
    Ok(again)
}

// ---- one try

/// Makes the try, and adds rows with what it told and so many steps. `None` if it cannot be made.
pub fn make_told(
    alloc: Global,
    plan: &Plan<'_>,
    rows: &mut Vec<Found>,
    walked: &mut Walked,
    steps: u32,
    tried: Try,
) -> Result<Option<Reply>, AllocError>
    ensures made { IfOk result
        (λ found. IfSome found
        (λ reply. (made : IsMadeTry plan.now.script.now (world_of walked.old) tried
        (world_of walked.new) steps rows.old.items rows.new.items)
        × (made.reply ≡ reply))) }
    ensures labels { IfOk result
        (λ found. IfSome found (λ reply. HasLabels walked.old → HasLabels walked.new)) }
    ensures none { IfOk result
        (λ found. IfNone found
        (HasLabels walked.old
        → is_filled walked.old.machine.device ≡ false
        → CannotMake plan.now.script.now (world_of walked.old) tried)) }
    ensures unchanged { IfOk result (λ found. IfNone found (rows.new.items ≡ rows.old.items)) }
{
    let ask = ask_of(plan, walked, tried.by);
    let before = walked.machine.device.fates().len();
    let Some(reply) = make(alloc, plan, walked, tried)? else {
        return Ok(None);
    };
    let ends = ends_since(walked, before);
    let labels = walked.labels.as_slice();
    let awaited = labels_waited_for(alloc, &walked.machine.device, labels, reply)?;
    let told = Told {
        labels,
        ask,
        reply,
        ends,
        awaited: awaited.as_slice(),
    };
    add_findings(rows, &told, steps)?;
    Ok(Some(reply))
}

// Makes the try, adds rows with what it told and so many steps, and says where it led.
fn try_once(
    alloc: Global,
    plan: &Plan<'_>,
    rows: &mut Vec<Found>,
    walked: &mut Walked,
    steps: u32,
    tried: Try,
    keys: &mut Keys,
) -> Result<Leads, AllocError>
    requires before { keys.old.before.line.capacity ≡ 2 ^ 20 }
    requires after { keys.old.after.line.capacity ≡ 2 ^ 20 }
    ensures led { IfOk result
        (λ leads. HasLed plan.now.script.now walked.old tried walked.new steps rows.old.items
        rows.new.items leads) }
    ensures before { OnOk result (keys.new.before.line.capacity ≡ 2 ^ 20) }
    ensures after { OnOk result (keys.new.after.line.capacity ≡ 2 ^ 20) }
{
    if !write_world(walked, &mut keys.before)? {
        return Ok(Leads::TooFar);
    }
    let Some(reply) = make_told(alloc, plan, rows, walked, steps, tried)? else {
        return Ok(Leads::Nowhere);
    };
    if !write_world(walked, &mut keys.after)? {
        return Ok(Leads::TooFar);
    }
    if keys.are_equal() {
        return Ok(Leads::Back);
    }
    Ok(Leads::On(as_taken(tried, reply)))
}

// ---- the walk

// Makes these tries from where the walk stands, in an order that is chosen, until one leads on.
// `None` where the walk stops.
fn step_on(
    alloc: Global,
    plan: &Plan<'_>,
    walk: &mut Walk,
    at_first: Box<Walked>,
    tries: Vec<Try>,
    choices: &mut SplitMix64,
    keys: &mut Keys,
) -> Result<Option<Box<Walked>>, AllocError>
    requires few { length walk.old.way.items < 2 ^ 20 }
    requires before { keys.old.before.line.capacity ≡ 2 ^ 20 }
    requires after { keys.old.after.line.capacity ≡ 2 ^ 20 }
    ensures further { IfOk result
        (λ found. IfSome found
        (λ next. length walk.new.way.items ≡ length walk.old.way.items + 1)) }
    ensures on { IfOk result
        (λ found. IfSome found (λ next. (first : World Standing)
        → IsFirst plan.now.caps plan.now.script.now plan.now.setup.now first
        → IsAtWalk (space_of plan.now.caps plan.now.script.now) first walk.old.way.items
        walk.old.rows.items at_first.value
        → IsAtWalk (space_of plan.now.caps plan.now.script.now) first walk.new.way.items
        walk.new.rows.items next.value)) }
    ensures stopped { IfOk result
        (λ found. IfNone found ((first : World Standing)
        → IsFirst plan.now.caps plan.now.script.now plan.now.setup.now first
        → IsAtWalk (space_of plan.now.caps plan.now.script.now) first walk.old.way.items
        walk.old.rows.items at_first.value
        → ((w : World Standing)
        → (move : Move)
        → (reply : Reply)
        → world_after (parties_of plan.now.script.now) (world_of at_first.value) move reply ≡ Some w
        → In (record { by = move; queue = queue_taken_from reply }) tries.items)
        → HasStopped (space_of plan.now.caps plan.now.script.now) first
        (length plan.now.setup.now) walk.new.way.items walk.new.rows.items)) }
    ensures same { IfOk result
        (λ found. IfNone found (walk.new.way.items ≡ walk.old.way.items)) }
    ensures before { OnOk result (keys.new.before.line.capacity ≡ 2 ^ 20) }
    ensures after { OnOk result (keys.new.after.line.capacity ≡ 2 ^ 20) }
{
    let steps = walk.way.len() as u32 + 1;
    let mut left = tries;
    let mut walked = at_first;
    let mut is_there = true;
    for turn in 0..left.len() {
        let Some(mut here) = stand(alloc, plan, walk.way.as_slice(), walked, is_there)? else {
            return Ok(None);
        };
        let tried = left.remove(choose(choices, left.len()));
        let led = try_once(alloc, plan, &mut walk.rows, &mut here, steps, tried, keys)?;
        match led {
            Leads::Nowhere => is_there = false,
            Leads::Back => is_there = true,
            Leads::On(taken) => {
                walk.way.push(taken)?;
                return Ok(Some(here));
            }
            Leads::TooFar => return Ok(None),
        }
        walked = here;
    }
    Ok(None)
}

/// Makes a walk with these choices, as far as it goes.
pub fn walk_at_random(
    alloc: Global,
    plan: &Plan<'_>,
    choices: SplitMix64,
    keys: &mut Keys,
) -> Result<Walk, AllocError>
    requires before { keys.old.before.line.capacity ≡ 2 ^ 20 }
    requires after { keys.old.after.line.capacity ≡ 2 ^ 20 }
    ensures stopped { IfOk result
        (λ walk. (first : World Standing)
        → IsFirst plan.now.caps plan.now.script.now plan.now.setup.now first
        → IsFine (space_of plan.now.caps plan.now.script.now) first
        → HasStopped (space_of plan.now.caps plan.now.script.now) first
        (length plan.now.setup.now) walk.way.items walk.rows.items) }
    ensures few { IfOk result (λ walk. length walk.way.items ≤ 2 ^ 20) }
    ensures before { OnOk result (keys.new.before.line.capacity ≡ 2 ^ 20) }
    ensures after { OnOk result (keys.new.after.line.capacity ≡ 2 ^ 20) }
{
    let mut choices = choices;
    let way = Vec::new(alloc);
    let rows = Vec::new(alloc);
    let mut walk = Walk { way, rows };
    let Some(mut walked) = stand_again(alloc, plan, &[])? else {
        return Ok(walk);
    };
    for _ in 0..MOST_STEPS {
        let tries = tries_at(alloc, plan, &walked)?;
        let led = step_on(alloc, plan, &mut walk, walked, tries, &mut choices, keys)?;
        let Some(next) = led else {
            return Ok(walk);
        };
        walked = next;
    }
    Ok(walk)
}
