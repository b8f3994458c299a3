//! Moves that are made on a device, and the steps that they make.

ghost use Rattle.std.specs.Prelude.{◌≡◌, ℕ, ◌+◌, ◌^◌, ◌≤◌, Some, length, false, IfOk, IfSome, IfNone};
ghost use Rattle.dsa_keys.specs.Parties.{World, HaveEqualKeys, world_after};
ghost use Rattle.dsa_parties.specs.Standing.{Standing};
ghost use Rattle.dsa_parties.specs.Offers.{parties_of};
ghost use Rattle.dsa_explore.specs.Ready.{is_filled, CannotMake, HasLabels, HasRoomLeft, IsOneMore};
ghost use Rattle.dsa_explore.specs.Schedules.{IsEventKept, IsMadeBy};
ghost use Rattle.dsa_explore.specs.Search.{IsFine, queue_taken_from};
ghost use Rattle.dsa_explore.specs.Walked.{CannotBegin, IsFirst, space_of, world_of};
ghost use Rattle.dsa_explore.specs.Ways.{IsWay};

use crate::rows::{labelled_reply, labelled_rows};
use crate::stored::Try;
use crate::walked::{
    Plan, Walked, ends_since, event_by_label, has_names, new_walked, offer, set_label, step_from,
};
use dsa_book::{Reply, Step};
use dsa_parties::Shown;
use std::alloc::{AllocError, Global};

/// A device on which the parties moved, and all steps that it made.
#[derive(Drop)]
pub struct Kept {
    pub walked: Box<Walked>,
    pub steps: Vec<Step>,
}

/// A new device of this capacity after the set-up. `None` where it cannot be made, or an entry came
/// in.
pub fn begin_kept(alloc: Global, plan: &Plan<'_>, capacity: u64) -> Result<Option<Kept>, AllocError>
    ensures kept { IfOk result
        (λ found. IfSome found
        (λ kept. IsEventKept plan.now.caps plan.now.script.now plan.now.setup.now capacity 0
        kept.steps.items kept.walked.value)) }
    ensures fine { IfOk result
        (λ found. IfSome found
        (λ kept. IsFine (space_of plan.now.caps plan.now.script.now)
        (world_of kept.walked.value))) }
    ensures begun { capacity ≡ length plan.now.setup.now
        → IfOk result
        (λ found. IfSome found
        (λ kept. IsFirst plan.now.caps plan.now.script.now plan.now.setup.now
        (world_of kept.walked.value))) }
    ensures none { capacity ≡ length plan.now.setup.now
        → IfOk result (λ found. IfNone found (CannotBegin plan.now.caps plan.now.setup.now)) }
    ensures again { length plan.now.setup.now ≤ capacity
        → IfOk result
        (λ found. IfSome found (λ kept. (first : World Standing)
        → IsFirst plan.now.caps plan.now.script.now plan.now.setup.now first
        → world_of kept.walked.value ≡ first)) }
    ensures once { length plan.now.setup.now ≤ capacity
        → capacity ≤ 2 ^ 20
        → IfOk result
        (λ found. IfNone found ((first : World Standing)
        → IsFirst plan.now.caps plan.now.script.now plan.now.setup.now first
        → ⊥)) }
    ensures labels { IfOk result (λ found. IfSome found (λ kept. HasLabels kept.walked.value)) }
    ensures room { IfOk result
        (λ found. IfSome found
        (λ kept. HasRoomLeft (length plan.now.setup.now) capacity kept.walked.value)) }
{
    let Some(mut walked) = new_walked(alloc, plan, capacity)? else {
        return Ok(None);
    };
    let mut steps = Vec::with_capacity(alloc, capacity as usize)?;
    walked.machine.device.run(plan.setup, &mut steps)?;
    if has_names(&walked.machine) {
        return Ok(None);
    }
    Ok(Some(Kept { walked, steps }))
}

/// The same device, without its steps.
pub fn begin(
    alloc: Global,
    plan: &Plan<'_>,
    capacity: u64,
) -> Result<Option<Box<Walked>>, AllocError>
    ensures fine { IfOk result
        (λ found. IfSome found
        (λ walked. IsFine (space_of plan.now.caps plan.now.script.now) (world_of walked.value))) }
    ensures begun { capacity ≡ length plan.now.setup.now
        → IfOk result
        (λ found. IfSome found
        (λ walked. IsFirst plan.now.caps plan.now.script.now plan.now.setup.now
        (world_of walked.value))) }
    ensures none { capacity ≡ length plan.now.setup.now
        → IfOk result (λ found. IfNone found (CannotBegin plan.now.caps plan.now.setup.now)) }
{
    let Some(kept) = begin_kept(alloc, plan, capacity)? else {
        return Ok(None);
    };
    Ok(Some(kept.walked))
}

/// Makes the move, which takes an entry from the queue if one is named, and gives its step. `None`
/// where that cannot be.
pub fn make_step(
    alloc: Global,
    plan: &Plan<'_>,
    walked: &mut Walked,
    tried: Try,
) -> Result<Option<Step>, AllocError>
    ensures made { IfOk result
        (λ found. IfSome found
        (λ step. IsMadeBy plan.now.script.now walked.old walked.new tried.by step)) }
    ensures queue { IfOk result
        (λ found. IfSome found
        (λ step. (q p : ℕ)
        → tried.queue ≡ Some q
        → queue_taken_from step.reply ≡ Some p
        → q ≡ p)) }
    ensures none { IfOk result
        (λ found. IfNone found
        (HasLabels walked.old
        → is_filled walked.old.machine.device ≡ false
        → CannotMake plan.now.script.now (world_of walked.old) tried)) }
    ensures labels { IfOk result
        (λ found. IfSome found (λ step. HasLabels walked.old → HasLabels walked.new)) }
    ensures room { IfOk result
        (λ found. IfSome found
        (λ step. IsOneMore walked.old.machine.device walked.new.machine.device)) }
{
    let Some(offered) = offer(plan.script, walked, tried.by) else {
        return Ok(None);
    };
    let name = walked.machine.device.next_name();
    if !set_label(&mut walked.labels, name, offered.label)? {
        return Ok(None);
    }
    let Some(event) = event_by_label(alloc, walked, offered.event)? else {
        return Ok(None);
    };
    let before = walked.machine.device.fates().len();
    let Some(reply) = step_from(&mut walked.machine, event, tried.queue) else {
        return Ok(None);
    };
    let labels = walked.labels.as_slice();
    let ends = labelled_rows(alloc, labels, ends_since(walked, before))?;
    let shown = Shown {
        made: tried.by,
        reply: labelled_reply(labels, reply),
        ends: ends.as_slice(),
    };
    plan.script.make_move(&mut walked.places, &shown);
    Ok(Some(Step { event, reply }))
}

/// Makes the move, and gives its reply.
pub fn make(
    alloc: Global,
    plan: &Plan<'_>,
    walked: &mut Walked,
    tried: Try,
) -> Result<Option<Reply>, AllocError>
    ensures leads { IfOk result
        (λ found. IfSome found
        (λ reply. world_after (parties_of plan.now.script.now) (world_of walked.old) tried.by
        reply
        ≡ Some (world_of walked.new))) }
    ensures queue { IfOk result
        (λ found. IfSome found
        (λ reply. (q p : ℕ)
        → tried.queue ≡ Some q
        → queue_taken_from reply ≡ Some p
        → q ≡ p)) }
    ensures none { IfOk result
        (λ found. IfNone found
        (HasLabels walked.old
        → is_filled walked.old.machine.device ≡ false
        → CannotMake plan.now.script.now (world_of walked.old) tried)) }
    ensures labels { IfOk result
        (λ found. IfSome found (λ reply. HasLabels walked.old → HasLabels walked.new)) }
{
    let Some(step) = make_step(alloc, plan, walked, tried)? else {
        return Ok(None);
    };
    Ok(Some(step.reply))
}

/// A new device of this capacity on which these tries were made, after the set-up. `None` where one
/// of them cannot be.
pub fn walk_kept(
    alloc: Global,
    plan: &Plan<'_>,
    path: &[Try],
    capacity: u64,
) -> Result<Option<Kept>, AllocError>
    ensures kept { IfOk result
        (λ found. IfSome found
        (λ kept. IsEventKept plan.now.caps plan.now.script.now plan.now.setup.now capacity
        (length path.now) kept.steps.items kept.walked.value)) }
    ensures fine { IfOk result
        (λ found. IfSome found
        (λ kept. IsFine (space_of plan.now.caps plan.now.script.now)
        (world_of kept.walked.value))) }
    ensures there { length plan.now.setup.now ≤ capacity
        → IfOk result
        (λ found. IfSome found
        (λ kept. (first x : World Standing)
        → IsFirst plan.now.caps plan.now.script.now plan.now.setup.now first
        → IsWay (space_of plan.now.caps plan.now.script.now) first path.now x
        → IsFine (space_of plan.now.caps plan.now.script.now) x
        × HaveEqualKeys (world_of kept.walked.value) x)) }
    ensures labels { IfOk result (λ found. IfSome found (λ kept. HasLabels kept.walked.value)) }
    ensures room { IfOk result
        (λ found. IfSome found
        (λ kept. HasRoomLeft (length plan.now.setup.now + length path.now) capacity
        kept.walked.value)) }
    ensures none { length plan.now.setup.now + length path.now ≤ capacity
        → capacity ≤ 2 ^ 20
        → IfOk result
        (λ found. IfNone found ((first x : World Standing)
        → IsFirst plan.now.caps plan.now.script.now plan.now.setup.now first
        → IsWay (space_of plan.now.caps plan.now.script.now) first path.now x
        → ⊥)) }
{
    let Some(mut kept) = begin_kept(alloc, plan, capacity)? else {
        return Ok(None);
    };
    for tried in path {
        kept.walked.machine.device.state_is_replay();
        let Some(step) = make_step(alloc, plan, &mut kept.walked, *tried)? else {
            return Ok(None);
        };
        kept.steps.push(step)?;
    }
    Ok(Some(kept))
}
