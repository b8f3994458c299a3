//! The steps that show a row.

ghost use Rattle.std.specs.Prelude.{◌≡◌, ◌+◌, ◌-◌, ◌<◌, ◌≤◌, ◌^◌, length, min, List, Some, option_map, slice_get, true, false, IfOk, IfSome, IfNone};
ghost use Rattle.dsa_base.specs.Lists.{In};
ghost use Rattle.dsa_keys.specs.Parties.{World, Stored};
ghost use Rattle.dsa_parties.specs.Standing.{Standing};
ghost use Rattle.dsa_explore.specs.declared.stored.Node.{Node};
ghost use Rattle.dsa_explore.specs.declared.stored.Try.{Try};
ghost use Rattle.dsa_explore.specs.Findings.{findings_told};
ghost use Rattle.dsa_explore.specs.Kept.{KeepsWays};
ghost use Rattle.dsa_explore.specs.Ready.{is_filled, HasLabels};
ghost use Rattle.dsa_explore.specs.Rows.{labels_of};
ghost use Rattle.dsa_explore.specs.Schedules.{IsSchedule, IsToldBy};
ghost use Rattle.dsa_explore.specs.Search.{IsFine};
ghost use Rattle.dsa_explore.specs.Walked.{space_of, world_of, IsFirst};
ghost use Rattle.dsa_explore.specs.Ways.{IsTellingStep, IsWay, TellWays};

use crate::awaited::labels_waited_for;
use crate::found::{Finding, Found};
use crate::making::{make_step, walk_kept};
use crate::rows::{Told, add_findings, has_finding};
use crate::search::Searched;
use crate::stored::{Node, Try};
use crate::tries::tries_at;
use crate::trying::path_to;
use crate::walked::{Plan, Walked, ask_of, ends_since};
use dsa_book::Step;
use std::alloc::{AllocError, Global};

// Whether this was told.
fn tells(alloc: Global, told: &Told<'_>, finding: &Finding) -> Result<bool, AllocError>
    ensures told { IfOk result
        (λ is_told. is_told ≡ true → In finding.now
        (findings_told told.now.ask (labels_of told.now.labels.now) told.now.reply told.now.ends.now
        told.now.awaited.now)) }
    ensures other { IfOk result
        (λ is_told. is_told ≡ false → In finding.now
        (findings_told told.now.ask (labels_of told.now.labels.now) told.now.reply told.now.ends.now
        told.now.awaited.now)
        → ⊥) }
{
    let mut rows = Vec::new(alloc);
    add_findings(&mut rows, told, 0)?;
    Ok(has_finding(rows.as_slice(), finding))
}

// Makes the move, and gives its step if that tells the finding.
fn make_telling(
    alloc: Global,
    plan: &Plan<'_>,
    walked: &mut Walked,
    tried: Try,
    finding: &Finding,
) -> Result<Option<Step>, AllocError>
    ensures told { IfOk result
        (λ found. IfSome found
        (λ step. IsToldBy plan.now.script.now walked.old walked.new tried.by finding.now step)) }
    ensures none { IfOk result
        (λ found. IfNone found
        (HasLabels walked.old
        → is_filled walked.old.machine.device ≡ false
        → IsFine (space_of plan.now.caps plan.now.script.now) (world_of walked.old)
        → IsTellingStep (space_of plan.now.caps plan.now.script.now) (world_of walked.old) tried
        finding.now
        → ⊥)) }
{
    let ask = ask_of(plan, walked, tried.by);
    let before = walked.machine.device.fates().len();
    let Some(step) = make_step(alloc, plan, walked, tried)? else {
        return Ok(None);
    };
    let ends = ends_since(walked, before);
    let labels = walked.labels.as_slice();
    let awaited = labels_waited_for(alloc, &walked.machine.device, labels, step.reply)?;
    let told = Told {
        labels,
        ask,
        reply: step.reply,
        ends,
        awaited: awaited.as_slice(),
    };
    if !tells(alloc, &told, finding)? {
        return Ok(None);
    }
    Ok(Some(step))
}

/// For how many steps a device needs room: the set-up, and these tries.
pub fn room_to_lead(plan: &Plan<'_>, path: &[Try]) -> u64
    ensures { result ≡ min (2 ^ 64 - 1) (length plan.now.setup.now + length path.now) }
{
    (plan.setup.len() as u64).saturating_add(path.len() as u64)
}

// For how many steps a device needs room: the set-up, these tries, and one more.
fn room_to_show(plan: &Plan<'_>, path: &[Try]) -> u64
    ensures all { result < 2 ^ 64 - 1 → result ≡ length plan.now.setup.now + (length path.now + 1) }
    ensures most { result ≤ length plan.now.setup.now + (length path.now + 1) }
{
    room_to_lead(plan, path).saturating_add(1)
}

// The steps of the set-up, of these tries and of a last one, if that tells the finding.
fn schedule(
    alloc: Global,
    plan: &Plan<'_>,
    path: &[Try],
    last: Try,
    finding: &Finding,
) -> Result<Option<Vec<Step>>, AllocError>
    ensures shown { IfOk result
        (λ found. IfSome found
        (λ steps. IsSchedule plan.now.caps plan.now.script.now plan.now.setup.now
        (length path.now + 1) finding.now steps.items)) }
    ensures none { length plan.now.setup.now + (length path.now + 1) ≤ 2 ^ 20
        → IfOk result
        (λ found. IfNone found ((first x : World Standing)
        → IsFirst plan.now.caps plan.now.script.now plan.now.setup.now first
        → IsWay (space_of plan.now.caps plan.now.script.now) first path.now x
        → IsTellingStep (space_of plan.now.caps plan.now.script.now) x last finding.now
        → ⊥)) }
{
    let capacity = room_to_show(plan, path);
    let Some(mut kept) = walk_kept(alloc, plan, path, capacity)? else {
        return Ok(None);
    };
    kept.walked.machine.device.state_is_replay();
    let Some(step) = make_telling(alloc, plan, &mut kept.walked, last, finding)? else {
        return Ok(None);
    };
    kept.steps.push(step)?;
    Ok(Some(kept.steps))
}

// The steps of the set-up, of these tries and of one more that tells the finding.
fn show_after(
    alloc: Global,
    plan: &Plan<'_>,
    path: &[Try],
    finding: &Finding,
) -> Result<Option<Vec<Step>>, AllocError>
    ensures shown { IfOk result
        (λ found. IfSome found
        (λ steps. IsSchedule plan.now.caps plan.now.script.now plan.now.setup.now
        (length path.now + 1) finding.now steps.items)) }
    ensures none { length plan.now.setup.now + (length path.now + 1) ≤ 2 ^ 20
        → IfOk result
        (λ found. IfNone found ((first x : World Standing)
        → (tried : Try)
        → IsFirst plan.now.caps plan.now.script.now plan.now.setup.now first
        → IsWay (space_of plan.now.caps plan.now.script.now) first path.now x
        → IsTellingStep (space_of plan.now.caps plan.now.script.now) x tried finding.now
        → ⊥)) }
{
    let Some(kept) = walk_kept(alloc, plan, path, room_to_show(plan, path))? else {
        return Ok(None);
    };
    let tries = tries_at(alloc, plan, &kept.walked)?;
    for last in tries.as_slice() {
        let found = schedule(alloc, plan, path, *last, finding)?;
        if found.is_some() {
            return Ok(found);
        }
    }
    Ok(None)
}

/// The level of the stored world of this number.
pub fn level_of(nodes: &[Node], number: u32) -> Option<u32>
    ensures { result ≡ option_map (λ (node : Node). node.level) (slice_get nodes.now number) }
{
    nodes.get(number as usize).map(|node| node.level)
}

// The steps to the stored world of this number, and one more that tells the finding of the row, if
// they are as many as the row says.
fn show_from(
    alloc: Global,
    plan: &Plan<'_>,
    nodes: &[Node],
    number: u32,
    row: &Found,
) -> Result<Option<Vec<Step>>, AllocError>
    ensures shown { IfOk result
        (λ found. IfSome found
        (λ steps. IsSchedule plan.now.caps plan.now.script.now plan.now.setup.now
        row.now.steps row.now.finding steps.items)) }
    ensures none { length plan.now.setup.now + row.now.steps ≤ 2 ^ 20
        → IfOk result
        (λ found. IfNone found ((first : World Standing)
        → (table : List (Stored Standing))
        → (x : Stored Standing)
        → (tried : Try)
        → IsFirst plan.now.caps plan.now.script.now plan.now.setup.now first
        → TellWays (space_of plan.now.caps plan.now.script.now) first nodes.now table
        → slice_get table number ≡ Some x
        → row.now.steps ≡ x.level + 1
        → IsTellingStep (space_of plan.now.caps plan.now.script.now) x.world tried row.now.finding
        → ⊥)) }
{
    let Some(level) = row.steps.checked_sub(1) else {
        return Ok(None);
    };
    if level_of(nodes, number) != Some(level) {
        return Ok(None);
    }
    let Some(path) = path_to(alloc, nodes, number)? else {
        return Ok(None);
    };
    if path.len() != level as usize {
        return Ok(None);
    }
    show_after(alloc, plan, path.as_slice(), &row.finding)
}

/// The steps of the set-up, and then as many steps of the parties as the row says, the last of
/// which tells its finding. `None` only where the search has not the row.
pub fn show(
    alloc: Global,
    plan: &Plan<'_>,
    searched: &Searched,
    row: &Found,
) -> Result<Option<Vec<Step>>, AllocError>
    ensures shown { IfOk result
        (λ found. IfSome found
        (λ steps. IsSchedule plan.now.caps plan.now.script.now plan.now.setup.now
        row.now.steps row.now.finding steps.items)) }
    ensures none { KeepsWays plan.now.caps plan.now.script.now plan.now.setup.now searched.now
        → IfOk result
        (λ found. IfNone found (In row.now searched.now.explored.rows.items → ⊥)) }
{
    let nodes = searched.nodes.as_slice();
    for number in 0..searched.explored.states {
        let found = show_from(alloc, plan, nodes, number, row)?;
        if found.is_some() {
            return Ok(found);
        }
    }
    Ok(None)
}
