//! A run of a document's steps by what was seen of them.

ghost use Rattle.std.specs.Prelude.{◌≡◌, ◌<◌, ◌≤◌, ◌+◌, [], ◌∷◌, ℕ, List, Some, IfOk, cond, map, take, length, string_bytes, false};
ghost use Rattle.serde_json.specs.View.{view};
ghost use Rattle.dsa_regs.specs.declared.Caps.{Caps};
ghost use Rattle.dsa_scenario.specs.Run.{event_of};
ghost use Rattle.dsa_scenario.specs.declared.actions.Action.{Action};
ghost use Rattle.dsa_scenario.specs.declared.faults.ScenarioFault.TheVariants.{Differs};
ghost use Rattle.dsa_conform.specs.Seen.{Seen, seen_as, is_seen};
ghost use Rattle.dsa_conform.specs.Lines.{conforms_text, seen_count};
ghost use Rattle.dsa_conform.specs.Run.{AreAllRead, AreRead, IsFollowedTo, IsVerdict};
ghost use Rattle.dsa_conform.specs.Sights.{steps_counted};
ghost use Rattle.dsa_conform.specs.ToldLines.{IsTextTold};
ghost use Rattle.dsa_conform.specs.Ways.{AreFollowed, IsOneWay};

use crate::observed::Observed;
use crate::offering::fork;
use crate::sights::{Sights, step_at};
use crate::step::walk_step;
use crate::told::{Told, told_text};
use crate::way::{Way, first_way};
use crate::ways::walk_ways;
use dsa_event_text::add_count;
use dsa_scenario::{Action, Head, ScenarioFault, event_for};
use std::alloc::{AllocError, Global};

/// What is told of a document's steps.
#[derive(Drop)]
pub struct Verdict {
    pub text: String,
    /// The step that differs, if one does.
    pub fault: Option<ScenarioFault>,
    /// A device that has answered all of them as was seen, where that is what was asked for.
    pub way: Option<Way>,
}

// The line of a document that conforms.
fn conforms_text(alloc: Global, steps: usize, seen: usize) -> Result<String, AllocError>
    ensures { IfOk result (λ text. string_bytes text ≡ conforms_text steps seen) }
{
    let mut text = String::new(alloc);
    add_count(&mut text, "conforms: ", steps as u64, "step", "steps")?;
    add_count(&mut text, ", ", seen as u64, "answer", "answers")?;
    text.push_str(" seen\n")?;
    Ok(text)
}

/// How many were seen, with this one.
pub fn count_more(answers: usize, seen: &Observed<'_>) -> usize
    requires { answers < usize.MAX }
    ensures { result ≡ answers + cond (is_seen (seen_as seen.now)) 1 0 }
{
    if seen.is_seen() { answers + 1 } else { answers }
}

// Whether the step may be answered in more than one way that shows what was seen.
fn is_fork(
    alloc: Global,
    way: &Way,
    action: Action,
    seen: &Observed<'_>,
) -> Result<bool, AllocError>
    ensures { IfOk result (λ forks. forks ≡ false
        → (caps : Caps) → (capacity : ℕ) → (done : List (Action × Seen)) → (number : ℕ)
        → (h : IsFollowedTo caps capacity done number way.now.device way.now.tickets.items)
        → IsOneWay way.now.device (event_of h.records action) (seen_as seen.now)) }
{
    let asked = event_for(way.tickets.as_slice(), action);
    let queues = fork(alloc, &way.device, &asked, seen)?;
    Ok(!queues.as_slice().is_empty())
}

// What is told of a step where the only device that is followed does not go on.
fn differs_by(
    alloc: Global,
    number: usize,
    seen: &Observed<'_>,
    told: Told,
) -> Result<Verdict, AllocError>
    ensures { IfOk result
        (λ verdict. (verdict.fault ≡ Some (Differs number))
        × IsTextTold number (seen_as seen.now) (told ∷ []) (string_bytes verdict.text)) }
{
    let tolds = vec![in alloc; told]?;
    let text = told_text(alloc, number, seen, tolds.as_slice())?;
    Ok(Verdict {
        text,
        fault: Some(ScenarioFault::Differs(number as u64)),
        way: None,
    })
}

// The steps from this one on, of several devices; so many answers were seen before.
fn walk_forked(
    alloc: Global,
    sights: &Sights<'_>,
    from: usize,
    way: Way,
    before: usize,
) -> Result<Verdict, AllocError>
    requires read { (observed : List (Action × Seen))
        × AreRead (steps_counted sights.now) observed
        × AreFollowed sights.now.head.now.caps sights.now.head.now.capacity (take from observed)
        from (way ∷ [])
        × (before ≡ seen_count (take from observed)) }
    requires counted { before ≤ from }
    requires inside { from ≤ length sights.now.head.now.steps.now }
    ensures { IfOk result
        (λ verdict. IsVerdict sights.now.head.now.caps sights.now.head.now.capacity
        (steps_counted sights.now) verdict.fault (string_bytes verdict.text)) }
{
    let mut answers = before;
    let mut ways = vec![in alloc; way]?;
    for i in from..sights.head.steps.len() {
        let Some((action, seen)) = step_at(sights, i) else {
            unreachable!();
        };
        let differs = walk_ways(alloc, sights, i, &mut ways, action, &seen)?;
        if let Some(text) = differs {
            let fault = Some(ScenarioFault::Differs(i as u64));
            return Ok(Verdict {
                text,
                fault,
                way: None,
            });
        }
        let more = count_more(answers, &seen);
        answers = more;
    }
    let text = conforms_text(alloc, sights.head.steps.len(), answers)?;
    Ok(Verdict {
        text,
        fault: None,
        way: ways.pop(),
    })
}

/// What is told of a run of the step objects on a new device, by what counts as seen of them.
///
/// One device is followed up to the first step that more than one queue may have been taken at.
pub fn walk_counted(alloc: Global, sights: &Sights<'_>) -> Result<Verdict, AllocError>
    requires { AreAllRead (steps_counted sights.now) }
    ensures { IfOk result
        (λ verdict. IsVerdict sights.now.head.now.caps sights.now.head.now.capacity
        (steps_counted sights.now) verdict.fault (string_bytes verdict.text)) }
{
    let mut way = first_way(alloc, sights.head)?;
    let mut answers = 0;
    for i in 0..sights.head.steps.len() {
        let Some((action, seen)) = step_at(sights, i) else {
            unreachable!();
        };
        if is_fork(alloc, &way, action, &seen)? {
            return walk_forked(alloc, sights, i, way, answers);
        }
        let differs = walk_step(alloc, &mut way, action, &seen)?;
        if let Some(told) = differs {
            return differs_by(alloc, i, &seen, told);
        }
        let more = count_more(answers, &seen);
        answers = more;
    }
    let text = conforms_text(alloc, sights.head.steps.len(), answers)?;
    Ok(Verdict {
        text,
        fault: None,
        way: Some(way),
    })
}

/// What is told of a run of the step objects on a new device.
pub fn walk_steps(alloc: Global, head: &Head<'_>) -> Result<Verdict, AllocError>
    requires { AreAllRead (map view head.now.steps.now) }
    ensures { IfOk result
        (λ verdict. IsVerdict head.now.caps head.now.capacity (map view head.now.steps.now)
        verdict.fault (string_bytes verdict.text)) }
{
    let sights = Sights {
        head: &*head,
        left_out: &[],
    };
    walk_counted(alloc, &sights)
}
