//! A run of a document's steps with every step that differs.

ghost use Rattle.std.specs.Prelude.{◌≡◌, ◌≢◌, ◌<◌, ◌++◌, ℕ, List, Some, IfOk, OnOk, MatchOption, map, length, string_bytes};
ghost use Rattle.serde_json.specs.{Data.{Data}, View.{view}};
ghost use Rattle.dsa_scenario.specs.declared.actions.Action.{Action};
ghost use Rattle.dsa_scenario.specs.declared.faults.ScenarioFault.TheVariants.{Differs};
ghost use Rattle.dsa_conform.specs.Lines.{seen_count};
ghost use Rattle.dsa_conform.specs.Every.{AreDiffering, IsFullVerdict, differs_text, unseen_at};
ghost use Rattle.dsa_conform.specs.Run.{AreAllRead, AreRead, IsDiffering};
ghost use Rattle.dsa_conform.specs.Seen.{Seen};
ghost use Rattle.dsa_conform.specs.Sights.{bared};

use crate::observed::parse_step;
use crate::sights::Sights;
use crate::walk::{Verdict, count_more, walk_counted, walk_steps};
use dsa_event_text::add_count;
use dsa_scenario::{Head, ScenarioFault};
use itoa::Buffer;
use std::alloc::{AllocError, Global};

// No step is left out yet, of so many.
fn none_left_out(alloc: Global, steps: usize) -> Result<Vec<bool>, AllocError>
    ensures { IfOk result
        (λ marks. (length marks.items ≡ steps)
        × ((objects : List Data) → bared marks.items objects ≡ objects)) }
{
    vec![in alloc; false; steps]
}

// From now on nothing counts as seen of the step of this number.
fn leave_out(left_out: &mut Vec<bool>, number: usize)
    requires { number < length left_out.old.items }
    ensures read { (steps : List Data)
        → (observed : List (Action × Seen))
        → AreRead (bared left_out.old.items steps) observed
        → AreRead (bared left_out.new.items steps) (unseen_at number observed) }
    ensures as_many { length left_out.new.items ≡ length left_out.old.items }
{
    left_out[number] = true;
}

// Of how many of the steps something was seen.
fn count_seen(head: &Head<'_>) -> usize
    requires { AreAllRead (map view head.now.steps.now) }
    ensures { (observed : List (Action × Seen)) → AreRead (map view head.now.steps.now) observed
        → result ≡ seen_count observed }
{
    let mut answers = 0;
    for step in head.steps {
        let Some((_, seen)) = parse_step(step) else {
            unreachable!();
        };
        let more = count_more(answers, &seen);
        answers = more;
    }
    answers
}

// Adds how many steps differ, of all, and of how many something was seen.
fn add_differs(
    text: &mut String,
    differing: usize,
    steps: usize,
    seen: usize,
) -> Result<(), AllocError>
    ensures { OnOk result
        (string_bytes text.new ≡ string_bytes text.old ++ differs_text differing steps seen) }
{
    let mut buffer = Buffer::new();
    add_count(text, "differs: ", differing as u64, "step", "steps")?;
    text.push_str(" of ")?;
    text.push_str(buffer.format(steps))?;
    add_count(text, ", ", seen as u64, "answer", "answers")?;
    text.push_str(" seen\n")
}

// The step that differs, if one does.
fn differing_step(fault: &Option<ScenarioFault>) -> Option<usize>
    ensures { MatchOption result ((i : ℕ) → fault.now ≢ Some (Differs i))
        (λ i. fault.now ≡ Some (Differs i)) }
{
    match fault {
        Some(ScenarioFault::Differs(i)) => Some(*i as usize),
        _ => None,
    }
}

// What is told of all steps that differ, of which this is the first.
fn walk_on(
    alloc: Global,
    head: &Head<'_>,
    first: usize,
    mut text: String,
) -> Result<Verdict, AllocError>
    requires read { AreAllRead (map view head.now.steps.now) }
    requires differs { IsDiffering head.now.caps head.now.capacity (map view head.now.steps.now)
        first (string_bytes text) }
    ensures { IfOk result
        (λ verdict. (verdict.fault ≡ Some (Differs first))
        × AreDiffering head.now.caps head.now.capacity (map view head.now.steps.now) first
        (string_bytes verdict.text)) }
{
    let mut left_out = none_left_out(alloc, head.steps.len())?;
    leave_out(&mut left_out, first);
    for before in 0..head.steps.len() {
        let sights = Sights {
            head: &*head,
            left_out: left_out.as_slice(),
        };
        let verdict = walk_counted(alloc, &sights)?;
        let Some(number) = differing_step(&verdict.fault) else {
            add_differs(&mut text, before + 1, head.steps.len(), count_seen(head))?;
            return Ok(Verdict {
                text,
                fault: Some(ScenarioFault::Differs(first as u64)),
                way: None,
            });
        };
        text.push_str(verdict.text.as_str())?;
        leave_out(&mut left_out, number);
    }
    Err(AllocError)
}

/// What is told of a run of the step objects on a new device: of each step that differs, once
/// nothing counts as seen of those that differ before it.
///
/// The steps are walked anew for each of them. There are no more of them than steps, since nothing
/// was seen of one after it. If there were, that would be told as memory that is refused.
pub fn walk_every(alloc: Global, head: &Head<'_>) -> Result<Verdict, AllocError>
    requires { AreAllRead (map view head.now.steps.now) }
    ensures { IfOk result
        (λ verdict. IsFullVerdict head.now.caps head.now.capacity (map view head.now.steps.now)
        verdict.fault (string_bytes verdict.text)) }
{
    let verdict = walk_steps(alloc, head)?;
    let Some(first) = differing_step(&verdict.fault) else {
        return Ok(verdict);
    };
    walk_on(alloc, head, first, verdict.text)
}
