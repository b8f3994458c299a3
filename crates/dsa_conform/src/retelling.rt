//! A run by the queues that a comparison has followed, and what is made of it.

ghost use Rattle.std.specs.Prelude.{◌≡◌, ◌<◌, ◌≤◌, ◌+◌, ◌++◌, [], ◌∷◌, ℕ, List, IfOk, map, string_bytes};
ghost use Rattle.serde_json.specs.View.{view};
ghost use Rattle.dsa_regs.specs.declared.Caps.{Caps};
ghost use Rattle.dsa_scenario.specs.declared.actions.Action.{Action};
ghost use Rattle.dsa_scenario.specs.Steps.{IsTextOfRun};
ghost use Rattle.dsa_conform.specs.Run.{AreAllRead, AreRead};
ghost use Rattle.dsa_conform.specs.Seen.{Seen, nothing_seen, seen_as};
ghost use Rattle.dsa_conform.specs.AsSeen.{count_shown, seen_before, IsPageTo, ShowAll};

use crate::observed::{Observed, parse_step};
use crate::way::{Way, count_taken, first_way, step_again};
use dsa_scenario::{
    Action, Head, MadeText, Record, RenderSteps, ScenarioFault, StepMade, event_for,
};
use std::alloc::{AllocError, Global};

/// How many steps were answered as was seen, of so many.
pub fn count_shown(steps: usize, fault: &Option<ScenarioFault>) -> usize
    ensures { result ≡ count_shown steps fault.now }
{
    match fault {
        Some(ScenarioFault::Differs(i)) => *i as usize,
        _ => steps,
    }
}

// What was seen of the step, where it is one of the first.
fn seen_of_first<'v>(seen: &Observed<'v>, number: usize, count: usize) -> Observed<'v>
    ensures first { number < count → seen_as result ≡ seen_as seen.now }
    ensures other { count ≤ number → seen_as result ≡ nothing_seen }
{
    if number < count {
        return *seen;
    }
    Observed {
        answer: None,
        zf: None,
    }
}

// One step more, by an entry of this queue where one is taken, and what is made of it.
fn retell_step<D: RenderSteps>(
    alloc: Global,
    what: &D,
    page: &mut D::Page,
    way: &mut Way,
    number: usize,
    queue: Option<u16>,
    action: Action,
    seen: &Observed<'_>,
) -> Result<Record, AllocError>
    ensures { IfOk result (λ entry. (caps : Caps)
        → (capacity : ℕ) → (done : List (Action × Seen))
        → IsPageTo (D.is_page what.now) caps capacity done number way.old.device
        way.old.tickets.items page.old
        → IsPageTo (D.is_page what.now) caps capacity (done ++ (action, seen_as seen.now) ∷ [])
        (number + 1) way.new.device way.new.tickets.items page.new) }
{
    let asked = event_for(way.tickets.as_slice(), action);
    let told = what.look(alloc, &way.device, &asked)?;
    let entry = step_again(alloc, way, queue, action, seen)?;
    let step = StepMade {
        alloc,
        number,
        told: &told,
        entry: &entry,
        device: &way.device,
    };
    what.add_step(page, &step)?;
    Ok(entry)
}

/// What `what` makes of a run that takes from these queues in turn, and shows what was seen of the
/// first steps, so many.
pub fn retell<D: RenderSteps>(
    alloc: Global,
    what: &D,
    head: &Head<'_>,
    count: usize,
    choices: &[u16],
) -> MadeText
    requires { AreAllRead (map view head.now.steps.now) }
    ensures { IfOk result
        (λ text. (observed : List (Action × Seen)) → AreRead (map view head.now.steps.now) observed
        → IsTextOfRun (λ made last told. ShowAll (seen_before count observed) made
        × D.is_text what.now made last told) head.now.caps head.now.capacity
        (map (λ o. o.0) observed) (string_bytes text)) }
{
    let mut way = first_way(alloc, head)?;
    let mut page = what.open(alloc);
    let mut taken = 0;
    for (i, step) in head.steps.iter().enumerate() {
        let Some((action, all)) = parse_step(step) else {
            unreachable!();
        };
        let seen = seen_of_first(&all, i, count);
        let queue = choices.get(taken).copied();
        let entry = retell_step(alloc, what, &mut page, &mut way, i, queue, action, &seen)?;
        taken = count_taken(taken, &entry);
    }
    what.finish(alloc, page, &way.device)
}
