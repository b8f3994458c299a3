//! A step of several devices that answer as was seen so far.

ghost use Rattle.std.specs.Prelude.{◌≡◌, ◌+◌, ◌<◌, [], ◌∷◌, ◌++◌, true, false, OnOk, IfOk, map, length, option_map, string_bytes};
ghost use Rattle.dsa_conform.specs.Seen.{seen_as};
ghost use Rattle.dsa_conform.specs.Run.{AreAllRead};
ghost use Rattle.dsa_conform.specs.Sights.{steps_counted};
ghost use Rattle.dsa_conform.specs.Ways.{AreAdded, AreGoneOn, AreOn, IsAdded, IsAmong, IsGoneOn, IsWayBy};

use crate::alike::is_alike;
use crate::observed::Observed;
use crate::offering::fork;
use crate::sights::Sights;
use crate::step::walk_step;
use crate::told::{Told, told_text};
use crate::way::{Way, queues_taken, walk_again};
use dsa_scenario::{Action, event_for};
use std::alloc::{AllocError, Global};
use std::mem;

// Whether the device is alike one of those that are followed.
fn is_among(ways: &[Way], way: &Way) -> bool
    ensures among { result ≡ true → IsAmong way.now.device ways.now }
    ensures none { result ≡ false → ¬ IsAmong way.now.device ways.now }
{
    for other in ways {
        if is_alike(&way.device, &other.device) {
            return true;
        }
    }
    false
}

// Adds the device, where none of those that are followed is alike.
fn add_way(ways: &mut Vec<Way>, way: Way) -> Result<(), AllocError>
    ensures { OnOk result (IsAdded ways.old.items way ways.new.items) }
{
    if is_among(ways.as_slice(), &way) {
        return Ok(());
    }
    ways.push(way)?;
    Ok(())
}

// A device that takes from the queue in this step, and before from those that are in `choices`.
fn way_by(
    alloc: Global,
    sights: &Sights<'_>,
    number: usize,
    choices: &[u16],
    queue: u16,
) -> Result<Way, AllocError>
    requires inside { number < length sights.now.head.now.steps.now }
    requires read { AreAllRead (steps_counted sights.now) }
    ensures { IfOk result
        (λ way. IsWayBy sights.now.head.now.caps sights.now.head.now.capacity
        (steps_counted sights.now) (number + 1) (choices.now ++ queue ∷ []) way) }
{
    let mut queues = Vec::from_slice(alloc, choices)?;
    queues.push(queue)?;
    let steps = sights.head.steps.len();
    prove!(number < steps);
    walk_again(alloc, sights, number + 1, queues.as_slice())
}

// Adds a device for each of these queues.
fn add_forks(
    alloc: Global,
    sights: &Sights<'_>,
    number: usize,
    choices: &[u16],
    queues: &[u16],
    ways: &mut Vec<Way>,
) -> Result<(), AllocError>
    requires inside { number < length sights.now.head.now.steps.now }
    requires read { AreAllRead (steps_counted sights.now) }
    ensures { OnOk result
        (AreAdded sights.now.head.now.caps sights.now.head.now.capacity (steps_counted sights.now)
        number choices.now queues.now ways.old.items ways.new.items) }
{
    for queue in queues {
        let way = way_by(alloc, sights, number, choices, *queue)?;
        add_way(ways, way)?;
    }
    Ok(())
}

// One step of one device, by each queue that it may take from.
fn go_on(
    alloc: Global,
    sights: &Sights<'_>,
    number: usize,
    mut way: Way,
    action: Action,
    seen: &Observed<'_>,
    ways: &mut Vec<Way>,
    tolds: &mut Vec<Told>,
) -> Result<(), AllocError>
    requires inside { number < length sights.now.head.now.steps.now }
    requires read { AreAllRead (steps_counted sights.now) }
    ensures { OnOk result
        (IsGoneOn sights.now.head.now.caps sights.now.head.now.capacity (steps_counted sights.now)
        (action, seen_as seen.now) number way ways.old.items tolds.old.items ways.new.items
        tolds.new.items) }
{
    let asked = event_for(way.tickets.as_slice(), action);
    let queues = fork(alloc, &way.device, &asked, seen)?;
    if !queues.as_slice().is_empty() {
        let choices = queues_taken(alloc, way.device.history())?;
        return add_forks(
            alloc,
            sights,
            number,
            choices.as_slice(),
            queues.as_slice(),
            ways,
        );
    }
    if let Some(told) = walk_step(alloc, &mut way, action, seen)? {
        tolds.push(told)?;
        return Ok(());
    }
    add_way(ways, way)
}

// One step of these devices, one after the other.
fn go_all(
    alloc: Global,
    sights: &Sights<'_>,
    number: usize,
    mut old: Vec<Way>,
    action: Action,
    seen: &Observed<'_>,
    ways: &mut Vec<Way>,
) -> Result<Vec<Told>, AllocError>
    requires inside { number < length sights.now.head.now.steps.now }
    requires read { AreAllRead (steps_counted sights.now) }
    requires none { ways.old.items ≡ [] }
    ensures { IfOk result
        (λ tolds. AreGoneOn sights.now.head.now.caps sights.now.head.now.capacity
        (steps_counted sights.now) (action, seen_as seen.now) number old.items ways.new.items
        tolds.items) }
{
    let mut tolds = Vec::new(alloc);
    while !old.as_slice().is_empty() {
        let way = old.remove(0);
        go_on(alloc, sights, number, way, action, seen, ways, &mut tolds)?;
    }
    Ok(tolds)
}

/// One step of all devices that are followed, and what is told where none of them goes on.
pub fn walk_ways(
    alloc: Global,
    sights: &Sights<'_>,
    number: usize,
    ways: &mut Vec<Way>,
    action: Action,
    seen: &Observed<'_>,
) -> Result<Option<String>, AllocError>
    requires inside { number < length sights.now.head.now.steps.now }
    requires read { AreAllRead (steps_counted sights.now) }
    ensures { IfOk result
        (λ differs. AreOn sights.now.head.now.caps sights.now.head.now.capacity
        (steps_counted sights.now) (action, seen_as seen.now) number ways.old.items ways.new.items
        (option_map string_bytes differs)) }
{
    let old = mem::replace(ways, Vec::new(alloc));
    let tolds = go_all(alloc, sights, number, old, action, seen, ways)?;
    if !ways.as_slice().is_empty() {
        return Ok(None);
    }
    let text = told_text(alloc, number, seen, tolds.as_slice())?;
    Ok(Some(text))
}
