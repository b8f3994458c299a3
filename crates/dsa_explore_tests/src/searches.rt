//! What searches find. The numbers are those of another program, which searches a model of its own.

use crate::worlds::{
    FENCED_MOVE, MOVE, ONE_ENGINE, THREE_GROUPS, TWO_ENGINES, World, batch, client, enabled,
    enabled_and_sent, enabled_groups, member, once, part, submitted, threshold_written,
};
use dsa_book::Event;
use dsa_explore::{Bounds, Explored, Finding, Found, Plan, explore};
use dsa_parties::{Act, RetryPolicy, ScriptEntry, Until};
use dsa_regs::{Command, QueueMask};
use std::alloc::Global;
use std::process::Abort;

// How many states are stored at most where all are to be found.
const ENOUGH: u32 = 4000;

// What a search finds within these bounds, if it can begin.
fn found_within(
    rt: &impl Abort,
    alloc: Global,
    world: &World<'_>,
    bounds: Bounds,
) -> Option<Explored> {
    let script = match world.script(alloc) {
        Ok(Some(script)) => script,
        _ => panic!(rt; "there is no script"),
    };
    let plan = Plan {
        caps: world.caps,
        script: &script,
        setup: world.setup,
    };
    match explore(alloc, &plan, bounds) {
        Ok(found) => found,
        Err(_) => panic!(rt; "out of memory"),
    }
}

// What a search finds that may store so many states.
fn searched(rt: &impl Abort, alloc: Global, world: &World<'_>, states: u32) -> Explored {
    let bounds = Bounds {
        states,
        key_bytes: 1000,
    };
    match found_within(rt, alloc, world, bounds) {
        Some(explored) => explored,
        None => panic!(rt; "there is no search"),
    }
}

// The search is whole, and has so many states, so great a depth and so many rows.
fn is_whole(rt: &impl Abort, explored: &Explored, states: u32, depth: u32, rows: usize) {
    assert!(rt; explored.is_complete);
    assert_eq!(rt; explored.states, states);
    assert_eq!(rt; explored.depth, depth);
    assert_eq!(rt; explored.rows.len(), rows);
}

// With how many steps the finding may come, and 0 where it is no row.
fn steps_of(rows: &[Found], finding: Finding) -> u32 {
    for row in rows {
        if row.finding == finding {
            return row.steps;
        }
    }
    0
}

// A move that is submitted until it is accepted.
fn again(queue: u16, pasid: u32) -> ScriptEntry {
    submitted(queue, pasid, RetryPolicy::Again)
}

// Two clients with two moves each, and one engine.
fn two_clients(rt: &impl Abort, alloc: Global, states: u32) -> Explored {
    let world = World {
        caps: ONE_ENGINE,
        setup: &enabled(1),
        entries: &[again(0, 1), again(0, 1), again(0, 2), again(0, 2)],
        clients: &[client(0, 0, 2), client(1, 2, 4)],
        acts: &[],
        administrators: &[],
        engines: &[0],
        watches: &[],
    };
    searched(rt, alloc, &world, states)
}

#[test]
fn two_clients_to_the_bound(rt: HostRuntime) {
    is_whole(&rt, &two_clients(&rt, rt.alloc(), ENOUGH), 123, 12, 12);
    is_whole(&rt, &two_clients(&rt, rt.alloc(), 123), 123, 12, 12);
    assert!(rt; !two_clients(&rt, rt.alloc(), 122).is_complete);
}

// The same with two engines, and a drain of the first client's PASID, which is polled until it is
// over.
fn drained(rt: &impl Abort, alloc: Global) -> Explored {
    let world = World {
        caps: TWO_ENGINES,
        setup: &enabled(3),
        entries: &[again(0, 1), again(0, 1), again(0, 2), again(0, 2)],
        clients: &[client(0, 0, 2), client(1, 2, 4)],
        acts: &[
            once(Command::DrainPasid(1)),
            Act::Poll { until: Until::Over },
        ],
        administrators: &[part(0, 2)],
        engines: &[0, 1],
        watches: &[],
    };
    searched(rt, alloc, &world, ENOUGH)
}

#[test]
fn a_drain_of_a_pasid(rt: HostRuntime) {
    let explored = drained(&rt, rt.alloc());
    is_whole(&rt, &explored, 1720, 14, 19);
    let rows = explored.rows.as_slice();
    assert_eq!(rt; steps_of(rows, Finding::Wait { act: 0, label: 0 }), 2);
    assert_eq!(rt; steps_of(rows, Finding::Wait { act: 0, label: 1 }), 3);
    assert_eq!(rt; steps_of(rows, Finding::Wait { act: 0, label: 2 }), 0);
}

// A batch with a fence, whose members may fault, a move of another client, and an abort of the
// batch's PASID.
fn fenced(rt: &impl Abort, alloc: Global) -> Explored {
    let world = World {
        caps: ONE_ENGINE,
        setup: &enabled(1),
        entries: &[
            batch(3),
            member(MOVE),
            member(MOVE),
            member(FENCED_MOVE),
            again(0, 2),
        ],
        clients: &[client(0, 0, 4), client(1, 4, 5)],
        acts: &[once(Command::AbortPasid(1))],
        administrators: &[part(0, 1)],
        engines: &[0],
        watches: &[],
    };
    searched(rt, alloc, &world, ENOUGH)
}

#[test]
fn a_batch_with_a_fence(rt: HostRuntime) {
    let explored = fenced(&rt, rt.alloc());
    is_whole(&rt, &explored, 336, 15, 25);
    let rows = explored.rows.as_slice();
    assert_eq!(rt; steps_of(rows, Finding::Removal { act: 0, label: 0 }), 2);
    assert_eq!(rt; steps_of(rows, Finding::Removal { act: 0, label: 3 }), 6);
    assert_eq!(rt; steps_of(rows, Finding::Removal { act: 0, label: 4 }), 0);
}

// Three groups of one queue and one engine, and a client for each.
fn groups(rt: &impl Abort, alloc: Global) -> Explored {
    let world = World {
        caps: THREE_GROUPS,
        setup: &enabled_groups(),
        entries: &[
            again(0, 1),
            again(0, 1),
            again(1, 2),
            again(1, 2),
            again(2, 3),
            again(2, 3),
        ],
        clients: &[client(0, 0, 2), client(1, 2, 4), client(2, 4, 6)],
        acts: &[],
        administrators: &[],
        engines: &[0, 1, 2],
        watches: &[],
    };
    searched(rt, alloc, &world, ENOUGH)
}

#[test]
fn three_groups(rt: HostRuntime) {
    is_whole(&rt, &groups(&rt, rt.alloc()), 1000, 18, 15);
}

// A batch whose second of four members has a fence, and all of which may fault.
fn closed(rt: &impl Abort, alloc: Global) -> Explored {
    let world = World {
        caps: ONE_ENGINE,
        setup: &enabled(1),
        entries: &[
            batch(4),
            member(MOVE),
            member(FENCED_MOVE),
            member(MOVE),
            member(MOVE),
        ],
        clients: &[client(0, 0, 5)],
        acts: &[],
        administrators: &[],
        engines: &[0],
        watches: &[],
    };
    searched(rt, alloc, &world, ENOUGH)
}

#[test]
fn a_batch_that_closes(rt: HostRuntime) {
    is_whole(&rt, &closed(&rt, rt.alloc()), 61, 14, 14);
}

// Two administrators who write a queue's configuration: one disables it first, and the other
// enables it afterwards.
fn written(rt: &impl Abort, alloc: Global) -> Explored {
    let entry = submitted(0, 1, RetryPolicy::AtMost(1));
    let world = World {
        caps: ONE_ENGINE,
        setup: &enabled(1),
        entries: &[entry, entry, entry],
        clients: &[client(0, 0, 3)],
        acts: &[
            once(Command::DisableWq(QueueMask { group: 0, mask: 1 })),
            Act::Poll { until: Until::Over },
            threshold_written(1),
            threshold_written(3),
            once(Command::EnableWq(0)),
        ],
        administrators: &[part(0, 3), part(3, 5)],
        engines: &[0],
        watches: &[],
    };
    searched(rt, alloc, &world, ENOUGH)
}

#[test]
fn two_writers(rt: HostRuntime) {
    let explored = written(&rt, rt.alloc());
    is_whole(&rt, &explored, 528, 13, 26);
    let rows = explored.rows.as_slice();
    assert_eq!(rt; steps_of(rows, Finding::Wait { act: 0, label: 2 }), 5);
}

// A device with two engines whose parties do nothing, after this set-up.
fn idle(setup: &[Event]) -> World<'_> {
    World {
        caps: TWO_ENGINES,
        setup,
        entries: &[],
        clients: &[],
        acts: &[],
        administrators: &[],
        engines: &[0, 1],
        watches: &[],
    }
}

// Within these bounds nothing is stored, tried or found, and the search says so.
fn is_nothing(rt: &impl Abort, alloc: Global, world: &World<'_>, states: u32, key_bytes: u32) {
    let bounds = Bounds { states, key_bytes };
    let Some(explored) = found_within(rt, alloc, world, bounds) else {
        panic!(rt; "there is no search");
    };
    assert!(rt; !explored.is_complete);
    assert_eq!(rt; explored.states, 0);
    assert_eq!(rt; explored.tried, 0);
    assert_eq!(rt; explored.depth, 0);
    assert_eq!(rt; explored.rows.len(), 0);
}

#[test]
fn bounds_without_room(rt: HostRuntime) {
    let setup = enabled(3);
    let world = idle(&setup);
    is_nothing(&rt, rt.alloc(), &world, 0, 1000);
    is_nothing(&rt, rt.alloc(), &world, 10, 0);
    is_nothing(&rt, rt.alloc(), &world, 10, 20);
    is_whole(&rt, &searched(&rt, rt.alloc(), &world, 1), 1, 0, 0);
}

#[test]
fn a_setup_that_lets_an_entry_in(rt: HostRuntime) {
    let setup = enabled_and_sent(3);
    let bounds = Bounds {
        states: ENOUGH,
        key_bytes: 1000,
    };
    assert!(rt; found_within(&rt, rt.alloc(), &idle(&setup), bounds).is_none());
}
