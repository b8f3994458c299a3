//! What random walks find, beside what a search of the same world finds.

use crate::worlds::{
    ONE_ENGINE, TWO_ENGINES, World, client, enabled, enabled_and_sent, once, part, submitted,
};
use dsa_explore::{Bounds, Explored, Finding, Found, Plan, Sampled, Walks, explore, sample};
use dsa_parties::{Act, RetryPolicy, Script, ScriptEntry, Until};
use dsa_regs::Command;
use std::alloc::Global;
use std::process::Abort;

// A move that is submitted until it is accepted.
fn again(queue: u16, pasid: u32) -> ScriptEntry {
    submitted(queue, pasid, RetryPolicy::Again)
}

// So many walks with a seed, all of them.
fn all_of(count: u32, seed: u64) -> Walks {
    Walks {
        count,
        seed,
        shard: 0,
        shards: 1,
    }
}

fn script_of(rt: &impl Abort, alloc: Global, world: &World<'_>) -> Script {
    match world.script(alloc) {
        Ok(Some(script)) => script,
        _ => panic!(rt; "there is no script"),
    }
}

// What these walks find, if they can begin.
fn found_by(rt: &impl Abort, alloc: Global, world: &World<'_>, walks: Walks) -> Option<Sampled> {
    let script = script_of(rt, alloc, world);
    let plan = Plan {
        caps: world.caps,
        script: &script,
        setup: world.setup,
    };
    match sample(alloc, &plan, walks) {
        Ok(found) => found,
        Err(_) => panic!(rt; "out of memory"),
    }
}

fn sampled(rt: &impl Abort, alloc: Global, world: &World<'_>, walks: Walks) -> Sampled {
    match found_by(rt, alloc, world, walks) {
        Some(sampled) => sampled,
        None => panic!(rt; "there are no walks"),
    }
}

// What a search of the world finds.
fn searched(rt: &impl Abort, alloc: Global, world: &World<'_>) -> Explored {
    let script = script_of(rt, alloc, world);
    let plan = Plan {
        caps: world.caps,
        script: &script,
        setup: world.setup,
    };
    let bounds = Bounds {
        states: 4000,
        key_bytes: 1000,
    };
    match explore(alloc, &plan, bounds) {
        Ok(Some(explored)) => explored,
        _ => panic!(rt; "there is no search"),
    }
}

// With how many steps the finding may come, and 0 where it is no row.
fn steps_of(rows: &[Found], finding: Finding) -> u32 {
    for row in rows {
        if row.finding == finding {
            return row.steps;
        }
    }
    0
}

// Each row of the walks is one of the search, with no fewer steps, and they have as many rows.
fn finds_all(rt: &impl Abort, alloc: Global, world: &World<'_>, walks: Walks) {
    let by_walks = sampled(rt, alloc, world, walks);
    let by_search = searched(rt, alloc, world);
    assert!(rt; !by_walks.explored.is_complete);
    assert_eq!(rt; by_walks.explored.states, 0);
    assert_eq!(rt; by_walks.explored.rows.len(), by_search.rows.len());
    for row in &by_walks.explored.rows {
        let least = steps_of(by_search.rows.as_slice(), row.finding);
        assert!(rt; least > 0);
        assert!(rt; least <= row.steps);
    }
}

// Two clients with two moves each, and one engine. Each of the four moves is submitted, taken and
// ended, in every order: 12 steps.
#[test]
fn two_clients(rt: HostRuntime) {
    let world = World {
        caps: ONE_ENGINE,
        setup: &enabled(1),
        entries: &[again(0, 1), again(0, 1), again(0, 2), again(0, 2)],
        clients: &[client(0, 0, 2), client(1, 2, 4)],
        acts: &[],
        administrators: &[],
        engines: &[0],
        watches: &[],
    };
    let alloc = rt.alloc();
    finds_all(&rt, alloc, &world, all_of(200, 0));
    let found = sampled(&rt, alloc, &world, all_of(100, 0));
    assert_eq!(&rt; found.walks, 100);
    assert_eq!(&rt; found.explored.tried, 1200);
    assert_eq!(&rt; found.explored.depth, 12);
    let none = sampled(&rt, alloc, &world, all_of(0, 0));
    assert_eq!(&rt; none.walks, 0);
    assert_eq!(&rt; none.explored.tried, 0);
    assert_eq!(&rt; none.explored.rows.len(), 0);
    let no_shards = Walks {
        shards: 0,
        ..all_of(100, 0)
    };
    assert_eq!(&rt; sampled(&rt, alloc, &world, no_shards).walks, 0);
}

// The same with two engines, and a drain of the first client's PASID, which is polled until it is
// over. Three shards make the walks of all, whatever the seed is.
// What some walks found, all found, with as few steps or fewer.
fn is_part_of(rt: &impl Abort, some: &Explored, all: &Explored) {
    for row in &some.rows {
        let least = steps_of(all.rows.as_slice(), row.finding);
        assert!(rt; least > 0);
        assert!(rt; least <= row.steps);
    }
}

#[test]
fn shards_of_a_drain(rt: HostRuntime) {
    let world = World {
        caps: TWO_ENGINES,
        setup: &enabled(3),
        entries: &[again(0, 1), again(0, 1), again(0, 2), again(0, 2)],
        clients: &[client(0, 0, 2), client(1, 2, 4)],
        acts: &[
            once(Command::DrainPasid(1)),
            Act::Poll { until: Until::Over },
        ],
        administrators: &[part(0, 2)],
        engines: &[0, 1],
        watches: &[],
    };
    let alloc = rt.alloc();
    finds_all(&rt, alloc, &world, all_of(400, 7));
    let whole = sampled(&rt, alloc, &world, all_of(10, 7));
    let mut walks: u32 = 0;
    let mut steps: u64 = 0;
    for shard in 0..3 {
        let part = Walks {
            shard,
            shards: 3,
            ..all_of(10, 7)
        };
        let found = sampled(&rt, alloc, &world, part);
        walks = walks.saturating_add(found.walks);
        steps = steps.saturating_add(found.explored.tried);
        is_part_of(&rt, &found.explored, &whole.explored);
    }
    assert_eq!(&rt; walks, 10);
    assert_eq!(&rt; steps, whole.explored.tried);
    let other = sampled(&rt, alloc, &world, all_of(10, 8));
    assert!(&rt;
        other.explored.tried != whole.explored.tried
            || other.explored.rows.len() != whole.explored.rows.len()
    );
}

#[test]
fn a_setup_that_lets_an_entry_in(rt: HostRuntime) {
    let setup = enabled_and_sent(1);
    let world = World {
        caps: ONE_ENGINE,
        setup: &setup,
        entries: &[],
        clients: &[],
        acts: &[],
        administrators: &[],
        engines: &[0],
        watches: &[],
    };
    assert!(&rt; found_by(&rt, rt.alloc(), &world, all_of(1, 0)).is_none());
}
