//! Sixty-four clients, sixty-four engines and names above a thousand: the answer to each call, by
//! each seat.

use crate::shared::playing::Play;
use crate::shared::steps::{
    accepted, begun, dispatched, ended, fetched, finished, group_written, member, queue_written,
    row, started, submitted, ticket, totals,
};
use crate::shared::stores::{Trial, over_both_stores};
use dsa_book::{
    DispatchAnswer, Fate, FateRow, FetchAnswer, FinishAnswer, Portal, StartAnswer, Step,
    SubmitAnswer, WriteAnswer,
};
use dsa_desc::{Descriptor, Outcome};
use dsa_fixtures::{CAPS, ENQCMD, FENCED_NO_OP, LARGE_MOVE, NO_OP, SHARED_QUEUE, batch_of};
use dsa_regs::{Caps, Command, GroupConfig, QueueConfig};
use std::alloc::Global;
use std::process::Abort;

/// The number of clients, and of engines.
pub const CROWD: u16 = 64;

// The last queue and one group, of which an engine at a time has read buffers.
pub const CROWDED_CAPS: Caps = Caps {
    queues: LAST_QUEUE + 1,
    groups: 1,
    engines: CROWD,
    total_size: 64,
    read_buffers: 4,
    slots: 1,
    ..CAPS
};

const LAST_QUEUE: u16 = 63;

const QUEUE: QueueConfig = QueueConfig {
    size: 64,
    threshold: 64,
    ..SHARED_QUEUE
};

const GROUP: GroupConfig = GroupConfig {
    queues: 1 << LAST_QUEUE,
    engines: u64::MAX,
    reserved: 0,
    allowed: 4,
};

// The names that a round gives: a batch of each client, and three members of each batch.
const NAMES: u32 = 256;

const ROUNDS: u32 = 4;

const DONE: FinishAnswer = FinishAnswer::Done(0x01);

const COMPLETED: Fate = Fate::Completed(0x01);

// Steps with their answers, and the fates that come of them.
#[derive(Drop)]
struct Table {
    steps: Vec<Step>,
    fates: Vec<FateRow>,
}

impl Table {
    fn add(&mut self, rt: &impl Abort, steps: &[Step]) {
        let added = self.steps.extend_from_slice(steps);
        added.expect(rt, "memory for steps");
    }

    // Each client submits, and its entry has the next name.
    fn submit_each(&mut self, rt: &impl Abort, desc: Descriptor, first: u32) {
        for client in 0..CROWD {
            let answer = accepted(after(first, client));
            self.add(rt, &[submission(client, desc, answer)]);
        }
    }

    // Each engine takes the next entry.
    fn take_each(&mut self, rt: &impl Abort, first: u32) {
        for engine in 0..CROWD {
            let taken = DispatchAnswer::Taken {
                ticket: ticket(after(first, engine)),
                queue: LAST_QUEUE,
            };
            self.add(rt, &[dispatched(engine, taken)]);
        }
    }

    // The engine works on its batch from its first member to its end.
    fn work(&mut self, rt: &impl Abort, engine: u16, batch: u32, members: [u32; 3]) {
        self.add(rt, &fetching(engine, members));
        self.add(rt, &running(engine, batch, members));
        self.add(rt, &ending(engine, batch));
        let added = self.fates.extend_from_slice(&fates(batch, members));
        added.expect(rt, "memory for fates");
    }

    // A batch of each client, and each engine takes and ends one. These names begin at `first`.
    fn play_round(&mut self, rt: &impl Abort, first: u32) {
        self.submit_each(rt, batch_of(3), first);
        self.take_each(rt, first);
        let mut name = after(first, CROWD);
        for engine in 0..CROWD {
            let members = [name, after(name, 1), after(name, 2)];
            self.work(rt, engine, after(first, engine), members);
            name = after(name, 3);
        }
    }

    // Each client and each engine finds the history full.
    fn find_full(&mut self, rt: &impl Abort) {
        for number in 0..CROWD {
            self.add(rt, &full(number));
        }
    }
}

fn after(name: u32, count: u16) -> u32 {
    name.saturating_add(u32::from(count))
}

fn submission(client: u16, desc: Descriptor, answer: SubmitAnswer) -> Step {
    submitted(client, LAST_QUEUE, Portal::Limited, ENQCMD, desc, answer)
}

fn finish(engine: u16, name: u32, answer: FinishAnswer) -> Step {
    finished(engine, ticket(name), Outcome::Success, answer)
}

// An engine that has a batch fetches its three members.
fn fetching(engine: u16, [a, b, c]: [u32; 3]) -> [Step; 5] {
    [
        dispatched(engine, DispatchAnswer::Idle),
        member(engine, LARGE_MOVE, a),
        member(engine, LARGE_MOVE, b),
        member(engine, FENCED_NO_OP, c),
        fetched(engine, NO_OP, FetchAnswer::AllFetched),
    ]
}

// It runs them: the first has all read buffers, and the last has a fence.
fn running(engine: u16, batch: u32, [a, b, c]: [u32; 3]) -> [Step; 10] {
    [
        begun(engine, a),
        started(engine, StartAnswer::NoBuffers),
        finish(engine, batch, FinishAnswer::NotReady),
        finish(engine, a, DONE),
        begun(engine, b),
        started(engine, StartAnswer::FenceWait),
        finish(engine, b, DONE),
        begun(engine, c),
        started(engine, StartAnswer::Nothing),
        finish(engine, c, DONE),
    ]
}

// It ends the batch, and has nothing to do.
fn ending(engine: u16, batch: u32) -> [Step; 5] {
    [
        finish(engine, batch, DONE),
        finish(engine, batch, FinishAnswer::Gone),
        fetched(engine, NO_OP, FetchAnswer::NoBatch),
        started(engine, StartAnswer::Nothing),
        dispatched(engine, DispatchAnswer::Idle),
    ]
}

fn fates(batch: u32, [a, b, c]: [u32; 3]) -> [FateRow; 4] {
    [
        row(a, Some(batch), COMPLETED),
        row(b, Some(batch), COMPLETED),
        row(c, Some(batch), COMPLETED),
        row(batch, None, COMPLETED),
    ]
}

// A client and an engine of this number.
fn full(number: u16) -> [Step; 5] {
    [
        submission(number, NO_OP, SubmitAnswer::Full),
        dispatched(number, DispatchAnswer::Full),
        fetched(number, NO_OP, FetchAnswer::Full),
        started(number, StartAnswer::Full),
        finish(number, 0, FinishAnswer::Full),
    ]
}

fn set_up() -> [Step; 4] {
    [
        queue_written(LAST_QUEUE, QUEUE, WriteAnswer::Written),
        group_written(0, GROUP, WriteAnswer::Written),
        ended(Command::EnableDevice, 0),
        ended(Command::EnableWq(u32::from(LAST_QUEUE)), 0),
    ]
}

// Rounds, and then entries that stay in the queue.
fn crowded(rt: &impl Abort, alloc: Global) -> Table {
    let mut table = Table {
        steps: Vec::new(alloc),
        fates: Vec::new(alloc),
    };
    table.add(rt, &set_up());
    for round in 0..ROUNDS {
        table.play_round(rt, round * NAMES);
    }
    table.submit_each(rt, NO_OP, ROUNDS * NAMES);
    table.find_full(rt);
    table
}

#[test]
fn many_seats_and_names(rt: HostRuntime) {
    let table = crowded(&rt, rt.alloc());
    let play = Play {
        capacity: 3_140,
        steps: &table.steps,
        fates: &table.fates,
        totals: totals(320, 768, 0, 1_024, 0, 64, 3_140),
    };
    over_both_stores(&rt, rt.alloc(), Trial::Crowd(play));
}
