//! Rounds of sixteen clients, eight engines, and an administrator who stops, drains and aborts.

use crate::shared::gates::Yielding;
use crate::shared::stage::Stage;
use crate::shared::steps::{ended, group_written, queue_written};
use crate::shared::stores::{Trial, over_both_stores};
use dsa_book::{Kind, Portal, Step, WriteAnswer};
use dsa_desc::{Descriptor, Outcome};
use dsa_fixtures::{FENCED_MOVE, FENCED_NO_OP, MOVE, NO_OP, batch_of, bytes_of};
use dsa_regs::{Caps, Command, GroupConfig, QueueConfig, QueueMask};
use dsa_shared::{ClientSeat, Sharing};
use dsa_store::EntryStore;
use dsa_workers::{ClientStep, EngineScript, Scripts};
use std::alloc::Global;
use std::marker::{Send, Sync};
use std::process::Abort;
use std::sync::Wait;
use std::thread::Threads;
use std::time::Clock;

pub const SOAKING_CLIENTS: u16 = 16;

// Room for all that workers with these turns can do.
pub const SOAKED_CAPACITY: u64 = 310_000;

const ENGINES: u16 = 8;

// Submissions of each client.
const EACH: usize = 1_000;

const TURNS: u32 = 12_000;

const ROUNDS: u32 = 16;

// Four queues, each with a group of its own and two engines.
pub const SOAKED_CAPS: Caps = Caps {
    queues: 4,
    groups: 4,
    engines: ENGINES,
    total_size: 64,
    read_buffers: 64,
    slots: 4,
    max_batch_shift: 3,
    max_xfer_shift: 20,
};

fn queue_config(queue: u16) -> QueueConfig {
    QueueConfig {
        size: 16,
        threshold: 8,
        dedicated: queue == 3,
        priority: 1,
        pasid: 40,
        max_batch_shift: 3,
        max_xfer_shift: 20,
    }
}

fn group_config(group: u16) -> GroupConfig {
    GroupConfig {
        queues: 1 << (group % 4),
        engines: 3 << (2 * (group % 4)),
        reserved: 4,
        allowed: 16,
    }
}

fn masked(mask: u16) -> QueueMask {
    QueueMask { group: 0, mask }
}

// What the administrator does again and again: each queue is stopped and enabled once more.
fn commands() -> [Command; 12] {
    [
        Command::DrainAll,
        Command::AbortPasid(3),
        Command::DisableWq(masked(1)),
        Command::EnableWq(0),
        Command::DrainWq(masked(6)),
        Command::AbortWq(masked(2)),
        Command::DrainPasid(5),
        Command::DisableWq(masked(8)),
        Command::EnableWq(3),
        Command::AbortPasid(40),
        Command::EnableDevice,
        Command::AbortAll,
    ]
}

// The descriptor at a place of a client's script.
fn desc_at(place: usize) -> Descriptor {
    match place % 5 {
        0 => batch_of(3),
        1 | 2 => MOVE,
        3 => batch_of(1),
        _ => NO_OP,
    }
}

// By MOVDIR64B to the dedicated queue, and else by ENQCMD.
fn kind_of(client: u16) -> Kind {
    if client % 4 == 3 {
        Kind::Movdir64b
    } else {
        Kind::Enqcmd {
            pasid: u32::from(client),
        }
    }
}

fn portal_of(client: u16) -> Portal {
    if client < 8 {
        Portal::Limited
    } else {
        Portal::Unlimited
    }
}

// A client's submissions, to the dedicated queue where its number says so.
fn script_of(rt: &impl Abort, alloc: Global, client: u16) -> Vec<ClientStep> {
    let (queue, kind, portal) = (client % 4, kind_of(client), portal_of(client));
    let mut script = Vec::new(alloc);
    for place in 0..EACH {
        let bytes = bytes_of(desc_at(place));
        let step = ClientStep {
            queue,
            portal,
            kind,
            bytes,
        };
        script.push(step).expect(rt, "memory for a script");
    }
    script
}

fn client_scripts(rt: &impl Abort, alloc: Global) -> Vec<Vec<ClientStep>> {
    let mut scripts = Vec::new(alloc);
    for client in 0..SOAKING_CLIENTS {
        let script = script_of(rt, alloc, client);
        scripts.push(script).expect(rt, "memory for scripts");
    }
    scripts
}

// Some engines hand in members with fences, and some of these tell of page faults.
fn engine_script(engine: u16) -> EngineScript {
    let (member, outcome) = match engine % 4 {
        0 => (FENCED_NO_OP, Outcome::Success),
        1 => (FENCED_MOVE, Outcome::PageFault),
        _ => (MOVE, Outcome::Success),
    };
    EngineScript { member, outcome }
}

fn engine_scripts(rt: &impl Abort, alloc: Global) -> Vec<EngineScript> {
    let mut scripts = Vec::new(alloc);
    for engine in 0..ENGINES {
        let script = engine_script(engine);
        scripts.push(script).expect(rt, "memory for scripts");
    }
    scripts
}

fn admin_script(rt: &impl Abort, alloc: Global) -> Vec<Command> {
    let mut script = Vec::new(alloc);
    for _again in 0..50 {
        let more = script.extend_from_slice(&commands());
        more.expect(rt, "memory for a script");
    }
    script
}

fn queue(number: u16) -> Step {
    queue_written(number, queue_config(number), WriteAnswer::Written)
}

fn group(number: u16) -> Step {
    group_written(number, group_config(number), WriteAnswer::Written)
}

// What configures four queues and their groups.
fn configured() -> [Step; 8] {
    [
        queue(0),
        group(0),
        queue(1),
        group(1),
        queue(2),
        group(2),
        queue(3),
        group(3),
    ]
}

// What enables the device and its queues.
fn enabled() -> [Step; 5] {
    [
        ended(Command::EnableDevice, 0),
        ended(Command::EnableWq(0), 0),
        ended(Command::EnableWq(1), 0),
        ended(Command::EnableWq(2), 0),
        ended(Command::EnableWq(3), 0),
    ]
}

fn scripts(rt: &impl Abort, alloc: Global) -> Scripts {
    Scripts {
        clients: client_scripts(rt, alloc),
        engines: engine_scripts(rt, alloc),
        admin: admin_script(rt, alloc),
    }
}

// How many submissions of the clients were accepted.
fn accepted_of<L: Sharing, R: Abort>(rt: &R, seats: &[ClientSeat<L>]) -> u64 {
    let mut accepted = 0u64;
    for seat in seats {
        claim!(rt; seat.accepted() <= EACH as u64);
        accepted = accepted.saturating_add(seat.accepted());
    }
    accepted
}

// No worker had more turns than there are.
fn had_no_more<R: Abort>(rt: &R, turns: &[u32]) {
    for had in turns {
        claim!(rt; *had <= TURNS);
    }
}

impl<'a, S, L, R> Stage<'a, S, L, R>
where
    S: EntryStore + Send,
    L: Sharing + Send + Sync,
    R: Threads + Wait + Clock + Abort + Sync,
{
    /// Runs the workers, and adds up what they did.
    pub fn soaked(self) {
        let mut stage = self;
        let rt = stage.rt;
        stage.enable_four();
        let accepted = stage.soak();
        let totals = stage.totals();
        same!(rt; totals.accepted, accepted);
    }

    // Configures and enables the device and its queues.
    fn enable_four(&mut self) {
        self.make(&configured());
        self.make(&enabled());
    }

    // How many submissions of the clients are accepted in a run.
    fn soak(&mut self) -> u64 {
        let rt = self.rt;
        let gate = Yielding {
            clients: usize::from(SOAKING_CLIENTS),
        };
        let scripts = scripts(rt, self.alloc);
        let ran = self.run(&scripts, &gate, TURNS);
        let report = ran.expect(rt, "a run");
        had_no_more(rt, &report.turns);
        accepted_of(rt, &self.seats.clients)
    }
}

#[test]
fn many_rounds(rt: HostRuntime) {
    for _round in 0..ROUNDS {
        over_both_stores(&rt, rt.alloc(), Trial::Soak);
    }
}
