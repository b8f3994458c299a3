//! Workers in threads.

use crate::shared::gates::{Hold, Holding, Passes, Several};
use crate::shared::stage::Stage;
use crate::shared::stores::{Trial, over_both_stores};
use dsa_book::{Kind, Portal};
use dsa_desc::{Descriptor, Outcome};
use dsa_fixtures::{ENQCMD, MOVE, NO_OP, bytes_of};
use dsa_regs::Command;
use dsa_shared::{ClientSeat, Sharing};
use dsa_store::EntryStore;
use dsa_workers::{ClientStep, EngineScript, Gate, RunFault, RunReport, Scripts, WorkerEnd};
use std::alloc::Global;
use std::marker::{Send, Sync};
use std::process::Abort;
use std::sync::Wait;
use std::thread::Threads;
use std::time::Clock;

const ENGINE: EngineScript = EngineScript {
    member: NO_OP,
    outcome: Outcome::Success,
};

// The steps of a long script.
const LONG: usize = 5_000;

const CLIENTS: Several = Several { first: 0, count: 2 };

const ENGINES: Several = Several { first: 2, count: 2 };

const ADMIN: Several = Several { first: 4, count: 1 };

const ALL: Several = Several { first: 0, count: 5 };

// No worker begins before all have come, and the engines work once the clients are done.
const MEETING: [Hold; 2] = [
    Hold {
        held: ALL,
        turn: 0,
        until: ALL,
        often: 1,
    },
    Hold {
        held: ENGINES,
        turn: 0,
        until: CLIENTS,
        often: 2,
    },
];

// The clients begin once the engines have had eight turns, which go on once the clients are done.
const IDLE_AT_FIRST: [Hold; 2] = [
    Hold {
        held: CLIENTS,
        turn: 0,
        until: ENGINES,
        often: 9,
    },
    Hold {
        held: ENGINES,
        turn: 8,
        until: CLIENTS,
        often: 2,
    },
];

// The administrator begins once the clients are done. The engines begin once it has had five turns,
// and it goes on once they have had all theirs.
const ACTIVE_AT_FIRST: [Hold; 3] = [
    Hold {
        held: ADMIN,
        turn: 0,
        until: CLIENTS,
        often: 2,
    },
    Hold {
        held: ENGINES,
        turn: 0,
        until: ADMIN,
        often: 6,
    },
    Hold {
        held: ADMIN,
        turn: 5,
        until: ENGINES,
        often: 101,
    },
];

// To the limited portal of a queue.
fn submission(queue: u16, kind: Kind, desc: Descriptor) -> ClientStep {
    ClientStep {
        queue,
        portal: Portal::Limited,
        kind,
        bytes: bytes_of(desc),
    }
}

// So often to the queue.
fn often(rt: &impl Abort, alloc: Global, step: ClientStep, count: usize) -> Vec<ClientStep> {
    Vec::from_elem(alloc, step, count).expect(rt, "memory for a script")
}

// So often by ENQCMD to the shared queue.
fn enqueued(rt: &impl Abort, alloc: Global, desc: Descriptor, count: usize) -> Vec<ClientStep> {
    often(rt, alloc, submission(0, ENQCMD, desc), count)
}

// So often by MOVDIR64B to the dedicated queue.
fn posted(rt: &impl Abort, alloc: Global, count: usize) -> Vec<ClientStep> {
    often(rt, alloc, submission(1, Kind::Movdir64b, NO_OP), count)
}

fn engines(rt: &impl Abort, alloc: Global, count: usize) -> Vec<EngineScript> {
    Vec::from_elem(alloc, ENGINE, count).expect(rt, "memory for scripts")
}

// The scripts of two clients, of two engines and of an administrator.
fn scripts_of(
    rt: &impl Abort,
    alloc: Global,
    first: Vec<ClientStep>,
    second: Vec<ClientStep>,
    commands: &[Command],
) -> Scripts {
    let mut clients = Vec::new(alloc);
    clients.push(first).expect(rt, "memory for scripts");
    clients.push(second).expect(rt, "memory for scripts");
    let mut admin = Vec::new(alloc);
    let more = admin.extend_from_slice(commands);
    more.expect(rt, "memory for a script");
    Scripts {
        clients,
        engines: engines(rt, alloc, 2),
        admin,
    }
}

// Twenty submissions to each queue, a drain and an abort.
fn busy(rt: &impl Abort, alloc: Global) -> Scripts {
    let commands = [Command::DrainAll, Command::AbortPasid(5)];
    let moves = enqueued(rt, alloc, MOVE, 20);
    scripts_of(rt, alloc, moves, posted(rt, alloc, 20), &commands)
}

// One No-op of each of two clients, and these commands.
fn one_each(rt: &impl Abort, alloc: Global, commands: &[Command]) -> Scripts {
    let first = enqueued(rt, alloc, NO_OP, 1);
    scripts_of(rt, alloc, first, enqueued(rt, alloc, NO_OP, 1), commands)
}

// So many submissions of each client, and as many commands for a queue that is not there.
fn long(rt: &impl Abort, alloc: Global) -> Scripts {
    let commands = Vec::from_elem(alloc, Command::EnableWq(9), LONG).expect(rt, "memory");
    let first = enqueued(rt, alloc, NO_OP, LONG);
    scripts_of(rt, alloc, first, posted(rt, alloc, LONG), &commands)
}

/// Scripts for some numbers of seats, each of one step.
pub fn scripts_for(rt: &impl Abort, alloc: Global, clients: usize, count: usize) -> Scripts {
    let mut scripts = Vec::new(alloc);
    for _client in 0..clients {
        let script = enqueued(rt, alloc, NO_OP, 1);
        scripts.push(script).expect(rt, "memory for scripts");
    }
    Scripts {
        clients: scripts,
        engines: engines(rt, alloc, count),
        admin: Vec::from_elem(alloc, Command::DrainAll, 1).expect(rt, "memory for a script"),
    }
}

// How many turns each of five workers had, and how it ended.
type Five = [(u32, WorkerEnd); 5];

// What five workers did.
fn five(rt: &impl Abort, report: &RunReport) -> Five {
    assert!(rt; report.turns.len() == 5);
    assert!(rt; report.ended.len() == 5);
    let mut items = [(0, WorkerEnd::TurnsOut); 5];
    for k in 0..5usize {
        items[k] = (report.turns[k], report.ended[k]);
    }
    items
}

// No client has more submissions accepted than its script has.
fn accept_no_more<L: Sharing>(
    rt: &impl Abort,
    seats: &[ClientSeat<L>],
    scripts: &[Vec<ClientStep>],
) {
    for (seat, script) in seats.iter().zip(scripts) {
        claim!(rt; seat.accepted() <= script.len() as u64);
    }
}

fn were_busy(rt: &impl Abort, five: Five) {
    let [client, poster, engine, other, admin] = five;
    claim!(rt; client.1 != WorkerEnd::HistoryFull);
    same!(rt; poster, (20, WorkerEnd::ScriptDone));
    same!(rt; engine, (2_000, WorkerEnd::TurnsOut));
    same!(rt; other, (2_000, WorkerEnd::TurnsOut));
    claim!(rt; admin.1 != WorkerEnd::HistoryFull);
}

// Each client made its step, and the engines and the administrator had so many turns.
fn have_met(rt: &impl Abort, five: Five, turns: u32) {
    let client = (1, WorkerEnd::ScriptDone);
    let engine = (100, WorkerEnd::TurnsOut);
    let admin = (turns, WorkerEnd::ScriptDone);
    same!(rt; five, [client, client, engine, engine, admin]);
}

// No worker had more than so many turns.
fn had_no_more(rt: &impl Abort, five: &Five, turns: u32) {
    for (had, _) in five {
        claim!(rt; *had <= turns);
    }
}

impl<'a, S, L, R> Stage<'a, S, L, R>
where
    S: EntryStore + Send,
    L: Sharing + Send + Sync,
    R: Threads + Wait + Clock + Abort + Sync,
{
    // What five workers do, whose passes are counted.
    fn five<G: Gate + Sync>(
        &mut self,
        scripts: &Scripts,
        gate: &G,
        passes: &Passes,
        turns: u32,
    ) -> Five {
        let rt = self.rt;
        let report = self.run(scripts, gate, turns).expect(rt, "a run");
        passes.are_those_of(rt, &report);
        five(rt, &report)
    }

    // The same once the device and its queues are enabled.
    fn work<G: Gate + Sync>(
        &mut self,
        scripts: &Scripts,
        gate: &G,
        passes: &Passes,
        turns: u32,
    ) -> Five {
        self.set_up();
        let five = self.five(scripts, gate, passes, turns);
        accept_no_more(self.rt, &self.seats.clients, &scripts.clients);
        had_no_more(self.rt, &five, turns);
        five
    }

    fn passes(&self) -> Passes {
        Passes::new(self.alloc, 5).expect(self.rt, "memory for a gate")
    }

    // The same with the busy scripts.
    fn work_busily(&mut self) -> Five {
        let gate = self.passes();
        let scripts = busy(self.rt, self.alloc);
        self.work(&scripts, &gate, &gate, 2_000)
    }

    /// Two clients, two engines and an administrator.
    pub fn busy_run(self) {
        let mut stage = self;
        let rt = stage.rt;
        let five = stage.work_busily();
        let totals = stage.totals();
        same!(rt; totals.fetched, 0);
        were_busy(rt, five);
    }

    /// The same with a history that fills while they run: the clients alone have more steps to make
    /// than it has room for.
    pub fn history_fills(self) {
        let mut stage = self;
        let rt = stage.rt;
        let [client, poster, _, _, _] = stage.work_busily();
        let totals = stage.totals();
        same!(rt; totals.steps, 40);
        claim!(rt; client.1 == WorkerEnd::HistoryFull || poster.1 == WorkerEnd::HistoryFull);
    }

    // One No-op of each of two clients, and these commands, with workers that are held.
    fn work_held(&mut self, commands: &[Command], holds: &[Hold]) -> Five {
        let rt = self.rt;
        let scripts = one_each(rt, self.alloc, commands);
        let made = Holding::new(rt, self.alloc, 5, holds);
        let gate = made.expect(rt, "memory for a gate");
        let five = self.work(&scripts, &gate, &gate.passes, 100);
        gate.was_kept(rt);
        five
    }

    // The same. All entries are done, and the administrator has had so many turns.
    fn all_is_done(self, commands: &[Command], holds: &[Hold], turns: u32) {
        let mut stage = self;
        let rt = stage.rt;
        let five = stage.work_held(commands, holds);
        have_met(rt, five, turns);
        let totals = stage.totals();
        same!(rt; (totals.accepted, totals.done, totals.held), (2, 2, 0));
    }

    /// One No-op of each of two clients. No worker begins before all have come, and the engines
    /// work once the clients are done.
    pub fn workers_meet(self) {
        self.all_is_done(&[], &MEETING, 0);
    }

    /// The same with engines that find nothing to do at first.
    pub fn engines_are_idle_at_first(self) {
        self.all_is_done(&[], &IDLE_AT_FIRST, 0);
    }

    /// The same with a command that is active until the engines are done: it is issued, four polls
    /// find it active, and the fifth that it is over.
    pub fn command_is_active_at_first(self) {
        self.all_is_done(&[Command::DrainAll], &ACTIVE_AT_FIRST, 6);
    }

    // The run of these scripts is refused, for their number.
    fn do_not_fit(&mut self, gate: &Passes, clients: usize, engines: usize) {
        let scripts = scripts_for(self.rt, self.alloc, clients, engines);
        let fault = self.run(&scripts, gate, 10).err();
        let found = (clients, engines, fault);
        same!(self.rt; found, (clients, engines, Some(RunFault::ScriptCount)));
    }

    // Too few or too many scripts for the clients or the engines.
    fn none_fits(&mut self, gate: &Passes) {
        for (clients, engines) in [(1, 2), (3, 2), (0, 2), (2, 1), (2, 3), (2, 0)] {
            self.do_not_fit(gate, clients, engines);
        }
    }

    // None fits, and then there is no administrator's seat.
    fn are_refused(&mut self) {
        let gate = self.passes();
        self.none_fits(&gate);
        let admin = self.seats.admin.take();
        self.do_not_fit(&gate, 2, 2);
        self.seats.admin = admin;
        gate.are_none(self.rt);
    }

    // Five workers with these scripts and so many turns do this.
    fn do_this(&mut self, scripts: &Scripts, turns: u32, expected: Five) {
        let gate = self.passes();
        let five = self.five(scripts, &gate, &gate, turns);
        same!(self.rt; five, expected);
    }

    // Scripts without turns for them.
    fn have_no_turns(&mut self) {
        let scripts = scripts_for(self.rt, self.alloc, 2, 2);
        self.do_this(&scripts, 0, [(0, WorkerEnd::TurnsOut); 5]);
    }

    /// Scripts of many steps, none of which comes again.
    pub fn scripts_are_long(self) {
        let mut stage = self;
        let rt = stage.rt;
        let scripts = long(rt, stage.alloc);
        let done = (LONG as u32, WorkerEnd::ScriptDone);
        let served = (2 * LONG as u32, WorkerEnd::TurnsOut);
        stage.do_this(&scripts, served.0, [done, done, served, served, done]);
        let totals = stage.totals();
        same!(rt; (totals.accepted, totals.steps), (0, 2 * LONG as u64));
    }

    // Empty scripts.
    fn have_no_steps(&mut self) {
        let alloc = self.alloc;
        let scripts = scripts_of(self.rt, alloc, Vec::new(alloc), Vec::new(alloc), &[]);
        let done = (0, WorkerEnd::ScriptDone);
        let served = (10, WorkerEnd::TurnsOut);
        self.do_this(&scripts, 10, [done, done, served, served, done]);
    }

    /// Scripts that do not fit the seats, then scripts without turns for them, and then empty ones.
    pub fn nothing_is_done(self) {
        let mut stage = self;
        let rt = stage.rt;
        stage.are_refused();
        stage.have_no_turns();
        stage.have_no_steps();
        let totals = stage.totals();
        same!(rt; totals.steps, 0);
    }
}

const SHORT: [Trial; 6] = [
    Trial::BusyRun,
    Trial::HistoryFills,
    Trial::WorkersMeet,
    Trial::IdleAtFirst,
    Trial::ActiveAtFirst,
    Trial::NothingIsDone,
];

#[test]
fn workers(rt: HostRuntime) {
    for trial in SHORT {
        over_both_stores(&rt, rt.alloc(), trial);
    }
}

#[test]
fn long_scripts(rt: HostRuntime) {
    over_both_stores(&rt, rt.alloc(), Trial::LongScripts);
}
