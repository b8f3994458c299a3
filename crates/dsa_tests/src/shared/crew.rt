//! Many workers: each has a thread and a number of its own.

use crate::shared::crowd::CROWDED_CAPS;
use crate::shared::gates::{Hold, Holding, Passes, Several};
use crate::shared::stage::Stage;
use crate::shared::stores::{Trial, over_both_stores};
use crate::shared::working::scripts_for;
use dsa_regs::Caps;
use dsa_shared::Sharing;
use dsa_store::EntryStore;
use dsa_workers::{Gate, RunReport, WorkerEnd};
use std::marker::{Send, Sync};
use std::process::Abort;
use std::sync::Wait;
use std::thread::Threads;
use std::time::Clock;

/// So many clients and engines, and an administrator.
#[derive(Clone, Copy)]
pub struct Crew {
    pub clients: u16,
    pub engines: u16,
}

impl Crew {
    pub fn caps(self) -> Caps {
        Caps {
            engines: self.engines,
            ..CROWDED_CAPS
        }
    }

    fn workers(self) -> usize {
        usize::from(self.clients) + usize::from(self.engines) + 1
    }

    // What this worker does on a device that is not enabled, in so many turns.
    fn does(self, worker: usize, turns: u32) -> (u32, WorkerEnd) {
        let clients = usize::from(self.clients);
        if worker >= clients && worker < clients + usize::from(self.engines) {
            (turns, WorkerEnd::TurnsOut)
        } else {
            (1, WorkerEnd::ScriptDone)
        }
    }

    fn did(self, rt: &impl Abort, report: &RunReport, turns: u32) {
        same!(rt; report.turns.len(), self.workers());
        for (worker, did) in report.turns.iter().zip(&report.ended).enumerate() {
            same!(rt; (*did.0, *did.1), self.does(worker, turns), worker);
        }
    }
}

impl<'a, S, L, R> Stage<'a, S, L, R>
where
    S: EntryStore + Send,
    L: Sharing + Send + Sync,
    R: Threads + Wait + Clock + Abort + Sync,
{
    // Runs all with one step for each client and for the administrator.
    fn run_crew<G: Gate + Sync>(&mut self, crew: Crew, gate: &G, passes: &Passes, turns: u32) {
        let (clients, engines) = (usize::from(crew.clients), usize::from(crew.engines));
        let scripts = scripts_for(self.rt, self.alloc, clients, engines);
        let report = self.run(&scripts, gate, turns).expect(self.rt, "a run");
        crew.did(self.rt, &report, turns);
        passes.are_those_of(self.rt, &report);
    }

    /// No worker begins before all have come.
    pub fn crew_meets(self, crew: Crew) {
        let mut stage = self;
        let all = Several {
            first: 0,
            count: crew.workers(),
        };
        let meeting = [Hold {
            held: all,
            turn: 0,
            until: all,
            often: 1,
        }];
        let made = Holding::new(stage.rt, stage.alloc, crew.workers(), &meeting);
        let gate = made.expect(stage.rt, "memory for a gate");
        stage.run_crew(crew, &gate, &gate.passes, 5);
        gate.was_kept(stage.rt);
        stage.has_steps_of(crew);
    }

    /// Each has a turn.
    pub fn crew_runs(self, crew: Crew) {
        let mut stage = self;
        let made = Passes::new(stage.alloc, crew.workers());
        let gate = made.expect(stage.rt, "memory for a gate");
        stage.run_crew(crew, &gate, &gate, 1);
        stage.has_steps_of(crew);
    }

    // Each client was turned away once.
    fn has_steps_of(self, crew: Crew) {
        let rt = self.rt;
        let totals = self.totals();
        same!(rt; (totals.accepted, totals.steps), (0, u64::from(crew.clients)));
    }
}

#[test]
fn workers_that_meet(rt: HostRuntime) {
    let crew = Crew {
        clients: 24,
        engines: 12,
    };
    over_both_stores(&rt, rt.alloc(), Trial::CrewMeets(crew));
}

// Any number of clients, and of engines.
#[test]
fn numbers_of_workers(rt: HostRuntime) {
    for clients in 1..=64u16 {
        let engines = 65u16.saturating_sub(clients);
        let crew = Crew { clients, engines };
        over_both_stores(&rt, rt.alloc(), Trial::CrewRuns(crew));
    }
}
