//! All workers at once.

ghost use Rattle.std.specs.Prelude.{◌≡◌, ◌<◌, ◌+◌, ◌^◌, All, length, vec_len};
ghost use Rattle.dsa_workers.specs.Calls.{HasRoomForTickets};
ghost use Rattle.dsa_workers.specs.Workers.{RunsClients, RunsEngines, RunsAdmin};

use crate::lanes::Lane;
use crate::pairs::join_pair;
use crate::scripts::{ClientStep, EngineScript, Gate, Run, Scripts};
use dsa_regs::Command;
use dsa_shared::{AdminSeat, ClientSeat, EngineSeat, Sharing};
use dsa_store::EntryStore;
use std::alloc::Allocator;
use std::marker::{Send, Sync};
use std::sync::Wait;
use std::thread::Threads;

/// The lanes of the engines and of the administrator.
#[derive(Drop)]
pub struct Rest<L: Sharing, A: Allocator> {
    pub engines: Vec<Lane<EngineSeat<L>, A>, A>,
    pub admin: Lane<AdminSeat<L>, A>,
}

impl<S: EntryStore + Send, L: Sharing + Send + Sync, G: Gate + Sync> Run<'_, S, L, G> {
    fn run_engine_lanes<A: Allocator + Send, R: Threads + Wait + Sync>(
        &self,
        rt: &R,
        first: usize,
        scripts: &[EngineScript],
        lanes: &mut Vec<Lane<EngineSeat<L>, A>, A>,
    )
        requires scripts { vec_len lanes.old ≡ length scripts.now }
        requires workers { first + vec_len lanes.old < 2 ^ 64 }
        requires tickets { All (λ l. HasRoomForTickets l.tickets self.now.turns) lanes.old.items }
        ensures runs { RunsEngines L.caps L.capacity scripts.now self.now.turns lanes.old.items
            lanes.new.items }
        ensures len { vec_len lanes.new ≡ vec_len lanes.old }
    {
        self.run_engines(rt, first, scripts, lanes.as_mut_slice());
    }

    // Runs the engines and the administrator, each in a thread of its own.
    fn run_rest<A: Allocator + Send, R: Threads + Wait + Sync>(
        &self,
        rt: &R,
        first: usize,
        last: usize,
        scripts: &[EngineScript],
        commands: &[Command],
        rest: &mut Rest<L, A>,
    )
        requires scripts { vec_len rest.old.engines ≡ length scripts.now }
        requires workers { first + vec_len rest.old.engines < 2 ^ 64 }
        requires tickets { All (λ l. HasRoomForTickets l.tickets self.now.turns)
            rest.old.engines.items }
        ensures engines { RunsEngines L.caps L.capacity scripts.now self.now.turns
            rest.old.engines.items rest.new.engines.items }
        ensures len { vec_len rest.new.engines ≡ vec_len rest.old.engines }
        ensures admin { RunsAdmin L.caps L.capacity commands.now self.now.turns rest.old.admin.seat
            rest.new.admin.seat rest.new.admin.stint }
    {
        let Rest { engines, admin } = rest;
        let run = self;
        let run_them = |_at: usize, lanes: &mut Vec<Lane<EngineSeat<L>, A>, A>|
            requires scripts { vec_len lanes.old ≡ length scripts.now }
            requires workers { first + vec_len lanes.old < 2 ^ 64 }
            requires tickets { All (λ l. HasRoomForTickets l.tickets run.now.turns)
                lanes.old.items }
            ensures runs { RunsEngines L.caps L.capacity scripts.entry.now run.entry.now.turns
                lanes.old.items lanes.new.items }
            ensures len { vec_len lanes.new ≡ vec_len lanes.old }
        { run.run_engine_lanes(rt, first, scripts, lanes) };
        let run_it = |_at: usize, lane: &mut Lane<AdminSeat<L>, A>|
            ensures { RunsAdmin L.caps L.capacity commands.entry.now run.entry.now.turns
                lane.old.seat lane.new.seat lane.new.stint }
        { run.run_admin_lane(rt, last, commands, lane) };
        join_pair(rt, &run_them, engines, &run_it, admin);
    }

    fn run_client_lanes<A: Allocator + Send, R: Threads + Wait + Sync>(
        &self,
        rt: &R,
        scripts: &[Vec<ClientStep>],
        lanes: &mut Vec<Lane<ClientSeat<L>, A>, A>,
    )
        requires { vec_len lanes.old ≡ length scripts.now }
        ensures runs { RunsClients L.caps L.capacity scripts.now self.now.turns lanes.old.items
            lanes.new.items }
        ensures len { vec_len lanes.new ≡ vec_len lanes.old }
    {
        self.run_clients(rt, scripts, lanes.as_mut_slice());
    }

    /// Runs all workers, each in a thread of its own. Where a thread is refused, its worker runs
    /// after another one.
    pub fn run_all<A: Allocator + Send, R: Threads + Wait + Sync>(
        &self,
        rt: &R,
        scripts: &Scripts,
        clients: &mut Vec<Lane<ClientSeat<L>, A>, A>,
        rest: &mut Rest<L, A>,
    )
        requires scripts { (vec_len clients.old ≡ vec_len scripts.now.clients)
            × (vec_len rest.old.engines ≡ vec_len scripts.now.engines) }
        requires workers { vec_len clients.old + vec_len rest.old.engines < 2 ^ 64 }
        requires tickets { All (λ l. HasRoomForTickets l.tickets self.now.turns)
            rest.old.engines.items }
        ensures clients { RunsClients L.caps L.capacity scripts.now.clients.items self.now.turns
            clients.old.items clients.new.items }
        ensures engines { RunsEngines L.caps L.capacity scripts.now.engines.items self.now.turns
            rest.old.engines.items rest.new.engines.items }
        ensures len { (vec_len clients.new ≡ vec_len clients.old)
            × (vec_len rest.new.engines ≡ vec_len rest.old.engines) }
        ensures admin { RunsAdmin L.caps L.capacity scripts.now.admin.items self.now.turns
            rest.old.admin.seat rest.new.admin.seat rest.new.admin.stint }
    {
        let first = clients.len();
        let last = first + rest.engines.len();
        let client_scripts = scripts.clients.as_slice();
        let engine_scripts = scripts.engines.as_slice();
        let commands = scripts.admin.as_slice();
        let run = self;
        let run_them = |_at: usize, lanes: &mut Vec<Lane<ClientSeat<L>, A>, A>|
            requires { vec_len lanes.old ≡ length client_scripts.now }
            ensures runs { RunsClients L.caps L.capacity client_scripts.entry.now
                run.entry.now.turns lanes.old.items lanes.new.items }
            ensures len { vec_len lanes.new ≡ vec_len lanes.old }
        { run.run_client_lanes(rt, client_scripts, lanes) };
        let run_others = |_at: usize, rest: &mut Rest<L, A>|
            requires scripts { vec_len rest.old.engines ≡ length engine_scripts.now }
            requires workers { first + vec_len rest.old.engines < 2 ^ 64 }
            requires tickets { All (λ l. HasRoomForTickets l.tickets run.now.turns)
                rest.old.engines.items }
            ensures engines { RunsEngines L.caps L.capacity engine_scripts.entry.now
                run.entry.now.turns rest.old.engines.items rest.new.engines.items }
            ensures len { vec_len rest.new.engines ≡ vec_len rest.old.engines }
            ensures admin { RunsAdmin L.caps L.capacity commands.entry.now run.entry.now.turns
                rest.old.admin.seat rest.new.admin.seat rest.new.admin.stint }
        { run.run_rest(rt, first, last, engine_scripts, commands, rest) };
        join_pair(rt, &run_them, clients, &run_others, rest);
    }
}
