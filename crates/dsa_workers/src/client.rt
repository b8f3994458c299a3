//! The workers of clients.

ghost use Rattle.std.specs.Prelude.{◌≡◌, ◌<◌, ℕ, length, slice_index_or};
ghost use Rattle.dsa_shared.specs.Locked.{IsSeatStep};
ghost use Rattle.dsa_workers.specs.Calls.{submission_of_client_step};
ghost use Rattle.dsa_workers.specs.Workers.{RunsClient, RunsClients};

use crate::lanes::Lane;
use crate::replies::{goes_on, is_full};
use crate::scripts::{ClientStep, Gate, Run, Stint, WorkerEnd, stint};
use dsa_book::Reply;
use dsa_shared::{ClientSeat, Sharing};
use dsa_store::EntryStore;
use std::alloc::Allocator;
use std::marker::{Send, Sync};
use std::sync::Wait;
use std::thread;
use std::thread::Threads;

impl<S: EntryStore, L: Sharing, G: Gate> Run<'_, S, L, G> {
    // Submits a step of the script.
    fn submit_once<R: Wait>(&self, rt: &R, step: &ClientStep, seat: &mut ClientSeat<L>) -> Reply
        ensures { IsSeatStep L.caps L.capacity seat.old seat.new
            (submission_of_client_step seat.old.number step.now) result }
    {
        let ClientStep {
            queue,
            portal,
            kind,
            bytes,
        } = step;
        Reply::Submit(self.shared.submit(rt, seat, *queue, *portal, *kind, bytes))
    }

    // Submits the script's steps one after the other. A step that was turned away for want of room
    // comes again, once other threads may have run.
    fn submit_all<R: Wait>(
        &self,
        rt: &R,
        worker: usize,
        script: &[ClientStep],
        seat: &mut ClientSeat<L>,
    ) -> Stint
        ensures { RunsClient L.caps L.capacity script.now self.now.turns seat.old seat.new result }
    {
        let mut at = 0;
        for turn in 0..self.turns {
            if at >= script.len() {
                return stint!(turn, ScriptDone);
            }
            self.gate.pass(worker, turn);
            let reply = self.submit_once(rt, &script[at], seat);
            if is_full(&reply) {
                return stint!(turn + 1, HistoryFull);
            }
            if goes_on(&reply) {
                at += 1;
            } else {
                thread::yield_now();
            }
        }
        if at >= script.len() {
            stint!(self.turns, ScriptDone)
        } else {
            stint!(self.turns, TurnsOut)
        }
    }

    // Runs a client on the seat in its lane.
    fn run_client<A: Allocator, R: Wait>(
        &self,
        rt: &R,
        worker: usize,
        script: &[ClientStep],
        lane: &mut Lane<ClientSeat<L>, A>,
    )
        ensures { RunsClient L.caps L.capacity script.now self.now.turns lane.old.seat lane.new.seat
            lane.new.stint }
    {
        lane.stint = self.submit_all(rt, worker, script, &mut lane.seat);
        self.gate.pass(worker, lane.stint.turns);
        self.gate.leave(worker);
    }
}

impl<S: EntryStore + Send, L: Sharing + Send + Sync, G: Gate + Sync> Run<'_, S, L, G> {
    /// Runs each client in a thread of its own. Client k is worker k.
    pub fn run_clients<A: Allocator + Send, R: Threads + Wait + Sync>(
        &self,
        rt: &R,
        scripts: &[Vec<ClientStep>],
        lanes: &mut [Lane<ClientSeat<L>, A>],
    )
        requires scripts { length lanes.old ≡ length scripts.now }
        ensures { RunsClients L.caps L.capacity scripts.now self.now.turns lanes.old lanes.new }
    {
        let count = lanes.len();
        if count == 0 {
            return;
        }
        let run = self;
        let run_it = |i: usize, lane: &mut Lane<ClientSeat<L>, A>|
            requires { i < length scripts.now }
            ensures { (e : _)
                → RunsClient L.caps L.capacity (slice_index_or scripts.entry.now i e).items
                run.entry.now.turns lane.old.seat lane.new.seat lane.new.stint }
        { run.run_client(rt, i, &scripts[i], lane) };
        thread::for_each_mut(rt, lanes, count, &run_it);
    }
}
