//! The workers of engines.

ghost use Rattle.std.specs.Prelude.{◌≡◌, ◌<◌, ◌+◌, ◌^◌, ℕ, All, IfSome, is_some, length, slice_index_or};
ghost use Rattle.dsa_workers.specs.Calls.{IsCallAnswered, engine_event, call_of, after_turn, HasRoomForTickets};
ghost use Rattle.dsa_workers.specs.Workers.{RunsEngine, RunsEngines};

use crate::lanes::Lane;
use crate::replies::is_full;
use crate::scripts::{EngineScript, Gate, Run, Stint, WorkerEnd, stint};
use crate::tickets::Tickets;
use dsa_book::Reply;
use dsa_shared::{EngineSeat, Sharing};
use dsa_store::EntryStore;
use std::alloc::Allocator;
use std::marker::{Send, Sync};
use std::sync::Wait;
use std::thread;
use std::thread::Threads;

impl<S: EntryStore, L: Sharing, G: Gate> Run<'_, S, L, G> {
    // Dispatches, fetches, starts or finishes, by the number of the turn. Finishes nothing where it
    // has no ticket.
    fn serve_once<A: Allocator, R: Wait>(
        &self,
        rt: &R,
        script: &EngineScript,
        turn: u32,
        tickets: &Tickets<A>,
        seat: &mut EngineSeat<L>,
    ) -> Option<Reply>
        ensures called { is_some result
            ≡ is_some (engine_event seat.old.number script.now turn tickets.now.tickets) }
        ensures answer { IfSome
            (call_of (engine_event seat.old.number script.now turn tickets.now.tickets) result)
            (IsCallAnswered L.caps L.capacity seat.old.receipts) }
        ensures seat { seat.new
            ≡ after_turn seat.old
            (call_of (engine_event seat.old.number script.now turn tickets.now.tickets) result) }
    {
        match turn % 4 {
            0 => Some(Reply::Dispatch(self.shared.dispatch(rt, seat))),
            1 => Some(Reply::Fetch(self.shared.fetch(rt, seat, script.member))),
            2 => Some(Reply::Start(self.shared.start(rt, seat))),
            _ => {
                let ticket = tickets.oldest()?;
                Some(Reply::Finish(self.shared.finish(rt, seat, ticket, script.outcome)))
            }
        }
    }

    // Dispatches, fetches, starts and finishes in turn.
    fn serve<A: Allocator, R: Wait>(
        &self,
        rt: &R,
        worker: usize,
        script: &EngineScript,
        tickets: &mut Tickets<A>,
        seat: &mut EngineSeat<L>,
    ) -> Stint
        requires { HasRoomForTickets tickets.old self.now.turns }
        ensures { RunsEngine L.caps L.capacity script.now self.now.turns seat.old seat.new result }
    {
        for turn in 0..self.turns {
            self.gate.pass(worker, turn);
            if let Some(reply) = self.serve_once(rt, script, turn, tickets, seat) {
                if is_full(&reply) {
                    return stint!(turn + 1, HistoryFull);
                }
                tickets.note(&reply);
            }
        }
        stint!(self.turns, TurnsOut)
    }

    // Runs an engine on the seat in its lane.
    fn run_engine<A: Allocator, R: Wait>(
        &self,
        rt: &R,
        worker: usize,
        script: &EngineScript,
        lane: &mut Lane<EngineSeat<L>, A>,
    )
        requires { HasRoomForTickets lane.old.tickets self.now.turns }
        ensures { RunsEngine L.caps L.capacity script.now self.now.turns lane.old.seat lane.new.seat
            lane.new.stint }
    {
        lane.stint = self.serve(rt, worker, script, &mut lane.tickets, &mut lane.seat);
        self.gate.pass(worker, lane.stint.turns);
        self.gate.leave(worker);
    }
}

impl<S: EntryStore + Send, L: Sharing + Send + Sync, G: Gate + Sync> Run<'_, S, L, G> {
    /// Runs each engine in a thread of its own. Engine k is worker `first + k`.
    pub fn run_engines<A: Allocator + Send, R: Threads + Wait + Sync>(
        &self,
        rt: &R,
        first: usize,
        scripts: &[EngineScript],
        lanes: &mut [Lane<EngineSeat<L>, A>],
    )
        requires scripts { length lanes.old ≡ length scripts.now }
        requires workers { first + length lanes.old < 2 ^ 64 }
        requires tickets { All (λ l. HasRoomForTickets l.tickets self.now.turns) lanes.old }
        ensures { RunsEngines L.caps L.capacity scripts.now self.now.turns lanes.old lanes.new }
    {
        let count = lanes.len();
        if count == 0 {
            return;
        }
        let run = self;
        let run_it = |i: usize, lane: &mut Lane<EngineSeat<L>, A>|
            requires script { i < length scripts.now }
            requires worker { first + i < 2 ^ 64 }
            requires tickets { HasRoomForTickets lane.old.tickets run.now.turns }
            ensures { (e : _)
                → RunsEngine L.caps L.capacity (slice_index_or scripts.entry.now i e)
                run.entry.now.turns lane.old.seat lane.new.seat lane.new.stint }
        { run.run_engine(rt, first + i, &scripts[i], lane) };
        thread::for_each_mut(rt, lanes, count, &run_it);
    }
}
