//! The worker of the administrator.

ghost use Rattle.std.specs.Prelude.{cond};
ghost use Rattle.dsa_book.specs.declared.event.Event.TheVariants as event;
ghost use Rattle.dsa_shared.specs.Locked.{IsAdminStep};
ghost use Rattle.dsa_workers.specs.Workers.{RunsAdmin};

use crate::lanes::Lane;
use crate::replies::{goes_on, is_full};
use crate::scripts::{Gate, Run, Stint, WorkerEnd, stint};
use dsa_book::Reply;
use dsa_regs::Command;
use dsa_shared::{AdminSeat, Sharing};
use dsa_store::EntryStore;
use std::alloc::Allocator;
use std::sync::Wait;
use std::thread;

impl<S: EntryStore, L: Sharing, G: Gate> Run<'_, S, L, G> {
    // Issues a command, or asks after the one that was issued and waits.
    fn issue_once<R: Wait>(
        &self,
        rt: &R,
        command: Command,
        waits: bool,
        seat: &mut AdminSeat<L>,
    ) -> Reply
        ensures { IsAdminStep L.caps L.capacity seat.old seat.new
            (cond waits event.Poll (event.Issue command)) result }
    {
        if waits {
            Reply::Poll(self.shared.poll(rt, seat))
        } else {
            Reply::Issue(self.shared.issue(rt, seat, command))
        }
    }

    // Issues the script's commands one after the other. After one that is active it asks until that
    // one is finished.
    fn issue_all<R: Wait>(
        &self,
        rt: &R,
        worker: usize,
        script: &[Command],
        seat: &mut AdminSeat<L>,
    ) -> Stint
        ensures { RunsAdmin L.caps L.capacity script.now self.now.turns seat.old seat.new result }
    {
        let mut at = 0;
        let mut waits = false;
        for turn in 0..self.turns {
            if at >= script.len() {
                return stint!(turn, ScriptDone);
            }
            self.gate.pass(worker, turn);
            let reply = self.issue_once(rt, script[at], waits, seat);
            if is_full(&reply) {
                return stint!(turn + 1, HistoryFull);
            }
            waits = !goes_on(&reply);
            if goes_on(&reply) {
                at += 1;
            } else {
                thread::yield_now();
            }
        }
        if at >= script.len() {
            stint!(self.turns, ScriptDone)
        } else {
            stint!(self.turns, TurnsOut)
        }
    }

    /// Runs the administrator in this thread, on the seat in its lane.
    pub fn run_admin_lane<A: Allocator, R: Wait>(
        &self,
        rt: &R,
        worker: usize,
        script: &[Command],
        lane: &mut Lane<AdminSeat<L>, A>,
    )
        ensures { RunsAdmin L.caps L.capacity script.now self.now.turns lane.old.seat lane.new.seat
            lane.new.stint }
    {
        lane.stint = self.issue_all(rt, worker, script, &mut lane.seat);
        self.gate.pass(worker, lane.stint.turns);
        self.gate.leave(worker);
    }
}
