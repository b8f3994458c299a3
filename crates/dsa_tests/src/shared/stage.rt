//! What a trial is made on: a shared device with its seats, and a record of the steps that they
//! made.

use crate::shared::accounts::add_up;
use crate::shared::steps::{enables, writes};
use dsa_book::{
    Actor, DispatchAnswer, Event, FetchAnswer, Reply, StartAnswer, Step, SubmitAnswer, Ticket,
};
use dsa_fixtures::bytes_of;
use dsa_shared::{
    ClientSeat, EngineSeat, Seats, Settled, SharedDevice, Sharing, Totals, compare_receipts,
};
use dsa_store::EntryStore;
use dsa_workers::{Gate, RunFault, RunReport, Scripts, run_threads};
use std::alloc::Global;
use std::marker::{Send, Sync};
use std::process::Abort;
use std::sync::Wait;
use std::thread::Threads;

/// A shared device and its seats.
#[derive(Drop)]
pub struct Stage<'a, S: EntryStore, L: Sharing, R> {
    pub rt: &'a R,
    pub alloc: Global,
    pub shared: SharedDevice<S, L>,
    pub seats: Seats<L>,
    pub record: Record,
}

/// The steps that were made, as the history has to have them, and the tickets that were given.
#[derive(Drop)]
pub struct Record {
    pub kept: Vec<Step>,
    pub tickets: Vec<Ticket>,
}

// The ticket that a table means: its cell stands for the one that the entry of that name was given.
fn meant(ticket: Ticket, tickets: &[Ticket]) -> Ticket {
    match tickets.iter().find(|given| given.name == ticket.cell.0) {
        Some(given) => Ticket {
            cell: given.cell,
            name: ticket.name,
        },
        None => ticket,
    }
}

fn meant_by(event: Event, tickets: &[Ticket]) -> Event {
    match event {
        Event::Finish {
            engine,
            ticket,
            outcome,
        } => Event::Finish {
            engine,
            ticket: meant(ticket, tickets),
            outcome,
        },
        other => other,
    }
}

fn reply_meant_by(reply: Reply, tickets: &[Ticket]) -> Reply {
    match reply {
        Reply::Submit(SubmitAnswer::Accepted(ticket)) => {
            Reply::Submit(SubmitAnswer::Accepted(meant(ticket, tickets)))
        }
        Reply::Dispatch(DispatchAnswer::Taken { ticket, queue }) => {
            Reply::Dispatch(DispatchAnswer::Taken {
                ticket: meant(ticket, tickets),
                queue,
            })
        }
        Reply::Fetch(FetchAnswer::Fetched(ticket)) => {
            Reply::Fetch(FetchAnswer::Fetched(meant(ticket, tickets)))
        }
        Reply::Start(StartAnswer::Started(ticket)) => {
            Reply::Start(StartAnswer::Started(meant(ticket, tickets)))
        }
        other => other,
    }
}

// The ticket that a reply gives for the first time.
fn given_by(reply: Reply) -> Option<Ticket> {
    match reply {
        Reply::Submit(SubmitAnswer::Accepted(ticket)) => Some(ticket),
        Reply::Fetch(FetchAnswer::Fetched(ticket)) => Some(ticket),
        _ => None,
    }
}

impl<'a, S: EntryStore, L: Sharing, R: Wait> Stage<'a, S, L, R> {
    // The answer to the event, by the seat that it belongs to.
    fn answer_to(&mut self, event: Event) -> Option<Reply> {
        match event.actor() {
            Actor::Client(number) => self.by_client(number, event),
            Actor::Engine(number) => self.by_engine(number, event),
            Actor::Admin => self.by_admin(event),
        }
    }

    fn by_client(&mut self, number: u16, event: Event) -> Option<Reply> {
        let seat = self.seats.clients.get_mut(usize::from(number))?;
        let Event::Submit {
            queue,
            portal,
            kind,
            desc,
            ..
        } = event
        else {
            return None;
        };
        let bytes = bytes_of(desc);
        let answer = self
            .shared
            .submit(self.rt, seat, queue, portal, kind, &bytes);
        Some(Reply::Submit(answer))
    }

    fn by_engine(&mut self, number: u16, event: Event) -> Option<Reply> {
        let (rt, shared) = (self.rt, &self.shared);
        let seat = self.seats.engines.get_mut(usize::from(number))?;
        match event {
            Event::Dispatch { .. } => Some(Reply::Dispatch(shared.dispatch(rt, seat))),
            Event::Fetch { desc, .. } => Some(Reply::Fetch(shared.fetch(rt, seat, desc))),
            Event::Start { .. } => Some(Reply::Start(shared.start(rt, seat))),
            Event::Finish {
                ticket,
                outcome,
                ..
            } => Some(Reply::Finish(shared.finish(rt, seat, ticket, outcome))),
            _ => None,
        }
    }

    fn by_admin(&mut self, event: Event) -> Option<Reply> {
        let (rt, shared) = (self.rt, &self.shared);
        let seat = self.seats.admin.as_mut()?;
        match event {
            Event::Issue { command } => Some(Reply::Issue(shared.issue(rt, seat, command))),
            Event::Poll => Some(Reply::Poll(shared.poll(rt, seat))),
            Event::WriteQueue { queue, config } => {
                Some(Reply::Write(shared.write_queue(rt, seat, queue, config)))
            }
            Event::WriteGroup { group, config } => {
                Some(Reply::Write(shared.write_group(rt, seat, group, config)))
            }
            Event::ClearError => Some(Reply::Clear(shared.clear_error(rt, seat))),
            _ => None,
        }
    }
}

impl<'a, S: EntryStore, L: Sharing, R: Wait + Abort> Stage<'a, S, L, R> {
    /// Before the first step.
    pub fn new(
        rt: &'a R,
        alloc: Global,
        shared: SharedDevice<S, L>,
        seats: Seats<L>,
    ) -> Stage<'a, S, L, R> {
        let record = Record {
            kept: Vec::new(alloc),
            tickets: Vec::new(alloc),
        };
        Stage {
            rt,
            alloc,
            shared,
            seats,
            record,
        }
    }

    /// Makes the steps by their seats, each with its answer.
    pub fn make(&mut self, steps: &[Step]) {
        for (at, step) in steps.iter().enumerate() {
            self.make_one(*step, at);
        }
    }

    // Makes the step at this place of a table.
    fn make_one(&mut self, step: Step, at: usize) {
        let event = meant_by(step.event, &self.record.tickets);
        let reply = self.answer_to(event).expect(self.rt, "such a seat");
        self.record
            .note(self.rt, Step { event, reply }, step.reply, at);
    }

    /// Enables the device and both its queues.
    pub fn set_up(&mut self) {
        self.make(&writes());
        self.make(&enables());
    }

    /// Settles.
    pub fn settled(self) -> (Settled<S>, Record) {
        let Stage {
            rt,
            alloc: _,
            shared,
            seats,
            record,
        } = self;
        match shared.settle(seats) {
            Ok(settled) => (settled, record),
            Err(_) => panic!(rt; "settling was refused"),
        }
    }

    /// Settles, where what was done adds up.
    pub fn totals(self) -> Totals {
        let (rt, alloc) = (self.rt, self.alloc);
        let (settled, _) = self.settled();
        add_up(rt, alloc, &settled);
        settled.totals
    }

    /// Settles, where each step stands in the record, with these totals.
    pub fn settles_with(self, totals: Totals) {
        let rt = self.rt;
        let settled = self.settled_as_told();
        same!(rt; settled.totals, totals);
    }

    /// Settles, where each step stands in the record.
    pub fn settled_as_told(self) -> Settled<S> {
        let rt = self.rt;
        self.record.is_told_by(rt, &self.seats);
        let (settled, record) = self.settled();
        same!(rt; settled.device.history(), record.kept.as_slice());
        settled
    }
}

impl<'a, S, L, R> Stage<'a, S, L, R>
where
    S: EntryStore + Send,
    L: Sharing + Send + Sync,
    R: Threads + Wait + Sync,
{
    /// Runs a worker on each seat.
    pub fn run<G: Gate + Sync>(
        &mut self,
        scripts: &Scripts,
        gate: &G,
        turns: u32,
    ) -> Result<RunReport, RunFault> {
        let (rt, alloc) = (self.rt, self.alloc);
        run_threads(
            rt,
            alloc,
            &self.shared,
            &mut self.seats,
            scripts,
            gate,
            turns,
        )
    }
}

impl Record {
    // A step with the reply that it had, which has to be the one that the table means.
    fn note<R: Abort>(&mut self, rt: &R, made: Step, reply: Reply, at: usize) {
        if let Some(given) = given_by(made.reply) {
            self.tickets.push(given).expect(rt, "memory for a ticket");
        }
        same!(rt; made.reply, reply_meant_by(reply, &self.tickets), at);
        self.keep(rt, made);
    }

    fn keep<R: Abort>(&mut self, rt: &R, made: Step) {
        if made.reply.is_stored() {
            self.kept.push(made).expect(rt, "memory for a step");
        }
    }

    /// Each seat has the steps that it made as its receipts.
    pub fn is_told_by<L: Sharing, R: Abort>(&self, rt: &R, seats: &Seats<L>) {
        self.is_told_by_clients(rt, &seats.clients);
        self.is_told_by_engines(rt, &seats.engines);
        if let Some(seat) = &seats.admin {
            self.is_told(rt, Actor::Admin, seat.receipts());
        }
    }

    fn is_told_by_clients<L: Sharing, R: Abort>(&self, rt: &R, seats: &[ClientSeat<L>]) {
        for seat in seats {
            self.is_told(rt, Actor::Client(seat.number()), seat.receipts());
        }
    }

    fn is_told_by_engines<L: Sharing, R: Abort>(&self, rt: &R, seats: &[EngineSeat<L>]) {
        for seat in seats {
            self.is_told(rt, Actor::Engine(seat.number()), seat.receipts());
        }
    }

    fn is_told<R: Abort>(&self, rt: &R, actor: Actor, receipts: &[Step]) {
        let differ_at = compare_receipts(&self.kept, actor, receipts);
        same!(rt; (actor, differ_at), (actor, None));
    }
}
