//! Seats: their receipts and counts, what other threads read, and settling with a seat missing.

use crate::shared::stage::Stage;
use crate::shared::steps::{accepted, done, limited, taken, totals, written_to};
use crate::shared::stores::{Trial, over_both_stores};
use dsa_book::{Actor, Fate, Step, SubmitAnswer, Ticket};
use dsa_fixtures::{ENQCMD, NO_OP};
use dsa_shared::locked::check;
use dsa_shared::{ClientSeat, EngineSeat, Seats, SettleFault, Sharing, compare_receipts};
use dsa_store::{Cell, EntryStore};
use std::alloc::{AllocError, Global};
use std::marker::{Send, Sync};
use std::process::Abort;
use std::sync::Wait;
use std::thread::{Threads, join};

#[test]
fn receipts_against_a_history(rt: HostRuntime) {
    let first = limited(NO_OP, accepted(0));
    let second = written_to(0, ENQCMD, NO_OP, accepted(1));
    let third = limited(NO_OP, accepted(2));
    let moved = Ticket {
        cell: Cell(9),
        name: 2,
    };
    let elsewhere = limited(NO_OP, SubmitAnswer::Accepted(moved));
    let history = [first, second, third];
    let both = [first, third];
    let turned = [third, first];
    let longer = [first, third, third];
    let altered = [first, elsewhere];
    let table = [
        (0, &both[..], None),
        (0, &both[..1], Some(1)),
        (0, &turned[..], Some(0)),
        (0, &both[..0], Some(0)),
        (0, &longer[..], Some(2)),
        (0, &altered[..], Some(1)),
        (1, &both[..1], Some(0)),
        (1, &history[1..2], None),
        (2, &both[..0], None),
    ];
    for (row, (client, receipts, at)) in table.into_iter().enumerate() {
        let found = compare_receipts(&history, Actor::Client(client), receipts);
        same!(&rt; (client, found), (client, at), row);
    }
}

// The device has as many seats as it was made with.
fn finds<L: Sharing, R: Abort>(
    rt: &R,
    seats: &Seats<L>,
    history: &[Step],
    fault: Option<SettleFault>,
) {
    let steps = history.len();
    same!(rt; (steps, check(history, seats, 2, 2)), (steps, fault));
}

fn numbers_are_checked<L: Sharing, R: Abort>(rt: &R, kept: &[Step], seats: &Seats<L>) {
    let missing = Some(SettleFault::SeatMissing);
    for (clients, engines) in [(1, 2), (3, 2), (2, 1), (2, 3)] {
        let found = check(kept, seats, clients, engines);
        same!(rt; (clients, engines, found), (clients, engines, missing));
    }
}

// A part of the history is another one for the first seat.
fn part_is_checked<L: Sharing, R: Abort>(rt: &R, seats: &Seats<L>, part: Option<&[Step]>) {
    let history = part.expect(rt, "nothing was submitted");
    finds(rt, seats, history, Some(SettleFault::ReceiptMismatch(0)));
}

// Steps at the end or at the beginning are missing.
fn parts_are_checked<L: Sharing, R: Abort>(rt: &R, kept: &[Step], seats: &Seats<L>) {
    part_is_checked(rt, seats, kept.get(..7));
    part_is_checked(rt, seats, kept.get(..8));
    part_is_checked(rt, seats, kept.get(1..));
}

// The seats differ at this place from a history with further steps.
fn differ_at<L: Sharing, R: Abort>(
    rt: &R,
    alloc: Global,
    seats: &Seats<L>,
    place: u64,
    history: Option<&[Step]>,
    steps: Option<&[Step]>,
) {
    let history = history.expect(rt, "nothing was set up");
    let steps = steps.expect(rt, "nothing was submitted");
    let all = with(alloc, history, steps).expect(rt, "memory for steps");
    finds(rt, seats, &all, Some(SettleFault::ReceiptMismatch(place)));
}

// The seats against the history that they made, against others, and for other numbers of seats.
fn are_checked<L: Sharing, R: Abort>(rt: &R, alloc: Global, kept: &[Step], seats: &Seats<L>) {
    finds(rt, seats, kept, None);
    numbers_are_checked(rt, kept, seats);
    parts_are_checked(rt, kept, seats);
    differ_at(rt, alloc, seats, 6, kept.get(..6), kept.get(7..));
    differ_at(rt, alloc, seats, 0, kept.get(..7), Some(&exchanged()));
    differ_at(rt, alloc, seats, 0, Some(kept), Some(&[taken(1, 0)]));
}

// Two submissions, each with the name of the other.
fn exchanged() -> [Step; 2] {
    [
        limited(NO_OP, accepted(1)),
        written_to(0, ENQCMD, NO_OP, accepted(0)),
    ]
}

// A history with further steps.
fn with(alloc: Global, history: &[Step], steps: &[Step]) -> Result<Vec<Step>, AllocError> {
    let mut all = Vec::new(alloc);
    all.extend_from_slice(history)?;
    all.extend_from_slice(steps)?;
    Ok(all)
}

// What the seats count where the first client and the first engine took one entry to its end.
fn are_counted<L: Sharing, R: Abort>(rt: &R, seats: &Seats<L>) {
    clients_are_counted(rt, &seats.clients);
    engines_are_counted(rt, &seats.engines);
    let admin = seats.admin.as_ref().expect(rt, "an administrator");
    same!(rt; (admin.steps(), admin.lost()), (7, 0));
}

fn clients_are_counted<L: Sharing, R: Abort>(rt: &R, seats: &[ClientSeat<L>]) {
    same!(rt; seats.len(), 2);
    for seat in seats {
        client_is_counted(rt, seat);
    }
}

// The first client made one step.
fn client_is_counted<L: Sharing, R: Abort>(rt: &R, seat: &ClientSeat<L>) {
    let counts = (seat.accepted(), seat.retried(), seat.steps());
    let made = if seat.number() == 0 { 1 } else { 0 };
    same!(rt; counts, (made, 0, made), seat.number());
}

fn engines_are_counted<L: Sharing, R: Abort>(rt: &R, seats: &[EngineSeat<L>]) {
    same!(rt; seats.len(), 2);
    for seat in seats {
        engine_is_counted(rt, seat);
    }
}

// The first engine took an entry and ended it.
fn engine_is_counted<L: Sharing, R: Abort>(rt: &R, seat: &EngineSeat<L>) {
    let counts = (seat.fetched(), seat.done(), seat.lost(), seat.steps());
    let ended = if seat.number() == 0 { 1 } else { 0 };
    same!(rt; counts, (0, ended, 0, 2 * ended), seat.number());
}

impl<'a, S: EntryStore, L: Sharing, R: Wait + Abort> Stage<'a, S, L, R> {
    // Settling is refused for a seat that is missing, and all comes back, as it was and in use.
    fn not_settled(self) -> Self {
        let Stage {
            rt,
            alloc,
            shared,
            seats,
            record,
        } = self;
        let held = shared.held(rt);
        let refused = match shared.settle(seats) {
            Ok(_) => panic!(rt; "settled without a seat"),
            Err(refused) => refused,
        };
        same!(rt; refused.fault, SettleFault::SeatMissing);
        same!(rt; refused.device.held(rt), held);
        Stage {
            rt,
            alloc,
            shared: refused.device,
            seats: refused.seats,
            record,
        }
    }

    fn without_administrator(self) -> Self {
        let mut stage = self;
        let admin = stage.seats.admin.take();
        let mut stage = stage.not_settled();
        claim!(stage.rt; stage.seats.admin.is_none());
        let seats = &mut stage.seats;
        seats.admin = admin;
        stage
    }

    // The client comes back in front of the others.
    fn without_client(self) -> Self {
        let mut stage = self;
        let rt = stage.rt;
        let client = stage.seats.clients.pop().expect(rt, "a client");
        let mut stage = stage.not_settled();
        same!(rt; stage.seats.clients.len(), 1);
        stage.seats.clients.insert(0, client).expect(rt, "room");
        stage
    }

    // The engine comes back in front of the others.
    fn without_engine(self) -> Self {
        let mut stage = self;
        let rt = stage.rt;
        let engine = stage.seats.engines.pop().expect(rt, "an engine");
        let mut stage = stage.not_settled();
        same!(rt; stage.seats.engines.len(), 1);
        stage.seats.engines.insert(0, engine).expect(rt, "room");
        stage
    }

    // One No-op of each client.
    fn post_two(&mut self) {
        self.make(&[
            limited(NO_OP, accepted(0)),
            written_to(0, ENQCMD, NO_OP, accepted(1)),
        ]);
    }

    /// One No-op of each client, and then settling: with a seat missing, and with seats in another
    /// order.
    pub fn seats_withheld(self) {
        let mut stage = self;
        stage.set_up();
        stage.post_two();
        are_checked(stage.rt, stage.alloc, &stage.record.kept, &stage.seats);
        let stage = stage.without_administrator();
        let stage = stage.without_client().without_engine();
        stage.settles_with(totals(2, 0, 0, 0, 0, 2, 9));
    }
}

impl<'a, S, L, R> Stage<'a, S, L, R>
where
    S: EntryStore + Send,
    L: Sharing + Send + Sync,
    R: Threads + Wait + Abort + Sync,
{
    /// One No-op from its submission to its fate, which threads read that were started after it.
    pub fn fate_is_read(self) {
        let mut stage = self;
        stage.set_up();
        stage.submit_and_read();
        stage.finish_and_read();
        stage.settles_with(totals(1, 0, 0, 1, 0, 0, 10));
    }

    fn submit_and_read(&mut self) {
        self.make(&[limited(NO_OP, accepted(0))]);
        self.tells_of(0, None, 1);
    }

    fn finish_and_read(&mut self) {
        self.make(&[taken(0, 0), done(0, 0x01)]);
        let completed = Some(Fate::Completed(0x01));
        same!(self.rt; self.fate_by_two(), (completed, completed));
        self.tells_of(1, None, 0);
        are_counted(self.rt, &self.seats);
    }

    // What became of an entry, and how many are held.
    fn tells_of(&self, name: u32, fate: Option<Fate>, held: u32) {
        same!(self.rt; self.shared.fate(self.rt, name), fate);
        same!(self.rt; self.shared.held(self.rt), held);
    }

    // What became of the first entry, read by two threads that are started here.
    fn fate_by_two(&self) -> (Option<Fate>, Option<Fate>) {
        let (rt, shared) = (self.rt, &self.shared);
        join(rt, || shared.fate(rt, 0), || shared.fate(rt, 0))
    }
}

#[test]
fn settling_without_a_seat(rt: HostRuntime) {
    over_both_stores(&rt, rt.alloc(), Trial::SeatsWithheld);
}

#[test]
fn fate_in_other_threads(rt: HostRuntime) {
    over_both_stores(&rt, rt.alloc(), Trial::FateIsRead);
}
