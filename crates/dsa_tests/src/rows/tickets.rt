//! Tickets of no running entry, and an abort against a batch that runs, over both stores.

use crate::layers::devices::enabled;
use crate::rows::calls::{linked, plain};
use dsa_book::{
    DispatchAnswer, Event, Fate, FateRow, FetchAnswer, FinishAnswer, IssueAnswer, Kind, Portal,
    Reply, StartAnswer, SubmitAnswer, Ticket,
};
use dsa_cells::LinkedStore;
use dsa_desc::{Descriptor, Outcome};
use dsa_device::Device;
use dsa_fixtures::{CELLS, LISTS, NO_OP, batch_of};
use dsa_regs::CommandWord;
use dsa_store::{Cell, EntryStore, PlainStore};
use std::alloc::Global;
use std::process::Abort;

/// The first engine asks for an entry.
pub const DISPATCH: Event = Event::Dispatch { engine: 0 };

/// It hands in a member of its batch.
pub const FETCH: Event = Event::Fetch {
    engine: 0,
    desc: NO_OP,
};

/// It starts a member.
pub const START: Event = Event::Start { engine: 0 };

/// Abort PASID, of PASID 5.
const ABORT_WORD: u32 = 12_582_917;

/// An ENQCMD to the shared queue.
pub fn submission(pasid: u32, desc: Descriptor) -> Event {
    Event::Submit {
        client: 0,
        queue: 0,
        portal: Portal::Limited,
        kind: Kind::Enqcmd { pasid },
        desc,
    }
}

fn finish(ticket: Ticket) -> Event {
    Event::Finish {
        engine: 0,
        ticket,
        outcome: Outcome::Success,
    }
}

/// A store of vectors for the small device.
pub fn plain_store(rt: &impl Abort, alloc: Global) -> PlainStore {
    plain(rt, alloc, LISTS, CELLS)
}

/// The same over linked cells.
pub fn linked_store(rt: &impl Abort, alloc: Global) -> LinkedStore {
    linked(rt, alloc, LISTS, CELLS)
}

// The ticket that a reply names.
fn ticket_in(reply: Reply) -> Option<Ticket> {
    match reply {
        Reply::Submit(SubmitAnswer::Accepted(ticket))
        | Reply::Dispatch(DispatchAnswer::Taken { ticket, .. })
        | Reply::Fetch(FetchAnswer::Fetched(ticket))
        | Reply::Start(StartAnswer::Started(ticket)) => Some(ticket),
        _ => None,
    }
}

/// The ticket that the device's step gives.
pub fn given<S: EntryStore>(rt: &impl Abort, device: &mut Device<S>, event: Event) -> Ticket {
    ticket_in(device.step(event)).expect(rt, "a ticket")
}

// A device that is handed forged tickets, and one that is not.
#[derive(Drop)]
struct Pair<S: EntryStore> {
    tried: Device<S>,
    spared: Device<S>,
}

impl<S: EntryStore> Pair<S> {
    // What the device keeps and tells is that of the one that was spared.
    fn is_alike(&self, rt: &impl Abort) {
        let (tried, spared) = (&self.tried, &self.spared);
        claim!(rt; tried.history() == spared.history());
        claim!(rt; tried.fates() == spared.fates());
        claim!(rt; tried.held() == spared.held());
        claim!(rt; tried.occupancy(0) == spared.occupancy(0));
        claim!(rt; tried.next_name() == spared.next_name());
    }

    // Both devices make the step, with the same reply.
    fn step(&mut self, rt: &impl Abort, event: Event) -> Reply {
        let reply = self.tried.step(event);
        claim!(rt; self.spared.step(event) == reply);
        self.is_alike(rt);
        reply
    }

    // The ticket that the step gives.
    fn ask(&mut self, rt: &impl Abort, event: Event) -> Ticket {
        let reply = self.step(rt, event);
        ticket_in(reply).expect(rt, "a ticket")
    }

    // The entry ends well.
    fn end(&mut self, rt: &impl Abort, ticket: Ticket) {
        let reply = self.step(rt, finish(ticket));
        claim!(rt; reply == Reply::Finish(FinishAnswer::Done(0x01)));
    }

    // The engine runs no entry of that ticket, and nothing changes.
    fn gone(&mut self, rt: &impl Abort, engine: u16, ticket: Ticket) {
        let answer = self.tried.finish(engine, ticket, Outcome::PageFault);
        claim!(rt; answer == FinishAnswer::Gone);
        self.is_alike(rt);
    }
}

// Engines that do not run the entry.
fn engine_is_forged<S: EntryStore>(rt: &impl Abort, pair: &mut Pair<S>, entry: Ticket) {
    for engine in [1, 2, u16::MAX] {
        pair.gone(rt, engine, entry);
    }
}

// Cells that do not hold it.
fn cell_is_forged<S: EntryStore>(rt: &impl Abort, pair: &mut Pair<S>, entry: Ticket) {
    for cell in [entry.cell.0 ^ 1, CELLS, 65_535, u32::MAX] {
        let cell = Cell(cell);
        pair.gone(rt, 0, Ticket { cell, ..entry });
    }
}

// Names that it does not have.
fn name_is_forged<S: EntryStore>(rt: &impl Abort, pair: &mut Pair<S>, entry: Ticket) {
    for name in [1, 7, u32::MAX] {
        pair.gone(rt, 0, Ticket { name, ..entry });
    }
}

// An entry in its queue, and on an engine.
fn entry_is_forged<S: EntryStore>(rt: &impl Abort, pair: &mut Pair<S>) {
    let entry = pair.ask(rt, submission(5, NO_OP));
    pair.gone(rt, 0, entry);
    claim!(rt; pair.ask(rt, DISPATCH) == entry);
    engine_is_forged(rt, pair, entry);
    cell_is_forged(rt, pair, entry);
    name_is_forged(rt, pair, entry);
    pair.end(rt, entry);
    pair.gone(rt, 0, entry);
}

// A member that waits to be started, and that has ended.
fn member_is_forged<S: EntryStore>(rt: &impl Abort, pair: &mut Pair<S>, batch: u32) {
    let member = pair.ask(rt, FETCH);
    let other = Ticket {
        name: batch,
        ..member
    };
    pair.gone(rt, 0, member);
    claim!(rt; pair.ask(rt, START) == member);
    pair.gone(rt, 0, other);
    pair.gone(rt, 1, member);
    pair.end(rt, member);
    pair.gone(rt, 0, member);
}

// A batch with two such members.
fn batch_is_forged<S: EntryStore>(rt: &impl Abort, pair: &mut Pair<S>) {
    let batch = pair.ask(rt, submission(5, batch_of(2)));
    claim!(rt; pair.ask(rt, DISPATCH) == batch);
    member_is_forged(rt, pair, batch.name);
    member_is_forged(rt, pair, batch.name);
    pair.end(rt, batch);
    pair.gone(rt, 0, batch);
}

// Devices over two such stores, of which the first is handed forged tickets.
fn all_are_forged<S: EntryStore>(rt: &impl Abort, alloc: Global, first: S, second: S) {
    let mut pair = Pair {
        tried: enabled(rt, alloc, first, 64),
        spared: enabled(rt, alloc, second, 64),
    };
    entry_is_forged(rt, &mut pair);
    batch_is_forged(rt, &mut pair);
}

#[test]
fn forged_tickets(rt: HostRuntime) {
    let alloc = rt.alloc();
    let (first, second) = (plain_store(&rt, alloc), plain_store(&rt, alloc));
    all_are_forged(&rt, alloc, first, second);
    let (first, second) = (linked_store(&rt, alloc), linked_store(&rt, alloc));
    all_are_forged(&rt, alloc, first, second);
}

// An engine takes the two entries, and two of three members are fetched, of which one is started.
// The tickets are those of the members.
fn batch_runs<S: EntryStore>(
    rt: &impl Abort,
    device: &mut Device<S>,
    batch: Ticket,
    other: Ticket,
) -> [Ticket; 2] {
    claim!(rt; given(rt, device, DISPATCH) == batch);
    claim!(rt; given(rt, device, DISPATCH) == other);
    let first = given(rt, device, FETCH);
    let second = given(rt, device, FETCH);
    claim!(rt; given(rt, device, START) == first);
    [first, second]
}

/// The entry ends with that answer.
pub fn ends<S: EntryStore>(
    rt: &impl Abort,
    device: &mut Device<S>,
    ticket: Ticket,
    answer: FinishAnswer,
) {
    claim!(rt; device.step(finish(ticket)) == Reply::Finish(answer));
}

// The abort of PASID 5 takes the batch and its two members.
fn abort<S: EntryStore>(rt: &impl Abort, device: &mut Device<S>) {
    let command = CommandWord::parse(ABORT_WORD).expect(rt, "a command");
    claim!(rt; device.issue(command) == IssueAnswer::Ended { aborted: 3 });
}

// None of them is there to end, and no batch to fetch for or to start members of.
fn batch_is_gone<S: EntryStore>(rt: &impl Abort, device: &mut Device<S>, tickets: [Ticket; 3]) {
    for ticket in tickets {
        ends(rt, device, ticket, FinishAnswer::Gone);
    }
    claim!(rt; device.fetch(0, NO_OP) == FetchAnswer::NoBatch);
    claim!(rt; device.start(0) == StartAnswer::Nothing);
}

// Of two entries on an engine the first is a batch: two of its three members were fetched, and one
// runs. The abort of its PASID takes all three, and the other entry goes on.
fn batch_is_aborted<S: EntryStore>(rt: &impl Abort, alloc: Global, store: S) {
    let mut device = enabled(rt, alloc, store, 64);
    let batch = given(rt, &mut device, submission(5, batch_of(3)));
    let other = given(rt, &mut device, submission(6, NO_OP));
    let [first, second] = batch_runs(rt, &mut device, batch, other);
    abort(rt, &mut device);
    batch_is_gone(rt, &mut device, [first, second, batch]);
    ends(rt, &mut device, other, FinishAnswer::Done(0x01));
    claim!(rt; device.fates() == FATES.as_slice());
    claim!(rt; device.held() == 0);
}

// The batch and its members by the number of the command, and then the other entry.
const FATES: [FateRow; 4] = [
    FateRow {
        name: 0,
        parent: None,
        fate: Fate::Aborted(12),
    },
    FateRow {
        name: 2,
        parent: Some(0),
        fate: Fate::Aborted(12),
    },
    FateRow {
        name: 3,
        parent: Some(0),
        fate: Fate::Aborted(12),
    },
    FateRow {
        name: 1,
        parent: None,
        fate: Fate::Completed(0x01),
    },
];

#[test]
fn abort_of_a_batch_that_runs(rt: HostRuntime) {
    let alloc = rt.alloc();
    batch_is_aborted(&rt, alloc, plain_store(&rt, alloc));
    batch_is_aborted(&rt, alloc, linked_store(&rt, alloc));
}
