//! A device over a store of vectors: queue 0 is shared, with its group and its engine, and queue 1
//! is left Off.

use crate::layers::setup::store;
use dsa_book::{
    Cause, DispatchAnswer, Event, Fate, FinishAnswer, PollAnswer, Portal, Reply, Step,
    SubmitAnswer, Ticket,
};
use dsa_desc::{Descriptor, Outcome};
use dsa_device::{Device, MakeFault};
use dsa_fixtures::{CAPS, CELLS, ENABLED, ENQCMD, LISTS, MOVE as PAGE, NO_OP, bytes_of};
use dsa_regs::Caps;
use dsa_store::{Cell, Entry, EntryStore, ListId, PlainStore};
use std::alloc::Global;
use std::fmt::InlineText;
use std::process::Abort;

fn device<S: EntryStore>(rt: &impl Abort, alloc: Global, store: S, capacity: u64) -> Device<S> {
    match Device::new(alloc, store, CAPS, capacity) {
        Ok(device) => device,
        Err(_) => panic!(rt; "the device was not made"),
    }
}

// The fault that comes over a store, and the store as it came back.
fn refused<S: EntryStore>(
    rt: &impl Abort,
    alloc: Global,
    caps: Caps,
    capacity: u64,
    store: S,
) -> (MakeFault, S) {
    match Device::new(alloc, store, caps, capacity) {
        Ok(_) => panic!(rt; "the device was made"),
        Err(refused) => refused,
    }
}

// The fault that comes over an empty store of so many lists and cells, and what the store has as it
// came back: its lists, its cells and those that are free.
fn refusal(
    rt: &impl Abort,
    alloc: Global,
    caps: Caps,
    capacity: u64,
    (lists, cells): (u16, u32),
) -> (MakeFault, u16, u32, u32) {
    let store = PlainStore::new(alloc, lists, cells).expect(rt, "memory for a store");
    let (fault, back) = refused(rt, alloc, caps, capacity, store);
    (fault, back.lists(), back.cells(), back.free())
}

#[test]
fn faults_in_their_order(rt: HostRuntime) {
    const NONE: Caps = Caps { queues: 0, ..CAPS };
    const CASES: [(Caps, u64, u16, u32, MakeFault); 4] = [
        (NONE, 1_048_577, LISTS, CELLS - 1, MakeFault::BadCaps),
        (CAPS, 1_048_577, LISTS, CELLS - 1, MakeFault::BadCapacity),
        (CAPS, 1_048_576, LISTS, CELLS - 1, MakeFault::BadStore),
        (CAPS, 8, LISTS + 1, CELLS, MakeFault::BadStore),
    ];
    for &(caps, capacity, lists, cells, fault) in &CASES {
        let found = refusal(&rt, rt.alloc(), caps, capacity, (lists, cells));
        claim!(&rt; found == (fault, lists, cells, cells));
    }
}

#[test]
fn sentences_of_faults(rt: HostRuntime) {
    const SENTENCES: [(MakeFault, &str); 4] = [
        (
            MakeFault::BadCaps,
            "the capabilities are not within the limits of a device",
        ),
        (
            MakeFault::BadCapacity,
            "a history has room for at most 1,048,576 steps",
        ),
        (
            MakeFault::BadStore,
            "the store is not empty, or has other lists or cells than the device needs",
        ),
        (MakeFault::OutOfMemory, "out of memory"),
    ];
    for &(fault, sentence) in &SENTENCES {
        let text = InlineText::<96>::of(fault);
        claim!(&rt; text.as_str() == sentence);
    }
}

// The entry in the first list of the store.
fn push<S: EntryStore>(rt: &impl Abort, store: &mut S, entry: Entry) -> Cell {
    assert!(rt; store.lists() == LISTS);
    store.push_back(ListId(0), entry).expect(rt, "a free cell")
}

fn comes_back<S: EntryStore>(rt: &impl Abort, alloc: Global, mut store: S) {
    const ENTRY: Entry = Entry {
        name: 7,
        parent: None,
        desc: NO_OP,
        queue: 0,
        running: false,
    };
    let cell = push(rt, &mut store, ENTRY);
    let (found, back) = refused(rt, alloc, CAPS, 8, store);
    claim!(rt; found == MakeFault::BadStore);
    claim!(rt; back.get(cell) == Some(ENTRY));
    claim!(rt; back.free() == CELLS - 1);
}

#[test]
fn store_with_an_entry_comes_back(rt: HostRuntime) {
    let alloc = rt.alloc();
    comes_back(&rt, alloc, store(&rt, alloc));
}

// What waits in queue 0, the read buffers that the first group uses, and all that is held.
fn counts<S: EntryStore>(device: &Device<S>) -> (Option<u16>, Option<u16>, u32) {
    (device.occupancy(0), device.used(0), device.held())
}

// A Memory Move of two pages.
const MOVE: Descriptor = Descriptor { size: 8192, ..PAGE };

fn submission(desc: Descriptor) -> Event {
    Event::Submit {
        client: 0,
        queue: 0,
        portal: Portal::Limited,
        kind: ENQCMD,
        desc,
    }
}

/// The small device over this store, with its shared queue enabled.
pub fn enabled<S: EntryStore>(
    rt: &impl Abort,
    alloc: Global,
    store: S,
    capacity: u64,
) -> Device<S> {
    let mut device = device(rt, alloc, store, capacity);
    let mut steps = Vec::new(alloc);
    claim!(rt; device.run(&ENABLED, &mut steps).is_ok());
    device
}

// The ticket of a descriptor whose 64 bytes are accepted.
fn accepted<S: EntryStore>(rt: &impl Abort, device: &mut Device<S>, desc: Descriptor) -> Ticket {
    let answer = device.submit(0, 0, Portal::Limited, ENQCMD, &bytes_of(desc));
    let SubmitAnswer::Accepted(ticket) = answer else {
        panic!(rt; "not accepted");
    };
    ticket
}

fn move_ends<S: EntryStore>(rt: &impl Abort, alloc: Global, store: S) {
    let mut device = enabled(rt, alloc, store, 7);
    let ticket = accepted(rt, &mut device, MOVE);
    claim!(rt; ticket.name == 0);
    claim!(rt; counts(&device) == (Some(1), Some(0), 1));
    let taken = DispatchAnswer::Taken { ticket, queue: 0 };
    claim!(rt; device.dispatch(0) == taken);
    claim!(rt; device.dispatch(0) == DispatchAnswer::Idle);
    claim!(rt; counts(&device) == (Some(0), Some(2), 1));
    ends_in_the_last_place(rt, &mut device, ticket);
}

#[test]
fn move_from_submission_to_fate(rt: HostRuntime) {
    let alloc = rt.alloc();
    move_ends(&rt, alloc, store(&rt, alloc));
}

// The entry ends by a page fault, whose step takes the last of the places.
fn ends_in_the_last_place<S: EntryStore>(rt: &impl Abort, device: &mut Device<S>, ticket: Ticket) {
    claim!(rt; device.finish(0, ticket, Outcome::PageFault) == FinishAnswer::Done(0x03));
    claim!(rt; device.finish(0, ticket, Outcome::Success) == FinishAnswer::Full);
    claim!(rt; device.poll() == PollAnswer::Full);
    claim!(rt; counts(device) == (Some(0), Some(0), 0));
    claim!(rt; device.next_name() == 1);
    claim!(rt; device.fates().len() == 1);
    claim!(rt; device.fate(0) == Some(Fate::Completed(0x03)));
}

// Of five steps with the same event, the second is accepted and the third not, and no place is left
// for the others.
fn second_is_accepted(rt: &impl Abort, steps: &[Step], event: Event) {
    const REPLIES: [(usize, Reply); 3] = [
        (2, Reply::Submit(SubmitAnswer::Retry(Cause::AtLimit))),
        (3, Reply::Submit(SubmitAnswer::Full)),
        (4, Reply::Submit(SubmitAnswer::Full)),
    ];
    assert!(rt; steps.len() == 5);
    claim!(rt; matches!(steps[1].reply, Reply::Submit(SubmitAnswer::Accepted(_))));
    for &(k, reply) in &REPLIES {
        let step = Step { event, reply };
        claim!(rt; steps.get(k) == Some(&step));
    }
}

fn five_events_are_run<S: EntryStore>(rt: &impl Abort, alloc: Global, store: S) {
    let mut device = enabled(rt, alloc, store, 7);
    let mut steps = Vec::new(alloc);
    let event = submission(MOVE);
    claim!(rt; device.run(&[event; 5], &mut steps).is_ok());
    second_is_accepted(rt, &steps, event);
    claim!(rt; device.history().len() == 7);
}

#[test]
fn run_of_events(rt: HostRuntime) {
    let alloc = rt.alloc();
    five_events_are_run(&rt, alloc, store(&rt, alloc));
}
