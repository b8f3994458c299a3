//! What sharing takes of a heap, that no step takes more, and that all comes back.

ghost use Rattle.std.specs.Prelude.{◌≡◌};

use dsa_book::{DispatchAnswer, Portal, Step};
use dsa_cells::LinkedStore;
use dsa_desc::Outcome;
use dsa_device::Device;
use dsa_fixtures::{CAPS, CELLS, ENQCMD, FIRST_GROUP, LISTS, NO_OP, SHARED_QUEUE, bytes_of};
use dsa_regs::Command;
use dsa_shared::{Blanks, Seats, ShareFault, SharedDevice, Sharing};
use dsa_store::{EntryStore, PlainStore};
use linked_list_allocator::LocalHeap;
use std::alloc::{Allocator, Global};
use std::marker::Brand;
use std::mem::size_of;
use std::process::Abort;
use std::sync::Wait;

// A device, and blanks for it.
type Made<S> = (Device<S>, Blanks);

// The administrator enables the device and its first queue.
fn enable<S: EntryStore, L: Sharing, A: Allocator, R: Wait>(
    rt: &R,
    shared: &SharedDevice<S, L>,
    seats: &mut Seats<L, A>,
) {
    if let Some(seat) = &mut seats.admin {
        shared.write_queue(rt, seat, 0, SHARED_QUEUE);
        shared.write_group(rt, seat, 0, FIRST_GROUP);
        shared.issue(rt, seat, Command::EnableDevice);
        shared.issue(rt, seat, Command::EnableWq(0));
    }
}

// Each client submits.
fn submit_each<S: EntryStore, L: Sharing, A: Allocator, R: Wait>(
    rt: &R,
    shared: &SharedDevice<S, L>,
    seats: &mut Seats<L, A>,
) {
    let bytes = bytes_of(NO_OP);
    for seat in seats.clients.iter_mut() {
        shared.submit(rt, seat, 0, Portal::Limited, ENQCMD, &bytes);
    }
}

// Each engine ends an entry, if it takes one.
fn end_each<S: EntryStore, L: Sharing, A: Allocator, R: Wait>(
    rt: &R,
    shared: &SharedDevice<S, L>,
    seats: &mut Seats<L, A>,
) {
    for seat in seats.engines.iter_mut() {
        if let DispatchAnswer::Taken { ticket, .. } = shared.dispatch(rt, seat) {
            shared.finish(rt, seat, ticket, Outcome::Success);
        }
    }
}

// Steps by each kind of seat until the history is full, which take no more of the heap.
fn fill<S: EntryStore, L: Sharing, R: Wait + Abort>(
    rt: &R,
    heap: &LocalHeap,
    shared: &SharedDevice<S, L>,
    seats: &mut Seats<L, &LocalHeap>,
) {
    let used = heap.used();
    enable(rt, shared, seats);
    for _round in 0..4 {
        submit_each(rt, shared, seats);
        end_each(rt, shared, seats);
    }
    same!(rt; heap.used(), used);
}

// Shares with two clients, fills the history and settles. Says how much of the heap that took, and
// what comes back where memory is refused.
fn filled<S: EntryStore, L: Sharing, R: Wait + Abort>(
    rt: &R,
    heap: &LocalHeap,
    device: Device<S>,
    blanks: Blanks,
) -> Result<usize, Made<S>>
    requires blanks { (blanks ≡ L.name) × (L.parts ≡ 129) }
    requires device { (L.caps ≡ device.caps) × (L.capacity ≡ device.capacity) }
    requires clients { L.clients ≡ 2 }
{
    let capacity = device.capacity();
    let (shared, seats) = match SharedDevice::<S, L>::new(heap, device, blanks, 2) {
        Ok(made) => made,
        Err((fault, device, blanks)) => {
            same!(rt; fault, ShareFault::OutOfMemory);
            return Err((device, blanks));
        }
    };
    let mut seats = seats;
    let used = heap.used();
    fill(rt, heap, &shared, &mut seats);
    match shared.settle(seats) {
        Ok(settled) => same!(rt; settled.totals.steps, capacity),
        Err(_) => panic!(rt; "settling was refused"),
    }
    Ok(used)
}

// The same. The heap has all of it back, whatever comes of it.
fn tried<S: EntryStore, R: Wait + Abort>(
    rt: &R,
    heap: &LocalHeap,
    (device, blanks): Made<S>,
) -> Result<usize, Made<S>> {
    let found = filled::<S, Brand, R>(rt, heap, device, blanks);
    same!(rt; heap.used(), 0);
    found
}

fn fresh<S: EntryStore, R: Abort>(rt: &R, alloc: Global, store: S, capacity: u64) -> Made<S> {
    match Device::new(alloc, store, CAPS, capacity) {
        Ok(device) => (device, Blanks::new()),
        Err(_) => panic!(rt; "the device was not made"),
    }
}

// Each heap is a little larger than the one before, so that each request is refused by some heap.
fn each_is_refused<S: EntryStore, R: Wait + Abort>(rt: &R, alloc: Global, store: S) {
    let mut left = Some(fresh(rt, alloc, store, 8));
    for blocks in 1..512usize {
        let Some(made) = left else {
            return;
        };
        let heap = LocalHeap::new(alloc, 16 * blocks).expect(rt, "memory for a heap");
        left = tried(rt, &heap, made).err();
    }
    claim!(rt; left.is_none());
}

// How much a history of so many steps takes of a heap with room to spare.
fn taken_for<S: EntryStore, R: Wait + Abort>(
    rt: &R,
    alloc: Global,
    store: S,
    capacity: u64,
) -> usize {
    let heap = LocalHeap::new(alloc, 1 << 22).expect(rt, "memory for a heap");
    match tried(rt, &heap, fresh(rt, alloc, store, capacity)) {
        Ok(taken) => taken,
        Err(_) => panic!(rt; "memory was refused"),
    }
}

// Each of five seats has room for as many receipts as the history has for steps.
fn each_has_room<S: EntryStore, R: Wait + Abort>(rt: &R, alloc: Global, first: S, second: S) {
    let less = taken_for(rt, alloc, first, 8);
    let more = taken_for(rt, alloc, second, 10);
    same!(rt; more.saturating_sub(less), 10 * size_of::<Step>());
}

fn plain(rt: &impl Abort, alloc: Global) -> PlainStore {
    PlainStore::new(alloc, LISTS, CELLS).expect(rt, "memory for a store")
}

fn linked(rt: &impl Abort, alloc: Global) -> LinkedStore {
    LinkedStore::new(alloc, LISTS, CELLS).expect(rt, "memory for a store")
}

#[test]
fn plain_device(rt: HostRuntime) {
    let alloc = rt.alloc();
    each_is_refused(&rt, alloc, plain(&rt, alloc));
    each_has_room(&rt, alloc, plain(&rt, alloc), plain(&rt, alloc));
}

#[test]
fn linked_device(rt: HostRuntime) {
    let alloc = rt.alloc();
    each_is_refused(&rt, alloc, linked(&rt, alloc));
    each_has_room(&rt, alloc, linked(&rt, alloc), linked(&rt, alloc));
}
