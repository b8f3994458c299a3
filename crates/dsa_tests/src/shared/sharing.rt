//! What keeps a device from being shared, and that it comes back.

ghost use Rattle.std.specs.Prelude.{◌≡◌};

use crate::rows::anew::anew;
use dsa_book::{PastFates, WriteAnswer};
use dsa_cells::LinkedStore;
use dsa_device::Device;
use dsa_fixtures::{CAPS, CELLS, LISTS, SHARED_QUEUE};
use dsa_shared::{Blanks, ShareFault, SharedDevice, Sharing};
use dsa_store::{EntryStore, PlainStore};
use std::alloc::{Allocator, Global};
use std::marker::Brand;
use std::process::Abort;

// How many seats clients have and how many engines, once the device is shared and settled.
fn seats_of<S: EntryStore, L: Sharing, A: Allocator + Copy>(
    alloc: A,
    device: Device<S>,
    blanks: Blanks,
    clients: u16,
) -> Result<(usize, usize), (ShareFault, Device<S>, Blanks)>
    requires blanks { (blanks ≡ L.name) × (L.parts ≡ 129) }
    requires device { (L.caps ≡ device.caps) × (L.capacity ≡ device.capacity) }
    requires clients { L.clients ≡ clients }
{
    let (shared, seats) = SharedDevice::<S, L>::new(alloc, device, blanks, clients)?;
    let counts = (seats.clients.len(), seats.engines.len());
    match shared.settle(seats) {
        Ok(_) => Ok(counts),
        Err(_) => Ok((0, 0)),
    }
}

/// The numbers of seats of clients and of engines, or why the device is not shared, and then what
/// comes back.
pub type Attempt<S> = (
    Result<(usize, usize), ShareFault>,
    Option<(Device<S>, Blanks)>,
);

/// Shares the device with so many clients.
pub fn tried<S: EntryStore, A: Allocator + Copy>(
    alloc: A,
    device: Device<S>,
    blanks: Blanks,
    clients: u16,
) -> Attempt<S> {
    match seats_of::<S, Brand, A>(alloc, device, blanks, clients) {
        Ok(counts) => (Ok(counts), None),
        Err((fault, device, blanks)) => (Err(fault), Some((device, blanks))),
    }
}

/// A device that comes back has as many steps as before.
pub fn has_steps<S: EntryStore, R: Abort>(
    rt: &R,
    rest: &Option<(Device<S>, Blanks)>,
    steps: usize,
) {
    if let Some((device, _)) = rest {
        same!(rt; device.history().len(), steps);
    }
}

// A device that is refused for some numbers of clients, and then shared for another.
fn are_refused<S: EntryStore, R: Abort>(
    rt: &R,
    alloc: Global,
    device: Device<S>,
    table: &[(u16, Result<(usize, usize), ShareFault>)],
) {
    let steps = device.history().len();
    let mut rest = Some((device, Blanks::new()));
    for (clients, expected) in table {
        let (device, blanks) = rest.expect(rt, "a device that came back");
        let (found, back) = tried(alloc, device, blanks, *clients);
        same!(rt; found, *expected, *clients);
        has_steps(rt, &back, steps);
        rest = back;
    }
}

fn fresh<S: EntryStore, R: Abort>(rt: &R, alloc: Global, store: S) -> Device<S> {
    match Device::new(alloc, store, CAPS, 100) {
        Ok(device) => device,
        Err(_) => panic!(rt; "the device was not made"),
    }
}

/// A device over a store of vectors that has made no step.
pub fn over_vectors<R: Abort>(rt: &R, alloc: Global) -> Device<PlainStore> {
    let store = PlainStore::new(alloc, LISTS, CELLS).expect(rt, "memory for a store");
    fresh(rt, alloc, store)
}

/// The same over linked cells.
pub fn over_cells<R: Abort>(rt: &R, alloc: Global) -> Device<LinkedStore> {
    let store = LinkedStore::new(alloc, LISTS, CELLS).expect(rt, "memory for a store");
    fresh(rt, alloc, store)
}

// No client, and more than there are, and then so many.
fn most_are_shared<S: EntryStore, R: Abort>(rt: &R, alloc: Global, device: Device<S>, most: u16) {
    let none = Err(ShareFault::BadClients);
    let table = [(0, none), (65, none), (most, Ok((usize::from(most), 2)))];
    are_refused(rt, alloc, device, &table);
}

#[test]
fn numbers_of_clients(rt: HostRuntime) {
    let alloc = rt.alloc();
    for most in 1..=64u16 {
        most_are_shared(&rt, alloc, over_vectors(&rt, alloc), most);
        most_are_shared(&rt, alloc, over_cells(&rt, alloc), most);
    }
}

#[test]
fn device_with_a_step(rt: HostRuntime) {
    let alloc = rt.alloc();
    let mut device = over_cells(&rt, alloc);
    same!(&rt; device.write_queue(0, SHARED_QUEUE), WriteAnswer::Written);
    let table = [
        (0, Err(ShareFault::BadClients)),
        (65, Err(ShareFault::BadClients)),
        (1, Err(ShareFault::NotFresh)),
    ];
    are_refused(&rt, alloc, device, &table);
}

#[test]
fn device_that_began_anew(rt: HostRuntime) {
    let alloc = rt.alloc();
    let mut device = over_cells(&rt, alloc);
    anew(&rt, &mut device, PastFates::Kept);
    let table = [
        (0, Err(ShareFault::BadClients)),
        (65, Err(ShareFault::BadClients)),
        (1, Err(ShareFault::BegunAnew)),
        (64, Err(ShareFault::BegunAnew)),
    ];
    are_refused(&rt, alloc, device, &table);
}

#[test]
fn device_with_a_step_since(rt: HostRuntime) {
    let alloc = rt.alloc();
    let mut device = over_vectors(&rt, alloc);
    anew(&rt, &mut device, PastFates::Forgotten);
    same!(&rt; device.write_queue(0, SHARED_QUEUE), WriteAnswer::Written);
    let table = [
        (0, Err(ShareFault::BadClients)),
        (1, Err(ShareFault::NotFresh)),
    ];
    are_refused(&rt, alloc, device, &table);
}
