//! What a store and a device do where memory is refused.

use crate::rows::stores::middle_is_taken;
use dsa_book::{PastFates, Step};
use dsa_cells::LinkedStore;
use dsa_device::{Device, MakeFault};
use dsa_fixtures::{CAPS, CELLS, ENABLED, LISTS};
use dsa_regs::Phase;
use dsa_store::{EntryStore, PlainStore};
use linked_list_allocator::LocalHeap;
use std::alloc::{AllocError, Global};
use std::process::Abort;
use std::test::Fail;

// A store in a heap that has room for all of it: no call takes or gives back memory until the store
// is dropped.
fn takes_no_more<S: EntryStore>(rt: &impl Abort, heap: &LocalHeap, store: S) {
    let mut store = store;
    let used = heap.used();
    middle_is_taken(rt, &mut store);
    claim!(rt; heap.used() == used);
}

// A heap of so many of its smallest blocks.
fn heap_of(rt: &impl Abort, alloc: Global, blocks: usize) -> LocalHeap {
    assert!(rt; blocks < 32);
    LocalHeap::new(alloc, 16 * blocks).expect(rt, "memory for a heap")
}

// Whether the store was made, which then takes no more.
fn is_served<S: EntryStore>(
    rt: &impl Abort,
    heap: &LocalHeap,
    made: Result<S, AllocError>,
) -> bool {
    match made {
        Ok(store) => {
            takes_no_more(rt, heap, store);
            true
        }
        Err(_) => false,
    }
}

// `new` asks for 4, 7, 7 and 1 of the heap's smallest blocks: the lists, the entries of each list,
// and the free cells. Each heap is one block larger than the one before, so each of the four
// requests is refused by some heap that met those before it. What had been taken is given back.
#[test]
fn plain_store_is_refused_memory(rt: HostRuntime) {
    for blocks in 1..32 {
        let heap = heap_of(&rt, rt.alloc(), blocks);
        let is_made = is_served(&rt, &heap, PlainStore::new(&heap, 2, 3));
        claim!(&rt; is_made == (blocks >= 19));
        claim!(&rt; heap.used() == 0);
    }
}

// `new` asks for 10 and 4 of the heap's smallest blocks: the array of the cells, and the headers of
// the lists and of the free cells. As above, each of the two requests is refused by some heap that
// met those before it.
#[test]
fn linked_store_is_refused_memory(rt: HostRuntime) {
    for blocks in 1..32 {
        let heap = heap_of(&rt, rt.alloc(), blocks);
        let is_made = is_served(&rt, &heap, LinkedStore::new(&heap, 2, 3));
        claim!(&rt; is_made == (blocks >= 14));
        claim!(&rt; heap.used() == 0);
    }
}

// A device over the store. Where it is refused memory the store comes back as it was, and serves
// the next time.
fn device_over<S: EntryStore>(
    rt: &impl Abort,
    alloc: Global,
    store: S,
) -> Result<Device<S>, MakeFault> {
    let (fault, store) = match Device::new(alloc, store, CAPS, 16) {
        Ok(device) => return Ok(device),
        Err(refused) => refused,
    };
    claim!(rt; fault == MakeFault::OutOfMemory);
    claim!(rt; (store.lists(), store.cells(), store.free()) == (LISTS, CELLS, CELLS));
    match Device::new(alloc, store, CAPS, 16) {
        Ok(device) => Ok(device),
        Err((fault, _)) => Err(fault),
    }
}

// Runs the events. Where that is refused memory, device and list are as they were, and it goes the
// next time.
fn run_over<S: EntryStore>(
    rt: &impl Abort,
    device: &mut Device<S>,
    steps: &mut Vec<Step>,
) -> Result<(), AllocError> {
    let (stored, listed) = (device.history().len(), steps.len());
    if device.run(&ENABLED, steps).is_ok() {
        return Ok(());
    }
    claim!(rt; (device.history().len(), steps.len()) == (stored, listed));
    claim!(rt; (device.next_name(), device.held(), device.fates().len()) == (0, 0, 0));
    device.run(&ENABLED, steps)
}

// Runs the events three times. The history has the steps of the first time alone.
fn runs_over<S: EntryStore>(
    rt: &impl Abort,
    device: &mut Device<S>,
    steps: &mut Vec<Step>,
) -> Result<(), AllocError> {
    for _ in 0..3 {
        run_over(rt, device, steps)?;
    }
    claim!(rt; steps.len() == 3 * ENABLED.len());
    claim!(rt; device.history().len() == 4);
    Ok(())
}

// Begins the history anew. Where that is refused memory, the device is as it was, and it goes the
// next time.
fn anew_over<S: EntryStore>(
    rt: &impl Abort,
    device: &mut Device<S>,
    past: PastFates,
) -> Result<(), AllocError> {
    let (stored, began) = (device.history().len(), device.is_anew());
    if device.begin_anew(past).is_ok() {
        return Ok(());
    }
    claim!(rt; (device.history().len(), device.is_anew()) == (stored, began));
    claim!(rt; (device.capacity(), device.phase()) == (16, Phase::On));
    device.begin_anew(past)
}

// These calls take the global allocator, which no test can replace: docs/PERFORMANCE.md says how
// each request is refused.
fn device_runs<S: EntryStore>(rt: &impl Abort, alloc: Global, store: S) -> Result<(), Fail> {
    let mut device = device_over(rt, alloc, store)?;
    let mut steps = Vec::new(alloc);
    runs_over(rt, &mut device, &mut steps)?;
    anew_over(rt, &mut device, PastFates::Kept)?;
    anew_over(rt, &mut device, PastFates::Forgotten)?;
    claim!(rt; device.history().is_empty());
    Ok(())
}

#[test]
fn device_is_refused_memory(rt: HostRuntime) -> Result<(), Fail> {
    let alloc = rt.alloc();
    device_runs(&rt, alloc, PlainStore::new(alloc, LISTS, CELLS)?)?;
    device_runs(&rt, alloc, LinkedStore::new(alloc, LISTS, CELLS)?)?;
    Ok(())
}
