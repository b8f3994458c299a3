//! A device over linked cells, saved and loaded.

use crate::{LoadFault, SaveFault, load, save};
use dsa_book::{DispatchAnswer, Event, PastFates, Portal};
use dsa_desc::Outcome;
use dsa_fixtures::{CAPS, ENABLED, ENQCMD, MOVE};
use dsa_linked::LinkedDevice;
use std::alloc::Global;
use std::process::Abort;

fn opened(rt: &impl Abort, alloc: Global) -> LinkedDevice {
    match LinkedDevice::new(alloc, CAPS, 200) {
        Ok(machine) => machine,
        Err(_) => panic!(rt; "the device was not made"),
    }
}

fn saved(rt: &impl Abort, alloc: Global, machine: &LinkedDevice) -> Vec<u8> {
    match save(alloc, &machine.device) {
        Ok(bytes) => bytes,
        Err(_) => panic!(rt; "there was no memory"),
    }
}

fn enable(machine: &mut LinkedDevice) {
    for event in ENABLED.iter() {
        machine.device.step(*event);
    }
}

// The queue fills and empties, so that cells come again in another order.
fn work(machine: &mut LinkedDevice) {
    for turn in 0..60 {
        machine.device.step(Event::Submit {
            client: 3,
            queue: 0,
            portal: Portal::Unlimited,
            kind: ENQCMD,
            desc: MOVE,
        });
        if turn % 3 == 0 {
            continue;
        }
        if let DispatchAnswer::Taken { ticket, .. } = machine.device.dispatch(0) {
            machine.device.finish(0, ticket, Outcome::Success);
        }
    }
}

#[test]
fn a_device_is_loaded_as_it_was_saved(rt: HostRuntime) {
    let mut machine = opened(&rt, rt.alloc());
    enable(&mut machine);
    work(&mut machine);
    let bytes = saved(&rt, rt.alloc(), &machine);
    match load(rt.alloc(), bytes.as_slice()) {
        Ok(loaded) => assert!(rt; loaded.device.history() == machine.device.history()),
        Err(_) => panic!(&rt; "the device was not loaded"),
    }
}

// A device whose history begins anew is not saved, neither before its next steps nor after them.
fn is_not_saved(rt: &impl Abort, alloc: Global, past: PastFates) {
    let mut machine = opened(rt, alloc);
    enable(&mut machine);
    if machine.device.begin_anew(past).is_err() {
        panic!(rt; "there was no memory");
    }
    assert!(rt; matches!(save(alloc, &machine.device), Err(SaveFault::BegunAnew)));
    work(&mut machine);
    assert!(rt; matches!(save(alloc, &machine.device), Err(SaveFault::BegunAnew)));
}

#[test]
fn a_device_that_began_anew_is_not_saved(rt: HostRuntime) {
    is_not_saved(&rt, rt.alloc(), PastFates::Kept);
    is_not_saved(&rt, rt.alloc(), PastFates::Forgotten);
}

#[test]
fn other_bytes_are_refused(rt: HostRuntime) {
    let mut machine = opened(&rt, rt.alloc());
    enable(&mut machine);
    let mut bytes = saved(&rt, rt.alloc(), &machine);
    for at in 0..bytes.len() {
        bytes[at] ^= 16;
        assert!(rt; load(rt.alloc(), bytes.as_slice()).is_err());
        bytes[at] ^= 16;
        assert!(rt; load(rt.alloc(), &bytes.as_slice()[..at]).is_err());
    }
    assert!(rt; matches!(load(rt.alloc(), &[]), Err(LoadFault::Truncated)));
}
