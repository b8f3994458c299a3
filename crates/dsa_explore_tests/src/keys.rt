//! Keys of devices that make steps.

use dsa_book::{DispatchAnswer, Event, Kind, Portal};
use dsa_desc::{Descriptor, Outcome};
use dsa_fixtures::{CAPS, DRAIN, ENABLED, ENQCMD, MOVE, batch_of, single};
use dsa_key_bytes::{Line, TooLong, write_changing_key, write_key};
use dsa_linked::LinkedDevice;
use dsa_regs::{Caps, Command};
use std::alloc::Global;
use std::process::Abort;

const LABELS: [u32; 6] = [3, 200, 4, 100_000, 9, 10];

fn opened(rt: &impl Abort, alloc: Global, caps: Caps) -> LinkedDevice {
    match LinkedDevice::new(alloc, caps, 200) {
        Ok(machine) => machine,
        Err(_) => panic!(rt; "the device was not made"),
    }
}

fn line_of(rt: &impl Abort, alloc: Global, capacity: usize) -> Line {
    match Line::new(alloc, capacity) {
        Ok(line) => line,
        Err(_) => panic!(rt; "there was no memory"),
    }
}

fn make_steps(machine: &mut LinkedDevice, events: &[Event]) {
    for event in events {
        machine.device.step(*event);
    }
}

fn submission(desc: Descriptor) -> Event {
    Event::Submit {
        client: 0,
        queue: 0,
        portal: Portal::Unlimited,
        kind: ENQCMD,
        desc,
    }
}

// One Move waits; another one before it is over, or there was none.
fn with_one_move(rt: &impl Abort, alloc: Global, has_past: bool) -> LinkedDevice {
    let mut machine = opened(rt, alloc, CAPS);
    make_steps(&mut machine, &ENABLED);
    if has_past {
        make_steps(&mut machine, &[submission(MOVE), submission(MOVE)]);
        if let DispatchAnswer::Taken { ticket, .. } = machine.device.dispatch(0) {
            machine.device.finish(0, ticket, Outcome::Success);
        }
    } else {
        make_steps(&mut machine, &[submission(MOVE)]);
    }
    machine
}

#[test]
fn names_and_cells_are_in_no_key(rt: HostRuntime) {
    let first = with_one_move(&rt, rt.alloc(), false);
    let second = with_one_move(&rt, rt.alloc(), true);
    let mut line = line_of(&rt, rt.alloc(), 200);
    let mut other = line_of(&rt, rt.alloc(), 200);
    assert!(rt; write_key(&first.device, &[7], &mut line).is_ok());
    assert!(rt; write_key(&second.device, &[5, 7], &mut other).is_ok());
    assert!(rt; line.bytes() == other.bytes());
    assert!(rt; write_key(&second.device, &[7, 5], &mut other).is_ok());
    assert!(rt; line.bytes() != other.bytes());
}

// Whether each of these steps leaves other bytes than the step before it.
fn each_step_is_told(rt: &impl Abort, alloc: Global, caps: Caps, events: &[Event]) -> bool {
    let mut machine = opened(rt, alloc, caps);
    let mut before = line_of(rt, alloc, 400);
    let mut after = line_of(rt, alloc, 400);
    for event in events {
        let _ = write_key(&machine.device, &LABELS, &mut before);
        machine.device.step(*event);
        let _ = write_key(&machine.device, &LABELS, &mut after);
        if before.bytes() == after.bytes() {
            return false;
        }
    }
    true
}

// What changes each part of a key: a batch with a member, a Drain, a dropped Move and a disable.
fn steps_of_each_part() -> [Event; 12] {
    [
        submission(batch_of(2)),
        submission(MOVE),
        submission(DRAIN),
        Event::Dispatch { engine: 0 },
        Event::Fetch {
            engine: 0,
            desc: MOVE,
        },
        Event::Start { engine: 0 },
        Event::Submit {
            client: 0,
            queue: 0,
            portal: Portal::Unlimited,
            kind: Kind::Movdir64b,
            desc: MOVE,
        },
        Event::ClearError,
        Event::Issue {
            command: Command::DrainAll,
        },
        Event::Dispatch { engine: 0 },
        Event::Fetch {
            engine: 0,
            desc: MOVE,
        },
        Event::Start { engine: 0 },
    ]
}

#[test]
fn the_set_up_is_told(rt: HostRuntime) {
    assert!(rt; each_step_is_told(&rt, rt.alloc(), CAPS, &ENABLED));
    let small = single::CAPS;
    assert!(rt; each_step_is_told(&rt, rt.alloc(), small, &ENABLED));
}

#[test]
fn a_key_may_be_too_long(rt: HostRuntime) {
    let machine = with_one_move(&rt, rt.alloc(), false);
    let mut line = line_of(&rt, rt.alloc(), 200);
    assert!(rt; write_changing_key(&machine.device, &[7], &mut line).is_ok());
    let size = line.bytes().len();
    let mut exact = line_of(&rt, rt.alloc(), size);
    assert!(rt; write_changing_key(&machine.device, &[7], &mut exact).is_ok());
    assert!(rt; write_key(&machine.device, &[7], &mut exact) == Err(TooLong));
    assert!(rt; exact.bytes().is_empty());
    assert!(rt; write_changing_key(&machine.device, &[7], &mut exact).is_ok());
    assert!(rt; exact.bytes() == line.bytes());
}

#[test]
fn each_part_is_told(rt: HostRuntime) {
    let mut machine = opened(&rt, rt.alloc(), CAPS);
    make_steps(&mut machine, &ENABLED);
    let mut before = line_of(&rt, rt.alloc(), 400);
    let mut after = line_of(&rt, rt.alloc(), 400);
    for event in steps_of_each_part().iter() {
        let _ = write_changing_key(&machine.device, &LABELS, &mut before);
        machine.device.step(*event);
        let _ = write_changing_key(&machine.device, &LABELS, &mut after);
        assert!(rt; before.bytes() != after.bytes(), "{event:?}");
    }
}
