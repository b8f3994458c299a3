//! Rounds of submit, dispatch and finish on one thread: by calls of a device, or through seats of a
//! shared one.

ghost use Rattle.std.specs.Prelude.{◌≡◌, ◌≤◌, IfOk};

use crate::make_device;
use anyhow::{Result, bail};
use dsa_book::{DispatchAnswer, FinishAnswer, Portal};
use dsa_cells::LinkedStore;
use dsa_desc::Outcome;
use dsa_device::Device;
use dsa_fixtures::single::{CAPS, GROUP, QUEUE};
use dsa_fixtures::{ENQCMD, MOVE, bytes_of};
use dsa_regs::Command;
use dsa_shared::{Blanks, Seats, SharedDevice, Sharing};
use dsa_store::EntryStore;
use std::alloc::Global;
use std::marker::Brand;
use std::sync::Wait;

/// How rounds are made.
#[derive(Clone, Copy)]
pub enum Mode {
    /// By calls of a device.
    Unshared,
    /// Through seats of a shared one.
    Shared,
    /// The same, and the seats are settled in the end.
    Settled,
}

/// The modes by their names.
pub const MODES: [(&str, Mode); 3] = [
    ("unshared", Mode::Unshared),
    ("shared", Mode::Shared),
    ("settled", Mode::Settled),
];

fn unshared<S: EntryStore>(device: Device<S>, rounds: u32) -> u32 {
    let mut device = device;
    let _ = device.write_queue(0, QUEUE);
    let _ = device.write_group(0, GROUP);
    let _ = device.issue(Command::EnableDevice);
    let _ = device.issue(Command::EnableWq(0));
    let bytes = bytes_of(MOVE);
    let mut done = 0u32;
    for _ in 0..rounds {
        let _ = device.submit(0, 0, Portal::Limited, ENQCMD, &bytes);
        if let DispatchAnswer::Taken { ticket, .. } = device.dispatch(0) {
            if let FinishAnswer::Done(_) = device.finish(0, ticket, Outcome::Success) {
                done = done.saturating_add(1);
            }
        }
    }
    done
}

fn shared<S: EntryStore, L: Sharing, R: Wait>(
    rt: &R,
    shared: &SharedDevice<S, L>,
    seats: &mut Seats<L>,
    rounds: u32,
) -> u32 {
    let (Some(client), Some(engine), Some(admin)) = (
        seats.clients.first_mut(),
        seats.engines.first_mut(),
        seats.admin.as_mut(),
    ) else {
        return 0;
    };
    let _ = shared.write_queue(rt, admin, 0, QUEUE);
    let _ = shared.write_group(rt, admin, 0, GROUP);
    let _ = shared.issue(rt, admin, Command::EnableDevice);
    let _ = shared.issue(rt, admin, Command::EnableWq(0));
    let bytes = bytes_of(MOVE);
    let mut done = 0u32;
    for _ in 0..rounds {
        let _ = shared.submit(rt, client, 0, Portal::Limited, ENQCMD, &bytes);
        if let DispatchAnswer::Taken { ticket, .. } = shared.dispatch(rt, engine) {
            if let FinishAnswer::Done(_) = shared.finish(rt, engine, ticket, Outcome::Success) {
                done = done.saturating_add(1);
            }
        }
    }
    done
}

fn share<S: EntryStore, L: Sharing, R: Wait>(
    rt: &R,
    alloc: Global,
    device: Device<S>,
    blanks: Blanks,
    rounds: u32,
    settles: bool,
) -> Result<u32>
    requires blanks { (blanks ≡ L.name) × (L.parts ≡ 129) }
    requires device { (L.caps ≡ device.caps) × (L.capacity ≡ device.capacity) }
    requires clients { L.clients ≡ 1 }
{
    let made = SharedDevice::<S, L>::new(alloc, device, blanks, 1);
    let Ok((device, mut seats)) = made else {
        bail!("not shared");
    };
    let done = shared(rt, &device, &mut seats, rounds);
    if settles && device.settle(seats).is_err() {
        bail!("not settled");
    }
    Ok(done)
}

/// Makes so many rounds on a new device. Answers how many entries ended.
pub fn run<R: Wait>(rt: &R, alloc: Global, mode: Mode, rounds: u32) -> Result<u32> {
    let device = make_device(alloc, &CAPS)?;
    let blanks = Blanks::new();
    match mode {
        Mode::Unshared => Ok(unshared(device, rounds)),
        Mode::Shared => share::<LinkedStore, Brand, R>(rt, alloc, device, blanks, rounds, false),
        Mode::Settled => share::<LinkedStore, Brand, R>(rt, alloc, device, blanks, rounds, true),
    }
}
