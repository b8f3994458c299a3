//! A client submits Moves through the limited portal of a queue, and backs off while it is told to
//! come again.
#![tactic(auto)]

use anyhow::{Result, bail};
use dsa_book::{Cause, DispatchAnswer, Kind, Portal, SubmitAnswer};
use dsa_desc::{Descriptor, Outcome};
use dsa_linked::LinkedDevice;
use dsa_regs::{Caps, Command, GroupConfig, QueueConfig};
use std::io::Print;

const CAPS: Caps = Caps {
    queues: 1,
    groups: 1,
    engines: 1,
    total_size: 8,
    read_buffers: 16,
    slots: 2,
    max_batch_shift: 3,
    max_xfer_shift: 20,
};

const QUEUE: QueueConfig = QueueConfig {
    size: 8,
    threshold: 3,
    dedicated: false,
    priority: 1,
    pasid: 0,
    max_batch_shift: 3,
    max_xfer_shift: 20,
};

const GROUP: GroupConfig = GroupConfig {
    queues: 1,
    engines: 1,
    reserved: 4,
    allowed: 16,
};

const MOVE: Descriptor = Descriptor {
    pasid: 0,
    flags: 0,
    op: 3,
    size: 4096,
};

const ENQCMD: Kind = Kind::Enqcmd { pasid: 5 };

// The device and its queue are On.
fn set_up(machine: &mut LinkedDevice) {
    machine.device.write_queue(0, QUEUE);
    machine.device.write_group(0, GROUP);
    machine.device.issue(Command::EnableDevice);
    machine.device.issue(Command::EnableWq(0));
}

// The engine takes and ends so many entries, or as many as wait.
fn work(machine: &mut LinkedDevice, most: u32) {
    for _ in 0..most {
        let DispatchAnswer::Taken { ticket, .. } = machine.device.dispatch(0) else {
            return;
        };
        machine.device.finish(0, ticket, Outcome::Success);
    }
}

// How often the client was told to come again, before its descriptor was accepted; the engine works
// on while it waits, each time twice as long. `None` where it gave up, or another answer came.
fn submit(machine: &mut LinkedDevice, bytes: &[u8; 64]) -> Option<u32> {
    for retries in 0..10u32 {
        match machine.device.submit(0, 0, Portal::Limited, ENQCMD, bytes) {
            SubmitAnswer::Accepted(_) => return Some(retries),
            SubmitAnswer::Retry(Cause::AtLimit) => work(machine, 1 << retries),
            _ => return None,
        }
    }
    None
}

// Eight submissions, one after the other.
fn submit_all<R: Print>(rt: &R, machine: &mut LinkedDevice) -> Result<()> {
    let bytes = MOVE.to_bytes();
    for number in 0..8u32 {
        let Some(retries) = submit(machine, &bytes) else {
            bail!("submission {number} was not accepted");
        };
        println!(rt; "submission {number}: retries {retries}, accepted")?;
    }
    Ok(())
}

fn main(rt: HostRuntime) -> Result<()> {
    let Ok(mut machine) = LinkedDevice::new(rt.alloc(), CAPS, 1000) else {
        bail!("no device was made");
    };
    set_up(&mut machine);
    submit_all(&rt, &mut machine)?;
    work(&mut machine, 8);
    println!(rt;
        "{} ended, {} held",
        machine.device.fates().len(),
        machine.device.held()
    )?;
    Ok(())
}
