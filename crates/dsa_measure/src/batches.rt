//! Batches whose members are all fetched, then all started, and then all ended.

use crate::make_device;
use anyhow::Result;
use dsa_book::{DispatchAnswer, FinishAnswer, Portal, Ticket};
use dsa_desc::{Descriptor, Outcome};
use dsa_device::Device;
use dsa_fixtures::single::{CAPS, GROUP, QUEUE};
use dsa_fixtures::{ENQCMD, NO_OP, bytes_of};
use dsa_regs::{Caps, Command, QueueConfig};
use dsa_store::EntryStore;
use std::alloc::Global;

/// The one mode by its name.
pub const MODES: [(&str, ()); 1] = [("batches", ())];

const LONG_BATCHES: Caps = Caps {
    max_batch_shift: 10,
    ..CAPS
};

const LONG_QUEUE: QueueConfig = QueueConfig {
    max_batch_shift: 10,
    ..QUEUE
};

// The device is On with its queue.
fn set_up<S: EntryStore>(device: &mut Device<S>) {
    let _ = device.write_queue(0, LONG_QUEUE);
    let _ = device.write_group(0, GROUP);
    let _ = device.issue(Command::EnableDevice);
    let _ = device.issue(Command::EnableWq(0));
}

fn fetch_all<S: EntryStore>(device: &mut Device<S>, members: u32) {
    for _ in 0..members {
        let _ = device.fetch(0, NO_OP);
    }
}

fn start_all<S: EntryStore>(device: &mut Device<S>, members: u32) {
    for _ in 0..members {
        let _ = device.start(0);
    }
}

fn end_all<S: EntryStore>(device: &mut Device<S>, members: u32) {
    for _ in 0..members {
        if let Some((cell, entry)) = device.member_at(0, 0) {
            let name = entry.name;
            let _ = device.finish(0, Ticket { cell, name }, Outcome::Success);
        }
    }
}

// Whether a batch of so many members came and was done.
fn is_done<S: EntryStore>(device: &mut Device<S>, members: u32) -> bool {
    let batch = Descriptor {
        op: 1,
        size: members,
        ..NO_OP
    };
    let _ = device.submit(0, 0, Portal::Limited, ENQCMD, &bytes_of(batch));
    let DispatchAnswer::Taken { ticket, .. } = device.dispatch(0) else {
        return false;
    };
    fetch_all(device, members);
    start_all(device, members);
    end_all(device, members);
    matches!(
        device.finish(0, ticket, Outcome::Success),
        FinishAnswer::Done(0x01)
    )
}

// The device is new.
fn count_done<S: EntryStore>(device: &mut Device<S>, members: u32, count: u32) -> u32 {
    set_up(device);
    let mut done = 0u32;
    for _ in 0..count {
        if is_done(device, members) {
            done = done.saturating_add(1);
        }
    }
    done
}

/// How many of so many batches, each of so many members, were done on a new device.
pub fn run(alloc: Global, members: u32, count: u32) -> Result<u32> {
    let mut device = make_device(alloc, &LONG_BATCHES)?;
    Ok(count_done(&mut device, members, count))
}
