//! Steps of a device that holds many entries while a command, or a Drain, waits for another one.

use crate::make_device;
use anyhow::{Result, bail};
use dsa_book::{DispatchAnswer, FinishAnswer, IssueAnswer, PollAnswer, Portal, Ticket};
use dsa_desc::{Descriptor, Outcome};
use dsa_device::Device;
use dsa_explain::awaited_entry;
use dsa_fixtures::{DRAIN, ENQCMD, FIRST_GROUP, MOVE, SHARED_QUEUE, bytes_of};
use dsa_regs::{Caps, Command, GroupConfig, QueueConfig, QueueMask};
use dsa_store::EntryStore;
use std::alloc::Global;

/// What is done while the command or the Drain waits.
#[derive(Clone, Copy)]
pub enum Mode {
    /// Polls of an active drain.
    Drain,
    /// Polls of an active disable.
    Disable,
    /// Other entries come and end while a drain is active.
    Waiting,
    /// The first entry that an active drain waits for is asked for.
    Awaited,
    /// Ends of a Drain in progress, with the others in its queue.
    FinishDrain,
}

/// The modes by their names.
pub const MODES: [(&str, Mode); 5] = [
    ("drain", Mode::Drain),
    ("disable", Mode::Disable),
    ("waiting", Mode::Waiting),
    ("awaited", Mode::Awaited),
    ("finish-drain", Mode::FinishDrain),
];

/// What there is in the end: whether the command or the Drain still waits, and how many entries
/// ended or were told.
#[derive(Clone, Copy)]
pub struct Seen {
    pub waits: bool,
    pub done: u32,
}

const CAPS: Caps = Caps {
    total_size: 4096,
    ..dsa_fixtures::CAPS
};

const LONG_QUEUE: QueueConfig = QueueConfig {
    size: 4088,
    threshold: 4088,
    ..SHARED_QUEUE
};

const SHORT_QUEUE: QueueConfig = QueueConfig {
    size: 8,
    threshold: 8,
    ..SHARED_QUEUE
};

const SECOND_GROUP: GroupConfig = GroupConfig {
    queues: 2,
    engines: 2,
    ..FIRST_GROUP
};

const SECOND_QUEUE: QueueMask = QueueMask { group: 0, mask: 2 };

// The device is On with both queues.
fn set_up<S: EntryStore>(device: &mut Device<S>) {
    let _ = device.write_queue(0, LONG_QUEUE);
    let _ = device.write_queue(1, SHORT_QUEUE);
    let _ = device.write_group(0, FIRST_GROUP);
    let _ = device.write_group(1, SECOND_GROUP);
    let _ = device.issue(Command::EnableDevice);
    let _ = device.issue(Command::EnableWq(0));
    let _ = device.issue(Command::EnableWq(1));
}

// The engine takes an entry that is submitted to the queue of the same number.
fn take<S: EntryStore>(device: &mut Device<S>, engine: u16, desc: Descriptor) -> DispatchAnswer {
    let _ = device.submit(0, engine, Portal::Limited, ENQCMD, &bytes_of(desc));
    device.dispatch(engine)
}

// The first queue holds so many entries more.
fn fill<S: EntryStore>(device: &mut Device<S>, held: u32) {
    let bytes = bytes_of(MOVE);
    for _ in 0..held {
        let _ = device.submit(0, 0, Portal::Limited, ENQCMD, &bytes);
    }
}

// Entries of the second queue come and end.
fn rounds<S: EntryStore>(device: &mut Device<S>, count: u32) -> u32 {
    let bytes = bytes_of(MOVE);
    let mut done = 0u32;
    for _ in 0..count {
        let _ = device.submit(0, 1, Portal::Limited, ENQCMD, &bytes);
        if let DispatchAnswer::Taken { ticket, .. } = device.dispatch(1) {
            if let FinishAnswer::Done(_) = device.finish(1, ticket, Outcome::Success) {
                done = done.saturating_add(1);
            }
        }
    }
    done
}

fn polls<S: EntryStore>(device: &mut Device<S>, count: u32) {
    for _ in 0..count {
        let _ = device.poll();
    }
}

// How often an entry is told.
fn told<S: EntryStore>(device: &Device<S>, count: u32) -> u32 {
    let mut told = 0u32;
    for _ in 0..count {
        if awaited_entry(device).is_some() {
            told = told.saturating_add(1);
        }
    }
    told
}

// The first queue holds so many entries, and the command waits for one of the second, which is in
// progress.
fn begin<S: EntryStore>(device: &mut Device<S>, command: Command, held: u32) -> Result<()> {
    fill(device, held);
    let _ = take(device, 1, MOVE);
    if device.issue(command) != IssueAnswer::Active {
        bail!("the command does not wait");
    }
    Ok(())
}

// An entry of the first queue and a Drain after it are in progress, and so many others come after
// both.
fn start_drain<S: EntryStore>(device: &mut Device<S>, held: u32) -> Result<Ticket> {
    let _ = take(device, 0, MOVE);
    let DispatchAnswer::Taken { ticket, .. } = take(device, 0, DRAIN) else {
        bail!("the Drain is not taken");
    };
    fill(device, held);
    Ok(ticket)
}

fn finishes<S: EntryStore>(device: &mut Device<S>, drain: Ticket, count: u32) -> Seen {
    for _ in 0..count {
        let _ = device.finish(0, drain, Outcome::Success);
    }
    let waits = device.finish(0, drain, Outcome::Success) == FinishAnswer::NotReady;
    Seen { waits, done: 0 }
}

// The device is new.
fn measure<S: EntryStore>(
    device: &mut Device<S>,
    mode: Mode,
    held: u32,
    count: u32,
) -> Result<Seen> {
    set_up(device);
    if let Mode::FinishDrain = mode {
        let drain = start_drain(device, held)?;
        return Ok(finishes(device, drain, count));
    }
    let command = match mode {
        Mode::Disable => Command::DisableWq(SECOND_QUEUE),
        _ => Command::DrainWq(SECOND_QUEUE),
    };
    begin(device, command, held)?;
    let done = match mode {
        Mode::Waiting => rounds(device, count),
        Mode::Awaited => told(device, count),
        _ => {
            polls(device, count);
            0
        }
    };
    let waits = device.poll() == PollAnswer::Active;
    Ok(Seen { waits, done })
}

/// Makes so many steps of a new device that holds so many entries.
pub fn run(alloc: Global, mode: Mode, held: u32, count: u32) -> Result<Seen> {
    let mut device = make_device(alloc, &CAPS)?;
    measure(&mut device, mode, held, count)
}
