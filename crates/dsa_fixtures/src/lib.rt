//! Small devices, descriptors and streams that tests, an example and measurements share.
//!
//! The device at the head of the crate has two queues, a shared and a dedicated one, each with its
//! group and its engine. The one in [`single`] has one shared queue. [`streams`] has a reader and a
//! writer that count.
#![tactic(auto)]

ghost use Rattle.std.specs.Prelude.{◌≡◌};
ghost use Rattle.dsa_desc.specs.Descriptor.{read, as_written};

use dsa_book::{Event, Kind};
use dsa_desc::{Descriptor, QueueLimits};
use dsa_regs::{Caps, Command, GroupConfig, QueueConfig, QueueMask};

pub mod single;
pub mod streams;

pub const CAPS: Caps = Caps {
    queues: 2,
    groups: 2,
    engines: 2,
    total_size: 8,
    read_buffers: 16,
    slots: 2,
    max_batch_shift: 3,
    max_xfer_shift: 20,
};

/// The lists that such a device asks of a store.
pub const LISTS: u16 = 6;

/// The cells that such a device asks of a store.
pub const CELLS: u32 = 28;

pub const FIRST_GROUP: GroupConfig = GroupConfig {
    queues: 1,
    engines: 1,
    reserved: 4,
    allowed: 8,
};

pub const SECOND_GROUP: GroupConfig = GroupConfig {
    queues: 2,
    engines: 2,
    reserved: 8,
    allowed: 12,
};

pub const SHARED_QUEUE: QueueConfig = QueueConfig {
    size: 4,
    threshold: 2,
    dedicated: false,
    priority: 1,
    pasid: 0,
    max_batch_shift: 3,
    max_xfer_shift: 20,
};

pub const DEDICATED_QUEUE: QueueConfig = QueueConfig {
    size: 2,
    threshold: 0,
    dedicated: true,
    priority: 2,
    pasid: 7,
    ..SHARED_QUEUE
};

pub const LIMITS: QueueLimits = QueueLimits {
    max_batch_shift: 3,
    max_xfer_shift: 20,
};

pub const FIRST_QUEUE: QueueMask = QueueMask { group: 0, mask: 1 };

pub const ENQCMD: Kind = Kind::Enqcmd { pasid: 5 };

pub const NO_OP: Descriptor = Descriptor {
    pasid: 0,
    flags: 0,
    op: 0,
    size: 0,
};

pub const FENCED_NO_OP: Descriptor = Descriptor { flags: 1, ..NO_OP };

/// A Drain.
pub const DRAIN: Descriptor = Descriptor { op: 2, ..NO_OP };

/// A Memory Move of one page.
pub const MOVE: Descriptor = Descriptor {
    op: 3,
    size: 4096,
    ..NO_OP
};

pub const FENCED_MOVE: Descriptor = Descriptor { flags: 1, ..MOVE };

/// A Memory Move that needs four read buffers.
pub const LARGE_MOVE: Descriptor = Descriptor {
    size: 16384,
    ..MOVE
};

/// What configures and enables the shared queue, its group and the device.
pub const ENABLED: [Event; 4] = [
    Event::WriteQueue {
        queue: 0,
        config: SHARED_QUEUE,
    },
    Event::WriteGroup {
        group: 0,
        config: FIRST_GROUP,
    },
    Event::Issue {
        command: Command::EnableDevice,
    },
    Event::Issue {
        command: Command::EnableWq(0),
    },
];

/// A Batch of so many members.
pub fn batch_of(count: u32) -> Descriptor
    ensures { result ≡ record { pasid = 0; flags = 0; op = 1; size = count } }
{
    Descriptor {
        op: 1,
        size: count,
        ..NO_OP
    }
}

/// The 64 bytes of a descriptor: its fields in their places, and 0 everywhere else.
pub fn bytes_of(desc: Descriptor) -> [u8; 64]
    ensures { read result ≡ as_written desc }
{
    desc.to_bytes()
}
