//! A device of one shared queue, one group and one engine.

use dsa_regs::{Caps, GroupConfig, QueueConfig};

pub const CAPS: Caps = Caps {
    queues: 1,
    groups: 1,
    engines: 1,
    total_size: 16,
    read_buffers: 32,
    slots: 4,
    ..crate::CAPS
};

pub const QUEUE: QueueConfig = QueueConfig {
    size: 16,
    threshold: 8,
    ..crate::SHARED_QUEUE
};

pub const GROUP: GroupConfig = GroupConfig {
    reserved: 0,
    allowed: 32,
    ..crate::FIRST_GROUP
};
