//! Worlds: devices, what is set up there, and the scripts of their parties.

use dsa_book::{Event, Kind, Portal};
use dsa_desc::Descriptor;
use dsa_parties::{
    Act, ClientScript, Origin, Outcomes, Part, RetryPolicy, Script, ScriptEntry, Submission, Watch,
};
use dsa_regs::{Caps, Command, GroupConfig, QueueConfig};
use std::alloc::{AllocError, Global};

/// A device, what is set up there, and the tables of a script.
#[derive(Clone, Copy)]
pub struct World<'a> {
    pub caps: Caps,
    pub setup: &'a [Event],
    pub entries: &'a [ScriptEntry],
    pub clients: &'a [ClientScript],
    pub acts: &'a [Act],
    pub administrators: &'a [Part],
    pub engines: &'a [u16],
    pub watches: &'a [Watch],
}

impl World<'_> {
    /// The script of its tables, if they fit.
    pub fn script(&self, alloc: Global) -> Result<Option<Script>, AllocError> {
        let entries = Vec::from_slice(alloc, self.entries)?;
        let clients = Vec::from_slice(alloc, self.clients)?;
        let acts = Vec::from_slice(alloc, self.acts)?;
        let administrators = Vec::from_slice(alloc, self.administrators)?;
        let engines = Vec::from_slice(alloc, self.engines)?;
        let watches = Vec::from_slice(alloc, self.watches)?;
        Ok(Script::new(entries, clients, acts, administrators, engines, watches))
    }
}

// ---- devices

pub const ONE_ENGINE: Caps = Caps {
    queues: 1,
    groups: 1,
    engines: 1,
    total_size: 8,
    read_buffers: 32,
    slots: 2,
    max_batch_shift: 3,
    max_xfer_shift: 20,
};

pub const TWO_ENGINES: Caps = Caps {
    engines: 2,
    ..ONE_ENGINE
};

pub const THREE_GROUPS: Caps = Caps {
    queues: 3,
    groups: 3,
    engines: 3,
    ..ONE_ENGINE
};

const QUEUE: QueueConfig = QueueConfig {
    size: 4,
    threshold: 2,
    dedicated: false,
    priority: 1,
    pasid: 0,
    max_batch_shift: 3,
    max_xfer_shift: 20,
};

const GROUP: GroupConfig = GroupConfig {
    queues: 1,
    engines: 1,
    reserved: 0,
    allowed: 32,
};

/// The queue and the group of these engines are written and enabled.
pub fn enabled(engines: u64) -> [Event; 4] {
    [
        Event::WriteQueue {
            queue: 0,
            config: QUEUE,
        },
        Event::WriteGroup {
            group: 0,
            config: GroupConfig { engines, ..GROUP },
        },
        issued(Command::EnableDevice),
        issued(Command::EnableWq(0)),
    ]
}

/// The same, and a client has sent a move to the queue.
pub fn enabled_and_sent(engines: u64) -> [Event; 5] {
    let opened = enabled(engines);
    let sent = Event::Submit {
        client: 0,
        queue: 0,
        portal: Portal::Limited,
        kind: Kind::Enqcmd { pasid: 1 },
        desc: MOVE,
    };
    [opened[0], opened[1], opened[2], opened[3], sent]
}

const SMALL_QUEUE: QueueConfig = QueueConfig {
    size: 2,
    threshold: 1,
    ..QUEUE
};

fn small_queue_written(queue: u16) -> Event {
    Event::WriteQueue {
        queue,
        config: SMALL_QUEUE,
    }
}

// A group of the queue and of the engine with this mask.
fn small_group_written(group: u16, mask: u64) -> Event {
    Event::WriteGroup {
        group,
        config: GroupConfig {
            queues: mask,
            engines: mask,
            reserved: 0,
            allowed: 8,
        },
    }
}

fn issued(command: Command) -> Event {
    Event::Issue { command }
}

/// Three groups of one queue and one engine are written and enabled.
pub fn enabled_groups() -> [Event; 10] {
    [
        small_queue_written(0),
        small_queue_written(1),
        small_queue_written(2),
        small_group_written(0, 1),
        small_group_written(1, 2),
        small_group_written(2, 4),
        issued(Command::EnableDevice),
        issued(Command::EnableWq(0)),
        issued(Command::EnableWq(1)),
        issued(Command::EnableWq(2)),
    ]
}

// ---- entries

pub const MOVE: Descriptor = Descriptor {
    pasid: 0,
    flags: 0,
    op: 3,
    size: 16,
};

pub const FENCED_MOVE: Descriptor = Descriptor { flags: 1, ..MOVE };

fn submission(queue: u16, pasid: u32, retry: RetryPolicy, members: u32) -> Origin {
    Origin::Submitted(Submission {
        queue,
        portal: Portal::Limited,
        kind: Kind::Enqcmd { pasid },
        retry,
        members,
    })
}

/// A move to this queue with this PASID.
pub fn submitted(queue: u16, pasid: u32, retry: RetryPolicy) -> ScriptEntry {
    ScriptEntry {
        desc: MOVE,
        outcomes: Outcomes::SuccessAlone,
        origin: submission(queue, pasid, retry, 0),
    }
}

/// A batch of so many.
pub fn batch(members: u32) -> ScriptEntry {
    ScriptEntry {
        desc: Descriptor {
            op: 1,
            size: members,
            ..MOVE
        },
        outcomes: Outcomes::SuccessAlone,
        origin: submission(0, 1, RetryPolicy::Again, members),
    }
}

/// A member of it, which may fault.
pub fn member(desc: Descriptor) -> ScriptEntry {
    ScriptEntry {
        desc,
        outcomes: Outcomes::Both,
        origin: Origin::Fetched { batch: 0 },
    }
}

// ---- parties

/// The numbers from the first up to the end.
pub fn part(first: u32, end: u32) -> Part {
    Part { first, end }
}

/// A client with that part.
pub fn client(number: u16, first: u32, end: u32) -> ClientScript {
    ClientScript {
        number,
        part: part(first, end),
    }
}

/// The command is issued, whatever the answer.
pub fn once(command: Command) -> Act {
    Act::Issue {
        command,
        again: false,
    }
}

/// The threshold of queue 0 is written.
pub fn threshold_written(threshold: u16) -> Act {
    Act::WriteQueue {
        queue: 0,
        config: QueueConfig { threshold, ..QUEUE },
    }
}
