//! What can happen to the device: one event for each of its steps.

ghost use Rattle.std.specs.Prelude.{◌≡◌, ◌↔◌, IsTrue};

use crate::answer::{Reply, Ticket};
use dsa_desc::{Descriptor, Outcome};
use dsa_regs::{Command, GroupConfig, QueueConfig};

/// The address that a descriptor is written to: on the limited portal of a shared queue the
/// threshold bounds the occupancy, else the size of the queue does (profile).
#[derive(Clone, Copy, Debug, PartialEq, Eq)]
pub enum Portal {
    Limited,
    Unlimited,
}

/// The instruction that writes the descriptor: ENQCMD to a shared queue, MOVDIR64B to a dedicated
/// one (Intel DSA specification; Intel SDM, ENQCMD and MOVDIR64B).
#[derive(Clone, Copy, Debug, PartialEq, Eq)]
pub enum Kind {
    /// ENQCMD, with the PASID of the register IA32_PASID, of which bits 19:0 count.
    Enqcmd { pasid: u32 },
    /// MOVDIR64B. The descriptor gets the PASID of the queue.
    Movdir64b,
}

/// One call of the device: who asks, and for what.
#[derive(Clone, Copy, Debug, PartialEq, Eq)]
pub enum Event {
    /// A client writes a descriptor to a portal of a queue.
    Submit {
        client: u16,
        queue: u16,
        portal: Portal,
        kind: Kind,
        desc: Descriptor,
    },
    /// An engine asks for an entry of its group's queues.
    Dispatch {
        engine: u16,
    },
    /// An engine hands in the next member of its batch.
    Fetch {
        engine: u16,
        desc: Descriptor,
    },
    /// An engine starts the first of its members that does not run.
    Start {
        engine: u16,
    },
    /// An engine ends a running entry, and says how its work went.
    Finish {
        engine: u16,
        ticket: Ticket,
        outcome: Outcome,
    },
    /// The administrator issues a command.
    Issue {
        command: Command,
    },
    /// The administrator asks whether the active command is over.
    Poll,
    /// The administrator writes the configuration of a queue.
    WriteQueue {
        queue: u16,
        config: QueueConfig,
    },
    /// The administrator writes the configuration of a group.
    WriteGroup {
        group: u16,
        config: GroupConfig,
    },
    /// The administrator clears the noted error.
    ClearError,
}

/// One step of the device: an event and what was answered to it.
#[derive(Clone, Copy, Debug, PartialEq, Eq)]
pub struct Step {
    pub event: Event,
    pub reply: Reply,
}

/// Who makes a step: a client by its number, an engine by its number, or the one administrator.
#[derive(Clone, Copy, Debug, PartialEq, Eq)]
pub enum Actor {
    Client(u16),
    Engine(u16),
    Admin,
}

impl Event {
    ghost use Rattle.dsa_book.specs.Totals.{actor_of};

    /// Who makes a step of this event.
    pub fn actor(&self) -> Actor
        ensures { result ≡ actor_of self.now }
    {
        match self {
            Event::Submit { client, .. } => Actor::Client(*client),
            Event::Dispatch { engine }
            | Event::Fetch { engine, .. }
            | Event::Start { engine }
            | Event::Finish { engine, .. } => Actor::Engine(*engine),
            _ => Actor::Admin,
        }
    }
}

impl Step {
    /// Whether the other step has the same event and the same answer.
    pub fn is_same(&self, other: &Step) -> bool
        ensures { IsTrue result ↔ (self.now ≡ other.now) }
    {
        *self == *other
    }
}
