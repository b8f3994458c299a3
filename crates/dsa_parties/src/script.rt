//! Scripts: the descriptors that clients submit, with their members, and what administrators do.

ghost use Rattle.std.specs.Prelude.{◌≡◌, true};
ghost use Rattle.dsa_parties.specs.Scripts.{is_script};

use crate::watches::Watch;
use dsa_book::{Kind, Portal};
use dsa_desc::Descriptor;
use dsa_regs::{Command, GroupConfig, QueueConfig};

/// What a client does when it is told to retry.
#[derive(Clone, Copy, Debug, PartialEq, Eq)]
pub enum RetryPolicy {
    /// It goes on.
    GiveUp,
    /// It submits again, without end.
    Again,
    /// It submits again, at most so many times.
    AtMost(u32),
}

/// The outcomes that an engine may give to an entry.
#[derive(Clone, Copy, Debug, PartialEq, Eq)]
pub enum Outcomes {
    SuccessAlone,
    PageFaultAlone,
    Both,
}

/// How a client submits a descriptor.
#[derive(Clone, Copy, Debug, PartialEq, Eq)]
pub struct Submission {
    pub queue: u16,
    pub portal: Portal,
    pub kind: Kind,
    pub retry: RetryPolicy,
    /// How many members it has: they have the labels behind its own.
    pub members: u32,
}

/// How an entry comes to the device.
#[derive(Clone, Copy, Debug, PartialEq, Eq)]
pub enum Origin {
    /// A client submits it.
    Submitted(Submission),
    /// An engine fetches it, as a member of the batch with this label.
    Fetched { batch: u32 },
}

/// A descriptor of a script.
#[derive(Clone, Copy, Debug, PartialEq, Eq)]
pub struct ScriptEntry {
    pub desc: Descriptor,
    pub outcomes: Outcomes,
    pub origin: Origin,
}

/// The part of a table that is one party's: from a first number up to an end, which is not of it.
#[derive(Clone, Copy, Debug, PartialEq, Eq)]
pub struct Part {
    pub first: u32,
    pub end: u32,
}

/// A client with the number that its submissions have, and its part of the entries.
#[derive(Clone, Copy, Debug, PartialEq, Eq)]
pub struct ClientScript {
    pub number: u16,
    pub part: Part,
}

/// Which answer to a poll ends the polling.
#[derive(Clone, Copy, Debug, PartialEq, Eq)]
pub enum Until {
    /// Any answer: one poll.
    Once,
    /// `Finished` alone.
    Finished,
    /// `Finished`, and `Nothing`: no command is active.
    Over,
}

/// What an administrator does.
#[derive(Clone, Copy, Debug, PartialEq, Eq)]
pub enum Act {
    /// It issues a command, and issues it again while another is active, or not.
    Issue { command: Command, again: bool },
    /// It polls.
    Poll { until: Until },
    /// It writes the configuration of a queue.
    WriteQueue { queue: u16, config: QueueConfig },
    /// It writes the configuration of a group.
    WriteGroup { group: u16, config: GroupConfig },
    /// It clears the noted error.
    ClearError,
}

/// What all parties do. The label of an entry is its number in `entries`.
#[derive(Debug, Drop)]
pub struct Script {
    /// What the clients submit, client by client, each batch with its members behind it.
    pub entries: Vec<ScriptEntry>,
    pub clients: Vec<ClientScript>,
    /// What the administrators do, one administrator after the other.
    pub acts: Vec<Act>,
    /// Their parts of the acts.
    pub administrators: Vec<Part>,
    /// The numbers of the engines that make steps.
    pub engines: Vec<u16>,
    /// What the parties remember of the steps that were made.
    pub watches: Vec<Watch>,
    /// The parts fit the tables.
    pub ghost fits: { is_script entries.items clients.items acts.items administrators.items
        ≡ true },
}
