//! Where parties stand, and the moves that they make.

use crate::script::Submission;
use dsa_book::Kind;
use dsa_desc::{Descriptor, Outcome};

/// Where a client stands.
#[derive(Clone, Copy, Debug, PartialEq, Eq)]
pub struct ClientPlace {
    /// The label of its next submission, or the end of its part.
    pub next: u32,
    /// How often that one was turned away.
    pub refusals: u32,
}

/// Where all parties stand, and what they remember.
#[derive(Debug, Drop)]
pub struct Places {
    /// A place for each client.
    pub clients: Vec<ClientPlace>,
    /// For each administrator the number of its next act, or the end of its part.
    pub administrators: Vec<u32>,
    /// For each watch of the script, whether it has come.
    pub came: Vec<bool>,
}

/// What a client submits next.
#[derive(Clone, Copy, Debug, PartialEq, Eq)]
pub struct ClientTurn {
    /// The number of the client.
    pub client: u16,
    pub place: ClientPlace,
    pub desc: Descriptor,
    pub submission: Submission,
}

/// What a label says of its entry. A member has the queue of its batch, and is submitted as its
/// batch is.
#[derive(Clone, Copy, Debug, PartialEq, Eq)]
pub struct EntryDescription {
    pub desc: Descriptor,
    pub queue: u16,
    pub kind: Kind,
    pub member: bool,
}

/// A member that is fetched next.
#[derive(Clone, Copy, Debug, PartialEq, Eq)]
pub struct NextMember {
    pub label: u32,
    pub desc: Descriptor,
}

/// Who moves. A client and an administrator are named by their number in the script, which is not
/// the number that a client's submissions have.
#[derive(Clone, Copy, Debug, PartialEq, Eq)]
pub enum Move {
    /// A client makes its next submission.
    Client(u16),
    /// An administrator does its next act.
    Administrator(u16),
    /// An engine asks for an entry of its group's queues.
    Dispatch {
        engine: u16,
    },
    /// An engine fetches the next member of its batch.
    Fetch {
        engine: u16,
    },
    /// An engine starts the first of its members that does not run.
    Start {
        engine: u16,
    },
    /// An engine ends the entry with this label.
    Finish {
        engine: u16,
        label: u32,
        outcome: Outcome,
    },
}
