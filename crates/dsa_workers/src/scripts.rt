//! What workers are to do, and what they did.

use dsa_book::{Kind, Portal};
use dsa_desc::{Descriptor, Outcome};
use dsa_regs::Command;
use dsa_shared::{SharedDevice, Sharing};
use dsa_store::EntryStore;
use std::alloc::{Allocator, Global};
use thiserror::Error;

/// Each worker passes it before each of its turns, counted from 0, and once more at its end, with
/// the number of turns that it has had. Then it leaves, and does not come again.
pub trait Gate {
    fn pass(&self, worker: usize, turn: u32);

    fn leave(&self, _worker: usize) {}
}

/// A submission: the 64 bytes of a descriptor that are written to a portal of a queue.
#[derive(Clone, Copy, Debug, PartialEq, Eq)]
pub struct ClientStep {
    pub queue: u16,
    pub portal: Portal,
    pub kind: Kind,
    pub bytes: [u8; 64],
}

/// What an engine hands in: the descriptor of each member that it fetches, and how the work of each
/// entry went.
#[derive(Clone, Copy, Debug, PartialEq, Eq)]
pub struct EngineScript {
    pub member: Descriptor,
    pub outcome: Outcome,
}

/// A script for each seat. The administrator's list is one even when it is empty.
#[derive(Drop)]
pub struct Scripts {
    pub clients: Vec<Vec<ClientStep>>,
    pub engines: Vec<EngineScript>,
    pub admin: Vec<Command>,
}

/// What all workers of a run share: the device, the gate, and how many turns each may have.
#[derive(Drop)]
pub struct Run<'a, S: EntryStore, L: Sharing, G: Gate> {
    pub shared: &'a SharedDevice<S, L>,
    pub gate: &'a G,
    pub turns: u32,
}

/// How a worker came to its end.
#[derive(Clone, Copy, Debug, PartialEq, Eq)]
pub enum WorkerEnd {
    /// It is through with its script.
    ScriptDone,
    /// It has had all its turns.
    TurnsOut,
    /// It found the history full.
    HistoryFull,
}

/// The turns that a worker has had, and how it came to its end.
#[derive(Clone, Copy, Debug, PartialEq, Eq)]
pub struct Stint {
    pub turns: u32,
    pub ended: WorkerEnd,
}

// So many turns, ended in that way.
macro_rules! stint {
    ($turns:expr, $ended:ident) => {
        Stint {
            turns: $turns,
            ended: WorkerEnd::$ended,
        }
    };
}

pub(crate) use stint;

/// What each worker did: clients first, then engines, then the administrator.
#[derive(Drop)]
pub struct RunReport<A: Allocator = Global> {
    pub turns: Vec<u32, A>,
    pub ended: Vec<WorkerEnd, A>,
}

/// Why no worker ran.
#[derive(Clone, Copy, Debug, PartialEq, Eq, Error)]
pub enum RunFault {
    #[error("a seat has no script, or a script has no seat")]
    ScriptCount,
    #[error("out of memory")]
    OutOfMemory,
}
