//! Formulas on where parties stand, and on the state of their device.

use dsa_regs::Phase;

/// How an entry is held.
#[derive(Clone, Copy, Debug, PartialEq, Eq)]
pub enum Being {
    /// It is in a queue, or an engine has it.
    Held,
    /// It is in its queue.
    Waiting,
}

/// What may be so in a state. Entries go by their labels, and parties by their numbers in the
/// script.
#[derive(Clone, Copy, Debug, PartialEq, Eq)]
pub enum Fact {
    /// The watch of this number has come.
    Came { watch: usize },
    Entry { label: u32, being: Being },
    /// The device has the queue, which is in this phase.
    Queue { queue: u16, phase: Phase },
    /// The device has the queue, in which so many entries wait, or more.
    Filled { queue: u16, least: u16 },
    /// The device is in this phase.
    Device { phase: Phase },
    /// The client is through with its steps.
    Client { client: u16 },
    /// The administrator is through with its steps.
    Administrator { administrator: u16 },
}

/// A part of a formula, which is a list of terms. Each comes to a truth, and one that joins truths
/// stands behind the terms that come to them.
#[derive(Clone, Copy, Debug, PartialEq, Eq)]
pub enum Term {
    Is(Fact),
    Known(bool),
    /// Not the last truth.
    Not,
    /// The last two, which are both so.
    Both,
    /// The last two, one of which is so.
    Either,
}
