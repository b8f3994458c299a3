//! What the device keeps of work that is not over.

use dsa_regs::Command;

/// What an engine keeps of the batch that it works on.
#[derive(Clone, Copy, Debug, PartialEq, Eq)]
pub struct BatchNote {
    /// The name of the batch.
    pub batch: u32,
    /// How many members the batch has.
    pub count: u32,
    /// How many were fetched so far.
    pub fetched: u32,
    /// Whether a member was not successful.
    pub failed: bool,
    /// Whether the rest of the batch was abandoned.
    pub closed: bool,
}

/// The command that is not over yet, and the name that was the next one when it was issued.
#[derive(Clone, Copy, Debug, PartialEq, Eq)]
pub struct ActiveCommand {
    pub command: Command,
    pub mark: u32,
}
