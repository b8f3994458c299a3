//! How entries ended.

/// What became of an entry.
#[derive(Clone, Copy, Debug, PartialEq, Eq)]
pub enum Fate {
    /// An engine ended it, with this status.
    Completed(u8),
    /// The command of this number took it out.
    Aborted(u8),
    /// A member behind a fence that a failed member stands before.
    Abandoned,
}

/// Whether a device that begins its history anew keeps the fates of what ended before.
#[derive(Clone, Copy, Debug, PartialEq, Eq)]
pub enum PastFates {
    /// All fates are kept, and take memory.
    Kept,
    /// No fate is kept: that of an entry which ended before is `None`.
    Forgotten,
}

/// The fate of one name. A submitted entry has no parent; the parent of a member is the name of its
/// batch.
#[derive(Clone, Copy, Debug, PartialEq, Eq)]
pub struct FateRow {
    pub name: u32,
    pub parent: Option<u32>,
    pub fate: Fate,
}
