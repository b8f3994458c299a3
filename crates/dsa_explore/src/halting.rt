//! Why a search ends before it has tried all.

/// What a search met.
#[derive(Clone, Copy, Debug, PartialEq, Eq)]
pub enum Halt {
    /// A world that is not stored, where as many are stored as may be.
    States,
    /// A world whose key has more bytes than a key may have.
    KeyBytes,
    /// A device whose history has no room for one more step.
    Steps,
    /// The way to a stored world is not found again. No search meets that.
    Lost,
}
