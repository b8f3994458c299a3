//! What the check of an enable finds first: the rule that is broken, with what breaks it.

ghost use Rattle.std.specs.Prelude.{◌≡◌};
ghost use Rattle.dsa_regs.specs.Config.{check_fault};

use crate::Fault;

/// A queue or an engine that a group names.
#[derive(Clone, Copy, Debug, PartialEq, Eq)]
pub enum Named {
    Queue(u16),
    Engine(u16),
}

/// What bounds the number of read buffers that a group may use, in the order in which the bounds
/// are tried.
#[derive(Clone, Copy, Debug, PartialEq, Eq)]
pub enum Bound {
    /// It is not below what the group itself has reserved, which is this.
    Reserved(u16),
    /// It is not above what the other groups leave unreserved, which is this.
    Unreserved(u16),
    /// It is not below the greatest need of a descriptor, 4, where the group has an engine.
    Need,
}

/// What the check of an enable finds first: of the device as a whole, or of the queue that is
/// enabled. A group is given by its place among the groups.
#[derive(Clone, Copy, Debug, PartialEq, Eq)]
pub enum CheckReason {
    /// The group, the first such, names a queue or an engine that the device does not have: the
    /// first such queue, or else the first such engine, of which the device has so many.
    NamesMissing {
        group: usize,
        named: Named,
        count: u16,
    },
    /// The sizes of all queues together, or the most that a u32 holds, are more than the device
    /// has.
    SizesTooLarge {
        sizes: u32,
        total: u16,
    },
    /// The queue, the first such, or else the engine, is in two groups, the first two by number.
    TwoGroups {
        named: Named,
        first: usize,
        second: usize,
    },
    /// The read buffers that all groups have reserved together, or the most that a u32 holds, are
    /// more than the device has.
    ReservedTooMany {
        reserved: u32,
        total: u16,
    },
    /// The group, the first such, may use a number of read buffers that breaks this bound, the
    /// first such.
    AllowedOutOfRange {
        group: usize,
        allowed: u16,
        bound: Bound,
    },
    /// The group, the first such, has a queue and no engine.
    GroupWithoutEngine {
        group: usize,
    },
    /// The group, the first such, has an engine and no queue.
    GroupWithoutQueue {
        group: usize,
    },
    /// The size of the queue is 0.
    SizeZero {
        queue: u16,
    },
    /// The priority of the queue is 0.
    PriorityZero {
        queue: u16,
    },
    /// The priority of the queue is above 15.
    PriorityTooLarge {
        queue: u16,
        priority: u8,
    },
    /// The queue is shared, and its threshold is 0.
    ThresholdZero {
        queue: u16,
    },
    /// The queue is shared, and its threshold is above its size.
    ThresholdAboveSize {
        queue: u16,
        threshold: u16,
        size: u16,
    },
    /// The batch shift of the queue is above that of the device.
    BatchTooLarge {
        queue: u16,
        asked: u8,
        most: u8,
    },
    /// The transfer shift of the queue is above that of the device.
    TransferTooLarge {
        queue: u16,
        asked: u8,
        most: u8,
    },
    /// No group has the queue.
    NoGroup {
        queue: u16,
    },
}

impl CheckReason {
    /// The fault that is answered for the reason.
    pub fn fault(&self) -> Fault
        ensures { result ≡ check_fault self.now }
    {
        match self {
            CheckReason::NamesMissing { .. } => Fault::BadIndex,
            CheckReason::SizesTooLarge { .. } => Fault::SizesTooLarge,
            CheckReason::TwoGroups { .. } => Fault::TwoGroups,
            CheckReason::ReservedTooMany { .. } => Fault::ReservedTooMany,
            CheckReason::AllowedOutOfRange { .. } => Fault::AllowedOutOfRange,
            CheckReason::GroupWithoutEngine { .. } => Fault::GroupWithoutEngine,
            CheckReason::GroupWithoutQueue { .. } => Fault::GroupWithoutQueue,
            CheckReason::SizeZero { .. } => Fault::SizeZero,
            CheckReason::PriorityZero { .. } => Fault::PriorityZero,
            CheckReason::PriorityTooLarge { .. } => Fault::PriorityTooLarge,
            CheckReason::ThresholdZero { .. } => Fault::ThresholdZero,
            CheckReason::ThresholdAboveSize { .. } => Fault::ThresholdAboveSize,
            CheckReason::BatchTooLarge { .. } => Fault::BatchTooLarge,
            CheckReason::TransferTooLarge { .. } => Fault::TransferTooLarge,
            CheckReason::NoGroup { .. } => Fault::NoGroup,
        }
    }
}
