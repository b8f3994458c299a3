//! The limits of this model (profile).

/// The most work queues that a device has.
pub const MAX_QUEUES: usize = 64;

/// The most groups that a device has.
pub const MAX_GROUPS: usize = 8;

/// The most engines that a device has.
pub const MAX_ENGINES: usize = 64;

/// The most entries that all queues of a device hold together.
pub const MAX_TOTAL_SIZE: u16 = 4096;

/// The most read buffers that a device has.
pub const MAX_READ_BUFFERS: u16 = 255;

/// The most submitted descriptors that an engine has in progress.
pub const MAX_SLOTS: u16 = 16;

/// A device takes batches of at most two to this power.
pub const MAX_BATCH_SHIFT: u8 = 10;

/// A device takes transfers of at most two to this power bytes.
pub const MAX_TRANSFER_SHIFT: u8 = 31;

/// The most cells that the store of a device needs: `4096 + 64 * (16 + 2^10)`.
pub const MAX_CELLS: u32 = 70_656;

/// The highest priority of a queue.
pub const MAX_PRIORITY: u8 = 15;

/// The fewest read buffers that a group with an engine may be allowed: the most that one descriptor
/// needs.
pub const LEAST_ALLOWED: u16 = 4;

/// The queues that the mask of one operand names at most.
pub const QUEUES_IN_MASK: usize = 16;
