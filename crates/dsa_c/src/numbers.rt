//! The numbers that C reads and writes beside those of answers, each by its name in the header.

/// Why a submission was not accepted.
pub(crate) const AT_LIMIT: u32 = 1;

pub(crate) const NOT_ENABLED: u32 = 2;

pub(crate) const WRONG_KIND: u32 = 3;

/// How an entry ended.
pub(crate) const NOT_ENDED: u32 = 0;

pub(crate) const COMPLETED: u32 = 1;

pub(crate) const ABORTED: u32 = 2;

pub(crate) const BEHIND_FENCE: u32 = 3;

/// The phase of a device or of a queue.
pub(crate) const OFF: u32 = 0;

pub(crate) const ON: u32 = 1;

pub(crate) const STOPPING: u32 = 2;

/// The portal of a submission.
pub(crate) const LIMITED: u32 = 0;

pub(crate) const UNLIMITED: u32 = 1;

/// What became of an entry's work.
pub(crate) const SUCCESS: u32 = 0;

pub(crate) const PAGE_FAULT: u32 = 1;

/// The kind of an event.
pub(crate) const EVENT_ENQCMD: u32 = 1;

pub(crate) const EVENT_MOVDIR64B: u32 = 2;

pub(crate) const EVENT_DISPATCH: u32 = 3;

pub(crate) const EVENT_FETCH: u32 = 4;

pub(crate) const EVENT_START: u32 = 5;

pub(crate) const EVENT_FINISH: u32 = 6;

pub(crate) const EVENT_COMMAND: u32 = 7;

pub(crate) const EVENT_POLL: u32 = 8;

pub(crate) const EVENT_WRITE_QUEUE: u32 = 9;

pub(crate) const EVENT_WRITE_GROUP: u32 = 10;

pub(crate) const EVENT_CLEAR_ERROR: u32 = 11;

/// What an opening came to.
pub(crate) const OPENED: u32 = 0;

pub(crate) const BAD_CAPACITY: u32 = 2;

pub(crate) const BAD_STORE: u32 = 3;

pub(crate) const OUT_OF_MEMORY: u32 = 4;

pub(crate) const ALREADY_OPEN: u32 = 5;

pub(crate) const BAD_QUEUES: u32 = 6;

pub(crate) const BAD_GROUPS: u32 = 7;

pub(crate) const BAD_ENGINES: u32 = 8;

pub(crate) const BAD_TOTAL_SIZE: u32 = 9;

pub(crate) const BAD_READ_BUFFERS: u32 = 10;

pub(crate) const BAD_SLOTS: u32 = 11;

pub(crate) const BAD_MAX_BATCH_SHIFT: u32 = 12;

pub(crate) const BAD_MAX_XFER_SHIFT: u32 = 13;

/// What a loading came to.
pub(crate) const LOADED: u32 = 0;

pub(crate) const LOAD_TRUNCATED: u32 = 1;

pub(crate) const LOAD_BAD_MAGIC: u32 = 2;

pub(crate) const LOAD_BAD_VERSION: u32 = 3;

pub(crate) const LOAD_BAD_LENGTH: u32 = 4;

pub(crate) const LOAD_BAD_CHECKSUM: u32 = 5;

pub(crate) const LOAD_BAD_CAPS: u32 = 6;

pub(crate) const LOAD_BAD_CAPACITY: u32 = 7;

pub(crate) const LOAD_OUT_OF_MEMORY: u32 = 8;

pub(crate) const LOAD_BAD_EVENT: u32 = 9;

pub(crate) const LOAD_BAD_STEP: u32 = 10;

pub(crate) const LOAD_ALREADY_OPEN: u32 = 11;

/// Where a number of 64 bits is not to be had.
pub(crate) const NONE: u64 = u64::MAX;

/// Where a number of 32 bits is not to be had.
pub(crate) const NO_NUMBER: u32 = u32::MAX;

/// Where memory is refused.
pub(crate) const NO_MEMORY: u64 = u64::MAX - 1;

/// Where a device is not saved, since its history began anew.
pub(crate) const NOT_SAVED: u64 = u64::MAX - 2;

/// What a call for a history that begins anew came to.
pub(crate) const ANEW_BEGUN: u32 = 0;

pub(crate) const ANEW_NO_DEVICE: u32 = 1;

pub(crate) const ANEW_NO_MEMORY: u32 = 2;

/// The list in which an entry is.
pub(crate) const LIST_NONE: u32 = 0;

pub(crate) const LIST_QUEUE: u32 = 1;

pub(crate) const LIST_ENGINE: u32 = 2;

pub(crate) const LIST_BATCH: u32 = 3;
