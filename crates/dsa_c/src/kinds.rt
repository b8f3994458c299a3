//! The kinds of reasons that C reads, each by its name in `enum dsa_reason_kind` of the header,
//! which says what they mean.

pub(crate) const NONE: u32 = 0;

pub(crate) const HISTORY_FULL: u32 = 1;

pub(crate) const NAMES_SHORT: u32 = 2;

pub(crate) const NO_SUCH_QUEUE: u32 = 3;

pub(crate) const NO_SUCH_ENGINE: u32 = 4;

pub(crate) const QUEUE_NOT_ON: u32 = 5;

pub(crate) const QUEUE_DEDICATED: u32 = 6;

pub(crate) const QUEUE_SHARED: u32 = 7;

pub(crate) const PORTAL_AT_LIMIT: u32 = 8;

pub(crate) const ENGINE_IDLE: u32 = 9;

pub(crate) const ENGINE_WITHOUT_GROUP: u32 = 10;

pub(crate) const ENGINE_WITHOUT_QUEUE: u32 = 11;

pub(crate) const QUEUE_EMPTY: u32 = 12;

pub(crate) const NO_SLOT: u32 = 13;

pub(crate) const FRONT_LACKS_BUFFERS: u32 = 14;

pub(crate) const OTHER_BATCH: u32 = 15;

pub(crate) const OTHER_DRAIN: u32 = 16;

pub(crate) const NO_BATCH: u32 = 17;

pub(crate) const ALL_FETCHED: u32 = 18;

pub(crate) const BATCH_CLOSED: u32 = 19;

pub(crate) const NO_MEMBER: u32 = 20;

pub(crate) const FENCE_WAITS: u32 = 21;

pub(crate) const FENCE_FAILED: u32 = 22;

pub(crate) const FENCE_FAILED_FORGOTTEN: u32 = 23;

pub(crate) const MEMBER_LACKS_BUFFERS: u32 = 24;

pub(crate) const CELL_EMPTY: u32 = 25;

pub(crate) const CELL_OF_OTHER: u32 = 26;

pub(crate) const ELSEWHERE: u32 = 27;

pub(crate) const NOT_STARTED: u32 = 28;

pub(crate) const MEMBERS_LEFT: u32 = 29;

pub(crate) const STILL_TO_FETCH: u32 = 30;

pub(crate) const DRAIN_WAITS: u32 = 31;

pub(crate) const COMPLETED: u32 = 32;

pub(crate) const ABORTED: u32 = 33;

pub(crate) const ABANDONED: u32 = 34;

pub(crate) const NO_SUCH_NAME: u32 = 35;

pub(crate) const NOT_SUPPORTED: u32 = 36;

pub(crate) const FENCE_OUTSIDE: u32 = 37;

pub(crate) const SIZE_OUTSIDE: u32 = 38;

pub(crate) const COUNT_OUTSIDE: u32 = 39;

pub(crate) const MEMBERS_FAILED: u32 = 40;

pub(crate) const MEMBERS_FAILED_FORGOTTEN: u32 = 41;

pub(crate) const PAGE_FAULT: u32 = 42;

pub(crate) const COMMAND_ACTIVE: u32 = 43;

pub(crate) const COMMAND_OVER: u32 = 44;

pub(crate) const NO_QUEUE_NAMED: u32 = 45;

pub(crate) const WRONG_QUEUE_PHASE: u32 = 46;

pub(crate) const WRONG_DEVICE_PHASE: u32 = 47;

pub(crate) const WOULD_REMOVE: u32 = 48;

pub(crate) const WOULD_WAIT: u32 = 49;

pub(crate) const NO_COMMAND: u32 = 50;

pub(crate) const COMMAND_WAITS: u32 = 51;

pub(crate) const NOTHING_NOTED: u32 = 52;

pub(crate) const GROUP_NAMES_NO_QUEUE: u32 = 53;

pub(crate) const GROUP_NAMES_NO_ENGINE: u32 = 54;

pub(crate) const SIZES_TOO_LARGE: u32 = 55;

pub(crate) const QUEUE_IN_TWO_GROUPS: u32 = 56;

pub(crate) const ENGINE_IN_TWO_GROUPS: u32 = 57;

pub(crate) const RESERVED_TOO_MANY: u32 = 58;

pub(crate) const ALLOWED_BELOW_RESERVED: u32 = 59;

pub(crate) const ALLOWED_ABOVE_REST: u32 = 60;

pub(crate) const ALLOWED_BELOW_NEED: u32 = 61;

pub(crate) const GROUP_WITHOUT_ENGINE: u32 = 62;

pub(crate) const GROUP_WITHOUT_QUEUE: u32 = 63;

pub(crate) const SIZE_ZERO: u32 = 64;

pub(crate) const PRIORITY_ZERO: u32 = 65;

pub(crate) const PRIORITY_TOO_LARGE: u32 = 66;

pub(crate) const THRESHOLD_ZERO: u32 = 67;

pub(crate) const THRESHOLD_ABOVE_SIZE: u32 = 68;

pub(crate) const BATCH_TOO_LARGE: u32 = 69;

pub(crate) const TRANSFER_TOO_LARGE: u32 = 70;

pub(crate) const QUEUE_WITHOUT_GROUP: u32 = 71;
