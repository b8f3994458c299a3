//! Completion status numbers: the profile's choice, and equal to those of the public header
//! `linux/idxd.h`, whose names they have. Which of them completes what is the profile's, too.

/// No status: no check has failed.
pub const DSA_COMP_NONE: u8 = 0x00;

/// The operation was done.
pub const DSA_COMP_SUCCESS: u8 = 0x01;

/// An address had no page, and the device was not to wait for one.
pub const DSA_COMP_PAGE_FAULT_NOBOF: u8 = 0x03;

/// A member of the batch was not successful.
pub const DSA_COMP_BATCH_FAIL: u8 = 0x05;

/// The operation code is not supported, or not there.
pub const DSA_COMP_BAD_OPCODE: u8 = 0x10;

/// A flag is set that may not be set.
pub const DSA_COMP_INVALID_FLAGS: u8 = 0x11;

/// The transfer size is out of its range.
pub const DSA_COMP_XFER_ERANGE: u8 = 0x13;

/// The descriptor count of a Batch is out of its range.
pub const DSA_COMP_DESC_CNT_ERANGE: u8 = 0x14;
