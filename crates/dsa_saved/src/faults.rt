//! Why a device has no bytes, and why bytes are no saved device.

use thiserror::Error;

/// Why a device was not saved: the first of these that stands.
#[derive(Clone, Copy, Debug, PartialEq, Eq, Error)]
pub enum SaveFault {
    #[error("the history of the device began anew")]
    BegunAnew,
    #[error("out of memory")]
    OutOfMemory,
}

/// Why no device was made of bytes: the first cause that stands, in this order (profile). Records
/// are numbered from 0.
#[derive(Clone, Copy, Debug, PartialEq, Eq, Error)]
pub enum LoadFault {
    #[error("a saved device has more bytes")]
    Truncated,
    #[error("a saved device begins with another word")]
    BadMagic,
    #[error("the version of the format is not 1")]
    BadVersion,
    #[error("there are more bytes, or fewer, than the number of steps says")]
    BadLength,
    #[error("the bytes have another checksum")]
    BadChecksum,
    #[error("the capabilities are not within the limits of a device")]
    BadCaps,
    #[error("a history has room for at most 1,048,576 steps")]
    BadCapacity,
    #[error("out of memory")]
    OutOfMemory,
    #[error("record {number} is no event")]
    BadEvent { number: u32 },
    #[error("the device makes another step than that of record {number}")]
    BadStep { number: u32 },
}
