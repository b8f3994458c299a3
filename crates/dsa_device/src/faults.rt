//! Why a device was not made.

use thiserror::Error;

/// Why a device was not made (profile).
#[derive(Clone, Copy, Debug, PartialEq, Eq, Error)]
pub enum MakeFault {
    #[error("the capabilities are not within the limits of a device")]
    BadCaps,
    #[error("a history has room for at most 1,048,576 steps")]
    BadCapacity,
    #[error("the store is not empty, or has other lists or cells than the device needs")]
    BadStore,
    #[error("out of memory")]
    OutOfMemory,
}
