//! The key of a device as bytes: two devices have equal bytes exactly where they have equal keys.
//!
//! [`write_key`] writes the short key of a device, by the labels of its names, to a [`Line`] that
//! takes no memory. [`write_changing_key`] leaves out capabilities and configurations, for devices
//! that have these in common.
#![tactic(auto)]

mod entries;
mod laws;
mod line;
mod parts;
pub mod rows;
mod writing;

pub use laws::{equal_bytes_are_equal_keys, equal_changes_are_equal_keys};
pub use line::Line;
pub use writing::{TooLong, write_changing_key, write_key};
