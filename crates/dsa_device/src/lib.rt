//! The machine of one thread: a device over any store, whose state is at all times what its history
//! leads to.
//!
//! [`Device::new`] takes all the memory that a device ever has. Each step is one event and one
//! answer; those that change something stand in [`Device::history`] from then on, and the machine
//! that is written down leads to the device's state from them. A step of a device whose history has
//! no room is answered `Full`, and changes nothing.
#![tactic(auto)]

mod device;
mod faults;

pub use device::{Device, check_opening};
pub use dsa_admin::{IssueReason, PollReason};
pub use dsa_queues::{ClearReason, SubmitReason, WriteReason};
pub use faults::MakeFault;
