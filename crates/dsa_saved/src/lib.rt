//! A device as bytes, and a device from bytes.
//!
//! [`save`] writes what a device has, for how many steps its history has room, and for each stored
//! step its event and what was free in it: the cell of an entry that came in, or the queue that an
//! entry was taken from. [`load`] makes these steps again. So a device is saved only where its
//! history did not begin anew.
#![tactic(auto)]

mod choices;
mod events;
mod faults;
mod header;
mod loading;
mod replay;
pub mod rows;
mod saving;
mod start;
#[cfg(test)]
mod tests;
mod words;

pub use faults::{LoadFault, SaveFault};
pub use loading::load;
pub use saving::{save, saved_size};
