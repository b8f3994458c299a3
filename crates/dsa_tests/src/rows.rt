//! Rows and tests of stores and of devices over them: the same for each kind of store.

mod alike;
pub mod anew;
mod both;
mod calls;
mod memory;
mod stores;
mod tickets;
