//! A module for each layer, and what they share.

mod books;
mod buffers;
mod commands;
mod descriptors;
pub mod devices;
mod engines;
mod queues;
mod registers;
pub mod setup;
