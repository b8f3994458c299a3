//! A run of a scenario document as Chrome trace events, for viewers that zoom and search, as
//! Perfetto does.
//!
//! [`ChromeTrace`] makes one JSON object in the Trace Event Format. A step takes one microsecond.
//! Each step is an instant event of the one who made it, each entry that an engine had is a
//! slice in a lane of that engine, and queues and groups have counters. `docs/COMMANDS.md`
//! describes the events.
#![tactic(auto)]

mod counters;
mod events;
mod lanes;
mod page;
mod rendering;
pub mod rows;
mod slices;

pub use lanes::{Lane, Work};
pub use page::Page;
pub use rendering::ChromeTrace;
