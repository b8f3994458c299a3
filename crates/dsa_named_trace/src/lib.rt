//! A trace that shows own names: where a line lists entries that have own names, or its step is
//! about them, these come at its end, such as ` [4 is x17]`, or in JSON as the last member.
//!
//! [`NamedTrace`] makes the lines of a run. [`stream_trace`] writes them of a document while its
//! run is made, and [`WithNames`](dsa_named::WithNames) makes of [`NamedTrace`] a text of a
//! document. `docs/COMMANDS.md` describes the lines.
#![tactic(auto)]

pub mod laws;
mod lines;
mod reading;
mod rendering;
pub mod rows;
mod shown;
mod streaming;
mod walking;

pub use lines::add_noted_line;
pub use rendering::NamedTrace;
pub use shown::shown_names;
pub use streaming::{stream_trace, stream_trace_counted};
