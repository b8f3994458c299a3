//! A run as a scenario document: the counterpart of the reader in `dsa_scenario`.
//!
//! [`add_document`] writes the document of a run: its capabilities, the capacity of its history,
//! and its steps, each with its answer at `answer`. `docs/SCENARIO.md` has the keys. What is
//! written reads back: its steps ask for the events of the run, a finish by the name of its ticket.
#![tactic(auto)]

mod documents;
pub mod fits;
pub mod laws;
pub mod limit_rows;
mod members;
pub mod rows;
mod steps;

pub use documents::add_document;
