//! A run of a scenario document, step by step: what was asked and answered, and what the device
//! shows after it.
//!
//! [`Trace`] makes the text: for each step a row of a table, a JSON object, or a row with what the
//! step changed, and then a line for each entry that is held when the steps are over.
//! `docs/COMMANDS.md` describes these forms.
//! [`add_state`] makes the object of a device as it stands, without a step.
#![tactic(auto)]

mod changes;
mod columns;
mod ended;
mod errors;
mod form;
mod held;
pub mod laws;
mod lines;
mod names;
mod notes;
mod rendering;
mod results;

pub use columns::{add_state, add_state_members};
pub use form::Trace;
