//! Formulas on where the parties of a script stand and on the state of their device: what is so
//! there, joined by `not`, `and` and `or`.
#![tactic(auto)]

mod facts;
mod formula;
pub mod laws;
mod meeting;
pub mod rows;

pub use formula::{Being, Fact, Term};
pub use meeting::is_met;
