//! What is wrong with the parties and the questions of a scenario document, all of it, without a
//! search.
//!
//! [`WholeCheck`] is the check of a document, with what is told of these after what is told of its
//! run. `docs/COMMANDS.md` describes the lines.
#![tactic(auto)]

mod checking;
mod complaint;
pub mod expectations;
mod flaws;
pub mod laws;
mod lines;
mod objects;
mod odd_keys;
mod parties;
mod pointing;
pub mod question_rows;
mod questions;
mod remarks;
pub mod rows;
pub mod rules;
mod strays;

pub use checking::WholeCheck;
pub use complaint::{Complaint, Flaw, Inside, Subject};
pub use flaws::flaws_of_document;
pub use odd_keys::odd_parties;
pub use questions::all_flaws_of;
