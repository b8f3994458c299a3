//! Some lines of an explanation: the steps of one entry, of one client, or of some answers.
//!
//! [`Chosen`] makes the text of a document: of all lines of its explanation those that a
//! [`Selection`] keeps, each unchanged and with its own number, and then the fate of the entry that
//! is asked for. `docs/EXPLAIN.md` describes the lines.
#![tactic(auto)]

mod fates;
pub mod laws;
mod rendering;
pub mod rows;
mod selection;
mod words;

pub use rendering::Chosen;
pub use selection::{Selection, is_about, is_by};
pub use words::{AnswerWords, is_answer_word};
