//! Own names of entries: the texts at `as` in the steps of a document.
//!
//! An entry gets its name, a number, when a submission is accepted or a member is fetched. Where
//! the step object has a text at `as`, the text is the entry's own name. A [`RenderNamed`] makes a
//! text of a run, step by step, and is handed the own names with each step. [`NamedRun`] runs it
//! with the step objects of a document, and [`WithNames`] makes its text of a whole document.
//! `docs/EXPLAIN.md` describes own names.
#![tactic(auto)]

mod names;
mod notes;
mod rendering;
pub mod rows;
mod steps;

pub use names::{OwnName, name_given, note_name, own_text};
pub use notes::add_note;
pub use rendering::WithNames;
pub use steps::{NamedPage, NamedRun, RenderNamed};
