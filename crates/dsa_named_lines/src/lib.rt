//! An explanation that shows own names: where a line mentions entries that have own names, these
//! come in brackets at its end, such as ` [4 is x17]`.
//!
//! [`NamedLines`] makes the lines of a run, all of them or those that a
//! [`Selection`](dsa_chosen::Selection) keeps. [`WithNames`](dsa_named::WithNames) makes of it a
//! text of a document. `docs/EXPLAIN.md` describes the lines.
#![tactic(auto)]

mod awaited;
pub mod laws;
mod lines;
mod rendering;
pub mod rows;

pub use awaited::names_told;
pub use lines::{add_named_line, names_about, names_in};
pub use rendering::NamedLines;
