//! From the bytes of a scenario document to the text of a search: what may come of its parties'
//! steps, in every order, after its own.
//!
//! [`Exploring`] makes the text of a document, and [`Showing`] the document of a row of that text
//! or of what answers a question.
//! [`Sampling`] makes the text of random walks in place of a search.
#![tactic(auto)]

mod answering;
mod exploration;
pub mod fault_rows;
pub mod rows;
mod sampling;
mod setup;
mod showing;

pub use dsa_explore::{Bounds, Walks};
pub use exploration::{Exploring, Form};
pub use sampling::Sampling;
pub use showing::Showing;
