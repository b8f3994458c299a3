//! Documents written by hand: a friendly form in, the strict one out.
//!
//! `docs/EXPAND.md` describes the friendly form.
#![tactic(auto)]

mod commands;
mod descriptors;
mod expansion;
mod friendly;
mod layout;
mod members;
pub mod rows;
mod single;
mod steps;
mod values;
mod walk;

pub use expansion::{Expansion, strict_form};
pub use friendly::Friendly;
pub use single::{Meaning, meaning_of};
pub use steps::GivenName;
pub use walk::note_name;
