//! Laws of single steps of the written machine: which replies may come, and what they leave.
#![tactic(auto)]

pub mod laws;
