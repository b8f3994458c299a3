//! The key law of the written machine: states with equal keys make the same steps, to states with
//! equal keys.
#![tactic(auto)]

pub mod histories;
pub mod laws;
