//! Worked rows of seats, of settling, and of workers.
#![tactic(auto)]

pub mod seats;
pub mod workers;
