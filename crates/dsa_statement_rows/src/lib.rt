//! Worked rows of statements of searches, of parties and their logs, and of saved devices.
#![tactic(auto)]

pub mod begins;
pub mod formulas;
pub mod kept;
pub mod lawful;
pub mod limits;
pub mod load_faults;
pub mod parties;
pub mod reports;
pub mod sampled;
pub mod saved;
pub mod searches;
pub mod walks;
pub mod ways;
