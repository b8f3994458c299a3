//! Worked rows of statements of checks, of comparisons, of dialogues and of the command line.
#![tactic(auto)]

pub mod checks;
pub mod commands;
pub mod comparisons;
pub mod dialogues;
