//! Worked rows of labels, keys, steps by labels, parties and tables.
#![tactic(auto)]

pub mod instances;
pub mod keys;
pub mod labels;
pub mod parties;
pub mod short;
pub mod steps;
