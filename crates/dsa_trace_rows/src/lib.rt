//! Worked rows of traces: the parts of their lines, whole lines, and what a trace is of; and a law
//! of the fates in a line.
#![tactic(auto)]

pub mod laws;
pub mod lines;
pub mod parts;
pub mod results;
