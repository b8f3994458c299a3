//! Logs that obey a script, by events, names and tickets, and without what parties ask for in a
//! walk. Each run that leaves such a log is a walk of the script's parties.
#![tactic(auto)]

pub mod laws;
pub mod rows;
