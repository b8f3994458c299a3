//! Worked histories, by computation: each is a run of a device, and leads to what is said. After a
//! part of it a wrong answer may not come.
#![tactic(auto)]

pub mod anew;
pub mod answers;
pub mod batches;
pub mod beside;
pub mod changes;
pub mod commands;
pub mod counts;
pub mod drains;
pub mod kept;
pub mod largest;
pub mod lawful;
pub mod members;
pub mod phases;
pub mod statements;
pub mod states;
pub mod steady;
pub mod submissions;
pub mod uneven;
pub mod values;
