//! Worked rows of the reasons and of the sentences that tell them, of answers that are alike, of
//! devices, of linked cells, and of what a step may do.
#![tactic(auto)]

pub mod alike;
pub mod checks;
pub mod commands;
pub mod devices;
pub mod dispatch;
pub mod effects;
pub mod faults;
pub mod lines;
pub mod links;
pub mod members;
pub mod parts;
pub mod sentences;
pub mod submissions;
pub mod tables;
pub mod uneven;
