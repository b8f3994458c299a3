//! Accounts of the written machine: names, fates and totals of a history, and the cells that are
//! free.
#![tactic(auto)]

pub mod laws;
