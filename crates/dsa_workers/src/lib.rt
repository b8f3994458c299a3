//! Workers in threads, each with a seat of a shared device.
//!
//! [`run_threads`] lends each seat to a worker of its own, which does what its script says until
//! the script is done, its turns are out or the history is full. Before each of its turns, and at
//! its end, a worker passes a [`Gate`].
//!
//! [`run_program`] shares a device, runs what a [`Program`] says of each seat, and settles.
#![tactic(auto)]

mod admin;
mod client;
mod engine;
mod lanes;
mod pairs;
mod program;
mod replies;
mod run;
mod scripts;
mod threads;
mod tickets;

pub use program::{Program, ProgramFault, run_program};
pub use scripts::{ClientStep, EngineScript, Gate, RunFault, RunReport, Scripts, WorkerEnd};
pub use threads::run_threads;
