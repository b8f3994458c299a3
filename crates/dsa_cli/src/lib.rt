//! The words of the command line: what they ask for, and what the program then does.
//!
//! Without words a scenario document is read and run. With the word `threads` clients, engines and
//! an administrator work in threads of their own, on one shared device. [`run_words`] does all of
//! it; `docs/COMMANDS.md` describes the words.
#![tactic(auto)]

mod options;
mod pace;
mod reports;
pub mod rows;
mod shard;
mod threads;
mod totals;
mod words;

pub use options::{Asked, Clash, Workload, WrongValue, read_words};
pub use reports::{Report, Run, Written};
pub use shard::Shard;
pub use threads::{ThreadsFault, run_workload};
pub use totals::render_totals;
pub use words::{answer_words, run_words, tell};
