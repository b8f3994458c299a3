//! Totals of a document's run: what became of its submissions, the most that its queues held and
//! its groups used, how many steps its commands waited, and how its entries ended.
//!
//! [`Totals`] makes the text of a document. Its lines begin with what each is about.
//! `docs/COMMANDS.md` lists them.
#![tactic(auto)]

mod fates;
mod peaks;
mod rendering;
pub mod rows;
mod submissions;
mod tallies;
mod waits;

pub use fates::add_fates;
pub use peaks::{Gauge, Holder, add_peaks, raised};
pub use rendering::{Page, Totals};
pub use submissions::{Party, Submission, submission_in, submissions_in};
pub use tallies::add_tallies;
pub use waits::add_commands;
