//! Why each step of a document's run was answered as it was: a line a step, with its number, its
//! event in words, its answer, and the reason where it was not the plain success.
//!
//! [`Explanation`] makes the text of a document. A reason is read from the device before the step,
//! and told in a sentence.
#![tactic(auto)]

mod checks;
mod commands;
mod dispatch;
mod ended;
mod ends;
mod engines;
mod groups;
mod keeping;
pub mod laws;
mod lines;
mod parts;
mod removals;
mod rendering;
mod submissions;
mod words;
mod writes;

pub use checks::add_check_reason;
pub use commands::{add_issue_reason, add_poll_reason, add_wait_count};
pub use dispatch::{add_engine_reason, add_queue_reason, any_reason, front_name};
pub use ended::add_unended;
pub use ends::add_done_reason;
pub use engines::{add_fetch_reason, add_finish_reason, add_start_reason};
pub use keeping::{add_queue_keeping, add_start_keeping};
pub use lines::{add_asked, add_line, add_shown};
pub use parts::{add_event_part, add_part};
pub use removals::add_deed_part;
pub use rendering::Explanation;
pub use submissions::add_submit_reason;
pub use writes::{add_clear_reason, add_write_reason};
