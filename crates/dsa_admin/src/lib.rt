//! Commands of the administrator: what they refuse, whom they are about, drains and aborts.
#![tactic(auto)]

mod abort;
mod admin;
mod ends;
mod reasons;
mod refusals;
pub mod rows;
mod scope;
mod withdrawal;

pub use admin::Admin;
pub use ends::count_waited;
pub use reasons::{IssueReason, PollReason, commands_follow_reasons, polls_follow_reasons};
pub use scope::{is_in_scope, is_waited_for};
