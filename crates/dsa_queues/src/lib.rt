//! The queues and groups of a device as they are configured, and submission.
//!
//! [`Queues`] keeps the configurations and phases, the next name, the noted error and for each
//! queue the number of held entries that name it. The entries themselves stand in a store, which
//! each call that needs it is lent: list k of the store is queue k. Nothing here allocates.
//!
//! Module `queues` alone reads and writes the fields. Submission, writes of configurations and what
//! commands change are written over its readers and setters.
#![tactic(auto)]

mod commands;
mod queues;
mod reasons;
mod submission;
mod writes;

pub use queues::Queues;
pub use reasons::{
    ClearReason, SubmitReason, WriteReason, submissions_follow_reasons, writes_follow_reasons,
};
pub use submission::limit_of;
