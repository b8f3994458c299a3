//! The engines of a device: what each takes from the queues of its group, and what becomes of it.
//!
//! [`Engines`] keeps a note for each engine that works on a batch, the read buffers of the groups,
//! and the group of each engine. The entries themselves stand in a store, which each call is lent:
//! behind the lists of the queues it has one list of entries in progress for each engine, and
//! behind these one list of batch members for each. Nothing here allocates.
#![tactic(auto)]

mod engines;
mod failing;
mod fetching;
mod finishing;
mod reasons;
mod removing;
mod starting;
mod taking;

pub use engines::Engines;
pub use reasons::{
    EngineReason, FetchReason, FinishReason, QueueReason, StartReason, idle_engines_have_reasons,
};
pub use taking::engine_reason;
