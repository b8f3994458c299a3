//! Lists of cells with entries: what a store of them does, and one that keeps a vector for each
//! list.
#![tactic(auto)]

mod entry;
mod plain;
mod store;
mod walk;

pub use entry::{Cell, Entry, ListId};
pub use plain::PlainStore;
pub use store::{EntryStore, cells_stand_once};
pub use walk::{Walk, entries_from, front_entry, held_entries};
