//! Why a device answers a step as it does: the row of the written machine's table that decides,
//! with the numbers that made it stand.
//!
//! Each function reads the device before the step, and takes no memory.
#![tactic(auto)]

mod awaiting;
mod buffers;
mod done;
mod failing;
mod held;

pub use awaiting::{
    WaitReason, awaited_entry, commands_wait_for_what_is_told, wait_reason, waits_follow_reasons,
};
pub use buffers::kept_for;
pub use done::{DoneReason, done_reason};
pub use failing::failed_members_are_named;
pub use held::{
    ListedEntry, Named, aborted_at, aborted_entries_get_rows, all_entries_are_told,
    awaited_names_are_told, entries_of_list, removed_names_get_rows,
};
