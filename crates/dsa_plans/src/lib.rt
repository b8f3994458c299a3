//! Parties of a scenario document: the scripts of clients and of administrators, and the engines
//! that make steps, as the key `parties` has them.
//!
//! [`read_parties`] reads them.
#![tactic(auto)]

mod acting;
pub mod case_rows;
mod labels;
pub mod laws;
mod plans;
pub mod rows;
mod said;
mod submitters;

pub use acting::act_said;
pub use labels::items_or;
pub use plans::{PartyScripts, engine_in, read_parties};
pub use said::{busy_at, digits_at, items_or_none, outcomes_at, retry_at, until_at};
pub use submitters::{add_step, member_said, members_wanted};
