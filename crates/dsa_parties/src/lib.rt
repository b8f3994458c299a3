//! Parties on one device: the scripts of clients and of administrators, the engines, what each asks
//! for where it stands, and where it stands after it.
#![tactic(auto)]

pub mod asks;
pub mod begin;
pub mod case_rows;
pub mod laws;
pub mod making;
pub mod offer_rows;
pub mod places;
pub mod rows;
pub mod script;
pub mod turns;
pub mod watch_rows;
pub mod watches;

pub use making::is_script;
pub use places::{ClientPlace, ClientTurn, EntryDescription, Move, NextMember, Places};
pub use script::{
    Act, ClientScript, Origin, Outcomes, Part, RetryPolicy, Script, ScriptEntry, Submission, Until,
};
pub use watches::{Became, Replied, Shown, Watch};
