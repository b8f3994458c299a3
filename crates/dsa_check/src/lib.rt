//! What is wrong with a scenario document, all of it, without a run.
//!
//! [`judge_document`] finds the faults of a document in the order in which a run would tell them,
//! each with its place and its reasons, and what is odd in it and no fault. `docs/COMMANDS.md`
//! describes the lines that are told of them.
#![tactic(auto)]

mod checking;
mod fields;
mod finding;
pub mod flaw_rows;
mod friendly;
pub mod friendly_rows;
mod judge;
mod members;
mod near;
pub mod near_rows;
mod objects;
mod one_line;
mod one_step;
pub mod one_step_rows;
mod places;
mod reasons;
pub mod remark_rows;
mod remarks;
mod repeats;
mod report;
pub mod rows;
mod scan;
mod sources;
mod step_lines;
mod syntax;
pub mod tables;
pub mod warning_rows;
mod warnings;

pub use checking::{Check, CheckForm, too_long_report};
pub use fields::{Found, Key, found_in, is_of};
pub use finding::{Aim, Finding, Judgement, Place, Reason};
pub use judge::judge_document;
pub use members::{last_member, offset_of};
pub use near::near_name;
pub use objects::{add_size, add_text, level_name};
pub use one_line::add_flaw;
pub use one_step::{add_joined, reasons_of_keys, reasons_of_step};
pub use places::{START, Spot};
pub use reasons::plain_name;
pub use remarks::{Remark, remarks_of};
pub use report::{add_found, add_mark, add_stray, add_wanted, report_lines};
pub use scan::{Extent, Member, scan_text};
pub use sources::add_lines;
pub use step_lines::is_text_at;
pub use syntax::{Piece, Syntax, Wanted, is_plain};
pub use warnings::{is_named, names_of};
