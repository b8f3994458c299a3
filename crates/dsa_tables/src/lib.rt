//! The table of a search: what may become of each entry, what each act of an administrator may be
//! answered, and with how few steps.
//!
//! [`add_table`] adds its text: a line for each label, a line for each act, and a line that says
//! how far the search came. [`add_lines`] and [`add_search`] add these parts alone. A finding that
//! may come has its steps in brackets: `x0: accepted [1], completed 01 [3]`. [`row_named`] finds a
//! row by what stands before its steps. [`add_objects`] and [`add_search_object`] add the same as
//! JSON objects, one in each line. [`add_walks`] and [`add_walks_object`] add how many random walks
//! were made in place of how far a search came.
#![tactic(auto)]

pub mod end_rows;
mod ends;
mod lines;
mod naming;
pub mod object_rows;
mod objects;
pub mod part_rows;
mod parts;
pub mod row_names;
pub mod rows;
mod samples;
mod table;
mod words;

pub use naming::row_named;
pub use objects::{add_objects, add_search_object};
pub use samples::{add_walks, add_walks_object};
pub use table::{add_lines, add_search, add_table};
