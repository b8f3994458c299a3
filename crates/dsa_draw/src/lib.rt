//! A drawing of a scenario's run, as SVG: queues and read buffers by steps, and the entries that
//! engines had, with their own names.
//!
//! [`Drawing`] takes a [`Moment`] after each step of a run: what the device answered and why, which
//! own names that mentions, and what the device then says of itself. All that is drawn is of these
//! moments and of the fates that the device tells at the end. [`WithNames`](dsa_named::WithNames)
//! makes of it a text of a document. `docs/COMMANDS.md` says how a drawing is read.
#![tactic(auto)]

mod active;
mod bands;
mod bars;
mod drawing;
mod engines;
mod geometry;
mod labels;
pub mod laws;
mod marks;
mod moment;
mod page;
mod phases;
mod range;
pub mod rows;
mod run;

pub use geometry::{column_left, columns_wide, lane_top, level_high};
pub use marks::{Mark, mark_of};
pub use moment::{Level, Moment, group_level, queue_level, take_moment};
pub use range::{StepRange, digits_number};
pub use run::{Drawing, Story};
