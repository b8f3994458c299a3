//! An event of the device in words, as part of a line: `finish e1 name 7 success`.
//!
//! [`add_event`] adds them to a text, and takes no memory but the text's. The kinds of steps, the
//! portals and the instructions are spelled as in a scenario document, and the commands as the
//! Intel DSA specification does, in lower case with dashes.
#![tactic(auto)]

use std::alloc::AllocError;

mod commands;
mod descriptors;
mod events;
mod lists;
mod numbers;
mod phases;
pub mod rows;
mod truths;

/// What comes of adding to a text, which may want memory.
pub type Added = Result<(), AllocError>;

pub use commands::{add_bad_word, add_command};
pub use descriptors::add_descriptor;
pub use events::{add_event, portal_label};
pub use lists::add_list;
pub use numbers::{add_count, add_number, one_or_many};
pub use phases::phase_word;
pub use truths::truth_text;
