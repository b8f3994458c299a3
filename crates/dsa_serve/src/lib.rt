//! A dialogue: a document, and a request a line behind it, each answered before more is read.
//!
//! `docs/COMMANDS.md` describes lines and answers.
#![tactic(auto)]

mod dialogue;
mod ending;
mod front;
pub mod laws;
mod opening;
mod requests;
pub mod rows;
mod serving;
mod session;

pub use dialogue::Dialogue;
pub use ending::Inside;
pub use front::{Front, read_first};
pub use opening::begin;
pub use requests::{Line, MAX_LINE, no_json, no_step, parse_line};
pub use serving::{serve_counted, serve_dialogue, serve_either, serve_watched};
pub use session::Session;
