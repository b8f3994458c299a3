//! Scenario documents: a JSON text in, the lines of its run on a device out.
//!
//! A document has the capabilities of a device, the capacity of its history, and steps.
//! [`run_scenario`] reads one, runs its steps on a new device, one after the other, and writes a
//! line for each step and then one for each entry that ended. `docs/SCENARIO.md` describes
//! documents and lines.
#![tactic(auto)]

mod actions;
mod counted;
mod digits;
mod document;
mod faults;
mod fields;
mod lines;
mod members;
mod objects;
mod opening;
mod reading;
mod rendering;
pub mod rows;
mod run;
mod scenario;
mod script;
mod sinks;
mod steps;
mod streaming;
mod watched;
mod writing;

pub use actions::{
    Action, BadWord, KIND_NAMES, KINDS, StepKind, kind_of, parse_action, parse_caps,
};
pub use counted::CountedReader;
pub use document::{Head, check_head, parse_head, parse_json};
pub use faults::ScenarioFault;
pub use fields::{Field, Form, bytes_of_hex, u64_field};
pub use lines::{add_answer, add_record, add_rows};
pub use opening::{MakeStore, Run, open_run};
pub use reading::MAX_READS;
pub use rendering::{Render, Rendered, Rendering, render_counted, render_input};
pub use run::{Record, ask, event_for, note_ticket};
pub use scenario::{PlainRun, run_scenario};
pub use script::read_actions;
pub use sinks::{Kept, PIECE, Sink, StreamSteps, write_piece};
pub use steps::{Added, Asked, MadeText, RenderSteps, StepMade, render_over, render_steps};
pub use streaming::{Streamed, stream_counted, stream_input};
pub use watched::WatchedWriter;
pub use writing::write_text;
