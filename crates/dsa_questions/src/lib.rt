//! Questions of a document about the search of its parties' steps: what must never come, in any
//! order, what has to come in some, and what has to hold always.
//!
//! [`read_questions`] reads them, and [`answer_all`] answers them. [`add_answered_table`] adds the
//! table of a search with a line for each question, [`add_answered_objects`] the same as JSON
//! objects, and [`first_broken`] finds the first question that the search breaks. [`answer_walks`],
//! [`add_sampled_table`] and [`add_sampled_objects`] do the same for random walks.
//!
//! [`question_called`] finds a question by what stands before the colon in its line, and
//! [`show_answer`] makes the steps that show what answers it.
#![tactic(auto)]

mod answers;
mod asked;
mod calling;
mod conditions;
pub mod formula_rows;
mod judging;
pub mod judging_rows;
pub mod laws;
mod lines;
pub mod object_rows;
mod objects;
mod question;
mod reading;
pub mod rows;
mod samples;
mod showing;
pub mod shown_rows;
mod stating;
mod verdicts;
mod words;

pub use answers::answer_all;
pub use calling::{calls_question, question_called};
pub use conditions::{is_called, number_called};
pub use judging::{has_question_name, is_formed, is_question};
pub use lines::add_answered_table;
pub use objects::add_answered_objects;
pub use question::{Condition, Kind, Question, Questions, Sought};
pub use reading::{key_of, most_nested, read_questions};
pub use samples::{add_sampled_objects, add_sampled_table, answer_walks};
pub use showing::show_answer;
pub use stating::Naming;
pub use verdicts::{Answered, Outlook, first_broken, outlook_of};
pub use words::{became_called, being_called, phase_called, replied_called};
