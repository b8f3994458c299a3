//! Whether a document's steps may be answered as another device, driver or simulator was seen to
//! answer them.
//!
//! [`Conformance`] makes the text of a document. A device goes on where an answer that is allowed
//! shows what was seen; at the first step where none does, the text tells the step, what was seen,
//! a fact against that, and each answer that was allowed, with its reason. [`AsSeen`] makes any
//! other text of the run that was followed.
#![tactic(auto)]

mod against;
mod alike;
mod alone;
pub mod answer_rows;
mod answering;
mod answers;
mod as_seen;
mod closest;
mod difference;
mod every;
pub mod fact_rows;
mod facts;
mod following;
pub mod laws;
mod observed;
mod offering;
mod passed;
mod quoted;
mod rendering;
mod retelling;
pub mod rows;
mod shown;
mod sights;
mod step;
mod told;
mod untaken;
mod walk;
mod way;
mod ways;

pub use as_seen::AsSeen;
pub use closest::{Closest, follow_closest};
pub use following::{Followed, follow};
pub use observed::{Observed, first_unread, parse_observed, parse_step};
pub use rendering::{Conformance, render_conformance};
pub use shown::is_shown;
