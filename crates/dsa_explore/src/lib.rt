//! A search of every order of the steps of parties on one device: what may come, and that nothing
//! else may.
#![tactic(auto)]

mod awaited;
mod choices;
mod crews;
pub mod ending_rows;
mod ends;
mod expanding;
pub mod finding_rows;
mod found;
mod halting;
mod keys;
pub mod laws;
mod making;
mod merging;
mod rows;
mod running;
mod sampling;
pub mod schedules;
mod search;
mod showing;
mod stored;
mod trials;
mod tries;
mod trying;
mod visiting;
mod walked;
mod walking;
pub mod worked;

pub use crews::{Alone, Crew};
pub use found::{Ask, Ending, Explored, Finding, Found};
pub use rows::label_of;
pub use sampling::{Sampled, Walks, sample};
pub use search::{Bounds, Searched, explore, search_all, search_by};
pub use showing::show;
pub use visiting::{Visited, visit};
pub use walked::{Plan, Walked, ask_of};
