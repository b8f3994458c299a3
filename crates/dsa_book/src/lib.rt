//! Events, answers and fates of the device, and the book that keeps its history. The definitions of
//! the whole machine stand in `specs/`.
#![tactic(auto)]

mod answer;
mod book;
mod event;
mod fate;
mod note;

pub use answer::{
    Cause, ClearAnswer, DispatchAnswer, FetchAnswer, FinishAnswer, IssueAnswer, NotedError,
    PollAnswer, Reply, StartAnswer, SubmitAnswer, Ticket, WriteAnswer,
};
pub use book::Book;
pub use event::{Actor, Event, Kind, Portal, Step};
pub use fate::{Fate, FateRow, PastFates};
pub use note::{ActiveCommand, BatchNote};
