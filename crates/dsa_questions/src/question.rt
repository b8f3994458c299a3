//! What a question asks for.

use dsa_formulas::Term;
use dsa_parties::{Became, Replied, Watch};

/// A condition on what a search finds. Entries go by their labels, and steps of administrators by
/// their numbers.
#[derive(Clone, Copy, Debug, PartialEq, Eq)]
pub enum Condition {
    Entry { label: usize, became: Became },
    Act { act: usize, replied: Replied },
    /// The act's command waits for the entry.
    Wait { act: usize, label: usize },
    /// The act removes the entry.
    Removal { act: usize, label: usize },
}

/// Whether what is asked for must not come in any order, has to come in some, or has to hold in
/// each state.
#[derive(Clone, Copy, Debug, PartialEq, Eq)]
pub enum Kind {
    Never,
    Sometimes,
    Always,
}

/// What a question asks for.
#[derive(Debug, Drop)]
pub enum Sought {
    /// Each finding that one of these conditions is about.
    Rows(Vec<Condition>),
    /// Each state in which the formula of these terms holds. An `always` asks for those in which
    /// what is to hold does not.
    States(Vec<Term>),
}

/// A question.
#[derive(Debug, Drop)]
pub struct Question {
    pub kind: Kind,
    pub name: String,
    pub sought: Sought,
}

/// The questions of a document, and what the script of its parties has to watch for: a watch of a
/// formula has the number of its place here.
#[derive(Debug, Drop)]
pub struct Questions {
    pub items: Vec<Question>,
    pub watches: Vec<Watch>,
}
