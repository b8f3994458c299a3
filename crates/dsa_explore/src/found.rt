//! What a search finds.

use dsa_book::{Fate, Reply};

/// What a party asks for: the submission with this label, or the act of an administrator with this
/// number.
#[derive(Clone, Copy, Debug, PartialEq, Eq)]
pub enum Ask {
    Submission(u32),
    Act(u32),
}

/// What a step tells. Labels stand for names.
#[derive(Clone, Copy, Debug, PartialEq, Eq)]
pub enum Finding {
    /// What a party was answered.
    Answer { ask: Ask, reply: Reply },
    /// How an entry ended.
    End { label: u32, fate: Fate },
    /// The act of this number issued a command, was answered that it is active, and the command
    /// then waited for the entry with this label. Each held entry counts that keeps the command
    /// from its end at that moment. A poll that is answered `active` tells no wait.
    Wait { act: u32, label: u32 },
    /// The step of the act of this number ended the entry with this label, as an abort or a reset
    /// does. They end all that they are about in that one step, so nothing that ends later counts.
    Removal { act: u32, label: u32 },
}

/// A finding, and with how many steps after the set-up it may come.
#[derive(Clone, Copy, Debug, PartialEq, Eq)]
pub struct Found {
    pub finding: Finding,
    pub steps: u32,
}

/// A way in which a run can end, where no party can get on: what the parties have not been through
/// with, clients first, whether entries are held, and the fewest steps that lead there.
#[derive(Debug, Drop)]
pub struct Ending {
    pub left: Vec<Ask>,
    pub holds_entries: bool,
    pub steps: u32,
}

/// What a search found, and how far it came: the states that it stored, the steps that it tried,
/// the most steps that lead to a state, and whether it tried all.
#[derive(Debug, Drop)]
pub struct Explored {
    pub rows: Vec<Found>,
    pub states: u32,
    pub tried: u64,
    pub depth: u32,
    pub is_complete: bool,
    /// How runs can end, where the search is complete.
    pub ends: Option<Vec<Ending>>,
}
