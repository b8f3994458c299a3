//! Who makes the tries from stored worlds.

ghost use Rattle.std.specs.Prelude.{◌≡◌, ◌+◌, ◌≤◌, length, List, IfOk};
ghost use Rattle.dsa_keys.specs.Parties.{World, Stored};
ghost use Rattle.dsa_parties.specs.Standing.{Standing};
ghost use Rattle.dsa_explore.specs.Trials.{AreExpansions};
ghost use Rattle.dsa_explore.specs.Trying.{IsSearch};
ghost use Rattle.dsa_explore.specs.Walked.{space_of, IsFirst};

use crate::stored::Search;
use crate::trials::{Expansion, expansions_of};
use crate::walked::Plan;
use std::alloc::{AllocError, Global};

/// Who makes the tries from stored worlds.
pub trait Crew {
    /// In how many threads.
    fn threads(&self) -> u32;

    /// Makes all tries from the stored worlds of these numbers, the last one left out. A key may
    /// have so many bytes.
    fn expansions(
        &self,
        alloc: Global,
        plan: &Plan<'_>,
        search: &Search,
        width: u32,
        from: u32,
        to: u32,
    ) -> Result<Vec<Expansion>, AllocError>
        requires { from ≤ to }
        ensures each { IfOk result (λ expansions. (first : World Standing)
            → (table : List (Stored Standing))
            → IsFirst plan.now.caps plan.now.script.now plan.now.setup.now first
            → IsSearch (space_of plan.now.caps plan.now.script.now) first search.now table
            → AreExpansions (space_of plan.now.caps plan.now.script.now)
            (length plan.now.setup.now) width table from expansions.items) }
        ensures count { IfOk result (λ expansions. from + length expansions.items ≡ to) };
}

/// This thread alone.
#[derive(Clone, Copy, Debug, PartialEq, Eq)]
pub struct Alone;

impl Crew for Alone {
    fn threads(&self) -> u32 {
        1
    }

    fn expansions(
        &self,
        alloc: Global,
        plan: &Plan<'_>,
        search: &Search,
        width: u32,
        from: u32,
        to: u32,
    ) -> Result<Vec<Expansion>, AllocError> {
        expansions_of(alloc, plan, search, width, from, to)
    }
}
