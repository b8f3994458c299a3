//! The members of a batch: how many are done, abandoned, aborted and held.

ghost use Rattle.std.specs.Prelude.{◌≡◌, [], ◌∷◌, Some, take};
ghost use Rattle.dsa_worked.specs.Batches.{fence_waits};
ghost use Rattle.dsa_worked.specs.Members.{three_are_abandoned, abort_beside_a_batch};
ghost use Rattle.dsa_worked.specs.Counts.{members_after};

/// Members that are fetched are held until they are done.
pub fn members_that_are_done()
    ensures held { members_after (take 5 fence_waits) 0 ≡ Some (0 ∷ 0 ∷ 0 ∷ 3 ∷ []) }
    ensures done { members_after fence_waits 0 ≡ Some (3 ∷ 0 ∷ 0 ∷ 0 ∷ []) }
    ensures no_other_entry { members_after fence_waits 1 ≡ Some (0 ∷ 0 ∷ 0 ∷ 0 ∷ []) }
{}

/// A member that failed is done, and those behind the fence are abandoned.
pub fn members_that_are_abandoned()
    ensures failed { members_after (take 8 three_are_abandoned) 0 ≡ Some (1 ∷ 0 ∷ 0 ∷ 3 ∷ []) }
    ensures abandoned { members_after three_are_abandoned 0 ≡ Some (1 ∷ 3 ∷ 0 ∷ 0 ∷ []) }
{}

/// One batch is aborted with its member, and the other keeps its own.
pub fn members_that_are_aborted()
    ensures kept { members_after (take 9 abort_beside_a_batch) 0 ≡ Some (0 ∷ 0 ∷ 0 ∷ 1 ∷ []) }
    ensures aborted { members_after (take 9 abort_beside_a_batch) 2 ≡ Some (0 ∷ 0 ∷ 1 ∷ 0 ∷ []) }
{}
