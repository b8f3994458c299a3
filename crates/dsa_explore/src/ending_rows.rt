//! Worked rows: what is left where runs end, and which worlds are ends, each on a function with
//! nothing to do.

ghost use Rattle.std.specs.Prelude.{◌≡◌, [], ◌∷◌, Some, None, map, true, false};
ghost use Rattle.std.specs.declared.alloc.Global.{Global};
ghost use Rattle.dsa_book.specs.State.{opening};
ghost use Rattle.dsa_parties.specs.Standing.{standing_first};
ghost use Rattle.dsa_parties.specs.Worked.{all_at, place_at, worked_script};
ghost use Rattle.dsa_explore.specs.declared.found.Ask.TheVariants.{Act, Submission};
ghost use Rattle.dsa_explore.specs.Asks.{asked, asks_left};
ghost use Rattle.dsa_explore.specs.Ends.{AreLikeEndings, AreEndings, IsLastWorld, IsEndingOf, holds_entries, with_fewer_steps};
ghost use Rattle.dsa_explore.specs.WorkedEnds.{ending_with, ending_through, nowhere, one_member, polling_parties, standing_world, still_script, two_endings};
ghost use Rattle.dsa_explore.specs.WorkedSearch.{idle_parties, quiet_world, uneven_caps};

/// What is left to ask for: of the clients first, and nothing of a party that is through.
pub fn what_is_left()
    ensures nothing { asked None ≡ [] }
    ensures one { asked (Some (Act 2)) ≡ Act 2 ∷ [] }
    ensures first { (memory : Global)
        → asks_left (worked_script memory) (standing_first (worked_script memory))
        ≡ Submission 0 ∷ Submission 4 ∷ Act 0 ∷ Act 3 ∷ [] }
    ensures later { (memory : Global)
        → asks_left (worked_script memory) (all_at (place_at 3 2) (place_at 5 0) 2 4)
        ≡ Submission 3 ∷ Act 2 ∷ [] }
    ensures second { (memory : Global)
        → asks_left (worked_script memory) (all_at (place_at 4 0) (place_at 4 1) 3 3)
        ≡ Submission 4 ∷ Act 3 ∷ [] }
    ensures through { (memory : Global)
        → asks_left (worked_script memory) (all_at (place_at 4 0) (place_at 5 0) 3 4) ≡ [] }
{}

/// Whether entries are held: in any list, that of members too.
pub fn entries_held()
    ensures none { holds_entries (opening uneven_caps) ≡ false }
    ensures four { holds_entries (quiet_world []).state ≡ true }
    ensures member { holds_entries one_member ≡ true }
{}

/// Endings with the fewer steps of two, and the ending of a world.
pub fn endings_in_lists()
    ensures fewer { (memory : Global)
        → map (λ e. e.steps) (with_fewer_steps (two_endings memory) 1 3) ≡ 2 ∷ 3 ∷ [] }
    ensures not_more { (memory : Global)
        → map (λ e. e.steps) (with_fewer_steps (two_endings memory) 1 9) ≡ 2 ∷ 7 ∷ [] }
    ensures first { (memory : Global)
        → map (λ e. e.steps) (with_fewer_steps (two_endings memory) 0 1) ≡ 1 ∷ 7 ∷ [] }
    ensures outside { (memory : Global)
        → map (λ e. e.steps) (with_fewer_steps (two_endings memory) 2 0) ≡ 2 ∷ 7 ∷ [] }
    ensures left { (memory : Global)
        → map (λ e. e.left.items) (with_fewer_steps (two_endings memory) 1 3)
        ≡ (Submission 4 ∷ []) ∷ (Act 3 ∷ []) ∷ [] }
    ensures alike { (memory : Global)
        → AreLikeEndings (ending_with memory (Act 2) true 3) (ending_with memory (Act 2) true 5) }
    ensures other { (memory : Global)
        → ¬ AreLikeEndings (ending_with memory (Act 2) true 3) (ending_with memory (Act 1) true 3) }
    ensures held { (memory : Global)
        → ¬ AreLikeEndings (ending_with memory (Act 2) true 3)
        (ending_with memory (Act 2) false 3) }
    ensures here { (memory : Global)
        → IsEndingOf (worked_script memory) (ending_with memory (Submission 3) false 9)
        (standing_world (all_at (place_at 3 2) (place_at 5 0) 3 4)) }
    ensures elsewhere { (memory : Global)
        → ¬ IsEndingOf (worked_script memory) (ending_with memory (Submission 3) false 9)
        (standing_world (all_at (place_at 4 2) (place_at 5 0) 3 4)) }
    ensures nothing_held { (memory : Global)
        → ¬ IsEndingOf (worked_script memory) (ending_with memory (Submission 3) true 9)
        (standing_world (all_at (place_at 3 2) (place_at 5 0) 3 4)) }
{}

/// Where nobody moves, a run has ended; where somebody polls on and on, it has not.
pub fn ends_and_others()
    ensures idle { IsLastWorld idle_parties (quiet_world []) }
    ensures polling { ¬ IsLastWorld polling_parties (quiet_world []) }
{}

/// A script without parties ends where it begins, and in no other way.
pub fn ends_of_a_still_script()
    ensures at_once { (memory : Global)
        → AreEndings (still_script memory) (standing_world nowhere) (ending_through memory 0 ∷ []) }
    ensures never { (memory : Global)
        → ¬ AreEndings (still_script memory) (standing_world nowhere) [] }
    ensures late { (memory : Global)
        → ¬ AreEndings (still_script memory) (standing_world nowhere)
        (ending_through memory 1 ∷ []) }
    ensures twice { (memory : Global)
        → ¬ AreEndings (still_script memory) (standing_world nowhere)
        (ending_through memory 0 ∷ ending_through memory 0 ∷ []) }
{}
