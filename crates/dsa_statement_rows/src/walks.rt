//! Random walks: which are made, how far they go, and their rows.

ghost use Rattle.std.specs.Prelude.{◌≡◌, ℕ, ◌∷◌, [], List, map, true, false};
ghost use Rattle.dsa_keys.specs.Parties.{World};
ghost use Rattle.dsa_explore.specs.declared.found.Found.{Found};
ghost use Rattle.dsa_explore.specs.Sampling.{is_in_shard, walk_numbers, walk_state, AreWalks, HaveOneRowEach, IsRandomWalk, LeadsBackAlone, StopsAt};
ghost use Rattle.dsa_explore.specs.Walking.{AreMerged};
ghost use Rattle.dsa_explore.specs.WorkedFound.{other_wait, wait_found_after};
ghost use Rattle.dsa_explore.specs.WorkedSearch.{quiet_world};
ghost use Rattle.dsa_statement_rows.specs.RandomWalks.{walks_in_shard};
ghost use Rattle.dsa_statement_rows.specs.Searches.{still_space};

/// The walks of a shard: every third one from number 1 on, all, and none.
pub fn walks_of_shards()
    ensures each { map (is_in_shard (walks_in_shard 9 1 3)) (0 ∷ 1 ∷ 2 ∷ 3 ∷ 4 ∷ [])
        ≡ false ∷ true ∷ false ∷ false ∷ true ∷ [] }
    ensures third { walk_numbers (walks_in_shard 8 1 3) ≡ 1 ∷ 4 ∷ 7 ∷ [] }
    ensures all { walk_numbers (walks_in_shard 3 0 1) ≡ 0 ∷ 1 ∷ 2 ∷ [] }
    ensures past { walk_numbers (walks_in_shard 8 3 3) ≡ [] }
    ensures no_shards { walk_numbers (walks_in_shard 8 0 0) ≡ [] }
{}

/// Where the generators of walks begin, by the seed and the number.
pub fn states_of_generators()
    ensures each { map (walk_state 0) (0 ∷ 1 ∷ [])
        ≡ 12_035_550_249_420_947_055 ∷ 3_069_472_533_636_442_495 ∷ [] }
    ensures other_seed { walk_state 7 0 ≡ 13_309_476_754_707_697_221 }
{}

/// Parties that make no move have walks of no steps alone.
pub fn walks_of_the_still()
    ensures back { LeadsBackAlone (still_space true) [] 1 (quiet_world []) }
    ensures no_step { (first : World ℕ) (rows : List Found) (set_up : ℕ)
        → ¬ IsRandomWalk (still_space true) first set_up rows 1 }
    ensures none { IsRandomWalk (still_space true) (quiet_world []) 4 [] 0 }
    ensures full { (first : World ℕ) → StopsAt (still_space true) first 1_048_573 [] 3 first }
    ensures three { AreWalks (still_space true) (quiet_world []) 4 [] 3 0 0 }
    ensures not_two { ¬ AreWalks (still_space true) (quiet_world []) 4 [] 2 0 1 }
{}

/// Rows of several walks: one for each finding, with the fewer steps.
pub fn rows_of_walks()
    ensures apart { HaveOneRowEach (wait_found_after 3 ∷ other_wait ∷ []) }
    ensures twice { ¬ HaveOneRowEach (wait_found_after 3 ∷ wait_found_after 3 ∷ []) }
    ensures fewer { AreMerged (wait_found_after 3 ∷ []) (wait_found_after 2 ∷ [])
        (wait_found_after 2 ∷ []) }
    ensures not_more { ¬ AreMerged (wait_found_after 2 ∷ []) (wait_found_after 3 ∷ [])
        (wait_found_after 3 ∷ []) }
    ensures not_left_out { ¬ AreMerged [] (wait_found_after 2 ∷ []) [] }
{}
