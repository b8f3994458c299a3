//! Worked rows: places of strings, and what insertions leave, each on a function with nothing to
//! do.

ghost use Rattle.std.specs.Prelude.{◌≡◌, ◌∷◌, []};
ghost use Rattle.dsa_seen.specs.declared.Inserted.TheVariants.{Full, New, Old, TooLong};
ghost use Rattle.dsa_seen.specs.Chains.{IsStoredByWidth, IsLatest, hash, place_among, strings_in};
ghost use Rattle.dsa_seen.specs.Table.{HasOneNumberEach, IsInserted};
ghost use Rattle.dsa_seen.specs.Worked.{eight, seven, table_of_two, with_both, with_seven};

/// Places by the hash FNV-1a of 32 bits: of nothing, of `a`, and of two bytes.
#[tactic(auto, unfolding(crate::specs::Chains::hash, crate::specs::Chains::place_among))]
pub fn places_of_strings()
    ensures nothing { hash [] ≡ 2166136261 }
    ensures a { hash (97 ∷ []) ≡ 3826002220 }
    ensures zero { hash (0 ∷ []) ≡ 84696351 }
    ensures two { hash (200 ∷ 1 ∷ []) ≡ 3199113922 }
    ensures place { place_among 7 (97 ∷ []) ≡ 5 }
{}

/// Strings are stored width by width.
pub fn strings_by_width()
    ensures two { strings_in 3 (1 ∷ 2 ∷ 3 ∷ 4 ∷ 5 ∷ 6 ∷ []) (2 ∷ 3 ∷ [])
        ≡ (1 ∷ 2 ∷ []) ∷ (4 ∷ 5 ∷ 6 ∷ []) ∷ [] }
{}

/// Stored strings take a whole width each, and have no more bytes.
pub fn strings_that_are_stored()
    ensures stored { IsStoredByWidth 3 (1 ∷ 2 ∷ 3 ∷ 4 ∷ 5 ∷ 6 ∷ []) (2 ∷ 3 ∷ []) }
    ensures more { ¬ IsStoredByWidth 3 (1 ∷ 2 ∷ 3 ∷ 4 ∷ 5 ∷ 6 ∷ []) (2 ∷ []) }
    ensures long { ¬ IsStoredByWidth 3 (1 ∷ 2 ∷ 3 ∷ 4 ∷ 5 ∷ 6 ∷ []) (2 ∷ 4 ∷ []) }
{}

/// The last string of a place, among the strings `a`, `b` and `d`: with seven places, `a` has place
/// 5, `b` place 6 and `d` place 4.
#[tactic(auto, unfolding(crate::specs::Chains::hash, crate::specs::Chains::place_among))]
pub fn last_strings_of_places()
    ensures second { IsLatest 7 ((97 ∷ []) ∷ (98 ∷ []) ∷ (100 ∷ []) ∷ []) 6 2 3 }
    ensures none { IsLatest 7 ((97 ∷ []) ∷ (98 ∷ []) ∷ (100 ∷ []) ∷ []) 3 0 3 }
    ensures behind { ¬ IsLatest 7 ((97 ∷ []) ∷ (98 ∷ []) ∷ (100 ∷ []) ∷ []) 4 3 2 }
    ensures other { ¬ IsLatest 7 ((97 ∷ []) ∷ (98 ∷ []) ∷ (100 ∷ []) ∷ []) 6 3 3 }
    ensures left_out { ¬ IsLatest 7 ((97 ∷ []) ∷ (98 ∷ []) ∷ (100 ∷ []) ∷ []) 6 0 3 }
    ensures of_two { IsLatest 7 ((97 ∷ []) ∷ (98 ∷ []) ∷ (100 ∷ []) ∷ []) 5 1 1 }
{}

/// Strings with one number each.
pub fn numbers_of_strings()
    ensures each { HasOneNumberEach (seven ∷ eight ∷ []) }
{}

/// A string that was there, and one that is too long: nothing changes.
pub fn strings_that_do_not_come_in()
    ensures old { IsInserted with_both eight (Old 1) with_both }
    ensures other { ¬ IsInserted with_both eight (Old 0) with_both }
    ensures changed { ¬ IsInserted with_both eight (Old 1) (table_of_two (seven ∷ eight ∷ seven
        ∷ [])) }
    ensures long { IsInserted with_both (1 ∷ 2 ∷ 3 ∷ 4 ∷ []) TooLong with_both }
    ensures not_long { ¬ IsInserted with_both (1 ∷ 2 ∷ 3 ∷ []) TooLong with_both }
    ensures long_and_changed { ¬ IsInserted with_both (1 ∷ 2 ∷ 3 ∷ 4 ∷ []) TooLong with_seven }
{}

/// A string that comes in, and a table that is full.
pub fn strings_that_come_in()
    ensures new { IsInserted with_seven eight (New 1) with_both }
    ensures number { ¬ IsInserted with_seven eight (New 2) with_both }
    ensures there { ¬ IsInserted with_both eight (New 2) (table_of_two (seven ∷ eight ∷ eight
        ∷ [])) }
    ensures left { ¬ IsInserted with_seven eight (New 1) with_seven }
    ensures full { IsInserted with_both (9 ∷ []) Full with_both }
    ensures room { ¬ IsInserted with_seven (9 ∷ []) Full with_seven }
    ensures full_there { ¬ IsInserted with_both eight Full with_both }
    ensures full_and_changed { ¬ IsInserted with_both (9 ∷ []) Full with_seven }
{}
