//! Worked rows: places, worlds, shards and faults, each on a function with nothing to do.

ghost use Rattle.std.specs.Prelude.{◌≡◌, [], ◌∷◌, ℕ, List, None, Some, codes};
ghost use Rattle.serde_json.specs.Data.{array, item, no_items, null, object, no_members};
ghost use Rattle.dsa_scenario.specs.declared.faults.ScenarioFault.TheVariants.{BadDocument, NoSuchRow};
ghost use Rattle.dsa_family.specs.declared.headings.Heading.TheVariants as heading;
ghost use Rattle.dsa_family.specs.Axes.{axes_said, world_of_family, worlds_of};
ghost use Rattle.dsa_family.specs.Family.{AreMadeOfWorlds, IsFirstOfWorlds, IsHeading, IsMadeOfAxes, world_numbers};
ghost use Rattle.dsa_family.specs.Places.{keys_of_path, set_at_place, without_key};
ghost use Rattle.dsa_family.specs.Worked.{said_axis, second_of_four, three_numbers, two_axes, two_numbers, whole_data};

/// Paths, and values that are set at places. An object may lack the last key, and only that.
#[tactic(auto, unfolding(serde_json::proofs::OnLiterals::serde_json_on_literals))]
pub fn of_places()
    ensures path { keys_of_path (codes "a/1/threshold")
        ≡ codes "a" ∷ codes "1" ∷ codes "threshold" ∷ [] }
    ensures item { set_at_place (keys_of_path (codes "a/0")) (whole_data 7) (two_numbers 3 4)
        ≡ Some (two_numbers 7 4) }
    ensures past { set_at_place (keys_of_path (codes "a/2")) (whole_data 7) (two_numbers 3 4)
        ≡ None }
    ensures no_number { set_at_place (keys_of_path (codes "a/x")) (whole_data 7) (two_numbers 3 4)
        ≡ None }
    ensures absent { set_at_place (keys_of_path (codes "b")) (whole_data 7) (two_numbers 3 4)
        ≡ Some (three_numbers 3 4 7) }
    ensures deep { set_at_place (keys_of_path (codes "b/c")) (whole_data 7) (two_numbers 3 4)
        ≡ None }
    ensures without { without_key (codes "b") (three_numbers 3 4 7) ≡ two_numbers 3 4 }
{}

/// The documents of a family of two times three: the last place varies fastest.
#[tactic(auto, unfolding(serde_json::proofs::OnLiterals::serde_json_on_literals))]
pub fn of_six_worlds()
    ensures count { worlds_of two_axes ≡ 6 }
    ensures first { world_of_family (two_numbers 3 4) two_axes 0 ≡ Some (three_numbers 3 1 5) }
    ensures second { world_of_family (two_numbers 3 4) two_axes 1 ≡ Some (three_numbers 3 1 6) }
    ensures fourth { world_of_family (two_numbers 3 4) two_axes 3 ≡ Some (three_numbers 3 2 5) }
    ensures last { world_of_family (two_numbers 3 4) two_axes 5 ≡ Some (three_numbers 3 2 7) }
    ensures lost { world_of_family (two_numbers 3 4)
        ((codes "a", null ∷ []) ∷ (codes "a/1", null ∷ []) ∷ []) 0
        ≡ None }
{}

/// The worlds of shards.
pub fn of_shards()
    ensures all { world_numbers (record { number = 0; count = 1 }) two_axes
        ≡ 0 ∷ 1 ∷ 2 ∷ 3 ∷ 4 ∷ 5 ∷ [] }
    ensures some { world_numbers second_of_four two_axes ≡ 1 ∷ 5 ∷ [] }
    ensures none { world_numbers (record { number = 0; count = 0 }) two_axes ≡ [] }
{}

/// What `vary` says, and what it cannot say.
#[tactic(auto, unfolding(serde_json::proofs::OnLiterals::serde_json_on_literals))]
pub fn of_vary()
    ensures said { axes_said (array (item (said_axis (codes "a/1") null) no_items))
        (two_numbers 3 4)
        ≡ Some ((codes "a/1", null ∷ []) ∷ []) }
    ensures nothing { axes_said (array no_items) (two_numbers 3 4) ≡ Some [] }
    ensures no_array { axes_said (object no_members) (two_numbers 3 4) ≡ None }
    ensures no_object { axes_said (array (item (whole_data 1) no_items)) (two_numbers 3 4) ≡ None }
    ensures no_place { axes_said (array (item (said_axis (codes "a/2") null) no_items))
        (two_numbers 3 4)
        ≡ None }
{}

/// First lines.
pub fn of_headings()
    ensures bare { (text : List ℕ) → IsHeading heading.Line 7 [] text → text ≡ codes "world 7\n" }
    ensures valued { (text : List ℕ) → IsHeading heading.Line 0 ((codes "a/1", null) ∷ []) text
        → text ≡ codes "world 0: a/1 = null\n" }
    ensures object { (text : List ℕ) → IsHeading heading.Object 7 [] text
        → text ≡ codes "{\"world\":7,\"at\":{}}\n" }
{}

/// A `vary` with a fault, and a family without worlds.
pub fn of_nothing_made()
    ensures bad { IsMadeOfAxes (λ bytes fault text. ⊥) heading.Line second_of_four null None
        (Some BadDocument) [] }
    ensures empty { AreMadeOfWorlds (λ bytes fault text. ⊥) heading.Line null [] [] None [] }
    ensures no_row { IsFirstOfWorlds (λ bytes fault text. ⊥) null [] None [] (Some NoSuchRow) [] }
{}
