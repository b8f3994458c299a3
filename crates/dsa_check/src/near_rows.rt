//! Worked rows of names that are spelled nearly as others.

ghost use Rattle.std.specs.Prelude.{◌≡◌, ◌%◌, ℕ, [], ◌∷◌, Option, Some, None, codes, map, true};
ghost use Rattle.std.specs.Prelude.{false, String, string_bytes};
ghost use Rattle.std.specs.declared.alloc.Global.{Global};
ghost use Rattle.serde_json.specs.Data.{null, string, array, no_items};
ghost use Rattle.dsa_scenario.specs.Worked.{object_of, step_of_kind};
ghost use Rattle.dsa_check.specs.declared.fields.Key.{Key};
ghost use Rattle.dsa_check.specs.declared.finding.Reason.TheVariants.{Missing, Misspelled, Expandable};
ghost use Rattle.dsa_check.specs.declared.finding.Reason.TheVariants.{UnknownKind, NotUtf8};
ghost use Rattle.dsa_scenario.specs.declared.actions.StepKind.{StepKind};
ghost use Rattle.dsa_scenario.specs.declared.actions.StepKind.TheVariants.{Enqcmd, Movdir, Fetch};
ghost use Rattle.dsa_scenario.specs.declared.actions.StepKind.TheVariants.{Start, Finish, Command};
ghost use Rattle.dsa_scenario.specs.declared.actions.StepKind.TheVariants.{Poll, Clear};
ghost use Rattle.dsa_check.specs.Reasons.{letters_of, edits_between, most_edits, few_edits};
ghost use Rattle.dsa_check.specs.Reasons.{distance_by_edits, begins_with, distance_of, is_below};
ghost use Rattle.dsa_check.specs.Reasons.{nearest_below, nearest, near_kind, keys_of};
ghost use Rattle.dsa_check.specs.Reasons.{stray_distance, near_key, TellsNearKey, IsNoKind};
ghost use Rattle.dsa_check.specs.Reasons.{IsKindReason};
ghost use Rattle.dsa_scenario.specs.Actions.{rows_of_kind};

/// Letters and digits of names, and how many edits are between two.
#[tactic(auto, unfolding(crate::specs::Worked::near_on_literals))]
pub fn edits_of_names()
    ensures letters { letters_of (codes "Max_xfer-Shift 20") ≡ codes "maxxfershift20" }
    ensures same { edits_between (codes "queue") (codes "queue") ≡ 0 }
    ensures less { edits_between (codes "queue") (codes "qeue") ≡ 1 }
    ensures more { edits_between (codes "poll") (codes "pooll") ≡ 1 }
    ensures changed { edits_between (codes "clear") (codes "clean") ≡ 1 }
    ensures exchanged { edits_between (codes "fetch") (codes "fecth") ≡ 1 }
    ensures three { edits_between (codes "queue") (codes "qxxxe") ≡ 3 }
    ensures short { most_edits (codes "poll") ≡ 1 }
    ensures long { most_edits (codes "clear") ≡ 2 }
    ensures few { map (few_edits 2) (0 ∷ 2 ∷ 3 ∷ []) ≡ Some 0 ∷ Some 2 ∷ None ∷ [] }
    ensures by_edits { distance_by_edits (codes "queue") (codes "kueu") ≡ Some 2 }
    ensures of_a_short_name { distance_by_edits (codes "poll") (codes "pxlx") ≡ None }
    ensures shorter { distance_by_edits (codes "queue") (codes "ue") ≡ None }
    ensures longer { distance_by_edits (codes "pol") (codes "polish") ≡ None }
{}

/// How far names are from others.
#[tactic(auto, unfolding(crate::specs::Worked::near_on_literals))]
pub fn distances_of_names()
    ensures letters { distance_of (codes "max_xfer_shift") (codes "maxXfer-Shift") ≡ Some 0 }
    ensures begins { begins_with (codes "poll") (codes "polling") ≡ true }
    ensures begins_short { begins_with (codes "pol") (codes "polling") ≡ false }
    ensures begins_other { begins_with (codes "poll") (codes "pulling") ≡ false }
    ensures begun { distance_of (codes "poll") (codes "polling") ≡ Some 3 }
    ensures edits { distance_of (codes "fetch") (codes "fecth") ≡ Some 1 }
    ensures far { distance_of (codes "queue") (codes "qxxxe") ≡ None }
    ensures not_plain { distance_of (codes "poll") (codes "poll\n") ≡ None }
    ensures edits_of_a_short_name { distance_of (codes "poll") (codes "pulla") ≡ None }
{}

/// What is nearest: the first of those that are, where one is nearer than the bound.
pub fn nearest_of_some()
    ensures below { map (is_below 3) (None ∷ Some 2 ∷ Some 3 ∷ []) ≡ false ∷ true ∷ false ∷ [] }
    ensures first { nearest {X = ℕ} (λ n. Some (n % 10)) (13 ∷ 21 ∷ 12 ∷ 31 ∷ []) ≡ Some 21 }
    ensures last { nearest {X = ℕ} (λ n. Some (n % 10)) (13 ∷ 22 ∷ 11 ∷ []) ≡ Some 11 }
    ensures farthest { nearest {X = ℕ} (λ n. Some n) (4 ∷ 3 ∷ []) ≡ Some 3 }
    ensures too_far { nearest {X = ℕ} (λ n. Some n) (4 ∷ 5 ∷ []) ≡ None }
    ensures never { nearest {X = ℕ} (λ n. None) (1 ∷ []) ≡ None }
    ensures found { nearest_below {X = ℕ} (λ n. Some n) 2 (Some 7) (2 ∷ 3 ∷ []) ≡ Some 7 }
    ensures nearer { nearest_below {X = ℕ} (λ n. Some n) 2 (Some 7) (2 ∷ 1 ∷ []) ≡ Some 1 }
{}

/// The kinds of steps whose names are nearest to some texts.
#[tactic(auto, unfolding(crate::specs::Worked::near_on_literals))]
pub fn near_kinds()
    ensures kinds { map near_kind
        (codes "Poll" ∷ codes "comand" ∷ codes "fecth" ∷ codes "clean" ∷ codes "steart"
        ∷ codes "mowdri" ∷ codes "finished" ∷ codes "enqcmd64" ∷ codes "zzz" ∷ codes "poll\n" ∷ [])
        ≡ Some Poll ∷ Some Command ∷ Some Fetch ∷ Some Clear ∷ Some Start ∷ Some Movdir
        ∷ Some Finish ∷ Some Enqcmd ∷ None ∷ None ∷ [] }
{}

/// What is told of a text that names no kind of step.
#[tactic(auto, unfolding(crate::specs::Worked::near_on_literals))]
pub fn kinds_that_are_told()
    ensures not_plain { IsNoKind None None (codes "poll\n") }
    ensures step { IsKindReason (object_of (step_of_kind (codes "poll\n") []))
        (UnknownKind None None) }
    ensures near { (text : String Global)
        → string_bytes text ≡ codes "pol"
        → IsNoKind (Some text) (Some Poll) (codes "pol") }
    ensures untold { (text : String Global) → IsNoKind (Some text) None (codes "pol") → ⊥ }
    ensures another { (text : String Global)
        → IsNoKind (Some text) (Some Clear) (codes "pol")
        → ⊥ }
    ensures none_near { (text : String Global)
        → IsNoKind (Some text) (Some Poll) (codes "zzz")
        → ⊥ }
    ensures other_text { (text : String Global)
        → string_bytes text ≡ codes "poll"
        → IsNoKind (Some text) (Some Poll) (codes "pol")
        → ⊥ }
    ensures untold_text { (near : Option StepKind) → IsNoKind None near (codes "pol") → ⊥ }
    ensures a_kind { (told : Option (String Global)) (near : Option StepKind)
        → IsNoKind told near (codes "poll")
        → ⊥ }
{}

/// The key of an object that is nearest to one that is missing.
#[tactic(auto, unfolding(crate::specs::Worked::near_on_literals))]
pub fn near_keys()
    ensures keys { keys_of (object_of ((codes "wrd", null) ∷ (codes "word2", null) ∷ []))
        ≡ codes "wrd" ∷ codes "word2" ∷ [] }
    ensures no_object { keys_of (array no_items) ≡ [] }
    ensures asked { stray_distance (rows_of_kind Command) (codes "do") (codes "word") ≡ None }
    ensures stray { stray_distance (rows_of_kind Command) (codes "word") (codes "wrd") ≡ Some 1 }
    ensures nearest { near_key
        (object_of ((codes "do", null) ∷ (codes "word2", null) ∷ (codes "wrd", null) ∷ []))
        (rows_of_kind Command) (codes "word")
        ≡ Some (codes "wrd") }
    ensures none { near_key (object_of ((codes "size", null) ∷ [])) (rows_of_kind Command)
        (codes "word")
        ≡ None }
{}

/// What is told of a key that is missing.
#[tactic(auto, unfolding(crate::specs::Worked::near_on_literals))]
pub fn near_keys_that_are_told()
    ensures told { (key : Key) (text : String Global)
        → string_bytes text ≡ codes "wrd"
        → TellsNearKey (object_of ((codes "wrd", null) ∷ [])) (rows_of_kind Command) (codes "word")
        (Misspelled key text) }
    ensures another { (key : Key) (text : String Global)
        → string_bytes text ≡ codes "word2"
        → TellsNearKey (object_of ((codes "wrd", null) ∷ [])) (rows_of_kind Command) (codes "word")
        (Misspelled key text)
        → ⊥ }
    ensures untold { (key : Key)
        → TellsNearKey (object_of ((codes "wrd", null) ∷ [])) (rows_of_kind Command) (codes "word")
        (Missing key)
        → ⊥ }
    ensures none_near { (key : Key)
        → TellsNearKey (object_of ((codes "size", null) ∷ [])) (rows_of_kind Command)
        (codes "word") (Missing key) }
    ensures expandable { (key : Key)
        → TellsNearKey (object_of ((codes "command", string []) ∷ [])) (rows_of_kind Command)
        (codes "word") (Expandable key) }
    ensures no_word { (key : Key)
        → TellsNearKey (object_of ((codes "command", string []) ∷ [])) (rows_of_kind Command)
        (codes "word") (Missing key)
        → ⊥ }
    ensures no_call { (key : Key)
        → TellsNearKey (object_of ((codes "command", null) ∷ [])) (rows_of_kind Command)
        (codes "word") (Expandable key)
        → ⊥ }
    ensures other_reason { TellsNearKey (object_of ((codes "wrd", null) ∷ []))
        (rows_of_kind Command) (codes "word") NotUtf8 }
{}
