//! Worked own names: what the definitions say of texts, step objects and steps, by computation.

ghost use Rattle.std.specs.Prelude.{◌≡◌, [], ◌∷◌, ◌++◌, Some, None, codes, map, replicate};
ghost use Rattle.serde_json.specs.Data.{null, string};
ghost use Rattle.dsa_scenario.specs.declared.run.Record.TheVariants.{Refused};
ghost use Rattle.dsa_scenario.specs.Worked.{accepted, no_command, object_of, record_of_a_fetch};
ghost use Rattle.dsa_scenario.specs.Worked.{record_ticket, whole};
ghost use Rattle.dsa_named.specs.Names.{given_at, names_given, own_text};
ghost use Rattle.dsa_named.specs.{Notes.{names_note}, Steps.{named_visits}};
ghost use Rattle.dsa_named.specs.Worked.{called, entry_ended, entry_started, entry_taken};
ghost use Rattle.dsa_named.specs.Worked.{object_as, objects_of_five, steps_of_five, retry_answered};

/// Which step objects have an own name.
pub fn of_objects()
    ensures own { map own_text
        (called (codes "x17") ∷ called (codes " [,]~") ∷ called (replicate 40 97)
        ∷ called (codes "y") ∷ [])
        ≡ Some (codes "x17") ∷ Some (codes " [,]~") ∷ Some (replicate 40 97)
        ∷ Some (codes "y") ∷ [] }
    ensures unlike { map own_text
        (called [] ∷ called (replicate 41 97) ∷ called (codes "a\"") ∷ called (codes "a\\")
        ∷ called (codes "a\n") ∷ called (127 ∷ []) ∷ called (195 ∷ 169 ∷ []) ∷ [])
        ≡ replicate 7 None }
    ensures no_text { map own_text
        (object_as (whole 3) ∷ object_as null ∷ object_of [] ∷ whole 3 ∷ string (codes "as") ∷ [])
        ≡ replicate 5 None }
{}

/// Which own names steps give.
pub fn of_steps()
    ensures given { map (given_at objects_of_five 1)
        (accepted (record_ticket 3 7) ∷ record_of_a_fetch (record_ticket 3 8) ∷ [])
        ≡ Some (7, codes "late") ∷ Some (8, codes "late") ∷ [] }
    ensures not_given { map (given_at objects_of_five 1)
        (retry_answered ∷ entry_taken 7 ∷ entry_started 7 ∷ entry_ended 7 ∷ Refused no_command ∷ [])
        ≡ replicate 5 None }
    ensures other_objects { map (λ number. given_at objects_of_five number
        (accepted (record_ticket 3 7))) (0 ∷ 3 ∷ 4 ∷ 5 ∷ [])
        ≡ Some (7, codes "list") ∷ None ∷ Some (7, codes "first") ∷ None ∷ [] }
    ensures all { names_given objects_of_five steps_of_five
        ≡ (0, codes "list") ∷ (1, codes "late") ∷ (3, codes "first") ∷ [] }
    ensures so_far { map (λ named. named.names) (named_visits objects_of_five [] steps_of_five)
        ≡ ((0, codes "list") ∷ [])
        ∷ ((0, codes "list") ∷ [])
        ∷ ((0, codes "list") ∷ (1, codes "late") ∷ [])
        ∷ ((0, codes "list") ∷ (1, codes "late") ∷ [])
        ∷ ((0, codes "list") ∷ (1, codes "late") ∷ (3, codes "first") ∷ []) ∷ [] }
{}

/// What the end of a line says.
#[tactic(auto, unfolding(dsa_scenario::specs::Worked::digits_on_literals))]
pub fn of_notes()
    ensures notes { map names_note
        ([] ∷ ((4, codes "x17") ∷ []) ∷ ((4, codes "x17") ∷ (7, codes "y") ∷ (12, codes "y") ∷ [])
        ∷ [])
        ≡ [] ∷ codes " [4 is x17]" ∷ codes " [4 is x17, 7 is y, 12 is y]" ∷ [] }
{}
