//! Worked friendly steps: what `expand` writes of them, and what is told of that.

ghost use Rattle.std.specs.Prelude.{◌≡◌, ◌++◌, [], ◌∷◌, true, false, codes, map};
ghost use Rattle.serde_json.specs.Data.{null, string};
ghost use Rattle.dsa_scenario.specs.declared.fields.Form.TheVariants as form;
ghost use Rattle.dsa_scenario.specs.{Fields.{bits}, Worked.{object_of}};
ghost use Rattle.dsa_check.specs.declared.fields.Found.TheVariants as found;
ghost use Rattle.dsa_check.specs.declared.finding.Reason.TheVariants.{Expandable};
ghost use Rattle.dsa_check.specs.Reasons.{calls_command, expands_missing, expands_found};
ghost use Rattle.dsa_check.specs.Lines.{hint_text, unfit_text, reason_text};
ghost use Rattle.dsa_check.specs.Worked.{key_of_caps};

/// What is found at a key and what is missing, where `expand` writes the strict form.
pub fn expanded_keys()
    ensures descriptors { map (expands_found (codes "desc"))
        (found.Object ∷ found.Array ∷ found.Text ∷ found.Null ∷ [])
        ≡ true ∷ false ∷ false ∷ false ∷ [] }
    ensures queues { map (expands_found (codes "queues"))
        (found.Object ∷ found.Array ∷ found.Text ∷ found.Number ∷ [])
        ≡ false ∷ true ∷ false ∷ false ∷ [] }
    ensures engines { map (expands_found (codes "engines"))
        (found.Object ∷ found.Array ∷ found.Text ∷ found.Truth true ∷ [])
        ≡ false ∷ true ∷ false ∷ false ∷ [] }
    ensures names { map (expands_found (codes "name"))
        (found.Object ∷ found.Array ∷ found.Text ∷ found.Whole 7 ∷ [])
        ≡ false ∷ false ∷ true ∷ false ∷ [] }
    ensures other { map (expands_found (codes "engine"))
        (found.Object ∷ found.Array ∷ found.Text ∷ [])
        ≡ false ∷ false ∷ false ∷ [] }
    ensures called { map calls_command
        (object_of ((codes "command", string []) ∷ []) ∷ object_of ((codes "command", null) ∷ [])
        ∷ object_of [] ∷ null ∷ [])
        ≡ true ∷ false ∷ false ∷ false ∷ [] }
    ensures missing { map (expands_missing (object_of ((codes "command", string []) ∷ [])))
        (codes "word" ∷ codes "operand" ∷ codes "desc" ∷ [])
        ≡ true ∷ false ∷ false ∷ [] }
    ensures not_called { expands_missing (object_of []) (codes "word") ≡ false }
{}

/// The hint in words.
#[tactic(auto, unfolding(dsa_scenario::specs::Worked::digits_on_literals))]
pub fn texts_of_hints()
    ensures hints { map hint_text (true ∷ false ∷ [])
        ≡ codes " (dsa_run expand writes it)" ∷ [] ∷ [] }
    ensures descriptor { unfit_text (codes "desc") false found.Object form.Digits
        ≡ codes "\"desc\" is an object, a text of hexadecimal digits is wanted"
        ++ codes " (dsa_run expand writes it)" }
    ensures set { unfit_text (codes "engines") false found.Array (bits 64)
        ≡ codes "\"engines\" is an array, a whole number from 0 to 18446744073709551615 is wanted"
        ++ codes " (dsa_run expand writes it)" }
    ensures name { unfit_text (codes "name") false found.Text (bits 32)
        ≡ codes "\"name\" is a text, a whole number from 0 to 4294967295 is wanted"
        ++ codes " (dsa_run expand writes it)" }
    ensures caps { unfit_text (codes "queues") true found.Array (form.Whole 1 64)
        ≡ codes "\"queues\" of \"caps\" is an array, a whole number from 1 to 64 is wanted" }
    ensures number { unfit_text (codes "desc") false (found.Whole 7) form.Digits
        ≡ codes "\"desc\" is 7, a text of hexadecimal digits is wanted" }
    ensures missing { reason_text (Expandable key_of_caps)
        ≡ codes "\"slots\" of \"caps\" is missing (dsa_run expand writes it)" }
{}
