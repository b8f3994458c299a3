//! Worked reasons of one object: what the definitions say at chosen values, by computation.

ghost use Rattle.std.specs.Prelude.{◌≡◌, ℕ, List, [], ◌∷◌, codes};
ghost use Rattle.serde_json.specs.Data.{null, string};
ghost use Rattle.dsa_scenario.specs.declared.fields.Form.TheVariants as form;
ghost use Rattle.dsa_scenario.specs.Worked.{object_of, poll_step, step_of_kind, whole};
ghost use Rattle.dsa_check.specs.OneStep.{AreStepTexts, AreKeyTexts, joined_text};

/// What is wrong with an object that is to be a step comes first, and then what was seen of it.
#[tactic(auto, unfolding(dsa_scenario::specs::Worked::digits_on_literals))]
pub fn texts_of_steps()
    ensures right { AreStepTexts (object_of poll_step) [] }
    ensures no_object { AreStepTexts null (codes "null stands here, an object is wanted" ∷ []) }
    ensures no_kind { AreStepTexts (object_of []) (codes "\"do\" is missing" ∷ []) }
    ensures seen { AreStepTexts
        (object_of ((codes "zf", whole 2) ∷ (codes "answer", whole 1) ∷ poll_step))
        (codes "\"answer\" is 1, a text is wanted"
        ∷ codes "\"zf\" is 2, true or false is wanted" ∷ []) }
    ensures both { AreStepTexts
        (object_of ((codes "zf", null) ∷ step_of_kind (codes "command") []))
        (codes "\"word\" is missing" ∷ codes "\"zf\" is null, true or false is wanted" ∷ []) }
    ensures called { AreStepTexts
        (object_of ((codes "command", string (codes "poll")) ∷ step_of_kind (codes "command") []))
        (codes "\"word\" is missing (dsa_run expand writes it)" ∷ []) }
    ensures untold { AreStepTexts null [] → ⊥ }
    ensures unfounded { (text : List ℕ) → AreStepTexts (object_of poll_step) (text ∷ []) → ⊥ }
{}

/// What is wrong at keys of an object.
#[tactic(auto, unfolding(dsa_scenario::specs::Worked::digits_on_literals))]
pub fn texts_of_keys()
    ensures right { AreKeyTexts (object_of ((codes "step", null) ∷ [])) [] [] }
    ensures missing { AreKeyTexts (object_of (step_of_kind (codes "explain") []))
        ((codes "step", form.Object) ∷ [])
        (codes "\"step\" is missing" ∷ []) }
    ensures unfit { AreKeyTexts (object_of ((codes "step", whole 1) ∷ []))
        ((codes "step", form.Object) ∷ [])
        (codes "\"step\" is 1, an object is wanted" ∷ []) }
    ensures untold { AreKeyTexts (object_of []) ((codes "step", form.Object) ∷ []) [] → ⊥ }
    ensures unfounded { (text : List ℕ)
        → AreKeyTexts (object_of ((codes "step", object_of []) ∷ []))
        ((codes "step", form.Object) ∷ []) (text ∷ [])
        → ⊥ }
{}

/// Texts in one line.
pub fn joined_texts()
    ensures none { joined_text [] ≡ [] }
    ensures one { joined_text (codes "a" ∷ []) ≡ codes "a" }
    ensures three { joined_text (codes "a" ∷ codes "b" ∷ codes "c" ∷ []) ≡ codes "a; b; c" }
{}
