//! Worked rows: which questions can be read, on a function with nothing to do.

ghost use Rattle.std.specs.Prelude.{◌≡◌, [], ◌∷◌, codes, map, replicate, true, false};
ghost use Rattle.serde_json.specs.Data.{null, string};
ghost use Rattle.dsa_scenario.specs.Worked.{object_of};
ghost use Rattle.dsa_questions.specs.declared.question.Kind.TheVariants.{Never, Sometimes, Always};
ghost use Rattle.dsa_questions.specs.Judging.{is_formed, is_question, no_questions};
ghost use Rattle.dsa_questions.specs.Worked.{entry_is, inquired, negated, question_about};
ghost use Rattle.dsa_questions.specs.Worked.{question_named, worked_names, worked_pair};

/// Which questions can be read, by what they ask for.
#[tactic(auto, unfolding(crate::specs::Worked::questions_on_literals))]
pub fn of_judged_questions()
    ensures none { no_questions ≡ inquired [] }
    ensures rows { map (λ kind. is_question kind worked_names
        (question_about (entry_is (codes "y0") (codes "aborted"))))
        (Never ∷ Sometimes ∷ Always ∷ [])
        ≡ replicate 3 true }
    ensures labels { map (λ kind. is_question kind worked_names
        (question_about (entry_is (codes "z0") (codes "aborted"))))
        (Never ∷ Sometimes ∷ Always ∷ [])
        ≡ replicate 3 false }
    ensures states { is_question Never worked_names
        (question_about (negated (entry_is (codes "x0") (codes "held"))))
        ≡ true }
    ensures waits { map (λ kind. is_question kind worked_names
        (question_about
        (worked_pair (codes "command") (codes "drain") (codes "waits-for") (codes "x0"))))
        (Never ∷ Always ∷ [])
        ≡ true ∷ false ∷ [] }
{}

/// Which objects are formed as a question is, whatever stands at `that`.
pub fn of_formed_objects()
    ensures formed { map is_formed
        (question_about null ∷ question_named (codes "lost") (string (codes "x")) ∷ [])
        ≡ true ∷ true ∷ [] }
    ensures others { map is_formed
        (object_of ((codes "name", string (codes "lost")) ∷ [])
        ∷ object_of ((codes "name", null) ∷ (codes "that", null) ∷ [])
        ∷ question_named [] null
        ∷ object_of ((codes "that", null) ∷ (codes "when", null) ∷ [])
        ∷ object_of []
        ∷ null
        ∷ [])
        ≡ replicate 6 false }
{}
