//! Worked lines of JSON objects about questions, by computation.

ghost use Rattle.std.specs.Prelude.{◌≡◌, ◌++◌, [], ◌∷◌, codes, map, true, false};
ghost use Rattle.std.specs.declared.alloc.Global.{Global};
ghost use Rattle.dsa_questions.specs.declared.question.Condition.TheVariants.{Wait};
ghost use Rattle.dsa_questions.specs.declared.question.Kind.TheVariants.{Never, Sometimes};
ghost use Rattle.dsa_questions.specs.declared.verdicts.Outlook.TheVariants.{InNoOrder, NotSoFar, With};
ghost use Rattle.dsa_questions.specs.Objects.{objects_with_answers, question_objects, steps_member};
ghost use Rattle.dsa_questions.specs.Worked.{aborted_at, answered_so, asking, explored_so};

/// The objects of questions, and where they stand. Where nothing comes there are no steps.
#[tactic(auto, unfolding(crate::specs::Worked::questions_on_literals, dsa_tables::specs::Naming::rows_of_act))]
pub fn of_question_objects()
    ensures steps { map steps_member (With 12 ∷ InNoOrder ∷ NotSoFar ∷ [])
        ≡ codes ",\"steps\":12" ∷ [] ∷ [] ∷ [] }
    ensures complete { (memory : Global)
        → question_objects
        (answered_so (explored_so memory true)
        (asking Never (codes "m0 is lost") (aborted_at 1) ∷ asking Never (codes "1") (aborted_at 0)
        ∷ asking Sometimes (codes "it waits") (Wait 0 0 ∷ []) ∷ []))
        ≡ codes "{\"question\":\"m0 is lost\",\"kind\":\"never\",\"verdict\":\"broken\""
        ++ codes ",\"steps\":4}\n"
        ++ codes "{\"question\":\"1\",\"kind\":\"never\",\"verdict\":\"kept\"}\n"
        ++ codes "{\"question\":\"it waits\",\"kind\":\"sometimes\",\"verdict\":\"kept\""
        ++ codes ",\"steps\":2}\n" }
    ensures bounded { (memory : Global)
        → objects_with_answers (codes "x0" ∷ []) []
        (answered_so (explored_so memory false)
        (asking Never (codes "a") (aborted_at 0) ∷ asking Sometimes (codes "b") (aborted_at 0)
        ∷ []))
        (explored_so memory false)
        ≡ codes "{\"entry\":\"x0\",\"what\":\"completed 01\",\"steps\":3}\n"
        ++ codes "{\"question\":\"a\",\"kind\":\"never\",\"verdict\":\"kept so far\"}\n"
        ++ codes "{\"question\":\"b\",\"kind\":\"sometimes\",\"verdict\":\"not seen so far\"}\n"
        ++ codes "{\"states\":34,\"steps\":134,\"depth\":8,\"complete\":false}\n" }
{}
