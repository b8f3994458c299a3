//! Worked rows of formulas on states: what they are read as, and what searches say of them, each on
//! a function with nothing to do.

ghost use Rattle.std.specs.Prelude.{◌≡◌, [], ◌∷◌, codes, map, replicate, true, false, Ok, Err, Some, None};
ghost use Rattle.std.specs.declared.alloc.Global.{Global};
ghost use Rattle.serde_json.specs.Data.{null, string};
ghost use Rattle.dsa_regs.specs.declared.Phase.TheVariants.{On, Stopping};
ghost use Rattle.dsa_scenario.specs.declared.faults.ScenarioFault.TheVariants.{BadQuestion};
ghost use Rattle.dsa_scenario.specs.Worked.{object_of, whole};
ghost use Rattle.dsa_parties.specs.declared.watches.Became.TheVariants as became;
ghost use Rattle.dsa_parties.specs.declared.watches.Replied.TheVariants as replied;
ghost use Rattle.dsa_parties.specs.declared.watches.Watch.TheVariants as watch;
ghost use Rattle.dsa_formulas.specs.declared.formula.Being.TheVariants.{Held, Waiting};
ghost use Rattle.dsa_formulas.specs.declared.formula.Fact.TheVariants as fact;
ghost use Rattle.dsa_formulas.specs.declared.formula.Term.TheVariants.{Is, Known, Not, Both, Either};
ghost use Rattle.dsa_plans.specs.Worked.{listing};
ghost use Rattle.dsa_questions.specs.declared.question.Kind.TheVariants.{Never, Always};
ghost use Rattle.dsa_questions.specs.declared.verdicts.Outlook.TheVariants.{InNoOrder, NotSoFar, With};
ghost use Rattle.dsa_questions.specs.Reading.{questions_said, states};
ghost use Rattle.dsa_questions.specs.Stating.{formula_onto};
ghost use Rattle.dsa_questions.specs.Verdicts.{answer_with, outlook_by};
ghost use Rattle.dsa_questions.specs.Worked.{all_of, any_of, asking_states, command_is, entry_is, explored_so, negated};
ghost use Rattle.dsa_questions.specs.Worked.{inquired, no_formula, question_about, so_far, worked_names, worked_pair};

/// What facts are read as. What has come is watched for.
pub fn of_facts()
    ensures watched { map (formula_onto 1 worked_names no_formula)
        (entry_is (codes "y0") (codes "aborted")
        ∷ worked_pair (codes "entry") (codes "x0") (codes "accepted-before") (codes "reset")
        ∷ command_is (codes "poll") (codes "finished") ∷ [])
        ≡ Some (so_far (Is (fact.Came 0) ∷ []) (watch.Entry 1 became.Aborted ∷ []))
        ∷ Some (so_far (Is (fact.Came 0) ∷ []) (watch.Before 0 2 ∷ []))
        ∷ Some (so_far (Is (fact.Came 0) ∷ []) (watch.Act 1 replied.Finished ∷ []))
        ∷ [] }
    ensures later { formula_onto 1 worked_names
        (so_far [] (watch.Before 0 2 ∷ watch.Before 0 1 ∷ []))
        (entry_is (codes "y0") (codes "retry"))
        ≡ Some
        (so_far (Is (fact.Came 2) ∷ [])
        (watch.Before 0 2 ∷ watch.Before 0 1 ∷ watch.Entry 1 became.Retry ∷ [])) }
    ensures stands { map (formula_onto 1 worked_names no_formula)
        (entry_is (codes "y0") (codes "held")
        ∷ entry_is (codes "x0") (codes "waiting")
        ∷ object_of ((codes "queue", whole 1) ∷ (codes "phase", string (codes "stopping")) ∷ [])
        ∷ object_of ((codes "queue", whole 0) ∷ (codes "occupancy", whole 3) ∷ [])
        ∷ object_of ((codes "device", string (codes "on")) ∷ [])
        ∷ object_of ((codes "client", whole 1) ∷ [])
        ∷ object_of ((codes "admin", whole 0) ∷ [])
        ∷ [])
        ≡ Some (so_far (Is (fact.Entry 1 Held) ∷ []) [])
        ∷ Some (so_far (Is (fact.Entry 0 Waiting) ∷ []) [])
        ∷ Some (so_far (Is (fact.Queue 1 Stopping) ∷ []) [])
        ∷ Some (so_far (Is (fact.Filled 0 3) ∷ []) [])
        ∷ Some (so_far (Is (fact.Device On) ∷ []) [])
        ∷ Some (so_far (Is (fact.Client 1) ∷ []) [])
        ∷ Some (so_far (Is (fact.Administrator 0) ∷ []) [])
        ∷ [] }
    ensures bad { map (formula_onto 1 worked_names no_formula)
        (object_of ((codes "queue", whole 2) ∷ (codes "phase", string (codes "on")) ∷ [])
        ∷ object_of ((codes "queue", whole 0) ∷ (codes "phase", string (codes "up")) ∷ [])
        ∷ object_of ((codes "queue", whole 0) ∷ (codes "occupancy", whole 65536) ∷ [])
        ∷ object_of ((codes "client", whole 2) ∷ [])
        ∷ object_of ((codes "admin", whole 1) ∷ [])
        ∷ entry_is (codes "z0") (codes "held")
        ∷ entry_is (codes "x0") (codes "gone")
        ∷ worked_pair (codes "entry") (codes "x0") (codes "accepted-before") (codes "y0")
        ∷ worked_pair (codes "command") (codes "drain") (codes "waits-for") (codes "x0")
        ∷ object_of [] ∷ null ∷ []) ≡ replicate 11 None }
{}

/// What joins conditions, and how deep they may be nested.
pub fn of_formulas()
    ensures joined { map (formula_onto 2 worked_names no_formula)
        (all_of
        (entry_is (codes "x0") (codes "held") ∷ entry_is (codes "x0") (codes "accepted") ∷ [])
        ∷ any_of (entry_is (codes "x0") (codes "held") ∷ entry_is (codes "y0") (codes "held") ∷ [])
        ∷ negated (entry_is (codes "x0") (codes "held"))
        ∷ all_of [] ∷ any_of [] ∷ [])
        ≡ Some
        (so_far
        (Known true ∷ Is (fact.Entry 0 Held) ∷ Both ∷ Is (fact.Came 0) ∷ Both ∷ [])
        (watch.Entry 0 became.Accepted ∷ []))
        ∷ Some
        (so_far
        (Known false ∷ Is (fact.Entry 0 Held) ∷ Either ∷ Is (fact.Entry 1 Held) ∷ Either ∷ [])
        [])
        ∷ Some (so_far (Is (fact.Entry 0 Held) ∷ Not ∷ []) [])
        ∷ Some (so_far (Known true ∷ []) [])
        ∷ Some (so_far (Known false ∷ []) [])
        ∷ [] }
    ensures deep { map (λ depth. formula_onto depth worked_names no_formula
        (negated (negated (entry_is (codes "x0") (codes "held"))))) (0 ∷ 1 ∷ 2 ∷ 3 ∷ [])
        ≡ None ∷ None ∷ None ∷ Some (so_far (Is (fact.Entry 0 Held) ∷ Not ∷ Not ∷ []) []) ∷ [] }
    ensures bad { map (formula_onto 2 worked_names no_formula)
        (object_of ((codes "all", null) ∷ [])
        ∷ object_of ((codes "all", listing []) ∷ (codes "any", listing []) ∷ [])
        ∷ all_of (null ∷ [])
        ∷ all_of (entry_is (codes "x0") (codes "held") ∷ entry_is (codes "z0") (codes "held") ∷ [])
        ∷ negated null
        ∷ []) ≡ replicate 5 None }
{}

/// Questions on states of a document. An `always` asks for what is not as it says, and two
/// questions watch for different things.
#[tactic(auto, unfolding(crate::specs::Worked::questions_on_literals))]
pub fn of_state_questions()
    ensures both { questions_said worked_names
        (object_of
        ((
          codes "never",
          listing
              (question_about
              (all_of
              (entry_is (codes "x0") (codes "aborted") ∷ entry_is (codes "x0") (codes "held") ∷ []))
              ∷ []),
        )
        ∷ (
          codes "always",
          listing
              (question_about (entry_is (codes "y0") (codes "accepted")) ∷ []),
        ) ∷ []))
        ≡ Ok
        (record {
          asked =
              asking_states Never (codes "0")
              (Known true ∷ Is (fact.Came 0) ∷ Both ∷ Is (fact.Entry 0 Held) ∷ Both ∷ [])
              ∷ asking_states Always (codes "1") (Is (fact.Came 1) ∷ Not ∷ []) ∷ [];
          watches = watch.Entry 0 became.Aborted ∷ watch.Entry 1 became.Accepted ∷ [];
        }) }
    ensures bad { map (questions_said worked_names)
        (object_of
        ((codes "never", listing (question_about (negated null) ∷ [])) ∷ [])
        ∷ object_of
        ((
          codes "always",
          listing
              (question_about (entry_is (codes "x0") (codes "held"))
              ∷ question_about
              (worked_pair (codes "command") (codes "drain") (codes "removes") (codes "x0")) ∷ []),
        )
        ∷ [])
        ∷ [])
        ≡ Err (BadQuestion 0) ∷ Err (BadQuestion 1) ∷ [] }
{}

/// What is said of states, by the fewest steps to one that is asked for.
pub fn of_state_answers()
    ensures complete { (memory : Global)
        → map (outlook_by (explored_so memory true) (states [])) (Some 0 ∷ Some 7 ∷ None ∷ [])
        ≡ With 0 ∷ With 7 ∷ InNoOrder ∷ [] }
    ensures bounded { (memory : Global)
        → map (outlook_by (explored_so memory false) (states [])) (Some 7 ∷ None ∷ [])
        ≡ With 7 ∷ NotSoFar ∷ [] }
    ensures named { (memory : Global)
        → answer_with (explored_so memory true) (asking_states Always (codes "a") []) (Some 2)
        ≡ record { kind = Always; name = codes "a"; outlook = With 2 } }
{}
