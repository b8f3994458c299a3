//! Questions on states: what conditions say, what may be named, and the texts of random walks.

ghost use Rattle.std.specs.Prelude.{◌≡◌, [], ◌∷◌, ◌++◌, List, map, string_bytes, true, false, Some, None, codes};
ghost use Rattle.std.specs.declared.alloc.Global.{Global};
ghost use Rattle.serde_json.specs.Data.{string};
ghost use Rattle.dsa_regs.specs.declared.Phase.TheVariants.{Off, On};
ghost use Rattle.dsa_book.specs.declared.answer.PollAnswer.TheVariants.{Finished};
ghost use Rattle.dsa_book.specs.declared.answer.Reply.TheVariants as reply;
ghost use Rattle.dsa_book.specs.declared.answer.SubmitAnswer.TheVariants.{Accepted};
ghost use Rattle.dsa_scenario.specs.Worked.{object_of, whole};
ghost use Rattle.dsa_parties.specs.Offers.{label_ticket};
ghost use Rattle.dsa_parties.specs.declared.watches.Became.TheVariants as became;
ghost use Rattle.dsa_parties.specs.declared.watches.Replied.TheVariants as replied;
ghost use Rattle.dsa_formulas.specs.declared.formula.Fact.TheVariants as fact;
ghost use Rattle.dsa_formulas.specs.declared.formula.Term.TheVariants.{Is};
ghost use Rattle.dsa_explore.specs.WorkedSchedules.{polling_script};
ghost use Rattle.dsa_explore.specs.WorkedSearch.{uneven_caps};
ghost use Rattle.dsa_explore.specs.declared.found.Ask.TheVariants as ask;
ghost use Rattle.dsa_explore.specs.declared.found.Finding.TheVariants as finding;
ghost use Rattle.dsa_questions.specs.Asked.{is_about_entry};
ghost use Rattle.dsa_questions.specs.Conditions.{has_keys};
ghost use Rattle.dsa_questions.specs.Formed.{as_names};
ghost use Rattle.dsa_questions.specs.Meaning.{condition_says, stated_so};
ghost use Rattle.dsa_questions.specs.Reading.{most_nested, rows_wanted};
ghost use Rattle.dsa_questions.specs.Stating.{formula_onto, nameable};
ghost use Rattle.dsa_questions.specs.Words.{is_name};
ghost use Rattle.dsa_questions.specs.Worked.{all_of, any_of, command_is, entry_is, explored_so, negated};
ghost use Rattle.dsa_questions.specs.Worked.{no_formula, so_far, worked_names};
ghost use Rattle.dsa_questions.specs.declared.question.Condition.TheVariants.{Act, Entry};
ghost use Rattle.dsa_questions.specs.declared.question.Kind.TheVariants.{Never};
ghost use Rattle.dsa_questions.specs.declared.stating.Naming.{Naming};
ghost use Rattle.dsa_questions.specs.declared.verdicts.Outlook.TheVariants.{NotSoFar};
ghost use Rattle.dsa_exploration.specs.Exploration.{search_text_in};
ghost use Rattle.dsa_exploration.specs.Sampling.{walks_text_in};
ghost use Rattle.dsa_exploration.specs.declared.exploration.Form.TheVariants.{Json, Table};

/// What conditions say where each fact is so and nothing has come.
pub fn conditions_on_states()
    ensures facts { map (condition_says 1 worked_names (stated_so (λ fact. true) (λ watch. false)))
        (entry_is (codes "x0") (codes "held") ∷ entry_is (codes "x0") (codes "accepted")
        ∷ object_of ((codes "device", string (codes "on")) ∷ []) ∷ object_of [] ∷ [])
        ≡ true ∷ false ∷ true ∷ false ∷ [] }
    ensures joined { map (condition_says 2 worked_names (stated_so (λ fact. true) (λ watch. false)))
        (all_of
        (entry_is (codes "x0") (codes "held") ∷ entry_is (codes "x0") (codes "accepted") ∷ [])
        ∷ all_of (entry_is (codes "x0") (codes "held") ∷ [])
        ∷ any_of
        (entry_is (codes "x0") (codes "held") ∷ entry_is (codes "x0") (codes "accepted") ∷ [])
        ∷ any_of (entry_is (codes "x0") (codes "accepted") ∷ [])
        ∷ negated (entry_is (codes "x0") (codes "held"))
        ∷ negated (entry_is (codes "x0") (codes "accepted")) ∷ [])
        ≡ false ∷ true ∷ true ∷ false ∷ false ∷ true ∷ [] }
    ensures too_deep { condition_says 0 worked_names (stated_so (λ fact. true) (λ watch. true))
        (entry_is (codes "x0") (codes "held"))
        ≡ false }
{}

/// What may be named, and what is read of it.
#[tactic(auto, unfolding(dsa_questions::specs::Worked::questions_on_literals))]
pub fn names_of_states()
    ensures counted { (memory : Global) → nameable uneven_caps (polling_script memory)
        (codes "a" ∷ []) (codes "b" ∷ [])
        ≡ record {
          labels = codes "a" ∷ [];
          acts = codes "b" ∷ [];
          queues = 3;
          clients = 0;
          administrators = 1;
        } }
    ensures labels { (naming : Naming)
        → map string_bytes naming.parties.now.labels.items ≡ codes "a" ∷ []
        → (as_names naming).labels ≡ codes "a" ∷ [] }
    ensures acts { (naming : Naming)
        → map string_bytes naming.parties.now.acts.items ≡ codes "a" ∷ []
        → (as_names naming).acts ≡ codes "a" ∷ [] }
    ensures numbers { map (formula_onto 1 (record worked_names { queues = 3 }) no_formula)
        (object_of ((codes "queue", whole 2) ∷ (codes "phase", string (codes "off")) ∷ [])
        ∷ object_of ((codes "queue", whole 0) ∷ (codes "occupancy", whole 65535) ∷ [])
        ∷ object_of ((codes "client", whole 2) ∷ []) ∷ [])
        ≡ Some (so_far (Is (fact.Queue 2 Off) ∷ []) [])
        ∷ Some (so_far (Is (fact.Filled 0 65535) ∷ []) []) ∷ None ∷ [] }
    ensures acts_of_rows { rows_wanted Never worked_names
        (command_is (codes "poll") (codes "finished"))
        ≡ Some (Act 1 replied.Finished ∷ []) }
    ensures nested { most_nested ≡ 128 }
    ensures keys { map (has_keys 2) (object_of [] ∷ entry_is (codes "x0") (codes "held") ∷ [])
        ≡ false ∷ true ∷ [] }
    ensures name { map is_name ([] ∷ codes "a" ∷ []) ≡ false ∷ true ∷ [] }
{}

/// A condition is about a finding of its number only where the answer is that which it asks for.
pub fn findings_of_other_answers()
    ensures entry { is_about_entry (Entry 1 became.Retry)
        (finding.Answer (ask.Submission 1) (reply.Submit (Accepted (label_ticket 1))))
        ≡ false }
    ensures act { is_about_entry (Act 1 replied.Active)
        (finding.Answer (ask.Act 1) (reply.Poll Finished))
        ≡ false }
{}

/// The texts of random walks, and the objects of a search, with an entry, an act and a question.
#[tactic(auto, unfolding(dsa_questions::specs::Worked::questions_on_literals, dsa_tables::specs::Naming::rows_of_act, json::specs::Print::print_from, json::specs::Print::escape_byte))]
pub fn texts_of_walks()
    ensures table { (memory : Global) → walks_text_in Table (codes "x" ∷ []) (codes "y" ∷ [])
        (record { kind = Never; name = codes "a"; outlook = NotSoFar } ∷ [])
        (record { walks = 5; explored = explored_so memory false })
        ≡ codes "x: completed 01 [3]\ny: active [2]; waits for x [2]\n"
        ++ codes "never a: kept so far\n5 walks, 134 steps, depth 8, sampled\n" }
    ensures objects { (memory : Global) → walks_text_in Json (codes "x" ∷ []) (codes "y" ∷ [])
        (record { kind = Never; name = codes "a"; outlook = NotSoFar } ∷ [])
        (record { walks = 5; explored = explored_so memory false })
        ≡ codes "{\"entry\":\"x\",\"what\":\"completed 01\",\"steps\":3}\n"
        ++ codes "{\"command\":\"y\",\"what\":\"active\",\"steps\":2}\n"
        ++ codes "{\"command\":\"y\",\"what\":\"waits for x\",\"steps\":2}\n"
        ++ codes "{\"question\":\"a\",\"kind\":\"never\",\"verdict\":\"kept so far\"}\n"
        ++ codes "{\"walks\":5,\"steps\":134,\"depth\":8,\"complete\":false}\n" }
    ensures search { (memory : Global) → search_text_in Json (codes "x" ∷ []) (codes "y" ∷ []) []
        (explored_so memory false)
        ≡ codes "{\"entry\":\"x\",\"what\":\"completed 01\",\"steps\":3}\n"
        ++ codes "{\"command\":\"y\",\"what\":\"active\",\"steps\":2}\n"
        ++ codes "{\"command\":\"y\",\"what\":\"waits for x\",\"steps\":2}\n"
        ++ codes "{\"states\":34,\"steps\":134,\"depth\":8,\"complete\":false}\n" }
{}
