//! Worked rows: what documents are searched after, and which are not searched, each on a function
//! with nothing to do.

ghost use Rattle.std.specs.Prelude.{◌≡◌, [], ◌∷◌, List, ℕ, codes, map, true, false, Some, None};
ghost use Rattle.std.specs.declared.alloc.Global.{Global};
ghost use Rattle.dsa_desc.specs.declared.Outcome.TheVariants.{PageFault, Success};
ghost use Rattle.dsa_regs.specs.declared.Command.TheVariants.{EnableDevice, EnableWq};
ghost use Rattle.dsa_book.specs.declared.event.Event.TheVariants as event;
ghost use Rattle.dsa_scenario.specs.declared.actions.Action.TheVariants.{Ask, Finish, Refuse};
ghost use Rattle.dsa_scenario.specs.declared.faults.ScenarioFault.TheVariants.{BadParties, BadParty, BadQuestion, BadSetup, Broken, Incomplete, NoParties};
ghost use Rattle.dsa_scenario.specs.Worked.{actions_of_a_run, document_text, group_of_a_run, no_command, queue_of_a_run, smallest_caps_text, stepless_text, submission_of_a_run};
ghost use Rattle.dsa_explore.specs.declared.search.Bounds.{Bounds};
ghost use Rattle.dsa_exploration.specs.declared.exploration.Form.{Form};
ghost use Rattle.dsa_exploration.specs.{Exploration.{IsExplorationOf, fault_of_search}, Plan.{setup_event, setup_events}, Worked.{text_with_parties}};

/// The events of set-ups. A word that is no command makes none, and a `finish` calls an entry of
/// cell 0, which is not there.
pub fn of_set_ups()
    ensures each { map setup_event (Ask event.Poll ∷ Finish 1 7 PageFault ∷ Refuse no_command ∷ [])
        ≡ Some event.Poll
        ∷ Some (event.Finish 1 (record { cell = record { 0 = 0 }; name = 7 }) PageFault)
        ∷ None
        ∷ [] }
    ensures none { setup_events [] ≡ [] }
    ensures refused { setup_events (Refuse no_command ∷ Refuse no_command ∷ []) ≡ [] }
    ensures run { setup_events actions_of_a_run
        ≡ event.WriteQueue 0 queue_of_a_run
        ∷ event.WriteGroup 0 group_of_a_run
        ∷ event.Issue EnableDevice
        ∷ event.Issue (EnableWq 0)
        ∷ submission_of_a_run
        ∷ event.Dispatch 0
        ∷ event.Finish 0 (record { cell = record { 0 = 0 }; name = 0 }) Success
        ∷ event.Poll
        ∷ [] }
{}

/// What is told after a search: a broken question comes before a bound that was met.
pub fn of_searches()
    ensures complete { map (λ broken. fault_of_search broken true) (None ∷ Some 3 ∷ [])
        ≡ None ∷ Some (Broken 3) ∷ [] }
    ensures bounded { map (λ broken. fault_of_search broken false) (None ∷ Some 3 ∷ [])
        ≡ Some Incomplete ∷ Some (Broken 3) ∷ [] }
{}

/// Documents that are not searched. A bad step comes before parties that are missing.
#[tactic(auto, unfolding(serde_json::proofs::OnLiterals::serde_json_on_literals))]
pub fn of_faults()
    ensures no_parties { (form : Form) (bounds : Bounds)
        → IsExplorationOf form bounds (stepless_text (codes "9")) (Some NoParties) [] }
    ensures no_text { (form : Form) (bounds : Bounds) → (text : List ℕ)
        → IsExplorationOf form bounds (stepless_text (codes "9")) (Some NoParties) text
        → text ≡ [] }
    ensures other { (form : Form) (bounds : Bounds) → (text : List ℕ)
        → IsExplorationOf form bounds (stepless_text (codes "9")) (Some BadParties) text
        → ⊥ }
    ensures no_setup { (form : Form) (bounds : Bounds) → (text : List ℕ)
        → IsExplorationOf form bounds (stepless_text (codes "9")) (Some BadSetup) text
        → ⊥ }
    ensures step { (form : Form) (bounds : Bounds) → (text : List ℕ)
        → IsExplorationOf form bounds (document_text smallest_caps_text (codes "9") (codes "1"))
        (Some NoParties) text
        → ⊥ }
    ensures party { (form : Form) (bounds : Bounds)
        → IsExplorationOf form bounds (text_with_parties (codes "{\"admins\":[{\"steps\":[]},1]}"))
        (Some (BadParty 1)) [] }
    ensures question { (form : Form) (bounds : Bounds) (memory : Global)
        → IsExplorationOf form bounds (text_with_parties (codes "{},\"never\":[5]"))
        (Some (BadQuestion 0)) [] }
    ensures no_object { (form : Form) (bounds : Bounds)
        → IsExplorationOf form bounds (text_with_parties (codes "[]")) (Some BadParties) [] }
{}
