//! Plans of documents, the texts of their searches, and why there are none.

ghost use Rattle.std.specs.Prelude.{◌≡◌, ℕ, [], List, codes, length, map, option_map, true, false, Err, None, Ok, Some};
ghost use Rattle.serde_json.specs.{Data.{Data}, Find.{get}};
ghost use Rattle.dsa_regs.specs.declared.Caps.{Caps};
ghost use Rattle.dsa_book.specs.declared.event.Event.{Event};
ghost use Rattle.dsa_scenario.specs.declared.actions.Action.{Action};
ghost use Rattle.dsa_scenario.specs.declared.faults.ScenarioFault.TheVariants.{BadParties, BadParty, BadQuestion};
ghost use Rattle.dsa_scenario.specs.declared.faults.ScenarioFault.TheVariants.{BadSetup, Broken, Incomplete};
ghost use Rattle.dsa_scenario.specs.declared.faults.ScenarioFault.TheVariants.{NoParties, NoSuchRow, TooManyParties};
ghost use Rattle.dsa_scenario.specs.{Actions.{action_of}, Document.{head_of, list_of_items, IsJson, IsOpenable}};
ghost use Rattle.dsa_parties.specs.declared.script.Script.{Script};
ghost use Rattle.dsa_parties.specs.declared.watches.Watch.{Watch};
ghost use Rattle.dsa_plans.specs.PartyLabels.{act_labels, entry_labels};
ghost use Rattle.dsa_recordings.specs.Recordings.{recording_text};
ghost use Rattle.dsa_explore.specs.Walked.{CannotBegin, IsExplored};
ghost use Rattle.dsa_explore.specs.declared.found.Explored.{Explored};
ghost use Rattle.dsa_explore.specs.declared.search.Bounds.{Bounds};
ghost use Rattle.dsa_tables.specs.Naming.{table_rows, HasNoRowNamed, IsFirstNamed};
ghost use Rattle.dsa_questions.specs.{Answers.{AreAnswers}, Reading.{questions_said}};
ghost use Rattle.dsa_questions.specs.{Stating.{nameable}, Verdicts.{first_broken}};
ghost use Rattle.dsa_exploration.specs.Exploration.{fault_of_search, search_text_in, HasBadParties, HasBadQuestion};
ghost use Rattle.dsa_exploration.specs.Exploration.{HasBadSetup, IsExploration, IsExplorationOf, IsFoundWithin};
ghost use Rattle.dsa_exploration.specs.Plan.{setup_events, IsPlan, IsRunnable};
ghost use Rattle.dsa_exploration.specs.Showing.{HasNoSearch, HasNoSuchRow, IsRowShowingOf};
ghost use Rattle.dsa_exploration.specs.Showing.{IsSearchOf, IsShown};
ghost use Rattle.dsa_exploration.specs.declared.exploration.Form.{Form};

/// A document that can be run says of what device, and its steps ask for actions.
pub fn documents_that_can_be_run()
    ensures json { (bytes : List ℕ) (document : Data) (caps : Caps) (actions : List Action)
        (is : IsRunnable bytes document caps actions)
        → IsJson bytes document }
    ensures head { (bytes : List ℕ) (document : Data) (caps : Caps) (actions : List Action)
        (is : IsRunnable bytes document caps actions)
        → head_of document ≡ Some (caps, is.capacity, is.items) }
    ensures asked { (bytes : List ℕ) (document : Data) (caps : Caps) (actions : List Action)
        (is : IsRunnable bytes document caps actions)
        → map action_of (list_of_items is.items) ≡ map Some actions }
    ensures opens { (bytes : List ℕ) (document : Data) (caps : Caps) (actions : List Action)
        (is : IsRunnable bytes document caps actions)
        → IsOpenable caps is.capacity }
{}

/// A plan has the set-up and the names of its document.
pub fn plans_of_set_ups()
    ensures runnable { (bytes : List ℕ) (caps : Caps) (script : Script) (setup : List Event)
        (labels acts : List (List ℕ)) (watches : List Watch)
        (plan : IsPlan bytes caps script setup labels acts watches)
        → IsRunnable bytes plan.document caps plan.actions }
    ensures events { (bytes : List ℕ) (caps : Caps) (script : Script) (setup : List Event)
        (labels acts : List (List ℕ)) (watches : List Watch)
        (plan : IsPlan bytes caps script setup labels acts watches)
        → setup ≡ setup_events plan.actions }
    ensures watched { (bytes : List ℕ) (caps : Caps) (script : Script) (setup : List Event)
        (labels acts : List (List ℕ)) (watches : List Watch)
        (plan : IsPlan bytes caps script setup labels acts watches)
        → script.watches.items ≡ watches }
    ensures entries_called { (bytes : List ℕ) (caps : Caps) (script : Script)
        (setup : List Event) (labels acts : List (List ℕ)) (watches : List Watch)
        (plan : IsPlan bytes caps script setup labels acts watches)
        → option_map entry_labels (get (codes "parties") plan.document) ≡ Some labels }
    ensures acts_called { (bytes : List ℕ) (caps : Caps) (script : Script) (setup : List Event)
        (labels acts : List (List ℕ)) (watches : List Watch)
        (plan : IsPlan bytes caps script setup labels acts watches)
        → option_map act_labels (get (codes "parties") plan.document) ≡ Some acts }
{}

/// Why no search is made of a document that can be run.
pub fn documents_without_a_search()
    ensures parties { (bytes : List ℕ) (bad : HasBadParties bytes BadParties)
        → IsRunnable bytes bad.document bad.caps bad.actions }
    ensures question { (bytes : List ℕ) (bad : HasBadQuestion bytes (BadQuestion 2))
        → IsPlan bytes bad.caps bad.script bad.setup bad.labels bad.acts [] }
    ensures said { (bytes : List ℕ) (bad : HasBadQuestion bytes (BadQuestion 2))
        → questions_said (nameable bad.caps bad.script bad.labels bad.acts) bad.plan.document ≡
        Err (BadQuestion 2) }
    ensures setup { (bytes : List ℕ) (bad : HasBadSetup bytes)
        → IsPlan bytes bad.caps bad.script bad.setup bad.labels bad.acts bad.questions.watches }
    ensures asked { (bytes : List ℕ) (bad : HasBadSetup bytes)
        → questions_said (nameable bad.caps bad.script bad.labels bad.acts) bad.plan.document ≡ Ok
        bad.questions }
    ensures stopped { (bytes : List ℕ) (bad : HasBadSetup bytes) → CannotBegin bad.caps bad.setup }
{}

/// The text of a search is that of a plan, of what was found within its bounds, and of answers.
pub fn texts_of_explorations()
    ensures plan { (form : Form) (bounds : Bounds) (bytes text : List ℕ)
        (is : IsExploration form bounds bytes None text)
        → IsPlan bytes is.caps is.script is.setup is.labels is.acts is.questions.watches }
    ensures asked { (form : Form) (bounds : Bounds) (bytes text : List ℕ)
        (is : IsExploration form bounds bytes None text)
        → questions_said (nameable is.caps is.script is.labels is.acts) is.plan.document ≡ Ok
        is.questions }
    ensures search { (form : Form) (bounds : Bounds) (bytes text : List ℕ)
        (is : IsExploration form bounds bytes None text)
        → IsFoundWithin bounds is.caps is.script is.setup is.explored }
    ensures answered { (form : Form) (bounds : Bounds) (bytes text : List ℕ)
        (is : IsExploration form bounds bytes None text)
        → AreAnswers is.caps is.script is.setup is.explored is.questions.asked is.answers }
    ensures told { (form : Form) (bounds : Bounds) (bytes text : List ℕ)
        (is : IsExploration form bounds bytes None text)
        → None ≡ fault_of_search (first_broken is.answers) is.explored.is_complete }
    ensures table { (form : Form) (bounds : Bounds) (bytes text : List ℕ)
        (is : IsExploration form bounds bytes None text)
        → text ≡ search_text_in form is.labels is.acts is.answers is.explored }
    ensures found { (bounds : Bounds) (caps : Caps) (script : Script) (setup : List Event)
        (explored : Explored)
        → IsFoundWithin bounds caps script setup explored → IsExplored caps script setup explored }
{}

/// Where no search is made there is no text.
pub fn no_text_without_a_search()
    ensures setup { (form : Form) (bounds : Bounds) (bytes text : List ℕ)
        → IsExplorationOf form bounds bytes (Some BadSetup) text → (text ≡ []) × HasBadSetup bytes }
    ensures no_parties { (form : Form) (bounds : Bounds) (bytes text : List ℕ)
        → IsExplorationOf form bounds bytes (Some NoParties) text
        → (text ≡ []) × HasBadParties bytes NoParties }
    ensures parties { (form : Form) (bounds : Bounds) (bytes text : List ℕ)
        → IsExplorationOf form bounds bytes (Some BadParties) text
        → (text ≡ []) × HasBadParties bytes BadParties }
    ensures party { (form : Form) (bounds : Bounds) (bytes text : List ℕ)
        → IsExplorationOf form bounds bytes (Some (BadParty 2)) text
        → (text ≡ []) × HasBadParties bytes (BadParty 2) }
    ensures many { (form : Form) (bounds : Bounds) (bytes text : List ℕ)
        → IsExplorationOf form bounds bytes (Some TooManyParties) text
        → (text ≡ []) × HasBadParties bytes TooManyParties }
    ensures question { (form : Form) (bounds : Bounds) (bytes text : List ℕ)
        → IsExplorationOf form bounds bytes (Some (BadQuestion 2)) text
        → (text ≡ []) × HasBadQuestion bytes (BadQuestion 2) }
{}

/// What is shown is the first row of a search that is called so; else no row is.
pub fn rows_of_a_search()
    ensures search { (bounds : Bounds) (name bytes text : List ℕ)
        (shown : IsShown bounds name bytes text)
        → IsSearchOf bounds bytes shown.caps shown.script shown.setup shown.labels shown.acts
        shown.explored }
    ensures named { (bounds : Bounds) (name bytes text : List ℕ)
        (shown : IsShown bounds name bytes text)
        → IsFirstNamed shown.labels shown.acts (table_rows shown.labels shown.acts
        shown.explored.rows.items) name shown.row }
    ensures document { (bounds : Bounds) (name bytes text : List ℕ)
        (shown : IsShown bounds name bytes text)
        → text ≡ recording_text shown.caps (length shown.steps) shown.steps }
    ensures plan { (bounds : Bounds) (bytes : List ℕ) (caps : Caps) (script : Script)
        (setup : List Event) (labels acts : List (List ℕ)) (explored : Explored)
        (is : IsSearchOf bounds bytes caps script setup labels acts explored)
        → IsPlan bytes caps script setup labels acts [] }
    ensures within { (bounds : Bounds) (bytes : List ℕ) (caps : Caps) (script : Script)
        (setup : List Event) (labels acts : List (List ℕ)) (explored : Explored)
        (is : IsSearchOf bounds bytes caps script setup labels acts explored)
        → IsFoundWithin bounds caps script setup explored }
    ensures searched { (bounds : Bounds) (name bytes : List ℕ)
        (has : HasNoSuchRow bounds name bytes true)
        → IsSearchOf bounds bytes has.caps has.script has.setup has.labels has.acts has.explored }
    ensures complete { (bounds : Bounds) (name bytes : List ℕ)
        (has : HasNoSuchRow bounds name bytes true)
        → has.explored.is_complete ≡ true }
    ensures none { (bounds : Bounds) (name bytes : List ℕ)
        (has : HasNoSuchRow bounds name bytes true)
        → HasNoRowNamed has.labels has.acts (table_rows has.labels has.acts has.explored.rows.items)
        name }
    ensures not_begun { (name bytes : List ℕ) (has : HasNoSearch name bytes)
        → IsPlan bytes has.caps has.script has.setup has.labels has.acts [] }
    ensures stopped { (name bytes : List ℕ) (has : HasNoSearch name bytes)
        → CannotBegin has.caps has.setup }
{}

/// Where no row is shown there is no text, and it is told why.
pub fn rows_that_are_not_shown()
    ensures shown { (bounds : Bounds) (name bytes text : List ℕ) → IsShown bounds name bytes text
        → IsRowShowingOf bounds name bytes None text }
    ensures no_row { (bounds : Bounds) (name bytes : List ℕ) → HasNoSuchRow bounds name bytes true
        → IsRowShowingOf bounds name bytes (Some NoSuchRow) [] }
    ensures bounded { (bounds : Bounds) (name bytes : List ℕ)
        → HasNoSuchRow bounds name bytes false → IsRowShowingOf bounds name bytes (Some Incomplete)
        [] }
    ensures setup { (bounds : Bounds) (name bytes : List ℕ) → HasNoSearch name bytes
        → IsRowShowingOf bounds name bytes (Some BadSetup) [] }
    ensures no_row_told { (bounds : Bounds) (name bytes text : List ℕ)
        → IsRowShowingOf bounds name bytes (Some NoSuchRow) text
        → (text ≡ []) × HasNoSuchRow bounds name bytes true }
    ensures bounded_told { (bounds : Bounds) (name bytes text : List ℕ)
        → IsRowShowingOf bounds name bytes (Some Incomplete) text
        → (text ≡ []) × HasNoSuchRow bounds name bytes false }
    ensures setup_told { (bounds : Bounds) (name bytes text : List ℕ)
        → IsRowShowingOf bounds name bytes (Some BadSetup) text
        → (text ≡ []) × HasNoSearch name bytes }
    ensures no_question { (bounds : Bounds) (name bytes text : List ℕ)
        → ¬ IsRowShowingOf bounds name bytes (Some (BadQuestion 2)) text }
    ensures not_broken { (bounds : Bounds) (name bytes text : List ℕ)
        → ¬ IsRowShowingOf bounds name bytes (Some (Broken 2)) text }
{}
