//! Conditions, rows that are called, plans, and the texts of searches.

ghost use Rattle.std.specs.Prelude.{◌≡◌, ℕ, ◌≤◌, ◌∷◌, ◌++◌, [], List, Err, Ok, Some, codes, map, replicate, true, false};
ghost use Rattle.std.specs.declared.{alloc.Global.{Global}, vec.Vec.{Vec}};
ghost use Rattle.dsa_regs.specs.declared.Caps.{Caps};
ghost use Rattle.dsa_book.specs.declared.answer.Cause.TheVariants.{AtLimit};
ghost use Rattle.dsa_book.specs.declared.answer.IssueAnswer.TheVariants as issue;
ghost use Rattle.dsa_book.specs.declared.answer.Reply.TheVariants as reply;
ghost use Rattle.dsa_book.specs.declared.answer.SubmitAnswer.TheVariants as submit;
ghost use Rattle.dsa_book.specs.declared.event.Event.{Event};
ghost use Rattle.dsa_book.specs.declared.fate.Fate.TheVariants as fate;
ghost use Rattle.dsa_scenario.specs.Document.{IsJson};
ghost use Rattle.dsa_scenario.specs.declared.faults.ScenarioFault.{ScenarioFault};
ghost use Rattle.dsa_scenario.specs.declared.faults.ScenarioFault.TheVariants.{BadQuestion, BadSetup, Broken};
ghost use Rattle.dsa_scenario.specs.declared.faults.ScenarioFault.TheVariants.{Incomplete, NoSuchRow};
ghost use Rattle.dsa_parties.specs.declared.script.Script.{Script};
ghost use Rattle.dsa_parties.specs.declared.watches.Became.TheVariants as became;
ghost use Rattle.dsa_parties.specs.declared.watches.Replied.TheVariants as replied;
ghost use Rattle.dsa_keys.specs.Parties.{Parties, World};
ghost use Rattle.dsa_parties.specs.declared.watches.Watch.{Watch};
ghost use Rattle.dsa_plans.specs.Plans.{parties_said, tables_of};
ghost use Rattle.dsa_explore.specs.Bounds.{IsBounded};
ghost use Rattle.dsa_explore.specs.Explored.{AskOf};
ghost use Rattle.dsa_explore.specs.Schedules.{IsSchedule};
ghost use Rattle.dsa_explore.specs.Walked.{CannotBegin};
ghost use Rattle.dsa_explore.specs.declared.found.Ending.{Ending};
ghost use Rattle.dsa_explore.specs.declared.found.Explored.{Explored};
ghost use Rattle.dsa_explore.specs.declared.found.Ask.TheVariants as ask;
ghost use Rattle.dsa_explore.specs.declared.found.Finding.TheVariants as finding;
ghost use Rattle.dsa_explore.specs.declared.found.Found.{Found};
ghost use Rattle.dsa_explore.specs.declared.search.Bounds.{Bounds};
ghost use Rattle.dsa_tables.specs.Naming.{IsFirstNamed, row_name};
ghost use Rattle.dsa_tables.specs.Table.{body_text};
ghost use Rattle.dsa_questions.specs.Asked.{is_about_entry, is_row_asked};
ghost use Rattle.dsa_questions.specs.Orders.{ComesWith, NeverComes};
ghost use Rattle.dsa_questions.specs.Worked.{explored_so};
ghost use Rattle.dsa_questions.specs.declared.question.Condition.{Condition};
ghost use Rattle.dsa_questions.specs.declared.question.Condition.TheVariants.{Entry, Act, Wait, Removal};
ghost use Rattle.dsa_exploration.specs.Exploration.{HasBadParties, IsExplorationOf, IsFoundWithin, search_text_in};
ghost use Rattle.dsa_exploration.specs.Plan.{IsPlan};
ghost use Rattle.dsa_exploration.specs.Showing.{IsAnswerDocument, IsAnswerShowingOf, IsAskedInVain, IsRowShowingOf};
ghost use Rattle.dsa_exploration.specs.Showing.{IsSearchFor, IsShowingOf, IsShown};
ghost use Rattle.dsa_questions.specs.{Reading.{Inquiry, questions_said}, Shown.{IsAnswerShown}, Stating.{nameable}};
ghost use Rattle.dsa_exploration.specs.declared.exploration.Form.{Form, TheVariants.{Json, Table}};

/// A condition is about findings of its own numbers, and of no higher ones.
pub fn findings_of_higher_numbers()
    ensures entry { is_about_entry (Entry 1 became.Retry)
        (finding.Answer (ask.Submission 2) (reply.Submit (submit.Retry AtLimit))) ≡ false }
    ensures ending { is_about_entry (Entry 1 became.Aborted) (finding.End 2 (fate.Aborted 9))
        ≡ false }
    ensures act { is_about_entry (Act 1 replied.Active)
        (finding.Answer (ask.Act 2) (reply.Issue issue.Active)) ≡ false }
    ensures wait { map (is_about_entry (Wait 1 2))
        (finding.Wait 2 2 ∷ finding.Wait 0 2 ∷ finding.Wait 1 3 ∷ [])
        ≡ replicate 3 false }
    ensures removal { map (is_about_entry (Removal 1 2))
        (finding.Removal 2 2 ∷ finding.Removal 0 2 ∷ finding.Removal 1 3 ∷ [])
        ≡ replicate 3 false }
{}

/// The text of a search without entries, acts and questions.
#[tactic(auto, unfolding(dsa_questions::specs::Worked::questions_on_literals, dsa_tables::specs::Naming::rows_of_act))]
pub fn texts_of_searches()
    ensures table { (memory : Global) → search_text_in Table [] [] [] (explored_so memory false)
        ≡ codes "34 states, 134 steps, depth 8, bounded\n" }
    ensures objects { (memory : Global) → search_text_in Json [] [] [] (explored_so memory false)
        ≡ codes "{\"states\":34,\"steps\":134,\"depth\":8,\"complete\":false}\n" }
{}

/// The text of a search with an entry, an act and rows, and the ends of its runs behind them.
#[tactic(auto, unfolding(dsa_questions::specs::Worked::questions_on_literals, dsa_tables::specs::Naming::rows_of_act))]
pub fn texts_with_names()
    ensures table { (memory : Global) → search_text_in Table (codes "x" ∷ []) (codes "y" ∷ []) []
        (explored_so memory false)
        ≡ codes "x: completed 01 [3]\ny: active [2]; waits for x [2]\n"
        ++ codes "34 states, 134 steps, depth 8, bounded\n" }
    ensures ends { (memory : Global) (endings : Vec Ending Global) → endings.items ≡ []
        → body_text (codes "x" ∷ []) (codes "y" ∷ [])
        (record (explored_so memory true) { ends = Some endings })
        ≡ codes "x: completed 01 [3]\ny: active [2]; waits for x [2]\nends: none\n" }
{}

/// A row has the names of entries and of acts where it speaks of them.
#[tactic(auto, unfolding(dsa_tables::specs::Naming::row_name))]
pub fn names_of_rows()
    ensures each { map (row_name (codes "x" ∷ []) (codes "y" ∷ []))
        (finding.Answer (ask.Submission 0) (reply.Submit (submit.Retry AtLimit))
        ∷ finding.Answer (ask.Act 0) (reply.Issue issue.Active)
        ∷ finding.Wait 0 0
        ∷ [])
        ≡ codes "x: retry at-limit" ∷ codes "y: active" ∷ codes "y: waits for x" ∷ [] }
{}

/// Where nothing is asked for, nothing of it comes.
pub fn rows_that_never_come()
    ensures nothing_asked { (parties : Parties ℕ ℕ) (asks : AskOf ℕ ℕ) (first : World ℕ)
        → NeverComes parties asks first [] }
    ensures asked { (parties : Parties ℕ ℕ) (asks : AskOf ℕ ℕ) (first : World ℕ)
        (conditions : List Condition) (comes : ComesWith parties asks first conditions 3)
        → is_row_asked conditions comes.finding ≡ true }
{}

/// A row that is called so is one of the table; where there is none, nothing is written.
pub fn rows_that_are_called()
    ensures no_row { (row : Found) → ¬ IsFirstNamed [] [] [] (row_name [] [] row.finding) row }
    ensures bounded { (bounds : Bounds) (name bytes : List ℕ)
        → ¬ IsShowingOf bounds name bytes (Some Incomplete) (codes "a") }
    ensures complete { (bounds : Bounds) (name bytes : List ℕ)
        → ¬ IsShowingOf bounds name bytes (Some NoSuchRow) (codes "a") }
{}

/// A search keeps to its bounds, and one that is not complete met one.
pub fn searches_within_bounds()
    ensures states { (bounds : Bounds) (caps : Caps) (script : Script) (setup : List Event)
        (explored : Explored) → IsFoundWithin bounds caps script setup explored
        → explored.states ≤ bounds.states }
    ensures bounded { (bounds : Bounds) (caps : Caps) (script : Script) (setup : List Event)
        (explored : Explored) → IsFoundWithin bounds caps script setup explored
        → explored.is_complete ≡ false → IsBounded bounds caps script setup explored }
{}

/// What is shown of a row, and why none is shown; with a fault of a question comes no text.
pub fn rows_that_are_shown()
    ensures schedule { (bounds : Bounds) (name bytes text : List ℕ)
        (shown : IsShown bounds name bytes text)
        → IsSchedule shown.caps shown.script shown.setup shown.row.steps shown.row.finding
        shown.steps }
    ensures no_such_row { (bounds : Bounds) (name bytes : List ℕ)
        (is : IsRowShowingOf bounds name bytes (Some NoSuchRow) [])
        → is.1.explored.is_complete ≡ true }
    ensures no_search { (bounds : Bounds) (name bytes : List ℕ)
        (is : IsRowShowingOf bounds name bytes (Some BadSetup) [])
        → CannotBegin is.1.caps is.1.setup }
    ensures bad_question { (form : Form) (bounds : Bounds) (bytes : List ℕ) (i : ℕ)
        → ¬ IsExplorationOf form bounds bytes (Some (BadQuestion i)) (codes "a") }
{}

/// What is shown of a question, and why nothing is. A text that begins with no kind calls a row,
/// and then no question is read; one without labels that begins with a kind calls a question.
pub fn answers_that_are_shown()
    ensures steps { (bounds : Bounds) (name bytes text : List ℕ)
        (shown : IsAnswerDocument bounds name bytes text)
        → IsAnswerShown shown.caps shown.script shown.setup shown.explored shown.question
        shown.steps }
    ensures no_such_answer { (bounds : Bounds) (name bytes : List ℕ)
        (is : IsAnswerShowingOf bounds name bytes (Some NoSuchRow) [])
        → is.1.explored.is_complete ≡ true }
    ensures bounded { (bounds : Bounds) (name bytes : List ℕ)
        (is : IsAnswerShowingOf bounds name bytes (Some Incomplete) [])
        → is.1.explored.is_complete ≡ false }
    ensures row { (bounds : Bounds) (bytes text : List ℕ)
        → IsShowingOf bounds (codes "x: accepted") bytes None text
        → IsShown bounds (codes "x: accepted") bytes text }
    ensures no_question_read { (bounds : Bounds) (bytes text : List ℕ)
        → ¬ IsShowingOf bounds (codes "x: accepted") bytes (Some (BadQuestion 0)) text }
    ensures no_row { (bounds : Bounds) (bytes text : List ℕ)
        (shown : IsShown bounds (codes "never 0") bytes text)
        → shown.labels ≡ []
        → shown.acts ≡ []
        → ⊥ }
    ensures not_broken { (bounds : Bounds) (name bytes text : List ℕ)
        → ¬ IsShowingOf bounds name bytes (Some (Broken 0)) text }
    ensures in_vain { (caps : Caps) (script : Script) (setup : List Event) (explored : Explored)
        (name : List ℕ)
        → ¬ IsAskedInVain caps script setup explored [] name }
    ensures asked { (bounds : Bounds) (bytes : List ℕ) (caps : Caps) (script : Script)
        (setup : List Event) (labels acts : List (List ℕ)) (questions : Inquiry)
        (explored : Explored)
        (search : IsSearchFor bounds bytes caps script setup labels acts questions explored)
        → questions_said (nameable caps script labels acts) search.plan.document ≡ Ok questions }
{}

/// A plan is that of the document, which is JSON; parties that cannot be read are those of as many
/// engines as the device has.
pub fn plans_of_documents()
    ensures json { (bytes : List ℕ) (caps : Caps) (script : Script) (events : List Event)
        (labels acts : List (List ℕ)) (watches : List Watch)
        (plan : IsPlan bytes caps script events labels acts watches)
        → IsJson bytes plan.document }
    ensures parties { (bytes : List ℕ) (caps : Caps) (script : Script) (events : List Event)
        (labels acts : List (List ℕ)) (watches : List Watch)
        (plan : IsPlan bytes caps script events labels acts watches)
        → parties_said caps.engines plan.document ≡ Ok (tables_of script) }
    ensures engines { (bytes : List ℕ) (fault : ScenarioFault) (bad : HasBadParties bytes fault)
        → parties_said bad.caps.engines bad.document ≡ Err fault }
{}
