//! Laws of what is said of questions, each on a function with nothing to do.

ghost use Rattle.std.specs.Prelude.{◌≡◌, ◌≤◌, ℕ, Bool, List, [], Option, Some, is_some, true};
ghost use Rattle.serde_json.specs.Data.{Data};
ghost use Rattle.dsa_book.specs.declared.event.Event.{Event};
ghost use Rattle.dsa_regs.specs.declared.Caps.{Caps};
ghost use Rattle.dsa_parties.specs.declared.script.Script.{Script};
ghost use Rattle.dsa_parties.specs.Offers.{parties_of};
ghost use Rattle.dsa_explore.specs.declared.found.Explored.{Explored};
ghost use Rattle.dsa_explore.specs.Asks.{ask_of};
ghost use Rattle.dsa_explore.specs.Walked.{IsExplored};
ghost use Rattle.dsa_questions.specs.declared.question.Condition.{Condition};
ghost use Rattle.dsa_questions.specs.declared.verdicts.Outlook.TheVariants.{InNoOrder, With};
ghost use Rattle.dsa_questions.specs.Orders.{ComesWith, NeverComes};
ghost use Rattle.dsa_parties.specs.declared.watches.Watch.{Watch};
ghost use Rattle.dsa_formulas.specs.declared.formula.{Fact.{Fact}, Term.{Term}};
ghost use Rattle.dsa_formulas.specs.Formulas.{holds_there};
ghost use Rattle.dsa_questions.specs.Meaning.{KnowsWatches, condition_says, stated_so};
ghost use Rattle.dsa_questions.specs.Stating.{FormulaSoFar, Nameable, formula_onto};
ghost use Rattle.dsa_questions.specs.{Answers.{CanHold, IsFirstMet}, Reading.{states}};
ghost use Rattle.dsa_questions.specs.declared.question.Kind.{Kind};
ghost use Rattle.dsa_questions.specs.Judging.{is_formed, is_question};
ghost use Rattle.dsa_questions.specs.Reading.{Inquiry, question_onto};
ghost use Rattle.dsa_questions.specs.Verdicts.{outlook_by, outlook_of};

/// What is said to come in no order comes in none: a `never` that is kept is kept in every order,
/// and a `sometimes` that is broken is broken in every order.
pub fn in_no_order_is_in_none()
    ensures { (caps : Caps) (script : Script) (setup : List Event) (explored : Explored)
        (conditions : List Condition) (search : IsExplored caps script setup explored)
        → outlook_of conditions explored ≡ InNoOrder
        → NeverComes (parties_of script) (ask_of script) search.first conditions }
{}

/// What is said to come with so many steps may come with as many, also where the search met its
/// bounds. Where it is complete, it never comes with fewer.
pub fn steps_are_the_fewest()
    ensures some { (caps : Caps) (script : Script) (setup : List Event) (explored : Explored)
        (conditions : List Condition) (steps : ℕ)
        (search : IsExplored caps script setup explored)
        → outlook_of conditions explored ≡ With steps
        → ComesWith (parties_of script) (ask_of script) search.first conditions steps }
    ensures fewest { (caps : Caps) (script : Script) (setup : List Event) (explored : Explored)
        (conditions : List Condition) (steps others : ℕ)
        (search : IsExplored caps script setup explored)
        → explored.is_complete ≡ true
        → outlook_of conditions explored ≡ With steps
        → ComesWith (parties_of script) (ask_of script) search.first conditions others
        → steps ≤ others }
{}

/// So it is with states: one that is said to come in no order comes in none, and one that is said
/// to come with so many steps can be reached with as many. Where the search is complete, none that
/// is asked for can be reached with fewer.
pub fn states_are_answered_as_rows_are()
    ensures none { (caps : Caps) (script : Script) (setup : List Event) (explored : Explored)
        (terms : List Term) (met : Option ℕ)
        (first_met : IsFirstMet caps script setup explored terms met) (steps : ℕ)
        → outlook_by explored (states terms) met ≡ InNoOrder
        → CanHold script first_met.first terms steps
        → ⊥ }
    ensures some { (caps : Caps) (script : Script) (setup : List Event) (explored : Explored)
        (terms : List Term) (met : Option ℕ)
        (first_met : IsFirstMet caps script setup explored terms met) (steps : ℕ)
        → outlook_by explored (states terms) met ≡ With steps
        → CanHold script first_met.first terms steps }
    ensures fewest { (caps : Caps) (script : Script) (setup : List Event) (explored : Explored)
        (terms : List Term) (met : Option ℕ)
        (first_met : IsFirstMet caps script setup explored terms met) (steps others : ℕ)
        → explored.is_complete ≡ true
        → outlook_by explored (states terms) met ≡ With steps
        → CanHold script first_met.first terms others
        → steps ≤ others }
{}

/// A formula that is read of a condition holds exactly where the condition says so, as it stands in
/// the document, if the facts know what has come.
pub fn formulas_say_what_conditions_say()
    ensures { (depth : ℕ) (names : Nameable) (d : Data) (watches : List Watch)
        (formula : FormulaSoFar) (facts : Fact → Bool) (came : Watch → Bool)
        → formula_onto depth names (record { terms = []; watches = watches }) d ≡ Some formula
        → KnowsWatches facts came formula.watches
        → holds_there facts formula.terms
        ≡ condition_says depth names (stated_so facts came) d }
{}

/// Whether a question can be read does not depend on those before it. What can be read has the keys
/// of a question.
pub fn questions_are_read_one_by_one()
    ensures alone { (kind : Kind) (names : Nameable) (done : Inquiry) (d : Data)
        → is_some (question_onto kind names done d) ≡ is_question kind names d }
    ensures formed { (kind : Kind) (names : Nameable) (d : Data)
        → is_question kind names d ≡ true
        → is_formed d ≡ true }
{}
