//! Worked rows of questions that are called, and of steps that show what answers them, each on a
//! function with nothing to do.

ghost use Rattle.std.specs.Prelude.{◌≡◌, ◌∷◌, ℕ, List, [], codes, map, true, false};
ghost use Rattle.std.specs.declared.alloc.Global.{Global};
ghost use Rattle.dsa_regs.specs.declared.Caps.{Caps};
ghost use Rattle.dsa_book.specs.declared.event.{Event.{Event}, Step.{Step}};
ghost use Rattle.dsa_book.specs.declared.fate.Fate.TheVariants as fate;
ghost use Rattle.dsa_parties.specs.declared.script.Script.{Script};
ghost use Rattle.dsa_explore.specs.declared.found.Explored.{Explored};
ghost use Rattle.dsa_formulas.specs.declared.formula.Term.TheVariants.{Known};
ghost use Rattle.dsa_questions.specs.declared.question.Condition.{Condition};
ghost use Rattle.dsa_questions.specs.declared.question.Kind.TheVariants.{Always, Never, Sometimes};
ghost use Rattle.dsa_questions.specs.declared.verdicts.Outlook.TheVariants.{InNoOrder, NotSoFar, With};
ghost use Rattle.dsa_questions.specs.{Asked.{is_row_asked}, Reading.{Asked, rows, states}};
ghost use Rattle.dsa_questions.specs.Shown.{HasNoneAsked, HasNoneToShow, IsAnswerShown, IsFirstAsked};
ghost use Rattle.dsa_questions.specs.Shown.{IsRowShown, IsSoonest, IsStateShown, IsWantedShown};
ghost use Rattle.dsa_questions.specs.Shown.{begins_with_kind, begins_with_name, calls_question};
ghost use Rattle.dsa_questions.specs.Shown.{question_name};
ghost use Rattle.dsa_questions.specs.Worked.{aborted_at, asking, asking_states, few_rows};
ghost use Rattle.dsa_tables.specs.Worked.{end_found};

/// A question is called by its kind and its name.
#[tactic(auto, unfolding(crate::specs::Shown::question_name))]
pub fn names_of_questions()
    ensures each { map question_name
        (asking Never (codes "a move is lost") [] ∷ asking_states Always (codes "2") [] ∷ [])
        ≡ codes "never a move is lost" ∷ codes "always 2" ∷ [] }
{}

/// Where two are called so, it is the first one.
#[tactic(auto, unfolding(crate::specs::Shown::question_name))]
pub fn questions_that_are_called()
    ensures second { IsFirstAsked
        (asking Never (codes "a") [] ∷ asking Sometimes (codes "a") []
        ∷ asking_states Sometimes (codes "a") [] ∷ [])
        (codes "sometimes a") (asking Sometimes (codes "a") []) }
    ensures not_third { ¬ IsFirstAsked
        (asking Sometimes (codes "a") [] ∷ asking_states Sometimes (codes "a") [] ∷ [])
        (codes "sometimes a") (asking_states Sometimes (codes "a") []) }
    ensures not_this { ¬ IsFirstAsked (asking Never (codes "a") [] ∷ []) (codes "sometimes a")
        (asking Never (codes "a") []) }
    ensures none { HasNoneAsked (asking Never (codes "a") [] ∷ []) (codes "never b") }
    ensures one { ¬ HasNoneAsked (asking Never (codes "a") [] ∷ []) (codes "never a") }
{}

/// A text that begins with the word of a kind calls a question, unless it begins with a label and a
/// colon.
pub fn texts_that_call_questions()
    ensures kinds { map begins_with_kind
        (codes "never a" ∷ codes "sometimes 3" ∷ codes "always " ∷ codes "always: a"
        ∷ codes "nevera" ∷ codes "m0: never a" ∷ [])
        ≡ true ∷ true ∷ true ∷ false ∷ false ∷ false ∷ [] }
    ensures labels { map (begins_with_name (codes "n" ∷ codes "never x" ∷ []))
        (codes "n: a" ∷ codes "never x: a" ∷ codes "never x" ∷ codes "never" ∷ [])
        ≡ true ∷ true ∷ false ∷ false ∷ [] }
    ensures calls { map (calls_question (codes "n" ∷ codes "never x" ∷ []) (codes "always y" ∷ []))
        (codes "never a" ∷ codes "never x: a" ∷ codes "always y: a" ∷ codes "always y"
        ∷ codes "n: a" ∷ [])
        ≡ true ∷ false ∷ false ∷ true ∷ false ∷ [] }
{}

/// Entry 1 is aborted with four steps at least, not with seven; entry 2 is not.
pub fn rows_that_are_soonest()
    ensures four { IsSoonest (aborted_at 1) few_rows (end_found 1 (fate.Aborted 10) 4) }
    ensures seven { ¬ IsSoonest (aborted_at 1) few_rows (end_found 1 (fate.Aborted 9) 7) }
    ensures none { ¬ IsSoonest (aborted_at 2) few_rows (end_found 1 (fate.Aborted 10) 4) }
{}

/// What is shown is asked for. Nothing is shown if there are no conditions, or if the formula never
/// holds. After a search that is complete, a question with nothing to show asks for what comes in
/// no order, and after another one for what did not come so far.
pub fn answers_that_are_shown()
    ensures row { (caps : Caps) (script : Script) (setup : List Event)
        (conditions : List Condition) (steps : List Step)
        (shown : IsWantedShown caps script setup (rows conditions) 3 steps)
        → is_row_asked conditions shown.finding ≡ true }
    ensures no_row { (caps : Caps) (script : Script) (setup : List Event) (steps : List Step)
        → ¬ IsRowShown caps script setup [] 3 steps }
    ensures no_state { (caps : Caps) (script : Script) (setup : List Event) (steps : List Step)
        → ¬ IsStateShown caps script setup (Known false ∷ []) 3 steps }
    ensures with_steps { (caps : Caps) (script : Script) (setup : List Event)
        (explored : Explored) (question : Asked) (steps : List Step)
        (shown : IsAnswerShown caps script setup explored question steps)
        → shown.answer.outlook ≡ With shown.count }
    ensures in_no_order { (caps : Caps) (script : Script) (setup : List Event)
        (explored : Explored) (question : Asked)
        (none : HasNoneToShow caps script setup explored question)
        → explored.is_complete ≡ true
        → none.answer.outlook ≡ InNoOrder }
    ensures not_so_far { (caps : Caps) (script : Script) (setup : List Event)
        (explored : Explored) (question : Asked)
        (none : HasNoneToShow caps script setup explored question)
        → explored.is_complete ≡ false
        → none.answer.outlook ≡ NotSoFar }
{}
