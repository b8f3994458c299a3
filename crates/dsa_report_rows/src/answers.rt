//! When what is said of questions is so.

ghost use Rattle.std.specs.Prelude.{◌≡◌, ℕ, [], ◌∷◌, Bool, List, slice_get, true, None, Option, Some};
ghost use Rattle.dsa_regs.specs.declared.Caps.{Caps};
ghost use Rattle.dsa_book.specs.declared.event.Event.{Event};
ghost use Rattle.dsa_keys.specs.Parties.{Parties, World};
ghost use Rattle.dsa_parties.specs.{Offers.{parties_of}, Standing.{Standing}};
ghost use Rattle.dsa_parties.specs.declared.{script.Script.{Script}, watches.Watch.{Watch}};
ghost use Rattle.dsa_formulas.specs.Formulas.{holds_in_world};
ghost use Rattle.dsa_formulas.specs.declared.formula.{Fact.{Fact, TheVariants.{Came}}, Term.{Term}};
ghost use Rattle.dsa_explore.specs.{Explored.{AskOf, MayCome}, Search.{IsReached}, Walked.{IsFirst}};
ghost use Rattle.dsa_explore.specs.declared.found.{Explored.{Explored}, Finding.{Finding}};
ghost use Rattle.dsa_questions.specs.Answers.{AreAnswers, CanHold, IsAnswer, IsAtMost, IsFirstMet, IsMetFor};
ghost use Rattle.dsa_questions.specs.{Asked.{is_row_asked}, Meaning.{KnowsWatches}, Orders.{ComesWith, NeverComes}};
ghost use Rattle.dsa_questions.specs.{Reading.{Asked}, Verdicts.{Answer, answer_with}};
ghost use Rattle.dsa_questions.specs.declared.question.Condition.{Condition};

/// Where a formula can hold, so many moves lead to a state in which it does.
pub fn states_that_hold()
    ensures reached { (script : Script) (first : World Standing) (terms : List Term)
        (can : CanHold script first terms 3)
        → IsReached (parties_of script) first 3 can.world }
    ensures holds { (script : Script) (first : World Standing) (terms : List Term)
        (can : CanHold script first terms 3)
        → holds_in_world script terms can.world ≡ true }
    ensures as_many { IsAtMost (Some 3) 3 }
    ensures more { IsAtMost (Some 3) 5 }
    ensures not_fewer { ¬ IsAtMost (Some 3) 2 }
    ensures not_known { ¬ IsAtMost None 2 }
{}

/// The fewest steps to such a state begin where the set-up led to.
pub fn first_states_that_hold()
    ensures begun { (caps : Caps) (script : Script) (setup : List Event) (explored : Explored)
        (terms : List Term) (met : Option ℕ) (is : IsFirstMet caps script setup explored terms met)
        → IsFirst caps script setup is.first }
    ensures sound { (caps : Caps) (script : Script) (setup : List Event) (explored : Explored)
        (terms : List Term) (is : IsFirstMet caps script setup explored terms (Some 3))
        → CanHold script is.first terms 3 }
    ensures complete { (caps : Caps) (script : Script) (setup : List Event) (explored : Explored)
        (terms : List Term) (met : Option ℕ) (is : IsFirstMet caps script setup explored terms met)
        → explored.is_complete ≡ true → CanHold script is.first terms 3 → IsAtMost met 3 }
{}

/// Each question has an answer, in their order.
pub fn answers_to_questions()
    ensures met { (caps : Caps) (script : Script) (setup : List Event) (explored : Explored)
        (question : Asked) (answer : Answer)
        (is : IsAnswer caps script setup explored question answer)
        → IsMetFor caps script setup explored question.wanted is.0 }
    ensures said { (caps : Caps) (script : Script) (setup : List Event) (explored : Explored)
        (question : Asked) (answer : Answer)
        (is : IsAnswer caps script setup explored question answer)
        → answer ≡ answer_with explored question is.0 }
    ensures none { (caps : Caps) (script : Script) (setup : List Event) (explored : Explored)
        → AreAnswers caps script setup explored [] [] }
    ensures each { (caps : Caps) (script : Script) (setup : List Event) (explored : Explored)
        (question : Asked) (answer : Answer)
        → IsAnswer caps script setup explored question answer
        → AreAnswers caps script setup explored (question ∷ []) (answer ∷ []) }
    ensures first { (caps : Caps) (script : Script) (setup : List Event) (explored : Explored)
        (question : Asked) (answer : Answer) (questions : List Asked) (answers : List Answer)
        → AreAnswers caps script setup explored (question ∷ questions) (answer ∷ answers)
        → IsAnswer caps script setup explored question answer }
    ensures rest { (caps : Caps) (script : Script) (setup : List Event) (explored : Explored)
        (question : Asked) (answer : Answer) (questions : List Asked) (answers : List Answer)
        → AreAnswers caps script setup explored (question ∷ questions) (answer ∷ answers)
        → AreAnswers caps script setup explored questions answers }
{}

/// What never comes comes with no number of steps; the facts know what has come.
pub fn orders_of_findings()
    ensures never { (parties : Parties ℕ ℕ) (asks : AskOf ℕ ℕ) (first : World ℕ)
        (conditions : List Condition) (finding : Finding)
        → NeverComes parties asks first conditions → is_row_asked conditions finding ≡ true
        → MayCome parties asks first 3 finding → ⊥ }
    ensures may { (parties : Parties ℕ ℕ) (asks : AskOf ℕ ℕ) (first : World ℕ)
        (conditions : List Condition) (comes : ComesWith parties asks first conditions 3)
        → MayCome parties asks first 3 comes.finding }
    ensures knows { (facts : Fact → Bool) (came : Watch
        → Bool) (watches : List Watch) (watch : Watch) → KnowsWatches facts came watches
        → slice_get watches 1 ≡ Some watch → facts (Came 1) ≡ came watch }
    ensures knows_nothing_else { (facts : Fact → Bool) (came : Watch → Bool)
        → KnowsWatches facts came [] }
{}
