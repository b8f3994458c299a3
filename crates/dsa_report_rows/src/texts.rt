//! Texts of values and members, tokens of step objects, and texts of runs that were begun.

ghost use Rattle.std.specs.Prelude.{◌≡◌, ℕ, ◌≤◌, ◌∷◌, [], List, None, Some, codes, take};
ghost use Rattle.json.specs.Token.{Token};
ghost use Rattle.json.specs.Tree.{items_depth, depth as depth_of_json};
ghost use Rattle.serde_json.specs.Data.{Data, Members, depth, null};
ghost use Rattle.serde_json.specs.Read.{of_json};
ghost use Rattle.dsa_scenario.specs.declared.actions.Action.{Action};
ghost use Rattle.dsa_scenario.specs.Steps.{IsTextOfRun, Visit};
ghost use Rattle.dsa_scenario.specs.Streams.{AreFirstLines, AreLinesOfStart};
ghost use Rattle.dsa_scenario.specs.Tokens.{Reads, ReadsMembers, ReadsSteps};
ghost use Rattle.dsa_expand.specs.Layout.{AreMembersTexts};
ghost use Rattle.dsa_expand.specs.Members.{AreFlat};
ghost use Rattle.dsa_scenario.specs.Watched.{IsSameWriter};
ghost use Rattle.dsa_scenario.specs.declared.watched.WatchedWriter.{WatchedWriter};
ghost use Rattle.dsa_named.specs.Names.{Own};
ghost use Rattle.dsa_named.specs.Steps.{NamedVisit};
ghost use Rattle.dsa_trace.specs.declared.form.Trace.{Trace};
ghost use Rattle.dsa_trace.specs.declared.form.Trace.TheVariants.{Table};
ghost use Rattle.dsa_named_trace.specs.Run.{IsNamedTrace};
ghost use Rattle.dsa_named_trace.specs.Streams.{HasTakenNamed, IsNamedPage, IsNamedTraceBegun};

/// Values that nest no deeper than so, and one that does.
pub fn values_by_depth()
    ensures flat { (d : Data) → depth d ≡ 2 → AreFlat 2 (d ∷ null ∷ []) }
    ensures deep { (d : Data) → depth d ≡ 3 → ¬ AreFlat 2 (d ∷ null ∷ []) }
    ensures later { (d : Data) → depth d ≡ 3 → ¬ AreFlat 2 (null ∷ d ∷ []) }
{}

/// Before the first member comes the first text, and before no member comes none.
pub fn texts_of_members()
    ensures no_start { ¬ AreMembersTexts (codes "{") (codes ", ") ((codes "k", null) ∷ [])
        (codes "\"k\": null") }
    ensures none { AreMembersTexts (codes "{") (codes ", ") [] [] }
{}

/// Step objects have no objects in them.
pub fn tokens_of_steps()
    ensures flat { (old new : List Token) (actions : List Action)
        (reads : ReadsSteps old actions new) → items_depth reads.js ≤ 1 }
{}

/// What is read of tokens nests no deeper than so, and ends with the brace behind its members.
pub fn tokens_of_values()
    ensures shallow { (old new : List Token) (d : Data) (reads : Reads 1 old d new)
        → depth_of_json reads.j ≤ 1 }
    ensures value { (old new : List Token) (d : Data) (reads : Reads 1 old d new)
        → of_json reads.j ≡ Some d }
    ensures no_members { (new : List Token) (found : Members)
        → ReadsMembers 0 (Token.end_object ∷ new) found found new }
{}

/// A page without steps has no text; a whole trace is one that was begun.
pub fn traces_on_the_way()
    ensures no_steps { (form : Trace) (text : List ℕ) (names : List Own)
        → IsNamedPage form [] [] [] text names → text ≡ [] }
    ensures whole { (bytes text : List ℕ) → IsNamedTrace Table bytes text
        → IsNamedTraceBegun Table bytes None text }
    ensures same_writer { (form : Trace) (first now : WatchedWriter ℕ) (taken : List NamedVisit)
        → HasTakenNamed (λ n. Some (n ∷ [])) form first now taken → IsSameWriter first now }
{}

/// The lines of a start are those of a run of the first actions.
pub fn lines_of_starts()
    ensures run { (line : Visit → List ℕ) (bytes text : List ℕ)
        (start : AreLinesOfStart line bytes text)
        → IsTextOfRun (AreFirstLines line) start.caps start.capacity
        (take start.count start.actions) text }
{}
