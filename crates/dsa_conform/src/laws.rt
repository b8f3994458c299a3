//! Laws of what is printed, each on a function with nothing to do.

ghost use Rattle.std.specs.Prelude.{◌≡◌, List, ℕ, Option, Some, true, false};
ghost use Rattle.std.specs.{List.{list_all}, Str.{IsUtf8}};
ghost use Rattle.serde_json.specs.{Data.{string}, Read.{read}};
ghost use Rattle.dsa_scenario.specs.declared.faults.ScenarioFault.{ScenarioFault};
ghost use Rattle.dsa_conform.specs.Forms.{IsFullReport, IsReport};
ghost use Rattle.dsa_conform.specs.Quoted.{is_unescaped, is_printable, seen_text};
ghost use Rattle.dsa_conform.specs.{Every.{IsConformanceOf}, Run.{IsConformance}};

/// What is printed of a document has the lines that are documented, each in one line.
pub fn reports_have_their_lines()
    ensures first { (bytes : List ℕ) (fault : Option ScenarioFault) (text : List ℕ)
        → IsConformance bytes fault text
        → IsReport fault text }
    ensures all { (bytes : List ℕ) (fault : Option ScenarioFault) (text : List ℕ)
        → IsConformanceOf true bytes fault text
        → IsFullReport fault text }
{}

/// What is printed of a text that was seen is printable: the text where that is plain, and else
/// JSON that reads as the text.
pub fn seen_texts_are_told()
    ensures printable { (text : List ℕ) → list_all is_printable (seen_text text) ≡ true }
    ensures plain { (text : List ℕ) → list_all is_unescaped text ≡ true → seen_text text ≡ text }
    ensures quoted { (text : List ℕ)
        → IsUtf8 text
        → list_all is_unescaped text ≡ false
        → read (seen_text text) ≡ Some (string text) }
{}
