//! Worked warnings: what the definitions find odd at chosen values, by computation.

ghost use Rattle.std.specs.Prelude.{◌≡◌, List, [], ◌∷◌, ◌++◌, true, false, Some, None, codes, map};
ghost use Rattle.std.specs.Prelude.{replicate};
ghost use Rattle.std.specs.declared.{alloc.Global.{Global}, vec.Vec.{Vec}};
ghost use Rattle.serde_json.specs.Data.{null, boolean, string, array, no_items, item};
ghost use Rattle.dsa_scenario.specs.declared.faults.ScenarioFault.TheVariants.{BadDocument, BadStep, BadCaps};
ghost use Rattle.dsa_scenario.specs.declared.fields.Form.TheVariants as form;
ghost use Rattle.dsa_scenario.specs.declared.actions.StepKind.TheVariants.{Clear, Command, Enqcmd, Fetch};
ghost use Rattle.dsa_scenario.specs.declared.actions.StepKind.TheVariants.{Movdir, Poll};
ghost use Rattle.dsa_scenario.specs.Actions.{rows_of_kind};
ghost use Rattle.dsa_scenario.specs.Worked.{whole, object_of, fields_without, changed, some_caps};
ghost use Rattle.dsa_scenario.specs.Worked.{poll_step, clear_step, movdir_step, command_step};
ghost use Rattle.dsa_scenario.specs.Worked.{step_of_kind};
ghost use Rattle.dsa_check.specs.declared.finding.{Finding.{Finding}, Reason.{Reason}};
ghost use Rattle.dsa_check.specs.declared.finding.Reason.TheVariants.{NoOwnName, NotUtf8};
ghost use Rattle.dsa_check.specs.Check.{first_of, faults_warned};
ghost use Rattle.dsa_check.specs.Findings.{IsNowhere};
ghost use Rattle.json.specs.Json as json;
ghost use Rattle.dsa_check.specs.Lines.{no_own_name_text, reason_text, stray_text, twice_text};
ghost use Rattle.dsa_check.specs.Lines.{said_text};
ghost use Rattle.dsa_check.specs.Repeats.{keys_written, how_often, keys_again};
ghost use Rattle.dsa_check.specs.Tables.{document_rows};
ghost use Rattle.dsa_check.specs.Warnings.{names_of, remark_names, document_names, step_names, is_named, list_of};
ghost use Rattle.dsa_check.specs.Warnings.{friendly_names, has_no_word, odd_name};
ghost use Rattle.dsa_check.specs.Warnings.{odd_name_of_kind};
ghost use Rattle.dsa_check.specs.Warnings.{told_keys, is_stray, plain_key, near_name, stray_texts};
ghost use Rattle.dsa_check.specs.Warnings.{step_texts, object_texts, caps_warnings};
ghost use Rattle.dsa_check.specs.Warnings.{warnings_of_value, warned_in};
ghost use Rattle.dsa_check.specs.Warnings.{IsStepPlace, HasPlace, AreWarningsOf};
ghost use Rattle.dsa_check.specs.Worked.{right_document, found_at, document_of_null};
ghost use Rattle.dsa_check.specs.Worked.{written_object, keys_in_caps, written_twice};

/// Each part of a document has its warnings: the document, its caps and its steps, in this order.
#[tactic(auto, unfolding(crate::specs::Worked::near_on_literals))]
pub fn warnings_of_each_part()
    ensures none { warnings_of_value None (object_of right_document) ≡ [] }
    ensures no_object { warnings_of_value None null ≡ [] }
    ensures no_caps { caps_warnings None None ≡ [] }
    ensures document { warnings_of_value None (object_of ((codes "step", null) ∷ right_document))
        ≡ (BadDocument, None, codes "\"step\" is no key here, but \"steps\" is") ∷ [] }
    ensures parties { warnings_of_value None
        (object_of ((codes "parties", null) ∷ (codes "partys", null) ∷ right_document))
        ≡ (BadDocument, None, codes "\"partys\" is no key here, but \"parties\" is") ∷ [] }
    ensures parties_of_caps { warnings_of_value None
        (changed (codes "caps") (object_of ((codes "parties", null) ∷ some_caps)) right_document)
        ≡ (BadCaps, None, codes "\"parties\" is no key here") ∷ [] }
    ensures caps { warnings_of_value None
        (changed (codes "caps") (object_of ((codes "portals", null) ∷ some_caps)) right_document)
        ≡ (BadCaps, None, codes "\"portals\" is no key here") ∷ [] }
    ensures steps { warnings_of_value None
        (changed (codes "steps")
        (array (item (object_of poll_step) (item (object_of ((codes "zf", null) ∷ poll_step))
        (item null (item (object_of ((codes "word", null) ∷ clear_step)) no_items)))))
        right_document)
        ≡ (BadStep 1, Some Poll, codes "\"zf\" is null, true or false is wanted")
        ∷ (BadStep 3, Some Clear, codes "\"word\" is no key here") ∷ [] }
    ensures order { warnings_of_value None
        (object_of
        ((codes "steps", array (item (object_of ((codes "a", null) ∷ poll_step)) no_items))
        ∷ (codes "b", null) ∷ (codes "caps", object_of ((codes "c", null) ∷ some_caps)) ∷ []))
        ≡ (BadDocument, None, codes "\"b\" is no key here")
        ∷ (BadCaps, None, codes "\"c\" is no key here")
        ∷ (BadStep 0, Some Poll, codes "\"a\" is no key here") ∷ [] }
    ensures remarks { warnings_of_value None
        (object_of ((codes "note", null)
        ∷ (codes "steps", array (item (object_of ((codes "note", null) ∷ poll_step)) no_items))
        ∷ (codes "caps", object_of ((codes "note", null) ∷ some_caps)) ∷ []))
        ≡ [] }
{}

/// What is odd in a step: first what another device was seen to answer, then each key that nothing
/// reads. A key that a fault tells as the spelling of one that is missing is told once.
#[tactic(auto, unfolding(crate::specs::Worked::near_on_literals, dsa_scenario::specs::Worked::digits_on_literals))]
pub fn oddities_of_steps()
    ensures answer { step_texts [] (object_of ((codes "answer", whole 0) ∷ poll_step))
        ≡ codes "\"answer\" is 0, a text is wanted" ∷ [] }
    ensures flag { step_texts [] (object_of ((codes "zf", string (codes "true")) ∷ poll_step))
        ≡ codes "\"zf\" is a text, true or false is wanted" ∷ [] }
    ensures all { step_texts []
        (object_of ((codes "b", null) ∷ (codes "zf", null) ∷ (codes "answer", null)
        ∷ (codes "a", null) ∷ poll_step))
        ≡ codes "\"answer\" is null, a text is wanted"
        ∷ codes "\"zf\" is null, true or false is wanted" ∷ codes "\"b\" is no key here"
        ∷ codes "\"a\" is no key here" ∷ [] }
    ensures right { step_texts []
        (object_of ((codes "answer", string []) ∷ (codes "zf", boolean true) ∷ (codes "note", null)
        ∷ movdir_step))
        ≡ [] }
    ensures no_kind { step_texts []
        (object_of ((codes "answer", null) ∷ (codes "a", null) ∷ []))
        ≡ codes "\"answer\" is null, a text is wanted" ∷ [] }
    ensures no_object { step_texts [] null ≡ [] }
    ensures other_kind { step_texts [] (object_of ((codes "pasid", whole 1) ∷ movdir_step))
        ≡ codes "\"pasid\" is no key here" ∷ [] }
    ensures told { step_texts []
        (object_of ((codes "limitd", null) ∷ fields_without (codes "limited") movdir_step))
        ≡ [] }
    ensures untold { step_texts [] (object_of ((codes "limitd", null) ∷ movdir_step))
        ≡ codes "\"limitd\" is no key here, but \"limited\" is" ∷ [] }
    ensures own_name { step_texts [] (object_of ((codes "as", string (codes "x")) ∷ movdir_step))
        ≡ [] }
    ensures no_name { step_texts [] (object_of ((codes "as", null) ∷ poll_step))
        ≡ codes "\"as\" is no key here" ∷ [] }
    ensures called { step_texts []
        (object_of ((codes "command", string []) ∷ (codes "operand", null)
        ∷ (codes "queues", null) ∷ step_of_kind (codes "command") []))
        ≡ [] }
    ensures called_with_a_word { step_texts []
        (object_of ((codes "command", string []) ∷ command_step))
        ≡ codes "\"command\" is no key here" ∷ [] }
    ensures called_by_no_text { step_texts []
        (object_of ((codes "command", null) ∷ step_of_kind (codes "command") []))
        ≡ codes "\"command\" is no key here" ∷ [] }
    ensures seen { step_texts [] (object_of ((codes "answr", null) ∷ poll_step))
        ≡ codes "\"answr\" is no key here, but \"answer\" is" ∷ [] }
    ensures as_near_to_as { step_texts [] (object_of ((codes "ds", null) ∷ movdir_step))
        ≡ codes "\"ds\" is no key here, but \"do\" is" ∷ [] }
{}

/// What is odd where a step has its own name: no text, or a text that is none. It comes behind what
/// another device was seen to answer.
#[tactic(auto, unfolding(crate::specs::Worked::near_on_literals, dsa_scenario::specs::Worked::digits_on_literals))]
pub fn own_names_of_steps()
    ensures right { map (λ text. odd_name (object_of ((codes "as", string text) ∷ [])))
        (codes "x" ∷ codes " ~" ∷ replicate 40 65 ∷ [])
        ≡ [] ∷ [] ∷ [] ∷ [] }
    ensures wrong { map (λ text. odd_name (object_of ((codes "as", string text) ∷ [])))
        ([] ∷ replicate 41 65 ∷ codes "a\"" ∷ codes "\\" ∷ codes "\n" ∷ replicate 1 127 ∷ [])
        ≡ replicate 6 (no_own_name_text ∷ []) }
    ensures no_text { map (λ value. odd_name (object_of ((codes "as", value) ∷ [])))
        (whole 5 ∷ null ∷ array no_items ∷ [])
        ≡ (codes "\"as\" is 5, a text is wanted" ∷ [])
        ∷ (codes "\"as\" is null, a text is wanted" ∷ [])
        ∷ (codes "\"as\" is an array, a text is wanted" ∷ []) ∷ [] }
    ensures none { odd_name (object_of []) ≡ [] }
    ensures kinds { map (odd_name_of_kind (object_of ((codes "as", string []) ∷ [])))
        (Some Enqcmd ∷ Some Movdir ∷ Some Fetch ∷ Some Command ∷ Some Poll ∷ None ∷ [])
        ≡ replicate 3 (no_own_name_text ∷ []) ++ replicate 3 [] }
    ensures order { step_texts []
        (object_of ((codes "b", null) ∷ (codes "as", string []) ∷ (codes "zf", null) ∷ movdir_step))
        ≡ codes "\"zf\" is null, true or false is wanted" ∷ no_own_name_text
        ∷ codes "\"b\" is no key here" ∷ [] }
    ensures text { reason_text NoOwnName
        ≡ codes "\"as\" is no own name, "
        ++ codes "1 to 40 printable ASCII characters other than \" and \\ are wanted" }
{}

/// Keys that are known, that a fault tells, and that nothing reads.
#[tactic(auto, unfolding(crate::specs::Worked::near_on_literals))]
pub fn keys_that_nothing_reads()
    ensures names { names_of document_rows
        ≡ codes "caps" ∷ codes "capacity" ∷ codes "steps" ∷ [] }
    ensures remarks { remark_names ≡ codes "note" ∷ [] }
    ensures of_documents { document_names
        ≡ codes "parties" ∷ codes "never" ∷ codes "sometimes" ∷ codes "always" ∷ codes "note"
        ∷ [] }
    ensures of_steps { step_names
        ≡ codes "do" ∷ codes "answer" ∷ codes "zf" ∷ codes "note" ∷ [] }
    ensures friendly { map (λ kind. friendly_names kind (object_of []))
        (Enqcmd ∷ Movdir ∷ Fetch ∷ Command ∷ Poll ∷ [])
        ≡ (codes "as" ∷ []) ∷ (codes "as" ∷ []) ∷ (codes "as" ∷ []) ∷ [] ∷ [] ∷ [] }
    ensures of_a_command { friendly_names Command (object_of ((codes "command", string []) ∷ []))
        ≡ codes "command" ∷ codes "operand" ∷ codes "queues" ∷ [] }
    ensures no_word { map has_no_word
        (object_of ((codes "command", string []) ∷ []) ∷ object_of ((codes "command", null) ∷ [])
        ∷ object_of ((codes "command", string []) ∷ (codes "word", null) ∷ []) ∷ object_of [] ∷ [])
        ≡ true ∷ false ∷ false ∷ false ∷ [] }
    ensures named { map (is_named step_names) (codes "zf" ∷ codes "ZF" ∷ codes "z" ∷ [])
        ≡ true ∷ false ∷ false ∷ [] }
    ensures listed { map (λ key. list_of key) (Some (codes "do") ∷ None ∷ [])
        ≡ (codes "do" ∷ []) ∷ [] ∷ [] }
    ensures told { told_keys (object_of ((codes "wrd", null) ∷ (codes "x", null) ∷ []))
        ((codes "word", form.Text) ∷ (codes "size", form.Text) ∷ [])
        ≡ codes "wrd" ∷ [] }
    ensures there { told_keys (object_of ((codes "wrd", null) ∷ (codes "word", null) ∷ []))
        ((codes "word", form.Text) ∷ [])
        ≡ [] }
    ensures stray { map (is_stray (codes "word" ∷ codes "do" ∷ []) (codes "wrd" ∷ []))
        (codes "wrd" ∷ codes "x" ∷ codes "do" ∷ [])
        ≡ false ∷ true ∷ false ∷ [] }
    ensures plain { map plain_key (replicate 40 65 ∷ replicate 41 65 ∷ codes "a\n" ∷ [])
        ≡ Some (replicate 40 65) ∷ None ∷ None ∷ [] }
    ensures near { map (near_name (codes "word" ∷ codes "zf" ∷ codes "note" ∷ []))
        (codes "Z-F" ∷ codes "wrd" ∷ codes "nothing" ∷ codes "notes" ∷ codes "notebook" ∷ [])
        ≡ Some (codes "zf") ∷ Some (codes "word") ∷ None ∷ Some (codes "note")
        ∷ Some (codes "note") ∷ [] }
    ensures near_none { near_name (codes "word" ∷ []) (codes "word\n") ≡ None }
    ensures nearest { stray_texts (object_of ((codes "ward", null) ∷ (codes "word", null) ∷ []))
        ((codes "word", form.Text) ∷ []) (codes "wand" ∷ [])
        ≡ codes "\"ward\" is no key here, but \"word\" is" ∷ [] }
{}

/// Keys that come more than once in an object of the text: each is told once, after all else.
#[tactic(auto, unfolding(crate::specs::Worked::near_on_literals))]
pub fn keys_that_come_twice()
    ensures keys { map (λ written. keys_written (Some written))
        (written_object
        ((codes "a", json.null) ∷ (codes "b", json.null) ∷ (codes "a", json.null) ∷ [])
        ∷ json.null ∷ [])
        ≡ (codes "a" ∷ codes "b" ∷ codes "a" ∷ []) ∷ [] ∷ [] }
    ensures no_keys { keys_written None ≡ [] }
    ensures often { map (how_often (codes "a" ∷ codes "b" ∷ codes "a" ∷ codes "A" ∷ []))
        (codes "a" ∷ codes "b" ∷ codes "d" ∷ [])
        ≡ 2 ∷ 1 ∷ 0 ∷ [] }
    ensures again { keys_again
        (codes "a" ∷ codes "b" ∷ codes "c" ∷ codes "b" ∷ codes "a" ∷ codes "b" ∷ codes "A" ∷ [])
        ≡ codes "b" ∷ codes "a" ∷ [] }
    ensures texts { map twice_text (Some (codes "do") ∷ None ∷ [])
        ≡ codes "\"do\" comes twice" ∷ codes "a key that is long or not plain comes twice" ∷ [] }
    ensures step { step_texts (codes "do" ∷ codes "a" ∷ codes "do" ∷ [])
        (object_of ((codes "a", null) ∷ poll_step))
        ≡ codes "\"a\" is no key here" ∷ codes "\"do\" comes twice" ∷ [] }
    ensures after_all { step_texts (codes "do" ∷ codes "do" ∷ [])
        (object_of ((codes "a\n", null) ∷ (codes "zf", null) ∷ (codes "answer", null) ∷ poll_step))
        ≡ codes "\"answer\" is null, a text is wanted"
        ∷ codes "\"zf\" is null, true or false is wanted"
        ∷ codes "a key that is long or not plain is no key here"
        ∷ codes "\"do\" comes twice" ∷ [] }
    ensures object { object_texts (codes "capacity" ∷ codes "capacity" ∷ [])
        (object_of ((codes "a\n", null) ∷ right_document)) document_rows []
        ≡ codes "a key that is long or not plain is no key here"
        ∷ codes "\"capacity\" comes twice" ∷ [] }
    ensures no_kind { step_texts (codes "a" ∷ codes "a" ∷ [])
        (object_of ((codes "a", null) ∷ []))
        ≡ codes "\"a\" comes twice" ∷ [] }
    ensures parts { warnings_of_value (Some written_twice)
        (changed (codes "steps")
        (array (item (object_of poll_step) (item (object_of poll_step) no_items)))
        right_document)
        ≡ (BadDocument, None, codes "\"capacity\" comes twice")
        ∷ (BadCaps, None, codes "\"slots\" comes twice")
        ∷ (BadStep 1, Some Poll, codes "\"do\" comes twice") ∷ [] }
    ensures last { map keys_in_caps
        (written_object
        ((codes "caps", json.null)
        ∷ (codes "caps", written_object ((codes "slots", json.null) ∷ [])) ∷ [])
        ∷ json.null ∷ [])
        ≡ (codes "slots" ∷ []) ∷ [] ∷ [] }
{}

/// Warnings in words, and their lines.
#[tactic(auto, unfolding(dsa_scenario::specs::Worked::digits_on_literals))]
pub fn texts_of_warnings()
    ensures near { stray_text (Some (codes "slot")) (Some (codes "slots"))
        ≡ codes "\"slot\" is no key here, but \"slots\" is" }
    ensures alone { stray_text (Some (codes "slot")) None ≡ codes "\"slot\" is no key here" }
    ensures untold { stray_text None None ≡ codes "a key that is long or not plain is no key here" }
    ensures line { (reasons : Vec Reason Global)
        → said_text true (found_at (Some 2) None reasons) (Some NotUtf8) None
        ≡ codes "warning: line 2, capacity: the bytes are no UTF-8\n" }
    ensures each { warned_in BadCaps (Some Poll) (codes "a" ∷ codes "b" ∷ [])
        ≡ (BadCaps, Some Poll, codes "a") ∷ (BadCaps, Some Poll, codes "b") ∷ [] }
{}

/// Where a warning is, and the warnings of bytes that are no JSON; they count in a strict check.
#[tactic(auto, unfolding(serde_json::proofs::OnLiterals::serde_json_on_literals))]
pub fn places_of_warnings()
    ensures of_a_step { (finding : Finding)
        → finding.fault ≡ BadStep 0
        → IsNowhere finding.place
        → HasPlace [] document_of_null finding }
    ensures of_no_step { (finding : Finding)
        → finding.fault ≡ BadStep 1
        → HasPlace [] document_of_null finding
        → ⊥ }
    ensures no_column { (finding : Finding)
        → finding.fault ≡ BadStep 0
        → finding.place.column ≡ Some 1
        → HasPlace [] document_of_null finding
        → ⊥ }
    ensures of_the_caps { (finding : Finding)
        → finding.fault ≡ BadCaps
        → finding.place.line ≡ Some 1
        → HasPlace [] document_of_null finding
        → ⊥ }
    ensures no_json { AreWarningsOf (codes "{") [] }
    ensures one { (finding : Finding) → AreWarningsOf (codes "{") (finding ∷ []) → ⊥ }
    ensures plain { (warnings : List Finding) → faults_warned false warnings ≡ [] }
    ensures strict { (finding : Finding)
        → finding.fault ≡ BadCaps
        → finding.reasons.items ≡ NotUtf8 ∷ NotUtf8 ∷ []
        → faults_warned true (finding ∷ []) ≡ BadCaps ∷ BadCaps ∷ [] }
    ensures silent { first_of (faults_warned true []) ≡ None }
{}
