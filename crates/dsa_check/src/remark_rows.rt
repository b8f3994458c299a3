//! Worked remarks: what a reason points to, and where the keys and the values of an object are.

ghost use Rattle.std.specs.Prelude.{◌≡◌, ◌++◌, [], ◌∷◌, true, false, Some, None, codes, map, String};
ghost use Rattle.std.specs.Prelude.{string_bytes, replicate};
ghost use Rattle.std.specs.declared.alloc.Global.{Global};
ghost use Rattle.serde_json.specs.Data.{null, boolean};
ghost use Rattle.dsa_scenario.specs.declared.faults.ScenarioFault.TheVariants.{NotJson};
ghost use Rattle.dsa_scenario.specs.declared.faults.ScenarioFault.TheVariants.{BadDocument};
ghost use Rattle.dsa_scenario.specs.declared.faults.ScenarioFault.TheVariants.{BadStep, BadCaps};
ghost use Rattle.dsa_scenario.specs.declared.faults.ScenarioFault.TheVariants.{BadCapacity};
ghost use Rattle.dsa_scenario.specs.declared.fields.Form.TheVariants as form;
ghost use Rattle.dsa_scenario.specs.Worked.{whole, object_of, some_caps, poll_step};
ghost use Rattle.dsa_check.specs.declared.fields.Found.TheVariants as found;
ghost use Rattle.dsa_check.specs.declared.checking.CheckForm.TheVariants as check_form;
ghost use Rattle.dsa_check.specs.declared.finding.Aim.TheVariants as aim;
ghost use Rattle.dsa_check.specs.declared.finding.Finding.{Finding};
ghost use Rattle.dsa_check.specs.declared.finding.Reason.TheVariants.{Missing, Expandable};
ghost use Rattle.dsa_check.specs.declared.finding.Reason.TheVariants.{Misspelled, Unfit};
ghost use Rattle.dsa_check.specs.declared.finding.Reason.TheVariants.{OddDigits, ManyDigits};
ghost use Rattle.dsa_check.specs.declared.finding.Reason.TheVariants.{NoDigit, NoObject, NoOwnName};
ghost use Rattle.dsa_check.specs.declared.finding.Reason.TheVariants.{UnknownKind, Stray, Twice};
ghost use Rattle.dsa_check.specs.declared.finding.Reason.TheVariants.{NotUtf8, Syntax};
ghost use Rattle.dsa_check.specs.declared.syntax.Syntax.TheVariants.{Comment};
ghost use Rattle.dsa_check.specs.Check.{text_in};
ghost use Rattle.dsa_check.specs.Members.{other_text, other_value, is_gap, IsValueAt, IsKeyAt};
ghost use Rattle.dsa_check.specs.Remarks.{aim_of, name_of, is_of_caps, part_at, part_meant};
ghost use Rattle.dsa_check.specs.Remarks.{reasons_or_none, said, said_of, IsAimedAt};
ghost use Rattle.dsa_check.specs.Worked.{right_document, key_of_caps, key_of_a_step};
ghost use Rattle.dsa_check.specs.Worked.{last_of_two, text_of_two, found_at, third_line};
ghost use Rattle.dsa_check.specs.Worked.{found_in_a_step, step_without_a_key};
ghost use Rattle.dsa_check.specs.Objects.{number_member, text_member, part_name, step_number};
ghost use Rattle.dsa_check.specs.Objects.{level_name, line_told, column_told};
ghost use Rattle.dsa_check.specs.Objects.{members_of_remark};
ghost use Rattle.dsa_check.specs.Sources.{shown_byte, before_place, from_place, mark_begin};
ghost use Rattle.dsa_check.specs.Sources.{mark_end, lines_at};
ghost use Rattle.json.specs.Token as token;
ghost use Rattle.std.specs.declared.vec.Vec.{Vec};
ghost use Rattle.dsa_check.specs.declared.finding.Reason.{Reason};

/// What reasons point to, the keys that they are of, and whose keys those are.
pub fn aims_of_reasons()
    ensures aims { (text : String Global)
        → map aim_of
        (Missing key_of_caps ∷ Expandable key_of_caps ∷ Misspelled key_of_caps text
        ∷ Unfit key_of_caps found.Null form.Text ∷ OddDigits key_of_caps 3
        ∷ ManyDigits key_of_caps 130 ∷ NoDigit key_of_caps 1 ∷ NoOwnName ∷ NoObject found.Null
        ∷ UnknownKind None None ∷ Stray (Some text) None ∷ Twice None ∷ NotUtf8
        ∷ Syntax Comment ∷ [])
        ≡ aim.Whole ∷ aim.Whole ∷ aim.Key ∷ aim.Value ∷ aim.Value ∷ aim.Value ∷ aim.Value
        ∷ aim.Value ∷ aim.Whole ∷ aim.Value ∷ aim.Key ∷ aim.Key ∷ aim.Whole ∷ aim.Whole ∷ [] }
    ensures names { (text : String Global)
        → map name_of
        (Missing key_of_caps ∷ Expandable key_of_caps ∷ Misspelled key_of_caps text
        ∷ Unfit key_of_caps found.Null form.Text ∷ OddDigits key_of_caps 3
        ∷ ManyDigits key_of_caps 130 ∷ NoDigit key_of_caps 1 ∷ NoOwnName ∷ NoObject found.Null
        ∷ UnknownKind None None ∷ Stray (Some text) None ∷ Twice (Some text) ∷ Twice None
        ∷ NotUtf8 ∷ Syntax Comment ∷ [])
        ≡ Some (codes "slots") ∷ Some (codes "slots") ∷ Some (string_bytes text)
        ∷ Some (codes "slots")
        ∷ Some (codes "slots") ∷ Some (codes "slots") ∷ Some (codes "slots")
        ∷ Some (codes "as") ∷ None
        ∷ Some (codes "do") ∷ Some (string_bytes text) ∷ Some (string_bytes text) ∷ None ∷ None
        ∷ None ∷ [] }
    ensures caps { (text : String Global)
        → map is_of_caps
        (Missing key_of_caps ∷ Expandable key_of_caps ∷ Misspelled key_of_caps text
        ∷ Unfit key_of_caps found.Null form.Text ∷ OddDigits key_of_caps 3
        ∷ ManyDigits key_of_caps 130 ∷ NoDigit key_of_caps 1 ∷ Missing key_of_a_step
        ∷ NoOwnName ∷ NoObject found.Null ∷ UnknownKind None None ∷ Stray None None
        ∷ Twice None ∷ NotUtf8 ∷ Syntax Comment ∷ [])
        ≡ true ∷ true ∷ true ∷ true ∷ true ∷ true ∷ true ∷ false ∷ false ∷ false ∷ false ∷ false
        ∷ false ∷ false ∷ false ∷ [] }
{}

/// The values of the parts of a document, and what is said of findings.
pub fn parts_of_documents()
    ensures parts { map (part_at (object_of right_document))
        (BadDocument ∷ BadStep 0 ∷ BadStep 1 ∷ BadCaps ∷ BadCapacity ∷ NotJson ∷ [])
        ≡ Some (object_of right_document) ∷ Some (object_of poll_step) ∷ None
        ∷ Some (object_of some_caps) ∷ Some (object_of right_document) ∷ None ∷ [] }
    ensures of_caps { part_meant BadDocument true ≡ BadCaps }
    ensures of_step { part_meant (BadStep 3) false ≡ BadStep 3 }
    ensures reasons { map reasons_or_none ([] ∷ (NotUtf8 ∷ Twice None ∷ []) ∷ [])
        ≡ (None ∷ []) ∷ (Some NotUtf8 ∷ Some (Twice None) ∷ []) ∷ [] }
    ensures said { (finding : Finding)
        → finding.reasons.items ≡ NotUtf8 ∷ []
        → said_of (finding ∷ []) (finding ∷ [])
        ≡ (false, finding, Some NotUtf8) ∷ (true, finding, Some NotUtf8) ∷ [] }
    ensures silent { (finding : Finding)
        → finding.reasons.items ≡ []
        → said_of (finding ∷ []) (finding ∷ []) ≡ (false, finding, None) ∷ [] }
{}

/// Where the keys and the values of an object are: of two members of one key the last counts.
#[tactic(auto, unfolding(serde_json::proofs::OnLiterals::serde_json_on_literals))]
pub fn places_of_members()
    ensures value { IsValueAt text_of_two last_of_two (codes "a") 12 13 }
    ensures first_value { IsValueAt text_of_two last_of_two (codes "a") 5 6 → ⊥ }
    ensures blank { IsValueAt text_of_two last_of_two (codes "a") 11 13 → ⊥ }
    ensures key { IsKeyAt text_of_two last_of_two (codes "a") 7 }
    ensures aimed { IsAimedAt text_of_two last_of_two aim.Value (Some (codes "a")) 12 }
    ensures aimed_whole { IsAimedAt text_of_two last_of_two aim.Whole (Some (codes "a")) 0 }
    ensures aimed_nowhere { IsAimedAt text_of_two last_of_two aim.Key None 1 → ⊥ }
    ensures texts { map other_text (true ∷ false ∷ []) ≡ codes "false" ∷ codes "null" ∷ [] }
    ensures values { map other_value (true ∷ false ∷ []) ≡ boolean false ∷ null ∷ [] }
    ensures gaps { map is_gap (58 ∷ 32 ∷ 10 ∷ 33 ∷ 44 ∷ 34 ∷ 59 ∷ [])
        ≡ true ∷ true ∷ true ∷ false ∷ false ∷ false ∷ false ∷ [] }
{}

/// What an object of a remark has.
#[tactic(auto, unfolding(dsa_scenario::specs::Worked::digits_on_literals))]
pub fn objects_of_remarks()
    ensures numbers { map (number_member (codes "line")) (None ∷ Some 12 ∷ [])
        ≡ [] ∷ (token.key (codes "line") ∷ token.number (codes "12") ∷ []) ∷ [] }
    ensures texts { map (text_member (codes "key")) (None ∷ Some (codes "do") ∷ [])
        ≡ [] ∷ (token.key (codes "key") ∷ token.string (codes "do") ∷ []) ∷ [] }
    ensures parts { map part_name
        (BadDocument ∷ BadStep 3 ∷ BadCaps ∷ BadCapacity ∷ NotJson ∷ [])
        ≡ codes "document" ∷ codes "step" ∷ codes "caps" ∷ codes "capacity" ∷ codes "text" ∷ [] }
    ensures steps { map step_number (BadStep 3 ∷ BadCaps ∷ []) ≡ Some 3 ∷ None ∷ [] }
    ensures levels { map level_name (true ∷ false ∷ []) ≡ codes "warning" ∷ codes "fault" ∷ [] }
    ensures line { (reasons : Vec Reason Global)
        → map (line_told (found_at (Some 2) (Some 15) reasons)) (None ∷ Some third_line ∷ [])
        ≡ Some 2 ∷ Some 3 ∷ [] }
    ensures column { (reasons : Vec Reason Global)
        → map (column_told (found_at (Some 2) (Some 15) reasons)) (None ∷ Some third_line ∷ [])
        ≡ Some 15 ∷ Some 16 ∷ [] }
    ensures whole { (reasons : Vec Reason Global)
        → members_of_remark true (found_at None None reasons) (Some (Missing key_of_caps))
        (Some third_line)
        ≡ token.begin_object ∷ token.key (codes "line") ∷ token.number (codes "3")
        ∷ token.key (codes "column") ∷ token.number (codes "16") ∷ token.key (codes "part")
        ∷ token.string (codes "capacity") ∷ token.key (codes "key") ∷ token.string (codes "slots")
        ∷ token.key (codes "level") ∷ token.string (codes "warning")
        ∷ token.key (codes "reason")
        ∷ token.string (codes "\"slots\" of \"caps\" is missing") ∷ token.end_object ∷ [] }
{}

/// What a check writes of a warning in each form: as a line, as an object, and with its source line
/// without colours and with them.
#[tactic(auto, unfolding(json::specs::Print::print_from, json::specs::Print::escape_byte, dsa_scenario::specs::Worked::digits_on_literals))]
pub fn forms_of_remarks()
    ensures said { (reasons : Vec Reason Global)
        → said (step_without_a_key reasons)
        ≡ (true, found_in_a_step reasons, Some (Missing key_of_a_step)) }
    ensures texts { (reasons : Vec Reason Global)
        → map (λ form. text_in form (codes "a\nbcd\ne") (step_without_a_key reasons))
        (check_form.Lines ∷ check_form.Json ∷ check_form.Source false ∷ check_form.Source true
        ∷ [])
        ≡ codes "warning: line 2, column 2, step 3 (poll): \"desc\" is missing\n"
        ∷ (codes "{\"line\":2,\"column\":2,\"part\":\"step\",\"step\":3,\"kind\":\"poll\","
        ++ codes "\"key\":\"desc\",\"level\":\"warning\","
        ++ codes "\"reason\":\"\\\"desc\\\" is missing\"}\n")
        ∷ codes "warning: line 2, column 2, step 3 (poll): \"desc\" is missing\nbcd\n ^\n"
        ∷ (codes "warning: line 2, column 2, step 3 (poll): \"desc\" is missing\nbcd\n "
        ++ (27 ∷ codes "[33m^") ++ (27 ∷ codes "[0m\n")) ∷ [] }
{}

/// What is shown of a source line, and the mark below it.
#[tactic(auto, unfolding(dsa_scenario::specs::Worked::digits_on_literals))]
pub fn lines_of_sources()
    ensures bytes { map shown_byte (9 ∷ 31 ∷ 32 ∷ 126 ∷ 127 ∷ 195 ∷ [])
        ≡ 63 ∷ 63 ∷ 32 ∷ 126 ∷ 63 ∷ 63 ∷ [] }
    ensures before { before_place (codes "a\nbcd") (record { at = 4; line = 2; column = 3 })
        ≡ codes "bc" }
    ensures outside { map (before_place (codes "a\nbcd"))
        (record { at = 5; line = 2; column = 4 } ∷ record { at = 6; line = 2; column = 3 } ∷ [])
        ≡ codes "bcd" ∷ [] ∷ [] }
    ensures far { before_place (replicate 100 97) (record { at = 80; line = 1; column = 81 })
        ≡ replicate 60 97 }
    ensures from { map (from_place (codes "a\nbcd\ne"))
        (record { at = 3; line = 2; column = 2 } ∷ record { at = 8; line = 3; column = 2 } ∷ [])
        ≡ codes "cd" ∷ [] ∷ [] }
    ensures long { from_place (replicate 100 97) (record { at = 1; line = 1; column = 2 })
        ≡ replicate 40 97 }
    ensures begins { map (mark_begin true) (false ∷ true ∷ [])
        ≡ (27 ∷ codes "[31m") ∷ (27 ∷ codes "[33m") ∷ [] }
    ensures plain { map (mark_begin false) (false ∷ true ∷ []) ≡ [] ∷ [] ∷ [] }
    ensures ends { map mark_end (true ∷ false ∷ []) ≡ (27 ∷ codes "[0m") ∷ [] ∷ [] }
    ensures lines { lines_at false true (codes "a\nbcd\ne")
        (record { at = 3; line = 2; column = 2 })
        ≡ codes "bcd\n ^\n" }
{}
