//! Worked documents: the faults that the definitions find at chosen values, by computation.

ghost use Rattle.std.specs.Prelude.{◌≡◌, ◌++◌, ℕ, [], ◌∷◌, true, false, Option, Some, None, codes};
ghost use Rattle.std.specs.Prelude.{List, map, replicate, negsuc, String, string_bytes};
ghost use Rattle.std.specs.declared.{alloc.Global.{Global}, vec.Vec.{Vec}};
ghost use Rattle.serde_json.specs.Data.{Data, depth, null, boolean, string, array, no_items, item};
ghost use Rattle.dsa_scenario.specs.declared.faults.ScenarioFault.TheVariants.{NotJson};
ghost use Rattle.dsa_scenario.specs.declared.faults.ScenarioFault.TheVariants.{BadDocument};
ghost use Rattle.dsa_scenario.specs.declared.faults.ScenarioFault.TheVariants.{BadStep, BadCaps};
ghost use Rattle.dsa_scenario.specs.declared.faults.ScenarioFault.TheVariants.{BadCapacity, Read};
ghost use Rattle.dsa_scenario.specs.Worked.{whole, object_of, fields_without, changed};
ghost use Rattle.dsa_scenario.specs.Worked.{step_of_kind, some_caps, poll_step, queue_step};
ghost use Rattle.dsa_scenario.specs.Worked.{group_step, enqcmd_step, dispatch_step, start_step};
ghost use Rattle.dsa_scenario.specs.Worked.{finish_step, command_step, clear_step, no_caps_text};
ghost use Rattle.dsa_scenario.specs.Worked.{document_text};
ghost use Rattle.dsa_check.specs.declared.fields.Key.{Key};
ghost use Rattle.dsa_scenario.specs.declared.fields.Form.TheVariants as form;
ghost use Rattle.dsa_check.specs.declared.fields.Found.TheVariants as found;
ghost use Rattle.dsa_check.specs.declared.finding.{Finding.{Finding}, Reason.{Reason}};
ghost use Rattle.dsa_check.specs.declared.finding.Reason.TheVariants.{Missing, Misspelled, Unfit};
ghost use Rattle.dsa_check.specs.declared.finding.Reason.TheVariants.{OddDigits, ManyDigits};
ghost use Rattle.dsa_check.specs.declared.finding.Reason.TheVariants.{NoDigit, NoObject};
ghost use Rattle.dsa_check.specs.declared.finding.Reason.TheVariants.{UnknownKind, NotUtf8};
ghost use Rattle.dsa_check.specs.declared.finding.Reason.TheVariants.{Stray, Syntax};
ghost use Rattle.dsa_scenario.specs.declared.actions.StepKind.TheVariants.{Queue, Enqcmd, Fetch, Finish, Poll};
ghost use Rattle.dsa_check.specs.declared.syntax.Piece.TheVariants.{End, LineBreak, Tab, Control};
ghost use Rattle.dsa_check.specs.declared.syntax.Piece.TheVariants.{Character, ByteOrderMark, Told};
ghost use Rattle.dsa_check.specs.declared.syntax.Piece.TheVariants.{Text, Number, Word};
ghost use Rattle.dsa_check.specs.declared.syntax.Syntax.TheVariants.{TooDeep, CommaBefore, Comment, Unwanted};
ghost use Rattle.dsa_check.specs.declared.syntax.Wanted.TheVariants as wanted;
ghost use Rattle.dsa_check.specs.Findings.{AreDocumentReasons, IsNowhere, IsFindingOf, IsFindingIn};
ghost use Rattle.dsa_check.specs.Findings.{TellsWhy, Appends, AppendsAll};
ghost use Rattle.dsa_check.specs.Judgement.{capacity_at, faults_of_value, fault_of_head};
ghost use Rattle.dsa_check.specs.Judgement.{fault_of_step, caps_faults, capacity_faults};
ghost use Rattle.dsa_check.specs.Judgement.{AreFaultsOf, IsRight};
ghost use Rattle.dsa_check.specs.declared.checking.CheckForm.TheVariants.{Lines, Json, Source};
ghost use Rattle.dsa_check.specs.Check.{IsCheckReportOf, too_long_text};
ghost use Rattle.dsa_check.specs.Lines.{key_text, form_text, found_text, wanted_of, piece_text};
ghost use Rattle.dsa_check.specs.Lines.{wanted_text, syntax_text, no_kind_text, reason_text};
ghost use Rattle.dsa_check.specs.Lines.{fault_part_text, own_place_text, spot_text, said_text};
ghost use Rattle.dsa_check.specs.Places.{line_after, column_after, IsSpot, BeginJson, IsShallow};
ghost use Rattle.dsa_check.specs.Places.{AreTextOf, BeginsOnLine};
ghost use Rattle.dsa_check.specs.Reasons.{is_asked, is_between, is_of_form, is_plain, has_caps};
ghost use Rattle.dsa_check.specs.Reasons.{is_step, kind_row, found_number, found_of, digits_reason};
ghost use Rattle.dsa_check.specs.Reasons.{text_reason, IsReasonOf, IsStrayKey, HasStrayKey};
ghost use Rattle.dsa_check.specs.Reasons.{IsKindReason, AreReasonsOf, AreStepReasons};
ghost use Rattle.dsa_scenario.specs.{Fields.{bits}, Actions.{kinds, rows_of_kind, names_text}};
ghost use Rattle.dsa_check.specs.Tables.{document_rows, caps_rows, device_rows, history_rows};
ghost use Rattle.dsa_check.specs.Worked.{plain_check, strict_check, IsNoReason, IsUntold};
ghost use Rattle.dsa_check.specs.Worked.{right_document, unfit_keys, unfit_keys_of, key_of_caps};
ghost use Rattle.dsa_check.specs.Worked.{found_at, document_of_slots, document_of_null};
ghost use Rattle.dsa_check.specs.Worked.{key_of_a_step, document_without_slots, right_text};

/// Each part of a document has its fault; the others are looked at also where one is missing.
pub fn faults_of_each_part()
    ensures none { faults_of_value (object_of right_document) ≡ [] }
    ensures no_object { faults_of_value null ≡ BadDocument ∷ [] }
    ensures no_capacity { faults_of_value
        (object_of (fields_without (codes "capacity") right_document))
        ≡ BadDocument ∷ [] }
    ensures no_list { faults_of_value (changed (codes "steps") (whole 1) right_document)
        ≡ BadDocument ∷ [] }
    ensures caps { faults_of_value
        (changed (codes "caps") (changed (codes "queues") (whole 65) some_caps) right_document)
        ≡ BadCaps ∷ [] }
    ensures bound { faults_of_value (changed (codes "capacity") (whole 1048576) right_document)
        ≡ [] }
    ensures capacity { faults_of_value (changed (codes "capacity") (whole 1048577) right_document)
        ≡ BadCapacity ∷ [] }
    ensures steps { faults_of_value
        (changed (codes "steps")
        (array (item null (item (object_of poll_step) (item (whole 1) no_items))))
        right_document)
        ≡ BadStep 0 ∷ BadStep 2 ∷ [] }
{}

/// Faults come in the order of a run.
pub fn faults_in_order()
    ensures without_caps { faults_of_value
        (object_of
        ((codes "capacity", whole 1048577)
        ∷ (codes "steps", array (item null (item null no_items)))
        ∷ []))
        ≡ BadDocument ∷ BadStep 0 ∷ BadStep 1 ∷ BadCapacity ∷ [] }
    ensures three { faults_of_value
        (object_of
        ((codes "caps", changed (codes "queues") (whole 65) some_caps)
        ∷ (codes "capacity", whole 1048577)
        ∷ (codes "steps", array (item null no_items))
        ∷ []))
        ≡ BadStep 0 ∷ BadCaps ∷ BadCapacity ∷ [] }
{}

/// The keys of a step whose value is not allowed: none for a valid step. For steps with digits a
/// law says so (`crate::tables`).
pub fn keys_of_steps()
    ensures queue { unfit_keys_of queue_step ≡ Some [] }
    ensures group { unfit_keys_of group_step ≡ Some [] }
    ensures dispatch { unfit_keys_of dispatch_step ≡ Some [] }
    ensures start { unfit_keys_of start_step ≡ Some [] }
    ensures finish { unfit_keys_of finish_step ≡ Some [] }
    ensures command { unfit_keys_of command_step ≡ Some [] }
    ensures clear { unfit_keys_of clear_step ≡ Some [] }
    ensures none { unfit_keys_of [] ≡ None }
    ensures bound { unfit_keys (changed (codes "priority") (whole 255) queue_step)
        (rows_of_kind Queue)
        ≡ [] }
    ensures past { unfit_keys (changed (codes "priority") (whole 256) queue_step)
        (rows_of_kind Queue)
        ≡ codes "priority" ∷ [] }
    ensures two { unfit_keys
        (changed (codes "desc") (string (codes "000"))
        (fields_without (codes "pasid") enqcmd_step))
        (rows_of_kind Enqcmd)
        ≡ codes "pasid" ∷ codes "desc" ∷ [] }
    ensures all { unfit_keys (object_of (step_of_kind (codes "finish") [])) (rows_of_kind Finish)
        ≡ codes "engine" ∷ codes "name" ∷ codes "fault" ∷ [] }
{}

/// The same of caps: those of a document's fields, and those of a device.
pub fn keys_of_caps()
    ensures fields { unfit_keys (changed (codes "queues") (whole 65) some_caps) caps_rows ≡ [] }
    ensures past { unfit_keys (changed (codes "queues") (whole 65536) some_caps) caps_rows
        ≡ codes "queues" ∷ [] }
    ensures device { unfit_keys (changed (codes "queues") (whole 65) some_caps) device_rows
        ≡ codes "queues" ∷ [] }
    ensures least { unfit_keys (changed (codes "slots") (whole 0) some_caps) device_rows
        ≡ codes "slots" ∷ [] }
    ensures no_shift { unfit_keys (changed (codes "max_xfer_shift") (whole 0) some_caps) device_rows
        ≡ [] }
{}

/// The keys that a kind is asked for.
pub fn keys_asked()
    ensures kind { is_asked (rows_of_kind Poll) (codes "do") ≡ true }
    ensures key { is_asked (rows_of_kind Fetch) (codes "desc") ≡ true }
    ensures capital { is_asked (rows_of_kind Fetch) (codes "Desc") ≡ false }
    ensures other { is_asked (rows_of_kind Poll) (codes "desc") ≡ false }
{}

/// Reasons that are so of what stands at a key.
pub fn reasons_that_are_so()
    ensures missing { (key : Key) → IsReasonOf key (bits 8) None (Missing key) }
    ensures past { (key : Key)
        → IsReasonOf key (bits 8) (Some (whole 256)) (Unfit key (found.Whole 256) (bits 8)) }
    ensures odd { (key : Key)
        → IsReasonOf key form.Digits (Some (string (codes "000"))) (OddDigits key 3) }
    ensures letter { (key : Key)
        → IsReasonOf key form.Digits (Some (string (codes "0g"))) (NoDigit key 2) }
    ensures digits { (key : Key) → map (digits_reason key)
        ([] ∷ codes "00" ∷ codes "000" ∷ codes "0g0" ∷ codes "g" ∷ codes "0:" ∷ [])
        ≡ None ∷ None ∷ Some (OddDigits key 3) ∷ Some (NoDigit key 2) ∷ Some (NoDigit key 1)
        ∷ Some (NoDigit key 2) ∷ [] }
    ensures bound { (key : Key) → map (λ count. digits_reason key (replicate count 48))
        (127 ∷ 128 ∷ 129 ∷ 130 ∷ [])
        ≡ Some (OddDigits key 127) ∷ None ∷ Some (ManyDigits key 129) ∷ Some (ManyDigits key 130)
        ∷ [] }
    ensures no_digits { (key : Key) → map (λ wanted. text_reason key wanted (Some (codes "000")))
        (form.Digits ∷ form.Text ∷ form.Whole 0 9 ∷ form.Bounded 9 0 9 ∷ form.Truth ∷ form.Array
        ∷ form.Object ∷ [])
        ≡ Some (OddDigits key 3) ∷ None ∷ None ∷ None ∷ None ∷ None ∷ None ∷ [] }
    ensures item { AreStepReasons null (NoObject found.Null ∷ []) }
{}

/// Reasons that are not.
pub fn reasons_that_are_not_so()
    ensures there { IsNoReason (bits 8) (Some (whole 256)) (λ key. Missing key) }
    ensures nothing { IsNoReason (bits 8) None (λ key. Unfit key found.Null (bits 8)) }
    ensures number { IsNoReason (bits 8) (Some (whole 256))
        (λ key. Unfit key (found.Whole 255) (bits 8)) }
    ensures form { IsNoReason (bits 8) (Some (whole 256))
        (λ key. Unfit key (found.Whole 256) (bits 16)) }
    ensures even { IsNoReason form.Digits (Some (string (codes "00"))) (λ key. OddDigits key 2) }
    ensures count { IsNoReason form.Digits (Some (string (codes "000"))) (λ key. OddDigits key 1) }
    ensures few { IsNoReason form.Digits (Some (string (codes "000"))) (λ key. ManyDigits key 3) }
    ensures before { IsNoReason form.Digits (Some (string (codes "0g"))) (λ key. NoDigit key 1) }
    ensures no_digits { IsNoReason form.Text (Some (string (codes "0g"))) (λ key. NoDigit key 2) }
    ensures odd_and_many { IsNoReason form.Digits (Some (string (replicate 129 48)))
        (λ key. OddDigits key 129) }
    ensures odd_and_a_letter { IsNoReason form.Digits (Some (string (codes "0g0")))
        (λ key. OddDigits key 3) }
    ensures no_value { IsNoReason form.Digits (Some (string (codes "000")))
        (λ key. Unfit key found.Text form.Digits) }
    ensures a_text { (key : Key)
        → IsKindReason (object_of (step_of_kind (codes "polls") []))
        (Unfit key found.Text form.Text)
        → ⊥ }
    ensures first { (key : Key)
        → AreReasonsOf (object_of []) (rows_of_kind Finish) false (Missing key ∷ [])
        → ⊥ }
    ensures right { (key : Key)
        → AreReasonsOf (object_of finish_step) (rows_of_kind Finish) false (Missing key ∷ [])
        → ⊥ }
    ensures silent { AreStepReasons null [] → ⊥ }
    ensures untold { IsKindReason (object_of (step_of_kind (codes "polls") []))
        (UnknownKind None (Some Poll))
        → ⊥ }
    ensures known { IsKindReason (object_of poll_step) (UnknownKind None None) → ⊥ }
{}

/// The keys of a document, of its caps, of a device and of a history.
pub fn tables_of_documents()
    ensures document { document_rows
        ≡ (codes "caps", form.Object)
        ∷ (codes "capacity", form.Bounded 18446744073709551615 0 1048576)
        ∷ (codes "steps", form.Array) ∷ [] }
    ensures caps { caps_rows
        ≡ (codes "queues", form.Bounded 65535 1 64) ∷ (codes "groups", form.Bounded 65535 1 8)
        ∷ (codes "engines", form.Bounded 65535 1 64)
        ∷ (codes "total_size", form.Bounded 65535 1 4096)
        ∷ (codes "read_buffers", form.Bounded 65535 1 255)
        ∷ (codes "slots", form.Bounded 65535 1 16)
        ∷ (codes "max_batch_shift", form.Bounded 255 1 10)
        ∷ (codes "max_xfer_shift", form.Bounded 255 0 31) ∷ [] }
    ensures device { device_rows
        ≡ (codes "queues", form.Whole 1 64) ∷ (codes "groups", form.Whole 1 8)
        ∷ (codes "engines", form.Whole 1 64) ∷ (codes "total_size", form.Whole 1 4096)
        ∷ (codes "read_buffers", form.Whole 1 255) ∷ (codes "slots", form.Whole 1 16)
        ∷ (codes "max_batch_shift", form.Whole 1 10) ∷ (codes "max_xfer_shift", form.Whole 0 31)
        ∷ [] }
    ensures history { history_rows ≡ (codes "capacity", form.Whole 0 1048576) ∷ [] }
    ensures kind { kind_row ≡ (codes "do", form.Text) }
{}

/// The faults of the parts of a document, at the bounds.
pub fn faults_of_parts()
    ensures no_head { fault_of_head None ≡ BadDocument ∷ [] }
    ensures bad_step { fault_of_step 7 None ≡ BadStep 7 ∷ [] }
    ensures no_caps { caps_faults None ≡ [] }
    ensures no_capacity { capacity_faults None ≡ [] }
    ensures most { capacity_faults (Some 1048576) ≡ [] }
    ensures past { capacity_faults (Some 1048577) ≡ BadCapacity ∷ [] }
{}

/// Numbers between two, texts that can be told as they stand, and numbers as they are told.
pub fn plain_texts_and_numbers()
    ensures between { map (is_between 3 9) (None ∷ Some 2 ∷ Some 3 ∷ Some 9 ∷ Some 10 ∷ [])
        ≡ false ∷ false ∷ true ∷ true ∷ false ∷ [] }
    ensures plain { map is_plain
        ([] ∷ replicate 40 65 ∷ replicate 41 65 ∷ (65 ∷ 31 ∷ []) ∷ (32 ∷ 65 ∷ []) ∷ (65 ∷ 126 ∷ [])
        ∷ (127 ∷ 65 ∷ []) ∷ [])
        ≡ true ∷ true ∷ false ∷ false ∷ true ∷ true ∷ false ∷ [] }
    ensures whole { found_number (Some 5) (Some (negsuc 2)) ≡ found.Whole 5 }
    ensures below { found_number None (Some (negsuc 2)) ≡ found.Below (negsuc 2) }
    ensures neither { found_number None None ≡ found.Number }
    ensures found { map found_of
        (null ∷ boolean true ∷ string [] ∷ array no_items ∷ object_of [] ∷ whole 7 ∷ [])
        ≡ found.Null ∷ found.Truth true ∷ found.Text ∷ found.Array ∷ found.Object ∷ found.Whole 7
        ∷ [] }
    ensures step { map is_step
        (object_of poll_step ∷ object_of queue_step ∷ object_of [] ∷ null ∷ [])
        ≡ true ∷ true ∷ false ∷ false ∷ [] }
    ensures caps { map has_caps (Some (object_of some_caps) ∷ Some (object_of []) ∷ None ∷ [])
        ≡ true ∷ false ∷ false ∷ [] }
    ensures lines { map line_after ([] ∷ (65 ∷ []) ∷ (65 ∷ 10 ∷ 66 ∷ 10 ∷ []) ∷ [])
        ≡ 1 ∷ 1 ∷ 3 ∷ [] }
    ensures columns { map column_after
        ([] ∷ (65 ∷ []) ∷ (10 ∷ []) ∷ (65 ∷ 10 ∷ 66 ∷ 9 ∷ []) ∷ [])
        ≡ 1 ∷ 2 ∷ 1 ∷ 3 ∷ [] }
{}

/// What may stand at a key, what stands there, and what is wanted in its place.
#[tactic(auto, unfolding(dsa_scenario::specs::Worked::digits_on_literals))]
pub fn texts_of_values()
    ensures forms { map form_text
        (form.Whole 1 20 ∷ form.Bounded 99 3 40 ∷ form.Truth ∷ form.Text ∷ form.Digits ∷ form.Array
        ∷ form.Object ∷ [])
        ≡ codes "a whole number from 1 to 20" ∷ codes "a whole number from 3 to 40"
        ∷ codes "true or false" ∷ codes "a text" ∷ codes "a text of hexadecimal digits"
        ∷ codes "an array" ∷ codes "an object" ∷ [] }
    ensures found { map found_text
        (found.Null ∷ found.Truth true ∷ found.Truth false ∷ found.Whole 12 ∷ found.Below (negsuc 4)
        ∷ found.Number ∷ found.Text ∷ found.Array ∷ found.Object ∷ [])
        ≡ codes "null" ∷ codes "true" ∷ codes "false" ∷ codes "12" ∷ codes "-5"
        ∷ codes "a number with a sign, a fraction, an exponent or past 64 bits" ∷ codes "a text"
        ∷ codes "an array" ∷ codes "an object" ∷ [] }
    ensures wanted { map (λ found. wanted_of found (form.Whole 1 20))
        (found.Whole 21 ∷ found.Whole 20 ∷ found.Whole 0 ∷ found.Below (negsuc 4) ∷ found.Null ∷ [])
        ≡ codes "at most 20" ∷ codes "at least 1" ∷ codes "at least 1" ∷ codes "at least 1"
        ∷ codes "a whole number from 1 to 20" ∷ [] }
    ensures of_a_device { map (λ found. wanted_of found (form.Bounded 99 3 40))
        (found.Whole 41 ∷ found.Whole 2 ∷ found.Null ∷ [])
        ≡ codes "at most 40" ∷ codes "at least 3" ∷ codes "a whole number from 3 to 40" ∷ [] }
    ensures other { map (wanted_of (found.Whole 0)) (form.Truth ∷ form.Text ∷ [])
        ≡ codes "true or false" ∷ codes "a text" ∷ [] }
    ensures keys { map key_text (key_of_caps ∷ key_of_a_step ∷ [])
        ≡ codes "\"slots\" of \"caps\"" ∷ codes "\"desc\"" ∷ [] }
{}

/// What stands at a place of a text that is no JSON, and what may stand there.
#[tactic(auto, unfolding(dsa_scenario::specs::Worked::digits_on_literals))]
pub fn texts_of_places()
    ensures pieces { map piece_text
        (End ∷ LineBreak ∷ Tab ∷ Control ∷ Character ∷ ByteOrderMark ∷ Text ∷ Number ∷ Word ∷ [])
        ≡ codes "the end is here" ∷ codes "a line break stands here"
        ∷ codes "a tab stands here" ∷ codes "a control character stands here"
        ∷ codes "a character beyond ASCII stands here" ∷ codes "a byte order mark stands here"
        ∷ codes "a text stands here" ∷ codes "a number stands here" ∷ codes "a word stands here"
        ∷ [] }
    ensures told { (text : String Global)
        → piece_text (Told text) ≡ string_bytes text ++ codes " stands here" }
    ensures values { map wanted_text
        (wanted.Document ∷ wanted.Value ∷ wanted.Item ∷ wanted.FirstItem ∷ wanted.FirstKey
        ∷ wanted.Key ∷ wanted.Colon ∷ wanted.More true ∷ wanted.More false
        ∷ wanted.Closing true 2 13 ∷ wanted.Closing false 4 15 ∷ wanted.Nothing ∷ wanted.Word ∷ [])
        ≡ codes "an object" ∷ codes "a value" ∷ codes "a value" ∷ codes "a value or ]"
        ∷ codes "a key in double quotes or }" ∷ codes "a key in double quotes" ∷ codes "a colon"
        ∷ codes "a comma or ]" ∷ codes "a comma or }" ∷ codes "a ] for the [ of line 2, column 13"
        ∷ codes "a } for the { of line 4, column 15" ∷ codes "the end"
        ∷ codes "true, false, null or a text in double quotes" ∷ [] }
    ensures numbers_and_texts { map wanted_text
        (wanted.Digit ∷ wanted.NoZero ∷ wanted.InRange ∷ wanted.DoubleQuote ∷ wanted.Quote 6 17
        ∷ wanted.Escaped ∷ wanted.Escape ∷ wanted.HexDigit ∷ wanted.Pair ∷ wanted.Depth ∷ [])
        ≡ codes "a digit" ∷ codes "a number with no 0 before its other digits"
        ∷ codes "a number that floats of 64 bits reach" ∷ codes "a double quote"
        ∷ codes "a double quote for the text of line 6, column 17"
        ∷ codes "a double quote or an escape" ∷ codes "one of \" \\ / b f n r t u"
        ∷ codes "a hexadecimal digit" ∷ codes "a whole surrogate pair" ∷ codes "less nesting" ∷ [] }
    ensures syntax { map syntax_text
        (TooDeep ∷ CommaBefore (record { ref_ptr = (0, 0); now = codes "]" }) ∷ Comment
        ∷ Unwanted Tab wanted.Colon ∷ [])
        ≡ codes "nested more than 127 deep" ∷ codes "a comma before ]"
        ∷ codes "a comment, of which JSON has none"
        ∷ codes "a tab stands here, a colon is wanted" ∷ [] }
{}

/// The reasons in words.
#[tactic(auto, unfolding(dsa_scenario::specs::Worked::digits_on_literals))]
pub fn texts_of_reasons()
    ensures keys { map reason_text
        (Missing key_of_caps ∷ Unfit key_of_a_step found.Null form.Digits
        ∷ OddDigits key_of_a_step 3
        ∷ OddDigits key_of_a_step 1 ∷ ManyDigits key_of_a_step 130 ∷ NoDigit key_of_a_step 4 ∷ [])
        ≡ codes "\"slots\" of \"caps\" is missing"
        ∷ codes "\"desc\" is null, a text of hexadecimal digits is wanted"
        ∷ codes "\"desc\" has 3 digits, an even number is wanted"
        ∷ codes "\"desc\" has 1 digit, an even number is wanted"
        ∷ codes "\"desc\" has 130 digits, at most 128 are wanted"
        ∷ codes "\"desc\" has no hexadecimal digit at character 4" ∷ [] }
    ensures objects { map reason_text
        (NoObject found.Text ∷ UnknownKind None None ∷ NotUtf8 ∷ Syntax TooDeep ∷ [])
        ≡ codes "a text stands here, an object is wanted" ∷ codes "\"do\" names no kind of step"
        ∷ codes "the bytes are no UTF-8" ∷ codes "nested more than 127 deep" ∷ [] }
    ensures misspelled { (text : String Global)
        → reason_text (Misspelled key_of_a_step text)
        ≡ codes "\"desc\" is missing, and \"" ++ (string_bytes text ++ codes "\" is no key here") }
    ensures stray { (text : String Global)
        → reason_text (Stray (Some text) (Some (record { ref_ptr = (0, 0); now = codes "slots" })))
        ≡ codes "\"" ++ (string_bytes text ++ codes "\" is no key here, but \"slots\" is") }
    ensures near { (text : String Global)
        → no_kind_text (Some text) (Some Poll)
        ≡ codes "\"do\" is \""
        ++ (string_bytes text ++ codes "\", which is no kind of step, but \"poll\" is") }
    ensures unknown { (text : String Global)
        → no_kind_text (Some text) None
        ≡ codes "\"do\" is \""
        ++ (string_bytes text ++ (codes "\", none of " ++ names_text kinds)) }
{}

/// The report on a document that is too long.
#[tactic(auto, unfolding(json::specs::Print::print_from, json::specs::Print::escape_byte))]
pub fn texts_of_long_documents()
    ensures lines { map too_long_text (Lines ∷ Source false ∷ Source true ∷ [])
        ≡ replicate 3 (codes "document too long: it has more than 1048576 bytes\n") }
    ensures json { too_long_text Json
        ≡ codes "{\"part\":\"text\",\"level\":\"fault\","
        ++ codes "\"reason\":\"it has more than 1048576 bytes\"}\n" }
{}

/// Where a fault is, in words, and its line.
#[tactic(auto, unfolding(dsa_scenario::specs::Worked::digits_on_literals))]
pub fn texts_of_findings()
    ensures parts { map (λ fault. fault_part_text fault (Some Poll))
        (NotJson ∷ BadDocument ∷ BadStep 3 ∷ BadCaps ∷ BadCapacity ∷ Read ∷ [])
        ≡ codes "not JSON: " ∷ codes "document: " ∷ codes "step 3 (poll): " ∷ codes "caps: "
        ∷ codes "capacity: " ∷ [] ∷ [] }
    ensures no_kind { fault_part_text (BadStep 3) None ≡ codes "step 3: " }
    ensures place { (reasons : Vec Reason Global)
        → own_place_text (found_at (Some 2) (Some 15) reasons) ≡ codes "line 2, column 15: " }
    ensures line { (reasons : Vec Reason Global)
        → spot_text (found_at (Some 2) None reasons) None ≡ codes "line 2, " }
    ensures spot { (reasons : Vec Reason Global)
        → spot_text (found_at (Some 2) None reasons)
        (Some (record { at = 40; line = 3; column = 15 }))
        ≡ codes "line 3, column 15, " }
    ensures flaw { (reasons : Vec Reason Global)
        → spot_text (record (found_at None None reasons) { fault = NotJson })
        (Some (record { at = 40; line = 3; column = 15 }))
        ≡ codes "line 3, column 15: " }
    ensures told { (reasons : Vec Reason Global)
        → said_text false (found_at None None reasons) (Some NotUtf8) None
        ≡ codes "capacity: the bytes are no UTF-8\n" }
    ensures bare { (reasons : Vec Reason Global)
        → said_text false (found_at None None reasons) None None
        ≡ codes "capacity: not understood\n" }
{}

/// A place in a text, with its line and its column.
pub fn places_in_texts()
    ensures last { IsSpot (65 ∷ 10 ∷ 66 ∷ 67 ∷ []) (record { at = 4; line = 2; column = 3 }) }
    ensures later { IsSpot (65 ∷ 66 ∷ 10 ∷ 67 ∷ []) (record { at = 4; line = 2; column = 2 }) }
    ensures beyond { IsSpot (65 ∷ 10 ∷ 66 ∷ 67 ∷ []) (record { at = 5; line = 2; column = 3 }) → ⊥ }
    ensures line { IsSpot (65 ∷ 10 ∷ 66 ∷ 67 ∷ []) (record { at = 4; line = 1; column = 3 }) → ⊥ }
    ensures column { IsSpot (65 ∷ 10 ∷ 66 ∷ 67 ∷ []) (record { at = 4; line = 2; column = 4 })
        → ⊥ }
{}

/// What may stand at a key, by its form, and a capacity that the document's field holds.
pub fn values_of_forms()
    ensures bounded { map (is_of_form (form.Bounded 9 3 5)) (whole 0 ∷ whole 9 ∷ whole 10 ∷ [])
        ≡ true ∷ true ∷ false ∷ [] }
    ensures truth { map (is_of_form form.Truth) (boolean false ∷ null ∷ []) ≡ true ∷ false ∷ [] }
    ensures text { map (is_of_form form.Text) (string [] ∷ null ∷ []) ≡ true ∷ false ∷ [] }
    ensures array { map (is_of_form form.Array) (array no_items ∷ object_of [] ∷ [])
        ≡ true ∷ false ∷ [] }
    ensures object { map (is_of_form form.Object) (array no_items ∷ object_of [] ∷ [])
        ≡ false ∷ true ∷ [] }
    ensures largest { capacity_at
        (changed (codes "capacity") (whole 18446744073709551615) right_document)
        ≡ Some 18446744073709551615 }
    ensures too_large { capacity_at
        (changed (codes "capacity") (whole 18446744073709551616) right_document)
        ≡ None }
{}

/// A key that nobody asks for, and what is told of one.
pub fn stray_keys()
    ensures stray { IsStrayKey (object_of ((codes "stop", null) ∷ [])) [] (codes "stop") }
    ensures outside { IsStrayKey (object_of []) [] (codes "stop") → ⊥ }
    ensures asked { IsStrayKey (object_of ((codes "do", null) ∷ [])) [] (codes "do") → ⊥ }
    ensures line_feed { IsStrayKey (object_of ((codes "a\n", null) ∷ [])) [] (codes "a\n") → ⊥ }
    ensures told { (key : Key) (text : String Global)
        → HasStrayKey (object_of []) [] (Misspelled key text)
        → ⊥ }
    ensures other_reason { (key : Key) → HasStrayKey (object_of []) [] (Missing key) }
{}

/// Reasons of digits at their bound, and reasons that tell another key.
pub fn reasons_at_keys()
    ensures many { (key : Key)
        → IsReasonOf key form.Digits (Some (string (replicate 129 48))) (ManyDigits key 129) }
    ensures most { (key : Key)
        → IsReasonOf key form.Digits (Some (string (replicate 128 48))) (ManyDigits key 128)
        → ⊥ }
    ensures more { (key : Key)
        → IsReasonOf key form.Digits (Some (string (replicate 130 48))) (ManyDigits key 129)
        → ⊥ }
    ensures many_at_another { IsReasonOf key_of_caps form.Digits
        (Some (string (replicate 129 48)))
        (ManyDigits key_of_a_step 129)
        → ⊥ }
    ensures odd_at_another { IsReasonOf key_of_caps form.Digits
        (Some (string (codes "000")))
        (OddDigits key_of_a_step 3)
        → ⊥ }
    ensures letter_at_another { IsReasonOf key_of_caps form.Digits
        (Some (string (codes "0g")))
        (NoDigit key_of_a_step 2)
        → ⊥ }
    ensures value_at_another { IsReasonOf key_of_caps (bits 8)
        (Some (whole 256))
        (Unfit key_of_a_step (found.Whole 256) (bits 8))
        → ⊥ }
    ensures misspelled { (key : Key) (text : String Global)
        → IsReasonOf key (bits 8) None (Misspelled key text) }
    ensures misspelled_at_another { (text : String Global)
        → IsReasonOf key_of_caps (bits 8) None (Misspelled key_of_a_step text)
        → ⊥ }
{}

/// Why a part of a document has its fault.
pub fn reasons_of_parts()
    ensures document { (finding : Finding)
        → IsNowhere finding.place
        → finding.reasons.items ≡ NoObject found.Null ∷ []
        → TellsWhy [] null finding BadDocument }
    ensures untold_document { IsUntold null BadDocument }
    ensures caps { (finding : Finding) (key : Key)
        → key.name.now ≡ codes "slots"
        → key.in_caps ≡ false
        → IsNowhere finding.place
        → finding.reasons.items ≡ Unfit key (found.Whole 17) (form.Whole 1 16) ∷ []
        → TellsWhy [] (document_of_slots 17) finding BadCaps }
    ensures untold_caps { IsUntold (document_of_slots 17) BadCaps }
    ensures capacity { (finding : Finding) (key : Key)
        → key.name.now ≡ codes "capacity"
        → key.in_caps ≡ false
        → IsNowhere finding.place
        → finding.reasons.items ≡ Unfit key (found.Whole 1048577) (form.Whole 0 1048576) ∷ []
        → TellsWhy [] (changed (codes "capacity") (whole 1048577) right_document) finding
        BadCapacity }
    ensures untold_capacity { IsUntold (changed (codes "capacity") (whole 1048577) right_document)
        BadCapacity }
    ensures step { (finding : Finding)
        → finding.place.kind ≡ None
        → IsNowhere finding.place
        → finding.reasons.items ≡ NoObject found.Null ∷ []
        → TellsWhy [] document_of_null finding (BadStep 0) }
    ensures untold_step { IsUntold document_of_null (BadStep 0) }
    ensures no_step { (finding : Finding)
        → TellsWhy [] document_of_null finding (BadStep 1)
        → ⊥ }
    ensures placed_document { (finding : Finding)
        → finding.place.line ≡ Some 1
        → TellsWhy [] null finding BadDocument
        → ⊥ }
    ensures placed_caps { (finding : Finding)
        → finding.place.column ≡ Some 1
        → TellsWhy [] (document_of_slots 17) finding BadCaps
        → ⊥ }
    ensures placed_capacity { (finding : Finding)
        → finding.place.line ≡ Some 1
        → TellsWhy [] (changed (codes "capacity") (whole 1048577) right_document) finding
        BadCapacity
        → ⊥ }
    ensures placed_step { (finding : Finding)
        → finding.place.column ≡ Some 1
        → TellsWhy [] document_of_null finding (BadStep 0)
        → ⊥ }
    ensures no_fault { (finding : Finding) → TellsWhy [] document_of_null finding NotJson → ⊥ }
{}

/// What is told of an item of the steps.
pub fn findings_of_steps()
    ensures of_the_item { (finding : Finding)
        → finding.fault ≡ BadStep 0
        → finding.place.kind ≡ None
        → IsNowhere finding.place
        → finding.reasons.items ≡ NoObject found.Null ∷ []
        → IsFindingOf [] 0 null finding }
    ensures of_another { (finding : Finding)
        → finding.fault ≡ BadStep 1
        → IsFindingOf [] 0 null finding
        → ⊥ }
    ensures of_a_kind { (finding : Finding)
        → finding.place.kind ≡ Some Poll
        → IsFindingOf [] 0 null finding
        → ⊥ }
    ensures of_one { (finding : Finding)
        → finding.fault ≡ BadStep 0
        → finding.place.kind ≡ None
        → IsNowhere finding.place
        → finding.reasons.items ≡ NoObject found.Null ∷ []
        → IsFindingIn [] (null ∷ []) finding }
    ensures of_none { (finding : Finding)
        → finding.fault ≡ BadStep 1
        → IsFindingIn [] (null ∷ []) finding
        → ⊥ }
    ensures of_one_of_a_kind { (finding : Finding)
        → finding.place.kind ≡ Some Poll
        → IsFindingIn [] (null ∷ []) finding
        → ⊥ }
{}

/// What is wrong with the keys of a document, of its caps and of a step.
pub fn reasons_of_keys()
    ensures document { (steps : Key) (slots : Key)
        → steps.name.now ≡ codes "steps"
        → steps.in_caps ≡ false
        → slots.name.now ≡ codes "slots"
        → slots.in_caps ≡ true
        → AreDocumentReasons document_without_slots (Missing steps ∷ Missing slots ∷ []) }
    ensures alone { (reason : Reason)
        → AreDocumentReasons document_without_slots (reason ∷ [])
        → ⊥ }
    ensures step { (key : Key)
        → key.name.now ≡ codes "word"
        → key.in_caps ≡ false
        → AreStepReasons (object_of (step_of_kind (codes "command") [])) (Missing key ∷ []) }
    ensures step_in_caps { (key : Key)
        → key.in_caps ≡ true
        → AreStepReasons (object_of (step_of_kind (codes "command") [])) (Missing key ∷ [])
        → ⊥ }
    ensures other_key { (key : Key)
        → key.name.now ≡ codes "slots"
        → AreStepReasons (object_of (step_of_kind (codes "command") [])) (Missing key ∷ [])
        → ⊥ }
    ensures other_reason { AreStepReasons (object_of (step_of_kind (codes "command") []))
        (NotUtf8 ∷ [])
        → ⊥ }
    ensures no_kind { (key : Key)
        → key.name.now ≡ codes "do"
        → key.in_caps ≡ false
        → AreStepReasons (object_of []) (Missing key ∷ []) }
    ensures misspelled_kind { (key : Key) (text : String Global)
        → AreStepReasons (object_of []) (Misspelled key text ∷ [])
        → ⊥ }
{}

/// What a list has got at its end.
pub fn additions()
    ensures added { Appends {X = ℕ} (λ more. more ≡ 2 ∷ []) (1 ∷ []) (1 ∷ 2 ∷ []) }
    ensures another { Appends {X = ℕ} (λ more. more ≡ 2 ∷ []) (1 ∷ []) (1 ∷ 3 ∷ []) → ⊥ }
    ensures no_front { Appends {X = ℕ} (λ more. more ≡ 2 ∷ []) (1 ∷ []) (2 ∷ []) → ⊥ }
    ensures each { AppendsAll {X = ℕ} (λ n. n ≡ 2) (1 ∷ []) (1 ∷ 2 ∷ 2 ∷ []) }
{}

/// Texts of JSON values, what such texts begin with, and the lines where values begin.
#[tactic(auto, unfolding(serde_json::proofs::OnLiterals::serde_json_on_literals))]
pub fn texts_of_json()
    ensures text { AreTextOf (whole 1) (codes "1") }
    ensures after_a_blank { AreTextOf (whole 1) (codes " 1") → ⊥ }
    ensures other_value { AreTextOf null (codes "1") → ⊥ }
    ensures begun { BeginJson (codes "[") }
    ensures closed { BeginJson (codes "]") → ⊥ }
    ensures deep { (d : Data) → depth d ≡ 127 → IsShallow d }
    ensures too_deep { (d : Data) → depth d ≡ 128 → IsShallow d → ⊥ }
    ensures first_line { BeginsOnLine (codes "1") (whole 1) 1 }
    ensures no_second_line { (d : Data) → BeginsOnLine (codes "1") d 2 → ⊥ }
{}

/// The faults of a text, and a document without one.
#[tactic(auto, unfolding(serde_json::proofs::OnLiterals::serde_json_on_literals))]
pub fn faults_of_texts()
    ensures no_json { AreFaultsOf (codes "{") (NotJson ∷ []) }
    ensures untold { AreFaultsOf (codes "{") [] → ⊥ }
    ensures number { AreFaultsOf (codes "1") (BadDocument ∷ []) }
    ensures json { AreFaultsOf (codes "1") (NotJson ∷ []) → ⊥ }
    ensures untold_number { AreFaultsOf (codes "1") [] → ⊥ }
    ensures right { IsRight right_text }
    ensures no_document { IsRight (codes "{}") → ⊥ }
    ensures no_device { IsRight (document_text no_caps_text (codes "9") []) → ⊥ }
    ensures report { IsCheckReportOf plain_check right_text None [] }
    ensures right_with_a_fault { IsCheckReportOf plain_check right_text (Some BadCaps) [] → ⊥ }
    ensures right_with_a_line { IsCheckReportOf plain_check right_text None (codes "1") → ⊥ }
    ensures warning_before_a_fault { (text : List ℕ)
        → IsCheckReportOf strict_check (codes "{\"caps\":{\"z\":0}}") (Some BadCaps) text
        → ⊥ }
    ensures second_untold { IsCheckReportOf plain_check
        (document_text no_caps_text (codes "1048577") [])
        (Some BadCaps)
        (codes "caps: \"queues\" is 0, at least 1 is wanted\n")
        → ⊥ }
{}
