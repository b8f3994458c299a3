//! Worked rows of what is wrong in a text.

ghost use Rattle.std.specs.Prelude.{◌≡◌, ◌++◌, ℕ, List, [], ◌∷◌, Option, Some, None, codes, map};
ghost use Rattle.std.specs.Prelude.{replicate, true, false, String, string_bytes};
ghost use Rattle.std.specs.declared.{alloc.Global.{Global}, vec.Vec.{Vec}};
ghost use Rattle.serde_json.specs.{Data.{Data, null}, Written.{has_float}};
ghost use Rattle.dsa_scenario.specs.Worked.{whole};
ghost use Rattle.dsa_check.specs.declared.fields.Found.TheVariants as found;
ghost use Rattle.dsa_check.specs.declared.finding.{Finding.{Finding}, Reason.TheVariants.{NoObject, NotUtf8, Syntax}};
ghost use Rattle.dsa_check.specs.declared.scan.Extent.{Extent};
ghost use Rattle.dsa_check.specs.declared.syntax.Piece.TheVariants.{End, LineBreak, Tab, Control};
ghost use Rattle.dsa_check.specs.declared.syntax.Piece.TheVariants.{Character, ByteOrderMark, Told};
ghost use Rattle.dsa_check.specs.declared.syntax.Piece.TheVariants.{Text, Number, Word};
ghost use Rattle.dsa_check.specs.declared.syntax.Syntax.TheVariants.{TooDeep, CommaBefore, Comment, Unwanted};
ghost use Rattle.dsa_check.specs.declared.syntax.Wanted.TheVariants as wanted;
ghost use Rattle.dsa_check.specs.Findings.{IsWrongAt, IsInText};
ghost use Rattle.dsa_check.specs.Flaws.{name_of_sign, name_of_long, IsToldAs, IsPieceAt};
ghost use Rattle.dsa_check.specs.Flaws.{example_of, IsWantedAfter, takes_text, end_of, GoesOnFrom};
ghost use Rattle.dsa_check.specs.Flaws.{IsOpenFrom, HasSignAt, IsBegunAt, openings_in, IsClosing};
ghost use Rattle.dsa_check.specs.Flaws.{EndWithComma, IsSyntaxAt};
ghost use Rattle.dsa_check.specs.OneLine.{flaw_text, IsFlawText};
ghost use Rattle.dsa_check.specs.{Places.{IsFoundBetween, IsToldWhereFound, extent_at}, Worked.{all_wanted}};

/// What is told of bytes by the first of them, and how what is wanted may begin.
pub fn names_of_signs()
    ensures signs { map (name_of_sign [])
        (9 ∷ 10 ∷ 13 ∷ 8 ∷ 11 ∷ 31 ∷ 32 ∷ 126 ∷ 127 ∷ 128 ∷ 255 ∷ [])
        ≡ Some Tab ∷ Some LineBreak ∷ Some LineBreak ∷ Some Control ∷ Some Control ∷ Some Control
        ∷ None ∷ None ∷ Some Control ∷ Some Character ∷ Some Character ∷ [] }
    ensures marks { map (λ bytes. name_of_sign bytes 239)
        ((239 ∷ 187 ∷ 191 ∷ 65 ∷ []) ∷ (239 ∷ 187 ∷ 190 ∷ []) ∷ (239 ∷ 186 ∷ 191 ∷ [])
        ∷ (238 ∷ 187 ∷ 191 ∷ []) ∷ (239 ∷ 187 ∷ []) ∷ [])
        ≡ Some ByteOrderMark ∷ Some Character ∷ Some Character ∷ Some Character ∷ Some Character
        ∷ [] }
    ensures long { map name_of_long (34 ∷ 45 ∷ 48 ∷ 57 ∷ 33 ∷ 44 ∷ 47 ∷ 58 ∷ 65 ∷ [])
        ≡ Text ∷ Number ∷ Number ∷ Number ∷ Word ∷ Word ∷ Word ∷ Word ∷ Word ∷ [] }
    ensures examples { map example_of all_wanted
        ≡ Some (codes "\"\"") ∷ Some (codes "\"\"") ∷ Some (codes "\"\"") ∷ Some (codes "\"\"")
        ∷ Some (codes "\"\":0") ∷ Some (codes "\"\":0") ∷ Some (codes ":0")
        ∷ Some (codes ",0") ∷ Some (codes ",\"\":0") ∷ Some (codes ",0") ∷ Some (codes ",\"\":0")
        ∷ None ∷ Some (codes "true") ∷ Some (codes "0") ∷ Some (codes "0") ∷ Some (codes "0")
        ∷ Some (codes "\"") ∷ Some (codes "\"") ∷ Some (codes "\"") ∷ Some (codes "n")
        ∷ Some (codes "0") ∷ Some (codes "\\ud800\\udc00") ∷ Some (codes "0") ∷ [] }
    ensures texts { map takes_text all_wanted
        ≡ true ∷ true ∷ true ∷ true ∷ true ∷ true ∷ false ∷ false ∷ false ∷ false ∷ false ∷ false
        ∷ false ∷ false ∷ false ∷ false ∷ false ∷ false ∷ false ∷ false ∷ false ∷ false ∷ false
        ∷ [] }
{}

/// What stands at the start of a text.
pub fn pieces_of_texts()
    ensures end { IsPieceAt [] End }
    ensures no_end { IsPieceAt (codes "1") End → ⊥ }
    ensures sign { IsPieceAt (codes "\t1") Tab }
    ensures other_sign { IsPieceAt (codes "\t1") LineBreak → ⊥ }
    ensures untold_sign { (text : String Global) → IsPieceAt (codes "\t1") (Told text) → ⊥ }
    ensures told { (text : String Global)
        → string_bytes text ≡ codes "12"
        → IsPieceAt (codes "12,") (Told text) }
    ensures other_text { (text : String Global)
        → string_bytes text ≡ codes "3"
        → IsPieceAt (codes "12,") (Told text)
        → ⊥ }
    ensures no_text { (text : String Global)
        → string_bytes text ≡ []
        → IsPieceAt (codes "12,") (Told text)
        → ⊥ }
    ensures not_plain { (text : String Global) → IsToldAs (codes "1\n") 49 (Told text) → ⊥ }
    ensures number { IsPieceAt (codes "12,") Number }
    ensures no_word { IsPieceAt (codes "12,") Word → ⊥ }
{}

/// What may stand at a place, and where what has to end begins.
#[tactic(auto, unfolding(serde_json::proofs::OnLiterals::serde_json_on_literals))]
pub fn wanted_at_places()
    ensures colon { IsWantedAfter (codes "{\"\"") wanted.Colon }
    ensures no_colon { IsWantedAfter (codes "[") wanted.Colon → ⊥ }
    ensures ended { IsWantedAfter (codes "1") wanted.Nothing }
    ensures not_ended { IsWantedAfter (codes "[") wanted.Nothing → ⊥ }
    ensures array { IsBegunAt (codes "\n [1") (wanted.Closing true 2 2) }
    ensures no_array { IsBegunAt (codes "{") (wanted.Closing true 1 1) → ⊥ }
    ensures object { IsBegunAt (codes "\n {\"\":0") (wanted.Closing false 2 2) }
    ensures no_object { IsBegunAt (codes "[") (wanted.Closing false 1 1) → ⊥ }
    ensures quote { IsBegunAt (codes "\n \"") (wanted.Quote 2 2) }
    ensures no_quote { IsBegunAt (codes "[") (wanted.Quote 1 1) → ⊥ }
    ensures another { IsBegunAt [] wanted.Colon }
    ensures other_line { HasSignAt (codes "[") 91 2 1 → ⊥ }
    ensures other_column { HasSignAt (codes "[") 91 1 2 → ⊥ }
{}

/// How what has begun ends, and where it goes on from.
#[tactic(auto, unfolding(serde_json::proofs::OnLiterals::serde_json_on_literals))]
pub fn open_places()
    ensures ends { map end_of (91 ∷ 123 ∷ 34 ∷ 90 ∷ 124 ∷ [])
        ≡ codes ",0]" ∷ codes ",\"\":0}" ∷ codes "\"" ∷ codes "\"" ∷ codes "\"" ∷ [] }
    ensures inner { GoesOnFrom (codes "[[1") 1 91 }
    ensures outer { GoesOnFrom (codes "[[1") 0 91 → ⊥ }
    ensures ended { GoesOnFrom (codes "[[],1") 1 91 → ⊥ }
    ensures other_end { GoesOnFrom (codes "[[1") 1 123 → ⊥ }
    ensures nothing { IsOpenFrom (codes "[1") 2 }
    ensures something { IsOpenFrom (codes "[[1") 0 → ⊥ }
    ensures begun_outside { IsBegunAt (codes "[[1") (wanted.Closing true 1 1) → ⊥ }
{}

/// The signs that close an array and an object.
pub fn closing_signs()
    ensures array { IsClosing (codes "]") 93 }
    ensures object { IsClosing (codes "}") 125 }
    ensures another { IsClosing (codes "]") 125 → ⊥ }
    ensures opening { IsClosing (codes "[") 91 → ⊥ }
{}

/// What is wrong at a place of a text.
#[tactic(auto, unfolding(serde_json::proofs::OnLiterals::serde_json_on_literals))]
pub fn wrong_places()
    ensures deep { (before : List ℕ)
        → openings_in before ≡ 127
        → IsWantedAfter before wanted.Depth
        → IsSyntaxAt before (codes "[") TooDeep }
    ensures less_deep { (before : List ℕ)
        → openings_in before ≡ 126
        → IsSyntaxAt before (codes "[") TooDeep
        → ⊥ }
    ensures no_bracket { (before : List ℕ) → IsSyntaxAt before (codes "1") TooDeep → ⊥ }
    ensures no_value { IsSyntaxAt (codes "]") (codes "[") TooDeep → ⊥ }
    ensures no_value_in_many { IsSyntaxAt (codes "]" ++ replicate 127 91) (codes "[") TooDeep → ⊥ }
    ensures openings { map openings_in (codes "[{]}" ∷ codes "\\|zZ" ∷ [])
        ≡ 2 ∷ 0 ∷ [] }
    ensures comma { IsSyntaxAt (codes "[1, ") (codes "]")
        (CommaBefore (record { ref_ptr = (0, 0); now = codes "]" })) }
    ensures other_bracket { IsSyntaxAt (codes "[1, ") (codes "]")
        (CommaBefore (record { ref_ptr = (0, 0); now = codes "}" }))
        → ⊥ }
    ensures before_a_number { IsSyntaxAt (codes "[1, ") (codes "1")
        (CommaBefore (record { ref_ptr = (0, 0); now = codes "1" }))
        → ⊥ }
    ensures no_comma { EndWithComma (codes "1") → ⊥ }
    ensures comment { IsSyntaxAt [] (codes "/") Comment }
    ensures no_comment { IsSyntaxAt [] (codes "1") Comment → ⊥ }
    ensures unwanted { IsSyntaxAt (codes "[") (12 ∷ []) (Unwanted Control wanted.FirstItem) }
    ensures other_piece { IsSyntaxAt (codes "[") (12 ∷ []) (Unwanted Tab wanted.FirstItem) → ⊥ }
    ensures other_wanted { IsSyntaxAt (codes "[") (12 ∷ []) (Unwanted Control wanted.Colon)
        → ⊥ }
    ensures other_place { IsSyntaxAt (codes "{\"\":0") (codes "]")
        (Unwanted Word (wanted.Closing false 2 1))
        → ⊥ }
{}

/// What is wrong in a text, and where.
#[tactic(auto, unfolding(serde_json::proofs::OnLiterals::serde_json_on_literals))]
pub fn wrong_texts()
    ensures utf8 { IsWrongAt (93 ∷ 255 ∷ []) 1 NotUtf8 }
    ensures earlier { IsWrongAt (93 ∷ 255 ∷ []) 0 NotUtf8 → ⊥ }
    ensures all_of_utf8 { IsWrongAt (codes "]") 1 NotUtf8 → ⊥ }
    ensures syntax { IsWrongAt (codes "[/") 1 (Syntax Comment) }
    ensures no_front { IsWrongAt (codes "]/") 1 (Syntax Comment) → ⊥ }
    ensures other_syntax { IsWrongAt (codes "[1") 1 (Syntax Comment) → ⊥ }
    ensures other_reason { IsWrongAt [] 0 (NoObject found.Null) → ⊥ }
    ensures place { (finding : Finding)
        → finding.place.line ≡ Some 1
        → finding.place.column ≡ Some 2
        → finding.reasons.items ≡ NotUtf8 ∷ []
        → IsInText (93 ∷ 255 ∷ []) finding }
    ensures twice { (finding : Finding)
        → finding.reasons.items ≡ Syntax Comment ∷ Syntax Comment ∷ []
        → IsInText (codes "/") finding
        → ⊥ }
    ensures untold { (finding : Finding)
        → finding.reasons.items ≡ []
        → IsInText (255 ∷ []) finding
        → ⊥ }
    ensures other_line { (finding : Finding)
        → finding.place.line ≡ Some 2
        → IsInText (codes "1") finding
        → ⊥ }
    ensures other_column { (finding : Finding)
        → finding.place.column ≡ Some 3
        → IsInText (codes "1") finding
        → ⊥ }
{}

/// What is told of one line that is no JSON.
#[tactic(auto, unfolding(dsa_scenario::specs::Worked::digits_on_literals))]
pub fn flaws_of_lines()
    ensures text { flaw_text 18 (Some NotUtf8) ≡ codes "column 18: the bytes are no UTF-8" }
    ensures unknown { flaw_text 1 None ≡ codes "column 1: not understood" }
    ensures unclosed { IsFlawText (codes "{")
        (codes "column 2: the end is here, a key in double quotes or } is wanted") }
    ensures empty { IsFlawText [] (codes "column 1: the end is here, an object is wanted") }
    ensures bytes { (text : List ℕ)
        → IsFlawText (255 ∷ []) text
        → text ≡ codes "column 1: the bytes are no UTF-8" }
{}

/// Where a step is found, and the line that is told then.
#[tactic(auto, unfolding(serde_json::proofs::OnLiterals::serde_json_on_literals))]
pub fn lines_of_steps()
    ensures found { IsFoundBetween (codes "\n1") (whole 1) 1 1 2 }
    ensures behind { IsFoundBetween (codes "\n1") (whole 1) 2 1 2 → ⊥ }
    ensures backwards { IsFoundBetween (codes "\n1") (whole 1) 0 2 1 → ⊥ }
    ensures outside { IsFoundBetween (codes "\n1") (whole 1) 0 1 3 → ⊥ }
    ensures float { (d : Data) → has_float d ≡ true → IsFoundBetween (codes "1") d 0 0 1 → ⊥ }
    ensures other_value { IsFoundBetween (codes "\n1") null 0 1 2 → ⊥ }
    ensures nowhere { (line : Option ℕ) → IsToldWhereFound (codes "\n1") (whole 1) 0 None line }
    ensures told { IsToldWhereFound (codes "\n1") (whole 1) 0
        (Some (record { begin = 1; end = 2 })) (Some 2) }
    ensures untold { IsToldWhereFound (codes "\n1") (whole 1) 0
        (Some (record { begin = 1; end = 2 })) None
        → ⊥ }
    ensures other_line { IsToldWhereFound (codes "\n1") (whole 1) 0
        (Some (record { begin = 1; end = 2 })) (Some 1)
        → ⊥ }
    ensures unknown { extent_at None 0 ≡ None }
    ensures known { (extents : Vec Extent Global) (first : Extent) (second : Extent)
        → extents.items ≡ first ∷ second ∷ []
        → extent_at (Some extents) 1 ≡ Some second }
{}
