//! Worked rows: what the definitions say of chosen steps, by computation.

ghost use Rattle.std.specs.Prelude.{◌≡◌, ◌++◌, [], ◌∷◌, None, Some, codes, false, map, true};
ghost use Rattle.serde_json.specs.{Data.{array, boolean, null}, View.{items_of}};
ghost use Rattle.dsa_regs.specs.declared.Scope.TheVariants.{Device};
ghost use Rattle.dsa_scenario.specs.Worked.{no_command};
ghost use Rattle.dsa_scenario.specs.declared.run.Record.TheVariants.{Refused};
ghost use Rattle.dsa_scenario.specs.Worked.{accepted, record_of_a_fetch, record_ticket, whole};
ghost use Rattle.dsa_expand.specs.Values.{number_below, or_default, place_in_set, set_of};
ghost use Rattle.dsa_expand.specs.Commands.{group_of, only_number, operand_said, word_said};
ghost use Rattle.dsa_expand.specs.Descriptors.{flags_with};
ghost use Rattle.dsa_expand.specs.Steps.{given_onto, is_friendly, is_said_by, known_name};
ghost use Rattle.dsa_expand.specs.Steps.{object_with, strict_set, strict_step, with_given};
ghost use Rattle.dsa_expand.specs.Single.{Itself, Strictly, StuckAt, sense_of};
ghost use Rattle.dsa_expand.specs.Expansion.{head_pairs, read_of, strict_document};
ghost use Rattle.dsa_expand.specs.Layout.{key_with_colon};
ghost use Rattle.dsa_expand.specs.Worked.{an_object, command_names, digits_said, finish_named};
ghost use Rattle.dsa_expand.specs.Worked.{list_with, movdir_with, operand_at, queues_at};
ghost use Rattle.dsa_expand.specs.Worked.{strict_finish, text, word_with, zeros};

/// Numbers, and sets of numbers.
pub fn of_values()
    ensures below { map (number_below 256) (whole 0 ∷ whole 255 ∷ whole 256 ∷ text [] ∷ null ∷ [])
        ≡ Some 0 ∷ Some 255 ∷ None ∷ None ∷ None ∷ [] }
    ensures default { map (or_default 9 (number_below 16)) (None ∷ Some (whole 3) ∷ Some null ∷ [])
        ≡ Some 9 ∷ Some 3 ∷ None ∷ [] }
    ensures place { map (place_in_set 16 16) (whole 15 ∷ whole 16 ∷ whole 31 ∷ whole 32 ∷ [])
        ≡ None ∷ Some 0 ∷ Some 15 ∷ None ∷ [] }
    ensures set { set_of 0 64 (whole 0 ∷ whole 5 ∷ whole 63 ∷ whole 5 ∷ [])
        ≡ Some 9223372036854775841 }
    ensures empty { set_of 0 64 [] ≡ Some 0 }
    ensures past { set_of 0 64 (whole 1 ∷ whole 64 ∷ []) ≡ None }
    ensures later { set_of 16 16 (whole 17 ∷ whole 31 ∷ []) ≡ Some 32770 }
{}

/// The words of commands.
pub fn of_commands()
    ensures operand { map (word_with (operand_at 3)) command_names
        ≡ Some 1048576 ∷ Some 2097152 ∷ Some 3145728 ∷ Some 4194304 ∷ Some 5242880 ∷ Some 6291459
        ∷ Some 7340035 ∷ Some 8388611 ∷ Some 9437187 ∷ Some 10485763 ∷ Some 11534339
        ∷ Some 12582915 ∷ [] }
    ensures queues { map (word_with (queues_at (0 ∷ 3 ∷ []))) command_names
        ≡ None ∷ None ∷ None ∷ None ∷ None ∷ None ∷ Some 7340041 ∷ Some 8388617 ∷ Some 9437193
        ∷ Some 10485769 ∷ None ∷ None ∷ [] }
    ensures one { map (word_with (queues_at (17 ∷ []))) (codes "enable-wq" ∷ codes "drain-wq" ∷ [])
        ≡ Some 6291473 ∷ Some 8454146 ∷ [] }
    ensures alone { map (word_with []) command_names
        ≡ Some 1048576 ∷ Some 2097152 ∷ Some 3145728 ∷ Some 4194304 ∷ Some 5242880 ∷ None ∷ None
        ∷ None ∷ None ∷ None ∷ None ∷ None ∷ [] }
    ensures greatest { map (λ n. word_with (operand_at n) (codes "drain-pasid"))
        (1048575 ∷ 1048576 ∷ []) ≡ Some 12582911 ∷ None ∷ [] }
    ensures last { map (λ n. word_with (queues_at (n ∷ [])) (codes "enable-wq"))
        (1048575 ∷ 1048576 ∷ []) ≡ Some 7340031 ∷ None ∷ [] }
    ensures blocks { map (λ ns. word_with (queues_at ns) (codes "abort-wq"))
        ((255 ∷ []) ∷ (256 ∷ []) ∷ (15 ∷ 16 ∷ []) ∷ (240 ∷ 241 ∷ 240 ∷ []) ∷ [] ∷ [])
        ≡ Some 10452992 ∷ None ∷ None ∷ Some 10420227 ∷ Some 9437184 ∷ [] }
    ensures bounds { map (λ n. only_number (whole n ∷ [])) (1048575 ∷ 1048576 ∷ [])
        ≡ Some 1048575 ∷ None ∷ [] }
    ensures said { map (λ n. operand_said Device (Some (whole n)) None) (1048575 ∷ 1048576 ∷ [])
        ≡ Some 1048575 ∷ None ∷ [] }
    ensures device { operand_said Device None None ≡ Some 0 }
    ensures groups { map (λ n. group_of (whole n ∷ [])) (255 ∷ 256 ∷ []) ≡ Some 15 ∷ None ∷ [] }
    ensures both { word_with (operand_at 3 ++ queues_at (3 ∷ [])) (codes "drain-wq") ≡ None }
    ensures unknown { map (word_with (operand_at 3)) (codes "drain" ∷ codes "Drain WQ" ∷ [])
        ≡ None ∷ None ∷ [] }
    ensures no_text { word_said (an_object (operand_at 3)) (whole 8) ≡ None }
{}

/// The digits of descriptors.
#[tactic(auto, unfolding(crate::specs::Worked::expanded_on_literals))]
pub fn of_descriptors()
    ensures operations { map (λ word. digits_said ((codes "op", text word) ∷ []))
        (codes "no-op" ∷ codes "batch" ∷ codes "drain" ∷ codes "move" ∷ codes "fill"
        ∷ codes "compare" ∷ codes "nop" ∷ [])
        ≡ Some (codes "0000000000000000" ++ zeros 112)
        ∷ Some (codes "0000000000000001" ++ zeros 112)
        ∷ Some (codes "0000000000000002" ++ zeros 112)
        ∷ Some (codes "0000000000000003" ++ zeros 112)
        ∷ Some (codes "0000000000000004" ++ zeros 112)
        ∷ Some (codes "0000000000000005" ++ zeros 112) ∷ None ∷ [] }
    ensures fenced { digits_said
        ((codes "fence", boolean true) ∷ (codes "op", text (codes "move"))
        ∷ (codes "size", whole 4096) ∷ [])
        ≡ Some (codes "0000000001000003" ++ zeros 48 ++ codes "00100000" ++ zeros 56) }
    ensures fields { digits_said
        ((codes "flags", whole 0x0c000a) ∷ (codes "note", null) ∷ (codes "op", whole 0x60)
        ∷ (codes "pasid", whole 0x12345) ∷ (codes "size", whole 0x89abcdef) ∷ [])
        ≡ Some (codes "452301000a000c60" ++ zeros 48 ++ codes "efcdab89" ++ zeros 56) }
    ensures greatest { map digits_said
        (((codes "flags", whole 0x1000000) ∷ (codes "op", whole 0) ∷ [])
        ∷ ((codes "op", whole 256) ∷ [])
        ∷ ((codes "op", whole 0) ∷ (codes "pasid", whole 0x100000) ∷ [])
        ∷ ((codes "op", whole 0) ∷ (codes "size", whole 0x100000000) ∷ []) ∷ [])
        ≡ None ∷ None ∷ None ∷ None ∷ [] }
    ensures others { map digits_said
        ([] ∷ ((codes "fence", whole 1) ∷ (codes "op", whole 0) ∷ [])
        ∷ ((codes "op", whole 0) ∷ (codes "sise", whole 1) ∷ []) ∷ [])
        ≡ None ∷ None ∷ None ∷ [] }
    ensures flags { map (λ fence. flags_with 12 fence) (true ∷ false ∷ []) ≡ 13 ∷ 12 ∷ [] }
{}

/// Strict steps, and which are friendly.
#[tactic(auto, unfolding(crate::specs::Worked::expanded_on_literals))]
pub fn of_steps()
    ensures command { strict_step (Some [])
        (an_object ((codes "command", text (codes "drain-wq"))
        ∷ (codes "do", text (codes "command"))
        ∷ (codes "note", text (codes "n")) ∷ (codes "queues", list_with (0 ∷ 3 ∷ [])) ∷ []))
        ≡ Some ((codes "do", text (codes "command")) ∷ (codes "word", whole 8388617)
        ∷ (codes "note", text (codes "n")) ∷ []) }
    ensures word { strict_step (Some [])
        (an_object ((codes "do", text (codes "command")) ∷ (codes "operand", null)
        ∷ (codes "word", whole 9) ∷ []))
        ≡ Some ((codes "do", text (codes "command")) ∷ (codes "word", whole 9)
        ∷ (codes "operand", null) ∷ []) }
    ensures both { strict_step (Some [])
        (an_object ((codes "command", text (codes "drain-all"))
        ∷ (codes "do", text (codes "command"))
        ∷ (codes "word", whole 9) ∷ [])) ≡ None }
    ensures group { strict_step (Some [])
        (an_object ((codes "allowed", whole 8) ∷ (codes "do", text (codes "group"))
        ∷ (codes "engines", list_with (1 ∷ [])) ∷ (codes "group", whole 0)
        ∷ (codes "queues", list_with (0 ∷ 2 ∷ [])) ∷ (codes "reserved", whole 4) ∷ []))
        ≡ Some ((codes "do", text (codes "group")) ∷ (codes "group", whole 0)
        ∷ (codes "queues", whole 5) ∷ (codes "engines", whole 2) ∷ (codes "reserved", whole 4)
        ∷ (codes "allowed", whole 8) ∷ []) }
    ensures movdir { strict_step (Some [])
        (movdir_with (an_object ((codes "op", text (codes "drain")) ∷ [])))
        ≡ Some ((codes "do", text (codes "movdir")) ∷ (codes "client", whole 3)
        ∷ (codes "queue", whole 1) ∷ (codes "limited", boolean true)
        ∷ (codes "desc", text (codes "0000000000000002" ++ zeros 112))
        ∷ (codes "note", whole 7) ∷ []) }
    ensures set { map strict_set (list_with (63 ∷ []) ∷ list_with (64 ∷ []) ∷ whole 7 ∷ [])
        ≡ Some (whole 9223372036854775808) ∷ None ∷ Some (whole 7) ∷ [] }
    ensures said { map is_said_by
        (codes "command" ∷ codes "operand" ∷ codes "queues" ∷ codes "word" ∷ [])
        ≡ true ∷ true ∷ true ∷ false ∷ [] }
    ensures list { strict_step (Some []) (movdir_with (list_with [])) ≡ None }
    ensures missing { strict_step (Some []) (an_object ((codes "do", text (codes "start")) ∷ []))
        ≡ None }
    ensures friendly { map is_friendly
        (movdir_with (an_object []) ∷ movdir_with (text []) ∷ movdir_with (list_with [])
        ∷ an_object ((codes "command", null) ∷ (codes "do", text (codes "command")) ∷ [])
        ∷ an_object ((codes "command", null) ∷ (codes "do", text (codes "poll")) ∷ [])
        ∷ an_object ((codes "do", text (codes "group")) ∷ (codes "engines", list_with []) ∷ [])
        ∷ an_object ((codes "do", text (codes "group")) ∷ (codes "queues", list_with []) ∷ [])
        ∷ an_object ((codes "do", text (codes "queue")) ∷ (codes "queues", list_with []) ∷ [])
        ∷ an_object ((codes "do", text (codes "finish")) ∷ (codes "name", text []) ∷ [])
        ∷ an_object ((codes "do", text (codes "finish")) ∷ (codes "name", whole 1) ∷ [])
        ∷ null ∷ [])
        ≡ true ∷ false ∷ false ∷ true ∷ false ∷ true ∷ true ∷ false ∷ true ∷ false ∷ false ∷ [] }
{}

/// Own names.
pub fn of_names()
    ensures known { map (known_name (Some ((codes "a", 1) ∷ (codes "b", 2) ∷ (codes "a", 3) ∷ [])))
        (codes "a" ∷ codes "b" ∷ codes "c" ∷ []) ≡ Some 3 ∷ Some 2 ∷ None ∷ [] }
    ensures unknown { known_name None (codes "c") ≡ Some 0 }
    ensures finish { map (λ name. strict_step (Some ((codes "x17", 5) ∷ [])) (finish_named name))
        (text (codes "x17") ∷ text (codes "x18") ∷ whole 9 ∷ null ∷ [])
        ≡ Some (strict_finish 5) ∷ None ∷ Some (strict_finish 9) ∷ None ∷ [] }
    ensures no_device { strict_step None (finish_named (text (codes "x18")))
        ≡ Some (strict_finish 0) }
    ensures after { map
        (λ step. with_given ((codes "a", 1) ∷ []) step (accepted (record_ticket 6 2)))
        (an_object ((codes "as", text (codes "b")) ∷ []) ∷ an_object ((codes "as", whole 3) ∷ [])
        ∷ an_object [] ∷ [])
        ≡ ((codes "a", 1) ∷ (codes "b", 2) ∷ []) ∷ ((codes "a", 1) ∷ []) ∷ ((codes "a", 1) ∷ [])
        ∷ [] }
    ensures fetched { with_given [] (an_object ((codes "as", text (codes "b")) ∷ []))
        (record_of_a_fetch (record_ticket 7 4)) ≡ (codes "b", 4) ∷ [] }
    ensures refused { with_given [] (an_object ((codes "as", text (codes "b")) ∷ []))
        (Refused no_command) ≡ [] }
    ensures onto { given_onto []
        (an_object ((codes "as", text (codes "a")) ∷ []) ∷ null
        ∷ an_object ((codes "as", text (codes "b")) ∷ []) ∷ [])
        (accepted (record_ticket 6 0) ∷ accepted (record_ticket 7 1) ∷ accepted (record_ticket 8 2)
        ∷ [])
        ≡ (codes "a", 0) ∷ (codes "b", 2) ∷ [] }
{}

/// What a value means that is to be a step, outside a document.
#[tactic(auto, unfolding(crate::specs::Worked::expanded_on_literals))]
pub fn of_meanings()
    ensures named { sense_of (Some ((codes "x17", 5) ∷ [])) (finish_named (text (codes "x17")))
        ≡ Strictly (object_with (strict_finish 5)) }
    ensures unnamed { sense_of (Some ((codes "x17", 5) ∷ [])) (finish_named (text (codes "x18")))
        ≡ StuckAt (codes "name") }
    ensures no_step { sense_of (Some [])
        (an_object ((codes "do", text (codes "start")) ∷ (codes "engine", null) ∷ []))
        ≡ Strictly (an_object ((codes "do", text (codes "start")) ∷ (codes "engine", null) ∷ [])) }
    ensures missing { sense_of (Some []) (an_object ((codes "do", text (codes "start")) ∷ []))
        ≡ StuckAt (codes "engine") }
    ensures command { sense_of (Some [])
        (an_object ((codes "command", text (codes "fly")) ∷ (codes "do", text (codes "command"))
        ∷ []))
        ≡ StuckAt (codes "word") }
    ensures other { map (sense_of (Some []))
        (null ∷ an_object ((codes "do", text (codes "show")) ∷ []) ∷ [])
        ≡ Itself ∷ Itself ∷ [] }
{}

/// Keys, as a strict document has them.
#[tactic(auto, unfolding(json::specs::Print::escape_byte))]
pub fn of_layouts()
    ensures keys { map key_with_colon (codes "as" ∷ codes "a\"b" ∷ [] ∷ [])
        ≡ codes "\"as\": " ∷ codes "\"a\\\"b\": " ∷ codes "\"\": " ∷ [] }
{}

/// Documents.
pub fn of_documents()
    ensures head { head_pairs
        (an_object ((codes "a", whole 1) ∷ (codes "capacity", whole 2) ∷ (codes "caps", whole 3)
        ∷ (codes "steps", whole 4) ∷ (codes "x", whole 5) ∷ []))
        ≡ (codes "caps", whole 3) ∷ (codes "capacity", whole 2) ∷ (codes "a", whole 1)
        ∷ (codes "x", whole 5) ∷ [] }
    ensures none { head_pairs null ≡ [] }
    ensures document { strict_document ((codes "x", whole 3) ∷ (codes "caps", whole 4) ∷ [])
        (((codes "do", text []) ∷ (codes "as", whole 5) ∷ []) ∷ [])
        ≡ an_object ((codes "caps", whole 4)
        ∷ (
          codes "steps",
          array (items_of (an_object ((codes "as", whole 5) ∷ (codes "do", text []) ∷ [])
              ∷ [])),
        )
        ∷ (codes "x", whole 3) ∷ []) }
    ensures read { map (λ friendly. read_of friendly (whole 6) []) (false ∷ true ∷ [])
        ≡ whole 6 ∷ an_object ((codes "steps", array (items_of [])) ∷ []) ∷ [] }
{}
