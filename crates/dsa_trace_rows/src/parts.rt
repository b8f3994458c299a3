//! The parts of lines, at chosen numbers.

ghost use Rattle.std.specs.Prelude.{◌≡◌, ◌++◌, [], ◌∷◌, Some, None, true, false, codes, map};
ghost use Rattle.dsa_regs.specs.declared.Command.TheVariants.{DrainPasid};
ghost use Rattle.dsa_regs.specs.declared.layout.ListUse.TheVariants.{Members, Queue};
ghost use Rattle.dsa_trace.specs.declared.form.Trace.TheVariants.{Table, Wide, Json};
ghost use Rattle.dsa_trace.specs.declared.form.Items.TheVariants.{Queues, Engines, Groups};
ghost use Rattle.dsa_trace.specs.Columns.{command_text, engine_text, group_text, is_unplaced, is_unused};
ghost use Rattle.dsa_trace.specs.Columns.{item_count, phase_text, queue_text};
ghost use Rattle.dsa_trace.specs.declared.form.Part.TheVariants.{DevicePhase, MemberNames, Names};
ghost use Rattle.dsa_trace.specs.declared.form.Part.TheVariants.{Waiting};
ghost use Rattle.dsa_trace.specs.Names.{entry_names_text, list_names, names_array};
ghost use Rattle.dsa_trace.specs.Notes.{batch_members, batch_part};
ghost use Rattle.dsa_regs.specs.declared.Phase.TheVariants.{Off, On, Stopping};
ghost use Rattle.dsa_regs.specs.Config.{zero_group};
ghost use Rattle.dsa_regs.specs.Worked.{first_group};
ghost use Rattle.dsa_trace.specs.Held.{held_line};
ghost use Rattle.dsa_trace_rows.specs.Worked.{caps_of_a_trace, queue_of_a_trace, traced_entry};

/// A queue in the table: none without a size, no threshold of a dedicated one, and an occupancy as
/// wide as the size. A wide row and JSON have all, JSON with a comma before a further queue.
#[tactic(auto, unfolding(dsa_scenario::specs::Worked::digits_on_literals))]
pub fn queues()
    ensures left_out { queue_text Table 3 2 (queue_of_a_trace 0 7 false) On ≡ [] }
    ensures dedicated { queue_text Table 3 2 (queue_of_a_trace 9 8 true) On
        ≡ codes " q3 2/9" }
    ensures shared { queue_text Table 3 2 (queue_of_a_trace 9 8 false) Off
        ≡ codes " q3 2/8/9" }
    ensures aligned { queue_text Table 3 2 (queue_of_a_trace 128 80 false) On
        ≡ codes " q3   2/80/128" }
    ensures wide { queue_text Wide 3 2 (queue_of_a_trace 10 8 true) On ≡ codes " q3  2/8/10" }
    ensures wide_no_size { queue_text Wide 3 2 (queue_of_a_trace 0 7 false) On
        ≡ codes " q3 2/7/0" }
    ensures no_size { queue_text Json 3 2 (queue_of_a_trace 0 7 false) Off
        ≡ codes ",{\"queue\":3,\"occupancy\":2,\"threshold\":7,\"size\":0,\"phase\":\"off\"" }
    ensures first { queue_text Json 0 1 (queue_of_a_trace 9 8 true) Stopping
        ≡ codes "{\"queue\":0,\"occupancy\":1,\"threshold\":8,\"size\":9,\"phase\":\"stopping\"" }
{}

/// An engine and a group.
#[tactic(auto, unfolding(dsa_scenario::specs::Worked::digits_on_literals))]
pub fn engines_and_groups()
    ensures counts { map (item_count caps_of_a_trace) (Queues ∷ Engines ∷ Groups ∷ [])
        ≡ 3 ∷ 2 ∷ 4 ∷ [] }
    ensures engine { engine_text Table caps_of_a_trace 3 4 12 ≡ codes " e3 4/6 m12" }
    ensures aligned_engine { engine_text Wide
        (record caps_of_a_trace { slots = 16; max_batch_shift = 9 }) 3 4 12
        ≡ codes " e3  4/16 m 12" }
    ensures engine_as_json { engine_text Json (record caps_of_a_trace { slots = 16 }) 3 4 12
        ≡ codes ",{\"engine\":3,\"in_progress\":4,\"slots\":16,\"members\":12" }
    ensures group { group_text Table 3 10 (record first_group { reserved = 7; allowed = 24 })
        ≡ codes " g3 10/24" }
    ensures aligned_group { group_text Table 3 9 (record first_group { allowed = 124 })
        ≡ codes " g3   9/124" }
    ensures group_left_out { group_text Table 3 0 (record zero_group { reserved = 7; allowed = 24 })
        ≡ [] }
    ensures groups_used { map (is_unused Table)
        (record zero_group { queues = 4 } ∷ record zero_group { engines = 2 } ∷ zero_group ∷ [])
        ≡ false ∷ false ∷ true ∷ [] }
    ensures wide_group { group_text Wide 3 0 zero_group ≡ codes " g3 0/0" }
    ensures engines_placed { is_unplaced Table None ∷ is_unplaced Table (Some 3)
        ∷ is_unplaced Wide None ∷ is_unplaced Json None ∷ []
        ≡ true ∷ false ∷ false ∷ false ∷ [] }
    ensures group_as_json { group_text Json 3 10 (record first_group { reserved = 7; allowed = 24 })
        ≡ codes ",{\"group\":3,\"used\":10,\"allowed\":24,\"reserved\":7}" }
{}

/// The names of entries: none, one, and more with commas between them; of a list in a row.
#[tactic(auto, unfolding(dsa_scenario::specs::Worked::digits_on_literals))]
pub fn names()
    ensures none { entry_names_text [] ≡ [] }
    ensures one { entry_names_text (traced_entry 42 None 1 false ∷ []) ≡ codes "42" }
    ensures three { entry_names_text (traced_entry 42 None 1 false ∷ traced_entry 7 None 1 true
        ∷ traced_entry 50 (Some 7) 1 true ∷ []) ≡ codes "42,7,50" }
    ensures table { names_array Table Waiting (traced_entry 42 None 1 false ∷ []) ≡ [] }
    ensures no_column { list_names (Members 3) [] ≡ [] }
    ensures column { list_names (Members 3) (traced_entry 42 None 1 false ∷ [])
        ≡ codes " | batch of e3 [42]" }
    ensures long_column { list_names (Queue 12) (traced_entry 42 None 1 false
        ∷ traced_entry 7 None 1 true ∷ traced_entry 50 (Some 7) 1 true ∷ [])
        ≡ codes " | q12 [42,7,50]" }
    ensures queue { names_array Json Waiting (traced_entry 42 None 1 false ∷ [])
        ≡ codes ",\"waiting\":[42]" }
    ensures engine { names_array Json Names [] ++ names_array Json MemberNames []
        ≡ codes ",\"names\":[],\"member_names\":[]" }
{}

/// The batch of an engine, which the table leaves out.
#[tactic(auto, unfolding(dsa_scenario::specs::Worked::digits_on_literals))]
pub fn notes()
    ensures no_batch { batch_part Json None ≡ codes ",\"batch\":null" }
    ensures batch { batch_part Json (Some (record
        { batch = 33; count = 8; fetched = 5; failed = true; closed = false }))
        ≡ codes ",\"batch\":{\"name\":33,\"count\":8,\"fetched\":5,\"failed\":true,"
        ++ codes "\"closed\":false}" }
    ensures closed { batch_members (record
        { batch = 1; count = 2; fetched = 0; failed = false; closed = true })
        ≡ codes "\"name\":1,\"count\":2,\"fetched\":0,\"failed\":false,\"closed\":true" }
    ensures table { batch_part Table (Some (record
        { batch = 33; count = 8; fetched = 5; failed = true; closed = false }))
        ≡ [] }
{}

/// The phase of the device, which the table leaves out.
pub fn phases()
    ensures table { phase_text Table DevicePhase Stopping ≡ [] }
    ensures json { phase_text Json DevicePhase Stopping ≡ codes "\"phase\":\"stopping" }
{}

/// The active command, where there is one and it is known how many entries it waits for.
#[tactic(auto, unfolding(dsa_scenario::specs::Worked::digits_on_literals))]
pub fn commands()
    ensures active { command_text Table (Some (DrainPasid 7)) (Some 12)
        ≡ codes " | drain-pasid 7 awaits 12" }
    ensures active_as_json { command_text Json (Some (DrainPasid 7)) (Some 12)
        ≡ codes "],\"active\":{\"command\":\"drain-pasid 7\",\"awaited\":12}" }
    ensures none { command_text Table None None ≡ [] }
    ensures none_as_json { command_text Json None None ≡ codes "],\"active\":null" }
    ensures no_count { command_text Json (Some (DrainPasid 7)) None ≡ codes "],\"active\":null" }
    ensures no_command { command_text Json None (Some 12) ≡ codes "],\"active\":null" }
{}

/// An entry that is held, with its list.
#[tactic(auto, unfolding(dsa_scenario::specs::Worked::digits_on_literals))]
pub fn entries()
    ensures held { held_line Table (Members 3) (traced_entry 42 None 1 false)
        ≡ codes "held 42 in batch of e3\n" }
    ensures held_as_json { held_line Json (Members 3) (traced_entry 42 None 1 false)
        ≡ codes "{\"held\":42,\"list\":\"batch of e3\"}\n" }
{}
