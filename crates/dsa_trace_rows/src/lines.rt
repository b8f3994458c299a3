//! Whole lines, and what a trace is of.

ghost use Rattle.std.specs.Prelude.{◌≡◌, ◌++◌, [], ◌∷◌, codes, map};
ghost use Rattle.std.specs.List.{range_with_len};
ghost use Rattle.dsa_regs.specs.declared.Fault.TheVariants.{BadCommand};
ghost use Rattle.dsa_device.specs.Running.{running_at_first};
ghost use Rattle.dsa_scenario.specs.Worked.{no_command};
ghost use Rattle.dsa_scenario.specs.declared.run.Record.TheVariants.{Refused};
ghost use Rattle.dsa_scenario.specs.Worked.{poll_text, smallest_caps, stepless_text};
ghost use Rattle.dsa_trace.specs.declared.form.Trace.TheVariants.{Table, Wide, Json, Changes};
ghost use Rattle.dsa_trace.specs.Changes.{changed_lists, column_count, shown_line, shown_lines};
ghost use Rattle.dsa_trace.specs.Changes.{snapshot, told_before_step};
ghost use Rattle.dsa_trace.specs.Columns.{state_object};
ghost use Rattle.dsa_trace.specs.Held.{held_lines};
ghost use Rattle.dsa_trace.specs.Lines.{step_line, trace_line_of_step};
ghost use Rattle.dsa_trace.specs.Run.{IsTrace, IsTraceOf};
ghost use Rattle.dsa_trace_rows.specs.Worked.{caps_of_a_trace, device_of_a_trace};
ghost use Rattle.dsa_trace_rows.specs.Worked.{dispatch_of_a_trace, members_at_first};
ghost use Rattle.dsa_trace_rows.specs.Worked.{members_of_a_trace, names_of_a_trace};
ghost use Rattle.dsa_trace_rows.specs.Worked.{poll_of_a_trace, smallest_with_a_queue};
ghost use Rattle.dsa_trace_rows.specs.Worked.{step_of_a_trace};

/// The line of a step of a device with three queues, two engines and four groups, and that of a
/// word that is no command on a new device.
#[tactic(auto, unfolding(dsa_scenario::specs::Worked::digits_on_literals))]
pub fn of_steps()
    ensures table { trace_line_of_step Table step_of_a_trace
        ≡ codes "12 | q1 2/9 q2  1/5/12 | e0 1/6 m 0 e1 2/6 m 3 | g0  6/11 g1  1/13"
        ++ codes " | dispatch e1 -> taken 33 from 2" ++ names_of_a_trace }
    ensures wide { trace_line_of_step Wide step_of_a_trace
        ≡ codes "12 | q0 0/7/0 q1 2/8/9 q2  1/5/12 | e0 1/6 m 0 e1 2/6 m 3"
        ++ codes " | g0  6/11 g1  1/13 g2 0/0 g3 0/4 | dispatch e1 -> taken 33 from 2"
        ++ names_of_a_trace }
    ensures json { trace_line_of_step Json step_of_a_trace
        ≡ codes "{\"step\":12,\"event\":\"dispatch e1\",\"answer\":\"taken 33 from 2\","
        ++ codes "\"result\":{\"kind\":\"taken\",\"name\":33,\"queue\":2},\"fates\":[],"
        ++ members_of_a_trace ++ codes "}\n" }
    ensures word { step_line Table [] 9 (Refused no_command)
        (record (running_at_first smallest_caps 400) { room = 2_000 })
        ≡ codes "  9 | | | | command 0x0 -> refused 13 BadCommand\n" }
    ensures wide_word { step_line Wide [] 9 (Refused no_command) (running_at_first smallest_caps 4)
        ≡ codes "9 | q0 0/0/0 | e0 0/1 m0 | g0 0/0 | command 0x0 -> refused 13 BadCommand\n" }
    ensures word_as_json { step_line Json [] 9 (Refused no_command)
        (running_at_first smallest_caps 4)
        ≡ codes "{\"step\":9,\"event\":\"command 0x0\",\"answer\":\"refused 13 BadCommand\","
        ++ codes "\"result\":{\"kind\":\"refused\",\"fault\":13,"
        ++ codes "\"fault_name\":\"BadCommand\"},\"fates\":[],"
        ++ members_at_first ++ codes "}\n" }
{}

/// The object of a device alone: a new one, and one of three queues, two engines and four groups.
#[tactic(auto, unfolding(dsa_scenario::specs::Worked::digits_on_literals))]
pub fn of_states()
    ensures new { state_object smallest_caps (running_at_first smallest_caps 4).state
        ≡ codes "{" ++ members_at_first ++ codes "}" }
    ensures working { state_object device_of_a_trace.caps device_of_a_trace.state
        ≡ codes "{" ++ members_of_a_trace ++ codes "}" }
{}

/// A line for each entry that is held: in the queues, on the engines, and in their batches.
#[tactic(auto, unfolding(dsa_scenario::specs::Worked::digits_on_literals))]
pub fn of_entries()
    ensures table { held_lines Table device_of_a_trace.caps device_of_a_trace.state
        ≡ codes "held 21 in q1\nheld 22 in q1\nheld 23 in q2\nheld 31 in e0\nheld 32 in e1\n"
        ++ codes "held 33 in e1\nheld 41 in batch of e1\nheld 42 in batch of e1\n"
        ++ codes "held 43 in batch of e1\n" }
    ensures json { held_lines Json device_of_a_trace.caps device_of_a_trace.state
        ≡ codes "{\"held\":21,\"list\":\"q1\"}\n{\"held\":22,\"list\":\"q1\"}\n"
        ++ codes "{\"held\":23,\"list\":\"q2\"}\n{\"held\":31,\"list\":\"e0\"}\n"
        ++ codes "{\"held\":32,\"list\":\"e1\"}\n{\"held\":33,\"list\":\"e1\"}\n"
        ++ codes "{\"held\":41,\"list\":\"batch of e1\"}\n{\"held\":42,\"list\":\"batch of e1\"}\n"
        ++ codes "{\"held\":43,\"list\":\"batch of e1\"}\n" }
{}

/// A trace has a line for each step, then one for each entry that is held at last, and no more.
#[tactic(auto, unfolding(dsa_scenario::specs::Worked::digits_on_literals))]
pub fn of_runs()
    ensures none { IsTraceOf Table [] (running_at_first smallest_caps 4) [] }
    ensures one { IsTraceOf Table (step_of_a_trace ∷ []) device_of_a_trace
        (codes "12 | q1 2/9 q2  1/5/12 | e0 1/6 m 0 e1 2/6 m 3 | g0  6/11 g1  1/13"
        ++ codes " | dispatch e1 -> taken 33 from 2" ++ names_of_a_trace
        ++ codes "held 21 in q1\nheld 22 in q1\nheld 23 in q2\nheld 31 in e0\nheld 32 in e1\n"
        ++ codes "held 33 in e1\nheld 41 in batch of e1\nheld 42 in batch of e1\n"
        ++ codes "held 43 in batch of e1\n") }
{}

/// What a step changed of a device with three queues, two engines and four groups, and of one of
/// each: nothing of it; what changed at once from the opening on, the last engine too, but no
/// column and no list that is as it was; and lists and a command that are there no longer.
#[tactic(auto, unfolding(dsa_scenario::specs::Worked::digits_on_literals))]
pub fn of_changes()
    ensures dispatch { trace_line_of_step Changes dispatch_of_a_trace
        ≡ codes "12 q2 1/5/12 e1 2/6 m3 g0 6/11 | dispatch e1 -> taken 33 from 2"
        ++ codes " | q2 [23] | e1 [32,33]\n" }
    ensures first { trace_line_of_step Changes
        (poll_of_a_trace (running_at_first caps_of_a_trace 50) device_of_a_trace)
        ≡ codes "0 q0 0/7/0 q1 2/8/9 q2 1/5/12 e0 1/6 m0 e1 2/6 m3 g0 6/11 g1 1/13 g3 0/4"
        ++ codes " | poll -> nothing" ++ names_of_a_trace }
    ensures last { trace_line_of_step Changes
        (poll_of_a_trace device_of_a_trace (running_at_first caps_of_a_trace 50))
        ≡ codes "0 q0 0/0/0 q1 0/0/0 q2 0/0/0 e0 0/6 m0 e1 0/6 m0 g0 0/0 g1 0/0 g3 0/0"
        ++ codes " | poll -> nothing | q1 [] | q2 [] | e0 [] | e1 [] | batch of e1 []"
        ++ codes " | no command\n" }
    ensures same { trace_line_of_step Changes (poll_of_a_trace device_of_a_trace device_of_a_trace)
        ≡ codes "0 | poll -> nothing\n" }
    ensures smallest { trace_line_of_step Changes
        (poll_of_a_trace (running_at_first smallest_caps 4) smallest_with_a_queue)
        ≡ codes "0 q0 0/2/3 | poll -> nothing\n" }
    ensures word { step_line Changes (told_before_step Changes (running_at_first smallest_caps 4)) 9
        (Refused no_command) (running_at_first smallest_caps 4)
        ≡ codes "9 | command 0x0 -> refused 13 BadCommand\n" }
{}

/// The lines of which a snapshot is made: one for each queue, engine, group and list, and one for
/// the active command.
#[tactic(auto, unfolding(dsa_scenario::specs::Worked::digits_on_literals))]
pub fn of_snapshots()
    ensures smallest { snapshot smallest_caps (running_at_first smallest_caps 4).state
        ≡ codes " q0 0/0/0\n e0 0/1 m0\n g0 0/0\n | q0 []\n | e0 []\n | batch of e0 []\n"
        ++ codes " | no command\n" }
    ensures working { snapshot caps_of_a_trace device_of_a_trace.state
        ≡ codes " q0 0/7/0\n q1 2/8/9\n q2 1/5/12\n e0 1/6 m0\n e1 2/6 m3\n g0 6/11\n g1 1/13\n"
        ++ codes " g2 0/0\n g3 0/4\n | q0 []\n | q1 [21,22]\n | q2 [23]\n | e0 [31]\n"
        ++ codes " | e1 [32,33]\n | batch of e0 []\n | batch of e1 [41,42,43]\n"
        ++ codes " | drain-pasid 7 awaits 5\n" }
    ensures only_for_changes { map (λ form. told_before_step form device_of_a_trace)
        (Table ∷ Wide ∷ Json ∷ []) ≡ [] ∷ [] ∷ [] ∷ [] }
{}

/// A line of a snapshot is shown where the line of its number was another one, or where there was
/// none. After the end of a snapshot nothing is shown.
pub fn of_lines()
    ensures same { shown_line (codes "a" ∷ codes "b" ∷ []) (codes "a" ∷ codes "b" ∷ []) 1 ≡ [] }
    ensures other { shown_line (codes "a" ∷ codes "b" ∷ []) (codes "a" ∷ codes "bb" ∷ []) 1
        ≡ codes "bb" }
    ensures elsewhere { shown_line (codes "b" ∷ codes "a" ∷ []) (codes "a" ∷ codes "b" ∷ []) 1
        ≡ codes "b" }
    ensures new { shown_line (codes "a" ∷ []) (codes "a" ∷ codes "b" ∷ []) 1 ≡ codes "b" }
    ensures after_the_end { shown_line (codes "a" ∷ codes "b" ∷ []) (codes "a" ∷ []) 1 ≡ [] }
    ensures from_first { shown_lines [] (map (λ n. n ∷ []) (5 ∷ 6 ∷ 7 ∷ 8 ∷ [])) 1 2 ≡ 6 ∷ 7 ∷ [] }
    ensures columns { column_count caps_of_a_trace ≡ 9 }
    ensures lists { changed_lists [] (map (λ n. n ∷ []) (range_with_len 1 9)) smallest_caps
        ≡ 4 ∷ 5 ∷ 6 ∷ 7 ∷ [] }
{}

/// The traces of a document of one step, which polls, and of one without a step.
#[tactic(auto, unfolding(serde_json::proofs::OnLiterals::serde_json_on_literals))]
pub fn of_documents()
    ensures poll { IsTrace Table poll_text
        (codes "0 | | | | poll -> nothing\n") }
    ensures poll_changes_nothing { IsTrace Changes poll_text (codes "0 | poll -> nothing\n") }
    ensures no_steps { IsTrace Json (stepless_text (codes "9")) [] }
{}
