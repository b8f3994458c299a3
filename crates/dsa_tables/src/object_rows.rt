//! Worked lines of JSON objects, by computation.

ghost use Rattle.std.specs.Prelude.{◌≡◌, ◌++◌, [], ◌∷◌, Some, None, true, false, codes, map};
ghost use Rattle.std.specs.declared.alloc.Global.{Global};
ghost use Rattle.dsa_regs.specs.declared.Fault.TheVariants.{Busy};
ghost use Rattle.dsa_book.specs.declared.answer.Cause.TheVariants.{AtLimit};
ghost use Rattle.dsa_book.specs.declared.answer.IssueAnswer.TheVariants as issue;
ghost use Rattle.dsa_book.specs.declared.answer.Reply.TheVariants as reply;
ghost use Rattle.dsa_book.specs.declared.answer.SubmitAnswer.TheVariants.{Accepted, Retry};
ghost use Rattle.dsa_book.specs.declared.fate.Fate.TheVariants.{Completed, Aborted};
ghost use Rattle.dsa_parties.specs.Offers.{label_ticket};
ghost use Rattle.dsa_explore.specs.declared.found.Ask.TheVariants.{Act};
ghost use Rattle.dsa_explore.specs.WorkedEnds.{ending_with, ending_through};
ghost use Rattle.dsa_tables.specs.Objects.{body_objects, end_objects, row_object, search_object};
ghost use Rattle.dsa_tables.specs.Worked.{act_found, end_found, ended_explored, first_explored, removal_found, stuck_twice, submission_found, three_acts, two_labels, wait_found};

/// The objects of rows: an entry and an act without a name go by their number.
#[tactic(auto, unfolding(crate::specs::Worked::tables_on_literals))]
pub fn of_row_objects()
    ensures entries { map (row_object two_labels three_acts)
        (submission_found 0 (Accepted (label_ticket 0)) 1 ∷ submission_found 1 (Retry AtLimit) 12
        ∷ end_found 1 (Aborted 10) 4 ∷ end_found 7 (Completed 0x1f) 5 ∷ [])
        ≡ codes "{\"entry\":\"x0\",\"what\":\"accepted\",\"steps\":1}\n"
        ∷ codes "{\"entry\":\"y0\",\"what\":\"retry at-limit\",\"steps\":12}\n"
        ∷ codes "{\"entry\":\"y0\",\"what\":\"aborted 10\",\"steps\":4}\n"
        ∷ codes "{\"entry\":\"7\",\"what\":\"completed 1f\",\"steps\":5}\n"
        ∷ [] }
    ensures acts { map (row_object two_labels three_acts)
        (act_found 1 (reply.Issue (issue.Refused Busy)) 2 ∷ wait_found 0 1 3
        ∷ removal_found 2 0 6 ∷ removal_found 3 9 0 ∷ [])
        ≡ codes "{\"command\":\"poll\",\"what\":\"refused 17 Busy\",\"steps\":2}\n"
        ∷ codes "{\"command\":\"drain\",\"what\":\"waits for y0\",\"steps\":3}\n"
        ∷ codes "{\"command\":\"reset\",\"what\":\"removes x0\",\"steps\":6}\n"
        ∷ codes "{\"command\":\"3\",\"what\":\"removes 9\",\"steps\":0}\n"
        ∷ [] }
{}

/// The objects of ends: none where they were not looked for, and none where there are none.
#[tactic(auto, unfolding(crate::specs::Worked::tables_on_literals))]
pub fn of_end_objects()
    ensures not_sought { end_objects two_labels three_acts None ≡ [] }
    ensures none { end_objects two_labels three_acts (Some []) ≡ [] }
    ensures several { (memory : Global)
        → end_objects two_labels three_acts (Some (ending_through memory 9
        ∷ ending_with memory (Act 1) true 5 ∷ stuck_twice memory ∷ []))
        ≡ codes "{\"end\":\"all through\",\"steps\":9}\n"
        ++ codes "{\"end\":\"stuck at poll with entries held\",\"steps\":5}\n"
        ++ codes "{\"end\":\"stuck at x0 and poll\",\"steps\":7}\n" }
{}

/// The last object.
#[tactic(auto, unfolding(crate::specs::Worked::tables_on_literals))]
pub fn of_search_objects()
    ensures far { search_object 3045 11590 15 true
        ≡ codes "{\"states\":3045,\"steps\":11590,\"depth\":15,\"complete\":true}\n" }
    ensures near { search_object 1 2 0 false
        ≡ codes "{\"states\":1,\"steps\":2,\"depth\":0,\"complete\":false}\n" }
{}

/// All objects of a search before the last one, in the order of the table: what was not found has
/// none.
#[tactic(auto, unfolding(crate::specs::Worked::tables_on_literals, crate::specs::Naming::rows_of_act))]
pub fn of_bodies()
    ensures first { (memory : Global)
        → body_objects two_labels three_acts (first_explored memory)
        ≡ codes "{\"entry\":\"x0\",\"what\":\"accepted\",\"steps\":1}\n"
        ++ codes "{\"entry\":\"x0\",\"what\":\"retry at-limit\",\"steps\":2}\n"
        ++ codes "{\"entry\":\"x0\",\"what\":\"completed 01\",\"steps\":3}\n"
        ++ codes "{\"entry\":\"y0\",\"what\":\"accepted\",\"steps\":1}\n"
        ++ codes "{\"command\":\"drain\",\"what\":\"ended 0\",\"steps\":1}\n"
        ++ codes "{\"command\":\"drain\",\"what\":\"active\",\"steps\":2}\n"
        ++ codes "{\"command\":\"drain\",\"what\":\"waits for y0\",\"steps\":2}\n" }
    ensures ends { (memory : Global)
        → body_objects two_labels [] (ended_explored memory)
        ≡ codes "{\"entry\":\"y0\",\"what\":\"aborted 10\",\"steps\":4}\n"
        ++ codes "{\"end\":\"all through\",\"steps\":9}\n" }
{}
