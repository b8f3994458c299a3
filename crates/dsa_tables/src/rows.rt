//! Worked tables: what the definitions say of chosen findings, by computation.

ghost use Rattle.std.specs.Prelude.{◌≡◌, ◌++◌, [], ◌∷◌, true, false, codes, map};
ghost use Rattle.std.specs.declared.alloc.Global.{Global};
ghost use Rattle.dsa_regs.specs.declared.Fault.TheVariants.{Busy};
ghost use Rattle.dsa_book.specs.declared.answer.Cause.TheVariants.{AtLimit, NotEnabled};
ghost use Rattle.dsa_book.specs.declared.answer.ClearAnswer.TheVariants as clear;
ghost use Rattle.dsa_book.specs.declared.answer.IssueAnswer.TheVariants as issue;
ghost use Rattle.dsa_book.specs.declared.answer.PollAnswer.TheVariants as poll;
ghost use Rattle.dsa_book.specs.declared.answer.Reply.TheVariants as reply;
ghost use Rattle.dsa_book.specs.declared.answer.SubmitAnswer.TheVariants.{Accepted, Retry, Dropped};
ghost use Rattle.dsa_book.specs.declared.answer.WriteAnswer.TheVariants as write;
ghost use Rattle.dsa_book.specs.declared.fate.Fate.TheVariants.{Completed, Aborted, Abandoned};
ghost use Rattle.dsa_parties.specs.Offers.{label_ticket};
ghost use Rattle.dsa_explore.specs.declared.found.Ask.TheVariants.{Submission, Act};
ghost use Rattle.dsa_explore.specs.declared.found.Finding.TheVariants.{Answer, End, Wait, Removal};
ghost use Rattle.dsa_tables.specs.declared.parts.Part.TheVariants.{Entry, Answers, Waits, Removals};
ghost use Rattle.dsa_tables.specs.Words.{finding_words, label_name, row_words, told_answer};
ghost use Rattle.dsa_tables.specs.Lines.{act_line, entry_line, is_in_part};
ghost use Rattle.dsa_tables.specs.Table.{search_line, table_lines, table_text};
ghost use Rattle.dsa_tables.specs.Worked.{act_found, all_rows, end_found, first_explored, removal_found, submission_found, three_acts, two_labels, wait_found};

/// Names; what has none goes by its number.
#[tactic(auto, unfolding(crate::specs::Worked::tables_on_literals))]
pub fn of_names()
    ensures { map (label_name two_labels) (0 ∷ 1 ∷ 2 ∷ 13 ∷ [])
        ≡ codes "x0" ∷ codes "y0" ∷ codes "2" ∷ codes "13" ∷ [] }
{}

/// Answers, and how entries end. An answer that accepts does not tell the name that it gives.
#[tactic(auto, unfolding(crate::specs::Worked::tables_on_literals))]
pub fn of_findings()
    ensures submissions { map (λ answer. told_answer (reply.Submit answer))
        (Accepted (label_ticket 7) ∷ Retry AtLimit ∷ Dropped NotEnabled ∷ [])
        ≡ codes "accepted" ∷ codes "retry at-limit" ∷ codes "dropped not-enabled" ∷ [] }
    ensures acts { map told_answer
        (reply.Issue (issue.Ended 3) ∷ reply.Issue (issue.Refused Busy) ∷ reply.Poll poll.Nothing
        ∷ reply.Write write.Written
        ∷ reply.Clear (clear.Cleared (record { queue = 2; cause = AtLimit; overflow = true }))
        ∷ [])
        ≡ codes "ended 3"
        ∷ codes "refused 17 Busy"
        ∷ codes "nothing"
        ∷ codes "written"
        ∷ codes "cleared 2 at-limit overflow"
        ∷ [] }
    ensures ends { map (λ fate. finding_words two_labels (End 1 fate))
        (Completed 1 ∷ Completed 0x1f ∷ Aborted 10 ∷ Abandoned ∷ [])
        ≡ codes "completed 01"
        ∷ codes "completed 1f"
        ∷ codes "aborted 10"
        ∷ codes "abandoned"
        ∷ [] }
    ensures steps { map (row_words two_labels)
        (submission_found 0 (Accepted (label_ticket 0)) 1 ∷ end_found 0 (Completed 1) 12 ∷ [])
        ≡ codes "accepted [1]" ∷ codes "completed 01 [12]" ∷ [] }
{}

/// Which findings a part has. An act and an entry may have one number.
pub fn of_parts()
    ensures entry { map (is_in_part (Entry 1))
        (Answer (Submission 1) (reply.Submit (Retry AtLimit)) ∷ End 1 Abandoned
        ∷ Answer (Submission 0) (reply.Submit (Retry AtLimit)) ∷ End 2 Abandoned
        ∷ Answer (Act 1) (reply.Poll poll.Nothing) ∷ Wait 1 1 ∷ Removal 1 1 ∷ [])
        ≡ true ∷ true ∷ false ∷ false ∷ false ∷ false ∷ false ∷ [] }
    ensures act { map (is_in_part (Answers 1))
        (Answer (Act 1) (reply.Poll poll.Nothing) ∷ Answer (Act 0) (reply.Poll poll.Nothing)
        ∷ Answer (Submission 1) (reply.Submit (Retry AtLimit)) ∷ End 1 Abandoned ∷ Wait 1 1
        ∷ Removal 1 1 ∷ [])
        ≡ true ∷ false ∷ false ∷ false ∷ false ∷ false ∷ [] }
    ensures waits { map (is_in_part (Waits 1)) (Wait 1 0 ∷ Wait 0 1 ∷ Removal 1 0 ∷ [])
        ≡ true ∷ false ∷ false ∷ [] }
    ensures removals { map (is_in_part (Removals 1)) (Removal 1 0 ∷ Removal 0 1 ∷ Wait 1 0 ∷ [])
        ≡ true ∷ false ∷ false ∷ [] }
{}

/// The lines of entries and of acts.
#[tactic(auto, unfolding(crate::specs::Worked::tables_on_literals))]
pub fn of_lines()
    ensures entries { map (entry_line two_labels all_rows) (0 ∷ 1 ∷ 2 ∷ [])
        ≡ codes "x0: accepted [1], retry at-limit [2], completed 01 [3]\n"
        ∷ codes "y0: accepted [1], aborted 10 [4]\n"
        ∷ codes "2: nothing\n"
        ∷ [] }
    ensures acts { map (act_line two_labels three_acts all_rows) (0 ∷ 1 ∷ 2 ∷ 3 ∷ [])
        ≡ codes "drain: ended 0 [1], active [2]; waits for y0 [2], x0 [5]\n"
        ∷ codes "poll: finished [4]\n"
        ∷ codes "reset: ended 1 [4]; removes y0 [4], x0 [6]\n"
        ∷ codes "3: nothing\n"
        ∷ [] }
    ensures both { act_line [] [] (removal_found 0 5 1 ∷ wait_found 0 4 2 ∷ []) 0
        ≡ codes "0: nothing; waits for 4 [2]; removes 5 [1]\n" }
{}

/// Tables of no, of one and of several labels and acts. A search that met a bound is not complete.
#[tactic(auto, unfolding(crate::specs::Worked::tables_on_literals))]
pub fn of_tables()
    ensures nobody { table_lines [] [] all_rows ≡ [] }
    ensures label { table_lines (codes "a0" ∷ []) [] [] ≡ codes "a0: nothing\n" }
    ensures acts { table_lines [] three_acts (act_found 1 (reply.Poll poll.Nothing) 2 ∷ [])
        ≡ codes "drain: nothing\npoll: nothing [2]\nreset: nothing\n" }
    ensures far { search_line 3045 11590 15 true
        ≡ codes "3045 states, 11590 steps, depth 15, complete\n" }
    ensures near { search_line 1 1 0 false ≡ codes "1 state, 1 step, depth 0, bounded\n" }
    ensures whole { (memory : Global)
        → table_text two_labels three_acts (first_explored memory)
        ≡ codes "x0: accepted [1], retry at-limit [2], completed 01 [3]\ny0: accepted [1]\n"
        ++ codes "drain: ended 0 [1], active [2]; waits for y0 [2]\npoll: nothing\n"
        ++ codes "reset: nothing\n3045 states, 11590 steps, depth 15, bounded\n" }
{}
