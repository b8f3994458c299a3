//! Worked rows: what questions are read as, and what searches say of them, each on a function with
//! nothing to do.

ghost use Rattle.std.specs.Prelude.{◌≡◌, ◌++◌, [], ◌∷◌, codes, map, replicate, true, false};
ghost use Rattle.std.specs.Prelude.{Ok, Err, Some, None};
ghost use Rattle.std.specs.declared.alloc.Global.{Global};
ghost use Rattle.serde_json.specs.Data.{null, string};
ghost use Rattle.dsa_book.specs.declared.answer.Cause.TheVariants.{AtLimit};
ghost use Rattle.dsa_book.specs.declared.answer.IssueAnswer.TheVariants as issue;
ghost use Rattle.dsa_book.specs.declared.answer.Reply.TheVariants as reply;
ghost use Rattle.dsa_book.specs.declared.answer.SubmitAnswer.TheVariants as submit;
ghost use Rattle.dsa_book.specs.declared.fate.Fate.TheVariants as fate;
ghost use Rattle.dsa_scenario.specs.declared.faults.ScenarioFault.TheVariants.{BadQuestion};
ghost use Rattle.dsa_scenario.specs.Worked.{object_of, whole};
ghost use Rattle.dsa_explore.specs.declared.found.Ask.TheVariants as ask;
ghost use Rattle.dsa_explore.specs.declared.found.Finding.TheVariants as finding;
ghost use Rattle.dsa_plans.specs.Worked.{listing};
ghost use Rattle.dsa_tables.specs.Table.{table_text};
ghost use Rattle.dsa_tables.specs.Worked.{three_acts, two_labels};
ghost use Rattle.dsa_parties.specs.declared.watches.Became.TheVariants as became;
ghost use Rattle.dsa_questions.specs.declared.question.Condition.TheVariants.{Entry, Act, Wait, Removal};
ghost use Rattle.dsa_questions.specs.declared.question.Kind.TheVariants.{Never, Sometimes, Always};
ghost use Rattle.dsa_parties.specs.declared.watches.Replied.TheVariants as replied;
ghost use Rattle.dsa_questions.specs.declared.verdicts.Outlook.TheVariants.{InNoOrder, NotSoFar, With};
ghost use Rattle.dsa_questions.specs.Asked.{is_about_entry, is_row_asked};
ghost use Rattle.dsa_questions.specs.Lines.{text_with_answers, question_lines, steps_words, verdict_words};
ghost use Rattle.dsa_questions.specs.Conditions.{condition_said, conditions_said, number_called};
ghost use Rattle.dsa_questions.specs.Reading.{question_onto, questions_said};
ghost use Rattle.dsa_questions.specs.Verdicts.{outlook_of, fewest_from, first_broken, is_broken_by};
ghost use Rattle.dsa_questions.specs.Words.{became_called, is_name, replied_called};
ghost use Rattle.dsa_questions.specs.Worked.{aborted_at, answered_so, any_of, asking, command_is};
ghost use Rattle.dsa_questions.specs.Worked.{document_asking, entry_is, inquired, worked_names};
ghost use Rattle.dsa_questions.specs.Worked.{explored_so, few_rows, worked_pair, question_about, question_named};

/// What words say; a word of the other list, or one that begins so, says nothing.
pub fn of_words()
    ensures entries { map became_called
        (codes "accepted" ∷ codes "retry" ∷ codes "dropped" ∷ codes "completed"
        ∷ codes "successful" ∷ codes "failed" ∷ codes "aborted" ∷ codes "abandoned" ∷ [])
        ≡ Some became.Accepted ∷ Some became.Retry ∷ Some became.Dropped ∷ Some became.Completed
        ∷ Some became.Successful ∷ Some became.Failed ∷ Some became.Aborted ∷ Some became.Abandoned
        ∷ [] }
    ensures no_entries { map became_called
        (codes "ended" ∷ codes "abort" ∷ codes "aborted 10" ∷ codes "Aborted" ∷ [] ∷ [])
        ≡ replicate 5 None }
    ensures acts { map replied_called
        (codes "ended" ∷ codes "active" ∷ codes "refused" ∷ codes "finished" ∷ codes "nothing"
        ∷ codes "written" ∷ codes "cleared" ∷ [])
        ≡ Some replied.Ended ∷ Some replied.Active ∷ Some replied.Refused ∷ Some replied.Finished
        ∷ Some replied.Nothing ∷ Some replied.Written ∷ Some replied.Cleared ∷ [] }
    ensures no_acts { map replied_called
        (codes "aborted" ∷ codes "ended 0" ∷ codes "refused 17 Busy" ∷ [] ∷ [])
        ≡ replicate 4 None }
    ensures names { map is_name
        (codes "m0 is lost" ∷ replicate 80 0x61 ∷ replicate 81 0x61 ∷ [] ∷ codes "a\nb"
        ∷ codes "a\"b" ∷ codes "a\\b" ∷ [])
        ≡ true ∷ true ∷ false ∷ false ∷ false ∷ false ∷ false ∷ [] }
{}

/// The number of a label; nobody has a label that two have.
pub fn of_labels()
    ensures { map (number_called (codes "x" ∷ codes "y" ∷ codes "y" ∷ codes "z" ∷ []))
        (codes "x" ∷ codes "y" ∷ codes "z" ∷ codes "w" ∷ codes "zz" ∷ [])
        ≡ Some 0 ∷ None ∷ Some 3 ∷ None ∷ None ∷ [] }
{}

/// Which findings conditions are about. An entry and an act may have one number.
pub fn of_findings()
    ensures entry { map (is_about_entry (Entry 1 became.Retry))
        (finding.Answer (ask.Submission 1) (reply.Submit (submit.Retry AtLimit))
        ∷ finding.Answer (ask.Submission 0) (reply.Submit (submit.Retry AtLimit))
        ∷ finding.Answer (ask.Act 1) (reply.Submit (submit.Retry AtLimit))
        ∷ finding.End 1 fate.Abandoned ∷ [])
        ≡ true ∷ false ∷ false ∷ false ∷ [] }
    ensures ending { map (is_about_entry (Entry 1 became.Aborted))
        (finding.End 1 (fate.Aborted 9) ∷ finding.End 0 (fate.Aborted 9)
        ∷ finding.End 1 (fate.Completed 1) ∷ finding.Removal 1 1 ∷ [])
        ≡ true ∷ false ∷ false ∷ false ∷ [] }
    ensures act { map (is_about_entry (Act 1 replied.Active))
        (finding.Answer (ask.Act 1) (reply.Issue issue.Active)
        ∷ finding.Answer (ask.Act 0) (reply.Issue issue.Active)
        ∷ finding.Answer (ask.Submission 1) (reply.Issue issue.Active)
        ∷ finding.Wait 1 1 ∷ [])
        ≡ true ∷ false ∷ false ∷ false ∷ [] }
    ensures wait { map (is_about_entry (Wait 1 2))
        (finding.Wait 1 2 ∷ finding.Wait 2 1 ∷ finding.Wait 1 1 ∷ finding.Removal 1 2 ∷ [])
        ≡ true ∷ false ∷ false ∷ false ∷ [] }
    ensures removal { map (is_about_entry (Removal 1 2))
        (finding.Removal 1 2 ∷ finding.Removal 2 1 ∷ finding.Removal 1 1 ∷ finding.Wait 1 2 ∷ [])
        ≡ true ∷ false ∷ false ∷ false ∷ [] }
    ensures any { map (is_row_asked (Wait 1 2 ∷ Removal 1 2 ∷ []))
        (finding.Wait 1 2 ∷ finding.Removal 1 2 ∷ finding.Wait 1 1 ∷ [])
        ≡ true ∷ true ∷ false ∷ [] }
    ensures none { is_row_asked [] (finding.Wait 1 2) ≡ false }
{}

/// What conditions are read as.
pub fn of_conditions()
    ensures each { map (condition_said two_labels three_acts)
        (entry_is (codes "y0") (codes "aborted")
        ∷ command_is (codes "reset") (codes "ended")
        ∷ worked_pair (codes "command") (codes "drain") (codes "waits-for") (codes "x0")
        ∷ worked_pair (codes "command") (codes "reset") (codes "removes") (codes "y0")
        ∷ [])
        ≡ Some (Entry 1 became.Aborted)
        ∷ Some (Act 2 replied.Ended)
        ∷ Some (Wait 0 0)
        ∷ Some (Removal 2 1)
        ∷ [] }
    ensures labels { map (condition_said two_labels three_acts)
        (entry_is (codes "z0") (codes "aborted")
        ∷ entry_is (codes "drain") (codes "aborted")
        ∷ command_is (codes "x0") (codes "ended")
        ∷ worked_pair (codes "command") (codes "drain") (codes "waits-for") (codes "poll")
        ∷ worked_pair (codes "command") (codes "drain") (codes "removes") (codes "reset")
        ∷ []) ≡ replicate 5 None }
    ensures words { map (condition_said two_labels three_acts)
        (entry_is (codes "x0") (codes "ended")
        ∷ command_is (codes "drain") (codes "aborted")
        ∷ worked_pair (codes "entry") (codes "x0") (codes "comes") (codes "aborted")
        ∷ worked_pair (codes "command") (codes "drain") (codes "when") (codes "x0")
        ∷ worked_pair (codes "not") (codes "x0") (codes "is") (codes "aborted")
        ∷ []) ≡ replicate 5 None }
    ensures keys { map (condition_said two_labels three_acts)
        (object_of
        ((codes "entry", string (codes "x0")) ∷ (codes "is", string (codes "aborted"))
        ∷ (codes "note", null) ∷ [])
        ∷ object_of ((codes "entry", string (codes "x0")) ∷ [])
        ∷ object_of ((codes "entry", whole 0) ∷ (codes "is", string (codes "aborted")) ∷ [])
        ∷ object_of ((codes "entry", string (codes "x0")) ∷ (codes "is", null) ∷ [])
        ∷ any_of []
        ∷ null
        ∷ []) ≡ replicate 6 None }
{}

/// One condition, or any of several.
pub fn of_alternatives()
    ensures read { map (conditions_said two_labels three_acts)
        (entry_is (codes "x0") (codes "aborted")
        ∷ any_of
        (entry_is (codes "x0") (codes "aborted") ∷ command_is (codes "poll") (codes "finished")
        ∷ [])
        ∷ any_of []
        ∷ [])
        ≡ Some (Entry 0 became.Aborted ∷ [])
        ∷ Some (Entry 0 became.Aborted ∷ Act 1 replied.Finished ∷ [])
        ∷ Some []
        ∷ [] }
    ensures bad { map (conditions_said two_labels three_acts)
        (entry_is (codes "z0") (codes "aborted")
        ∷ any_of
        (entry_is (codes "x0") (codes "aborted") ∷ entry_is (codes "z0") (codes "aborted") ∷ [])
        ∷ any_of (any_of [] ∷ [])
        ∷ object_of ((codes "any", null) ∷ [])
        ∷ object_of ((codes "all", listing []) ∷ [])
        ∷ object_of ((codes "any", listing []) ∷ (codes "not", null) ∷ [])
        ∷ object_of ((codes "not", entry_is (codes "x0") (codes "aborted")) ∷ [])
        ∷ null
        ∷ []) ≡ replicate 8 None }
{}

/// What a question is read as. Without a name it has that of its number.
#[tactic(auto, unfolding(crate::specs::Worked::questions_on_literals))]
pub fn of_questions()
    ensures named { question_onto Never worked_names (inquired [])
        (question_named (codes "m0 is lost") (entry_is (codes "y0") (codes "aborted")))
        ≡ Some (inquired (asking Never (codes "m0 is lost") (aborted_at 1) ∷ [])) }
    ensures unnamed { question_onto Sometimes worked_names
        (inquired (replicate 12 (asking Never [] [])))
        (question_about (entry_is (codes "y0") (codes "aborted")))
        ≡ Some
        (inquired
        (replicate 12 (asking Never [] []) ++ asking Sometimes (codes "12") (aborted_at 1) ∷ [])) }
    ensures bad { map (question_onto Never worked_names (inquired []))
        (object_of ((codes "name", string (codes "m0")) ∷ [])
        ∷ object_of
        ((codes "name", null) ∷ (codes "that", entry_is (codes "y0") (codes "aborted")) ∷ [])
        ∷ question_named [] (entry_is (codes "y0") (codes "aborted"))
        ∷ object_of
        ((codes "that", entry_is (codes "y0") (codes "aborted")) ∷ (codes "when", null) ∷ [])
        ∷ object_of
        ((codes "name", string (codes "m0"))
        ∷ (codes "that", entry_is (codes "y0") (codes "aborted"))
        ∷ (codes "if", null) ∷ [])
        ∷ question_about (entry_is (codes "z0") (codes "aborted"))
        ∷ question_about null
        ∷ object_of []
        ∷ null
        ∷ []) ≡ replicate 9 None }
{}

/// Questions of documents: those of `never` come first, and those of `always` last. The first bad
/// one is told.
#[tactic(auto, unfolding(crate::specs::Worked::questions_on_literals))]
pub fn of_documents()
    ensures none { questions_said worked_names (object_of []) ≡ Ok (inquired []) }
    ensures both { questions_said worked_names
        (document_asking
        (question_about (entry_is (codes "x0") (codes "aborted"))
        ∷ question_named (codes "lost") (entry_is (codes "y0") (codes "aborted")) ∷ [])
        (question_about (entry_is (codes "y0") (codes "aborted")) ∷ []) [])
        ≡ Ok
        (inquired
        (asking Never (codes "0") (aborted_at 0)
        ∷ asking Never (codes "lost") (aborted_at 1)
        ∷ asking Sometimes (codes "2") (aborted_at 1)
        ∷ [])) }
    ensures bad { map (questions_said worked_names)
        (document_asking
        (question_about (entry_is (codes "x0") (codes "aborted")) ∷ null ∷ null ∷ []) (null ∷ [])
        []
        ∷ document_asking (question_about (entry_is (codes "x0") (codes "aborted")) ∷ [])
        (question_about null ∷ []) []
        ∷ document_asking [] [] ((codes "always", listing (null ∷ [])) ∷ [])
        ∷ document_asking (question_about (entry_is (codes "x0") (codes "aborted")) ∷ []) []
        ((codes "always", null) ∷ [])
        ∷ object_of ((codes "never", null) ∷ [])
        ∷ object_of
        ((codes "never", listing (question_about (entry_is (codes "x0") (codes "aborted")) ∷ []))
        ∷ (codes "sometimes", object_of []) ∷ [])
        ∷ [])
        ≡ Err (BadQuestion 1) ∷ Err (BadQuestion 1) ∷ Err (BadQuestion 0) ∷ Err (BadQuestion 1)
        ∷ Err (BadQuestion 0) ∷ Err (BadQuestion 1) ∷ [] }
{}

/// What a search says. The fewest steps of several rows count, and not those of other rows. A
/// search that met its bounds says nothing of what it did not find.
pub fn of_searches()
    ensures fewest { map (λ conditions. fewest_from conditions None few_rows)
        (aborted_at 1 ∷ aborted_at 0 ∷ (Act 0 replied.Active ∷ Entry 1 became.Aborted ∷ []) ∷ []
        ∷ []) ≡ Some 4 ∷ None ∷ Some 2 ∷ None ∷ [] }
    ensures complete { (memory : Global)
        → map (λ conditions. outlook_of conditions (explored_so memory true))
        (aborted_at 1 ∷ aborted_at 0 ∷ []) ≡ With 4 ∷ InNoOrder ∷ [] }
    ensures bounded { (memory : Global)
        → map (λ conditions. outlook_of conditions (explored_so memory false))
        (aborted_at 1 ∷ aborted_at 0 ∷ []) ≡ With 4 ∷ NotSoFar ∷ [] }
    ensures broken_never { map (is_broken_by Never) (With 4 ∷ InNoOrder ∷ NotSoFar ∷ [])
        ≡ true ∷ false ∷ false ∷ [] }
    ensures broken_always { map (is_broken_by Always) (With 4 ∷ InNoOrder ∷ NotSoFar ∷ [])
        ≡ true ∷ false ∷ false ∷ [] }
    ensures broken_sometimes { map (is_broken_by Sometimes) (With 4 ∷ InNoOrder ∷ NotSoFar ∷ [])
        ≡ false ∷ true ∷ false ∷ [] }
    ensures first { (memory : Global)
        → map (λ questions. first_broken (answered_so (explored_so memory true) questions))
        ([]
        ∷ (asking Never [] (aborted_at 0) ∷ asking Sometimes [] (aborted_at 1) ∷ [])
        ∷ (asking Never [] (aborted_at 0) ∷ asking Never [] (aborted_at 1)
        ∷ asking Sometimes [] (aborted_at 0) ∷ [])
        ∷ (asking Sometimes [] (aborted_at 0) ∷ [])
        ∷ [])
        ≡ None ∷ None ∷ Some 1 ∷ Some 0 ∷ [] }
    ensures first_bounded { (memory : Global)
        → map (λ questions. first_broken (answered_so (explored_so memory false) questions))
        ((asking Sometimes [] (aborted_at 0) ∷ asking Never [] (aborted_at 1) ∷ [])
        ∷ (asking Sometimes [] (aborted_at 0) ∷ [])
        ∷ [])
        ≡ Some 1 ∷ None ∷ [] }
{}

/// The lines of questions, and where they stand.
#[tactic(auto, unfolding(crate::specs::Worked::questions_on_literals))]
pub fn of_lines()
    ensures nevers { map (verdict_words Never) (With 4 ∷ InNoOrder ∷ NotSoFar ∷ [])
        ≡ codes "broken" ∷ codes "kept" ∷ codes "kept so far" ∷ [] }
    ensures always { map (verdict_words Always) (With 4 ∷ InNoOrder ∷ NotSoFar ∷ [])
        ≡ codes "broken" ∷ codes "kept" ∷ codes "kept so far" ∷ [] }
    ensures others { map (verdict_words Sometimes) (With 12 ∷ InNoOrder ∷ NotSoFar ∷ [])
        ≡ codes "kept" ∷ codes "broken" ∷ codes "not seen so far" ∷ [] }
    ensures steps { map steps_words (With 12 ∷ InNoOrder ∷ NotSoFar ∷ [])
        ≡ codes " [12]" ∷ [] ∷ [] ∷ [] }
    ensures lines { (memory : Global)
        → question_lines
        (answered_so (explored_so memory true)
        (asking Never (codes "m0 is lost") (aborted_at 1) ∷ asking Never (codes "1") (aborted_at 0)
        ∷ asking Sometimes (codes "it waits") (Wait 0 0 ∷ []) ∷ []))
        ≡ codes "never m0 is lost: broken [4]\nnever 1: kept\nsometimes it waits: kept [2]\n" }
    ensures table { (memory : Global)
        → text_with_answers (codes "x0" ∷ []) []
        (answered_so (explored_so memory false) (asking Sometimes (codes "0") (aborted_at 0) ∷ []))
        (explored_so memory false)
        ≡ codes "x0: completed 01 [3]\nsometimes 0: not seen so far\n"
        ++ codes "34 states, 134 steps, depth 8, bounded\n" }
    ensures no_questions { (memory : Global)
        → text_with_answers two_labels three_acts [] (explored_so memory true)
        ≡ table_text two_labels three_acts (explored_so memory true) }
{}
