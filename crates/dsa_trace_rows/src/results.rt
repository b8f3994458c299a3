//! Answers as objects, noted errors, and the entries that steps ended.

ghost use Rattle.std.specs.Prelude.{◌≡◌, ◌++◌, [], ◌∷◌, Some, None, Ok, true, false, codes, map, replicate};
ghost use Rattle.dsa_regs.specs.declared.Command.TheVariants.{ResetDevice};
ghost use Rattle.dsa_regs.specs.declared.Fault.TheVariants.{BadCommand, Busy};
ghost use Rattle.dsa_book.specs.declared.answer.Cause.TheVariants.{AtLimit, NotEnabled, WrongKind};
ghost use Rattle.dsa_book.specs.declared.answer.ClearAnswer.TheVariants as clear;
ghost use Rattle.dsa_book.specs.declared.answer.DispatchAnswer.TheVariants as dispatch;
ghost use Rattle.dsa_book.specs.declared.answer.FetchAnswer.TheVariants as fetch;
ghost use Rattle.dsa_book.specs.declared.answer.FinishAnswer.TheVariants as finish;
ghost use Rattle.dsa_book.specs.declared.answer.IssueAnswer.TheVariants as issue;
ghost use Rattle.dsa_book.specs.declared.answer.PollAnswer.TheVariants as poll;
ghost use Rattle.dsa_book.specs.declared.answer.Reply.TheVariants as reply;
ghost use Rattle.dsa_book.specs.declared.answer.StartAnswer.TheVariants as start;
ghost use Rattle.dsa_book.specs.declared.answer.SubmitAnswer.TheVariants as submit;
ghost use Rattle.dsa_book.specs.declared.answer.WriteAnswer.TheVariants as write;
ghost use Rattle.dsa_book.specs.declared.fate.Fate.TheVariants.{Abandoned, Aborted, Completed};
ghost use Rattle.dsa_scenario.specs.Worked.{no_command};
ghost use Rattle.dsa_scenario.specs.declared.run.Record.TheVariants.{Refused};
ghost use Rattle.dsa_scenario.specs.Worked.{fate, record_ticket, stepped};
ghost use Rattle.dsa_trace.specs.declared.form.Trace.TheVariants.{Table, Json};
ghost use Rattle.dsa_trace.specs.Ended.{command_value, ended_rows, fate_objects};
ghost use Rattle.dsa_trace.specs.Errors.{error_members, error_part};
ghost use Rattle.dsa_trace.specs.Lines.{outcome_text};
ghost use Rattle.dsa_trace.specs.Results.{result_kind, record_members, reply_members};
ghost use Rattle.dsa_trace_rows.specs.Worked.{answer_to_a_poll, four_fates};

/// The noted error, which a row leaves out.
#[tactic(auto, unfolding(dsa_scenario::specs::Worked::digits_on_literals))]
pub fn of_errors()
    ensures none { error_part Json None ≡ codes "\",\"error\":null" }
    ensures noted { error_part Json (Some (record
        { queue = 3; cause = WrongKind; overflow = false }))
        ≡ codes "\",\"error\":{\"queue\":3,\"cause\":\"wrong-kind\",\"overflow\":false}" }
    ensures overflow { error_members (record { queue = 12; cause = NotEnabled; overflow = true })
        ≡ codes "\"queue\":12,\"cause\":\"not-enabled\",\"overflow\":true" }
    ensures table { error_part Table (Some (record
        { queue = 3; cause = WrongKind; overflow = false })) ≡ [] }
{}

/// The kinds of answers: their first words.
#[tactic(auto, unfolding(dsa_scenario::specs::Worked::digits_on_literals))]
pub fn of_kinds()
    ensures many { map (λ answer. result_kind (answer_to_a_poll answer))
        (reply.Submit (submit.Retry AtLimit)
        ∷ reply.Dispatch (dispatch.Taken (record_ticket 5 33) 2)
        ∷ reply.Fetch fetch.AllFetched ∷ reply.Finish (finish.Done 3)
        ∷ reply.Issue (issue.Refused Busy) ∷ reply.Poll poll.Nothing ∷ [])
        ≡ codes "retry" ∷ codes "taken" ∷ codes "all-fetched" ∷ codes "done" ∷ codes "refused"
        ∷ codes "nothing" ∷ [] }
    ensures word { result_kind (Refused no_command) ≡ codes "refused" }
{}

/// What answers tell, each under its key.
#[tactic(auto, unfolding(dsa_scenario::specs::Worked::digits_on_literals))]
pub fn of_answers()
    ensures names { map reply_members
        (reply.Submit (submit.Accepted (record_ticket 5 33))
        ∷ reply.Fetch (fetch.Fetched (record_ticket 6 34))
        ∷ reply.Start (start.Started (record_ticket 7 35)) ∷ [])
        ≡ codes ",\"name\":33" ∷ codes ",\"name\":34" ∷ codes ",\"name\":35" ∷ [] }
    ensures taken { reply_members (reply.Dispatch (dispatch.Taken (record_ticket 5 33) 2))
        ≡ codes ",\"name\":33,\"queue\":2" }
    ensures causes { map reply_members
        (reply.Submit (submit.Retry AtLimit) ∷ reply.Submit (submit.Dropped WrongKind) ∷ [])
        ≡ codes ",\"cause\":\"at-limit\"" ∷ codes ",\"cause\":\"wrong-kind\"" ∷ [] }
    ensures counts { map reply_members
        (reply.Start (start.Abandoned 4) ∷ reply.Issue (issue.Ended 5) ∷ [])
        ≡ codes ",\"count\":4" ∷ codes ",\"aborted\":5" ∷ [] }
    ensures status { reply_members (reply.Finish (finish.Done 31)) ≡ codes ",\"status\":31" }
    ensures faults { map reply_members
        (reply.Issue (issue.Refused Busy) ∷ reply.Write (write.Refused BadCommand) ∷ [])
        ≡ codes ",\"fault\":17,\"fault_name\":\"Busy\""
        ∷ codes ",\"fault\":13,\"fault_name\":\"BadCommand\"" ∷ [] }
    ensures word { record_members (Refused no_command)
        ≡ codes ",\"fault\":13,\"fault_name\":\"BadCommand\"" }
    ensures cleared { reply_members (reply.Clear (clear.Cleared (record
        { queue = 3; cause = AtLimit; overflow = true })))
        ≡ codes ",\"queue\":3,\"cause\":\"at-limit\",\"overflow\":true" }
    ensures no_more { map reply_members
        (reply.Submit submit.Full ∷ reply.Dispatch dispatch.Idle ∷ reply.Dispatch dispatch.Full
        ∷ reply.Fetch fetch.NoBatch ∷ reply.Fetch fetch.AllFetched ∷ reply.Fetch fetch.Full
        ∷ reply.Start start.FenceWait ∷ reply.Start start.NoBuffers ∷ reply.Start start.Nothing
        ∷ reply.Start start.Full ∷ reply.Finish finish.NotReady ∷ reply.Finish finish.Gone
        ∷ reply.Finish finish.Full ∷ reply.Issue issue.Active ∷ reply.Issue issue.Full
        ∷ reply.Poll poll.Finished ∷ reply.Poll poll.Active ∷ reply.Poll poll.Nothing
        ∷ reply.Poll poll.Full ∷ reply.Write write.Written ∷ reply.Write write.Full
        ∷ reply.Clear clear.Nothing ∷ reply.Clear clear.Full ∷ [])
        ≡ replicate 23 [] }
{}

/// Which entries a step ended, of the fates after it.
pub fn of_ends()
    ensures done { ended_rows (answer_to_a_poll (reply.Finish (finish.Done 1))) four_fates
        ≡ fate 9 Abandoned ∷ [] }
    ensures aborted { ended_rows (answer_to_a_poll (reply.Issue (issue.Ended 3))) four_fates
        ≡ fate 7 (Aborted 5) ∷ fate 8 (Completed 3) ∷ fate 9 Abandoned ∷ [] }
    ensures abandoned { ended_rows (answer_to_a_poll (reply.Start (start.Abandoned 2))) four_fates
        ≡ fate 8 (Completed 3) ∷ fate 9 Abandoned ∷ [] }
    ensures none { map (λ answer. ended_rows (answer_to_a_poll answer) four_fates)
        (reply.Issue (issue.Ended 0) ∷ reply.Poll poll.Finished ∷ reply.Issue issue.Active
        ∷ reply.Finish finish.Gone ∷ reply.Submit (submit.Accepted (record_ticket 5 9)) ∷ [])
        ≡ [] ∷ [] ∷ [] ∷ [] ∷ [] ∷ [] }
    ensures word { ended_rows (Refused no_command) four_fates ≡ [] }
{}

/// Fates as objects, with commas between them.
#[tactic(auto, unfolding(dsa_scenario::specs::Worked::digits_on_literals))]
pub fn of_fates()
    ensures none { fate_objects [] ≡ [] }
    ensures one { fate_objects (record { name = 7; parent = Some 4; fate = Abandoned } ∷ [])
        ≡ codes "{\"name\":7,\"parent\":4,\"how\":\"abandoned\"}" }
    ensures two { fate_objects (fate 7 (Completed 31)
        ∷ record { name = 12; parent = Some 4; fate = Aborted 5 } ∷ [])
        ≡ codes "{\"name\":7,\"parent\":null,\"how\":\"completed\",\"status\":31},"
        ++ codes "{\"name\":12,\"parent\":4,\"how\":\"aborted\",\"command\":\"reset-device\"}" }
    ensures command { command_value (Ok ResetDevice) ≡ codes "\"reset-device\"" }
    ensures no_command { fate_objects (fate 7 (Aborted 13) ∷ [])
        ≡ codes "{\"name\":7,\"parent\":null,\"how\":\"aborted\",\"command\":null}" }
{}

/// The result and the fates of a step.
#[tactic(auto, unfolding(dsa_scenario::specs::Worked::digits_on_literals))]
pub fn of_outcomes()
    ensures nothing { outcome_text (answer_to_a_poll (reply.Poll poll.Nothing)) four_fates
        ≡ codes "\"result\":{\"kind\":\"nothing\"},\"fates\":[]," }
    ensures done { outcome_text (answer_to_a_poll (reply.Finish (finish.Done 1)))
        (fate 8 (Completed 3) ∷ fate 9 (Completed 1) ∷ [])
        ≡ codes "\"result\":{\"kind\":\"done\",\"status\":1},"
        ++ codes "\"fates\":[{\"name\":9,\"parent\":null,\"how\":\"completed\",\"status\":1}]," }
{}
