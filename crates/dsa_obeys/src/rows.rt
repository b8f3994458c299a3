//! Worked rows: logs that obey a script, and logs that the machine allows and that do not.

ghost use Rattle.std.specs.Prelude.{◌≡◌, ℕ, [], ◌∷◌, ◌++◌, length, map, take, true, false, Some, None};
ghost use Rattle.std.specs.declared.alloc.Global.{Global};
ghost use Rattle.dsa_desc.specs.declared.Outcome.TheVariants.{Success, PageFault};
ghost use Rattle.dsa_regs.specs.declared.Command.TheVariants.{AbortAll, DrainAll};
ghost use Rattle.dsa_regs.specs.declared.Fault.TheVariants.{BadIndex, Busy};
ghost use Rattle.dsa_book.specs.declared.answer.Cause.TheVariants.{AtLimit, NotEnabled};
ghost use Rattle.dsa_book.specs.declared.answer.Reply.TheVariants as reply;
ghost use Rattle.dsa_book.specs.declared.answer.ClearAnswer.TheVariants as clear;
ghost use Rattle.dsa_book.specs.declared.answer.DispatchAnswer.TheVariants as dispatch;
ghost use Rattle.dsa_book.specs.declared.answer.FetchAnswer.TheVariants as fetch;
ghost use Rattle.dsa_book.specs.declared.answer.FinishAnswer.TheVariants as finish;
ghost use Rattle.dsa_book.specs.declared.answer.IssueAnswer.TheVariants as issue;
ghost use Rattle.dsa_book.specs.declared.answer.PollAnswer.TheVariants as poll;
ghost use Rattle.dsa_book.specs.declared.answer.StartAnswer.TheVariants as start;
ghost use Rattle.dsa_book.specs.declared.answer.SubmitAnswer.TheVariants.{Accepted, Dropped, Retry};
ghost use Rattle.dsa_book.specs.declared.event.Event.TheVariants as event;
ghost use Rattle.dsa_book.specs.declared.event.Kind.TheVariants.{Enqcmd, Movdir64b};
ghost use Rattle.dsa_book.specs.declared.event.Portal.TheVariants.{Limited, Unlimited};
ghost use Rattle.dsa_parties.specs.declared.script.Act.TheVariants as act;
ghost use Rattle.dsa_parties.specs.declared.script.Outcomes.TheVariants.{Both, PageFaultAlone, SuccessAlone};
ghost use Rattle.dsa_parties.specs.declared.script.RetryPolicy.TheVariants.{Again, AtMost, GiveUp};
ghost use Rattle.dsa_parties.specs.declared.script.Until.TheVariants.{Finished, Once, Over};
ghost use Rattle.dsa_parties.specs.Worked.{five_entries, four_acts, note_of_label, operation_of_size, part_between, worked_script};
ghost use Rattle.dsa_parties.specs.WorkedOffers.{three_queues_one_group};
ghost use Rattle.dsa_obeys.specs.Obeys.{LogLine, Obeys, administrator_lines, asks_again, client_lines, do_in_order, does, entry_named, event_asked, fetches, fits_outcome, is_by_administrator, is_by_client, is_next_of, is_of_number, may_end, polls_again, submit_in_order, submits, submits_again, takes_part, to_do, to_submit, with_answers, works};
ghost use Rattle.dsa_obeys.specs.Walks.{IsObeyingRun, IsWalkOf, is_in_vain, lines_of_moves, lines_with_moves};
ghost use Rattle.dsa_obeys.specs.Worked.{batch_line, breaks_behind, dispatch_line, drain_line, end_line, fill_line, line_by, log_first, log_second, member_line, moves_first, moves_of_short_log, moves_second, obeys_here, line_of_a_poll, short_log, state_before_log, ticket_in, whole_log, world_at_opening, world_before_log};

/// A log that obeys: so does each part of it from its begin.
pub fn logs_that_obey()
    ensures whole { (memory : Global) → obeys_here memory whole_log ≡ true }
    ensures parts { (memory : Global)
        → map (λ n. obeys_here memory (take n whole_log)) (0 ∷ 1 ∷ 4 ∷ 9 ∷ 15 ∷ [])
        ≡ true ∷ true ∷ true ∷ true ∷ true ∷ [] }
    ensures written { (memory : Global) → Obeys (worked_script memory) state_before_log
        (map (λ (line : LogLine). line.step) whole_log) }
{}

/// Submissions that the machine allows, and that break the script.
pub fn clients_that_break_a_script()
    ensures out_of_order { (memory : Global)
        → breaks_behind memory 0 (fill_line (Accepted (ticket_in 0 0))) ≡ true }
    ensures once_more { (memory : Global)
        → breaks_behind memory 1 (batch_line (Accepted (ticket_in 1 1))) ≡ true }
    ensures one_retry_too_many { (memory : Global)
        → breaks_behind memory 11 drain_line ≡ true }
    ensures of_another_client { (memory : Global) → breaks_behind memory 0 (line_by (submits 1 0)
        (event.Submit 9 1 Limited (Enqcmd 5) (operation_of_size 1 2))
        (reply.Submit (Accepted (ticket_in 0 0)))) ≡ true }
    ensures of_no_client { (memory : Global) → breaks_behind memory 0 (line_by (submits 2 0)
        (event.Submit 9 1 Limited (Enqcmd 5) (operation_of_size 1 2))
        (reply.Submit (Accepted (ticket_in 0 0)))) ≡ true }
    ensures of_another_size { (memory : Global) → breaks_behind memory 0 (line_by (submits 0 0)
        (event.Submit 7 1 Limited (Enqcmd 5) (operation_of_size 1 3))
        (reply.Submit (Accepted (ticket_in 0 0)))) ≡ true }
    ensures by_an_engine { (memory : Global) → breaks_behind memory 0 (line_by works
        (event.Submit 7 1 Limited (Enqcmd 5) (operation_of_size 1 2))
        (reply.Submit (Accepted (ticket_in 0 0)))) ≡ true }
{}

/// Acts that the machine allows, and that break the script.
pub fn administrators_that_break_a_script()
    ensures too_early { (memory : Global)
        → breaks_behind memory 0 (line_of_a_poll 0 1 poll.Nothing) ≡ true }
    ensures not_over { (memory : Global) → breaks_behind memory 12 (line_by (does 0 2)
        event.ClearError (reply.Clear clear.Nothing)) ≡ true }
    ensures over { (memory : Global)
        → breaks_behind memory 19 (line_of_a_poll 0 1 poll.Nothing) ≡ true }
    ensures of_another { (memory : Global)
        → breaks_behind memory 8 (line_of_a_poll 1 1 poll.Active) ≡ true }
    ensures of_none { (memory : Global)
        → breaks_behind memory 8 (line_of_a_poll 2 1 poll.Active) ≡ true }
    ensures another_command { (memory : Global) → breaks_behind memory 7 (line_by (does 0 0)
        (event.Issue AbortAll) (reply.Issue (issue.Ended 3))) ≡ true }
{}

/// Steps of engines that the machine allows, and that break the script.
pub fn engines_that_break_a_script()
    ensures other_engine { (memory : Global)
        → breaks_behind memory 0 (dispatch_line 1 dispatch.Idle) ≡ true }
    ensures other_start { (memory : Global) → breaks_behind memory 0
        (line_by works (event.Start 1) (reply.Start start.Nothing)) ≡ true }
    ensures other_end { (memory : Global) → breaks_behind memory 0
        (line_by works (event.Finish 1 (ticket_in 9 9) Success) (reply.Finish finish.Gone))
        ≡ true }
    ensures other_fetch { (memory : Global) → breaks_behind memory 0
        (line_by works (event.Fetch 1 (operation_of_size 0 0)) (reply.Fetch fetch.NoBatch))
        ≡ true }
    ensures other_outcome { (memory : Global)
        → breaks_behind memory 7 (end_line (ticket_in 2 2) Success 1) ≡ true }
    ensures other_member { (memory : Global)
        → breaks_behind memory 4 (member_line 2 (operation_of_size 5 64) (ticket_in 2 2))
        ≡ true }
    ensures same_member { (memory : Global)
        → breaks_behind memory 9 (member_line 1 (operation_of_size 3 4096) (ticket_in 2 3))
        ≡ true }
    ensures no_member { (memory : Global)
        → breaks_behind memory 4 (member_line 3 (operation_of_size 4 8) (ticket_in 2 2)) ≡ true }
    ensures other_descriptor { (memory : Global)
        → breaks_behind memory 4 (member_line 1 (operation_of_size 5 64) (ticket_in 2 2))
        ≡ true }
    ensures member_untold { (memory : Global) → breaks_behind memory 4 (line_by works
        (event.Fetch 0 (operation_of_size 3 4096)) (reply.Fetch (fetch.Fetched (ticket_in 2 2))))
        ≡ true }
{}

/// What is asked for, by whom and for what.
pub fn what_is_asked_for()
    ensures clients { (memory : Global) → map (event_asked (worked_script memory))
        (submits 0 0 ∷ submits 0 1 ∷ submits 1 3 ∷ submits 1 5 ∷ submits 2 0 ∷ [])
        ≡ Some (event.Submit 7 1 Limited (Enqcmd 5) (operation_of_size 1 2)) ∷ None
        ∷ Some (event.Submit 9 2 Unlimited Movdir64b (operation_of_size 4 8)) ∷ None ∷ None ∷ [] }
    ensures administrators { (memory : Global) → map (event_asked (worked_script memory))
        (does 0 0 ∷ does 0 1 ∷ does 0 2 ∷ does 1 3 ∷ does 1 4 ∷ does 2 0 ∷ [])
        ≡ Some (event.Issue DrainAll) ∷ Some event.Poll ∷ Some event.ClearError
        ∷ Some (event.Issue AbortAll) ∷ None ∷ None ∷ [] }
    ensures engines { (memory : Global) → map (event_asked (worked_script memory))
        (fetches 1 ∷ works ∷ []) ≡ None ∷ None ∷ [] }
    ensures to_submit { map (to_submit five_entries)
        (part_between 0 4 ∷ part_between 3 5 ∷ part_between 1 3 ∷ [])
        ≡ (0 ∷ 3 ∷ []) ∷ (3 ∷ 4 ∷ []) ∷ [] ∷ [] }
    ensures to_do { map (to_do four_acts) (part_between 0 3 ∷ part_between 3 4 ∷ [])
        ≡ (0 ∷ 1 ∷ 2 ∷ []) ∷ (3 ∷ []) ∷ [] }
{}

/// Which answers let a party ask for the same again.
pub fn answers_that_ask_again()
    ensures retries { map (λ policy. map
        (λ retries. submits_again policy retries (reply.Submit (Retry AtLimit))) (0 ∷ 1 ∷ 2 ∷ []))
        (GiveUp ∷ Again ∷ AtMost 2 ∷ [])
        ≡ (false ∷ false ∷ false ∷ []) ∷ (true ∷ true ∷ true ∷ [])
        ∷ (true ∷ true ∷ false ∷ []) ∷ [] }
    ensures not_retried { map (submits_again Again 0)
        (reply.Submit (Dropped AtLimit) ∷ reply.Submit (Accepted (ticket_in 0 0)) ∷ [])
        ≡ false ∷ false ∷ [] }
    ensures polls { map (λ until. map (polls_again until)
        (poll.Finished ∷ poll.Nothing ∷ poll.Active ∷ [])) (Once ∷ Finished ∷ Over ∷ [])
        ≡ (false ∷ false ∷ false ∷ []) ∷ (false ∷ true ∷ true ∷ [])
        ∷ (false ∷ false ∷ true ∷ []) ∷ [] }
    ensures acts { map (asks_again (act.Issue DrainAll true))
        (reply.Issue (issue.Refused Busy) ∷ reply.Issue (issue.Refused BadIndex)
        ∷ reply.Issue issue.Active ∷ [])
        ≡ true ∷ false ∷ false ∷ [] }
    ensures once { map (λ act. asks_again act (reply.Issue (issue.Refused Busy)))
        (act.Issue DrainAll false ∷ act.ClearError ∷ []) ≡ false ∷ false ∷ [] }
    ensures polled { map (asks_again (act.Poll Over))
        (reply.Poll poll.Active ∷ reply.Poll poll.Nothing ∷ [])
        ≡ true ∷ false ∷ [] }
{}

/// Which entry a name is of, which member is next, and how entries may end.
pub fn names_and_outcomes()
    ensures names { map (entry_named (member_line 1 (operation_of_size 3 4096) (ticket_in 2 2)
        ∷ dispatch_line 0 (dispatch.Taken (ticket_in 0 0) 1) ∷ fill_line (Accepted (ticket_in 1 1))
        ∷ drain_line ∷ batch_line (Accepted (ticket_in 0 0)) ∷ [])) (0 ∷ 1 ∷ 2 ∷ 3 ∷ [])
        ≡ Some 0 ∷ Some 3 ∷ Some 1 ∷ None ∷ [] }
    ensures members { (memory : Global) → map (λ fetched. map
        (λ n. is_next_of (worked_script memory) (batch_line (Accepted (ticket_in 0 0)) ∷ []) n
        (note_of_label 0 fetched false)) (1 ∷ 2 ∷ 3 ∷ [])) (0 ∷ 1 ∷ 2 ∷ [])
        ≡ (true ∷ false ∷ false ∷ []) ∷ (false ∷ true ∷ false ∷ [])
        ∷ (false ∷ false ∷ false ∷ []) ∷ [] }
    ensures successes { map (λ outcomes. fits_outcome outcomes Success)
        (SuccessAlone ∷ PageFaultAlone ∷ Both ∷ []) ≡ true ∷ false ∷ true ∷ [] }
    ensures faults { map (λ outcomes. fits_outcome outcomes PageFault)
        (SuccessAlone ∷ PageFaultAlone ∷ Both ∷ []) ≡ false ∷ true ∷ true ∷ [] }
{}

/// Whose line it is, and which of a party's lines are in order.
pub fn lines_of_parties()
    ensures numbers { map (is_of_number 1)
        (submits 1 0 ∷ does 0 1 ∷ fetches 1 ∷ fetches 2 ∷ works ∷ [])
        ≡ false ∷ true ∷ true ∷ false ∷ false ∷ [] }
    ensures clients { map (is_by_client 1) (submits 0 1 ∷ submits 1 4 ∷ submits 2 1 ∷ does 1 3 ∷ [])
        ≡ false ∷ true ∷ false ∷ false ∷ [] }
    ensures administrators { map (is_by_administrator 1)
        (does 0 1 ∷ does 1 3 ∷ does 2 1 ∷ submits 1 4 ∷ [])
        ≡ false ∷ true ∷ false ∷ false ∷ [] }
    ensures lines { map (λ c. length (client_lines c log_first)) (0 ∷ 1 ∷ 2 ∷ [])
        ≡ 2 ∷ 2 ∷ 0 ∷ [] }
    ensures acts { map (λ a. length (administrator_lines a whole_log)) (0 ∷ 1 ∷ 2 ∷ [])
        ≡ 4 ∷ 1 ∷ 0 ∷ [] }
    ensures engines { (memory : Global) → map (takes_part (worked_script memory))
        (0 ∷ 1 ∷ 2 ∷ 3 ∷ 4 ∷ []) ≡ true ∷ false ∷ false ∷ true ∷ false ∷ [] }
    ensures outcomes { (memory : Global) → map (λ n. may_end (worked_script memory) n Success)
        (0 ∷ 1 ∷ 2 ∷ 5 ∷ []) ≡ true ∷ false ∷ true ∷ false ∷ [] }
    ensures submitted { map (λ retries. submit_in_order five_entries (4 ∷ []) retries
        (drain_line ∷ drain_line ∷ [])) (0 ∷ 1 ∷ 2 ∷ []) ≡ true ∷ true ∷ false ∷ [] }
    ensures turned { map (λ left. submit_in_order five_entries left 0
        (batch_line (Accepted (ticket_in 0 0)) ∷ fill_line (Retry AtLimit) ∷ []))
        ((0 ∷ 3 ∷ []) ∷ (0 ∷ []) ∷ (3 ∷ 0 ∷ []) ∷ []) ≡ true ∷ false ∷ false ∷ [] }
    ensures done { map (λ left. do_in_order four_acts left
        (line_of_a_poll 0 1 poll.Active ∷ line_of_a_poll 0 1 poll.Nothing ∷ []))
        ((1 ∷ 2 ∷ []) ∷ (1 ∷ []) ∷ (2 ∷ 1 ∷ []) ∷ [] ∷ []) ≡ true ∷ true ∷ false ∷ false ∷ [] }
{}

/// Which steps are answers, and which lines are moves.
pub fn steps_that_count()
    ensures answers { with_answers
        (record { event = event.Poll; reply = reply.Poll poll.Full }
        ∷ record { event = event.Poll; reply = reply.Poll poll.Nothing }
        ∷ record { event = event.Dispatch 1; reply = reply.Dispatch dispatch.Full }
        ∷ record { event = event.Dispatch 1; reply = reply.Dispatch dispatch.Idle } ∷ [])
        ≡ record { event = event.Poll; reply = reply.Poll poll.Nothing }
        ∷ record { event = event.Dispatch 1; reply = reply.Dispatch dispatch.Idle } ∷ [] }
    ensures in_vain { map is_in_vain
        (reply.Fetch fetch.NoBatch ∷ reply.Fetch fetch.AllFetched ∷ reply.Finish finish.Gone
        ∷ reply.Finish finish.NotReady ∷ reply.Dispatch dispatch.Idle ∷ reply.Start start.Nothing
        ∷ reply.Poll poll.Nothing ∷ [])
        ≡ true ∷ true ∷ true ∷ false ∷ false ∷ false ∷ false ∷ [] }
    ensures moves { map length (whole_log ∷ lines_with_moves whole_log ∷ []) ≡ 21 ∷ 20 ∷ [] }
{}

/// The log as a walk: its moves leave these lines.
pub fn a_log_as_a_walk()
    ensures lines { (memory : Global)
        → lines_of_moves (worked_script memory) (world_before_log memory)
        (moves_first ++ moves_second)
        ≡ map Some (log_first ++ log_second) }
    ensures walk { (memory : Global)
        → IsWalkOf (worked_script memory) (world_before_log memory) short_log state_before_log }
    ensures run { (memory : Global)
        → IsObeyingRun three_queues_one_group 1 (worked_script memory) [] (world_at_opening memory)
        moves_of_short_log (world_at_opening memory) }
{}
