//! Scripts, calls, and what workers do.

ghost use Rattle.std.specs.Prelude.{◌≡◌, ⊤, ℕ, [], ◌∷◌, Some, None, true, false, map};
ghost use Rattle.std.specs.declared.alloc.Global.{Global};
ghost use Rattle.dsa_regs.specs.declared.Command.TheVariants.{DisableDevice, DrainAll};
ghost use Rattle.dsa_regs.specs.declared.Fault.TheVariants.{Busy};
ghost use Rattle.dsa_desc.specs.declared.Outcome.TheVariants.{PageFault};
ghost use Rattle.dsa_book.specs.declared.answer.Cause.TheVariants.{AtLimit, NotEnabled, WrongKind};
ghost use Rattle.dsa_book.specs.declared.answer.DispatchAnswer.TheVariants as dispatch;
ghost use Rattle.dsa_book.specs.declared.answer.FetchAnswer.TheVariants as fetch;
ghost use Rattle.dsa_book.specs.declared.answer.FinishAnswer.TheVariants as finish;
ghost use Rattle.dsa_book.specs.declared.answer.IssueAnswer.TheVariants as issue;
ghost use Rattle.dsa_book.specs.declared.answer.PollAnswer.TheVariants as poll;
ghost use Rattle.dsa_book.specs.declared.answer.Reply.TheVariants as reply;
ghost use Rattle.dsa_book.specs.declared.answer.StartAnswer.TheVariants as start;
ghost use Rattle.dsa_book.specs.declared.answer.SubmitAnswer.TheVariants as submit;
ghost use Rattle.dsa_book.specs.declared.event.Event.TheVariants as event;
ghost use Rattle.dsa_workers.specs.Calls.{after_turn, call_of, calls_of, engine_event, found_full, goes_on, is_history_full, is_worker_waiting, steps_done, tickets_after, tickets_of, HasRoomForTickets, InOrder, IsCallAnswered, NextCommand, NextSubmission, NextTurn};
ghost use Rattle.dsa_workers.specs.Workers.{receipts_in, stint_at, Grows, IsFitting, ReportsClients, ReportsEngines, RunsAdmin, RunsClient, RunsClients, RunsEngine, RunsEngines, RunsScript};
ghost use Rattle.dsa_workers.specs.declared.scripts.WorkerEnd.TheVariants.{HistoryFull, ScriptDone, TurnsOut};
ghost use Rattle.dsa_shared_rows.specs.Worked.{again_of_client, asked_first, drain_of_all, end_of_engine, fetch_of_engine, member_fetched, member_script, of_client, question, report_of, script_call, lane_of, script_vector, script_step, seat_of, started_by_engine, stint_of, taken_of_client, ticket_named_so, wide_device, AnsweredNotBy};

/// Replies of a history without room, and others.
pub fn full_histories()
    ensures full { map is_history_full (reply.Submit submit.Full ∷ reply.Dispatch dispatch.Full
        ∷ reply.Fetch fetch.Full ∷ reply.Start start.Full ∷ reply.Finish finish.Full
        ∷ reply.Issue issue.Full ∷ reply.Poll poll.Full ∷ [])
        ≡ true ∷ true ∷ true ∷ true ∷ true ∷ true ∷ true ∷ [] }
    ensures not_full { map is_history_full (reply.Submit (submit.Retry AtLimit)
        ∷ reply.Dispatch dispatch.Idle ∷ reply.Fetch fetch.NoBatch ∷ reply.Start start.Nothing
        ∷ reply.Finish finish.Gone ∷ reply.Issue issue.Active ∷ reply.Poll poll.Nothing ∷ [])
        ≡ false ∷ false ∷ false ∷ false ∷ false ∷ false ∷ false ∷ [] }
{}

/// Replies after which a worker goes on, and others.
pub fn workers_that_go_on()
    ensures on { map goes_on (reply.Submit (submit.Accepted (ticket_named_so 3))
        ∷ reply.Submit (submit.Dropped AtLimit) ∷ reply.Submit (submit.Retry NotEnabled)
        ∷ reply.Submit (submit.Retry WrongKind) ∷ reply.Issue (issue.Ended 5)
        ∷ reply.Issue (issue.Refused Busy) ∷ reply.Poll poll.Finished ∷ [])
        ≡ true ∷ true ∷ true ∷ true ∷ true ∷ true ∷ true ∷ [] }
    ensures again { map goes_on (reply.Submit (submit.Retry AtLimit) ∷ reply.Submit submit.Full
        ∷ reply.Issue issue.Active ∷ reply.Poll poll.Active ∷ reply.Poll poll.Nothing
        ∷ reply.Dispatch dispatch.Idle ∷ [])
        ≡ false ∷ false ∷ false ∷ false ∷ false ∷ false ∷ [] }
{}

/// Calls that are answered by a device whose history has no room, and calls that are not answered
/// so, as by another kind of reply.
pub fn calls_that_are_answered()
    ensures by_kind { AnsweredNotBy (of_client 0 submit.Full) (reply.Dispatch dispatch.Full)
        × AnsweredNotBy (asked_first 3 dispatch.Full) (reply.Fetch fetch.Full)
        × AnsweredNotBy (record (fetch_of_engine 3) { reply = reply.Fetch fetch.Full })
        (reply.Start start.Full)
        × AnsweredNotBy (started_by_engine 3 start.Full) (reply.Finish finish.Full)
        × AnsweredNotBy (end_of_engine 3 finish.Full) (reply.Issue issue.Full)
        × AnsweredNotBy (drain_of_all issue.Full) (reply.Poll poll.Full)
        × AnsweredNotBy (question poll.Full) (reply.Submit submit.Full) }
    ensures not_answered { ¬ IsCallAnswered wide_device 0 []
        (record (question poll.Full) { event = event.Dispatch 3 }) }
    ensures no_room { ¬ IsCallAnswered wide_device 0 [] (question poll.Nothing) }
    ensures older { ¬ IsCallAnswered wide_device 0 (question poll.Finished ∷ [])
        (question poll.Full) }
{}

/// How many steps of a script some calls did, how many found no room, and whether the last waits.
pub fn calls_counted()
    ensures done { steps_done (again_of_client 0 ∷ taken_of_client 0 ∷ of_client 0 submit.Full
        ∷ taken_of_client 0 ∷ taken_of_client 0 ∷ []) ≡ 3 }
    ensures full { found_full (again_of_client 0 ∷ of_client 0 submit.Full
        ∷ taken_of_client 0 ∷ []) ≡ 1 }
    ensures waits { is_worker_waiting (taken_of_client 0 ∷ again_of_client 0 ∷ []) ≡ true }
    ensures goes_on { is_worker_waiting (again_of_client 0 ∷ taken_of_client 0 ∷ []) ≡ false }
    ensures at_first { is_worker_waiting [] ≡ false }
{}

/// The submission that comes next.
pub fn next_submissions()
    ensures second { NextSubmission wide_device 4 (seat_of 3 [])
        (script_step 6 ∷ script_step 7 ∷ []) (taken_of_client 3 ∷ again_of_client 3 ∷ [])
        (script_call 3 7 submit.Full) }
    ensures first_again { ¬ NextSubmission wide_device 4 (seat_of 3 [])
        (script_step 6 ∷ script_step 7 ∷ []) (taken_of_client 3 ∷ again_of_client 3 ∷ [])
        (script_call 3 6 submit.Full) }
    ensures not_answered { ¬ NextSubmission wide_device 4 (seat_of 3 [])
        (script_step 6 ∷ script_step 7 ∷ []) (taken_of_client 3 ∷ again_of_client 3 ∷ [])
        (record (script_call 3 7 submit.Full) { reply = reply.Poll poll.Full }) }
    ensures older_than_calls { ¬ NextSubmission wide_device 1 (seat_of 3 [])
        (script_step 6 ∷ script_step 7 ∷ []) (taken_of_client 3 ∷ again_of_client 3 ∷ [])
        (script_call 3 7 submit.Full) }
    ensures older_than_the_seat { ¬ NextSubmission wide_device 0
        (seat_of 3 (again_of_client 3 ∷ [])) (script_step 6 ∷ []) []
        (script_call 3 6 submit.Full) }
{}

/// The call of the administrator that comes next.
pub fn next_commands()
    ensures first { NextCommand wide_device 9 [] (DrainAll ∷ DisableDevice ∷ []) []
        (drain_of_all issue.Active) }
    ensures asked { NextCommand wide_device 9 [] (DrainAll ∷ DisableDevice ∷ [])
        (drain_of_all issue.Active ∷ []) (question poll.Active) }
    ensures not_asked { ¬ NextCommand wide_device 9 [] (DrainAll ∷ DisableDevice ∷ [])
        (drain_of_all issue.Active ∷ []) (drain_of_all issue.Active) }
    ensures not_answered { ¬ NextCommand wide_device 9 [] (DrainAll ∷ DisableDevice ∷ []) []
        (record (drain_of_all issue.Active) { reply = reply.Poll poll.Full }) }
    ensures older_than_calls { ¬ NextCommand wide_device 0 [] (DrainAll ∷ [])
        (drain_of_all issue.Active ∷ []) (question poll.Full) }
    ensures older_than_the_seat { ¬ NextCommand wide_device 0 (question poll.Finished ∷ [])
        (DrainAll ∷ []) [] (drain_of_all issue.Full) }
{}

/// Tickets with room for more, and none of them.
pub fn room_for_tickets()
    ensures room { HasRoomForTickets (record { tickets = []; room = 5 }) 4 }
    ensures just { HasRoomForTickets (record { tickets = []; room = 5 }) 5 }
    ensures no_room { ¬ HasRoomForTickets (record { tickets = []; room = 5 }) 6 }
    ensures one { ¬ HasRoomForTickets (record { tickets = ticket_named_so 1 ∷ []; room = 5 }) 4 }
{}

/// The tickets after an answer, and after some turns.
pub fn tickets_of_engines()
    ensures taken { tickets_after (ticket_named_so 1 ∷ ticket_named_so 2 ∷ [])
        (reply.Dispatch (dispatch.Taken (ticket_named_so 3) 6))
        ≡ ticket_named_so 1 ∷ ticket_named_so 2 ∷ ticket_named_so 3 ∷ [] }
    ensures started { tickets_after (ticket_named_so 1 ∷ ticket_named_so 2 ∷ [])
        (reply.Start (start.Started (ticket_named_so 3)))
        ≡ ticket_named_so 1 ∷ ticket_named_so 2 ∷ ticket_named_so 3 ∷ [] }
    ensures not_ready { tickets_after (ticket_named_so 1 ∷ ticket_named_so 2 ∷ ticket_named_so 3
        ∷ []) (reply.Finish finish.NotReady)
        ≡ ticket_named_so 2 ∷ ticket_named_so 3 ∷ ticket_named_so 1 ∷ [] }
    ensures done { tickets_after (ticket_named_so 1 ∷ ticket_named_so 2 ∷ ticket_named_so 3 ∷ [])
        (reply.Finish (finish.Done 1)) ≡ ticket_named_so 2 ∷ ticket_named_so 3 ∷ [] }
    ensures gone { tickets_after (ticket_named_so 1 ∷ ticket_named_so 2 ∷ ticket_named_so 3 ∷ [])
        (reply.Finish finish.Gone) ≡ ticket_named_so 2 ∷ ticket_named_so 3 ∷ [] }
    ensures others { map (tickets_after (ticket_named_so 1 ∷ ticket_named_so 2 ∷ []))
        (reply.Finish finish.Full ∷ reply.Dispatch dispatch.Idle ∷ [])
        ≡ (ticket_named_so 1 ∷ ticket_named_so 2 ∷ [])
        ∷ (ticket_named_so 1 ∷ ticket_named_so 2 ∷ []) ∷ [] }
    ensures calls { calls_of (Some (question poll.Full) ∷ None ∷ Some (taken_of_client 0) ∷ [])
        ≡ question poll.Full ∷ taken_of_client 0 ∷ [] }
    ensures turns { tickets_of (Some (asked_first 0 (dispatch.Taken (ticket_named_so 3) 6)) ∷ None
        ∷ Some (asked_first 0 (dispatch.Taken (ticket_named_so 4) 6)) ∷ [])
        ≡ ticket_named_so 3 ∷ ticket_named_so 4 ∷ [] }
{}

/// What an engine calls in its turns, and the call that comes of it.
pub fn turns_of_engines()
    ensures events { map (λ turn. engine_event 3 member_script turn (ticket_named_so 1
        ∷ ticket_named_so 2 ∷ [])) (0 ∷ 1 ∷ 2 ∷ 3 ∷ 4 ∷ 5 ∷ 6 ∷ 7 ∷ [])
        ≡ Some (event.Dispatch 3) ∷ Some (event.Fetch 3 member_script.member)
        ∷ Some (event.Start 3) ∷ Some (event.Finish 3 (ticket_named_so 1) PageFault)
        ∷ Some (event.Dispatch 3) ∷ Some (event.Fetch 3 member_script.member)
        ∷ Some (event.Start 3) ∷ Some (event.Finish 3 (ticket_named_so 1) PageFault) ∷ [] }
    ensures no_ticket { engine_event 3 member_script 3 [] ≡ None }
    ensures call { call_of (Some event.Poll) (Some (reply.Poll poll.Full))
        ≡ Some (question poll.Full) }
    ensures no_event { call_of None (Some (reply.Poll poll.Full)) ≡ None }
    ensures no_reply { call_of (Some event.Poll) None ≡ None }
    ensures seat { after_turn (seat_of 3 (again_of_client 3 ∷ [])) (Some (taken_of_client 3))
        ≡ seat_of 3 (again_of_client 3 ∷ taken_of_client 3 ∷ []) }
    ensures same_seat { after_turn (seat_of 3 (again_of_client 3 ∷ [])) None
        ≡ seat_of 3 (again_of_client 3 ∷ []) }
{}

/// The turn of an engine that comes next.
pub fn next_turns()
    ensures first { NextTurn wide_device 9 (seat_of 3 []) member_script []
        (Some (asked_first 3 dispatch.Idle)) }
    ensures no_call { NextTurn wide_device 9 (seat_of 3 []) member_script
        (None ∷ None ∷ None ∷ []) None }
    ensures not_answered { ¬ NextTurn wide_device 9 (seat_of 3 []) member_script []
        (Some (record (asked_first 3 dispatch.Idle) { reply = reply.Poll poll.Full })) }
    ensures other_event { ¬ NextTurn wide_device 9 (seat_of 3 []) member_script []
        (Some (question poll.Full)) }
    ensures older_than_calls { ¬ NextTurn wide_device 0 (seat_of 3 []) member_script
        (Some (member_fetched 3) ∷ None ∷ None ∷ None ∷ []) (Some (asked_first 3 dispatch.Full)) }
    ensures older_than_the_seat { ¬ NextTurn wide_device 0 (seat_of 3 (member_fetched 3 ∷ []))
        member_script [] (Some (asked_first 3 dispatch.Full)) }
{}

/// Turns that come in order, and turns that do not.
pub fn turns_in_order()
    ensures in_order { InOrder (λ before call. before ≡ []) (taken_of_client 0 ∷ []) }
    ensures second { ¬ InOrder (λ before call. before ≡ [])
        (taken_of_client 0 ∷ again_of_client 0 ∷ []) }
    ensures first { ¬ InOrder (λ before call. call ≡ again_of_client 0)
        (taken_of_client 0 ∷ again_of_client 0 ∷ []) }
{}

/// Receipts that grow at the end, by so many at most.
pub fn receipts_that_grow()
    ensures one { Grows (again_of_client 0 ∷ []) (again_of_client 0 ∷ taken_of_client 0 ∷ []) 1 }
    ensures none { Grows (again_of_client 0 ∷ []) (again_of_client 0 ∷ []) 1 }
    ensures others { ¬ Grows (again_of_client 0 ∷ [])
        (taken_of_client 0 ∷ again_of_client 0 ∷ []) 1 }
    ensures too_many { ¬ Grows (again_of_client 0 ∷ [])
        (again_of_client 0 ∷ taken_of_client 0 ∷ taken_of_client 0 ∷ []) 1 }
{}

/// A script for each seat, and receipts of the administrator.
pub fn scripts_that_fit()
    ensures fits { IsFitting 3 4 3 4 (Some (question poll.Full ∷ [])) }
    ensures clients { ¬ IsFitting 3 4 2 4 (Some (question poll.Full ∷ [])) }
    ensures engines { ¬ IsFitting 3 4 3 5 (Some (question poll.Full ∷ [])) }
    ensures admin { ¬ IsFitting 3 4 3 4 None }
    ensures receipts { receipts_in (Some (question poll.Full ∷ [])) ≡ question poll.Full ∷ [] }
    ensures no_receipts { receipts_in None ≡ [] }
{}

/// What a worker with a script does, as long as it has turns and the history has room.
pub fn scripts_run()
    ensures done { RunsScript (λ before call. ⊤) 2 3 (again_of_client 0 ∷ [])
        (again_of_client 0 ∷ taken_of_client 0 ∷ taken_of_client 0 ∷ []) (stint_of 2 ScriptDone) }
    ensures out_of_turns { RunsScript (λ before call. ⊤) 2 1 [] (taken_of_client 0 ∷ [])
        (stint_of 1 TurnsOut) }
    ensures full { RunsScript (λ before call. ⊤) 2 3 [] [] (stint_of 1 HistoryFull) }
    ensures waited { RunsScript (λ before call. ⊤) 1 3 []
        (again_of_client 0 ∷ taken_of_client 0 ∷ []) (stint_of 2 ScriptDone) }
{}

/// What no worker with a script does.
pub fn scripts_not_run()
    ensures receipts { ¬ RunsScript (λ before call. call ≡ taken_of_client 0) 1 1 [] []
        (stint_of 1 ScriptDone) }
    ensures in_order { ¬ RunsScript (λ before call. ⊥) 0 1 [] [] (stint_of 1 ScriptDone) }
    ensures stops { ¬ RunsScript (λ before call. call ≡ of_client 0 submit.Full) 1 2 [] []
        (stint_of 2 HistoryFull) }
    ensures within { ¬ RunsScript (λ before call. ⊤) 1 0 [] (taken_of_client 0 ∷ [])
        (stint_of 1 ScriptDone) }
    ensures short { ¬ RunsScript (λ before call. call ≡ taken_of_client 0) 0 1 []
        (taken_of_client 0 ∷ []) (stint_of 1 TurnsOut) }
    ensures turns_left { ¬ RunsScript (λ before call. ⊤) 1 1 [] [] (stint_of 0 TurnsOut) }
{}

/// What a client's worker does.
pub fn clients_run()
    ensures done { RunsClient wide_device 9 (script_step 6 ∷ []) 1 (seat_of 3 [])
        (seat_of 3 (script_call 3 6 (submit.Accepted (ticket_named_so 0)) ∷ []))
        (stint_of 1 ScriptDone) }
    ensures no_turn { RunsClient wide_device 9 (script_step 6 ∷ []) 0 (seat_of 3 []) (seat_of 3 [])
        (stint_of 0 TurnsOut) }
    ensures other_seat { ¬ RunsClient wide_device 9 [] 0 (seat_of 3 []) (seat_of 4 [])
        (stint_of 0 ScriptDone) }
{}

/// What an engine's worker does.
pub fn engines_run()
    ensures out_of_turns { RunsEngine wide_device 9 member_script 1
        (seat_of 3 (fetch_of_engine 3 ∷ []))
        (seat_of 3 (fetch_of_engine 3
        ∷ asked_first 3 (dispatch.Taken (ticket_named_so 0) 6) ∷ [])) (stint_of 1 TurnsOut) }
    ensures full { RunsEngine wide_device 0 member_script 2 (seat_of 3 []) (seat_of 3 [])
        (stint_of 1 HistoryFull) }
    ensures other_seat { ¬ RunsEngine wide_device 9 member_script 0 (seat_of 3 []) (seat_of 4 [])
        (stint_of 0 TurnsOut) }
    ensures scripted { ¬ RunsEngine wide_device 9 member_script 1 (seat_of 3 []) (seat_of 3 [])
        (stint_of 0 ScriptDone) }
    ensures within { ¬ RunsEngine wide_device 9 member_script 0 (seat_of 3 []) (seat_of 3 [])
        (stint_of 1 HistoryFull) }
    ensures turns_left { ¬ RunsEngine wide_device 9 member_script 1 (seat_of 3 []) (seat_of 3 [])
        (stint_of 0 TurnsOut) }
    ensures no_turn { ¬ RunsEngine wide_device 9 member_script 0 (seat_of 3 []) (seat_of 3 [])
        (stint_of 0 HistoryFull) }
    ensures after_full { ¬ RunsEngine wide_device 9 member_script 2 (seat_of 3 [])
        (seat_of 3 (member_fetched 3 ∷ [])) (stint_of 2 HistoryFull) }
    ensures not_its_step { ¬ RunsEngine wide_device 9 member_script 1 (seat_of 3 [])
        (seat_of 3 (taken_of_client 0 ∷ [])) (stint_of 1 TurnsOut) }
{}

/// Workers that say of calls what no device answers: none has so large a capacity, and where the
/// history has no room, each answer is Full.
pub fn calls_that_no_device_answers()
    ensures client { ¬ RunsClient wide_device 1048577 (script_step 6 ∷ []) 1 (seat_of 3 [])
        (seat_of 3 []) (stint_of 1 HistoryFull) }
    ensures engine { ¬ RunsEngine wide_device 0 member_script 1 (seat_of 3 []) (seat_of 3 [])
        (stint_of 1 TurnsOut) }
    ensures admin { ¬ RunsAdmin wide_device 0 (DrainAll ∷ []) 1 [] [] (stint_of 1 ScriptDone) }
{}

/// What a report says of a worker, and of one that it has no line for.
pub fn reports()
    ensures first { (memory : Global) → stint_at (report_of memory) 0 ≡ stint_of 4 ScriptDone }
    ensures second { (memory : Global) → stint_at (report_of memory) 1 ≡ stint_of 0 TurnsOut }
    ensures past_the_end { (memory : Global) → stint_at (report_of memory) 9
        ≡ stint_of 0 TurnsOut }
{}

/// What the workers of some seats do.
pub fn workers_of_seats()
    ensures no_clients { (memory : Global)
        → ReportsClients wide_device 9 [] 0 [] [] (report_of memory) }
    ensures other_client { (memory : Global)
        → ¬ ReportsClients wide_device 9 (script_vector memory ∷ []) 9
        (seat_of 3 [] ∷ []) (seat_of 4 [] ∷ []) (report_of memory) }
    ensures engines { (memory : Global)
        → ReportsEngines wide_device 9 (member_script ∷ member_script ∷ []) 0 1
        (seat_of 3 [] ∷ seat_of 4 [] ∷ []) (seat_of 3 [] ∷ seat_of 4 [] ∷ [])
        (report_of memory) }
    ensures other_engine { (memory : Global)
        → ¬ ReportsEngines wide_device 9 (member_script ∷ []) 0 1
        (seat_of 3 [] ∷ []) (seat_of 4 [] ∷ []) (report_of memory) }
    ensures no_lanes { RunsClients {A = Global} wide_device 9 [] 0 [] [] }
    ensures other_lane { (memory : Global) → ¬ RunsClients {A = Global} wide_device 9
        (script_vector memory ∷ []) 9 (lane_of (seat_of 3 []) ∷ []) (lane_of (seat_of 4 []) ∷ []) }
    ensures engine_lanes { RunsEngines {A = Global} wide_device 9 (member_script ∷ []) 0
        (lane_of (seat_of 3 []) ∷ []) (lane_of (seat_of 3 []) ∷ []) }
    ensures other_engine_lane { ¬ RunsEngines {A = Global} wide_device 9 (member_script ∷ []) 0
        (lane_of (seat_of 3 []) ∷ []) (lane_of (seat_of 4 []) ∷ []) }
{}
