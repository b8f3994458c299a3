//! Labels, and what is told by labels.

ghost use Rattle.std.specs.Prelude.{◌≡◌, ℕ, [], ◌∷◌, Some, None, true, false, map};
ghost use Rattle.dsa_desc.specs.declared.Outcome.TheVariants.{Success};
ghost use Rattle.dsa_book.specs.declared.answer.DispatchAnswer.TheVariants.{Taken, Idle};
ghost use Rattle.dsa_book.specs.declared.answer.FetchAnswer.TheVariants.{Fetched, NoBatch};
ghost use Rattle.dsa_book.specs.declared.answer.FinishAnswer.TheVariants.{Done};
ghost use Rattle.dsa_book.specs.declared.answer.IssueAnswer.TheVariants.{Ended};
ghost use Rattle.dsa_book.specs.declared.answer.StartAnswer.TheVariants.{Started, Abandoned};
ghost use Rattle.dsa_book.specs.declared.answer.SubmitAnswer.TheVariants.{Accepted, Retry};
ghost use Rattle.dsa_book.specs.declared.answer.Cause.TheVariants.{AtLimit};
ghost use Rattle.dsa_book.specs.declared.answer.Reply.TheVariants as reply;
ghost use Rattle.dsa_book.specs.declared.event.Event.TheVariants as event;
ghost use Rattle.dsa_book.specs.declared.fate.Fate.TheVariants.{Completed, Aborted};
ghost use Rattle.dsa_worked.specs.Setup.{ticket, row, no_op};
ghost use Rattle.dsa_keys.specs.Labels.{with_label, with_next_label, labelled_ticket};
ghost use Rattle.dsa_keys.specs.Labels.{labelled_reply, labelled_note, labelled_row};
ghost use Rattle.dsa_keys.specs.Labels.{HasDistinctLabels, IsFreshLabel};
ghost use Rattle.dsa_keys.specs.Steps.{event_by_label};
ghost use Rattle.dsa_keys.specs.Replays.{gives_name, used_after};
ghost use Rattle.dsa_keys_rows.specs.Histories.{fetched_as, polled_as};
ghost use Rattle.dsa_keys_rows.specs.Holding.{hundreds, busy};

/// Labels with one more.
pub fn labels_of_names()
    ensures one_name { map (with_label hundreds 3 7) (2 ∷ 3 ∷ 4 ∷ []) ≡ 102 ∷ 7 ∷ 104 ∷ [] }
    ensures next_name { map (with_next_label hundreds busy 7) (19 ∷ 20 ∷ 21 ∷ [])
        ≡ 119 ∷ 7 ∷ 121 ∷ [] }
{}

/// What is told by labels alone.
pub fn told_by_label()
    ensures tickets { labelled_ticket hundreds (ticket 3 5) ≡ ticket 0 105 }
    ensures replies { map (labelled_reply hundreds)
        (reply.Submit (Accepted (ticket 3 5)) ∷ reply.Dispatch (Taken (ticket 3 6) 2)
        ∷ reply.Fetch (Fetched (ticket 3 7)) ∷ reply.Start (Started (ticket 3 8)) ∷ [])
        ≡ reply.Submit (Accepted (ticket 0 105)) ∷ reply.Dispatch (Taken (ticket 0 106) 2)
        ∷ reply.Fetch (Fetched (ticket 0 107)) ∷ reply.Start (Started (ticket 0 108)) ∷ [] }
    ensures others { map (labelled_reply hundreds)
        (reply.Submit (Retry AtLimit) ∷ reply.Dispatch Idle ∷ reply.Fetch NoBatch
        ∷ reply.Start (Abandoned 2) ∷ reply.Finish (Done 1) ∷ reply.Issue (Ended 3) ∷ [])
        ≡ reply.Submit (Retry AtLimit) ∷ reply.Dispatch Idle ∷ reply.Fetch NoBatch
        ∷ reply.Start (Abandoned 2) ∷ reply.Finish (Done 1) ∷ reply.Issue (Ended 3) ∷ [] }
    ensures notes { labelled_note hundreds
        (record { batch = 4; count = 3; fetched = 2; failed = true; closed = false })
        ≡ record { batch = 104; count = 3; fetched = 2; failed = true; closed = false } }
    ensures rows { map (labelled_row hundreds)
        (row 4 None (Completed 1) ∷ row 6 (Some 4) (Aborted 7) ∷ [])
        ≡ row 104 None (Completed 1) ∷ row 106 None (Aborted 7) ∷ [] }
{}

/// Events that name an entry by its label: a running one on the engine.
pub fn events_by_label()
    ensures running { event_by_label hundreds busy (event.Finish 1 (ticket 0 111) Success)
        ≡ Some (event.Finish 1 (ticket 2 11) Success) }
    ensures member { event_by_label hundreds busy (event.Finish 0 (ticket 8 113) Success)
        ≡ Some (event.Finish 0 (ticket 5 13) Success) }
    ensures other_engine { event_by_label hundreds busy (event.Finish 0 (ticket 2 111) Success)
        ≡ None }
    ensures waiting { event_by_label hundreds busy (event.Finish 0 (ticket 4 112) Success) ≡ None }
    ensures by_name { event_by_label hundreds busy (event.Finish 1 (ticket 2 11) Success) ≡ None }
    ensures others { map (event_by_label hundreds busy)
        (event.Dispatch 1 ∷ event.Fetch 0 no_op ∷ event.Poll ∷ [])
        ≡ Some (event.Dispatch 1) ∷ Some (event.Fetch 0 no_op) ∷ Some event.Poll ∷ [] }
{}

/// Replies that give a name, and the labels in use after them.
pub fn labels_in_use()
    ensures gives { map gives_name
        (reply.Submit (Accepted (ticket 3 5)) ∷ reply.Fetch (Fetched (ticket 3 7)) ∷ [])
        ≡ true ∷ true ∷ [] }
    ensures gives_none { map gives_name
        (reply.Submit (Retry AtLimit) ∷ reply.Fetch NoBatch ∷ reply.Dispatch (Taken (ticket 3 6) 2)
        ∷ reply.Start (Started (ticket 3 8)) ∷ [])
        ≡ false ∷ false ∷ false ∷ false ∷ [] }
    ensures one_more { used_after (5 ∷ 6 ∷ []) (fetched_as 3 7 9) ≡ 9 ∷ 5 ∷ 6 ∷ [] }
    ensures no_more { used_after (5 ∷ 6 ∷ []) (polled_as 9) ≡ 5 ∷ 6 ∷ [] }
{}

/// Labels that tell names apart, and labels that no name has.
pub fn distinct_labels()
    ensures hundreds { HasDistinctLabels hundreds busy }
    ensures alike_from_the_next_name { HasDistinctLabels (λ name. with_label hundreds 20 100 name)
        busy }
    ensures one_for_all { ¬ HasDistinctLabels (λ name. 5) busy }
    ensures one_for_two { ¬ HasDistinctLabels (with_label hundreds 19 100) busy }
    ensures fresh { IsFreshLabel hundreds busy 7 }
    ensures of_the_next_name { IsFreshLabel hundreds busy 120 }
    ensures of_the_last_name { ¬ IsFreshLabel hundreds busy 119 }
{}
