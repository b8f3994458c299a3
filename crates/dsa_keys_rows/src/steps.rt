//! Steps by labels, one and several, and the same steps of two states.

ghost use Rattle.std.specs.Prelude.{◌≡◌, [], ◌∷◌, Some, None, map, option_map};
ghost use Rattle.dsa_desc.specs.declared.Outcome.TheVariants.{Success};
ghost use Rattle.dsa_regs.specs.declared.Command.TheVariants.{DrainAll};
ghost use Rattle.dsa_book.specs.declared.answer.FinishAnswer.TheVariants.{Done, NotReady};
ghost use Rattle.dsa_book.specs.declared.answer.PollAnswer.TheVariants.{Active, Nothing};
ghost use Rattle.dsa_book.specs.declared.answer.Reply.TheVariants as reply;
ghost use Rattle.dsa_book.specs.declared.event.Event.TheVariants as event;
ghost use Rattle.dsa_book.specs.declared.fate.Fate.TheVariants.{Completed};
ghost use Rattle.dsa_worked.specs.Setup.{ticket, row};
ghost use Rattle.dsa_worked.specs.Uneven.{three_two_one};
ghost use Rattle.dsa_keys.specs.Labels.{with_label, HaveSameEnds};
ghost use Rattle.dsa_keys.specs.Marks.{HasLawfulMark};
ghost use Rattle.dsa_keys.specs.Steps.{next_by_label, HasSameStep, IsLabelled, IsSameStep};
ghost use Rattle.dsa_keys.specs.Replays.{AreFreshLabels, AreInUse, labels_at, replay_by_labels, told_by_labels};
ghost use Rattle.dsa_keys_rows.specs.Histories.{ended_as, fetched_as, polled_as};
ghost use Rattle.dsa_keys_rows.specs.Holding.{after_fates, busy, drained_by, ended_by, hundreds};
ghost use Rattle.dsa_keys_rows.specs.Holding.{later_marked, no_lists, paired, state_by};
ghost use Rattle.dsa_keys_rows.specs.Holding.{state_of_lists};

/// Marks of active commands.
pub fn marks()
    ensures given { HasLawfulMark (state_by no_lists [] (Some (record {
      command = DrainAll;
      mark = 19;
    }))) }
    ensures next_name { HasLawfulMark (state_by no_lists [] (Some (record {
      command = DrainAll;
      mark = 20;
    }))) }
    ensures later { ¬ HasLawfulMark (state_by no_lists [] (Some (record {
      command = DrainAll;
      mark = 21;
    }))) }
    ensures no_command { HasLawfulMark (state_of_lists no_lists) }
{}

/// Ends of two steps: the same by labels, whatever was before them and whatever the names.
pub fn same_ends()
    ensures same { HaveSameEnds hundreds (paired ((0, 104) ∷ []))
        (after_fates (row 1 None (Completed 1) ∷ []))
        (after_fates (row 1 None (Completed 1) ∷ row 4 (Some 1) (Completed 2) ∷ []))
        (after_fates (row 9 None (Completed 3) ∷ []))
        (after_fates (row 9 None (Completed 3) ∷ row 0 (Some 9) (Completed 2) ∷ [])) }
    ensures none { HaveSameEnds hundreds hundreds (after_fates (row 1 None (Completed 1) ∷ []))
        (after_fates (row 1 None (Completed 1) ∷ [])) (after_fates []) (after_fates []) }
    ensures other_status { ¬ HaveSameEnds hundreds hundreds (after_fates [])
        (after_fates (row 4 None (Completed 1) ∷ [])) (after_fates [])
        (after_fates (row 4 None (Completed 2) ∷ [])) }
    ensures other_label { ¬ HaveSameEnds hundreds hundreds (after_fates [])
        (after_fates (row 4 None (Completed 1) ∷ [])) (after_fates [])
        (after_fates (row 5 None (Completed 1) ∷ [])) }
    ensures one_more { ¬ HaveSameEnds hundreds hundreds (after_fates [])
        (after_fates (row 4 None (Completed 1) ∷ [])) (after_fates []) (after_fates []) }
{}

/// Steps that name an entry by its label.
pub fn steps_by_label()
    ensures ended { option_map (λ s. s.work.fates)
        (next_by_label hundreds busy (event.Finish 1 (ticket 0 111) Success)
        (reply.Finish (Done 1)))
        ≡ Some (row 11 None (Completed 1) ∷ []) }
    ensures not_ready { next_by_label hundreds busy (event.Finish 0 (ticket 0 110) Success)
        (reply.Finish NotReady)
        ≡ Some busy }
    ensures no_such_label { next_by_label hundreds busy (event.Finish 0 (ticket 0 10) Success)
        (reply.Finish NotReady)
        ≡ None }
    ensures other_reply { next_by_label hundreds busy (event.Finish 0 (ticket 0 110) Success)
        (reply.Finish (Done 1))
        ≡ None }
{}

/// Steps that are not the same, and states that are not labelled.
pub fn same_steps()
    ensures other_reply { ¬ IsSameStep three_two_one hundreds hundreds busy busy busy busy
        (reply.Poll Active) (reply.Poll Nothing) }
    ensures other_key { ¬ IsSameStep three_two_one hundreds hundreds busy busy busy
        (state_of_lists no_lists) (reply.Poll Active) (reply.Poll Active) }
    ensures other_ends { ¬ IsSameStep three_two_one hundreds hundreds (ended_by [])
        (ended_by (row 4 None (Completed 1) ∷ [])) (ended_by []) (ended_by [])
        (reply.Poll Active) (reply.Poll Active) }
    ensures first_unlabelled { ¬ IsSameStep three_two_one hundreds hundreds busy later_marked busy
        later_marked (reply.Poll Active) (reply.Poll Active) }
    ensures second_unlabelled { ¬ IsSameStep three_two_one hundreds hundreds busy
        (drained_by DrainAll 20) busy (drained_by DrainAll 21) (reply.Poll Active)
        (reply.Poll Active) }
    ensures leads_elsewhere { ¬ HasSameStep three_two_one hundreds hundreds busy later_marked busy
        event.Poll (reply.Poll Active) }
    ensures leads_nowhere { ¬ HasSameStep three_two_one hundreds hundreds busy busy
        (state_of_lists no_lists) (event.Finish 1 (ticket 0 111) Success) (reply.Finish (Done 1)) }
    ensures later_mark { ¬ IsLabelled three_two_one hundreds
        later_marked }
    ensures one_label { ¬ IsLabelled three_two_one (λ name. 5) busy }
    ensures no_lists { ¬ IsLabelled three_two_one hundreds (state_of_lists []) }
{}

/// Steps by labels, one after another: a fetch gives the next name its label, and an end is of the
/// entry with its label.
pub fn steps_one_after_another()
    ensures labels { map (labels_at hundreds busy (fetched_as 8 20 7)) (19 ∷ 20 ∷ 21 ∷ [])
        ≡ 119 ∷ 7 ∷ 121 ∷ [] }
    ensures label { option_map (λ after. after.0 20)
        (replay_by_labels hundreds busy (fetched_as 8 20 7 ∷ ended_as 113 9 ∷ []))
        ≡ Some 7 }
    ensures next_name { option_map (λ after. after.1.work.setup.next_name)
        (replay_by_labels hundreds busy (fetched_as 8 20 7 ∷ ended_as 113 9 ∷ []))
        ≡ Some 21 }
    ensures told { told_by_labels hundreds busy (fetched_as 8 20 7 ∷ polled_as 9 ∷ [])
        ≡ fetched_as 0 7 7 ∷ polled_as 9 ∷ [] }
    ensures not_in_order { replay_by_labels hundreds busy (ended_as 7 9 ∷ fetched_as 8 20 7 ∷ [])
        ≡ None }
{}

/// Labels that steps bring in, none of which is in use before.
pub fn labels_of_steps()
    ensures fresh { AreFreshLabels (5 ∷ []) (fetched_as 8 20 7 ∷ []) }
    ensures in_use { ¬ AreFreshLabels (5 ∷ []) (fetched_as 8 20 5 ∷ []) }
    ensures twice { ¬ AreFreshLabels [] (fetched_as 8 20 7 ∷ fetched_as 9 21 7 ∷ []) }
    ensures all_in_use { AreInUse (7 ∷ []) (λ name. 7) (state_of_lists no_lists) }
    ensures but_the_next_one { AreInUse (7 ∷ []) (with_label (λ name. 7) 20 9)
        (state_of_lists no_lists) }
    ensures one_is_not { ¬ AreInUse (100 ∷ []) hundreds (state_of_lists no_lists) }
{}
