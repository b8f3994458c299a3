//! Worked rows: how rows are called, and their order, each on a function with nothing to do.

ghost use Rattle.std.specs.Prelude.{◌≡◌, [], ◌∷◌, codes, map};
ghost use Rattle.dsa_book.specs.declared.answer.Cause.TheVariants.{AtLimit};
ghost use Rattle.dsa_book.specs.declared.answer.IssueAnswer.TheVariants as issue;
ghost use Rattle.dsa_book.specs.declared.answer.PollAnswer.TheVariants as poll;
ghost use Rattle.dsa_book.specs.declared.answer.Reply.TheVariants as reply;
ghost use Rattle.dsa_book.specs.declared.answer.SubmitAnswer.TheVariants.{Accepted, Retry};
ghost use Rattle.dsa_book.specs.declared.fate.Fate.TheVariants.{Completed, Aborted};
ghost use Rattle.dsa_parties.specs.Offers.{label_ticket};
ghost use Rattle.dsa_tables.specs.Naming.{row_name, table_rows, HasNoRowNamed, IsFirstNamed};
ghost use Rattle.dsa_tables.specs.Worked.{act_found, all_rows, end_found, removal_found, submission_found, three_acts, two_labels, wait_found};

/// How rows are called: an entry and an act without a name go by their number.
#[tactic(auto, unfolding(crate::specs::Worked::tables_on_literals, crate::specs::Naming::row_name))]
pub fn of_calls()
    ensures entries { map (λ row. row_name two_labels three_acts row.finding)
        (submission_found 0 (Accepted (label_ticket 0)) 1 ∷ submission_found 1 (Retry AtLimit) 2
        ∷ end_found 1 (Aborted 10) 4 ∷ end_found 7 (Completed 1) 5 ∷ [])
        ≡ codes "x0: accepted"
        ∷ codes "y0: retry at-limit"
        ∷ codes "y0: aborted 10"
        ∷ codes "7: completed 01"
        ∷ [] }
    ensures acts { map (λ row. row_name two_labels three_acts row.finding)
        (act_found 0 (reply.Issue issue.Active) 2 ∷ act_found 1 (reply.Poll poll.Finished) 4
        ∷ wait_found 0 1 2 ∷ removal_found 2 0 6 ∷ removal_found 3 9 6 ∷ [])
        ≡ codes "drain: active"
        ∷ codes "poll: finished"
        ∷ codes "drain: waits for y0"
        ∷ codes "reset: removes x0"
        ∷ codes "3: removes 9"
        ∷ [] }
{}

/// Rows in the order of the table. Those that its lines do not have are left out.
#[tactic(auto, unfolding(crate::specs::Naming::rows_of_act))]
pub fn of_orders()
    ensures whole { table_rows two_labels three_acts all_rows
        ≡ submission_found 0 (Accepted (label_ticket 0)) 1
        ∷ submission_found 0 (Retry AtLimit) 2
        ∷ end_found 0 (Completed 1) 3
        ∷ submission_found 1 (Accepted (label_ticket 1)) 1
        ∷ end_found 1 (Aborted 10) 4
        ∷ act_found 0 (reply.Issue (issue.Ended 0)) 1
        ∷ act_found 0 (reply.Issue issue.Active) 2
        ∷ wait_found 0 1 2
        ∷ wait_found 0 0 5
        ∷ act_found 1 (reply.Poll poll.Finished) 4
        ∷ act_found 2 (reply.Issue (issue.Ended 1)) 4
        ∷ removal_found 2 1 4
        ∷ removal_found 2 0 6
        ∷ [] }
    ensures one { table_rows (codes "x0" ∷ []) [] all_rows
        ≡ submission_found 0 (Accepted (label_ticket 0)) 1
        ∷ submission_found 0 (Retry AtLimit) 2
        ∷ end_found 0 (Completed 1) 3
        ∷ [] }
{}

/// Of two rows that are called alike the first counts.
#[tactic(auto, unfolding(crate::specs::Worked::tables_on_literals, crate::specs::Naming::row_name))]
pub fn of_equal_calls()
    ensures first { IsFirstNamed (codes "x" ∷ codes "x" ∷ []) []
        (end_found 0 (Aborted 10) 4 ∷ end_found 1 (Aborted 10) 5 ∷ []) (codes "x: aborted 10")
        (end_found 0 (Aborted 10) 4) }
    ensures second { ¬ IsFirstNamed (codes "x" ∷ codes "x" ∷ []) []
        (end_found 0 (Aborted 10) 4 ∷ end_found 1 (Aborted 10) 5 ∷ []) (codes "x: aborted 10")
        (end_found 1 (Aborted 10) 5) }
    ensures none { HasNoRowNamed (codes "x" ∷ []) [] (end_found 0 (Aborted 10) 4 ∷ [])
        (codes "x: aborted 4") }
{}
