//! Worked rows: what a step shows of what is watched for, and what the parties remember, each on a
//! function with nothing to do.

ghost use Rattle.std.specs.Prelude.{◌≡◌, List, [], ◌∷◌, map, true, false, None};
ghost use Rattle.std.specs.declared.alloc.Global.{Global};
ghost use Rattle.dsa_desc.specs.declared.Outcome.TheVariants.{PageFault, Success};
ghost use Rattle.dsa_regs.specs.declared.Fault.TheVariants.{Busy};
ghost use Rattle.dsa_book.specs.declared.answer.Cause.TheVariants.{AtLimit};
ghost use Rattle.dsa_book.specs.declared.answer.ClearAnswer.TheVariants as clear;
ghost use Rattle.dsa_book.specs.declared.answer.FinishAnswer.TheVariants as finish;
ghost use Rattle.dsa_book.specs.declared.answer.IssueAnswer.TheVariants as issue;
ghost use Rattle.dsa_book.specs.declared.answer.PollAnswer.TheVariants as poll;
ghost use Rattle.dsa_book.specs.declared.answer.Reply.TheVariants as reply;
ghost use Rattle.dsa_book.specs.declared.answer.SubmitAnswer.TheVariants as submit;
ghost use Rattle.dsa_book.specs.declared.answer.WriteAnswer.TheVariants as write;
ghost use Rattle.dsa_book.specs.declared.fate.Fate.TheVariants as fate;
ghost use Rattle.dsa_parties.specs.declared.places.Move.TheVariants as moves;
ghost use Rattle.dsa_parties.specs.declared.watches.Became.TheVariants as became;
ghost use Rattle.dsa_parties.specs.declared.watches.Replied.TheVariants as replied;
ghost use Rattle.dsa_parties.specs.declared.watches.Watch.TheVariants as watch;
ghost use Rattle.dsa_parties.specs.Offers.{label_ticket};
ghost use Rattle.dsa_parties.specs.Standing.{standing_first};
ghost use Rattle.dsa_parties.specs.Watches.{came_after, came_with, is_ahead, is_ended_so, is_replied_so};
ghost use Rattle.dsa_parties.specs.Watches.{is_submitted_so, is_to_do, is_watch_seen, moved_by};
ghost use Rattle.dsa_parties.specs.Worked.{all_at, part_between, place_at, remembering, row_of_end};
ghost use Rattle.dsa_parties.specs.Worked.{two_parts, worked_script};

/// What becomes of an entry.
pub fn of_answers_to_submissions()
    ensures accepted { map (is_submitted_so became.Accepted)
        (submit.Accepted (label_ticket 0) ∷ submit.Retry AtLimit ∷ submit.Dropped AtLimit
        ∷ submit.Full ∷ []) ≡ true ∷ false ∷ false ∷ false ∷ [] }
    ensures retry { map (is_submitted_so became.Retry)
        (submit.Accepted (label_ticket 0) ∷ submit.Retry AtLimit ∷ submit.Dropped AtLimit
        ∷ submit.Full ∷ []) ≡ false ∷ true ∷ false ∷ false ∷ [] }
    ensures dropped { map (is_submitted_so became.Dropped)
        (submit.Accepted (label_ticket 0) ∷ submit.Retry AtLimit ∷ submit.Dropped AtLimit
        ∷ submit.Full ∷ []) ≡ false ∷ false ∷ true ∷ false ∷ [] }
    ensures completed { map (is_ended_so became.Completed)
        (fate.Completed 1 ∷ fate.Completed 3 ∷ fate.Aborted 9 ∷ fate.Abandoned ∷ [])
        ≡ true ∷ true ∷ false ∷ false ∷ [] }
    ensures successful { map (is_ended_so became.Successful)
        (fate.Completed 1 ∷ fate.Completed 3 ∷ fate.Aborted 1 ∷ fate.Abandoned ∷ [])
        ≡ true ∷ false ∷ false ∷ false ∷ [] }
    ensures failed { map (is_ended_so became.Failed)
        (fate.Completed 1 ∷ fate.Completed 3 ∷ fate.Aborted 9 ∷ fate.Abandoned ∷ [])
        ≡ false ∷ true ∷ false ∷ false ∷ [] }
    ensures aborted { map (is_ended_so became.Aborted)
        (fate.Completed 1 ∷ fate.Completed 3 ∷ fate.Aborted 9 ∷ fate.Abandoned ∷ [])
        ≡ false ∷ false ∷ true ∷ false ∷ [] }
    ensures abandoned { map (is_ended_so became.Abandoned)
        (fate.Completed 1 ∷ fate.Completed 3 ∷ fate.Aborted 9 ∷ fate.Abandoned ∷ [])
        ≡ false ∷ false ∷ false ∷ true ∷ [] }
{}

/// What steps of administrators are answered.
pub fn of_answers_to_acts()
    ensures ended { map (is_replied_so replied.Ended)
        (reply.Issue (issue.Ended 3) ∷ reply.Issue issue.Active ∷ reply.Poll poll.Finished ∷ [])
        ≡ true ∷ false ∷ false ∷ [] }
    ensures active { map (is_replied_so replied.Active)
        (reply.Issue issue.Active ∷ reply.Poll poll.Active ∷ reply.Issue (issue.Ended 0)
        ∷ reply.Poll poll.Nothing ∷ []) ≡ true ∷ true ∷ false ∷ false ∷ [] }
    ensures refused { map (is_replied_so replied.Refused)
        (reply.Issue (issue.Refused Busy) ∷ reply.Write (write.Refused Busy)
        ∷ reply.Issue issue.Active ∷ reply.Write write.Written ∷ [])
        ≡ true ∷ true ∷ false ∷ false ∷ [] }
    ensures polls { map (is_replied_so replied.Finished)
        (reply.Poll poll.Finished ∷ reply.Poll poll.Active ∷ reply.Issue (issue.Ended 0) ∷ [])
        ≡ true ∷ false ∷ false ∷ [] }
    ensures nothing { map (is_replied_so replied.Nothing)
        (reply.Poll poll.Nothing ∷ reply.Clear clear.Nothing ∷ reply.Poll poll.Finished ∷ [])
        ≡ true ∷ true ∷ false ∷ [] }
    ensures writes { map (is_replied_so replied.Written)
        (reply.Write write.Written ∷ reply.Write (write.Refused Busy) ∷ [])
        ≡ true ∷ false ∷ [] }
    ensures clears { map (is_replied_so replied.Cleared)
        (reply.Clear (clear.Cleared (record { queue = 0; cause = AtLimit; overflow = false }))
        ∷ reply.Clear clear.Nothing ∷ []) ≡ true ∷ false ∷ [] }
{}

/// What a submission shows: client 0 submits entry 0, and nobody else submits it.
pub fn submissions_that_are_seen()
    ensures accepted { (memory : Global) → map (is_watch_seen (worked_script memory)
        (all_at (place_at 0 0) (place_at 4 0) 0 3) (moves.Client 0)
        (reply.Submit (submit.Accepted (label_ticket 0))) [])
        (watch.Entry 0 became.Accepted ∷ watch.Entry 1 became.Accepted
        ∷ watch.Entry 4 became.Accepted ∷ watch.Entry 0 became.Retry
        ∷ watch.Entry 0 became.Completed ∷ watch.Act 0 replied.Ended ∷ [])
        ≡ true ∷ false ∷ false ∷ false ∷ false ∷ false ∷ [] }
    ensures retry { (memory : Global) → map (is_watch_seen (worked_script memory)
        (all_at (place_at 0 0) (place_at 4 1) 0 3) (moves.Client 1)
        (reply.Submit (submit.Retry AtLimit)) [])
        (watch.Entry 4 became.Retry ∷ watch.Entry 4 became.Accepted ∷ watch.Entry 0 became.Retry
        ∷ watch.Before 4 3 ∷ []) ≡ true ∷ false ∷ false ∷ false ∷ [] }
    ensures through { (memory : Global) → is_watch_seen (worked_script memory)
        (all_at (place_at 0 0) (place_at 5 0) 0 3) (moves.Client 1)
        (reply.Submit (submit.Accepted (label_ticket 4))) [] (watch.Entry 4 became.Accepted)
        ≡ false }
{}

/// What ends show: the rows of a step have labels, and any move may end an entry.
pub fn ends_that_are_seen()
    ensures completed { (memory : Global) → map (is_watch_seen (worked_script memory)
        (all_at (place_at 3 0) (place_at 4 0) 0 3) (moves.Finish 3 1 PageFault)
        (reply.Finish (finish.Done 3)) (row_of_end 1 (fate.Completed 3) ∷ []))
        (watch.Entry 1 became.Completed ∷ watch.Entry 1 became.Failed
        ∷ watch.Entry 1 became.Successful ∷ watch.Entry 2 became.Failed ∷ [])
        ≡ true ∷ true ∷ false ∷ false ∷ [] }
    ensures aborted { (memory : Global) → map (is_watch_seen (worked_script memory)
        (all_at (place_at 4 0) (place_at 5 0) 3 3) (moves.Administrator 1)
        (reply.Issue (issue.Ended 2))
        (row_of_end 3 (fate.Aborted 4) ∷ row_of_end 4 (fate.Aborted 4) ∷ []))
        (watch.Entry 3 became.Aborted ∷ watch.Entry 4 became.Aborted
        ∷ watch.Entry 0 became.Aborted ∷ watch.Act 3 replied.Ended ∷ watch.Act 2 replied.Ended
        ∷ []) ≡ true ∷ true ∷ false ∷ true ∷ false ∷ [] }
{}

/// What answers to acts show: administrator 0 polls by act 1.
pub fn acts_that_are_seen()
    ensures poll { (memory : Global) → map (is_watch_seen (worked_script memory)
        (all_at (place_at 0 0) (place_at 4 0) 1 3) (moves.Administrator 0)
        (reply.Poll poll.Finished) [])
        (watch.Act 1 replied.Finished ∷ watch.Act 1 replied.Active ∷ watch.Act 0 replied.Finished
        ∷ watch.Act 3 replied.Finished ∷ watch.Entry 1 became.Completed ∷ [])
        ≡ true ∷ false ∷ false ∷ false ∷ false ∷ [] }
    ensures client { (memory : Global) → is_watch_seen (worked_script memory)
        (all_at (place_at 0 0) (place_at 4 0) 1 3) (moves.Client 0) (reply.Poll poll.Finished) []
        (watch.Act 1 replied.Finished) ≡ false }
{}

/// Which acts are still to be done, where administrator 0 has acts 0 to 2, and administrator 1 act
/// 3; and what is accepted before an act.
pub fn acts_to_come()
    ensures first { map (λ act. is_to_do act two_parts (0 ∷ 3 ∷ []))
        (0 ∷ 1 ∷ 2 ∷ 3 ∷ 4 ∷ []) ≡ true ∷ true ∷ true ∷ true ∷ false ∷ [] }
    ensures later { map (λ act. is_to_do act two_parts (2 ∷ 4 ∷ []))
        (0 ∷ 1 ∷ 2 ∷ 3 ∷ 4 ∷ []) ≡ false ∷ false ∷ true ∷ false ∷ false ∷ [] }
    ensures part { map (λ next. is_ahead 3 (part_between 2 5) next) (2 ∷ 3 ∷ 4 ∷ 5 ∷ [])
        ≡ true ∷ true ∷ false ∷ false ∷ [] }
    ensures ends { map (λ act. is_ahead act (part_between 2 5) 2) (1 ∷ 2 ∷ 4 ∷ 5 ∷ [])
        ≡ false ∷ true ∷ true ∷ false ∷ [] }
    ensures before { (memory : Global) → map (is_watch_seen (worked_script memory)
        (all_at (place_at 0 0) (place_at 4 0) 1 3) (moves.Client 1)
        (reply.Submit (submit.Accepted (label_ticket 4))) [])
        (watch.Before 4 3 ∷ watch.Before 4 1 ∷ watch.Before 4 0 ∷ watch.Before 3 3 ∷ [])
        ≡ true ∷ true ∷ false ∷ false ∷ [] }
    ensures after { (memory : Global) → is_watch_seen (worked_script memory)
        (all_at (place_at 0 0) (place_at 4 0) 1 4) (moves.Client 1)
        (reply.Submit (submit.Accepted (label_ticket 4))) [] (watch.Before 4 3) ≡ false }
    ensures an_end { (memory : Global) → is_watch_seen (worked_script memory)
        (all_at (place_at 0 0) (place_at 4 0) 1 3) (moves.Administrator 0)
        (reply.Submit (submit.Accepted (label_ticket 4))) [] (watch.Before 4 3) ≡ false }
{}

/// What has come is remembered, and what a step shows has come.
pub fn what_is_remembered()
    ensures first { (memory : Global) → (standing_first (worked_script memory)).came
        ≡ false ∷ false ∷ false ∷ false ∷ [] }
    ensures kept { (memory : Global) → came_after (worked_script memory)
        (remembering (true ∷ false ∷ true ∷ false ∷ [])) (moves.Start 3)
        (reply.Poll poll.Nothing) []
        ≡ true ∷ false ∷ true ∷ false ∷ [] }
    ensures one_more { (memory : Global) → came_after (worked_script memory)
        (remembering (true ∷ false ∷ false ∷ false ∷ [])) (moves.Administrator 0)
        (reply.Poll poll.Finished) [] ≡ true ∷ false ∷ true ∷ false ∷ [] }
    ensures an_end { (memory : Global) → came_after (worked_script memory)
        (remembering (false ∷ false ∷ false ∷ true ∷ [])) (moves.Finish 3 1 Success)
        (reply.Finish (finish.Done 1)) (row_of_end 1 (fate.Completed 1) ∷ [])
        ≡ false ∷ true ∷ false ∷ true ∷ [] }
    ensures none { came_with (λ watch. true) [] (false ∷ []) ≡ false ∷ [] }
    ensures moved { (memory : Global) → moved_by (worked_script memory)
        (remembering (false ∷ true ∷ false ∷ false ∷ [])) (moves.Client 1)
        (reply.Submit (submit.Accepted (label_ticket 4))) []
        ≡ record (all_at (place_at 3 0) (place_at 5 0) 1 3) {
          came = false ∷ true ∷ false ∷ true ∷ [];
        } }
{}
