//! Why no member is fetched or starts, which member failed, and why an entry does not end; and the
//! reason that no device comes to, in a state that no history leads to: no group is written anew
//! while a member waits.

ghost use Rattle.std.specs.Prelude.{◌≡◌, [], ◌∷◌, Some, None, true, false, map, option_map, take};
ghost use Rattle.dsa_regs.specs.declared.layout.ListUse.TheVariants.{Members, Progress, Queue};
ghost use Rattle.dsa_book.specs.declared.fate.Fate.TheVariants.{Abandoned, Aborted, Completed};
ghost use Rattle.dsa_book.specs.declared.answer.FetchAnswer.TheVariants as fetched;
ghost use Rattle.dsa_book.specs.declared.answer.FinishAnswer.TheVariants as finished;
ghost use Rattle.dsa_book.specs.declared.answer.StartAnswer.TheVariants as started;
ghost use Rattle.dsa_book.specs.Work.{start};
ghost use Rattle.dsa_answers.specs.Writes.{with_groups};
ghost use Rattle.dsa_worked.specs.Setup.{row, held_entry, state_after, ticket, no_op};
ghost use Rattle.dsa_worked.specs.Batches.{buffers_of_a_batch, failure_abandons, fence_waits};
ghost use Rattle.dsa_worked.specs.Commands.{drain_of_a_batch, old_ticket_is_gone};
ghost use Rattle.dsa_worked.specs.Drains.{drain_behind_a_batch, drains_of_two_pasids};
ghost use Rattle.dsa_worked.specs.Members.{batch_is_not_ready, failure_before_buffers, failures_beside_a_batch, fence_before_buffers, fence_waits_behind_a_failure, three_are_abandoned};
ghost use Rattle.dsa_worked.specs.States.{seen_after};
ghost use Rattle.dsa_worked.specs.Submissions.{forged_tickets};
ghost use Rattle.dsa_engines.specs.declared.reasons.FetchReason.TheVariants as fetch;
ghost use Rattle.dsa_engines.specs.declared.reasons.StartReason.TheVariants.{Failed, Fence, NoBuffers, NoGroup, Nothing};
ghost use Rattle.dsa_engines.specs.declared.reasons.FinishReason.TheVariants.{DrainWaits, Elsewhere, MembersLeft, NoEngine, NoEntry, NotStarted, OtherName, StillToFetch};
ghost use Rattle.dsa_engines.specs.Batch.{failed_member, fetch_answer, fetch_reason, fetch_reason_of, is_failed_in, name_of_entry, start_answer, start_reason, unfetched, unstarted};
ghost use Rattle.dsa_engines.specs.Finish.{finish_answer, finish_reason, unended};
ghost use Rattle.dsa_explain_rows.specs.After.{of_one_group, with_few_buffers};
ghost use Rattle.dsa_explain_rows.specs.Histories.{batch_of_the_second_group, drain_behind_two};
ghost use Rattle.dsa_explain_rows.specs.Wants.{want_of_a_member, few_wanted};

/// Why no member is fetched: no engine, no batch, or how many of how many were, and whether the
/// rest is abandoned.
pub fn fetches()
    ensures no_engine { seen_after (λ w. fetch_reason w 2) [] ≡ Some (Some fetch.NoEngine) }
    ensures no_batch { seen_after (λ w. fetch_reason w 1) (take 5 fence_waits)
        ≡ Some (Some fetch.NoBatch) }
    ensures all { seen_after (λ w. fetch_reason w 0) (take 5 fence_waits)
        ≡ Some (Some (fetch.AllFetched 3 3 false)) }
    ensures on_the_second { seen_after (λ w. fetch_reason w 1) batch_of_the_second_group
        ≡ Some (Some (fetch.AllFetched 4 4 false)) }
    ensures closed { seen_after (λ w. fetch_reason w 0) (take 7 failure_abandons)
        ≡ Some (Some (fetch.AllFetched 3 2 true)) }
    ensures one_left { seen_after (λ w. fetch_reason w 0) (take 4 fence_waits) ≡ Some None }
    ensures failed_and_not_closed { seen_after (λ w. fetch_reason w 0) (take 6 failure_abandons)
        ≡ Some None }
    ensures note_of_no_batch { fetch_reason_of
        (record { batch = 0; count = 3; fetched = 1; failed = false; closed = false }) None
        ≡ Some fetch.NoBatch }
    ensures ended { seen_after (λ w. fetch_reason w 0) fence_waits ≡ Some (Some fetch.NoBatch) }
    ensures answers { map fetch_answer
        (fetch.NoEngine ∷ fetch.NoBatch ∷ fetch.AllFetched 3 2 true ∷ [])
        ≡ fetched.NoBatch ∷ fetched.NoBatch ∷ fetched.AllFetched ∷ [] }
    ensures unfetched { map unfetched (fetched.Fetched (ticket 0 0) ∷ fetched.NoBatch ∷ [])
        ≡ None ∷ Some fetched.NoBatch ∷ [] }
{}

/// Why no member starts: none waits, the fence of one and the first that it waits for, or read
/// buffers.
pub fn starts()
    ensures no_engine { seen_after (λ w. start_reason w 2) [] ≡ Some (Some Nothing) }
    ensures no_member { seen_after (λ w. start_reason w 0) (take 2 fence_waits)
        ≡ Some (Some Nothing) }
    ensures all_run { seen_after (λ w. start_reason w 0) (take 13 fence_waits)
        ≡ Some (Some Nothing) }
    ensures fence { seen_after (λ w. start_reason w 0) (take 8 fence_waits)
        ≡ Some (Some (Fence 3 1)) }
    ensures first_left { seen_after (λ w. start_reason w 0) (take 10 fence_waits)
        ≡ Some (Some (Fence 3 1)) }
    ensures at_the_front { seen_after (λ w. start_reason w 0) (take 12 fence_waits) ≡ Some None }
    ensures before_the_fence { seen_after (λ w. start_reason w 0) (take 6 fence_waits) ≡ Some None }
    ensures buffers { seen_after (λ w. start_reason w 1) (take 11 buffers_of_a_batch)
        ≡ Some (Some (NoBuffers want_of_a_member)) }
    ensures buffers_to_be_had { seen_after (λ w. start_reason w 1) (take 13 buffers_of_a_batch)
        ≡ Some None }
    ensures answers { map start_answer
        (Nothing ∷ Fence 3 1 ∷ Failed 3 (Some 1) 2 ∷ NoBuffers few_wanted ∷ NoGroup ∷ [])
        ≡ started.Nothing
        ∷ started.FenceWait
        ∷ started.Abandoned 2
        ∷ started.NoBuffers
        ∷ started.NoBuffers
        ∷ [] }
    ensures unstarted { map unstarted (started.Started (ticket 0 0) ∷ started.FenceWait ∷ [])
        ≡ None ∷ Some started.FenceWait ∷ [] }
{}

/// Of several causes: the fence before the failure, and both before the read buffers.
pub fn first_causes_of_a_start()
    ensures fence_before_failure { seen_after (λ w. start_reason w 0)
        (take 8 fence_waits_behind_a_failure)
        ≡ Some (Some (Fence 3 2)) }
    ensures failure_then { seen_after (λ w. start_reason w 0) (take 10 fence_waits_behind_a_failure)
        ≡ Some (Some (Failed 3 (Some 1) 1)) }
    ensures fence_before_buffers { with_few_buffers (λ w. start_reason w 0)
        (take 7 fence_before_buffers)
        ≡ Some (Some (Fence 3 2)) }
    ensures buffers_then { with_few_buffers (λ w. start_reason w 0) (take 9 fence_before_buffers)
        ≡ Some (Some (NoBuffers few_wanted)) }
    ensures failure_before_buffers { with_few_buffers (λ w. start_reason w 0)
        (take 8 failure_before_buffers)
        ≡ Some (Some (Failed 3 (Some 2) 1)) }
{}

/// Where a member waits that could start, and no group has its engine, this is the reason, and the
/// answer is that of want of read buffers.
pub fn a_start_on_an_engine_of_no_group()
    ensures in_its_group { seen_after (λ w. start_reason w 0) (take 6 fence_waits) ≡ Some None }
    ensures in_no_group { option_map (λ s. start_reason (with_groups s []).work 0)
        (state_after (take 6 fence_waits))
        ≡ Some (Some NoGroup) }
    ensures answer { option_map (λ s. (start (with_groups s []).work 0).0)
        (state_after (take 6 fence_waits))
        ≡ Some started.NoBuffers }
{}

/// A member failed where an engine ended it with another status than success, as a member of that
/// batch.
pub fn members_that_failed()
    ensures page_fault { is_failed_in 0 (row 1 (Some 0) (Completed 0x03)) ≡ true }
    ensures success { is_failed_in 0 (row 1 (Some 0) (Completed 0x01)) ≡ false }
    ensures aborted { is_failed_in 0 (row 1 (Some 0) (Aborted 4)) ≡ false }
    ensures abandoned { is_failed_in 0 (row 1 (Some 0) Abandoned) ≡ false }
    ensures of_another { is_failed_in 0 (row 1 (Some 2) (Completed 0x03)) ≡ false }
    ensures submitted { is_failed_in 0 (row 1 None (Completed 0x03)) ≡ false }
    ensures before { seen_after (λ w. failed_member w 0) (take 5 failure_abandons) ≡ Some None }
    ensures after { seen_after (λ w. failed_member w 0) (take 6 failure_abandons) ≡ Some (Some 1) }
    ensures no_batch { seen_after (λ w. failed_member w 1) (take 6 failure_abandons) ≡ Some None }
    ensures beside { seen_after (λ w. map (failed_member w) (0 ∷ 1 ∷ []))
        (take 11 failures_beside_a_batch)
        ≡ Some (None ∷ Some 3 ∷ []) }
    ensures reason { seen_after (λ w. start_reason w 0) (take 6 failure_abandons)
        ≡ Some (Some (Failed 2 (Some 1) 1)) }
    ensures three_are_left { seen_after (λ w. start_reason w 0) (take 8 three_are_abandoned)
        ≡ Some (Some (Failed 2 (Some 1) 3)) }
{}

/// What a ticket names is not the engine's to end: no entry, another, one of another list, or a
/// member that waits.
pub fn ends_of_others()
    ensures no_engine { seen_after (λ w. finish_reason w 2 (ticket 0 0)) (take 3 forged_tickets)
        ≡ Some (Some NoEngine) }
    ensures no_cell { seen_after (λ w. finish_reason w 0 (ticket 65535 0)) (take 3 forged_tickets)
        ≡ Some (Some NoEntry) }
    ensures free_cell { seen_after (λ w. finish_reason w 0 (ticket 0 0)) [] ≡ Some (Some NoEntry) }
    ensures other_name { seen_after (λ w. finish_reason w 0 (ticket 0 0))
        (take 5 old_ticket_is_gone)
        ≡ Some (Some (OtherName 1)) }
    ensures in_a_queue { seen_after (λ w. finish_reason w 0 (ticket 0 0)) (take 1 forged_tickets)
        ≡ Some (Some (Elsewhere (Queue 0))) }
    ensures in_progress { seen_after (λ w. finish_reason w 1 (ticket 0 0)) (take 3 forged_tickets)
        ≡ Some (Some (Elsewhere (Progress 0))) }
    ensures among_members { seen_after (λ w. finish_reason w 1 (ticket 1 1)) (take 3 fence_waits)
        ≡ Some (Some (Elsewhere (Members 0))) }
    ensures waiting { seen_after (λ w. finish_reason w 0 (ticket 1 1)) (take 3 fence_waits)
        ≡ Some (Some NotStarted) }
    ensures started { seen_after (λ w. finish_reason w 0 (ticket 1 1)) (take 7 fence_waits)
        ≡ Some None }
    ensures its_own { seen_after (λ w. finish_reason w 0 (ticket 0 0)) (take 3 forged_tickets)
        ≡ Some None }
    ensures name_before_list { seen_after (λ w. finish_reason w 1 (ticket 0 0))
        (take 5 old_ticket_is_gone)
        ≡ Some (Some (OtherName 1)) }
    ensures name_of_what_waits { seen_after (λ w. finish_reason w 0 (ticket 0 0))
        (take 4 old_ticket_is_gone)
        ≡ Some (Some (OtherName 1)) }
{}

/// A batch waits for its members, and for those that are still to be fetched; a member or another
/// operation does not.
pub fn ends_of_batches()
    ensures none_fetched { seen_after (λ w. finish_reason w 0 (ticket 0 0))
        (take 2 batch_is_not_ready)
        ≡ Some (Some (StillToFetch 0 2)) }
    ensures one_left { seen_after (λ w. finish_reason w 0 (ticket 0 0)) (take 4 batch_is_not_ready)
        ≡ Some (Some (MembersLeft 1)) }
    ensures one_to_fetch { seen_after (λ w. finish_reason w 0 (ticket 0 0))
        (take 6 batch_is_not_ready)
        ≡ Some (Some (StillToFetch 1 2)) }
    ensures one_waits { seen_after (λ w. finish_reason w 0 (ticket 0 0)) (take 8 batch_is_not_ready)
        ≡ Some (Some (MembersLeft 1)) }
    ensures one_runs { seen_after (λ w. finish_reason w 0 (ticket 0 0)) (take 10 batch_is_not_ready)
        ≡ Some (Some (MembersLeft 1)) }
    ensures done { seen_after (λ w. finish_reason w 0 (ticket 0 0)) (take 12 batch_is_not_ready)
        ≡ Some None }
    ensures three_left { seen_after (λ w. finish_reason w 0 (ticket 0 0)) (take 5 fence_waits)
        ≡ Some (Some (MembersLeft 3)) }
    ensures closed { seen_after (λ w. finish_reason w 0 (ticket 0 0)) (take 7 failure_abandons)
        ≡ Some None }
    ensures none_fetched_on_the_second { seen_after (λ w. finish_reason w 1 (ticket 0 0))
        (take 2 batch_of_the_second_group)
        ≡ Some (Some (StillToFetch 0 4)) }
    ensures one_fetched_on_the_second { seen_after (λ w. finish_reason w 1 (ticket 2 2))
        (take 10 failures_beside_a_batch)
        ≡ Some (Some (StillToFetch 1 2)) }
    ensures left_on_the_second { seen_after (λ w. finish_reason w 1 (ticket 0 0))
        batch_of_the_second_group
        ≡ Some (Some (MembersLeft 4)) }
    ensures beside_a_batch { seen_after (λ w. finish_reason w 0 (ticket 0 0))
        (take 5 drain_of_a_batch)
        ≡ Some None }
{}

/// A Drain waits for what was submitted before it, of which the first is told.
pub fn ends_of_drains()
    ensures first { seen_after (λ w. finish_reason w 0 (ticket 2 2)) (take 8 drains_of_two_pasids)
        ≡ Some (Some (DrainWaits 0)) }
    ensures no_more { seen_after (λ w. finish_reason w 0 (ticket 2 2))
        (take 11 drains_of_two_pasids)
        ≡ Some None }
    ensures of_two { of_one_group (λ w. finish_reason w 1 (ticket 2 2)) (take 6 drain_behind_two)
        ≡ Some (Some (DrainWaits 0)) }
    ensures second { of_one_group (λ w. finish_reason w 1 (ticket 2 2)) drain_behind_two
        ≡ Some (Some (DrainWaits 1)) }
    ensures batch { seen_after (λ w. finish_reason w 0 (ticket 2 2)) (take 11 drain_behind_a_batch)
        ≡ Some (Some (DrainWaits 0)) }
    ensures batch_ended { seen_after (λ w. finish_reason w 0 (ticket 2 2))
        (take 13 drain_behind_a_batch)
        ≡ Some None }
    ensures batch_behind_it { seen_after (λ w. finish_reason w 0 (ticket 0 0))
        (take 5 drain_behind_a_batch)
        ≡ Some (Some (MembersLeft 1)) }
{}

/// The answers of these reasons, and what ends.
pub fn answers_of_ends()
    ensures gone { map finish_answer
        (NoEngine ∷ NoEntry ∷ OtherName 1 ∷ Elsewhere (Queue 0) ∷ NotStarted ∷ [])
        ≡ finished.Gone ∷ finished.Gone ∷ finished.Gone ∷ finished.Gone ∷ finished.Gone ∷ [] }
    ensures not_ready { map finish_answer (MembersLeft 1 ∷ StillToFetch 1 2 ∷ DrainWaits 0 ∷ [])
        ≡ finished.NotReady ∷ finished.NotReady ∷ finished.NotReady ∷ [] }
    ensures unended { map unended (finished.Done 0x01 ∷ finished.Gone ∷ [])
        ≡ None ∷ Some finished.Gone ∷ [] }
    ensures name { map name_of_entry (Some (held_entry 3 7 None no_op 0 false) ∷ None ∷ [])
        ≡ 7 ∷ 0 ∷ [] }
{}
