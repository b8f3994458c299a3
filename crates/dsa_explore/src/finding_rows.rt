//! Worked rows: bytes of places, what parties ask for, and what a step tells that both waits and
//! removes, each on a function with nothing to do.

ghost use Rattle.std.specs.Prelude.{◌≡◌, ◌∷◌, ◌+◌, [], None, Some, map, true, false};
ghost use Rattle.std.specs.declared.alloc.Global.{Global};
ghost use Rattle.dsa_book.specs.declared.answer.DispatchAnswer.TheVariants as dispatch;
ghost use Rattle.dsa_book.specs.declared.answer.IssueAnswer.TheVariants as issue;
ghost use Rattle.dsa_book.specs.declared.answer.PollAnswer.TheVariants as poll;
ghost use Rattle.dsa_book.specs.declared.answer.Reply.TheVariants as reply;
ghost use Rattle.dsa_book.specs.declared.fate.Fate.TheVariants.{Aborted};
ghost use Rattle.dsa_parties.specs.declared.places.Move.TheVariants as moves;
ghost use Rattle.dsa_parties.specs.Offers.{label_ticket};
ghost use Rattle.dsa_parties.specs.Worked.{all_at, place_at, remembering, worked_script};
ghost use Rattle.dsa_explore.specs.declared.found.Ask.TheVariants.{Act, Submission};
ghost use Rattle.dsa_explore.specs.declared.found.Finding.TheVariants.{Answer, End, Removal, Wait};
ghost use Rattle.dsa_explore.specs.Counted.{FoundNothing};
ghost use Rattle.dsa_explore.specs.Findings.{findings_told};
ghost use Rattle.dsa_explore.specs.Keys.{place_bytes};
ghost use Rattle.dsa_explore.specs.Rows.{AreDistinct, HasFinding};
ghost use Rattle.dsa_explore.specs.Search.{queue_taken_from};
ghost use Rattle.dsa_explore.specs.Stored.{last_level};
ghost use Rattle.dsa_explore.specs.Asks.{ask_of};
ghost use Rattle.dsa_explore.specs.WorkedFound.{nothing_explored, other_wait, wait_found_after, wait_explored};
ghost use Rattle.dsa_explore.specs.WorkedSearch.{ended_so};

/// What a step tells an act: its answer, how entries ended, for which it waits, and which it
/// removed.
pub fn told_of_all()
    ensures act { findings_told (Some (Act 5)) (λ name. name + 40) (reply.Issue issue.Active)
        (ended_so 3 None (Aborted 4) ∷ []) (10 ∷ 20 ∷ [])
        ≡ Answer (Act 5) (reply.Issue issue.Active) ∷ End 43 (Aborted 4) ∷ Wait 5 10 ∷ Wait 5 20
        ∷ Removal 5 43 ∷ [] }
    ensures submission { findings_told (Some (Submission 5)) (λ name. name + 40)
        (reply.Poll poll.Nothing) (ended_so 3 None (Aborted 4) ∷ []) (10 ∷ 20 ∷ [])
        ≡ Answer (Submission 5) (reply.Poll poll.Nothing) ∷ End 43 (Aborted 4) ∷ [] }
    ensures engine { findings_told None (λ name. name + 40) (reply.Issue issue.Active)
        (ended_so 3 None (Aborted 4) ∷ []) (10 ∷ 20 ∷ []) ≡ End 43 (Aborted 4) ∷ [] }
{}

/// The bytes of where parties stand, and of what they remember: other memory has other bytes.
#[tactic(auto, unfolding(dsa_key_bytes::specs::Numbers::number_bytes))]
pub fn bytes_of_places()
    ensures places { place_bytes (all_at (place_at 0 3) (place_at 4 2) 1 300)
        ≡ 2 ∷ 0 ∷ 3 ∷ 4 ∷ 2 ∷ 2 ∷ 1 ∷ 172 ∷ 2 ∷ 4 ∷ 0 ∷ 0 ∷ 0 ∷ 0 ∷ [] }
    ensures memory { map (λ came. place_bytes (remembering came))
        ((false ∷ true ∷ []) ∷ (true ∷ false ∷ []) ∷ (true ∷ []) ∷ [] ∷ [])
        ≡ (2 ∷ 3 ∷ 0 ∷ 4 ∷ 0 ∷ 2 ∷ 1 ∷ 3 ∷ 2 ∷ 0 ∷ 1 ∷ [])
        ∷ (2 ∷ 3 ∷ 0 ∷ 4 ∷ 0 ∷ 2 ∷ 1 ∷ 3 ∷ 2 ∷ 1 ∷ 0 ∷ [])
        ∷ (2 ∷ 3 ∷ 0 ∷ 4 ∷ 0 ∷ 2 ∷ 1 ∷ 3 ∷ 1 ∷ 1 ∷ [])
        ∷ (2 ∷ 3 ∷ 0 ∷ 4 ∷ 0 ∷ 2 ∷ 1 ∷ 3 ∷ 0 ∷ []) ∷ [] }
{}

/// What parties ask for where they stand: by labels of submissions and by numbers of acts.
pub fn asked_by_moves()
    ensures each { (memory : Global) → map (ask_of (worked_script memory)
        (all_at (place_at 0 0) (place_at 4 0) 1 3))
        (moves.Client 0 ∷ moves.Client 1 ∷ moves.Client 2 ∷ moves.Administrator 0
        ∷ moves.Administrator 1 ∷ moves.Administrator 2 ∷ moves.Start 0 ∷ [])
        ≡ Some (Submission 0) ∷ Some (Submission 4) ∷ None ∷ Some (Act 1) ∷ Some (Act 3) ∷ None
        ∷ None ∷ [] }
{}

/// The queue that an entry is taken from, and the level of what was stored last.
pub fn queues_and_levels()
    ensures queues { map queue_taken_from
        (reply.Dispatch (dispatch.Taken (label_ticket 7) 3) ∷ reply.Dispatch dispatch.Idle
        ∷ reply.Poll poll.Nothing ∷ []) ≡ Some 3 ∷ None ∷ None ∷ [] }
    ensures levels { map last_level ((4 ∷ 5 ∷ 6 ∷ []) ∷ (4 ∷ []) ∷ [] ∷ []) ≡ 6 ∷ 4 ∷ 0 ∷ [] }
{}

/// A search that stored no state found nothing.
pub fn searches_that_found_nothing()
    ensures nothing { (memory : Global) → FoundNothing (nothing_explored memory 0 0 false) }
    ensures tried { (memory : Global) → FoundNothing (nothing_explored memory 1 0 false) → ⊥ }
    ensures depth { (memory : Global) → FoundNothing (nothing_explored memory 0 1 false) → ⊥ }
    ensures complete { (memory : Global) → FoundNothing (nothing_explored memory 0 0 true) → ⊥ }
    ensures rows { (memory : Global) → FoundNothing (wait_explored memory) → ⊥ }
{}

/// A row without a finding, and rows that have different ones.
pub fn rows_with_findings()
    ensures not_there { ¬ HasFinding (other_wait ∷ []) (Wait 2 10) }
    ensures distinct { AreDistinct (other_wait ∷ wait_found_after 3 ∷ []) }
{}
