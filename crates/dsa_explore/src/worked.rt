//! Worked rows: what steps tell, and what a list of rows says of a search, each on a function with
//! nothing to do.

ghost use Rattle.std.specs.Prelude.{◌≡◌, ◌≤◌, [], ◌∷◌, Some, None, map, true, false};
ghost use Rattle.dsa_regs.specs.declared.Command.TheVariants.{DisableDevice, DrainAll};
ghost use Rattle.dsa_book.specs.declared.answer.FinishAnswer.TheVariants.{Done};
ghost use Rattle.dsa_book.specs.declared.answer.IssueAnswer.TheVariants as issue;
ghost use Rattle.dsa_book.specs.declared.answer.PollAnswer.TheVariants as poll;
ghost use Rattle.dsa_book.specs.declared.answer.Reply.TheVariants as reply;
ghost use Rattle.dsa_book.specs.declared.answer.SubmitAnswer.TheVariants.{Accepted};
ghost use Rattle.dsa_book.specs.declared.fate.Fate.TheVariants.{Aborted, Completed};
ghost use Rattle.dsa_explore.specs.declared.found.Ask.TheVariants.{Act, Submission};
ghost use Rattle.dsa_explore.specs.declared.found.Finding.TheVariants.{Answer, End, Removal, Wait};
ghost use Rattle.dsa_explore.specs.declared.found.Explored.{Explored};
ghost use Rattle.dsa_explore.specs.Bounds.{CanReachLongKey, CanReachStates, MetBounds};
ghost use Rattle.dsa_explore.specs.Counted.{AreKeysReached, CountsStates};
ghost use Rattle.dsa_explore.specs.Explored.{AreFindings, IsFound};
ghost use Rattle.dsa_explore.specs.Findings.{findings_of};
ghost use Rattle.dsa_explore.specs.Rows.{labels_of};
ghost use Rattle.dsa_explore.specs.Walked.{CannotBegin, HasNoDevice, IsLedTo, LetsEntryIn};
ghost use Rattle.dsa_explore.specs.WorkedSetup.{caps_without_engines, entry_steps, events_of_set_up, opened_steps, state_after_set_up};
ghost use Rattle.dsa_explore.specs.WorkedSearch.{asking_nothing, ended_so, idle_parties, one_key, quiet_world, two_rows, uneven_caps, waiting_world};

/// The labels of the first names; 0 for all others.
pub fn labels_by_name()
    ensures each { map (labels_of (20 ∷ 10 ∷ 21 ∷ [])) (0 ∷ 1 ∷ 2 ∷ 3 ∷ [])
        ≡ 20 ∷ 10 ∷ 21 ∷ 0 ∷ [] }
    ensures none { labels_of [] 0 ≡ 0 }
{}

/// What is told of a submission that is accepted, and of an engine's end of an entry.
pub fn told_of_entries()
    ensures accepted { findings_of (Some (Submission 10)) (quiet_world []) (quiet_world [])
        (reply.Submit (Accepted (record { cell = record { 0 = 6 }; name = 1 })))
        ≡ Answer (Submission 10)
        (reply.Submit (Accepted (record { cell = record { 0 = 0 }; name = 10 }))) ∷ [] }
    ensures finished { findings_of None (quiet_world (ended_so 1 None (Completed 1) ∷ []))
        (quiet_world (ended_so 1 None (Completed 1) ∷ ended_so 2 (Some 0) (Completed 3) ∷ []))
        (reply.Finish (Done 3))
        ≡ End 21 (Completed 3) ∷ [] }
{}

/// What is told of commands. A Drain waits for what was submitted before it, a disable for members
/// and for later entries too; a poll tells no wait.
pub fn told_of_commands()
    ensures drain { findings_of (Some (Act 2)) (quiet_world []) (waiting_world DrainAll)
        (reply.Issue issue.Active)
        ≡ Answer (Act 2) (reply.Issue issue.Active) ∷ Wait 2 10 ∷ Wait 2 20 ∷ [] }
    ensures disable { findings_of (Some (Act 5)) (quiet_world []) (waiting_world DisableDevice)
        (reply.Issue issue.Active)
        ≡ Answer (Act 5) (reply.Issue issue.Active) ∷ Wait 5 10 ∷ Wait 5 20 ∷ Wait 5 30
        ∷ Wait 5 21 ∷ [] }
    ensures polled { findings_of (Some (Act 3)) (waiting_world DrainAll) (waiting_world DrainAll)
        (reply.Poll poll.Active)
        ≡ Answer (Act 3) (reply.Poll poll.Active) ∷ [] }
    ensures by_another { findings_of (Some (Submission 2)) (quiet_world []) (waiting_world DrainAll)
        (reply.Issue issue.Active)
        ≡ Answer (Submission 2) (reply.Issue issue.Active) ∷ [] }
    ensures abort { findings_of (Some (Act 1)) (quiet_world (ended_so 1 None (Completed 1) ∷ []))
        (quiet_world (ended_so 1 None (Completed 1) ∷ ended_so 3 None (Aborted 4) ∷ []))
        (reply.Issue (issue.Ended 1))
        ≡ Answer (Act 1) (reply.Issue (issue.Ended 1)) ∷ End 30 (Aborted 4) ∷ Removal 1 30 ∷ [] }
{}

/// Rows that have a finding soon enough.
pub fn findings_in_rows()
    ensures just { IsFound two_rows 3 (Wait 2 10) }
    ensures earlier { IsFound two_rows 5 (Answer (Act 2) (reply.Poll poll.Nothing)) }
    ensures too_late { ¬ IsFound two_rows 2 (Wait 2 10) }
    ensures other_label { ¬ IsFound two_rows 3 (Wait 2 20) }
    ensures other_act { ¬ IsFound two_rows 3 (Wait 1 10) }
    ensures removal { ¬ IsFound two_rows 3 (Removal 2 10) }
{}

/// Of parties that do nothing nothing may come: an empty list says all, and a row says too much.
pub fn findings_of_the_idle()
    ensures none { AreFindings idle_parties asking_nothing (quiet_world []) [] true }
    ensures bounded { AreFindings idle_parties asking_nothing (quiet_world []) [] false }
    ensures too_much { ¬ AreFindings idle_parties asking_nothing (quiet_world []) two_rows false }
{}

/// Of parties that do nothing there is one key, that of where they begin.
pub fn keys_of_the_idle()
    ensures one { AreKeysReached idle_parties one_key (quiet_world []) 0 true ((7 ∷ []) ∷ []) }
    ensures bounded { AreKeysReached idle_parties one_key (quiet_world []) 0 false [] }
    ensures left_out { ¬ AreKeysReached idle_parties one_key (quiet_world []) 0 true [] }
    ensures another { ¬ AreKeysReached idle_parties one_key (quiet_world []) 9 false
        ((8 ∷ []) ∷ []) }
    ensures once { (explored : Explored)
        → CountsStates idle_parties one_key (quiet_world []) explored
        → explored.states ≤ 1 }
{}

/// Which bounds a search of the idle meets. There is one state, and its key has one byte. The
/// history of a device has room for 1,048,576 steps.
pub fn bounds_of_the_idle()
    ensures one_state { CanReachStates idle_parties one_key (quiet_world []) 1 0 }
    ensures no_second { ¬ CanReachStates idle_parties one_key (quiet_world []) 2 5 }
    ensures long { CanReachLongKey idle_parties one_key (quiet_world []) 0 0 }
    ensures not_long { ¬ CanReachLongKey idle_parties one_key (quiet_world []) 1 5 }
    ensures states { (explored : Explored)
        → explored.states ≡ 0
        → MetBounds (record { states = 0; key_bytes = 1 }) idle_parties one_key (quiet_world []) 4
        explored }
    ensures key_bytes { (explored : Explored)
        → MetBounds (record { states = 9; key_bytes = 0 }) idle_parties one_key (quiet_world []) 4
        explored }
    ensures steps { (explored : Explored)
        → explored.depth ≡ 0
        → MetBounds (record { states = 9; key_bytes = 9 }) idle_parties one_key (quiet_world [])
        1048576 explored }
    ensures none { (explored : Explored)
        → explored.depth ≡ 0
        → MetBounds (record { states = 1; key_bytes = 1 }) idle_parties one_key (quiet_world [])
        1048575 explored
        → ⊥ }
{}

/// Where parties begin, and where they cannot: an entry came in, the capabilities are not those of
/// a device, or the set-up has too many events.
pub fn set_ups()
    ensures opened { IsLedTo uneven_caps (events_of_set_up opened_steps)
        (state_after_set_up opened_steps) }
    ensures entry { LetsEntryIn uneven_caps (events_of_set_up entry_steps) }
    ensures no_events { ¬ CannotBegin uneven_caps [] }
    ensures no_engines { CannotBegin caps_without_engines [] }
    ensures most_steps { ¬ HasNoDevice uneven_caps 1048576 }
    ensures too_many_steps { HasNoDevice uneven_caps 1048577 }
{}
