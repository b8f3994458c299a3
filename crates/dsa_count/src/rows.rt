//! Worked totals: what the definitions say of chosen records, fates and devices, by computation.

ghost use Rattle.std.specs.Prelude.{◌≡◌, ◌++◌, [], ◌∷◌, Some, None, true, false, codes, map};
ghost use Rattle.dsa_regs.specs.declared.Command.TheVariants.{DrainAll};
ghost use Rattle.dsa_book.specs.declared.answer.Cause.TheVariants.{AtLimit, WrongKind};
ghost use Rattle.dsa_book.specs.declared.answer.IssueAnswer.TheVariants.{Active, Ended};
ghost use Rattle.dsa_book.specs.declared.answer.PollAnswer.TheVariants as poll;
ghost use Rattle.dsa_book.specs.declared.answer.SubmitAnswer.TheVariants.{Accepted, Retry};
ghost use Rattle.dsa_book.specs.declared.answer.SubmitAnswer.TheVariants.{Dropped, Full};
ghost use Rattle.dsa_book.specs.declared.fate.Fate.TheVariants.{Abandoned, Aborted, Completed};
ghost use Rattle.dsa_device.specs.Running.{running_at_first};
ghost use Rattle.dsa_scenario.specs.Worked.{no_command};
ghost use Rattle.dsa_scenario.specs.declared.run.Record.TheVariants.{Refused};
ghost use Rattle.dsa_scenario.specs.Steps.{standing, visits};
ghost use Rattle.dsa_scenario.specs.Worked.{caps_of_a_run, fate, record_ticket, records_of_a_run};
ghost use Rattle.dsa_count.specs.declared.peaks.Gauge.TheVariants.{Occupancy, Size, Used, Allowed};
ghost use Rattle.dsa_count.specs.declared.submissions.Party.TheVariants.{All, Client, Queue};
ghost use Rattle.dsa_count.specs.Submissions.{above, accepted_of, is_alike, is_party_named};
ghost use Rattle.dsa_count.specs.Submissions.{submission_in, turned_away_of};
ghost use Rattle.dsa_count.specs.Tallies.{named_lines, tallies_of, tally_line, ways};
ghost use Rattle.dsa_count.specs.Peaks.{peak_of, peaks_text, reading};
ghost use Rattle.dsa_count.specs.Waits.{command_lines};
ghost use Rattle.dsa_count.specs.Fates.{ended_of, fates_line, is_same_fate};
ghost use Rattle.dsa_count.specs.Totals.{AreTotalsOfSteps};
ghost use Rattle.dsa_count.specs.Worked.{fetched_member, issued_with, made, polled, submitted};
ghost use Rattle.dsa_count.specs.Worked.{first_device, second_device};
ghost use Rattle.dsa_count.specs.Worked.{records_of_two_drains, steps_of_two_devices};
ghost use Rattle.dsa_count.specs.Worked.{steps_of_a_drain, submissions_in_each_way};
ghost use Rattle.dsa_count.specs.Worked.{submissions_of_three};

/// Which records are submissions, whose they are, and which answers turn submissions away alike.
pub fn of_submissions()
    ensures records { map submission_in
        (submitted 2 5 (Retry AtLimit) ∷ fetched_member ∷ Refused no_command
        ∷ submitted 3 4 (Accepted (record_ticket 1 7)) ∷ [])
        ≡ Some (made 2 5 (Retry AtLimit)) ∷ None ∷ None
        ∷ Some (made 3 4 (Accepted (record_ticket 1 7))) ∷ [] }
    ensures above { map (λ party. above party submissions_of_three) (All ∷ Client ∷ Queue ∷ [])
        ≡ 1 ∷ 10 ∷ 4 ∷ [] }
    ensures of_none { map (λ party. above party []) (All ∷ Client ∷ Queue ∷ []) ≡ 0 ∷ 0 ∷ 0 ∷ [] }
    ensures clients { map (λ number. is_party_named Client number submissions_of_three)
        (0 ∷ 1 ∷ 3 ∷ 7 ∷ 9 ∷ 10 ∷ [])
        ≡ true ∷ false ∷ false ∷ true ∷ true ∷ false ∷ [] }
    ensures queues { map (λ number. is_party_named Queue number submissions_of_three)
        (0 ∷ 1 ∷ 2 ∷ 3 ∷ 9 ∷ [])
        ≡ false ∷ true ∷ false ∷ true ∷ false ∷ [] }
    ensures retry { map (is_alike (Retry AtLimit)) ways
        ≡ true ∷ false ∷ false ∷ false ∷ false ∷ false ∷ false ∷ [] }
    ensures dropped { map (is_alike (Dropped WrongKind)) ways
        ≡ false ∷ false ∷ false ∷ false ∷ false ∷ true ∷ false ∷ [] }
    ensures full { map (is_alike Full) ways
        ≡ false ∷ false ∷ false ∷ false ∷ false ∷ false ∷ true ∷ [] }
    ensures accepted { map (is_alike (Accepted (record_ticket 1 7))) ways
        ≡ false ∷ false ∷ false ∷ false ∷ false ∷ false ∷ false ∷ [] }
{}

/// How many submissions were answered in which way, and their lines.
#[tactic(auto, unfolding(crate::specs::Worked::counted_on_literals))]
pub fn of_tallies()
    ensures accepted { map (λ number. accepted_of Client number submissions_of_three)
        (0 ∷ 7 ∷ 9 ∷ [])
        ≡ 2 ∷ 0 ∷ 1 ∷ [] }
    ensures turned_away { map (λ answer. turned_away_of Client 7 answer submissions_of_three) ways
        ≡ 2 ∷ 0 ∷ 0 ∷ 0 ∷ 0 ∷ 1 ∷ 1 ∷ [] }
    ensures all { tally_line All 0 submissions_of_three
        ≡ codes "submissions: 3 accepted, 2 retry at-limit, 1 retry not-enabled,"
        ++ codes " 1 dropped wrong-kind, 1 full\n" }
    ensures clients { named_lines Client submissions_of_three
        ≡ codes "client 0: 2 accepted, 1 retry not-enabled\n"
        ++ codes "client 7: 0 accepted, 2 retry at-limit, 1 dropped wrong-kind, 1 full\n"
        ++ codes "client 9: 1 accepted\n" }
    ensures queues { named_lines Queue submissions_of_three
        ≡ codes "queue 1: 2 accepted, 2 retry at-limit, 1 full\n"
        ++ codes "queue 3: 1 accepted, 1 retry not-enabled, 1 dropped wrong-kind\n" }
    ensures each_way { tally_line All 0 submissions_in_each_way
        ≡ codes "submissions: 0 accepted, 1 retry at-limit, 1 retry not-enabled,"
        ++ codes " 1 retry wrong-kind, 1 dropped at-limit, 1 dropped not-enabled,"
        ++ codes " 1 dropped wrong-kind, 1 full\n" }
    ensures none { tallies_of [] ≡ codes "submissions: 0 accepted\n" }
{}

/// How many entries ended in which way, and the line.
#[tactic(auto, unfolding(crate::specs::Worked::counted_on_literals))]
pub fn of_fates()
    ensures status { map (is_same_fate (Completed 1))
        (Completed 1 ∷ Completed 2 ∷ Aborted 1 ∷ Abandoned ∷ [])
        ≡ true ∷ false ∷ false ∷ false ∷ [] }
    ensures command { map (is_same_fate (Aborted 9))
        (Aborted 9 ∷ Aborted 8 ∷ Completed 9 ∷ Abandoned ∷ [])
        ≡ true ∷ false ∷ false ∷ false ∷ [] }
    ensures abandoned { map (is_same_fate Abandoned) (Completed 1 ∷ Aborted 1 ∷ Abandoned ∷ [])
        ≡ false ∷ false ∷ true ∷ [] }
    ensures count { ended_of (Completed 1)
        (fate 0 (Completed 1) ∷ fate 1 Abandoned ∷ fate 2 (Completed 1) ∷ [])
        ≡ 2 }
    ensures line { fates_line
        (fate 0 (Completed 19) ∷ fate 1 Abandoned ∷ fate 2 (Completed 1) ∷ fate 3 (Aborted 9)
        ∷ fate 4 (Completed 19) ∷ fate 5 (Aborted 5) ∷ [])
        ≡ codes "fates: 6 ended, 1 done 01, 2 done 13, 1 aborted 5, 1 aborted 9, 1 abandoned\n" }
    ensures none { fates_line [] ≡ codes "fates: 0 ended\n" }
{}

/// The most of what each gauge reads, on devices of four queues and three groups, and the lines.
#[tactic(auto, unfolding(crate::specs::Worked::counted_on_literals))]
pub fn of_peaks()
    ensures occupancy { map (reading first_device Occupancy) (1 ∷ 3 ∷ 4 ∷ 5 ∷ [])
        ≡ Some 2 ∷ Some 0 ∷ None ∷ None ∷ [] }
    ensures size { map (reading first_device Size) (1 ∷ 3 ∷ 4 ∷ 5 ∷ [])
        ≡ Some 9 ∷ Some 3 ∷ None ∷ None ∷ [] }
    ensures buffers { map (reading second_device Used) (1 ∷ 2 ∷ 3 ∷ 4 ∷ [])
        ≡ Some 4 ∷ Some 0 ∷ None ∷ None ∷ [] }
    ensures allowance { map (reading second_device Allowed) (1 ∷ 2 ∷ 3 ∷ 4 ∷ [])
        ≡ Some 13 ∷ Some 0 ∷ None ∷ None ∷ [] }
    ensures occupancies { map (peak_of Occupancy steps_of_two_devices) (0 ∷ 1 ∷ 2 ∷ 3 ∷ 4 ∷ 5 ∷ [])
        ≡ 0 ∷ 2 ∷ 3 ∷ 0 ∷ 0 ∷ 0 ∷ [] }
    ensures sizes { map (peak_of Size steps_of_two_devices) (0 ∷ 1 ∷ 2 ∷ 3 ∷ 4 ∷ [])
        ≡ 0 ∷ 9 ∷ 12 ∷ 3 ∷ 0 ∷ [] }
    ensures used { map (peak_of Used steps_of_two_devices) (0 ∷ 1 ∷ 2 ∷ 3 ∷ [])
        ≡ 1 ∷ 4 ∷ 0 ∷ 0 ∷ [] }
    ensures allowed { map (peak_of Allowed steps_of_two_devices) (0 ∷ 1 ∷ 2 ∷ 3 ∷ [])
        ≡ 11 ∷ 13 ∷ 0 ∷ 0 ∷ [] }
    ensures before { map (λ gauge. peak_of gauge [] 1) (Occupancy ∷ Size ∷ Used ∷ Allowed ∷ [])
        ≡ 0 ∷ 0 ∷ 0 ∷ 0 ∷ [] }
    ensures lines { peaks_text steps_of_two_devices
        ≡ codes "peak queue 1: 2 of 9 entries\npeak queue 2: 3 of 12 entries\n"
        ++ codes "peak queue 3: 0 of 3 entries\npeak group 0: 1 of 11 read buffers\n"
        ++ codes "peak group 1: 4 of 13 read buffers\n" }
{}

/// How long commands waited: until a poll reported the end, or to the end of the run.
#[tactic(auto, unfolding(crate::specs::Worked::counted_on_literals))]
pub fn of_waits()
    ensures lines { command_lines 3 records_of_two_drains
        ≡ codes "command 3 drain-pasid 7: finished after 4 steps\n"
        ++ codes "command 9 drain-all: still active after 1 step\n" }
    ensures last { command_lines 0 (issued_with DrainAll Active ∷ [])
        ≡ codes "command 0 drain-all: still active after 0 steps\n" }
    ensures one { command_lines 0 (issued_with DrainAll Active ∷ polled poll.Finished ∷ [])
        ≡ codes "command 0 drain-all: finished after 1 step\n" }
    ensures refused { command_lines 0
        (issued_with DrainAll Active ∷ Refused no_command ∷ polled poll.Finished ∷ [])
        ≡ codes "command 0 drain-all: finished after 2 steps\n" }
    ensures none { command_lines 0 (issued_with DrainAll (Ended 2) ∷ polled poll.Nothing ∷ [])
        ≡ [] }
{}

/// The totals of a run of one submission, of a drain, and of no step.
#[tactic(auto, unfolding(crate::specs::Worked::counted_on_literals))]
pub fn of_runs()
    ensures run { AreTotalsOfSteps (visits caps_of_a_run 9 [] records_of_a_run)
        (standing caps_of_a_run 9 records_of_a_run)
        (codes "submissions: 1 accepted\nclient 0: 1 accepted\nqueue 0: 1 accepted\n"
        ++ codes "peak queue 0: 1 of 16 entries\npeak group 0: 1 of 32 read buffers\n"
        ++ codes "fates: 1 ended, 1 done 01\n") }
    ensures drain { AreTotalsOfSteps steps_of_a_drain second_device
        (codes "submissions: 0 accepted\npeak queue 1: 1 of 6 entries\n"
        ++ codes "peak queue 2: 3 of 12 entries\npeak queue 3: 0 of 3 entries\n"
        ++ codes "peak group 0: 0 of 4 read buffers\npeak group 1: 4 of 13 read buffers\n"
        ++ codes "command 0 drain-all: finished after 1 step\nfates: 0 ended\n") }
    ensures none { AreTotalsOfSteps [] (running_at_first caps_of_a_run 9)
        (codes "submissions: 0 accepted\nfates: 0 ended\n") }
{}
