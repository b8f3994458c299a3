//! Worked rows: events, slices, lanes and whole traces at chosen values, by computation.

ghost use Rattle.std.specs.Prelude.{◌≡◌, ◌++◌, [], ◌∷◌, Some, None, true, false, codes, map};
ghost use Rattle.dsa_regs.specs.declared.Command.TheVariants.{AbortPasid, DrainPasid};
ghost use Rattle.dsa_regs.specs.declared.Fault.TheVariants.{BadCommand};
ghost use Rattle.dsa_book.specs.declared.answer.Cause.TheVariants.{AtLimit};
ghost use Rattle.dsa_book.specs.declared.answer.DispatchAnswer.TheVariants.{Idle};
ghost use Rattle.dsa_book.specs.declared.answer.FinishAnswer.TheVariants.{Done};
ghost use Rattle.dsa_book.specs.declared.answer.IssueAnswer.TheVariants.{Active, Ended};
ghost use Rattle.dsa_book.specs.declared.answer.PollAnswer.TheVariants as poll;
ghost use Rattle.dsa_book.specs.declared.answer.Reply.TheVariants as reply;
ghost use Rattle.dsa_book.specs.declared.answer.StartAnswer.TheVariants as start;
ghost use Rattle.dsa_book.specs.declared.answer.SubmitAnswer.TheVariants.{Accepted, Retry};
ghost use Rattle.dsa_book.specs.declared.event.Event.TheVariants as event;
ghost use Rattle.dsa_book.specs.declared.fate.Fate.TheVariants.{Abandoned, Aborted, Completed};
ghost use Rattle.dsa_device.specs.Running.{running_at_first};
ghost use Rattle.dsa_scenario.specs.Worked.{no_command};
ghost use Rattle.dsa_scenario.specs.declared.run.Record.TheVariants.{Refused};
ghost use Rattle.dsa_scenario.specs.Steps.{standing, visits};
ghost use Rattle.dsa_scenario.specs.Worked.{caps_of_a_run, record_ticket, records_of_a_run};
ghost use Rattle.dsa_scenario.specs.Worked.{smallest_caps, stepped};
ghost use Rattle.dsa_chrome.specs.declared.counters.Gauge.TheVariants.{Group, Queue};
ghost use Rattle.dsa_chrome.specs.Counters.{gauge_count, counters_of_record, filled};
ghost use Rattle.dsa_chrome.specs.Events.{command_of_record, instant_text};
ghost use Rattle.dsa_chrome.specs.Lanes.{filled_lane, has_entry, lanes_with};
ghost use Rattle.dsa_chrome.specs.Pages.{after_arrival, after_fate, after_event, count_of_ends};
ghost use Rattle.dsa_chrome.specs.Pages.{events_of, rows_of_record};
ghost use Rattle.dsa_chrome.specs.Slices.{slice_text};
ghost use Rattle.dsa_chrome.specs.Traces.{names_of_trace, IsChromeTraceOf, step_threads};
ghost use Rattle.dsa_chrome.specs.Worked.{busy_device, caps_of_a_chrome, device_with, end_with};
ghost use Rattle.dsa_chrome.specs.Worked.{entry_of_pages, fetch_record};
ghost use Rattle.dsa_chrome.specs.Worked.{finish_record, issue_record, lane_with, lane_without};
ghost use Rattle.dsa_chrome.specs.Worked.{nothing_made};
ghost use Rattle.dsa_chrome.specs.Worked.{rows_of_an_abort, start_record, steps_of_an_abort, submit_record};
ghost use Rattle.dsa_chrome.specs.Worked.{dispatch_record, work_named};

/// The instant events of an engine, of a client and of the administrator.
#[tactic(auto, unfolding(crate::specs::Worked::chrome_on_literals))]
pub fn instants()
    ensures idle { instant_text 12 (stepped (event.Dispatch 1) (reply.Dispatch Idle))
        ≡ codes ",\n{\"name\":\"idle\",\"ph\":\"i\",\"s\":\"t\",\"ts\":12,\"pid\":3,\"tid\":2,"
        ++ codes "\"args\":{\"step\":12,\"event\":\"dispatch e1\",\"answer\":\"idle\"}}" }
    ensures retry { instant_text 7 (submit_record (Retry AtLimit))
        ≡ codes ",\n{\"name\":\"retry at-limit\",\"ph\":\"i\",\"s\":\"t\",\"ts\":7,\"pid\":1,"
        ++ codes "\"tid\":1,\"args\":{\"step\":7,\"event\":"
        ++ codes "\"submit q1 limited enqcmd pasid 6 client 4 fill 0 bytes\",\"answer\":"
        ++ codes "\"retry at-limit\"}}" }
    ensures word { instant_text 0 (Refused no_command)
        ≡ codes ",\n{\"name\":\"refused 13 BadCommand\",\"ph\":\"i\",\"s\":\"t\",\"ts\":0,"
        ++ codes "\"pid\":1,\"tid\":2,\"args\":{\"step\":0,\"event\":\"command 0x0\",\"answer\":"
        ++ codes "\"refused 13 BadCommand\"}}" }
{}

/// A command that is active has a slice, which the poll ends that reports its end.
#[tactic(auto, unfolding(crate::specs::Worked::chrome_on_literals))]
pub fn commands()
    ensures active { command_of_record 7 (issue_record (DrainPasid 5) Active)
        ≡ codes ",\n{\"name\":\"drain-pasid 5\",\"ph\":\"B\",\"ts\":7,\"pid\":1,\"tid\":2}" }
    ensures finished { command_of_record 9 (stepped event.Poll (reply.Poll poll.Finished))
        ≡ codes ",\n{\"ph\":\"E\",\"ts\":9,\"pid\":1,\"tid\":2}" }
    ensures whole { events_of 7 (issue_record (DrainPasid 5) Active) (busy_device [])
        ≡ codes ",\n{\"name\":\"active\",\"ph\":\"i\",\"s\":\"t\",\"ts\":7,\"pid\":1,\"tid\":2,"
        ++ codes "\"args\":{\"step\":7,\"event\":\"command drain-pasid 5\",\"answer\":"
        ++ codes "\"active\"}}"
        ++ codes ",\n{\"name\":\"drain-pasid 5\",\"ph\":\"B\",\"ts\":7,\"pid\":1,\"tid\":2}" }
    ensures others { map (command_of_record 9)
        (issue_record (DrainPasid 5) (Ended 0) ∷ stepped event.Poll (reply.Poll poll.Active)
        ∷ stepped event.Poll (reply.Poll poll.Nothing) ∷ dispatch_record 1 33
        ∷ Refused no_command ∷ [])
        ≡ [] ∷ [] ∷ [] ∷ [] ∷ [] ∷ [] }
{}

/// The slices of an entry that ended, of members, and of an entry that is held.
#[tactic(auto, unfolding(crate::specs::Worked::chrome_on_literals))]
pub fn slices()
    ensures completed { slice_text 3 (work_named 8 None) (end_with (Completed 26))
        ≡ codes ",\n{\"name\":\"8 move 8192 bytes\",\"ph\":\"X\",\"dur\":4,\"ts\":5,\"pid\":2,"
        ++ codes "\"tid\":3,\"args\":{\"entry\":8,\"queue\":2,\"opcode\":3,\"pasid\":7,"
        ++ codes "\"size\":8192,\"end\":\"completed 1a\"}}" }
    ensures aborted { slice_text 3 (work_named 8 (Some 6)) (end_with (Aborted 12))
        ≡ codes ",\n{\"name\":\"8 move 8192 bytes\",\"ph\":\"X\",\"dur\":4,\"ts\":5,\"pid\":2,"
        ++ codes "\"tid\":3,\"args\":{\"entry\":8,\"batch\":6,\"queue\":2,\"opcode\":3,"
        ++ codes "\"pasid\":7,\"size\":8192,\"end\":\"aborted 12\"}}" }
    ensures abandoned { slice_text 3 (work_named 8 (Some 6)) (end_with Abandoned)
        ≡ codes ",\n{\"name\":\"8 move 8192 bytes\",\"ph\":\"X\",\"dur\":4,\"ts\":5,\"pid\":2,"
        ++ codes "\"tid\":3,\"args\":{\"entry\":8,\"batch\":6,\"queue\":2,\"opcode\":3,"
        ++ codes "\"pasid\":7,\"size\":8192,\"end\":\"abandoned\"}}" }
    ensures held { slice_text 3 (record (work_named 8 None) { client = Some 6 }) None
        ≡ codes ",\n{\"name\":\"8 move 8192 bytes\",\"ph\":\"B\",\"ts\":5,\"pid\":2,\"tid\":3,"
        ++ codes "\"args\":{\"entry\":8,\"queue\":2,\"opcode\":3,\"pasid\":7,\"size\":8192,"
        ++ codes "\"client\":6,\"end\":\"held\"}}" }
{}

/// What fills queues and groups, where the device has them.
pub fn gauges()
    ensures counts { map (gauge_count caps_of_a_chrome) (Queue ∷ Group ∷ []) ≡ 3 ∷ 4 ∷ [] }
    ensures queues { map (filled (busy_device []) Queue) (0 ∷ 1 ∷ 2 ∷ 3 ∷ 4 ∷ [])
        ≡ Some 0 ∷ Some 2 ∷ Some 1 ∷ None ∷ None ∷ [] }
    ensures groups { map (filled (busy_device []) Group) (0 ∷ 1 ∷ 3 ∷ 4 ∷ 5 ∷ [])
        ≡ Some 5 ∷ Some 1 ∷ Some 0 ∷ None ∷ None ∷ [] }
{}

/// The counters after a step: of a queue that it filled or emptied, and of its engine's group.
#[tactic(auto, unfolding(crate::specs::Worked::chrome_on_literals))]
pub fn counters()
    ensures accepted { counters_of_record (busy_device []) 7
        (submit_record (Accepted (record_ticket 1 22)))
        ≡ codes ",\n{\"name\":\"queue 1\",\"ph\":\"C\",\"ts\":7,\"pid\":1,\"args\":{"
        ++ codes "\"entries\":2}}" }
    ensures taken { counters_of_record (busy_device []) 7 (dispatch_record 0 31)
        ≡ codes ",\n{\"name\":\"queue 2\",\"ph\":\"C\",\"ts\":7,\"pid\":1,\"args\":{"
        ++ codes "\"entries\":1}}"
        ++ codes ",\n{\"name\":\"group 1\",\"ph\":\"C\",\"ts\":7,\"pid\":1,\"args\":{"
        ++ codes "\"read buffers\":1}}" }
    ensures started { counters_of_record (busy_device []) 7 (start_record 1 41)
        ≡ codes ",\n{\"name\":\"group 0\",\"ph\":\"C\",\"ts\":7,\"pid\":1,\"args\":{"
        ++ codes "\"read buffers\":5}}" }
    ensures finished { counters_of_record (busy_device []) 7 (finish_record 1 40 1)
        ≡ codes ",\n{\"name\":\"group 0\",\"ph\":\"C\",\"ts\":7,\"pid\":1,\"args\":{"
        ++ codes "\"read buffers\":5}}" }
    ensures aborted { counters_of_record (busy_device []) 7 (issue_record (AbortPasid 5) (Ended 1))
        ≡ codes ",\n{\"name\":\"queue 0\",\"ph\":\"C\",\"ts\":7,\"pid\":1,\"args\":{"
        ++ codes "\"entries\":0}}"
        ++ codes ",\n{\"name\":\"queue 1\",\"ph\":\"C\",\"ts\":7,\"pid\":1,\"args\":{"
        ++ codes "\"entries\":2}}"
        ++ codes ",\n{\"name\":\"queue 2\",\"ph\":\"C\",\"ts\":7,\"pid\":1,\"args\":{"
        ++ codes "\"entries\":1}}"
        ++ codes ",\n{\"name\":\"group 0\",\"ph\":\"C\",\"ts\":7,\"pid\":1,\"args\":{"
        ++ codes "\"read buffers\":5}}"
        ++ codes ",\n{\"name\":\"group 1\",\"ph\":\"C\",\"ts\":7,\"pid\":1,\"args\":{"
        ++ codes "\"read buffers\":1}}"
        ++ codes ",\n{\"name\":\"group 2\",\"ph\":\"C\",\"ts\":7,\"pid\":1,\"args\":{"
        ++ codes "\"read buffers\":0}}"
        ++ codes ",\n{\"name\":\"group 3\",\"ph\":\"C\",\"ts\":7,\"pid\":1,\"args\":{"
        ++ codes "\"read buffers\":0}}" }
    ensures others { map (counters_of_record (busy_device []) 7)
        (submit_record (Retry AtLimit) ∷ fetch_record 1 41 ∷ issue_record (AbortPasid 5) (Ended 0)
        ∷ Refused no_command ∷ [])
        ≡ [] ∷ [] ∷ [] ∷ [] ∷ [] }
{}

/// An entry comes into the first lane of its engine that has none, or into a new one.
pub fn lanes()
    ensures first { lanes_with 1 (work_named 8 None) [] ≡ lane_with 1 8 ∷ [] }
    ensures free { lanes_with 1 (work_named 8 None)
        (lane_with 1 5 ∷ lane_without 0 ∷ lane_without 2 ∷ lane_without 1 ∷ lane_without 1 ∷ [])
        ≡ lane_with 1 5 ∷ lane_without 0 ∷ lane_without 2 ∷ lane_with 1 8 ∷ lane_without 1
        ∷ [] }
    ensures more { lanes_with 1 (work_named 8 None) (lane_with 1 5 ∷ lane_without 0 ∷ [])
        ≡ lane_with 1 5 ∷ lane_without 0 ∷ lane_with 1 8 ∷ [] }
    ensures named { map (has_entry 8)
        (lane_without 1 ∷ lane_with 1 9 ∷ lane_with 1 7 ∷ lane_with 1 8 ∷ [])
        ≡ false ∷ false ∷ false ∷ true ∷ [] }
    ensures of_queue { has_entry 2 (lane_with 1 8) ≡ false }
{}

/// The client of each name that is given, and the one that a slice has.
pub fn clients()
    ensures names { map (λ entry. (after_event 7 (busy_device []) entry nothing_made).clients)
        (submit_record (Accepted (record_ticket 1 22)) ∷ fetch_record 1 41
        ∷ submit_record (Retry AtLimit) ∷ Refused no_command ∷ [])
        ≡ (Some 4 ∷ []) ∷ (None ∷ []) ∷ [] ∷ [] ∷ [] }
    ensures slice { (after_arrival 5 1 (Some (entry_of_pages 1 None 2))
        (record nothing_made { clients = Some 9 ∷ Some 6 ∷ Some 4 ∷ [] })).lanes
        ≡ filled_lane 1 (record (work_named 1 None) { client = Some 6 }) ∷ [] }
    ensures further { (after_event 7 (busy_device [])
        (submit_record (Accepted (record_ticket 1 22)))
        (record nothing_made { clients = Some 9 ∷ None ∷ [] })).clients
        ≡ Some 9 ∷ None ∷ Some 4 ∷ [] }
{}

/// How many entries end with a step and which, and the end of an entry that no engine had.
#[tactic(auto, unfolding(crate::specs::Worked::chrome_on_literals))]
pub fn ends()
    ensures counts { map count_of_ends
        (reply.Issue (Ended 4) ∷ reply.Issue Active ∷ reply.Start (start.Abandoned 3)
        ∷ reply.Start start.Nothing ∷ reply.Finish (Done 5) ∷ reply.Dispatch Idle ∷ [])
        ≡ 4 ∷ 0 ∷ 3 ∷ 0 ∷ 1 ∷ 0 ∷ [] }
    ensures rows { map (λ entry. map (λ row. row.name) (rows_of_record rows_of_an_abort entry))
        (issue_record (AbortPasid 7) (Ended 2) ∷ finish_record 1 41 1 ∷ fetch_record 1 41
        ∷ Refused no_command ∷ [])
        ≡ (22 ∷ 41 ∷ []) ∷ (41 ∷ []) ∷ [] ∷ [] ∷ [] }
    ensures ended { after_fate 9 (record { name = 8; parent = None; fate = Completed 26 })
        (record nothing_made { lanes = lane_without 1 ∷ lane_with 1 5 ∷ lane_with 0 8 ∷ [] })
        ≡ record nothing_made {
          text =
              codes ",\n{\"name\":\"8 move 8192 bytes\",\"ph\":\"X\",\"dur\":4,\"ts\":5,\"pid\":2,"
              ++ codes "\"tid\":3,\"args\":{\"entry\":8,\"queue\":2,\"opcode\":3,\"pasid\":7,"
              ++ codes "\"size\":8192,\"end\":\"completed 1a\"}}";
          lanes = lane_without 1 ∷ lane_with 1 5 ∷ lane_without 0 ∷ [];
        } }
    ensures waited { after_fate 9 (record { name = 22; parent = None; fate = Aborted 9 })
        (record nothing_made { lanes = lane_with 1 21 ∷ lane_without 0 ∷ [] })
        ≡ record nothing_made { lanes = lane_with 1 21 ∷ lane_without 0 ∷ [] } }
{}

/// The trace of a run of one submission.
#[tactic(auto, unfolding(crate::specs::Worked::chrome_on_literals))]
pub fn trace_of_a_run()
    ensures { IsChromeTraceOf (visits caps_of_a_run 9 [] records_of_a_run)
        (standing caps_of_a_run 9 records_of_a_run)
        (codes "{\"traceEvents\":[\n{\"name\":\"process_name\",\"ph\":\"M\",\"pid\":1,"
        ++ codes "\"tid\":0,\"args\":{\"name\":\"device\"}}"
        ++ codes ",\n{\"name\":\"process_name\",\"ph\":\"M\",\"pid\":2,\"tid\":0,\"args\":{"
        ++ codes "\"name\":\"engines\"}}"
        ++ codes ",\n{\"name\":\"process_name\",\"ph\":\"M\",\"pid\":3,\"tid\":0,\"args\":{"
        ++ codes "\"name\":\"steps of engines\"}}"
        ++ codes ",\n{\"name\":\"thread_name\",\"ph\":\"M\",\"pid\":1,\"tid\":1,\"args\":{"
        ++ codes "\"name\":\"clients\"}}"
        ++ codes ",\n{\"name\":\"thread_name\",\"ph\":\"M\",\"pid\":1,\"tid\":2,\"args\":{"
        ++ codes "\"name\":\"administrator\"}}"
        ++ codes ",\n{\"name\":\"thread_name\",\"ph\":\"M\",\"pid\":3,\"tid\":1,\"args\":{"
        ++ codes "\"name\":\"engine 0\"}}"
        ++ codes ",\n{\"name\":\"written\",\"ph\":\"i\",\"s\":\"t\",\"ts\":0,\"pid\":1,"
        ++ codes "\"tid\":2,\"args\":{\"step\":0,\"event\":\"write queue 0\",\"answer\":"
        ++ codes "\"written\"}}"
        ++ codes ",\n{\"name\":\"written\",\"ph\":\"i\",\"s\":\"t\",\"ts\":1,\"pid\":1,"
        ++ codes "\"tid\":2,\"args\":{\"step\":1,\"event\":\"write group 0\",\"answer\":"
        ++ codes "\"written\"}}"
        ++ codes ",\n{\"name\":\"ended 0\",\"ph\":\"i\",\"s\":\"t\",\"ts\":2,\"pid\":1,"
        ++ codes "\"tid\":2,\"args\":{\"step\":2,\"event\":\"command enable-device\",\"answer\":"
        ++ codes "\"ended 0\"}}"
        ++ codes ",\n{\"name\":\"ended 0\",\"ph\":\"i\",\"s\":\"t\",\"ts\":3,\"pid\":1,"
        ++ codes "\"tid\":2,\"args\":{\"step\":3,\"event\":\"command enable-wq 0\",\"answer\":"
        ++ codes "\"ended 0\"}}"
        ++ codes ",\n{\"name\":\"refused 13 BadCommand\",\"ph\":\"i\",\"s\":\"t\",\"ts\":4,"
        ++ codes "\"pid\":1,\"tid\":2,\"args\":{\"step\":4,\"event\":\"command 0x0\",\"answer\":"
        ++ codes "\"refused 13 BadCommand\"}}"
        ++ codes ",\n{\"name\":\"accepted 0\",\"ph\":\"i\",\"s\":\"t\",\"ts\":5,\"pid\":1,"
        ++ codes "\"tid\":1,\"args\":{\"step\":5,\"event\":"
        ++ codes "\"submit q0 limited enqcmd pasid 1 client 0 move 4096 bytes\",\"answer\":"
        ++ codes "\"accepted 0\"}}"
        ++ codes ",\n{\"name\":\"queue 0\",\"ph\":\"C\",\"ts\":5,\"pid\":1,\"args\":{"
        ++ codes "\"entries\":1}}"
        ++ codes ",\n{\"name\":\"taken 0 from 0\",\"ph\":\"i\",\"s\":\"t\",\"ts\":6,\"pid\":3,"
        ++ codes "\"tid\":1,\"args\":{\"step\":6,\"event\":\"dispatch e0\",\"answer\":"
        ++ codes "\"taken 0 from 0\"}}"
        ++ codes ",\n{\"name\":\"queue 0\",\"ph\":\"C\",\"ts\":6,\"pid\":1,\"args\":{"
        ++ codes "\"entries\":0}}"
        ++ codes ",\n{\"name\":\"group 0\",\"ph\":\"C\",\"ts\":6,\"pid\":1,\"args\":{"
        ++ codes "\"read buffers\":1}}"
        ++ codes ",\n{\"name\":\"done 01\",\"ph\":\"i\",\"s\":\"t\",\"ts\":7,\"pid\":3,"
        ++ codes "\"tid\":1,\"args\":{\"step\":7,\"event\":\"finish e0 name 0 success\","
        ++ codes "\"answer\":\"done 01\"}}"
        ++ codes ",\n{\"name\":\"group 0\",\"ph\":\"C\",\"ts\":7,\"pid\":1,\"args\":{"
        ++ codes "\"read buffers\":0}}"
        ++ codes ",\n{\"name\":\"0 move 4096 bytes\",\"ph\":\"X\",\"dur\":1,\"ts\":6,\"pid\":2,"
        ++ codes "\"tid\":1,\"args\":{\"entry\":0,\"queue\":0,\"opcode\":3,\"pasid\":1,"
        ++ codes "\"size\":4096,\"client\":0,\"end\":\"completed 01\"}}"
        ++ codes ",\n{\"name\":\"full\",\"ph\":\"i\",\"s\":\"t\",\"ts\":8,\"pid\":1,\"tid\":2,"
        ++ codes "\"args\":{\"step\":8,\"event\":\"poll\",\"answer\":\"full\"}}"
        ++ codes ",\n{\"name\":\"thread_name\",\"ph\":\"M\",\"pid\":2,\"tid\":1,\"args\":{"
        ++ codes "\"name\":\"engine 0\"}}"
        ++ codes ",\n{\"name\":\"thread_sort_index\",\"ph\":\"M\",\"pid\":2,\"tid\":1,\"args\":{"
        ++ codes "\"sort_index\":0}}\n]}\n") }
{}

/// The trace of steps with an abort, after which entries are held, and of no step.
#[tactic(auto, unfolding(crate::specs::Worked::chrome_on_literals))]
pub fn traces()
    ensures aborted { IsChromeTraceOf steps_of_an_abort (device_with [] rows_of_an_abort)
        (names_of_trace 2
        ++ codes ",\n{\"name\":\"taken 33 from 2\",\"ph\":\"i\",\"s\":\"t\",\"ts\":0,\"pid\":3,"
        ++ codes "\"tid\":2,\"args\":{\"step\":0,\"event\":\"dispatch e1\",\"answer\":"
        ++ codes "\"taken 33 from 2\"}}"
        ++ codes ",\n{\"name\":\"queue 2\",\"ph\":\"C\",\"ts\":0,\"pid\":1,\"args\":{"
        ++ codes "\"entries\":1}}"
        ++ codes ",\n{\"name\":\"group 0\",\"ph\":\"C\",\"ts\":0,\"pid\":1,\"args\":{"
        ++ codes "\"read buffers\":5}}"
        ++ codes ",\n{\"name\":\"fetched 41\",\"ph\":\"i\",\"s\":\"t\",\"ts\":1,\"pid\":3,"
        ++ codes "\"tid\":2,\"args\":{\"step\":1,\"event\":\"fetch e1 fill 0 bytes\",\"answer\":"
        ++ codes "\"fetched 41\"}}"
        ++ codes ",\n{\"name\":\"taken 31 from 2\",\"ph\":\"i\",\"s\":\"t\",\"ts\":2,\"pid\":3,"
        ++ codes "\"tid\":1,\"args\":{\"step\":2,\"event\":\"dispatch e0\",\"answer\":"
        ++ codes "\"taken 31 from 2\"}}"
        ++ codes ",\n{\"name\":\"queue 2\",\"ph\":\"C\",\"ts\":2,\"pid\":1,\"args\":{"
        ++ codes "\"entries\":1}}"
        ++ codes ",\n{\"name\":\"group 1\",\"ph\":\"C\",\"ts\":2,\"pid\":1,\"args\":{"
        ++ codes "\"read buffers\":1}}"
        ++ codes ",\n{\"name\":\"ended 2\",\"ph\":\"i\",\"s\":\"t\",\"ts\":3,\"pid\":1,"
        ++ codes "\"tid\":2,\"args\":{\"step\":3,\"event\":\"command abort-pasid 7\",\"answer\":"
        ++ codes "\"ended 2\"}}"
        ++ codes ",\n{\"name\":\"queue 0\",\"ph\":\"C\",\"ts\":3,\"pid\":1,\"args\":{"
        ++ codes "\"entries\":0}}"
        ++ codes ",\n{\"name\":\"queue 1\",\"ph\":\"C\",\"ts\":3,\"pid\":1,\"args\":{"
        ++ codes "\"entries\":0}}"
        ++ codes ",\n{\"name\":\"queue 2\",\"ph\":\"C\",\"ts\":3,\"pid\":1,\"args\":{"
        ++ codes "\"entries\":0}}"
        ++ codes ",\n{\"name\":\"group 0\",\"ph\":\"C\",\"ts\":3,\"pid\":1,\"args\":{"
        ++ codes "\"read buffers\":0}}"
        ++ codes ",\n{\"name\":\"group 1\",\"ph\":\"C\",\"ts\":3,\"pid\":1,\"args\":{"
        ++ codes "\"read buffers\":0}}"
        ++ codes ",\n{\"name\":\"group 2\",\"ph\":\"C\",\"ts\":3,\"pid\":1,\"args\":{"
        ++ codes "\"read buffers\":0}}"
        ++ codes ",\n{\"name\":\"group 3\",\"ph\":\"C\",\"ts\":3,\"pid\":1,\"args\":{"
        ++ codes "\"read buffers\":0}}"
        ++ codes ",\n{\"name\":\"41 move 8192 bytes\",\"ph\":\"X\",\"dur\":2,\"ts\":1,\"pid\":2,"
        ++ codes "\"tid\":2,\"args\":{\"entry\":41,\"batch\":33,\"queue\":2,\"opcode\":3,"
        ++ codes "\"pasid\":7,\"size\":8192,\"end\":\"aborted 9\"}}"
        ++ codes ",\n{\"name\":\"thread_name\",\"ph\":\"M\",\"pid\":2,\"tid\":1,\"args\":{"
        ++ codes "\"name\":\"engine 1\"}}"
        ++ codes ",\n{\"name\":\"thread_sort_index\",\"ph\":\"M\",\"pid\":2,\"tid\":1,\"args\":{"
        ++ codes "\"sort_index\":1}}"
        ++ codes ",\n{\"name\":\"33 move 12288 bytes\",\"ph\":\"B\",\"ts\":0,\"pid\":2,"
        ++ codes "\"tid\":1,\"args\":{\"entry\":33,\"queue\":2,\"opcode\":3,\"pasid\":7,"
        ++ codes "\"size\":12288,\"end\":\"held\"}}"
        ++ codes ",\n{\"name\":\"thread_name\",\"ph\":\"M\",\"pid\":2,\"tid\":2,\"args\":{"
        ++ codes "\"name\":\"engine 1\"}}"
        ++ codes ",\n{\"name\":\"thread_sort_index\",\"ph\":\"M\",\"pid\":2,\"tid\":2,\"args\":{"
        ++ codes "\"sort_index\":1}}"
        ++ codes ",\n{\"name\":\"thread_name\",\"ph\":\"M\",\"pid\":2,\"tid\":3,\"args\":{"
        ++ codes "\"name\":\"engine 0\"}}"
        ++ codes ",\n{\"name\":\"thread_sort_index\",\"ph\":\"M\",\"pid\":2,\"tid\":3,\"args\":{"
        ++ codes "\"sort_index\":0}}"
        ++ codes ",\n{\"name\":\"31 move 4096 bytes\",\"ph\":\"B\",\"ts\":2,\"pid\":2,\"tid\":3,"
        ++ codes "\"args\":{\"entry\":31,\"queue\":2,\"opcode\":3,\"pasid\":7,\"size\":4096,"
        ++ codes "\"end\":\"held\"}}\n]}\n") }
    ensures threads { step_threads 2
        ≡ codes ",\n{\"name\":\"thread_name\",\"ph\":\"M\",\"pid\":3,\"tid\":1,\"args\":{"
        ++ codes "\"name\":\"engine 0\"}}"
        ++ codes ",\n{\"name\":\"thread_name\",\"ph\":\"M\",\"pid\":3,\"tid\":2,\"args\":{"
        ++ codes "\"name\":\"engine 1\"}}" }
    ensures none { IsChromeTraceOf [] (running_at_first smallest_caps 4)
        (names_of_trace 1
        ++ codes "\n]}\n") }
{}
