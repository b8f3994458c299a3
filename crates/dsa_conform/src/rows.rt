//! Worked answers: which of them show what was seen, and what is told, by computation.

ghost use Rattle.std.specs.Prelude.{ℕ, List, ◌≡◌, ◌++◌, ◌∷◌, [], Some, None, Ok, Err, String, true, false, map, take, codes, replicate, string_bytes};
ghost use Rattle.std.specs.declared.vec.Vec.{Vec};
ghost use Rattle.std.specs.declared.alloc.Global.{Global};
ghost use Rattle.serde_json.specs.Data.{Data, null, boolean, string};
ghost use Rattle.dsa_book.specs.declared.answer.Cause.TheVariants.{AtLimit};
ghost use Rattle.dsa_book.specs.declared.answer.SubmitAnswer.TheVariants.{Accepted, Retry, Dropped, Full};
ghost use Rattle.dsa_book.specs.declared.answer.DispatchAnswer.TheVariants.{Taken, Idle};
ghost use Rattle.dsa_book.specs.declared.answer.FetchAnswer.TheVariants.{Fetched};
ghost use Rattle.dsa_book.specs.declared.answer.StartAnswer.TheVariants.{Started};
ghost use Rattle.dsa_book.specs.declared.answer.PollAnswer.TheVariants.{Active, Nothing};
ghost use Rattle.dsa_book.specs.declared.answer.FinishAnswer.TheVariants.{Gone};
ghost use Rattle.dsa_book.specs.declared.answer.Reply.TheVariants as reply;
ghost use Rattle.dsa_book.specs.declared.event.Event.TheVariants as event;
ghost use Rattle.dsa_book.specs.declared.event.Kind.TheVariants.{Enqcmd, Movdir64b};
ghost use Rattle.dsa_regs.specs.declared.Fault.TheVariants.{BadCommand, Busy};
ghost use Rattle.dsa_device.specs.Running.{running_at_first};
ghost use Rattle.dsa_scenario.specs.Worked.{bad_word};
ghost use Rattle.dsa_scenario.specs.Worked.{no_command};
ghost use Rattle.dsa_scenario.specs.declared.actions.Action.TheVariants.{Ask, Finish, Refuse};
ghost use Rattle.dsa_desc.specs.declared.Outcome.TheVariants.{Success};
ghost use Rattle.dsa_scenario.specs.declared.faults.ScenarioFault.TheVariants.{NotJson, BadStep, BadCaps, Differs};
ghost use Rattle.dsa_scenario.specs.declared.run.Record.{Record, TheVariants.{Refused}};
ghost use Rattle.dsa_scenario.specs.Worked.{accepted, whole, object_of, changed, command_step, poll_step, record_ticket, stepped, fill, smallest_caps, smallest_caps_text, no_caps_text, document_text, caps_of_a_run, group_of_a_run, submission_of_a_run, records_of_a_run};
ghost use Rattle.dsa_scenario.specs.Steps.{standing, AreLinesOfSteps};
ghost use Rattle.dsa_conform.specs.declared.following.Followed.TheVariants as followed;
ghost use Rattle.dsa_conform.specs.declared.following.Followed.TheVariants.{Shown};
ghost use Rattle.dsa_conform.specs.Seen.{nothing_seen, seen_of, observation_of, seen_as, shows, zf_of, is_seen, AreShown};
ghost use Rattle.dsa_conform.specs.Allowed.{IsAllowed, AreAllowed, IsAscending, NoneShows, AreSeenAlike, HasOneAnswer, IsNoDispatch, IsFollowed, offers, queue_taken};
ghost use Rattle.std.specs.Str.{encode_utf8_all};
ghost use Rattle.dsa_conform.specs.{Forms.{words_of_difference, IsFullReport, IsLineWith, IsReport}, Quoted.{seen_text}};
ghost use Rattle.dsa_conform.specs.Lines.{AreListed, allowed_line, conforms_text, seen_count, seen_line, difference_text};
ghost use Rattle.dsa_conform.specs.Run.{IsShownRun, IsAllowedLine, IsReason, AreAllLines, IsDifference, AreRead, IsUnreadAt, IsConforming, IsDiffering, IsConformance, IsFollowedTo, IsOtherFault};
ghost use Rattle.dsa_conform.specs.AsSeen.{count_shown, seen_before, IsFarthest, IsShownUpTo, IsMadeAsSeen, IsTextAsSeen, IsToldAsSeen};
ghost use Rattle.dsa_conform.specs.Every.{AreDifferences, AreDiffering, IsFullVerdict, IsVerdictOf, differs_text, unseen_at};
ghost use Rattle.dsa_conform.specs.Sights.{bare, bared, is_marked, step_at};
ghost use Rattle.dsa_regs.specs.declared.Caps.{Caps};
ghost use Rattle.dsa_conform.specs.declared.{told.Told.{Told}, way.Way.{Way}};
ghost use Rattle.dsa_book.specs.declared.answer.Ticket.{Ticket};
ghost use Rattle.dsa_conform.specs.ToldLines.{AddsLines, AreLinesTold, HasText, IsLineOf, IsLinePlaced, IsPlaceOf, IsTextTold, fact_told};
ghost use Rattle.dsa_conform.specs.Ways.{queue_of_record, queues_taken, AreAdded, AreDevicesAlike, AreFollowed, AreGone, AreGoneOn, AreNamedEnds, AreOn, AreStepped, Covers, IsAdded, IsEngineAlike, IsFollowedOn, IsGone, IsGoneOn, IsOn, IsOneGone, IsReadTo, IsTold, IsWayBy, IsFork, IsNamedEnd, IsOneWay, IsQueueAlike, RunFrom};
ghost use Rattle.dsa_conform.specs.Worked.{caps_of_two_queues, observed_of_an_error, records_of_one_error, records_of_two_errors, cleared, no_cells, told_against, told_allowing, way_at_first, records_of_two_queues, observed_of_two_queues, end_of_second, caps_of_three_queues, answered, flagged, answered_with, by_enqcmd, by_movdir, observed_of_a_run, record_of_a_take, idle_words, from_first, from_second, from_third, after_some, after_all, after_a_take, line_of, smallest_device_at_first, document_of, poll_with, GoesAtFirst, polled_with, refused_then_polled, poll_record, nothing_line};

/// What a step object says was seen.
pub fn observations()
    ensures nothing { seen_of (object_of poll_step) ≡ Some nothing_seen }
    ensures answer { seen_of (object_of ((codes "answer", string (codes "nothing")) ∷ poll_step))
        ≡ Some (answered (codes "nothing")) }
    ensures flag { seen_of (object_of ((codes "zf", boolean true) ∷ poll_step))
        ≡ Some (flagged true) }
    ensures number { seen_of (object_of ((codes "answer", whole 1) ∷ poll_step)) ≡ None }
    ensures no_null { seen_of (object_of ((codes "answer", null) ∷ poll_step)) ≡ None }
    ensures no_flag { seen_of (object_of ((codes "zf", string (codes "true")) ∷ poll_step)) ≡ None }
    ensures both { seen_of (object_of
        ((codes "answer", string (codes "full")) ∷ (codes "zf", boolean false) ∷ poll_step))
        ≡ Some (answered_with (codes "full") false) }
    ensures step { observation_of (object_of ((codes "zf", boolean false) ∷ poll_step))
        ≡ Some (Ask event.Poll, flagged false) }
    ensures no_step { observation_of (object_of ((codes "zf", boolean false) ∷ [])) ≡ None }
    ensures unread { observation_of (object_of ((codes "zf", null) ∷ poll_step)) ≡ None }
{}

/// What a value of the program says was seen.
pub fn values()
    ensures text { seen_as
        (record { answer = Some (record { ref_ptr = (0, 0); now = codes "full" }); zf = None })
        ≡ answered (codes "full") }
    ensures nothing { seen_as (record { answer = None; zf = None }) ≡ nothing_seen }
    ensures flag { seen_as (record { answer = None; zf = Some false }) ≡ flagged false }
{}

/// Steps of which nothing was seen are not counted.
pub fn counts()
    ensures seen { map is_seen
        (nothing_seen ∷ answered [] ∷ flagged false ∷ answered_with [] true ∷ [])
        ≡ false ∷ replicate 3 true }
    ensures of_a_run { seen_count observed_of_a_run ≡ 7 }
{}

/// Lines, with and without names.
#[tactic(auto, unfolding(dsa_scenario::specs::Worked::digits_on_literals))]
pub fn lines()
    ensures accepted { map (λ text. shows (answered text)
        (by_enqcmd (Accepted (record_ticket 3 12))))
        (codes "accepted 12" ∷ codes "accepted" ∷ codes "accepted 13" ∷ codes "accepted 12 "
        ∷ codes "retry at-limit" ∷ [])
        ≡ true ∷ true ∷ replicate 3 false }
    ensures half { shows (answered (codes "retry")) (by_enqcmd (Retry AtLimit)) ≡ false }
    ensures taken { map (λ text. shows (answered text) (record_of_a_take 7 1))
        (codes "taken 7 from 1" ∷ codes "taken from 1" ∷ codes "taken from 0" ∷ codes "taken 7"
        ∷ codes "taken" ∷ [])
        ≡ true ∷ true ∷ replicate 3 false }
    ensures fetched { map (λ text. shows (answered text)
        (stepped (event.Fetch 0 fill) (reply.Fetch (Fetched (record_ticket 1 2)))))
        (codes "fetched" ∷ codes "fetched 3" ∷ [])
        ≡ true ∷ false ∷ [] }
    ensures started { shows (answered (codes "started"))
        (stepped (event.Start 0) (reply.Start (Started (record_ticket 1 2))))
        ≡ true }
    ensures refused { map (λ fault. shows (answered (codes "refused 13 BadCommand"))
        (Refused (record { word = 5; fault = fault }))) (BadCommand ∷ Busy ∷ [])
        ≡ true ∷ false ∷ [] }
    ensures anything { shows nothing_seen (record_of_a_take 7 1) ≡ true }
    ensures no_fault { shows (answered (codes "refused")) (Refused no_command) ≡ false }
    ensures empty { shows (answered []) (by_enqcmd Full) ≡ false }
{}

/// Zero flags: of ENQCMD both, of MOVDIR64B none.
#[tactic(auto, unfolding(dsa_scenario::specs::Worked::digits_on_literals))]
pub fn flags()
    ensures accepted { shows (flagged false) (by_enqcmd (Accepted (record_ticket 3 12))) ≡ true }
    ensures retry { shows (flagged true) (by_enqcmd (Retry AtLimit)) ≡ true }
    ensures not_accepted { shows (flagged true) (by_enqcmd (Accepted (record_ticket 3 12)))
        ≡ false }
    ensures not_retry { shows (flagged false) (by_enqcmd (Retry AtLimit)) ≡ false }
    ensures posted { shows (flagged false) (by_movdir (Accepted (record_ticket 3 12))) ≡ false }
    ensures full { shows (flagged true) (by_enqcmd Full) ≡ false }
    ensures no_submission { shows (flagged true) (record_of_a_take 7 1) ≡ false }
    ensures unreported { map zf_of
        (record_of_a_take 7 1
        ∷ Refused no_command
        ∷ by_enqcmd Full
        ∷ by_movdir (Accepted (record_ticket 3 12))
        ∷ [])
        ≡ replicate 4 None }
    ensures with_its_line { shows (answered_with (codes "accepted") false)
        (by_enqcmd (Accepted (record_ticket 3 12)))
        ≡ true }
    ensures with_another_line { shows (answered_with (codes "retry at-limit") false)
        (by_enqcmd (Accepted (record_ticket 3 12)))
        ≡ false }
    ensures line_with_another { shows (answered_with (codes "accepted") true)
        (by_enqcmd (Accepted (record_ticket 3 12)))
        ≡ false }
{}

/// An engine may take the front of each queue that qualifies, in ascending order.
pub fn offered()
    ensures both { offers after_all.state.work 0 ≡ from_first ∷ from_second ∷ [] }
    ensures one { offers (after_some 7).state.work 0 ≡ from_first ∷ [] }
    ensures none { offers (after_some 6).state.work 0 ≡ [] }
    ensures second_engine { offers after_all.state.work 1
        ≡ stepped (event.Dispatch 1) (reply.Dispatch (Taken (record_ticket 3 0) 0))
        ∷ stepped (event.Dispatch 1) (reply.Dispatch (Taken (record_ticket 5 1) 2))
        ∷ [] }
    ensures no_engine { offers after_all.state.work 2 ≡ [] }
    ensures more_queues { offers
        (record after_all.state.work {
          setup = record after_all.state.work.setup {
            caps = record caps_of_three_queues {
              total_size = 1;
              read_buffers = 1;
              slots = 1;
              max_batch_shift = 1;
              max_xfer_shift = 1;
            };
          };
        })
        0
        ≡ from_first ∷ from_second ∷ [] }
    ensures queues { map queue_taken (from_second ∷ Refused no_command ∷ by_enqcmd Full ∷ [])
        ≡ 2 ∷ 0 ∷ 0 ∷ [] }
{}

/// Taken entries are told in the order of their queues, each once.
pub fn ascending()
    ensures one { IsAscending (by_enqcmd Full ∷ []) }
    ensures twice { ¬ IsAscending (record_of_a_take 0 1 ∷ record_of_a_take 1 1 ∷ []) }
    ensures last { ¬ IsAscending
        (record_of_a_take 0 0 ∷ record_of_a_take 1 2 ∷ record_of_a_take 2 1 ∷ []) }
{}

/// Which answers nothing that is seen tells apart, and where more than one of them may come.
#[tactic(auto, unfolding(dsa_scenario::specs::Worked::digits_on_literals))]
pub fn alike()
    ensures cells { AreSeenAlike (by_enqcmd (Accepted (record_ticket 3 12)))
        (by_enqcmd (Accepted (record_ticket 9 12))) }
    ensures queues { ¬ AreSeenAlike from_first from_second }
    ensures flags { ¬ AreSeenAlike (by_enqcmd (Accepted (record_ticket 3 12)))
        (by_movdir (Accepted (record_ticket 3 12))) }
    ensures one { HasOneAnswer smallest_device_at_first (Ok event.Poll) }
    ensures either { ¬ HasOneAnswer after_all (Ok (event.Dispatch 0)) }
    ensures poll { IsNoDispatch (Ok event.Poll) }
    ensures word { IsNoDispatch (Err no_command) }
    ensures dispatch { ¬ IsNoDispatch (Ok (event.Dispatch 1)) }
{}

/// What may be answered where an engine may take from either of two queues, and which lists tell
/// all of it.
#[tactic(auto, unfolding(dsa_scenario::specs::Worked::digits_on_literals))]
pub fn allowed()
    ensures first { IsAllowed after_all (Ok (event.Dispatch 0)) from_first }
    ensures second { IsAllowed after_all (Ok (event.Dispatch 0)) from_second }
    ensures idle { ¬ IsAllowed after_all (Ok (event.Dispatch 0))
        (stepped (event.Dispatch 0) (reply.Dispatch Idle)) }
    ensures other_event { ¬ IsAllowed after_all (Ok (event.Dispatch 0))
        (poll_record Nothing) }
    ensures word { IsAllowed smallest_device_at_first (Err no_command) (Refused no_command) }
    ensures other_word { ¬ IsAllowed smallest_device_at_first (Err no_command)
        (Refused (bad_word 1)) }
    ensures all { AreAllowed after_all (Ok (event.Dispatch 0)) (from_first ∷ from_second ∷ []) }
    ensures neither { NoneShows after_all (Ok (event.Dispatch 0)) (answered (codes "idle")) }
    ensures left_out { ¬ AreAllowed after_all (Ok (event.Dispatch 0)) (from_first ∷ []) }
    ensures order { ¬ AreAllowed after_all (Ok (event.Dispatch 0)) (from_second ∷ from_first ∷ []) }
    ensures not_there { ¬ AreAllowed after_all (Ok (event.Dispatch 0))
        (from_first ∷ from_second ∷ from_third ∷ []) }
    ensures shown { ¬ NoneShows after_all (Ok (event.Dispatch 0))
        (answered (codes "taken from 2")) }
{}

/// A device goes on by an answer to what was asked that shows what was seen.
#[tactic(auto, unfolding(dsa_scenario::specs::Worked::digits_on_literals))]
pub fn followed()
    ensures step { IsFollowed smallest_device_at_first (Ok event.Poll) (answered (codes "nothing"))
        smallest_device_at_first (Shown (poll_record Nothing)) }
    ensures refused { IsFollowed smallest_device_at_first (Err no_command)
        (answered (codes "refused 13 BadCommand")) smallest_device_at_first
        (Shown (Refused no_command)) }
    ensures others { ¬ IsFollowed smallest_device_at_first (Err no_command)
        (answered (codes "nothing")) smallest_device_at_first (Shown (Refused no_command))
        × ¬ IsFollowed smallest_device_at_first (Ok event.Poll)
        (answered (codes "refused 13 BadCommand")) smallest_device_at_first
        (Shown (Refused no_command))
        × ¬ IsFollowed smallest_device_at_first (Ok event.Poll)
        (answered (codes "active")) smallest_device_at_first (Shown (poll_record Active)) }
    ensures shown { (v : Vec Record Global)
        → ¬ IsFollowed smallest_device_at_first (Ok event.Poll) (answered (codes "nothing"))
        smallest_device_at_first (followed.Differs v) }
    ensures untold { (v : Vec Record Global)
        → v.items ≡ []
        → ¬ IsFollowed smallest_device_at_first (Ok event.Poll) (answered (codes "active"))
        smallest_device_at_first (followed.Differs v) }
    ensures none_allowed { (v : Vec Record Global)
        → v.items ≡ []
        → ¬ IsFollowed no_cells (Ok submission_of_a_run) nothing_seen no_cells
        (followed.Differs v) }
    ensures another_state { ¬ IsFollowed smallest_device_at_first (Err no_command) nothing_seen
        (running_at_first smallest_caps 8) (Shown (Refused no_command)) }
{}

/// A run from set-up to its end conforms. No other answers do, nor more or fewer than were seen.
#[tactic(auto, unfolding(dsa_scenario::specs::Worked::digits_on_literals))]
pub fn a_run()
    ensures conforms { IsShownRun caps_of_a_run 7 observed_of_a_run records_of_a_run }
    ensures second_queue { IsShownRun caps_of_three_queues 10 observed_of_two_queues
        (records_of_two_queues ++ from_second ∷ end_of_second ∷ []) }
    ensures first_queue { ¬ IsShownRun caps_of_three_queues 10 observed_of_two_queues
        (records_of_two_queues ++ from_first ∷ end_of_second ∷ []) }
    ensures fewer { ¬ AreShown (nothing_seen ∷ []) [] }
    ensures more { ¬ AreShown [] (Refused no_command ∷ []) }
    ensures second_not_shown { ¬ AreShown (nothing_seen ∷ answered (codes "idle") ∷ [])
        (Refused no_command ∷ Refused no_command ∷ []) }
    ensures others { ¬ IsShownRun smallest_caps 9
        ((Refuse no_command, answered (codes "nothing")) ∷ []) (Refused no_command ∷ [])
        × ¬ IsShownRun smallest_caps 9 (polled_with nothing_seen) (Refused no_command ∷ [])
        × ¬ IsShownRun smallest_caps 9 (polled_with (answered (codes "active")))
        (poll_record Active ∷ []) }
{}

/// What is told.
#[tactic(auto, unfolding(crate::specs::Worked::texts_on_literals))]
pub fn texts()
    ensures conforms { conforms_text 9 4 ≡ codes "conforms: 9 steps, 4 answers seen\n" }
    ensures one { conforms_text 1 1 ≡ codes "conforms: 1 step, 1 answer seen\n" }
    ensures idle { difference_text 17 (answered (codes "idle")) (codes "e0 may take 7 from q0")
        ((record_of_a_take 7 0, allowed_line idle_words (record_of_a_take 7 0))
        ∷ (record_of_a_take 9 2, allowed_line [] (record_of_a_take 9 2))
        ∷ [])
        ≡ codes
        "step 17: dispatch e0\nseen: idle\nagainst: e0 may take 7 from q0\nallowed: taken 7 from 0\nallowed: taken 9 from 2\n" }
    ensures poll { difference_text 3 (answered (codes "active")) (codes "no command is active")
        ((
          poll_record Nothing,
          allowed_line (codes ": no command is active") (poll_record Nothing),
        )
        ∷ [])
        ≡ codes "step 3: poll\nseen: active\nagainst: no command is active\nallowed: nothing: no command is active\n" }
    ensures both { seen_line (answered_with (codes "accepted 3") false)
        ≡ codes "seen: accepted 3, zf false\n" }
    ensures nothing { seen_line nothing_seen ≡ codes "seen: \n" }
    ensures not_plain { seen_line (answered (codes "idle\n")) ≡ codes "seen: \"idle\\u000a\"\n" }
    ensures not_plain_with_flag { seen_line (answered_with (codes "\"") true)
        ≡ codes "seen: \"\\\"\", zf true\n" }
    ensures none { difference_text 3 (answered (codes "active")) (codes "q1 is empty") [] ≡ [] }
    ensures flag { difference_text 0 (flagged true) []
        ((Refused no_command, allowed_line [] (Refused no_command)) ∷ [])
        ≡ codes "step 0: command 0x0\nseen: zf true\nagainst: \nallowed: refused 13 BadCommand\n" }
{}

/// A text that was seen, as it is where it is plain, and else in JSON.
#[tactic(auto, unfolding(crate::specs::Worked::texts_on_literals))]
pub fn seen_texts()
    ensures plain { map seen_text (codes "taken 7 from 1" ∷ codes " ~" ∷ [] ∷ [])
        ≡ codes "taken 7 from 1" ∷ codes " ~" ∷ [] ∷ [] }
    ensures line_feed { seen_text (codes "idle\nallowed: full")
        ≡ codes "\"idle\\u000aallowed: full\"" }
    ensures escape { seen_text (27 ∷ codes "[2J") ≡ codes "\"\\u001b[2J\"" }
    ensures tab { seen_text (codes "\t") ≡ codes "\"\\u0009\"" }
    ensures delete { seen_text (127 ∷ []) ≡ codes "\"\\u007f\"" }
    ensures quote { seen_text (codes "\"full\"") ≡ codes "\"\\\"full\\\"\"" }
    ensures backslash { seen_text (codes "\\n") ≡ codes "\"\\\\n\"" }
    ensures letter { seen_text (encode_utf8_all (codes "é")) ≡ codes "\"\\u00e9\"" }
    ensures each_place { seen_text (encode_utf8_all (0x1000 ∷ 0x100 ∷ []))
        ≡ codes "\"\\u1000\\u0100\"" }
    ensures last_unit { seen_text (encode_utf8_all (0xffff ∷ [])) ≡ codes "\"\\uffff\"" }
    ensures pair { seen_text (encode_utf8_all (0x1f600 ∷ [])) ≡ codes "\"\\ud83d\\ude00\"" }
    ensures last_pair { seen_text (encode_utf8_all (0x10ffff ∷ [])) ≡ codes "\"\\udbff\\udfff\"" }
    ensures mixed { seen_text (encode_utf8_all (codes "q1 → q2")) ≡ codes "\"q1 \\u2192 q2\"" }
{}

/// A line begins with its word, ends at its only line feed, and is printable.
pub fn lines_of_forms()
    ensures seen { IsLineWith (codes "seen: ") (codes "seen: idle\n") }
    ensures empty { IsLineWith (codes "seen: ") (codes "seen: \n") }
    ensures another_word { ¬ IsLineWith (codes "seen: ") (codes "step 0: poll\n") }
    ensures no_end { ¬ IsLineWith (codes "seen: ") (codes "seen: idle") }
    ensures two { ¬ IsLineWith (codes "seen: ") (codes "seen: a\nallowed: b\n") }
    ensures delete { ¬ IsLineWith (codes "seen: ") (codes "seen: " ++ 127 ∷ codes "\n") }
    ensures escape { ¬ IsLineWith (codes "allowed: ") (codes "allowed: " ++ 27 ∷ codes "\n") }
    ensures two_allowed { ¬ IsLineWith (codes "allowed: ") (codes "allowed: a\nallowed: b\n") }
{}

/// The lines of a document that conforms, of one that differs, and of one with a bad step.
pub fn reports()
    ensures words { words_of_difference 2
        ≡ codes "step " ∷ codes "seen: " ∷ codes "against: " ∷ codes "allowed: "
        ∷ codes "allowed: " ∷ [] }
    ensures conforms { IsReport None (codes "conforms: 1 step, 0 answers seen\n") }
    ensures one_line { ¬ IsReport None
        (codes "conforms: 1 step, 0 answers seen\nallowed: nothing\n") }
    ensures nothing { ¬ IsReport None [] }
    ensures differs { IsReport (Some (Differs 0))
        (codes "step 0: poll\nseen: full\nagainst: a\nallowed: nothing\n") }
    ensures more { IsReport (Some (Differs 4))
        (codes
        "step 4: dispatch e0\nseen: full\nagainst: a\nallowed: taken 7 from 0\nallowed: taken 9 from 2\n") }
    ensures none_allowed { ¬ IsReport (Some (Differs 0))
        (codes "step 0: poll\nseen: full\nagainst: a\n") }
    ensures none_against { ¬ IsReport (Some (Differs 0))
        (codes "step 0: poll\nseen: full\nallowed: nothing\nallowed: nothing\n") }
    ensures not_seen { ¬ IsReport (Some (Differs 0))
        (codes "step 0: poll\nallowed: nothing\nallowed: nothing\n") }
    ensures no_step { ¬ IsReport (Some (Differs 0)) (codes "conforms: 1 step, 0 answers seen\n") }
    ensures no_blanks { ¬ IsReport (Some (Differs 0))
        (codes "step0: poll\nseen: full\nagainst: a\nallowed: nothing\n")
        × ¬ IsReport (Some (Differs 0))
        (codes "step 0: poll\nseen:full\nagainst: a\nallowed: nothing\n")
        × ¬ IsReport (Some (Differs 0))
        (codes "step 0: poll\nseen: full\nagainst:a\nallowed: nothing\n")
        × ¬ IsReport (Some (Differs 0))
        (codes "step 0: poll\nseen: full\nagainst: a\nallowed:nothing\n") }
    ensures bad_step { IsReport (Some (BadStep 0)) [] }
    ensures before_bad_step { ¬ IsReport (Some (BadStep 0)) (codes "step 0: poll\n") }
    ensures not_json { ¬ IsReport (Some NotJson) [] }
    ensures all { IsFullReport (Some (Differs 0))
        (codes
        "step 0: poll\nseen: full\nagainst: a\nallowed: nothing\ndiffers: 1 step of 1, 1 answer seen\n") }
    ensures all_conform { IsFullReport None (codes "conforms: 1 step, 0 answers seen\n") }
    ensures no_differences { ¬ IsFullReport (Some (Differs 0))
        (codes "differs: 1 step of 1, 1 answer seen\n") }
{}

/// Every step that differs: nothing counts as seen of those before it that differ.
#[tactic(auto, unfolding(dsa_scenario::specs::Worked::digits_on_literals))]
pub fn every_difference()
    ensures struck { unseen_at 1 (polled_with (flagged true) ++ refused_then_polled (flagged false))
        ≡ polled_with (flagged true) ++ refused_then_polled (flagged false) }
    ensures struck_first { unseen_at 0 (polled_with (answered []) ++ polled_with (flagged true))
        ≡ polled_with nothing_seen ++ polled_with (flagged true) }
    ensures struck_last { unseen_at 2
        (refused_then_polled (answered []) ++ polled_with (flagged true))
        ≡ refused_then_polled (answered []) ++ polled_with nothing_seen }
    ensures struck_behind { unseen_at 1 (polled_with (answered [])) ≡ polled_with (answered []) }
    ensures line { differs_text 2 12 8 ≡ codes "differs: 2 steps of 12, 8 answers seen\n" }
    ensures one { differs_text 1 1 1 ≡ codes "differs: 1 step of 1, 1 answer seen\n" }
    ensures told { AreDiffering smallest_caps 9
        (object_of ((codes "answer", string (codes "active")) ∷ poll_step) ∷ []) 0
        (codes
        "step 0: poll\nseen: active\nagainst: no command is active\nallowed: nothing: no command is active\ndiffers: 1 step of 1, 1 answer seen\n") }
    ensures none { ¬ AreDifferences smallest_caps 9 (polled_with (answered (codes "active"))) [] }
    ensures shown { (text : List ℕ)
        → ¬ AreDifferences smallest_caps 9 (polled_with (answered (codes "nothing")))
        ((0, text) ∷ []) }
    ensures full { IsFullVerdict smallest_caps 9
        (object_of poll_step ∷ []) None (codes "conforms: 1 step, 0 answers seen\n") }
    ensures other_fault { ¬ IsFullVerdict smallest_caps 9 [] (Some BadCaps) [] }
    ensures first { (caps : Caps) (text : List ℕ) → IsVerdictOf false caps 9 [] None text
        → IsConforming caps 9 [] text }
{}

/// Step objects without what was seen of those that are marked.
pub fn steps_left_out()
    ensures bare { bare (object_of
        ((codes "answer", string (codes "full")) ∷ (codes "zf", boolean false) ∷ poll_step))
        ≡ object_of poll_step }
    ensures behind { bare (object_of ((codes "note", null) ∷ (codes "zf", null) ∷ []))
        ≡ object_of ((codes "note", null) ∷ []) }
    ensures inside { bare (object_of ((codes "note", object_of ((codes "zf", null) ∷ [])) ∷ []))
        ≡ object_of ((codes "note", object_of ((codes "zf", null) ∷ [])) ∷ []) }
    ensures no_object { bare (string (codes "zf")) ≡ string (codes "zf") }
    ensures marked { bared (false ∷ true ∷ []) (replicate 3 (object_of ((codes "zf", null) ∷ [])))
        ≡ object_of ((codes "zf", null) ∷ []) ∷ object_of []
        ∷ object_of ((codes "zf", null) ∷ []) ∷ [] }
    ensures behind_all { bared (true ∷ []) [] ≡ [] }
    ensures marks { map (is_marked (false ∷ true ∷ [])) (0 ∷ 1 ∷ 2 ∷ [])
        ≡ false ∷ true ∷ false ∷ [] }
    ensures read { map (step_at (object_of ((codes "zf", boolean true) ∷ poll_step) ∷ object_of []
        ∷ [])) (0 ∷ 1 ∷ 2 ∷ [])
        ≡ Some (Ask event.Poll, flagged true) ∷ None ∷ None ∷ [] }
{}

/// Which queue an answer tells, and the queues that steps took from.
pub fn queues()
    ensures taken { map queue_of_record
        (record_of_a_take 7 2 ∷ by_enqcmd Full ∷ Refused no_command ∷ [])
        ≡ Some 2 ∷ None ∷ None ∷ [] }
    ensures in_turn { queues_taken
        (record { event = event.Dispatch 0; reply = reply.Dispatch (Taken (record_ticket 5 1) 2) }
        ∷ record { event = event.Poll; reply = reply.Poll Nothing }
        ∷ record { event = event.Dispatch 0; reply = reply.Dispatch (Taken (record_ticket 3 0) 0) }
        ∷ [])
        ≡ 2 ∷ 0 ∷ [] }
{}

/// The first object that is no step object with what was seen.
pub fn objects()
    ensures read { AreRead (object_of ((codes "zf", boolean true) ∷ poll_step) ∷ [])
        ((Ask event.Poll, flagged true) ∷ []) }
    ensures not_read { ¬ AreRead (object_of ((codes "zf", null) ∷ poll_step) ∷ [])
        ((Ask event.Poll, nothing_seen) ∷ []) }
    ensures last_not_read { ¬ AreRead (object_of poll_step ∷ null ∷ [])
        ((Ask event.Poll, nothing_seen) ∷ []) }
    ensures first { IsUnreadAt (object_of poll_step ∷ null ∷ null ∷ []) 1 }
    ensures before { ¬ IsUnreadAt (object_of poll_step ∷ null ∷ null ∷ []) 0 }
    ensures behind { ¬ IsUnreadAt (object_of poll_step ∷ null ∷ null ∷ []) 2 }
    ensures past_the_end { ¬ IsUnreadAt (object_of poll_step ∷ []) 1 }
{}

/// A difference is told of a step that differs alone, with all that is allowed where the steps
/// before may have led to. Steps conform only where each is read and its answer shows what was
/// seen, and all are counted.
#[tactic(auto, unfolding(dsa_scenario::specs::Worked::digits_on_literals))]
pub fn verdicts()
    ensures after_one { IsDifference smallest_caps 1
        ((Ask (event.WriteGroup 0 group_of_a_run), nothing_seen) ∷ [])
        (Ask event.Poll, answered (codes "nothing")) 1
        (codes "step 1: poll\nseen: nothing\nagainst: the history has room for 1 step\nallowed: full: the history has room for 1 step\n") }
    ensures second { IsDiffering smallest_caps 9
        (changed (codes "word") (whole 0) command_step
        ∷ object_of ((codes "answer", string (codes "active")) ∷ poll_step)
        ∷ [])
        1 (codes "step 1: poll\nseen: active\nagainst: no command is active\nallowed: nothing: no command is active\n") }
    ensures shown { ¬ IsDifference smallest_caps 9 [] (Ask event.Poll, answered (codes "nothing"))
        0 (codes "step 0: poll\nseen: nothing\nagainst: no command is active\nallowed: nothing: no command is active\n") }
    ensures untold { ¬ IsDifference smallest_caps 9 [] (Ask event.Poll, answered (codes "active")) 0
        [] }
    ensures earlier { ¬ IsDifference smallest_caps 9
        ((Refuse no_command, answered (codes "nothing")) ∷ [])
        (Ask event.Poll, answered (codes "active")) 1 [] }
    ensures other_step { ¬ IsDiffering smallest_caps 9 (object_of poll_step ∷ []) 0
        (codes "step 0: poll\nseen: active\nagainst: no command is active\nallowed: nothing: no command is active\n") }
    ensures unread_behind { ¬ IsDiffering smallest_caps 9
        (object_of ((codes "answer", string (codes "active")) ∷ poll_step) ∷ null ∷ []) 0
        (codes "step 0: poll\nseen: active\nagainst: no command is active\nallowed: nothing: no command is active\n") }
    ensures unread { ¬ IsConforming smallest_caps 9 (null ∷ []) (conforms_text 1 0) }
    ensures not_shown { ¬ IsConforming smallest_caps 9
        (changed (codes "word") (whole 0)
        ((codes "answer", string (codes "nothing")) ∷ command_step)
        ∷ [])
        (conforms_text 1 1) }
    ensures counted { IsConforming smallest_caps 9
        (object_of poll_step ∷ []) (codes "conforms: 1 step, 0 answers seen\n") }
    ensures not_counted { ¬ IsConforming smallest_caps 9
        (object_of poll_step ∷ []) (conforms_text 0 0) }
    ensures counted_as_seen { ¬ IsConforming smallest_caps 9
        (object_of poll_step ∷ []) (conforms_text 1 1) }
{}

/// Documents, with what is told of each.
#[tactic(auto, unfolding(serde_json::proofs::OnLiterals::serde_json_on_literals, dsa_scenario::specs::Worked::digits_on_literals))]
pub fn documents()
    ensures no_steps { IsConformance (document_of []) None
        (codes "conforms: 0 steps, 0 answers seen\n") }
    ensures greatest { IsConformance (document_text smallest_caps_text (codes "1048576") []) None
        (codes "conforms: 0 steps, 0 answers seen\n") }
    ensures conforms { IsConformance (document_of (poll_with (codes "\"answer\":\"nothing\""))) None
        (codes "conforms: 1 step, 1 answer seen\n") }
    ensures differs { IsConformance (document_of (poll_with (codes "\"answer\":\"active\"")))
        (Some (Differs 0))
        (codes "step 0: poll\nseen: active\nagainst: no command is active\nallowed: nothing: no command is active\n") }
    ensures unread { IsConformance
        (document_of (poll_with (codes "\"zf\":true") ++ codes "," ++ poll_with (codes "\"zf\":1")))
        (Some (BadStep 1)) [] }
    ensures second { ¬ IsConformance (document_of (codes "1,2")) (Some (BadStep 1)) [] }
    ensures unread_with_a_text { ¬ IsConformance (document_of (codes "1"))
        (Some (BadStep 0)) (codes "1") }
    ensures other_fault { ¬ IsConformance (document_of []) (Some BadCaps) [] }
    ensures no_caps { ¬ IsConformance (document_text no_caps_text (codes "9") []) None
        (conforms_text 0 0) }
    ensures no_capacity { ¬ IsConformance (document_text smallest_caps_text (codes "1048577") [])
        None (conforms_text 0 0) }
    ensures unread_behind { ¬ IsConformance
        (document_of
        (poll_with (codes "\"answer\":\"active\"")
        ++ codes ","
        ++ poll_with (codes "\"zf\":1")))
        (Some (Differs 0))
        (codes "step 0: poll\nseen: active\nagainst: no command is active\nallowed: nothing: no command is active\n") }
{}

/// What was seen of the first steps, and how many these are.
pub fn first_steps()
    ensures none { seen_before 0 (polled_with (flagged true)) ≡ polled_with nothing_seen }
    ensures first { seen_before 1 ((Refuse no_command, flagged true) ∷ polled_with (flagged true))
        ≡ (Refuse no_command, flagged true) ∷ polled_with nothing_seen }
    ensures more { seen_before 2 (polled_with (flagged true)) ≡ polled_with (flagged true) }
    ensures all { count_shown 5 None ≡ 5 }
    ensures differs { count_shown 5 (Some (Differs 2)) ≡ 2 }
    ensures other { count_shown 5 (Some BadCaps) ≡ 5 }
{}

/// A run shows what was seen of as many steps as any does: of all, or of those before one of which
/// no run shows it.
pub fn farthest_steps()
    ensures all { IsFarthest smallest_caps 9 (polled_with (answered (codes "nothing"))) 1 }
    ensures differs { IsFarthest smallest_caps 9 (polled_with (answered (codes "active"))) 0 }
    ensures too_early { ¬ IsFarthest smallest_caps 9 (polled_with (answered (codes "nothing"))) 0 }
    ensures behind { ¬ IsFarthest smallest_caps 9 (polled_with (answered (codes "nothing"))) 2 }
{}

/// How far a run shows what was seen, where the next step may be answered otherwise.
pub fn own_answers()
    ensures all { IsShownUpTo smallest_caps 9 (polled_with (answered (codes "nothing"))) 1 }
    ensures none { IsShownUpTo smallest_caps 9 (polled_with (answered (codes "active"))) 0 }
    ensures too_early { ¬ IsShownUpTo smallest_caps 9 (polled_with (answered (codes "nothing"))) 0 }
    ensures too_far { ¬ IsShownUpTo smallest_caps 9 (polled_with (answered (codes "active"))) 1 }
{}

/// What is made of such a run, here its lines.
#[tactic(auto, unfolding(serde_json::proofs::OnLiterals::serde_json_on_literals, dsa_scenario::specs::Worked::digits_on_literals))]
pub fn made_as_seen()
    ensures line { IsTextAsSeen AreLinesOfSteps smallest_caps 9
        (object_of ((codes "answer", string (codes "nothing")) ∷ poll_step) ∷ [])
        (codes "nothing\n") }
    ensures differs { IsTextAsSeen AreLinesOfSteps smallest_caps 9
        (object_of ((codes "answer", string (codes "active")) ∷ poll_step) ∷ [])
        (codes "nothing\n") }
    ensures unread { ¬ IsTextAsSeen AreLinesOfSteps smallest_caps 9 (null ∷ []) [] }
    ensures not_shown { (text : List ℕ)
        → (h : IsTextAsSeen AreLinesOfSteps smallest_caps 9
        (changed (codes "word") (whole 0)
        ((codes "answer", string (codes "nothing")) ∷ command_step)
        ∷ [])
        text)
        → h.count ≡ 0 }
    ensures other_text { ¬ IsTextAsSeen (λ made last told. ⊥) smallest_caps 9 [] [] }
    ensures other_fault { ¬ IsToldAsSeen AreLinesOfSteps smallest_caps 9 [] (Some BadCaps) [] }
    ensures document { IsMadeAsSeen AreLinesOfSteps
        (document_of (poll_with (codes "\"answer\":\"nothing\""))) None (codes "nothing\n") }
    ensures bad_step { IsMadeAsSeen AreLinesOfSteps
        (document_of (poll_with (codes "\"zf\":1"))) (Some (BadStep 0)) [] }
{}

/// The other faults are told where no object is: it comes before those of the capabilities, and is
/// never a plain run's.
#[tactic(auto, unfolding(serde_json::proofs::OnLiterals::serde_json_on_literals))]
pub fn other_faults()
    ensures json { IsOtherFault (codes "{") NotJson }
    ensures caps { IsOtherFault
        (document_text no_caps_text (codes "9") (poll_with (codes "\"zf\":true"))) BadCaps }
    ensures unread_before_caps { ¬ IsOtherFault
        (document_text no_caps_text (codes "9") (poll_with (codes "\"zf\":1"))) BadCaps }
    ensures no_step { ¬ IsOtherFault (document_of (codes "1")) (BadStep 0) }
    ensures no_step_behind { ¬ IsOtherFault
        (document_of (poll_with (codes "\"zf\":1") ++ codes ",1")) (BadStep 1) }
    ensures no_such_fault { ¬ IsOtherFault (codes "{}") NotJson }
{}

/// Devices that answer alike, and devices that differ in one thing.
pub fn devices_alike()
    ensures same { AreDevicesAlike after_all after_all }
    ensures caps { ¬ AreDevicesAlike smallest_device_at_first (record smallest_device_at_first {
      caps = caps_of_a_run;
    }) }
    ensures capacity { ¬ AreDevicesAlike smallest_device_at_first
        (running_at_first smallest_caps 8) }
    ensures room { ¬ AreDevicesAlike after_all (record after_all { history = [] }) }
    ensures states { ¬ AreDevicesAlike after_all
        (record after_all { state = (after_some 7).state }) }
    ensures queue { IsQueueAlike after_all.state.work (after_some 7).state.work 0 }
    ensures config { ¬ IsQueueAlike (after_some 0).state.work (after_some 1).state.work 0 }
    ensures phase { ¬ IsQueueAlike (after_some 4).state.work (after_some 5).state.work 0 }
    ensures waiting { ¬ IsQueueAlike (after_some 6).state.work (after_some 7).state.work 0 }
    ensures engine { IsEngineAlike after_a_take.state.work after_all.state.work 1 }
    ensures note { ¬ IsEngineAlike after_all.state.work
        (record after_all.state.work {
          notes =
              Some (record { batch = 0; count = 2; fetched = 0; failed = false; closed = false })
              ∷ [];
        })
        0 }
    ensures in_progress { ¬ IsEngineAlike after_a_take.state.work after_all.state.work 0 }
    ensures members { ¬ IsEngineAlike
        (record after_all.state.work {
          content = [] ∷ [] ∷ [] ∷ [] ∷ [] ∷ after_all.state.work.content;
        })
        (record after_all.state.work { content = [] }) 0 }
{}

/// Which answers leave one way to go on, and which steps name the entry that they end.
#[tactic(auto, unfolding(dsa_scenario::specs::Worked::digits_on_literals))]
pub fn ways()
    ensures one { IsOneWay smallest_device_at_first (Ok event.Poll) nothing_seen }
    ensures one_seen { IsOneWay after_all (Ok (event.Dispatch 0))
        (answered (codes "taken from 2")) }
    ensures two { ¬ IsOneWay after_all (Ok (event.Dispatch 0)) nothing_seen }
    ensures both { IsFork after_all (Ok (event.Dispatch 0)) nothing_seen (0 ∷ 2 ∷ []) }
    ensures second { IsFork after_all (Ok (event.Dispatch 0)) (answered (codes "taken from 2"))
        (2 ∷ []) }
    ensures no_choice { IsFork smallest_device_at_first (Ok event.Poll) nothing_seen [] }
    ensures fork { ¬ IsFork after_all (Ok (event.Dispatch 0)) nothing_seen (0 ∷ []) }
    ensures one_not_seen { ¬ IsFork after_all (Ok (event.Dispatch 0))
        (answered (codes "taken from 2")) (0 ∷ 2 ∷ []) }
    ensures no_fork { ¬ IsFork after_all (Ok (event.Dispatch 0)) nothing_seen [] }
    ensures none_allowed { ¬ IsFork no_cells (Ok submission_of_a_run) nothing_seen (0 ∷ []) }
    ensures covered { (t : Vec Ticket Global)
        → Covers smallest_device_at_first (Ok event.Poll) nothing_seen (way_at_first 9 t ∷ []) }
    ensures nothing_to_cover { Covers smallest_device_at_first (Ok event.Poll)
        (answered (codes "active")) [] }
    ensures uncovered { ¬ Covers smallest_device_at_first (Ok event.Poll) nothing_seen [] }
    ensures by_name { IsNamedEnd (Finish 0 1 Success) }
    ensures no_end { IsNamedEnd (Ask event.Poll) }
    ensures by_ticket { ¬ IsNamedEnd (Ask (event.Finish 0 (record_ticket 3 0) Success)) }
    ensures all_by_name { AreNamedEnds
        ((Finish 0 1 Success, nothing_seen) ∷ (Ask event.Poll, nothing_seen) ∷ []) }
    ensures second_by_ticket { ¬ AreNamedEnds
        ((Ask event.Poll, nothing_seen)
        ∷ (Ask (event.Finish 0 (record_ticket 3 0) Success), nothing_seen)
        ∷ []) }
    ensures run { GoesAtFirst (polled_with (answered (codes "nothing"))) (poll_record Nothing ∷ [])
        smallest_device_at_first }
    ensures no_run { GoesAtFirst [] [] smallest_device_at_first }
    ensures elsewhere { ¬ GoesAtFirst [] [] (running_at_first smallest_caps 8) }
    ensures fewer { ¬ GoesAtFirst (polled_with nothing_seen) [] smallest_device_at_first }
    ensures more { ¬ GoesAtFirst [] (Refused no_command ∷ []) smallest_device_at_first }
    ensures by_names { RunFrom [] (running_at_first caps_of_a_run 7) (take 8 observed_of_a_run)
        (take 8 records_of_a_run)
        (standing caps_of_a_run 7 (take 8 records_of_a_run)) }
    ensures first_of_a_name { RunFrom (accepted (record_ticket 5 0) ∷ [])
        (standing caps_of_a_run 9 (take 4 records_of_a_run))
        ((Ask submission_of_a_run, nothing_seen) ∷ (Finish 0 0 Success, nothing_seen) ∷ [])
        (stepped submission_of_a_run (reply.Submit (Accepted (record_ticket 3 0)))
        ∷ stepped (event.Finish 0 (record_ticket 5 0) Success) (reply.Finish Gone)
        ∷ [])
        (standing caps_of_a_run 9 (take 6 records_of_a_run)) }
    ensures other_end { ¬ GoesAtFirst (polled_with (answered (codes "nothing")))
        (poll_record Nothing ∷ []) (running_at_first smallest_caps 8) }
    ensures not_allowed { ¬ GoesAtFirst (polled_with (answered (codes "active")))
        (poll_record Active ∷ []) smallest_device_at_first }
    ensures not_answered { ¬ GoesAtFirst (polled_with nothing_seen) (Refused no_command ∷ [])
        smallest_device_at_first }
    ensures not_seen { ¬ GoesAtFirst (polled_with (answered (codes "active")))
        (poll_record Nothing ∷ []) smallest_device_at_first }
{}

/// The reason that a device has after a run that shows what was seen.
#[tactic(auto, unfolding(dsa_scenario::specs::Worked::digits_on_literals))]
pub fn reasons()
    ensures after_a_run { IsReason caps_of_a_run 9 (take 7 observed_of_a_run)
        (Ask (event.Dispatch 0)) (codes ": q0 is empty") }
    ensures at_first { IsReason smallest_caps 9 [] (Ask event.Poll)
        (codes ": no command is active") }
    ensures another { ¬ IsReason smallest_caps 9 [] (Ask event.Poll) (codes ": no command") }
    ensures no_run { ¬ IsReason smallest_caps 9
        ((Refuse no_command, answered (codes "nothing")) ∷ []) (Ask event.Poll)
        (codes ": no command is active") }
{}

/// The lines of all that is allowed after runs that show what was seen.
#[tactic(auto, unfolding(dsa_scenario::specs::Worked::digits_on_literals))]
pub fn allowed_lines()
    ensures line { IsAllowedLine smallest_caps 9 ((Refuse no_command, nothing_seen) ∷ [])
        (Ask event.Poll) (poll_record Nothing)
        (codes "allowed: nothing: no command is active\n") }
    ensures no_run { ¬ IsAllowedLine smallest_caps 9
        ((Refuse no_command, answered (codes "nothing")) ∷ []) (Ask event.Poll)
        (poll_record Nothing)
        (codes "allowed: nothing: no command is active\n") }
    ensures not_allowed { ¬ IsAllowedLine smallest_caps 9 [] (Ask event.Poll)
        (poll_record Active)
        (codes "allowed: active: no command is active\n") }
    ensures no_reason { ¬ IsAllowedLine smallest_caps 9 [] (Ask event.Poll)
        (poll_record Nothing) (codes "allowed: nothing\n") }
    ensures all { AreAllLines smallest_caps 9 ((Refuse no_command, nothing_seen) ∷ [])
        (Ask event.Poll) (nothing_line ∷ []) }
    ensures another { ¬ AreAllLines smallest_caps 9 [] (Ask event.Poll)
        (nothing_line
        ∷ (poll_record Active, codes "allowed: active: no command is active\n")
        ∷ []) }
    ensures none { ¬ AreAllLines smallest_caps 9 [] (Ask event.Poll) [] }
    ensures left_out { ¬ AreAllLines caps_of_three_queues 9 (take 8 observed_of_two_queues)
        (Ask (event.Dispatch 0))
        ((from_first, codes "allowed: taken 0 from 0\n") ∷ []) }
    ensures twice { ¬ AreAllLines smallest_caps 9 [] (Ask event.Poll)
        (nothing_line ∷ nothing_line ∷ []) }
{}

/// A line whose text begins with that of another answer, which has no line.
#[tactic(auto, unfolding(dsa_scenario::specs::Worked::digits_on_literals))]
pub fn beginning_alike()
    ensures one { IsShownRun caps_of_two_queues 20 observed_of_an_error records_of_one_error }
    ensures two { IsShownRun caps_of_two_queues 20 observed_of_an_error records_of_two_errors }
    ensures longer { ¬ AreAllLines caps_of_two_queues 20 observed_of_an_error
        (Ask event.ClearError)
        ((cleared true, codes "allowed: cleared 0 at-limit overflow\n") ∷ []) }
{}

/// The order of lines, and where one comes among them.
pub fn lines_in_order()
    ensures listed { AreListed
        ((from_first, codes "b") ∷ (from_first, codes "c") ∷ (from_second, codes "a") ∷ []) }
    ensures wrong_order { ¬ AreListed ((from_second, codes "a") ∷ (from_first, codes "b") ∷ []) }
    ensures last_order { ¬ AreListed
        ((from_first, codes "a") ∷ (from_second, codes "b") ∷ (from_first, codes "c") ∷ []) }
    ensures twice { ¬ AreListed ((from_first, codes "a") ∷ (from_second, codes "a") ∷ []) }
    ensures place { (text : String Global)
        → IsPlaceOf (line_of from_first text ∷ line_of from_second text ∷ []) 0 1 }
    ensures end { (text : String Global) → IsPlaceOf (line_of from_second text ∷ []) 2 1 }
    ensures beyond { (text : String Global) → ¬ IsPlaceOf (line_of from_second text ∷ []) 2 2 }
    ensures too_late { (text : String Global) → ¬ IsPlaceOf (line_of from_second text ∷ []) 1 1 }
    ensures too_early { (text : String Global) → ¬ IsPlaceOf (line_of from_first text ∷ []) 0 0 }
    ensures placed { (text : String Global)
        → IsLinePlaced [] (line_of from_first text) (line_of from_first text ∷ []) }
    ensures lost { (text : String Global)
        → ¬ IsLinePlaced (line_of from_first text ∷ []) (line_of from_second text)
        (line_of from_second text ∷ []) }
    ensures another { (one : String Global)
        → (other : String Global)
        → string_bytes one ≡ codes "a"
        → string_bytes other ≡ codes "b"
        → ¬ IsLinePlaced [] (line_of from_second other)
        (line_of from_first one ∷ line_of from_second other ∷ []) }
    ensures not_listed { (one : String Global)
        → (other : String Global)
        → ¬ IsLinePlaced (line_of from_second one ∷ []) (line_of from_first other)
        (line_of from_second one ∷ line_of from_first other ∷ []) }
    ensures not_there { (text : String Global)
        → ¬ IsLinePlaced [] (line_of from_first text) [] }
{}

/// The lines of what devices allow, and the text of them.
#[tactic(auto, unfolding(dsa_scenario::specs::Worked::digits_on_literals))]
pub fn told_lines()
    ensures lower { (text : String Global) → IsPlaceOf (line_of from_first text ∷ []) 1 1 }
    ensures other_text { (text : String Global)
        → string_bytes text ≡ codes "a"
        → ¬ HasText (line_of from_first text ∷ []) (codes "b") }
    ensures second { (one : String Global)
        → (other : String Global)
        → string_bytes one ≡ codes "a"
        → string_bytes other ≡ codes "b"
        → IsLinePlaced (line_of from_first one ∷ []) (line_of from_second other)
        (line_of from_first one ∷ line_of from_second other ∷ []) }
    ensures not_allowed { (text : String Global)
        → (why : String Global)
        → (allowed : Vec Record Global)
        → allowed.items ≡ from_first ∷ []
        → ¬ IsLineOf (line_of from_second text) (told_allowing why allowed) }
    ensures other_line { (text : String Global)
        → (why : String Global)
        → (allowed : Vec Record Global)
        → string_bytes text ≡ codes "allowed: taken 0 from 2\n"
        → ¬ IsLineOf (line_of from_first text) (told_allowing why allowed) }
    ensures added { (one : String Global)
        → (other : String Global)
        → (why : String Global)
        → (allowed : Vec Record Global)
        → allowed.items ≡ from_second ∷ []
        → string_bytes one ≡ codes "allowed: taken 0 from 0\n"
        → string_bytes other ≡ codes "allowed: taken 1 from 2\n"
        → AddsLines (line_of from_first one ∷ [])
        (line_of from_first one ∷ line_of from_second other ∷ []) (told_allowing why allowed)
        (from_second ∷ []) }
    ensures not_told { (text : String Global)
        → (why : String Global)
        → (allowed : Vec Record Global)
        → allowed.items ≡ []
        → ¬ AddsLines [] (line_of from_first text ∷ []) (told_allowing why allowed) [] }
    ensures lost { (text : String Global)
        → (why : String Global)
        → (allowed : Vec Record Global)
        → ¬ AddsLines (line_of from_first text ∷ []) [] (told_allowing why allowed) [] }
    ensures not_added { (why : String Global)
        → (allowed : Vec Record Global)
        → ¬ AddsLines [] [] (told_allowing why allowed) (from_first ∷ []) }
    ensures text { (line : String Global)
        → (why : String Global)
        → (fact : String Global)
        → (allowed : Vec Record Global)
        → allowed.items ≡ from_first ∷ []
        → string_bytes line ≡ codes "allowed: taken 0 from 0\n"
        → string_bytes fact ≡ codes "e0 may take 0 from q0"
        → IsTextTold 17 (answered (codes "idle")) (told_against why fact allowed ∷ [])
        (codes
        "step 17: dispatch e0\nseen: idle\nagainst: e0 may take 0 from q0\nallowed: taken 0 from 0\n") }
    ensures facts { (why : String Global)
        → (first : String Global)
        → (second : String Global)
        → (allowed : Vec Record Global)
        → fact_told (told_against why first allowed ∷ told_against why second allowed ∷ [])
        ≡ string_bytes first }
    ensures no_fact { fact_told [] ≡ [] }
    ensures no_device { (text : String Global)
        → ¬ AreLinesTold [] (line_of from_first text ∷ []) }
    ensures no_such_answer { (text : String Global)
        → (why : String Global)
        → (allowed : Vec Record Global)
        → allowed.items ≡ []
        → ¬ AreLinesTold (told_allowing why allowed ∷ []) (line_of from_first text ∷ []) }
    ensures left_out { (why : String Global)
        → (allowed : Vec Record Global)
        → allowed.items ≡ from_first ∷ []
        → ¬ AreLinesTold (told_allowing why allowed ∷ []) [] }
    ensures no_text { ¬ IsTextTold 0 nothing_seen [] (codes "a") }
{}

/// Devices that go on, or tell what they allow, and those that come by so added to others.
#[tactic(auto, unfolding(dsa_scenario::specs::Worked::digits_on_literals))]
pub fn devices_added()
    ensures added { (t : Vec Ticket Global)
        → IsAdded (way_at_first 8 t ∷ []) (way_at_first 9 t)
        (way_at_first 8 t ∷ way_at_first 9 t ∷ []) }
    ensures another { (t : Vec Ticket Global)
        → ¬ IsAdded [] (way_at_first 9 t) (way_at_first 8 t ∷ way_at_first 9 t ∷ []) }
    ensures lost { (t : Vec Ticket Global)
        → ¬ IsAdded (way_at_first 8 t ∷ []) (way_at_first 9 t) (way_at_first 9 t ∷ []) }
    ensures not_added { (t : Vec Ticket Global)
        → ¬ IsAdded (way_at_first 8 t ∷ []) (way_at_first 9 t) (way_at_first 8 t ∷ []) }
    ensures not_there { (t : Vec Ticket Global) → ¬ IsAdded [] (way_at_first 9 t) [] }
    ensures twice { (t : Vec Ticket Global)
        → ¬ IsAdded (way_at_first 9 t ∷ []) (way_at_first 9 t)
        (way_at_first 9 t ∷ way_at_first 9 t ∷ []) }
    ensures at_first { (t : Vec Ticket Global)
        → t.items ≡ []
        → IsWayBy smallest_caps 9 [] 0 [] (way_at_first 9 t) }
    ensures unread { (t : Vec Ticket Global)
        → IsWayBy smallest_caps 9 (null ∷ []) 1 [] (way_at_first 9 t) }
    ensures other_count { (t : Vec Ticket Global)
        → ¬ IsWayBy smallest_caps 9 [] 1 [] (way_at_first 9 t) }
    ensures other_queues { (t : Vec Ticket Global)
        → ¬ IsWayBy smallest_caps 9 [] 0 (0 ∷ []) (way_at_first 9 t) }
    ensures taken { (steps : List Data)
        → (a : Way)
        → (b : Way)
        → IsWayBy smallest_caps 9 steps 2 (0 ∷ 2 ∷ []) b
        → AreAdded smallest_caps 9 steps 1 (0 ∷ []) (2 ∷ []) (a ∷ []) (a ∷ b ∷ []) }
    ensures none_by_it { (a : Way)
        → ¬ AreAdded smallest_caps 9 [] 0 [] (0 ∷ []) (a ∷ []) (a ∷ []) }
    ensures none_among { ¬ AreAdded smallest_caps 9 (null ∷ []) 0 [] (0 ∷ []) [] [] }
    ensures others { (a : Way) → ¬ AreAdded smallest_caps 9 [] 0 [] [] [] (a ∷ []) }
    ensures all_lost { (a : Way) → ¬ AreAdded smallest_caps 9 [] 0 [] [] (a ∷ []) [] }
    ensures on { (t : Vec Ticket Global)
        → IsOn smallest_device_at_first (Ok event.Poll) (answered (codes "nothing"))
        (way_at_first 9 t) None }
    ensures not_on { (t : Vec Ticket Global)
        → ¬ IsOn smallest_device_at_first (Ok event.Poll) nothing_seen (way_at_first 8 t) None }
    ensures none_allowed { (a : Way)
        → ¬ IsOn no_cells (Ok submission_of_a_run) nothing_seen a None }
    ensures nothing_to_tell { (told : Told)
        → ¬ IsTold no_cells (Ok submission_of_a_run) nothing_seen told }
    ensures not_asked_for { (a : Way)
        → (told : Told)
        → IsFollowedOn smallest_caps 9 [] 1 a (Some told) }
    ensures not_followed { (a : Way) → ¬ IsFollowedOn smallest_caps 9 [] 1 a None }
    ensures told { (why : String Global)
        → (fact : String Global)
        → (allowed : Vec Record Global)
        → string_bytes why ≡ codes ": no command is active"
        → string_bytes fact ≡ codes "no command is active"
        → allowed.items ≡ poll_record Nothing ∷ []
        → IsTold smallest_device_at_first (Ok event.Poll) (answered (codes "active"))
        (told_against why fact allowed) }
    ensures other_fact { (why : String Global)
        → (fact : String Global)
        → (allowed : Vec Record Global)
        → string_bytes fact ≡ codes "q1 is empty"
        → ¬ IsTold smallest_device_at_first (Ok event.Poll) (answered (codes "active"))
        (told_against why fact allowed) }
    ensures other_reason { (why : String Global)
        → (allowed : Vec Record Global)
        → string_bytes why ≡ codes ": q1 is empty"
        → ¬ IsTold smallest_device_at_first (Ok event.Poll) (answered (codes "active"))
        (told_allowing why allowed) }
    ensures nothing_told { (why : String Global)
        → (allowed : Vec Record Global)
        → allowed.items ≡ []
        → ¬ IsTold smallest_device_at_first (Ok event.Poll) (answered (codes "active"))
        (told_allowing why allowed) }
    ensures was_seen { (why : String Global)
        → (allowed : Vec Record Global)
        → ¬ IsTold smallest_device_at_first (Ok event.Poll) (answered (codes "nothing"))
        (told_allowing why allowed) }
{}

/// What becomes of a device in a step: it goes on, or it tells what it allows.
#[tactic(auto, unfolding(dsa_scenario::specs::Worked::digits_on_literals))]
pub fn devices_gone()
    ensures on { (t : Vec Ticket Global)
        → (a : Way)
        → (told : Told)
        → IsFollowedTo smallest_caps 9 (refused_then_polled (answered (codes "nothing"))) 2
        smallest_device_at_first t.items
        → IsGone smallest_caps 9 ((Refuse no_command, nothing_seen) ∷ [])
        (Ask event.Poll, answered (codes "nothing")) 1
        smallest_device_at_first (Ok event.Poll) (a ∷ []) (told ∷ [])
        (a ∷ way_at_first 9 t ∷ []) (told ∷ []) }
    ensures told { (one : Told)
        → (other : Told)
        → IsTold smallest_device_at_first (Ok event.Poll) (answered (codes "active")) other
        → IsGone smallest_caps 9 [] (Ask event.Poll, answered (codes "active")) 0
        smallest_device_at_first (Ok event.Poll) [] (one ∷ []) [] (one ∷ other ∷ []) }
    ensures others { (a : Way)
        → ¬ IsGone smallest_caps 9 [] (Ask event.Poll, nothing_seen) 1
        smallest_device_at_first (Ok event.Poll) [] [] (a ∷ []) [] }
    ensures lost { (t : Vec Ticket Global)
        → ¬ IsGone smallest_caps 9 [] (Ask event.Poll, nothing_seen) 0
        smallest_device_at_first (Ok event.Poll) (way_at_first 8 t ∷ []) []
        (way_at_first 9 t ∷ []) [] }
    ensures not_told { (t : Vec Ticket Global)
        → (told : Told)
        → ¬ IsGone smallest_caps 9 [] (Ask event.Poll, nothing_seen) 0
        smallest_device_at_first (Ok event.Poll) (way_at_first 9 t ∷ []) []
        (way_at_first 9 t ∷ []) (told ∷ []) }
    ensures forgotten { (t : Vec Ticket Global)
        → (told : Told)
        → ¬ IsGone smallest_caps 9 [] (Ask event.Poll, nothing_seen) 0
        smallest_device_at_first (Ok event.Poll) (way_at_first 9 t ∷ []) (told ∷ [])
        (way_at_first 9 t ∷ []) [] }
    ensures none_allowed { (a : Way)
        → ¬ IsGone caps_of_a_run 9 [] (Ask submission_of_a_run, nothing_seen) 0 no_cells
        (Ok submission_of_a_run) (a ∷ []) [] (a ∷ []) [] }
    ensures told_of_another { (why : String Global)
        → (allowed : Vec Record Global)
        → string_bytes why ≡ codes ": q1 is empty"
        → ¬ IsGone smallest_caps 9 [] (Ask event.Poll, answered (codes "active")) 0
        smallest_device_at_first (Ok event.Poll) [] (told_allowing why allowed ∷ []) []
        (told_allowing why allowed ∷ []) }
    ensures uncovered { (t : Vec Ticket Global)
        → ¬ IsGone smallest_caps 9 [] (Ask event.Poll, nothing_seen) 0
        smallest_device_at_first (Ok event.Poll) (way_at_first 8 t ∷ []) []
        (way_at_first 8 t ∷ []) [] }
    ensures neither { ¬ IsGone smallest_caps 9 [] (Ask event.Poll, answered (codes "active")) 0
        smallest_device_at_first (Ok event.Poll) [] [] [] [] }
    ensures unread { (way : Way)
        → IsGoneOn smallest_caps 9 (null ∷ []) (Ask event.Poll, nothing_seen) 0 way [] [] [] [] }
    ensures one_on { (t : Vec Ticket Global)
        → IsOneGone smallest_device_at_first (Ok event.Poll) (answered (codes "nothing"))
        (way_at_first 9 t ∷ []) [] }
    ensures one_told { (told : Told)
        → IsTold smallest_device_at_first (Ok event.Poll) (answered (codes "active")) told
        → IsOneGone smallest_device_at_first (Ok event.Poll) (answered (codes "active")) []
        (told ∷ []) }
    ensures one_uncovered { (t : Vec Ticket Global)
        → ¬ IsOneGone smallest_device_at_first (Ok event.Poll) nothing_seen
        (way_at_first 8 t ∷ []) [] }
    ensures one_none_allowed { (a : Way)
        → ¬ IsOneGone no_cells (Ok submission_of_a_run) nothing_seen (a ∷ []) [] }
    ensures one_told_of_another { (why : String Global)
        → (allowed : Vec Record Global)
        → string_bytes why ≡ codes ": q1 is empty"
        → ¬ IsOneGone smallest_device_at_first (Ok event.Poll) (answered (codes "active")) []
        (told_allowing why allowed ∷ []) }
    ensures one_neither { ¬ IsOneGone smallest_device_at_first (Ok event.Poll)
        (answered (codes "active")) [] [] }
    ensures all_on { (t : Vec Ticket Global)
        → IsFollowedTo smallest_caps 9 ((Refuse no_command, nothing_seen) ∷ []) 1
        smallest_device_at_first t.items
        → IsFollowedTo smallest_caps 9 (refused_then_polled (answered (codes "nothing"))) 2
        smallest_device_at_first t.items
        → AreGone smallest_caps 9 ((Refuse no_command, nothing_seen) ∷ [])
        (Ask event.Poll, answered (codes "nothing")) 1 (way_at_first 9 t ∷ [])
        (way_at_first 9 t ∷ []) [] }
    ensures all_told { (t : Vec Ticket Global)
        → (told : Told)
        → IsFollowedTo smallest_caps 9 [] 0 smallest_device_at_first t.items
        → IsTold smallest_device_at_first (Ok event.Poll) (answered (codes "active")) told
        → AreGone smallest_caps 9 [] (Ask event.Poll, answered (codes "active")) 0
        (way_at_first 9 t ∷ []) [] (told ∷ []) }
    ensures other_way { (a : Way)
        → ¬ AreGone smallest_caps 9 [] (Ask event.Poll, nothing_seen) 1 [] (a ∷ []) [] }
    ensures told_of_none { (told : Told)
        → ¬ AreGone smallest_caps 9 [] (Ask event.Poll, answered (codes "active")) 0 [] []
        (told ∷ []) }
    ensures told_though_shown { (t : Vec Ticket Global)
        → (told : Told)
        → ¬ AreGone smallest_caps 9 [] (Ask event.Poll, nothing_seen) 0 (way_at_first 9 t ∷ [])
        (way_at_first 9 t ∷ []) (told ∷ []) }
    ensures not_gone { (t : Vec Ticket Global)
        → ¬ AreGone smallest_caps 9 [] (Ask event.Poll, nothing_seen) 0 (way_at_first 9 t ∷ [])
        [] [] }
    ensures not_come { (a : Way)
        → ¬ AreGone smallest_caps 9 [] (Ask event.Poll, nothing_seen) 1 (a ∷ []) [] [] }
    ensures none_read { (told : Told)
        → AreGoneOn smallest_caps 9 (null ∷ []) (Ask event.Poll, nothing_seen) 0 [] []
        (told ∷ []) }
    ensures none_followed { (t : Vec Ticket Global)
        → AreGoneOn smallest_caps 9 (object_of poll_step ∷ []) (Ask event.Poll, nothing_seen) 0
        (way_at_first 8 t ∷ []) [] [] }
{}

/// Devices that may be the one that was seen, and the step that they come to.
pub fn devices_followed()
    ensures not_followed { (a : Way) → ¬ AreFollowed smallest_caps 9 [] 1 (a ∷ []) }
    ensures none { ¬ AreFollowed smallest_caps 9
        ((Refuse no_command, answered (codes "nothing")) ∷ []) 1 [] }
    ensures missed { (way : Way)
        → way.device ≡ after_a_take
        → ¬ AreFollowed caps_of_three_queues 9 (take 9 observed_of_two_queues) 9 (way ∷ []) }
    ensures first { (t : Vec Ticket Global)
        → IsFollowedTo smallest_caps 9 [] 0 smallest_device_at_first t.items
        → AreFollowed smallest_caps 9 [] 0 (way_at_first 9 t ∷ []) }
    ensures elsewhere { (t : Vec Ticket Global)
        → ¬ AreFollowed smallest_caps 9 [] 0 (way_at_first 8 t ∷ []) }
    ensures second { (a : Way)
        → AreFollowed smallest_caps 9 (refused_then_polled nothing_seen) 2 (a ∷ [])
        → AreStepped smallest_caps 9 ((Refuse no_command, nothing_seen) ∷ [])
        (Ask event.Poll, nothing_seen) 1
        (a ∷ []) None }
    ensures unread { (a : Way)
        → AreOn smallest_caps 9 (null ∷ []) (Ask event.Poll, nothing_seen) 0 (a ∷ []) [] None }
    ensures not_before { AreOn smallest_caps 9 (object_of poll_step ∷ [])
        (Ask event.Poll, nothing_seen) 0 []
        [] None }
    ensures read { IsReadTo
        (changed (codes "word") (whole 0) command_step
        ∷ object_of poll_step
        ∷ object_of poll_step
        ∷ [])
        ((Refuse no_command, nothing_seen)
        ∷ (Ask event.Poll, nothing_seen)
        ∷ (Ask event.Poll, nothing_seen)
        ∷ [])
        1 (Ask event.Poll, nothing_seen) }
    ensures not_read { ¬ IsReadTo (null ∷ [])
        ((Ask event.Poll, nothing_seen) ∷ []) 0 (Ask event.Poll, nothing_seen) }
    ensures past_the_end { ¬ IsReadTo (object_of poll_step ∷ [])
        ((Ask event.Poll, nothing_seen) ∷ []) 1 (Ask event.Poll, nothing_seen) }
    ensures by_ticket { (steps : List Data)
        → ¬ IsReadTo steps
        ((Ask (event.Finish 0 (record_ticket 3 0) Success), nothing_seen) ∷ []) 0
        (Ask (event.Finish 0 (record_ticket 3 0) Success), nothing_seen) }
    ensures before_by_ticket { (steps : List Data)
        → ¬ IsReadTo steps
        ((Ask (event.Finish 0 (record_ticket 3 0) Success), nothing_seen)
        ∷ (Ask event.Poll, nothing_seen)
        ∷ [])
        1 (Ask event.Poll, nothing_seen) }
{}
