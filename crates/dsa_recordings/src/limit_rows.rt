//! Worked rows: which steps fit the numbers of a program, and what steps are read as, each on a
//! function with nothing to do.

ghost use Rattle.dsa_book.specs.declared.answer.Reply.TheVariants as reply;
ghost use Rattle.dsa_book.specs.declared.event.Event.TheVariants as event;
ghost use Rattle.dsa_book.specs.declared.answer.ClearAnswer.TheVariants as clear;
ghost use Rattle.std.specs.Prelude.{◌≡◌, [], ◌∷◌};
ghost use Rattle.dsa_desc.specs.declared.Outcome.TheVariants.{PageFault};
ghost use Rattle.dsa_regs.specs.declared.Command.TheVariants.{AbortWq, DisableWq, DrainWq, EnableWq, ResetWq};
ghost use Rattle.dsa_book.specs.declared.answer.SubmitAnswer.TheVariants.{Accepted};
ghost use Rattle.dsa_book.specs.declared.answer.DispatchAnswer.TheVariants.{Taken};
ghost use Rattle.dsa_book.specs.declared.answer.FetchAnswer.TheVariants.{Fetched};
ghost use Rattle.dsa_book.specs.declared.answer.StartAnswer.TheVariants.{Abandoned, Started};
ghost use Rattle.dsa_book.specs.declared.answer.FinishAnswer.TheVariants.{Done};
ghost use Rattle.dsa_book.specs.declared.answer.IssueAnswer.TheVariants.{Ended};
ghost use Rattle.dsa_book.specs.declared.answer.PollAnswer.TheVariants.{Finished};
ghost use Rattle.dsa_book.specs.declared.event.Kind.TheVariants.{Enqcmd, Movdir64b};
ghost use Rattle.dsa_book.specs.declared.event.Portal.TheVariants.{Limited};
ghost use Rattle.dsa_scenario.specs.declared.actions.Action.TheVariants.{Ask, Finish};
ghost use Rattle.dsa_scenario.specs.Worked.{record_ticket};
ghost use Rattle.dsa_recordings.specs.Reading.{AreAskable, FitsCaps, FitsEvent, FitsReply, HaveWords, IsAskable, action_of_event};
ghost use Rattle.dsa_recordings.specs.Recordings.{word_or_none};
ghost use Rattle.dsa_recordings.specs.Worked.{largest_caps, largest_desc, largest_group, largest_queue, noted_queue_of, polled};

/// Capabilities: the largest numbers fit, and in each field one more does not.
pub fn capabilities_that_fit()
    ensures largest { FitsCaps largest_caps }
    ensures queues { ¬ FitsCaps (record largest_caps { queues = 65536 }) }
    ensures groups { ¬ FitsCaps (record largest_caps { groups = 65536 }) }
    ensures engines { ¬ FitsCaps (record largest_caps { engines = 65536 }) }
    ensures total_size { ¬ FitsCaps (record largest_caps { total_size = 65536 }) }
    ensures read_buffers { ¬ FitsCaps (record largest_caps { read_buffers = 65536 }) }
    ensures slots { ¬ FitsCaps (record largest_caps { slots = 65536 }) }
    ensures max_batch_shift { ¬ FitsCaps (record largest_caps { max_batch_shift = 256 }) }
    ensures max_xfer_shift { ¬ FitsCaps (record largest_caps { max_xfer_shift = 256 }) }
{}

/// Submissions: the largest numbers fit, and of each one more does not.
pub fn submissions_that_fit()
    ensures largest { FitsEvent
        (event.Submit 65535 65535 Limited (Enqcmd 4294967295) largest_desc) }
    ensures movdir { FitsEvent (event.Submit 65535 65535 Limited Movdir64b largest_desc) }
    ensures client { ¬ FitsEvent
        (event.Submit 65536 65535 Limited (Enqcmd 4294967295) largest_desc) }
    ensures queue { ¬ FitsEvent
        (event.Submit 65535 65536 Limited (Enqcmd 4294967295) largest_desc) }
    ensures pasid { ¬ FitsEvent
        (event.Submit 65535 65535 Limited (Enqcmd 4294967296) largest_desc) }
    ensures operation { ¬ FitsEvent (event.Submit 65535 65535 Limited (Enqcmd 4294967295) (record
        largest_desc { op = 256 })) }
    ensures size { ¬ FitsEvent (event.Submit 65535 65535 Limited (Enqcmd 4294967295) (record
        largest_desc { size = 4294967296 })) }
    ensures no_movdir { ¬ FitsEvent (event.Submit 65535 65536 Limited Movdir64b largest_desc) }
{}

/// Steps of engines.
pub fn engines_that_fit()
    ensures dispatch { FitsEvent (event.Dispatch 65535) }
    ensures no_dispatch { ¬ FitsEvent (event.Dispatch 65536) }
    ensures fetch { FitsEvent (event.Fetch 65535 largest_desc) }
    ensures no_fetch { ¬ FitsEvent (event.Fetch 65536 largest_desc) }
    ensures fetch_of_another { ¬ FitsEvent (event.Fetch 65535 (record largest_desc { op = 256 })) }
    ensures start { FitsEvent (event.Start 65535) }
    ensures no_start { ¬ FitsEvent (event.Start 65536) }
    ensures finish { FitsEvent (event.Finish 65535 (record_ticket 0 4294967295) PageFault) }
    ensures no_finish { ¬ FitsEvent (event.Finish 65536 (record_ticket 0 4294967295) PageFault) }
    ensures finish_of_another { ¬ FitsEvent (event.Finish 65535 (record_ticket 0 4294967296)
        PageFault) }
{}

/// Commands: masks have 16 bits.
pub fn commands_that_fit()
    ensures disable { FitsEvent (event.Issue (DisableWq (record { group = 70000; mask = 65535 }))) }
    ensures drain { FitsEvent (event.Issue (DrainWq (record { group = 70000; mask = 65535 }))) }
    ensures abort { FitsEvent (event.Issue (AbortWq (record { group = 70000; mask = 65535 }))) }
    ensures reset { FitsEvent (event.Issue (ResetWq (record { group = 70000; mask = 65535 }))) }
    ensures no_disable { ¬ FitsEvent
        (event.Issue (DisableWq (record { group = 3; mask = 65536 }))) }
    ensures no_drain { ¬ FitsEvent (event.Issue (DrainWq (record { group = 3; mask = 65536 }))) }
    ensures no_abort { ¬ FitsEvent (event.Issue (AbortWq (record { group = 3; mask = 65536 }))) }
    ensures no_reset { ¬ FitsEvent (event.Issue (ResetWq (record { group = 3; mask = 65536 }))) }
    ensures enable { FitsEvent (event.Issue (EnableWq 70000)) }
    ensures poll { FitsEvent event.Poll }
    ensures clear { FitsEvent event.ClearError }
{}

/// Writes of configurations.
pub fn writes_that_fit()
    ensures queue { FitsEvent (event.WriteQueue 65535 largest_queue) }
    ensures no_queue { ¬ FitsEvent (event.WriteQueue 65536 largest_queue) }
    ensures size { ¬ FitsEvent (event.WriteQueue 65535 (record largest_queue { size = 65536 })) }
    ensures threshold { ¬ FitsEvent (event.WriteQueue 65535 (record largest_queue {
      threshold =
          65536;
    })) }
    ensures priority { ¬ FitsEvent (event.WriteQueue 65535 (record largest_queue {
      priority = 256;
    })) }
    ensures pasid { ¬ FitsEvent (event.WriteQueue 65535 (record largest_queue {
      pasid = 4294967296;
    })) }
    ensures max_batch_shift { ¬ FitsEvent (event.WriteQueue 65535 (record largest_queue {
      max_batch_shift = 256;
    })) }
    ensures max_xfer_shift { ¬ FitsEvent (event.WriteQueue 65535 (record largest_queue {
      max_xfer_shift = 256;
    })) }
    ensures group { FitsEvent (event.WriteGroup 65535 largest_group) }
    ensures no_group { ¬ FitsEvent (event.WriteGroup 65536 largest_group) }
    ensures queues { ¬ FitsEvent (event.WriteGroup 65535 (record largest_group {
      queues =
          18446744073709551616;
    })) }
    ensures engines { ¬ FitsEvent (event.WriteGroup 65535 (record largest_group {
      engines =
          18446744073709551616;
    })) }
    ensures reserved { ¬ FitsEvent (event.WriteGroup 65535 (record largest_group {
      reserved = 65536;
    })) }
    ensures allowed { ¬ FitsEvent (event.WriteGroup 65535 (record largest_group {
      allowed = 65536;
    })) }
{}

/// Answers.
pub fn answers_that_fit()
    ensures accepted { FitsReply (reply.Submit (Accepted (record_ticket 0 4294967295))) }
    ensures no_accepted { ¬ FitsReply (reply.Submit (Accepted (record_ticket 0 4294967296))) }
    ensures fetched { FitsReply (reply.Fetch (Fetched (record_ticket 0 4294967295))) }
    ensures no_fetched { ¬ FitsReply (reply.Fetch (Fetched (record_ticket 0 4294967296))) }
    ensures started { FitsReply (reply.Start (Started (record_ticket 0 4294967295))) }
    ensures no_started { ¬ FitsReply (reply.Start (Started (record_ticket 0 4294967296))) }
    ensures taken { FitsReply (reply.Dispatch (Taken (record_ticket 0 4294967295) 65535)) }
    ensures no_taken { ¬ FitsReply (reply.Dispatch (Taken (record_ticket 0 4294967296) 65535)) }
    ensures no_queue { ¬ FitsReply (reply.Dispatch (Taken (record_ticket 0 4294967295) 65536)) }
    ensures abandoned { FitsReply (reply.Start (Abandoned 4294967295)) }
    ensures no_abandoned { ¬ FitsReply (reply.Start (Abandoned 4294967296)) }
    ensures done { FitsReply (reply.Finish (Done 255)) }
    ensures no_done { ¬ FitsReply (reply.Finish (Done 256)) }
    ensures ended { FitsReply (reply.Issue (Ended 4294967295)) }
    ensures no_ended { ¬ FitsReply (reply.Issue (Ended 4294967296)) }
    ensures cleared { FitsReply (reply.Clear (clear.Cleared (noted_queue_of 65535))) }
    ensures no_cleared { ¬ FitsReply (reply.Clear (clear.Cleared (noted_queue_of 65536))) }
    ensures polled { FitsReply (reply.Poll Finished) }
{}

/// Steps that a document can ask for, alone and with others: of a command without a word there is
/// none.
pub fn steps_that_are_askable()
    ensures polled { IsAskable polled }
    ensures event { ¬ IsAskable (record polled { event = event.Start 65536 }) }
    ensures reply { ¬ IsAskable (record polled { reply = reply.Finish (Done 256) }) }
    ensures word { ¬ IsAskable (record polled { event = event.Issue (EnableWq 1048576) }) }
    ensures first { ¬ AreAskable (record polled { event = event.Start 65536 } ∷ polled ∷ []) }
    ensures last { ¬ AreAskable (polled ∷ record polled { event = event.Start 65536 } ∷ []) }
    ensures two { AreAskable (polled ∷ polled ∷ []) }
    ensures wordless { ¬ HaveWords (polled ∷ record polled {
      event = event.Issue (EnableWq 1048576);
    } ∷ []) }
    ensures first_wordless { ¬ HaveWords (record polled { event = event.Issue (EnableWq 1048576) }
        ∷ polled ∷ []) }
{}

/// What steps are read as: of a descriptor the bits with a place in its bytes, and of a finish the
/// name.
pub fn actions_of_steps()
    ensures submit { action_of_event (event.Submit 1 2 Limited (Enqcmd 3) (record largest_desc {
      pasid = 1048577;
      flags = 16777217;
    }))
        ≡ Ask (event.Submit 1 2 Limited (Enqcmd 3) (record largest_desc { pasid = 1; flags = 1 })) }
    ensures fetch { action_of_event (event.Fetch 1 (record largest_desc {
      pasid = 1048577;
      flags =
          16777217;
    }))
        ≡ Ask (event.Fetch 1 (record largest_desc { pasid = 1; flags = 1 })) }
    ensures finish { action_of_event (event.Finish 1 (record_ticket 0 7) PageFault)
        ≡ Finish 1 7 PageFault }
    ensures start { action_of_event (event.Start 3) ≡ Ask (event.Start 3) }
    ensures no_word { word_or_none (EnableWq 1048576) ≡ 0 }
{}
