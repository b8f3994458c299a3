//! Worked lines: what the definitions say of chosen steps, by computation.

ghost use Rattle.dsa_book.specs.declared.answer.Reply.TheVariants as reply;
ghost use Rattle.dsa_book.specs.declared.event.Event.TheVariants as event;
ghost use Rattle.std.specs.Prelude.{◌≡◌, ◌++◌, [], ◌∷◌, codes};
ghost use Rattle.dsa_desc.specs.declared.Outcome.TheVariants.{PageFault};
ghost use Rattle.dsa_regs.specs.declared.Command.TheVariants.{EnableWq};
ghost use Rattle.dsa_regs.specs.declared.Fault.TheVariants.{Locked};
ghost use Rattle.dsa_book.specs.declared.answer.SubmitAnswer.TheVariants.{Accepted, Dropped};
ghost use Rattle.dsa_book.specs.declared.answer.Cause.TheVariants.{AtLimit};
ghost use Rattle.dsa_book.specs.declared.answer.DispatchAnswer.TheVariants.{Idle};
ghost use Rattle.dsa_book.specs.declared.answer.FetchAnswer.TheVariants.{NoBatch};
ghost use Rattle.dsa_book.specs.declared.answer.StartAnswer.TheVariants.{FenceWait};
ghost use Rattle.dsa_book.specs.declared.answer.FinishAnswer.TheVariants.{Done};
ghost use Rattle.dsa_book.specs.declared.answer.IssueAnswer.TheVariants.{Active};
ghost use Rattle.dsa_book.specs.declared.answer.PollAnswer.TheVariants.{Finished};
ghost use Rattle.dsa_book.specs.declared.answer.WriteAnswer.TheVariants.{Written, Refused};
ghost use Rattle.dsa_book.specs.declared.answer.ClearAnswer.TheVariants as clear;
ghost use Rattle.dsa_book.specs.declared.event.Kind.TheVariants.{Enqcmd, Movdir64b};
ghost use Rattle.dsa_book.specs.declared.event.Portal.TheVariants.{Limited, Unlimited};
ghost use Rattle.dsa_scenario.specs.Worked.{queue_in_fields, record_ticket};
ghost use Rattle.dsa_recordings.specs.Recordings.{recording_text};
ghost use Rattle.dsa_recordings.specs.Worked.{some_caps_text, group_in_fields, run_line, polled_line, polled};
ghost use Rattle.dsa_recordings.specs.Worked.{some_desc, some_digits, recorded_caps};

/// Writes of configurations.
#[tactic(auto, unfolding(crate::specs::Worked::recorded_on_literals))]
pub fn writes()
    ensures queue { run_line (event.WriteQueue 1 queue_in_fields) (reply.Write Written)
        ≡ codes "{\"do\":\"queue\",\"queue\":1,\"size\":2,\"threshold\":6,\"dedicated\":true,"
        ++ codes "\"priority\":4,\"pasid\":5,\"batch\":3,\"xfer\":7,\"answer\":\"written\"}" }
    ensures group { run_line (event.WriteGroup 1 group_in_fields) (reply.Write (Refused Locked))
        ≡ codes "{\"do\":\"group\",\"group\":1,\"queues\":2,\"engines\":3,\"reserved\":4,"
        ++ codes "\"allowed\":5,\"answer\":\"refused 15 Locked\"}" }
{}

/// Submissions: all 64 bytes of the descriptor, and of MOVDIR64B no PASID.
#[tactic(auto, unfolding(crate::specs::Worked::recorded_on_literals))]
pub fn submissions()
    ensures enqcmd { run_line (event.Submit 1 2 Limited (Enqcmd 3) some_desc)
        (reply.Submit (Accepted (record_ticket 4 5)))
        ≡ codes "{\"do\":\"enqcmd\",\"client\":1,\"queue\":2,\"limited\":true,\"pasid\":3,"
        ++ codes "\"desc\":\"" ++ some_digits ++ codes "\",\"answer\":\"accepted 5\"}" }
    ensures movdir { run_line (event.Submit 1 2 Unlimited Movdir64b some_desc)
        (reply.Submit (Dropped AtLimit))
        ≡ codes "{\"do\":\"movdir\",\"client\":1,\"queue\":2,\"limited\":false,\"desc\":\""
        ++ some_digits ++ codes "\",\"answer\":\"dropped at-limit\"}" }
{}

/// Steps of engines: a finish has the name, and not the cell.
#[tactic(auto, unfolding(crate::specs::Worked::recorded_on_literals))]
pub fn engines()
    ensures dispatch { run_line (event.Dispatch 1) (reply.Dispatch Idle)
        ≡ codes "{\"do\":\"dispatch\",\"engine\":1,\"answer\":\"idle\"}" }
    ensures fetch { run_line (event.Fetch 1 some_desc) (reply.Fetch NoBatch)
        ≡ codes "{\"do\":\"fetch\",\"engine\":1,\"desc\":\"" ++ some_digits
        ++ codes "\",\"answer\":\"no-batch\"}" }
    ensures start { run_line (event.Start 1) (reply.Start FenceWait)
        ≡ codes "{\"do\":\"start\",\"engine\":1,\"answer\":\"fence-wait\"}" }
    ensures finish { run_line (event.Finish 1 (record_ticket 4 5) PageFault) (reply.Finish (Done 3))
        ≡ codes "{\"do\":\"finish\",\"engine\":1,\"name\":5,\"fault\":true,"
        ++ codes "\"answer\":\"done 03\"}" }
{}

/// Steps of the administrator.
#[tactic(auto, unfolding(crate::specs::Worked::recorded_on_literals))]
pub fn commands()
    ensures command { run_line (event.Issue (EnableWq 1)) (reply.Issue Active)
        ≡ codes "{\"do\":\"command\",\"word\":6291457,\"answer\":\"active\"}" }
    ensures poll { run_line event.Poll (reply.Poll Finished)
        ≡ codes "{\"do\":\"poll\",\"answer\":\"finished\"}" }
    ensures clear { run_line event.ClearError (reply.Clear clear.Nothing)
        ≡ codes "{\"do\":\"clear\",\"answer\":\"nothing\"}" }
{}

/// Documents: no step, one, and two.
#[tactic(auto, unfolding(crate::specs::Worked::recorded_on_literals))]
pub fn documents()
    ensures none { recording_text recorded_caps 9 []
        ≡ some_caps_text ++ codes ",\"capacity\":9,\"steps\":[\n]}" }
    ensures one { recording_text recorded_caps 9 (polled ∷ [])
        ≡ some_caps_text ++ codes ",\"capacity\":9,\"steps\":[\n" ++ polled_line ++ codes "\n]}" }
    ensures two { recording_text recorded_caps 9 (polled ∷ polled ∷ [])
        ≡ some_caps_text ++ codes ",\"capacity\":9,\"steps\":[\n" ++ polled_line
        ++ codes ",\n" ++ polled_line ++ codes "\n]}" }
{}
