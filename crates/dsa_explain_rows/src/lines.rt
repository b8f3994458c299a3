//! The lines of an explanation.

ghost use Rattle.std.specs.Prelude.{◌≡◌, [], ◌∷◌, true, false, codes, map, replicate};
ghost use Rattle.dsa_regs.specs.declared.Command.TheVariants.{DrainAll};
ghost use Rattle.dsa_regs.specs.declared.Fault.TheVariants.{BadCommand};
ghost use Rattle.dsa_book.specs.declared.answer.Cause.TheVariants.{AtLimit};
ghost use Rattle.dsa_book.specs.declared.answer.ClearAnswer.TheVariants as clear;
ghost use Rattle.dsa_book.specs.declared.answer.DispatchAnswer.TheVariants.{Full, Idle, Taken};
ghost use Rattle.dsa_book.specs.declared.answer.FetchAnswer.TheVariants as fetch;
ghost use Rattle.dsa_book.specs.declared.answer.FinishAnswer.TheVariants as finish;
ghost use Rattle.dsa_book.specs.declared.answer.IssueAnswer.TheVariants as issue;
ghost use Rattle.dsa_book.specs.declared.answer.PollAnswer.TheVariants as poll;
ghost use Rattle.dsa_book.specs.declared.answer.{IssueAnswer.TheVariants.{Ended}, PollAnswer.TheVariants.{Nothing}};
ghost use Rattle.dsa_book.specs.declared.answer.Reply.TheVariants as reply;
ghost use Rattle.dsa_book.specs.declared.answer.StartAnswer.TheVariants as start;
ghost use Rattle.dsa_book.specs.declared.answer.SubmitAnswer.TheVariants as submit;
ghost use Rattle.dsa_book.specs.declared.answer.WriteAnswer.TheVariants as write;
ghost use Rattle.dsa_worked.specs.Setup.{dispatched, issued, no_op, polled, step_of_a_take, ticket, to_shared};
ghost use Rattle.dsa_scenario.specs.Worked.{bad_word, no_command};
ghost use Rattle.dsa_scenario.specs.declared.run.Record.TheVariants.{Refused, Stepped};
ghost use Rattle.dsa_explain_lines.specs.Lines.{asked_words, explained_line, is_taken, line_with, shown};
ghost use Rattle.dsa_explain_lines.specs.{Run.{IsExplanationOf}, Success.{is_success}};
ghost use Rattle.dsa_explain_rows.specs.Lines.{new_device, at_last, steps_of_three, with_two_queues};

/// What was asked; a word that is no command is told in hexadecimal.
#[tactic(auto, unfolding(dsa_scenario::specs::Worked::digits_on_literals))]
pub fn asked()
    ensures step { asked_words (Stepped (dispatched 3 Idle)) ≡ codes "dispatch e3" }
    ensures command { asked_words (Stepped (issued DrainAll (Ended 0)))
        ≡ codes "command drain-all" }
    ensures word { asked_words (Refused (bad_word 0x1f00005)) ≡ codes "command 0x1f00005" }
{}

/// The part behind an answer is left out where an entry was taken, and nowhere else.
pub fn parts_that_are_shown()
    ensures taken { map is_taken
        (Stepped (step_of_a_take 0 0 0)
        ∷ Stepped (dispatched 0 Idle)
        ∷ Stepped (to_shared no_op 0 0)
        ∷ Refused no_command
        ∷ [])
        ≡ true ∷ false ∷ false ∷ false ∷ [] }
    ensures left_out { shown (codes "why") (Stepped (step_of_a_take 0 0 0)) ≡ [] }
    ensures idle { shown (codes "why") (Stepped (dispatched 0 Idle)) ≡ codes "why" }
    ensures word { shown (codes "why") (Refused no_command) ≡ codes "why" }
{}

/// Which answers need no reason.
pub fn successes()
    ensures done { map is_success
        (reply.Submit (submit.Accepted (ticket 0 0))
        ∷ reply.Dispatch (Taken (ticket 0 0) 1)
        ∷ reply.Fetch (fetch.Fetched (ticket 1 1))
        ∷ reply.Start (start.Started (ticket 1 1))
        ∷ reply.Finish (finish.Done 0x01)
        ∷ reply.Issue (Ended 0)
        ∷ reply.Issue (Ended 2)
        ∷ reply.Poll poll.Finished
        ∷ reply.Write write.Written
        ∷ reply.Clear (clear.Cleared (record { queue = 1; cause = AtLimit; overflow = false }))
        ∷ [])
        ≡ replicate 10 true }
    ensures submissions { map is_success
        (reply.Submit (submit.Retry AtLimit)
        ∷ reply.Submit (submit.Dropped AtLimit)
        ∷ reply.Submit submit.Full
        ∷ [])
        ≡ replicate 3 false }
    ensures engines { map is_success
        (reply.Dispatch Idle
        ∷ reply.Dispatch Full
        ∷ reply.Fetch fetch.NoBatch
        ∷ reply.Fetch fetch.AllFetched
        ∷ reply.Fetch fetch.Full
        ∷ reply.Start start.FenceWait
        ∷ reply.Start start.NoBuffers
        ∷ reply.Start (start.Abandoned 2)
        ∷ reply.Start start.Nothing
        ∷ reply.Start start.Full
        ∷ [])
        ≡ replicate 10 false }
    ensures ends { map is_success
        (reply.Finish (finish.Done 0x03)
        ∷ reply.Finish (finish.Done 0x05)
        ∷ reply.Finish finish.NotReady
        ∷ reply.Finish finish.Gone
        ∷ reply.Finish finish.Full
        ∷ [])
        ≡ replicate 5 false }
    ensures administrator { map is_success
        (reply.Issue issue.Active
        ∷ reply.Issue (issue.Refused BadCommand)
        ∷ reply.Issue issue.Full
        ∷ reply.Poll poll.Active
        ∷ reply.Poll Nothing
        ∷ reply.Poll poll.Full
        ∷ reply.Write (write.Refused BadCommand)
        ∷ reply.Write write.Full
        ∷ reply.Clear clear.Nothing
        ∷ reply.Clear clear.Full
        ∷ [])
        ≡ replicate 10 false }
{}

/// A line: the number of the step, what was asked and answered, this part, and the end of the line.
#[tactic(auto, unfolding(dsa_scenario::specs::Worked::digits_on_literals))]
pub fn lines()
    ensures step { line_with (codes ": why") 12 (Stepped (polled Nothing))
        ≡ codes "12 poll -> nothing: why\n" }
    ensures no_part { line_with [] 0 (Stepped (issued DrainAll (Ended 0)))
        ≡ codes "0 command drain-all -> ended 0\n" }
    ensures taken { line_with (codes ": why") 7 (Stepped (step_of_a_take 1 4 9))
        ≡ codes "7 dispatch e1 -> taken 9 from 1\n" }
    ensures word { line_with (codes ": why") 3 (Refused no_command)
        ≡ codes "3 command 0x0 -> refused 13 BadCommand: why\n" }
{}

/// The line of a step has what stands against it in the state before.
#[tactic(auto, unfolding(dsa_scenario::specs::Worked::digits_on_literals))]
pub fn explained()
    ensures poll { explained_line new_device 5 (Stepped (polled Nothing))
        ≡ codes "5 poll -> nothing: no command is active\n" }
    ensures word { explained_line new_device 5 (Refused no_command)
        ≡ codes "5 command 0x0 -> refused 13 BadCommand: no command has the number 0, with 0 in bits 30:25\n" }
    ensures idle { explained_line with_two_queues 9 (Stepped (dispatched 1 Idle))
        ≡ codes "9 dispatch e1 -> idle: q2 is empty\n" }
    ensures taken { explained_line with_two_queues 9 (Stepped (dispatched 0 (Taken (ticket 2 2) 1)))
        ≡ codes "9 dispatch e0 -> taken 2 from 1\n" }
{}

/// An explanation has a line for each step of a run, and no more.
#[tactic(auto, unfolding(dsa_scenario::specs::Worked::digits_on_literals))]
pub fn texts()
    ensures none { IsExplanationOf [] new_device [] }
    ensures three { IsExplanationOf steps_of_three at_last
        (codes "0 command enable-device -> ended 0\n1 poll -> nothing: no command is active\n2 command 0x0 -> refused 13 BadCommand: no command has the number 0, with 0 in bits 30:25\n") }
{}
