//! Worked lines with own names, by computation.

ghost use Rattle.std.specs.Prelude.{◌≡◌, ◌++◌, [], ◌∷◌, codes, map};
ghost use Rattle.dsa_regs.specs.declared.Fault.TheVariants.{BadIndex, Busy};
ghost use Rattle.dsa_book.specs.declared.answer.FinishAnswer.TheVariants.{Gone};
ghost use Rattle.dsa_book.specs.declared.answer.IssueAnswer.TheVariants as issue;
ghost use Rattle.dsa_book.specs.declared.answer.PollAnswer.TheVariants as poll;
ghost use Rattle.dsa_book.specs.declared.answer.StartAnswer.TheVariants.{Abandoned};
ghost use Rattle.dsa_scenario.specs.declared.run.Record.TheVariants.{Refused};
ghost use Rattle.dsa_scenario.specs.Steps.{visit};
ghost use Rattle.dsa_scenario.specs.Worked.{accepted, no_command, record_of_a_fetch, record_ticket};
ghost use Rattle.dsa_scenario.specs.Worked.{running_with_fates};
ghost use Rattle.dsa_chosen.specs.Worked.{aborted_so_many, end_of_a_run, fates_of_three};
ghost use Rattle.dsa_chosen.specs.Worked.{finished_with, of_name, started_with};
ghost use Rattle.dsa_chosen.specs.Worked.{of_answers, steps_of_a_run};
ghost use Rattle.dsa_named.specs.Steps.{named_visit, with_names};
ghost use Rattle.dsa_named.specs.Worked.{entry_started, entry_taken, retry_answered};
ghost use Rattle.dsa_named_lines.specs.Lines.{line_and_note, line_with_names, named_in};
ghost use Rattle.dsa_named_lines.specs.Run.{AreNamedLinesOf};
ghost use Rattle.dsa_named_lines.specs.Worked.{command_answered, objects_of_a_run};
ghost use Rattle.dsa_named_lines.specs.Worked.{poll_answered, state_of_a_drain, state_of_three};
ghost use Rattle.dsa_named_lines.specs.Worked.{three_names};

/// Of which entries a step shows the own names.
pub fn of_mentions()
    ensures one { map (λ entry. named_in three_names entry state_of_three)
        (accepted (record_ticket 5 4) ∷ entry_taken 5 ∷ record_of_a_fetch (record_ticket 4 7)
        ∷ entry_started 5 ∷ finished_with 4 Gone ∷ [])
        ≡ ((4, codes "a") ∷ []) ∷ ((5, codes "b") ∷ []) ∷ ((7, codes "c") ∷ [])
        ∷ ((5, codes "b") ∷ []) ∷ ((4, codes "a") ∷ []) ∷ [] }
    ensures lost { map (λ entry. named_in three_names entry state_of_three)
        (aborted_so_many 2 ∷ started_with (Abandoned 1) ∷ [])
        ≡ ((5, codes "b") ∷ (7, codes "c") ∷ []) ∷ ((5, codes "b") ∷ []) ∷ [] }
    ensures none { map (λ entry. named_in three_names entry state_of_three)
        (retry_answered ∷ entry_taken 6 ∷ aborted_so_many 0 ∷ Refused no_command ∷ [])
        ≡ [] ∷ [] ∷ [] ∷ [] ∷ [] }
    ensures awaited { map (λ entry. named_in three_names entry state_of_a_drain)
        (command_answered issue.Active ∷ command_answered (issue.Refused Busy)
        ∷ poll_answered poll.Active ∷ [])
        ≡ ((4, codes "a") ∷ (5, codes "b") ∷ []) ∷ ((5, codes "b") ∷ [])
        ∷ ((5, codes "b") ∷ []) ∷ [] }
    ensures not_told { map (λ entry. named_in three_names entry state_of_a_drain)
        (command_answered (issue.Refused BadIndex) ∷ poll_answered poll.Finished ∷ retry_answered
        ∷ [])
        ≡ [] ∷ [] ∷ [] ∷ [] }
    ensures none_active { map (λ entry. named_in three_names entry state_of_three)
        (command_answered issue.Active ∷ poll_answered poll.Active ∷ [])
        ≡ [] ∷ [] ∷ [] }
{}

/// The lines of a run of nine steps.
#[tactic(auto, unfolding(dsa_scenario::specs::Worked::digits_on_literals))]
pub fn of_runs()
    ensures name { with_names objects_of_a_run (AreNamedLinesOf (of_name 0))
        steps_of_a_run end_of_a_run
        (codes "5 submit q0 limited enqcmd pasid 1 client 0 move 4096 bytes -> accepted 0"
        ++ codes " [0 is x17]\n6 dispatch e0 -> taken 0 from 0 [0 is x17]\n"
        ++ codes "7 finish e0 name 0 success -> done 01 [0 is x17]\nfate 0 - completed 01\n") }
    ensures answers { with_names objects_of_a_run
        (AreNamedLinesOf (of_answers (codes "full,taken"))) steps_of_a_run end_of_a_run
        (codes "6 dispatch e0 -> taken 0 from 0 [0 is x17]\n"
        ++ codes "8 poll -> full: the history has room for 7 steps\n") }
{}

/// Where the own names come in a line.
#[tactic(auto, unfolding(dsa_scenario::specs::Worked::digits_on_literals))]
pub fn of_lines()
    ensures reason { line_and_note (codes ": why") (codes " [4 is a]") 3 (finished_with 4 Gone)
        ≡ codes "3 finish e0 name 4 success -> gone: why [4 is a]\n" }
    ensures taken { line_and_note (codes ": why") (codes " [4 is a]") 3 (entry_taken 4)
        ≡ codes "3 dispatch e0 -> taken 4 from 0 [4 is a]\n" }
    ensures none { line_and_note (codes ": why") [] 12 (Refused no_command)
        ≡ codes "12 command 0x0 -> refused 13 BadCommand: why\n" }
    ensures after { line_with_names (named_visit three_names (visit 3 (running_with_fates [])
        (aborted_so_many 2) (running_with_fates fates_of_three)))
        ≡ codes "3 command abort-all -> ended 2: the device is off [5 is b, 7 is c]\n" }
{}
