//! Worked choices: what the definitions say of chosen texts, records and runs, by computation.

ghost use Rattle.std.specs.Prelude.{◌≡◌, ◌++◌, [], ◌∷◌, Some, None, true, false, codes, map};
ghost use Rattle.dsa_book.specs.declared.answer.Cause.TheVariants.{AtLimit};
ghost use Rattle.dsa_book.specs.declared.answer.DispatchAnswer.TheVariants as dispatch;
ghost use Rattle.dsa_book.specs.declared.answer.FetchAnswer.TheVariants.{Fetched};
ghost use Rattle.dsa_book.specs.declared.answer.FinishAnswer.TheVariants.{Done, Gone};
ghost use Rattle.dsa_book.specs.declared.answer.PollAnswer.TheVariants.{Nothing};
ghost use Rattle.dsa_book.specs.declared.answer.Reply.TheVariants as reply;
ghost use Rattle.dsa_book.specs.declared.answer.StartAnswer.TheVariants.{Abandoned, FenceWait};
ghost use Rattle.dsa_book.specs.declared.answer.StartAnswer.TheVariants.{Started};
ghost use Rattle.dsa_book.specs.declared.answer.SubmitAnswer.TheVariants.{Accepted, Retry};
ghost use Rattle.dsa_book.specs.declared.event.Event.TheVariants as event;
ghost use Rattle.dsa_book.specs.declared.fate.Fate.TheVariants.{Aborted};
ghost use Rattle.dsa_scenario.specs.Worked.{no_command};
ghost use Rattle.dsa_scenario.specs.declared.run.Record.TheVariants.{Refused};
ghost use Rattle.dsa_scenario.specs.Worked.{fate, record_of_a_fetch, record_ticket, stepped};
ghost use Rattle.dsa_chosen.specs.Words.{answer_words, first_word, is_answer_word, is_answered};
ghost use Rattle.dsa_chosen.specs.Words.{unknown_word, words_in};
ghost use Rattle.dsa_chosen.specs.Selected.{is_about, is_by, is_selected, selected_fates};
ghost use Rattle.dsa_chosen.specs.Run.{AreChosenOf, is_visit_selected};
ghost use Rattle.dsa_chosen.specs.Worked.{aborted_so_many, accepted_as_7, all_lines};
ghost use Rattle.dsa_chosen.specs.Worked.{end_of_a_run, of_client_and_answers};
ghost use Rattle.dsa_chosen.specs.Worked.{fates_of_three, finished_with, of_answers, of_this_client};
ghost use Rattle.dsa_chosen.specs.Worked.{of_name, of_name_and_answers, started_with};
ghost use Rattle.dsa_chosen.specs.Worked.{steps_of_a_run, submitted_by, visit_with};

/// The words of texts, and with which of them answers begin.
pub fn of_words()
    ensures first { map first_word
        (codes "retry at-limit" ∷ codes "idle" ∷ codes "taken 3 from 0" ∷ codes "a\nb c" ∷ [] ∷ [])
        ≡ codes "retry" ∷ codes "idle" ∷ codes "taken" ∷ codes "a\nb" ∷ [] ∷ [] }
    ensures parted { map words_in (codes "retry,idle" ∷ codes "a b" ∷ codes "a,,b" ∷ [] ∷ [])
        ≡ (codes "retry" ∷ codes "idle" ∷ []) ∷ (codes "a b" ∷ [])
        ∷ (codes "a" ∷ [] ∷ codes "b" ∷ []) ∷ ([] ∷ []) ∷ [] }
    ensures known { unknown_word (codes "retry,no-batch,full") ≡ None }
    ensures unknown { map unknown_word
        (codes "retry,idel,ful" ∷ codes "at-limit" ∷ codes "idle," ∷ codes "Idle" ∷ [] ∷ [])
        ≡ Some (codes "idel") ∷ Some (codes "at-limit") ∷ Some [] ∷ Some (codes "Idle") ∷ Some []
        ∷ [] }
{}

/// Which answers begin with one of the words.
#[tactic(auto, unfolding(dsa_scenario::specs::Worked::digits_on_literals))]
pub fn of_answers()
    ensures two { map (is_answered (codes "retry,idle"))
        (submitted_by 2 (Retry AtLimit)
        ∷ stepped (event.Dispatch 0) (reply.Dispatch dispatch.Idle)
        ∷ stepped (event.Dispatch 0) (reply.Dispatch dispatch.Full)
        ∷ submitted_by 2 (Accepted (record_ticket 1 0))
        ∷ Refused no_command
        ∷ [])
        ≡ true ∷ true ∷ false ∷ false ∷ false ∷ [] }
    ensures refused { is_answered (codes "gone,refused") (Refused no_command) ≡ true }
    ensures whole_words { map (λ words. is_answered words (submitted_by 2 (Retry AtLimit)))
        (codes "retry" ∷ codes "ret" ∷ codes "retry-later" ∷ codes "at-limit" ∷ [])
        ≡ true ∷ false ∷ false ∷ false ∷ [] }
{}

/// Which steps are about the entry of a name.
pub fn of_names()
    ensures accepted { map (λ name. is_about name accepted_as_7 [])
        (7 ∷ 1 ∷ 2 ∷ [])
        ≡ true ∷ false ∷ false ∷ [] }
    ensures taken { map (λ name. is_about name
        (stepped (event.Dispatch 0) (reply.Dispatch (dispatch.Taken (record_ticket 1 7) 3))) [])
        (7 ∷ 3 ∷ [])
        ≡ true ∷ false ∷ [] }
    ensures fetched { map (λ name. is_about name (record_of_a_fetch (record_ticket 1 7)) [])
        (7 ∷ 1 ∷ [])
        ≡ true ∷ false ∷ [] }
    ensures started { map (λ entry. is_about 7 entry [])
        (started_with (Started (record_ticket 1 7)) ∷ started_with FenceWait ∷ [])
        ≡ true ∷ false ∷ [] }
    ensures finished { map (λ entry. is_about 7 entry fates_of_three)
        (finished_with 7 (Done 1) ∷ finished_with 7 Gone ∷ finished_with 4 (Done 1)
        ∷ finished_with 9 (Done 1) ∷ [])
        ≡ true ∷ true ∷ false ∷ false ∷ [] }
    ensures aborted { map (λ name. is_about name (aborted_so_many 2) fates_of_three)
        (4 ∷ 7 ∷ 5 ∷ 2 ∷ [])
        ≡ false ∷ true ∷ true ∷ false ∷ [] }
    ensures of_a_visit { map
        (λ name. is_visit_selected (of_name name) (visit_with (aborted_so_many 2) fates_of_three))
        (4 ∷ 5 ∷ [])
        ≡ false ∷ true ∷ [] }
    ensures abandoned { map (λ name. is_about name (started_with (Abandoned 1)) fates_of_three)
        (4 ∷ 7 ∷ 5 ∷ [])
        ≡ false ∷ false ∷ true ∷ [] }
    ensures none_aborted { map (λ name. is_about name (aborted_so_many 0) fates_of_three)
        (4 ∷ 7 ∷ 5 ∷ [])
        ≡ false ∷ false ∷ false ∷ [] }
    ensures word { is_about 7 (Refused no_command) fates_of_three ≡ false }
    ensures fates { map (λ name. selected_fates name fates_of_three)
        (Some 7 ∷ Some 6 ∷ None ∷ [])
        ≡ (fate 7 (Aborted 4) ∷ []) ∷ [] ∷ [] ∷ [] }
{}

/// Which steps a client made, and which steps meet all that is wanted.
#[tactic(auto, unfolding(dsa_scenario::specs::Worked::digits_on_literals))]
pub fn of_clients()
    ensures client { map (is_by 2)
        (submitted_by 2 (Retry AtLimit) ∷ submitted_by 3 (Retry AtLimit)
        ∷ stepped (event.Dispatch 2) (reply.Dispatch dispatch.Idle)
        ∷ stepped event.Poll (reply.Poll Nothing) ∷ Refused no_command ∷ [])
        ≡ true ∷ false ∷ false ∷ false ∷ false ∷ [] }
    ensures all { map (λ selection. is_selected selection (submitted_by 2 (Retry AtLimit)) [])
        (all_lines ∷ of_this_client 2 ∷ of_this_client 3 ∷ of_name 7
        ∷ of_answers (codes "retry") ∷ [])
        ≡ true ∷ true ∷ false ∷ false ∷ true ∷ [] }
    ensures both { map (λ entry. is_selected
        (of_client_and_answers 2 (codes "accepted")) entry [])
        (submitted_by 2 (Retry AtLimit) ∷ submitted_by 3 (Accepted (record_ticket 1 7))
        ∷ accepted_as_7 ∷ [])
        ≡ false ∷ false ∷ true ∷ [] }
{}

/// The lines that are chosen of a run of nine steps.
#[tactic(auto, unfolding(dsa_scenario::specs::Worked::digits_on_literals))]
pub fn of_runs()
    ensures name { AreChosenOf (of_name 0) steps_of_a_run end_of_a_run
        (codes "5 submit q0 limited enqcmd pasid 1 client 0 move 4096 bytes -> accepted 0\n"
        ++ codes "6 dispatch e0 -> taken 0 from 0\n7 finish e0 name 0 success -> done 01\n"
        ++ codes "fate 0 - completed 01\n") }
    ensures client { AreChosenOf (of_this_client 0) steps_of_a_run end_of_a_run
        (codes "5 submit q0 limited enqcmd pasid 1 client 0 move 4096 bytes -> accepted 0\n") }
    ensures answers { AreChosenOf (of_answers (codes "full,taken")) steps_of_a_run end_of_a_run
        (codes "6 dispatch e0 -> taken 0 from 0\n"
        ++ codes "8 poll -> full: the history has room for 7 steps\n") }
    ensures name_and_answers { AreChosenOf
        (of_name_and_answers 0 (codes "done,full")) steps_of_a_run end_of_a_run
        (codes "7 finish e0 name 0 success -> done 01\nfate 0 - completed 01\n") }
    ensures none { AreChosenOf (of_name 1) steps_of_a_run end_of_a_run [] }
    ensures no_client { AreChosenOf (of_this_client 1) steps_of_a_run end_of_a_run [] }
{}
