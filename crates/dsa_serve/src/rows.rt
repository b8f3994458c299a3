//! Worked lines and answers: what the definitions say at chosen values, by computation.

ghost use Rattle.std.specs.Prelude.{◌≡◌, ◌<◌, ℕ, Option, Some, None, List, [], ◌∷◌, ◌++◌, ◌+◌};
ghost use Rattle.std.specs.Prelude.{Bool, true, false, length, map, min, codes};
ghost use Rattle.std.specs.List.{list_any};
ghost use Rattle.serde_json.specs.Data.{Data, null, string};
ghost use Rattle.dsa_regs.specs.declared.Caps.{Caps};
ghost use Rattle.dsa_book.specs.declared.event.Event.TheVariants.{ClearError, Poll};
ghost use Rattle.dsa_book.specs.State.{State, opening};
ghost use Rattle.dsa_book.specs.declared.answer.Ticket.{Ticket};
ghost use Rattle.dsa_book.specs.declared.fate.PastFates.TheVariants.{Kept, Forgotten};
ghost use Rattle.dsa_device.specs.Running.{Running, running_at_first, running_anew};
ghost use Rattle.dsa_scenario.specs.Worked.{no_command};
ghost use Rattle.dsa_scenario.specs.declared.actions.Action.TheVariants.{Ask, Refuse};
ghost use Rattle.dsa_scenario.specs.declared.faults.ScenarioFault.{ScenarioFault};
ghost use Rattle.dsa_scenario.specs.declared.faults.ScenarioFault.TheVariants as late;
ghost use Rattle.dsa_scenario.specs.Document.{HasHead, IsNoJson};
ghost use Rattle.dsa_scenario.specs.Lines.{line_of_text};
ghost use Rattle.dsa_scenario.specs.Steps.{standing, visit, visits};
ghost use Rattle.dsa_scenario.specs.Worked.{actions_of_a_submission, records_of_a_run};
ghost use Rattle.dsa_scenario.specs.Worked.{records_of_a_submission};
ghost use Rattle.dsa_scenario.specs.Worked.{object_of, poll_step, step_of_kind, whole};
ghost use Rattle.dsa_scenario.specs.Worked.{smallest_caps, smallest_caps_text, no_caps_text};
ghost use Rattle.dsa_scenario.specs.Worked.{document_text, caps_of_a_run, actions_of_a_run};
ghost use Rattle.dsa_serve.specs.declared.dialogue.Dialogue.{Dialogue};
ghost use Rattle.dsa_serve.specs.declared.requests.Line.TheVariants as line;
ghost use Rattle.dsa_check.specs.OneLine.{IsFlawText};
ghost use Rattle.dsa_serve.specs.Requests.{explanation_rows, is_word, request_as};
ghost use Rattle.dsa_serve.specs.Requests.{Step, Explain, Show, Fates, BeginAnew, Fault, Ready};
ghost use Rattle.dsa_serve.specs.Requests.{request_of, actions_of, IsAskedIn, IsRead, Asks};
ghost use Rattle.dsa_serve.specs.Requests.{AreAsked, begins_anew};
ghost use Rattle.dsa_serve.specs.Names.{Names, first_names, names_given_by, own_names_of, names_over};
ghost use Rattle.dsa_serve.specs.Requests.{IsAskedAs, IsStrictAsked, names_behind, sense_in};
ghost use Rattle.dsa_serve.specs.Requests.{step_asked, steps_in, stuck_text};
ghost use Rattle.dsa_serve.specs.Dialogue.{names_at_first, IsFaultOfFirst, IsTakenAs};
ghost use Rattle.dsa_serve.specs.Worked.{own_step};
ghost use Rattle.dsa_scenario.specs.Worked.{accepted, record_ticket};
ghost use Rattle.dsa_expand.specs.Single.{Itself, Strictly, StuckAt};
ghost use Rattle.dsa_expand.specs.Steps.{is_friendly, object_with};
ghost use Rattle.dsa_expand.specs.Worked.{finish_named, strict_finish, text};
ghost use Rattle.dsa_serve.specs.Answers.{answers, difference, new_fates_text, refusal_line};
ghost use Rattle.dsa_serve.specs.Answers.{fates_told_after};
ghost use Rattle.dsa_serve.specs.Answers.{after_requests, records_of_visits};
ghost use Rattle.dsa_serve.specs.Answers.{AreClosest, AreStepsOf, IsCourse};
ghost use Rattle.dsa_serve.specs.declared.ending.Inside.TheVariants.{Brackets, Text, Escape};
ghost use Rattle.dsa_serve.specs.Input.{after_byte, depth_after, ends_with, has_no_end};
ghost use Rattle.dsa_serve.specs.Input.{IsLine, AreLines, with_rest, IsFront, HasFirst};
ghost use Rattle.dsa_serve.specs.Input.{inside_after, is_open};
ghost use Rattle.dsa_serve.specs.Dialogue.{from_document, IsObservedDocument, IsLate, IsDialogue};
ghost use Rattle.dsa_serve.specs.Dialogue.{IsDialogueEnded, AnswersWhole, AnswersAll, AnswersSoFar};
ghost use Rattle.dsa_serve.specs.Dialogue.{AnswersOnlyLine, IsServing, IsInCourse, IsStopped};
ghost use Rattle.dsa_serve.specs.Worked.{explain_around, requests_of_a_dialogue};
ghost use Rattle.dsa_serve.specs.Worked.{records_of_a_dialogue, lines_of_a_dialogue};
ghost use Rattle.dsa_serve.specs.Worked.{records_of_two_polls, polled_record, poll_line};
ghost use Rattle.dsa_serve.specs.Worked.{explained_poll_line, first_line, unseen, seen};
ghost use Rattle.dsa_serve.specs.Worked.{answers_to_a_brace, line_of_fates, new_device_line};
ghost use Rattle.dsa_serve.specs.Worked.{friendly_line, not_json, show_line, unread_poll_line};
ghost use Rattle.dsa_serve.specs.Worked.{with_a_fate, with_two_fates};

/// A step object asks its step, and `explain` around one its explanation. The words `show` and
/// `fates`, and those that begin a history anew, ask by themselves. Nothing else asks anything.
pub fn requests()
    ensures step { request_of (object_of poll_step) ≡ Some (Step (Ask Poll) unseen) }
    ensures answer_seen { request_of
        (object_of ((codes "answer", string (codes "nothing")) ∷ poll_step))
        ≡ Some (Step (Ask Poll) (seen (codes "nothing"))) }
    ensures no_text { request_of (object_of ((codes "answer", whole 1) ∷ poll_step)) ≡ None }
    ensures no_truth { request_of
        (explain_around (object_of ((codes "zf", whole 1) ∷ poll_step)))
        ≡ None }
    ensures explained_seen { request_of
        (explain_around
        (object_of ((codes "answer", string (codes "nothing")) ∷ poll_step)))
        ≡ Some (Explain (Ask Poll) (seen (codes "nothing"))) }
    ensures explained { request_of (explain_around (object_of poll_step))
        ≡ Some (Explain (Ask Poll) unseen) }
    ensures twice { request_of (explain_around (explain_around (object_of poll_step))) ≡ None }
    ensures other_word { request_of
        (object_of (step_of_kind (codes "explains") ((codes "step", object_of poll_step) ∷ [])))
        ≡ None }
    ensures around_nothing { request_of (object_of (step_of_kind (codes "explain") [])) ≡ None }
    ensures other_kind { request_of (object_of (step_of_kind (codes "submit") [])) ≡ None }
    ensures no_object { request_of (whole 1) ≡ None }
    ensures show { request_of (object_of (step_of_kind (codes "show") [])) ≡ Some Show }
    ensures fates { request_of (object_of (step_of_kind (codes "fates") [])) ≡ Some Fates }
    ensures begin_anew { request_of (object_of (step_of_kind (codes "begin-anew") []))
        ≡ Some (BeginAnew Kept) }
    ensures begin_anew_without_fates { request_of
        (object_of (step_of_kind (codes "begin-anew-without-fates") []))
        ≡ Some (BeginAnew Forgotten) }
    ensures show_with_more { request_of
        (object_of (step_of_kind (codes "show") ((codes "engine", whole 1) ∷ [])))
        ≡ Some Show }
    ensures shows { request_of (object_of (step_of_kind (codes "shows") [])) ≡ None }
    ensures explained_show { request_of
        (explain_around (object_of (step_of_kind (codes "show") []))) ≡ None }
    ensures word_alone { request_of (string (codes "show")) ≡ None }
    ensures word_that_is_no_text { request_of (object_of ((codes "do", whole 1) ∷ [])) ≡ None }
{}

/// What a line of the program asks, by its own words.
pub fn lines_as_requests()
    ensures step { request_as (line.Step (Ask Poll) (record { answer = None; zf = Some true }))
        ≡ Step (Ask Poll) (record { answer = None; zf = Some true }) }
    ensures explained { request_as (line.Explain (Ask Poll) (record { answer = None; zf = None }))
        ≡ Explain (Ask Poll) unseen }
    ensures show { request_as line.Show ≡ Show }
    ensures fates { request_as line.Fates ≡ Fates }
    ensures begin_anew { request_as (line.BeginAnew Forgotten) ≡ BeginAnew Forgotten }
    ensures word { is_word (codes "show") (Some (codes "show")) ≡ true }
    ensures other { is_word (codes "show") (Some (codes "fates")) ≡ false }
    ensures no_word { is_word (codes "show") None ≡ false }
    ensures keys { map (λ row. row.0) explanation_rows ≡ codes "step" ∷ [] }
{}

/// Why a value asks nothing: what is wrong with the object that it is, or that is to be explained.
#[tactic(auto, unfolding(dsa_scenario::specs::Worked::digits_on_literals))]
pub fn reasons_of_lines()
    ensures no_kind { IsAskedIn (object_of []) (Fault (codes "no step: \"do\" is missing")) }
    ensures no_object { IsAskedIn null
        (Fault (codes "no step: null stands here, an object is wanted")) }
    ensures two { IsAskedIn (object_of ((codes "zf", null) ∷ step_of_kind (codes "command") []))
        (Fault (codes "no step: \"word\" is missing; "
        ++ codes "\"zf\" is null, true or false is wanted")) }
    ensures no_step { IsAskedIn (object_of (step_of_kind (codes "explain") []))
        (Fault (codes "no step: \"step\" is missing")) }
    ensures explained { IsAskedIn (explain_around (object_of []))
        (Fault (codes "no step: \"do\" is missing")) }
    ensures explained_null { IsAskedIn (explain_around null)
        (Fault (codes "no step: null stands here, an object is wanted")) }
    ensures seen { IsAskedIn (object_of ((codes "zf", null) ∷ poll_step))
        (Fault (codes "no step: \"zf\" is null, true or false is wanted")) }
    ensures other_word { ¬ IsAskedIn (object_of []) not_json }
    ensures step { (why : List ℕ) → ¬ IsAskedIn (object_of poll_step) (Fault why) }
    ensures other_step { ¬ IsAskedIn (object_of []) (Step (Ask Poll) unseen) }
{}

/// What lines ask, and which fault a line has.
#[tactic(auto, unfolding(serde_json::proofs::OnLiterals::serde_json_on_literals))]
pub fn lines()
    ensures step { Asks None poll_line (Step (Ask Poll) unseen) }
    ensures explained { Asks None explained_poll_line (Explain (Ask Poll) unseen) }
    ensures show { Asks None show_line Show }
    ensures fates { Asks None line_of_fates Fates }
    ensures too_long_to_show { (line : List ℕ) → length line ≡ 1_048_577 → ¬ Asks None line Show }
    ensures no_step { Asks None (codes "{}") (Fault (codes "no step: \"do\" is missing")) }
    ensures cut { Asks None (codes "{") not_json }
    ensures empty { Asks None []
        (Fault (codes "not JSON: column 1: the end is here, an object is wanted")) }
    ensures bytes { (text : List ℕ)
        → Asks None (255 ∷ []) (Fault text)
        → text ≡ codes "not JSON: column 1: the bytes are no UTF-8" }
    ensures placeless { ¬ Asks None (codes "{") (Fault (codes "not JSON")) }
    ensures too_long { (line : List ℕ)
        → length line ≡ 1_048_577
        → Asks None line (Fault (codes "line too long")) }
    ensures json { ¬ Asks None (codes "{}") not_json }
    ensures not_asked { ¬ Asks None (codes "{}") (Step (Ask Poll) unseen) }
    ensures longest { (line : List ℕ)
        → length line ≡ 1_048_576
        → ¬ Asks None line (Fault (codes "line too long")) }
    ensures too_long_for_a_step { (line : List ℕ)
        → length line ≡ 1_048_577
        → ¬ Asks None line (Step (Ask Poll) unseen) }
    ensures too_long_to_be_read { (line : List ℕ)
        → length line ≡ 1_048_577
        → ¬ Asks None line not_json }
    ensures each { AreAsked None (poll_line ∷ codes "{" ∷ [])
        (Step (Ask Poll) unseen ∷ not_json ∷ []) [] None }
    ensures longest_that_is_no_json { (line flaw : List ℕ)
        → length line ≡ 1_048_576
        → IsNoJson line
        → IsFlawText line flaw
        → Asks None line (Fault (codes "not JSON: " ++ flaw)) }
    ensures longest_that_is_read { (line why : List ℕ)
        → length line ≡ 1_048_576
        → IsRead None line (Fault why)
        → Asks None line (Fault why) }
    ensures other { ¬ AreAsked None (codes "{}" ∷ []) (not_json ∷ []) [] None }
    ensures other_later { ¬ AreAsked None (codes "{" ∷ codes "{}" ∷ [])
        (not_json ∷ not_json ∷ []) [] None }
    ensures fewer { ¬ AreAsked None (codes "{" ∷ []) [] [] None }
    ensures more { ¬ AreAsked None [] (not_json ∷ []) [] None }
{}

/// The own names that a dialogue knows: those that its steps have given, if it is friendly.
pub fn own_names()
    ensures friendly { first_names true ≡ Some [] }
    ensures strict { first_names false ≡ None }
    ensures document { names_over (Some ((codes "x", 9) ∷ []))
        (own_step (codes "a") ∷ own_step (codes "b") ∷ [])
        (accepted (record_ticket 6 0) ∷ polled_record ∷ [])
        ≡ Some ((codes "x", 9) ∷ (codes "a", 0) ∷ []) }
    ensures strict_document { names_over None (own_step (codes "a") ∷ [])
        (accepted (record_ticket 6 0) ∷ [])
        ≡ None }
    ensures step { names_given_by (Some ((codes "x", 9) ∷ [])) (Some (own_step (codes "a")))
        (accepted (record_ticket 6 2) ∷ [])
        ≡ Some ((codes "x", 9) ∷ (codes "a", 2) ∷ []) }
    ensures strict_step { names_given_by None (Some (own_step (codes "a")))
        (accepted (record_ticket 6 2) ∷ [])
        ≡ None }
    ensures no_step { names_given_by (Some ((codes "x", 9) ∷ [])) None
        (accepted (record_ticket 6 2) ∷ [])
        ≡ Some ((codes "x", 9) ∷ []) }
    ensures no_record { names_given_by (Some ((codes "x", 9) ∷ [])) (Some (own_step (codes "a"))) []
        ≡ Some ((codes "x", 9) ∷ []) }
    ensures first { names_at_first true (own_step (codes "a") ∷ [])
        (accepted (record_ticket 6 4) ∷ polled_record ∷ [])
        ≡ Some ((codes "a", 4) ∷ []) }
    ensures first_strict { names_at_first false (own_step (codes "a") ∷ [])
        (accepted (record_ticket 6 4) ∷ [])
        ≡ None }
{}

/// What lines of a friendly dialogue mean, and what they ask.
#[tactic(auto, unfolding(serde_json::proofs::OnLiterals::serde_json_on_literals, dsa_expand::specs::Worked::expanded_on_literals))]
pub fn friendly_lines()
    ensures named { sense_in (Some ((codes "a", 7) ∷ [])) (finish_named (text (codes "a")))
        ≡ Strictly (object_with (strict_finish 7)) }
    ensures explained { sense_in (Some ((codes "a", 7) ∷ []))
        (explain_around (finish_named (text (codes "a"))))
        ≡ Strictly (object_with (strict_finish 7)) }
    ensures unknown { sense_in (Some []) (finish_named (text (codes "a")))
        ≡ StuckAt (codes "name") }
    ensures strictly { sense_in None (finish_named (text (codes "a"))) ≡ Itself }
    ensures no_step { sense_in (Some []) (object_of (step_of_kind (codes "show") [])) ≡ Itself }
    ensures no_step_to_explain { sense_in (Some [])
        (object_of (step_of_kind (codes "explain") [])) ≡ Itself }
    ensures reason { stuck_text (codes "name") ≡ codes "no step: \"name\" has no strict form" }
    ensures made { step_asked false (Ask Poll, unseen) ≡ Step (Ask Poll) unseen }
    ensures to_explain { step_asked true (Ask Poll, unseen) ≡ Explain (Ask Poll) unseen }
    ensures asked { IsStrictAsked true (object_of poll_step) (Explain (Ask Poll) unseen) }
    ensures asked_as { IsAskedAs (Strictly (object_of poll_step)) null
        (Step (Ask Poll) unseen) }
    ensures no_fault { (why : List ℕ) → ¬ IsStrictAsked false (object_of poll_step) (Fault why) }
    ensures stuck { ¬ IsAskedAs (StuckAt (codes "name")) null not_json }
    ensures of_a_step { steps_in (Explain (Ask Poll) unseen) ≡ 1 }
    ensures of_a_fault { steps_in not_json ≡ 0 }
    ensures gives { names_behind (Some []) (codes "{\"do\":\"explain\",\"step\":{\"as\":\"a\"}}")
        (accepted (record_ticket 6 2) ∷ [])
        ≡ Some ((codes "a", 2) ∷ []) }
{}

/// A step after a fault is the next one, and each line has its answer.
#[tactic(auto, unfolding(dsa_scenario::specs::Worked::digits_on_literals))]
pub fn a_dialogue()
    ensures steps { actions_of requests_of_a_dialogue
        ≡ Refuse no_command ∷ Ask Poll ∷ Ask Poll ∷ [] }
    ensures answers { answers (running_at_first smallest_caps 9) 0 requests_of_a_dialogue
        (visits smallest_caps 9 [] records_of_a_dialogue)
        ≡ lines_of_a_dialogue }
    ensures ready { answers (running_at_first smallest_caps 9) 0 (Ready 0 ∷ Ready 12 ∷ []) []
        ≡ codes "ready 0\nready 12\n" }
    ensures too_long { refusal_line (codes "line too long") ≡ codes "fault line too long" }
    ensures answered { IsCourse smallest_caps 9 requests_of_a_dialogue
        (visits smallest_caps 9 [] records_of_a_dialogue) lines_of_a_dialogue }
    ensures not_answered { ¬ IsCourse smallest_caps 9 (not_json ∷ []) [] [] }
    ensures of_another_event { ¬ IsCourse smallest_caps 9 (Step (Ask ClearError) unseen ∷ [])
        (visits smallest_caps 9 [] (polled_record ∷ [])) (codes "nothing\n") }
    ensures of_another_number { ¬ IsCourse smallest_caps 9 (Step (Ask Poll) unseen ∷ [])
        (visit 1 (running_at_first smallest_caps 9) polled_record
        (running_at_first smallest_caps 9) ∷ []) (codes "nothing\n") }
    ensures without_its_step { ¬ IsCourse smallest_caps 9 (Step (Ask Poll) unseen ∷ []) [] [] }
    ensures entries { records_of_visits (visits smallest_caps 9 [] records_of_a_dialogue)
        ≡ records_of_a_dialogue }
{}

/// A device that is shown has the state that the last step has led it to, and no step is counted.
#[tactic(auto, unfolding(dsa_scenario::specs::Worked::digits_on_literals))]
pub fn shows()
    ensures new { answers (running_at_first smallest_caps 9) 0 (Show ∷ []) []
        ≡ new_device_line }
    ensures no_step { actions_of (Show ∷ Ready 2 ∷ Step (Ask Poll) unseen ∷ Fates ∷ [])
        ≡ Ask Poll ∷ [] }
    ensures numbers { answers (running_at_first smallest_caps 9) 0
        (Explain (Ask Poll) unseen ∷ Show ∷ Explain (Ask Poll) unseen ∷ [])
        (visits smallest_caps 9 [] records_of_two_polls)
        ≡ codes "0 poll -> nothing: no command is active\n" ++ new_device_line
        ++ codes "1 poll -> nothing: no command is active\n" }
    ensures after_a_submission { answers (running_at_first caps_of_a_run 7) 0
        (from_document (map (λ action. (action, unseen)) actions_of_a_submission) (Show ∷ []))
        (visits caps_of_a_run 7 [] records_of_a_submission)
        ≡ codes "written\nwritten\nended 0\nended 0\nrefused 13 BadCommand\naccepted 0\nready 6\n"
        ++ codes "{\"phase\":\"on\",\"error\":null,\"queues\":["
        ++ codes "{\"queue\":0,\"occupancy\":1,\"threshold\":8,\"size\":16,\"phase\":\"on\","
        ++ codes "\"waiting\":[0]}],"
        ++ codes "\"engines\":[{\"engine\":0,\"in_progress\":0,\"slots\":4,\"members\":0,"
        ++ codes "\"names\":[],\"member_names\":[],\"batch\":null}],"
        ++ codes "\"groups\":[{\"group\":0,\"used\":0,\"allowed\":32,\"reserved\":0}],"
        ++ codes "\"active\":null}\n" }
{}

/// Fates are told once each, behind their number, and those of the document's steps too.
#[tactic(auto, unfolding(dsa_scenario::specs::Worked::digits_on_literals))]
pub fn fates_told()
    ensures none { new_fates_text [] ≡ codes "fates 0\n" }
    ensures two { new_fates_text with_two_fates.state.work.fates
        ≡ codes "fates 2\nfate 3 - completed 01\nfate 0 - abandoned\n" }
    ensures once { answers with_a_fate 0 (Fates ∷ Fates ∷ []) []
        ≡ codes "fates 1\nfate 3 - completed 01\nfates 0\n" }
    ensures first_was_told { answers with_two_fates 1 (Fates ∷ []) []
        ≡ codes "fates 1\nfate 0 - abandoned\n" }
    ensures told_then { fates_told_after with_a_fate 0 (Fates ∷ []) [] ≡ 1 }
    ensures not_told { fates_told_after with_a_fate 0 (Show ∷ not_json ∷ Ready 2 ∷ []) []
        ≡ 0 }
    ensures further { answers with_a_fate 0 (Fates ∷ Step (Ask Poll) unseen ∷ Fates ∷ [])
        (visit 0 with_a_fate polled_record with_two_fates ∷ [])
        ≡ codes "fates 1\nfate 3 - completed 01\nnothing\nfates 1\nfate 0 - abandoned\n" }
    ensures told_further { fates_told_after with_a_fate 0
        (Fates ∷ Step (Ask Poll) unseen ∷ Explain (Ask Poll) unseen ∷ Fates ∷ [])
        (visit 0 with_a_fate polled_record with_a_fate
        ∷ visit 1 with_a_fate polled_record with_two_fates ∷ [])
        ≡ 2 }
    ensures explained { answers with_a_fate 0 (Explain (Ask Poll) unseen ∷ Fates ∷ [])
        (visit 0 with_a_fate polled_record with_two_fates ∷ [])
        ≡ codes "0 poll -> nothing: no command is active\n"
        ++ codes "fates 2\nfate 3 - completed 01\nfate 0 - abandoned\n" }
    ensures told_after_a_step { fates_told_after with_a_fate 0 (Step (Ask Poll) unseen ∷ Fates ∷ [])
        (visit 0 with_a_fate polled_record with_two_fates ∷ [])
        ≡ 2 }
    ensures of_a_run { answers (running_at_first caps_of_a_run 7) 0
        (from_document (map (λ action. (action, unseen)) actions_of_a_run) (Fates ∷ Fates ∷ []))
        (visits caps_of_a_run 7 [] records_of_a_run)
        ≡ codes "written\nwritten\nended 0\nended 0\nrefused 13 BadCommand\n"
        ++ codes "accepted 0\ntaken 0 from 0\ndone 01\nfull\nready 9\n"
        ++ codes "fates 1\nfate 0 - completed 01\nfates 0\n" }
{}

/// Where requests lead a device, and the steps that they come to.
pub fn courses_of_requests()
    ensures begins { begins_anew (BeginAnew Kept) ≡ true }
    ensures begins_nothing { begins_anew Show ≡ false }
    ensures stands { after_requests with_a_fate (Show ∷ Fates ∷ not_json ∷ Ready 2 ∷ []) []
        ≡ with_a_fate }
    ensures led { after_requests with_a_fate (Show ∷ Step (Ask Poll) unseen ∷ Fates ∷ [])
        (visit 0 with_a_fate polled_record with_two_fates ∷ [])
        ≡ with_two_fates }
    ensures explained { after_requests with_a_fate (Explain (Ask Poll) unseen ∷ [])
        (visit 0 with_a_fate polled_record with_two_fates ∷ [])
        ≡ with_two_fates }
    ensures led_and_explained { after_requests with_a_fate
        (Explain (Ask Poll) unseen ∷ Step (Ask Poll) unseen ∷ [])
        (visit 0 with_a_fate polled_record with_a_fate
        ∷ visit 1 with_a_fate polled_record with_two_fates ∷ [])
        ≡ with_two_fates }
    ensures anew { after_requests with_a_fate (Step (Ask Poll) unseen ∷ BeginAnew Forgotten ∷ [])
        (visit 0 with_a_fate polled_record with_two_fates ∷ [])
        ≡ running_anew with_two_fates Forgotten }
    ensures step { AreStepsOf with_a_fate 3 (Show ∷ Step (Ask Poll) unseen ∷ [])
        (visit 3 with_a_fate polled_record with_a_fate ∷ []) }
    ensures step_behind { AreStepsOf with_a_fate 3 (BeginAnew Kept ∷ Explain (Ask Poll) unseen ∷ [])
        (visit 3 (running_anew with_a_fate Kept) polled_record
        (running_anew with_a_fate Kept) ∷ []) }
    ensures step_as_if_before { ¬ AreStepsOf with_a_fate 3
        (BeginAnew Kept ∷ Explain (Ask Poll) unseen ∷ [])
        (visit 3 with_a_fate polled_record with_a_fate ∷ []) }
    ensures other_number { ¬ AreStepsOf with_a_fate 3 (Step (Ask Poll) unseen ∷ [])
        (visit 4 with_a_fate polled_record with_a_fate ∷ []) }
    ensures led_elsewhere { ¬ AreStepsOf with_a_fate 3 (Step (Ask Poll) unseen ∷ [])
        (visit 3 with_a_fate polled_record with_two_fates ∷ []) }
    ensures no_step { ¬ AreStepsOf with_a_fate 3 (Explain (Ask Poll) unseen ∷ []) [] }
    ensures step_too_many { ¬ AreStepsOf with_a_fate 3 (Show ∷ [])
        (visit 3 with_a_fate polled_record with_a_fate ∷ []) }
{}

/// A history that begins anew has room again, and steps and names go on. The fates are kept, or
/// they are forgotten, and then those that come are told.
#[tactic(auto, unfolding(dsa_scenario::specs::Worked::digits_on_literals))]
pub fn histories_begun_anew()
    ensures kept { answers with_two_fates 1 (BeginAnew Kept ∷ Fates ∷ []) []
        ≡ codes "begun anew\nfates 1\nfate 0 - abandoned\n" }
    ensures forgotten { answers with_two_fates 1 (BeginAnew Forgotten ∷ Fates ∷ []) []
        ≡ codes "begun anew\nfates 0\n" }
    ensures told { fates_told_after with_two_fates 1 (BeginAnew Kept ∷ []) [] ≡ 1 }
    ensures told_of_none { fates_told_after with_two_fates 1 (BeginAnew Forgotten ∷ []) [] ≡ 0 }
    ensures all_told { fates_told_after with_two_fates 1 (BeginAnew Kept ∷ Fates ∷ []) [] ≡ 2 }
    ensures none_told { fates_told_after with_two_fates 1 (BeginAnew Forgotten ∷ Fates ∷ []) []
        ≡ 0 }
    ensures of_a_full_history { answers (running_at_first caps_of_a_run 7) 0
        (from_document (map (λ action. (action, unseen)) actions_of_a_run)
        (BeginAnew Kept ∷ Explain (Ask Poll) unseen ∷ Fates ∷ []))
        (visits caps_of_a_run 7 [] records_of_a_run
        ++ visit 9 (running_anew (standing caps_of_a_run 7 records_of_a_run) Kept) polled_record
        (running_anew (standing caps_of_a_run 7 records_of_a_run) Kept) ∷ [])
        ≡ codes "written\nwritten\nended 0\nended 0\nrefused 13 BadCommand\n"
        ++ codes "accepted 0\ntaken 0 from 0\ndone 01\nfull\nready 9\nbegun anew\n"
        ++ codes "9 poll -> nothing: no command is active\nfates 1\nfate 0 - completed 01\n" }
{}

/// An answer that does not show what was seen has a word before it, and goes on. It is given only
/// where no answer that is allowed shows it.
#[tactic(auto, unfolding(dsa_scenario::specs::Worked::digits_on_literals))]
pub fn differences()
    ensures shown { difference true ≡ [] }
    ensures differs { difference false ≡ codes "differs " }
    ensures line { answers (running_at_first smallest_caps 9) 0
        (Step (Ask Poll) (seen (codes "idle")) ∷ Step (Ask Poll) unseen ∷ [])
        (visits smallest_caps 9 [] records_of_two_polls)
        ≡ codes "differs nothing\nnothing\n" }
    ensures explained { answers (running_at_first smallest_caps 9) 0
        (Explain (Ask Poll) (seen (codes "idle")) ∷ [])
        (visits smallest_caps 9 [] (polled_record ∷ []))
        ≡ codes "differs 0 poll -> nothing: no command is active\n" }
    ensures closest { AreClosest ((Ask Poll, seen (codes "nothing")) ∷ [])
        (visits smallest_caps 9 [] (polled_record ∷ [])) }
{}

/// A first line, and the lines after it. The steps of the document come before what the lines ask,
/// and the fates after all answers.
#[tactic(auto, unfolding(serde_json::proofs::OnLiterals::serde_json_on_literals, dsa_scenario::specs::Worked::digits_on_literals))]
pub fn dialogues()
    ensures no_lines { IsDialogue false (first_line []) [] (opening smallest_caps)
        (codes "ready 0\n") }
    ensures whole { AnswersWhole false false (line_of_text (first_line []) ++ codes "{\n{")
        answers_to_a_brace }
    ensures all { AnswersAll false (line_of_text (first_line []) ++ codes "{") answers_to_a_brace }
    ensures lines { IsDialogue false (first_line poll_line) (codes "{" ∷ explained_poll_line ∷ [])
        (opening smallest_caps)
        (codes "nothing\nready 1\nfault not JSON: column 2: the end is here, "
        ++ codes "a key in double quotes or } is wanted\n"
        ++ codes "1 poll -> nothing: no command is active\n") }
    ensures so_far { AnswersSoFar false (line_of_text (first_line []) ++ codes "{\n{")
        answers_to_a_brace }
    ensures write { IsStopped false ScenarioFault.Write
        (Some (line_of_text (first_line []) ++ codes "{\n{1")) (Some (codes "1"))
        (Some (codes "2")) (Some (codes "2ready")) }
    ensures write_at_the_end { IsStopped false ScenarioFault.Write
        (Some (line_of_text (first_line []) ++ codes "{")) (Some []) (Some [])
        (Some (codes "ready")) }
    ensures memory { (rest : List ℕ)
        → length rest ≡ 65_535
        → IsStopped false ScenarioFault.OutOfMemory
        (Some ((line_of_text (first_line []) ++ codes "{\n") ++ 10 ∷ rest)) (Some [])
        (Some []) (Some answers_to_a_brace) }
    ensures memory_at_the_only_line { IsStopped false ScenarioFault.OutOfMemory
        (Some (first_line poll_line)) (Some []) (Some []) (Some (codes "nothing\nready 1\n")) }
    ensures ended { (first : List ℕ)
        → IsObservedDocument first caps_of_a_run 7
        (map (λ action. (action, unseen)) actions_of_a_run)
        → IsDialogueEnded false first []
        (codes "written\nwritten\nended 0\nended 0\nrefused 13 BadCommand\n"
        ++ codes "accepted 0\ntaken 0 from 0\ndone 01\nfull\nready 9\n"
        ++ codes "fate 0 - completed 01\n") }
{}

/// An input in lines, each with its line feed, and the rest of one.
pub fn inputs()
    ensures line { IsLine (codes "12") }
    ensures two_lines { ¬ IsLine (codes "1\n2") }
    ensures lines { AreLines (codes "1\n\n2") (codes "1" ∷ [] ∷ []) (codes "2") }
    ensures without_line_feed { ¬ AreLines (codes "1") (codes "1" ∷ []) [] }
    ensures line_feed_within { ¬ AreLines (codes "1\n2\n") (codes "1\n2" ∷ []) [] }
    ensures line_feed_in_the_rest { ¬ AreLines (codes "1\n") [] (codes "1\n") }
    ensures front { IsFront false (codes "1\n2") (codes "1") (codes "2") }
    ensures front_alone { IsFront true (codes "1") (codes "1") [] }
    ensures front_with_more { ¬ IsFront true (codes "1") (codes "1") (codes "2") }
    ensures front_with_a_bracket { ¬ IsFront false (codes "[\n2") (codes "[") (codes "2") }
    ensures front_without_line_feed { ¬ IsFront false (codes "12") (codes "1") (codes "2") }
    ensures front_is_all { ¬ IsFront true (codes "1\n2") (codes "1") (codes "2") }
    ensures first { HasFirst false (codes "1\n2") (codes "1") (codes "2") }
    ensures first_of_lines { HasFirst false (codes "{\n[\n]}\n2\n") (codes "{\n[\n]}")
        (codes "2\n") }
    ensures first_with_a_text { HasFirst false (codes "[\"]\\\"[\"\n]\n2") (codes "[\"]\\\"[\"\n]")
        (codes "2") }
    ensures first_at_the_end { HasFirst true (codes "[\n") (codes "[\n") [] }
    ensures first_cut { ¬ HasFirst false (codes "[\n]\n") (codes "[") (codes "]\n") }
    ensures first_alone { HasFirst true (codes "1") (codes "1") [] }
    ensures longest_first { (first : List ℕ)
        → IsLine first
        → length first ≡ 1_048_576
        → HasFirst true first first [] }
    ensures too_long_first { (ended : Bool) (input : List ℕ) (first : List ℕ) (behind : List ℕ)
        → length first ≡ 1_048_577
        → ¬ HasFirst ended input first behind }
    ensures first_of_two_lines { (ended : Bool)
        → ¬ HasFirst ended (codes "1\n2\n") (codes "1\n2") [] }
    ensures first_without_the_rest { (ended : Bool)
        → ¬ HasFirst ended (codes "1\n2") (codes "1") [] }
{}

/// What is open behind bytes: brackets outside of texts, or a text.
pub fn brackets()
    ensures none { inside_after (Brackets 0) (codes "1]") ≡ Brackets 0 }
    ensures two { inside_after (Brackets 0) (codes "{\"a\":[") ≡ Brackets 2 }
    ensures closed { inside_after (Brackets 0) (codes "[{}]") ≡ Brackets 0 }
    ensures text { inside_after (Brackets 0) (codes "[\"]") ≡ Text 1 }
    ensures quote { inside_after (Brackets 0) (codes "[\"\\\"]") ≡ Text 1 }
    ensures backslash { inside_after (Brackets 0) (codes "[\"\\") ≡ Escape 1 }
    ensures goes_on { is_open (Brackets 1) ≡ true }
    ensures ends { is_open (Brackets 0) ≡ false }
    ensures ends_in_a_text { is_open (Text 1) ≡ false }
    ensures ends_at_a_backslash { is_open (Escape 1) ≡ false }
    ensures closing { depth_after 2 93 ≡ 1 }
    ensures letter { depth_after 2 97 ≡ 2 }
    ensures tilde { depth_after 2 126 ≡ 2 }
    ensures space { after_byte (Text 1) 32 ≡ Text 1 }
    ensures feed { ends_with (Brackets 0) 10 ≡ true }
    ensures tab { ends_with (Brackets 0) 9 ≡ false }
    ensures feed_within { ends_with (Brackets 1) 10 ≡ false }
    ensures ended_later { has_no_end (Brackets 0) (codes "1\n") ≡ false }
    ensures ended_first { has_no_end (Brackets 0) (codes "\n1") ≡ false }
    ensures not_ended { has_no_end (Brackets 1) (codes "\n1") ≡ true }
{}

/// An input has one document at its head, and bytes fall into lines in one way.
pub fn one_division()
    ensures first { (ended : Bool) (also : Bool) (input : List ℕ) (first : List ℕ)
        (behind : List ℕ) (other : List ℕ) (more : List ℕ)
        → HasFirst ended input first behind
        → HasFirst also input other more
        → (first ≡ other) × (behind ≡ more) }
    ensures lines { (bytes : List ℕ) (lines : List (List ℕ)) (rest : List ℕ)
        (others : List (List ℕ)) (other : List ℕ)
        → AreLines bytes lines rest
        → AreLines bytes others other
        → (lines ≡ others) × (rest ≡ other) }
{}

/// The rest of a line counts at the end of input if it has a byte.
pub fn last_lines()
    ensures none { with_rest (codes "1" ∷ []) [] ≡ codes "1" ∷ [] }
    ensures one { with_rest (codes "1" ∷ []) (codes "2") ≡ codes "1" ∷ codes "2" ∷ [] }
{}

/// What no dialogue begins with, and the one answer to a line, and the one state, that there is.
/// Of that answer a part is written where a write fails.
#[tactic(auto, unfolding(serde_json::proofs::OnLiterals::serde_json_on_literals, dsa_scenario::specs::Worked::digits_on_literals))]
pub fn one_dialogue()
    ensures no_document { (last : State) (output : List ℕ)
        → ¬ IsDialogue false (codes "{}") [] last output }
    ensures bad_caps { (last : State) (output : List ℕ)
        → ¬ IsDialogue false (document_text no_caps_text (codes "9") []) [] last output }
    ensures large { (last : State) (output : List ℕ)
        → ¬ IsDialogue false (document_text smallest_caps_text (codes "1048577") []) [] last
        output }
    ensures no_record { (last : State) → ¬ IsDialogue false (first_line poll_line) [] last [] }
    ensures one_state { (last : State) (output : List ℕ)
        → IsDialogue false (first_line []) [] last output
        → last ≡ opening smallest_caps }
    ensures one_end { (output : List ℕ)
        → IsDialogueEnded false (first_line []) [] output
        → output ≡ codes "ready 0\n" }
    ensures one_answer { (last : State) (output : List ℕ)
        → IsDialogue false (first_line []) ((255 ∷ []) ∷ []) last output
        → output ≡ codes "ready 0\nfault not JSON: column 1: the bytes are no UTF-8\n" }
    ensures one_run { (last : State) (output : List ℕ)
        → IsDialogue false (first_line poll_line) [] last output
        → output ≡ codes "nothing\nready 1\n" }
    ensures cut { (text : List ℕ)
        → IsStopped false ScenarioFault.Write
        (Some (line_of_text (first_line []) ++ 255 ∷ codes "\n1")) (Some (codes "1"))
        (Some []) (Some text)
        → length text < 57 }
    ensures rest_before_the_end { (text : List ℕ)
        → IsStopped false ScenarioFault.Write (Some (line_of_text (first_line []) ++ codes "{1"))
        (Some (codes "1")) (Some []) (Some text)
        → length text < 8 }
{}

/// A friendly dialogue reads its document as the strict form that it has.
#[tactic(auto, unfolding(serde_json::proofs::OnLiterals::serde_json_on_literals, dsa_scenario::specs::Worked::digits_on_literals))]
pub fn friendly_documents()
    ensures strict { IsTakenAs true (first_line poll_line) (first_line poll_line) }
    ensures unchanged { (first strict : List ℕ) (caps : Caps) (capacity : ℕ) (steps : List Data)
        → HasHead first caps capacity steps
        → list_any is_friendly steps ≡ false
        → IsTakenAs true first strict
        → strict ≡ first }
    ensures as_it_is { ¬ IsTakenAs true (first_line friendly_line) (first_line friendly_line) }
    ensures no_head { (strict : List ℕ) → ¬ IsTakenAs true (codes "{}") strict }
    ensures served { IsDialogue true (first_line []) [] (opening smallest_caps)
        (codes "ready 0\n") }
    ensures not_served { (last : State) (output : List ℕ)
        → ¬ IsDialogue true (codes "{}") [] last output }
    ensures number { IsFaultOfFirst true (codes "1") ScenarioFault.BadDocument }
    ensures no_json { ¬ IsFaultOfFirst true (codes "1") ScenarioFault.NotJson }
    ensures caps { IsFaultOfFirst true (document_text no_caps_text (codes "9") [])
        ScenarioFault.BadCaps }
    ensures stuck { IsFaultOfFirst true (first_line (codes "{}")) (ScenarioFault.BadStep 0) }
    ensures unread { IsFaultOfFirst true (first_line unread_poll_line) (ScenarioFault.BadStep 0) }
    ensures no_fault { ¬ IsFaultOfFirst true (codes "1") ScenarioFault.BadCaps }
{}

/// Where a dialogue stopped, by what the reader gave and what the writer took.
#[tactic(auto, unfolding(serde_json::proofs::OnLiterals::serde_json_on_literals))]
pub fn stops()
    ensures read { IsStopped false ScenarioFault.Read (Some (codes "1")) (Some [])
        (Some []) (Some []) }
    ensures nothing_yet { AnswersSoFar false (codes "1") [] }
    ensures too_long_so_far { (input : List ℕ) (output : List ℕ)
        → IsLine input
        → length input ≡ 1_048_577
        → ¬ AnswersSoFar false input output }
    ensures answered_too_early { ¬ IsStopped false ScenarioFault.Read (Some (codes "1")) (Some [])
        (Some []) (Some (codes "2")) }
    ensures too_long { (first : List ℕ)
        → IsLine first
        → length first ≡ 1_048_577
        → IsStopped false ScenarioFault.TooLong (Some first) (Some []) (Some []) (Some []) }
    ensures longest { (first : List ℕ)
        → length first ≡ 1_048_576
        → ¬ IsStopped false ScenarioFault.TooLong (Some first) (Some []) (Some []) (Some []) }
    ensures nothing_to_write { ¬ IsStopped false ScenarioFault.Write (Some (codes "1")) (Some [])
        (Some []) (Some []) }
    ensures nothing_read { ¬ IsStopped false ScenarioFault.Write (Some []) (Some []) (Some [])
        (Some []) }
    ensures too_long_with_more { (first : List ℕ)
        → IsLine first
        → length first ≡ 1_048_577
        → IsStopped false ScenarioFault.TooLong (Some (first ++ codes "\n")) (Some []) (Some [])
        (Some []) }
    ensures too_long_with_a_read { (first more : List ℕ)
        → IsLine first
        → length first ≡ 1_048_577
        → length more ≡ 65_535
        → IsStopped false ScenarioFault.TooLong (Some (first ++ more)) (Some []) (Some [])
        (Some []) }
    ensures too_long_and_read_on { (input : List ℕ)
        → length input ≡ 1_114_113
        → ¬ IsStopped false ScenarioFault.TooLong (Some input) (Some []) (Some []) (Some []) }
    ensures too_long_behind_a_line_feed { (rest : List ℕ)
        → ¬ IsStopped false ScenarioFault.TooLong (Some (10 ∷ rest)) (Some []) (Some []) (Some []) }
    ensures memory { IsStopped false ScenarioFault.OutOfMemory (Some (codes "1")) (Some [])
        (Some []) (Some []) }
    ensures memory_after_a_long_line { (input : List ℕ)
        → IsLine input
        → length input ≡ 1_114_113
        → ¬ IsStopped false ScenarioFault.OutOfMemory (Some input) (Some []) (Some []) (Some []) }
    ensures no_json_in_memory { (input : List ℕ) (output : List ℕ)
        → IsLine input
        → IsNoJson input
        → IsStopped false ScenarioFault.OutOfMemory (Some input) (Some []) (Some []) (Some output)
        → output ≡ [] }
    ensures document { IsStopped false ScenarioFault.BadDocument (Some (codes "1")) (Some [])
        (Some []) (Some []) }
    ensures document_before_more { IsStopped false ScenarioFault.BadDocument (Some (codes "1\n2"))
        (Some (codes "2")) (Some []) (Some []) }
    ensures fault_with_a_read_behind { (rest : List ℕ)
        → length rest ≡ 65_536
        → IsStopped false ScenarioFault.NotJson (Some (10 ∷ rest)) (Some []) (Some []) (Some []) }
    ensures fault_and_read_on { (rest : List ℕ)
        → length rest ≡ 65_537
        → ¬ IsStopped false ScenarioFault.NotJson (Some (10 ∷ rest)) (Some []) (Some []) (Some []) }
    ensures other_fault { ¬ IsStopped false ScenarioFault.NotJson (Some (codes "1")) (Some [])
        (Some []) (Some []) }
    ensures unfinished_line_is_answered { (input : List ℕ) (output : List ℕ)
        → IsLine input
        → IsStopped false ScenarioFault.Read (Some input) (Some []) (Some []) (Some output)
        → output ≡ [] }
    ensures fault_is_answered { ¬ IsStopped false ScenarioFault.BadDocument (Some (codes "1"))
        (Some []) (Some []) (Some (codes "2")) }
    ensures long_line_is_answered { (first : List ℕ)
        → ¬ IsStopped false ScenarioFault.TooLong (Some first) (Some []) (Some [])
        (Some (codes "2")) }
    ensures unfinished_line_is_judged { ¬ IsStopped false ScenarioFault.BadDocument
        (Some (codes "12")) (Some (codes "2")) (Some []) (Some []) }
{}

/// Faults that may come in the midst of a dialogue.
pub fn late_faults()
    ensures read { IsLate late.Read }
    ensures write { IsLate late.Write }
    ensures memory { IsLate late.OutOfMemory }
    ensures caps { ¬ IsLate late.BadCaps }
{}

/// A session in its course: what it has read and answered, and what it keeps of the rest of a line.
#[tactic(auto, unfolding(serde_json::proofs::OnLiterals::serde_json_on_literals, dsa_scenario::specs::Worked::digits_on_literals))]
pub fn courses()
    ensures steps_and_lines { from_document
        ((Refuse no_command, unseen) ∷ (Ask Poll, seen (codes "idle")) ∷ [])
        (not_json ∷ [])
        ≡ Step (Refuse no_command) unseen ∷ Step (Ask Poll) (seen (codes "idle"))
        ∷ Ready 2 ∷ not_json ∷ [] }
    ensures opened { IsServing false (first_line []) [] (codes "ready 0\n") 0
        (running_at_first smallest_caps 9) [] 0 None [] }
    ensures not_told_to_be_taken { (number : ℕ) (now : Running) (tickets : List Ticket) (told : ℕ)
        (names : Names) (kept : List ℕ)
        → ¬ IsServing false (first_line []) [] [] number now tickets told names kept }
    ensures no_document { (output : List ℕ) (number : ℕ) (now : Running) (tickets : List Ticket)
        (told : ℕ) (names : Names) (kept : List ℕ)
        → ¬ IsServing false (codes "{}") [] output number now tickets told names kept }
    ensures bad_caps { (output : List ℕ) (number : ℕ) (now : Running) (tickets : List Ticket)
        (told : ℕ) (names : Names) (kept : List ℕ)
        → ¬ IsServing false (document_text no_caps_text (codes "9") []) [] output number now tickets
        told names kept }
    ensures answered_too_early { (output : List ℕ) (number : ℕ) (now : Running)
        (tickets : List Ticket) (told : ℕ) (names : Names) (kept : List ℕ)
        → IsServing false (first_line []) [] output number now tickets told names kept
        → output ≡ codes "ready 0\n" }
    ensures line_without_its_answer { (number : ℕ) (now : Running) (tickets : List Ticket)
        (told : ℕ) (names : Names) (kept : List ℕ)
        → ¬ IsServing false (first_line []) (codes "\n") (codes "ready 0\n") number now tickets told
        names kept }
    ensures kept { (behind : List ℕ) (output : List ℕ) (number : ℕ) (now : Running)
        (tickets : List Ticket) (told : ℕ) (names : Names) (kept : List ℕ)
        → IsLine behind
        → IsServing false (first_line []) behind output number now tickets told names kept
        → length kept ≡ min 1_048_577 (length behind) }
    ensures begun { (dialogue : Dialogue ℕ)
        → dialogue.session.number ≡ 0
        → dialogue.session.device ≡ running_at_first smallest_caps 9
        → dialogue.session.tickets.items ≡ []
        → dialogue.session.told ≡ 0
        → dialogue.session.names ≡ None
        → dialogue.kept.items ≡ []
        → IsInCourse false false (Some (line_of_text (first_line []))) (Some []) (Some [])
        (Some (codes "ready 0\n")) dialogue }
    ensures begun_with_no_document { (dialogue : Dialogue ℕ) (held : Option (List ℕ))
        (holds : Option (List ℕ))
        → ¬ IsInCourse false true (Some (codes "{}")) (Some []) held holds dialogue }
    ensures line_feed_in_the_first { (dialogue : Dialogue ℕ) (held : Option (List ℕ))
        (holds : Option (List ℕ))
        → ¬ IsInCourse false true (Some (line_of_text (first_line []))) (Some []) held holds
        dialogue }
    ensures too_long_first { (first : List ℕ) (dialogue : Dialogue ℕ) (held : Option (List ℕ))
        (holds : Option (List ℕ))
        → length first ≡ 1_048_577
        → ¬ IsInCourse false true (Some first) (Some []) held holds dialogue }
    ensures longest_first { (first output : List ℕ) (dialogue : Dialogue ℕ)
        → IsLine first
        → length first ≡ 1_048_576
        → IsServing false first [] output dialogue.session.number dialogue.session.device
        dialogue.session.tickets.items dialogue.session.told
        (own_names_of dialogue.session) dialogue.kept.items
        → IsInCourse false true (Some first) (Some []) (Some []) (Some output) dialogue }
    ensures written_too_early { (dialogue : Dialogue ℕ)
        → ¬ IsInCourse false true (Some (first_line [])) (Some []) (Some []) (Some (codes "1"))
        dialogue }
{}

/// What is answered before a line feed, at it, and at the end of input.
#[tactic(auto, unfolding(serde_json::proofs::OnLiterals::serde_json_on_literals, dsa_scenario::specs::Worked::digits_on_literals))]
pub fn answers_so_far()
    ensures longest { (input : List ℕ)
        → IsLine input
        → length input ≡ 1_048_576
        → AnswersSoFar false input [] }
    ensures unended { AnswersSoFar false (codes "[\n") [] }
    ensures whole_line { (output : List ℕ) → ¬ AnswersSoFar false (codes "1\n") output }
    ensures only_line { AnswersOnlyLine false (Some []) (first_line []) (codes "ready 0\n") }
    ensures more_to_read { (input : List ℕ) (output : List ℕ)
        → ¬ AnswersOnlyLine false (Some (codes "1")) input output }
{}
