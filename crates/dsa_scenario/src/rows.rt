//! Worked documents and lines: what the definitions answer at chosen values, by computation.

ghost use Rattle.std.specs.Prelude.{⊤, ◌≡◌, ◌≢◌, ◌^◌, ◌+◌, ◌++◌, [], ◌∷◌, ℕ, List, codes, flat_map, length, map, replicate, negsuc, Some, None, Ok, Err, true, false};
ghost use Rattle.serde_json.specs.Data.{negative, null, boolean, number, string, array, no_items, item, no_members};
ghost use Rattle.dsa_desc.specs.declared.Outcome.TheVariants.{Success, PageFault};
ghost use Rattle.dsa_regs.specs.declared.Command.TheVariants.{EnableDevice, EnableWq};
ghost use Rattle.dsa_regs.specs.declared.Fault.TheVariants.{Busy, BadIndex};
ghost use Rattle.dsa_book.specs.declared.answer.Cause.TheVariants.{AtLimit, NotEnabled, WrongKind};
ghost use Rattle.dsa_book.specs.declared.answer.ClearAnswer.TheVariants.{Cleared, Nothing, Full};
ghost use Rattle.dsa_book.specs.declared.answer.DispatchAnswer.TheVariants.{Taken, Idle, Full};
ghost use Rattle.dsa_book.specs.declared.answer.FetchAnswer.TheVariants.{Fetched, NoBatch, AllFetched, Full};
ghost use Rattle.dsa_book.specs.declared.answer.FinishAnswer.TheVariants.{Done, NotReady, Gone, Full};
ghost use Rattle.dsa_book.specs.declared.answer.IssueAnswer.TheVariants.{Ended, Active, Refused, Full};
ghost use Rattle.dsa_book.specs.declared.answer.PollAnswer.TheVariants.{Finished, Active, Nothing, Full};
ghost use Rattle.dsa_book.specs.declared.answer.Reply.TheVariants.{Submit, Dispatch, Fetch, Start, Finish, Issue, Poll, Write, Clear};
ghost use Rattle.dsa_book.specs.declared.answer.StartAnswer.TheVariants.{Started, FenceWait, NoBuffers, Abandoned, Nothing, Full};
ghost use Rattle.dsa_book.specs.declared.answer.SubmitAnswer.TheVariants.{Accepted, Retry, Dropped, Full};
ghost use Rattle.dsa_book.specs.declared.answer.WriteAnswer.TheVariants.{Written, Refused, Full};
ghost use Rattle.dsa_book.specs.declared.event.Event.TheVariants.{Submit, Dispatch, Fetch, Start, Finish, Issue, Poll, WriteQueue, WriteGroup, ClearError};
ghost use Rattle.dsa_book.specs.declared.event.Kind.TheVariants.{Enqcmd, Movdir64b};
ghost use Rattle.dsa_book.specs.declared.event.Portal.TheVariants.{Limited, Unlimited};
ghost use Rattle.dsa_book.specs.declared.fate.Fate.TheVariants.{Completed, Aborted, Abandoned};
ghost use Rattle.dsa_device.specs.Running.{running_at_first};
ghost use Rattle.dsa_scenario.specs.declared.actions.Action.TheVariants.{Ask, Finish, Refuse};
ghost use Rattle.dsa_scenario.specs.declared.actions.StepKind.TheVariants as kind;
ghost use Rattle.dsa_scenario.specs.declared.counted.CountedReader.{CountedReader};
ghost use Rattle.dsa_scenario.specs.declared.faults.ScenarioFault.{ScenarioFault};
ghost use Rattle.dsa_scenario.specs.declared.faults.ScenarioFault.TheVariants.{Read, TooLong, NotJson, BadDocument, BadStep, BadCaps, BadCapacity, Differs, Write, OutOfMemory};
ghost use Rattle.dsa_scenario.specs.declared.run.Record.TheVariants.{Refused};
ghost use Rattle.dsa_scenario.specs.declared.watched.WatchedWriter.{WatchedWriter};
ghost use Rattle.dsa_scenario.specs.declared.fields.Form.TheVariants as form;
ghost use Rattle.dsa_scenario.specs.Fields.{whole_of, truth_of, text_of, hex_bytes_of, reading_at};
ghost use Rattle.dsa_scenario.specs.Actions.{caps_of, kinds, kind_text, rows_of_kind, kind_named, names_text, kind_of, action_of};
ghost use Rattle.dsa_scenario.specs.Counted.{counted_remaining, asked_of, given_of, has_reader_failed};
ghost use Rattle.dsa_scenario.specs.Counted.{HasGiven, IsAskedFor, IsReadFor};
ghost use Rattle.dsa_scenario.specs.Document.{head_of, list_of_items, HasHead, IsBadAt, IsDocument, IsFaultOf, IsFirstBad, IsJson, IsOpenable};
ghost use Rattle.dsa_scenario.specs.Faults.{IsFaultNoted};
ghost use Rattle.dsa_scenario.specs.Lines.{reply_text, record_text, row_text, lines_of_run};
ghost use Rattle.dsa_scenario.specs.Run.{ticket_of_name, event_of, steps_of_records, AreLinesOf, AreOf};
ghost use Rattle.dsa_scenario.specs.Scenario.{HasFault, IsCutShort, IsRenderingOf, IsTextCutShort, IsTextWritten, IsWholeDocument};
ghost use Rattle.dsa_scenario.specs.Steps.{line_of_step, standing, visit, visits, AreLinesOfSteps, IsAtFirst, IsTextOfDocument, IsTextOfRun, IsWalkTo};
ghost use Rattle.dsa_scenario.specs.Streams.{IsPageOfRest, BeginWith, HasWalked, IsPartWritten, IsTextAdded, IsTextCut, HasTakenLines, HasRefusedLines, AreFirstLines, AreLinesOfStart, IsTextBegun};
ghost use Rattle.dsa_scenario.specs.Watched.{watched_contents, has_refused, is_closed, IsWrittenFor};
ghost use Rattle.dsa_scenario.specs.Worked.{bad_word, no_command};
ghost use Rattle.dsa_scenario.specs.Worked.{two_polls, actions_of_a_run, actions_of_a_submission, caps_of_a_run, no_caps, poll_text, records_of_a_submission, running_with_fates, smallest_caps, stepless_text, lines_of_a_run, whole, read_number, fate, smallest_caps_text, no_caps_text, document_text, object_of, changed, texts, takes, refuses, needs_each, are_below, is_truth, is_text, some_caps, caps_in_fields, some_document, queue_step, queue_in_fields, group_step, fill_text, fill, enqcmd_step, movdir_step, dispatch_step, fetch_step, start_step, finish_step, command_step, poll_step, clear_step, record_ticket, stepped, accepted, record_of_a_fetch};

/// Numbers are whole, without sign, and below the limit of their field; the key stands in an
/// object.
pub fn numbers()
    ensures zero { whole_of (2 ^ 8) (codes "n") (object_of ((codes "n", whole 0) ∷ [])) ≡ Some 0 }
    ensures below { whole_of (2 ^ 8) (codes "n") (object_of ((codes "n", whole 255) ∷ []))
        ≡ Some 255 }
    ensures at { whole_of (2 ^ 8) (codes "n") (object_of ((codes "n", whole 256) ∷ [])) ≡ None }
    ensures above { whole_of (2 ^ 8) (codes "n") (object_of ((codes "n", whole 257) ∷ [])) ≡ None }
    ensures negative { whole_of (2 ^ 8) (codes "n")
        (object_of ((codes "n", number (negative (negsuc 0))) ∷ []))
        ≡ None }
    ensures text { whole_of (2 ^ 8) (codes "n") (object_of ((codes "n", string (codes "1")) ∷ []))
        ≡ None }
    ensures truth { whole_of (2 ^ 8) (codes "n") (object_of ((codes "n", boolean true) ∷ []))
        ≡ None }
    ensures other_key { whole_of (2 ^ 8) (codes "n") (object_of ((codes "N", whole 1) ∷ []))
        ≡ None }
    ensures no_object { whole_of (2 ^ 8) (codes "n") (whole 1) ≡ None }
{}

/// Truth values and texts are read as they stand, and nothing else is.
pub fn truth_values_and_texts()
    ensures yes { truth_of (codes "b") (object_of ((codes "b", boolean true) ∷ [])) ≡ Some true }
    ensures no { truth_of (codes "b") (object_of ((codes "b", boolean false) ∷ [])) ≡ Some false }
    ensures no_truth { truth_of (codes "b") (object_of ((codes "b", whole 1) ∷ [])) ≡ None }
    ensures text { text_of (codes "t") (object_of ((codes "t", string (codes "yes")) ∷ []))
        ≡ Some (codes "yes") }
    ensures no_text { text_of (codes "t") (object_of ((codes "t", whole 1) ∷ [])) ≡ None }
{}

/// As JSON, a number has no fraction, exponent or sign, and of a key that comes twice the last
/// value counts.
#[tactic(auto, unfolding(serde_json::proofs::OnLiterals::serde_json_on_literals))]
pub fn numbers_in_json()
    ensures whole { read_number (codes "{\"n\": 7}") ≡ Some 7 }
    ensures fraction { read_number (codes "{\"n\": 7.0}") ≡ None }
    ensures exponent { read_number (codes "{\"n\": 7e0}") ≡ None }
    ensures negative { read_number (codes "{\"n\": -7}") ≡ None }
    ensures twice { read_number (codes "{\"n\": 7, \"n\": 8}") ≡ Some 8 }
    ensures twice_and_no_number { read_number (codes "{\"n\": 7, \"n\": null}") ≡ None }
{}

/// Two hexadecimal digits are a byte, in either case.
#[tactic(auto, unfolding(hex::proofs::OnLiterals::hex_on_literals))]
pub fn hex_digits()
    ensures none { hex_bytes_of [] ≡ Some (replicate 64 0) }
    ensures lower { hex_bytes_of (codes "0a9f") ≡ Some (0x0a ∷ 0x9f ∷ replicate 62 0) }
    ensures byte { hex_bytes_of (codes "1f") ≡ Some (0x1f ∷ replicate 63 0) }
    ensures upper { hex_bytes_of (codes "A0F9") ≡ Some (0xa0 ∷ 0xf9 ∷ replicate 62 0) }
    ensures odd { hex_bytes_of (codes "0a9") ≡ None }
    ensures below_digits { hex_bytes_of (codes "0/") ≡ None }
    ensures above_digits { hex_bytes_of (codes "0:") ≡ None }
    ensures above_letters { hex_bytes_of (codes "0g") ≡ None }
    ensures space { hex_bytes_of (codes " 0") ≡ None }
{}

/// At most 128 digits are the bytes of a descriptor.
#[tactic(auto, unfolding(hex::proofs::OnLiterals::hex_on_literals))]
pub fn hex_lengths()
    ensures below { hex_bytes_of (replicate 126 49) ≡ Some (replicate 63 0x11 ++ 0 ∷ []) }
    ensures most { hex_bytes_of (replicate 128 49) ≡ Some (replicate 64 0x11) }
    ensures odd { hex_bytes_of (replicate 127 49) ≡ None }
    ensures above { hex_bytes_of (replicate 130 49) ≡ None }
{}

/// The capabilities, each in a field of its own.
pub fn caps_fields()
    ensures read { caps_of (object_of some_caps) ≡ Some caps_in_fields }
    ensures needed { needs_each caps_of some_caps ≡ true }
    ensures counts { are_below caps_of some_caps (2 ^ 16)
        (codes "queues"
        ∷ codes "groups"
        ∷ codes "engines"
        ∷ codes "total_size"
        ∷ codes "read_buffers"
        ∷ codes "slots"
        ∷ [])
        ≡ true }
    ensures shifts { are_below caps_of some_caps (2 ^ 8)
        (codes "max_batch_shift" ∷ codes "max_xfer_shift" ∷ [])
        ≡ true }
{}

/// The three keys of a document. Others are ignored.
pub fn document_fields()
    ensures read { head_of (object_of some_document)
        ≡ Some (caps_in_fields, 9, item (whole 1) no_items) }
    ensures more { head_of (object_of ((codes "more", null) ∷ some_document))
        ≡ head_of (object_of some_document) }
    ensures needed { needs_each head_of some_document ≡ true }
    ensures capacity { are_below head_of some_document (2 ^ 64) (codes "capacity" ∷ []) ≡ true }
    ensures steps { takes head_of some_document (codes "steps") (array no_items ∷ []) ≡ true }
    ensures no_steps { refuses head_of some_document (codes "steps")
        (null ∷ object_of [] ∷ whole 0 ∷ texts)
        ≡ true }
    ensures no_caps { refuses head_of some_document (codes "caps")
        (null ∷ array no_items ∷ whole 0 ∷ texts)
        ≡ true }
    ensures bare { head_of (array no_items) ≡ None }
    ensures order { list_of_items (item (whole 1) (item (whole 2) no_items))
        ≡ whole 1 ∷ whole 2 ∷ [] }
{}

/// A write of a queue's configuration.
pub fn queue_steps()
    ensures read { action_of (object_of queue_step) ≡ Some (Ask (WriteQueue 1 queue_in_fields)) }
    ensures needed { needs_each action_of queue_step ≡ true }
    ensures counts { are_below action_of queue_step (2 ^ 16)
        (codes "queue" ∷ codes "size" ∷ codes "threshold" ∷ [])
        ≡ true }
    ensures small { are_below action_of queue_step (2 ^ 8)
        (codes "priority" ∷ codes "batch" ∷ codes "xfer" ∷ [])
        ≡ true }
    ensures pasid { are_below action_of queue_step (2 ^ 32) (codes "pasid" ∷ []) ≡ true }
    ensures dedicated { is_truth action_of queue_step (codes "dedicated") ≡ true }
{}

/// A write of a group's configuration.
pub fn group_steps()
    ensures read { action_of (object_of group_step)
        ≡ Some
        (Ask (WriteGroup 1 (record { queues = 2; engines = 3; reserved = 4; allowed = 5 }))) }
    ensures needed { needs_each action_of group_step ≡ true }
    ensures counts { are_below action_of group_step (2 ^ 16)
        (codes "group" ∷ codes "reserved" ∷ codes "allowed" ∷ [])
        ≡ true }
    ensures sets { are_below action_of group_step (2 ^ 64) (codes "queues" ∷ codes "engines" ∷ [])
        ≡ true }
{}

/// A submission by ENQCMD.
#[tactic(auto, unfolding(hex::proofs::OnLiterals::hex_on_literals))]
pub fn enqcmd_steps()
    ensures limited { action_of (object_of enqcmd_step)
        ≡ Some (Ask (Submit 1 2 Limited (Enqcmd 3) fill)) }
    ensures unlimited { action_of (changed (codes "limited") (boolean false) enqcmd_step)
        ≡ Some (Ask (Submit 1 2 Unlimited (Enqcmd 3) fill)) }
    ensures needed { needs_each action_of enqcmd_step ≡ true }
    ensures counts { are_below action_of enqcmd_step (2 ^ 16) (codes "client" ∷ codes "queue" ∷ [])
        ≡ true }
    ensures pasid { are_below action_of enqcmd_step (2 ^ 32) (codes "pasid" ∷ []) ≡ true }
    ensures portal { is_truth action_of enqcmd_step (codes "limited") ≡ true }
    ensures desc { is_text action_of enqcmd_step fill_text (codes "desc") ≡ true }
    ensures bad_desc { refuses action_of enqcmd_step (codes "desc")
        (string (codes "0") ∷ string (codes "0x") ∷ [])
        ≡ true }
{}

/// A submission by MOVDIR64B, which names no PASID.
#[tactic(auto, unfolding(hex::proofs::OnLiterals::hex_on_literals))]
pub fn movdir_steps()
    ensures unlimited { action_of (object_of movdir_step)
        ≡ Some (Ask (Submit 1 2 Unlimited Movdir64b fill)) }
    ensures limited { action_of (changed (codes "limited") (boolean true) movdir_step)
        ≡ Some (Ask (Submit 1 2 Limited Movdir64b fill)) }
    ensures needed { needs_each action_of movdir_step ≡ true }
    ensures counts { are_below action_of movdir_step (2 ^ 16) (codes "client" ∷ codes "queue" ∷ [])
        ≡ true }
    ensures portal { is_truth action_of movdir_step (codes "limited") ≡ true }
    ensures desc { is_text action_of movdir_step fill_text (codes "desc") ≡ true }
{}

/// What engines do.
#[tactic(auto, unfolding(hex::proofs::OnLiterals::hex_on_literals))]
pub fn engine_steps()
    ensures dispatch { action_of (object_of dispatch_step) ≡ Some (Ask (Dispatch 1)) }
    ensures fetch { action_of (object_of fetch_step) ≡ Some (Ask (Fetch 1 fill)) }
    ensures start { action_of (object_of start_step) ≡ Some (Ask (Start 1)) }
    ensures finish { action_of (object_of finish_step) ≡ Some (Finish 1 2 PageFault) }
    ensures finish_well { action_of (changed (codes "fault") (boolean false) finish_step)
        ≡ Some (Finish 1 2 Success) }
    ensures needed { map (needs_each action_of)
        (dispatch_step ∷ fetch_step ∷ start_step ∷ finish_step ∷ [])
        ≡ replicate 4 true }
    ensures engines { map (λ step. are_below action_of step (2 ^ 16) (codes "engine" ∷ []))
        (dispatch_step ∷ fetch_step ∷ start_step ∷ finish_step ∷ [])
        ≡ replicate 4 true }
    ensures name { are_below action_of finish_step (2 ^ 32) (codes "name" ∷ []) ≡ true }
    ensures fault { is_truth action_of finish_step (codes "fault") ≡ true }
    ensures desc { is_text action_of fetch_step fill_text (codes "desc") ≡ true }
{}

/// What the administrator does beside writes. A word that is no command is refused.
pub fn admin_steps()
    ensures command { action_of (object_of command_step) ≡ Some (Ask (Issue (EnableWq 2))) }
    ensures no_command { action_of (changed (codes "word") (whole 0) command_step)
        ≡ Some (Refuse no_command) }
    ensures thirty_one { action_of (changed (codes "word") (whole 0x1f00005) command_step)
        ≡ Some (Refuse (bad_word 0x1f00005)) }
    ensures poll { action_of (object_of poll_step) ≡ Some (Ask Poll) }
    ensures clear { action_of (object_of clear_step) ≡ Some (Ask ClearError) }
    ensures needed { map (needs_each action_of) (command_step ∷ poll_step ∷ clear_step ∷ [])
        ≡ replicate 3 true }
    ensures word { are_below action_of command_step (2 ^ 32) (codes "word" ∷ []) ≡ true }
{}

/// No other text says what a step is, and no other value.
pub fn kinds_of_steps()
    ensures kind { is_text action_of poll_step (codes "poll") (codes "do") ≡ true }
    ensures others { refuses action_of poll_step (codes "do")
        (map string
        (codes "" ∷ codes "Poll" ∷ codes "pol" ∷ codes "polls" ∷ codes "reset" ∷ []))
        ≡ true }
    ensures fields_of_another { action_of (changed (codes "do") (string (codes "start")) poll_step)
        ≡ None }
    ensures more { action_of (object_of ((codes "engine", null) ∷ poll_step)) ≡ Some (Ask Poll) }
    ensures no_object { action_of (string (codes "poll")) ≡ None }
{}

/// Names of kinds, and objects that name one.
pub fn names_of_kinds()
    ensures named { kind_named (codes "enqcmd") ≡ Some kind.Enqcmd }
    ensures longer { kind_named (codes "polls") ≡ None }
    ensures capital { kind_named (codes "Poll") ≡ None }
    ensures empty { kind_named [] ≡ None }
    ensures step { kind_of (object_of poll_step) ≡ Some kind.Poll }
    ensures number { kind_of (object_of ((codes "do", whole 1) ∷ [])) ≡ None }
    ensures no_object { kind_of (string (codes "poll")) ≡ None }
    ensures in_words { names_text kinds
        ≡ codes "queue, group, enqcmd, movdir, dispatch, fetch, start, finish, command, poll "
        ++ codes "and clear" }
    ensures one { names_text (kind.Poll ∷ []) ≡ codes "poll" }
    ensures none { names_text [] ≡ [] }
{}

/// All kinds of steps with their names, and the keys of each.
pub fn tables_of_steps()
    ensures kinds { kinds
        ≡ kind.Queue ∷ kind.Group ∷ kind.Enqcmd ∷ kind.Movdir ∷ kind.Dispatch ∷ kind.Fetch
        ∷ kind.Start ∷ kind.Finish ∷ kind.Command ∷ kind.Poll ∷ kind.Clear ∷ [] }
    ensures names { map kind_text kinds
        ≡ codes "queue" ∷ codes "group" ∷ codes "enqcmd" ∷ codes "movdir" ∷ codes "dispatch"
        ∷ codes "fetch" ∷ codes "start" ∷ codes "finish" ∷ codes "command" ∷ codes "poll"
        ∷ codes "clear" ∷ [] }
    ensures queue { rows_of_kind kind.Queue
        ≡ (codes "queue", form.Whole 0 65535) ∷ (codes "size", form.Whole 0 65535)
        ∷ (codes "threshold", form.Whole 0 65535) ∷ (codes "dedicated", form.Truth)
        ∷ (codes "priority", form.Whole 0 255) ∷ (codes "pasid", form.Whole 0 4294967295)
        ∷ (codes "batch", form.Whole 0 255) ∷ (codes "xfer", form.Whole 0 255) ∷ [] }
    ensures group { rows_of_kind kind.Group
        ≡ (codes "group", form.Whole 0 65535) ∷ (codes "queues", form.Whole 0 18446744073709551615)
        ∷ (codes "engines", form.Whole 0 18446744073709551615)
        ∷ (codes "reserved", form.Whole 0 65535) ∷ (codes "allowed", form.Whole 0 65535) ∷ [] }
    ensures enqcmd { rows_of_kind kind.Enqcmd
        ≡ (codes "client", form.Whole 0 65535) ∷ (codes "queue", form.Whole 0 65535)
        ∷ (codes "limited", form.Truth) ∷ (codes "pasid", form.Whole 0 4294967295)
        ∷ (codes "desc", form.Digits) ∷ [] }
    ensures movdir { rows_of_kind kind.Movdir
        ≡ (codes "client", form.Whole 0 65535) ∷ (codes "queue", form.Whole 0 65535)
        ∷ (codes "limited", form.Truth) ∷ (codes "desc", form.Digits) ∷ [] }
    ensures engines { map rows_of_kind
        (kind.Dispatch ∷ kind.Fetch ∷ kind.Start ∷ kind.Finish ∷ [])
        ≡ ((codes "engine", form.Whole 0 65535) ∷ [])
        ∷ ((codes "engine", form.Whole 0 65535) ∷ (codes "desc", form.Digits) ∷ [])
        ∷ ((codes "engine", form.Whole 0 65535) ∷ [])
        ∷ ((codes "engine", form.Whole 0 65535) ∷ (codes "name", form.Whole 0 4294967295)
        ∷ (codes "fault", form.Truth) ∷ [])
        ∷ [] }
    ensures administrator { map rows_of_kind (kind.Command ∷ kind.Poll ∷ kind.Clear ∷ [])
        ≡ ((codes "word", form.Whole 0 4294967295) ∷ []) ∷ [] ∷ [] ∷ [] }
{}

/// What is read at a key, by each form.
pub fn readings()
    ensures whole { map
        (λ n. reading_at (form.Whole 3 9) (codes "n") (object_of ((codes "n", whole n) ∷ [])))
        (0 ∷ 2 ∷ 3 ∷ 9 ∷ 10 ∷ [])
        ≡ None ∷ None ∷ Some 3 ∷ Some 9 ∷ None ∷ [] }
    ensures bounded { map
        (λ n. reading_at (form.Bounded 9 3 5) (codes "n") (object_of ((codes "n", whole n) ∷ [])))
        (0 ∷ 9 ∷ 10 ∷ [])
        ≡ Some 0 ∷ Some 9 ∷ None ∷ [] }
    ensures truth { reading_at form.Truth (codes "fault") (object_of finish_step) ≡ Some true }
    ensures no_truth { reading_at form.Truth (codes "engine") (object_of finish_step) ≡ None }
    ensures text { reading_at form.Text (codes "do") (object_of poll_step) ≡ Some (codes "poll") }
    ensures array { reading_at form.Array (codes "a") (object_of ((codes "a", array no_items) ∷ []))
        ≡ Some no_items }
    ensures object { reading_at form.Object (codes "o") (object_of ((codes "o", object_of []) ∷ []))
        ≡ Some no_members }
    ensures other_key { reading_at form.Text (codes "Do") (object_of poll_step) ≡ None }
{}

/// The lines of submissions.
#[tactic(auto, unfolding(crate::specs::Worked::digits_on_literals))]
pub fn submission_lines()
    ensures accepted { reply_text (Submit (Accepted (record_ticket 7 12))) ≡ codes "accepted 12" }
    ensures at_limit { reply_text (Submit (Retry AtLimit)) ≡ codes "retry at-limit" }
    ensures not_enabled { reply_text (Submit (Retry NotEnabled)) ≡ codes "retry not-enabled" }
    ensures wrong_kind { reply_text (Submit (Retry WrongKind)) ≡ codes "retry wrong-kind" }
    ensures dropped { reply_text (Submit (Dropped AtLimit)) ≡ codes "dropped at-limit" }
    ensures full { reply_text (Submit Full) ≡ codes "full" }
{}

/// The lines of what engines do.
#[tactic(auto, unfolding(crate::specs::Worked::digits_on_literals))]
pub fn engine_lines()
    ensures taken { reply_text (Dispatch (Taken (record_ticket 7 12) 3)) ≡ codes "taken 12 from 3" }
    ensures idle { reply_text (Dispatch Idle) ≡ codes "idle" }
    ensures fetched { reply_text (Fetch (Fetched (record_ticket 7 12))) ≡ codes "fetched 12" }
    ensures no_batch { reply_text (Fetch NoBatch) ≡ codes "no-batch" }
    ensures all_fetched { reply_text (Fetch AllFetched) ≡ codes "all-fetched" }
    ensures started { reply_text (Start (Started (record_ticket 7 12))) ≡ codes "started 12" }
    ensures fence_wait { reply_text (Start FenceWait) ≡ codes "fence-wait" }
    ensures no_buffers { reply_text (Start NoBuffers) ≡ codes "no-buffers" }
    ensures abandoned { reply_text (Start (Abandoned 3)) ≡ codes "abandoned 3" }
    ensures nothing { reply_text (Start Nothing) ≡ codes "nothing" }
    ensures done { map (λ status. reply_text (Finish (Done status))) (0x01 ∷ 0x1a ∷ 0xa1 ∷ [])
        ≡ codes "done 01" ∷ codes "done 1a" ∷ codes "done a1" ∷ [] }
    ensures not_ready { reply_text (Finish NotReady) ≡ codes "not-ready" }
    ensures gone { reply_text (Finish Gone) ≡ codes "gone" }
    ensures full { map reply_text (Dispatch Full ∷ Fetch Full ∷ Start Full ∷ Finish Full ∷ [])
        ≡ replicate 4 (codes "full") }
{}

/// The lines of what the administrator does.
#[tactic(auto, unfolding(crate::specs::Worked::digits_on_literals))]
pub fn admin_lines()
    ensures ended { reply_text (Issue (Ended 3)) ≡ codes "ended 3" }
    ensures active { reply_text (Issue Active) ≡ codes "active" }
    ensures refused { reply_text (Issue (Refused Busy)) ≡ codes "refused 17 Busy" }
    ensures finished { reply_text (Poll Finished) ≡ codes "finished" }
    ensures still_active { reply_text (Poll Active) ≡ codes "active" }
    ensures no_command { reply_text (Poll Nothing) ≡ codes "nothing" }
    ensures written { reply_text (Write Written) ≡ codes "written" }
    ensures not_written { reply_text (Write (Refused BadIndex)) ≡ codes "refused 20 BadIndex" }
    ensures cleared { reply_text
        (Clear (Cleared (record { queue = 3; cause = WrongKind; overflow = false })))
        ≡ codes "cleared 3 wrong-kind" }
    ensures overflow { reply_text
        (Clear (Cleared (record { queue = 3; cause = AtLimit; overflow = true })))
        ≡ codes "cleared 3 at-limit overflow" }
    ensures not_noted { reply_text (Clear Nothing) ≡ codes "nothing" }
    ensures full { map reply_text (Issue Full ∷ Poll Full ∷ Write Full ∷ Clear Full ∷ [])
        ≡ replicate 4 (codes "full") }
{}

/// The lines of fates, with the name of the batch for a member.
#[tactic(auto, unfolding(crate::specs::Worked::digits_on_literals))]
pub fn fate_lines()
    ensures completed { row_text (record { name = 12; parent = None; fate = Completed 0x13 })
        ≡ codes "fate 12 - completed 13" }
    ensures member { row_text (record { name = 12; parent = Some 3; fate = Completed 0x01 })
        ≡ codes "fate 12 3 completed 01" }
    ensures aborted { row_text (record { name = 12; parent = None; fate = Aborted 12 })
        ≡ codes "fate 12 - aborted 12" }
    ensures abandoned { row_text (record { name = 12; parent = Some 0; fate = Abandoned })
        ≡ codes "fate 12 0 abandoned" }
{}

/// A line for each record in order, and then for each fate in order.
#[tactic(auto, unfolding(crate::specs::Worked::digits_on_literals))]
pub fn lines_in_order()
    ensures none { lines_of_run [] [] ≡ [] }
    ensures refused { record_text (Refused (record { word = 5; fault = Busy }))
        ≡ codes "refused 17 Busy" }
    ensures records { lines_of_run (accepted (record_ticket 7 0) ∷ Refused no_command ∷ []) []
        ≡ codes "accepted 0\nrefused 13 BadCommand\n" }
    ensures fates { lines_of_run [] (fate 1 Abandoned ∷ fate 0 (Completed 1) ∷ [])
        ≡ codes "fate 1 - abandoned\nfate 0 - completed 01\n" }
    ensures both { lines_of_run (accepted (record_ticket 7 0) ∷ []) (fate 1 Abandoned ∷ [])
        ≡ codes "accepted 0\nfate 1 - abandoned\n" }
{}

/// A name stands for the first ticket that gave it, of a submission or of a member; a name that was
/// not given for cell 0.
pub fn tickets()
    ensures submitted { ticket_of_name (accepted (record_ticket 7 12) ∷ []) 12
        ≡ record_ticket 7 12 }
    ensures member { ticket_of_name (record_of_a_fetch (record_ticket 7 12) ∷ []) 12
        ≡ record_ticket 7 12 }
    ensures among_others { ticket_of_name
        (accepted (record_ticket 5 0)
        ∷ Refused no_command
        ∷ record_of_a_fetch (record_ticket 6 1)
        ∷ accepted (record_ticket 7 2)
        ∷ [])
        1
        ≡ record_ticket 6 1 }
    ensures first { ticket_of_name
        (accepted (record_ticket 5 0) ∷ accepted (record_ticket 6 0) ∷ []) 0
        ≡ record_ticket 5 0 }
    ensures not_given { ticket_of_name (accepted (record_ticket 5 0) ∷ []) 3 ≡ record_ticket 0 3 }
    ensures started { ticket_of_name
        (stepped (Start 1) (Start (Started (record_ticket 7 12))) ∷ []) 12
        ≡ record_ticket 0 12 }
    ensures taken { ticket_of_name
        (stepped (Dispatch 1) (Dispatch (Taken (record_ticket 7 12) 3)) ∷ []) 12
        ≡ record_ticket 0 12 }
{}

/// What an action asks of the device. A refused word asks nothing.
pub fn events()
    ensures ask { event_of [] (Ask Poll) ≡ Ok Poll }
    ensures finish { event_of (accepted (record_ticket 7 12) ∷ []) (Finish 1 12 PageFault)
        ≡ Ok (Finish 1 (record_ticket 7 12) PageFault) }
    ensures finish_unknown { event_of (accepted (record_ticket 7 12) ∷ []) (Finish 1 2 Success)
        ≡ Ok (Finish 1 (record_ticket 0 2) Success) }
    ensures refuse { event_of [] (Refuse (bad_word 7)) ≡ Err (bad_word 7) }
    ensures steps { steps_of_records
        (Refused no_command ∷ stepped Poll (Poll Nothing) ∷ Refused no_command ∷ [])
        ≡ record { event = Poll; reply = Poll Nothing } ∷ [] }
{}

/// Records that answer actions, each after those before it in their order.
pub fn records_of_actions()
    ensures first_ticket { AreOf []
        (Ask (Submit 0 0 Limited Movdir64b fill)
        ∷ Ask (Submit 0 0 Limited Movdir64b fill)
        ∷ Finish 0 0 Success
        ∷ [])
        (accepted (record_ticket 5 0)
        ∷ accepted (record_ticket 6 0)
        ∷ stepped (Finish 0 (record_ticket 5 0) Success) (Finish NotReady)
        ∷ []) }
    ensures another_second { ¬ AreOf [] (Refuse (bad_word 1) ∷ Refuse (bad_word 1) ∷ [])
        (Refused (bad_word 1) ∷ Refused (bad_word 2) ∷ []) }
{}

/// A device before its first step.
pub fn devices_at_first()
    ensures new { IsAtFirst smallest_caps 9 (running_at_first smallest_caps 9) [] }
    ensures another_device { ¬ IsAtFirst smallest_caps 9 (running_at_first smallest_caps 8) [] }
    ensures no_device { ¬ IsAtFirst no_caps 9 (running_at_first no_caps 9) [] }
    ensures a_ticket { ¬ IsAtFirst smallest_caps 9 (running_at_first smallest_caps 9)
        (record_ticket 3 0 ∷ []) }
{}

/// The steps of a run have the history so far, and a line each, and then each fate has one.
#[tactic(auto, unfolding(crate::specs::Worked::digits_on_literals))]
pub fn steps_of_a_run()
    ensures histories { map (λ step. step.after.history)
        (visits smallest_caps 9 []
        (stepped (Issue EnableDevice) (Issue (Ended 0)) ∷ stepped Poll (Poll Finished) ∷ []))
        ≡ (record { event = Issue EnableDevice; reply = Issue (Ended 0) } ∷ [])
        ∷ (record { event = Issue EnableDevice; reply = Issue (Ended 0) }
        ∷ record { event = Poll; reply = Poll Finished }
        ∷ [])
        ∷ [] }
    ensures lines { AreLinesOfSteps
        (visit 0 (running_at_first smallest_caps 9) (Refused no_command)
        (running_at_first smallest_caps 9)
        ∷ visit 1 (running_at_first smallest_caps 9) (accepted (record_ticket 7 3))
        (running_at_first smallest_caps 9)
        ∷ [])
        (running_with_fates (fate 1 Abandoned ∷ fate 0 (Completed 1) ∷ []))
        (codes "refused 13 BadCommand\naccepted 3\nfate 1 - abandoned\nfate 0 - completed 01\n") }
{}

/// A walk, and what is none: other actions, another number, another device, one with memory for
/// fewer steps, one that began anew, one that cannot be, a ticket of another name, and another
/// page.
pub fn walks()
    ensures walk { IsWalkTo {Page = ℕ} (λ steps page. page ≡ length steps) caps_of_a_run 7
        actions_of_a_submission 6 (standing caps_of_a_run 7 records_of_a_submission)
        (record_ticket 3 0 ∷ []) 6 }
    ensures no_record { ¬ IsWalkTo {Page = ℕ} (λ steps page. ⊤) smallest_caps 9 (Ask Poll ∷ []) 0
        (running_at_first smallest_caps 9) [] 0 }
    ensures another_number { ¬ IsWalkTo {Page = ℕ} (λ steps page. ⊤) smallest_caps 9 [] 1
        (running_at_first smallest_caps 9) [] 0 }
    ensures another_device { ¬ IsWalkTo {Page = ℕ} (λ steps page. ⊤) smallest_caps 9 [] 0
        (running_at_first smallest_caps 8) [] 0 }
    ensures another_room { ¬ IsWalkTo {Page = ℕ} (λ steps page. ⊤) smallest_caps 9 [] 0
        (record (running_at_first smallest_caps 9) { room = 8 }) [] 0 }
    ensures anew { ¬ IsWalkTo {Page = ℕ} (λ steps page. ⊤) smallest_caps 9 [] 0
        (record (running_at_first smallest_caps 9) { anew = true }) [] 0 }
    ensures no_device { ¬ IsWalkTo {Page = ℕ} (λ steps page. ⊤) no_caps 9 [] 0
        (running_at_first no_caps 9) [] 0 }
    ensures another_name { ¬ IsWalkTo {Page = ℕ} (λ steps page. ⊤) caps_of_a_run 7
        actions_of_a_submission 6 (standing caps_of_a_run 7 records_of_a_submission)
        (record_ticket 3 7 ∷ []) 0 }
    ensures another_page { ¬ IsWalkTo {Page = ℕ} (λ steps page. page ≡ length steps) smallest_caps 9
        [] 0 (running_at_first smallest_caps 9) [] 1 }
{}

/// Lines and texts that are of no run: without a line of a step, with an answer that may not come,
/// and with a fate that did not come.
#[tactic(auto, unfolding(crate::specs::Worked::digits_on_literals))]
pub fn texts_of_no_run()
    ensures no_line { ¬ AreLinesOf smallest_caps 9 (Ask Poll ∷ []) [] }
    ensures no_answer { ¬ AreLinesOf smallest_caps 0 (Ask Poll ∷ []) (codes "nothing\n") }
    ensures no_fate { ¬ AreLinesOf smallest_caps 9 [] (codes "fate 0 - abandoned\n") }
    ensures text { IsTextOfRun AreLinesOfSteps smallest_caps 9 (Ask Poll ∷ [])
        (codes "nothing\n") }
    ensures no_step { ¬ IsTextOfRun (λ steps last text. text ≡ flat_map line_of_step steps)
        smallest_caps 9 (Ask Poll ∷ []) [] }
    ensures no_such_step { ¬ IsTextOfRun (λ steps last text. text ≡ flat_map line_of_step steps)
        smallest_caps 0 (Ask Poll ∷ []) (codes "nothing\n") }
{}

/// What may be opened: the largest capacity, one above it, and no capabilities.
pub fn what_may_be_opened()
    ensures largest { IsOpenable smallest_caps 1_048_576 }
    ensures too_large { ¬ IsOpenable smallest_caps 1_048_577 }
    ensures no_device { ¬ IsOpenable no_caps 9 }
{}

/// The first object that is no step.
pub fn bad_steps()
    ensures second { IsFirstBad (object_of poll_step ∷ whole 1 ∷ []) (BadStep 1) }
    ensures no_first { ¬ IsBadAt (whole 1 ∷ whole 2 ∷ []) 1 }
    ensures a_step { ¬ IsBadAt (object_of poll_step ∷ []) 0 }
    ensures none { ¬ IsBadAt [] 0 }
{}

/// Documents that are read as others, or not at all, and what is made of them.
#[tactic(auto, unfolding(serde_json::proofs::OnLiterals::serde_json_on_literals))]
pub fn other_documents()
    ensures another_value { ¬ IsJson (codes "1") (whole 2) }
    ensures no_utf8 { IsFaultOf (34 ∷ 255 ∷ 34 ∷ []) NotJson }
    ensures no_utf8_in_json { ¬ IsJson (34 ∷ 255 ∷ 34 ∷ []) (string (255 ∷ [])) }
    ensures no_keys { ¬ HasHead (codes "1") smallest_caps 9 [] }
    ensures another_capacity { ¬ HasHead (stepless_text (codes "9")) smallest_caps 8 [] }
    ensures no_steps { ¬ HasHead (stepless_text (codes "9")) smallest_caps 9 (whole 1 ∷ []) }
    ensures no_document { ¬ IsDocument (codes "1") smallest_caps 9 [] }
    ensures no_action { ¬ IsDocument (stepless_text (codes "9")) smallest_caps 9 (Ask Poll ∷ []) }
    ensures not_bad { ¬ IsFaultOf (stepless_text (codes "9")) BadDocument }
    ensures rendering { IsRenderingOf poll_text (codes "nothing\n") }
    ensures not_rendered { ¬ IsRenderingOf (codes "1") [] }
    ensures not_opened { ¬ IsRenderingOf (stepless_text (codes "1048577")) [] }
    ensures cut { IsCutShort (Some poll_text) (Some []) (Some (codes "x")) (Some (codes "xnot")) }
    ensures other_bytes { ¬ IsCutShort (Some poll_text) (Some []) (Some (codes "x")) (Some []) }
    ensures more_left { ¬ IsCutShort (Some poll_text) (Some (codes "c")) (Some (codes "x"))
        (Some (codes "xnot")) }
    ensures none_cut { ¬ IsCutShort (Some (codes "1")) (Some []) (Some (codes "x"))
        (Some (codes "x")) }
    ensures all_written { ¬ IsCutShort (Some (stepless_text (codes "9"))) (Some [])
        (Some (codes "x")) (Some (codes "x")) }
    ensures no_text { ¬ IsTextOfDocument (λ steps last text. ⊤) (codes "1") [] }
    ensures text_not_opened { ¬ IsTextOfDocument (λ steps last text. ⊤)
        (stepless_text (codes "1048577")) [] }
    ensures another_text { ¬ IsTextOfDocument (λ steps last text. text ≢ text)
        (stepless_text (codes "9")) [] }
    ensures no_lines_begun { ¬ AreLinesOfStart line_of_step (codes "1") [] }
    ensures not_opened_to_begin { ¬ AreLinesOfStart line_of_step
        (stepless_text (codes "1048577")) [] }
{}

/// A document without a fault, and with the greatest capacity.
#[tactic(auto, unfolding(serde_json::proofs::OnLiterals::serde_json_on_literals))]
pub fn documents_that_run()
    ensures no_steps { IsRenderingOf (document_text smallest_caps_text (codes "1048576") []) [] }
{}

/// The faults of documents, in their order.
#[tactic(auto, unfolding(serde_json::proofs::OnLiterals::serde_json_on_literals))]
pub fn document_faults()
    ensures empty { IsFaultOf [] NotJson }
    ensures cut { IsFaultOf (codes "{") NotJson }
    ensures no_keys { IsFaultOf (codes "{}") BadDocument }
    ensures step { IsFaultOf
        (document_text no_caps_text (codes "1048577") (codes "{\"do\":\"poll\"},1,2")) (BadStep 1) }
    ensures caps { IsFaultOf (document_text no_caps_text (codes "1048577") []) BadCaps }
    ensures capacity { IsFaultOf
        (document_text smallest_caps_text (codes "1048577") []) BadCapacity }
{}

/// No fault is told that does not stand, or before which another stands.
#[tactic(auto, unfolding(serde_json::proofs::OnLiterals::serde_json_on_literals))]
pub fn faults_that_are_not_told()
    ensures json { ¬ IsFaultOf (codes "{}") NotJson }
    ensures second_step { ¬ IsFaultOf
        (document_text smallest_caps_text (codes "9") (codes "1,2")) (BadStep 1) }
    ensures step_before_caps { ¬ IsFaultOf
        (document_text no_caps_text (codes "9") (codes "1")) BadCaps }
    ensures caps_before_capacity { ¬ IsFaultOf
        (document_text no_caps_text (codes "1048577") []) BadCapacity }
    ensures capacity { ¬ IsFaultOf
        (document_text smallest_caps_text (codes "1048576") []) BadCapacity }
    ensures difference { ¬ IsFaultOf
        (document_text smallest_caps_text (codes "9") (codes "{\"do\":\"poll\"}")) (Differs 0) }
{}

/// A run of a submission from its set-up to its end, with a refused word and an answer that is not
/// stored.
#[tactic(auto, unfolding(crate::specs::Worked::digits_on_literals))]
pub fn a_run()
    ensures { AreLinesOf caps_of_a_run 7 actions_of_a_run lines_of_a_run }
{}

/// How often a reader is asked, by the bytes that it had and has left, and which faults are told.
pub fn reads()
    ensures asked_for_a_byte { (old : CountedReader (List ℕ)) (new : CountedReader (List ℕ))
        → counted_remaining Some old ≡ Some (codes "12")
        → counted_remaining Some new ≡ Some (codes "2") → given_of new ≡ given_of old + 1
        → (asked_of new ≡ asked_of old + 1 → IsAskedFor Some old new 0)
        × (asked_of new ≡ asked_of old + 2 → IsAskedFor Some old new 1) }
    ensures asked_twice_for_it { (old : CountedReader (List ℕ)) (new : CountedReader (List ℕ))
        → given_of new ≡ given_of old + 1
        → asked_of new ≡ asked_of old + 2
        → ¬ IsAskedFor Some old new 0 }
    ensures given_uncounted { (old : CountedReader (List ℕ)) (new : CountedReader (List ℕ))
        → given_of new ≡ given_of old
        → ¬ HasGiven Some old new (codes "1") }
    ensures more_than_it_had { (old : CountedReader (List ℕ)) (new : CountedReader (List ℕ))
        → counted_remaining Some old ≡ Some (codes "1")
        → counted_remaining Some new ≡ Some []
        → ¬ HasGiven Some old new (codes "12") }
    ensures error_untold { (old : CountedReader (List ℕ)) (new : CountedReader (List ℕ))
        → has_reader_failed old ≡ false → has_reader_failed new ≡ true
        → ¬ IsReadFor {T = ℕ} Some (Ok 0) old new }
    ensures long_enough { (old : CountedReader (List ℕ)) (new : CountedReader (List ℕ))
        → given_of new ≡ given_of old + 1_048_576
        → ¬ IsReadFor {T = ℕ} Some (Err ScenarioFault.TooLong) old new }
{}

/// What a call did to its reader.
pub fn calls_of_readers()
    ensures error { (old : CountedReader (List ℕ)) (new : CountedReader (List ℕ))
        → new.reader.ghost_name ≡ old.reader.ghost_name
        → counted_remaining Some old ≡ Some (codes "12")
        → counted_remaining Some new ≡ Some (codes "2") → given_of new ≡ given_of old + 1
        → asked_of new ≡ asked_of old + 2
        → has_reader_failed old ≡ false → has_reader_failed new ≡ true
        → IsReadFor {T = ℕ} Some (Err ScenarioFault.Read) old new }
    ensures too_long { (old : CountedReader (List ℕ)) (new : CountedReader (List ℕ))
        → new.reader.ghost_name ≡ old.reader.ghost_name
        → given_of new ≡ given_of old + 1_048_577
        → asked_of new ≡ asked_of old + 1
        → has_reader_failed new ≡ has_reader_failed old
        → IsReadFor {T = ℕ} (λ reader. None) (Err ScenarioFault.TooLong) old new }
    ensures another_reader { (old : CountedReader (List ℕ)) (new : CountedReader (List ℕ))
        → new.reader.ghost_name ≢ old.reader.ghost_name
        → ¬ IsReadFor {T = ℕ} Some (Ok 0) old new }
    ensures asked_too_often { (old : CountedReader (List ℕ)) (new : CountedReader (List ℕ))
        → given_of new ≡ given_of old + 1
        → asked_of new ≡ asked_of old + 3
        → ¬ IsReadFor {T = ℕ} Some (Ok 0) old new }
    ensures failed { (counted : CountedReader (List ℕ))
        → counted.failed ≡ true
        → has_reader_failed counted ≡ true }
{}

/// Which faults are told of what was noted, and of what was noted of a writer.
pub fn notes()
    ensures told_without_a_note { ¬ IsFaultNoted {T = ℕ} ScenarioFault.Read
        (Err ScenarioFault.Read) false false }
    ensures untold { ¬ IsFaultNoted {T = ℕ} ScenarioFault.Read (Ok 0) false true }
    ensures told_as_another { ¬ IsFaultNoted {T = ℕ} ScenarioFault.Write
        (Err ScenarioFault.OutOfMemory) false true }
    ensures noted { IsFaultNoted {T = ℕ} ScenarioFault.Read (Err ScenarioFault.Read) false true }
    ensures nothing_noted { IsFaultNoted {T = ℕ} ScenarioFault.Read
        (Err ScenarioFault.TooLong) false false }
    ensures refusal_untold { (old : WatchedWriter (List ℕ)) (new : WatchedWriter (List ℕ))
        → has_refused old ≡ false → has_refused new ≡ true
        → ¬ IsWrittenFor {T = ℕ} (Ok 0) old new }
    ensures refusal { (old : WatchedWriter (List ℕ)) (new : WatchedWriter (List ℕ))
        → new.writer.ghost_name ≡ old.writer.ghost_name
        → has_refused old ≡ false → has_refused new ≡ true
        → IsWrittenFor {T = ℕ} (Err ScenarioFault.Write) old new }
    ensures another_writer { (old : WatchedWriter (List ℕ)) (new : WatchedWriter (List ℕ))
        → new.writer.ghost_name ≢ old.writer.ghost_name
        → ¬ IsWrittenFor {T = ℕ} (Ok 0) old new }
    ensures refused { (watched : WatchedWriter (List ℕ))
        → watched.refused ≡ true
        → has_refused watched ≡ true }
    ensures closed { (watched : WatchedWriter (List ℕ))
        → watched.closed ≡ true
        → is_closed watched ≡ true }
{}

/// Bytes that are a whole document, and those that are not: more are left, or others were read.
pub fn whole_documents()
    ensures whole { IsWholeDocument (Some (codes "ab")) (Some []) (codes "ab") }
    ensures unknown { IsWholeDocument None None (codes "ab") }
    ensures others { ¬ IsWholeDocument (Some (codes "ab")) (Some []) (codes "b") }
    ensures more_left { ¬ IsWholeDocument (Some (codes "abc")) (Some (codes "c")) (codes "ab") }
{}

/// The longest document, and one that is a byte longer.
pub fn lengths_of_documents()
    ensures longest { (bytes : List ℕ) → length bytes ≡ 1_048_576
        → IsWholeDocument None None bytes }
    ensures longer { (bytes : List ℕ) → length bytes ≡ 1_048_577
        → ¬ IsWholeDocument None None bytes }
    ensures longest_read { (bytes : List ℕ) → length bytes ≡ 1_048_576
        → HasFault (Some bytes) (Some []) Read }
    ensures longer_read { (bytes : List ℕ) → length bytes ≡ 1_048_577
        → ¬ HasFault (Some bytes) (Some []) Read }
    ensures not_too_long { (bytes : List ℕ) → length bytes ≡ 1_048_576
        → ¬ HasFault (Some bytes) (Some []) TooLong }
    ensures too_long { (bytes : List ℕ) → length bytes ≡ 1_048_577
        → HasFault (Some bytes) (Some []) TooLong }
{}

/// The faults that what a reader gave may give rise to.
#[tactic(auto, unfolding(serde_json::proofs::OnLiterals::serde_json_on_literals))]
pub fn faults_of_what_was_read()
    ensures reading { HasFault (Some (codes "abc")) (Some (codes "c")) Read }
    ensures unread { ¬ HasFault (Some []) (Some (codes "c")) Read }
    ensures no_length { ¬ HasFault (Some (codes "abc")) (Some []) TooLong }
    ensures writing { HasFault (Some []) (Some (codes "c")) Write }
    ensures memory_alone { HasFault (Some []) (Some (codes "c")) OutOfMemory }
    ensures not_told { ¬ HasFault (Some []) (Some (codes "c")) BadCaps }
    ensures no_more { ¬ HasFault (Some []) (Some (codes "c")) TooLong }
    ensures no_fault { ¬ HasFault (Some []) (Some []) (Differs 0) }
    ensures no_json { HasFault (Some (codes "{")) (Some []) NotJson }
{}

/// Texts of a document that were written, whole or cut short.
pub fn texts_written()
    ensures whole { IsTextWritten (λ bytes text. bytes ≡ text) (Some (codes "ab")) (Some [])
        (Some (codes "x")) (Some (codes "xab")) }
    ensures another { ¬ IsTextWritten (λ bytes text. bytes ≡ text) (Some (codes "ab")) (Some [])
        (Some (codes "x")) (Some (codes "xb")) }
    ensures cut { IsTextCutShort (λ bytes fault text. bytes ≡ text) (Some (codes "ab")) (Some [])
        (Some (codes "x")) (Some (codes "xa")) }
    ensures not_cut { ¬ IsTextCutShort (λ bytes fault text. bytes ≡ text) (Some (codes "ab"))
        (Some []) (Some (codes "x")) (Some (codes "xab")) }
    ensures more_left { ¬ IsTextWritten (λ bytes text. bytes ≡ text) (Some (codes "ab"))
        (Some (codes "b")) (Some (codes "x")) (Some (codes "xab")) }
    ensures more_left_of_a_cut { ¬ IsTextCutShort (λ bytes fault text. bytes ≡ text)
        (Some (codes "ab")) (Some (codes "b")) (Some (codes "x")) (Some (codes "xa")) }
{}

/// Texts of which the first bytes or lines were written.
#[tactic(auto, unfolding(serde_json::proofs::OnLiterals::serde_json_on_literals))]
pub fn texts_begun()
    ensures part { IsPartWritten (Some (codes "x")) (Some (codes "xa")) (codes "ab") }
    ensures all { ¬ IsPartWritten (Some (codes "x")) (Some (codes "xab")) (codes "ab") }
    ensures added { IsTextAdded (λ text. text ≡ codes "ab") (Some (codes "x"))
        (Some (codes "xab")) }
    ensures not_added { ¬ IsTextAdded (λ text. text ≡ codes "ab") (Some (codes "x"))
        (Some (codes "xa")) }
    ensures cut { IsTextCut (λ text. text ≡ codes "ab") (Some (codes "x")) (Some (codes "xa")) }
    ensures not_cut { ¬ IsTextCut (λ text. text ≡ codes "ab") (Some (codes "x"))
        (Some (codes "xab")) }
    ensures lines { AreLinesOfStart line_of_step poll_text (codes "nothing\n") }
    ensures no_line_yet { AreLinesOfStart line_of_step poll_text [] }
    ensures begun { IsTextBegun AreLinesOfSteps line_of_step poll_text None [] }
    ensures fault_told { ¬ IsTextBegun AreLinesOfSteps line_of_step poll_text (Some BadCaps) [] }
{}

/// Pages from which the first steps were taken, and their lines.
pub fn steps_taken()
    ensures rest { IsPageOfRest {Page = ℕ} (λ done. length done ≡ 1)
        (λ steps page. page ≡ length steps) two_polls 1 }
    ensures more_left { ¬ IsPageOfRest {Page = ℕ} (λ done. length done ≡ 1)
        (λ steps page. page ≡ length steps) two_polls 2 }
    ensures first { BeginWith (λ done. length done ≡ 1) two_polls }
    ensures too_many { ¬ BeginWith (λ done. length done ≡ 3) two_polls }
    ensures first_line { AreFirstLines (λ step. step.number ∷ []) two_polls
        (running_at_first smallest_caps 9) (0 ∷ []) }
    ensures second_line { ¬ AreFirstLines (λ step. step.number ∷ []) two_polls
        (running_at_first smallest_caps 9) (1 ∷ []) }
    ensures walked { HasWalked (λ steps. length steps ≡ 1) smallest_caps 9
        (object_of poll_step ∷ whole 1 ∷ []) }
    ensures walked_too_far { ¬ HasWalked (λ steps. length steps ≡ 1) smallest_caps 9
        (whole 1 ∷ []) }
{}

/// Lines that a writer took, and lines that it refused.
pub fn lines_taken()
    ensures refusal_untold { (old : WatchedWriter (List ℕ)) (new : WatchedWriter (List ℕ))
        → has_refused old ≡ false → has_refused new ≡ true
        → ¬ HasTakenLines Some line_of_step old new [] }
    ensures lines_left_out { (old : WatchedWriter (List ℕ)) (new : WatchedWriter (List ℕ))
        → watched_contents Some old ≡ Some []
        → watched_contents Some new ≡ Some (0 ∷ [])
        → ¬ HasTakenLines Some (λ step. step.number ∷ []) old new two_polls }
    ensures another_writer { (old : WatchedWriter (List ℕ)) (new : WatchedWriter (List ℕ))
        → new.writer.ghost_name ≢ old.writer.ghost_name
        → ¬ HasTakenLines Some line_of_step old new [] }
    ensures nothing_refused { (old : WatchedWriter (List ℕ)) (new : WatchedWriter (List ℕ))
        → has_refused new ≡ false
        → ¬ HasRefusedLines Some line_of_step old new two_polls }
    ensures another_refused { (old : WatchedWriter (List ℕ)) (new : WatchedWriter (List ℕ))
        → new.writer.ghost_name ≢ old.writer.ghost_name
        → ¬ HasRefusedLines Some line_of_step old new two_polls }
    ensures all_taken { (old : WatchedWriter (List ℕ)) (new : WatchedWriter (List ℕ))
        → watched_contents Some old ≡ Some []
        → watched_contents Some new ≡ Some (0 ∷ 1 ∷ [])
        → ¬ HasRefusedLines Some (λ step. step.number ∷ []) old new two_polls }
{}
