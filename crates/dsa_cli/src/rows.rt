//! Worked words, loads and totals: what the definitions answer at chosen values, by computation.

ghost use Rattle.std.specs.Prelude.{◌≡◌, ◌≢◌, ◌⊎◌, ◌≤◌, ◌<◌, ◌+◌, ℕ, List, [], ◌∷◌, ◌++◌, All};
ghost use Rattle.std.specs.Prelude.{length, codes, map, replicate, take, vec_len, slice_index_or};
ghost use Rattle.std.specs.Prelude.{⊤, Option, Some, None, pos, true, false};
ghost use Rattle.dsa_desc.specs.declared.Outcome.TheVariants.{Success};
ghost use Rattle.dsa_regs.specs.declared.Caps.{Caps};
ghost use Rattle.dsa_regs.specs.declared.Command.TheVariants.{EnableDevice, EnableWq};
ghost use Rattle.dsa_book.specs.declared.answer.Reply.TheVariants as reply;
ghost use Rattle.dsa_book.specs.declared.answer.WriteAnswer.TheVariants as write_answer;
ghost use Rattle.dsa_book.specs.declared.answer.IssueAnswer.TheVariants.{Ended};
ghost use Rattle.dsa_book.specs.declared.event.Step.{Step};
ghost use Rattle.dsa_book.specs.declared.event.Event.TheVariants.{Submit, Issue, WriteQueue};
ghost use Rattle.dsa_book.specs.declared.event.Event.TheVariants.{WriteGroup};
ghost use Rattle.dsa_book.specs.declared.event.Kind.TheVariants.{Enqcmd, Movdir64b};
ghost use Rattle.dsa_book.specs.declared.event.Portal.TheVariants.{Limited, Unlimited};
ghost use Rattle.dsa_book.specs.declared.event.Actor.TheVariants.{Client, Engine, Admin};
ghost use Rattle.dsa_book.specs.Machine.{is_legal, replay};
ghost use Rattle.dsa_book.specs.Totals.{steps_of_actor, total_accepted};
ghost use Rattle.dsa_store.specs.Content.{held_count};
ghost use Rattle.dsa_shared.specs.declared.settle.Totals.{Totals};
ghost use Rattle.dsa_shared.specs.Seat.{SeatLog, fresh};
ghost use Rattle.dsa_shared.specs.Totals.{totals_of};
ghost use Rattle.dsa_workers.specs.Calls.{steps_done};
ghost use Rattle.dsa_workers.specs.declared.scripts.{ClientStep.{ClientStep}, Scripts.{Scripts}};
ghost use Rattle.std.specs.Global.{Vec};
ghost use Rattle.std.specs.Io.KnownBytes.{Appends, Consumes, IsAtEnd};
ghost use Rattle.clap.specs.Walk.{Row, Text};
ghost use Rattle.dsa_workers.specs.declared.scripts.WorkerEnd.TheVariants.{HistoryFull};
ghost use Rattle.dsa_workers.specs.Workers.{receipts_in, RunsClient, RunsEngine};
ghost use Rattle.dsa_cli.specs.declared.options.Workload.{Workload};
ghost use Rattle.dsa_cli.specs.declared.options.Asked.TheVariants.{Scenario, Report, Serve};
ghost use Rattle.dsa_cli.specs.declared.options.Asked.TheVariants.{Threads, HighThreshold};
ghost use Rattle.dsa_cli.specs.declared.options.Asked.TheVariants.{WrongValue};
ghost use Rattle.dsa_cli.specs.declared.options.WrongValue.TheVariants.{Answer, Range};
ghost use Rattle.dsa_cli.specs.declared.options.WrongValue.TheVariants as wrong_value;
ghost use Rattle.dsa_cli.specs.declared.options.Clash.TheVariants.{ShowAndJson};
ghost use Rattle.dsa_check.specs.declared.checking.CheckForm.TheVariants as check_form;
ghost use Rattle.clap.specs.declared.error.kind.ErrorKind.TheVariants.{UnknownArgument};
ghost use Rattle.clap.specs.declared.error.kind.ErrorKind.TheVariants.{InvalidSubcommand};
ghost use Rattle.clap.specs.declared.error.kind.ErrorKind.TheVariants.{InvalidValue};
ghost use Rattle.clap.specs.declared.error.kind.ErrorKind.TheVariants.{ValueValidation};
ghost use Rattle.clap.specs.declared.error.kind.ErrorKind.TheVariants.{DisplayHelp, DisplayVersion};
ghost use Rattle.dsa_cli.specs.declared.reports.Report.TheVariants.{Check, Expand, Explain, Trace, Count};
ghost use Rattle.dsa_cli.specs.declared.reports.Report.TheVariants.{Chrome, Draw, Conform};
ghost use Rattle.dsa_cli.specs.declared.reports.Run.TheVariants.{Own, Seen};
ghost use Rattle.dsa_cli.specs.declared.reports.Written.{Written};
ghost use Rattle.dsa_cli.specs.declared.reports.Written.TheVariants.{Friendly, Strict};
ghost use Rattle.dsa_trace.specs.declared.form.Trace.{Trace as TraceForm};
ghost use Rattle.dsa_trace.specs.declared.form.Trace.TheVariants.{Table, Wide, Changes, Json};
ghost use Rattle.dsa_scenario.specs.declared.faults.ScenarioFault.TheVariants.{BadCaps, BadQuestion, Read};
ghost use Rattle.dsa_scenario.specs.declared.faults.ScenarioFault.TheVariants.{BadStep};
ghost use Rattle.dsa_scenario.specs.declared.faults.ScenarioFault.TheVariants.{Incomplete};
ghost use Rattle.dsa_scenario.specs.declared.faults.ScenarioFault.TheVariants.{TooLong, Write};
ghost use Rattle.dsa_scenario.specs.declared.faults.ScenarioFault.TheVariants.{OutOfMemory};
ghost use Rattle.dsa_scenario.specs.declared.watched.WatchedWriter.{WatchedWriter};
ghost use Rattle.dsa_scenario.specs.Scenario.{HasFault, IsTextCutShort, IsTextWritten};
ghost use Rattle.dsa_serve.specs.Dialogue.{AnswersAll};
ghost use Rattle.dsa_scenario.specs.Faults.{fault_line};
ghost use Rattle.dsa_scenario.specs.Watched.{has_refused, is_closed, IsSameWriter};
ghost use Rattle.dsa_check.specs.Check.{too_long_text};
ghost use Rattle.dsa_party_check.specs.PartyCheck.{IsWholeCheck};
ghost use Rattle.dsa_check.specs.Worked.{plain_check, strict_check};
ghost use Rattle.dsa_conform.specs.Every.{IsConformanceOf};
ghost use Rattle.dsa_conform.specs.Run.{IsUnread};
ghost use Rattle.std.specs.Str.Parse.{IsNumeral};
ghost use Rattle.dsa_named_lines.specs.Run.{AreNamedLines, AreNamedLinesOf};
ghost use Rattle.dsa_named_seen.specs.Seen.{IsNamedAsSeen};
ghost use Rattle.dsa_chosen.specs.declared.words.AnswerWords.{AnswerWords};
ghost use Rattle.dsa_chosen.specs.Worked.{all_lines, of_answers};
ghost use Rattle.dsa_chosen.specs.Worked.{of_name};
ghost use Rattle.dsa_named_trace.specs.Run.{IsNamedTrace, IsNamedTraceOf};
ghost use Rattle.dsa_named_trace.specs.Streams.{AreNamedLinesOfStart, IsNamedTraceBegun};
ghost use Rattle.dsa_chrome.specs.Traces.{IsChromeTrace};
ghost use Rattle.dsa_count.specs.Totals.{AreTotalsOfDocument};
ghost use Rattle.dsa_draw.specs.{Drawings.{IsDrawingOf}, Ranges.{all_steps}};
ghost use Rattle.dsa_expand.specs.Friendly.{IsMadeOfFriendly};
ghost use Rattle.dsa_exploration.specs.declared.exploration.Form.TheVariants as exploration;
ghost use Rattle.dsa_exploration.specs.Exploration.{IsExplorationOf};
ghost use Rattle.dsa_exploration.specs.Showing.{IsAnswerShowingOf, IsShown};
ghost use Rattle.dsa_cli.specs.Reports.{IsReportBegun, IsReportCutShort, IsReportOf, IsReported};
ghost use Rattle.dsa_cli.specs.Reports.{IsTooLongCut, IsTooLongTold, streamed_form};
ghost use Rattle.dsa_cli.specs.Reports.{text_if_too_long};
ghost use Rattle.dsa_cli.specs.Endings.{IsEnd, IsEndedBy, IsFaultTold, IsQuiet, IsStoppedBy};
ghost use Rattle.dsa_cli.specs.Endings.{IsRefusal, IsStoppedOnTheWay};
ghost use Rattle.dsa_cli.specs.Endings.{IsUnwritten, IsWriteRefused};
ghost use Rattle.dsa_cli.specs.Threads.{AreScriptsOf, AreTotalsOf, IsClientScript, HaveWorked};
ghost use Rattle.dsa_cli.specs.Threads.{IsInRange, RanAsClient, RanAsEngine, Submits, caps_for};
ghost use Rattle.dsa_cli.specs.Threads.{capacity_for, engine_script, group_config, client_move};
ghost use Rattle.dsa_cli.specs.Threads.{queue_config, setup_steps, submission_of};
ghost use Rattle.dsa_cli.specs.Threads.{threads_fault_line, totals_text};
ghost use Rattle.dsa_cli.specs.declared.threads.ThreadsFault.TheVariants as fault;
ghost use Rattle.dsa_cli.specs.CommandLine.{AskNoInput, IsServeStopped, SayHighThreshold};
ghost use Rattle.dsa_cli.specs.CommandLine.{high_threshold_text, wrong_value_text};
ghost use Rattle.dsa_cli.specs.CommandLine.{AsksBy, IsNumberGiven, IsSelectionOf};
ghost use Rattle.dsa_cli.specs.CommandLine.{IsWrongIn, SaysNumber, range_asked, unknown_answer};
ghost use Rattle.dsa_cli.specs.CommandLine.{AreNumbersOf, AreTotalsCutShort, AreTotalsWritten};
ghost use Rattle.dsa_cli.specs.CommandLine.{AsksFor, IsAskedBy, IsMistaken, IsNumberOf};
ghost use Rattle.dsa_cli.specs.CommandLine.{IsReportCut, IsReportLeft, IsReportName};
ghost use Rattle.dsa_cli.specs.CommandLine.{IsReportWritten, IsServed, IsServedIn, IsUnderstood};
ghost use Rattle.dsa_cli.specs.CommandLine.{NameNothing, has_friendly_form};
ghost use Rattle.dsa_cli.specs.CommandLine.{NameReport, NameServe, NameThreads, command_in};
ghost use Rattle.dsa_cli.specs.CommandLine.{faults_of_words, check_app, conform_app, draw_app};
ghost use Rattle.dsa_cli.specs.CommandLine.{explain_app, program_app, serve_app, threads_app};
ghost use Rattle.dsa_cli.specs.CommandLine.{trace_app, explore_app, AreBoundsOf};
ghost use Rattle.clap.specs.declared.builder.value_parser.ValueParser.TheVariants.{Signed};
ghost use Rattle.dsa_cli.specs.Worked.{page_move_bytes, move_under, load, sized, threads_with};
ghost use Rattle.dsa_cli.specs.Worked.{option_row, trace_rows, two_retries};
ghost use Rattle.dsa_cli.specs.Worked.{client_seats_after};
ghost use Rattle.dsa_cli.specs.Worked.{engine_seats_after, value_in, json_trace, seen_json_trace};
ghost use Rattle.dsa_cli.specs.Worked.{words_with_seen, strict_words, explain_with};
ghost use Rattle.dsa_cli.specs.Worked.{explain_rows, chosen_words, lines_of_one_entry, lent_text};
ghost use Rattle.dsa_cli.specs.Worked.{check_in, check_rows, comparison, conform_rows, draw_rows, drawing_of};
ghost use Rattle.dsa_cli.specs.Worked.{whole_drawing, explore_rows, explore_with};
ghost use Rattle.dsa_cli.specs.Worked.{explore_within, bounds_of, json_and_show, json_rows, show_rows, show_within};

/// What the words may be: none, or the command `threads` with its options.
#[tactic(auto, unfolding(clap::proofs::OnLiterals::clap_on_literals))]
pub fn words_understood()
    ensures none { faults_of_words [] ≡ [] }
    ensures scenario { command_in [] ≡ None }
    ensures threads { faults_of_words (codes "threads" ∷ []) ≡ [] }
    ensures workers { command_in (codes "threads" ∷ []) ≡ Some (codes "threads") }
    ensures trace { faults_of_words (codes "trace" ∷ []) ≡ [] }
    ensures traces { command_in (codes "trace" ∷ []) ≡ Some (codes "trace") }
    ensures json_trace { faults_of_words json_trace ≡ [] }
    ensures json_alone { faults_of_words (codes "--json" ∷ []) ≡ UnknownArgument ∷ [] }
    ensures check { faults_of_words (codes "check" ∷ []) ≡ [] }
    ensures checks { command_in (codes "check" ∷ []) ≡ Some (codes "check") }
    ensures strict_check { faults_of_words strict_words ≡ [] }
    ensures strict_alone { faults_of_words (codes "--strict" ∷ []) ≡ UnknownArgument ∷ [] }
    ensures seen { map (λ command. faults_of_words (words_with_seen command))
        (codes "explain" ∷ codes "trace" ∷ codes "draw" ∷ codes "count" ∷ [])
        ≡ [] ∷ [] ∷ [] ∷ (UnknownArgument ∷ []) ∷ [] }
    ensures seen_alone { faults_of_words (codes "--seen" ∷ []) ≡ UnknownArgument ∷ [] }
    ensures chosen { faults_of_words chosen_words ≡ [] }
    ensures chosen_of_a_trace { map
        (λ option. faults_of_words (codes "trace" ∷ option ∷ codes "3" ∷ []))
        (codes "--name" ∷ codes "--client" ∷ codes "--only" ∷ codes "--which" ∷ [])
        ≡ replicate 4 (UnknownArgument ∷ []) }
    ensures no_words { faults_of_words (codes "explain" ∷ codes "--only" ∷ [])
        ≡ InvalidValue ∷ [] }
    ensures seen_json_trace { faults_of_words seen_json_trace ≡ [] }
    ensures explain { faults_of_words (codes "explain" ∷ []) ≡ [] }
    ensures explains { command_in (codes "explain" ∷ []) ≡ Some (codes "explain") }
    ensures count { faults_of_words (codes "count" ∷ []) ≡ [] }
    ensures expand { faults_of_words (codes "expand" ∷ []) ≡ [] }
    ensures expands { command_in (codes "expand" ∷ []) ≡ Some (codes "expand") }
    ensures explore { faults_of_words (codes "explore" ∷ []) ≡ [] }
    ensures explores { command_in (codes "explore" ∷ []) ≡ Some (codes "explore") }
    ensures json_and_show { faults_of_words json_and_show ≡ [] }
    ensures explore_with_option { faults_of_words (explore_with (codes "--clients") (codes "2"))
        ≡ UnknownArgument ∷ [] }
    ensures counts { command_in (codes "count" ∷ []) ≡ Some (codes "count") }
    ensures draw { faults_of_words (codes "draw" ∷ []) ≡ [] }
    ensures drawing { command_in (codes "draw" ∷ []) ≡ Some (codes "draw") }
    ensures conform { faults_of_words (codes "conform" ∷ []) ≡ [] }
    ensures conforms { command_in (codes "conform" ∷ []) ≡ Some (codes "conform") }
    ensures serve { faults_of_words (codes "serve" ∷ []) ≡ [] }
    ensures serves { command_in (codes "serve" ∷ []) ≡ Some (codes "serve") }
    ensures serve_with_option { faults_of_words (codes "serve" ∷ codes "--json" ∷ [])
        ≡ UnknownArgument ∷ [] }
    ensures draw_with_option { faults_of_words (codes "draw" ∷ codes "--clients" ∷ codes "2" ∷ [])
        ≡ UnknownArgument ∷ [] }
    ensures other_word { faults_of_words (codes "scenario" ∷ [])
        ≡ UnknownArgument ∷ InvalidSubcommand ∷ [] }
    ensures option_alone { faults_of_words (codes "--clients" ∷ codes "2" ∷ [])
        ≡ UnknownArgument ∷ [] }
    ensures other_option { faults_of_words (threads_with (codes "--queues") (codes "2"))
        ≡ UnknownArgument ∷ [] }
    ensures help { faults_of_words (codes "--help" ∷ []) ≡ DisplayHelp ∷ [] }
    ensures version { faults_of_words (codes "--version" ∷ []) ≡ DisplayVersion ∷ [] }
    ensures short_version { faults_of_words (codes "-V" ∷ []) ≡ DisplayVersion ∷ [] }
    ensures version_of_threads { faults_of_words (codes "threads" ∷ codes "--version" ∷ [])
        ≡ UnknownArgument ∷ [] }
{}

/// The options of each command, and the numbers that they take.
#[tactic(auto, unfolding(clap::proofs::OnLiterals::clap_on_literals))]
pub fn options_of_commands()
    ensures names { map {B = Text × List Text}
        (λ command. (command.top.name, map (λ option. option.id) command.top.rules))
        (check_app ∷ explain_app ∷ trace_app ∷ draw_app ∷ conform_app ∷ explore_app ∷ serve_app
        ∷ threads_app ∷ [])
        ≡ (codes "check", codes "json" ∷ codes "source" ∷ codes "color" ∷ codes "strict" ∷ [])
        ∷ (codes "explain", codes "name" ∷ codes "client" ∷ codes "only" ∷ codes "seen" ∷ [])
        ∷ (
          codes "trace",
          codes "wide" ∷ codes "changes" ∷ codes "json" ∷ codes "chrome" ∷ codes "seen" ∷ [],
        )
        ∷ (codes "draw", codes "steps" ∷ codes "seen" ∷ [])
        ∷ (codes "conform", codes "all" ∷ codes "friendly" ∷ [])
        ∷ (
          codes "explore",
          codes "states" ∷ codes "key-bytes" ∷ codes "show" ∷ codes "walks" ∷ codes "seed"
              ∷ codes "shard" ∷ codes "json" ∷ [],
        )
        ∷ (codes "serve", codes "friendly" ∷ [])
        ∷ (
          codes "threads",
          codes "clients" ∷ codes "engines" ∷ codes "each" ∷ codes "turns"
              ∷ codes "size" ∷ codes "threshold" ∷ codes "slots" ∷ codes "buffers" ∷ [],
        ) ∷ [] }
    ensures explain { map (λ option. option.parser) explain_app.top.rules
        ≡ Some (Signed (pos 0) (pos 4_294_967_295)) ∷ Some (Signed (pos 0) (pos 65_535)) ∷ None
        ∷ None ∷ [] }
    ensures explore { map (λ option. option.parser) explore_app.top.rules
        ≡ Some (Signed (pos 1) (pos 16_777_216)) ∷ Some (Signed (pos 1) (pos 65_536)) ∷ None
        ∷ Some (Signed (pos 1) (pos 4_294_967_295)) ∷ Some (Signed (pos 0) (pos 4_294_967_295))
        ∷ None ∷ None ∷ [] }
    ensures bounds { map (λ option. option.defaults) explore_app.top.rules
        ≡ (codes "100000" ∷ []) ∷ (codes "256" ∷ []) ∷ [] ∷ [] ∷ [] ∷ [] ∷ [] ∷ [] }
    ensures threads { map (λ option. option.parser) threads_app.top.rules
        ≡ Some (Signed (pos 1) (pos 16)) ∷ Some (Signed (pos 1) (pos 8))
        ∷ Some (Signed (pos 1) (pos 1_000)) ∷ Some (Signed (pos 1) (pos 40_000))
        ∷ Some (Signed (pos 1) (pos 1_024)) ∷ Some (Signed (pos 1) (pos 1_024))
        ∷ Some (Signed (pos 1) (pos 16)) ∷ Some (Signed (pos 4) (pos 255)) ∷ [] }
    ensures defaults { map (λ option. option.defaults) threads_app.top.rules
        ≡ (codes "2" ∷ []) ∷ (codes "2" ∷ []) ∷ (codes "100" ∷ []) ∷ (codes "10000" ∷ [])
        ∷ (codes "16" ∷ []) ∷ (codes "8" ∷ []) ∷ (codes "4" ∷ []) ∷ (codes "32" ∷ []) ∷ [] }
    ensures values { map (λ option. option.value_names) explain_app.top.rules
        ≡ 1 ∷ 1 ∷ 1 ∷ 0 ∷ [] }
    ensures words { map (λ option. option.long) draw_app.top.rules
        ≡ Some (codes "steps") ∷ Some (codes "seen") ∷ [] }
    ensures commands { map (λ command. command.name) program_app.subs
        ≡ codes "check" ∷ codes "explain" ∷ codes "trace" ∷ codes "count" ∷ codes "draw"
        ∷ codes "conform" ∷ codes "expand" ∷ codes "explore" ∷ codes "serve" ∷ codes "threads"
        ∷ [] }
    ensures version { program_app.top.has_version ≡ true }
{}

/// The numbers of the options, where they are not given and where they are.
#[tactic(auto, unfolding(clap::proofs::OnLiterals::clap_on_literals))]
pub fn option_values()
    ensures clients { value_in (codes "threads" ∷ []) (codes "clients") ≡ Some (codes "2") }
    ensures engines { value_in (codes "threads" ∷ []) (codes "engines") ≡ Some (codes "2") }
    ensures each { value_in (codes "threads" ∷ []) (codes "each") ≡ Some (codes "100") }
    ensures turns { value_in (codes "threads" ∷ []) (codes "turns") ≡ Some (codes "10000") }
    ensures size { value_in (codes "threads" ∷ []) (codes "size") ≡ Some (codes "16") }
    ensures threshold { value_in (codes "threads" ∷ []) (codes "threshold") ≡ Some (codes "8") }
    ensures slots { value_in (codes "threads" ∷ []) (codes "slots") ≡ Some (codes "4") }
    ensures buffers { value_in (codes "threads" ∷ []) (codes "buffers") ≡ Some (codes "32") }
    ensures given { value_in (threads_with (codes "--each") (codes "7")) (codes "each")
        ≡ Some (codes "7") }
    ensures chosen { map (value_in chosen_words)
        (codes "name" ∷ codes "client" ∷ codes "only" ∷ codes "seen" ∷ [])
        ≡ Some (codes "3") ∷ Some (codes "2") ∷ Some (codes "retry,idle") ∷ Some (codes "true")
        ∷ [] }
    ensures not_chosen { map (value_in (codes "explain" ∷ []))
        (codes "name" ∷ codes "client" ∷ codes "only" ∷ codes "seen" ∷ [])
        ≡ None ∷ None ∷ None ∷ Some (codes "false") ∷ [] }
    ensures bounds { map (value_in (codes "explore" ∷ []))
        (codes "states" ∷ codes "key-bytes" ∷ [])
        ≡ Some (codes "100000") ∷ Some (codes "256") ∷ [] }
    ensures no_row { value_in (codes "explore" ∷ []) (codes "show") ≡ None }
    ensures json { map (λ words. value_in words (codes "json"))
        ((codes "explore" ∷ []) ∷ json_and_show ∷ []) ≡ Some (codes "false") ∷ Some (codes "true")
        ∷ [] }
    ensures row { value_in (explore_with (codes "--show") (codes "x: accepted")) (codes "show")
        ≡ Some (codes "x: accepted") }
    ensures given_bounds { map (value_in (explore_with (codes "--states") (codes "7")))
        (codes "states" ∷ codes "key-bytes" ∷ [])
        ≡ Some (codes "7") ∷ Some (codes "256") ∷ [] }
    ensures other { value_in (threads_with (codes "--each") (codes "7")) (codes "turns")
        ≡ Some (codes "10000") }
{}

/// The bounds of the options.
#[tactic(auto, unfolding(clap::proofs::OnLiterals::clap_on_literals))]
pub fn option_bounds()
    ensures clients { map (λ n. faults_of_words (threads_with (codes "--clients") n))
        (codes "0" ∷ codes "1" ∷ codes "16" ∷ codes "17" ∷ [])
        ≡ (ValueValidation ∷ []) ∷ [] ∷ [] ∷ (ValueValidation ∷ []) ∷ [] }
    ensures engines { map (λ n. faults_of_words (threads_with (codes "--engines") n))
        (codes "0" ∷ codes "1" ∷ codes "8" ∷ codes "9" ∷ [])
        ≡ (ValueValidation ∷ []) ∷ [] ∷ [] ∷ (ValueValidation ∷ []) ∷ [] }
    ensures each { map (λ n. faults_of_words (threads_with (codes "--each") n))
        (codes "0" ∷ codes "1" ∷ codes "1000" ∷ codes "1001" ∷ [])
        ≡ (ValueValidation ∷ []) ∷ [] ∷ [] ∷ (ValueValidation ∷ []) ∷ [] }
    ensures turns { map (λ n. faults_of_words (threads_with (codes "--turns") n))
        (codes "0" ∷ codes "1" ∷ codes "40000" ∷ codes "40001" ∷ [])
        ≡ (ValueValidation ∷ []) ∷ [] ∷ [] ∷ (ValueValidation ∷ []) ∷ [] }
    ensures sizes { map (λ n. faults_of_words (threads_with (codes "--size") n))
        (codes "0" ∷ codes "1" ∷ codes "1024" ∷ codes "1025" ∷ [])
        ≡ (ValueValidation ∷ []) ∷ [] ∷ [] ∷ (ValueValidation ∷ []) ∷ [] }
    ensures thresholds { map (λ n. faults_of_words (threads_with (codes "--threshold") n))
        (codes "0" ∷ codes "1" ∷ codes "1024" ∷ codes "1025" ∷ [])
        ≡ (ValueValidation ∷ []) ∷ [] ∷ [] ∷ (ValueValidation ∷ []) ∷ [] }
    ensures slots { map (λ n. faults_of_words (threads_with (codes "--slots") n))
        (codes "0" ∷ codes "1" ∷ codes "16" ∷ codes "17" ∷ [])
        ≡ (ValueValidation ∷ []) ∷ [] ∷ [] ∷ (ValueValidation ∷ []) ∷ [] }
    ensures buffers { map (λ n. faults_of_words (threads_with (codes "--buffers") n))
        (codes "3" ∷ codes "4" ∷ codes "255" ∷ codes "256" ∷ [])
        ≡ (ValueValidation ∷ []) ∷ [] ∷ [] ∷ (ValueValidation ∷ []) ∷ [] }
    ensures states { map (λ n. faults_of_words (explore_with (codes "--states") n))
        (codes "0" ∷ codes "1" ∷ codes "16777216" ∷ codes "16777217" ∷ [])
        ≡ (ValueValidation ∷ []) ∷ [] ∷ [] ∷ (ValueValidation ∷ []) ∷ [] }
    ensures key_bytes { map (λ n. faults_of_words (explore_with (codes "--key-bytes") n))
        (codes "0" ∷ codes "1" ∷ codes "65536" ∷ codes "65537" ∷ [])
        ≡ (ValueValidation ∷ []) ∷ [] ∷ [] ∷ (ValueValidation ∷ []) ∷ [] }
    ensures names { map (λ n. faults_of_words (explain_with (codes "--name") n))
        (codes "0" ∷ codes "4294967295" ∷ codes "4294967296" ∷ codes "one" ∷ [])
        ≡ [] ∷ [] ∷ (ValueValidation ∷ []) ∷ (ValueValidation ∷ []) ∷ [] }
    ensures client_numbers { map (λ n. faults_of_words (explain_with (codes "--client") n))
        (codes "0" ∷ codes "65535" ∷ codes "65536" ∷ codes "" ∷ [])
        ≡ [] ∷ [] ∷ (ValueValidation ∷ []) ∷ (ValueValidation ∷ []) ∷ [] }
    ensures no_numbers { map (λ n. faults_of_words (threads_with (codes "--clients") n))
        (codes "" ∷ codes "two" ∷ codes "1.0" ∷ [])
        ≡ (ValueValidation ∷ []) ∷ (ValueValidation ∷ []) ∷ (ValueValidation ∷ []) ∷ [] }
{}

/// What the workers share.
pub fn threads_device()
    ensures caps { caps_for (load 2 3 5 7)
        ≡ record {
          queues = 1;
          groups = 1;
          engines = 3;
          total_size = 16;
          read_buffers = 32;
          slots = 4;
          max_batch_shift = 3;
          max_xfer_shift = 20;
        } }
    ensures caps_by_options { caps_for (sized 100 70 9 200)
        ≡ record {
          queues = 1;
          groups = 1;
          engines = 3;
          total_size = 100;
          read_buffers = 200;
          slots = 9;
          max_batch_shift = 3;
          max_xfer_shift = 20;
        } }
    ensures capacity { capacity_for (load 2 3 5 7) ≡ 46 }
    ensures queue { queue_config (load 2 3 5 7)
        ≡ record {
          size = 16;
          threshold = 8;
          dedicated = false;
          priority = 1;
          pasid = 0;
          max_batch_shift = 3;
          max_xfer_shift = 20;
        } }
    ensures queue_by_options { queue_config (sized 100 70 9 200)
        ≡ record (queue_config (load 2 3 5 7)) { size = 100; threshold = 70 } }
    ensures group { group_config (load 2 1 5 7)
        ≡ record { queues = 1; engines = 1; reserved = 0; allowed = 32 } }
    ensures group_by_options { group_config (sized 100 70 9 200)
        ≡ record { queues = 1; engines = 7; reserved = 0; allowed = 200 } }
    ensures engines { (group_config (load 2 8 5 7)).engines ≡ 255 }
    ensures setup { setup_steps (sized 100 70 9 200)
        ≡ record {
          event = WriteQueue 0 (queue_config (sized 100 70 9 200));
          reply = reply.Write write_answer.Written;
        }
        ∷ record {
          event = WriteGroup 0 (group_config (sized 100 70 9 200));
          reply = reply.Write write_answer.Written;
        }
        ∷ record { event = Issue EnableDevice; reply = reply.Issue (Ended 0) }
        ∷ record { event = Issue (EnableWq 0); reply = reply.Issue (Ended 0) }
        ∷ [] }
{}

/// What the workers do.
pub fn threads_workers()
    ensures moved { client_move ≡ record { pasid = 0; flags = 0; op = 3; size = 4096 } }
    ensures first { submission_of 0 ≡ Submit 0 0 Limited (Enqcmd 1) client_move }
    ensures last { submission_of 15 ≡ Submit 15 0 Limited (Enqcmd 16) client_move }
    ensures engine { engine_script
        ≡ record { member = record { pasid = 0; flags = 0; op = 0; size = 0 }; outcome = Success } }
{}

/// The totals, each in a line of its own.
#[tactic(auto, unfolding(dsa_scenario::specs::Worked::digits_on_literals))]
pub fn total_lines()
    ensures { totals_text
        (record
        { accepted = 1; fetched = 2; retried = 3; done = 4; lost = 5; held = 6; steps = 7 })
        ≡ codes "accepted 1\nfetched 2\nretried 3\ndone 4\nlost 5\nheld 6\nbalanced\n" }
{}

/// The bounds of what may be asked for.
pub fn loads()
    ensures least { IsInRange
        (record (load 1 1 1 1) { size = 1; threshold = 1; slots = 1; buffers = 4 }) }
    ensures most { IsInRange
        (record (load 16 8 1_000 40_000)
        { size = 1_024; threshold = 1_024; slots = 16; buffers = 255 }) }
    ensures no_client { ¬ IsInRange (load 0 1 1 1) }
    ensures many_clients { ¬ IsInRange (load 17 1 1 1) }
    ensures no_engine { ¬ IsInRange (load 1 0 1 1) }
    ensures many_engines { ¬ IsInRange (load 1 9 1 1) }
    ensures nothing_each { ¬ IsInRange (load 1 1 0 1) }
    ensures much_each { ¬ IsInRange (load 1 1 1_001 1) }
    ensures no_turn { ¬ IsInRange (load 1 1 1 0) }
    ensures many_turns { ¬ IsInRange (load 1 1 1 40_001) }
    ensures no_size { ¬ IsInRange (sized 0 8 4 32) }
    ensures large_size { ¬ IsInRange (sized 1_025 8 4 32) }
    ensures no_threshold { ¬ IsInRange (sized 16 0 4 32) }
    ensures high_threshold { ¬ IsInRange (sized 16 17 4 32) }
    ensures no_slot { ¬ IsInRange (sized 16 8 0 32) }
    ensures many_slots { ¬ IsInRange (sized 16 8 17 32) }
    ensures few_buffers { ¬ IsInRange (sized 16 8 4 3) }
    ensures many_buffers { ¬ IsInRange (sized 16 8 4 256) }
{}

/// What a client submits.
pub fn submissions()
    ensures { Submits 3
        (record { queue = 0; portal = Limited; kind = Enqcmd 3; bytes = page_move_bytes }) }
{}

/// The totals of a run of one client, which submits three times, and of two engines that dispatch,
/// fetch, start and finish, and what their seats have then.
#[tactic(auto, unfolding(dsa_store::specs::Content::held_count))]
pub fn totals_of_a_run()
    ensures totals { AreTotalsOf (load 1 2 3 4)
        (record
        { accepted = 3; fetched = 0; retried = 0; done = 2; lost = 0; held = 1; steps = 11 }) }
    ensures seats { HaveWorked (caps_for (load 1 2 3 4)) 20 (load 1 2 3 4) client_seats_after
        engine_seats_after (Some (setup_steps (load 1 2 3 4))) }
{}

/// What each worker of a run did: a client made a step in each turn or came to the end of its
/// script, and an engine had all its turns.
pub fn workers_ran()
    ensures client { (caps : Caps) (capacity : ℕ) (asked : Workload) (c : ℕ) (seat : SeatLog)
        → RanAsClient caps capacity asked c seat
        → (length seat.receipts ≡ asked.turns) ⊎ (steps_done seat.receipts ≡ asked.each) }
    ensures engine { (caps : Caps) (capacity : ℕ) (asked : Workload) (e : ℕ) (seat : SeatLog)
        (ran : RanAsEngine caps capacity asked e seat)
        → ran.0.turns ≡ asked.turns }
    ensures idle_client { (caps : Caps) (capacity : ℕ)
        → ¬ RanAsClient caps capacity (load 1 1 1 1) 0 (fresh 0) }
    ensures half_the_turns { (caps : Caps) (capacity : ℕ)
        → ¬ RanAsClient caps capacity (load 1 1 3 4) 0
        (record { number = 0; receipts = two_retries }) }
{}

/// Totals and seats that no run leads to.
pub fn runs_refused()
    ensures zeros { (asked : Workload) (steps : ℕ)
        → ¬ AreTotalsOf asked
        (record
        { accepted = 0; fetched = 0; retried = 0; done = 0; lost = 0; held = 0; steps = steps }) }
    ensures no_setup { (caps : Caps) (capacity : ℕ) (asked : Workload)
        (clients engines : List SeatLog)
        → ¬ HaveWorked caps capacity asked clients engines (Some []) }
    ensures no_clients { (caps : Caps) (capacity : ℕ) (engines : List SeatLog)
        (admin : Option (List Step))
        → ¬ HaveWorked caps capacity (load 3 7 1 1) [] engines admin }
    ensures no_engines { (caps : Caps) (capacity : ℕ) (clients : List SeatLog)
        (admin : Option (List Step))
        → ¬ HaveWorked caps capacity (load 3 7 1 1) clients [] admin }
{}

/// The history of two clients, which submit five times each, and three engines, in seven turns
/// each.
pub fn history_of_a_run()
    ensures run { (totals : Totals) (run : AreTotalsOf (load 2 3 5 7) totals)
        → (is_legal (caps_for (load 2 3 5 7)) run.history ≡ true)
        × (replay (caps_for (load 2 3 5 7)) run.history ≡ Some run.last)
        × (length run.history ≤ 46)
        × (steps_of_actor run.history Admin ≡ setup_steps (load 2 3 5 7))
        × (take 4 run.history ≡ setup_steps (load 2 3 5 7))
        × (totals ≡ totals_of run.history (held_count run.last.work.content))
        × (totals.accepted + totals.fetched ≡ totals.done + totals.lost + totals.held)
        × (totals.accepted ≤ 10)
        × (1 ≤ totals.accepted) }
    ensures accepted_of_one_client { (totals : Totals) (run : AreTotalsOf (load 1 3 5 7) totals)
        → totals.accepted ≤ 5 }
    ensures clients { (totals : Totals) (run : AreTotalsOf (load 2 3 5 7) totals) (c : ℕ) → c < 2
        → All (λ step. step.event ≡ submission_of c) (steps_of_actor run.history (Client c))
        × RanAsClient (caps_for (load 2 3 5 7)) 46 (load 2 3 5 7) c
        (record { number = c; receipts = steps_of_actor run.history (Client c) }) }
    ensures engines { (totals : Totals) (run : AreTotalsOf (load 2 3 5 7) totals) (e : ℕ) → e < 3
        → RanAsEngine (caps_for (load 2 3 5 7)) 46 (load 2 3 5 7) e
        (record { number = e; receipts = steps_of_actor run.history (Engine e) }) }
{}

/// What the seats have after such a run, and where there was nobody to run.
pub fn seats_of_a_run()
    ensures nobody { HaveWorked (caps_for (load 2 3 5 7)) 46 (load 0 0 5 7) [] []
        (Some (setup_steps (load 0 0 5 7))) }
    ensures seats { (clients engines : List SeatLog) (admin : Option (List Step))
        → HaveWorked (caps_for (load 1 1 1 1)) 9 (load 2 3 5 7) clients engines admin
        → (length clients ≡ 2)
        × (length engines ≡ 3)
        × All (λ seat. total_accepted seat.receipts ≤ 5) clients
        × All (λ seat. length seat.receipts ≤ 7) clients
        × All (λ seat. length seat.receipts ≤ 7) engines
        × (receipts_in admin ≡ setup_steps (load 2 3 5 7)) }
    ensures clients { (clients engines : List SeatLog) (admin : Option (List Step))
        → HaveWorked (caps_for (load 1 1 1 1)) 9 (load 2 3 5 7) clients engines admin
        → (c : ℕ) (d : SeatLog) → c < 2
        → ((slice_index_or clients c d).number ≡ c)
        × All (λ step. step.event ≡ submission_of c) (slice_index_or clients c d).receipts
        × RanAsClient (caps_for (load 1 1 1 1)) 9 (load 2 3 5 7) c (slice_index_or clients c d) }
    ensures engine_runs { (clients engines : List SeatLog) (admin : Option (List Step))
        → HaveWorked (caps_for (load 1 1 1 1)) 9 (load 2 3 5 7) clients engines admin
        → (e : ℕ) (d : SeatLog) → e < 3
        → RanAsEngine (caps_for (load 1 1 1 1)) 9 (load 2 3 5 7) e (slice_index_or engines e d) }
{}

/// What the workers of such a run did: client 4 submits five times under PASID 5.
pub fn runs_of_workers()
    ensures client { (seat : SeatLog)
        (ran : RanAsClient (caps_for (load 1 1 1 1)) 9 (load 2 3 5 7) 4 seat)
        → (length ran.0 ≡ 5)
        × All (Submits 5) ran.0
        × RunsClient (caps_for (load 1 1 1 1)) 9 ran.0 7 (fresh 4) seat ran.1
        × (ran.1.ended ≢ HistoryFull) }
    ensures engine { (seat : SeatLog)
        (ran : RanAsEngine (caps_for (load 1 1 1 1)) 9 (load 2 3 5 7) 4 seat)
        → RunsEngine (caps_for (load 1 1 1 1)) 9 engine_script 7 (fresh 4) seat ran.0
        × (ran.0.ended ≢ HistoryFull) }
{}

/// The totals of a run that were all written, and those of which only the first bytes were.
#[tactic(auto, unfolding(clap::proofs::OnLiterals::clap_on_literals))]
pub fn totals_written()
    ensures all { (totals : Totals) → AreTotalsOf (load 1 2 3 4) totals
        → AreTotalsWritten [] (Some (codes "k")) (Some (codes "k" ++ totals_text totals)) }
    ensures written { (rows : List Row) (old new : Option (List ℕ))
        (are : AreTotalsWritten rows old new)
        → AreNumbersOf rows are.0
        × IsInRange are.0
        × AreTotalsOf are.0 are.1
        × Appends old new (totals_text are.1) }
    ensures first_bytes { (totals : Totals) → AreTotalsOf (load 1 2 3 4) totals
        → 3 < length (totals_text totals)
        → AreTotalsCutShort [] (Some (codes "k"))
        (Some (codes "k" ++ take 3 (totals_text totals))) }
    ensures cut { (rows : List Row) (old new : Option (List ℕ))
        (are : AreTotalsCutShort rows old new)
        → AreNumbersOf rows are.0
        × IsInRange are.0
        × AreTotalsOf are.0 are.1
        × (are.2 < length (totals_text are.1))
        × Appends old new (take are.2 (totals_text are.1)) }
{}

/// A dialogue that was served: the reader gave all of it, and the answers were written.
pub fn dialogue_served()
    ensures served { (input output : List ℕ) → AnswersAll false input output
        → IsServed (option_row (codes "friendly") (codes "false")) (Some input) (Some [])
        (Some (codes "k")) (Some (codes "k" ++ output)) }
    ensures friendly { (input output : List ℕ) → AnswersAll true input output
        → IsServed (option_row (codes "friendly") (codes "true")) (Some input) (Some [])
        (Some (codes "k")) (Some (codes "k" ++ output)) }
    ensures all { (written : Written) (had left held holds : Option (List ℕ))
        (served : IsServedIn written had left held holds)
        → Consumes had left served.0
        × IsAtEnd left
        × AnswersAll (has_friendly_form written) served.0 served.1
        × Appends held holds served.1 }
    ensures strictly { (had left held holds : Option (List ℕ))
        (served : IsServed (option_row (codes "friendly") (codes "false")) had left held holds)
        → served.0 ≡ Strict }
    ensures forms { map has_friendly_form (Strict ∷ Friendly ∷ []) ≡ false ∷ true ∷ [] }
    ensures more_to_read { (rows : List Row)
        → ¬ IsServed rows (Some (codes "ab")) (Some (codes "b")) None None }
    ensures given_back { (rows : List Row)
        → ¬ IsServed rows (Some []) (Some (codes "b")) None None }
{}

/// A report that was all written, and one of which only the first bytes were.
pub fn reports_written()
    ensures all { (bytes text : List ℕ)
        → IsConformanceOf false bytes (Some BadCaps) text → length bytes ≤ 1_048_576
        → IsReported (Conform (comparison false) Strict) (Some BadCaps) (Some bytes) (Some [])
        (Some (codes "k"))
        (Some (codes "k" ++ text)) }
    ensures first_bytes { (bytes text : List ℕ)
        → IsConformanceOf false bytes (Some BadCaps) text → length bytes ≤ 1_048_576
        → 3 < length text
        → IsReportCutShort (Conform (comparison false) Strict) (Some bytes) (Some [])
        (Some (codes "k"))
        (Some (codes "k" ++ take 3 text)) }
    ensures drawing { (bytes text : List ℕ)
        → IsDrawingOf all_steps bytes text → length bytes ≤ 1_048_576
        → IsReportWritten (codes "draw", option_row (codes "seen") (codes "false")) None
        (Some bytes) (Some []) (Some (codes "k")) (Some (codes "k" ++ text)) }
    ensures reported { (found : Text × List Row) (had left held holds : Option (List ℕ))
        (is : IsReportWritten found None had left held holds)
        → IsAskedBy found is.0 × IsReported is.0 None had left held holds }
    ensures drawing_cut { (bytes text : List ℕ)
        → IsDrawingOf all_steps bytes text → length bytes ≤ 1_048_576 → 3 < length text
        → IsReportCut (codes "draw", option_row (codes "seen") (codes "false")) (Some bytes)
        (Some []) (Some (codes "k"))
        (Some (codes "k" ++ take 3 text)) }
    ensures cut { (found : Text × List Row) (had left held holds : Option (List ℕ))
        (is : IsReportCut found had left held holds)
        → IsAskedBy found is.0 × IsReportCutShort is.0 had left held holds }
{}

/// What is written of a document that is too long: the text of a check, and of no other report.
pub fn documents_too_long()
    ensures texts { map text_if_too_long
        (Check strict_check ∷ Check (check_in check_form.Json) ∷ Explain all_lines Own
        ∷ Trace Json Own ∷ Chrome Own ∷ Count ∷ Draw whole_drawing Seen
        ∷ Conform (comparison true) Friendly ∷ Expand ∷ explore_within exploration.Json 3 4 ∷ [])
        ≡ Some (codes "document too long: it has more than 1048576 bytes\n")
        ∷ Some (too_long_text check_form.Json) ∷ replicate 8 None }
    ensures told { (bytes : List ℕ) → 1_048_576 < length bytes
        → IsReported (Check plain_check) (Some TooLong) (Some bytes) (Some [])
        (Some (codes "k"))
        (Some (codes "k" ++ too_long_text check_form.Lines)) }
    ensures nothing_else_told { (had left held holds : Option (List ℕ))
        → IsReported (Check plain_check) (Some BadCaps) had left held holds
        → IsTextWritten (λ bytes text. IsWholeCheck plain_check bytes (Some BadCaps) text)
        had left held holds }
    ensures no_totals { (had left held holds : Option (List ℕ))
        → ¬ IsReported Count (Some TooLong) had left held holds }
    ensures cut { (bytes : List ℕ) → 1_048_576 < length bytes
        → IsReportCutShort (Check plain_check) (Some bytes) (Some []) (Some (codes "k"))
        (Some (codes "kdoc")) }
    ensures not_cut { (had left held holds : Option (List ℕ))
        → ¬ IsTooLongCut (Some []) had left held holds }
    ensures no_byte { ¬ IsTooLongTold (Some (codes "a")) (Some []) (Some []) None None }
{}

/// The commands that ask for a report.
#[tactic(auto, unfolding(clap::proofs::OnLiterals::clap_on_literals))]
pub fn names_of_reports()
    ensures check { IsReportName (codes "check") }
    ensures explain { IsReportName (codes "explain") }
    ensures trace { IsReportName (codes "trace") }
    ensures count { IsReportName (codes "count") }
    ensures draw { IsReportName (codes "draw") }
    ensures conform { IsReportName (codes "conform") }
    ensures expand { IsReportName (codes "expand") }
    ensures explore { IsReportName (codes "explore") }
    ensures serve { ¬ IsReportName (codes "serve") }
    ensures asks_check { IsAskedBy (codes "check", check_rows []) (Check plain_check) }
    ensures asks_strict_check { IsAskedBy (codes "check", check_rows (codes "strict"))
        (Check strict_check) }
    ensures asks_json_check { IsAskedBy (codes "check", check_rows (codes "json"))
        (Check (check_in check_form.Json)) }
    ensures asks_source { IsAskedBy (codes "check", check_rows (codes "source"))
        (Check (check_in (check_form.Source false))) }
    ensures asks_color { IsAskedBy (codes "check", check_rows (codes "color"))
        (Check (check_in (check_form.Source true))) }
    ensures no_source { ¬ IsAskedBy (codes "check", check_rows (codes "source"))
        (Check (check_in check_form.Lines)) }
    ensures no_strict_check { ¬ IsAskedBy (codes "check", check_rows []) (Check strict_check) }
    ensures no_plain_check { ¬ IsAskedBy (codes "check", check_rows (codes "strict"))
        (Check plain_check) }
    ensures asks_explain { IsAskedBy (codes "explain", option_row (codes "seen") (codes "false"))
        (Explain all_lines Own) }
    ensures asks_seen { IsAskedBy (codes "explain", option_row (codes "seen") (codes "true"))
        (Explain all_lines Seen) }
    ensures no_own_run { ¬ IsAskedBy (codes "explain", option_row (codes "seen") (codes "true"))
        (Explain all_lines Own) }
    ensures no_seen_run { ¬ IsAskedBy (codes "draw", option_row (codes "seen") (codes "false"))
        (Draw whole_drawing Seen) }
    ensures asks_count { IsAskedBy (codes "count", []) Count }
    ensures asks_expand { IsAskedBy (codes "expand", []) Expand }
    ensures no_expand { ¬ IsAskedBy (codes "expand", []) Count }
    ensures asks_explore { IsAskedBy (codes "explore", explore_rows (codes "7") (codes "65536"))
        (explore_within exploration.Table 7 65_536) }
    ensures asks_show { IsAskedBy
        (codes "explore", show_rows (codes "7") (codes "65536") (codes "x: accepted"))
        (show_within 7 65_536 (codes "x: accepted")) }
    ensures shows_no_table { ¬ IsAskedBy
        (codes "explore", show_rows (codes "7") (codes "65536") (codes "x: accepted"))
        (explore_within exploration.Table 7 65_536) }
    ensures no_row { ¬ IsAskedBy (codes "explore", explore_rows (codes "7") (codes "9"))
        (show_within 7 9 (codes "x: accepted")) }
    ensures other_row { ¬ IsAskedBy
        (codes "explore", show_rows (codes "7") (codes "9") (codes "x: accepted"))
        (show_within 7 9 (codes "y: accepted")) }
    ensures asks_json_lines { IsAskedBy
        (codes "explore", json_rows (codes "true") (explore_rows (codes "7") (codes "9")))
        (explore_within exploration.Json 7 9) }
    ensures asks_a_table { IsAskedBy
        (codes "explore", json_rows (codes "false") (explore_rows (codes "7") (codes "9")))
        (explore_within exploration.Table 7 9) }
    ensures json_is_no_table { ¬ IsAskedBy
        (codes "explore", json_rows (codes "true") (explore_rows (codes "7") (codes "9")))
        (explore_within exploration.Table 7 9) }
    ensures a_table_is_no_json { ¬ IsAskedBy
        (codes "explore", json_rows (codes "false") (explore_rows (codes "7") (codes "9")))
        (explore_within exploration.Json 7 9) }
    ensures shows_no_row_in_json { ¬ IsAskedBy (
      codes "explore",
      json_rows (codes "true") (show_rows (codes "7") (codes "9") (codes "x: accepted")),
    )
        (show_within 7 9 (codes "x: accepted")) }
    ensures no_totals { ¬ IsAskedBy (codes "explore", explore_rows (codes "7") (codes "9")) Count }
    ensures other_bounds { ¬ IsAskedBy (codes "explore", explore_rows (codes "7") (codes "9"))
        (explore_within exploration.Table 9 7) }
    ensures other_key_bytes { ¬ IsAskedBy (codes "explore", explore_rows (codes "7") (codes "9"))
        (explore_within exploration.Table 7 8) }
    ensures no_exploration { ¬ IsAskedBy (codes "draw", explore_rows (codes "7") (codes "9"))
        (explore_within exploration.Table 7 9) }
    ensures asks_draw { IsAskedBy (codes "draw", option_row (codes "seen") (codes "false"))
        (Draw whole_drawing Own) }
    ensures asks_steps { IsAskedBy (codes "draw", draw_rows (codes "3..9") (codes "false"))
        (Draw (drawing_of 3 10) Own) }
    ensures no_other_steps { ¬ IsAskedBy (codes "draw", draw_rows (codes "3..9") (codes "false"))
        (Draw whole_drawing Own) }
    ensures asks_conform { IsAskedBy (codes "conform", conform_rows [])
        (Conform (comparison false) Strict) }
    ensures asks_all { IsAskedBy (codes "conform", conform_rows (codes "all"))
        (Conform (comparison true) Strict) }
    ensures asks_friendly { IsAskedBy (codes "conform", conform_rows (codes "friendly"))
        (Conform (comparison false) Friendly) }
    ensures no_friendly { ¬ IsAskedBy (codes "conform", conform_rows (codes "all"))
        (Conform (comparison true) Friendly) }
    ensures asks_wide { IsAskedBy (codes "trace", trace_rows (codes "wide") (codes "false"))
        (Trace Wide Own) }
    ensures asks_changes { IsAskedBy (codes "trace", trace_rows (codes "changes") (codes "false"))
        (Trace Changes Own) }
    ensures asks_trace { IsAskedBy (codes "trace", trace_rows [] (codes "false"))
        (Trace Table Own) }
    ensures asks_json { IsAskedBy (codes "trace", trace_rows (codes "json") (codes "false"))
        (Trace Json Own) }
    ensures asks_seen_json { IsAskedBy (codes "trace", trace_rows (codes "json") (codes "true"))
        (Trace Json Seen) }
    ensures asks_chrome { IsAskedBy (codes "trace", trace_rows (codes "chrome") (codes "true"))
        (Chrome Seen) }
    ensures no_chrome { ¬ IsAskedBy (codes "trace", trace_rows (codes "json") (codes "false"))
        (Chrome Own) }
    ensures no_table { ¬ IsAskedBy (codes "trace", trace_rows (codes "json") (codes "false"))
        (Trace Table Own) }
    ensures other_report { ¬ IsAskedBy (codes "draw", trace_rows [] (codes "false"))
        (Trace Table Own) }
    ensures other_form { ¬ IsAskedBy (codes "trace", trace_rows [] (codes "false"))
        (Trace Json Own) }
    ensures other_run { ¬ IsAskedBy (codes "trace", trace_rows (codes "json") (codes "true"))
        (Trace Json Own) }
{}

/// The lines that the options of `explain` choose, and words with which no answer begins.
#[tactic(auto, unfolding(clap::proofs::OnLiterals::clap_on_literals))]
pub fn lines_chosen()
    ensures asked { IsAskedBy (
      codes "explain",
      explain_rows (codes "3") (codes "2")
          (codes "retry,idle") (codes "true"),
    ) (Explain lines_of_one_entry Seen) }
    ensures these { (name client : Option ℕ) (answers : Option AnswerWords)
        → IsSelectionOf (option_row (codes "name") (codes "7"))
        (record { name = name; client = client; answers = answers })
        → (name ≡ Some 7) × (client ≡ None) × (answers ≡ None) }
    ensures of_client { (name client : Option ℕ) (answers : Option AnswerWords)
        → IsSelectionOf (option_row (codes "client") (codes "65535"))
        (record { name = name; client = client; answers = answers })
        → (name ≡ None) × (client ≡ Some 65_535) × (answers ≡ None) }
    ensures most { (name client : Option ℕ) (answers : Option AnswerWords)
        → IsSelectionOf (option_row (codes "name") (codes "4294967295"))
        (record { name = name; client = client; answers = answers })
        → name ≡ Some 4_294_967_295 }
    ensures no_words { ¬ IsSelectionOf (option_row (codes "only") (codes "idle")) all_lines }
    ensures other_words { ¬ IsSelectionOf (option_row (codes "only") (codes "idle"))
        (of_answers (codes "full")) }
    ensures no_such_words { ¬ IsSelectionOf (option_row (codes "only") (codes "idel"))
        (of_answers (codes "idel")) }
    ensures past_bounds { IsNumberGiven (option_row (codes "client") (codes "65536"))
        (codes "client") 65_535 (Some 7) }
    ensures unknown { map unknown_answer
        (option_row (codes "only") (codes "retry,idel") ∷ option_row (codes "only") (codes "idle")
        ∷ option_row (codes "onl") (codes "idel") ∷ [] ∷ [])
        ≡ Some (codes "idel") ∷ None ∷ None ∷ None ∷ [] }
    ensures unknown_asked { IsWrongIn (
      codes "explain",
      option_row (codes "only")
          (codes "gone,on"),
    ) (Answer (lent_text (codes "on"))) }
    ensures of_no_drawing { ¬ IsWrongIn (
      codes "draw",
      option_row (codes "only")
          (codes "gone,on"),
    ) (Answer (lent_text (codes "on"))) }
    ensures no_range { IsWrongIn (codes "draw", draw_rows (codes "9..3") (codes "false"))
        (Range (lent_text (codes "9..3"))) }
    ensures a_range { ¬ IsWrongIn (codes "draw", draw_rows (codes "3..9") (codes "false"))
        (Range (lent_text (codes "3..9"))) }
    ensures ranges { map (λ steps. range_asked (draw_rows steps (codes "false")))
        (codes "3..9" ∷ codes "3" ∷ codes "9..3" ∷ [])
        ≡ Some (drawing_of 3 10).steps ∷ None ∷ None ∷ [] }
    ensures show_and_json { IsWrongIn
        (codes "explore", json_rows (codes "true") (show_rows (codes "7") (codes "9") []))
        (wrong_value.Clash ShowAndJson) }
    ensures show_alone { ¬ IsWrongIn
        (codes "explore", json_rows (codes "false") (show_rows (codes "7") (codes "9") []))
        (wrong_value.Clash ShowAndJson) }
    ensures json_alone { ¬ IsWrongIn
        (codes "explore", json_rows (codes "true") (explore_rows (codes "7") (codes "9")))
        (wrong_value.Clash ShowAndJson) }
    ensures of_no_trace { ¬ IsWrongIn
        (codes "trace", json_rows (codes "true") (show_rows (codes "7") (codes "9") []))
        (wrong_value.Clash ShowAndJson) }
    ensures said_of_show { wrong_value_text (wrong_value.Clash ShowAndJson)
        ≡ codes "error: the argument '--show <ROW>' cannot be used with '--json'"
        ++ codes "\n\nFor more information, try '--help'.\n" }
    ensures by_expand { AsksBy (codes "expand", []) (Report Expand) }
    ensures by_report { AsksBy (codes "count", []) (Report Count) }
    ensures by_unknown { AsksBy (codes "explain", option_row (codes "only") (codes "gone,on"))
        (WrongValue (Answer (lent_text (codes "on")))) }
    ensures by_nothing { ¬ AsksBy (codes "serve", []) (Serve Strict) }
    ensures said_of_steps { wrong_value_text (Range (lent_text (codes "9..3")))
        ≡ codes "error: invalid value '9..3' for '--steps <A..B>': "
        ++ codes "a range as 3..9, 3.. or ..9 is wanted\n\nFor more information, try '--help'.\n" }
    ensures said { wrong_value_text (Answer (lent_text (codes "idel")))
        ≡ codes "error: invalid value 'idel' for '--only <WORDS>'\n  [possible values: accepted, "
        ++ codes "retry, dropped, taken, idle, fetched, no-batch, all-fetched, started, "
        ++ codes "fence-wait, no-buffers, abandoned, done, not-ready, gone, ended, active, "
        ++ codes "refused, finished, nothing, written, cleared, full]"
        ++ codes "\n\nFor more information, try '--help'.\n" }
{}

/// What the options of `threads` say: numbers between bounds, the bounds among them.
#[tactic(auto, unfolding(clap::proofs::OnLiterals::clap_on_literals))]
pub fn numbers_of_options()
    ensures least { (n : ℕ)
        → IsNumberOf (option_row (codes "each") (codes "1")) (codes "each") 1 1_000 n
        → IsNumeral 10 (codes "1") → n ≡ 1 }
    ensures most { (n : ℕ)
        → IsNumberOf (option_row (codes "each") (codes "1000")) (codes "each") 1 1_000 n
        → IsNumeral 10 (codes "1000") → n ≡ 1_000 }
    ensures below { IsNumberOf (option_row (codes "each") (codes "0")) (codes "each") 1 1_000 7 }
    ensures above { IsNumberOf (option_row (codes "each") (codes "1001")) (codes "each") 1 1_000 7 }
    ensures no_number { IsNumberOf (option_row (codes "each") (codes "1a")) (codes "each") 1 1_000
        7 }
    ensures says { SaysNumber (option_row (codes "each") (codes "7")) (codes "each") 1 1_000 7 }
    ensures says_no_other { ¬ SaysNumber (option_row (codes "each") (codes "7")) (codes "each") 1
        1_000 8 }
    ensures says_no_bound { (n : ℕ)
        → ¬ SaysNumber (option_row (codes "each") (codes "1001")) (codes "each") 1 1_000 n }
    ensures says_high { SayHighThreshold
        (option_row (codes "size") (codes "4") ++ option_row (codes "threshold") (codes "5")) }
    ensures says_the_size { ¬ SayHighThreshold
        (option_row (codes "size") (codes "5") ++ option_row (codes "threshold") (codes "5")) }
    ensures past_bounds { AreNumbersOf (option_row (codes "clients") (codes "17")) (load 2 3 5 7)
        × AreNumbersOf (option_row (codes "engines") (codes "9")) (load 2 3 5 7)
        × AreNumbersOf (option_row (codes "each") (codes "1001")) (load 2 3 5 7)
        × AreNumbersOf (option_row (codes "turns") (codes "40001")) (load 2 3 5 7)
        × AreNumbersOf (option_row (codes "buffers") (codes "3")) (load 2 3 5 7) }
    ensures bounds { (states key_bytes : ℕ)
        → AreBoundsOf (explore_rows (codes "1") (codes "256")) (bounds_of states key_bytes)
        → (states ≡ 1) × (key_bytes ≡ 256) }
    ensures most_states { (states : ℕ)
        → AreBoundsOf (option_row (codes "states") (codes "16777216")) (bounds_of states 7)
        → states ≡ 16_777_216 }
    ensures all { (rows : List Row) (asked : Workload) → AreNumbersOf rows asked
        → IsNumberOf rows (codes "clients") 1 16 asked.clients
        × IsNumberOf rows (codes "engines") 1 8 asked.engines
        × IsNumberOf rows (codes "each") 1 1_000 asked.each
        × IsNumberOf rows (codes "turns") 1 40_000 asked.turns
        × IsNumberOf rows (codes "size") 1 1_024 asked.size
        × IsNumberOf rows (codes "threshold") 1 1_024 asked.threshold
        × IsNumberOf rows (codes "slots") 1 16 asked.slots
        × IsNumberOf rows (codes "buffers") 4 255 asked.buffers }
{}

/// What is said of a threshold of 13 where the size is 11.
#[tactic(auto, unfolding(dsa_scenario::specs::Worked::digits_on_literals))]
pub fn lines_of_a_high_threshold()
    ensures { high_threshold_text (sized 11 13 4 32)
        ≡ codes "error: invalid value '13' for '--threshold <NUMBER>': 13 is above the size, 11"
        ++ codes "\n\nFor more information, try '--help'.\n" }
{}

/// The scripts of two clients and of engines.
pub fn scripts_of_a_run()
    ensures these { (scripts : Scripts) (first second : Vec ClientStep)
        → first.items ≡ replicate 3 (move_under 1) → second.items ≡ replicate 3 (move_under 2)
        → vec_len scripts.clients ≡ 2 → scripts.clients.items ≡ first ∷ second ∷ []
        → scripts.engines.items ≡ replicate 4 engine_script → scripts.admin.items ≡ []
        → AreScriptsOf (load 2 4 3 5) scripts }
    ensures count { (scripts : Scripts) → AreScriptsOf (load 2 3 5 7) scripts
        → vec_len scripts.clients ≡ 2 }
    ensures clients { (scripts : Scripts) → AreScriptsOf (load 2 3 5 7) scripts
        → (c : ℕ) (d : Vec ClientStep) → c < 2
        → IsClientScript (c + 1) 5 (slice_index_or scripts.clients.items c d) }
    ensures engines { (scripts : Scripts) → AreScriptsOf (load 2 3 5 7) scripts
        → scripts.engines.items ≡ replicate 3 engine_script }
    ensures admin { (scripts : Scripts) → AreScriptsOf (load 2 3 5 7) scripts
        → scripts.admin.items ≡ [] }
    ensures steps { (script : Vec ClientStep) → IsClientScript 4 5 script
        → length script.items ≡ 5 }
    ensures moves { (script : Vec ClientStep) → IsClientScript 4 5 script
        → All (Submits 4) script.items }
    ensures other_queue { ¬ Submits 3
        (record { queue = 1; portal = Limited; kind = Enqcmd 3; bytes = page_move_bytes }) }
    ensures other_portal { ¬ Submits 3
        (record { queue = 0; portal = Unlimited; kind = Enqcmd 3; bytes = page_move_bytes }) }
    ensures other_kind { ¬ Submits 3
        (record { queue = 0; portal = Limited; kind = Movdir64b; bytes = page_move_bytes }) }
    ensures other_work { ¬ Submits 3
        (record { queue = 0; portal = Limited; kind = Enqcmd 3; bytes = replicate 64 0 }) }
{}

/// What is said of a fault, and of the output, at the end of the program.
pub fn endings()
    ensures told { (out : WatchedWriter ℕ) (old new : WatchedWriter (List ℕ))
        → is_closed out ≡ false → has_refused new ≡ false
        → IsFaultTold out (λ held. Some held) old new (codes "x")
        → new.writer.now ≡ old.writer.now ++ codes "x" }
    ensures nobody_reads { (out : WatchedWriter ℕ) (old new : WatchedWriter (List ℕ))
        → is_closed out ≡ true → IsFaultTold out (λ held. Some held) old new (codes "x") }
    ensures not_taken { (out : WatchedWriter ℕ) (old new : WatchedWriter (List ℕ))
        → has_refused new ≡ true → IsFaultTold out (λ held. Some held) old new (codes "x") }
    ensures quiet { (out old new : WatchedWriter ℕ) → IsQuiet 0 out old new → new ≡ old }
    ensures quiet_where_nobody_reads { (out old new : WatchedWriter ℕ)
        → is_closed out ≡ true → IsQuiet 1 out old new → new ≡ old }
    ensures not_quiet { (out old new : WatchedWriter ℕ)
        → is_closed out ≡ false → IsQuiet 1 out old new }
    ensures mistaken_words { (out old new : WatchedWriter ℕ) → IsQuiet 2 out old new }
    ensures refused { (out : WatchedWriter ℕ) → IsWriteRefused Write out → has_refused out ≡ true }
    ensures not_of_writing { (out : WatchedWriter ℕ) → IsWriteRefused OutOfMemory out }
    ensures no_memory { (writer : WatchedWriter ℕ) → IsUnwritten OutOfMemory writer writer }
    ensures unwritten { (old new : WatchedWriter ℕ)
        → has_refused new ≡ true → IsUnwritten Write old new }
    ensures kept { (old new : WatchedWriter ℕ) → IsUnwritten OutOfMemory old new → new ≡ old }
    ensures refused_words { (old new : WatchedWriter ℕ)
        → IsUnwritten Write old new → has_refused new ≡ true }
    ensures not_of_reading { (old new : WatchedWriter ℕ) → ¬ IsUnwritten Read old new }
    ensures end { (status : ℕ) (out out' err err' : WatchedWriter ℕ)
        → IsEnd status out out' err err'
        → IsSameWriter out out'
        × IsSameWriter err err'
        × IsQuiet status out' err err'
        × ((status ≡ 0) ⊎ (status ≡ 1)) }
    ensures refused_with { (old new : WatchedWriter (List ℕ)) → has_refused new ≡ false
        → IsRefusal 2 (λ held. Some held) old new (codes "x")
        → new.writer.now ≡ old.writer.now ++ codes "x" }
    ensures refusal { (status : ℕ) (old new : WatchedWriter (List ℕ))
        → IsRefusal status (λ held. Some held) old new (codes "x")
        → (status ≡ 2) × IsSameWriter old new }
    ensures ended { (out : WatchedWriter ℕ) (old new : WatchedWriter (List ℕ))
        → is_closed out ≡ false → has_refused new ≡ false
        → IsEndedBy (λ fault. fault ≡ TooLong) out (λ held. Some held) old new
        → new.writer.now ≡ old.writer.now ++ fault_line TooLong }
    ensures first_line_refused { (had left : Option (List ℕ)) (old new : ℕ)
        → IsServeStopped [] TooLong had left (λ n. Some (n ∷ [])) old new → new ≡ old }
{}

/// What gave rise to a fault, and what the writer holds then.
pub fn stops()
    ensures of_the_reader { (had left : Option (List ℕ))
        → IsStoppedBy TooLong (λ _ _ _ _. ⊥) had left (λ n. Some (n ∷ [])) 3 3
        → HasFault had left TooLong }
    ensures kept { (old new : ℕ)
        → IsStoppedBy OutOfMemory (λ _ _ _ _. ⊥) (Some []) (Some []) (λ n. Some (n ∷ [])) old new
        → new ≡ old }
    ensures cut { (old new : ℕ)
        → IsStoppedBy Write (λ _ _ held holds. holds ≡ held) (Some []) (Some [])
        (λ n. Some (n ∷ [])) old new
        → Some (new ∷ []) ≡ Some (old ∷ []) }
    ensures written { IsStoppedBy Write (λ _ _ _ _. ⊤) (Some []) (Some [])
        (λ n. Some (n ∷ [])) 3 4 }
    ensures not_written { IsStoppedBy OutOfMemory (λ _ _ _ _. ⊥) (Some []) (Some [])
        (λ n. Some (n ∷ [])) 3 3 }
{}

/// Only of a check, of a conformance and of a run that was seen, a fault is told after the report;
/// of that run it is a step that says no answer.
pub fn reports_of_documents()
    ensures no_explanation { (bytes text : List ℕ)
        → ¬ IsReportOf (Explain all_lines Own) bytes (Some BadCaps) text }
    ensures no_seen_explanation { (bytes text : List ℕ)
        → ¬ IsReportOf (Explain all_lines Seen) bytes (Some BadCaps) text }
    ensures no_trace { (bytes text : List ℕ)
        → ¬ IsReportOf (Trace Json Own) bytes (Some BadCaps) text }
    ensures no_chrome_trace { (bytes text : List ℕ)
        → ¬ IsReportOf (Chrome Own) bytes (Some BadCaps) text }
    ensures no_totals { (bytes text : List ℕ) → ¬ IsReportOf Count bytes (Some BadCaps) text }
    ensures no_drawing { (bytes text : List ℕ)
        → ¬ IsReportOf (Draw whole_drawing Own) bytes (Some BadCaps) text }
    ensures check { (bytes text : List ℕ)
        → IsReportOf (Check plain_check) bytes (Some BadCaps) text
        → IsWholeCheck plain_check bytes (Some BadCaps) text }
    ensures explanation { (bytes text : List ℕ)
        → IsReportOf (Explain all_lines Own) bytes None text
        → AreNamedLines all_lines bytes text }
    ensures chosen { (bytes text : List ℕ)
        → IsReportOf (Explain (of_name 3) Own) bytes None text
        → AreNamedLines (of_name 3) bytes text }
    ensures seen_explanation { (bytes text : List ℕ)
        → IsReportOf (Explain (of_name 3) Seen) bytes None text
        → IsNamedAsSeen (AreNamedLinesOf (of_name 3)) bytes None text }
    ensures friendly { (bytes text : List ℕ)
        → IsReportOf (Conform (comparison false) Friendly) bytes None text
        → IsMadeOfFriendly (IsConformanceOf false) bytes None text }
    ensures trace { (bytes text : List ℕ)
        → IsReportOf (Trace Json Own) bytes None text → IsNamedTrace Json bytes text }
    ensures seen_trace { (bytes text : List ℕ)
        → IsReportOf (Trace Json Seen) bytes None text
        → IsNamedAsSeen (IsNamedTraceOf Json) bytes None text }
    ensures chrome_trace { (bytes text : List ℕ)
        → IsReportOf (Chrome Own) bytes None text → IsChromeTrace bytes text }
    ensures totals { (bytes text : List ℕ)
        → IsReportOf Count bytes None text → AreTotalsOfDocument bytes text }
    ensures drawing { (bytes text : List ℕ)
        → IsReportOf (Draw (drawing_of 3 10) Own) bytes None text
        → IsDrawingOf (drawing_of 3 10).steps bytes text }
    ensures seen_drawing { (bytes text : List ℕ)
        → IsReportOf (Draw whole_drawing Seen) bytes (Some (BadStep 7)) text
        → IsUnread bytes 7 × (text ≡ []) }
    ensures exploration { (bytes text : List ℕ)
        → IsReportOf (explore_within exploration.Json 3 4) bytes (Some Incomplete) text
        → IsExplorationOf exploration.Json (bounds_of 3 4) bytes (Some Incomplete) text }
    ensures row_shown { (bytes text : List ℕ)
        → IsReportOf (show_within 3 4 (codes "x: accepted")) bytes None text
        → IsShown (bounds_of 3 4) (codes "x: accepted") bytes text }
    ensures answer_shown { (bytes text : List ℕ)
        → IsReportOf (show_within 3 4 (codes "never 0")) bytes (Some (BadQuestion 0)) text
        → IsAnswerShowingOf (bounds_of 3 4) (codes "never 0") bytes (Some (BadQuestion 0)) text }
    ensures conformance { (bytes text : List ℕ)
        → IsReportOf (Conform (comparison true) Strict) bytes (Some BadCaps) text
        → IsConformanceOf true bytes (Some BadCaps) text }
{}

/// What the words name, where nothing is wrong with them; to ask for help counts too.
#[tactic(auto, unfolding(clap::proofs::OnLiterals::clap_on_literals))]
pub fn named_commands()
    ensures count { NameReport (codes "count" ∷ []) (codes "count", []) }
    ensures help_with_draw { (found : Text × List Row)
        → ¬ NameReport (codes "draw" ∷ codes "--help" ∷ []) found }
    ensures other_report { ¬ NameReport (codes "draw" ∷ []) (codes "check", []) }
    ensures serve_is_no_report { (rows : List Row)
        → ¬ NameReport (codes "serve" ∷ []) (codes "serve", rows) }
    ensures help_with_threads { (rows : List Row)
        → ¬ NameThreads (codes "threads" ∷ codes "--help" ∷ []) rows }
    ensures no_threads { (rows : List Row) → ¬ NameThreads (codes "serve" ∷ []) rows }
    ensures help { ¬ NameNothing (codes "--help" ∷ []) }
    ensures draw_is_something { ¬ NameNothing (codes "draw" ∷ []) }
    ensures help_with_serve { (rows : List Row)
        → ¬ NameServe (codes "serve" ∷ codes "--help" ∷ []) rows }
    ensures no_serve { (rows : List Row) → ¬ NameServe [] rows }
    ensures no_input_for_threads { AskNoInput (codes "threads" ∷ []) }
    ensures no_input_for_help { AskNoInput (codes "draw" ∷ codes "--help" ∷ []) }
    ensures input { ¬ AskNoInput [] }
    ensures input_for_draw { ¬ AskNoInput (codes "draw" ∷ []) }
{}

/// What the words ask for, and which are mistaken.
#[tactic(auto, unfolding(clap::proofs::OnLiterals::clap_on_literals))]
pub fn asked()
    ensures scenario { AsksFor [] Scenario }
    ensures help_is_scenario { AsksFor (codes "help" ∷ []) Scenario }
    ensures no_scenario { ¬ AsksFor (codes "threads" ∷ []) Scenario }
    ensures threads { AsksFor (threads_with (codes "--engines") (codes "3"))
        (Threads (load 2 3 100 10_000)) }
    ensures trace { AsksFor (codes "trace" ∷ []) (Report (Trace Table Own)) }
    ensures json { AsksFor json_trace (Report (Trace Json Own)) }
    ensures chrome { AsksFor (codes "trace" ∷ codes "--chrome" ∷ []) (Report (Chrome Own)) }
    ensures chrome_and_json { AsksFor (codes "trace" ∷ codes "--json" ∷ codes "--chrome" ∷ [])
        (Report (Chrome Own)) }
    ensures seen_trace { AsksFor (words_with_seen (codes "trace")) (Report (Trace Table Seen)) }
    ensures seen_json { AsksFor seen_json_trace (Report (Trace Json Seen)) }
    ensures check { AsksFor (codes "check" ∷ []) (Report (Check plain_check)) }
    ensures strict_check { AsksFor strict_words (Report (Check strict_check)) }
    ensures no_plain_check { ¬ AsksFor strict_words (Report (Check plain_check)) }
    ensures no_strict_check { ¬ AsksFor (codes "check" ∷ []) (Report (Check strict_check)) }
    ensures explain { AsksFor (codes "explain" ∷ []) (Report (Explain all_lines Own)) }
    ensures seen_explain { AsksFor (words_with_seen (codes "explain"))
        (Report (Explain all_lines Seen)) }
    ensures no_own_explain { ¬ AsksFor (words_with_seen (codes "explain"))
        (Report (Explain all_lines Own)) }
    ensures chosen { AsksFor chosen_words (Report (Explain lines_of_one_entry Seen)) }
    ensures no_lines_chosen { ¬ AsksFor chosen_words (Report (Explain all_lines Seen)) }
    ensures unknown_answer { AsksFor (explain_with (codes "--only") (codes "idle,idel"))
        (WrongValue (Answer (lent_text (codes "idel")))) }
    ensures known_answer { ¬ AsksFor (explain_with (codes "--only") (codes "idle"))
        (WrongValue (Answer (lent_text (codes "idle")))) }
    ensures count { AsksFor (codes "count" ∷ []) (Report Count) }
    ensures explore { AsksFor (codes "explore" ∷ [])
        (Report (explore_within exploration.Table 100_000 256)) }
    ensures show { AsksFor (explore_with (codes "--show") (codes "x: accepted"))
        (Report (show_within 100_000 256 (codes "x: accepted"))) }
    ensures json_explore { AsksFor (codes "explore" ∷ codes "--json" ∷ [])
        (Report (explore_within exploration.Json 100_000 256)) }
    ensures no_json { ¬ AsksFor (codes "explore" ∷ [])
        (Report (explore_within exploration.Json 100_000 256)) }
    ensures no_table { ¬ AsksFor (codes "explore" ∷ codes "--json" ∷ [])
        (Report (explore_within exploration.Table 100_000 256)) }
    ensures json_and_show { AsksFor json_and_show (WrongValue (wrong_value.Clash ShowAndJson)) }
    ensures few_states { AsksFor (explore_with (codes "--states") (codes "1"))
        (Report (explore_within exploration.Table 1 256)) }
    ensures long_keys { AsksFor (explore_with (codes "--key-bytes") (codes "65536"))
        (Report (explore_within exploration.Table 100_000 65_536)) }
    ensures other_states { ¬ AsksFor (codes "explore" ∷ [])
        (Report (explore_within exploration.Table 7 256)) }
    ensures other_search { ¬ AsksFor (codes "count" ∷ [])
        (Report (explore_within exploration.Table 100_000 256)) }
    ensures draw { AsksFor (codes "draw" ∷ []) (Report (Draw whole_drawing Own)) }
    ensures seen_draw { AsksFor (words_with_seen (codes "draw"))
        (Report (Draw whole_drawing Seen)) }
    ensures no_seen_draw { ¬ AsksFor (codes "draw" ∷ [])
        (Report (Draw whole_drawing Seen)) }
    ensures steps { AsksFor (codes "draw" ∷ codes "--steps" ∷ codes "3..9" ∷ [])
        (Report (Draw (drawing_of 3 10) Own)) }
    ensures no_steps { AsksFor (codes "draw" ∷ codes "--steps" ∷ codes "9..3" ∷ [])
        (WrongValue (Range (lent_text (codes "9..3")))) }
    ensures conform { AsksFor (codes "conform" ∷ []) (Report (Conform (comparison false) Strict)) }
    ensures conform_all { AsksFor (codes "conform" ∷ codes "--all" ∷ [])
        (Report (Conform (comparison true) Strict)) }
    ensures friendly { AsksFor (codes "conform" ∷ codes "--friendly" ∷ [])
        (Report (Conform (comparison false) Friendly)) }
    ensures wide { AsksFor (codes "trace" ∷ codes "--wide" ∷ []) (Report (Trace Wide Own)) }
    ensures changes { AsksFor (codes "trace" ∷ codes "--wide" ∷ codes "--changes" ∷ [])
        (Report (Trace Changes Own)) }
    ensures json_check { AsksFor (codes "check" ∷ codes "--json" ∷ [])
        (Report (Check (check_in check_form.Json))) }
    ensures colored_check { AsksFor (codes "check" ∷ codes "--source" ∷ codes "--color" ∷ [])
        (Report (Check (check_in (check_form.Source true)))) }
    ensures serve { AsksFor (codes "serve" ∷ []) (Serve Strict) }
    ensures friendly_serve { AsksFor (codes "serve" ∷ codes "--friendly" ∷ []) (Serve Friendly) }
    ensures draw_is_no_scenario { ¬ AsksFor (codes "draw" ∷ []) Scenario }
    ensures serve_is_no_scenario { ¬ AsksFor (codes "serve" ∷ []) Scenario }
    ensures other_report { ¬ AsksFor (codes "draw" ∷ [])
        (Report (Check plain_check)) }
    ensures nothing_is_no_report { ¬ AsksFor [] (Report (Draw whole_drawing Own)) }
    ensures nothing_is_no_threads { ¬ AsksFor [] (Threads (load 2 2 100 10_000)) }
    ensures other_numbers { ¬ AsksFor (threads_with (codes "--engines") (codes "3"))
        (Threads (load 2 7 100 10_000)) }
    ensures high_threshold { AsksFor (threads_with (codes "--threshold") (codes "17"))
        (HighThreshold (record (load 2 2 100 10_000) { threshold = 17 })) }
    ensures threshold_at_the_size { ¬ AsksFor (threads_with (codes "--threshold") (codes "16"))
        (HighThreshold (record (load 2 2 100 10_000) { threshold = 16 })) }
    ensures mistaken { IsMistaken (codes "scenario" ∷ []) }
    ensures mistaken_threshold { IsMistaken (threads_with (codes "--threshold") (codes "17")) }
    ensures mistaken_show { IsMistaken json_and_show }
    ensures mistaken_answer { IsMistaken (explain_with (codes "--only") (codes "idel")) }
    ensures help { ¬ IsMistaken (codes "--help" ∷ []) }
    ensures version { ¬ IsMistaken (codes "--version" ∷ []) }
    ensures none { ¬ IsMistaken [] }
    ensures understood { IsUnderstood [] }
    ensures help_understood { IsUnderstood (codes "--help" ∷ []) }
    ensures version_understood { IsUnderstood (codes "--version" ∷ []) }
    ensures not_understood { ¬ IsUnderstood (codes "scenario" ∷ []) }
    ensures nothing_named { NameNothing [] }
    ensures two_dashes { NameNothing (codes "--" ∷ []) }
{}

/// The line of a fault of the workers.
pub fn lines_of_faults()
    ensures { map threads_fault_line (fault.SettleRefused ∷ fault.Write ∷ fault.OutOfMemory ∷ [])
        ≡ codes "dsa_run: settle refused\n" ∷ codes "dsa_run: write failed\n"
        ∷ codes "dsa_run: out of memory\n" ∷ [] }
{}

/// How a report stops that is written on the way, and which one is.
pub fn reports_begun()
    ensures kept { (old new : ℕ)
        → IsStoppedOnTheWay TooLong (λ _ _ _ _. ⊤) (λ _ _ _ _. ⊤) (Some []) (Some [])
        (λ n. Some (n ∷ [])) old new
        → new ≡ old }
    ensures begun { IsStoppedOnTheWay OutOfMemory (λ _ _ _ _. ⊥) (λ _ _ _ _. ⊤) (Some []) (Some [])
        (λ n. Some (n ∷ [])) 3 4 }
    ensures not_begun { ¬ IsStoppedOnTheWay OutOfMemory (λ _ _ _ _. ⊤) (λ _ _ _ _. ⊥) (Some [])
        (Some []) (λ n. Some (n ∷ [])) 3 4 }
    ensures not_cut { ¬ IsStoppedOnTheWay Write (λ _ _ _ _. ⊥) (λ _ _ _ _. ⊤) (Some [])
        (Some []) (λ n. Some (n ∷ [])) 3 4 }
    ensures rows { (had left held holds : Option (List ℕ))
        → IsReportBegun (Trace Json Own) had left held holds
        → IsTextWritten (AreNamedLinesOfStart Json) had left held holds }
    ensures no_drawing { (had left held holds : Option (List ℕ))
        → ¬ IsReportLeft (codes "draw", []) had left held holds }
    ensures streamed { map streamed_form
        (Trace Table Own ∷ Trace Json Own ∷ Trace Json Seen ∷ Chrome Own ∷ Count ∷ [])
        ≡ Some Table ∷ Some Json ∷ None ∷ None ∷ None ∷ [] }
    ensures no_seen_trace { (form : TraceForm) (had left held holds : Option (List ℕ))
        → ¬ IsReportBegun (Trace form Seen) had left held holds }
    ensures trace_cut { (had left held holds : Option (List ℕ))
        → IsReportCutShort (Trace Table Own) had left held holds
        → IsTextCutShort (IsNamedTraceBegun Table) had left held holds }
{}
