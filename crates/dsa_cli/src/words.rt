//! What the words of the command line make the program do.

ghost use Rattle.std.specs.Prelude.{◌≡◌, ◌≢◌, ◌⊎◌, ◌≤◌, ◌<◌, ◌++◌, true, false, ℕ};
ghost use Rattle.std.specs.Prelude.{List, Some, None, [], length, take, codes, map, option_map};
ghost use Rattle.std.specs.Prelude.{string_bytes};
ghost use Rattle.std.specs.Prelude.{IfSome};
ghost use Rattle.std.specs.Io.KnownBytes.{Appends};
ghost use Rattle.clap.specs.Words.{Row, Text, kind_of};
ghost use Rattle.dsa_shared.specs.declared.settle.Totals.{Totals};
ghost use Rattle.dsa_cli.specs.declared.options.{Workload.{Workload}, WrongValue.{WrongValue}};
ghost use Rattle.dsa_cli.specs.declared.reports.{Report.{Report}, Run.{Run}};
ghost use Rattle.dsa_scenario.specs.declared.faults.ScenarioFault.{ScenarioFault};
ghost use Rattle.dsa_scenario.specs.Faults.{fault_line};
ghost use Rattle.dsa_scenario.specs.Scenario.{IsRenderingOf, IsTextWritten, IsCutShort};
ghost use Rattle.dsa_cli.specs.declared.threads.ThreadsFault.{ThreadsFault};
ghost use Rattle.dsa_cli.specs.Threads.{IsInRange, AreTotalsOf, threads_fault_line, totals_text};
ghost use Rattle.dsa_scenario.specs.Watched.{watched_contents, has_refused, is_closed};
ghost use Rattle.dsa_scenario.specs.Watched.{IsSameWriter};
ghost use Rattle.dsa_cli.specs.CommandLine.{IsMistaken, IsUnderstood, AskNoInput, faults_of_words};
ghost use Rattle.dsa_cli.specs.CommandLine.{NameNothing, NameThreads, NameReport, NameServe};
ghost use Rattle.dsa_cli.specs.CommandLine.{IsServed, IsServedIn, IsServeStopped, IsServeStoppedIn};
ghost use Rattle.dsa_cli.specs.CommandLine.{SayHighThreshold, high_threshold_text};
ghost use Rattle.dsa_cli.specs.CommandLine.{AskWrongValue, wrong_value_text};
ghost use Rattle.dsa_cli.specs.CommandLine.{clash_text, clash_words, unknown_answer_text};
ghost use Rattle.dsa_cli.specs.CommandLine.{unknown_range_text, unknown_shard_text};
ghost use Rattle.dsa_cli.specs.CommandLine.{IsReportWritten, IsReportCut, IsReportLeft};
ghost use Rattle.dsa_cli.specs.CommandLine.{AreTotalsWritten, AreTotalsCutShort};
ghost use Rattle.dsa_cli.specs.Endings.{IsEnd, IsEndedBy, IsFaultTold, IsQuiet, IsWriteRefused};
ghost use Rattle.dsa_cli.specs.Endings.{IsRefusal, IsStoppedBy, IsStoppedOnTheWay};
ghost use Rattle.dsa_cli.specs.Endings.{IsUnwritten};
ghost use Rattle.dsa_cli.specs.Reports.{IsReported, IsReportCutShort, IsReportBegun};
ghost use Rattle.dsa_cli.specs.Reports.{IsTextOrTooLong, IsTextOrTooLongCut, text_if_too_long};

use crate::options::{Asked, Clash, Workload, WrongValue, read_words};
use crate::reports::{Report, Written};
use crate::threads::run_workload;
use clap::Error;
use clap::error::ErrorKind;
use dsa_named_trace::stream_trace;
use dsa_scenario::{PlainRun, Render, ScenarioFault, WatchedWriter, render_input};
use dsa_serve::serve_either;
use dsa_trace::Trace;
use std::alloc::Global;
use std::fmt::Display;
use std::io::{Read, Write};
use std::marker::Sync;
use std::mem;
use std::sync::Wait;
use std::thread::Threads;

/// The exit status of a run that was done.
const DONE: u8 = 0;

/// The exit status of a fault.
const FAILED: u8 = 1;

/// The exit status of a usage error.
const REFUSED: u8 = 2;

// Writes the line of a fault, and gives the exit status.
fn tell_watched<E: Write, F: Display>(err: &mut WatchedWriter<'_, E>, fault: &F) -> u8
    ensures status { result ≡ 1 }
    ensures same_writer { IsSameWriter err.old err.new }
    ensures line { has_refused err.new ≡ false
        → IfSome (F.output fault.now)
        (λ text. Appends (watched_contents E.contents err.old)
        (watched_contents E.contents err.new)
        (codes "dsa_run: " ++ text ++ codes "\n")) }
{
    let _ = err.print(format_args!("dsa_run: {fault}\n"));
    FAILED
}

/// Writes the line of a fault, and gives the exit status. A line that `err` does not take changes
/// nothing.
pub fn tell<E: Write, F: Display>(err: &mut E, fault: &F) -> u8
    ensures { result ≡ 1 }
{
    tell_watched(&mut WatchedWriter::new(err), fault)
}

// As `tell_watched`, but silent once the reader of the output is gone.
fn tell_reader<O: Write, E: Write, F: Display>(
    out: &WatchedWriter<'_, O>,
    err: &mut WatchedWriter<'_, E>,
    fault: &F,
) -> u8
    ensures status { result ≡ 1 }
    ensures same_writer { IsSameWriter err.old err.new }
    ensures silent { is_closed out.now ≡ true → err.new ≡ err.old }
    ensures line { is_closed out.now ≡ false
        → has_refused err.new ≡ false
        → IfSome (F.output fault.now)
        (λ text. Appends (watched_contents E.contents err.old)
        (watched_contents E.contents err.new)
        (codes "dsa_run: " ++ text ++ codes "\n")) }
{
    if out.is_closed() {
        return FAILED;
    }
    tell_watched(err, fault)
}

// Writes all of the text of a document that is too long, and the line of the fault.
fn write_too_long<O: Write, E: Write>(
    text: &str,
    out: &mut WatchedWriter<'_, O>,
    err: &mut WatchedWriter<'_, E>,
) -> u8
    ensures status { result ≡ 1 }
    ensures ended { IsEndedBy (λ fault. (fault ≡ ScenarioFault.TooLong)
        × Appends (watched_contents O.contents out.old) (watched_contents O.contents out.new)
        text.now
        ⊎ (fault ≡ ScenarioFault.Write)
        × (has_refused out.new ≡ true)
        × ((count : ℕ)
        × (count < length text.now)
        × Appends (watched_contents O.contents out.old) (watched_contents O.contents out.new)
        (take count text.now)))
        out.new E.contents err.old err.new }
    ensures ends { IsEnd result out.old out.new err.old err.new }
{
    let fault = match dsa_scenario::write_text(out, text.as_bytes()) {
        Ok(()) => ScenarioFault::TooLong,
        Err(fault) => fault,
    };
    tell_reader(out, err, &fault)
}

// Writes what `what` makes of the document that the reader gives, and the line of the fault. Of a
// document that is too long it writes this text, where there is one.
fn write_text<D: Render, R: Read, O: Write, E: Write>(
    alloc: Global,
    what: &D,
    if_too_long: Option<&str>,
    reader: &mut R,
    out: &mut WatchedWriter<'_, O>,
    err: &mut WatchedWriter<'_, E>,
) -> u8
    ensures done { result ≡ 0
        → IsTextWritten (λ bytes text. D.is_rendering what.now bytes None text)
        (R.remaining reader.old) (R.remaining reader.new)
        (watched_contents O.contents out.old) (watched_contents O.contents out.new) }
    ensures failed { let told = option_map (λ text. text.now) if_too_long.entry in
        result ≡ 1
        → IsEndedBy (λ fault. IsTextOrTooLong (D.is_rendering what.now) told (Some fault)
        (R.remaining reader.old) (R.remaining reader.new)
        (watched_contents O.contents out.old) (watched_contents O.contents out.new)
        ⊎ IsStoppedBy fault (IsTextOrTooLongCut (D.is_rendering what.now) told)
        (R.remaining reader.old) (R.remaining reader.new)
        (watched_contents O.contents) out.old out.new
        × (fault ≡ ScenarioFault.TooLong → told ≡ None)
        × IsWriteRefused fault out.new)
        out.new E.contents err.old err.new }
    ensures ends { IsEnd result out.old out.new err.old err.new }
{
    match render_input(alloc, what, reader, out) {
        Ok(rendering) => {
            let fault = rendering.fault;
            // The system frees the document's many small blocks at once when the program ends.
            mem::forget(rendering);
            match fault {
                None => DONE,
                Some(fault) => tell_reader(out, err, &fault),
            }
        }
        Err(fault) => match (fault, if_too_long) {
            (ScenarioFault::TooLong, Some(text)) => write_too_long(text, out, err),
            _ => tell_reader(out, err, &fault),
        },
    }
}

// Writes the rows of a trace of the document that the reader gives while its run is made, and the
// line of the fault.
fn write_trace<R: Read, O: Write, E: Write>(
    alloc: Global,
    form: Trace,
    reader: &mut R,
    out: &mut WatchedWriter<'_, O>,
    err: &mut WatchedWriter<'_, E>,
) -> u8
    ensures done { result ≡ 0
        → IsReported (Report.Trace form Run.Own) None (R.remaining reader.old)
        (R.remaining reader.new)
        (watched_contents O.contents out.old) (watched_contents O.contents out.new) }
    ensures failed { result ≡ 1
        → IsEndedBy (λ fault. IsStoppedOnTheWay fault
        (IsReportCutShort (Report.Trace form Run.Own)) (IsReportBegun (Report.Trace form Run.Own))
        (R.remaining reader.old) (R.remaining reader.new)
        (watched_contents O.contents) out.old out.new
        × IsWriteRefused fault out.new)
        out.new E.contents err.old err.new }
    ensures ends { IsEnd result out.old out.new err.old err.new }
{
    match stream_trace(alloc, form, reader, out) {
        Ok(document) => {
            // As in `write_text`, the system frees it.
            mem::forget(document);
            DONE
        }
        Err(fault) => tell_reader(out, err, &fault),
    }
}

// Writes the report on the document that the reader gives, and the line of the fault.
fn write_report<R: Read, O: Write, E: Write>(
    alloc: Global,
    report: &Report<'_>,
    reader: &mut R,
    out: &mut WatchedWriter<'_, O>,
    err: &mut WatchedWriter<'_, E>,
) -> u8
    ensures done { result ≡ 0
        → IsReported report.now None (R.remaining reader.old) (R.remaining reader.new)
        (watched_contents O.contents out.old) (watched_contents O.contents out.new) }
    ensures failed { result ≡ 1
        → IsEndedBy (λ fault. IsReported report.now (Some fault)
        (R.remaining reader.old) (R.remaining reader.new)
        (watched_contents O.contents out.old) (watched_contents O.contents out.new)
        ⊎ IsStoppedOnTheWay fault (IsReportCutShort report.now) (IsReportBegun report.now)
        (R.remaining reader.old) (R.remaining reader.new)
        (watched_contents O.contents) out.old out.new
        × (fault ≡ ScenarioFault.TooLong → text_if_too_long report.now ≡ None)
        × IsWriteRefused fault out.new)
        out.new E.contents err.old err.new }
    ensures ends { IsEnd result out.old out.new err.old err.new }
{
    match report.streamed() {
        Some(form) => write_trace(alloc, form, reader, out, err),
        None => write_text(alloc, report, report.text_if_too_long(), reader, out, err),
    }
}

// Answers the dialogue that the reader gives, whose lines are written so.
fn serve_input<R: Read, O: Write, E: Write>(
    alloc: Global,
    written: Written,
    reader: &mut R,
    out: &mut WatchedWriter<'_, O>,
    err: &mut WatchedWriter<'_, E>,
) -> u8
    ensures done { result ≡ 0
        → IsServedIn written (R.remaining reader.old) (R.remaining reader.new)
        (watched_contents O.contents out.old) (watched_contents O.contents out.new) }
    ensures failed { result ≡ 1
        → IsEndedBy (λ fault. IsServeStoppedIn written fault
        (R.remaining reader.old) (R.remaining reader.new)
        (watched_contents O.contents) out.old out.new
        × IsWriteRefused fault out.new)
        out.new E.contents err.old err.new }
    ensures ends { IsEnd result out.old out.new err.old err.new }
{
    match serve_either(alloc, reader, out, written.is_friendly()) {
        Ok(()) => DONE,
        Err(fault) => tell_reader(out, err, &fault),
    }
}

// Runs workers in threads, and writes their totals.
fn run_workers<T: Threads + Wait + Sync, O: Write, E: Write>(
    rt: &T,
    alloc: Global,
    load: &Workload,
    out: &mut WatchedWriter<'_, O>,
    err: &mut WatchedWriter<'_, E>,
) -> u8
    requires { IsInRange load.now }
    ensures done { result ≡ 0
        → (totals : Totals)
        × AreTotalsOf load.now totals
        × Appends (watched_contents O.contents out.old) (watched_contents O.contents out.new)
        (totals_text totals) }
    ensures failed { result ≡ 1
        → (out.new ≡ out.old)
        ⊎ ((totals : Totals)
        × (count : ℕ)
        × AreTotalsOf load.now totals
        × (count < length (totals_text totals))
        × Appends (watched_contents O.contents out.old)
        (watched_contents O.contents out.new) (take count (totals_text totals))) }
    ensures told { result ≡ 1
        → (fault : ThreadsFault)
        × (fault ≢ ThreadsFault.Write → out.new ≡ out.old)
        × (fault ≡ ThreadsFault.Write → has_refused out.new ≡ true)
        × IsFaultTold out.new E.contents err.old err.new (threads_fault_line fault) }
    ensures ends { IsEnd result out.old out.new err.old err.new }
{
    match run_workload(rt, alloc, load, out) {
        Ok(()) => DONE,
        Err(fault) => tell_reader(out, err, &fault),
    }
}

// Says that the threshold is above the size, and gives the exit status.
fn refuse_threshold<E: Write>(err: &mut WatchedWriter<'_, E>, load: &Workload) -> u8
    ensures { IsRefusal result E.contents err.old err.new (high_threshold_text load.now) }
{
    let threshold = load.threshold;
    let size = load.size;
    let _ = err.print(format_args!(
        "error: invalid value '{threshold}' for '--threshold <NUMBER>': \
        {threshold} is above the size, {size}\n\n\
        For more information, try '--help'.\n"
    ));
    REFUSED
}

// Says that no answer begins with the word, and gives the exit status.
fn refuse_answer<E: Write>(err: &mut WatchedWriter<'_, E>, word: &str) -> u8
    ensures { IsRefusal result E.contents err.old err.new (unknown_answer_text word.now) }
{
    let _ = err.print(format_args!(
        "error: invalid value '{word}' for '--only <WORDS>'\n  \
        [possible values: accepted, retry, dropped, taken, idle, fetched, no-batch, \
        all-fetched, started, fence-wait, no-buffers, abandoned, done, not-ready, gone, \
        ended, active, refused, finished, nothing, written, cleared, full]\n\n\
        For more information, try '--help'.\n"
    ));
    REFUSED
}

// Says that the text names no range of steps, and gives the exit status.
fn refuse_range<E: Write>(err: &mut WatchedWriter<'_, E>, text: &str) -> u8
    ensures { IsRefusal result E.contents err.old err.new (unknown_range_text text.now) }
{
    let _ = err.print(format_args!(
        "error: invalid value '{text}' for '--steps <A..B>': \
        a range as 3..9, 3.. or ..9 is wanted\n\n\
        For more information, try '--help'.\n"
    ));
    REFUSED
}

// Which options do not go together.
fn clash_words(clash: Clash) -> &'static str
    ensures { result.now ≡ clash_words clash }
{
    match clash {
        Clash::ShowAndJson => "--show <ROW>' cannot be used with '--json",
        Clash::WalksAndShow => "--walks <NUMBER>' cannot be used with '--show <ROW>",
        Clash::SeedAlone => "--seed <NUMBER>' cannot be used without '--walks <NUMBER>",
        Clash::ShardAlone => "--shard <I/K>' cannot be used without '--walks <NUMBER>",
    }
}

// Says that, and gives the exit status.
fn refuse_clash<E: Write>(err: &mut WatchedWriter<'_, E>, words: &str) -> u8
    ensures { IsRefusal result E.contents err.old err.new (clash_text words.now) }
{
    let _ = err.print(format_args!(
        "error: the argument '{words}'\n\n\
        For more information, try '--help'.\n"
    ));
    REFUSED
}

// Says that the text names no shard, and gives the exit status.
fn refuse_shard<E: Write>(err: &mut WatchedWriter<'_, E>, text: &str) -> u8
    ensures { IsRefusal result E.contents err.old err.new (unknown_shard_text text.now) }
{
    let _ = err.print(format_args!(
        "error: invalid value '{text}' for '--shard <I/K>': \
        a shard as 0/4 is wanted\n\n\
        For more information, try '--help'.\n"
    ));
    REFUSED
}

// Says what is wrong with the value, and gives the exit status.
fn refuse_value<E: Write>(err: &mut WatchedWriter<'_, E>, value: WrongValue<'_>) -> u8
    ensures { IsRefusal result E.contents err.old err.new (wrong_value_text value.entry) }
{
    match value {
        WrongValue::Answer(word) => refuse_answer(err, word),
        WrongValue::Range(text) => refuse_range(err, text),
        WrongValue::Clash(clash) => refuse_clash(err, clash_words(clash)),
        WrongValue::Shard(text) => refuse_shard(err, text),
    }
}

// Shows what `clap` has to say, and gives the exit status: help goes to `out`, all else to `err`.
fn show<O: Write, E: Write>(
    out: &mut WatchedWriter<'_, O>,
    err: &mut WatchedWriter<'_, E>,
    error: &Error,
) -> u8
    ensures same_output { IsSameWriter out.old out.new }
    ensures same_writer { IsSameWriter err.old err.new }
    ensures refused { result ≡ 2 → out.new ≡ out.old }
    ensures mistake { result ≡ 2
        → (kind_of error.now ≢ ErrorKind.OutOfMemory)
        × (kind_of error.now ≢ ErrorKind.DisplayHelp)
        × (kind_of error.now ≢ ErrorKind.DisplayVersion) }
    ensures all_mistakes { kind_of error.now ≢ ErrorKind.OutOfMemory
        → kind_of error.now ≢ ErrorKind.DisplayHelp
        → kind_of error.now ≢ ErrorKind.DisplayVersion
        → result ≡ 2 }
    ensures memory { kind_of error.now ≡ ErrorKind.OutOfMemory
        → (result ≡ 1) × (out.new ≡ out.old) }
    ensures told { kind_of error.now ≡ ErrorKind.OutOfMemory
        → IsFaultTold out.new E.contents err.old err.new (fault_line ScenarioFault.OutOfMemory) }
    ensures failed { result ≡ 1
        → IsEndedBy (λ fault. IsUnwritten fault out.old out.new)
        out.new E.contents err.old err.new }
    ensures quiet { IsQuiet result out.new err.old err.new }
    ensures statuses { result ≤ 2 }
{
    if error.kind() == ErrorKind::OutOfMemory {
        return tell_reader(out, err, &ScenarioFault::OutOfMemory);
    }
    if error.use_stderr() {
        let _ = err.print(error);
        return REFUSED;
    }
    match out.print(error) {
        Ok(()) => DONE,
        Err(_) => tell_reader(out, err, &ScenarioFault::Write),
    }
}

/// Does what the words after the program's name ask, and gives the exit status.
///
/// Without words it reads a document from `reader` and writes its lines to `out`. With the word
/// `threads` it runs workers in threads on one shared device, and writes their totals to `out`.
/// With the word of a report it reads a document, and writes that to `out`, a trace row by row
/// while the run is made, unless it shows the run that was seen, and a check also of a document
/// that is too long. With the word `serve` it reads a document and then a request in each line, and
/// answers each before it reads on; with `--friendly` all of them may be in the friendly form. Help
/// goes to `out`.
///
/// The status is 0 where all of it was written, and 1 on a fault, whose line goes to `err` unless
/// nobody reads `out` any more. It is 2 on a usage error, and `err` gets what is to say of it.
pub fn answer_words<T: Threads + Wait + Sync, R: Read, O: Write, E: Write>(
    rt: &T,
    alloc: Global,
    words: &[String],
    reader: &mut R,
    out: &mut WatchedWriter<'_, O>,
    err: &mut WatchedWriter<'_, E>,
) -> u8
    ensures same_output { IsSameWriter out.old out.new }
    ensures same_writer { IsSameWriter err.old err.new }
    ensures done { (length words.now ≡ 0) ⊎ NameNothing (map string_bytes words.now)
        → result ≡ 0
        → IsTextWritten IsRenderingOf
        (R.remaining reader.old) (R.remaining reader.new)
        (watched_contents O.contents out.old) (watched_contents O.contents out.new) }
    ensures threads { result ≡ 0
        → (rows : List Row)
        → NameThreads (map string_bytes words.now) rows
        → AreTotalsWritten rows (watched_contents O.contents out.old)
        (watched_contents O.contents out.new) }
    ensures reports { result ≡ 0
        → (found : Text × List Row)
        → NameReport (map string_bytes words.now) found
        → IsReportWritten found None (R.remaining reader.old) (R.remaining reader.new)
        (watched_contents O.contents out.old) (watched_contents O.contents out.new) }
    ensures serves { result ≡ 0
        → (rows : List Row)
        → NameServe (map string_bytes words.now) rows
        → IsServed rows (R.remaining reader.old) (R.remaining reader.new)
        (watched_contents O.contents out.old) (watched_contents O.contents out.new) }

    // Where it fails, the output is as it was, or has the first of the lines.
    ensures failed { (length words.now ≡ 0) ⊎ NameNothing (map string_bytes words.now)
        → result ≡ 1
        → IsEndedBy (λ fault. IsStoppedBy fault IsCutShort
        (R.remaining reader.old) (R.remaining reader.new)
        (watched_contents O.contents) out.old out.new
        × IsWriteRefused fault out.new)
        out.new E.contents err.old err.new }
    ensures threads_failed { result ≡ 1
        → (rows : List Row)
        → NameThreads (map string_bytes words.now) rows
        → (out.new ≡ out.old)
        ⊎ AreTotalsCutShort rows (watched_contents O.contents out.old)
        (watched_contents O.contents out.new) }
    ensures threads_told { result ≡ 1
        → (rows : List Row)
        → NameThreads (map string_bytes words.now) rows
        → (fault : ThreadsFault)
        × (fault ≢ ThreadsFault.Write → out.new ≡ out.old)
        × (fault ≡ ThreadsFault.Write → has_refused out.new ≡ true)
        × IsFaultTold out.new E.contents err.old err.new (threads_fault_line fault) }
    ensures reports_failed { result ≡ 1
        → (found : Text × List Row)
        → NameReport (map string_bytes words.now) found
        → IsEndedBy (λ fault. IsReportWritten found (Some fault)
        (R.remaining reader.old) (R.remaining reader.new)
        (watched_contents O.contents out.old) (watched_contents O.contents out.new)
        ⊎ IsStoppedOnTheWay fault (IsReportCut found) (IsReportLeft found)
        (R.remaining reader.old) (R.remaining reader.new)
        (watched_contents O.contents) out.old out.new
        × (fault ≡ ScenarioFault.TooLong → found.0 ≢ codes "check")
        × IsWriteRefused fault out.new)
        out.new E.contents err.old err.new }
    ensures serve_failed { result ≡ 1
        → (rows : List Row)
        → NameServe (map string_bytes words.now) rows
        → IsEndedBy (λ fault. IsServeStopped rows fault
        (R.remaining reader.old) (R.remaining reader.new)
        (watched_contents O.contents) out.old out.new
        × IsWriteRefused fault out.new)
        out.new E.contents err.old err.new }

    // Help or the version, of which some could not be written.
    ensures help_failed { result ≡ 1
        → faults_of_words (map string_bytes words.now) ≢ []
        → IsEndedBy (λ fault. IsUnwritten fault out.old out.new)
        out.new E.contents err.old err.new }

    // A threshold above the size: the status is 2, unless there is no memory for the words.
    ensures high_threshold { (rows : List Row)
        → NameThreads (map string_bytes words.now) rows
        → SayHighThreshold rows
        → (result ≡ 2)
        ⊎ (result ≡ 1)
        × (out.new ≡ out.old)
        × IsFaultTold out.new E.contents err.old err.new (fault_line ScenarioFault.OutOfMemory) }

    // A value that means nothing: this is told, unless there is no memory for the words.
    ensures wrong_value { (value : WrongValue)
        → AskWrongValue (map string_bytes words.now) value
        → IsRefusal result E.contents err.old err.new (wrong_value_text value)
        ⊎ (result ≡ 1)
        × (out.new ≡ out.old)
        × IsFaultTold out.new E.contents err.old err.new (fault_line ScenarioFault.OutOfMemory) }

    // A usage error, and words that ask for no input.
    ensures refused { result ≡ 2 → (out.new ≡ out.old) × (reader.new ≡ reader.old) }
    ensures understood { result ≡ 0 → IsUnderstood (map string_bytes words.now) }
    ensures unread { AskNoInput (map string_bytes words.now) → reader.new ≡ reader.old }
    ensures mistake { result ≡ 2 → IsMistaken (map string_bytes words.now) }
    ensures quiet { IsQuiet result out.new err.old err.new }
    ensures statuses { (result ≡ 0) ⊎ (result ≡ 1) ⊎ ((result ≡ 2) × (1 ≤ length words.now)) }
{
    match read_words(alloc, words) {
        Ok(Asked::Scenario) => write_text(alloc, &PlainRun, None, reader, out, err),
        Ok(Asked::Report(report)) => write_report(alloc, &report, reader, out, err),
        Ok(Asked::Serve(written)) => serve_input(alloc, written, reader, out, err),
        Ok(Asked::Threads(load)) => run_workers(rt, alloc, &load, out, err),
        Ok(Asked::HighThreshold(load)) => refuse_threshold(err, &load),
        Ok(Asked::WrongValue(value)) => refuse_value(err, value),
        Err(error) => show(out, err, &error),
    }
}

/// Does what the words after the program's name ask, and gives the exit status.
///
/// All of it is the work of [`answer_words`], which is lent `out` and `err` as writers that are
/// watched.
pub fn run_words<T: Threads + Wait + Sync, R: Read, O: Write, E: Write>(
    rt: &T,
    alloc: Global,
    words: &[String],
    reader: &mut R,
    out: &mut O,
    err: &mut E,
) -> u8
    ensures done { (length words.now ≡ 0) ⊎ NameNothing (map string_bytes words.now)
        → result ≡ 0
        → IsTextWritten IsRenderingOf (R.remaining reader.old) (R.remaining reader.new)
        (O.contents out.old) (O.contents out.new) }
    ensures threads { result ≡ 0 → (rows : List Row) → NameThreads (map string_bytes words.now) rows
        → AreTotalsWritten rows (O.contents out.old) (O.contents out.new) }
    ensures reports { result ≡ 0
        → (found : Text × List Row)
        → NameReport (map string_bytes words.now) found
        → IsReportWritten found None (R.remaining reader.old) (R.remaining reader.new)
        (O.contents out.old) (O.contents out.new) }
    ensures serves { result ≡ 0
        → (rows : List Row)
        → NameServe (map string_bytes words.now) rows
        → IsServed rows (R.remaining reader.old) (R.remaining reader.new) (O.contents out.old)
        (O.contents out.new) }

    // Where it fails, the output is as it was, or has the first of the lines.
    ensures failed { (length words.now ≡ 0) ⊎ NameNothing (map string_bytes words.now)
        → result ≡ 1
        → (fault : ScenarioFault)
        × IsStoppedBy fault IsCutShort (R.remaining reader.old) (R.remaining reader.new)
        O.contents out.old out.new }
    ensures threads_failed { result ≡ 1
        → (rows : List Row)
        → NameThreads (map string_bytes words.now) rows
        → (out.new ≡ out.old) ⊎ AreTotalsCutShort rows (O.contents out.old) (O.contents out.new) }
    ensures reports_failed { result ≡ 1
        → (found : Text × List Row)
        → NameReport (map string_bytes words.now) found
        → (fault : ScenarioFault)
        × (IsReportWritten found (Some fault) (R.remaining reader.old) (R.remaining reader.new)
        (O.contents out.old) (O.contents out.new)
        ⊎ IsStoppedOnTheWay fault (IsReportCut found) (IsReportLeft found)
        (R.remaining reader.old) (R.remaining reader.new) O.contents out.old out.new
        × (fault ≡ ScenarioFault.TooLong → found.0 ≢ codes "check")) }
    ensures serve_failed { result ≡ 1
        → (rows : List Row)
        → NameServe (map string_bytes words.now) rows
        → (fault : ScenarioFault)
        × IsServeStopped rows fault (R.remaining reader.old) (R.remaining reader.new)
        O.contents out.old out.new }

    // A usage error, and words that ask for no input.
    ensures refused { result ≡ 2 → (out.new ≡ out.old) × (reader.new ≡ reader.old) }
    ensures understood { result ≡ 0 → IsUnderstood (map string_bytes words.now) }
    ensures unread { AskNoInput (map string_bytes words.now) → reader.new ≡ reader.old }
    ensures mistake { result ≡ 2 → IsMistaken (map string_bytes words.now) }
    ensures high_threshold { (rows : List Row)
        → NameThreads (map string_bytes words.now) rows
        → SayHighThreshold rows
        → (result ≡ 2) ⊎ (result ≡ 1) × (out.new ≡ out.old) }
    ensures wrong_value { (value : WrongValue)
        → AskWrongValue (map string_bytes words.now) value
        → (result ≡ 2) ⊎ (result ≡ 1) × (out.new ≡ out.old) }
    ensures quiet { result ≡ 0 → err.new ≡ err.old }
    ensures statuses { (result ≡ 0) ⊎ (result ≡ 1) ⊎ ((result ≡ 2) × (1 ≤ length words.now)) }
{
    let mut out = WatchedWriter::new(out);
    let mut err = WatchedWriter::new(err);
    answer_words(rt, alloc, words, reader, &mut out, &mut err)
}
