//! The words of the command line, read with `clap`.

ghost use Rattle.std.specs.Prelude.{◌≡◌, ◌≢◌, ◌≤◌, ◌<◌, true, false, List, Ok, Some, None};
ghost use Rattle.std.specs.Prelude.{IfSome, IfNone, IfOk, IfErr, codes, length, map, option_map};
ghost use Rattle.std.specs.Prelude.{string_bytes};
ghost use Rattle.clap.specs.Words.{Row, Text, app_of, rule_of, found_of, first_of, rows_of};
ghost use Rattle.clap.specs.Words.{FailsBy};
ghost use Rattle.clap.specs.Simple.{new_app, with_rule, subcommand_rows_of};
ghost use Rattle.clap.specs.declared.builder.command.Command.TheViews.{out-Command as fields_of};
ghost use Rattle.dsa_cli.specs.Threads.{IsInRange, IsAskedInRange};
ghost use Rattle.dsa_cli.specs.CommandLine.{text_rule, number_rule, default_rule, flag_rule};
ghost use Rattle.dsa_cli.specs.CommandLine.{check_app, explain_app, trace_app, draw_app, explore_app};
ghost use Rattle.dsa_cli.specs.CommandLine.{conform_app, serve_app, threads_app, top_app, program_app};
ghost use Rattle.dsa_cli.specs.CommandLine.{IsNumberOf, IsNumberGiven, AreNumbersOf, AreBoundsOf};
ghost use Rattle.dsa_cli.specs.CommandLine.{IsChosenBy, IsFormOf, IsGivenElse, IsRunChosen, IsCheckOf};
ghost use Rattle.dsa_cli.specs.CommandLine.{IsAskedBy, IsReportName, AsksBy, AsksFor};
ghost use Rattle.dsa_cli.specs.CommandLine.{IsCheckFormOf, IsConformanceChosen, IsWrittenIn};
ghost use Rattle.dsa_cli.specs.CommandLine.{is_json_given, range_asked, search_form, unknown_answer};
ghost use Rattle.dsa_cli.specs.CommandLine.{AreWalksGiven, clash_by, clash_in, is_text_given, shard_asked};
ghost use Rattle.dsa_cli.specs.Shards.{shard_of_text};
ghost use Rattle.dsa_draw.specs.Ranges.{range_of_text};
ghost use Rattle.dsa_cli.specs.CommandLine.{faults_of_words};

use crate::reports::{Report, Run, Written};
use crate::shard::Shard;
use clap::{Arg, ArgAction, ArgMatches, Command, Error, value_parser};
use dsa_check::{Check, CheckForm};
use dsa_chosen::{AnswerWords, Selection};
use dsa_conform::Conformance;
use dsa_draw::{Drawing, StepRange};
use dsa_exploration::{Bounds, Exploring, Form, Sampling, Showing, Walks};
use dsa_release::version_text;
use dsa_trace::Trace;
use std::alloc::{AllocError, Global};

/// How many workers run in threads, and how long, on a device of which sizes.
#[derive(Clone, Copy, Debug, PartialEq, Eq)]
pub struct Workload {
    /// 1 to 16.
    pub clients: u16,
    /// 1 to 8.
    pub engines: u16,
    /// How many descriptors each client submits, 1 to 1,000.
    pub each: u32,
    /// How many turns each worker has at most, 1 to 40,000.
    pub turns: u32,
    /// How many entries the queue holds, 1 to 1,024.
    pub size: u16,
    /// How many entries it holds at most by the limited portal, 1 to its size.
    pub threshold: u16,
    /// How many entries an engine works on at once, 1 to 16.
    pub slots: u16,
    /// The read buffers, 4 to 255.
    pub buffers: u16,
}

/// A value of an option that means nothing, or two options of which each forbids the other.
#[derive(Clone, Copy, Debug, PartialEq, Eq)]
pub enum WrongValue<'a> {
    /// A word with which no answer begins.
    Answer(&'a str),
    /// A text that names no range of steps.
    Range(&'a str),
    /// Options of a search that do not go together.
    Clash(Clash),
    /// A text that names no shard of walks.
    Shard(&'a str),
}

/// Two options of a search of which each forbids the other, or one without the other that it needs.
#[derive(Clone, Copy, Debug, PartialEq, Eq)]
pub enum Clash {
    /// A row to show, and a JSON object in each line.
    ShowAndJson,
    /// Walks, and a row to show.
    WalksAndShow,
    /// A seed without walks.
    SeedAlone,
    /// A shard without walks.
    ShardAlone,
}

/// What the words ask for.
#[derive(Clone, Copy, Debug, PartialEq, Eq)]
pub enum Asked<'a> {
    /// A scenario from standard input.
    Scenario,
    /// A report on the scenario from standard input.
    Report(Report<'a>),
    /// A report with this value of an option, which is a usage error.
    WrongValue(WrongValue<'a>),
    /// A dialogue: a scenario in the first line of standard input, and then a request in each line,
    /// written so.
    Serve(Written),
    /// Workers in threads.
    Threads(Workload),
    /// Such workers with a threshold above the size, which is a usage error.
    HighThreshold(Workload),
}

/// The greatest number of a client in a document.
const MOST_CLIENT_NUMBER: u32 = 65_535;

const MOST_CLIENTS: u32 = 16;

const MOST_ENGINES: u32 = 8;

const MOST_EACH: u32 = 1_000;

const MOST_TURNS: u32 = 40_000;

const MOST_ENTRIES: u32 = 1_024;

const MOST_SLOTS: u32 = 16;

/// No group that has engines may have fewer read buffers.
const LEAST_BUFFERS: u32 = 4;

const MOST_BUFFERS: u32 = 255;

const MOST_STATES: u32 = 16_777_216;

const MOST_KEY_BYTES: u32 = 65_536;

const SCENARIO_HELP: &str = "\
Without a command: what does the device answer to each step? Reads one scenario document
(JSON) from standard input, makes its steps on a model of a device, and writes a line for
each step and for each descriptor that ended.

Exit status: 0 done, 1 a fault (its line goes to standard error), 2 a usage error.";

const CHECK_HELP: &str = "\
Reads one scenario document (JSON) from standard input, and writes a line for each fault,
with its place, and then a line for each warning: a key that nothing reads, and an \"answer\"
or a \"zf\" that conform would refuse. No step is made. The fault that a run would report
goes to standard error. With --strict a warning counts as a fault. With --json each line
is a JSON object. With --source the line of the document is shown below, with a mark
below the place, and with --color in colors.

Exit status: 0 no fault, 1 a fault, 2 a usage error.";

const EXPLAIN_HELP: &str = "\
Reads one scenario document (JSON) from standard input, makes its steps on a model of a
device, and writes a line for each step: its number, the event and the answer, and the
reason where the device turned the step down or the step has to wait. With --name only
the lines about that entry are written, and then what became of it; with --client those
of that client; with --only those with an answer that begins with one of the words, such
as retry,idle. With --seen the run is one that conform follows, by the \"answer\" and the
\"zf\" of the steps.

Exit status: 0 done, 1 a fault (its line goes to standard error), 2 a usage error.";

const TRACE_HELP: &str = "\
Reads one scenario document (JSON) from standard input, makes its steps on a model of a
device, and writes a line for each step: its number, the event, the answer, and what the
device shows after it. A line follows for each entry that the device still holds. With
--wide the row shows what is not configured, too. With --changes it shows only what
differs from the row before. With --json each line is a JSON object. With --chrome it
writes Chrome trace events, which Perfetto shows. With --seen the run is one that conform
follows, by the \"answer\" and the \"zf\" of the steps.

Exit status: 0 done, 1 a fault (its line goes to standard error), 2 a usage error.";

const COUNT_HELP: &str = "\
Reads one scenario document (JSON) from standard input, makes its steps on a model of a
device, and writes totals of the run: submissions that were accepted and turned away, by
cause, of all, of each client and of each queue; the peak of each queue and of the read
buffers of each group; how many steps commands waited; and how entries ended.

Exit status: 0 done, 1 a fault (its line goes to standard error), 2 a usage error.";

const DRAW_HELP: &str = "\
Reads one scenario document (JSON) from standard input, makes its steps on a model of a
device, and writes a drawing of the run, as SVG. With --steps A..B it has the steps from
A to B, with --steps A.. or ..B those from A on or up to B. With --seen the run is one
that conform follows, by the \"answer\" and the \"zf\" of the steps.

Exit status: 0 done, 1 a fault (its line goes to standard error), 2 a usage error.";

const CONFORM_HELP: &str = "\
Reads one scenario document (JSON) from standard input. Its steps also have what another
device was seen to answer: \"answer\", the line of the step with or without the name of the
entry, or \"zf\", the zero flag that ENQCMD left. The model follows as long as the rules
allow these answers. At the first step where they do not, the program writes the step and
all answers that they allow. With --all it goes on after such a step, as if nothing had
been seen of it, and writes each. With --friendly the document is one that expand reads.

Exit status: 0 all answers are allowed, 1 one is not, or a fault (its line goes to
standard error), 2 a usage error.";

const EXPAND_HELP: &str = "\
Reads one friendly document (JSON) from standard input, and writes the scenario document
that it means: commands may be given by name, descriptors as objects, queues and engines as
lists, and entries may have names of your own. A scenario document stays as it is.

Exit status: 0 done, 1 a fault (its line goes to standard error), 2 a usage error.";

const EXPLORE_HELP: &str = "\
Reads one scenario document (JSON) with \"parties\" from standard input, makes its steps on a
model of a device, and then searches every order of the parties' steps. It writes a line for
each entry of the clients, with each answer and each end that it may have, and a line for
each step of the administrators, with each answer that it may get. Each has the fewest steps
that lead to it. The last line says how many states were stored and steps tried, and whether
the search is complete. Memory is taken at once: about --states times (--key-bytes + 40)
bytes. With --show it writes a scenario document in place of the table: the set-up and then
as few steps as the row says, with their answers. ROW is what stands before the brackets,
such as \"move: aborted 9\" or \"disable: waits for move\", or what stands before the colon of a
question, such as \"never a move is lost\": the steps that break it, or that keep a sometimes.
With --json each line is a JSON object: one for each answer, end and question, in the order
of the table. With --walks it makes random walks in place of the search: steps that lead on,
chosen one after the other. Then the brackets have the fewest steps that one of the walks
took, and more may come than is written. --states and --key-bytes are bounds of a search
alone.

Exit status: 0 the search is complete, or the steps are shown, 1 it met its bounds, or walks
were made, or a fault (its line goes to standard error), 2 a usage error.";

const SERVE_HELP: &str = "\
Reads one scenario document (JSON), in one line or several, from standard input, and then a
step from each line. Each step is made as it comes, on one model of a device, and answered
with its line before the next is read; after the document's own steps comes the line
\"ready N\" with their number. {\"do\": \"show\"} is answered with the state of the device,
and {\"do\": \"fates\"} with what became of the descriptors that ended since the last such line.
{\"do\": \"begin-anew\"} empties the history, so that a run may go on after \"full\"; names and
the state stay. {\"do\": \"begin-anew-without-fates\"} also forgets what became of descriptors.
Any other line is answered with its fault and the reason, and changes nothing. At the end of
input comes a line for each descriptor that ended. With --friendly the document and the lines
after it may have steps in the friendly form, as expand reads them.

Exit status: 0 done, 1 a fault (its line goes to standard error), 2 a usage error.";

const THREADS_HELP: &str = "\
Reads nothing. Clients, engines and an administrator share one device, each in a thread
of its own. Each client submits Moves of 4096 bytes to one queue, the engines take and
end them, and the administrator sets the device up. At the end seven lines are written:
accepted, fetched, retried, done, lost and held, each with its number, and balanced, since
accepted + fetched = done + lost + held.

Exit status: 0 done, 1 a fault (its line goes to standard error), 2 a usage error.";

const CLIENTS: &str = "How many clients submit, 1 to 16";

const ENGINES: &str = "How many engines work, 1 to 8";

const EACH: &str = "How many descriptors each client submits, 1 to 1000";

const TURNS: &str = "How many turns each worker has at most, 1 to 40000";

const SIZE: &str = "How many entries the queue holds, 1 to 1024";

const THRESHOLD: &str = "At how many entries it turns clients away, 1 to the size";

const SLOTS: &str = "How many entries an engine works on at once, 1 to 16";

const BUFFERS: &str = "How many read buffers there are, 4 to 255";

const NAME: &str = "Show the steps about the entry of this name, and its fate";

const CLIENT: &str = "Show the steps of this client";

const ONLY: &str = "Show the steps with an answer that begins with one of these words";

const STATES: &str = "How many states may be stored, 1 to 16777216";

const KEY_BYTES: &str = "How many bytes the key of a state may have, 1 to 65536";

const WALKS: &str = "Make so many random walks in place of a search, 1 to 4294967295";

const SEED: &str = "The seed of their choices, 0 to 4294967295, and 0 if it is not given";

const SHARD: &str = "Make those walks alone whose number leaves I when divided by K";

const SHOW: &str = "Write the steps that show this row or question, as a document";

const STEPS: &str = "Draw the steps from A to B, as 3..9, 3.. or ..9";

// An option that takes a value.
fn text_option<'a>(alloc: Global, name: &'a str, value: &'a str, help: &'a str) -> Arg<'a>
    ensures rule { rule_of result ≡ text_rule name.entry.now }
    ensures local { result.global ≡ false }
{
    Arg::new(alloc, name)
        .long(name)
        .value_name(value)
        .help(help)
}

// An option that takes a number from `least` to `most`.
fn number_option<'a>(alloc: Global, name: &'a str, least: u32, most: u32, help: &'a str) -> Arg<'a>
    ensures rule { rule_of result ≡ number_rule name.entry.now least most }
    ensures local { result.global ≡ false }
{
    Arg::new(alloc, name)
        .long(name)
        .value_name("NUMBER")
        .value_parser(value_parser!(u32).range(i64::from(least)..=i64::from(most)))
        .help(help)
}

// The command with one more option, which is of no command below it.
fn with_option<'a>(command: Command<'a>, option: Arg<'a>) -> Result<Command<'a>, AllocError>
    requires local { option.global ≡ false }
    requires no_globals { (fields_of command).has_globals ≡ false }
    ensures app { IfOk result
        (λ c. app_of c ≡ with_rule (app_of command.entry) (rule_of option.entry)) }
    ensures local { IfOk result (λ c. (fields_of c).has_globals ≡ false) }
{
    command.arg(option)
}

// The command with one more option that takes a number, and has this one where none is given.
fn with_number<'a>(
    alloc: Global,
    command: Command<'a>,
    name: &'a str,
    least: u32,
    most: u32,
    default: &'a str,
    help: &'a str,
) -> Result<Command<'a>, AllocError>
    requires no_globals { (fields_of command).has_globals ≡ false }
    ensures app { IfOk result (λ c. app_of c ≡ with_rule (app_of command.entry)
        (default_rule name.entry.now least most default.entry.now)) }
    ensures local { IfOk result (λ c. (fields_of c).has_globals ≡ false) }
{
    let option = number_option(alloc, name, least, most, help);
    with_option(command, option.default_value(default))
}

fn threads_command<'a>(alloc: Global) -> Result<Command<'a>, AllocError>
    ensures app { IfOk result (λ c. app_of c ≡ threads_app) }
    ensures local { IfOk result (λ c. (fields_of c).has_globals ≡ false) }
{
    let about = "Do the totals balance where threads share one device?";
    let command = plain_command(alloc, "threads", about, THREADS_HELP);
    let command = with_number(alloc, command, "clients", 1, MOST_CLIENTS, "2", CLIENTS)?;
    let command = with_number(alloc, command, "engines", 1, MOST_ENGINES, "2", ENGINES)?;
    let command = with_number(alloc, command, "each", 1, MOST_EACH, "100", EACH)?;
    let command = with_number(alloc, command, "turns", 1, MOST_TURNS, "10000", TURNS)?;
    let command = with_number(alloc, command, "size", 1, MOST_ENTRIES, "16", SIZE)?;
    let command = with_number(alloc, command, "threshold", 1, MOST_ENTRIES, "8", THRESHOLD)?;
    let command = with_number(alloc, command, "slots", 1, MOST_SLOTS, "4", SLOTS)?;
    with_number(
        alloc,
        command,
        "buffers",
        LEAST_BUFFERS,
        MOST_BUFFERS,
        "32",
        BUFFERS,
    )
}

// An option that takes no value.
fn flag<'a>(alloc: Global, name: &'a str, help: &'a str) -> Arg<'a>
    ensures rule { rule_of result ≡ flag_rule name.entry.now }
    ensures local { result.global ≡ false }
{
    Arg::new(alloc, name)
        .long(name)
        .action(ArgAction::SetTrue)
        .help(help)
}

// The command with one more option that takes no value.
fn with_flag<'a>(
    alloc: Global,
    command: Command<'a>,
    name: &'a str,
    help: &'a str,
) -> Result<Command<'a>, AllocError>
    requires no_globals { (fields_of command).has_globals ≡ false }
    ensures app { IfOk result
        (λ c. app_of c ≡ with_rule (app_of command.entry) (flag_rule name.entry.now)) }
    ensures local { IfOk result (λ c. (fields_of c).has_globals ≡ false) }
{
    with_option(command, flag(alloc, name, help))
}

// The command with the option of the run that was seen.
fn with_seen<'a>(alloc: Global, command: Command<'a>) -> Result<Command<'a>, AllocError>
    requires no_globals { (fields_of command).has_globals ≡ false }
    ensures app { IfOk result
        (λ c. app_of c ≡ with_rule (app_of command.entry) (flag_rule (codes "seen"))) }
    ensures local { IfOk result (λ c. (fields_of c).has_globals ≡ false) }
{
    with_flag(alloc, command, "seen", "Show a run that conform follows")
}

// A command that takes no options.
fn plain_command<'a>(
    alloc: Global,
    name: &'a str,
    about: &'a str,
    after_help: &'a str,
) -> Command<'a>
    ensures app { app_of result ≡ new_app name.entry.now }
    ensures local { (fields_of result).has_globals ≡ false }
{
    Command::new(alloc, name)
        .about(about)
        .after_help(after_help)
}

// The program without its commands.
fn top_command<'a>(alloc: Global) -> Result<Command<'a>, AllocError>
    ensures { IfOk result (λ c. app_of c ≡ top_app) }
{
    let command = Command::new(alloc, "dsa_run")
        .about("Runs a model of the shared part of an Intel Data Streaming Accelerator")
        .after_help(SCENARIO_HELP)
        .version(version_text())
        .bin_name("dsa_run")?
        .no_binary_name(true);
    Ok(command)
}

fn check_command<'a>(alloc: Global) -> Result<Command<'a>, AllocError>
    ensures app { IfOk result (λ c. app_of c ≡ check_app) }
    ensures local { IfOk result (λ c. (fields_of c).has_globals ≡ false) }
{
    let about = "What is wrong with the document, and where?";
    let command = plain_command(alloc, "check", about, CHECK_HELP);
    let command = with_flag(alloc, command, "json", "Write a JSON object in each line")?;
    let command = with_flag(alloc, command, "source", "Show the source below each line")?;
    let command = with_flag(alloc, command, "color", "Show the source with colors")?;
    with_flag(alloc, command, "strict", "Count a warning as a fault")
}

fn explain_command<'a>(alloc: Global) -> Result<Command<'a>, AllocError>
    ensures app { IfOk result (λ c. app_of c ≡ explain_app) }
    ensures local { IfOk result (λ c. (fields_of c).has_globals ≡ false) }
{
    let about = "Why was each step answered as it was?";
    let command = plain_command(alloc, "explain", about, EXPLAIN_HELP);
    let name = number_option(alloc, "name", 0, u32::MAX, NAME);
    let client = number_option(alloc, "client", 0, MOST_CLIENT_NUMBER, CLIENT);
    let only = text_option(alloc, "only", "WORDS", ONLY);
    let command = with_option(command, name)?;
    let command = with_option(command, client)?;
    let command = with_option(command, only)?;
    with_seen(alloc, command)
}

fn trace_command<'a>(alloc: Global) -> Result<Command<'a>, AllocError>
    ensures app { IfOk result (λ c. app_of c ≡ trace_app) }
    ensures local { IfOk result (λ c. (fields_of c).has_globals ≡ false) }
{
    let about = "What does the device hold after each step?";
    let command = plain_command(alloc, "trace", about, TRACE_HELP);
    let command = with_flag(alloc, command, "wide", "Show what is not configured, too")?;
    let command = with_flag(alloc, command, "changes", "Show only what a step changed")?;
    let command = with_flag(alloc, command, "json", "Write a JSON object in each line")?;
    let command = with_flag(alloc, command, "chrome", "Write Chrome trace events")?;
    with_seen(alloc, command)
}

fn draw_command<'a>(alloc: Global) -> Result<Command<'a>, AllocError>
    ensures app { IfOk result (λ c. app_of c ≡ draw_app) }
    ensures local { IfOk result (λ c. (fields_of c).has_globals ≡ false) }
{
    let about = "What does the whole run look like?";
    let command = plain_command(alloc, "draw", about, DRAW_HELP);
    let command = with_option(command, text_option(alloc, "steps", "A..B", STEPS))?;
    with_seen(alloc, command)
}

fn conform_command<'a>(alloc: Global) -> Result<Command<'a>, AllocError>
    ensures app { IfOk result (λ c. app_of c ≡ conform_app) }
    ensures local { IfOk result (λ c. (fields_of c).has_globals ≡ false) }
{
    let about = "May a device answer as another one was seen to answer?";
    let command = plain_command(alloc, "conform", about, CONFORM_HELP);
    let command = with_flag(alloc, command, "all", "Write each step that differs")?;
    with_flag(
        alloc,
        command,
        "friendly",
        "Read a document that expand reads",
    )
}

fn explore_command<'a>(alloc: Global) -> Result<Command<'a>, AllocError>
    ensures app { IfOk result (λ c. app_of c ≡ explore_app) }
    ensures local { IfOk result (λ c. (fields_of c).has_globals ≡ false) }
{
    let about = "What may come of the parties, in every order of their steps?";
    let command = plain_command(alloc, "explore", about, EXPLORE_HELP);
    let command = with_number(alloc, command, "states", 1, MOST_STATES, "100000", STATES)?;
    let command = with_number(
        alloc,
        command,
        "key-bytes",
        1,
        MOST_KEY_BYTES,
        "256",
        KEY_BYTES,
    )?;
    let command = with_option(command, text_option(alloc, "show", "ROW", SHOW))?;
    let walks = number_option(alloc, "walks", 1, u32::MAX, WALKS);
    let command = with_option(command, walks)?;
    let seed = number_option(alloc, "seed", 0, u32::MAX, SEED);
    let command = with_option(command, seed)?;
    let command = with_option(command, text_option(alloc, "shard", "I/K", SHARD))?;
    with_flag(alloc, command, "json", "Write a JSON object in each line")
}

fn serve_command<'a>(alloc: Global) -> Result<Command<'a>, AllocError>
    ensures app { IfOk result (λ c. app_of c ≡ serve_app) }
    ensures local { IfOk result (λ c. (fields_of c).has_globals ≡ false) }
{
    let about = "What does the device answer to my next step?";
    let command = plain_command(alloc, "serve", about, SERVE_HELP);
    with_flag(alloc, command, "friendly", "Read steps that expand reads")
}

fn command_line<'a>(alloc: Global) -> Result<Command<'a>, AllocError>
    ensures { IfOk result (λ c. app_of c ≡ program_app) }
{
    let count = "How many were turned away and why, how full did it get, \
        how long did commands wait?";
    let expand = "Which scenario document does a friendly one mean?";
    top_command(alloc)?
        .subcommand(check_command(alloc)?)?
        .subcommand(explain_command(alloc)?)?
        .subcommand(trace_command(alloc)?)?
        .subcommand(plain_command(alloc, "count", count, COUNT_HELP))?
        .subcommand(draw_command(alloc)?)?
        .subcommand(conform_command(alloc)?)?
        .subcommand(plain_command(alloc, "expand", expand, EXPAND_HELP))?
        .subcommand(explore_command(alloc)?)?
        .subcommand(serve_command(alloc)?)?
        .subcommand(threads_command(alloc)?)
}

// The number of an option, which the parser has checked.
fn number_of(matches: &ArgMatches<'_>, name: &str, least: u32, most: u32) -> u32
    requires { least ≤ most }
    ensures range { (least ≤ result) × (result ≤ most) }
    ensures number { IsNumberOf (rows_of (found_of matches.now)) name.now least most result }
{
    matches
        .get_one::<u32>(name)
        .unwrap_or(least)
        .clamp(least, most)
}

// The numbers of the options of `threads`.
fn workload_of(given: &ArgMatches<'_>) -> Workload
    ensures range { result.threshold ≤ result.size → IsInRange result }
    ensures numbers { AreNumbersOf (rows_of (found_of given.now)) result }
{
    Workload {
        clients: number_of(given, "clients", 1, MOST_CLIENTS) as u16,
        engines: number_of(given, "engines", 1, MOST_ENGINES) as u16,
        each: number_of(given, "each", 1, MOST_EACH),
        turns: number_of(given, "turns", 1, MOST_TURNS),
        size: number_of(given, "size", 1, MOST_ENTRIES) as u16,
        threshold: number_of(given, "threshold", 1, MOST_ENTRIES) as u16,
        slots: number_of(given, "slots", 1, MOST_SLOTS) as u16,
        buffers: number_of(given, "buffers", LEAST_BUFFERS, MOST_BUFFERS) as u16,
    }
}

// What such numbers ask for.
fn asked_by<'a>(load: Workload) -> Asked<'a>
    ensures workers { load.threshold ≤ load.size → result ≡ Asked.Threads load }
    ensures refused { load.size < load.threshold → result ≡ Asked.HighThreshold load }
{
    if load.threshold <= load.size {
        Asked::Threads(load)
    } else {
        Asked::HighThreshold(load)
    }
}

// Whether an option is given that takes no value.
fn is_given(given: &ArgMatches<'_>, name: &str) -> bool
    ensures { IsChosenBy (rows_of (found_of given.now)) name.now true false result }
{
    given.get_flag(name)
}

// `form` where an option is given that takes no value, and else `other`.
fn if_given<T: Copy>(given: &ArgMatches<'_>, name: &str, form: T, other: T) -> T
    ensures { IsGivenElse (rows_of (found_of given.now)) name.now form (λ o. o ≡ other) result }
{
    if is_given(given, name) { form } else { other }
}

// The form of a trace that the first of these options asks for, where it is not that of Chrome.
fn form_of(given: &ArgMatches<'_>) -> Option<Trace>
    ensures { IsFormOf (rows_of (found_of given.now)) result }
{
    let wide = if_given(given, "wide", Some(Trace::Wide), Some(Trace::Table));
    let changes = if_given(given, "changes", Some(Trace::Changes), wide);
    let json = if_given(given, "json", Some(Trace::Json), changes);
    if_given(given, "chrome", None, json)
}

// The run that the option `--seen` asks for.
fn run_of(given: &ArgMatches<'_>) -> Run
    ensures { IsRunChosen (rows_of (found_of given.now)) result }
{
    if is_given(given, "seen") {
        Run::Seen
    } else {
        Run::Own
    }
}

// The trace that the options of `trace` ask for.
fn trace_of<'a>(given: &ArgMatches<'_>) -> Report<'a>
    ensures { IsAskedBy (codes "trace", rows_of (found_of given.now)) result }
{
    match form_of(given) {
        Some(form) => Report::Trace(form, run_of(given)),
        None => Report::Chrome(run_of(given)),
    }
}

// The form of a check that the first of these options asks for.
fn check_form_of(given: &ArgMatches<'_>) -> CheckForm
    ensures { IsCheckFormOf (rows_of (found_of given.now)) result }
{
    let plain = CheckForm::Source { is_colored: false };
    let colored = CheckForm::Source { is_colored: true };
    let source = if_given(given, "source", plain, CheckForm::Lines);
    let color = if_given(given, "color", colored, source);
    if_given(given, "json", CheckForm::Json, color)
}

// The check that the options of `check` ask for.
fn check_of(given: &ArgMatches<'_>) -> Check
    ensures { IsCheckOf (rows_of (found_of given.now)) result }
{
    Check {
        is_strict: is_given(given, "strict"),
        form: check_form_of(given),
    }
}

// The comparison that the option of `conform` asks for.
fn conformance_of(given: &ArgMatches<'_>) -> Conformance
    ensures { IsConformanceChosen (rows_of (found_of given.now)) result }
{
    Conformance {
        is_all: is_given(given, "all"),
    }
}

// The form of a document, or of what comes behind it, that the option `--friendly` names.
fn written_in(given: &ArgMatches<'_>) -> Written
    ensures { IsWrittenIn (rows_of (found_of given.now)) result }
{
    if is_given(given, "friendly") {
        Written::Friendly
    } else {
        Written::Strict
    }
}

// The steps that the option of `draw` names, or a text that names none.
fn range_given<'a>(given: &ArgMatches<'a>) -> Result<StepRange, &'a str>
    ensures steps { IfOk result
        (λ range. range_asked (rows_of (found_of given.now)) ≡ Some range) }
    ensures text { IfErr result
        (λ text. first_of (codes "steps") (rows_of (found_of given.now)) ≡ Some text.now) }
    ensures wrong { IfErr result (λ text. range_of_text text.now ≡ None) }
{
    match given.get_str("steps") {
        Some(text) => match StepRange::parse(text) {
            Some(range) => Ok(range),
            None => Err(text),
        },
        None => Ok(StepRange::all()),
    }
}

// What `draw` with these options asks for.
fn drawing_asked<'a>(given: &ArgMatches<'a>) -> Asked<'a>
    ensures { AsksBy (codes "draw", rows_of (found_of given.now)) result }
{
    match range_given(given) {
        Ok(steps) => Asked::Report(Report::Draw(Drawing { steps }, run_of(given))),
        Err(text) => Asked::WrongValue(WrongValue::Range(text)),
    }
}

// The name of an entry that the option of `explain` says.
fn name_given(given: &ArgMatches<'_>) -> Option<u32>
    ensures { IsNumberGiven (rows_of (found_of given.now)) (codes "name") 4_294_967_295 result }
{
    given.get_one::<u32>("name")
}

// The client that the option of `explain` says.
fn client_given(given: &ArgMatches<'_>) -> Option<u16>
    ensures { IsNumberGiven (rows_of (found_of given.now)) (codes "client") 65_535 result }
{
    given.get_one::<u16>("client")
}

// The words that the option of `explain` has, or the first of them with which no answer begins.
fn answers_given<'a>(given: &ArgMatches<'a>) -> Result<Option<AnswerWords<'a>>, &'a str>
    ensures words { IfOk result (λ answers. option_map (λ words. words.text.now) answers
        ≡ first_of (codes "only") (rows_of (found_of given.now))) }
    ensures known { IfOk result (λ _. unknown_answer (rows_of (found_of given.now)) ≡ None) }
    ensures unknown { IfErr result
        (λ word. unknown_answer (rows_of (found_of given.now)) ≡ Some word.now) }
{
    match given.get_str("only") {
        Some(words) => match AnswerWords::parse(words) {
            Ok(answers) => Ok(Some(answers)),
            Err(word) => Err(word),
        },
        None => Ok(None),
    }
}

// What `explain` with these options asks for.
fn explanation_asked<'a>(given: &ArgMatches<'a>) -> Asked<'a>
    ensures { AsksBy (codes "explain", rows_of (found_of given.now)) result }
{
    match answers_given(given) {
        Ok(answers) => {
            let selection = Selection {
                name: name_given(given),
                client: client_given(given),
                answers,
            };
            Asked::Report(Report::Explain(selection, run_of(given)))
        }
        Err(word) => Asked::WrongValue(WrongValue::Answer(word)),
    }
}

// The bounds that the options of `explore` say.
fn bounds_of(given: &ArgMatches<'_>) -> Bounds
    ensures { AreBoundsOf (rows_of (found_of given.now)) result }
{
    Bounds {
        states: number_of(given, "states", 1, MOST_STATES),
        key_bytes: number_of(given, "key-bytes", 1, MOST_KEY_BYTES),
    }
}

// Whether the option `--json` of `explore` is given.
fn is_json_given(given: &ArgMatches<'_>) -> bool
    ensures { result ≡ is_json_given (rows_of (found_of given.now)) }
{
    match given.get_str("json") {
        Some(text) => text == "true",
        None => false,
    }
}

// The form of a search that the option of `explore` asks for.
fn search_form(given: &ArgMatches<'_>) -> Form
    ensures { result ≡ search_form (rows_of (found_of given.now)) }
{
    if is_json_given(given) {
        Form::Json
    } else {
        Form::Table
    }
}

// Whether an option has a text.
fn is_text_given(given: &ArgMatches<'_>, name: &str) -> bool
    ensures { result ≡ is_text_given (rows_of (found_of given.now)) name.now }
{
    given.get_str(name).is_some()
}

// The first two options that do not go together, by which of them are given.
fn clash_by(show: bool, json: bool, walks: bool, seed: bool, shard: bool) -> Option<Clash>
    ensures { result ≡ clash_by show json walks seed shard }
{
    if show && json {
        return Some(Clash::ShowAndJson);
    }
    if walks && show {
        return Some(Clash::WalksAndShow);
    }
    if !walks && seed {
        return Some(Clash::SeedAlone);
    }
    if !walks && shard {
        return Some(Clash::ShardAlone);
    }
    None
}

// Those of `explore`.
fn clash_in(given: &ArgMatches<'_>) -> Option<Clash>
    ensures { result ≡ clash_in (rows_of (found_of given.now)) }
{
    let show = is_text_given(given, "show");
    let walks = is_text_given(given, "walks");
    let seed = is_text_given(given, "seed");
    let shard = is_text_given(given, "shard");
    clash_by(show, is_json_given(given), walks, seed, shard)
}

// The seed that the option of `explore` says.
fn seed_given(given: &ArgMatches<'_>) -> Option<u32>
    ensures { IsNumberGiven (rows_of (found_of given.now)) (codes "seed") 4_294_967_295 result }
{
    given.get_one::<u32>("seed")
}

// The shard that the option of `explore` names, or a text that names none.
fn shard_given<'a>(given: &ArgMatches<'a>) -> Result<Shard, &'a str>
    ensures shard { IfOk result
        (λ shard. shard_asked (rows_of (found_of given.now)) ≡ Some shard) }
    ensures text { IfErr result
        (λ text. first_of (codes "shard") (rows_of (found_of given.now)) ≡ Some text.now) }
    ensures wrong { IfErr result (λ text. shard_of_text text.now ≡ None) }
{
    match given.get_str("shard") {
        Some(words) => match Shard::parse(words) {
            Some(shard) => Ok(shard),
            None => Err(words),
        },
        None => Ok(Shard::whole()),
    }
}

// The walks of this shard that the options of `explore` say.
fn walks_of(given: &ArgMatches<'_>, shard: Shard) -> Walks
    requires { shard_asked (rows_of (found_of given.now)) ≡ Some shard }
    ensures { AreWalksGiven (rows_of (found_of given.now)) result }
{
    Walks {
        count: number_of(given, "walks", 1, u32::MAX),
        seed: u64::from(seed_given(given).unwrap_or(0)),
        shard: shard.number,
        shards: shard.count,
    }
}

// What random walks find, which the option `--walks` asks for.
fn sampling_asked<'a>(given: &ArgMatches<'a>) -> Asked<'a>
    requires walks { is_text_given (rows_of (found_of given.now)) (codes "walks") ≡ true }
    requires show { first_of (codes "show") (rows_of (found_of given.now)) ≡ None }
    requires clash { clash_in (rows_of (found_of given.now)) ≡ None }
    ensures { AsksBy (codes "explore", rows_of (found_of given.now)) result }
{
    match shard_given(given) {
        Ok(shard) => {
            let form = search_form(given);
            let walks = walks_of(given, shard);
            Asked::Report(Report::Sample(Sampling { form, walks }))
        }
        Err(text) => Asked::WrongValue(WrongValue::Shard(text)),
    }
}

// The document of a row, which the option `--show` names.
fn showing_asked<'a>(given: &ArgMatches<'a>, row: &'a str) -> Asked<'a>
    requires row { first_of (codes "show") (rows_of (found_of given.now)) ≡ Some row.now }
    requires clash { clash_in (rows_of (found_of given.now)) ≡ None }
    ensures { AsksBy (codes "explore", rows_of (found_of given.now)) result }
{
    let bounds = bounds_of(given);
    Asked::Report(Report::Show(Showing { bounds, row }))
}

// What `explore` asks for with options that go together, without a row to show.
fn table_asked<'a>(given: &ArgMatches<'a>) -> Asked<'a>
    requires show { first_of (codes "show") (rows_of (found_of given.now)) ≡ None }
    requires clash { clash_in (rows_of (found_of given.now)) ≡ None }
    ensures { AsksBy (codes "explore", rows_of (found_of given.now)) result }
{
    if is_text_given(given, "walks") {
        return sampling_asked(given);
    }
    let form = search_form(given);
    let bounds = bounds_of(given);
    Asked::Report(Report::Explore(Exploring { form, bounds }))
}

// What `explore` with these options asks for.
fn exploration_asked<'a>(given: &ArgMatches<'a>) -> Asked<'a>
    ensures { AsksBy (codes "explore", rows_of (found_of given.now)) result }
{
    if let Some(clash) = clash_in(given) {
        return Asked::WrongValue(WrongValue::Clash(clash));
    }
    match given.get_str("show") {
        Some(row) => showing_asked(given, row),
        None => table_asked(given),
    }
}

// Whether the words name this command.
fn is_named(matches: &ArgMatches<'_>, name: &str) -> bool
    ensures named { result ≡ true
        → (rows : List Row) × (subcommand_rows_of matches.now ≡ Some (name.now, rows)) }
    ensures other { result ≡ false
        → option_map (λ found. found.0) (subcommand_rows_of matches.now) ≢ Some name.now }
{
    matches.subcommand_matches(name).is_some()
}

// What the words ask for that name a report.
fn report_asked<'a>(matches: &ArgMatches<'a>) -> Option<Asked<'a>>
    ensures some { IfSome result
        (λ asked. (found : Text × List Row)
        × (subcommand_rows_of matches.now ≡ Some found)
        × IsReportName found.0
        × AsksBy found asked) }
    ensures none { IfNone result ((name : Text) → IsReportName name
        → option_map (λ found. found.0) (subcommand_rows_of matches.now) ≢ Some name) }
{
    if let Some(given) = matches.subcommand_matches("trace") {
        return Some(Asked::Report(trace_of(given)));
    }
    if let Some(given) = matches.subcommand_matches("check") {
        return Some(Asked::Report(Report::Check(check_of(given))));
    }
    if let Some(given) = matches.subcommand_matches("explain") {
        return Some(explanation_asked(given));
    }
    if let Some(given) = matches.subcommand_matches("draw") {
        return Some(drawing_asked(given));
    }
    if let Some(given) = matches.subcommand_matches("explore") {
        return Some(exploration_asked(given));
    }
    if is_named(matches, "count") {
        return Some(Asked::Report(Report::Count));
    }
    if is_named(matches, "expand") {
        return Some(Asked::Report(Report::Expand));
    }
    let given = matches.subcommand_matches("conform")?;
    Some(Asked::Report(Report::Conform(conformance_of(given), written_in(given))))
}

/// What the words ask for, or what `clap` has to say.
pub fn read_words<'a>(alloc: Global, words: &'a [String]) -> Result<Asked<'a>, Error>
    ensures range { IfOk result (λ asked. IsAskedInRange asked) }
    ensures asked { IfOk result (AsksFor (map string_bytes words.now)) }
    ensures faults { FailsBy (faults_of_words (map string_bytes words.now)) result }
    ensures none { length words.now ≡ 0 → result ≡ Ok Asked.Scenario }
{
    if words.is_empty() {
        return Ok(Asked::Scenario);
    }
    let matches = command_line(alloc)?.try_get_matches_from(words)?;
    if let Some(given) = matches.subcommand_matches("threads") {
        return Ok(asked_by(workload_of(given)));
    }
    if let Some(asked) = report_asked(&matches) {
        return Ok(asked);
    }
    if let Some(given) = matches.subcommand_matches("serve") {
        return Ok(Asked::Serve(written_in(given)));
    }
    Ok(Asked::Scenario)
}
