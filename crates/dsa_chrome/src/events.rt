//! The instant event of a step, and the slices of commands.

ghost use Rattle.std.specs.Prelude.{◌≡◌, ◌+◌, ◌++◌};
ghost use Rattle.std.specs.Fmt.{decimal};
ghost use Rattle.dsa_event_text.specs.Added.{Adds};
ghost use Rattle.dsa_chrome.specs.Events.{answer_args, event_words_of, maker_of, command_begin, command_end, command_of_record, instant_text, step_args, thread_text};

use dsa_book::{Actor, Event, IssueAnswer, PollAnswer, Reply};
use dsa_event_text::{Added, add_bad_word, add_command, add_event, add_number};
use dsa_regs::Command;
use dsa_scenario::{Record, add_answer};
use itoa::Buffer;

/// Adds a text.
pub fn add_text(text: &mut String, words: &str) -> Added
    ensures { Adds result text.old text.new words.now }
{
    text.push_str(words)
}

/// Adds a text and the number of a step or of a lane.
pub fn add_place(text: &mut String, before: &str, place: usize) -> Added
    ensures { Adds result text.old text.new (before.now ++ decimal place) }
{
    let mut buffer = Buffer::new();
    text.push_str(before)?;
    text.push_str(buffer.format(place))
}

// Who asked for a step.
fn maker_of(entry: &Record) -> Actor
    ensures { result ≡ maker_of entry.now }
{
    match entry {
        Record::Stepped(step) => step.event.actor(),
        Record::Refused(_) => Actor::Admin,
    }
}

fn add_thread(text: &mut String, asker: Actor) -> Added
    ensures { Adds result text.old text.new (thread_text asker) }
{
    match asker {
        Actor::Client(_) => text.push_str(",\"pid\":1,\"tid\":1"),
        Actor::Admin => text.push_str(",\"pid\":1,\"tid\":2"),
        Actor::Engine(engine) => { add_number(text, ",\"pid\":3,\"tid\":", u32::from(engine) + 1) }
    }
}

fn add_asked(text: &mut String, entry: &Record) -> Added
    ensures { Adds result text.old text.new (event_words_of entry.now) }
{
    match entry {
        Record::Stepped(step) => add_event(text, &step.event),
        Record::Refused(refused) => add_bad_word(text, refused.word),
    }
}

fn add_answer_args(text: &mut String, entry: &Record) -> Added
    ensures { Adds result text.old text.new (answer_args entry.now) }
{
    add_text(text, "\",\"answer\":\"")?;
    add_answer(text, entry)?;
    add_text(text, "\"}}")
}

fn add_step_args(text: &mut String, number: usize, entry: &Record) -> Added
    ensures { Adds result text.old text.new (step_args number entry.now) }
{
    add_place(text, ",\"args\":{\"step\":", number)?;
    text.push_str(",\"event\":\"")?;
    add_asked(text, entry)?;
    add_answer_args(text, entry)
}

/// Adds the instant event of a step.
pub fn add_instant(text: &mut String, number: usize, entry: &Record) -> Added
    ensures { Adds result text.old text.new (instant_text number entry.now) }
{
    add_text(text, ",\n{\"name\":\"")?;
    add_answer(text, entry)?;
    add_place(text, "\",\"ph\":\"i\",\"s\":\"t\",\"ts\":", number)?;
    add_thread(text, maker_of(entry))?;
    add_step_args(text, number, entry)
}

// A command that is active begins a slice.
fn add_command_begin(text: &mut String, number: usize, command: &Command) -> Added
    ensures { Adds result text.old text.new (command_begin number command.now) }
{
    text.push_str(",\n{\"name\":\"")?;
    add_command(text, command)?;
    add_place(text, "\",\"ph\":\"B\",\"ts\":", number)?;
    text.push_str(",\"pid\":1,\"tid\":2}")
}

// A poll that reports its end ends the slice.
fn add_command_end(text: &mut String, number: usize) -> Added
    ensures { Adds result text.old text.new (command_end number) }
{
    add_place(text, ",\n{\"ph\":\"E\",\"ts\":", number)?;
    text.push_str(",\"pid\":1,\"tid\":2}")
}

/// Adds the begin or the end of a command's slice, where the step is one.
pub fn add_command_part(text: &mut String, number: usize, entry: &Record) -> Added
    ensures { Adds result text.old text.new (command_of_record number entry.now) }
{
    let Record::Stepped(step) = entry else {
        return Ok(());
    };
    match (step.event, step.reply) {
        (Event::Issue { command }, Reply::Issue(IssueAnswer::Active)) => {
            add_command_begin(text, number, &command)
        }
        (_, Reply::Poll(PollAnswer::Finished)) => add_command_end(text, number),
        _ => Ok(()),
    }
}
