//! The line of a step.

ghost use Rattle.std.specs.Prelude.{◌≡◌, ◌++◌, codes, decimal};
ghost use Rattle.dsa_event_text.specs.Added.{Adds};
ghost use Rattle.dsa_explain_lines.specs.Lines.{asked_words, is_taken, line_with, shown};

use dsa_book::{DispatchAnswer, Reply};
use dsa_event_text::{Added, add_bad_word, add_event};
use dsa_scenario::{Record, add_answer};
use itoa::Buffer;

fn add_place(text: &mut String, number: usize) -> Added
    ensures { Adds result text.old text.new (decimal number ++ codes " ") }
{
    let mut buffer = Buffer::new();
    text.push_str(buffer.format(number))?;
    text.push_str(" ")
}

/// Adds what a record answers, in words: the event, or the word that is no command.
pub fn add_asked(text: &mut String, entry: &Record) -> Added
    ensures { Adds result text.old text.new (asked_words entry.now) }
{
    match entry {
        Record::Stepped(step) => add_event(text, &step.event),
        Record::Refused(refused) => add_bad_word(text, refused.word),
    }
}

fn is_taken(entry: &Record) -> bool
    ensures { result ≡ is_taken entry.now }
{
    match entry {
        Record::Stepped(step) => matches!(
            step.reply,
            Reply::Dispatch(DispatchAnswer::Taken { .. })
        ),
        Record::Refused(_) => false,
    }
}

/// Adds this part where no entry was taken, and the line's end.
pub fn add_shown(text: &mut String, entry: &Record, part: &str) -> Added
    ensures { Adds result text.old text.new (shown part.now entry.now ++ codes "\n") }
{
    if !is_taken(entry) {
        text.push_str(part)?;
    }
    text.push_str("\n")
}

/// Adds the line of a step, with this part behind the answer where no entry was taken.
pub fn add_line(text: &mut String, number: usize, entry: &Record, part: &str) -> Added
    ensures { Adds result text.old text.new (line_with part.now number entry.now) }
{
    add_place(text, number)?;
    add_asked(text, entry)?;
    text.push_str(" -> ")?;
    add_answer(text, entry)?;
    add_shown(text, entry, part)
}
