//! The noted error.

ghost use Rattle.std.specs.Prelude.{◌≡◌, ◌++◌, codes, decimal};
ghost use Rattle.dsa_event_text.specs.Added.{Adds};
ghost use Rattle.dsa_scenario.specs.Lines.{cause_text};
ghost use Rattle.dsa_trace.specs.Errors.{error_members, error_part};

use crate::form::{Part, Trace, add_mark};
use crate::notes::add_flag;
use dsa_book::{Cause, NotedError};
use dsa_event_text::{Added, add_number};

fn cause_text(cause: Cause) -> &'static str
    ensures { result.now ≡ cause_text cause }
{
    match cause {
        Cause::AtLimit => "at-limit",
        Cause::NotEnabled => "not-enabled",
        Cause::WrongKind => "wrong-kind",
    }
}

/// Adds a cause behind the text before it.
pub fn add_cause(text: &mut String, before: &str, cause: Cause) -> Added
    ensures { Adds result text.old text.new (before.now ++ cause_text cause) }
{
    text.push_str(before)?;
    text.push_str(cause_text(cause))
}

fn add_queue(text: &mut String, queue: u16) -> Added
    ensures { Adds result text.old text.new (codes "\"queue\":" ++ decimal queue) }
{
    add_number(text, "\"queue\":", u32::from(queue))
}

/// Adds the members of the object of an error.
pub fn add_error_members(text: &mut String, noted: &NotedError) -> Added
    ensures { Adds result text.old text.new (error_members noted.now) }
{
    add_queue(text, noted.queue)?;
    add_cause(text, ",\"cause\":\"", noted.cause)?;
    add_flag(text, "\",\"overflow\":", noted.overflow)
}

/// Adds the error that is noted, or that none is.
pub fn add_error(text: &mut String, form: Trace, noted: Option<NotedError>) -> Added
    ensures { Adds result text.old text.new (error_part form noted) }
{
    match (form, noted) {
        (Trace::Table | Trace::Wide | Trace::Changes, _) => Ok(()),
        (Trace::Json, None) => add_mark(text, form, Part::NoError),
        (Trace::Json, Some(noted)) => {
            add_mark(text, form, Part::Error)?;
            add_error_members(text, &noted)?;
            add_mark(text, form, Part::ObjectEnd)
        }
    }
}
