//! What is noted of the batch of an engine.

ghost use Rattle.std.specs.Prelude.{◌++◌};
ghost use Rattle.dsa_event_text.specs.{Added.{Adds}, Text.{truth_text}};
ghost use Rattle.dsa_trace.specs.Notes.{batch_members, batch_part};

use crate::form::{Part, Trace, add_mark};
use dsa_book::BatchNote;
use dsa_event_text::{Added, add_number, truth_text};

/// Adds a truth value behind the text before it.
pub fn add_flag(text: &mut String, before: &str, flag: bool) -> Added
    ensures { Adds result text.old text.new (before.now ++ truth_text flag) }
{
    text.push_str(before)?;
    text.push_str(truth_text(flag))
}

fn add_batch_members(text: &mut String, note: &BatchNote) -> Added
    ensures { Adds result text.old text.new (batch_members note.now) }
{
    add_number(text, "\"name\":", note.batch)?;
    add_number(text, ",\"count\":", note.count)?;
    add_number(text, ",\"fetched\":", note.fetched)?;
    add_flag(text, ",\"failed\":", note.failed)?;
    add_flag(text, ",\"closed\":", note.closed)
}

/// Adds what is noted of the batch that an engine works on.
pub fn add_batch(text: &mut String, form: Trace, note: Option<BatchNote>) -> Added
    ensures { Adds result text.old text.new (batch_part form note) }
{
    match (form, note) {
        (Trace::Table | Trace::Wide | Trace::Changes, _) => Ok(()),
        (Trace::Json, None) => add_mark(text, form, Part::NoBatch),
        (Trace::Json, Some(note)) => {
            add_mark(text, form, Part::Batch)?;
            add_batch_members(text, &note)?;
            add_mark(text, form, Part::ObjectEnd)
        }
    }
}
