//! The names of entries, in an array and in a row.

ghost use Rattle.std.specs.Prelude.{flat_map};
ghost use Rattle.dsa_event_text.specs.Added.{Adds};
ghost use Rattle.dsa_trace.specs.Names.{bracketed_names, entry_names_text, further_name};
ghost use Rattle.dsa_trace.specs.Names.{list_names, names_array};

use crate::form::{Part, Trace, add_mark};
use dsa_event_text::{Added, add_list, add_number};
use dsa_regs::ListUse;
use dsa_store::{EntryStore, Walk};

fn add_each<S: EntryStore>(text: &mut String, entries: Walk<'_, S>) -> Added
    ensures { Adds result text.old text.new (entry_names_text entries.entry) }
{
    let mut separator = "";
    for (_cell, entry) in entries {
        add_number(text, separator, entry.name)?;
        separator = ",";
    }
    Ok(())
}

/// Adds an array of the entries' names behind the mark of its part, in the order of the entries.
pub fn add_names<S: EntryStore>(
    text: &mut String,
    form: Trace,
    part: Part,
    entries: Walk<'_, S>,
) -> Added
    ensures { Adds result text.old text.new (names_array form part entries.entry) }
{
    match form {
        Trace::Table | Trace::Wide | Trace::Changes => Ok(()),
        Trace::Json => {
            add_mark(text, form, part)?;
            add_each(text, entries)?;
            add_mark(text, form, Part::NamesEnd)
        }
    }
}

/// Adds a bar and a list with the names of the entries that it has, also where it has none.
pub fn add_bracketed_names<S: EntryStore>(
    text: &mut String,
    list: ListUse,
    entries: Walk<'_, S>,
) -> Added
    ensures { Adds result text.old text.new (bracketed_names list entries.entry) }
{
    text.push_str(" | ")?;
    add_list(text, list)?;
    text.push_str(" [")?;
    add_each(text, entries)?;
    text.push_str("]")
}

// The names, each behind a comma.
fn add_further<S: EntryStore>(text: &mut String, entries: Walk<'_, S>) -> Added
    ensures { Adds result text.old text.new (flat_map further_name entries.entry) }
{
    for (_cell, entry) in entries {
        add_number(text, ",", entry.name)?;
    }
    Ok(())
}

/// Adds a list with the names of the entries that it has, behind a bar, where it has any.
pub fn add_list_names<S: EntryStore>(
    text: &mut String,
    list: ListUse,
    entries: Walk<'_, S>,
) -> Added
    ensures { Adds result text.old text.new (list_names list entries.entry) }
{
    let mut rest = entries;
    let Some((_cell, first)) = rest.next() else {
        return Ok(());
    };
    text.push_str(" | ")?;
    add_list(text, list)?;
    add_number(text, " [", first.name)?;
    add_further(text, rest)?;
    text.push_str("]")
}
