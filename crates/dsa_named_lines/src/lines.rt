//! The line of a step, with the own names of the entries that it mentions.

ghost use Rattle.std.specs.Prelude.{◌≡◌, ◌==◌, ◌||◌, IfOk, filter, map};
ghost use Rattle.dsa_chosen.specs.Selected.{is_about};
ghost use Rattle.std.specs.List.{list_any};
ghost use Rattle.dsa_event_text.specs.Added.{Adds};
ghost use Rattle.dsa_explain_lines.specs.Lines.{shown};
ghost use Rattle.dsa_named.specs.{Names.{own_of}, Notes.{names_note}};
ghost use Rattle.dsa_named_lines.specs.Lines.{line_and_note, named_in};

use crate::awaited::names_told;
use dsa_book::{DispatchAnswer, FateRow, Reply, Step};
use dsa_chosen::is_about;
use dsa_device::Device;
use dsa_explain_lines::add_asked;
use dsa_named::{OwnName, add_note};
use dsa_scenario::{Added, Record, add_answer};
use dsa_store::EntryStore;
use std::alloc::{AllocError, Global};
use std::fmt::Write;

// Whether the name is one of these.
fn is_among(name: u32, names: &[u32]) -> bool
    ensures { result ≡ list_any (λ other. other == name) names.now }
{
    names.iter().any(|other| *other == name)
}

/// The own names of the entries that a step with this record, after which these are the fates, is
/// about, and of those of these names.
pub fn names_about<'a>(
    alloc: Global,
    names: &[OwnName<'a>],
    entry: &Record,
    fates: &[FateRow],
    told: &[u32],
) -> Result<Vec<OwnName<'a>>, AllocError>
    ensures { IfOk result (λ found. map own_of found.items
        ≡ filter (λ own. is_about own.0 entry.now fates.now
        || list_any (λ other. other == own.0) told.now) (map own_of names.now)) }
{
    let mut found = Vec::new(alloc);
    for own in names {
        if is_about(own.name, entry, fates) || is_among(own.name, told) {
            found.push(*own)?;
        }
    }
    Ok(found)
}

/// The own names of the entries that the line of a step with this record, after which the device
/// stands so, mentions: the step is about them, or the line says that a command waits for them.
pub fn names_in<'a, S: EntryStore>(
    alloc: Global,
    names: &[OwnName<'a>],
    entry: &Record,
    device: &Device<S>,
) -> Result<Vec<OwnName<'a>>, AllocError>
    ensures { IfOk result (λ found. map own_of found.items
        ≡ named_in (map own_of names.now) entry.now device.now.state) }
{
    let told = names_told(alloc, entry, device)?;
    names_about(alloc, names, entry, device.fates(), &told)
}

// Adds this part where no entry was taken.
fn add_untaken(text: &mut String, entry: &Record, part: &str) -> Added
    ensures { Adds result text.old text.new (shown part.now entry.now) }
{
    match entry {
        Record::Stepped(
            Step {
                reply: Reply::Dispatch(DispatchAnswer::Taken { .. }),
                ..
            },
        ) => Ok(()),
        _ => text.push_str(part),
    }
}

/// Adds the line of a step, with this part after the answer as [`add_line`] has it, and with these
/// own names at its end.
///
/// [`add_line`]: dsa_explain_lines::add_line
pub fn add_named_line(
    text: &mut String,
    number: usize,
    entry: &Record,
    part: &str,
    names: &[OwnName<'_>],
) -> Added
    ensures { Adds result text.old text.new
        (line_and_note part.now (names_note (map own_of names.now)) number entry.now) }
{
    write!(text, "{number} ")?;
    add_asked(text, entry)?;
    text.push_str(" -> ")?;
    add_answer(text, entry)?;
    add_untaken(text, entry, part)?;
    add_note(text, names)?;
    text.push_str("\n")
}
