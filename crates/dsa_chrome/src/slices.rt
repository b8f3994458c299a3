//! The slices of entries that engines had.

ghost use Rattle.std.specs.Prelude.{◌≡◌, ◌<◌, false};
ghost use Rattle.std.specs.Fmt.{digit_glyph};
ghost use Rattle.dsa_event_text.specs.Added.{Adds};
ghost use Rattle.dsa_book.specs.declared.fate.Fate.TheVariants.{Completed};
ghost use Rattle.dsa_scenario.specs.Lines.{fate_text, two_digits};
ghost use Rattle.dsa_chrome.specs.Slices.{batch_arg, client_arg, end_text, entry_text, slice_text, span_text, entry_title, work_args};

use crate::events::{add_place, add_text};
use crate::lanes::Work;
use dsa_book::Fate;
use dsa_event_text::{Added, add_descriptor, add_number};
use dsa_store::Entry;
use std::alloc::AllocError;

/// The end of an entry, and the step that brought it.
#[derive(Clone, Copy)]
pub struct End {
    pub step: usize,
    pub fate: Fate,
}

fn hex_digit(n: u8) -> char
    requires { n < 16 }
    ensures { result ≡ digit_glyph false n }
{
    char::from(if n < 10 { b'0' + n } else { b'a' + (n - 10) })
}

fn add_status(text: &mut String, status: u8) -> Result<(), AllocError>
    ensures { Adds result text.old text.new (two_digits status) }
{
    text.push(hex_digit(status / 16))?;
    text.push(hex_digit(status % 16))
}

fn add_completed(text: &mut String, status: u8) -> Added
    ensures { Adds result text.old text.new (fate_text (Completed status)) }
{
    add_text(text, "completed ")?;
    add_status(text, status)
}

fn add_fate(text: &mut String, fate: Fate) -> Added
    ensures { Adds result text.old text.new (fate_text fate) }
{
    match fate {
        Fate::Completed(status) => add_completed(text, status),
        Fate::Aborted(command) => add_number(text, "aborted ", u32::from(command)),
        Fate::Abandoned => text.push_str("abandoned"),
    }
}

fn add_end(text: &mut String, end: Option<End>) -> Added
    ensures { Adds result text.old text.new (end_text end) }
{
    match end {
        Some(end) => add_fate(text, end.fate),
        None => text.push_str("held"),
    }
}

fn add_batch_arg(text: &mut String, parent: Option<u32>) -> Added
    ensures { Adds result text.old text.new (batch_arg parent) }
{
    match parent {
        Some(batch) => add_number(text, ",\"batch\":", batch),
        None => Ok(()),
    }
}

fn add_client_arg(text: &mut String, client: Option<u16>) -> Added
    ensures { Adds result text.old text.new (client_arg client) }
{
    match client {
        Some(client) => add_number(text, ",\"client\":", u32::from(client)),
        None => Ok(()),
    }
}

fn add_title(text: &mut String, entry: &Entry) -> Added
    ensures { Adds result text.old text.new (entry_title entry.now) }
{
    add_number(text, ",\n{\"name\":\"", entry.name)?;
    text.push_str(" ")?;
    add_descriptor(text, &entry.desc)
}

// From the step that brought the entry to that of its end; without an end the slice stays open.
fn add_span(text: &mut String, begin: usize, end: Option<End>) -> Added
    ensures { Adds result text.old text.new (span_text begin end) }
{
    match end {
        Some(end) => {
            add_place(
                text,
                "\",\"ph\":\"X\",\"dur\":",
                end.step.saturating_sub(begin),
            )?;
            add_place(text, ",\"ts\":", begin)
        }
        None => add_place(text, "\",\"ph\":\"B\",\"ts\":", begin),
    }
}

fn add_entry(text: &mut String, entry: &Entry) -> Added
    ensures { Adds result text.old text.new (entry_text entry.now) }
{
    add_number(text, ",\"args\":{\"entry\":", entry.name)?;
    add_batch_arg(text, entry.parent)?;
    add_number(text, ",\"queue\":", u32::from(entry.queue))?;
    add_number(text, ",\"opcode\":", u32::from(entry.desc.op))?;
    add_number(text, ",\"pasid\":", entry.desc.pasid)?;
    add_number(text, ",\"size\":", entry.desc.size)
}

fn add_work_args(text: &mut String, work: &Work, end: Option<End>) -> Added
    ensures { Adds result text.old text.new (work_args work.now end) }
{
    add_entry(text, &work.entry)?;
    add_client_arg(text, work.client)?;
    add_text(text, ",\"end\":\"")?;
    add_end(text, end)?;
    add_text(text, "\"}}")
}

/// Adds the slice of an entry in the lane of this number.
pub fn add_slice(text: &mut String, lane: usize, work: &Work, end: Option<End>) -> Added
    ensures { Adds result text.old text.new (slice_text lane work.now end) }
{
    add_title(text, &work.entry)?;
    add_span(text, work.begin, end)?;
    add_place(text, ",\"pid\":2,\"tid\":", lane)?;
    add_work_args(text, work, end)
}
