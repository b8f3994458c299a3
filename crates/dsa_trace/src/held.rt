//! The entries that a device holds, after a step and when the steps are over.

ghost use Rattle.std.specs.Prelude.{◌<◌};
ghost use Rattle.dsa_event_text.specs.Added.{Adds};
ghost use Rattle.dsa_regs.specs.Caps.{list_count};
ghost use Rattle.dsa_trace.specs.Held.{held_line, held_lines, list_column, list_lines};
ghost use Rattle.dsa_trace.specs.Held.{names_columns};

use crate::form::{Part, Trace, add_mark, add_marked};
use crate::names::add_list_names;
use dsa_device::Device;
use dsa_event_text::{Added, add_list};
use dsa_explain::entries_of_list;
use dsa_regs::{ListUse, list_count};
use dsa_store::{Cell, Entry, EntryStore};

fn add_entry(text: &mut String, form: Trace, list: ListUse, pair: (Cell, Entry)) -> Added
    ensures { Adds result text.old text.new (held_line form list pair) }
{
    let (_cell, entry) = pair;
    add_marked(text, form, Part::Held, entry.name)?;
    add_mark(text, form, Part::InList)?;
    add_list(text, list)?;
    add_mark(text, form, Part::HeldEnd)
}

// The names in the list of this number.
fn add_list_column<S: EntryStore>(text: &mut String, device: &Device<S>, number: u16) -> Added
    requires { number < list_count device.now.caps }
    ensures { Adds result text.old text.new
        (list_column device.now.caps device.now.state number) }
{
    let list = device.caps().list_use(number);
    add_list_names(text, list, entries_of_list(device, list))
}

/// Adds the names in each list of which there are any.
pub fn add_names_columns<S: EntryStore>(text: &mut String, device: &Device<S>) -> Added
    ensures { Adds result text.old text.new (names_columns device.now.caps device.now.state) }
{
    device.state_is_replay();
    for number in 0..list_count(&device.caps()) {
        add_list_column(text, device, number)?;
    }
    Ok(())
}

// A line for each entry of the list of this number.
fn add_list_lines<S: EntryStore>(
    text: &mut String,
    form: Trace,
    device: &Device<S>,
    number: u16,
) -> Added
    requires { number < list_count device.now.caps }
    ensures { Adds result text.old text.new
        (list_lines form device.now.caps device.now.state number) }
{
    let list = device.caps().list_use(number);
    for pair in entries_of_list(device, list) {
        add_entry(text, form, list, pair)?;
    }
    Ok(())
}

/// Adds a line for each entry that the device holds.
pub fn add_held<S: EntryStore>(text: &mut String, form: Trace, device: &Device<S>) -> Added
    ensures { Adds result text.old text.new (held_lines form device.now.caps device.now.state) }
{
    device.state_is_replay();
    let caps = device.caps();
    for number in 0..list_count(&caps) {
        add_list_lines(text, form, device, number)?;
    }
    Ok(())
}
