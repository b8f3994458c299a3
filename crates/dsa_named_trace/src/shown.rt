//! The own names that a line shows.

ghost use Rattle.std.specs.Prelude.{◌≡◌, ◌++◌, ◌<◌, IfOk, OnOk, map};
ghost use Rattle.dsa_regs.specs.Caps.{list_count};
ghost use Rattle.dsa_named.specs.Names.{own_of};
ghost use Rattle.dsa_named_trace.specs.Shown.{held_names, listed_names, names_in_list, shown_names};

use dsa_device::Device;
use dsa_explain::entries_of_list;
use dsa_named::OwnName;
use dsa_named_lines::names_about;
use dsa_regs::list_count;
use dsa_scenario::{Added, Record};
use dsa_store::EntryStore;
use dsa_trace::Trace;
use std::alloc::{AllocError, Global};

// Adds the names of the entries in the list of this number.
fn add_names_in_list<S: EntryStore>(names: &mut Vec<u32>, device: &Device<S>, number: u16) -> Added
    requires { number < list_count device.now.caps }
    ensures { OnOk result (names.new.items
        ≡ names.old.items ++ names_in_list device.now.state number) }
{
    let list = device.caps().list_use(number);
    for (_cell, entry) in entries_of_list(device, list) {
        names.push(entry.name)?;
    }
    Ok(())
}

// The names of all entries that the device holds.
fn held_names<S: EntryStore>(alloc: Global, device: &Device<S>) -> Result<Vec<u32>, AllocError>
    ensures { IfOk result (λ names. names.items ≡ held_names device.now.caps device.now.state) }
{
    let mut names = Vec::new(alloc);
    device.state_is_replay();
    for number in 0..list_count(&device.caps()) {
        add_names_in_list(&mut names, device, number)?;
    }
    Ok(names)
}

// The names that a line of this form lists.
fn listed_names<S: EntryStore>(
    alloc: Global,
    form: Trace,
    device: &Device<S>,
) -> Result<Vec<u32>, AllocError>
    ensures { IfOk result (λ names. names.items ≡ listed_names form device.now) }
{
    match form {
        Trace::Changes => Ok(Vec::new(alloc)),
        Trace::Table | Trace::Wide | Trace::Json => held_names(alloc, device),
    }
}

/// The own names that the line of a step with this record, after which the device stands so, shows
/// in this form: those of the entries that it lists and of those that the step is about.
pub fn shown_names<'a, S: EntryStore>(
    alloc: Global,
    form: Trace,
    names: &[OwnName<'a>],
    entry: &Record,
    device: &Device<S>,
) -> Result<Vec<OwnName<'a>>, AllocError>
    ensures { IfOk result (λ found. map own_of found.items
        ≡ shown_names form (map own_of names.now) entry.now device.now) }
{
    if names.is_empty() {
        return Ok(Vec::new(alloc));
    }
    let listed = listed_names(alloc, form, device)?;
    names_about(alloc, names, entry, device.fates(), &listed)
}
