//! The names of the entries that a line says are waited for by a command.

ghost use Rattle.std.specs.Prelude.{◌≡◌, ◌++◌, [], ◌∷◌, IfOk, OnOk, cond};
ghost use Rattle.dsa_regs.specs.Caps.{HasList, list_number};
ghost use Rattle.dsa_store.specs.Content.{chain};
ghost use Rattle.dsa_admin.specs.Admin.{is_waited_for};
ghost use Rattle.dsa_explain.specs.Held.{names_where};
ghost use Rattle.dsa_named_lines.specs.Awaited.{awaited_names, first_awaited_name, names_told};

use dsa_admin::is_waited_for;
use dsa_book::{ActiveCommand, IssueAnswer, PollAnswer, Reply};
use dsa_device::Device;
use dsa_explain::{awaited_entry, entries_of_list};
use dsa_regs::{Fault, ListUse, list_count};
use dsa_scenario::{Added, Record};
use dsa_store::{Entry, EntryStore};
use std::alloc::{AllocError, Global};

// Adds the name of the entry, where the command waits for it.
fn add_name(names: &mut Vec<u32>, noted: &ActiveCommand, entry: &Entry) -> Added
    ensures { OnOk result (names.new.items
        ≡ names.old.items ++ cond (is_waited_for noted.now entry.now) (entry.now.name ∷ []) []) }
{
    if is_waited_for(noted, entry) {
        names.push(entry.name)?;
    }
    Ok(())
}

// Adds the names of those in the list that the command waits for.
fn add_awaited<S: EntryStore>(
    names: &mut Vec<u32>,
    device: &Device<S>,
    noted: &ActiveCommand,
    list: ListUse,
) -> Added
    requires { HasList device.now.caps list }
    ensures { OnOk result (names.new.items
        ≡ names.old.items
        ++ names_where (is_waited_for noted.now)
        (chain device.now.state.work.content (list_number device.now.caps list))) }
{
    for (_cell, entry) in entries_of_list(device, list) {
        add_name(names, noted, &entry)?;
    }
    Ok(())
}

// The names of all entries that the active command waits for.
fn awaited_names<S: EntryStore>(alloc: Global, device: &Device<S>) -> Result<Vec<u32>, AllocError>
    ensures { IfOk result (λ names. names.items ≡ awaited_names device.now.state) }
{
    let mut names = Vec::new(alloc);
    let Some(noted) = device.active_command() else {
        return Ok(names);
    };
    device.state_is_replay();
    let caps = device.caps();
    for number in 0..list_count(&caps) {
        add_awaited(&mut names, device, &noted, caps.list_use(number))?;
    }
    Ok(names)
}

// The name of the first of them.
fn first_name<S: EntryStore>(alloc: Global, device: &Device<S>) -> Result<Vec<u32>, AllocError>
    ensures { IfOk result (λ names. names.items ≡ first_awaited_name device.now.state) }
{
    let mut names = Vec::new(alloc);
    if let Some(first) = awaited_entry(device) {
        names.push(first.entry.name)?;
    }
    Ok(names)
}

/// The names of the entries that the line of a step says are waited for, where the device stands so
/// after it: all where the command was answered active, and the first where a poll or another
/// command was told that it is.
pub fn names_told<S: EntryStore>(
    alloc: Global,
    entry: &Record,
    device: &Device<S>,
) -> Result<Vec<u32>, AllocError>
    ensures { IfOk result (λ names. names.items ≡ names_told entry.now device.now.state) }
{
    let Record::Stepped(step) = entry else {
        return Ok(Vec::new(alloc));
    };
    match step.reply {
        Reply::Issue(IssueAnswer::Active) => awaited_names(alloc, device),
        Reply::Issue(IssueAnswer::Refused(Fault::Busy)) => first_name(alloc, device),
        Reply::Poll(PollAnswer::Active) => first_name(alloc, device),
        _ => Ok(Vec::new(alloc)),
    }
}
