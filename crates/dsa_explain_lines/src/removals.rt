//! What a command removes that is carried out, and what it waits for.

ghost use Rattle.std.specs.Prelude.{◌≡◌, ◌<◌, ◌++◌, IfOk, codes, cond, decimal, length, nat_lt};
ghost use Rattle.dsa_event_text.specs.Added.{Adds};
ghost use Rattle.dsa_regs.specs.Caps.{HasList, list_number};
ghost use Rattle.dsa_regs.specs.Command.{deed_of};
ghost use Rattle.dsa_store.specs.Content.{chain};
ghost use Rattle.dsa_explain.specs.Held.{is_named_by, lists_where, names_where};
ghost use Rattle.dsa_explain_lines.specs.Sentences.{list_head, list_words};
ghost use Rattle.dsa_explain_lines.specs.Parts.{deed_part, lists_part, losses_part, wait_part};

use crate::commands::add_wait_count;
use dsa_book::ActiveCommand;
use dsa_device::Device;
use dsa_event_text::{Added, add_list, add_number};
use dsa_explain::{Named, entries_of_list, wait_reason};
use dsa_regs::{Command, Deed, ListUse, list_count};
use dsa_store::EntryStore;
use std::alloc::AllocError;

// What is meant of the entries, and what stands between a list and their names.
#[derive(Clone, Copy)]
struct Naming<'a> {
    named: Named,
    verb: &'a str,
}

// A name of the list, the first behind the mark, the list and the verb.
fn add_name(
    text: &mut String,
    mark: &str,
    verb: &str,
    list: ListUse,
    is_first: bool,
    name: u32,
) -> Added
    ensures { Adds result text.old text.new
        (cond is_first (list_head mark.now verb.now list) (codes ", ") ++ decimal name) }
{
    if !is_first {
        return add_number(text, ", ", name);
    }
    text.push_str(mark)?;
    add_list(text, list)?;
    add_number(text, verb, name)
}

// The names of the list's entries that are meant, behind the mark. Whether there are any.
fn add_names<S: EntryStore>(
    text: &mut String,
    mark: &str,
    device: &Device<S>,
    naming: &Naming<'_>,
    list: ListUse,
) -> Result<bool, AllocError>
    requires { HasList device.now.caps list }
    ensures text { Adds result text.old text.new
        (list_words mark.now naming.now.verb.now list
        (names_where (is_named_by naming.now.named)
        (chain device.now.state.work.content (list_number device.now.caps list)))) }
    ensures told { IfOk result
        (λ told. told
        ≡ nat_lt 0
        (length (names_where (is_named_by naming.now.named)
        (chain device.now.state.work.content
        (list_number device.now.caps list))))) }
{
    let mut is_told = false;
    for (_cell, entry) in entries_of_list(device, list) {
        if naming.named.names(&entry) {
            add_name(text, mark, naming.verb, list, !is_told, entry.name)?;
            is_told = true;
        }
    }
    Ok(is_told)
}

// What stands before a list: this mark before the first of which something is told.
fn mark_of(is_told: bool, first: &str) -> &str
    ensures { result.now ≡ cond is_told (codes "; ") first.now }
{
    if is_told { "; " } else { first }
}

// The lists with entries that are meant, each with their names, the first behind this mark.
fn add_lists<S: EntryStore>(
    text: &mut String,
    first: &str,
    device: &Device<S>,
    naming: &Naming<'_>,
) -> Added
    ensures { Adds result text.old text.new
        (lists_part naming.now.verb.now first.now
        (lists_where (is_named_by naming.now.named) device.now.state)) }
{
    device.state_is_replay();
    let caps = device.caps();
    let mut is_told = false;
    for number in 0..list_count(&caps) {
        let list = caps.list_use(number);
        let has_names = add_names(text, mark_of(is_told, first), device, naming, list)?;
        is_told = is_told || has_names;
    }
    Ok(())
}

// The lists that lose something, each with the names that it loses.
fn add_losses<S: EntryStore>(text: &mut String, device: &Device<S>, command: &Command) -> Added
    ensures { Adds result text.old text.new (losses_part device.now.state command.now) }
{
    let naming = Naming {
        named: Named::Removed(*command),
        verb: " loses ",
    };
    add_lists(text, ": ", device, &naming)
}

// What the command waits for, where it is answered active.
fn add_wait_part<S: EntryStore>(text: &mut String, device: &Device<S>, command: &Command) -> Added
    ensures { Adds result text.old text.new (wait_part device.now.state command.now) }
{
    let Some(reason) = wait_reason(device, *command) else {
        return Ok(());
    };
    let naming = Naming {
        named: Named::Awaited(ActiveCommand {
            command: *command,
            mark: device.next_name(),
        }),
        verb: ": ",
    };
    text.push_str(": ")?;
    add_wait_count(text, u64::from(reason.awaited))?;
    add_lists(text, ", ", device, &naming)
}

/// Adds what is told of the command where it is carried out: an abort and a reset name what they
/// remove, list by list, and what is answered active names what it waits for.
pub fn add_deed_part<S: EntryStore>(
    text: &mut String,
    device: &Device<S>,
    command: &Command,
) -> Added
    ensures { Adds result text.old text.new
        (deed_part device.now.state command.now (deed_of command.now)) }
{
    match command.deed() {
        Deed::Abort => add_losses(text, device, command),
        Deed::Reset => add_losses(text, device, command),
        _ => add_wait_part(text, device, command),
    }
}
