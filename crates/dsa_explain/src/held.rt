//! The entries that a device holds, list by list, and those that an abort ends.

ghost use Rattle.std.specs.Prelude.{◌≡◌, ◌+◌, ◌++◌, Some, map, filter, flat_map, length, slice_get, IfOk, IfErr};
ghost use Rattle.dsa_regs.specs.declared.Command.{Command};
ghost use Rattle.dsa_regs.specs.Caps.{HasList, list_number};
ghost use Rattle.dsa_regs.specs.Command.{number_of_command, scope_of};
ghost use Rattle.dsa_store.specs.Content.{all_held, chain};
ghost use Rattle.dsa_book.specs.State.{State};
ghost use Rattle.dsa_book.specs.Commands.{after_abort, is_in_scope};
ghost use Rattle.dsa_book.specs.declared.note.ActiveCommand.{ActiveCommand};
ghost use Rattle.dsa_admin.specs.Admin.{is_waited_for};
ghost use Rattle.dsa_explain.specs.Held.{held_in_list, held_entry_of, all_entries, aborted_entries, abort_row, awaited_lists, is_named_by, losses};

use dsa_admin::{is_in_scope, is_waited_for};
use dsa_book::ActiveCommand;
use dsa_device::Device;
use dsa_regs::{Command, ListUse, list_count};
use dsa_store::{Cell, Entry, EntryStore, Walk};

/// An entry that the device holds, with what its list is for: a queue, what is in progress on an
/// engine, or the members of the batch that an engine works on.
#[derive(Clone, Copy, Debug, PartialEq, Eq)]
pub struct ListedEntry {
    pub list: ListUse,
    pub cell: Cell,
    pub entry: Entry,
}

/// The cells of the list with their entries, the front first.
pub fn entries_of_list<S: EntryStore>(device: &Device<S>, list: ListUse) -> Walk<'_, S>
    requires { HasList device.now.caps list }
    ensures { result ≡ chain device.now.state.work.content (list_number device.now.caps list) }
{
    device.state_is_replay();
    let entries = match list {
        ListUse::Queue(queue) => device.waiting(queue),
        ListUse::Progress(engine) => device.in_progress(engine),
        ListUse::Members(engine) => device.members(engine),
    };
    match entries {
        Some(entries) => entries,
        None => unreachable!(),
    }
}

// The entry of this index among those of the list that the command ends, or by how many the list
// has too few.
fn aborted_in<S: EntryStore>(
    device: &Device<S>,
    command: &Command,
    list: ListUse,
    index: usize,
) -> Result<ListedEntry, usize>
    requires { HasList device.now.caps list }
    ensures found { IfOk result
        (λ held. slice_get
        (filter (λ held. is_in_scope (scope_of command.now) held.entry)
        (map (held_in_list list)
        (chain device.now.state.work.content
        (list_number device.now.caps list))))
        index
        ≡ Some held) }
    ensures left { IfErr result
        (λ left. left
        + length (filter (λ held. is_in_scope (scope_of command.now) held.entry)
        (map (held_in_list list)
        (chain device.now.state.work.content
        (list_number device.now.caps list))))
        ≡ index) }
{
    let scope = command.scope();
    let mut left = index;
    for (cell, entry) in entries_of_list(device, list) {
        if is_in_scope(&scope, &entry) {
            if left == 0 {
                return Ok(ListedEntry { list, cell, entry });
            }
            left -= 1;
        }
    }
    Err(left)
}

/// The entry of this index among those that the command ends where it is an abort or a reset, list
/// by list and the front first, as their fates are written down. `None` exactly where there are no
/// more than `index` of them.
pub fn aborted_at<S: EntryStore>(
    device: &Device<S>,
    command: &Command,
    index: usize,
) -> Option<ListedEntry>
    ensures { result ≡ slice_get (aborted_entries device.now.state command.now) index }
{
    device.state_is_replay();
    let caps = device.caps();
    let mut left = index;
    for number in 0..list_count(&caps) {
        match aborted_in(device, command, caps.list_use(number), left) {
            Ok(held) => return Some(held),
            Err(rest) => left = rest,
        }
    }
    None
}

/// Which of the held entries are meant.
#[derive(Clone, Copy, Debug, PartialEq, Eq)]
pub enum Named {
    /// Those that the command removes, where it is an abort or a reset.
    Removed(Command),
    /// Those that the command waits for, where it is active.
    Awaited(ActiveCommand),
}

impl Named {
    /// Whether this entry is meant.
    pub fn names(&self, entry: &Entry) -> bool
        ensures { result ≡ is_named_by self.now entry.now }
    {
        match self {
            Named::Removed(command) => is_in_scope(&command.scope(), entry),
            Named::Awaited(noted) => is_waited_for(noted, entry),
        }
    }
}

/// The entries with their places are all that are held, in their order.
pub fn all_entries_are_told()
    ensures { (s : State) → map held_entry_of (all_entries s) ≡ all_held s.work.content }
{}

/// The machine writes down a row for each entry that is told of an abort, in the order in which
/// they are told, and no other.
pub fn aborted_entries_get_rows()
    ensures { (s : State) (command : Command)
        → (after_abort (number_of_command command) (scope_of command) s.work).fates
        ≡ s.work.fates ++ map (abort_row command) (aborted_entries s command) }
{}

/// The lists that lose something by an abort, each with the names that it loses, have the names of
/// the rows that the machine writes down, in their order, and no other.
pub fn removed_names_get_rows()
    ensures { (s : State) (command : Command)
        → flat_map (λ named. named.1) (losses s command)
        ≡ map (λ held. held.entry.name) (aborted_entries s command) }
{}

/// The lists of what a command waits for have the names of all held entries that it waits for, in
/// their order, and no other.
pub fn awaited_names_are_told()
    ensures { (s : State) (noted : ActiveCommand)
        → flat_map (λ named. named.1) (awaited_lists noted s)
        ≡ map (λ held. held.entry.name)
        (filter (λ held. is_waited_for noted held.entry) (all_entries s)) }
{}
