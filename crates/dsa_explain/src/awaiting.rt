//! What a drain or a disable waits for: the active one, or one that would be answered active.

ghost use Rattle.std.specs.Prelude.{◌≡◌, ◌↔◌, None, Some, true, find, is_some, map};
ghost use Rattle.dsa_regs.specs.declared.Command.{Command};
ghost use Rattle.dsa_regs.specs.Caps.{HasList, list_number};
ghost use Rattle.dsa_store.specs.Content.{chain};
ghost use Rattle.dsa_book.specs.declared.note.ActiveCommand.{ActiveCommand};
ghost use Rattle.dsa_book.specs.State.{State};
ghost use Rattle.dsa_book.specs.Commands.{is_at_end, issue};
ghost use Rattle.dsa_admin.specs.Admin.{is_waited_for};
ghost use Rattle.dsa_explain.specs.Held.{awaited_entry, first_awaited, held_in_list};
ghost use Rattle.dsa_explain.specs.Wait.{is_active_answer, is_late, is_waiting, wait_of_active, wait_reason};

use crate::held::{ListedEntry, entries_of_list};
use dsa_admin::{commands_follow_reasons, is_waited_for};
use dsa_book::ActiveCommand;
use dsa_device::Device;
use dsa_regs::{Command, Deed, ListUse, Scope, list_count};
use dsa_store::{Entry, EntryStore};

/// What keeps a drain or a disable from its end: so many held entries, the first of them list by
/// list and the front first.
#[derive(Clone, Copy, Debug, PartialEq, Eq)]
pub struct WaitReason {
    pub awaited: u32,
    pub first: ListedEntry,
}

// Whether the command waits neither for this entry of a queue nor for any after it. Names rise
// along a queue, and a scope of queues has all entries of a queue or none, so the front decides. By
// PASID the first that is waited for may stand after others, so all before the mark are looked at.
fn is_late(noted: &ActiveCommand, list: ListUse, entry: &Entry) -> bool
    ensures { result ≡ is_late noted.now list entry.now }
{
    let ListUse::Queue(_) = list else {
        return false;
    };
    match noted.command.scope() {
        Scope::Pasid(_) => noted.command.deed() != Deed::Disable && entry.name >= noted.mark,
        _ => !is_waited_for(noted, entry),
    }
}

// The first entry of the list that is waited for.
fn first_in<S: EntryStore>(
    device: &Device<S>,
    noted: &ActiveCommand,
    list: ListUse,
) -> Option<ListedEntry>
    requires { HasList device.now.caps list }
    ensures { result
        ≡ find (λ held. is_waited_for noted.now held.entry)
        (map (held_in_list list)
        (chain device.now.state.work.content (list_number device.now.caps list))) }
{
    device.state_is_replay();
    let (cell, entry) = entries_of_list(device, list)
        .take_while(|pair| !is_late(noted, list, &pair.1))
        .find(|pair| is_waited_for(noted, &pair.1))?;
    Some(ListedEntry { list, cell, entry })
}

// The first held entry that is waited for.
fn first_awaited<S: EntryStore>(device: &Device<S>, noted: &ActiveCommand) -> Option<ListedEntry>
    ensures { result ≡ first_awaited (Some noted.now) device.now.state }
{
    device.state_is_replay();
    let caps = device.caps();
    for number in 0..list_count(&caps) {
        let held = first_in(device, noted, caps.list_use(number));
        if held.is_some() {
            return held;
        }
    }
    None
}

/// The first held entry that the active command waits for, list by list and the front first. `None`
/// exactly where no command is active, or the active one is at its end.
pub fn awaited_entry<S: EntryStore>(device: &Device<S>) -> Option<ListedEntry>
    ensures { result ≡ awaited_entry device.now.state }
{
    first_awaited(device, &device.active_command()?)
}

// Whether the deed waits for what is held.
fn is_waiting(deed: Deed) -> bool
    ensures { result ≡ is_waiting deed }
{
    match deed {
        Deed::Disable => true,
        Deed::Drain => true,
        _ => false,
    }
}

/// What this command would wait for. `None` exactly where it would not be answered active: it would
/// be refused, or over at once.
pub fn wait_reason<S: EntryStore>(device: &Device<S>, command: Command) -> Option<WaitReason>
    ensures { result ≡ wait_reason device.now.state command }
{
    commands_follow_reasons();
    if device.why_issue(command).is_some() || !is_waiting(command.deed()) {
        return None;
    }
    let noted = ActiveCommand {
        command,
        mark: device.next_name(),
    };
    let first = first_awaited(device, &noted)?;
    let awaited = device.count_waited(&noted);
    Some(WaitReason { awaited, first })
}

/// An active command is at its end exactly where no entry is told that it waits for.
pub fn commands_wait_for_what_is_told()
    ensures { (s : State) (active : ActiveCommand)
        → s.active ≡ Some active
        → (awaited_entry s ≡ None) ↔ (is_at_end active s.work.content ≡ true) }
{}

/// A command is answered active exactly where it is told what it waits for, and then that is what
/// the active command of the state after it waits for.
pub fn waits_follow_reasons()
    ensures told { (s : State) (command : Command)
        → is_active_answer (issue s command).0 ≡ is_some (wait_reason s command) }
    ensures kept { (s : State) (command : Command)
        → is_active_answer (issue s command).0 ≡ true
        → wait_of_active (issue s command).1 ≡ wait_reason s command }
{}
