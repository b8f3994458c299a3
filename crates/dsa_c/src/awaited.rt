//! The entries that the active command of a device waits for, by their names.

ghost use Rattle.std.specs.Prelude.{◌≡◌, ◌++◌, ℕ, List};
ghost use Rattle.dsa_regs.specs.Caps.{HasList, list_number};
ghost use Rattle.dsa_store.specs.Content.{chain};
ghost use Rattle.dsa_admin.specs.Admin.{is_waited_for};
ghost use Rattle.dsa_device.specs.Reads.{awaited};
ghost use Rattle.dsa_explain.specs.Held.{names_where};
ghost use Rattle.dsa_c.specs.{Buffers.{with_items, with_items_from}, Calls.{IsReadAs, number_told_for}, Why.{names_awaited, names_of_wait}};

use crate::buffers::write_number;
use crate::handle::{Handle, let_device};
use crate::numbers::NONE;
use crate::reads::or_none;
use dsa_admin::is_waited_for;
use dsa_book::ActiveCommand;
use dsa_device::Device;
use dsa_explain::entries_of_list;
use dsa_regs::{ListUse, list_count};
use dsa_store::EntryStore;

// Writes the names of those in the list that the command waits for, from this place on, as far as
// there are places. The place after them.
fn write_names_of<S: EntryStore>(
    device: &Device<S>,
    noted: &ActiveCommand,
    list: ListUse,
    names: &mut [u32],
    place: usize,
) -> usize
    requires { HasList device.now.caps list }
    ensures { (rest : List ℕ) → with_items_from result rest names.new
        ≡ with_items_from place
        (names_where (is_waited_for noted.now)
        (chain device.now.state.work.content (list_number device.now.caps list)) ++ rest)
        names.old }
{
    let mut next = place;
    for (_cell, entry) in entries_of_list(device, list) {
        if is_waited_for(noted, &entry) {
            next = write_number(entry.name, names, next);
        }
    }
    next
}

// Writes the names of the entries that the command waits for, list by list.
fn write_names<S: EntryStore>(device: &Device<S>, noted: &ActiveCommand, names: &mut [u32])
    ensures { names.new ≡ with_items names.old (names_of_wait device.now.state noted.now) }
{
    device.state_is_replay();
    let caps = device.caps();
    let mut place = 0;
    for number in 0..list_count(&caps) {
        place = write_names_of(device, noted, caps.list_use(number), names, place);
    }
}

/// How many held entries the active command still waits for. Writes their names, as far as there
/// are places.
#[tactic(auto, using(crate::proofs::Placing::none_written))]
#[unsafe(no_mangle)]
pub extern "C" fn dsa_awaited_names(handle: &mut Handle, names: &mut [u32]) -> u64
    ensures told { IsReadAs (number_told_for (λ d. awaited d.state))
        handle.old.place.machine result handle.new.place.machine }
    ensures names { names.new ≡ with_items names.old (names_awaited handle.old.place.machine) }
{
    let_device!(device, handle, NONE);
    let Some(noted) = device.active_command() else {
        return NONE;
    };
    write_names(device, &noted, names);
    or_none(device.awaited().map(u64::from))
}
