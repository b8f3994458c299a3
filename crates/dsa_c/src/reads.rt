//! What the device behind a handle tells of itself. No read changes it.

ghost use Rattle.std.specs.Prelude.{◌≡◌, ◌==◌, ℕ, nat_lt, find, length, slice_get, option_map, unwrap_or};
ghost use Rattle.dsa_base.specs.Rows.{when};
ghost use Rattle.dsa_regs.specs.Command.{number_of_command};
ghost use Rattle.dsa_store.specs.Content.{held_count};
ghost use Rattle.dsa_book.specs.State.{occupancy};
ghost use Rattle.dsa_book.specs.Work.{used};
ghost use Rattle.dsa_c.specs.Calls.{IsReadAs, number_told, number_told_for, or_none};
ghost use Rattle.dsa_c.specs.{Calls.{noted_of, reply_at, ending_for}, Reads.{number_asked}};

use crate::answer::{Answer, Ending};
use crate::handle::{Handle, let_device};
use crate::numbers::{NO_NUMBER, NONE};
use dsa_book::FateRow;

// A number that may not be there.
pub(crate) fn or_none(number: Option<u64>) -> u64
    ensures { result ≡ or_none number }
{
    number.unwrap_or(NONE)
}

// A number of 32 bits that may not be there.
pub(crate) fn or_no_number(number: Option<u32>) -> u32
    ensures { result ≡ unwrap_or number NO_NUMBER }
{
    number.unwrap_or(NO_NUMBER)
}

// The row of that name.
fn row_of(rows: &[FateRow], name: u32) -> Option<FateRow>
    ensures { result ≡ find (λ row. row.name == name) rows.now }
{
    rows.iter().copied().find(|row| row.name == name)
}

/// For how many steps the history has room.
#[unsafe(no_mangle)]
pub extern "C" fn dsa_capacity(handle: &mut Handle) -> u64
    ensures { IsReadAs (number_told (λ d. d.capacity))
        handle.old.place.machine result handle.new.place.machine }
{
    let_device!(device, handle, NONE);
    device.capacity()
}

/// The number of entries that wait in the queue.
#[unsafe(no_mangle)]
pub extern "C" fn dsa_occupancy(handle: &mut Handle, queue: u16) -> u64
    ensures { IsReadAs (number_told_for
        (λ d. when (nat_lt queue d.caps.queues) (occupancy d.state.work.content queue)))
        handle.old.place.machine result handle.new.place.machine }
{
    let_device!(device, handle, NONE);
    or_none(device.occupancy(queue).map(u64::from))
}

/// The number of read buffers that the group uses.
#[unsafe(no_mangle)]
pub extern "C" fn dsa_used(handle: &mut Handle, group: u16) -> u64
    ensures { IsReadAs (number_told_for
        (λ d. when (nat_lt group d.caps.groups) (used d.state.work group)))
        handle.old.place.machine result handle.new.place.machine }
{
    let_device!(device, handle, NONE);
    or_none(device.used(group).map(u64::from))
}

/// The number of entries that the device holds.
#[unsafe(no_mangle)]
pub extern "C" fn dsa_held(handle: &mut Handle) -> u64
    ensures { IsReadAs (number_told (λ d. held_count d.state.work.content))
        handle.old.place.machine result handle.new.place.machine }
{
    let_device!(device, handle, NONE);
    u64::from(device.held())
}

/// The name that the next entry gets.
#[unsafe(no_mangle)]
pub extern "C" fn dsa_next_name(handle: &mut Handle) -> u64
    ensures { IsReadAs (number_told (λ d. d.state.work.setup.next_name))
        handle.old.place.machine result handle.new.place.machine }
{
    let_device!(device, handle, NONE);
    u64::from(device.next_name())
}

/// The number of the command that is not over yet.
#[unsafe(no_mangle)]
pub extern "C" fn dsa_active(handle: &mut Handle) -> u32
    ensures { IsReadAs (number_asked
        (λ d. option_map (λ active. number_of_command active.command) d.state.active))
        handle.old.place.machine result handle.new.place.machine }
{
    let_device!(device, handle, NO_NUMBER);
    let active = device.active();
    or_no_number(active.map(|command| u32::from(command.number())))
}

/// The number of steps that were stored.
#[unsafe(no_mangle)]
pub extern "C" fn dsa_history_length(handle: &mut Handle) -> u64
    ensures { IsReadAs (number_told (λ d. length d.history))
        handle.old.place.machine result handle.new.place.machine }
{
    let_device!(device, handle, NONE);
    device.history().len() as u64
}

/// The number of entries that ended.
#[unsafe(no_mangle)]
pub extern "C" fn dsa_fates_length(handle: &mut Handle) -> u64
    ensures { IsReadAs (number_told (λ d. length d.state.work.fates))
        handle.old.place.machine result handle.new.place.machine }
{
    let_device!(device, handle, NONE);
    device.fates().len() as u64
}

/// The noted error.
#[unsafe(no_mangle)]
pub extern "C" fn dsa_noted(handle: &mut Handle) -> Answer
    ensures { IsReadAs noted_of handle.old.place.machine result handle.new.place.machine }
{
    let_device!(device, handle, Answer::no_device());
    Answer::noted(device.noted())
}

/// The answer of the stored step at this position, the first one at 0.
#[unsafe(no_mangle)]
pub extern "C" fn dsa_history_answer(handle: &mut Handle, position: u64) -> Answer
    ensures { IsReadAs (reply_at position)
        handle.old.place.machine result handle.new.place.machine }
{
    let_device!(device, handle, Answer::no_device());
    Answer::of_step(device.history().get(position as usize).copied())
}

/// The fate at this position, in the order in which entries ended, the first one at 0.
#[unsafe(no_mangle)]
pub extern "C" fn dsa_fate_at(handle: &mut Handle, position: u64) -> Ending
    ensures { IsReadAs (ending_for (λ d. slice_get d.state.work.fates position))
        handle.old.place.machine result handle.new.place.machine }
{
    let_device!(device, handle, Ending::of(None));
    Ending::of(device.fates().get(position as usize).copied())
}

/// The fate of the entry of this name.
#[unsafe(no_mangle)]
pub extern "C" fn dsa_fate_of(handle: &mut Handle, name: u32) -> Ending
    ensures { IsReadAs (ending_for (λ d. find (λ row. row.name == name) d.state.work.fates))
        handle.old.place.machine result handle.new.place.machine }
{
    let_device!(device, handle, Ending::of(None));
    Ending::of(row_of(device.fates(), name))
}
