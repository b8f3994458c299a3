//! What stands in the device behind a handle: phases, configurations, and entries one by one. No
//! read changes it.

ghost use Rattle.std.specs.Prelude.{◌≡◌, ◌==◌, nat_lt, length, Some};
ghost use Rattle.dsa_base.specs.Rows.{when};
ghost use Rattle.dsa_regs.specs.Config.{queue_at, group_at};
ghost use Rattle.dsa_store.specs.Content.{chain};
ghost use Rattle.dsa_book.specs.State.{phase_at};
ghost use Rattle.dsa_book.specs.Work.{in_progress, members, note_at};
ghost use Rattle.dsa_device.specs.Reads.{awaited, is_held, entry_at};
ghost use Rattle.dsa_c.specs.Calls.{IsReadAs, number_told_for};
ghost use Rattle.dsa_c.specs.Reads.{IsWrittenForC, IsReadForC, bit_asked, number_asked, phase_number, entries_of_list_for_c};
ghost use Rattle.dsa_c.specs.Reads.{queue_for_c, entry_in_cell};
ghost use Rattle.dsa_c.specs.Reads.{group_for_c, entry_for_c, batch_for_c};
ghost use Rattle.dsa_c.specs.Answers.{bit_number};

use crate::handle::{Handle, let_device};
use crate::numbers::{NO_NUMBER, NONE, OFF, ON, STOPPING};
use crate::reads::{or_no_number, or_none};
use crate::steps::{DeviceGroup, DeviceQueue};
use dsa_book::{BatchNote, Ticket};
use dsa_regs::{GroupConfig, ListUse, Phase, QueueConfig};
use dsa_store::{Cell, Entry};

/// An entry that the device holds, as C reads it.
#[repr(C)]
#[derive(Clone, Copy)]
pub struct DeviceEntry {
    pub name: u32,
    pub cell: u32,
    pub parent: u32,
    pub pasid: u32,
    pub flags: u32,
    pub size: u32,
    pub queue: u16,
    pub operation: u8,
    pub running: u8,
}

/// What is noted of an engine's batch, as C reads it.
#[repr(C)]
#[derive(Clone, Copy)]
pub struct DeviceBatch {
    pub name: u32,
    pub count: u32,
    pub fetched: u32,
    pub failed: u8,
    pub closed: u8,
}

fn phase_number(phase: Phase) -> u32
    ensures { result ≡ phase_number phase }
{
    match phase {
        Phase::Off => OFF,
        Phase::On => ON,
        Phase::Stopping => STOPPING,
    }
}

fn queue_for_c(config: &QueueConfig) -> DeviceQueue
    ensures { result ≡ queue_for_c config.now }
{
    DeviceQueue {
        size: config.size,
        threshold: config.threshold,
        dedicated: u8::from(config.dedicated),
        priority: config.priority,
        max_batch_shift: config.max_batch_shift,
        max_xfer_shift: config.max_xfer_shift,
        pasid: config.pasid,
    }
}

fn group_for_c(config: &GroupConfig) -> DeviceGroup
    ensures { result ≡ group_for_c config.now }
{
    DeviceGroup {
        queues: config.queues,
        engines: config.engines,
        reserved: config.reserved,
        allowed: config.allowed,
    }
}

// Writes the configuration, where there is one.
pub(crate) fn write_queue(found: Option<QueueConfig>, config: &mut DeviceQueue) -> u32
    ensures { IsWrittenForC queue_for_c found result config.old config.new }
{
    let Some(found) = found else {
        return 0;
    };
    *config = queue_for_c(&found);
    1
}

// Writes the configuration, where there is one.
pub(crate) fn write_group(found: Option<GroupConfig>, config: &mut DeviceGroup) -> u32
    ensures { IsWrittenForC group_for_c found result config.old config.new }
{
    let Some(found) = found else {
        return 0;
    };
    *config = group_for_c(&found);
    1
}

fn batch_for_c(note: &BatchNote) -> DeviceBatch
    ensures { result ≡ batch_for_c note.now }
{
    DeviceBatch {
        name: note.batch,
        count: note.count,
        fetched: note.fetched,
        failed: u8::from(note.failed),
        closed: u8::from(note.closed),
    }
}

fn entry_for_c(cell: Cell, entry: &Entry) -> DeviceEntry
    ensures { result ≡ entry_for_c (cell, entry.now) }
{
    DeviceEntry {
        name: entry.name,
        cell: cell.0,
        parent: entry.parent.unwrap_or(u32::MAX),
        pasid: entry.desc.pasid,
        flags: entry.desc.flags,
        size: entry.desc.size,
        queue: entry.queue,
        operation: entry.desc.op,
        running: u8::from(entry.running),
    }
}

// Writes the entry at this place of one of the device's lists, where there is one.
fn write_entry(handle: &mut Handle, list: ListUse, place: u64, entry: &mut DeviceEntry) -> u32
    ensures { IsReadForC entry_for_c (λ d. entry_at (entries_of_list_for_c d list) place)
        handle.old.place.machine result entry.old entry.new handle.new.place.machine }
{
    let_device!(device, handle, 0);
    let pair = match list {
        ListUse::Queue(queue) => device.waiting_at(queue, place as usize),
        ListUse::Progress(engine) => device.in_progress_at(engine, place as usize),
        ListUse::Members(engine) => device.member_at(engine, place as usize),
    };
    let Some((cell, found)) = pair else {
        return 0;
    };
    *entry = entry_for_c(cell, &found);
    1
}

/// The phase of the device.
#[unsafe(no_mangle)]
pub extern "C" fn dsa_phase(handle: &mut Handle) -> u32
    ensures { IsReadAs (number_asked (λ d. Some (phase_number d.state.work.setup.device)))
        handle.old.place.machine result handle.new.place.machine }
{
    let_device!(device, handle, NO_NUMBER);
    phase_number(device.phase())
}

/// The phase of the queue.
#[unsafe(no_mangle)]
pub extern "C" fn dsa_queue_phase(handle: &mut Handle, queue: u16) -> u32
    ensures { IsReadAs (number_asked (λ d. when (nat_lt queue d.caps.queues)
        (phase_number (phase_at d.state.work.setup queue))))
        handle.old.place.machine result handle.new.place.machine }
{
    let_device!(device, handle, NO_NUMBER);
    or_no_number(device.queue_phase(queue).map(phase_number))
}

/// The configuration of the queue.
#[unsafe(no_mangle)]
pub extern "C" fn dsa_queue_config(handle: &mut Handle, queue: u16, config: &mut DeviceQueue) -> u32
    ensures { IsReadForC queue_for_c
        (λ d. when (nat_lt queue d.caps.queues) (queue_at d.state.work.setup.configs queue))
        handle.old.place.machine result config.old config.new handle.new.place.machine }
{
    let_device!(device, handle, 0);
    write_queue(device.queue_config(queue), config)
}

/// The configuration of the group.
#[unsafe(no_mangle)]
pub extern "C" fn dsa_group_config(handle: &mut Handle, group: u16, config: &mut DeviceGroup) -> u32
    ensures { IsReadForC group_for_c
        (λ d. when (nat_lt group d.caps.groups) (group_at d.state.work.setup.groups group))
        handle.old.place.machine result config.old config.new handle.new.place.machine }
{
    let_device!(device, handle, 0);
    write_group(device.group_config(group), config)
}

/// The number of submitted entries that the engine has in progress.
#[unsafe(no_mangle)]
pub extern "C" fn dsa_in_progress(handle: &mut Handle, engine: u16) -> u64
    ensures { IsReadAs (number_told_for
        (λ d. when (nat_lt engine d.caps.engines) (length (in_progress d.state.work engine))))
        handle.old.place.machine result handle.new.place.machine }
{
    let_device!(device, handle, NONE);
    or_none(device.in_progress_count(engine).map(u64::from))
}

/// The number of members of the engine's batch that have not ended.
#[unsafe(no_mangle)]
pub extern "C" fn dsa_members(handle: &mut Handle, engine: u16) -> u64
    ensures { IsReadAs (number_told_for
        (λ d. when (nat_lt engine d.caps.engines) (length (members d.state.work engine))))
        handle.old.place.machine result handle.new.place.machine }
{
    let_device!(device, handle, NONE);
    or_none(device.member_count(engine).map(u64::from))
}

/// The entry that waits at this place of the queue, the front at 0.
#[unsafe(no_mangle)]
pub extern "C" fn dsa_waiting_at(
    handle: &mut Handle,
    queue: u16,
    place: u64,
    entry: &mut DeviceEntry,
) -> u32
    ensures { IsReadForC entry_for_c (λ d. entry_at
        (when (nat_lt queue d.caps.queues) (chain d.state.work.content queue)) place)
        handle.old.place.machine result entry.old entry.new handle.new.place.machine }
{
    write_entry(handle, ListUse::Queue(queue), place, entry)
}

/// The submitted entry at this place of those that the engine has in progress, the first one taken
/// at 0.
#[unsafe(no_mangle)]
pub extern "C" fn dsa_in_progress_at(
    handle: &mut Handle,
    engine: u16,
    place: u64,
    entry: &mut DeviceEntry,
) -> u32
    ensures { IsReadForC entry_for_c (λ d. entry_at
        (when (nat_lt engine d.caps.engines) (in_progress d.state.work engine)) place)
        handle.old.place.machine result entry.old entry.new handle.new.place.machine }
{
    write_entry(handle, ListUse::Progress(engine), place, entry)
}

/// The member at this place of those of the engine's batch that have not ended, the first one
/// fetched at 0.
#[unsafe(no_mangle)]
pub extern "C" fn dsa_member_at(
    handle: &mut Handle,
    engine: u16,
    place: u64,
    entry: &mut DeviceEntry,
) -> u32
    ensures { IsReadForC entry_for_c (λ d. entry_at
        (when (nat_lt engine d.caps.engines) (members d.state.work engine)) place)
        handle.old.place.machine result entry.old entry.new handle.new.place.machine }
{
    write_entry(handle, ListUse::Members(engine), place, entry)
}

/// The entry that the cell holds.
#[unsafe(no_mangle)]
pub extern "C" fn dsa_entry_in(handle: &mut Handle, cell: u32, entry: &mut DeviceEntry) -> u32
    ensures { IsReadForC entry_for_c (entry_in_cell (record { 0 = cell }))
        handle.old.place.machine result entry.old entry.new handle.new.place.machine }
{
    let cell = Cell(cell);
    let_device!(device, handle, 0);
    let Some(held) = device.entry_in(cell) else {
        return 0;
    };
    *entry = entry_for_c(cell, &held);
    1
}

/// What is noted of the batch that the engine works on.
#[unsafe(no_mangle)]
pub extern "C" fn dsa_batch(handle: &mut Handle, engine: u16, batch: &mut DeviceBatch) -> u32
    ensures { IsReadForC batch_for_c (λ d. note_at d.state.work engine)
        handle.old.place.machine result batch.old batch.new handle.new.place.machine }
{
    let_device!(device, handle, 0);
    let Some(note) = device.batch(engine) else {
        return 0;
    };
    *batch = batch_for_c(&note);
    1
}

/// The number of held entries that the active command still waits for.
#[unsafe(no_mangle)]
pub extern "C" fn dsa_awaited(handle: &mut Handle) -> u64
    ensures { IsReadAs (number_told_for (λ d. awaited d.state))
        handle.old.place.machine result handle.new.place.machine }
{
    let_device!(device, handle, NONE);
    or_none(device.awaited().map(u64::from))
}

/// Whether the device holds the entry of that cell and name still: 1 or 0.
#[unsafe(no_mangle)]
pub extern "C" fn dsa_holds(handle: &mut Handle, cell: u32, name: u32) -> u32
    ensures { IsReadAs (bit_asked
        (λ d. is_held d.state.work.content (record { cell = record { 0 = cell }; name = name })))
        handle.old.place.machine result handle.new.place.machine }
{
    let ticket = Ticket {
        cell: Cell(cell),
        name,
    };
    let_device!(device, handle, 0);
    u32::from(device.holds(ticket))
}

/// Whether the history has no room left: 1 or 0.
#[unsafe(no_mangle)]
pub extern "C" fn dsa_history_is_full(handle: &mut Handle) -> u32
    ensures { IsReadAs (bit_asked (λ d. length d.history == d.capacity))
        handle.old.place.machine result handle.new.place.machine }
{
    let_device!(device, handle, 0);
    u32::from(device.is_full())
}
