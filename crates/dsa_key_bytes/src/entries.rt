//! The entries of a device, list by list.

ghost use Rattle.std.specs.Prelude.{◌≡◌, flat_map, map, slice_index};
ghost use Rattle.dsa_regs.specs.Caps.{HasList, list_number};
ghost use Rattle.dsa_store.specs.Content.{all_held, chain};
ghost use Rattle.dsa_store.specs.declared.entry.Cell.{Cell};
ghost use Rattle.dsa_keys.specs.Key.{waits_as_drain};
ghost use Rattle.dsa_keys.specs.Short.{short_entry};
ghost use Rattle.dsa_key_bytes.specs.Line.{with_numbers};
ghost use Rattle.dsa_key_bytes.specs.KeyBytes.{with_count, with_end, numbers_of_entry};
ghost use Rattle.dsa_key_bytes.specs.Marks.{mark_number, mark_numbers, label_numbers, drain_numbers};

use crate::Line;
use crate::parts::label_of;
use dsa_device::Device;
use dsa_explain::entries_of_list;
use dsa_regs::{ListUse, list_count};
use dsa_store::{Entry, EntryStore};

/// What is written of an entry.
#[derive(Drop)]
pub(crate) enum Mark<'a> {
    /// Its label, and whether it runs.
    Label(&'a [u32]),
    /// Whether the active command waits for it.
    Awaited,
    /// Whether this entry waits for it as a Drain.
    WaitedForBy(Entry),
}

// Whether the first is a Drain by its operation code, and waits for the second.
fn waits_as_drain(drain: &Entry, other: &Entry) -> bool
    ensures { result ≡ waits_as_drain drain.now other.now }
{
    drain.desc.is_drain()
        && other.parent.is_none()
        && other.queue == drain.queue
        && other.desc.pasid == drain.desc.pasid
        && other.name < drain.name
}

fn mark_number<S: EntryStore>(device: &Device<S>, mark: &Mark, entry: &Entry) -> u64
    ensures { result ≡ mark_number device.now.state mark.now entry.now }
{
    match mark {
        Mark::Label(labels) => {
            2 * u64::from(label_of(labels, entry.name)) + u64::from(entry.running) + 1
        }
        Mark::Awaited => u64::from(device.awaits(entry)) + 1,
        Mark::WaitedForBy(drain) => u64::from(waits_as_drain(drain, entry)) + 1,
    }
}

// Writes the mark of each entry of the list.
fn write_list<S: EntryStore>(line: &mut Line, device: &Device<S>, list: ListUse, mark: &Mark)
    requires { HasList device.now.caps list }
    ensures { line.new
        ≡ with_numbers line.old
        (flat_map (mark_numbers device.now.state mark.now)
        (chain device.now.state.work.content (list_number device.now.caps list))) }
{
    for (_, entry) in entries_of_list(device, list) {
        line.write_number(mark_number(device, mark, &entry));
    }
}

// Writes the list by the labels of its entries.
fn write_labels<S: EntryStore>(line: &mut Line, device: &Device<S>, list: ListUse, labels: &[u32])
    requires { HasList device.now.caps list }
    ensures { line.new
        ≡ with_numbers line.old
        (label_numbers (slice_index labels.now)
        (chain device.now.state.work.content (list_number device.now.caps list))) }
{
    write_list(line, device, list, &Mark::Label(labels));
    line.write_number(0);
}

/// Writes the lists by the labels of their entries.
pub(crate) fn write_lists<S: EntryStore>(line: &mut Line, device: &Device<S>, labels: &[u32])
    ensures { line.new
        ≡ with_numbers line.old
        (with_count (with_end numbers_of_entry)
        (map (map (short_entry (slice_index labels.now))) device.now.state.work.content)) }
{
    device.state_is_replay();
    let caps = device.caps();
    line.write_number(u64::from(list_count(&caps)));
    for number in 0..list_count(&caps) {
        write_labels(line, device, caps.list_use(number), labels);
    }
}

/// Writes the mark of each held entry.
pub(crate) fn write_marks<S: EntryStore>(line: &mut Line, device: &Device<S>, mark: &Mark)
    ensures { line.new
        ≡ with_numbers line.old
        (flat_map (mark_numbers device.now.state mark.now)
        (all_held device.now.state.work.content)) }
{
    device.state_is_replay();
    let caps = device.caps();
    for number in 0..list_count(&caps) {
        write_list(line, device, caps.list_use(number), mark);
    }
}

// Writes for which held entries this one waits, if it is a Drain by its operation code.
fn write_drain<S: EntryStore>(line: &mut Line, device: &Device<S>, entry: Entry)
    ensures { (cell : Cell) → line.new
        ≡ with_numbers line.old (drain_numbers device.now.state (cell, entry)) }
{
    if !entry.desc.is_drain() {
        return;
    }
    line.write_number(1);
    write_marks(line, device, &Mark::WaitedForBy(entry));
    line.write_number(0);
}

// Writes that of each entry of the list.
fn write_drains_of<S: EntryStore>(line: &mut Line, device: &Device<S>, list: ListUse)
    requires { HasList device.now.caps list }
    ensures { line.new
        ≡ with_numbers line.old
        (flat_map (drain_numbers device.now.state)
        (chain device.now.state.work.content (list_number device.now.caps list))) }
{
    for (_, entry) in entries_of_list(device, list) {
        write_drain(line, device, entry);
    }
}

/// Writes for which held entries each of those waits that are Drains by their operation code.
pub(crate) fn write_drains<S: EntryStore>(line: &mut Line, device: &Device<S>)
    ensures { line.new
        ≡ with_numbers line.old
        (flat_map (drain_numbers device.now.state) (all_held device.now.state.work.content)) }
{
    device.state_is_replay();
    let caps = device.caps();
    for number in 0..list_count(&caps) {
        write_drains_of(line, device, caps.list_use(number));
    }
}
