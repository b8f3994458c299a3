//! The bytes of a device's key.

ghost use Rattle.std.specs.Prelude.{◌≡◌, ◌<◌, length, map, option_map, slice_index, is_some, true, None, Some, OnOk, OnErr};
ghost use Rattle.dsa_book.specs.State.{phase_at};
ghost use Rattle.dsa_keys.specs.Labels.{labelled_note};
ghost use Rattle.dsa_keys.specs.Short.{short_key};
ghost use Rattle.dsa_key_bytes.specs.Line.{with_numbers};
ghost use Rattle.dsa_key_bytes.specs.KeyBytes.{with_count, optional, numbers_of_phase, numbers_of_note};
ghost use Rattle.dsa_key_bytes.specs.KeyBytes.{configured_numbers, standing_numbers, held_numbers};
ghost use Rattle.dsa_key_bytes.specs.KeyBytes.{changing_numbers, changing_key_bytes, key_bytes};

use crate::Line;
use crate::entries::{Mark, write_drains, write_lists, write_marks};
use crate::parts::{
    number_of_phase, numbers_of_caps, write_command, write_groups, write_note, write_noted,
    write_queues,
};
use dsa_device::Device;
use dsa_store::EntryStore;

/// A key has more bytes than the line has room for.
#[derive(Clone, Copy, Debug, PartialEq, Eq)]
pub struct TooLong;

// Writes the phase of the queue.
fn write_phase<S: EntryStore>(line: &mut Line, device: &Device<S>, queue: u16)
    requires { queue < device.now.caps.queues }
    ensures { line.new
        ≡ with_numbers line.old
        (numbers_of_phase (phase_at device.now.state.work.setup queue)) }
{
    match device.queue_phase(queue) {
        Some(phase) => line.write_number(number_of_phase(phase)),
        None => unreachable!(),
    }
}

fn write_phases<S: EntryStore>(line: &mut Line, device: &Device<S>)
    ensures { line.new
        ≡ with_numbers line.old (with_count numbers_of_phase device.now.state.work.setup.phases) }
{
    device.state_is_replay();
    let caps = device.caps();
    line.write_number(u64::from(caps.queues));
    for queue in 0..caps.queues {
        write_phase(line, device, queue);
    }
}

fn write_notes<S: EntryStore>(line: &mut Line, device: &Device<S>, labels: &[u32])
    ensures { line.new
        ≡ with_numbers line.old
        (with_count (optional numbers_of_note)
        (map (option_map (labelled_note (slice_index labels.now))) device.now.state.work.notes)) }
{
    device.state_is_replay();
    let caps = device.caps();
    line.write_number(u64::from(caps.engines));
    for engine in 0..caps.engines {
        write_note(line, device.batch(engine), labels);
    }
}

fn write_configured<S: EntryStore>(line: &mut Line, device: &Device<S>)
    ensures { line.new ≡ with_numbers line.old (configured_numbers device.now.state.work.setup) }
{
    device.state_is_replay();
    line.write_numbers(&numbers_of_caps(device.caps()));
    write_queues(line, device.queue_configs());
    write_groups(line, device.group_configs());
}

fn write_standing<S: EntryStore>(line: &mut Line, device: &Device<S>)
    ensures { line.new ≡ with_numbers line.old (standing_numbers device.now.state.work.setup) }
{
    line.write_number(number_of_phase(device.phase()));
    write_phases(line, device);
    write_noted(line, device.noted());
}

fn write_held<S: EntryStore>(line: &mut Line, device: &Device<S>, labels: &[u32])
    ensures { line.new
        ≡ with_numbers line.old
        (held_numbers (short_key (slice_index labels.now) device.now.state)) }
{
    write_lists(line, device, labels);
    write_notes(line, device, labels);
    write_drains(line, device);
    line.write_number(0);
    write_command(line, device.active());
    write_marks(line, device, &Mark::Awaited);
    line.write_number(0);
}

fn write_changing<S: EntryStore>(line: &mut Line, device: &Device<S>, labels: &[u32])
    ensures { line.new
        ≡ with_numbers line.old
        (changing_numbers (short_key (slice_index labels.now) device.now.state)) }
{
    write_standing(line, device);
    write_held(line, device, labels);
}

// Whether all was written.
fn all_written(line: &Line) -> Result<(), TooLong>
    ensures written { OnOk result (is_some line.now.bytes ≡ true) }
    ensures too_long { OnErr result (line.now.bytes ≡ None) }
{
    if line.is_too_long() {
        return Err(TooLong);
    }
    Ok(())
}

/// Writes the bytes of the device's short key. Name n has the label at place n, and 0 past the end.
pub fn write_key<S: EntryStore>(
    device: &Device<S>,
    labels: &[u32],
    line: &mut Line,
) -> Result<(), TooLong>
    ensures written { OnOk result
        (line.new.bytes
        ≡ Some (key_bytes (short_key (slice_index labels.now) device.now.state))) }
    ensures too_long { OnErr result
        (line.old.capacity
        < length (key_bytes (short_key (slice_index labels.now) device.now.state))) }
    ensures capacity { line.new.capacity ≡ line.old.capacity }
{
    line.clear();
    write_configured(line, device);
    write_changing(line, device, labels);
    all_written(line)
}

/// The same without capabilities and configurations.
pub fn write_changing_key<S: EntryStore>(
    device: &Device<S>,
    labels: &[u32],
    line: &mut Line,
) -> Result<(), TooLong>
    ensures written { OnOk result
        (line.new.bytes
        ≡ Some (changing_key_bytes (short_key (slice_index labels.now) device.now.state))) }
    ensures too_long { OnErr result
        (line.old.capacity
        < length (changing_key_bytes (short_key (slice_index labels.now) device.now.state))) }
    ensures capacity { line.new.capacity ≡ line.old.capacity }
{
    line.clear();
    write_changing(line, device, labels);
    all_written(line)
}
