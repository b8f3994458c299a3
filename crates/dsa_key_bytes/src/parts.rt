//! The numbers of what is configured, noted and commanded.

ghost use Rattle.std.specs.Prelude.{◌≡◌, ◌<◌, None, Some, slice_index, option_map};
ghost use Rattle.dsa_keys.specs.Labels.{labelled_note};
ghost use Rattle.dsa_key_bytes.specs.Line.{with_numbers};
ghost use Rattle.dsa_key_bytes.specs.KeyBytes.{optional, with_count, numbers_of_caps, numbers_of_queue, numbers_of_group};
ghost use Rattle.dsa_key_bytes.specs.KeyBytes.{number_of_phase, number_of_cause, numbers_of_noted, numbers_of_note};
ghost use Rattle.dsa_key_bytes.specs.KeyBytes.{scope_first, scope_second, numbers_of_command};

use crate::Line;
use dsa_book::{BatchNote, Cause, NotedError};
use dsa_regs::{Caps, Command, GroupConfig, Phase, QueueConfig, Scope};

/// The label of the name.
pub(crate) fn label_of(labels: &[u32], name: u32) -> u32
    ensures { result ≡ slice_index labels.now name }
{
    labels.get(name as usize).copied().unwrap_or(0)
}

/// The numbers of the capabilities.
pub(crate) fn numbers_of_caps(caps: Caps) -> [u64; 8]
    ensures { result ≡ numbers_of_caps caps }
{
    [
        u64::from(caps.queues),
        u64::from(caps.groups),
        u64::from(caps.engines),
        u64::from(caps.total_size),
        u64::from(caps.read_buffers),
        u64::from(caps.slots),
        u64::from(caps.max_batch_shift),
        u64::from(caps.max_xfer_shift),
    ]
}

fn numbers_of_queue(config: QueueConfig) -> [u64; 7]
    ensures { result ≡ numbers_of_queue config }
{
    [
        u64::from(config.size),
        u64::from(config.threshold),
        u64::from(config.dedicated),
        u64::from(config.priority),
        u64::from(config.pasid),
        u64::from(config.max_batch_shift),
        u64::from(config.max_xfer_shift),
    ]
}

fn numbers_of_group(config: GroupConfig) -> [u64; 4]
    ensures { result ≡ numbers_of_group config }
{
    [
        config.queues,
        config.engines,
        u64::from(config.reserved),
        u64::from(config.allowed),
    ]
}

/// The number of the phase.
pub(crate) fn number_of_phase(phase: Phase) -> u64
    ensures { result ≡ number_of_phase phase }
{
    match phase {
        Phase::Off => 0,
        Phase::On => 1,
        Phase::Stopping => 2,
    }
}

fn number_of_cause(cause: Cause) -> u64
    ensures { result ≡ number_of_cause cause }
{
    match cause {
        Cause::AtLimit => 0,
        Cause::NotEnabled => 1,
        Cause::WrongKind => 2,
    }
}

fn scope_numbers(scope: Scope) -> (u64, u64)
    ensures first { result.0 ≡ scope_first scope }
    ensures second { result.1 ≡ scope_second scope }
{
    match scope {
        Scope::Device => (0, 0),
        Scope::Queue(queue) => (u64::from(queue), 0),
        Scope::Queues(queues) => (u64::from(queues.group), u64::from(queues.mask)),
        Scope::Pasid(pasid) => (u64::from(pasid), 0),
    }
}

/// Writes the configurations of the queues.
pub(crate) fn write_queues(line: &mut Line, configs: &[QueueConfig])
    ensures { line.new ≡ with_numbers line.old (with_count numbers_of_queue configs.now) }
{
    line.write_number(configs.len() as u64);
    for config in configs {
        line.write_numbers(&numbers_of_queue(*config));
    }
}

/// Writes the configurations of the groups.
pub(crate) fn write_groups(line: &mut Line, configs: &[GroupConfig])
    ensures { line.new ≡ with_numbers line.old (with_count numbers_of_group configs.now) }
{
    line.write_number(configs.len() as u64);
    for config in configs {
        line.write_numbers(&numbers_of_group(*config));
    }
}

/// Writes the noted error, if there is one.
pub(crate) fn write_noted(line: &mut Line, noted: Option<NotedError>)
    ensures { line.new ≡ with_numbers line.old (optional numbers_of_noted noted) }
{
    match noted {
        None => line.write_numbers(&[0]),
        Some(noted) => line.write_numbers(&[
            1,
            u64::from(noted.queue),
            number_of_cause(noted.cause),
            u64::from(noted.overflow),
        ]),
    }
}

/// Writes the note of a batch, if there is one, with the label of the batch.
pub(crate) fn write_note(line: &mut Line, note: Option<BatchNote>, labels: &[u32])
    ensures { line.new
        ≡ with_numbers line.old
        (optional numbers_of_note (option_map (labelled_note (slice_index labels.now)) note)) }
{
    match note {
        None => line.write_numbers(&[0]),
        Some(note) => line.write_numbers(&[
            1,
            u64::from(label_of(labels, note.batch)),
            u64::from(note.count),
            u64::from(note.fetched),
            u64::from(note.failed),
            u64::from(note.closed),
        ]),
    }
}

/// Writes the command, if there is one.
pub(crate) fn write_command(line: &mut Line, command: Option<Command>)
    ensures { line.new ≡ with_numbers line.old (optional numbers_of_command command) }
{
    let Some(command) = command else {
        return line.write_numbers(&[0]);
    };
    let (first, second) = scope_numbers(command.scope());
    line.write_numbers(&[1, u64::from(command.number()), first, second]);
}
