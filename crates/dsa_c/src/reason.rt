//! The reason of an answer, as C reads it: a kind, and the numbers of its sentence.

ghost use Rattle.std.specs.Prelude.{◌≡◌};
ghost use Rattle.dsa_c.specs.Reads.{phase_number};
ghost use Rattle.dsa_c.specs.Reasons.{in_32_bits, reason_of_kind, reason_of_queue, reason_of_engine};
ghost use Rattle.dsa_c.specs.Reasons.{reason_of_group, reason_of_name, with_counts, with_want};
ghost use Rattle.dsa_c.specs.Reasons.{in_list};

use crate::numbers::{LIST_BATCH, LIST_ENGINE, LIST_NONE, LIST_QUEUE, OFF, ON, STOPPING};
use dsa_buffers::BufferWant;
use dsa_regs::{ListUse, Phase};

/// The kind of a reason, and the numbers that it speaks of.
#[repr(C)]
#[derive(Clone, Copy)]
pub struct DeviceReason {
    pub kind: u32,
    pub queue: u32,
    pub group: u32,
    pub engine: u32,
    pub list: u32,
    pub name: u32,
    pub other: u32,
    pub count: u32,
    pub limit: u32,
    pub needed: u32,
    pub in_use: u32,
    pub buffers: u32,
    pub kept: u32,
    pub phase: u32,
    pub device_phase: u32,
    pub portal: u32,
    pub command: u32,
    pub operand: u32,
    pub operation: u32,
    pub status: u32,
    pub shift: u32,
}

/// The largest number of 32 bits for each that has more.
pub(crate) fn in_32_bits(number: u64) -> u32
    ensures { result ≡ in_32_bits number }
{
    number.min(u64::from(u32::MAX)) as u32
}

/// The number of a phase.
pub(crate) fn phase_said(phase: Phase) -> u32
    ensures { result ≡ phase_number phase }
{
    match phase {
        Phase::Off => OFF as u32,
        Phase::On => ON as u32,
        Phase::Stopping => STOPPING as u32,
    }
}

impl DeviceReason {
    /// A reason of this kind, of which nothing more is said.
    pub(crate) fn of(kind: u32) -> DeviceReason
        ensures { result ≡ reason_of_kind kind }
    {
        DeviceReason {
            kind,
            queue: 0,
            group: 0,
            engine: 0,
            list: LIST_NONE,
            name: 0,
            other: 0,
            count: 0,
            limit: 0,
            needed: 0,
            in_use: 0,
            buffers: 0,
            kept: 0,
            phase: 0,
            device_phase: 0,
            portal: 0,
            command: 0,
            operand: 0,
            operation: 0,
            status: 0,
            shift: 0,
        }
    }

    /// Of a queue of the number that a command names, which may be of 32 bits.
    pub(crate) fn of_named_queue(kind: u32, queue: u32) -> DeviceReason
        ensures { result ≡ reason_of_queue kind queue }
    {
        DeviceReason {
            queue,
            ..DeviceReason::of(kind)
        }
    }

    /// Of a queue.
    pub(crate) fn of_queue(kind: u32, queue: u16) -> DeviceReason
        ensures { result ≡ reason_of_queue kind queue }
    {
        DeviceReason::of_named_queue(kind, u32::from(queue))
    }

    /// Of an engine.
    pub(crate) fn of_engine(kind: u32, engine: u16) -> DeviceReason
        ensures { result ≡ reason_of_engine kind engine }
    {
        DeviceReason {
            engine: u32::from(engine),
            ..DeviceReason::of(kind)
        }
    }

    /// Of a group.
    pub(crate) fn of_group(kind: u32, group: usize) -> DeviceReason
        ensures { result ≡ reason_of_group kind group }
    {
        DeviceReason {
            group: in_32_bits(group as u64),
            ..DeviceReason::of(kind)
        }
    }

    /// Of an entry, by its name.
    pub(crate) fn of_name(kind: u32, name: u32) -> DeviceReason
        ensures { result ≡ reason_of_name kind name }
    {
        DeviceReason {
            name,
            ..DeviceReason::of(kind)
        }
    }

    /// With how many there are, and how many there may be.
    pub(crate) fn with_counts(self, count: u32, limit: u32) -> DeviceReason
        ensures { result ≡ with_counts count limit self }
    {
        DeviceReason {
            count,
            limit,
            ..self
        }
    }

    /// With the numbers by which read buffers do not fit a group.
    pub(crate) fn with_want(self, want: &BufferWant) -> DeviceReason
        ensures { result ≡ with_want want.now self }
    {
        DeviceReason {
            group: u32::from(want.group),
            needed: u32::from(want.asked),
            in_use: want.in_use,
            buffers: u32::from(want.buffers),
            kept: want.kept,
            ..self.with_counts(u32::from(want.used), u32::from(want.allowed))
        }
    }

    /// With the list in which an entry is.
    pub(crate) fn in_list(self, list: ListUse) -> DeviceReason
        ensures { result ≡ in_list list self }
    {
        match list {
            ListUse::Queue(queue) => DeviceReason {
                list: LIST_QUEUE,
                queue: u32::from(queue),
                ..self
            },
            ListUse::Progress(engine) => DeviceReason {
                list: LIST_ENGINE,
                engine: u32::from(engine),
                ..self
            },
            ListUse::Members(engine) => DeviceReason {
                list: LIST_BATCH,
                engine: u32::from(engine),
                ..self
            },
        }
    }
}
