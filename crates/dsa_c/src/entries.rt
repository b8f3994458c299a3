//! The numbers of why a submission is turned away, and of why an entry is not taken, fetched,
//! started or ended, or ends without success.

ghost use Rattle.std.specs.Prelude.{◌≡◌};
ghost use Rattle.dsa_c.specs.Reasons.{submit_numbers, engine_numbers, front_numbers, queue_numbers};
ghost use Rattle.dsa_c.specs.Reasons.{fetched_numbers, fetch_numbers, start_numbers};
ghost use Rattle.dsa_c.specs.Reasons.{finish_numbers, fate_numbers, outside_numbers, done_numbers};

use crate::events::portal_number;
use crate::kinds;
use crate::reason::{DeviceReason, in_32_bits, phase_said};
use dsa_book::Fate;
use dsa_device::SubmitReason;
use dsa_engines::{EngineReason, FetchReason, FinishReason, QueueReason, StartReason};
use dsa_explain::DoneReason;

/// Of the queue.
pub(crate) fn submit_numbers(queue: u16, reason: &SubmitReason) -> DeviceReason
    ensures { result ≡ submit_numbers queue reason.now }
{
    match *reason {
        SubmitReason::NotEnabled { queue: None, .. } => {
            DeviceReason::of_queue(kinds::NO_SUCH_QUEUE, queue)
        }
        SubmitReason::NotEnabled {
            device,
            queue: Some(phase),
        } => DeviceReason {
            phase: phase_said(phase),
            device_phase: phase_said(device),
            ..DeviceReason::of_queue(kinds::QUEUE_NOT_ON, queue)
        },
        SubmitReason::WrongKind { dedicated: true } => {
            DeviceReason::of_queue(kinds::QUEUE_DEDICATED, queue)
        }
        SubmitReason::WrongKind { dedicated: false } => {
            DeviceReason::of_queue(kinds::QUEUE_SHARED, queue)
        }
        SubmitReason::AtLimit {
            occupancy,
            limit,
            portal,
        } => DeviceReason {
            portal: u32::from(portal_number(portal)),
            ..DeviceReason::of_queue(kinds::PORTAL_AT_LIMIT, queue).with_counts(
                occupancy,
                u32::from(limit),
            )
        },
    }
}

/// Of the engine.
pub(crate) fn engine_numbers(engine: u16, reason: &EngineReason) -> DeviceReason
    ensures { result ≡ engine_numbers engine reason.now }
{
    match *reason {
        EngineReason::NoEngine => DeviceReason::of_engine(kinds::NO_SUCH_ENGINE, engine),
        EngineReason::NoGroup => DeviceReason::of_engine(kinds::ENGINE_WITHOUT_GROUP, engine),
    }
}

// The front of a queue, by its name.
fn front_numbers(kind: u32, queue: u16, name: u32) -> DeviceReason
    ensures { result ≡ front_numbers kind queue name }
{
    DeviceReason {
        name,
        ..DeviceReason::of_queue(kind, queue)
    }
}

/// Of the queue and the name at its front.
pub(crate) fn queue_numbers(queue: u16, name: u32, reason: &QueueReason) -> DeviceReason
    ensures { result ≡ queue_numbers queue name reason.now }
{
    match reason {
        QueueReason::Empty => DeviceReason::of_queue(kinds::QUEUE_EMPTY, queue),
        QueueReason::NoSlot { used, slots } => {
            front_numbers(kinds::NO_SLOT, queue, name).with_counts(*used, u32::from(*slots))
        }
        QueueReason::NoBuffers(want) => {
            front_numbers(kinds::FRONT_LACKS_BUFFERS, queue, name).with_want(want)
        }
        QueueReason::OtherBatch { batch } => DeviceReason {
            other: *batch,
            ..front_numbers(kinds::OTHER_BATCH, queue, name)
        },
        QueueReason::OtherDrain { drain } => DeviceReason {
            other: *drain,
            ..front_numbers(kinds::OTHER_DRAIN, queue, name)
        },
    }
}

// How many members of its batch the engine has fetched.
fn fetched_numbers(kind: u32, engine: u16, fetched: u32, count: u32) -> DeviceReason
    ensures { result ≡ fetched_numbers kind engine fetched count }
{
    DeviceReason::of_engine(kind, engine).with_counts(fetched, count)
}

/// Of the engine.
pub(crate) fn fetch_numbers(engine: u16, reason: &FetchReason) -> DeviceReason
    ensures { result ≡ fetch_numbers engine reason.now }
{
    match *reason {
        FetchReason::NoEngine => DeviceReason::of_engine(kinds::NO_SUCH_ENGINE, engine),
        FetchReason::NoBatch => DeviceReason::of_engine(kinds::NO_BATCH, engine),
        FetchReason::AllFetched {
            count,
            fetched,
            closed: true,
        } => fetched_numbers(kinds::BATCH_CLOSED, engine, fetched, count),
        FetchReason::AllFetched {
            count,
            fetched,
            closed: false,
        } => fetched_numbers(kinds::ALL_FETCHED, engine, fetched, count),
    }
}

/// Of the engine.
pub(crate) fn start_numbers(engine: u16, reason: &StartReason) -> DeviceReason
    ensures { result ≡ start_numbers engine reason.now }
{
    match reason {
        StartReason::Nothing => DeviceReason::of_engine(kinds::NO_MEMBER, engine),
        StartReason::Fence { member, waits_for } => DeviceReason {
            other: *waits_for,
            ..DeviceReason::of_name(kinds::FENCE_WAITS, *member)
        },
        StartReason::Failed {
            member,
            failed: Some(failed),
            left,
        } => DeviceReason {
            other: *failed,
            count: *left,
            ..DeviceReason::of_name(kinds::FENCE_FAILED, *member)
        },
        StartReason::Failed {
            member,
            failed: None,
            left,
        } => DeviceReason {
            count: *left,
            ..DeviceReason::of_name(kinds::FENCE_FAILED_FORGOTTEN, *member)
        },
        StartReason::NoBuffers(want) => {
            DeviceReason::of(kinds::MEMBER_LACKS_BUFFERS).with_want(want)
        }
        StartReason::NoGroup => DeviceReason::of_engine(kinds::ENGINE_WITHOUT_GROUP, engine),
    }
}

/// Of the engine.
pub(crate) fn finish_numbers(engine: u16, reason: &FinishReason) -> DeviceReason
    ensures { result ≡ finish_numbers engine reason.now }
{
    match *reason {
        FinishReason::NoEngine => DeviceReason::of_engine(kinds::NO_SUCH_ENGINE, engine),
        FinishReason::NoEntry => DeviceReason::of(kinds::CELL_EMPTY),
        FinishReason::OtherName { name } => DeviceReason {
            other: name,
            ..DeviceReason::of(kinds::CELL_OF_OTHER)
        },
        FinishReason::Elsewhere { list } => DeviceReason::of(kinds::ELSEWHERE).in_list(list),
        FinishReason::NotStarted => DeviceReason::of(kinds::NOT_STARTED),
        FinishReason::MembersLeft { left } => DeviceReason {
            count: left,
            ..DeviceReason::of(kinds::MEMBERS_LEFT)
        },
        FinishReason::StillToFetch { fetched, count } => {
            fetched_numbers(kinds::STILL_TO_FETCH, engine, fetched, count)
        }
        FinishReason::DrainWaits { first } => DeviceReason {
            other: first,
            ..DeviceReason::of(kinds::DRAIN_WAITS)
        },
    }
}

/// How the entry of this name ended.
pub(crate) fn fate_numbers(name: u32, fate: Fate) -> DeviceReason
    ensures { result ≡ fate_numbers name fate }
{
    match fate {
        Fate::Completed(status) => DeviceReason {
            status: u32::from(status),
            ..DeviceReason::of_name(kinds::COMPLETED, name)
        },
        Fate::Aborted(command) => DeviceReason {
            command: u32::from(command),
            ..DeviceReason::of_name(kinds::ABORTED, name)
        },
        Fate::Abandoned => DeviceReason::of_name(kinds::ABANDONED, name),
    }
}

// A number that is too small, or above 2 to the power of this shift of the queue.
fn outside_numbers(kind: u32, number: u32, shift: u8, queue: u16) -> DeviceReason
    ensures { result ≡ outside_numbers kind number shift queue }
{
    DeviceReason {
        count: number,
        shift: u32::from(shift),
        ..DeviceReason::of_queue(kind, queue)
    }
}

/// Of an entry that ends without success.
pub(crate) fn done_numbers(reason: &DoneReason) -> DeviceReason
    ensures { result ≡ done_numbers reason.now }
{
    match *reason {
        DoneReason::NotSupported { op } => DeviceReason {
            operation: u32::from(op),
            ..DeviceReason::of(kinds::NOT_SUPPORTED)
        },
        DoneReason::FenceOutside => DeviceReason::of(kinds::FENCE_OUTSIDE),
        DoneReason::SizeOutside { size, shift, queue } => {
            outside_numbers(kinds::SIZE_OUTSIDE, size, shift, queue)
        }
        DoneReason::CountOutside {
            count,
            shift,
            queue,
        } => outside_numbers(kinds::COUNT_OUTSIDE, count, shift, queue),
        DoneReason::MembersFailed {
            first,
            status,
            failed,
        } => DeviceReason {
            status: u32::from(status),
            count: in_32_bits(failed as u64),
            ..DeviceReason::of_name(kinds::MEMBERS_FAILED, first)
        },
        DoneReason::FailureForgotten => DeviceReason::of(kinds::MEMBERS_FAILED_FORGOTTEN),
        DoneReason::PageFault => DeviceReason::of(kinds::PAGE_FAULT),
    }
}
