//! Why an entry that an engine ends does not complete with success.

ghost use Rattle.std.specs.Prelude.{◌≡◌, find, count_by, option_map};
ghost use Rattle.dsa_store.specs.declared.entry.Cell.{Cell};
ghost use Rattle.dsa_book.specs.State.{limits_at};
ghost use Rattle.dsa_book.specs.Work.{last_status};
ghost use Rattle.dsa_engines.specs.Batch.{is_failed_in};
ghost use Rattle.dsa_explain.specs.Done.{done_reason, ending_entry, members_failed, status_of_fate, status_reason};

use dsa_book::{Fate, FateRow, Ticket};
use dsa_desc::completion::{
    DSA_COMP_BAD_OPCODE, DSA_COMP_BATCH_FAIL, DSA_COMP_DESC_CNT_ERANGE, DSA_COMP_INVALID_FLAGS,
    DSA_COMP_PAGE_FAULT_NOBOF, DSA_COMP_SUCCESS, DSA_COMP_XFER_ERANGE,
};
use dsa_desc::{Outcome, QueueLimits};
use dsa_device::Device;
use dsa_regs::QueueConfig;
use dsa_store::{Entry, EntryStore};

/// Why an entry that ends does not complete with success.
#[derive(Clone, Copy, Debug, PartialEq, Eq)]
pub enum DoneReason {
    /// 0x10: the operation of this code is not supported, or not in a batch.
    NotSupported {
        op: u8,
    },
    /// 0x11: the descriptor has a fence, and is in no batch.
    FenceOutside,
    /// 0x13: the size is 0, or above 2^shift, the transfer limit of the queue.
    SizeOutside {
        size: u32,
        shift: u8,
        queue: u16,
    },
    /// 0x14: the count is below 2, or above 2^shift, the batch limit of the queue.
    CountOutside {
        count: u32,
        shift: u8,
        queue: u16,
    },
    /// 0x05: so many members of the batch were not successful; name and status of the first. Those
    /// whose fates were forgotten do not count.
    MembersFailed {
        first: u32,
        status: u8,
        failed: usize,
    },
    /// 0x05: members of the batch were not successful, and the fates of all of them were forgotten.
    FailureForgotten,
    /// 0x03: the work met a page fault.
    PageFault,
}

// Whether the row is of a member of the batch that was not successful.
fn is_failed_in(batch: u32, row: &FateRow) -> bool
    ensures { result ≡ is_failed_in batch row.now }
{
    match (row.parent, row.fate) {
        (Some(parent), Fate::Completed(status)) => parent == batch && status != DSA_COMP_SUCCESS,
        _ => false,
    }
}

fn status_of_fate(fate: Fate) -> u8
    ensures { result ≡ status_of_fate fate }
{
    match fate {
        Fate::Completed(status) => status,
        _ => 0,
    }
}

// The first member of the batch that was not successful.
fn first_failed(fates: &[FateRow], batch: u32) -> Option<FateRow>
    ensures { result ≡ find (is_failed_in batch) fates.now }
{
    fates.iter().copied().find(|row| is_failed_in(batch, row))
}

fn count_failed(fates: &[FateRow], batch: u32) -> usize
    ensures { result ≡ count_by (is_failed_in batch) fates.now }
{
    fates.iter().filter(|row| is_failed_in(batch, row)).count()
}

// How many members of the batch were not successful, and the first of them.
fn members_failed<S: EntryStore>(device: &Device<S>, batch: u32) -> DoneReason
    ensures { result ≡ members_failed device.now.state.work batch }
{
    match first_failed(device.fates(), batch) {
        Some(row) => DoneReason::MembersFailed {
            first: row.name,
            status: status_of_fate(row.fate),
            failed: count_failed(device.fates(), batch),
        },
        None => DoneReason::FailureForgotten,
    }
}

// What the queue's descriptors may ask for.
fn limits<S: EntryStore>(device: &Device<S>, queue: u16) -> QueueLimits
    ensures { result ≡ limits_at device.now.state.work.setup queue }
{
    match device.queue_configs().get(usize::from(queue)) {
        Some(config) => config.limits(),
        None => QueueConfig::default().limits(),
    }
}

// The status that the entry ends with.
fn status_at_end<S: EntryStore>(
    device: &Device<S>,
    engine: u16,
    entry: &Entry,
    outcome: Outcome,
) -> u8
    ensures { (cell : Cell)
        → result ≡ last_status device.now.state.work engine (cell, entry.now) outcome }
{
    match device.batch(engine) {
        Some(note) if note.failed && device.is_batch(entry) => DSA_COMP_BATCH_FAIL,
        _ => {
            let limits = limits(device, entry.queue);
            entry.desc.status(&limits, entry.parent.is_some(), outcome)
        }
    }
}

fn status_reason<S: EntryStore>(device: &Device<S>, entry: &Entry, status: u8) -> Option<DoneReason>
    ensures { result ≡ status_reason device.now.state.work entry.now status }
{
    let (size, queue) = (entry.desc.size, entry.queue);
    let limits = limits(device, queue);
    match status {
        DSA_COMP_PAGE_FAULT_NOBOF => Some(DoneReason::PageFault),
        DSA_COMP_BATCH_FAIL => Some(members_failed(device, entry.name)),
        DSA_COMP_BAD_OPCODE => Some(DoneReason::NotSupported { op: entry.desc.op }),
        DSA_COMP_INVALID_FLAGS => Some(DoneReason::FenceOutside),
        DSA_COMP_XFER_ERANGE => Some(DoneReason::SizeOutside {
            size,
            shift: limits.max_xfer_shift,
            queue,
        }),
        DSA_COMP_DESC_CNT_ERANGE => Some(DoneReason::CountOutside {
            count: size,
            shift: limits.max_batch_shift,
            queue,
        }),
        _ => None,
    }
}

// The entry of the ticket, where the engine ends it.
fn ending_entry<S: EntryStore>(device: &Device<S>, engine: u16, ticket: Ticket) -> Option<Entry>
    ensures { option_map (λ entry. (ticket.cell, entry)) result
        ≡ ending_entry device.now.state.work engine ticket }
{
    match device.finish_reason(engine, ticket) {
        Some(_) => None,
        None => device.entry_in(ticket.cell),
    }
}

/// Why the entry of the ticket does not complete with success where the engine ends it with this
/// outcome. `None` exactly where it completes with success, or the engine does not end it.
pub fn done_reason<S: EntryStore>(
    device: &Device<S>,
    engine: u16,
    ticket: Ticket,
    outcome: Outcome,
) -> Option<DoneReason>
    ensures { result ≡ done_reason device.now.state.work engine ticket outcome }
{
    let entry = ending_entry(device, engine, ticket)?;
    let status = status_at_end(device, engine, &entry, outcome);
    status_reason(device, &entry, status)
}
