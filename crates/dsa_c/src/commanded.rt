//! The numbers of why a command is refused, and of what one waits for.

ghost use Rattle.std.specs.Prelude.{◌≡◌};
ghost use Rattle.dsa_regs.specs.declared.reasons.CheckReason.TheVariants.{AllowedOutOfRange, NamesMissing, TwoGroups};
ghost use Rattle.dsa_c.specs.Reasons.{named_numbers, bound_kind, bound_number, queue_check_numbers};
ghost use Rattle.dsa_c.specs.Reasons.{check_numbers, waiting_numbers, command_numbers};
ghost use Rattle.dsa_c.specs.Reasons.{active_numbers, issue_numbers, poll_numbers, wait_numbers};
ghost use Rattle.dsa_c.specs.Reasons.{clear_numbers, reason_of_queue, with_counts};

use crate::kinds;
use crate::reason::{DeviceReason, in_32_bits, phase_said};
use dsa_device::{ClearReason, IssueReason, PollReason};
use dsa_explain::{ListedEntry, WaitReason};
use dsa_regs::{Bound, CheckReason, Command, Named};

// A queue or an engine, each with its kind.
fn named_numbers(of_queue: u32, of_engine: u32, named: Named) -> DeviceReason
    ensures { result ≡ named_numbers of_queue of_engine named }
{
    match named {
        Named::Queue(queue) => DeviceReason::of_queue(of_queue, queue),
        Named::Engine(engine) => DeviceReason::of_engine(of_engine, engine),
    }
}

// The kind of a bound that is broken.
fn bound_kind(bound: Bound) -> u32
    ensures { result ≡ bound_kind bound }
{
    match bound {
        Bound::Reserved(_) => kinds::ALLOWED_BELOW_RESERVED,
        Bound::Unreserved(_) => kinds::ALLOWED_ABOVE_REST,
        Bound::Need => kinds::ALLOWED_BELOW_NEED,
    }
}

fn bound_number(bound: Bound) -> u32
    ensures { result ≡ bound_number bound }
{
    match bound {
        Bound::Reserved(reserved) => u32::from(reserved),
        Bound::Unreserved(left) => u32::from(left),
        Bound::Need => 4,
    }
}

// Of a queue, with a field of it and what that may be.
fn field_numbers(kind: u32, queue: u16, field: u32, most: u32) -> DeviceReason
    ensures { result ≡ with_counts field most (reason_of_queue kind queue) }
{
    DeviceReason::of_queue(kind, queue).with_counts(field, most)
}

// What the check of an enable finds of a queue.
fn queue_check_numbers(reason: &CheckReason) -> DeviceReason
    ensures { result ≡ queue_check_numbers reason.now }
{
    match *reason {
        CheckReason::SizeZero { queue } => DeviceReason::of_queue(kinds::SIZE_ZERO, queue),
        CheckReason::PriorityZero { queue } => DeviceReason::of_queue(kinds::PRIORITY_ZERO, queue),
        CheckReason::PriorityTooLarge { queue, priority } => {
            field_numbers(kinds::PRIORITY_TOO_LARGE, queue, u32::from(priority), 15)
        }
        CheckReason::ThresholdZero { queue } => DeviceReason::of_queue(
            kinds::THRESHOLD_ZERO,
            queue,
        ),
        CheckReason::ThresholdAboveSize {
            queue,
            threshold,
            size,
        } => {
            let (threshold, size) = (u32::from(threshold), u32::from(size));
            field_numbers(kinds::THRESHOLD_ABOVE_SIZE, queue, threshold, size)
        }
        CheckReason::BatchTooLarge { queue, asked, most } => {
            let (asked, most) = (u32::from(asked), u32::from(most));
            field_numbers(kinds::BATCH_TOO_LARGE, queue, asked, most)
        }
        CheckReason::TransferTooLarge { queue, asked, most } => {
            let (asked, most) = (u32::from(asked), u32::from(most));
            field_numbers(kinds::TRANSFER_TOO_LARGE, queue, asked, most)
        }
        CheckReason::NoGroup { queue } => DeviceReason::of_queue(kinds::QUEUE_WITHOUT_GROUP, queue),
        _ => DeviceReason::of(kinds::NONE),
    }
}

// A queue or an engine that the group names and the device does not have, of which it has so many.
fn missing_numbers(group: usize, named: Named, count: u16) -> DeviceReason
    ensures { result ≡ check_numbers (NamesMissing group named count) }
{
    let (of_queue, of_engine) = (kinds::GROUP_NAMES_NO_QUEUE, kinds::GROUP_NAMES_NO_ENGINE);
    DeviceReason {
        group: in_32_bits(group as u64),
        limit: u32::from(count),
        ..named_numbers(of_queue, of_engine, named)
    }
}

// A queue or an engine that is in two groups.
fn shared_numbers(named: Named, first: usize, second: usize) -> DeviceReason
    ensures { result ≡ check_numbers (TwoGroups named first second) }
{
    let (of_queue, of_engine) = (kinds::QUEUE_IN_TWO_GROUPS, kinds::ENGINE_IN_TWO_GROUPS);
    DeviceReason {
        group: in_32_bits(first as u64),
        other: in_32_bits(second as u64),
        ..named_numbers(of_queue, of_engine, named)
    }
}

// How many read buffers the group may use, which breaks the bound.
fn allowed_numbers(group: usize, allowed: u16, bound: Bound) -> DeviceReason
    ensures { result ≡ check_numbers (AllowedOutOfRange group allowed bound) }
{
    let (allowed, number) = (u32::from(allowed), bound_number(bound));
    DeviceReason::of_group(bound_kind(bound), group).with_counts(allowed, number)
}

/// What the check of an enable finds.
pub(crate) fn check_numbers(reason: &CheckReason) -> DeviceReason
    ensures { result ≡ check_numbers reason.now }
{
    match *reason {
        CheckReason::NamesMissing {
            group,
            named,
            count,
        } => missing_numbers(group, named, count),
        CheckReason::SizesTooLarge { sizes, total } => {
            DeviceReason::of(kinds::SIZES_TOO_LARGE).with_counts(sizes, u32::from(total))
        }
        CheckReason::TwoGroups {
            named,
            first,
            second,
        } => shared_numbers(named, first, second),
        CheckReason::ReservedTooMany { reserved, total } => {
            DeviceReason::of(kinds::RESERVED_TOO_MANY).with_counts(reserved, u32::from(total))
        }
        CheckReason::AllowedOutOfRange {
            group,
            allowed,
            bound,
        } => allowed_numbers(group, allowed, bound),
        CheckReason::GroupWithoutEngine { group } => {
            DeviceReason::of_group(kinds::GROUP_WITHOUT_ENGINE, group)
        }
        CheckReason::GroupWithoutQueue { group } => {
            DeviceReason::of_group(kinds::GROUP_WITHOUT_QUEUE, group)
        }
        CheckReason::SizeZero { .. }
        | CheckReason::PriorityZero { .. }
        | CheckReason::PriorityTooLarge { .. }
        | CheckReason::ThresholdZero { .. }
        | CheckReason::ThresholdAboveSize { .. }
        | CheckReason::BatchTooLarge { .. }
        | CheckReason::TransferTooLarge { .. }
        | CheckReason::NoGroup { .. } => queue_check_numbers(reason),
    }
}

// So many entries that a command waits for, and the first of them.
fn waiting_numbers(awaited: u64, first: &Option<ListedEntry>, reason: DeviceReason) -> DeviceReason
    ensures { result ≡ waiting_numbers awaited first.now reason }
{
    let counted = DeviceReason {
        count: in_32_bits(awaited),
        ..reason
    };
    match first {
        None => counted,
        Some(first) => DeviceReason {
            name: first.entry.name,
            ..counted
        }
        .in_list(first.list),
    }
}

fn command_numbers(kind: u32, command: &Command) -> DeviceReason
    ensures { result ≡ command_numbers kind command.now }
{
    DeviceReason {
        command: u32::from(command.number()),
        operand: command.scope().operand(),
        ..DeviceReason::of(kind)
    }
}

// The active command, and what it waits for, or that nothing is left.
fn active_numbers(active: &Command, awaited: u64, first: &Option<ListedEntry>) -> DeviceReason
    ensures { result ≡ active_numbers active.now awaited first.now }
{
    if awaited == 0 {
        return command_numbers(kinds::COMMAND_OVER, active);
    }
    let reason = command_numbers(kinds::COMMAND_ACTIVE, active);
    waiting_numbers(awaited, first, reason)
}

/// With the first entry that the active command waits for.
pub(crate) fn issue_numbers(first: &Option<ListedEntry>, reason: &IssueReason) -> DeviceReason
    ensures { result ≡ issue_numbers first.now reason.now }
{
    match reason {
        IssueReason::Busy { active, awaited } => active_numbers(active, *awaited, first),
        IssueReason::NoQueue { queue: None } => DeviceReason::of(kinds::NO_QUEUE_NAMED),
        IssueReason::NoQueue { queue: Some(queue) } => {
            DeviceReason::of_named_queue(kinds::NO_SUCH_QUEUE, *queue)
        }
        IssueReason::WrongPhase { queue: None, phase } => DeviceReason {
            device_phase: phase_said(*phase),
            ..DeviceReason::of(kinds::WRONG_DEVICE_PHASE)
        },
        IssueReason::WrongPhase {
            queue: Some(queue),
            phase,
        } => DeviceReason {
            phase: phase_said(*phase),
            ..DeviceReason::of_named_queue(kinds::WRONG_QUEUE_PHASE, *queue)
        },
        IssueReason::Check(reason) => check_numbers(reason),
    }
}

/// With the first entry that the active command waits for.
pub(crate) fn poll_numbers(first: &Option<ListedEntry>, reason: &PollReason) -> DeviceReason
    ensures { result ≡ poll_numbers first.now reason.now }
{
    match *reason {
        PollReason::Nothing => DeviceReason::of(kinds::NO_COMMAND),
        PollReason::Waits { awaited } => {
            waiting_numbers(awaited, first, DeviceReason::of(kinds::COMMAND_WAITS))
        }
    }
}

/// Of a command that would wait.
pub(crate) fn wait_numbers(reason: &WaitReason) -> DeviceReason
    ensures { result ≡ wait_numbers reason.now }
{
    let first = Some(reason.first);
    waiting_numbers(
        u64::from(reason.awaited),
        &first,
        DeviceReason::of(kinds::WOULD_WAIT),
    )
}

/// Why no error is cleared.
pub(crate) fn clear_numbers(reason: &ClearReason) -> DeviceReason
    ensures { result ≡ clear_numbers reason.now }
{
    match reason {
        ClearReason::NothingNoted => DeviceReason::of(kinds::NOTHING_NOTED),
    }
}
