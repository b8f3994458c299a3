//! What the check of Enable Device finds among the groups: which group, and which number.

ghost use Rattle.std.specs.Prelude.{◌≡◌, ℕ, ◌^◌, ◌-◌, nat_le, min, count_by, is_some, position};
ghost use Rattle.std.specs.List.{list_any, position_or_len};
ghost use Rattle.dsa_base.specs.{Rows.{when}, Numbers.{has}};
ghost use Rattle.dsa_regs.specs.Config.{names_missing, first_past, missing_name, count_of, missing_reason, is_any_shared, is_in_two, first_shared, shared_name, names, group_after, shared_reason, total_reserved, is_allowed_outside, is_allowed_wrong, broken_bound, outside_reason};

use crate::configurations::has_number;
use crate::{Bound, Caps, CheckReason, GroupConfig, LEAST_ALLOWED, Named};

/// Whether the set names a number that is not below the count.
fn is_past(set: u64, count: u16) -> bool
    ensures { result ≡ nat_le (2 ^ count) set }
{
    count < 64 && set >> count != 0
}

fn names_missing(caps: &Caps, group: &GroupConfig) -> bool
    ensures { result ≡ names_missing caps.now group.now }
{
    is_past(group.queues, caps.queues) || is_past(group.engines, caps.engines)
}

/// The first number of the set that is not below the count; 64 where there is none.
fn first_past(count: u16, set: u64) -> u16
    ensures { result ≡ first_past count set }
{
    for number in 0..64 {
        if number >= count && has_number(set, number) {
            return number;
        }
    }
    64
}

/// What the group names first that the device does not have, where it names such: a queue, or else
/// an engine.
fn missing_name(caps: &Caps, group: &GroupConfig) -> Named
    ensures { result ≡ missing_name caps.now group.now }
{
    if is_past(group.queues, caps.queues) {
        Named::Queue(first_past(caps.queues, group.queues))
    } else {
        Named::Engine(first_past(caps.engines, group.engines))
    }
}

/// How many queues the device has, or how many engines.
fn count_of(caps: &Caps, named: Named) -> u16
    ensures { result ≡ count_of caps.now named }
{
    match named {
        Named::Queue(_) => caps.queues,
        Named::Engine(_) => caps.engines,
    }
}

fn first_missing(caps: &Caps, groups: &[GroupConfig]) -> Option<usize>
    ensures { result ≡ position (names_missing caps.now) groups.now }
{
    groups.iter().position(|g| names_missing(caps, g))
}

/// The first group that names what the device does not have, with what it names first.
pub(crate) fn missing_reason(caps: &Caps, groups: &[GroupConfig]) -> Option<CheckReason>
    ensures { result ≡ when (list_any (names_missing caps.now) groups.now)
        (missing_reason caps.now groups.now) }
{
    let group = first_missing(caps, groups)?;
    let named = missing_name(caps, &groups[group]);
    let count = count_of(caps, named);
    Some(CheckReason::NamesMissing {
        group,
        named,
        count,
    })
}

fn groups_with_queue(groups: &[GroupConfig], queue: u16) -> usize
    ensures { result ≡ count_by (λ g. has g.queues queue) groups.now }
{
    groups.iter().filter(|g| g.has_queue(queue)).count()
}

fn groups_with_engine(groups: &[GroupConfig], engine: u16) -> usize
    ensures { result ≡ count_by (λ g. has g.engines engine) groups.now }
{
    groups.iter().filter(|g| g.has_engine(engine)).count()
}

/// The first queue that is in two groups.
fn shared_queue(groups: &[GroupConfig], queues: u16) -> Option<u16>
    ensures { result ≡ when (is_in_two (λ g. g.queues) groups.now queues)
        (first_shared (λ g. g.queues) groups.now queues) }
{
    for queue in 0..queues {
        if groups_with_queue(groups, queue) > 1 {
            return Some(queue);
        }
    }
    None
}

/// The first engine that is in two groups.
fn shared_engine(groups: &[GroupConfig], engines: u16) -> Option<u16>
    ensures { result ≡ when (is_in_two (λ g. g.engines) groups.now engines)
        (first_shared (λ g. g.engines) groups.now engines) }
{
    for engine in 0..engines {
        if groups_with_engine(groups, engine) > 1 {
            return Some(engine);
        }
    }
    None
}

/// The first queue that is in two groups, or else the first such engine.
fn shared_name(caps: &Caps, groups: &[GroupConfig]) -> Option<Named>
    ensures { result ≡ when (is_any_shared caps.now groups.now) (shared_name caps.now groups.now) }
{
    if let Some(queue) = shared_queue(groups, caps.queues) {
        return Some(Named::Queue(queue));
    }
    let engine = shared_engine(groups, caps.engines)?;
    Some(Named::Engine(engine))
}

/// Whether the group names it.
fn names(group: &GroupConfig, named: Named) -> bool
    ensures { result ≡ names named group.now }
{
    match named {
        Named::Queue(queue) => group.has_queue(queue),
        Named::Engine(engine) => group.has_engine(engine),
    }
}

fn first_naming(groups: &[GroupConfig], named: Named) -> Option<usize>
    ensures { result ≡ position (names named) groups.now }
{
    groups.iter().position(|g| names(g, named))
}

/// The first group that names it; how many groups there are where none does.
fn group_naming(groups: &[GroupConfig], named: Named) -> usize
    ensures { result ≡ position_or_len (names named) groups.now }
{
    first_naming(groups, named).unwrap_or(groups.len())
}

/// The next group after this one that names it; how many groups there are where none does.
fn group_after(groups: &[GroupConfig], named: Named, first: usize) -> usize
    ensures { result ≡ group_after named groups.now first }
{
    for group in 0..groups.len() {
        if group > first && names(&groups[group], named) {
            return group;
        }
    }
    groups.len()
}

/// The first queue that is in two groups, or else the first such engine, with the first two groups
/// that name it.
pub(crate) fn shared_reason(caps: &Caps, groups: &[GroupConfig]) -> Option<CheckReason>
    ensures { result ≡ when (is_any_shared caps.now groups.now)
        (shared_reason caps.now groups.now) }
{
    let named = shared_name(caps, groups)?;
    let first = group_naming(groups, named);
    let second = group_after(groups, named, first);
    Some(CheckReason::TwoGroups {
        named,
        first,
        second,
    })
}

/// The read buffers that all groups have reserved together, or the most that a u32 holds.
pub(crate) fn total_reserved(groups: &[GroupConfig]) -> u32
    ensures { result ≡ min (total_reserved groups.now) (2 ^ 32 - 1) }
{
    let mut total: u32 = 0;
    for group in groups {
        total = total.saturating_add(u32::from(group.reserved));
    }
    total
}

/// The first bound that the number breaks, where the others leave so many.
fn broken_bound(left: u16, group: &GroupConfig) -> Option<Bound>
    ensures { result ≡ when (is_allowed_outside left group.now) (broken_bound left group.now) }
{
    if group.allowed < group.reserved {
        Some(Bound::Reserved(group.reserved))
    } else if group.allowed > left {
        Some(Bound::Unreserved(left))
    } else if group.allowed < LEAST_ALLOWED && group.engines != 0 {
        Some(Bound::Need)
    } else {
        None
    }
}

/// The first bound that the number breaks which the group may use, where all groups have reserved
/// so many together.
fn bound_of(read_buffers: u16, reserved: u32, group: &GroupConfig) -> Option<Bound>
    ensures bound { let left = read_buffers - (reserved - group.now.reserved) in
        result ≡ when (is_allowed_outside left group.now) (broken_bound left group.now) }
    ensures broken { is_some result
        ≡ is_allowed_outside (read_buffers - (reserved - group.now.reserved)) group.now }
{
    let others = reserved.saturating_sub(u32::from(group.reserved));
    let left = u32::from(read_buffers).saturating_sub(others) as u16;
    broken_bound(left, group)
}

fn first_outside(read_buffers: u16, reserved: u32, groups: &[GroupConfig]) -> Option<usize>
    requires { reserved ≡ total_reserved groups.now }
    ensures { result ≡ position (is_allowed_wrong read_buffers groups.now) groups.now }
{
    groups
        .iter()
        .position(|g| bound_of(read_buffers, reserved, g).is_some())
}

/// The first group whose number is outside its bounds, with the first that it breaks.
pub(crate) fn outside_reason(
    read_buffers: u16,
    reserved: u32,
    groups: &[GroupConfig],
) -> Option<CheckReason>
    requires { reserved ≡ total_reserved groups.now }
    ensures { result ≡ when (list_any (is_allowed_wrong read_buffers groups.now) groups.now)
        (outside_reason read_buffers groups.now) }
{
    let group = first_outside(read_buffers, reserved, groups)?;
    let bound = bound_of(read_buffers, reserved, &groups[group])?;
    let allowed = groups[group].allowed;
    Some(CheckReason::AllowedOutOfRange {
        group,
        allowed,
        bound,
    })
}
