//! What refuses a command: the first reason that holds, but for another command that is active.

ghost use Rattle.std.specs.Prelude.{◌≡◌, ◌&&◌, cond, false, not, None};
ghost use Rattle.std.specs.List.{list_all};
ghost use Rattle.dsa_base.specs.Rows.{when};
ghost use Rattle.dsa_regs.specs.Command.{queues_in};
ghost use Rattle.dsa_book.specs.{State.{is_on, phase_at}, Commands.{is_bad_queues, may_come, suits}};
ghost use Rattle.dsa_admin.specs.{declared.reasons.IssueReason.TheVariants.{NoQueue}, Admin.{names_bad_queue}};
ghost use Rattle.dsa_admin.specs.Command.{found_by_check, missing_queue, phase_reason, unsuited, unsuited_queue};

use crate::IssueReason;
use dsa_queues::Queues;
use dsa_regs::{CheckReason, Deed, Phase, Scope, check_device_reason, check_queue_reason};

// The first queue that is named and that the device does not have. The numbers of a command may be
// larger than those of any queue.
fn missing_queue(queues: &Queues, scope: &Scope) -> Option<u32>
    ensures { result ≡ missing_queue queues.now.setup scope.now }
{
    let count = u32::from(queues.caps().queues);
    scope.queues().iter().copied().find(|queue| *queue >= count)
}

// What is wrong with the queues that are named, of which there has to be one.
fn named_reason(queues: &Queues, scope: &Scope) -> Option<IssueReason>
    ensures { result
        ≡ when (names_bad_queue queues.now.setup (queues_in scope.now))
        (NoQueue (missing_queue queues.now.setup scope.now)) }
{
    if scope.queues().is_empty() {
        return Some(IssueReason::NoQueue { queue: None });
    }
    let queue = missing_queue(queues, scope)?;
    Some(IssueReason::NoQueue { queue: Some(queue) })
}

/// What is wrong with the queues of the scope. The device as a whole and a PASID name none.
pub(crate) fn queue_reason(queues: &Queues, scope: &Scope) -> Option<IssueReason>
    ensures { result
        ≡ when (is_bad_queues queues.now.setup scope.now)
        (NoQueue (missing_queue queues.now.setup scope.now)) }
{
    match scope {
        Scope::Queue(_) => named_reason(queues, scope),
        Scope::Queues(_) => named_reason(queues, scope),
        _ => None,
    }
}

// The phase of the queue; `Off` where the device has no such queue.
fn phase_of(queues: &Queues, queue: u32) -> Phase
    ensures { result ≡ phase_at queues.now.setup queue }
{
    if queue < u32::from(queues.caps().queues) {
        queues.phase(queue as u16)
    } else {
        Phase::Off
    }
}

// Whether the deed may find the device or a queue in this phase.
fn suits(deed: Deed, phase: Phase) -> bool
    ensures { result ≡ suits deed phase }
{
    match deed {
        Deed::Enable => phase == Phase::Off,
        Deed::Reset => true,
        _ => phase == Phase::On,
    }
}

// The first queue that is named and is not in a phase that the deed needs.
fn unsuited_queue(queues: &Queues, deed: Deed, scope: &Scope) -> Option<u32>
    ensures { result ≡ unsuited_queue queues.now.setup deed scope.now }
{
    scope
        .queues()
        .iter()
        .copied()
        .find(|queue| !suits(deed, phase_of(queues, *queue)))
}

// What is not in a phase that the deed needs, where it is not about the device as a whole.
fn standing_reason(queues: &Queues, deed: Deed, scope: &Scope) -> Option<IssueReason>
    ensures { result
        ≡ when
        (not (is_on queues.now.setup.device
        && list_all (λ q. suits deed (phase_at queues.now.setup q)) (queues_in scope.now)))
        (phase_reason queues.now.setup
        (cond (is_on queues.now.setup.device)
        (unsuited_queue queues.now.setup deed scope.now) None)) }
{
    let phase = queues.device();
    if phase != Phase::On {
        return Some(IssueReason::WrongPhase { queue: None, phase });
    }
    let queue = unsuited_queue(queues, deed, scope)?;
    Some(IssueReason::WrongPhase {
        queue: Some(queue),
        phase: phase_of(queues, queue),
    })
}

/// What is not in a phase that the deed needs.
pub(crate) fn phase_reason(queues: &Queues, deed: Deed, scope: &Scope) -> Option<IssueReason>
    ensures { result
        ≡ when (not (may_come queues.now.setup deed scope.now))
        (phase_reason queues.now.setup (unsuited queues.now.setup deed scope.now)) }
{
    let phase = queues.device();
    match scope {
        Scope::Device if suits(deed, phase) => None,
        Scope::Device => Some(IssueReason::WrongPhase { queue: None, phase }),
        _ => standing_reason(queues, deed, scope),
    }
}

/// What the check of an enable finds of the configuration. No other deed is checked.
pub(crate) fn found_by_check(queues: &Queues, deed: Deed, scope: &Scope) -> Option<CheckReason>
    requires { is_bad_queues queues.now.setup scope.now ≡ false }
    ensures { result ≡ found_by_check queues.now.setup deed scope.now }
{
    let caps = queues.caps();
    let Deed::Enable = deed else {
        return None;
    };
    match scope {
        Scope::Device => check_device_reason(&caps, queues.configs(), queues.groups()),
        Scope::Queue(queue) => {
            let queue = *queue as u16;
            check_queue_reason(&caps, queues.groups(), queue, &queues.queue(queue))
        }
        _ => None,
    }
}
