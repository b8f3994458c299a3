//! Why a submission is turned away, a configuration not written, and no error cleared.

ghost use Rattle.std.specs.Prelude.{◌≡◌, ◌↔◌, ℕ, Some, slice_set};
ghost use Rattle.dsa_desc.specs.declared.Descriptor.{Descriptor};
ghost use Rattle.dsa_regs.specs.declared.QueueConfig.{QueueConfig};
ghost use Rattle.dsa_regs.specs.declared.GroupConfig.{GroupConfig};
ghost use Rattle.dsa_store.specs.declared.entry.Cell.{Cell};
ghost use Rattle.dsa_book.specs.declared.event.Portal.{Portal};
ghost use Rattle.dsa_book.specs.declared.event.Kind.{Kind};
ghost use Rattle.dsa_book.specs.declared.answer.ClearAnswer.TheVariants.{Nothing};
ghost use Rattle.dsa_book.specs.State.{Intake, Setup};
ghost use Rattle.dsa_book.specs.Submit.{submit};
ghost use Rattle.dsa_book.specs.Commands.{write_queue, write_group, clear};
ghost use Rattle.dsa_queues.specs.Submission.{cause_of, submit_by, submit_reason};
ghost use Rattle.dsa_queues.specs.Write.{write_queue_reason, write_group_reason, clear_reason, fault_of_write, write_by};
ghost use Rattle.dsa_queues.specs.declared.reasons.ClearReason.TheVariants.{NothingNoted};

use dsa_book::{Cause, Portal};
use dsa_regs::{Fault, Phase};

/// What turns a submission away, in the order in which the causes are tried.
#[derive(Clone, Copy, Debug, PartialEq, Eq)]
pub enum SubmitReason {
    /// The queue is not on: the phases of the device and of the queue, `None` where the device has
    /// no such queue.
    NotEnabled {
        device: Phase,
        queue: Option<Phase>,
    },
    /// The instruction is not the one for the mode of the queue, which is dedicated or shared.
    WrongKind {
        dedicated: bool,
    },
    /// The queue holds as many entries as the portal allows.
    AtLimit {
        occupancy: u32,
        limit: u16,
        portal: Portal,
    },
}

impl SubmitReason {
    /// The cause that is answered for the reason.
    #[inline(always)]
    pub fn cause(&self) -> Cause
        ensures { result ≡ cause_of self.now }
    {
        match self {
            SubmitReason::NotEnabled { .. } => Cause::NotEnabled,
            SubmitReason::WrongKind { .. } => Cause::WrongKind,
            SubmitReason::AtLimit { .. } => Cause::AtLimit,
        }
    }
}

/// What refuses a configuration.
#[derive(Clone, Copy, Debug, PartialEq, Eq)]
pub enum WriteReason {
    /// The device has only so many queues, or groups.
    BadIndex { count: u16 },
    /// The queue is not off.
    LockedQueue { phase: Phase },
    /// The device is not off, and the queue has another size, which stays.
    LockedSize { phase: Phase, size: u16 },
    /// The device is not off.
    LockedGroup { phase: Phase },
}

impl WriteReason {
    /// The fault that is answered for the reason.
    pub fn fault(&self) -> Fault
        ensures { result ≡ fault_of_write self.now }
    {
        match self {
            WriteReason::BadIndex { .. } => Fault::BadIndex,
            _ => Fault::Locked,
        }
    }
}

/// Why no error is cleared.
#[derive(Clone, Copy, Debug, PartialEq, Eq)]
pub enum ClearReason {
    NothingNoted,
}

/// The machine turns a submission away for the cause of its reason, and accepts it exactly where
/// there is none.
pub fn submissions_follow_reasons()
    ensures { (i : Intake) (queue : ℕ) (portal : Portal) (kind : Kind)
        (desc : Descriptor) (cell : Cell)
        → submit i queue portal kind desc cell
        ≡ submit_by i queue kind desc cell (submit_reason i queue portal kind) }
{}

/// The machine refuses a configuration for the fault of its reason, and writes it exactly where
/// there is none; it clears nothing exactly where there is a reason.
pub fn writes_follow_reasons()
    ensures queue { (setup : Setup) (queue : ℕ) (config : QueueConfig)
        → write_queue setup queue config
        ≡ write_by setup (record setup { configs = slice_set setup.configs queue config })
        (write_queue_reason setup queue config) }
    ensures group { (setup : Setup) (group : ℕ) (config : GroupConfig)
        → write_group setup group config
        ≡ write_by setup (record setup { groups = slice_set setup.groups group config })
        (write_group_reason setup group) }
    ensures clear { (setup : Setup)
        → ((clear setup).0 ≡ Nothing) ↔ (clear_reason setup.noted ≡ Some NothingNoted) }
{}
