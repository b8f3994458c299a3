//! The tables of a device before anything is written.

ghost use Rattle.std.specs.Prelude.{◌≡◌, ◌≤◌, IsTrue, replicate};
ghost use Rattle.dsa_regs.specs.declared.Phase.TheVariants.{Off};
ghost use Rattle.dsa_regs.specs.Caps.{check_caps};
ghost use Rattle.dsa_regs.specs.Config.{zero_queue, zero_group};

use crate::{Caps, GroupConfig, MAX_GROUPS, MAX_QUEUES, Phase, QueueConfig};
use arrayvec::ArrayVec;

/// A configuration for each queue of a device, by number.
pub type QueueTable = ArrayVec<QueueConfig, MAX_QUEUES>;

/// A configuration for each group of a device, by number.
pub type GroupTable = ArrayVec<GroupConfig, MAX_GROUPS>;

/// A phase for each queue of a device, by number.
pub type PhaseTable = ArrayVec<Phase, MAX_QUEUES>;

fn copies<T: Copy + Default + Drop, const N: usize>(item: T, count: u16) -> ArrayVec<T, N>
    requires { count ≤ N }
    ensures { result.items ≡ replicate count item }
{
    let mut items = ArrayVec::new();
    for _ in 0..count {
        items.push(item);
    }
    items
}

/// The configurations of the queues before anything is written: all zero.
pub fn zero_queues(caps: &Caps) -> QueueTable
    requires { IsTrue (check_caps caps.now) }
    ensures { result.items ≡ replicate caps.now.queues zero_queue }
{
    copies(QueueConfig::default(), caps.queues)
}

/// The configurations of the groups before anything is written: all zero.
pub fn zero_groups(caps: &Caps) -> GroupTable
    requires { IsTrue (check_caps caps.now) }
    ensures { result.items ≡ replicate caps.now.groups zero_group }
{
    copies(GroupConfig::default(), caps.groups)
}

/// The phases of the queues before anything is enabled: all `Off`.
pub fn off_phases(caps: &Caps) -> PhaseTable
    requires { IsTrue (check_caps caps.now) }
    ensures { result.items ≡ replicate caps.now.queues Off }
{
    copies(Phase::Off, caps.queues)
}
