//! What a queue's and a group's configuration say.

ghost use Rattle.std.specs.Prelude.{◌≡◌, ◌<◌, IfSome, MatchOption};
ghost use Rattle.dsa_base.specs.Numbers.{has, IsNext, NoneFrom};

use crate::{GroupConfig, QueueConfig};
use dsa_desc::QueueLimits;

/// Whether bit k of the set is on; no set of 64 bits has a number past 63.
pub(crate) fn has_number(bits: u64, k: u16) -> bool
    ensures { result ≡ has bits k }
{
    k < 64 && bits >> k & 1 == 1
}

/// The first number of the set from that one on; no set of 64 bits has one past 63.
fn next_number(bits: u64, from: u16) -> Option<u16>
    ensures number { MatchOption result (NoneFrom bits from) (λ n. IsNext bits from n) }
    ensures within { IfSome result (λ n. n < 64) }
{
    if from >= 64 {
        return None;
    }
    let rest = bits >> from;
    if rest == 0 {
        return None;
    }
    Some(from + rest.trailing_zeros() as u16)
}

impl QueueConfig {
    ghost use Rattle.dsa_regs.specs.Config.{limits_of_queue};

    /// What the queue's descriptors may ask for.
    pub fn limits(&self) -> QueueLimits
        ensures { result ≡ limits_of_queue self.now }
    {
        QueueLimits {
            max_batch_shift: self.max_batch_shift,
            max_xfer_shift: self.max_xfer_shift,
        }
    }
}

impl GroupConfig {
    /// Whether the queue is in the group.
    pub fn has_queue(&self, queue: u16) -> bool
        ensures { result ≡ has self.now.queues queue }
    {
        has_number(self.queues, queue)
    }

    /// The first queue of the group from that number on.
    pub fn next_queue(&self, from: u16) -> Option<u16>
        ensures number { MatchOption result (NoneFrom self.now.queues from)
            (λ queue. IsNext self.now.queues from queue) }
        ensures within { IfSome result (λ queue. queue < 64) }
    {
        next_number(self.queues, from)
    }

    /// Whether the engine is in the group.
    pub fn has_engine(&self, engine: u16) -> bool
        ensures { result ≡ has self.now.engines engine }
    {
        has_number(self.engines, engine)
    }
}
