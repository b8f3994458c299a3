//! What a device may have.

ghost use Rattle.std.specs.Prelude.{◌≡◌, ◌≤◌, IsTrue};
ghost use Rattle.dsa_desc.specs.Descriptor.{is_within};
ghost use Rattle.dsa_regs.specs.Caps.{check_caps, cell_count, list_count};

use crate::{
    Caps, MAX_BATCH_SHIFT, MAX_CELLS, MAX_ENGINES, MAX_GROUPS, MAX_QUEUES, MAX_READ_BUFFERS,
    MAX_SLOTS, MAX_TOTAL_SIZE, MAX_TRANSFER_SHIFT,
};

fn is_one_to(high: usize, n: u16) -> bool
    ensures { result ≡ is_within 1 high n }
{
    n >= 1 && usize::from(n) <= high
}

/// Whether the device is within the limits of this model (profile).
pub fn check_caps(caps: &Caps) -> bool
    ensures { result ≡ check_caps caps.now }
{
    is_one_to(MAX_QUEUES, caps.queues)
        && is_one_to(MAX_GROUPS, caps.groups)
        && is_one_to(MAX_ENGINES, caps.engines)
        && is_one_to(usize::from(MAX_TOTAL_SIZE), caps.total_size)
        && is_one_to(usize::from(MAX_READ_BUFFERS), caps.read_buffers)
        && is_one_to(usize::from(MAX_SLOTS), caps.slots)
        && is_one_to(
            usize::from(MAX_BATCH_SHIFT),
            u16::from(caps.max_batch_shift),
        )
        && caps.max_xfer_shift <= MAX_TRANSFER_SHIFT
}

/// The cells that the device's store needs: one for each entry that may be held at once.
///
/// That is `total_size` in the queues and, for each engine, `slots` in progress and
/// `2^max_batch_shift` members.
pub fn cell_count(caps: &Caps) -> u32
    requires { IsTrue (check_caps caps.now) }
    ensures number { result ≡ cell_count caps.now }
    ensures bound { result ≤ MAX_CELLS }
{
    u32::from(caps.total_size)
        + u32::from(caps.engines) * (u32::from(caps.slots) + (1 << caps.max_batch_shift))
}

/// The lists that the device's store needs: one for each queue and two for each engine.
pub fn list_count(caps: &Caps) -> u16
    requires { IsTrue (check_caps caps.now) }
    ensures { result ≡ list_count caps.now }
{
    caps.queues + 2 * caps.engines
}
