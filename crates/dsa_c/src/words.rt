//! What a descriptor comes to, before it is run.

ghost use Rattle.std.specs.Prelude.{◌≡◌, ◌==◌, not};
ghost use Rattle.dsa_desc.specs.Descriptor.{read, check, need, status, enqcmd_image};
ghost use Rattle.dsa_c.specs.Calls.{limits_from_c, outcome_from_c, status_after_outcome};

use crate::steps::{Bytes, outcome_of};
use dsa_desc::{Descriptor, QueueLimits, enqcmd_image};
use dsa_release::VERSION;

/// The limits of a queue, as C says them.
#[repr(C)]
#[derive(Clone, Copy)]
pub struct DeviceLimits {
    pub max_batch_shift: u8,
    pub max_xfer_shift: u8,
}

fn limits_of(limits: &DeviceLimits) -> QueueLimits
    ensures { result ≡ limits_from_c limits.now }
{
    QueueLimits {
        max_batch_shift: limits.max_batch_shift,
        max_xfer_shift: limits.max_xfer_shift,
    }
}

/// The status of the first check of a descriptor that fails, 0 where none does; a member of a batch
/// where `member` is not 0.
#[unsafe(no_mangle)]
pub extern "C" fn dsa_check(bytes: &Bytes, limits: &DeviceLimits, member: u32) -> u32
    ensures { result ≡ check (read bytes.now.bytes) (limits_from_c limits.now) (not (member == 0)) }
{
    u32::from(Descriptor::parse(&bytes.bytes).check(&limits_of(limits), member != 0))
}

/// How many read buffers a descriptor holds while it runs.
#[unsafe(no_mangle)]
pub extern "C" fn dsa_need(bytes: &Bytes, limits: &DeviceLimits, member: u32) -> u32
    ensures { result ≡ need (read bytes.now.bytes) (limits_from_c limits.now) (not (member == 0)) }
{
    u32::from(Descriptor::parse(&bytes.bytes).need(&limits_of(limits), member != 0))
}

/// The status with which a descriptor ends after an outcome, 0 where the outcome's number is none.
#[unsafe(no_mangle)]
pub extern "C" fn dsa_status(bytes: &Bytes, limits: &DeviceLimits, member: u32, outcome: u32) -> u32
    ensures { result
        ≡ status_after_outcome (read bytes.now.bytes) (limits_from_c limits.now) (not (member == 0))
        (outcome_from_c outcome) }
{
    let Some(outcome) = outcome_of(outcome) else {
        return 0;
    };
    let desc = Descriptor::parse(&bytes.bytes);
    u32::from(desc.status(&limits_of(limits), member != 0, outcome))
}

/// Writes what ENQCMD writes to a portal under a PASID.
#[unsafe(no_mangle)]
pub extern "C" fn dsa_image(bytes: &Bytes, pasid: u32, image: &mut Bytes)
    ensures { image.new.bytes ≡ enqcmd_image bytes.now.bytes pasid }
{
    image.bytes = enqcmd_image(&bytes.bytes, pasid);
}

/// The version as one number.
#[unsafe(no_mangle)]
pub extern "C" fn dsa_version() -> u32
    ensures { result ≡ 2000 }
{
    VERSION
}
