//! What a descriptor asks of a queue: its checks, its read buffers and its completion status.
//!
//! A descriptor is a *member* inside a batch, and else *submitted*. The checks, their numbers and
//! their order are the profile's.

ghost use Rattle.std.specs.Prelude.{◌≡◌, ◌^◌};
ghost use Rattle.dsa_desc.specs.Descriptor.{is_within};

use crate::completion::{
    DSA_COMP_BAD_OPCODE, DSA_COMP_DESC_CNT_ERANGE, DSA_COMP_INVALID_FLAGS, DSA_COMP_NONE,
    DSA_COMP_PAGE_FAULT_NOBOF, DSA_COMP_SUCCESS, DSA_COMP_XFER_ERANGE,
};
use crate::opcode::{DSA_OPCODE_BATCH, DSA_OPCODE_DRAIN, Operation};
use crate::{Descriptor, Outcome, QueueLimits};

/// A read buffer takes this many bytes.
const READ_BUFFER_BYTES: u32 = 4096;

/// No descriptor holds more read buffers.
const MOST_READ_BUFFERS: u32 = 4;

/// Whether the number is at least `low` and at most this power of two, which may be past 32 bits.
fn is_within_power(low: u32, shift: u8, n: u32) -> bool
    ensures { result ≡ is_within low (2 ^ shift) n }
{
    low <= n && (shift >= 32 || n <= 1 << shift)
}

impl Descriptor {
    ghost use Rattle.dsa_desc.specs.Descriptor.{is_batch, is_drain, is_transfer, is_supported, check, is_well_formed, is_lawful_batch, is_lawful_drain, need, status};

    /// Whether the descriptor is a Batch, well formed or not.
    pub fn is_batch(&self) -> bool
        ensures { result ≡ is_batch self.now }
    {
        self.op == DSA_OPCODE_BATCH
    }

    /// Whether the descriptor is a Drain, well formed or not.
    pub fn is_drain(&self) -> bool
        ensures { result ≡ is_drain self.now }
    {
        self.op == DSA_OPCODE_DRAIN
    }

    /// Whether the operation is on as many bytes of memory as the size says.
    pub fn is_transfer(&self) -> bool
        ensures { result ≡ is_transfer self.now }
    {
        matches!(Operation::of(self.op), Some(operation) if operation.is_transfer)
    }

    /// Whether the operation code is supported there.
    fn is_supported(&self, member: bool) -> bool
        ensures { result ≡ is_supported self.now member }
    {
        matches!(Operation::of(self.op), Some(operation) if operation.is_for_batches || !member)
    }

    /// The status number of the first check that fails, `DSA_COMP_NONE` where none does.
    pub fn check(&self, limits: &QueueLimits, member: bool) -> u8
        ensures { result ≡ check self.now limits.now member }
    {
        if !self.is_supported(member) {
            DSA_COMP_BAD_OPCODE
        } else if self.is_fenced() && !member {
            DSA_COMP_INVALID_FLAGS
        } else if self.is_transfer() && !is_within_power(1, limits.max_xfer_shift, self.size) {
            DSA_COMP_XFER_ERANGE
        } else if self.is_batch() && !is_within_power(2, limits.max_batch_shift, self.size) {
            DSA_COMP_DESC_CNT_ERANGE
        } else {
            DSA_COMP_NONE
        }
    }

    /// Whether no check fails.
    pub fn is_well_formed(&self, limits: &QueueLimits, member: bool) -> bool
        ensures { result ≡ is_well_formed self.now limits.now member }
    {
        self.check(limits, member) == DSA_COMP_NONE
    }

    /// Whether the descriptor is a Batch whose members the engine fetches.
    pub fn is_lawful_batch(&self, limits: &QueueLimits, member: bool) -> bool
        ensures { result ≡ is_lawful_batch self.now limits.now member }
    {
        self.is_batch() && self.is_well_formed(limits, member)
    }

    /// Whether the descriptor is a Drain that waits for what was submitted before it.
    pub fn is_lawful_drain(&self, limits: &QueueLimits, member: bool) -> bool
        ensures { result ≡ is_lawful_drain self.now limits.now member }
    {
        self.is_drain() && self.is_well_formed(limits, member)
    }

    /// How many read buffers the descriptor holds while it runs, 0 to 4: one for each 4096 bytes
    /// begun, where an operation that reads is well formed.
    pub fn need(&self, limits: &QueueLimits, member: bool) -> u8
        ensures { result ≡ need self.now limits.now member }
    {
        match Operation::of(self.op) {
            Some(operation) if operation.reads && self.is_well_formed(limits, member) => {
                self.size.div_ceil(READ_BUFFER_BYTES).min(MOST_READ_BUFFERS) as u8
            }
            _ => 0,
        }
    }

    /// The completion status number: that of the first failed check, else by the outcome. A
    /// well-formed Batch has `DSA_COMP_SUCCESS` here, whatever its members had.
    pub fn status(&self, limits: &QueueLimits, member: bool, outcome: Outcome) -> u8
        ensures { result ≡ status self.now limits.now member outcome }
    {
        let failed = self.check(limits, member);
        if failed != DSA_COMP_NONE {
            return failed;
        }
        match outcome {
            Outcome::PageFault if self.is_transfer() => DSA_COMP_PAGE_FAULT_NOBOF,
            _ => DSA_COMP_SUCCESS,
        }
    }
}
