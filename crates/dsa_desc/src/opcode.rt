//! Operations: their codes, by their names in the public header `linux/idxd.h` (Intel DSA
//! specification, operation codes), and what is fixed for each.

ghost use Rattle.std.specs.Prelude.{◌≡◌, option_map};
ghost use Rattle.dsa_desc.specs.Descriptor.{operation, operation_row, row_of};

/// Nothing is done.
pub const DSA_OPCODE_NOOP: u8 = 0x00;

/// The descriptors of a list are fetched and worked on.
pub const DSA_OPCODE_BATCH: u8 = 0x01;

/// Drain: earlier descriptors are waited for.
pub const DSA_OPCODE_DRAIN: u8 = 0x02;

/// Memory Move: bytes are copied.
pub const DSA_OPCODE_MEMMOVE: u8 = 0x03;

/// Fill: a pattern is written.
pub const DSA_OPCODE_MEMFILL: u8 = 0x04;

/// Compare: two ranges of memory are read.
pub const DSA_OPCODE_COMPARE: u8 = 0x05;

/// What is fixed for an operation.
#[derive(Clone, Copy)]
pub struct Operation {
    /// The name in the Intel DSA specification.
    pub name: &'static str,
    /// The name as one word, such as `move`.
    pub word: &'static str,
    /// Whether its size counts bytes of memory.
    pub is_transfer: bool,
    /// Whether it holds read buffers.
    pub reads: bool,
    /// Whether a batch may have it.
    pub is_for_batches: bool,
}

fn row(
    name: &'static str,
    word: &'static str,
    is_transfer: bool,
    reads: bool,
    is_for_batches: bool,
) -> Operation
    ensures { row_of result ≡ operation name.now word.now is_transfer reads is_for_batches }
{
    Operation {
        name,
        word,
        is_transfer,
        reads,
        is_for_batches,
    }
}

impl Operation {
    /// The operation with this code, where the model supports it.
    pub fn of(op: u8) -> Option<Operation>
        ensures { option_map row_of result ≡ operation_row op }
    {
        Some(match op {
            DSA_OPCODE_NOOP => row("No-op", "no-op", false, false, true),
            DSA_OPCODE_BATCH => row("Batch", "batch", false, false, false),
            DSA_OPCODE_DRAIN => row("Drain", "drain", false, false, false),
            DSA_OPCODE_MEMMOVE => row("Memory Move", "move", true, true, true),
            DSA_OPCODE_MEMFILL => row("Fill", "fill", true, false, true),
            DSA_OPCODE_COMPARE => row("Compare", "compare", true, true, true),
            _ => return None,
        })
    }
}
