//! A descriptor in one line.

ghost use Rattle.std.specs.Prelude.{◌≡◌, Some};
ghost use Rattle.dsa_desc.specs.Text.{flags_text, line_of_descriptor, operation_text, size_label};

use crate::opcode::Operation;
use crate::{Descriptor, DescriptorFlags};
use bitflags::Flags;
use std::fmt;

/// An operation code as it is printed.
#[derive(Clone, Copy)]
struct OperationCode(u8);

impl fmt::Display for OperationCode {
    ghost output = { λ operation. Some (operation_text operation.0) };

    fn fmt<W: fmt::Write>(&self, f: &mut fmt::Formatter<W>) -> fmt::Result {
        match Operation::of(self.0) {
            Some(operation) => f.write_str(operation.name),
            None => write!(f, "Operation 0x{:02x}", self.0),
        }
    }
}

/// What the size of a descriptor counts.
fn size_label(descriptor: &Descriptor) -> &'static str
    ensures { result.now ≡ size_label descriptor.now }
{
    if descriptor.is_batch() {
        "count"
    } else {
        "size"
    }
}

/// As `0x00000c`.
impl fmt::Display for DescriptorFlags {
    ghost output = { λ flags. Some (flags_text flags.0) };

    fn fmt<W: fmt::Write>(&self, f: &mut fmt::Formatter<W>) -> fmt::Result {
        write!(f, "0x{:06x}", self.bits())
    }
}

/// As `Memory Move, PASID 5, flags 0x00000c, size 4096`. A Batch has `count` for `size`, and a code
/// that the model does not know is written `Operation 0x60`.
impl fmt::Display for Descriptor {
    ghost output = { λ d. Some (line_of_descriptor d) };

    fn fmt<W: fmt::Write>(&self, f: &mut fmt::Formatter<W>) -> fmt::Result {
        let operation = OperationCode(self.op);
        let label = size_label(self);
        write!(
            f,
            "{operation}, PASID {}, flags {}, {label} {}",
            self.pasid,
            self.flags(),
            self.size
        )
    }
}
