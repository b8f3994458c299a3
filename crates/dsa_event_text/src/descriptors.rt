//! Descriptors in words.

ghost use Rattle.std.specs.Prelude.{◌≡◌, ◌++◌, OnOk, string_bytes};
ghost use Rattle.dsa_event_text.specs.Text.{descriptor_text, fence_text, operation_label, size_text};

use crate::numbers::{add_count, add_number};
use dsa_desc::Descriptor;
use dsa_desc::opcode::Operation;
use std::alloc::AllocError;
use std::fmt::Write;

fn add_operation(text: &mut String, op: u8) -> Result<(), AllocError>
    ensures { OnOk result (string_bytes text.new ≡ string_bytes text.old ++ operation_label op) }
{
    match Operation::of(op) {
        Some(operation) => text.push_str(operation.word),
        None => write!(text, "operation 0x{op:x}"),
    }
}

fn add_size(text: &mut String, desc: &Descriptor) -> Result<(), AllocError>
    ensures { OnOk result (string_bytes text.new ≡ string_bytes text.old ++ size_text desc.now) }
{
    if desc.is_batch() {
        return add_number(text, " of ", desc.size);
    }
    if desc.is_transfer() {
        return add_count(text, " ", u64::from(desc.size), "byte", "bytes");
    }
    Ok(())
}

fn add_fence(text: &mut String, desc: &Descriptor) -> Result<(), AllocError>
    ensures { OnOk result (string_bytes text.new ≡ string_bytes text.old ++ fence_text desc.now) }
{
    if desc.is_fenced() {
        text.push_str(" fence")?;
    }
    Ok(())
}

/// Adds the words of a descriptor.
pub fn add_descriptor(text: &mut String, desc: &Descriptor) -> Result<(), AllocError>
    ensures { OnOk result
        (string_bytes text.new ≡ string_bytes text.old ++ descriptor_text desc.now) }
{
    add_operation(text, desc.op)?;
    add_size(text, desc)?;
    add_fence(text, desc)
}
