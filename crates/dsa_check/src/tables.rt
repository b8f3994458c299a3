//! The tables of a document beside those of its steps, and laws of all of them: they say what the
//! definitions of the objects say.

ghost use Rattle.std.specs.Prelude.{◌≡◌, ◌&&◌, is_some, IfSome, codes};
ghost use Rattle.serde_json.specs.{Data.{Data}, Find.{get}};
ghost use Rattle.dsa_regs.specs.Caps.{check_caps};
ghost use Rattle.dsa_scenario.specs.{Actions.{action_of, caps_of}, Document.{head_of}};
ghost use Rattle.dsa_check.specs.Reasons.{has_rows, is_step, has_caps};
ghost use Rattle.dsa_check.specs.Tables.{caps_rows, device_rows, document_rows};

use dsa_regs::{
    MAX_BATCH_SHIFT, MAX_ENGINES, MAX_GROUPS, MAX_QUEUES, MAX_READ_BUFFERS, MAX_SLOTS,
    MAX_TOTAL_SIZE, MAX_TRANSFER_SHIFT,
};
use dsa_scenario::{Field, Form, table_of};

// A capability, by the greatest number that its field holds and the numbers of a device (profile).
macro_rules! of_a_document {
    ($field:expr, $least:expr, $most:expr) => {
        Form::Bounded { field: $field, least: $least, most: $most as u64 }
    };
}

// The same, where other numbers than those of a device are no capabilities.
macro_rules! of_a_device {
    ($field:expr, $least:expr, $most:expr) => { Form::Whole { least: $least, most: $most as u64 } };
}

// The table of capabilities.
macro_rules! capabilities {
    ($number:ident) => {
        table_of!(
            "queues": $number!(0xffff, 1, MAX_QUEUES),
            "groups": $number!(0xffff, 1, MAX_GROUPS),
            "engines": $number!(0xffff, 1, MAX_ENGINES),
            "total_size": $number!(0xffff, 1, MAX_TOTAL_SIZE),
            "read_buffers": $number!(0xffff, 1, MAX_READ_BUFFERS),
            "slots": $number!(0xffff, 1, MAX_SLOTS),
            "max_batch_shift": $number!(0xff, 1, MAX_BATCH_SHIFT),
            "max_xfer_shift": $number!(0xff, 0, MAX_TRANSFER_SHIFT)
        )
    };
}

/// The most steps that a history has room for (profile).
pub const MAX_CAPACITY: u64 = 1_048_576;

/// The keys of a document.
pub const DOCUMENT: [Field; 3] = table_of!(
    "caps": Form::Object,
    "capacity": of_a_document!(u64::MAX, 0, MAX_CAPACITY),
    "steps": Form::Array
);

/// The keys of its object `caps`.
pub const CAPS: [Field; 8] = capabilities!(of_a_document);

/// The same, where other numbers than those of a device are no capabilities.
pub const DEVICE_CAPS: [Field; 8] = capabilities!(of_a_device);

/// The capacity that a history may have (profile).
pub const HISTORY_CAPACITY: [Field; 1] =
    table_of!("capacity": of_a_device!(u64::MAX, 0, MAX_CAPACITY));

/// An item of the steps asks something exactly where it has what stands in the table of its kind.
pub fn steps_have_their_rows()
    ensures { (d : Data) → is_some (action_of d) ≡ is_step d }
{}

/// Caps are read exactly where an object has what stands in their table, and a device has them
/// where they have what stands in its own; the head of a document is read where it and its caps
/// have what stands in theirs.
pub fn documents_have_their_rows()
    ensures caps { (d : Data) → is_some (caps_of d) ≡ has_rows d caps_rows }
    ensures device { (d : Data)
        → IfSome (caps_of d) (λ caps. check_caps caps ≡ has_rows d device_rows) }
    ensures head { (d : Data)
        → is_some (head_of d) ≡ (has_rows d document_rows && has_caps (get (codes "caps") d)) }
{}
