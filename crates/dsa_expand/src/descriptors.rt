//! Descriptors as objects.

ghost use Rattle.std.specs.Prelude.{◌≡◌, ◌≤◌, ◌^◌, false, IfOk, string_bytes};
ghost use Rattle.serde_json.specs.{View.{view}, Find.{as_bool, get}};
ghost use Rattle.dsa_expand.specs.Values.{number_below, or_default};
ghost use Rattle.dsa_expand.specs.Descriptors.{code_called, code_said, descriptor_said};
ghost use Rattle.dsa_expand.specs.Descriptors.{digits_of_descriptor, fields_said, flags_with};
ghost use Rattle.dsa_expand.specs.Descriptors.{has_only_fields, is_field};

use crate::values::number_below;
use dsa_desc::{Descriptor, opcode};
use serde_json::Value;
use std::alloc::{AllocError, Global};

fn code_called(word: &str) -> Option<u8>
    ensures { result ≡ code_called word.now }
{
    match word {
        "no-op" => Some(opcode::DSA_OPCODE_NOOP),
        "batch" => Some(opcode::DSA_OPCODE_BATCH),
        "drain" => Some(opcode::DSA_OPCODE_DRAIN),
        "move" => Some(opcode::DSA_OPCODE_MEMMOVE),
        "fill" => Some(opcode::DSA_OPCODE_MEMFILL),
        "compare" => Some(opcode::DSA_OPCODE_COMPARE),
        _ => None,
    }
}

// An operation code, by its name or by its number.
fn code_said(value: &Value) -> Option<u8>
    ensures { result ≡ code_said (view value.now) }
{
    match value.as_str() {
        Some(word) => code_called(word),
        None => u8::try_from(number_below(256, value)?).ok(),
    }
}

// The number below the limit at the key, or 0 where nothing stands there.
fn number_or_zero(object: &Value, key: &str, limit: u64) -> Option<u32>
    requires { limit ≤ 2 ^ 32 }
    ensures { result ≡ or_default 0 (number_below limit) (get key.now (view object.now)) }
{
    match object.get(key) {
        Some(value) => u32::try_from(number_below(limit, value)?).ok(),
        None => Some(0),
    }
}

// The truth value at the key, or false where nothing stands there.
fn truth_or_false(object: &Value, key: &str) -> Option<bool>
    ensures { result ≡ or_default false as_bool (get key.now (view object.now)) }
{
    match object.get(key) {
        Some(value) => value.as_bool(),
        None => Some(false),
    }
}

fn flags_with(flags: u32, fence: bool) -> u32
    ensures { result ≡ flags_with flags fence }
{
    if fence { flags | 1 } else { flags }
}

// The fields that the object says.
fn fields_said(object: &Value) -> Option<Descriptor>
    ensures { result ≡ fields_said (view object.now) }
{
    let op = code_said(object.get("op")?)?;
    let size = number_or_zero(object, "size", 1 << 32)?;
    let pasid = number_or_zero(object, "pasid", 1 << 20)?;
    let flags = number_or_zero(object, "flags", 1 << 24)?;
    let fence = truth_or_false(object, "fence")?;
    Some(Descriptor {
        pasid,
        flags: flags_with(flags, fence),
        op,
        size,
    })
}

fn is_field(key: &str) -> bool
    ensures { result ≡ is_field key.now }
{
    matches!(key, "op" | "size" | "fence" | "pasid" | "flags" | "note")
}

// Whether all keys of the object are of such an object.
fn has_only_fields(object: &Value) -> bool
    ensures { result ≡ has_only_fields (view object.now) }
{
    let Some(members) = object.as_object() else {
        return true;
    };
    for key in members.keys() {
        if !is_field(key.as_str()) {
            return false;
        }
    }
    true
}

/// The descriptor that an object says, which has no other keys.
pub fn descriptor_said(object: &Value) -> Option<Descriptor>
    ensures { result ≡ descriptor_said (view object.now) }
{
    if !has_only_fields(object) {
        return None;
    }
    fields_said(object)
}

/// The digits of its 64 bytes.
pub fn digits_of(alloc: Global, descriptor: Descriptor) -> Result<String, AllocError>
    ensures { IfOk result (λ text. string_bytes text ≡ digits_of_descriptor descriptor) }
{
    hex::encode(alloc, descriptor.to_bytes().as_slice())
}
