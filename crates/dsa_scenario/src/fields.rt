//! Fields of JSON objects, and tables of them.

ghost use Rattle.std.specs.Prelude.{◌≡◌, ◌≤◌, ◌^◌, ◌%◌, ◌/◌, ◌++◌, true, false, drop, length, MatchResult};
ghost use Rattle.serde_json.specs.View.{view};
ghost use Rattle.hex.specs.Hex.{decode_pairs};
ghost use Rattle.dsa_scenario.specs.Fields.{whole_of, truth_of, digits_of, hex_bytes_of};

use crate::objects::Object;
use serde_json::Value;

/// What may stand at a key.
#[derive(Clone, Copy, PartialEq, Eq)]
pub enum Form {
    /// A whole number without sign, from the least to the most.
    Whole { least: u64, most: u64 },
    /// A whole number without sign that the document's field holds, of which a device may have
    /// those from the least to the most.
    Bounded { field: u64, least: u64, most: u64 },
    Truth,
    Text,
    /// A text of hexadecimal digits, which are the bytes of a descriptor.
    Digits,
    Array,
    Object,
}

/// A key that an object is asked for, and what may stand there.
#[derive(Clone, Copy)]
pub struct Field {
    pub name: &'static str,
    pub form: Form,
}

/// A table of keys, each with what may stand there.
#[macro_export]
macro_rules! table_of {
    ($($name:literal: $form:expr),*) => { [$($crate::Field { name: $name, form: $form }),*] };
}

/// The number at the key, where it is whole and without sign.
#[inline(always)]
pub fn u64_at<O: Object>(object: &O, key: &str) -> Option<u64>
    ensures { result ≡ whole_of (2 ^ 64) key.now (O.stands_for object.now) }
{
    object.get(key)?.as_u64()
}

/// Such a number of 32 bits.
#[inline(always)]
pub fn u32_at<O: Object>(object: &O, key: &str) -> Option<u32>
    ensures { result ≡ whole_of (2 ^ 32) key.now (O.stands_for object.now) }
{
    u32::try_from(u64_at(object, key)?).ok()
}

/// Such a number of 16 bits.
#[inline(always)]
pub fn u16_at<O: Object>(object: &O, key: &str) -> Option<u16>
    ensures { result ≡ whole_of (2 ^ 16) key.now (O.stands_for object.now) }
{
    u16::try_from(u64_at(object, key)?).ok()
}

/// Such a number of 8 bits.
#[inline(always)]
pub fn u8_at<O: Object>(object: &O, key: &str) -> Option<u8>
    ensures { result ≡ whole_of (2 ^ 8) key.now (O.stands_for object.now) }
{
    u8::try_from(u64_at(object, key)?).ok()
}

/// The truth value at the key.
#[inline(always)]
pub fn truth_at<O: Object>(object: &O, key: &str) -> Option<bool>
    ensures { result ≡ truth_of key.now (O.stands_for object.now) }
{
    object.get(key)?.as_bool()
}

/// The bytes that the text at the key says.
#[inline(always)]
pub fn digits_at<O: Object>(object: &O, key: &str) -> Option<[u8; 64]>
    ensures { result ≡ digits_of key.now (O.stands_for object.now) }
{
    bytes_of_hex(object.get(key)?.as_str()?)
}

/// The number at the key of this value, where it is whole and without sign.
#[inline(always)]
pub fn u64_field(object: &Value, key: &str) -> Option<u64>
    ensures { result ≡ whole_of (2 ^ 64) key.now (view object.now) }
{
    u64_at(&object, key)
}

// Writes the bytes of a text of hexadecimal digits over the first of `bytes`, and says whether it
// is one.
#[inline(always)]
fn decode_front(text: &str, bytes: &mut [u8]) -> bool
    requires even { length text.now % 2 ≡ 0 }
    requires room { length text.now / 2 ≤ length bytes.old }
    ensures { MatchResult (decode_pairs 0 text.now)
        (λ front. (result ≡ true) × (bytes.new ≡ front ++ drop (length text.now / 2) bytes.old))
        (λ _. result ≡ false) }
{
    hex::decode_to_slice(text, &mut bytes[..text.len() / 2]).is_ok()
}

/// The bytes of a text of hexadecimal digits, with zeros past its end.
pub fn bytes_of_hex(text: &str) -> Option<[u8; 64]>
    ensures { result ≡ hex_bytes_of text.now }
{
    if text.len() % 2 == 1 || text.len() > 128 {
        return None;
    }
    let mut bytes = [0u8; 64];
    if decode_front(text, &mut bytes) {
        Some(bytes)
    } else {
        None
    }
}
