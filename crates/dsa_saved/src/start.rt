//! The start of a saved device: what comes before its records, and its checksum.

ghost use Rattle.std.specs.Prelude.{◌≡◌, ◌≤◌, ◌-◌, take, drop, length, IfSome, IfNone};
ghost use Rattle.dsa_saved.specs.Faults.{body_in, start_in, records_in, header_in, HasStart, IsHeaderRead, IsLoadFault};

use crate::LoadFault;
use crate::header::{caps_of_words, header_bytes};
use crate::words::{is_same, words_of};
use dsa_regs::check_caps;
use sha2::{Digest, Sha256};

/// The bytes of a saved device without records.
const LEAST: usize = 84;

/// The bytes of a checksum.
const CHECKSUM: usize = 32;

/// The bytes of the magic word.
const MAGIC: usize = 8;

/// The bytes before the records.
const START: usize = 52;

/// The bytes of a record.
const RECORD: usize = 44;

/// The most steps that a history may have room for.
const MAX_CAPACITY: u32 = 1_048_576;

// All but the checksum.
fn body_of(bytes: &[u8]) -> &[u8]
    requires { 84 ≤ length bytes.now }
    ensures { result.now ≡ body_in bytes.now }
{
    bytes.split_at(bytes.len() - CHECKSUM).0
}

fn checksum_of(bytes: &[u8]) -> &[u8]
    requires { 84 ≤ length bytes.now }
    ensures { result.now ≡ drop (length bytes.now - 32) bytes.now }
{
    bytes.split_at(bytes.len() - CHECKSUM).1
}

/// The records.
pub(crate) fn records_of(bytes: &[u8]) -> &[u8]
    requires { 84 ≤ length bytes.now }
    ensures { result.now ≡ records_in bytes.now }
{
    body_of(bytes).split_at(START).1
}

fn magic_of(bytes: &[u8]) -> &[u8]
    requires { 84 ≤ length bytes.now }
    ensures { result.now ≡ take 8 (start_in bytes.now) }
{
    body_of(bytes).split_at(START).0.split_at(MAGIC).0
}

fn header_of(bytes: &[u8]) -> &[u8]
    requires { 84 ≤ length bytes.now }
    ensures value { result.now ≡ drop 8 (start_in bytes.now) }
    ensures size { length result.now ≡ 44 }
{
    body_of(bytes).split_at(START).0.split_at(MAGIC).1
}

/// The words of the header.
pub(crate) fn header_words_of(bytes: &[u8]) -> [u32; 11]
    requires { 84 ≤ length bytes.now }
    ensures { result ≡ header_in bytes.now }
{
    words_of(header_of(bytes))
}

/// The first that the bytes do not have of what the start of a saved device has.
pub(crate) fn start_fault(bytes: &[u8]) -> Option<LoadFault>
    ensures fault { IfSome result (λ fault. IsLoadFault fault bytes.now) }
    ensures none { IfNone result (HasStart bytes.now) }
    ensures again { IfNone result (IsHeaderRead bytes.now) }
{
    if bytes.len() < LEAST {
        return Some(LoadFault::Truncated);
    }
    if !is_same(magic_of(bytes), b"DSASAVED") {
        return Some(LoadFault::BadMagic);
    }
    let words = header_words_of(bytes);
    if words[0] != 1 {
        return Some(LoadFault::BadVersion);
    }
    if records_of(bytes).len() != RECORD * words[10] as usize {
        return Some(LoadFault::BadLength);
    }
    if !is_same(&Sha256::digest(body_of(bytes)), checksum_of(bytes)) {
        return Some(LoadFault::BadChecksum);
    }
    let caps = caps_of_words(&words);
    let written = header_bytes(caps, words[9], words[10]);
    if !is_same(&written, header_of(bytes)) {
        return Some(LoadFault::BadCaps);
    }
    if !check_caps(&caps) {
        return Some(LoadFault::BadCaps);
    }
    if words[9] > MAX_CAPACITY {
        return Some(LoadFault::BadCapacity);
    }
    None
}
