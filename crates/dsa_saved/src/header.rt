//! The header of a saved device, as eleven words, and as bytes.

ghost use Rattle.std.specs.Prelude.{◌≡◌};
ghost use Rattle.dsa_saved.specs.Words.{words_of};
ghost use Rattle.dsa_saved.specs.Format.{header_words, header_bytes};
ghost use Rattle.dsa_saved.specs.Said.{caps_of_words};

use crate::words::{bytes_of, low_byte, low_half};
use dsa_regs::Caps;

/// What the device has, for how many steps its history has room, and how many it has.
fn header_words(caps: Caps, capacity: u32, count: u32) -> [u32; 11]
    ensures words { result ≡ header_words caps capacity count }
    ensures read { caps_of_words (header_words caps capacity count) ≡ caps }
{
    [
        1,
        u32::from(caps.queues),
        u32::from(caps.groups),
        u32::from(caps.engines),
        u32::from(caps.total_size),
        u32::from(caps.read_buffers),
        u32::from(caps.slots),
        u32::from(caps.max_batch_shift),
        u32::from(caps.max_xfer_shift),
        capacity,
        count,
    ]
}

/// The same as bytes.
pub(crate) fn header_bytes(caps: Caps, capacity: u32, count: u32) -> [u8; 44]
    ensures bytes { result ≡ header_bytes caps capacity count }
    ensures words { words_of 11 (header_bytes caps capacity count)
        ≡ header_words caps capacity count }
    ensures read { caps_of_words (header_words caps capacity count) ≡ caps }
{
    let words = header_words(caps, capacity, count);
    bytes_of(&words)
}

/// What the words say that the device has.
pub(crate) fn caps_of_words(words: &[u32; 11]) -> Caps
    ensures { result ≡ caps_of_words words.now }
{
    Caps {
        queues: low_half(words[1]),
        groups: low_half(words[2]),
        engines: low_half(words[3]),
        total_size: low_half(words[4]),
        read_buffers: low_half(words[5]),
        slots: low_half(words[6]),
        max_batch_shift: low_byte(words[7]),
        max_xfer_shift: low_byte(words[8]),
    }
}
