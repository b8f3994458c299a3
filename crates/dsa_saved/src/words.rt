//! Numbers of 32 bits as bytes, the least byte first.

ghost use Rattle.std.specs.Prelude.{◌≡◌, ◌*◌, ◌/◌, ◌%◌, ◌+◌, ◌^◌, ◌↔◌, IsTrue, length};
ghost use Rattle.dsa_saved.specs.Words.{bytes_of_words, words_of};

use byteorder::{ByteOrder, LittleEndian};

/// The words as bytes, which say these words.
pub(crate) fn bytes_of<const M: usize>(words: &[u32]) -> [u8; M]
    requires { M ≡ 4 * length words.now }
    ensures bytes { result ≡ bytes_of_words words.now }
    ensures read { words_of (length words.now) result ≡ words.now }
{
    let mut bytes = [0; M];
    LittleEndian::write_u32_into(words, &mut bytes);
    bytes
}

/// The words that the bytes say.
pub(crate) fn words_of<const N: usize>(bytes: &[u8]) -> [u32; N]
    requires { length bytes.now ≡ 4 * N }
    ensures { result ≡ words_of N bytes.now }
{
    let mut words = [0; N];
    LittleEndian::read_u32_into(bytes, &mut words);
    words
}

/// The low byte of a word.
pub(crate) fn low_byte(word: u32) -> u8
    ensures { result ≡ word % 2 ^ 8 }
{
    (word & 0xff) as u8
}

/// The low half of a word.
pub(crate) fn low_half(word: u32) -> u16
    ensures { result ≡ word % 2 ^ 16 }
{
    (word & 0xffff) as u16
}

/// The low word of 64 bits.
pub(crate) fn low_word(bits: u64) -> u32
    ensures { result ≡ bits % 2 ^ 32 }
{
    (bits & 0xffff_ffff) as u32
}

/// The high word of 64 bits.
pub(crate) fn high_word(bits: u64) -> u32
    ensures { result ≡ bits / 2 ^ 32 }
{
    (bits >> 32) as u32
}

/// The 64 bits of two words.
pub(crate) fn both_words(low: u32, high: u32) -> u64
    ensures { result ≡ low + 2 ^ 32 * high }
{
    u64::from(low) + (u64::from(high) << 32)
}

/// Whether the bytes are the same.
pub(crate) fn is_same(bytes: &[u8], others: &[u8]) -> bool
    ensures { IsTrue result ↔ (bytes.now ≡ others.now) }
{
    bytes == others
}
