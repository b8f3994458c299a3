//! Whole numbers without sign, as a JSON text writes them.

ghost use Rattle.std.specs.Prelude.{◌≡◌, ◌==◌, slice_index, Some, IfSome, option_and_then};
ghost use Rattle.serde_json.specs.{Data.{unsigned}, Find.{as_u64}, Read.{number_of}};

use fast_float::Numeral;

#[inline(always)]
fn has_minus(bytes: &[u8]) -> bool
    ensures { result ≡ (slice_index bytes.now 0 == 45) }
{
    !bytes.is_empty() && bytes[0] == b'-'
}

// The number of these bytes, where they are digits and at most 19.
#[inline(always)]
fn number_of_digits(bytes: &[u8]) -> Option<u64>
    ensures { IfSome result (λ n. number_of bytes.now ≡ Some (unsigned n)) }
{
    if bytes.is_empty() || bytes.len() > 19 {
        return None;
    }
    let mut number = 0;
    for byte in bytes {
        if !byte.is_ascii_digit() {
            return None;
        }
        number = number * 10 + (*byte - b'0') as u64;
    }
    Some(number)
}

// The number of these bytes, where it is whole and without sign.
#[cold]
fn number_of_others(bytes: &[u8]) -> Option<u64>
    ensures { result ≡ option_and_then as_u64 (number_of bytes.now) }
{
    if has_minus(bytes) {
        return None;
    }
    Numeral::scan(bytes).to_u64()
}

/// The number of this text, where it is whole and without sign.
#[inline(always)]
pub fn whole_number(text: &str) -> Option<u64>
    ensures { result ≡ option_and_then as_u64 (number_of text.now) }
{
    let bytes = text.as_bytes();
    if let Some(number) = number_of_digits(bytes) {
        return Some(number);
    }
    number_of_others(bytes)
}
