//! Numbers and sets of numbers in JSON.

ghost use Rattle.std.specs.Prelude.{◌≡◌, ◌≤◌, ◌<◌, ◌+◌, ◌^◌, map, IfSome};
ghost use Rattle.serde_json.specs.View.{view};
ghost use Rattle.dsa_expand.specs.Values.{number_below, place_in_set, set_of};

use serde_json::Value;

/// The whole number without sign that this is, where it is below the limit.
pub fn number_below(limit: u64, value: &Value) -> Option<u64>
    ensures number { result ≡ number_below limit (view value.now) }
    ensures below { IfSome result (λ number. number < limit) }
{
    let number = value.as_u64()?;
    if number < limit { Some(number) } else { None }
}

// The place of the number in a set of so many places, the first of which is of this number.
fn place_in_set(first: u64, size: u64, value: &Value) -> Option<u64>
    requires { first + size < 2 ^ 64 }
    ensures place { result ≡ place_in_set first size (view value.now) }
    ensures inside { IfSome result (λ place. place < size) }
{
    number_below(first + size, value)?.checked_sub(first)
}

/// The set of these numbers, which has so many places; bit 0 is of the first number.
pub fn set_of(first: u64, size: u64, numbers: &[Value]) -> Option<u64>
    requires first { first + size < 2 ^ 64 }
    requires size { size ≤ 64 }
    ensures set { result ≡ set_of first size (map view numbers.now) }
    ensures small { IfSome result (λ set. set < 2 ^ size) }
{
    let mut set = 0;
    for number in numbers {
        let place = place_in_set(first, size, number)?;
        set |= 1 << place;
    }
    Some(set)
}
