//! Tables of strings, also of strings that have one place, so that all are one chain.

use dsa_seen::{Inserted, Seen};
use std::alloc::{AllocError, Global};

#[test]
fn strings_have_the_numbers_of_their_order(rt: HostRuntime) -> Result<(), AllocError> {
    let mut seen = Seen::new(rt.alloc(), 3, 4)?;
    assert_eq!(rt; seen.insert(b"abc"), Inserted::New(0));
    assert_eq!(rt; seen.insert(b"abcd"), Inserted::New(1));
    assert_eq!(rt; seen.insert(b"abc"), Inserted::Old(0));
    assert_eq!(rt; seen.insert(b""), Inserted::New(2));
    assert_eq!(rt; seen.insert(b"abcd"), Inserted::Old(1));
    assert_eq!(rt; seen.len(), 3);
    Ok(())
}

#[test]
fn a_table_may_be_full(rt: HostRuntime) -> Result<(), AllocError> {
    let mut seen = Seen::new(rt.alloc(), 1, 4)?;
    assert_eq!(rt; seen.insert(b"abcde"), Inserted::TooLong);
    assert_eq!(rt; seen.insert(b"abcd"), Inserted::New(0));
    assert_eq!(rt; seen.insert(b"abce"), Inserted::Full);
    assert_eq!(rt; seen.insert(b"abcde"), Inserted::TooLong);
    assert_eq!(rt; seen.insert(b"abcd"), Inserted::Old(0));
    Ok(())
}

#[test]
fn a_table_may_be_for_nothing(rt: HostRuntime) -> Result<(), AllocError> {
    let mut none = Seen::new(rt.alloc(), 0, 4)?;
    assert_eq!(rt; none.insert(b""), Inserted::Full);
    let mut empty = Seen::new(rt.alloc(), 2, 0)?;
    assert_eq!(rt; empty.insert(b"a"), Inserted::TooLong);
    assert_eq!(rt; empty.insert(b""), Inserted::New(0));
    assert_eq!(rt; empty.insert(b""), Inserted::Old(0));
    Ok(())
}

#[test]
fn a_string_is_read_again(rt: HostRuntime) -> Result<(), AllocError> {
    let mut seen = Seen::new(rt.alloc(), 2, 4)?;
    seen.insert(b"ab");
    seen.insert(b"abcd");
    if seen.len() == 2 {
        assert!(rt; seen.get(0) == b"ab".as_slice());
        assert!(rt; seen.get(1) == b"abcd".as_slice());
    }
    Ok(())
}

// Inserts these numbers twice, each with so many bytes: each is new once.
fn are_seen_once(mut seen: Seen, numbers: &[u32]) -> bool {
    let mut place: u32 = 0;
    for number in numbers {
        if seen.insert(&number.to_le_bytes()) != Inserted::New(place) {
            return false;
        }
        place = place.wrapping_add(1);
    }
    are_old(&mut seen, numbers)
}

// Inserts these numbers, each of which is there, in this order.
fn are_old(seen: &mut Seen, numbers: &[u32]) -> bool {
    let mut place: u32 = 0;
    for number in numbers {
        if seen.insert(&number.to_le_bytes()) != Inserted::Old(place) {
            return false;
        }
        place = place.wrapping_add(1);
    }
    seen.len() == place
}

#[test]
fn a_hundred_thousand_strings(rt: HostRuntime) -> Result<(), AllocError> {
    let mut numbers = Vec::new(rt.alloc());
    for number in 0..100_000 {
        numbers.push(number)?;
    }
    let seen = Seen::new(rt.alloc(), 100_000, 60)?;
    assert!(rt; are_seen_once(seen, numbers.as_slice()));
    Ok(())
}

// The place of a number among so many, by FNV-1a with 32 bits.
fn place_of(number: u32, places: u32) -> u32 {
    let mut hash: u32 = 2_166_136_261;
    for byte in number.to_le_bytes().iter() {
        hash = (hash ^ u32::from(*byte)).wrapping_mul(16_777_619);
    }
    hash.checked_rem(places).unwrap_or(0)
}

// The numbers below a million that have the first place among so many, at most as many.
fn numbers_of_one_place(alloc: Global, places: u32) -> Result<Vec<u32>, AllocError> {
    let mut numbers = Vec::new(alloc);
    for number in 0..1_000_000 {
        if place_of(number, places) == 0 && numbers.len() < places as usize {
            numbers.push(number)?;
        }
    }
    Ok(numbers)
}

#[test]
fn strings_of_one_place(rt: HostRuntime) -> Result<(), AllocError> {
    let numbers = numbers_of_one_place(rt.alloc(), 500)?;
    assert_eq!(rt; numbers.len(), 500);
    let seen = Seen::new(rt.alloc(), 500, 4)?;
    assert!(rt; are_seen_once(seen, numbers.as_slice()));
    Ok(())
}
