//! What a test claims.

use std::fmt::Debug;
use std::process::Abort;

/// Ends the test with the claim where it does not hold.
pub fn is_so(rt: &impl Abort, holds: bool, claim: &str) {
    assert!(rt; holds, "{claim}");
}

/// Ends the test with both values where they differ.
pub fn are_same<T: PartialEq + Debug>(
    rt: &impl Abort,
    found: &T,
    wanted: &T,
    what: &str,
    row: u64,
) {
    if *found != *wanted {
        panic!(rt; "{what} is {found:?}, and not {wanted:?}, at row {row}");
    }
}
