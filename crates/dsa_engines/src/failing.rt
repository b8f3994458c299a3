//! Which member of a batch failed first.

ghost use Rattle.std.specs.Prelude.{◌≡◌, find};
ghost use Rattle.dsa_engines.specs.Batch.{is_failed_in, is_failure};

use dsa_book::{Fate, FateRow};
use dsa_desc::completion::DSA_COMP_SUCCESS;

// Whether an engine ended the entry with another status than success.
fn is_failure(fate: Fate) -> bool
    ensures { result ≡ is_failure fate }
{
    match fate {
        Fate::Completed(status) => status != DSA_COMP_SUCCESS,
        _ => false,
    }
}

// Whether the row is of a member of that batch which was not successful.
fn is_failed_in(batch: u32, row: &FateRow) -> bool
    ensures { result ≡ is_failed_in batch row.now }
{
    match row.parent {
        Some(parent) => parent == batch && is_failure(row.fate),
        None => false,
    }
}

/// The first row of a member of that batch which was not successful.
pub(crate) fn first_failed(rows: &[FateRow], batch: u32) -> Option<FateRow>
    ensures { result ≡ find (is_failed_in batch) rows.now }
{
    rows.iter().copied().find(|row| is_failed_in(batch, row))
}
