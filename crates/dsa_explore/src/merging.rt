//! The rows of several walks: each finding once, with the fewest steps.

ghost use Rattle.std.specs.Prelude.{◌≡◌, ℕ, ◌<◌, [], ◌∷◌, Some, IfNone, IfSome, OnOk, length, slice_get, true, false};
ghost use Rattle.dsa_explore.specs.declared.found.Found.{Found};
ghost use Rattle.dsa_explore.specs.Walking.{AreMerged};

use crate::found::{Finding, Found};
use crate::rows::is_row_of;
use std::alloc::AllocError;

// Whether the row at this place has the finding.
fn is_row_at(rows: &[Found], i: usize, finding: &Finding) -> bool
    requires { i < length rows.now }
    ensures same { result ≡ true → IfSome (slice_get rows.now i)
        (λ row. row.finding ≡ finding.now) }
    ensures other { result ≡ false → IfSome (slice_get rows.now i)
        (λ row. row.finding ≡ finding.now → ⊥) }
{
    is_row_of(&rows[i], finding)
}

// The place of the row with the finding.
fn place_of(rows: &[Found], finding: &Finding) -> Option<usize>
    ensures inside { IfSome result (λ i. i < length rows.now) }
    ensures same { IfSome result
        (λ i. IfSome (slice_get rows.now i) (λ row. row.finding ≡ finding.now)) }
    ensures none { IfNone result ((i : ℕ)
        → (row : Found)
        → slice_get rows.now i ≡ Some row
        → row.finding ≡ finding.now
        → ⊥) }
{
    for i in 0..rows.len() {
        if is_row_at(rows, i, finding) {
            return Some(i);
        }
    }
    None
}

// Adds the row, or lowers the steps of the row with its finding.
fn merge_row(rows: &mut Vec<Found>, row: Found) -> Result<(), AllocError>
    ensures { OnOk result (AreMerged rows.old.items (row ∷ []) rows.new.items) }
{
    let Some(i) = place_of(rows.as_slice(), &row.finding) else {
        rows.push(row)?;
        return Ok(());
    };
    if row.steps < rows[i].steps {
        rows[i] = row;
    }
    Ok(())
}

/// Adds these rows. Of two with one finding, that with fewer steps stays.
pub fn merge_rows(rows: &mut Vec<Found>, more: &[Found]) -> Result<(), AllocError>
    ensures { OnOk result (AreMerged rows.old.items more.now rows.new.items) }
{
    for row in more {
        merge_row(rows, *row)?;
    }
    Ok(())
}
