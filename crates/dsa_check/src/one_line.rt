//! What is wrong with one line that is no JSON, outside a document.

ghost use Rattle.std.specs.Prelude.{OnOk, string_bytes};
ghost use Rattle.dsa_check.specs.{Findings.{Appends}, OneLine.{IsFlawText}};

use crate::judge::flaw_of;
use crate::report::add_known;
use std::alloc::{AllocError, Global};
use std::fmt::Write;

/// Adds the column of the first place where the line is no JSON, and what is wrong there.
pub fn add_flaw(alloc: Global, text: &mut String, line: &[u8]) -> Result<(), AllocError>
    ensures { OnOk result
        (Appends (IsFlawText line.now) (string_bytes text.old) (string_bytes text.new)) }
{
    let (spot, reasons) = flaw_of(alloc, line)?;
    let column = spot.column;
    write!(text, "column {column}: ")?;
    add_known(text, reasons.first())
}
