//! The document at the head of an input.

ghost use Rattle.std.specs.Prelude.{◌≡◌, ◌⊎◌, ◌<◌, ◌≤◌, ◌+◌, ◌++◌, true, false, ℕ, Bool, List, Option};
ghost use Rattle.std.specs.Prelude.{length, take, drop, vec_len, IfOk, IfErr, IsErrOf};
ghost use Rattle.std.specs.Io.KnownBytes.{Consumes, IsAtEnd};
ghost use Rattle.dsa_scenario.specs.declared.faults.ScenarioFault.{ScenarioFault};
ghost use Rattle.dsa_serve.specs.Input.{IsFront, IsUnended};
ghost use Rattle.dsa_serve.specs.Dialogue.{IsStoppedWithin};
ghost use Rattle.dsa_scenario.specs.Counted.{counted_remaining, last_given, IsAskedFor, IsReadFor};

use crate::ending::{Inside, end_in};
use crate::requests::MAX_LINE;
use dsa_scenario::{CountedReader, ScenarioFault};
use std::alloc::Global;
use std::io::Read;

/// The document, without the line feed that ended it, and what was read behind that.
#[derive(Drop)]
pub struct Front {
    pub first: Vec<u8>,
    pub behind: Vec<u8>,
    /// The input ended before a line feed did that.
    pub ended: bool,
}

// The document, which ends at this place of the piece, and the rest of the piece.
fn cut(alloc: Global, mut first: Vec<u8>, piece: &[u8], at: usize) -> Result<Front, ScenarioFault>
    requires { at < length piece.now }
    ensures first { IfOk result (λ front. front.first.items ≡ first.items ++ take at piece.now) }
    ensures behind { IfOk result (λ front. front.behind.items ≡ drop (at + 1) piece.now) }
    ensures ended { IfOk result (λ front. front.ended ≡ false) }
    ensures fits { IfOk result (λ front. vec_len front.first ≤ MAX_LINE) }
    ensures faults { IfErr result (λ e. (e ≡ ScenarioFault.OutOfMemory)
        ⊎ ((e ≡ ScenarioFault.TooLong) × (MAX_LINE < length first.items + at))) }
    ensures long { MAX_LINE < length first.items + at → IsErrOf result ScenarioFault.TooLong }
{
    if first.len() + at > MAX_LINE {
        return Err(ScenarioFault::TooLong);
    }
    first.extend_from_slice(&piece[..at])?;
    let behind = Vec::from_slice(alloc, &piece[at + 1..])?;
    Ok(Front {
        first,
        behind,
        ended: false,
    })
}

/// Reads the document, by as many reads as it takes: the line feed that ends it comes with the last
/// of them.
pub fn read_first<R: Read>(
    alloc: Global,
    reader: &mut CountedReader<'_, R>,
    chunk: &mut [u8],
) -> Result<Front, ScenarioFault>
    requires { 0 < length chunk.old }
    ensures reader { IsReadFor R.remaining result reader.old reader.new }
    ensures asked_first { IfOk result
        (λ front. front.ended ≡ false → IsAskedFor R.remaining reader.old reader.new 0) }
    ensures last_read { IfOk result (λ front. front.ended ≡ false
        → length front.behind.items < last_given reader.new) }
    ensures room { IfOk result (λ front. front.ended ≡ false
        → last_given reader.new ≤ length chunk.old) }
    ensures bytes { IfOk result
        (λ front. (input : List ℕ)
        × Consumes (counted_remaining R.remaining reader.old)
        (counted_remaining R.remaining reader.new) input
        × IsUnended front.first.items
        × IsFront front.ended input front.first.items front.behind.items) }
    ensures end { IfOk result
        (λ front. front.ended ≡ true → IsAtEnd (counted_remaining R.remaining reader.new)) }
    ensures fits { IfOk result (λ front. vec_len front.first ≤ MAX_LINE) }
    ensures faults { IfErr result
        (λ e. (e ≡ ScenarioFault.Read)
        ⊎ (e ≡ ScenarioFault.TooLong)
        ⊎ (e ≡ ScenarioFault.OutOfMemory)) }
    ensures stopped { IfErr result
        (λ e. (is_friendly : Bool) (held : Option (List ℕ))
        → IsStoppedWithin is_friendly (length chunk.old) e
        (counted_remaining R.remaining reader.old) (counted_remaining R.remaining reader.new)
        held held) }
{
    let mut first = Vec::new(alloc);
    let mut inside = Inside::Brackets(0);
    'reads: while first.len() <= MAX_LINE {
        let count = reader.read_once(chunk)?;
        if count == 0 {
            return Ok(Front {
                first,
                behind: Vec::new(alloc),
                ended: true,
            });
        }
        let piece = &chunk[..count];
        if let Some(at) = end_in(&mut inside, piece) {
            return Ok(cut(alloc, first, piece, at)?);
        }
        first.extend_from_slice(piece)?;
    }
    Err(ScenarioFault::TooLong)
}
