//! Reading a document.

ghost use Rattle.std.specs.Prelude.{◌≡◌, ◌<◌, ◌≤◌, ◌+◌, ◌⊎◌, ℕ, List, length, vec_len, IfOk, IfErr, IsErrOf};
ghost use Rattle.std.specs.Io.KnownBytes.{IsAtEnd};
ghost use Rattle.dsa_scenario.specs.Counted.{counted_remaining, asked_of, HasGiven, IsReadFor};

use crate::counted::CountedReader;
use crate::faults::ScenarioFault;
use std::alloc::Global;
use std::io::Read;

/// The most bytes that a document has (profile).
pub const MAX_DOCUMENT: usize = 1_048_576;

/// The most reads that are made: each but the last gives a byte.
pub const MAX_READS: u32 = 1_048_577;

const CHUNK: usize = 4096;

/// Reads to the end of input, by at most [`MAX_READS`] reads.
///
/// `Read` is an error of the reader, and `TooLong` says that more than [`MAX_DOCUMENT`] bytes came.
pub fn read_document<R: Read>(
    alloc: Global,
    reader: &mut CountedReader<'_, R>,
) -> Result<Vec<u8>, ScenarioFault>
    ensures reader { IsReadFor R.remaining result reader.old reader.new }
    ensures reads { asked_of reader.new ≤ asked_of reader.old + MAX_READS }
    ensures bytes { IfOk result
        (λ bytes. HasGiven R.remaining reader.old reader.new bytes.items) }
    ensures end { IfOk result (λ bytes. IsAtEnd (counted_remaining R.remaining reader.new)) }
    ensures fits { IfOk result (λ bytes. vec_len bytes ≤ MAX_DOCUMENT) }

    // `TooLong` is told of more bytes than a document has, and `Read` of an error that came before.
    ensures too_long { IsErrOf result ScenarioFault.TooLong → (bytes : List ℕ)
        × HasGiven R.remaining reader.old reader.new bytes
        × (MAX_DOCUMENT < length bytes) }
    ensures read { IsErrOf result ScenarioFault.Read → (bytes : List ℕ)
        × HasGiven R.remaining reader.old reader.new bytes
        × (length bytes ≤ MAX_DOCUMENT) }
    ensures faults { IfErr result
        (λ e. (e ≡ ScenarioFault.Read)
        ⊎ (e ≡ ScenarioFault.TooLong)
        ⊎ (e ≡ ScenarioFault.OutOfMemory)) }
{
    let mut bytes = Vec::new(alloc);
    let mut chunk = [0u8; CHUNK];
    'reads: while bytes.len() <= MAX_DOCUMENT {
        let count = reader.read_once(&mut chunk)?;
        if count == 0 {
            return Ok(bytes);
        }
        bytes.extend_from_slice(&chunk[..count])?;
    }
    Err(ScenarioFault::TooLong)
}
