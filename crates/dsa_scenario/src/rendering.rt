//! Ways to make a text of a document, and what reads the document and writes the text around each
//! of them.

ghost use Rattle.std.specs.Prelude.{◌≡◌, ◌≢◌, ◌⊎◌, ◌<◌, ◌≤◌, ◌+◌, List, Option, ℕ, length, take, IfOk, IfErr, IsErrOf, string_bytes};
ghost use Rattle.std.specs.Io.KnownBytes.{Appends};
ghost use Rattle.dsa_scenario.specs.Counted.{counted_remaining, asked_of, IsReadFor};
ghost use Rattle.dsa_scenario.specs.declared.faults.ScenarioFault.{ScenarioFault};
ghost use Rattle.dsa_scenario.specs.Document.{IsFaultOf};
ghost use Rattle.dsa_scenario.specs.Scenario.{HasFault, IsTextWritten, IsTextCutShort};
ghost use Rattle.dsa_scenario.specs.Watched.{watched_contents, IsWrittenFor};

use crate::counted::CountedReader;
use crate::faults::ScenarioFault;
use crate::reading::{MAX_READS, read_document};
use crate::watched::WatchedWriter;
use crate::writing::write_text;
use serde_json::Value;
use std::alloc::Global;
use std::io::{Read, Write};

/// What a document came to.
///
/// The JSON value is dropped last: freeing its many small blocks before the text's large one makes
/// `malloc` merge them.
#[derive(Drop)]
pub struct Rendering {
    pub text: String,
    /// The fault that is told after the text.
    pub fault: Option<ScenarioFault>,
    /// The value of the document, where it is still held.
    pub document: Option<Value>,
}

/// What comes of making a text of a document.
pub type Rendered = Result<Rendering, ScenarioFault>;

/// A way to make a text of a document.
pub trait Render: Drop {
    // the text, and the fault told after it, are what this makes of the bytes
    ghost is_rendering: { Self → List ℕ → Option ScenarioFault → List ℕ → Type 0 };

    /// The text of the document in these bytes, or the document's fault.
    fn render(&self, alloc: Global, bytes: &[u8]) -> Rendered
        ensures ok { IfOk result
            (λ r. is_rendering self.now bytes.now r.fault (string_bytes r.text)) }
        ensures err { IfErr result (λ e. (e ≡ ScenarioFault.OutOfMemory) ⊎ IsFaultOf bytes.now e) };
}

/// Reads one document to the end of input and writes what `what` makes of it, by at most
/// [`MAX_READS`] reads. It gives what it wrote and what is still held: a program that ends then can
/// leave its memory to the system.
///
/// The whole text is made before the first byte is written. The faults come in the order of
/// [`ScenarioFault`]; want of memory comes where it is refused. On `Write` the writer has got a
/// proper prefix of the text, on any other fault it was not asked for anything.
pub fn render_counted<D: Render, R: Read, W: Write>(
    alloc: Global,
    what: &D,
    reader: &mut CountedReader<'_, R>,
    writer: &mut WatchedWriter<'_, W>,
) -> Rendered
    ensures reader { IsReadFor R.remaining result reader.old reader.new }
    ensures writer { IsWrittenFor result writer.old writer.new }
    ensures reads { asked_of reader.new ≤ asked_of reader.old + MAX_READS }
    ensures ok { IfOk result
        (λ r. IsTextWritten (λ bytes text. D.is_rendering what.now bytes r.fault text)
        (counted_remaining R.remaining reader.old)
        (counted_remaining R.remaining reader.new) (watched_contents W.contents writer.old)
        (watched_contents W.contents writer.new)) }

    // Only `Write` may have written, and then some of such a text.
    ensures nothing { IfErr result (λ e. e ≢ ScenarioFault.Write → writer.new ≡ writer.old) }
    ensures prefix { IsErrOf result ScenarioFault.Write → IsTextCutShort (D.is_rendering what.now)
        (counted_remaining R.remaining reader.old) (counted_remaining R.remaining reader.new)
        (watched_contents W.contents writer.old) (watched_contents W.contents writer.new) }

    // `TooLong` is told of more bytes than a document has, and `Read` of an error that came before.
    // A fault of the document is the first that stands.
    ensures fault { IfErr result (HasFault (counted_remaining R.remaining reader.old)
        (counted_remaining R.remaining reader.new)) }
{
    let bytes = read_document(alloc, reader)?;
    write_rendering(alloc, what, &bytes, writer)
}

// Writes what `what` makes of these bytes, and gives it.
fn write_rendering<D: Render, W: Write>(
    alloc: Global,
    what: &D,
    bytes: &[u8],
    writer: &mut WatchedWriter<'_, W>,
) -> Rendered
    ensures writer { IsWrittenFor result writer.old writer.new }
    ensures ok { IfOk result
        (λ r. (text : List ℕ)
        × D.is_rendering what.now bytes.now r.fault text
        × Appends (watched_contents W.contents writer.old)
        (watched_contents W.contents writer.new) text) }

    // Only `Write` may have written, and then some of such a text.
    ensures nothing { IfErr result (λ e. e ≢ ScenarioFault.Write → writer.new ≡ writer.old) }
    ensures prefix { IsErrOf result ScenarioFault.Write
        → (text : List ℕ)
        × (fault : Option ScenarioFault)
        × (count : ℕ)
        × D.is_rendering what.now bytes.now fault text
        × (count < length text)
        × Appends (watched_contents W.contents writer.old)
        (watched_contents W.contents writer.new) (take count text) }

    // Any other fault than of writing and of memory is the document's.
    ensures document { IfErr result
        (λ e. (e ≡ ScenarioFault.Write) ⊎ (e ≡ ScenarioFault.OutOfMemory) ⊎ IsFaultOf bytes.now e) }
{
    let rendering = what.render(alloc, bytes)?;
    write_text(writer, rendering.text.as_bytes())?;
    Ok(rendering)
}

/// Reads one document to the end of input and writes what `what` makes of it. It gives what it
/// wrote and what is still held.
///
/// All of it is the work of [`render_counted`], which is lent the reader as one that is counted.
pub fn render_input<D: Render, R: Read, W: Write>(
    alloc: Global,
    what: &D,
    reader: &mut R,
    writer: &mut WatchedWriter<'_, W>,
) -> Rendered
    ensures writer { IsWrittenFor result writer.old writer.new }
    ensures ok { IfOk result
        (λ r. IsTextWritten (λ bytes text. D.is_rendering what.now bytes r.fault text)
        (R.remaining reader.old) (R.remaining reader.new)
        (watched_contents W.contents writer.old) (watched_contents W.contents writer.new)) }

    // Only `Write` may have written, and then some of such a text.
    ensures nothing { IfErr result (λ e. e ≢ ScenarioFault.Write → writer.new ≡ writer.old) }
    ensures prefix { IsErrOf result ScenarioFault.Write → IsTextCutShort (D.is_rendering what.now)
        (R.remaining reader.old) (R.remaining reader.new)
        (watched_contents W.contents writer.old) (watched_contents W.contents writer.new) }
    ensures fault { IfErr result (HasFault (R.remaining reader.old) (R.remaining reader.new)) }
{
    render_counted(alloc, what, &mut CountedReader::new(reader), writer)
}
