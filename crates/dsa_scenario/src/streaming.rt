//! What reads a document and writes a text of its run while the run is made.

ghost use Rattle.std.specs.Prelude.{◌≡◌, ◌≢◌, ◌⊎◌, ◌≤◌, ◌+◌, ℕ, List, None, map, IfErr, OnOk, IsErrOf};
ghost use Rattle.serde_json.specs.View.{view};
ghost use Rattle.dsa_scenario.specs.Counted.{counted_remaining, asked_of, IsReadFor};
ghost use Rattle.dsa_scenario.specs.declared.faults.ScenarioFault.{ScenarioFault};
ghost use Rattle.dsa_scenario.specs.Document.{HasHead, IsFaultOf, IsFaultOfHead};
ghost use Rattle.dsa_scenario.specs.Scenario.{HasFault, IsTextWritten, IsTextCutShort};
ghost use Rattle.dsa_scenario.specs.Steps.{IsTextOfDocument};
ghost use Rattle.dsa_scenario.specs.Streams.{AreLinesOfStart, IsTextAdded, IsTextBegun, IsTextCut};
ghost use Rattle.dsa_scenario.specs.Watched.{watched_contents, IsWrittenFor};

use crate::counted::CountedReader;
use crate::document::{Head, check_steps, parse_head, parse_json};
use crate::faults::ScenarioFault;
use crate::opening::{Run, open_run};
use crate::reading::{MAX_READS, read_document};
use crate::sinks::StreamSteps;
use crate::watched::WatchedWriter;
use crate::writing::write_text;
use dsa_cells::LinkedStore;
use serde_json::Value;
use std::alloc::Global;
use std::io::{Read, Write};

/// What comes of writing a text of a document: the value of the document, which is still held.
pub type Streamed = Result<Value, ScenarioFault>;

// Runs a document of this head, and writes what `what` makes of the run, the lines of the steps
// while these are made. All step objects are checked before the first step is made.
fn stream_head<D: StreamSteps, W: Write>(
    alloc: Global,
    what: &D,
    head: &Head<'_>,
    writer: &mut WatchedWriter<'_, W>,
) -> Result<(), ScenarioFault>
    ensures writer { IsWrittenFor result writer.old writer.new }
    ensures ok { OnOk result
        ((bytes : List ℕ)
        → HasHead bytes head.now.caps head.now.capacity (map view head.now.steps.now)
        → IsTextAdded (IsTextOfDocument (D.is_text what.now) bytes)
        (watched_contents W.contents writer.old) (watched_contents W.contents writer.new)) }
    ensures nothing { IfErr result
        (λ e. e ≢ ScenarioFault.Write → e ≢ ScenarioFault.OutOfMemory → writer.new ≡ writer.old) }
    ensures part { IsErrOf result ScenarioFault.Write
        → (bytes : List ℕ)
        → HasHead bytes head.now.caps head.now.capacity (map view head.now.steps.now)
        → IsTextCut (IsTextBegun (D.is_text what.now) (D.line what.now) bytes None)
        (watched_contents W.contents writer.old) (watched_contents W.contents writer.new) }
    ensures lines { IsErrOf result ScenarioFault.OutOfMemory
        → (bytes : List ℕ)
        → HasHead bytes head.now.caps head.now.capacity (map view head.now.steps.now)
        → (writer.new ≡ writer.old)
        ⊎ IsTextAdded (AreLinesOfStart (D.line what.now) bytes)
        (watched_contents W.contents writer.old) (watched_contents W.contents writer.new) }

    // Any other fault than of writing and of memory is the document's.
    ensures document { IfErr result
        (λ e. (e ≡ ScenarioFault.Write)
        ⊎ (e ≡ ScenarioFault.OutOfMemory)
        ⊎ IsFaultOfHead head.now.caps head.now.capacity (map view head.now.steps.now) e) }
{
    check_steps(head.steps)?;
    let mut run: Run<LinkedStore> = open_run(alloc, head)?;
    let mut page = what.open(alloc);
    run.walk_into(alloc, what, &mut page, writer, head.steps)?;
    let text = what.finish(alloc, page, &run.device)?;
    write_text(writer, text.as_bytes())
}

// Runs the document in these bytes, and writes what `what` makes of the run, the lines of the steps
// while these are made.
fn stream_steps<D: StreamSteps, W: Write>(
    alloc: Global,
    what: &D,
    bytes: &[u8],
    writer: &mut WatchedWriter<'_, W>,
) -> Streamed
    ensures writer { IsWrittenFor result writer.old writer.new }
    ensures ok { OnOk result
        (IsTextAdded (IsTextOfDocument (D.is_text what.now) bytes.now)
        (watched_contents W.contents writer.old) (watched_contents W.contents writer.new)) }
    ensures nothing { IfErr result
        (λ e. e ≢ ScenarioFault.Write → e ≢ ScenarioFault.OutOfMemory → writer.new ≡ writer.old) }
    ensures part { IsErrOf result ScenarioFault.Write
        → IsTextCut (IsTextBegun (D.is_text what.now) (D.line what.now) bytes.now None)
        (watched_contents W.contents writer.old) (watched_contents W.contents writer.new) }
    ensures lines { IsErrOf result ScenarioFault.OutOfMemory
        → (writer.new ≡ writer.old)
        ⊎ IsTextAdded (AreLinesOfStart (D.line what.now) bytes.now)
        (watched_contents W.contents writer.old) (watched_contents W.contents writer.new) }

    // Any other fault than of writing and of memory is the document's.
    ensures document { IfErr result
        (λ e. (e ≡ ScenarioFault.Write) ⊎ (e ≡ ScenarioFault.OutOfMemory) ⊎ IsFaultOf bytes.now e) }
{
    let value = parse_json(alloc, bytes)?;
    let Some(head) = parse_head(&value) else {
        return Err(ScenarioFault::BadDocument);
    };
    stream_head(alloc, what, &head, writer)?;
    Ok(value)
}

/// Reads one document to the end of input, runs it and writes what `what` makes of the run, by at
/// most [`MAX_READS`] reads. The lines of the steps are written while these are made. It gives what
/// is still held: a program that ends then can leave its memory to the system.
///
/// All of the document is read and checked before the first byte is written. On `Write` the writer
/// has got a proper prefix of the text of the run, or of the lines of its first steps. On
/// `OutOfMemory` it has got the whole lines of the first steps, or nothing. On any other fault it
/// was not asked for anything.
pub fn stream_counted<D: StreamSteps, R: Read, W: Write>(
    alloc: Global,
    what: &D,
    reader: &mut CountedReader<'_, R>,
    writer: &mut WatchedWriter<'_, W>,
) -> Streamed
    ensures reader { IsReadFor R.remaining result reader.old reader.new }
    ensures writer { IsWrittenFor result writer.old writer.new }
    ensures reads { asked_of reader.new ≤ asked_of reader.old + MAX_READS }
    ensures ok { OnOk result
        (IsTextWritten (IsTextOfDocument (D.is_text what.now))
        (counted_remaining R.remaining reader.old) (counted_remaining R.remaining reader.new)
        (watched_contents W.contents writer.old) (watched_contents W.contents writer.new)) }

    // Only `Write` and `OutOfMemory` may have written, and then the first lines.
    ensures nothing { IfErr result
        (λ e. e ≢ ScenarioFault.Write → e ≢ ScenarioFault.OutOfMemory → writer.new ≡ writer.old) }
    ensures prefix { IsErrOf result ScenarioFault.Write
        → IsTextCutShort (IsTextBegun (D.is_text what.now) (D.line what.now))
        (counted_remaining R.remaining reader.old) (counted_remaining R.remaining reader.new)
        (watched_contents W.contents writer.old) (watched_contents W.contents writer.new) }
    ensures lines { IsErrOf result ScenarioFault.OutOfMemory
        → (writer.new ≡ writer.old)
        ⊎ IsTextWritten (AreLinesOfStart (D.line what.now))
        (counted_remaining R.remaining reader.old) (counted_remaining R.remaining reader.new)
        (watched_contents W.contents writer.old) (watched_contents W.contents writer.new) }
    ensures fault { IfErr result (HasFault (counted_remaining R.remaining reader.old)
        (counted_remaining R.remaining reader.new)) }
{
    let bytes = read_document(alloc, reader)?;
    stream_steps(alloc, what, &bytes, writer)
}

/// Reads one document to the end of input, runs it and writes what `what` makes of the run, the
/// lines of the steps while these are made.
///
/// All of it is the work of [`stream_counted`], which is lent the reader as one that is counted.
pub fn stream_input<D: StreamSteps, R: Read, W: Write>(
    alloc: Global,
    what: &D,
    reader: &mut R,
    writer: &mut WatchedWriter<'_, W>,
) -> Streamed
    ensures writer { IsWrittenFor result writer.old writer.new }
    ensures ok { OnOk result
        (IsTextWritten (IsTextOfDocument (D.is_text what.now))
        (R.remaining reader.old) (R.remaining reader.new)
        (watched_contents W.contents writer.old) (watched_contents W.contents writer.new)) }

    // Only `Write` and `OutOfMemory` may have written, and then the first lines.
    ensures nothing { IfErr result
        (λ e. e ≢ ScenarioFault.Write → e ≢ ScenarioFault.OutOfMemory → writer.new ≡ writer.old) }
    ensures prefix { IsErrOf result ScenarioFault.Write
        → IsTextCutShort (IsTextBegun (D.is_text what.now) (D.line what.now))
        (R.remaining reader.old) (R.remaining reader.new)
        (watched_contents W.contents writer.old) (watched_contents W.contents writer.new) }
    ensures lines { IsErrOf result ScenarioFault.OutOfMemory
        → (writer.new ≡ writer.old)
        ⊎ IsTextWritten (AreLinesOfStart (D.line what.now))
        (R.remaining reader.old) (R.remaining reader.new)
        (watched_contents W.contents writer.old) (watched_contents W.contents writer.new) }
    ensures fault { IfErr result (HasFault (R.remaining reader.old) (R.remaining reader.new)) }
{
    stream_counted(alloc, what, &mut CountedReader::new(reader), writer)
}
