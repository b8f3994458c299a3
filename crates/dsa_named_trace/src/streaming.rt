//! What reads a document and writes its trace, with own names, while the run is made.

ghost use Rattle.std.specs.Prelude.{◌≡◌, ◌≢◌, ◌⊎◌, ◌≤◌, ◌+◌, ℕ, List, None, map, IfErr, OnOk, IsErrOf};
ghost use Rattle.serde_json.specs.View.{view};
ghost use Rattle.dsa_scenario.specs.Counted.{counted_remaining, asked_of, IsReadFor};
ghost use Rattle.dsa_scenario.specs.declared.faults.ScenarioFault.{ScenarioFault};
ghost use Rattle.dsa_scenario.specs.Document.{HasHead, IsFaultOf, IsFaultOfHead};
ghost use Rattle.dsa_scenario.specs.Scenario.{HasFault, IsTextWritten, IsTextCutShort};
ghost use Rattle.dsa_scenario.specs.Streams.{IsTextAdded, IsTextCut};
ghost use Rattle.dsa_scenario.specs.Watched.{watched_contents, IsWrittenFor};
ghost use Rattle.dsa_named_trace.specs.Run.{IsNamedTrace};
ghost use Rattle.dsa_named_trace.specs.Streams.{AreNamedLinesOfStart, IsNamedTraceBegun};

use crate::reading::read_bytes;
use crate::rendering::NamedTrace;
use crate::walking::walk_on;
use dsa_cells::LinkedStore;
use dsa_named::RenderNamed;
use dsa_scenario::{
    CountedReader, Head, MAX_READS, Run, ScenarioFault, Streamed, WatchedWriter, open_run,
    parse_head, parse_json, read_actions, write_text,
};
use dsa_trace::Trace;
use std::alloc::Global;
use std::io::{Read, Write};

// Runs a document of this head, and writes its trace, the lines of the steps while these are made.
// All step objects are read before the first step is made.
fn stream_head<W: Write>(
    alloc: Global,
    what: NamedTrace,
    head: &Head<'_>,
    writer: &mut WatchedWriter<'_, W>,
) -> Result<(), ScenarioFault>
    ensures writer { IsWrittenFor result writer.old writer.new }
    ensures ok { OnOk result
        ((bytes : List ℕ)
        → HasHead bytes head.now.caps head.now.capacity (map view head.now.steps.now)
        → IsTextAdded (IsNamedTrace what.form bytes)
        (watched_contents W.contents writer.old) (watched_contents W.contents writer.new)) }
    ensures nothing { IfErr result
        (λ e. e ≢ ScenarioFault.Write → e ≢ ScenarioFault.OutOfMemory → writer.new ≡ writer.old) }
    ensures part { IsErrOf result ScenarioFault.Write
        → (bytes : List ℕ)
        → HasHead bytes head.now.caps head.now.capacity (map view head.now.steps.now)
        → IsTextCut (IsNamedTraceBegun what.form bytes None)
        (watched_contents W.contents writer.old) (watched_contents W.contents writer.new) }
    ensures lines { IsErrOf result ScenarioFault.OutOfMemory
        → (bytes : List ℕ)
        → HasHead bytes head.now.caps head.now.capacity (map view head.now.steps.now)
        → (writer.new ≡ writer.old)
        ⊎ IsTextAdded (AreNamedLinesOfStart what.form bytes)
        (watched_contents W.contents writer.old) (watched_contents W.contents writer.new) }

    // Any other fault than of writing and of memory is the document's.
    ensures document { IfErr result
        (λ e. (e ≡ ScenarioFault.Write)
        ⊎ (e ≡ ScenarioFault.OutOfMemory)
        ⊎ IsFaultOfHead head.now.caps head.now.capacity (map view head.now.steps.now) e) }
{
    let actions = read_actions(alloc, head.steps)?;
    let mut run: Run<LinkedStore> = open_run(alloc, head)?;
    let page = walk_on(alloc, what, &mut run, head.steps, &actions, writer)?;
    let text = what.finish(alloc, page.page, &run.device)?;
    write_text(writer, text.as_bytes())
}

// Runs the document in these bytes, and writes its trace, the lines of the steps while these are
// made.
fn stream_bytes<W: Write>(
    alloc: Global,
    what: NamedTrace,
    bytes: &[u8],
    writer: &mut WatchedWriter<'_, W>,
) -> Streamed
    ensures writer { IsWrittenFor result writer.old writer.new }
    ensures ok { OnOk result
        (IsTextAdded (IsNamedTrace what.form bytes.now)
        (watched_contents W.contents writer.old) (watched_contents W.contents writer.new)) }
    ensures nothing { IfErr result
        (λ e. e ≢ ScenarioFault.Write → e ≢ ScenarioFault.OutOfMemory → writer.new ≡ writer.old) }
    ensures part { IsErrOf result ScenarioFault.Write
        → IsTextCut (IsNamedTraceBegun what.form bytes.now None)
        (watched_contents W.contents writer.old) (watched_contents W.contents writer.new) }
    ensures lines { IsErrOf result ScenarioFault.OutOfMemory
        → (writer.new ≡ writer.old)
        ⊎ IsTextAdded (AreNamedLinesOfStart what.form bytes.now)
        (watched_contents W.contents writer.old) (watched_contents W.contents writer.new) }

    // Any other fault than of writing and of memory is the document's.
    ensures document { IfErr result
        (λ e. (e ≡ ScenarioFault.Write) ⊎ (e ≡ ScenarioFault.OutOfMemory) ⊎ IsFaultOf bytes.now e) }
{
    let value = parse_json(alloc, bytes)?;
    let Some(head) = parse_head(&value) else {
        return Err(ScenarioFault::BadDocument);
    };
    stream_head(alloc, what, &head, writer)?;
    Ok(value)
}

/// Reads one document to the end of input, runs it and writes its trace with own names, by at most
/// [`MAX_READS`] reads. The lines of the steps are written while these are made. It gives what is
/// still held: a program that ends then can leave its memory to the system.
///
/// All of the document is read and checked before the first byte is written. On `Write` the writer
/// has got a proper prefix of the trace, or of the lines of its first steps. On `OutOfMemory` it
/// has got the whole lines of the first steps, or nothing. On any other fault it was not asked for
/// anything.
pub fn stream_trace_counted<R: Read, W: Write>(
    alloc: Global,
    form: Trace,
    reader: &mut CountedReader<'_, R>,
    writer: &mut WatchedWriter<'_, W>,
) -> Streamed
    ensures reader { IsReadFor R.remaining result reader.old reader.new }
    ensures writer { IsWrittenFor result writer.old writer.new }
    ensures reads { asked_of reader.new ≤ asked_of reader.old + MAX_READS }
    ensures ok { OnOk result
        (IsTextWritten (IsNamedTrace form)
        (counted_remaining R.remaining reader.old) (counted_remaining R.remaining reader.new)
        (watched_contents W.contents writer.old) (watched_contents W.contents writer.new)) }

    // Only `Write` and `OutOfMemory` may have written, and then the first lines.
    ensures nothing { IfErr result
        (λ e. e ≢ ScenarioFault.Write → e ≢ ScenarioFault.OutOfMemory → writer.new ≡ writer.old) }
    ensures prefix { IsErrOf result ScenarioFault.Write
        → IsTextCutShort (IsNamedTraceBegun form)
        (counted_remaining R.remaining reader.old) (counted_remaining R.remaining reader.new)
        (watched_contents W.contents writer.old) (watched_contents W.contents writer.new) }
    ensures lines { IsErrOf result ScenarioFault.OutOfMemory
        → (writer.new ≡ writer.old)
        ⊎ IsTextWritten (AreNamedLinesOfStart form)
        (counted_remaining R.remaining reader.old) (counted_remaining R.remaining reader.new)
        (watched_contents W.contents writer.old) (watched_contents W.contents writer.new) }
    ensures fault { IfErr result (HasFault (counted_remaining R.remaining reader.old)
        (counted_remaining R.remaining reader.new)) }
{
    let bytes = read_bytes(alloc, reader)?;
    stream_bytes(alloc, NamedTrace { form }, &bytes, writer)
}

/// Reads one document to the end of input, runs it and writes its trace with own names, the lines
/// of the steps while these are made.
///
/// All of it is the work of [`stream_trace_counted`], which is lent the reader as one that is
/// counted.
pub fn stream_trace<R: Read, W: Write>(
    alloc: Global,
    form: Trace,
    reader: &mut R,
    writer: &mut WatchedWriter<'_, W>,
) -> Streamed
    ensures writer { IsWrittenFor result writer.old writer.new }
    ensures ok { OnOk result
        (IsTextWritten (IsNamedTrace form)
        (R.remaining reader.old) (R.remaining reader.new)
        (watched_contents W.contents writer.old) (watched_contents W.contents writer.new)) }

    // Only `Write` and `OutOfMemory` may have written, and then the first lines.
    ensures nothing { IfErr result
        (λ e. e ≢ ScenarioFault.Write → e ≢ ScenarioFault.OutOfMemory → writer.new ≡ writer.old) }
    ensures prefix { IsErrOf result ScenarioFault.Write
        → IsTextCutShort (IsNamedTraceBegun form)
        (R.remaining reader.old) (R.remaining reader.new)
        (watched_contents W.contents writer.old) (watched_contents W.contents writer.new) }
    ensures lines { IsErrOf result ScenarioFault.OutOfMemory
        → (writer.new ≡ writer.old)
        ⊎ IsTextWritten (AreNamedLinesOfStart form)
        (R.remaining reader.old) (R.remaining reader.new)
        (watched_contents W.contents writer.old) (watched_contents W.contents writer.new) }
    ensures fault { IfErr result (HasFault (R.remaining reader.old) (R.remaining reader.new)) }
{
    stream_trace_counted(alloc, form, &mut CountedReader::new(reader), writer)
}
