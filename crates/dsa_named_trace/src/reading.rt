//! Reading a document's bytes.

ghost use Rattle.std.specs.Prelude.{◌≡◌, ◌≢◌, ◌≤◌, ◌+◌, Some, IfErr, IfOk};
ghost use Rattle.dsa_scenario.specs.Counted.{counted_remaining, asked_of, IsReadFor};
ghost use Rattle.dsa_scenario.specs.declared.faults.ScenarioFault.{ScenarioFault};
ghost use Rattle.dsa_scenario.specs.Scenario.{HasFault, IsWholeDocument};

use dsa_scenario::{
    CountedReader, MAX_READS, Render, Rendered, Rendering, ScenarioFault, WatchedWriter,
    render_counted,
};
use std::alloc::Global;
use std::io::{Read, Write};
use std::{io, str};

// The bytes of a document, as a text of it.
#[derive(Clone, Copy, Debug)]
struct Bytes;

impl Render for Bytes {
    ghost is_rendering = { λ whole bytes fault text. text ≡ bytes };

    fn render(&self, alloc: Global, bytes: &[u8]) -> Rendered {
        let Ok(bytes) = str::from_utf8(bytes) else {
            return Err(ScenarioFault::NotJson);
        };
        let mut text = String::new(alloc);
        text.push_str(bytes)?;
        Ok(Rendering {
            text,
            fault: None,
            document: None,
        })
    }
}

// A writer that keeps what is written.
#[derive(Drop)]
struct Keeper {
    bytes: Vec<u8>,
}

impl Write for Keeper {
    ghost contents = { λ keeper. Some keeper.bytes.items };

    fn write(&mut self, buf: &[u8]) -> io::Result<usize> {
        self.bytes.extend_from_slice(buf)?;
        Ok(buf.len())
    }

    fn flush(&mut self) -> io::Result<()> {
        Ok(())
    }
}

/// Reads a document's bytes to the end of input, by at most [`MAX_READS`] reads. A fault is one of
/// reading or of memory, or says that the bytes are no JSON text.
pub fn read_bytes<R: Read>(
    alloc: Global,
    reader: &mut CountedReader<'_, R>,
) -> Result<Vec<u8>, ScenarioFault>
    ensures reader { IsReadFor R.remaining result reader.old reader.new }
    ensures reads { asked_of reader.new ≤ asked_of reader.old + MAX_READS }
    ensures whole { IfOk result
        (λ bytes. IsWholeDocument (counted_remaining R.remaining reader.old)
        (counted_remaining R.remaining reader.new) bytes.items) }
    ensures fault { IfErr result (HasFault (counted_remaining R.remaining reader.old)
        (counted_remaining R.remaining reader.new)) }
    ensures not_written { IfErr result (λ e. e ≢ ScenarioFault.Write) }
{
    let mut keeper = Keeper {
        bytes: Vec::new(alloc),
    };
    match render_counted(alloc, &Bytes, reader, &mut WatchedWriter::new(&mut keeper)) {
        Ok(_) => Ok(keeper.bytes),
        Err(ScenarioFault::Write) => Err(ScenarioFault::OutOfMemory),
        Err(fault) => Err(fault),
    }
}
