//! A writer that is watched.

ghost use Rattle.std.specs.Prelude.{◌≡◌, ◌≢◌, ◌<◌, true, false, IsErr, IfErr, IfOk, OnOk, IfSome, Ok, length};
ghost use Rattle.std.specs.Io.{WritesAtMost};
ghost use Rattle.std.specs.Io.KnownBytes.{Keeps, Appends, WriteAppends};
ghost use Rattle.std.specs.IoError.{error_kind};
ghost use Rattle.dsa_scenario.specs.Watched.{watched_contents, has_refused, is_closed, IsSameWriter};

use std::fmt::Display;
use std::io;
use std::io::{ErrorKind, Write};

/// A writer that notes whether a write was refused: it was answered by an error, or took no byte of
/// some. It also notes whether an error said that nobody reads what is written.
#[derive(Drop)]
pub struct WatchedWriter<'w, W: Write> {
    writer: &'w mut W,
    refused: bool,
    closed: bool,
}

// Whether the error says that nobody reads what is written.
fn says_closed(error: &io::Error) -> bool
    ensures closed { error_kind error.now ≡ ErrorKind.BrokenPipe → result ≡ true }
    ensures other { error_kind error.now ≢ ErrorKind.BrokenPipe → result ≡ false }
{
    matches!(error.kind(), ErrorKind::BrokenPipe)
}

impl<'w, W: Write> WatchedWriter<'w, W> {
    /// The writer, which has refused nothing yet.
    pub fn new(writer: &'w mut W) -> WatchedWriter<'w, W>
        ensures same_reference { result.writer.ghost_name ≡ writer.entry.ghost_name }
        ensures writer { result.writer.now ≡ writer.old }
        ensures refused { has_refused result ≡ false }
        ensures closed { is_closed result ≡ false }
    {
        WatchedWriter {
            writer,
            refused: false,
            closed: false,
        }
    }

    /// Whether an error said that nobody reads what is written.
    pub fn is_closed(&self) -> bool
        ensures { result ≡ is_closed self.now }
    {
        self.closed
    }

    /// Writes what `text` shows. Where it was not all written, a write was refused.
    pub fn print<D: Display + Drop>(&mut self, text: D) -> io::Result<()>
        ensures same_writer { IsSameWriter self.old self.new }
        ensures kept { has_refused self.old ≡ true → has_refused self.new ≡ true }
        ensures refused { IsErr result → has_refused self.new ≡ true }
        ensures well { OnOk result (has_refused self.new ≡ has_refused self.old) }
        ensures taken { OnOk result
            (IfSome (D.output text)
            (Appends (watched_contents W.contents self.old)
            (watched_contents W.contents self.new))) }
        ensures closed { IfErr result
            (λ e. error_kind e ≡ ErrorKind.BrokenPipe → is_closed self.new ≡ true) }
        ensures other { IfErr result
            (λ e. error_kind e ≢ ErrorKind.BrokenPipe → is_closed self.new ≡ is_closed self.old) }
        ensures open { OnOk result (is_closed self.new ≡ is_closed self.old) }
    {
        let result = write!(self.writer, "{text}");
        self.refused = self.refused || result.is_err();
        if let Err(error) = &result {
            self.closed = self.closed || says_closed(error);
        }
        result
    }
}

impl<W: Write> Write for WatchedWriter<'_, W> {
    ghost contents = { watched_contents W.contents };

    fn write(&mut self, buf: &[u8]) -> io::Result<usize>
        ensures bound { WritesAtMost result buf.now }
        ensures bytes { WriteAppends (watched_contents W.contents self.old)
            (watched_contents W.contents self.new) result buf.now }
        ensures same_writer { IsSameWriter self.old self.new }
        ensures failed { IsErr result → has_refused self.new ≡ true }
        ensures took_none { 0 < length buf.now → result ≡ Ok 0 → has_refused self.new ≡ true }
        ensures took { IfOk result (λ n. 0 < n → has_refused self.new ≡ has_refused self.old) }
        ensures empty { length buf.now ≡ 0
            → OnOk result (has_refused self.new ≡ has_refused self.old) }
        ensures closed { IfErr result
            (λ e. error_kind e ≡ ErrorKind.BrokenPipe → is_closed self.new ≡ true) }
        ensures other { IfErr result
            (λ e. error_kind e ≢ ErrorKind.BrokenPipe → is_closed self.new ≡ is_closed self.old) }
        ensures open { OnOk result (is_closed self.new ≡ is_closed self.old) }
    {
        let result = self.writer.write(buf);
        if let Err(error) = &result {
            self.closed = self.closed || says_closed(error);
        }
        if !matches!(result, Ok(count) if count > 0 || buf.is_empty()) {
            self.refused = true;
        }
        result
    }

    fn flush(&mut self) -> io::Result<()>
        ensures bytes { Keeps (watched_contents W.contents self.old)
            (watched_contents W.contents self.new) }
        ensures same_writer { IsSameWriter self.old self.new }
        ensures refused { has_refused self.new ≡ has_refused self.old }
        ensures closed { is_closed self.new ≡ is_closed self.old }
    {
        self.writer.flush()
    }
}
