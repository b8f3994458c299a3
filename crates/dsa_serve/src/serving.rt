//! Lines in, answers out.

ghost use Rattle.std.specs.Prelude.{◌≡◌, ◌≢◌, ◌⊎◌, ◌<◌, ◌≤◌, ◌+◌, ◌^◌, true, false, ℕ, Bool, List};
ghost use Rattle.std.specs.Prelude.{Option, Ok, length, OnOk, IfOk, IfErr};
ghost use Rattle.std.specs.Io.KnownBytes.{Consumes, IsAtEnd, Appends};
ghost use Rattle.dsa_scenario.specs.declared.faults.ScenarioFault.{ScenarioFault};
ghost use Rattle.dsa_scenario.specs.Counted.{counted_remaining, asked_of, given_of, IsAskedFor};
ghost use Rattle.dsa_scenario.specs.Counted.{IsReadFor};
ghost use Rattle.dsa_scenario.specs.Watched.{watched_contents, IsWrittenFor};
ghost use Rattle.dsa_serve.specs.Dialogue.{AnswersAll, GoesOn, IsAllAnswered, IsInCourse};
ghost use Rattle.dsa_serve.specs.Dialogue.{IsLate, IsStoppedOn, IsStoppedWithin, IsStopped};

use crate::dialogue::Dialogue;
use crate::front::read_first;
use crate::opening::begin;
use dsa_cells::LinkedStore;
use dsa_scenario::{CountedReader, ScenarioFault, WatchedWriter, write_text};
use dsa_store::EntryStore;
use std::alloc::Global;
use std::io::{Read, Write};

/// The most bytes that a read gives.
const CHUNK: usize = 65_536;

/// A dialogue whose document is read, and whether the input ended with it.
#[derive(Drop)]
struct Started {
    dialogue: Dialogue<LinkedStore>,
    ended: bool,
}

// Reads the document, and writes the answers to its steps.
fn start<R: Read, W: Write>(
    alloc: Global,
    reader: &mut CountedReader<'_, R>,
    chunk: &mut [u8],
    writer: &mut WatchedWriter<'_, W>,
    is_friendly: bool,
) -> Result<Started, ScenarioFault>
    requires { 0 < length chunk.old }
    ensures reader { IsReadFor R.remaining result reader.old reader.new }
    ensures writer { IsWrittenFor result writer.old writer.new }
    ensures asked_first { IfOk result
        (λ it. it.ended ≡ false → IsAskedFor R.remaining reader.old reader.new 0) }
    ensures ok { IfOk result
        (λ it. IsInCourse is_friendly it.ended (counted_remaining R.remaining reader.old)
        (counted_remaining R.remaining reader.new) (watched_contents W.contents writer.old)
        (watched_contents W.contents writer.new) it.dialogue) }
    ensures end { IfOk result
        (λ it. it.ended ≡ true → IsAtEnd (counted_remaining R.remaining reader.new)) }
    ensures nothing { IfErr result (λ e. e ≢ ScenarioFault.Write → writer.new ≡ writer.old) }
    ensures stopped { IfErr result
        (λ e. IsStoppedWithin is_friendly (length chunk.old) e
        (counted_remaining R.remaining reader.old) (counted_remaining R.remaining reader.new)
        (watched_contents W.contents writer.old) (watched_contents W.contents writer.new)) }
{
    let front = read_first(alloc, reader, chunk)?;
    let mut text = String::new(alloc);
    let dialogue = begin(alloc, &mut text, &front, is_friendly)?;
    write_text(writer, text.as_bytes())?;
    Ok(Started {
        dialogue,
        ended: front.ended,
    })
}

// One read, and then the answers to the lines that it completes, all written. It says whether more
// may come.
fn turn<S: EntryStore, R: Read, W: Write>(
    alloc: Global,
    dialogue: &mut Dialogue<S>,
    reader: &mut CountedReader<'_, R>,
    chunk: &mut [u8],
    text: &mut String,
    writer: &mut WatchedWriter<'_, W>,
) -> Result<bool, ScenarioFault>
    requires { 0 < length chunk.old }
    ensures reader { IsReadFor R.remaining result reader.old reader.new }
    ensures writer { IsWrittenFor result writer.old writer.new }
    ensures one_read { asked_of reader.new ≤ asked_of reader.old + 1 }
    ensures counted { OnOk result (asked_of reader.new ≡ asked_of reader.old + 1) }
    ensures tried { IfErr result
        (λ e. (asked_of reader.new ≡ asked_of reader.old + 1)
        ⊎ ((e ≡ ScenarioFault.OutOfMemory)
        × (reader.new ≡ reader.old)
        × ((2 ^ 64 ≤ asked_of reader.old + 1)
        ⊎ (2 ^ 64 ≤ given_of reader.old + length chunk.old)))) }
    ensures fits { asked_of reader.new < 2 ^ 64 }
    ensures asked_for_more { result ≡ Ok true → IsAskedFor R.remaining reader.old reader.new 0 }
    ensures ok { OnOk result (GoesOn (counted_remaining R.remaining reader.old)
        (watched_contents W.contents writer.old) dialogue.old
        (counted_remaining R.remaining reader.new)
        (watched_contents W.contents writer.new) dialogue.new) }
    ensures end { result ≡ Ok false → IsAtEnd (counted_remaining R.remaining reader.new) }
    ensures late { IfErr result IsLate }
    ensures stopped { IfErr result (λ e. IsStoppedOn (length chunk.old) e
        (counted_remaining R.remaining reader.old) (watched_contents W.contents writer.old)
        dialogue.old (counted_remaining R.remaining reader.new)
        (watched_contents W.contents writer.new)) }
{
    let count = reader.read_once(chunk)?;
    text.clear();
    dialogue.feed(alloc, text, &chunk[..count])?;
    write_text(writer, text.as_bytes())?;
    Ok(count > 0)
}

// Turns until the input ends.
fn serve_lines<S: EntryStore, R: Read, W: Write>(
    alloc: Global,
    dialogue: &mut Dialogue<S>,
    reader: &mut CountedReader<'_, R>,
    chunk: &mut [u8],
    writer: &mut WatchedWriter<'_, W>,
) -> Result<(), ScenarioFault>
    requires { 0 < length chunk.old }
    ensures reader { IsReadFor R.remaining result reader.old reader.new }
    ensures writer { IsWrittenFor result writer.old writer.new }
    ensures ok { OnOk result (GoesOn (counted_remaining R.remaining reader.old)
        (watched_contents W.contents writer.old) dialogue.old
        (counted_remaining R.remaining reader.new)
        (watched_contents W.contents writer.new) dialogue.new) }
    ensures end { OnOk result (IsAtEnd (counted_remaining R.remaining reader.new)) }
    ensures late { IfErr result IsLate }
    ensures stopped { IfErr result (λ e. IsStoppedOn (length chunk.old) e
        (counted_remaining R.remaining reader.old) (watched_contents W.contents writer.old)
        dialogue.old (counted_remaining R.remaining reader.new)
        (watched_contents W.contents writer.new)) }
{
    let mut text = String::new(alloc);
    'turns: while turn(alloc, dialogue, reader, chunk, &mut text, writer)? {}
    Ok(())
}

// Answers a last line without a line feed, and writes the fates.
fn finish<S: EntryStore, W: Write>(
    alloc: Global,
    dialogue: &mut Dialogue<S>,
    writer: &mut WatchedWriter<'_, W>,
) -> Result<(), ScenarioFault>
    ensures writer { IsWrittenFor result writer.old writer.new }
    ensures ok { OnOk result
        ((is_friendly ended : Bool) (had left held : Option (List ℕ))
        → IsInCourse is_friendly ended had left held (watched_contents W.contents writer.old)
        dialogue.old
        → (input : List ℕ)
        × (output : List ℕ)
        × Consumes had left input
        × AnswersAll is_friendly input output
        × Appends held (watched_contents W.contents writer.new) output) }
    ensures late { IfErr result IsLate }
    ensures not_read { IfErr result (λ e. e ≢ ScenarioFault.Read) }
    ensures stopped { IfErr result
        (λ e. (is_friendly ended : Bool) (had left held : Option (List ℕ))
        → IsAtEnd left
        → IsInCourse is_friendly ended had left held (watched_contents W.contents writer.old)
        dialogue.old
        → IsStopped is_friendly e had left held (watched_contents W.contents writer.new)) }
{
    let mut text = String::new(alloc);
    dialogue.add_end(alloc, &mut text)?;
    write_text(writer, text.as_bytes())
}

/// Reads a document and a request in each further line, and answers each line.
///
/// All whole lines that a read gave are answered, and the answers written, before the next read. A
/// line that asks nothing is answered with its fault, and changes nothing. At the end of input come
/// all fates, as at the end of a document's run.
///
/// In a friendly dialogue the document is read as its [`strict_form`](dsa_expand::strict_form).
/// Each further line may be in the friendly form of [`meaning_of`](dsa_expand::meaning_of), by the
/// own names that the steps before it have given, those of the document too.
///
/// A fault of the document is the same as that of [`run_scenario`](dsa_scenario::run_scenario), or
/// in a friendly dialogue that for which it has no strict form, and nothing is written then. On
/// `Read` an answer of the reader was an error, and all whole lines that were read are answered; on
/// `OutOfMemory` those before the last read. On `Write` a write was refused, and the writer has got
/// a proper prefix of the answers.
pub fn serve_dialogue<R: Read, W: Write>(
    alloc: Global,
    reader: &mut CountedReader<'_, R>,
    writer: &mut WatchedWriter<'_, W>,
    is_friendly: bool,
) -> Result<(), ScenarioFault>
    ensures reader { IsReadFor R.remaining result reader.old reader.new }
    ensures writer { IsWrittenFor result writer.old writer.new }
    ensures ok { OnOk result (IsAllAnswered is_friendly (counted_remaining R.remaining reader.old)
        (counted_remaining R.remaining reader.new) (watched_contents W.contents writer.old)
        (watched_contents W.contents writer.new)) }
    ensures stopped { IfErr result
        (λ e. IsStopped is_friendly e (counted_remaining R.remaining reader.old)
        (counted_remaining R.remaining reader.new) (watched_contents W.contents writer.old)
        (watched_contents W.contents writer.new)) }
    ensures nothing { IfErr result
        (λ e. ¬ IsLate e → writer.new ≡ writer.old) }
{
    let mut chunk = [0u8; CHUNK];
    let mut it = start(alloc, reader, &mut chunk, writer, is_friendly)?;
    if !it.ended {
        serve_lines(alloc, &mut it.dialogue, reader, &mut chunk, writer)?;
    }
    finish(alloc, &mut it.dialogue, writer)
}

/// Reads a document and a request in each further line, and answers each line, all in the strict
/// form.
///
/// All of it is the work of [`serve_dialogue`].
pub fn serve_counted<R: Read, W: Write>(
    alloc: Global,
    reader: &mut CountedReader<'_, R>,
    writer: &mut WatchedWriter<'_, W>,
) -> Result<(), ScenarioFault>
    ensures reader { IsReadFor R.remaining result reader.old reader.new }
    ensures writer { IsWrittenFor result writer.old writer.new }
    ensures ok { OnOk result (IsAllAnswered false (counted_remaining R.remaining reader.old)
        (counted_remaining R.remaining reader.new) (watched_contents W.contents writer.old)
        (watched_contents W.contents writer.new)) }
    ensures stopped { IfErr result
        (λ e. IsStopped false e (counted_remaining R.remaining reader.old)
        (counted_remaining R.remaining reader.new) (watched_contents W.contents writer.old)
        (watched_contents W.contents writer.new)) }
    ensures nothing { IfErr result
        (λ e. ¬ IsLate e → writer.new ≡ writer.old) }
{
    serve_dialogue(alloc, reader, writer, false)
}

/// Reads a document and a request in each further line, and answers each line. In a friendly
/// dialogue all of them may be in the friendly form.
///
/// All of it is the work of [`serve_dialogue`], which is lent the reader as one that is counted.
pub fn serve_either<R: Read, W: Write>(
    alloc: Global,
    reader: &mut R,
    writer: &mut WatchedWriter<'_, W>,
    is_friendly: bool,
) -> Result<(), ScenarioFault>
    ensures writer { IsWrittenFor result writer.old writer.new }
    ensures ok { OnOk result
        (IsAllAnswered is_friendly (R.remaining reader.old) (R.remaining reader.new)
        (watched_contents W.contents writer.old) (watched_contents W.contents writer.new)) }
    ensures stopped { IfErr result
        (λ e. IsStopped is_friendly e (R.remaining reader.old) (R.remaining reader.new)
        (watched_contents W.contents writer.old) (watched_contents W.contents writer.new)) }
    ensures nothing { IfErr result
        (λ e. ¬ IsLate e → writer.new ≡ writer.old) }
{
    let mut reader = CountedReader::new(reader);
    serve_dialogue(alloc, &mut reader, writer, is_friendly)
}

/// Reads a document and a request in each further line, and answers each line, all in the strict
/// form.
///
/// All of it is the work of [`serve_either`].
pub fn serve_watched<R: Read, W: Write>(
    alloc: Global,
    reader: &mut R,
    writer: &mut WatchedWriter<'_, W>,
) -> Result<(), ScenarioFault>
    ensures writer { IsWrittenFor result writer.old writer.new }
    ensures ok { OnOk result
        (IsAllAnswered false (R.remaining reader.old) (R.remaining reader.new)
        (watched_contents W.contents writer.old) (watched_contents W.contents writer.new)) }
    ensures stopped { IfErr result
        (λ e. IsStopped false e (R.remaining reader.old) (R.remaining reader.new)
        (watched_contents W.contents writer.old) (watched_contents W.contents writer.new)) }
    ensures nothing { IfErr result
        (λ e. ¬ IsLate e → writer.new ≡ writer.old) }
{
    serve_either(alloc, reader, writer, false)
}
