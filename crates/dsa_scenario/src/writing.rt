//! Writing the lines.

ghost use Rattle.std.specs.Prelude.{◌≡◌, ◌<◌, ℕ, length, take, OnOk, IfErr};
ghost use Rattle.std.specs.Io.KnownBytes.{Appends};
ghost use Rattle.dsa_scenario.specs.Watched.{watched_contents, IsWrittenFor};

use crate::faults::ScenarioFault;
use crate::watched::WatchedWriter;
use std::io::Write;

/// Writes all of `text`. On a fault a write was refused, and the writer has got a proper prefix of
/// the text.
pub fn write_text<W: Write>(
    writer: &mut WatchedWriter<'_, W>,
    text: &[u8],
) -> Result<(), ScenarioFault>
    ensures writer { IsWrittenFor result writer.old writer.new }
    ensures whole { OnOk result (Appends (watched_contents W.contents writer.old)
        (watched_contents W.contents writer.new) text.now) }
    ensures fault { IfErr result (λ e. e ≡ ScenarioFault.Write) }
    ensures prefix { IfErr result
        (λ e. (count : ℕ)
        × (count < length text.now)
        × Appends (watched_contents W.contents writer.old)
        (watched_contents W.contents writer.new) (take count text.now)) }
{
    let mut written = 0;
    'writes: while written < text.len() {
        match writer.write(&text[written..]) {
            Ok(count) if count > 0 => written += count,
            _ => return Err(ScenarioFault::Write),
        }
    }
    Ok(())
}
