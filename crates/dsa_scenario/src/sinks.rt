//! Where a page goes while it is made: nowhere, or to a writer, piece by piece.

ghost use Rattle.std.specs.Prelude.{◌≡◌, ◌≤◌, ◌<◌, ◌++◌, [], Bool, true, false, ℕ, List, Ok, OnOk, IfErr, flat_map, string_bytes, string_len};
ghost use Rattle.std.specs.Io.KnownBytes.{Appends};
ghost use Rattle.dsa_scenario.specs.declared.faults.ScenarioFault.{ScenarioFault};
ghost use Rattle.dsa_scenario.specs.Steps.{Visit};
ghost use Rattle.dsa_scenario.specs.Streams.{IsPageOfRest, IsPartWritten, HasTakenLines, HasRefusedLines};
ghost use Rattle.dsa_scenario.specs.Watched.{watched_contents, IsWrittenFor};
ghost use Rattle.dsa_device.specs.Running.{Running};

use crate::faults::ScenarioFault;
use crate::steps::RenderSteps;
use crate::watched::WatchedWriter;
use crate::writing::write_text;
use std::io::Write;

/// How many bytes of a page are worth a write.
pub const PIECE: usize = 16_384;

/// Where a page goes while it is made.
pub trait Sink<D: RenderSteps>: Drop {
    // since it was the first of these, the sink has taken what is made of these steps
    ghost has_taken: { D → Self → Self → List Visit → Type 0 };

    // since then it has taken some of that, and refused the rest
    ghost has_stopped: { D → Self → Self → List Visit → Type 0 };

    // whether it may refuse something
    ghost may_refuse: { Bool };

    /// Takes from the page what it has, or leaves it there.
    fn take(&mut self, what: &D, page: &mut D::Page) -> Result<(), ScenarioFault>
        ensures ok { OnOk result
            ((first : Self)
            → (done : List Visit) → (rest : List Visit)
            → has_taken what.now first self.old done → D.is_page what.now rest page.old
            → IsPageOfRest (λ more. has_taken what.now first self.new (done ++ more))
            (D.is_page what.now) rest page.new) }
        ensures fault { IfErr result (λ e. (e ≡ ScenarioFault.Write) × (may_refuse ≡ true)) }
        ensures stopped { IfErr result
            (λ e. (first : Self) → (done : List Visit) → (rest : List Visit)
            → has_taken what.now first self.old done
            → D.is_page what.now rest page.old
            → has_stopped what.now first self.new (done ++ rest)) };
}

/// Leaves all on the page.
#[derive(Clone, Copy, Debug, Drop)]
pub struct Kept;

impl<D: RenderSteps> Sink<D> for Kept {
    ghost has_taken = { λ what first now done. done ≡ [] };

    ghost has_stopped = { λ what first now steps. ⊥ };

    ghost may_refuse = { false };

    #[inline(always)]
    fn take(&mut self, _what: &D, _page: &mut D::Page) -> Result<(), ScenarioFault> {
        Ok(())
    }
}

/// What makes a text that is a line for each step and something after them, and so may be written
/// while it is made.
pub trait StreamSteps: RenderSteps {
    // the line of a step
    ghost line: { Self → Visit → List ℕ };

    /// Writes the lines of the page, where they are worth a write, and empties it.
    fn write_out<W: Write>(
        &self,
        page: &mut Self::Page,
        writer: &mut WatchedWriter<'_, W>,
    ) -> Result<(), ScenarioFault>
        ensures writer { IsWrittenFor result writer.old writer.new }
        ensures ok { OnOk result
            ((steps : List Visit)
            → Self.is_page self.now steps page.old
            → IsPageOfRest
            (λ done. Appends (watched_contents W.contents writer.old)
            (watched_contents W.contents writer.new) (flat_map (line self.now) done))
            (Self.is_page self.now) steps page.new) }
        ensures fault { IfErr result (λ e. e ≡ ScenarioFault.Write) }
        ensures part { IfErr result
            (λ e. (steps : List Visit) → Self.is_page self.now steps page.old
            → IsPartWritten (watched_contents W.contents writer.old)
            (watched_contents W.contents writer.new) (flat_map (line self.now) steps)) };

    // the lines of the first steps come before a text that is made of the others
    ghost continues: { (what : Self) → (done : List Visit) → (rest : List Visit)
        → (last : Running) → (text : List ℕ) → Self.is_text what rest last text
        → Self.is_text what (done ++ rest) last (flat_map (line what) done ++ text) };
}

impl<D: StreamSteps, W: Write> Sink<D> for WatchedWriter<'_, W> {
    ghost has_taken = { λ what first now done.
        HasTakenLines W.contents (D.line what) first now done };

    ghost has_stopped = { λ what first now steps.
        HasRefusedLines W.contents (D.line what) first now steps };

    ghost may_refuse = { true };

    fn take(&mut self, what: &D, page: &mut D::Page) -> Result<(), ScenarioFault> {
        what.write_out(page, self)
    }
}

/// Writes the page and empties it, where it has [`PIECE`] bytes. On a fault a write was refused,
/// and the writer has got a proper prefix of the page.
pub fn write_piece<W: Write>(
    page: &mut String,
    writer: &mut WatchedWriter<'_, W>,
) -> Result<(), ScenarioFault>
    ensures writer { IsWrittenFor result writer.old writer.new }
    ensures short { string_len page.old < PIECE
        → (result ≡ Ok tt) × (page.new ≡ page.old) × (writer.new ≡ writer.old) }
    ensures whole { PIECE ≤ string_len page.old
        → OnOk result (Appends (watched_contents W.contents writer.old)
        (watched_contents W.contents writer.new) (string_bytes page.old)) }
    ensures empty { PIECE ≤ string_len page.old → OnOk result (string_bytes page.new ≡ []) }
    ensures fault { IfErr result (λ e. e ≡ ScenarioFault.Write) }
    ensures part { IfErr result
        (λ e. IsPartWritten (watched_contents W.contents writer.old)
        (watched_contents W.contents writer.new) (string_bytes page.old)) }
{
    if page.len() < PIECE {
        return Ok(());
    }
    write_text(writer, page.as_bytes())?;
    page.clear();
    Ok(())
}
