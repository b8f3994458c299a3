//! A document in, its lines out.

ghost use Rattle.std.specs.Prelude.{◌≡◌, ◌≢◌, [], None, OnOk, IfErr, IsErrOf, flat_map, string_bytes};
ghost use Rattle.dsa_scenario.specs.Scenario.{HasFault, IsCutShort, IsRenderingOf, IsTextWritten};
ghost use Rattle.dsa_scenario.specs.Steps.{line_of_step, AreLinesOfSteps};

use crate::faults::ScenarioFault;
use crate::lines::{add_record, add_rows};
use crate::rendering::{Render, Rendered, render_input};
use crate::steps::{Added, Asked, MadeText, RenderSteps, StepMade, render_steps};
use crate::watched::WatchedWriter;
use dsa_device::Device;
use dsa_store::EntryStore;
use std::alloc::Global;
use std::io::{Read, Write};

/// The lines of a document's run, as a way to make a text of it.
#[derive(Clone, Copy, Debug, PartialEq, Eq)]
pub struct PlainRun;

impl RenderSteps for PlainRun {
    type Page = String;

    ghost told_before = { λ plain now asked. [] };

    ghost is_page = { λ plain steps page. string_bytes page ≡ flat_map line_of_step steps };

    ghost is_text = { λ plain steps last text. AreLinesOfSteps steps last text };

    #[inline(always)]
    fn open(&self, alloc: Global) -> String {
        String::new(alloc)
    }

    #[inline(always)]
    fn look<S: EntryStore>(&self, alloc: Global, _device: &Device<S>, _asked: &Asked) -> MadeText {
        Ok(String::new(alloc))
    }

    #[inline(always)]
    fn add_step<S: EntryStore>(&self, page: &mut String, step: &StepMade<'_, S>) -> Added {
        add_record(page, step.entry)
    }

    #[inline(always)]
    fn finish<S: EntryStore>(&self, _alloc: Global, page: String, device: &Device<S>) -> MadeText {
        let mut text = page;
        add_rows(&mut text, device.fates())?;
        Ok(text)
    }
}

impl Render for PlainRun {
    ghost is_rendering = { λ plain bytes fault text. (fault ≡ None) × IsRenderingOf bytes text };

    fn render(&self, alloc: Global, bytes: &[u8]) -> Rendered {
        render_steps(alloc, self, bytes)
    }
}

/// Reads one document to the end of input, runs it and writes its lines.
///
/// All of it is the work of [`render_input`], which is lent the writer as one that is watched.
pub fn run_scenario<R: Read, W: Write>(
    alloc: Global,
    reader: &mut R,
    writer: &mut W,
) -> Result<(), ScenarioFault>
    ensures ok { OnOk result (IsTextWritten IsRenderingOf
        (R.remaining reader.old) (R.remaining reader.new)
        (W.contents writer.old) (W.contents writer.new)) }

    // Only `Write` may have written, and then some of such lines.
    ensures nothing { IfErr result (λ e. e ≢ ScenarioFault.Write → writer.new ≡ writer.old) }
    ensures prefix { IsErrOf result ScenarioFault.Write → IsCutShort
        (R.remaining reader.old) (R.remaining reader.new)
        (W.contents writer.old) (W.contents writer.new) }

    ensures fault { IfErr result (HasFault (R.remaining reader.old) (R.remaining reader.new)) }
{
    render_input(alloc, &PlainRun, reader, &mut WatchedWriter::new(writer))?;
    Ok(())
}
