//! A document in, the trace of its run out, line by line.

ghost use Rattle.std.specs.Prelude.{◌≡◌, flat_map, string_bytes};
ghost use Rattle.dsa_scenario.proofs.StreamWrites.{lines_before};
ghost use Rattle.dsa_trace.specs.Changes.{told_before_step};
ghost use Rattle.dsa_trace.specs.Held.{held_lines};
ghost use Rattle.dsa_trace.specs.Lines.{trace_line_of_step};
ghost use Rattle.dsa_trace.specs.Run.{IsTraceOf};

use crate::changes::add_snapshot;
use crate::form::Trace;
use crate::held::add_held;
use crate::lines::add_step;
use dsa_device::Device;
use dsa_scenario::{
    Added, Asked, MadeText, RenderSteps, ScenarioFault, StepMade, StreamSteps, WatchedWriter,
    write_piece,
};
use dsa_store::EntryStore;
use std::alloc::Global;
use std::io::Write;

impl RenderSteps for Trace {
    type Page = String;

    ghost told_before = { λ form now asked. told_before_step form now };

    ghost is_page = { λ form steps page. string_bytes page
        ≡ flat_map (trace_line_of_step form) steps };

    ghost is_text = { λ form steps last text. IsTraceOf form steps last text };

    fn open(&self, alloc: Global) -> String {
        String::new(alloc)
    }

    #[inline(always)]
    fn look<S: EntryStore>(&self, alloc: Global, device: &Device<S>, _asked: &Asked) -> MadeText {
        let mut told = String::new(alloc);
        if let Trace::Changes = self {
            add_snapshot(&mut told, device)?;
        }
        Ok(told)
    }

    fn add_step<S: EntryStore>(&self, page: &mut String, step: &StepMade<'_, S>) -> Added {
        add_step(page, *self, step)
    }

    fn finish<S: EntryStore>(&self, _alloc: Global, page: String, device: &Device<S>) -> MadeText {
        let mut text = page;
        add_held(&mut text, *self, device)?;
        Ok(text)
    }
}

impl StreamSteps for Trace {
    ghost line = { λ form step. trace_line_of_step form step };

    fn write_out<W: Write>(
        &self,
        page: &mut String,
        writer: &mut WatchedWriter<'_, W>,
    ) -> Result<(), ScenarioFault> {
        write_piece(page, writer)
    }

    ghost continues = { λ form done rest last text is.
        lines_before (trace_line_of_step form) done rest text
        (held_lines form last.caps last.state) is };
}
