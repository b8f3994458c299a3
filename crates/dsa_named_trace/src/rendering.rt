//! The lines of a trace, with own names.

ghost use Rattle.std.specs.Prelude.{◌≡◌, flat_map, string_bytes};
ghost use Rattle.dsa_trace.specs.Changes.{told_before_step};
ghost use Rattle.dsa_named_trace.specs.{Lines.{named_trace_line}, Run.{IsNamedTraceOf}};

use crate::lines::add_noted_line;
use crate::shown::shown_names;
use dsa_device::Device;
use dsa_named::{OwnName, RenderNamed};
use dsa_scenario::{Added, Asked, MadeText, RenderSteps, StepMade};
use dsa_store::EntryStore;
use dsa_trace::Trace;
use std::alloc::Global;

/// The lines of a trace of this form, each with the own names of the entries that it lists and of
/// those that the step is about, and then those of the entries that are held.
#[derive(Clone, Copy, Debug, PartialEq, Eq)]
pub struct NamedTrace {
    pub form: Trace,
}

impl RenderNamed for NamedTrace {
    type Page = String;

    ghost told_before = { λ trace now asked. told_before_step trace.form now };

    ghost is_page = { λ trace steps page. string_bytes page
        ≡ flat_map (named_trace_line trace.form) steps };

    ghost is_text = { λ trace. IsNamedTraceOf trace.form };

    fn open(&self, alloc: Global) -> String {
        String::new(alloc)
    }

    fn look<S: EntryStore>(&self, alloc: Global, device: &Device<S>, asked: &Asked) -> MadeText {
        self.form.look(alloc, device, asked)
    }

    fn add_step<S: EntryStore>(
        &self,
        page: &mut String,
        step: &StepMade<'_, S>,
        names: &[OwnName<'_>],
    ) -> Added {
        let mut line = String::new(step.alloc);
        self.form.add_step(&mut line, step)?;
        let shown = shown_names(step.alloc, self.form, names, step.entry, step.device)?;
        add_noted_line(page, self.form, &line, &shown)
    }

    // What is made of no step is the lines of the entries that are held alone.
    fn finish<S: EntryStore>(&self, alloc: Global, page: String, device: &Device<S>) -> MadeText {
        let mut text = page;
        let held = self.form.finish(alloc, String::new(alloc), device)?;
        text.push_str(&held)?;
        Ok(text)
    }
}
