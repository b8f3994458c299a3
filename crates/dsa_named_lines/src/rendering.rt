//! The lines of a run, some or all, with own names.

ghost use Rattle.std.specs.Prelude.{◌≡◌, string_bytes};
ghost use Rattle.dsa_explain_lines.specs.Parts.{part_of};
ghost use Rattle.dsa_named_lines.specs.Run.{AreNamedLinesOf, lines_with_names};

use crate::lines::{add_named_line, names_in};
use dsa_chosen::{Chosen, Selection};
use dsa_device::Device;
use dsa_explain_lines::Explanation;
use dsa_named::{OwnName, RenderNamed};
use dsa_scenario::{Added, Asked, MadeText, RenderSteps, StepMade};
use dsa_store::EntryStore;
use std::alloc::Global;

/// The lines of an explanation that are selected, each with the own names of the entries that it
/// mentions, and then the fate of the entry that is asked for.
#[derive(Clone, Copy, Debug, PartialEq, Eq)]
pub struct NamedLines<'a> {
    pub selection: Selection<'a>,
}

impl RenderNamed for NamedLines<'_> {
    type Page = String;

    ghost told_before = { λ lines now asked. part_of now asked };

    ghost is_page = { λ lines steps page. string_bytes page
        ≡ lines_with_names lines.selection steps };

    ghost is_text = { λ lines. AreNamedLinesOf lines.selection };

    fn open(&self, alloc: Global) -> String {
        String::new(alloc)
    }

    fn look<S: EntryStore>(&self, alloc: Global, device: &Device<S>, asked: &Asked) -> MadeText {
        Explanation.look(alloc, device, asked)
    }

    fn add_step<S: EntryStore>(
        &self,
        page: &mut String,
        step: &StepMade<'_, S>,
        names: &[OwnName<'_>],
    ) -> Added {
        let fates = step.device.fates();
        if self.selection.selects(step.alloc, step.entry, fates)? {
            let own = names_in(step.alloc, names, step.entry, step.device)?;
            add_named_line(page, step.number, step.entry, step.told, &own)?;
        }
        Ok(())
    }

    // What is chosen of no step is the fate alone.
    fn finish<S: EntryStore>(&self, alloc: Global, page: String, device: &Device<S>) -> MadeText {
        let mut text = page;
        let selection = self.selection;
        let fates = Chosen { selection }.finish(alloc, String::new(alloc), device)?;
        text.push_str(&fates)?;
        Ok(text)
    }
}
