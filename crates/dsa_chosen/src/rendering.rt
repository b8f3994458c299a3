//! A document in, some lines of the explanation of its run out.

ghost use Rattle.std.specs.Prelude.{◌≡◌, None, string_bytes};
ghost use Rattle.dsa_explain_lines.specs.Parts.{part_of};
ghost use Rattle.dsa_chosen.specs.Run.{AreChosen, AreChosenOf, chosen_lines};

use crate::fates::add_fates;
use crate::selection::Selection;
use dsa_device::Device;
use dsa_explain_lines::{Explanation, add_line};
use dsa_scenario::{Added, Asked, MadeText, Render, RenderSteps, Rendered, StepMade, render_steps};
use dsa_store::EntryStore;
use std::alloc::Global;

/// The lines of an explanation that are selected, as a way to make a text of a document.
#[derive(Clone, Copy, Debug, PartialEq, Eq)]
pub struct Chosen<'a> {
    pub selection: Selection<'a>,
}

// As of a whole explanation, what is told after an answer is read of the device before the step.
impl RenderSteps for Chosen<'_> {
    type Page = String;

    ghost told_before = { λ chosen now asked. part_of now asked };

    ghost is_page = { λ chosen steps page. string_bytes page
        ≡ chosen_lines chosen.selection steps };

    ghost is_text = { λ chosen. AreChosenOf chosen.selection };

    fn open(&self, alloc: Global) -> String {
        String::new(alloc)
    }

    fn look<S: EntryStore>(&self, alloc: Global, device: &Device<S>, asked: &Asked) -> MadeText {
        Explanation.look(alloc, device, asked)
    }

    fn add_step<S: EntryStore>(&self, page: &mut String, step: &StepMade<'_, S>) -> Added {
        let fates = step.device.fates();
        if self.selection.selects(step.alloc, step.entry, fates)? {
            add_line(page, step.number, step.entry, step.told)?;
        }
        Ok(())
    }

    fn finish<S: EntryStore>(&self, _alloc: Global, page: String, device: &Device<S>) -> MadeText {
        let mut text = page;
        add_fates(&mut text, self.selection.name, device.fates())?;
        Ok(text)
    }
}

impl Render for Chosen<'_> {
    ghost is_rendering = { λ chosen bytes fault text. (fault ≡ None)
        × AreChosen chosen.selection bytes text };

    fn render(&self, alloc: Global, bytes: &[u8]) -> Rendered {
        render_steps(alloc, self, bytes)
    }
}
