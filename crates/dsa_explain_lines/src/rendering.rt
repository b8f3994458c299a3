//! A document in, the explanation of its run out.

ghost use Rattle.std.specs.Prelude.{◌≡◌, None, flat_map, string_bytes};
ghost use Rattle.dsa_explain_lines.specs.{Lines.{explanation_of_step}, Parts.{part_of}};
ghost use Rattle.dsa_explain_lines.specs.Run.{IsExplanation, IsExplanationOf};

use crate::lines::add_line;
use crate::parts::add_part;
use dsa_device::Device;
use dsa_scenario::{Added, Asked, MadeText, Render, RenderSteps, Rendered, StepMade, render_steps};
use dsa_store::EntryStore;
use std::alloc::Global;

/// Why each step of a document's run was answered as it was, as a way to make a text of it.
#[derive(Clone, Copy, Debug, PartialEq, Eq)]
pub struct Explanation;

// What is told after an answer is read of the device as it stands before the step.
impl RenderSteps for Explanation {
    type Page = String;

    ghost told_before = { λ explanation now asked. part_of now asked };

    ghost is_page = { λ explanation steps page. string_bytes page
        ≡ flat_map explanation_of_step steps };

    ghost is_text = { λ explanation steps last text. IsExplanationOf steps last text };

    fn open(&self, alloc: Global) -> String {
        String::new(alloc)
    }

    fn look<S: EntryStore>(&self, alloc: Global, device: &Device<S>, asked: &Asked) -> MadeText {
        let mut part = String::new(alloc);
        add_part(&mut part, device, asked)?;
        Ok(part)
    }

    fn add_step<S: EntryStore>(&self, page: &mut String, step: &StepMade<'_, S>) -> Added {
        add_line(page, step.number, step.entry, step.told)
    }

    fn finish<S: EntryStore>(&self, _alloc: Global, page: String, _device: &Device<S>) -> MadeText {
        Ok(page)
    }
}

impl Render for Explanation {
    ghost is_rendering = { λ explanation bytes fault text. (fault ≡ None)
        × IsExplanation bytes text };

    fn render(&self, alloc: Global, bytes: &[u8]) -> Rendered {
        render_steps(alloc, self, bytes)
    }
}
