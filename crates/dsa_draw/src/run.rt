//! A run with a moment after each step, and its drawing.

ghost use Rattle.dsa_explain_lines.specs.Parts.{part_of};
ghost use Rattle.dsa_draw.specs.Drawings.{AreMoments, IsDrawnOf};

use crate::drawing::draw;
use crate::moment::{Moment, take_moment};
use crate::range::StepRange;
use dsa_book::FateRow;
use dsa_device::Device;
use dsa_explain_lines::Explanation;
use dsa_named::{OwnName, RenderNamed};
use dsa_regs::Caps;
use dsa_scenario::{Added, Asked, MadeText, RenderSteps, StepMade};
use dsa_store::EntryStore;
use std::alloc::Global;

/// What there is to draw of a run.
#[derive(Drop)]
pub struct Story {
    pub caps: Caps,
    /// A moment for each step object, in order.
    pub moments: Vec<Moment>,
    /// A row for each entry that ended, in the order in which they did.
    pub fates: Vec<FateRow>,
}

/// The drawing of a document's run. [`WithNames`](dsa_named::WithNames) makes of it a text of a
/// document.
#[derive(Clone, Copy, Debug, PartialEq, Eq)]
pub struct Drawing {
    /// The steps that have a column.
    pub steps: StepRange,
}

// As of an explanation, the reason of an answer is read of the device before the step.
impl RenderNamed for Drawing {
    type Page = Vec<Moment>;

    ghost told_before = { λ drawing now asked. part_of now asked };

    ghost is_page = { λ drawing steps page. AreMoments steps page.items };

    ghost is_text = { λ drawing. IsDrawnOf drawing.steps };

    fn open(&self, alloc: Global) -> Vec<Moment> {
        Vec::new(alloc)
    }

    fn look<S: EntryStore>(&self, alloc: Global, device: &Device<S>, asked: &Asked) -> MadeText {
        Explanation.look(alloc, device, asked)
    }

    fn add_step<S: EntryStore>(
        &self,
        page: &mut Vec<Moment>,
        step: &StepMade<'_, S>,
        names: &[OwnName<'_>],
    ) -> Added {
        let moment = take_moment(step, names)?;
        page.push(moment)?;
        Ok(())
    }

    fn finish<S: EntryStore>(
        &self,
        alloc: Global,
        page: Vec<Moment>,
        device: &Device<S>,
    ) -> MadeText {
        let mut fates = Vec::new(alloc);
        fates.extend_from_slice(device.fates())?;
        let story = Story {
            caps: device.caps(),
            moments: page,
            fates,
        };
        draw(alloc, &story, self.steps)
    }
}
