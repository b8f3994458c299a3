//! A document in, the totals of its run out.

ghost use Rattle.std.specs.Prelude.{◌≡◌, ◌++◌, List, [], ◌∷◌, None, OnOk, string_bytes};
ghost use Rattle.dsa_event_text.specs.Added.{Adds};
ghost use Rattle.dsa_device.specs.Running.{Running};
ghost use Rattle.dsa_scenario.specs.Steps.{Visit, visit};
ghost use Rattle.dsa_count.specs.Peaks.{peaks_text};
ghost use Rattle.dsa_count.specs.Totals.{AreTotalsOfDocument, AreTotalsOfSteps, IsPageOf};

use crate::fates::add_fates;
use crate::peaks::{Gauge, Holder, add_peaks, raised};
use crate::tallies::add_tallies;
use crate::waits::add_commands;
use dsa_device::Device;
use dsa_scenario::{
    Added, Asked, MadeText, Record, Render, RenderSteps, Rendered, StepMade, render_steps,
};
use dsa_store::EntryStore;
use std::alloc::{AllocError, Global};

/// What is kept of the steps so far: what came of each, and peaks by the number of the queue or
/// the group.
#[derive(Drop)]
pub struct Page {
    pub records: Vec<Record>,
    pub occupancies: Vec<u16>,
    pub sizes: Vec<u16>,
    pub used: Vec<u16>,
    pub allowed: Vec<u16>,
}

/// The totals of a document's run, as a way to make a text of it.
#[derive(Clone, Copy, Debug, PartialEq, Eq)]
pub struct Totals;

// Adds one step to what is kept.
fn add_to<S: EntryStore>(page: &mut Page, step: &StepMade<'_, S>) -> Result<(), AllocError>
    ensures { OnOk result
        ((steps : List Visit)
        → (before : Running)
        → IsPageOf steps page.old
        → IsPageOf
        (steps ++ visit step.now.number before step.now.entry.now step.now.device.now ∷ [])
        page.new) }
{
    page.records.push(*step.entry)?;
    page.occupancies = raised(step.alloc, &page.occupancies, step.device, Gauge::Occupancy)?;
    page.sizes = raised(step.alloc, &page.sizes, step.device, Gauge::Size)?;
    page.used = raised(step.alloc, &page.used, step.device, Gauge::Used)?;
    page.allowed = raised(step.alloc, &page.allowed, step.device, Gauge::Allowed)?;
    Ok(())
}

// The lines of all peaks.
fn add_all_peaks(text: &mut String, page: &Page) -> Added
    ensures { OnOk result
        ((steps : List Visit)
        → IsPageOf steps page.now
        → string_bytes text.new ≡ string_bytes text.old ++ peaks_text steps) }
{
    add_peaks(text, Holder::Queue, &page.occupancies, &page.sizes, 64)?;
    add_peaks(text, Holder::Group, &page.used, &page.allowed, 64)
}

impl RenderSteps for Totals {
    type Page = Page;

    ghost told_before = { λ totals now asked. [] };

    ghost is_page = { λ totals steps page. IsPageOf steps page };

    ghost is_text = { λ totals steps last text. AreTotalsOfSteps steps last text };

    fn open(&self, alloc: Global) -> Page {
        Page {
            records: Vec::new(alloc),
            occupancies: Vec::new(alloc),
            sizes: Vec::new(alloc),
            used: Vec::new(alloc),
            allowed: Vec::new(alloc),
        }
    }

    fn look<S: EntryStore>(&self, alloc: Global, _device: &Device<S>, _asked: &Asked) -> MadeText {
        Ok(String::new(alloc))
    }

    fn add_step<S: EntryStore>(&self, page: &mut Page, step: &StepMade<'_, S>) -> Added {
        add_to(page, step)
    }

    fn finish<S: EntryStore>(&self, alloc: Global, page: Page, device: &Device<S>) -> MadeText {
        let mut text = String::new(alloc);
        add_tallies(alloc, &mut text, &page.records)?;
        add_all_peaks(&mut text, &page)?;
        add_commands(&mut text, &page.records)?;
        add_fates(&mut text, device.fates())?;
        Ok(text)
    }
}

impl Render for Totals {
    ghost is_rendering = { λ totals bytes fault text. (fault ≡ None)
        × AreTotalsOfDocument bytes text };

    fn render(&self, alloc: Global, bytes: &[u8]) -> Rendered {
        render_steps(alloc, self, bytes)
    }
}
