//! What makes a text of a run that shows own names, step by step.

ghost use Rattle.std.specs.Prelude.{◌≡◌, ◌++◌, [], ◌∷◌, ℕ, List, Result, IfOk, OnOk, map, string_bytes};
ghost use Rattle.serde_json.specs.View.{view};
ghost use Rattle.dsa_book.specs.declared.event.Event.{Event};
ghost use Rattle.dsa_device.specs.Running.{Running};
ghost use Rattle.dsa_scenario.specs.declared.actions.BadWord.{BadWord};
ghost use Rattle.dsa_scenario.specs.Run.{answered_by};
ghost use Rattle.dsa_scenario.specs.Steps.{visit};
ghost use Rattle.dsa_named.specs.Names.{names_given, own_of};
ghost use Rattle.dsa_named.specs.Steps.{NamedVisit, named_visit, named_visits, with_names};

use crate::names::{OwnName, note_name};
use dsa_device::Device;
use dsa_scenario::{Added, Asked, MadeText, RenderSteps, StepMade};
use dsa_store::EntryStore;
use serde_json::Value;
use std::alloc::Global;

/// What makes a text of a run, step by step, with the own names that were given up to each step.
pub trait RenderNamed: Drop {
    /// What is made of the steps so far.
    type Page: Drop;

    // what is told of a device before a step that asks this of it
    ghost told_before: { Self → Running → Result Event BadWord → List ℕ };

    // the page is made of these steps
    ghost is_page: { Self → List NamedVisit → Self.Page → Type 0 };

    // the text is made of these steps, after which the device stands so
    ghost is_text: { Self → List NamedVisit → Running → List ℕ → Type 0 };

    /// A page of no step.
    fn open(&self, alloc: Global) -> Self::Page
        ensures { is_page self.now [] result };

    /// What is told of the device before a step that asks this of it.
    fn look<S: EntryStore>(&self, alloc: Global, device: &Device<S>, asked: &Asked) -> MadeText
        ensures { IfOk result
            (λ told. string_bytes told ≡ told_before self.now device.now asked.now) };

    /// Adds a step to the page. These are the own names that were given up to it and with it, in
    /// order.
    fn add_step<S: EntryStore>(
        &self,
        page: &mut Self::Page,
        step: &StepMade<'_, S>,
        names: &[OwnName<'_>],
    ) -> Added
        ensures { OnOk result
            ((steps : List NamedVisit)
            → (before : Running)
            → step.now.told.now ≡ told_before self.now before (answered_by step.now.entry.now)
            → is_page self.now steps page.old
            → is_page self.now
            (steps
            ++ named_visit (map own_of names.now)
            (visit step.now.number before step.now.entry.now step.now.device.now)
            ∷ [])
            page.new) };

    /// The text, from the page of all steps and the device as it stands at last.
    fn finish<S: EntryStore>(&self, alloc: Global, page: Self::Page, device: &Device<S>) -> MadeText
        ensures { IfOk result (λ text. (steps : List NamedVisit) → is_page self.now steps page
            → is_text self.now steps device.now (string_bytes text)) };
}

/// What is made of the steps so far, and the own names that they gave.
#[derive(Drop)]
pub struct NamedPage<'a, P: Drop> {
    pub page: P,
    pub names: Vec<OwnName<'a>>,
}

/// What makes a text of a run of these step objects that shows their own names.
#[derive(Drop)]
pub struct NamedRun<'a, D: RenderNamed> {
    pub what: &'a D,
    pub steps: &'a [Value],
}

impl<'a, D: RenderNamed> RenderSteps for NamedRun<'a, D> {
    type Page = NamedPage<'a, D::Page>;

    ghost told_before = { λ named. D.told_before named.what.now };

    ghost is_page = { λ named steps page.
        D.is_page named.what.now (named_visits (map view named.steps.now) [] steps) page.page
        × (map own_of page.names.items ≡ names_given (map view named.steps.now) steps) };

    ghost is_text = { λ named.
        with_names (map view named.steps.now) (D.is_text named.what.now) };

    fn open(&self, alloc: Global) -> NamedPage<'a, D::Page> {
        NamedPage {
            page: self.what.open(alloc),
            names: Vec::new(alloc),
        }
    }

    fn look<S: EntryStore>(&self, alloc: Global, device: &Device<S>, asked: &Asked) -> MadeText {
        self.what.look(alloc, device, asked)
    }

    fn add_step<S: EntryStore>(
        &self,
        page: &mut NamedPage<'a, D::Page>,
        step: &StepMade<'_, S>,
    ) -> Added {
        note_name(&mut page.names, self.steps, step.number, step.entry)?;
        self.what.add_step(&mut page.page, step, &page.names)
    }

    fn finish<S: EntryStore>(
        &self,
        alloc: Global,
        page: NamedPage<'a, D::Page>,
        device: &Device<S>,
    ) -> MadeText {
        self.what.finish(alloc, page.page, device)
    }
}
