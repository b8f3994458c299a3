//! What makes a text of a document's run, step by step, and the walk over the steps.

ghost use Rattle.std.specs.Prelude.{◌≡◌, ◌≢◌, ◌⊎◌, ◌+◌, ◌++◌, [], ◌∷◌, true, ℕ, List, Result, None, Some, IfErr, IfOk, OnOk, length, map, string_bytes};
ghost use Rattle.serde_json.specs.View.{view};
ghost use Rattle.dsa_regs.specs.declared.Caps.{Caps};
ghost use Rattle.dsa_book.specs.declared.event.Event.{Event};
ghost use Rattle.dsa_device.specs.Running.{Running};
ghost use Rattle.dsa_scenario.specs.{declared.actions.{Action.{Action}, BadWord.{BadWord}}, Actions.{action_of}};
ghost use Rattle.dsa_scenario.specs.Run.{answered_by};
ghost use Rattle.dsa_scenario.specs.Document.{IsFirstBad, IsFaultOf};
ghost use Rattle.dsa_scenario.specs.Steps.{Visit, visit, IsWalkTo, IsTextOfDocument};
ghost use Rattle.dsa_scenario.specs.Streams.{IsPageBehind, IsPageOfRest, BeginWith, HasWalked};

use crate::actions::{Action, BadWord, parse_action};
use crate::faults::ScenarioFault;
use crate::opening::{MakeStore, Run, open_script};
use crate::rendering::{Rendered, Rendering};
use crate::run::{Record, ask, event_for, note_ticket};
use crate::script::read_script;
use crate::sinks::{Kept, Sink};
use dsa_book::Event;
use dsa_cells::LinkedStore;
use dsa_device::Device;
use dsa_store::EntryStore;
use serde_json::Value;
use std::alloc::{AllocError, Global};

/// What a step asks of a device, or the refusal of its word.
pub type Asked = Result<Event, BadWord>;

/// What comes of adding to a page, which may want memory.
pub type Added = Result<(), AllocError>;

/// What comes of making a text, which may want memory.
pub type MadeText = Result<String, AllocError>;

/// A step that was made: its number, what was told of the device before it, its record, and the
/// device as it stands after it.
#[derive(Drop)]
pub struct StepMade<'a, S: EntryStore> {
    pub alloc: Global,
    pub number: usize,
    pub told: &'a str,
    pub entry: &'a Record,
    pub device: &'a Device<S>,
}

/// What makes a text of a run, step by step.
pub trait RenderSteps: Drop {
    /// What is made of the steps so far.
    type Page: Drop;

    // what is told of a device before a step that asks this of it
    ghost told_before: { Self → Running → Result Event BadWord → List ℕ };

    // the page is made of these steps
    ghost is_page: { Self → List Visit → Self.Page → Type 0 };

    // the text is made of these steps, after which the device stands so
    ghost is_text: { Self → List Visit → Running → List ℕ → Type 0 };

    /// A page of no step.
    fn open(&self, alloc: Global) -> Self::Page
        ensures { is_page self.now [] result };

    /// What is told of the device before a step that asks this of it.
    fn look<S: EntryStore>(&self, alloc: Global, device: &Device<S>, asked: &Asked) -> MadeText
        ensures { IfOk result
            (λ told. string_bytes told ≡ told_before self.now device.now asked.now) };

    /// Adds a step to the page.
    fn add_step<S: EntryStore>(&self, page: &mut Self::Page, step: &StepMade<'_, S>) -> Added
        ensures { OnOk result
            ((steps : List Visit)
            → (before : Running)
            → step.now.told.now ≡ told_before self.now before (answered_by step.now.entry.now)
            → is_page self.now steps page.old
            → is_page self.now
            (steps
            ++ visit step.now.number before step.now.entry.now step.now.device.now
            ∷ [])
            page.new) };

    /// The text, from the page of all steps and the device as it stands at last.
    fn finish<S: EntryStore>(&self, alloc: Global, page: Self::Page, device: &Device<S>) -> MadeText
        ensures { IfOk result (λ text. (steps : List Visit) → is_page self.now steps page
            → is_text self.now steps device.now (string_bytes text)) };
}

impl<S: EntryStore> Run<S> {
    /// Runs one action more, notes the ticket that it is given, and adds its step to the page.
    ///
    /// A ticket is found at the place of its name, so an action takes the same time however many
    /// came before.
    #[inline(always)]
    fn step<D: RenderSteps>(
        &mut self,
        alloc: Global,
        what: &D,
        page: &mut D::Page,
        number: usize,
        action: Action,
    ) -> Added
        ensures { OnOk result
            ((caps : Caps)
            → (capacity : ℕ) → (done : List Action) → (taken : List Visit)
            → IsWalkTo (IsPageBehind taken (D.is_page what.now)) caps capacity done number
            self.old.device self.old.tickets.items page.old
            → IsWalkTo (IsPageBehind taken (D.is_page what.now)) caps capacity
            (done ++ action ∷ []) (number + 1) self.new.device self.new.tickets.items page.new) }
    {
        let asked = event_for(&self.tickets, action);
        let told = what.look(alloc, &self.device, &asked)?;
        let entry = ask(&mut self.device, &asked);
        note_ticket(&mut self.tickets, &entry)?;
        let step = StepMade {
            alloc,
            number,
            told: &told,
            entry: &entry,
            device: &self.device,
        };
        what.add_step(page, &step)
    }

    /// Runs the step objects, each as soon as it is read, and adds their steps to the page. After
    /// each the sink may take from the page what it has.
    #[inline(always)]
    pub fn walk_into<D: RenderSteps, K: Sink<D>>(
        &mut self,
        alloc: Global,
        what: &D,
        page: &mut D::Page,
        sink: &mut K,
        steps: &[Value],
    ) -> Result<(), ScenarioFault>
        ensures ok { OnOk result
            ((actions : List Action)
            × (map action_of (map view steps.now) ≡ map Some actions)
            × ((caps : Caps)
            → (capacity : ℕ) → (first : _)
            → IsWalkTo (IsPageOfRest (K.has_taken what.now first sink.old) (D.is_page what.now))
            caps capacity [] 0 self.old.device self.old.tickets.items page.old
            → IsWalkTo (IsPageOfRest (K.has_taken what.now first sink.new) (D.is_page what.now))
            caps capacity actions (length steps.now) self.new.device self.new.tickets.items
            page.new)) }
        ensures bad { IfErr result
            (λ e. (e ≡ ScenarioFault.OutOfMemory)
            ⊎ (e ≡ ScenarioFault.Write) × (K.may_refuse ≡ true)
            ⊎ IsFirstBad (map view steps.now) e) }

        // Where it stops, some of the steps were made, and the sink has taken from their page.
        ensures stopped { IfErr result
            (λ e. (caps : Caps)
            → (capacity : ℕ) → (first : _)
            → IsWalkTo (IsPageOfRest (K.has_taken what.now first sink.old) (D.is_page what.now))
            caps capacity [] 0 self.old.device self.old.tickets.items page.old
            → (e ≡ ScenarioFault.Write → HasWalked (K.has_stopped what.now first sink.new)
            caps capacity (map view steps.now))
            × (e ≢ ScenarioFault.Write → HasWalked
            (BeginWith (K.has_taken what.now first sink.new)) caps capacity (map view steps.now))) }
    {
        for (i, step) in steps.iter().enumerate() {
            match parse_action(step) {
                Some(action) => self.step(alloc, what, page, i, action)?,
                None => return Err(ScenarioFault::BadStep(i as u64)),
            }
            sink.take(what, page)?;
        }
        Ok(())
    }

    /// Runs the step objects, each as soon as it is read, and adds their steps to the page.
    pub fn walk<D: RenderSteps>(
        &mut self,
        alloc: Global,
        what: &D,
        page: &mut D::Page,
        steps: &[Value],
    ) -> Result<(), ScenarioFault>
        ensures ok { OnOk result
            ((actions : List Action)
            × (map action_of (map view steps.now) ≡ map Some actions)
            × ((caps : Caps)
            → (capacity : ℕ)
            → IsWalkTo (D.is_page what.now) caps capacity [] 0 self.old.device
            self.old.tickets.items page.old
            → IsWalkTo (D.is_page what.now) caps capacity actions (length steps.now)
            self.new.device self.new.tickets.items page.new)) }
        ensures bad { IfErr result
            (λ e. (e ≡ ScenarioFault.OutOfMemory) ⊎ IsFirstBad (map view steps.now) e) }
    {
        self.walk_into(alloc, what, page, &mut Kept, steps)
    }

    /// Runs the actions, and adds their steps to the page.
    fn make_all<D: RenderSteps>(
        &mut self,
        alloc: Global,
        what: &D,
        page: &mut D::Page,
        actions: &[Action],
    ) -> Added
        ensures { OnOk result
            ((caps : Caps)
            → (capacity : ℕ)
            → IsWalkTo (D.is_page what.now) caps capacity [] 0 self.old.device
            self.old.tickets.items page.old
            → IsWalkTo (D.is_page what.now) caps capacity actions.now (length actions.now)
            self.new.device self.new.tickets.items page.new) }
    {
        for (i, action) in actions.iter().enumerate() {
            self.step(alloc, what, page, i, *action)?;
        }
        Ok(())
    }
}

/// What `what` makes of a run of the document in these bytes, on a device over such a store.
pub fn render_over<S: MakeStore, D: RenderSteps>(alloc: Global, what: &D, bytes: &[u8]) -> Rendered
    ensures ok { IfOk result
        (λ r. (r.fault ≡ None)
        × IsTextOfDocument (D.is_text what.now) bytes.now (string_bytes r.text)) }
    ensures err { IfErr result (λ e. (e ≡ ScenarioFault.OutOfMemory) ⊎ IsFaultOf bytes.now e) }
{
    let script = read_script(alloc, bytes)?;
    let mut run: Run<S> = open_script(alloc, &script)?;
    let mut page = what.open(alloc);
    run.make_all(alloc, what, &mut page, &script.actions)?;
    let text = what.finish(alloc, page, &run.device)?;
    Ok(Rendering {
        text,
        fault: None,
        document: None,
    })
}

/// What `what` makes of a run of the document in these bytes.
pub fn render_steps<D: RenderSteps>(alloc: Global, what: &D, bytes: &[u8]) -> Rendered
    ensures ok { IfOk result
        (λ r. (r.fault ≡ None)
        × IsTextOfDocument (D.is_text what.now) bytes.now (string_bytes r.text)) }
    ensures err { IfErr result (λ e. (e ≡ ScenarioFault.OutOfMemory) ⊎ IsFaultOf bytes.now e) }
{
    render_over::<LinkedStore, D>(alloc, what, bytes)
}
