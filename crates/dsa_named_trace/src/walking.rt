//! The steps of a run, whose lines are written while they are made.

ghost use Rattle.std.specs.Prelude.{◌≡◌, ◌≢◌, ◌⊎◌, ◌+◌, ◌++◌, [], ◌∷◌, ℕ, List, IfErr, IfOk, OnOk, length, map, string_bytes};
ghost use Rattle.serde_json.specs.View.{view};
ghost use Rattle.dsa_regs.specs.declared.Caps.{Caps};
ghost use Rattle.dsa_scenario.specs.declared.actions.Action.{Action};
ghost use Rattle.dsa_scenario.specs.declared.faults.ScenarioFault.{ScenarioFault};
ghost use Rattle.dsa_scenario.specs.Steps.{IsAtFirst, IsWalkTo};
ghost use Rattle.dsa_named.specs.{Names.{own_of}, Steps.{NamedVisit}};
ghost use Rattle.dsa_named_trace.specs.Streams.{HasRefusedNamed, HasTakenFirst, HasTakenNamed};
ghost use Rattle.dsa_named_trace.specs.Streams.{IsNamedPageOf, IsStoppedAt, IsTakenFrom};

use crate::rendering::NamedTrace;
use dsa_named::{NamedPage, RenderNamed, note_name};
use dsa_scenario::{
    Action, Added, Run, ScenarioFault, StepMade, WatchedWriter, ask, event_for, note_ticket,
    write_piece,
};
use dsa_store::EntryStore;
use serde_json::Value;
use std::alloc::Global;
use std::io::Write;

// Runs one action more of these step objects, notes the own name that it gives, and adds its line
// to the page.
fn step_on<'a, S: EntryStore>(
    alloc: Global,
    what: NamedTrace,
    run: &mut Run<S>,
    page: &mut NamedPage<'a, String>,
    steps: &'a [Value],
    number: usize,
    action: &Action,
) -> Added
    ensures { OnOk result
        ((caps : Caps)
        → (capacity : ℕ) → (done : List Action) → (taken : List NamedVisit)
        → IsWalkTo (IsNamedPageOf what.form (map view steps.now) taken) caps capacity done number
        run.old.device run.old.tickets.items
        (string_bytes page.old.page, map own_of page.old.names.items)
        → IsWalkTo (IsNamedPageOf what.form (map view steps.now) taken) caps capacity
        (done ++ action.now ∷ []) (number + 1) run.new.device run.new.tickets.items
        (string_bytes page.new.page, map own_of page.new.names.items)) }
{
    let asked = event_for(&run.tickets, *action);
    let told = what.look(alloc, &run.device, &asked)?;
    let entry = ask(&mut run.device, &asked);
    note_ticket(&mut run.tickets, &entry)?;
    note_name(&mut page.names, steps, number, &entry)?;
    let step = StepMade {
        alloc,
        number,
        told: &told,
        entry: &entry,
        device: &run.device,
    };
    what.add_step(&mut page.page, &step, &page.names)
}

/// Runs the actions of these step objects on a new device, and writes their lines where they are
/// worth a write. It gives the lines that are left, and the own names.
pub fn walk_on<'a, S: EntryStore, W: Write>(
    alloc: Global,
    what: NamedTrace,
    run: &mut Run<S>,
    steps: &'a [Value],
    actions: &[Action],
    writer: &mut WatchedWriter<'_, W>,
) -> Result<NamedPage<'a, String>, ScenarioFault>
    ensures ok { IfOk result
        (λ page. (caps : Caps) → (capacity : ℕ)
        → IsAtFirst caps capacity run.old.device run.old.tickets.items
        → IsWalkTo (IsTakenFrom what.form (map view steps.now)
        (HasTakenNamed W.contents what.form writer.old writer.new)) caps capacity actions.now
        (length actions.now) run.new.device run.new.tickets.items
        (string_bytes page.page, map own_of page.names.items)) }
    ensures fault { IfErr result
        (λ e. (e ≡ ScenarioFault.OutOfMemory) ⊎ (e ≡ ScenarioFault.Write)) }

    // Where it stops, some of the steps were made, and the writer has got lines of the first.
    ensures stopped { IfErr result
        (λ e. (caps : Caps) → (capacity : ℕ)
        → IsAtFirst caps capacity run.old.device run.old.tickets.items
        → (e ≡ ScenarioFault.Write
        → IsStoppedAt (HasRefusedNamed W.contents what.form (map view steps.now)
        writer.old writer.new) caps capacity actions.now)
        × (e ≢ ScenarioFault.Write
        → IsStoppedAt (HasTakenFirst W.contents what.form (map view steps.now)
        writer.old writer.new) caps capacity actions.now)) }
{
    let mut page = NamedPage {
        page: what.open(alloc),
        names: Vec::new(alloc),
    };
    for (i, action) in actions.iter().enumerate() {
        step_on(alloc, what, run, &mut page, steps, i, action)?;
        write_piece(&mut page.page, writer)?;
    }
    Ok(page)
}
