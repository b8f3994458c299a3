//! A run of a document at its beginning: a new device, and the tickets that it gave.

ghost use Rattle.std.specs.Prelude.{◌≡◌, ◌⊎◌, [], map, replicate, IfOk, IfErr, OnOk};
ghost use Rattle.serde_json.specs.View.{view};
ghost use Rattle.dsa_scenario.specs.declared.faults.ScenarioFault.{ScenarioFault};
ghost use Rattle.dsa_scenario.specs.Document.{IsFaultOfHead, IsOpenable, IsOpeningFault};
ghost use Rattle.dsa_scenario.specs.Steps.{IsAtFirst};

use crate::document::{Head, check_head, opening_fault};
use crate::faults::ScenarioFault;
use crate::script::Script;
use dsa_book::Ticket;
use dsa_cells::LinkedStore;
use dsa_device::Device;
use dsa_regs::{Caps, cell_count, list_count};
use dsa_store::{EntryStore, PlainStore};
use std::alloc::{AllocError, Global};

/// A store that can be made for a device.
pub trait MakeStore: EntryStore {
    /// An empty store with these many lists and cells.
    fn make(alloc: Global, lists: u16, cells: u32) -> Result<Self, AllocError>
        ensures empty { IfOk result (λ s. Self.content s ≡ replicate lists []) }
        ensures cells { IfOk result (λ s. Self.cells s ≡ cells) };
}

impl MakeStore for LinkedStore {
    fn make(alloc: Global, lists: u16, cells: u32) -> Result<LinkedStore, AllocError> {
        LinkedStore::new(alloc, lists, cells)
    }
}

impl MakeStore for PlainStore {
    fn make(alloc: Global, lists: u16, cells: u32) -> Result<PlainStore, AllocError> {
        PlainStore::new(alloc, lists, cells)
    }
}

/// A device in the course of a run, and the tickets that it gave, at the places of their names.
#[derive(Drop)]
pub struct Run<S: EntryStore> {
    pub device: Device<S>,
    pub tickets: Vec<Ticket>,
}

/// A run of a document at its beginning, on a new device.
pub fn open_run<S: MakeStore>(alloc: Global, head: &Head<'_>) -> Result<Run<S>, ScenarioFault>
    ensures opening { OnOk result (IsOpenable head.now.caps head.now.capacity) }
    ensures first { IfOk result
        (λ run. IsAtFirst head.now.caps head.now.capacity run.device run.tickets.items) }
    ensures fault { IfErr result
        (λ e. (e ≡ ScenarioFault.OutOfMemory)
        ⊎ IsFaultOfHead head.now.caps head.now.capacity (map view head.now.steps.now) e) }
{
    check_head(head)?;
    make_run(alloc, &head.caps, head.capacity)
}

/// A run of a script at its beginning, on a new device.
pub fn open_script<S: MakeStore>(alloc: Global, script: &Script) -> Result<Run<S>, ScenarioFault>
    ensures opening { OnOk result (IsOpenable script.now.caps script.now.capacity) }
    ensures first { IfOk result
        (λ run. IsAtFirst script.now.caps script.now.capacity run.device run.tickets.items) }
    ensures fault { IfErr result
        (λ e. (e ≡ ScenarioFault.OutOfMemory)
        ⊎ IsOpeningFault script.now.caps script.now.capacity e) }
{
    if let Some(fault) = opening_fault(&script.caps, script.capacity) {
        return Err(fault);
    }
    make_run(alloc, &script.caps, script.capacity)
}

// A new device of these caps and this capacity, which gave no ticket.
fn make_run<S: MakeStore>(
    alloc: Global,
    caps: &Caps,
    capacity: u64,
) -> Result<Run<S>, ScenarioFault>
    requires { IsOpenable caps.now capacity }
    ensures first { IfOk result
        (λ run. IsAtFirst caps.now capacity run.device run.tickets.items) }
    ensures fault { IfErr result (λ e. e ≡ ScenarioFault.OutOfMemory) }
{
    let lists = list_count(caps);
    let store = S::make(alloc, lists, cell_count(caps))?;
    let Ok(device) = Device::new(alloc, store, *caps, capacity) else {
        return Err(ScenarioFault::OutOfMemory);
    };
    device.state_is_replay();
    let tickets = Vec::new(alloc);
    Ok(Run { device, tickets })
}
