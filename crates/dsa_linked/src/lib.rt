//! One device over a store of linked cells, as a type with no parameters.
#![tactic(auto)]

ghost use Rattle.std.specs.Prelude.{◌≡◌, None, IfOk, IfErr};
ghost use Rattle.dsa_base.specs.Rows.{first_row};
ghost use Rattle.dsa_device.specs.Running.{running_at_first};
ghost use Rattle.dsa_device.specs.Made.{opening_table, opening_fault};

use dsa_cells::LinkedStore;
use dsa_device::{Device, MakeFault, check_opening};
use dsa_regs::{Caps, cell_count, list_count};
use std::alloc::Global;

/// A device and its store.
#[derive(Drop)]
pub struct LinkedDevice {
    pub device: Device<LinkedStore>,
}

impl LinkedDevice {
    /// A device that is `Off`, with nothing configured and nothing held. The fault is the first
    /// that stands; want of memory comes where none does.
    pub fn new(alloc: Global, caps: Caps, capacity: u64) -> Result<LinkedDevice, MakeFault>
        ensures opened { IfOk result (λ machine. machine.device ≡ running_at_first caps capacity) }
        ensures no_fault { IfOk result (λ machine. first_row (opening_table caps capacity) ≡ None) }
        ensures fault { IfErr result (λ fault. fault ≡ opening_fault caps capacity) }
    {
        if let Some(fault) = check_opening(&caps, capacity) {
            return Err(fault);
        }
        let Ok(store) = LinkedStore::new(alloc, list_count(&caps), cell_count(&caps)) else {
            return Err(MakeFault::OutOfMemory);
        };
        match Device::new(alloc, store, caps, capacity) {
            Ok(device) => Ok(LinkedDevice { device }),
            Err((fault, _)) => Err(fault),
        }
    }
}
