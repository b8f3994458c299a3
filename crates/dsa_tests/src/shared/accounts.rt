//! What has to add up once a device is settled, whatever its workers did.

use dsa_book::{Reply, Step, SubmitAnswer};
use dsa_device::Device;
use dsa_shared::Settled;
use dsa_store::EntryStore;
use std::alloc::Global;
use std::process::Abort;

/// What was accepted and fetched is done, lost or held, as the history and the fates say.
pub fn add_up<S: EntryStore, R: Abort>(rt: &R, alloc: Global, settled: &Settled<S>) {
    let device = &settled.device;
    let totals = settled.totals;
    let named = totals.accepted.saturating_add(totals.fetched);
    let ended = totals.done.saturating_add(totals.lost);
    same!(rt; named, ended.saturating_add(totals.held));
    same!(rt; named, u64::from(device.next_name()));
    same!(rt; ended, device.fates().len() as u64);
    same!(rt; totals.held, u64::from(device.held()));
    same!(rt; totals.steps, device.history().len() as u64);
    same!(rt; totals.accepted, accepted_in(device.history()));
    names_are_told(rt, alloc, device);
}

fn accepted_in(history: &[Step]) -> u64 {
    history
        .iter()
        .filter(|step| is_accepted(step.reply))
        .count() as u64
}

fn is_accepted(reply: Reply) -> bool {
    matches!(reply, Reply::Submit(SubmitAnswer::Accepted(_)))
}

// Each name that was given has one fate or is held.
fn names_are_told<S: EntryStore, R: Abort>(rt: &R, alloc: Global, device: &Device<S>) {
    let names = device.next_name() as usize;
    let mut told = Vec::from_elem(alloc, false, names).expect(rt, "memory for marks");
    for row in device.fates() {
        tell(rt, &mut told, row.name as usize);
    }
    let left = told.iter().filter(|one| !**one).count();
    same!(rt; left as u64, u64::from(device.held()));
}

// Marks a name that was given, and that had no fate before.
fn tell<R: Abort>(rt: &R, told: &mut [bool], name: usize) {
    assert!(rt; name < told.len());
    claim!(rt; !told[name]);
    told[name] = true;
}
