//! What is answered where memory is refused.

use crate::shared::gates::Passes;
use crate::shared::refusing::Refusing;
use crate::shared::sharing::{Attempt, has_steps, over_cells, over_vectors, tried};
use crate::shared::stage::Stage;
use crate::shared::stores::{Trial, over_both_stores};
use crate::shared::working::scripts_for;
use dsa_device::Device;
use dsa_shared::{Blanks, ShareFault, Sharing};
use dsa_store::EntryStore;
use dsa_workers::{RunFault, Scripts, run_threads};
use std::alloc::Global;
use std::marker::{Send, Sync};
use std::process::Abort;
use std::sync::Wait;
use std::thread::Threads;

// What sharing with two clients and two engines asks for: for each kind the seats, a list of rooms
// for receipts and these rooms, and then the administrator's room.
const REQUESTS_OF_SHARING: u32 = 9;

// What a run of two clients and two engines asks for: for each kind lanes and a list of rooms for
// tickets, then each engine's room, and the two lists of the report.
const REQUESTS_OF_A_RUN: u32 = 8;

impl<'a, S, L, R> Stage<'a, S, L, R>
where
    S: EntryStore + Send,
    L: Sharing + Send + Sync,
    R: Threads + Wait + Abort + Sync,
{
    /// Each request of a run is refused in turn. Then no worker has passed the gate, and the seats
    /// have no receipts.
    pub fn run_without_memory(self) {
        let mut stage = self;
        let rt = stage.rt;
        stage.run_with_each();
        let totals = stage.totals();
        same!(rt; totals.accepted, 0);
    }

    fn run_with_each(&mut self) {
        let scripts = scripts_for(self.rt, self.alloc, 2, 2);
        let gate = Passes::new(self.alloc, 5).expect(self.rt, "memory for a gate");
        for granted in 0..REQUESTS_OF_A_RUN {
            let fault = self.run_with(granted, &scripts, &gate);
            same!(self.rt; fault, Some(RunFault::OutOfMemory), granted);
            gate.are_none(self.rt);
        }
        let fault = self.run_with(REQUESTS_OF_A_RUN, &scripts, &gate);
        same!(self.rt; fault, None);
    }

    // A run with so many requests granted, which has to ask once more where it has a fault.
    fn run_with(&mut self, granted: u32, scripts: &Scripts, gate: &Passes) -> Option<RunFault> {
        let heap = Refusing::new(self.alloc, granted);
        let fault = self.run_on(&heap, scripts, gate);
        same!(self.rt; heap.asked(), asked(granted, fault.is_some()), granted);
        fault
    }

    fn run_on(
        &mut self,
        heap: &Refusing<Global>,
        scripts: &Scripts,
        gate: &Passes,
    ) -> Option<RunFault> {
        let rt = self.rt;
        run_threads(rt, heap, &self.shared, &mut self.seats, scripts, gate, 5).err()
    }
}

// So many requests were granted, and one more was refused where there is a fault.
fn asked(granted: u32, is_refused: bool) -> u32 {
    if is_refused {
        granted.saturating_add(1)
    } else {
        granted
    }
}

#[test]
fn runs(rt: HostRuntime) {
    over_both_stores(&rt, rt.alloc(), Trial::RunWithoutMemory);
}

// What comes of sharing with so many requests granted, which has to ask once more where it is
// refused.
fn shared_with<S: EntryStore, R: Abort>(
    rt: &R,
    alloc: Global,
    granted: u32,
    (device, blanks): (Device<S>, Blanks),
) -> Attempt<S> {
    let heap = Refusing::new(alloc, granted);
    let (found, back) = tried(&heap, device, blanks, 2);
    same!(rt; heap.asked(), asked(granted, found.is_err()), granted);
    has_steps(rt, &back, 0);
    (found, back)
}

// Each request is refused in turn, and the next attempt is made with what came back.
fn shared_without_memory<S: EntryStore, R: Abort>(rt: &R, alloc: Global, device: Device<S>) {
    let mut rest = (device, Blanks::new());
    for granted in 0..REQUESTS_OF_SHARING {
        let (found, back) = shared_with(rt, alloc, granted, rest);
        same!(rt; found, Err(ShareFault::OutOfMemory), granted);
        rest = back.expect(rt, "a device that came back");
    }
    let (found, back) = shared_with(rt, alloc, REQUESTS_OF_SHARING, rest);
    same!(rt; found, Ok((2, 2)));
    claim!(rt; back.is_none());
}

#[test]
fn sharing(rt: HostRuntime) {
    let alloc = rt.alloc();
    shared_without_memory(&rt, alloc, over_vectors(&rt, alloc));
    shared_without_memory(&rt, alloc, over_cells(&rt, alloc));
}
