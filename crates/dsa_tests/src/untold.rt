//! What no sentence of an explanation tells: the entries that an abort would end, the read buffers
//! that are kept for a group, and queues of which an engine is told nothing. The explanations of
//! the examples have each other reason. All on a small device over a store of vectors, with queue 0
//! shared and On, in a group with engine 0.

use crate::layers::devices::enabled;
use crate::layers::setup::store;
use dsa_book::{Event, Kind, Portal};
use dsa_device::Device;
use dsa_explain::{aborted_at, kept_for};
use dsa_fixtures::LARGE_MOVE;
use dsa_regs::{Command, ListUse};
use dsa_store::EntryStore;
use std::alloc::Global;
use std::process::Abort;

const DISPATCH: Event = Event::Dispatch { engine: 0 };

// A Move under this PASID, which needs four read buffers.
fn submission(pasid: u32) -> Event {
    Event::Submit {
        client: 0,
        queue: 0,
        portal: Portal::Unlimited,
        kind: Kind::Enqcmd { pasid },
        desc: LARGE_MOVE,
    }
}

// What is looked at: the entries that wait or run, the buffers before and while an entry uses some,
// and the queues.
#[derive(Clone, Copy)]
enum Trial {
    Entries,
    Unused,
    Used,
    Queues,
}

impl Trial {
    fn on<S: EntryStore>(self, rt: &impl Abort, device: &mut Device<S>) {
        match self {
            Trial::Entries => entries_are_told(rt, device),
            Trial::Unused => buffers_are_kept(rt, device),
            Trial::Used => buffers_are_used(rt, device),
            Trial::Queues => queues_are_passed_over(rt, device),
        }
    }
}

fn over_vectors(rt: &impl Abort, alloc: Global, trial: Trial) {
    trial.on(rt, &mut enabled(rt, alloc, store(rt, alloc), 64));
}

// The events come in turn.
fn make<S: EntryStore>(device: &mut Device<S>, events: &[Event]) {
    for event in events {
        device.step(*event);
    }
}

// The name and the list of the entry of this index among those that the command would end.
fn ended<S: EntryStore>(
    device: &Device<S>,
    command: &Command,
    index: usize,
) -> Option<(u32, ListUse)> {
    let held = aborted_at(device, command, index)?;
    Some((held.entry.name, held.list))
}

fn entries_are_told<S: EntryStore>(rt: &impl Abort, device: &mut Device<S>) {
    const CASES: [(Command, usize, Option<(u32, ListUse)>); 8] = [
        (Command::AbortAll, 0, Some((1, ListUse::Queue(0)))),
        (Command::AbortAll, 1, Some((2, ListUse::Queue(0)))),
        (Command::AbortAll, 2, Some((0, ListUse::Progress(0)))),
        (Command::AbortAll, 3, None),
        (Command::AbortPasid(5), 0, Some((2, ListUse::Queue(0)))),
        (Command::AbortPasid(5), 1, Some((0, ListUse::Progress(0)))),
        (Command::AbortPasid(5), 2, None),
        (Command::AbortPasid(7), 0, None),
    ];
    make(
        device,
        &[submission(5), submission(6), submission(5), DISPATCH],
    );
    for (command, index, held) in &CASES {
        claim!(rt; ended(device, command, *index) == *held);
    }
}

#[test]
fn entries_that_an_abort_ends(rt: HostRuntime) {
    over_vectors(&rt, rt.alloc(), Trial::Entries);
}

fn buffers_are_kept<S: EntryStore>(rt: &impl Abort, device: &Device<S>) {
    claim!(rt; kept_for(device, 0) == Some(4));
    claim!(rt; kept_for(device, 1) == Some(0));
    claim!(rt; kept_for(device, 2).is_none());
}

fn buffers_are_used<S: EntryStore>(rt: &impl Abort, device: &mut Device<S>) {
    make(device, &[submission(5), DISPATCH]);
    claim!(rt; kept_for(device, 0) == Some(0));
}

#[test]
fn buffers_that_are_kept(rt: HostRuntime) {
    over_vectors(&rt, rt.alloc(), Trial::Unused);
    over_vectors(&rt, rt.alloc(), Trial::Used);
}

fn queues_are_passed_over<S: EntryStore>(rt: &impl Abort, device: &Device<S>) {
    const CASES: [(u16, u16); 4] = [(0, 1), (0, 2), (1, 0), (2, 0)];
    for &(engine, queue) in &CASES {
        claim!(rt; device.queue_reason(engine, queue).is_none());
    }
    claim!(rt; device.queue_reason(0, 0).is_some());
}

#[test]
fn queues_of_which_nothing_is_told(rt: HostRuntime) {
    over_vectors(&rt, rt.alloc(), Trial::Queues);
}
