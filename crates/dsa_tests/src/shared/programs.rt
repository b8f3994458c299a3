//! Programs: each part is done once for each seat of its kind, all at the same time, and what they
//! did comes back.

use crate::shared::accounts::add_up;
use crate::shared::steps::totals;
use dsa_book::{DispatchAnswer, Portal, StartAnswer};
use dsa_cells::LinkedStore;
use dsa_desc::Outcome;
use dsa_device::Device;
use dsa_fixtures::{CAPS, ENQCMD, FENCED_MOVE, MOVE, SHARED_QUEUE, batch_of, bytes_of};
use dsa_regs::{Caps, Command, GroupConfig, QueueConfig, cell_count, check_caps, list_count};
use dsa_shared::{AdminSeat, ClientSeat, EngineSeat, SharedDevice, Sharing, Totals};
use dsa_store::{EntryStore, PlainStore};
use dsa_workers::{Program, run_program};
use std::alloc::Global;
use std::marker::{Send, Sync};
use std::process::Abort;
use std::sync::Wait;
use std::sync::atomic::{AtomicU32, Ordering};
use std::thread;
use std::thread::Threads;
use std::time::{Clock, Duration};

const QUEUE: QueueConfig = QueueConfig {
    size: 64,
    threshold: 64,
    ..SHARED_QUEUE
};

// So many clients, the engines of a group, and how many batches each engine ends.
#[derive(Clone, Copy)]
struct Parts {
    clients: u16,
    engines: u16,
    group: u64,
    each: u16,
}

impl Parts {
    fn caps(self) -> Caps {
        Caps {
            queues: 1,
            groups: 1,
            engines: self.engines,
            total_size: 64,
            read_buffers: 64,
            slots: 1,
            ..CAPS
        }
    }

    fn group_config(self) -> GroupConfig {
        GroupConfig {
            queues: 1,
            engines: self.group,
            reserved: 0,
            allowed: 64,
        }
    }

    fn threads(self) -> u32 {
        u32::from(self.clients) + u32::from(self.engines)
    }
}

// Each client submits a batch once all threads have begun, and the engines work once all clients
// have. It counts the parts that waited in vain, or that came before the device was set up.
#[derive(Drop)]
struct Joint<'a, R: Clock> {
    clock: &'a R,
    parts: Parts,
    begun: AtomicU32,
    submitted: AtomicU32,
    set_ups: AtomicU32,
    missed: AtomicU32,
}

impl<'a, R: Clock> Joint<'a, R> {
    fn new(clock: &'a R, parts: Parts) -> Joint<'a, R> {
        Joint {
            clock,
            parts,
            begun: AtomicU32::new(0),
            submitted: AtomicU32::new(0),
            set_ups: AtomicU32::new(0),
            missed: AtomicU32::new(0),
        }
    }

    fn miss(&self) {
        self.missed.fetch_add(1, Ordering::SeqCst);
    }

    fn wait(&self, count: &AtomicU32, often: u32) {
        for _look in 0..20_000u32 {
            if count.load(Ordering::SeqCst) >= often || self.missed.load(Ordering::SeqCst) != 0 {
                return;
            }
            thread::sleep(self.clock, Duration::from_millis(1));
        }
        self.miss();
    }

    // A part begins, and waits for all others.
    fn begin(&self) {
        if self.set_ups.load(Ordering::SeqCst) != 1 {
            self.miss();
        }
        self.begun.fetch_add(1, Ordering::SeqCst);
        self.wait(&self.begun, self.parts.threads());
    }
}

impl<'a, R: Clock + Abort> Joint<'a, R> {
    // Each part was done once, and none waited in vain.
    fn was_done(&self, rt: &R) {
        same!(rt; self.set_ups.load(Ordering::SeqCst), 1);
        same!(rt; self.begun.load(Ordering::SeqCst), self.parts.threads());
        same!(rt; self.missed.load(Ordering::SeqCst), 0);
    }
}

// The engine takes a batch of two, of which the first member has a page fault and the second a
// fence, and ends it.
fn end_one<S: EntryStore, L: Sharing, R: Wait>(
    rt: &R,
    shared: &SharedDevice<S, L>,
    seat: &mut EngineSeat<L>,
) {
    let DispatchAnswer::Taken { ticket: batch, .. } = shared.dispatch(rt, seat) else {
        return;
    };
    shared.fetch(rt, seat, MOVE);
    shared.fetch(rt, seat, FENCED_MOVE);
    if let StartAnswer::Started(first) = shared.start(rt, seat) {
        shared.finish(rt, seat, first, Outcome::PageFault);
    }
    shared.start(rt, seat);
    shared.finish(rt, seat, batch, Outcome::Success);
}

impl<'a, C: Clock> Program for Joint<'a, C> {
    fn set_up<S: EntryStore, L: Sharing, R: Wait>(
        &self,
        rt: &R,
        shared: &SharedDevice<S, L>,
        seat: &mut AdminSeat<L>,
    ) {
        shared.write_queue(rt, seat, 0, QUEUE);
        shared.write_group(rt, seat, 0, self.parts.group_config());
        shared.issue(rt, seat, Command::EnableDevice);
        shared.issue(rt, seat, Command::EnableWq(0));
        self.set_ups.fetch_add(1, Ordering::SeqCst);
    }

    fn submit<S: EntryStore, L: Sharing, R: Wait>(
        &self,
        rt: &R,
        shared: &SharedDevice<S, L>,
        seat: &mut ClientSeat<L>,
    ) {
        self.begin();
        let bytes = bytes_of(batch_of(2));
        shared.submit(rt, seat, 0, Portal::Limited, ENQCMD, &bytes);
        self.submitted.fetch_add(1, Ordering::SeqCst);
    }

    fn serve<S: EntryStore, L: Sharing, R: Wait>(
        &self,
        rt: &R,
        shared: &SharedDevice<S, L>,
        seat: &mut EngineSeat<L>,
    ) {
        self.begin();
        self.wait(&self.submitted, u32::from(self.parts.clients));
        for _batch in 0..self.parts.each {
            end_one(rt, shared, seat);
        }
    }
}

// The totals of so many batches, each with a member that ends and one that is lost.
fn totals_of(batches: u16) -> Totals {
    let batches = u64::from(batches);
    totals(
        batches,
        2 * batches,
        0,
        2 * batches,
        batches,
        0,
        4 + 8 * batches,
    )
}

fn is_run<S, R>(rt: &R, alloc: Global, parts: Parts, store: S)
where
    S: EntryStore + Send,
    R: Threads + Wait + Clock + Abort + Sync,
{
    let device = match Device::new(alloc, store, parts.caps(), 600) {
        Ok(device) => device,
        Err(_) => panic!(rt; "the device was not made"),
    };
    let joint = Joint::new(rt, parts);
    let settled = match run_program(rt, alloc, device, parts.clients, &joint) {
        Ok(settled) => settled,
        Err(_) => panic!(rt; "the program came to no totals"),
    };
    joint.was_done(rt);
    add_up(rt, alloc, &settled);
    same!(rt; settled.totals, totals_of(parts.clients));
}

fn are_done<R: Threads + Wait + Clock + Abort + Sync>(rt: &R, alloc: Global, parts: Parts) {
    let caps = parts.caps();
    assert!(rt; check_caps(&caps));
    let (lists, cells) = (list_count(&caps), cell_count(&caps));
    let plain = PlainStore::new(alloc, lists, cells).expect(rt, "memory for a store");
    is_run(rt, alloc, parts, plain);
    let linked = LinkedStore::new(alloc, lists, cells).expect(rt, "memory for a store");
    is_run(rt, alloc, parts, linked);
}

#[test]
fn parts_of_programs(rt: HostRuntime) {
    let table = [(1, 1, 0x1, 1), (20, 5, 0x1f, 4), (33, 11, 0x7ff, 3)];
    for (clients, engines, group, each) in table {
        let parts = Parts {
            clients,
            engines,
            group,
            each,
        };
        are_done(&rt, rt.alloc(), parts);
    }
}
