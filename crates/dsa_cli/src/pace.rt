//! A gate at which workers wait for one another, so that engines serve what clients submit also
//! where threads begin late, or share a processor.

use dsa_workers::Gate;
use std::sync::Wait;
use std::sync::atomic::{AtomicU32, AtomicU64, Ordering};
use std::time::Duration;

/// How many turns a round has: two of each of an engine's four kinds.
const ROUND: u32 = 8;

/// How often a worker sleeps, before it takes it that one of the others has no thread.
const SLEEPS: u32 = 50;

/// For how many milliseconds it sleeps, unless the next round begins.
const SLEEP: u64 = 100;

/// Turns come in rounds of 8. A worker that has had its turns of a round sleeps until all others
/// have had theirs, or have ended.
///
/// A worker may have to wait for one that begins only after it, since the system refused a thread.
/// So it waits for some seconds only, and then the gate holds nobody any more. Nor does it once all
/// clients have ended.
#[derive(Drop)]
pub struct Pace<'a, R: Wait> {
    rt: &'a R,
    // Clients have the first numbers.
    first_engine: usize,
    clients: AtomicU32,
    workers: AtomicU32,
    // How many workers still have turns of this round.
    missing: AtomicU32,
    round: AtomicU64,
    is_open: AtomicU32,
}

impl<'a, R: Wait> Pace<'a, R> {
    /// For so many workers, of which the first are clients.
    pub fn new(rt: &'a R, clients: u16, workers: u32) -> Pace<'a, R> {
        Pace {
            rt,
            first_engine: usize::from(clients),
            clients: AtomicU32::new(u32::from(clients)),
            workers: AtomicU32::new(workers),
            missing: AtomicU32::new(workers),
            round: AtomicU64::new(0),
            is_open: AtomicU32::new(0),
        }
    }

    fn next_round(&self) {
        self.round.fetch_add(1, Ordering::SeqCst);
        self.round.wake_all();
    }

    fn open(&self) {
        self.is_open.store(1, Ordering::SeqCst);
        self.next_round();
    }

    // One worker less has turns of this round. The last one begins the next round.
    fn come(&self) {
        if self.missing.fetch_sub(1, Ordering::SeqCst) == 1 {
            let workers = self.workers.load(Ordering::SeqCst);
            self.missing.store(workers, Ordering::SeqCst);
            self.next_round();
        }
    }

    fn sleep(&self, round: u64) {
        let low = (round % (1 << 32)) as u32;
        for _sleep in 0..SLEEPS {
            if self.round.load(Ordering::SeqCst) != round {
                return;
            }
            self.round
                .park_timeout(self.rt, low, Duration::from_millis(SLEEP));
        }
        self.open();
    }
}

impl<'a, R: Wait> Gate for Pace<'a, R> {
    fn pass(&self, _worker: usize, turn: u32) {
        if turn % ROUND != 0 {
            return;
        }
        // The round is read first: where the gate opens now, it becomes another one.
        let round = self.round.load(Ordering::SeqCst);
        if self.is_open.load(Ordering::SeqCst) == 0 {
            self.come();
            self.sleep(round);
        }
    }

    fn leave(&self, worker: usize) {
        if worker < self.first_engine && self.clients.fetch_sub(1, Ordering::SeqCst) == 1 {
            self.open();
        }
        self.workers.fetch_sub(1, Ordering::SeqCst);
        self.come();
    }
}
