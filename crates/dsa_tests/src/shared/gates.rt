//! Gates that tests hold their workers at.

use dsa_workers::{Gate, RunReport};
use std::alloc::{AllocError, Global};
use std::process::Abort;
use std::sync::atomic::{AtomicU32, Ordering};
use std::thread;
use std::time::{Clock, Duration};

/// Lets other threads run before each turn of a client, so that engines serve what clients send.
#[derive(Drop)]
pub struct Yielding {
    pub clients: usize,
}

impl Gate for Yielding {
    fn pass(&self, worker: usize, _turn: u32) {
        if worker < self.clients {
            thread::yield_now();
        }
    }
}

/// Counts how often each worker has passed, and the passes with another turn than the one that was
/// due.
#[derive(Drop)]
pub struct Passes {
    counts: Vec<AtomicU32>,
    misplaced: AtomicU32,
}

impl Passes {
    pub fn new(alloc: Global, workers: usize) -> Result<Passes, AllocError> {
        let mut counts = Vec::with_capacity(alloc, workers)?;
        for _worker in 0..workers {
            counts.push(AtomicU32::new(0))?;
        }
        Ok(Passes {
            counts,
            misplaced: AtomicU32::new(0),
        })
    }

    // Whether each of these workers has passed so often.
    fn have_come(&self, workers: Several, often: u32) -> bool {
        self.counts
            .iter()
            .skip(workers.first)
            .take(workers.count)
            .all(|count| count.load(Ordering::SeqCst) >= often)
    }

    /// No worker has passed.
    pub fn are_none(&self, rt: &impl Abort) {
        for count in &self.counts {
            same!(rt; count.load(Ordering::SeqCst), 0);
        }
        same!(rt; self.misplaced.load(Ordering::SeqCst), 0);
    }

    /// Each worker has passed with the turns 0, 1 and so on up to the number of turns that the
    /// report gives it.
    pub fn are_those_of(&self, rt: &impl Abort, report: &RunReport) {
        same!(rt; self.misplaced.load(Ordering::SeqCst), 0);
        same!(rt; self.counts.len(), report.turns.len());
        for (count, turns) in self.counts.iter().zip(&report.turns) {
            let passed = u64::from(count.load(Ordering::SeqCst));
            same!(rt; passed, u64::from(*turns) + 1);
        }
    }
}

impl Gate for Passes {
    fn pass(&self, worker: usize, turn: u32) {
        let due = self
            .counts
            .get(worker)
            .map(|count| count.fetch_add(1, Ordering::SeqCst));
        if due != Some(turn) {
            self.misplaced.fetch_add(1, Ordering::SeqCst);
        }
    }
}

/// So many workers, from this number on.
#[derive(Clone, Copy)]
pub struct Several {
    pub first: usize,
    pub count: usize,
}

impl Several {
    fn has(self, worker: usize) -> bool {
        worker >= self.first && worker - self.first < self.count
    }
}

/// These workers, at their pass before this turn, wait until each of those has passed so often.
#[derive(Clone, Copy)]
pub struct Hold {
    pub held: Several,
    pub turn: u32,
    pub until: Several,
    pub often: u32,
}

/// Holds workers at some of their passes. It notes one that waited in vain, and then holds none.
#[derive(Drop)]
pub struct Holding<'a, R: Clock> {
    clock: &'a R,
    holds: &'a [Hold],
    pub passes: Passes,
    missed: AtomicU32,
}

impl<'a, R: Clock + Abort> Holding<'a, R> {
    pub fn new(
        clock: &'a R,
        alloc: Global,
        workers: usize,
        holds: &'a [Hold],
    ) -> Result<Holding<'a, R>, AllocError> {
        Ok(Holding {
            clock,
            holds,
            passes: Passes::new(alloc, workers)?,
            missed: AtomicU32::new(0),
        })
    }

    /// None waited in vain.
    pub fn was_kept(&self, rt: &R) {
        same!(rt; self.missed.load(Ordering::SeqCst), 0);
    }
}

impl<'a, R: Clock> Holding<'a, R> {
    fn wait(&self, hold: &Hold) {
        for _look in 0..20_000u32 {
            if self.passes.have_come(hold.until, hold.often)
                || self.missed.load(Ordering::SeqCst) != 0
            {
                return;
            }
            thread::sleep(self.clock, Duration::from_millis(1));
        }
        self.missed.fetch_add(1, Ordering::SeqCst);
    }
}

impl<'a, R: Clock> Gate for Holding<'a, R> {
    fn pass(&self, worker: usize, turn: u32) {
        self.passes.pass(worker, turn);
        for hold in self.holds {
            if hold.turn == turn && hold.held.has(worker) {
                self.wait(hold);
            }
        }
    }
}
