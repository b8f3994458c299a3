//! The receipts of a seat, and its share in the ledger of the device's steps.

ghost use Rattle.std.specs.Prelude.{◌≡◌, ◌+◌, ◌<◌, ◌≤◌, ◌^◌, [], ◌++◌, length, drop, vec_len, vec_capacity};

use crate::blanks::Sharing;
use dsa_book::Step;
use dsa_device::Device;
use dsa_store::EntryStore;
use std::alloc::{AllocError, Allocator};
use std::marker::{Model, PhantomData};
use std::sync::ledger::{Book, Share};

// Room for the receipts of one seat.
#[derive(Drop)]
pub struct Room<L: Sharing, A: Allocator> {
    steps: Vec<Step, A>,
    of: PhantomData<L>,
    ghost empty: { vec_len steps ≡ 0 },
    ghost enough: { L.capacity ≤ vec_capacity steps },
    ghost bounded: { L.capacity ≤ 2 ^ 20 },
}

// The stored steps of a seat in their order, and its share, whose amount is their number.
#[derive(Drop)]
pub struct Receipts<L: Sharing, A: Allocator> {
    share: Share<L>,
    steps: Vec<Step, A>,
}

impl<L: Sharing, A: Allocator> Model for Receipts<L, A> {
    ghost use Rattle.std.specs.Prelude.{◌≡◌, ◌<◌, ◌≤◌, ◌^◌, vec_len, vec_capacity};
    ghost use Rattle.dsa_shared.specs.Seat.{Noted};

    ghost Value = { Noted };

    ghost view = { λ r. record { parts = r.share.parts; steps = r.steps.items } };

    ghost invariant = { λ r. (0 < r.share.parts) × (r.share.amount ≡ vec_len r.steps)
        × (vec_len r.steps ≤ L.capacity) × (L.capacity ≤ vec_capacity r.steps)
        × (L.capacity ≤ 2 ^ 20) };
}

impl<L: Sharing, A: Allocator> Room<L, A> {
    pub fn new(alloc: A, capacity: u64) -> Result<Room<L, A>, AllocError>
        requires capacity { L.capacity ≡ capacity }
        requires bounded { capacity ≤ 2 ^ 20 }
    {
        let steps = Vec::with_capacity(alloc, capacity as usize)?;
        Ok(Room {
            steps,
            of: PhantomData,
        })
    }

    // No receipts yet, with this share.
    pub fn with(self, share: Share<L>) -> Receipts<L, A>
        requires part { 0 < share.parts }
        requires nothing { share.amount ≡ 0 }
        ensures { result ≡ record { parts = share.parts; steps = [] } }
    {
        let Room { steps, of: _ } = self;
        Receipts { share, steps }
    }
}

impl<L: Sharing, A: Allocator> Receipts<L, A> {
    pub fn steps(&self) -> &[Step]
        ensures value { result.now ≡ self.now.steps }
        ensures bounded { length self.now.steps ≤ 2 ^ 20 }
    {
        self.steps.as_slice()
    }

    // Enters in the ledger and among the receipts what the history has beyond its first `before`
    // steps: one step, or none.
    #[inline(always)]
    pub fn note<S: EntryStore>(&mut self, ledger: &mut Book<L>, device: &Device<S>, before: usize)
        requires before { ledger.old.total ≡ before }
        requires grown { (device.now.capacity ≡ L.capacity)
            × (before ≤ length device.now.history)
            × (length device.now.history ≤ before + 1) }
        ensures seen { length self.old.steps ≤ before }
        ensures total { ledger.new.total ≡ length device.now.history }
        ensures noted { self.new
            ≡ record self.old { steps = self.old.steps ++ drop before device.now.history } }
    {
        device.state_is_replay();
        ledger.audit(&mut self.share);
        if let Some(step) = device.history().get(before) {
            self.steps.push_reserved(*step);
            ledger.add(&mut self.share, 1);
        }
    }

    // The share, whose amount is the number of the receipts.
    pub fn into_share(self) -> Share<L>
        ensures parts { result.parts ≡ self.parts }
        ensures amount { result.amount ≡ length self.steps }
    {
        let Receipts { share, steps: _ } = self;
        share
    }
}
