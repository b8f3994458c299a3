//! Settling: the seats are taken back, and the receipts of each are compared with the history.

ghost use Rattle.std.specs.Prelude.{◌≡◌, ◌≢◌, ◌+◌, ℕ, ◌↔◌, ◌≤◌, ◌^◌, true, false, IsSome, IfOk, OnOk, IfErr, length, sum_by};
ghost use Rattle.dsa_store.specs.Content.{held_count};
ghost use Rattle.dsa_laws.specs.WellFormed.{IsWellFormed};
ghost use Rattle.dsa_accounts.specs.Accounts.{submitted_entries, member_entries, only_members_abandoned};
ghost use Rattle.dsa_device.specs.Running.{Running, IsReplay};
ghost use Rattle.dsa_shared.specs.Locked.{IsUnderLock};
ghost use Rattle.dsa_shared.specs.Settle.{IsComplete, Match, IsFirstMismatch, over_seats};
ghost use Rattle.dsa_shared.specs.Totals.{totals_of, AreSums, Balance};

use crate::blanks::Sharing;
use crate::counts::add;
use crate::device::SharedDevice;
use crate::locked::{Locked, check};
use crate::seats::{AdminSeat, NumberedSeat, Role, Seats};
use dsa_book::Step;
use dsa_device::Device;
use dsa_store::EntryStore;
use std::alloc::{Allocator, Global};
use std::sync::Mutex;
use std::sync::ledger::{Book, Share};
use thiserror::Error;

/// Why settling was refused: the first of these that stands.
#[derive(Clone, Copy, Debug, PartialEq, Eq, Error)]
pub enum SettleFault {
    /// The seats are not one for each client number, one for each engine number and the
    /// administrator's.
    #[error("a seat is missing, or there are two of it")]
    SeatMissing,
    /// The receipts of a seat are not its steps of the history: this is the first position at which
    /// they differ, or at which only one of the two lists has ended. It is of the first such seat:
    /// clients by number, engines by number, administrator.
    #[error("the receipts of a seat differ from the history at {0}")]
    ReceiptMismatch(u64),
}

/// What the seats did together, and how many entries are still held.
#[derive(Clone, Copy, Debug, PartialEq, Eq)]
pub struct Totals {
    /// How many submissions were accepted.
    pub accepted: u64,
    /// How many members of batches were fetched.
    pub fetched: u64,
    /// How many submissions were turned away for want of room, to come again.
    pub retried: u64,
    /// How many entries an engine ended.
    pub done: u64,
    /// How many entries were aborted or abandoned.
    pub lost: u64,
    /// How many entries the device still holds.
    pub held: u64,
    /// How many steps the history has.
    pub steps: u64,
}

/// The device once more in one thread's hands, and what its seats did.
#[derive(Drop)]
pub struct Settled<S: EntryStore> {
    /// The device, with its whole history.
    pub device: Device<S>,
    /// What the seats did, added up.
    pub totals: Totals,
}

/// What comes back where settling was refused: the shared device, and the seats as they went in.
#[derive(Drop)]
pub struct SettleRefused<S: EntryStore, L: Sharing, A: Allocator = Global> {
    /// Why.
    pub fault: SettleFault,
    /// The shared device, which may be used and settled again.
    pub device: SharedDevice<S, L>,
    /// The seats, unchanged.
    pub seats: Seats<L, A>,
}

impl<S: EntryStore, L: Sharing> SharedDevice<S, L> {
    /// Gives the device and the totals, where each seat has come back, once, with just those
    /// receipts that the history has of it. Waits for nobody.
    pub fn settle<A: Allocator>(
        self,
        seats: Seats<L, A>,
    ) -> Result<Settled<S>, SettleRefused<S, L, A>>
        ensures complete { OnOk result (IsComplete seats.clients.items seats.engines.items
            seats.admin L.clients L.caps.engines) }
        ensures matched { IfOk result
            (λ s. Match s.device.history seats.clients.items seats.engines.items seats.admin) }
        ensures totals { IfOk result
            (λ s. s.totals ≡ totals_of s.device.history (held_count s.device.state.work.content)) }
        ensures sums { IfOk result (λ s. AreSums s.totals seats.clients.items seats.engines.items
            seats.admin) }
        ensures balance { IfOk result (λ s. Balance s.totals s.device.state.work) }
        ensures caps { IfOk result (λ s. s.device.caps ≡ L.caps) }
        ensures capacity { IfOk result (λ s. s.device.capacity ≡ L.capacity) }
        ensures not_anew { IfOk result (λ s. s.device.anew ≡ false) }
        ensures replay { IfOk result (λ s. IsReplay s.device) }
        ensures well_formed { IfOk result (λ s. IsWellFormed s.device.caps s.device.state) }
        ensures missing { IfErr result (λ e. (e.fault ≡ SettleFault.SeatMissing)
            ↔ ¬ IsComplete seats.clients.items seats.engines.items seats.admin
            L.clients L.caps.engines) }
        ensures mismatch { IfErr result
            (λ e. (e.fault ≢ SettleFault.SeatMissing)
            → IsComplete seats.clients.items seats.engines.items seats.admin L.clients
            L.caps.engines) }
        ensures mismatch_at { IfErr result
            (λ e. (i : ℕ)
            → e.fault ≡ SettleFault.ReceiptMismatch i
            → (d : Running)
            × IsUnderLock L.caps L.capacity d
            × IsFirstMismatch d.history seats.clients.items seats.engines.items seats.admin i) }
        ensures seats { IfErr result (λ e. (e.seats.clients.items ≡ seats.clients.items)
            × (e.seats.engines.items ≡ seats.engines.items) × (e.seats.admin ≡ seats.admin)) }
    {
        let SharedDevice { clients, locked } = self;
        let locked = locked.into_inner();
        locked.device.state_is_replay();
        let engines = locked.device.caps().engines;
        if let Some(fault) = check(locked.device.history(), &seats, clients, engines) {
            return Err(SettleRefused {
                fault,
                device: SharedDevice {
                    clients,
                    locked: Mutex::new(locked),
                },
                seats,
            });
        }
        Ok(finish(locked, seats))
    }
}

// The totals of seats that are complete and match.
fn finish<S: EntryStore, L: Sharing, A: Allocator>(
    locked: Locked<S, L>,
    seats: Seats<L, A>,
) -> Settled<S>
    requires complete { IsComplete seats.clients.items seats.engines.items seats.admin
        L.clients L.caps.engines }
    requires matched { Match locked.history seats.clients.items seats.engines.items seats.admin }
    ensures device { result.device ≡ locked }
    ensures not_anew { locked.anew ≡ false }
    ensures replay { IsReplay locked }
    ensures well_formed { IsWellFormed locked.caps locked.state }
    ensures caps { locked.caps ≡ L.caps }
    ensures capacity { locked.capacity ≡ L.capacity }
    ensures totals { result.totals
        ≡ totals_of locked.history (held_count locked.state.work.content) }
    ensures sums { AreSums result.totals seats.clients.items seats.engines.items seats.admin }
    ensures balance { Balance result.totals locked.state.work }
{
    let Locked { device, ledger } = locked;
    device.state_is_replay();
    let totals = count(device.history(), device.held());
    close(ledger, seats, totals.steps);
    Settled { device, totals }
}

fn count(history: &[Step], held: u32) -> Totals
    requires { length history.now ≤ 2 ^ 20 }
    ensures { result ≡ totals_of history.now held }
{
    let mut totals = Totals {
        accepted: 0,
        fetched: 0,
        retried: 0,
        done: 0,
        lost: 0,
        held: u64::from(held),
        steps: history.len() as u64,
    };
    for step in history {
        add(&mut totals, step);
    }
    totals
}

// The seats together have as many receipts as the ledger has steps.
fn close<L: Sharing, A: Allocator>(ledger: Book<L>, seats: Seats<L, A>, steps: u64)
    requires all { (length seats.clients.items ≡ L.clients)
        × (length seats.engines.items ≡ L.caps.engines) × IsSome seats.admin }
    requires steps { ledger.total ≡ steps }
    ensures { steps ≡ over_seats length seats.clients.items seats.engines.items seats.admin }
{
    let Seats {
        clients,
        engines,
        admin,
    } = seats;
    let Some(admin) = admin else { unreachable!() };
    let AdminSeat { receipts } = admin;
    let mut ledger = ledger;
    let mut all = receipts.into_share();
    gather(clients, &mut all);
    gather(engines, &mut all);
    ledger.audit(&mut all);
}

fn gather<K: Role, L: Sharing, A: Allocator>(
    seats: Vec<NumberedSeat<K, L, A>, A>,
    all: &mut Share<L>,
)
    ensures parts { all.new.parts ≡ all.old.parts + length seats.items }
    ensures amount { all.new.amount ≡ all.old.amount + sum_by (λ s. length s.receipts) seats.items }
{
    for seat in seats {
        let NumberedSeat {
            number: _,
            receipts,
            role: _,
        } = seat;
        all.merge(receipts.into_share());
    }
}
