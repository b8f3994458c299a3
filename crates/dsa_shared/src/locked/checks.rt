//! The receipts of all seats against a history.

ghost use Rattle.std.specs.Prelude.{◌≡◌, ◌≢◌, ◌==◌, ◌<◌, ◌↔◌, ℕ, All, Any, IsTrue, IfSome, IfNone, Some, count_by};
ghost use Rattle.dsa_book.specs.Totals.{steps_of_actor};
ghost use Rattle.dsa_shared.specs.Compare.{DiffersFirstAt};
ghost use Rattle.dsa_shared.specs.Settle.{HasEach, AllMatch, FirstMismatch, IsComplete, Match, IsFirstMismatch};

use crate::blanks::Sharing;
use crate::compare::compare_receipts;
use crate::locked::walk::all_match;
use crate::seats::{Numbered, Seats};
use crate::settle::SettleFault;
use dsa_book::{Actor, Step};
use std::alloc::Allocator;

/// The fault of settling with this history and these seats: `SeatMissing` exactly where they are
/// not one for each of these numbers of clients and engines and the administrator's, and else what
/// [`crate::compare_receipts`] gives for the first seat for which it gives anything: clients by
/// number, engines by number, and the administrator.
pub fn check<L: Sharing, A: Allocator>(
    history: &[Step],
    seats: &Seats<L, A>,
    clients: u16,
    engines: u16,
) -> Option<SettleFault>
    ensures missing { (result ≡ Some SettleFault.SeatMissing)
        ↔ ¬ IsComplete seats.now.clients.items seats.now.engines.items seats.now.admin clients
        engines }
    ensures complete { (result ≢ Some SettleFault.SeatMissing)
        → IsComplete seats.now.clients.items seats.now.engines.items seats.now.admin clients
        engines }
    ensures mismatch { (i : ℕ)
        → (result ≡ Some (SettleFault.ReceiptMismatch i))
        ↔ (IsComplete seats.now.clients.items seats.now.engines.items seats.now.admin clients
        engines
        × IsFirstMismatch history.now seats.now.clients.items seats.now.engines.items
        seats.now.admin i) }
    ensures none { IfNone result (Match history.now seats.now.clients.items seats.now.engines.items
        seats.now.admin) }
{
    if !is_complete(seats, clients, engines) {
        return Some(SettleFault::SeatMissing);
    }
    match mismatch(history, seats, clients, engines) {
        Some(at) => Some(SettleFault::ReceiptMismatch(at)),
        None => None,
    }
}

fn is_complete<L: Sharing, A: Allocator>(seats: &Seats<L, A>, clients: u16, engines: u16) -> bool
    ensures { IsTrue result ↔ IsComplete seats.now.clients.items seats.now.engines.items
        seats.now.admin clients engines }
{
    if seats.admin.is_none() {
        return false;
    }
    if !has_each(&seats.clients, clients) {
        return false;
    }
    has_each(&seats.engines, engines)
}

// Where all match, one walk over the history tells it. Else each seat has a walk of its own.
fn mismatch<L: Sharing, A: Allocator>(
    history: &[Step],
    seats: &Seats<L, A>,
    clients: u16,
    engines: u16,
) -> Option<u64>
    requires { IsComplete seats.now.clients.items seats.now.engines.items
        seats.now.admin clients engines }
    ensures some { IfSome result
        (IsFirstMismatch history.now seats.now.clients.items seats.now.engines.items
        seats.now.admin) }
    ensures none { IfNone result (Match history.now seats.now.clients.items seats.now.engines.items
        seats.now.admin) }
{
    if all_match(history, seats) {
        return None;
    }
    let Some(admin) = &seats.admin else {
        unreachable!()
    };
    if let Some(at) = first_mismatch(history, &seats.clients, clients) {
        return Some(at);
    }
    if let Some(at) = first_mismatch(history, &seats.engines, engines) {
        return Some(at);
    }
    compare_receipts(history, Actor::Admin, admin.receipts())
}

// Whether there is one seat for each number below `count`, and no other.
fn has_each<T: Numbered>(seats: &[T], count: u16) -> bool
    ensures { IsTrue result ↔ HasEach T.number count seats.now }
{
    all_below(seats, count) && has_one_of_each(seats, count)
}

fn all_below<T: Numbered>(seats: &[T], count: u16) -> bool
    ensures { IsTrue result ↔ All (λ s. T.number s < count) seats.now }
{
    seats.iter().all(|seat| seat.seat_number() < count)
}

fn has_one_of_each<T: Numbered>(seats: &[T], count: u16) -> bool
    ensures { IsTrue result
        ↔ ((k : ℕ) → k < count → count_by (λ s. k == T.number s) seats.now ≡ 1) }
{
    for number in 0..count {
        if holders(seats, number) != 1 {
            return false;
        }
    }
    true
}

fn holders<T: Numbered>(seats: &[T], number: u16) -> usize
    ensures { result ≡ count_by (λ s. number == T.number s) seats.now }
{
    seats
        .iter()
        .filter(|seat| number == seat.seat_number())
        .count()
}

// The first mismatch, by the seats' numbers.
fn first_mismatch<T: Numbered>(history: &[Step], seats: &[T], count: u16) -> Option<u64>
    requires { All (λ s. T.number s < count) seats.now }
    ensures none { IfNone result (AllMatch T.actor T.receipts history.now seats.now) }
    ensures some { IfSome result (FirstMismatch T.number T.actor T.receipts history.now seats.now) }
{
    for number in 0..count {
        if let Some(at) = mismatch_of(history, seats, number) {
            return Some(at);
        }
    }
    None
}

// The mismatch of a seat with this number.
fn mismatch_of<T: Numbered>(history: &[Step], seats: &[T], number: u16) -> Option<u64>
    ensures none { IfNone result (All (λ s. T.number s ≡ number
        → T.receipts s ≡ steps_of_actor history.now (T.actor s)) seats.now) }
    ensures some { IfSome result (λ i. Any (λ s. (T.number s ≡ number)
        × DiffersFirstAt (T.receipts s) (steps_of_actor history.now (T.actor s)) i) seats.now) }
{
    for seat in seats {
        if seat.seat_number() == number {
            let at = compare_receipts(history, seat.seat_actor(), seat.seat_receipts());
            if at.is_some() {
                return at;
            }
        }
    }
    None
}
