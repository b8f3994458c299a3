//! The receipts of all seats against a history, in one walk over it.

ghost use Rattle.std.specs.Prelude.{◌≡◌, ℕ, ◌+◌, ◌<◌, ◌≤◌, ◌==◌, ◌↔◌, List, [], ◌∷◌, ◌++◌, false, IsTrue, Some, HoldsAt, length, take, slice_get, slice_index_or};
ghost use Rattle.std.specs.Bool.{OnTrue};
ghost use Rattle.std.specs.Option.{option_map_or};
ghost use Rattle.dsa_book.specs.declared.event.Step.{Step};
ghost use Rattle.dsa_book.specs.declared.event.Actor.TheVariants as actor;
ghost use Rattle.dsa_book.specs.Totals.{steps_of_actor, actor_of, same_actor};
ghost use Rattle.dsa_shared.specs.Settle.{AgreeSoFar, Match};

use crate::blanks::Sharing;
use crate::seats::{ClientSeat, EngineSeat, Numbered, Seats};
use dsa_book::{Actor, Step};
use std::alloc::Allocator;

// There are no more clients, and no more engines.
const MOST: usize = 64;

/// Whether one walk over the history finds each step among the receipts of its actor's seat, and no
/// other receipts. Where it does not, or the seats do not stand in the order of their numbers, the
/// answer is `false`, which says nothing.
pub fn all_match<L: Sharing, A: Allocator>(history: &[Step], seats: &Seats<L, A>) -> bool
    ensures { OnTrue result (Match history.now seats.now.clients.items seats.now.engines.items
        seats.now.admin) }
{
    let Some(admin) = &seats.admin else {
        return false;
    };
    each_matches(history, &seats.clients, &seats.engines, admin.receipts())
}

// A function of its own, so that what each step needs stays in registers.
#[inline(never)]
fn each_matches<L: Sharing, A: Allocator>(
    history: &[Step],
    clients: &[ClientSeat<L, A>],
    engines: &[EngineSeat<L, A>],
    admin: &[Step],
) -> bool
    ensures { OnTrue result (Match history.now clients.now engines.now (Some admin.now)) }
{
    if !stand_in_order(clients) {
        return false;
    }
    if !stand_in_order(engines) {
        return false;
    }
    let mut client_places = [0usize; MOST];
    let mut engine_places = [0usize; MOST];
    let mut admin_place = 0;
    for step in history {
        let who = step.event.actor();
        if !follow(clients, &mut client_places, client_number(who), step) {
            return false;
        }
        if !follow(engines, &mut engine_places, engine_number(who), step) {
            return false;
        }
        if !follow_admin(admin, &mut admin_place, who, step) {
            return false;
        }
    }
    if !have_ended(clients, &client_places) {
        return false;
    }
    if !have_ended(engines, &engine_places) {
        return false;
    }
    admin_place == admin.len()
}

// Whether the seats stand in the order of their numbers, and there is a place for each.
fn stand_in_order<T: Numbered>(seats: &[T]) -> bool
    ensures few { OnTrue result (length seats.now ≤ MOST) }
    ensures order { OnTrue result ((k : ℕ) → k < length seats.now
        → HoldsAt (λ s. T.number s ≡ k) seats.now k) }
{
    if seats.len() > MOST {
        return false;
    }
    for (number, seat) in seats.iter().enumerate() {
        if usize::from(seat.seat_number()) != number {
            return false;
        }
    }
    true
}

// Whether the step, if it is of the seat with this number, is the receipt at the place of that
// seat. The place then moves on.
#[inline(always)]
fn follow<T: Numbered>(
    seats: &[T],
    places: &mut [usize; MOST],
    number: Option<u16>,
    step: &Step,
) -> bool
    requires few { length seats.now ≤ MOST }
    requires whose { (s : T) → same_actor (actor_of step.now.event) (T.actor s)
        ≡ option_map_or (λ n. n == T.number s) number false }
    ensures { OnTrue result ((h : List Step)
        → AgreeSoFar T.number T.actor T.receipts h seats.now places.old
        → AgreeSoFar T.number T.actor T.receipts (h ++ step.now ∷ []) seats.now places.new) }
{
    let Some(own) = number else {
        return true;
    };
    let seat = usize::from(own);
    if seat >= seats.len() {
        return false;
    }
    if !is_at(seats[seat].seat_receipts(), places[seat], step) {
        return false;
    }
    places[seat] += 1;
    true
}

// The same for the administrator, whose steps have no number.
#[inline(always)]
fn follow_admin(receipts: &[Step], place: &mut usize, who: Actor, step: &Step) -> bool
    requires { who ≡ actor_of step.now.event }
    ensures { OnTrue result ((h : List Step)
        → take place.old receipts.now ≡ steps_of_actor h actor.Admin
        → take place.new receipts.now ≡ steps_of_actor (h ++ step.now ∷ []) actor.Admin) }
{
    if !is_admin(who) {
        return true;
    }
    step_on(receipts, place, step)
}

// Whether the step is the receipt at the place, which then moves on. Out of the way of the walk,
// since the administrator makes few steps.
#[cold]
#[inline(never)]
fn step_on(receipts: &[Step], place: &mut usize, step: &Step) -> bool
    ensures { OnTrue result ((slice_get receipts.now place.old ≡ Some step.now)
        × (place.new ≡ place.old + 1)) }
{
    if !is_at(receipts, *place, step) {
        return false;
    }
    *place += 1;
    true
}

#[inline(always)]
fn is_at(receipts: &[Step], place: usize, step: &Step) -> bool
    ensures within { OnTrue result (place < length receipts.now) }
    ensures same { IsTrue result ↔ (slice_get receipts.now place ≡ Some step.now) }
{
    if place >= receipts.len() {
        return false;
    }
    receipts[place].is_same(step)
}

// Whether the place of each seat is the end of its receipts.
fn have_ended<T: Numbered>(seats: &[T], places: &[usize; MOST]) -> bool
    requires { length seats.now ≤ MOST }
    ensures { OnTrue result ((k : ℕ) → k < length seats.now
        → HoldsAt (λ s. slice_index_or places.now k 0 ≡ length (T.receipts s)) seats.now k) }
{
    for (number, seat) in seats.iter().enumerate() {
        if places[number] != seat.seat_receipts().len() {
            return false;
        }
    }
    true
}

#[inline(always)]
fn client_number(who: Actor) -> Option<u16>
    ensures { (k : ℕ) → same_actor who (actor.Client k)
        ≡ option_map_or (λ n. n == k) result false }
{
    match who {
        Actor::Client(number) => Some(number),
        _ => None,
    }
}

#[inline(always)]
fn engine_number(who: Actor) -> Option<u16>
    ensures { (k : ℕ) → same_actor who (actor.Engine k)
        ≡ option_map_or (λ n. n == k) result false }
{
    match who {
        Actor::Engine(number) => Some(number),
        _ => None,
    }
}

#[inline(always)]
fn is_admin(who: Actor) -> bool
    ensures { result ≡ same_actor who actor.Admin }
{
    matches!(who, Actor::Admin)
}
