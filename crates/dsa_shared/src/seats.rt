//! The seats of a shared device.

ghost use Rattle.std.specs.Prelude.{◌≡◌, ℕ, List, length};
ghost use Rattle.dsa_book.specs.declared.event.Step.{Step};
ghost use Rattle.dsa_book.specs.declared.event.Actor.{Actor};
ghost use Rattle.dsa_book.specs.declared.event.Actor.TheVariants as actor;
ghost use Rattle.dsa_book.specs.Totals.{total_accepted, total_retried, total_fetched, total_done, total_lost};
ghost use Rattle.dsa_shared.specs.Seat.{number_of_seat, receipts_of};

use crate::blanks::Sharing;
use crate::counts::{is_accepted, is_done, is_fetched, is_retried, lost_in};
use crate::receipts::Receipts;
use dsa_book::{Actor, Step};
use std::alloc::{Allocator, Global};
use std::marker::{Model, PhantomData};

// A seat with a number.
pub(crate) trait Numbered {
    ghost number: { Self → ℕ };

    ghost actor: { Self → Actor };

    ghost receipts: { Self → List Step };

    fn seat_number(&self) -> u16
        ensures { result ≡ number self.now };

    fn seat_actor(&self) -> Actor
        ensures { result ≡ actor self.now };

    fn seat_receipts(&self) -> &[Step]
        ensures { result.now ≡ receipts self.now };
}

/// Whose a numbered seat is.
pub trait Role {
    ghost actor: { ℕ → Actor };

    /// The one who has that number.
    fn actor_of(number: u16) -> Actor
        ensures { result ≡ actor number };
}

/// A client, who submits.
pub struct ClientRole;

impl Role for ClientRole {
    ghost actor = { λ number. actor.Client number };

    fn actor_of(number: u16) -> Actor {
        Actor::Client(number)
    }
}

/// An engine, which takes entries, works on them and ends them.
pub struct EngineRole;

impl Role for EngineRole {
    ghost actor = { λ number. actor.Engine number };

    fn actor_of(number: u16) -> Actor {
        Actor::Engine(number)
    }
}

/// The seat of a client or of an engine. Contracts see its number and its receipts.
#[derive(Drop)]
pub struct NumberedSeat<K: Role, L: Sharing, A: Allocator = Global> {
    pub(crate) number: u16,
    pub(crate) receipts: Receipts<L, A>,
    pub(crate) role: PhantomData<K>,
}

/// The seat of a client.
pub type ClientSeat<L, A = Global> = NumberedSeat<ClientRole, L, A>;

/// The seat of an engine.
pub type EngineSeat<L, A = Global> = NumberedSeat<EngineRole, L, A>;

impl<K: Role, L: Sharing, A: Allocator> Model for NumberedSeat<K, L, A> {
    ghost use Rattle.std.specs.Prelude.{◌≡◌};
    ghost use Rattle.dsa_shared.specs.Seat.{SeatLog};

    ghost Value = { SeatLog };

    ghost view = { λ s. record { number = s.number; receipts = s.receipts.steps } };

    ghost invariant = { λ s. s.receipts.parts ≡ 1 };
}

impl<K: Role, L: Sharing, A: Allocator> Numbered for NumberedSeat<K, L, A> {
    ghost number = { number_of_seat };

    ghost actor = { λ s. K.actor s.number };

    ghost receipts = { receipts_of };

    fn seat_number(&self) -> u16 {
        self.number
    }

    fn seat_actor(&self) -> Actor {
        K::actor_of(self.number)
    }

    fn seat_receipts(&self) -> &[Step] {
        self.receipts.steps()
    }
}

impl<K: Role, L: Sharing, A: Allocator> NumberedSeat<K, L, A> {
    /// The number of the client or of the engine, counted from 0.
    pub fn number(&self) -> u16
        ensures { result ≡ self.now.number }
    {
        self.number
    }

    /// The stored steps that it made, in their order.
    pub fn receipts(&self) -> &[Step]
        ensures { result.now ≡ self.now.receipts }
    {
        self.receipts.steps()
    }

    /// The number of its stored steps.
    pub fn steps(&self) -> u64
        ensures { result ≡ length self.now.receipts }
    {
        self.receipts.steps().len() as u64
    }
}

impl<L: Sharing, A: Allocator> NumberedSeat<ClientRole, L, A> {
    /// How many of its submissions were accepted.
    pub fn accepted(&self) -> u64
        ensures { result ≡ total_accepted self.now.receipts }
    {
        let steps = self.receipts.steps();
        steps.iter().filter(|step| is_accepted(step)).count() as u64
    }

    /// How many of its submissions were turned away for want of room, to come again.
    pub fn retried(&self) -> u64
        ensures { result ≡ total_retried self.now.receipts }
    {
        let steps = self.receipts.steps();
        steps.iter().filter(|step| is_retried(step)).count() as u64
    }
}

impl<L: Sharing, A: Allocator> NumberedSeat<EngineRole, L, A> {
    /// How many members it fetched.
    pub fn fetched(&self) -> u64
        ensures { result ≡ total_fetched self.now.receipts }
    {
        let steps = self.receipts.steps();
        steps.iter().filter(|step| is_fetched(step)).count() as u64
    }

    /// How many entries it ended.
    pub fn done(&self) -> u64
        ensures { result ≡ total_done self.now.receipts }
    {
        let steps = self.receipts.steps();
        steps.iter().filter(|step| is_done(step)).count() as u64
    }

    /// How many members it abandoned.
    pub fn lost(&self) -> u64
        ensures { result ≡ total_lost self.now.receipts }
    {
        lost_in(self.receipts.steps())
    }
}

/// The seat of the administrator, who configures the device and commands it. Contracts see its
/// receipts.
#[derive(Drop)]
pub struct AdminSeat<L: Sharing, A: Allocator = Global> {
    pub(crate) receipts: Receipts<L, A>,
}

impl<L: Sharing, A: Allocator> Model for AdminSeat<L, A> {
    ghost use Rattle.std.specs.Prelude.{◌≡◌, ◌+◌, List};
    ghost use Rattle.dsa_book.specs.declared.event.Step.{Step};

    ghost Value = { List Step };

    ghost view = { λ s. s.receipts.steps };

    // It has the parts of the ledger that no other seat has.
    ghost invariant = { λ s. s.receipts.parts + L.clients + L.caps.engines ≡ L.parts };
}

impl<L: Sharing, A: Allocator> AdminSeat<L, A> {
    /// The stored steps of the administrator, in the order in which it made them.
    pub fn receipts(&self) -> &[Step]
        ensures { result.now ≡ self.now }
    {
        self.receipts.steps()
    }

    /// The number of its stored steps.
    pub fn steps(&self) -> u64
        ensures { result ≡ length self.now }
    {
        self.receipts.steps().len() as u64
    }

    /// How many entries its commands aborted.
    pub fn lost(&self) -> u64
        ensures { result ≡ total_lost self.now }
    {
        lost_in(self.receipts.steps())
    }
}

/// The seats of a shared device. Those that are lent to threads come back to their place before the
/// device is settled.
#[derive(Drop)]
pub struct Seats<L: Sharing, A: Allocator = Global> {
    /// A seat for each client number, in order.
    pub clients: Vec<ClientSeat<L, A>, A>,
    /// A seat for each engine number, in order.
    pub engines: Vec<EngineSeat<L, A>, A>,
    /// The administrator's.
    pub admin: Option<AdminSeat<L, A>>,
}
