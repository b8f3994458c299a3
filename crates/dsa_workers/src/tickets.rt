//! The tickets of an engine's worker, oldest first.

ghost use Rattle.std.specs.Prelude.{◌≡◌, ◌≤◌, ◌<◌, ◌+◌, [], ◌∷◌, ◌++◌, IfOk, MatchOption, drop, vec_len, slice_get};
ghost use Rattle.dsa_workers.specs.Calls.{tickets_after};

use dsa_book::{DispatchAnswer, FinishAnswer, Reply, StartAnswer, Ticket};
use std::alloc::{AllocError, Allocator, Global};
use std::marker::Model;

/// Tickets in the order in which they came, and how many of them were taken.
/// The room for all was taken when it was made. Contracts see those that are left, and the room for
/// more.
#[derive(Drop)]
pub struct Tickets<A: Allocator = Global> {
    came: Vec<Ticket, A>,
    taken: usize,
}

impl<A: Allocator> Model for Tickets<A> {
    ghost use Rattle.std.specs.Prelude.{◌-◌, ◌≤◌, drop, vec_len, vec_capacity};
    ghost use Rattle.dsa_workers.specs.Calls.{Pending};

    ghost Value = { Pending };

    ghost view = { λ t. record
        { tickets = drop t.taken t.came.items; room = vec_capacity t.came - vec_len t.came } };

    ghost invariant = { λ t. t.taken ≤ vec_len t.came };
}

impl<A: Allocator> Tickets<A> {
    /// Room for so many tickets in all.
    pub fn new(alloc: A, room: usize) -> Result<Self, AllocError>
        ensures none { IfOk result (λ r. r.tickets ≡ []) }
        ensures room { IfOk result (λ r. room ≤ r.room) }
    {
        Ok(Tickets {
            came: Vec::with_capacity(alloc, room)?,
            taken: 0,
        })
    }

    pub fn oldest(&self) -> Option<Ticket>
        ensures { result ≡ slice_get self.now.tickets 0 }
    {
        self.came.get(self.taken).copied()
    }

    fn add(&mut self, ticket: Ticket)
        requires { 0 < self.old.room }
        ensures tickets { self.new.tickets ≡ self.old.tickets ++ ticket ∷ [] }
        ensures room { self.old.room ≤ self.new.room + 1 }
    {
        self.came.push_reserved(ticket);
    }

    fn drop_oldest(&mut self)
        ensures tickets { self.new.tickets ≡ drop 1 self.old.tickets }
        ensures room { self.new.room ≡ self.old.room }
    {
        if self.taken < self.came.len() {
            self.taken += 1;
        }
    }

    /// Adds the ticket of an entry that was taken or started. Puts the oldest one last where its
    /// entry was not ready, and drops it where that entry is over.
    pub fn note(&mut self, reply: &Reply)
        requires { 0 < self.old.room }
        ensures tickets { self.new.tickets ≡ tickets_after self.old.tickets reply.now }
        ensures room { self.old.room ≤ self.new.room + 1 }
    {
        match *reply {
            Reply::Dispatch(DispatchAnswer::Taken { ticket, queue: _ })
            | Reply::Start(StartAnswer::Started(ticket)) => self.add(ticket),
            Reply::Finish(FinishAnswer::NotReady) => {
                if let Some(ticket) = self.oldest() {
                    self.drop_oldest();
                    self.add(ticket);
                }
            }
            Reply::Finish(FinishAnswer::Done(_) | FinishAnswer::Gone) => self.drop_oldest(),
            _ => {}
        }
    }
}
