//! The history of a device, and the fates of what ended.

ghost use Rattle.std.specs.Prelude.{◌≡◌, ◌==◌, ◌<◌, ◌≤◌, ◌++◌, ◌∷◌, [], false, length, IfOk, OnOk, OnErr, find};
ghost use Rattle.dsa_book.specs.Machine.{history_after};
ghost use Rattle.dsa_book.specs.Records.{begun_anew};

use crate::answer::Reply;
use crate::event::{Event, Step};
use crate::fate::{FateRow, PastFates};
use std::alloc::{AllocError, Global};
use std::marker::Model;

/// The steps that a device stores, and a row for each entry that ended, both in order.
#[derive(Drop)]
pub struct Book {
    room: usize,
    capacity: usize,
    row_room: usize,
    anew: bool,
    history: Vec<Step>,
    fates: Vec<FateRow>,
}

impl Model for Book {
    ghost use Rattle.dsa_book.specs.Records.{Records};
    ghost use Rattle.dsa_book.specs.Room.{HasRoom};

    ghost Value = { Records };

    ghost view = { λ b. record {
      history = b.history.items;
      fates = b.fates.items;
      room = b.room;
      capacity = b.capacity;
      row_room = b.row_room;
      anew = b.anew;
    } };

    ghost invariant = { λ b. HasRoom b };
}

impl Book {
    /// An empty book with room for so many steps and as many fate rows. Of the other calls of a
    /// book only `begin_anew` takes memory.
    pub fn new(alloc: Global, capacity: usize) -> Result<Book, AllocError>
        ensures history { IfOk result (λ b. b.history ≡ []) }
        ensures fates { IfOk result (λ b. b.fates ≡ []) }
        ensures room { IfOk result (λ b. b.room ≡ capacity) }
        ensures capacity { IfOk result (λ b. b.capacity ≡ capacity) }
        ensures row_room { IfOk result (λ b. b.row_room ≡ capacity) }
        ensures anew { IfOk result (λ b. b.anew ≡ false) }
    {
        Ok(Book {
            room: capacity,
            capacity,
            row_room: capacity,
            anew: false,
            history: Vec::with_capacity(alloc, capacity)?,
            fates: Vec::with_capacity(alloc, capacity)?,
        })
    }

    /// How many steps the history may have.
    pub fn capacity(&self) -> usize
        ensures { result ≡ self.now.capacity }
    {
        self.capacity
    }

    /// For how many steps memory was taken: the capacity at first, which is less only where fewer
    /// names were left when the history began anew.
    pub fn room(&self) -> usize
        ensures { result ≡ self.now.room }
    {
        self.room
    }

    /// Whether the history began anew.
    pub fn is_anew(&self) -> bool
        ensures { result ≡ self.now.anew }
    {
        self.anew
    }

    /// Begins the history anew, while so many names are left and so many entries are held: no step
    /// is stored, and there is room for as many as at first, or as names are left. Takes memory for
    /// a row for each entry that is held or may come. Where that is refused, nothing changes.
    pub fn begin_anew(
        &mut self,
        past: PastFates,
        names: usize,
        held: usize,
    ) -> Result<(), AllocError>
        ensures ok { OnOk result (self.new ≡ begun_anew self.old past names held) }
        ensures err { OnErr result (self.new ≡ self.old) }
    {
        let capacity = self.room.min(names);
        let rows = capacity.checked_add(held).ok_or(AllocError)?;
        match past {
            PastFates::Kept => self.fates.reserve_exact(rows)?,
            PastFates::Forgotten => {
                let more = rows.saturating_sub(self.fates.len());
                self.fates.reserve_exact(more)?;
                self.fates.clear();
            }
        }
        self.history.clear();
        self.capacity = capacity;
        self.row_room = self.fates.len() + rows;
        self.anew = true;
        Ok(())
    }

    /// Whether the history has as many steps as it may have. It never has more.
    pub fn is_full(&self) -> bool
        ensures full { result ≡ (length self.now.history == self.now.capacity) }
        ensures within { length self.now.history ≤ self.now.capacity }
    {
        self.history.len() == self.capacity
    }

    /// The stored steps, the first one first.
    pub fn history(&self) -> &[Step]
        ensures { result.now ≡ self.now.history }
    {
        self.history.as_slice()
    }

    /// The fate rows, in the order in which entries ended.
    pub fn fates(&self) -> &[FateRow]
        ensures { result.now ≡ self.now.fates }
    {
        self.fates.as_slice()
    }

    /// The first fate row of that name.
    pub fn fate(&self, name: u32) -> Option<FateRow>
        ensures { result ≡ find (λ row. row.name == name) self.now.fates }
    {
        self.fates.iter().copied().find(|row| row.name == name)
    }

    /// Adds a step at the end of the history.
    pub fn add_step(&mut self, step: Step)
        requires { length self.old.history < self.old.capacity }
        ensures { self.new ≡ record self.old { history = self.old.history ++ step ∷ [] } }
    {
        self.history.push_reserved(step);
    }

    /// Adds a row after those of what ended before.
    pub fn add_row(&mut self, row: FateRow)
        requires { length self.old.fates < self.old.row_room }
        ensures { self.new ≡ record self.old { fates = self.old.fates ++ row ∷ [] } }
    {
        self.fates.push_reserved(row);
    }

    /// Adds the step where its reply is one that the history keeps, and else changes nothing.
    pub fn record(&mut self, event: Event, reply: Reply)
        requires { length self.old.history < self.old.capacity }
        ensures { self.new
            ≡ record self.old {
              history = history_after self.old.history
                  (record { event = event; reply = reply });
            } }
    {
        if reply.is_stored() {
            self.add_step(Step { event, reply });
        }
    }
}
