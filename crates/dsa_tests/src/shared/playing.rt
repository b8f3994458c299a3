//! Steps that are made by their seats, in the order of a table.

use crate::shared::stage::Stage;
use dsa_book::{Fate, FateRow, Step};
use dsa_shared::{Settled, Sharing, Totals};
use dsa_store::EntryStore;
use std::process::Abort;
use std::sync::Wait;

/// Steps with the answers that they have to get, the fates that come of them, and the totals.
#[derive(Clone, Copy)]
pub struct Play<'a> {
    pub capacity: u64,
    pub steps: &'a [Step],
    pub fates: &'a [FateRow],
    pub totals: Totals,
}

impl<'a> Play<'a> {
    fn was_settled<S: EntryStore, R: Abort>(self, rt: &R, settled: &Settled<S>) {
        same!(rt; settled.device.fates(), self.fates);
        same!(rt; settled.totals, self.totals);
    }

    // What became of the entry of that name.
    fn fate_of(self, name: u32) -> Option<Fate> {
        let row = self.fates.iter().find(|row| row.name == name)?;
        Some(row.fate)
    }
}

impl<'a, S: EntryStore, L: Sharing, R: Wait + Abort> Stage<'a, S, L, R> {
    // Any thread is told the fate of each entry, and how many are held.
    fn tells(&self, play: Play) {
        same!(self.rt; u64::from(self.shared.held(self.rt)), play.totals.held);
        same!(self.rt; self.shared.fate(self.rt, u32::MAX), None);
        for ticket in &self.record.tickets {
            let fate = self.shared.fate(self.rt, ticket.name);
            same!(self.rt; fate, play.fate_of(ticket.name), ticket.name);
        }
    }

    /// Makes the steps of the play, and settles.
    pub fn played(self, play: Play) {
        let mut stage = self;
        let rt = stage.rt;
        stage.make(play.steps);
        stage.tells(play);
        let settled = stage.settled_as_told();
        play.was_settled(rt, &settled);
    }

    /// The same on an enabled device.
    pub fn played_enabled(self, play: Play) {
        let mut stage = self;
        stage.set_up();
        stage.played(play);
    }
}
