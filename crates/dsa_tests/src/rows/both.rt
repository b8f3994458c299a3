//! The rows of each kind of store, over vectors and over linked cells.

use crate::rows::calls::{linked, plain};
use crate::rows::stores::{cell_is_written, list_is_given_back, middle_is_taken, one_is_left};
use dsa_store::EntryStore;
use std::alloc::Global;
use std::process::Abort;

#[derive(Clone, Copy)]
enum Row {
    Middle,
    Left,
    GivenBack,
    Written,
}

impl Row {
    // How many cells its store has, in two lists.
    fn cells(self) -> u32 {
        match self {
            Row::Middle | Row::GivenBack => 3,
            Row::Left => 4,
            Row::Written => 2,
        }
    }

    fn pass<S: EntryStore>(self, rt: &impl Abort, store: &mut S) {
        match self {
            Row::Middle => middle_is_taken(rt, store),
            Row::Left => one_is_left(rt, store),
            Row::GivenBack => list_is_given_back(rt, store),
            Row::Written => cell_is_written(rt, store),
        }
    }

    // Both kinds of store pass the row.
    fn both_pass(self, rt: &impl Abort, alloc: Global) {
        let cells = self.cells();
        self.pass(rt, &mut plain(rt, alloc, 2, cells));
        let mut linked = linked(rt, alloc, 2, cells);
        self.pass(rt, &mut linked);
        linked.each_cell_stands_once();
    }
}

#[test]
fn rows_of_both_stores(rt: HostRuntime) {
    for row in [Row::Middle, Row::Left, Row::GivenBack, Row::Written] {
        row.both_pass(&rt, rt.alloc());
    }
}
