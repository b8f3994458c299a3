//! Rows that each kind of store passes. Each takes an empty store of the numbers of lists and cells
//! that it names.

use crate::rows::calls::{entry, front, give_back, is_cell, len, move_front, push, push_back};
use dsa_store::{Cell, EntryStore, ListId, cells_stand_once};
use std::process::Abort;

const FIRST: ListId = ListId(0);

const SECOND: ListId = ListId(1);

// The store has two lists and so many cells, each of which is free.
fn is_empty<S: EntryStore>(rt: &impl Abort, store: &S, cells: u32) {
    claim!(rt; store.lists() == 2);
    claim!(rt; store.cells() == cells);
    claim!(rt; store.free() == cells);
}

// How many cells are free, in the first list and in the second.
fn counts<S: EntryStore>(rt: &impl Abort, store: &S) -> (u32, u32, u32) {
    (store.free(), len(rt, store, FIRST), len(rt, store, SECOND))
}

// Two lists and three cells: a list is full, its middle is taken, its front is moved to the other
// list.
pub fn middle_is_taken<S: EntryStore>(rt: &impl Abort, store: &mut S) {
    is_empty(rt, store, 3);
    let a = push(rt, store, FIRST, 10);
    let b = push(rt, store, FIRST, 11);
    let c = push(rt, store, FIRST, 12);
    claim!(rt; push_back(rt, store, FIRST, entry(13)).is_none());
    claim!(rt; store.unlink(b) == Some((FIRST, entry(11))));
    claim!(rt; store.unlink(b).is_none());
    claim!(rt; is_cell(store.next(a), c));
    claim!(rt; is_cell(move_front(rt, store, FIRST, SECOND), a));
    claim!(rt; counts(rt, store) == (1, 1, 1));
}

// Two lists and four cells: three are taken in another order than they came.
pub fn one_is_left<S: EntryStore>(rt: &impl Abort, store: &mut S) {
    is_empty(rt, store, 4);
    let a = push(rt, store, FIRST, 10);
    let b = push(rt, store, FIRST, 11);
    let c = push(rt, store, FIRST, 12);
    let d = push(rt, store, FIRST, 13);
    claim!(rt; store.unlink(b) == Some((FIRST, entry(11))));
    claim!(rt; store.unlink(d) == Some((FIRST, entry(13))));
    claim!(rt; store.unlink(a) == Some((FIRST, entry(10))));
    claim!(rt; front(rt, store, FIRST).1 == Some((c, entry(12))));
    claim!(rt; store.next(c).is_none());
    last_is_given_back(rt, store);
}

// One entry is left in the first list, and another comes into the second.
fn last_is_given_back<S: EntryStore>(rt: &impl Abort, store: &mut S) {
    let e = push(rt, store, SECOND, 14);
    claim!(rt; is_cell(front(rt, store, SECOND).0, e));
    claim!(rt; counts(rt, store) == (2, 1, 1));
    claim!(rt; give_back(rt, store, FIRST) == 1);
    claim!(rt; store.free() == 3);
    let (cell, pair) = front(rt, store, FIRST);
    claim!(rt; cell.is_none());
    claim!(rt; pair.is_none());
}

// Two lists and three cells: one list is given back, and then again, and the other stays.
pub fn list_is_given_back<S: EntryStore>(rt: &impl Abort, store: &mut S) {
    is_empty(rt, store, 3);
    let a = push(rt, store, FIRST, 10);
    let b = push(rt, store, FIRST, 11);
    let c = push(rt, store, SECOND, 12);
    claim!(rt; give_back(rt, store, FIRST) == 2);
    claim!(rt; store.free() == 2);
    claim!(rt; store.get(a).is_none());
    claim!(rt; store.get(b).is_none());
    claim!(rt; give_back(rt, store, FIRST) == 0);
    claim!(rt; counts(rt, store) == (2, 0, 1));
    claim!(rt; front(rt, store, SECOND).1 == Some((c, entry(12))));
    claim!(rt; store.next(c).is_none());
}

// What is read and written of a cell that is not in use.
fn cell_is_unused<S: EntryStore>(rt: &impl Abort, store: &mut S, cell: Cell) {
    claim!(rt; store.get(cell).is_none());
    claim!(rt; store.list_of(cell).is_none());
    claim!(rt; store.next(cell).is_none());
    claim!(rt; !store.set(cell, entry(9)));
    claim!(rt; store.unlink(cell).is_none());
}

// A cell of the list has the entry of that name.
fn cell_is_used<S: EntryStore>(rt: &impl Abort, store: &S, cell: Cell, name: u32, list: ListId) {
    claim!(rt; store.get(cell) == Some(entry(name)));
    claim!(rt; store.list_of(cell) == Some(list));
}

// Two lists and two cells: a cell before, while and after it is in use, and one that the store has
// not.
pub fn cell_is_written<S: EntryStore>(rt: &impl Abort, store: &mut S) {
    cells_stand_once(store);
    for number in 0..3 {
        cell_is_unused(rt, store, Cell(number));
    }
    is_empty(rt, store, 2);
    cell_is_filled(rt, store);
    claim!(rt; store.free() == 2);
}

fn cell_is_filled<S: EntryStore>(rt: &impl Abort, store: &mut S) {
    let a = push(rt, store, SECOND, 10);
    cell_is_used(rt, store, a, 10, SECOND);
    claim!(rt; store.set(a, entry(11)));
    cell_is_used(rt, store, a, 11, SECOND);
    claim!(rt; is_cell(move_front(rt, store, SECOND, FIRST), a));
    claim!(rt; move_front(rt, store, SECOND, FIRST).is_none());
    cell_is_used(rt, store, a, 11, FIRST);
    claim!(rt; store.unlink(a) == Some((FIRST, entry(11))));
    cell_is_unused(rt, store, a);
}
