//! The same calls of two stores, whose answers agree wherever a contract fixes them.
//!
//! Which free cell a push takes is open. So cells are named here by their places, and told apart by
//! their entries.

use crate::rows::calls::{cell_at, entry, give_back, len, linked, move_front, plain, push_back};
use dsa_store::{Cell, Entry, EntryStore, ListId};
use std::process::Abort;

const LISTS: u16 = 3;

// A call of a store, where a cell is the one at a place of a list.
#[derive(Clone, Copy)]
enum Call {
    PushBack(ListId, Entry),
    MoveFront(ListId, ListId),
    Unlink(ListId, u32),
    Set(ListId, u32, Entry),
    GiveBack(ListId),
}

// What a store answers, where a cell is told by its entry.
#[derive(PartialEq, Debug, Drop)]
enum Answer {
    Cell(Option<Entry>),
    Taken(Option<(ListId, Entry)>),
    IsSet(bool),
    Count(u32),
}

fn entry_of<S: EntryStore>(store: &S, cell: Option<Cell>) -> Option<Entry> {
    store.get(cell?)
}

fn answer_to<S: EntryStore>(rt: &impl Abort, store: &mut S, call: Call) -> Answer {
    match call {
        Call::PushBack(list, entry) => {
            let cell = push_back(rt, store, list, entry);
            Answer::Cell(entry_of(store, cell))
        }
        Call::MoveFront(from, to) => {
            let cell = move_front(rt, store, from, to);
            Answer::Cell(entry_of(store, cell))
        }
        Call::Unlink(list, place) => match cell_at(rt, store, list, place) {
            Some(cell) => Answer::Taken(store.unlink(cell)),
            None => Answer::Taken(None),
        },
        Call::Set(list, place, entry) => match cell_at(rt, store, list, place) {
            Some(cell) => Answer::IsSet(store.set(cell, entry)),
            None => Answer::IsSet(false),
        },
        Call::GiveBack(list) => Answer::Count(give_back(rt, store, list)),
    }
}

// The call that a number stands for, with an entry of that name.
fn call_of(number: u32, name: u32) -> Call {
    let list = ListId(((number >> 8) % 3) as u16);
    let next = ListId((list.0 + 1) % LISTS);
    let place = (number >> 16) % 4;
    match number >> 29 {
        0 | 1 | 2 => Call::PushBack(list, entry(name)),
        3 | 4 => Call::MoveFront(list, next),
        5 => Call::Unlink(list, place),
        6 => Call::Set(list, place, entry(name)),
        _ => Call::GiveBack(list),
    }
}

// The cells at a place of the list in each store hold the same entry, and stand in that list.
fn places_are_alike<S: EntryStore, T: EntryStore>(
    rt: &impl Abort,
    one: &S,
    other: &T,
    list: ListId,
    place: u32,
) {
    let cell = cell_at(rt, one, list, place).expect(rt, "a cell");
    let twin = cell_at(rt, other, list, place).expect(rt, "its twin");
    claim!(rt; one.get(cell) == other.get(twin));
    claim!(rt; one.list_of(cell) == Some(list));
    claim!(rt; other.list_of(twin) == Some(list));
}

// One list of the two stores, cell by cell.
fn lists_are_alike<S: EntryStore, T: EntryStore>(
    rt: &impl Abort,
    one: &S,
    other: &T,
    list: ListId,
) {
    let length = len(rt, one, list);
    claim!(rt; len(rt, other, list) == length);
    for place in 0..length {
        places_are_alike(rt, one, other, list, place);
    }
    claim!(rt; cell_at(rt, one, list, length).is_none());
    claim!(rt; cell_at(rt, other, list, length).is_none());
}

// A call of each store, whose answers are the same.
fn call_is_alike<S: EntryStore, T: EntryStore>(
    rt: &impl Abort,
    one: &mut S,
    other: &mut T,
    call: Call,
) {
    let said = answer_to(rt, one, call);
    claim!(rt; said == answer_to(rt, other, call));
    claim!(rt; one.free() == other.free());
    for list in 0..LISTS {
        lists_are_alike(rt, one, other, ListId(list));
    }
}

fn calls_are_alike<S: EntryStore, T: EntryStore>(rt: &impl Abort, one: &mut S, other: &mut T) {
    let mut number: u32 = 1;
    for name in 0..2000 {
        number = number.wrapping_mul(1664525).wrapping_add(1013904223);
        call_is_alike(rt, one, other, call_of(number, name));
    }
}

#[test]
fn both_stores(rt: HostRuntime) {
    let mut plain = plain(&rt, rt.alloc(), LISTS, 7);
    let mut linked = linked(&rt, rt.alloc(), LISTS, 7);
    calls_are_alike(&rt, &mut plain, &mut linked);
}
