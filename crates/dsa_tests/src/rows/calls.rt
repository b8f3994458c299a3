//! Calls of a store that see for themselves that it has the lists. So no proof of a row has to.

use dsa_cells::LinkedStore;
use dsa_desc::Descriptor;
use dsa_store::{Cell, Entry, EntryStore, ListId, PlainStore, front_entry};
use std::alloc::Global;
use std::process::Abort;

pub fn plain(rt: &impl Abort, alloc: Global, lists: u16, cells: u32) -> PlainStore {
    PlainStore::new(alloc, lists, cells).expect(rt, "memory for a store")
}

pub fn linked(rt: &impl Abort, alloc: Global, lists: u16, cells: u32) -> LinkedStore {
    LinkedStore::new(alloc, lists, cells).expect(rt, "memory for a store")
}

pub fn entry(name: u32) -> Entry {
    Entry {
        name,
        parent: None,
        desc: Descriptor {
            pasid: 5,
            flags: 0,
            op: 3,
            size: 4096,
        },
        queue: 0,
        running: false,
    }
}

pub fn push_back<S: EntryStore>(
    rt: &impl Abort,
    store: &mut S,
    list: ListId,
    entry: Entry,
) -> Option<Cell> {
    assert!(rt; list.0 < store.lists());
    store.push_back(list, entry)
}

/// The cell of the entry of that name, for which one is free.
pub fn push<S: EntryStore>(rt: &impl Abort, store: &mut S, list: ListId, name: u32) -> Cell {
    push_back(rt, store, list, entry(name)).expect(rt, "a free cell")
}

pub fn move_front<S: EntryStore>(
    rt: &impl Abort,
    store: &mut S,
    from: ListId,
    to: ListId,
) -> Option<Cell> {
    assert!(rt; from.0 < store.lists() && to.0 < store.lists() && from.0 != to.0);
    store.move_front(from, to)
}

pub fn give_back<S: EntryStore>(rt: &impl Abort, store: &mut S, list: ListId) -> u32 {
    assert!(rt; list.0 < store.lists());
    store.give_back(list)
}

pub fn len<S: EntryStore>(rt: &impl Abort, store: &S, list: ListId) -> u32 {
    assert!(rt; list.0 < store.lists());
    store.len(list)
}

/// The first cell of the list, and what `front_entry` gives, which is that cell with its entry.
pub fn front<S: EntryStore>(
    rt: &impl Abort,
    store: &S,
    list: ListId,
) -> (Option<Cell>, Option<(Cell, Entry)>) {
    assert!(rt; list.0 < store.lists());
    (store.front(list), front_entry(store, list))
}

/// The cell at a place of the list.
pub fn cell_at<S: EntryStore>(
    rt: &impl Abort,
    store: &S,
    list: ListId,
    place: u32,
) -> Option<Cell> {
    assert!(rt; list.0 < store.lists());
    let mut cell = store.front(list)?;
    for _ in 0..place {
        cell = store.next(cell)?;
    }
    Some(cell)
}

/// Whether it is that cell.
pub fn is_cell(found: Option<Cell>, wanted: Cell) -> bool {
    found == Some(wanted)
}
