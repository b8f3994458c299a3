//! Reads of a list by its cells.

ghost use Rattle.std.specs.Prelude.{◌≡◌, ℕ, ◌<◌, length, slice_get, Some};
ghost use Rattle.std.specs.Iterator.{YieldsFirst, item_count};
ghost use Rattle.dsa_store.specs.Content.{chain};
ghost use Rattle.dsa_store.specs.Walk.{entries_from};

use crate::entry::{Cell, Entry, ListId};
use crate::store::EntryStore;
use std::marker::Model;

/// The front of a list, with its entry. `None` exactly when the list is empty. Two reads of the
/// store.
pub fn front_entry<S: EntryStore>(store: &S, list: ListId) -> Option<(Cell, Entry)>
    requires { list.0 < length (S.content store.now) }
    ensures { result ≡ slice_get (chain (S.content store.now) list.0) 0 }
{
    let cell = store.front(list)?;
    let entry = store.get(cell)?;
    Some((cell, entry))
}

/// The cells of a list in its order, each with its entry, seen as the list of those that are left.
#[derive(Drop)]
pub struct Walk<'a, S: EntryStore> {
    store: &'a S,
    at: Option<Cell>,
}

impl<'a, S: EntryStore> Model for Walk<'a, S> {
    ghost use Rattle.std.specs.Prelude.{List};
    ghost use Rattle.dsa_store.specs.Content.{HeldEntry};
    ghost use Rattle.dsa_store.specs.Walk.{entries_from};

    ghost Value = { List HeldEntry };

    ghost view = { λ walk. entries_from (S.content walk.store.now) walk.at };
}

impl<'a, S: EntryStore> Iterator for Walk<'a, S> {
    type Item = (Cell, Entry);

    ghost next_gives = { YieldsFirst (λ rest. rest) };

    ghost remaining = { item_count (λ rest. rest) };

    fn next(&mut self) -> Option<(Cell, Entry)> {
        let cell = self.at?;
        let entry = self.store.get(cell)?;
        self.at = self.store.next(cell);
        Some((cell, entry))
    }
}

/// The cells of the list in its order, each with its entry. One read of the store, and two more for
/// each cell.
pub fn held_entries<S: EntryStore>(store: &S, list: ListId) -> Walk<'_, S>
    requires { list.0 < length (S.content store.now) }
    ensures { result ≡ chain (S.content store.now) list.0 }
{
    Walk {
        store,
        at: store.front(list),
    }
}

/// The cells of a list from that one on, each with its entry; none if the cell is not in use. Two
/// reads of the store for each cell.
pub fn entries_from<S: EntryStore>(store: &S, cell: Cell) -> Walk<'_, S>
    ensures { result ≡ entries_from (S.content store.now) (Some cell) }
{
    Walk {
        store,
        at: Some(cell),
    }
}
