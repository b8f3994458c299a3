//! The store: lists over one array of linked cells.

ghost use Rattle.std.specs.Prelude.{◌≡◌, ◌≢◌, ◌<◌, ℕ, List, [], length, IfOk, MatchOption, None, slice_set, replicate};
ghost use Rattle.dsa_cells.specs.Array.{node_at, entries_of};
ghost use Rattle.dsa_cells.specs.Partition.{AreHeaders, IsPartition, first_or, list_at};
ghost use Rattle.dsa_cells.specs.Writes.{after_transfer, after_splice};
ghost use Rattle.dsa_cells.specs.Invariant.{IsWholeArray, IsWholeArray-prop};
ghost use Rattle.dsa_cells.specs.Content.{content_at, IsUnused, IsUsed};
ghost use Rattle.dsa_cells.specs.Naming.{IsSound-from_whole};

use crate::fresh::{fresh_headers, fresh_nodes};
use crate::links::{Header, Node, splice, transfer};
use dsa_store::{Cell, Entry, EntryStore, ListId};
use std::alloc::{AllocError, Allocator, Global};

/// Lists over one array of cells, each linked to the cell before it and the cell behind it in its
/// list.
///
/// A header for each list has its first cell, its last cell and their number.
/// The free cells are one more list, the last one: a push takes its front, and a cell that is freed
/// becomes its end. Each cell bears the number of its list, so that finding a cell is one look at
/// the array. `push_back`, `move_front` and `unlink` write a fixed number of links, however many
/// cells are in use. `give_back` joins the whole list to the free one by its ends, and marks each
/// of its cells as free.
#[derive(Drop)]
pub struct LinkedStore<A: Allocator = Global> {
    nodes: Vec<Node, A>,
    headers: Vec<Header, A>,
    ghost whole: { IsWholeArray nodes.items
        headers.items } by { IsWholeArray-prop nodes.items headers.items },
}

impl<A: Allocator + Copy> LinkedStore<A> {
    /// A store with every list empty and every cell free.
    /// Takes room for `cells` nodes and for `lists` + 1 headers, and no call takes memory after it.
    /// An error means that this memory was refused, and what had been taken is free again.
    pub fn new(alloc: A, lists: u16, cells: u32) -> Result<Self, AllocError>
        ensures empty { IfOk result
            (λ s. ⟦<LinkedStore<A> as EntryStore>⟧.content s ≡ replicate lists []) }
        ensures cells { IfOk result (λ s. ⟦<LinkedStore<A> as EntryStore>⟧.cells s ≡ cells) }
    {
        let nodes = fresh_nodes(alloc, cells, lists)?;
        let headers = fresh_headers(alloc, cells, lists)?;
        Ok(LinkedStore { nodes, headers })
    }
}

impl<A: Allocator> LinkedStore<A> {
    ghost use Rattle.dsa_cells.specs.Store.{array_of, headers_of, all_lists, entries_in_use};

    /// What every store of linked cells keeps, for a caller to name.
    /// The links agree with the lists that they stand for, each cell stands in exactly one of these
    /// lists, that of the free cells included, and the store holds the lists but that one. The call
    /// does nothing.
    pub fn each_cell_stands_once(&self)
        ensures links { AreHeaders (array_of self.now) (headers_of self.now) (all_lists self.now) }
        ensures once { IsPartition (⟦<LinkedStore<A> as EntryStore>⟧.cells self.now)
            (all_lists self.now) }
        ensures content { ⟦<LinkedStore<A> as EntryStore>⟧.content self.now
            ≡ entries_in_use self.now }
    {}

    /// The first cell of a list, that of the free cells included.
    #[inline(always)]
    fn head(&self, list: u16) -> Option<u32>
        requires { list < length (headers_of self.now) }
        ensures { result ≡ first_or (list_at (all_lists self.now) list) None }
    {
        self.headers[list as usize].head
    }

    /// The node of the cell, if it is in use.
    #[inline(always)]
    fn used_node(&self, cell: Cell) -> Option<Node>
        ensures { MatchOption result (IsUnused (array_of self.now) (headers_of self.now) cell)
            (λ node. IsUsed (array_of self.now) (headers_of self.now) cell node) }
    {
        let at = cell.0 as usize;
        if at >= self.nodes.len() {
            return None;
        }
        let node = self.nodes[at];
        if (node.owner as usize) < self.headers.len() - 1 {
            Some(node)
        } else {
            None
        }
    }

    /// Writes another entry into the cell.
    #[inline(always)]
    fn write(&mut self, cell: u32, entry: Entry)
        requires { cell < length (array_of self.old) }
        ensures lists { all_lists self.new ≡ all_lists self.old }
        ensures entries { entries_of (array_of self.new)
            ≡ slice_set (entries_of (array_of self.old)) cell entry }
        ensures owner { (node_at (array_of self.new) cell).owner
            ≡ (node_at (array_of self.old) cell).owner }
        ensures headers { headers_of self.new ≡ headers_of self.old }
        ensures size { length (array_of self.new) ≡ length (array_of self.old) }
    {
        self.nodes[cell as usize].entry = entry;
    }

    /// Moves a cell from the list that it stands in to the end of another.
    #[inline(always)]
    fn transfer(&mut self, cell: u32, to: u16)
        requires cell_in { cell < length (array_of self.old) }
        requires to_in { to < length (headers_of self.old) }
        requires apart { (node_at (array_of self.old) cell).owner ≢ to }
        ensures lists { all_lists self.new
            ≡ after_transfer (all_lists self.old) cell (node_at (array_of self.old) cell).owner to }
        ensures entries { entries_of (array_of self.new) ≡ entries_of (array_of self.old) }
        ensures sizes { length (array_of self.new) ≡ length (array_of self.old) }
    {
        transfer(&mut self.nodes, &mut self.headers, cell, to);
    }

    /// Moves all cells of a list to the end of another.
    #[inline(always)]
    fn splice(&mut self, from: u16, to: u16)
        requires from_in { from < length (headers_of self.old) }
        requires to_in { to < length (headers_of self.old) }
        requires apart { from ≢ to }
        ensures lists { all_lists self.new ≡ after_splice (all_lists self.old) from to }
        ensures entries { entries_of (array_of self.new) ≡ entries_of (array_of self.old) }
        ensures sizes { length (array_of self.new) ≡ length (array_of self.old) }
    {
        splice(&mut self.nodes, &mut self.headers, from, to);
    }
}

impl<A: Allocator> EntryStore for LinkedStore<A> {
    ghost content = { λ s. content_at s.nodes.items s.headers.items };

    ghost cells = { λ s. length s.nodes.items };

    ghost sound = { λ s. IsSound-from_whole s.nodes.items s.headers.items s.whole };

    #[inline(always)]
    fn lists(&self) -> u16 {
        (self.headers.len() - 1) as u16
    }

    #[inline(always)]
    fn cells(&self) -> u32 {
        self.nodes.len() as u32
    }

    #[inline(always)]
    fn free(&self) -> u32 {
        self.headers[self.headers.len() - 1].count
    }

    /// Takes the front of the free list.
    /// Writes the entry, the two links and the list of that cell, one link of its neighbour in the
    /// free list, one link of the old last of `list`, and the headers of the two lists.
    #[inline(always)]
    fn push_back(&mut self, list: ListId, entry: Entry) -> Option<Cell> {
        let cell = self.head(self.lists())?;
        self.write(cell, entry);
        self.transfer(cell, list.0);
        Some(Cell(cell))
    }

    /// Writes the two links and the list of that cell, one link of the cell that followed it, one
    /// of the old last of `to`, and the headers of the two lists.
    #[inline(always)]
    fn move_front(&mut self, from: ListId, to: ListId) -> Option<Cell> {
        let cell = self.head(from.0)?;
        self.transfer(cell, to.0);
        Some(Cell(cell))
    }

    /// Writes the two links and the list of the cell, one link of each of its neighbours, one of
    /// the old last of the free list, and the headers of its list and of the free one. The entry
    /// stays where it was.
    #[inline(always)]
    fn unlink(&mut self, cell: Cell) -> Option<(ListId, Entry)> {
        let node = self.used_node(cell)?;
        self.transfer(cell.0, self.lists());
        Some((ListId(node.owner), node.entry))
    }

    #[inline(always)]
    fn get(&self, cell: Cell) -> Option<Entry> {
        let node = self.used_node(cell)?;
        Some(node.entry)
    }

    #[inline(always)]
    fn list_of(&self, cell: Cell) -> Option<ListId> {
        let node = self.used_node(cell)?;
        Some(ListId(node.owner))
    }

    #[inline(always)]
    fn set(&mut self, cell: Cell, entry: Entry) -> bool {
        match self.used_node(cell) {
            Some(_) => {
                self.write(cell.0, entry);
                true
            }
            None => false,
        }
    }

    #[inline(always)]
    fn front(&self, list: ListId) -> Option<Cell> {
        self.head(list.0).map(Cell)
    }

    #[inline(always)]
    fn next(&self, cell: Cell) -> Option<Cell> {
        let node = self.used_node(cell)?;
        node.next.map(Cell)
    }

    #[inline(always)]
    fn len(&self, list: ListId) -> u32 {
        self.headers[list.0 as usize].count
    }

    /// Joins the whole list to the end of the free list by its head and its tail.
    /// Writes the list that each of its cells belongs to, one link of its first cell, one of the
    /// old last of the free list, and the headers of the two lists.
    fn give_back(&mut self, list: ListId) -> u32 {
        let count = self.len(list);
        self.splice(list.0, self.lists());
        count
    }
}
