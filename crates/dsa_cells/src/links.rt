//! The nodes of the cells and the headers of the lists, and the few writes that move a cell, or a
//! whole list, to the end of a list.

ghost use Rattle.std.specs.Prelude.{◌≡◌, ℕ, ◌+◌, ◌-◌, ◌^◌, ◌<◌, ◌≤◌, ◌≢◌, length, Option, Some};
ghost use Rattle.dsa_cells.specs.Array.{node_at, entries_of};
ghost use Rattle.dsa_cells.specs.Partition.{lists_of, cells_of, list_at};
ghost use Rattle.dsa_cells.specs.Writes.{header_without, with_last, as_last, after_detach, InRange, AreInside, after_transfer, after_mark, after_join, header_after_join, after_splice};
ghost use Rattle.dsa_cells.specs.Invariant.{IsStore};

use dsa_store::Entry;

/// What the array has of a cell: its entry, the cells behind and before it in its list, and the
/// number of that list.
#[derive(Clone, Copy)]
pub struct Node {
    pub entry: Entry,
    pub next: Option<u32>,
    pub previous: Option<u32>,
    pub owner: u16,
}

/// The first cell of a list, the last one, and how many it has. An empty list has neither.
#[derive(Clone, Copy)]
pub struct Header {
    pub head: Option<u32>,
    pub tail: Option<u32>,
    pub count: u32,
}

/// Takes a cell out of the list with that header: its neighbours become neighbours, or the list's
/// ends. Writes one link of each neighbour, and the header.
pub fn detach(nodes: &mut [Node], header: &mut Header, cell: u32)
    requires cell_in { cell < length nodes.old }
    requires next_in { InRange nodes.old (node_at nodes.old cell).next }
    requires previous_in { InRange nodes.old (node_at nodes.old cell).previous }
    requires counted { 0 < header.old.count }
    ensures nodes { nodes.new ≡ after_detach nodes.old cell }
    ensures header { header.new ≡ header_without header.old (node_at nodes.old cell) }
{
    let Node { next, previous, .. } = nodes[cell as usize];
    match previous {
        None => header.head = next,
        Some(before) => nodes[before as usize].next = next,
    }
    match next {
        None => header.tail = previous,
        Some(after) => nodes[after as usize].previous = previous,
    }
    header.count -= 1;
}

/// Puts a cell that stands in no list at the end of the list with that number and header.
/// Writes the links and the owner of the cell, one link of the last cell before it, and the header.
pub fn attach(nodes: &mut [Node], header: &mut Header, list: u16, cell: u32)
    requires cell_in { cell < length nodes.old }
    requires tail_in { InRange nodes.old header.old.tail }
    requires room { header.old.count + 1 < 2 ^ 32 }
    ensures nodes { nodes.new
        ≡ after_join (as_last nodes.old cell list) header.old.tail (Some cell) }
    ensures header { header.new ≡ with_last header.old cell }
{
    let node = &mut nodes[cell as usize];
    node.next = None;
    node.owner = list;
    let last = header.tail;
    join(nodes, last, Some(cell));
    match last {
        None => header.head = Some(cell),
        Some(_) => {}
    }
    header.tail = Some(cell);
    header.count += 1;
}

/// Moves a cell from the list that it stands in to the end of a list.
pub fn transfer(nodes: &mut [Node], headers: &mut [Header], cell: u32, to: u16)
    requires store { IsStore nodes.old headers.old (lists_of nodes.old headers.old) }
    requires cell_in { cell < length nodes.old }
    requires to_in { to < length headers.old }
    requires apart { (node_at nodes.old cell).owner ≢ to }
    requires few { length nodes.old < 2 ^ 32 }
    ensures store { IsStore nodes.new headers.new (lists_of nodes.new headers.new) }
    ensures lists { lists_of nodes.new headers.new
        ≡ after_transfer (lists_of nodes.old headers.old) cell (node_at nodes.old cell).owner to }
    ensures entries { entries_of nodes.new ≡ entries_of nodes.old }
{
    let from = nodes[cell as usize].owner;
    let left = &mut headers[from as usize];
    detach(nodes, left, cell);
    let joined = &mut headers[to as usize];
    attach(nodes, joined, to, cell);
}

/// Writes the number of another list into each cell of the list with that header.
fn mark(nodes: &mut [Node], header: Header, owner: u16)
    requires { AreInside nodes.old (cells_of nodes.old header) }
    ensures { nodes.new ≡ after_mark nodes.old (cells_of nodes.old header) owner }
{
    let mut at = header.head;
    for _step in 0..header.count {
        if let Some(cell) = at {
            at = nodes[cell as usize].next;
            nodes[cell as usize].owner = owner;
        }
    }
}

/// Links two cells to each other. Where one is `None`, the other has no neighbour on that side.
fn join(nodes: &mut [Node], before: Option<u32>, after: Option<u32>)
    requires before_in { InRange nodes.old before }
    requires after_in { InRange nodes.old after }
    ensures { nodes.new ≡ after_join nodes.old before after }
{
    if let Some(cell) = before {
        nodes[cell as usize].next = after;
    }
    if let Some(cell) = after {
        nodes[cell as usize].previous = before;
    }
}

/// The header of two lists that are joined, `kept` first.
fn joined_ends(kept: Header, given: Header) -> Header
    requires { kept.count + given.count < 2 ^ 32 }
    ensures { result ≡ header_after_join kept given }
{
    Header {
        head: kept.head.or(given.head),
        tail: given.tail.or(kept.tail),
        count: kept.count + given.count,
    }
}

/// Joins a whole list to the end of another, by the ends of the two.
/// Writes the owner of each cell that moves, two links, and the two headers.
pub fn splice(nodes: &mut [Node], headers: &mut [Header], from: u16, to: u16)
    requires store { IsStore nodes.old headers.old (lists_of nodes.old headers.old) }
    requires from_in { from < length headers.old }
    requires to_in { to < length headers.old }
    requires apart { from ≢ to }
    requires few { length nodes.old < 2 ^ 32 }
    ensures store { IsStore nodes.new headers.new (lists_of nodes.new headers.new) }
    ensures lists { lists_of nodes.new headers.new
        ≡ after_splice (lists_of nodes.old headers.old) from to }
    ensures entries { entries_of nodes.new ≡ entries_of nodes.old }
{
    let given = headers[from as usize];
    let kept = headers[to as usize];
    mark(nodes, given, to);
    join(nodes, kept.tail, given.head);
    headers[from as usize] = Header {
        head: None,
        tail: None,
        count: 0,
    };
    headers[to as usize] = joined_ends(kept, given);
}
