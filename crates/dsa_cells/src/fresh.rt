//! The array and the headers of a new store: every cell is free.

ghost use Rattle.std.specs.Prelude.{◌≡◌, ℕ, ◌+◌, ◌-◌, ◌<◌, ◌≤◌, ◌++◌, ◌∷◌, [], length, replicate, IfOk};
ghost use Rattle.dsa_cells.specs.Array.{no_header};
ghost use Rattle.dsa_cells.specs.Fresh.{AreFresh, fresh_node, fresh_header};

use crate::links::{Header, Node};
use dsa_desc::Descriptor;
use dsa_store::Entry;
use std::alloc::{AllocError, Allocator};

/// What a cell holds before its first use.
const NO_ENTRY: Entry = Entry {
    name: 0,
    parent: None,
    desc: Descriptor {
        pasid: 0,
        flags: 0,
        op: 0,
        size: 0,
    },
    queue: 0,
    running: false,
};

/// The nodes of that many cells, linked one behind the other in the list of that number.
pub fn fresh_nodes<A: Allocator>(
    alloc: A,
    cells: u32,
    list: u16,
) -> Result<Vec<Node, A>, AllocError>
    ensures { IfOk result (λ v. AreFresh v.items cells list cells) }
{
    let mut nodes = Vec::with_capacity(alloc, cells as usize)?;
    for cell in 0..cells {
        nodes.push_reserved(Node {
            entry: NO_ENTRY,
            next: (cell < cells - 1).then_some(cell + 1),
            previous: cell.checked_sub(1),
            owner: list,
        });
    }
    Ok(nodes)
}

/// The headers of that many empty lists, and last that of the list of all cells.
pub fn fresh_headers<A: Allocator>(
    alloc: A,
    cells: u32,
    lists: u16,
) -> Result<Vec<Header, A>, AllocError>
    ensures { IfOk result (λ v. v.items ≡ replicate lists no_header ++ fresh_header cells ∷ []) }
{
    let mut headers = Vec::with_capacity(alloc, lists as usize + 1)?;
    for _ in 0..lists {
        headers.push_reserved(Header {
            head: None,
            tail: None,
            count: 0,
        });
    }
    headers.push_reserved(Header {
        head: (cells > 0).then_some(0),
        tail: cells.checked_sub(1),
        count: cells,
    });
    Ok(headers)
}
