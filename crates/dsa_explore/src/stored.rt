//! The worlds that a search stored, by their keys, and the rows that it found.

ghost use Rattle.std.specs.Prelude.{◌≡◌, IfOk, IfErr, OnOk, map};
ghost use Rattle.dsa_explore.specs.Rows.{AddsRows};
ghost use Rattle.dsa_explore.specs.Stored.{IsStoredAt, IsUnstored};

use crate::found::Found;
use crate::halting::Halt;
use crate::rows::add_all;
use dsa_parties::Move;
use dsa_seen::{Inserted, Seen};
use std::alloc::AllocError;

/// A move, and the queue that an entry is to be taken from, if one is.
#[derive(Clone, Copy, Debug, PartialEq, Eq)]
pub struct Try {
    pub by: Move,
    pub queue: Option<u16>,
}

/// How a world was first reached: from which one, by what, and after how many moves in all.
#[derive(Clone, Copy, Debug, PartialEq, Eq)]
pub struct Node {
    pub parent: u32,
    pub tried: Try,
    pub level: u32,
}

/// A search: a key and a node for each world that was stored, the rows, the level of the worlds
/// that are stored now, and how many steps were tried.
#[derive(Drop)]
pub struct Search {
    pub seen: Seen,
    pub nodes: Vec<Node>,
    pub rows: Vec<Found>,
    pub front: u32,
    pub tried: u64,
}

// Stores a world by its key, if it was not stored, and gives its number, or says why it does not
// fit.
fn store(
    search: &mut Search,
    key: &[u8],
    parent: u32,
    tried: Try,
) -> Result<Result<u32, Halt>, AllocError>
    ensures stored { IfOk result
        (λ stored. IfOk stored (λ i. IsStoredAt search.old key.now parent tried i search.new)) }
    ensures unstored { IfOk result
        (λ stored. IfErr stored (λ halt. IsUnstored search.old key.now halt search.new)) }
    ensures most { OnOk result (search.new.seen.most ≡ search.old.seen.most) }
    ensures width { OnOk result (search.new.seen.width ≡ search.old.seen.width) }
    ensures rows { OnOk result (search.new.rows ≡ search.old.rows) }
    ensures front { OnOk result (search.new.front ≡ search.old.front) }
{
    match search.seen.insert(key) {
        Inserted::Old(number) => Ok(Ok(number)),
        Inserted::New(number) => {
            let level = search.front;
            search.nodes.push(Node {
                parent,
                tried,
                level,
            })?;
            Ok(Ok(number))
        }
        Inserted::Full => Ok(Err(Halt::States)),
        Inserted::TooLong => Ok(Err(Halt::KeyBytes)),
    }
}

/// Adds what a step told, and stores where it led to, or says why that does not fit.
pub fn note(
    search: &mut Search,
    told: &[Found],
    key: &[u8],
    parent: u32,
    tried: Try,
) -> Result<Result<u32, Halt>, AllocError>
    ensures stored { IfOk result
        (λ stored. IfOk stored (λ i. IsStoredAt search.old key.now parent tried i search.new)) }
    ensures unstored { IfOk result
        (λ stored. IfErr stored (λ halt. IsUnstored search.old key.now halt search.new)) }
    ensures most { OnOk result (search.new.seen.most ≡ search.old.seen.most) }
    ensures width { OnOk result (search.new.seen.width ≡ search.old.seen.width) }
    ensures rows { OnOk result
        (AddsRows search.old.front (map (λ row. row.finding) told.now) search.old.rows.items
        search.new.rows.items) }
    ensures front { OnOk result (search.new.front ≡ search.old.front) }
{
    add_all(&mut search.rows, told, search.front)?;
    search.tried = search.tried.saturating_add(1);
    store(search, key, parent, tried)
}
