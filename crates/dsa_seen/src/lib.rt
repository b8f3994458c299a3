//! A table of the byte strings that were seen, in memory that is taken once.
//!
//! Strings have numbers, which rise from 0 in the order in which they came. Each comes in once.
#![tactic(auto)]

ghost use Rattle.std.specs.Prelude.{◌≡◌, ◌<◌, ◌≤◌, [], length, slice_get, Some, IfOk};
ghost use Rattle.dsa_seen.specs.Table.{IsInserted, HasOneNumberEach};

mod chains;
pub mod rows;

use chains::Chains;
use std::alloc::{AllocError, Global};
use std::marker::Model;

/// What became of a string that was inserted.
#[derive(Clone, Copy, Debug, PartialEq, Eq)]
pub enum Inserted {
    /// It was there, under this number.
    Old(u32),
    /// It was not there, and has this number now.
    New(u32),
    /// It was not there, and the table has as many as it may.
    Full,
    /// It has more bytes than a string of this table may.
    TooLong,
}

/// At most `most` strings of at most `width` bytes.
#[derive(Drop)]
pub struct Seen {
    chains: Chains,
    most: u32,
}

impl Model for Seen {
    ghost use Rattle.dsa_seen.specs.Table.{Table};
    ghost use Rattle.dsa_seen.specs.Chains.{strings_of, IsChained, HasRoomFor};

    ghost Value = { Table };

    ghost view = { λ s.
        record { strings = strings_of s.chains; most = s.most; width = s.chains.width } };

    ghost invariant = { λ s. IsChained s.chains × HasRoomFor s.chains s.most };
}

impl Seen {
    /// An empty table, with all the memory that it needs for so many strings of so many bytes.
    pub fn new(alloc: Global, most: u32, width: u32) -> Result<Seen, AllocError>
        ensures strings { IfOk result (λ seen. seen.strings ≡ []) }
        ensures most { IfOk result (λ seen. seen.most ≡ most) }
        ensures width { IfOk result (λ seen. seen.width ≡ width) }
    {
        let chains = Chains::new(alloc, most, width, most.max(1))?;
        Ok(Seen { chains, most })
    }

    /// How many strings came in.
    pub fn len(&self) -> u32
        ensures count { result ≡ length self.now.strings }
        ensures room { result ≤ self.now.most }
        ensures once { HasOneNumberEach self.now.strings }
    {
        self.chains.lengths.len() as u32
    }

    /// The string of this number.
    pub fn get(&self, number: u32) -> &[u8]
        requires { number < length self.now.strings }
        ensures string { slice_get self.now.strings number ≡ Some result.now }
        ensures width { length result.now ≤ self.now.width }
    {
        self.chains.string(number)
    }

    /// The number of the string, which comes in if it was not there and has room. No memory is
    /// taken.
    pub fn insert(&mut self, bytes: &[u8]) -> Inserted
        ensures { IsInserted self.old bytes.now result self.new }
    {
        if bytes.len() > self.chains.width as usize {
            return Inserted::TooLong;
        }
        let place = self.chains.place(bytes);
        if let Some(number) = self.chains.find(bytes, place) {
            return Inserted::Old(number);
        }
        let number = self.len();
        if number == self.most {
            return Inserted::Full;
        }
        self.chains.push(bytes, place);
        Inserted::New(number)
    }
}
