//! Strings that are stored width by width. Those with one place are a chain.

ghost use Rattle.std.specs.Prelude.{◌≡◌, ℕ, ◌+◌, ◌<◌, ◌≤◌, [], ◌∷◌, ◌++◌, length, slice_get, take, drop, Some, Contains};
ghost use Rattle.std.specs.Prelude.{IfSome, IfNone, IfOk};
ghost use Rattle.dsa_seen.specs.Chains.{hash, place_among, strings_of, IsChained, HasRoomFor};

use std::alloc::{AllocError, Global};

// FNV-1a with 32 bits.
fn hash(bytes: &[u8]) -> u32
    ensures { result ≡ hash bytes.now }
{
    bytes.iter().fold(2_166_136_261, |so_far: u32, byte| {
        (u64::from(so_far ^ u32::from(*byte)) * 16_777_619 % 0x1_0000_0000) as u32
    })
}

// So many bytes from there on.
fn bytes_at(stored: &[u8], start: usize, count: usize) -> &[u8]
    requires { start + count ≤ length stored.now }
    ensures { result.now ≡ take count (drop start stored.now) }
{
    &stored[start..][..count]
}

/// A string has a width of `stored`, which its bytes begin. A link is 1 and the number of a string,
/// or 0: `heads` has for each place the link to the string of it that came last, `nexts` for each
/// string that to the one of its place before it.
#[derive(Drop)]
pub struct Chains {
    pub(crate) width: u32,
    pub(crate) stored: Vec<u8>,
    pub(crate) lengths: Vec<u32>,
    pub(crate) nexts: Vec<u32>,
    pub(crate) heads: Vec<u32>,
}

impl Chains {
    /// No strings, with all the memory that so many need, and so many places.
    pub(crate) fn new(
        alloc: Global,
        most: u32,
        width: u32,
        places: u32,
    ) -> Result<Chains, AllocError>
        requires { 0 < places }
        ensures sound { IfOk result IsChained }
        ensures room { IfOk result (λ chains. HasRoomFor chains most) }
        ensures empty { IfOk result (λ chains. strings_of chains ≡ []) }
        ensures width { IfOk result (λ chains. chains.width ≡ width) }
    {
        let stored = Vec::with_capacity(alloc, most as usize * width as usize)?;
        let lengths = Vec::with_capacity(alloc, most as usize)?;
        let nexts = Vec::with_capacity(alloc, most as usize)?;
        let heads = vec![in alloc; 0; places as usize]?;
        Ok(Chains {
            width,
            stored,
            lengths,
            nexts,
            heads,
        })
    }

    /// The string of this number.
    pub(crate) fn string(&self, number: u32) -> &[u8]
        requires sound { IsChained self.now }
        requires within { number < length (strings_of self.now) }
        ensures string { slice_get (strings_of self.now) number ≡ Some result.now }
        ensures width { length result.now ≤ self.now.width }
    {
        let start = number as usize * self.width as usize;
        bytes_at(&self.stored, start, self.lengths[number as usize] as usize)
    }

    /// The place of the bytes.
    pub(crate) fn place(&self, bytes: &[u8]) -> u32
        requires { IsChained self.now }
        ensures place { result ≡ place_among (length self.now.heads.items) bytes.now }
        ensures within { result < length self.now.heads.items }
    {
        (hash(bytes) as usize % self.heads.len()) as u32
    }

    /// The number of the bytes, which have this place.
    pub(crate) fn find(&self, bytes: &[u8], place: u32) -> Option<u32>
        requires sound { IsChained self.now }
        requires place { place ≡ place_among (length self.now.heads.items) bytes.now }
        ensures found { IfSome result (λ i. slice_get (strings_of self.now) i ≡ Some bytes.now) }
        ensures none { IfNone result (¬ (Contains (strings_of self.now) bytes.now)) }
    {
        let mut link = self.heads[place as usize];
        while link > 0 {
            let number = link - 1;
            if self.string(number) == bytes {
                return Some(number);
            }
            link = self.nexts[number as usize];
        }
        None
    }

    /// The bytes come in last.
    pub(crate) fn push(&mut self, bytes: &[u8], place: u32)
        requires sound { IsChained self.old }
        requires new { ¬ (Contains (strings_of self.old) bytes.now) }
        requires place { place ≡ place_among (length self.old.heads.items) bytes.now }
        requires width { length bytes.now ≤ self.old.width }
        requires room { HasRoomFor self.old (length (strings_of self.old) + 1) }
        ensures sound { IsChained self.new }
        ensures room { (most : ℕ) → length (strings_of self.old) < most → HasRoomFor self.old most
            → HasRoomFor self.new most }
        ensures strings { strings_of self.new ≡ strings_of self.old ++ bytes.now ∷ [] }
        ensures width { self.new.width ≡ self.old.width }
    {
        let number = self.lengths.len() as u32;
        self.stored.extend_from_slice(bytes).unwrap();
        let end = (number as usize + 1) * self.width as usize;
        self.stored.resize(end, 0).unwrap();
        self.lengths.push_reserved(bytes.len() as u32);
        self.nexts.push_reserved(self.heads[place as usize]);
        self.heads[place as usize] = number + 1;
    }
}
