//! A line of bytes, in memory that is taken once.

ghost use Rattle.std.specs.Prelude.{◌≡◌, [], ◌∷◌, Some, unwrap_or, is_none, IfOk};
ghost use Rattle.dsa_key_bytes.specs.Line.{with_byte, with_numbers, emptied};

use std::alloc::{AllocError, Global};
use std::marker::Model;

/// Bytes, of which there may be so many. What was written is lost where it was more.
#[derive(Drop)]
pub struct Line {
    bytes: Vec<u8>,
    is_too_long: bool,
}

impl Model for Line {
    ghost use Rattle.std.specs.Prelude.{vec_capacity, None, Some, cond};
    ghost use Rattle.dsa_key_bytes.specs.Line.{Written};

    ghost Value = { Written };

    ghost view = { λ line. record {
      capacity = vec_capacity line.bytes;
      bytes = cond line.is_too_long None (Some line.bytes.items);
    } };
}

impl Line {
    /// An empty line, with the memory for so many bytes.
    pub fn new(alloc: Global, capacity: usize) -> Result<Line, AllocError>
        ensures capacity { IfOk result (λ line. line.capacity ≡ capacity) }
        ensures bytes { IfOk result (λ line. line.bytes ≡ Some []) }
    {
        let bytes = Vec::with_capacity(alloc, capacity)?;
        Ok(Line {
            bytes,
            is_too_long: false,
        })
    }

    /// The bytes that were written; none where they were too many.
    pub fn bytes(&self) -> &[u8]
        ensures { result.now ≡ unwrap_or self.now.bytes [] }
    {
        if self.is_too_long {
            return &[];
        }
        self.bytes.as_slice()
    }

    /// Whether more was written than the line has room for.
    pub(crate) fn is_too_long(&self) -> bool
        ensures { result ≡ is_none self.now.bytes }
    {
        self.is_too_long
    }

    /// Nothing is written.
    pub(crate) fn clear(&mut self)
        ensures { self.new ≡ emptied self.old }
    {
        self.bytes.clear();
        self.is_too_long = false;
    }

    fn write_byte(&mut self, byte: u8)
        ensures { self.new ≡ with_byte self.old byte }
    {
        if self.is_too_long {
            return;
        }
        if self.bytes.len() == self.bytes.capacity() {
            self.is_too_long = true;
            return;
        }
        self.bytes.push_reserved(byte);
    }

    /// Writes the bytes of the number.
    pub(crate) fn write_number(&mut self, number: u64)
        ensures { self.new ≡ with_numbers self.old (number ∷ []) }
    {
        let mut rest = number;
        while rest > 127 {
            self.write_byte((rest % 128 + 128) as u8);
            rest /= 128;
        }
        self.write_byte(rest as u8);
    }

    /// Writes the bytes of each number.
    pub(crate) fn write_numbers(&mut self, numbers: &[u64])
        ensures { self.new ≡ with_numbers self.old numbers.now }
    {
        for number in numbers {
            self.write_number(*number);
        }
    }
}
