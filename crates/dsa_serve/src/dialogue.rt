//! A dialogue in its course: a session, and what has come of the next line.

ghost use Rattle.std.specs.Prelude.{◌≡◌, ◌++◌, ◌+◌, [], ◌∷◌, ℕ, Bool, List, take, OnOk};
ghost use Rattle.std.specs.Prelude.{string_bytes};
ghost use Rattle.dsa_serve.specs.{Input.{IsLine}, Dialogue.{Serves, IsDialogueEnded}};

use crate::requests::MAX_LINE;
use crate::session::Session;
use dsa_scenario::add_rows;
use dsa_store::EntryStore;
use memchr::memchr;
use std::alloc::{AllocError, Global};

/// A session, and what is kept of the rest of a line.
#[derive(Drop)]
pub struct Dialogue<S: EntryStore> {
    pub(crate) session: Session<S>,
    pub(crate) kept: Vec<u8>,
}

// Keeps what a piece adds to a line, up to one byte more than a line has.
fn keep(kept: &mut Vec<u8>, piece: &[u8]) -> Result<(), AllocError>
    ensures { OnOk result ((rest : List ℕ) → kept.old.items ≡ take (MAX_LINE + 1) rest
        → kept.new.items ≡ take (MAX_LINE + 1) (rest ++ piece.now)) }
{
    let room = (MAX_LINE + 1).saturating_sub(kept.len());
    kept.extend_from_slice(&piece[..room.min(piece.len())])?;
    Ok(())
}

impl<S: EntryStore> Dialogue<S> {
    // Takes the last piece of a line, without its line feed, and adds the answer to the line.
    fn end_line(&mut self, alloc: Global, text: &mut String, piece: &[u8]) -> Result<(), AllocError>
        ensures { OnOk result
            (IsLine piece.now
            → (is_friendly : Bool) (first : List ℕ) (behind : List ℕ) (written : List ℕ)
            → Serves is_friendly first behind (written ++ string_bytes text.old)
            self.old.session self.old.kept.items
            → Serves is_friendly first (behind ++ piece.now ++ 10 ∷ [])
            (written ++ string_bytes text.new) self.new.session self.new.kept.items) }
    {
        keep(&mut self.kept, piece)?;
        self.session.answer(alloc, text, &self.kept)?;
        self.kept.clear();
        Ok(())
    }

    /// Takes more bytes, and adds the answers to the lines that they complete.
    pub fn feed(&mut self, alloc: Global, text: &mut String, bytes: &[u8]) -> Result<(), AllocError>
        ensures { OnOk result
            ((is_friendly : Bool) (first : List ℕ) (behind : List ℕ) (written : List ℕ)
            → Serves is_friendly first behind (written ++ string_bytes text.old)
            self.old.session self.old.kept.items
            → Serves is_friendly first (behind ++ bytes.now) (written ++ string_bytes text.new)
            self.new.session self.new.kept.items) }
    {
        let mut rest = bytes;
        'lines: while let Some(at) = memchr(b'\n', rest) {
            self.end_line(alloc, text, &rest[..at])?;
            rest = &rest[at + 1..];
        }
        keep(&mut self.kept, rest)?;
        Ok(())
    }

    /// Adds the answer to a last line without a line feed, where it has a byte, and then the fates.
    pub fn add_end(&mut self, alloc: Global, text: &mut String) -> Result<(), AllocError>
        ensures { OnOk result
            ((is_friendly : Bool) (first : List ℕ) (behind : List ℕ) (written : List ℕ)
            → Serves is_friendly first behind (written ++ string_bytes text.old)
            self.old.session self.old.kept.items
            → IsDialogueEnded is_friendly first behind (written ++ string_bytes text.new)) }
    {
        if !self.kept.is_empty() {
            self.session.answer(alloc, text, &self.kept)?;
        }
        add_rows(text, self.session.device.fates())
    }
}
