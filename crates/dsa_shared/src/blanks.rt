//! What names a shared device in types.

ghost use Rattle.std.specs.Prelude.{◌≡◌, ℕ};
ghost use Rattle.dsa_regs.specs.declared.Caps.{Caps};
ghost use Rattle.dsa_shared.specs.Seat.{no_caps};

use std::marker::{Brand, Model};
use std::sync::ledger::{Blank, Book, Ledger, Share};

/// Names one shared device: the ledger of the steps that its history keeps, its capabilities, for
/// how many steps its history has room, and how many clients it has. Only `std::marker::Brand`
/// implements it: see the head of the crate.
pub trait Sharing: Ledger {
    ghost caps: { Caps };

    ghost capacity: { ℕ };

    ghost clients: { ℕ };
}

impl Sharing for Brand {
    ghost caps = { no_caps };

    ghost capacity = { 0 };

    ghost clients = { 0 };
}

/// What the ledger of a shared device is made of: 129 parts, one for each seat that there can be
/// (64 clients, 64 engines and the administrator). Contracts see its name, which no other blanks
/// have.
#[derive(Drop)]
pub struct Blanks {
    blank: Blank,
}

impl Model for Blanks {
    ghost Value = { ℕ };

    ghost view = { λ b. b.blank.name };

    ghost invariant = { λ b. b.blank.parts ≡ 129 };
}

impl Blanks {
    /// New blanks. Takes no memory.
    pub fn new() -> Blanks {
        Blanks {
            blank: Blank::new(129),
        }
    }

    // The ledger of this name, with nothing entered in it.
    pub(crate) fn open<L: Sharing>(self) -> (Book<L>, Share<L>)
        requires name { self ≡ L.name }
        requires parts { L.parts ≡ 129 }
        ensures total { result.0.total ≡ 0 }
        ensures parts { result.1.parts ≡ L.parts }
        ensures amount { result.1.amount ≡ 0 }
    {
        let Blanks { blank } = self;
        blank.open::<L>()
    }
}
