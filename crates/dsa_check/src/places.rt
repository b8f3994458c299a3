//! The line and the column of a place in a text.

ghost use Rattle.std.specs.Prelude.{◌≡◌, ◌+◌, ◌<◌, ◌≤◌, length};
ghost use Rattle.dsa_check.specs.Places.{IsSpot};

/// A place in a text: its offset, and its line and its column, counted from 1.
#[derive(Clone, Copy)]
pub struct Spot {
    pub at: usize,
    pub line: usize,
    pub column: usize,
}

/// Where each text begins.
pub const START: Spot = Spot {
    at: 0,
    line: 1,
    column: 1,
};

impl Spot {
    /// The place one byte on.
    pub fn next(self, bytes: &[u8]) -> Spot
        requires spot { IsSpot bytes.now self }
        requires inside { self.at < length bytes.now }
        ensures spot { IsSpot bytes.now result }
        ensures at { result.at ≡ self.at + 1 }
    {
        let at = self.at + 1;
        if bytes[self.at] == b'\n' {
            Spot {
                at,
                line: self.line + 1,
                column: 1,
            }
        } else {
            Spot {
                at,
                line: self.line,
                column: self.column + 1,
            }
        }
    }

    /// The place at this offset, or this place where that one comes before it.
    pub fn moved_to(self, bytes: &[u8], at: usize) -> Spot
        requires { IsSpot bytes.now self }
        ensures spot { IsSpot bytes.now result }
        ensures at { self.at ≤ at → at ≤ length bytes.now → result.at ≡ at }
    {
        let mut spot = self;
        for i in self.at..at.min(bytes.len()) {
            spot = spot.next(bytes);
        }
        spot
    }
}
