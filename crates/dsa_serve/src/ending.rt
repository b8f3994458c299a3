//! Where a first document ends: at the end of a line on which no bracket is left open.

ghost use Rattle.std.specs.Prelude.{◌≡◌, ◌<◌, ◌+◌, ◌^◌, true, length, MatchOption};
ghost use Rattle.dsa_serve.specs.Input.{IsEndAt, after_byte, depth_after, depth_of, ends_with};
ghost use Rattle.dsa_serve.specs.Input.{has_no_end, inside_after, is_open};

/// What is open at a place of a document: so many brackets, outside of a text, in one, or in one
/// behind a backslash.
#[derive(Clone, Copy, Debug, PartialEq, Eq)]
pub enum Inside {
    Brackets(usize),
    Text(usize),
    Escape(usize),
}

// How many brackets are open behind this byte, which is in no text.
fn depth_after(depth: usize, byte: u8) -> usize
    requires { depth + 1 < 2 ^ 64 }
    ensures { result ≡ depth_after depth byte }
{
    match byte {
        b'[' | b'{' => depth + 1,
        b']' | b'}' => depth.saturating_sub(1),
        _ => depth,
    }
}

impl Inside {
    /// Whether a document goes on behind a line that ends here.
    fn is_open(self) -> bool
        ensures { result ≡ is_open self }
    {
        match self {
            Inside::Brackets(depth) => depth > 0,
            Inside::Text(_) => false,
            Inside::Escape(_) => false,
        }
    }

    /// Whether a document ends with this byte.
    fn ends_with(self, byte: u8) -> bool
        ensures { result ≡ ends_with self byte }
    {
        byte == b'\n' && !self.is_open()
    }

    /// What is open behind a byte more.
    fn after(self, byte: u8) -> Inside
        requires { depth_of self + 1 < 2 ^ 64 }
        ensures { result ≡ after_byte self byte }
    {
        match self {
            Inside::Brackets(depth) if byte == b'"' => Inside::Text(depth),
            Inside::Brackets(depth) => Inside::Brackets(depth_after(depth, byte)),
            Inside::Text(depth) if byte == b'"' => Inside::Brackets(depth),
            Inside::Text(depth) if byte == b'\\' => Inside::Escape(depth),
            Inside::Text(depth) => Inside::Text(depth),
            Inside::Escape(depth) => Inside::Text(depth),
        }
    }
}

/// The place of the first line feed of the piece that ends the document, if one does.
pub fn end_in(inside: &mut Inside, piece: &[u8]) -> Option<usize>
    requires { depth_of inside.old + length piece.now + 1 < 2 ^ 64 }
    ensures { MatchOption result
        ((has_no_end inside.old piece.now ≡ true)
        × (inside.new ≡ inside_after inside.old piece.now))
        (λ at. (at < length piece.now) × IsEndAt inside.old piece.now at) }
{
    for (at, byte) in piece.iter().enumerate() {
        if inside.ends_with(*byte) {
            return Some(at);
        }
        *inside = inside.after(*byte);
    }
    None
}
