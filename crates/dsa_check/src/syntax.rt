//! What is wrong with a text that is no JSON.

ghost use Rattle.std.specs.Prelude.{◌≡◌, true, IfOk, option_map, codes, Some};
ghost use Rattle.dsa_check.specs.Flaws.{name_of_sign, name_of_long, IsToldAs, IsPieceAt};
ghost use Rattle.dsa_check.specs.Flaws.{takes_text, example_of, IsWantedAfter, is_opening};
ghost use Rattle.dsa_check.specs.Flaws.{openings_in, EndWithComma, end_of, IsOpenFrom, IsBegunAt};
ghost use Rattle.dsa_check.specs.Flaws.{IsSyntaxAt};
ghost use Rattle.dsa_check.specs.Places.{IsSpot};
ghost use Rattle.dsa_check.specs.Reasons.{is_plain};

use crate::places::Spot;
use std::alloc::{AllocError, Global};
use std::str;

/// How deep a text may be nested.
pub const MOST_NESTED: usize = 127;

/// The most bytes of a text that is told as it stands.
const MOST_TOLD: usize = 40;

/// What is wrong at a place of a text that is no JSON.
#[derive(Drop)]
pub enum Syntax {
    /// Arrays and objects are nested more than 127 deep.
    TooDeep,
    /// A comma stands before the end of an array or an object.
    CommaBefore { what: &'static str },
    Comment,
    /// Something else stands there than what may.
    Unwanted { found: Piece, wanted: Wanted },
}

/// What stands at a place of a text that is no JSON.
#[derive(Drop)]
pub enum Piece {
    /// The text ends there.
    End,
    LineBreak,
    Tab,
    /// Another control character.
    Control,
    /// A character beyond ASCII.
    Character,
    ByteOrderMark,
    /// A text, a number, a word or a sign, which is short and plain.
    Told(String),
    /// One that is long or not plain.
    Text,
    Number,
    Word,
}

/// What may stand at a place of a JSON text.
#[derive(Clone, Copy, PartialEq, Eq)]
pub enum Wanted {
    /// The object that a document is.
    Document,
    /// A value, after a colon.
    Value,
    /// The first item of an array, or its end.
    FirstItem,
    /// An item, after a comma.
    Item,
    /// The first key of an object, or its end.
    FirstKey,
    /// A key, after a comma.
    Key,
    Colon,
    /// What follows a value in an array or an object.
    More {
        in_array: bool,
    },
    /// The end of the array or the object that begins there.
    Closing {
        is_array: bool,
        line: usize,
        column: usize,
    },
    /// Nothing, since the document has ended.
    Nothing,
    /// One of three words.
    Word,
    Digit,
    /// A number with no 0 before its other digits.
    NoZero,
    /// A number that the floats of 64 bits reach.
    InRange,
    DoubleQuote,
    /// The end of the text that begins there.
    Quote {
        line: usize,
        column: usize,
    },
    /// A character in a text.
    Escaped,
    /// What may follow a backslash.
    Escape,
    HexDigit,
    /// Both halves of a surrogate pair.
    Pair,
    /// At most 127 arrays and objects around a value.
    Depth,
}

/// Whether it may stand inside a text.
pub fn is_in_text(wanted: Wanted) -> bool {
    matches!(
        wanted,
        Wanted::Escaped | Wanted::Escape | Wanted::HexDigit | Wanted::Pair
    )
}

// Whether it may stand between two values.
fn is_between(wanted: Wanted) -> bool {
    !is_in_text(wanted) && wanted != Wanted::Digit
}

/// Whether a text can be told as it stands.
pub fn is_plain(text: &str) -> bool
    ensures { result ≡ is_plain text.now }
{
    text.len() <= MOST_TOLD && text.bytes().all(|byte| byte >= b' ' && byte <= b'~')
}

// How many bytes a text has that begins here, with both quotes.
fn text_length(bytes: &[u8]) -> usize {
    let mut is_escaped = false;
    for (at, byte) in bytes.iter().enumerate().skip(1) {
        if *byte == b'"' && !is_escaped {
            return at.saturating_add(1);
        }
        is_escaped = *byte == b'\\' && !is_escaped;
    }
    bytes.len()
}

fn is_of_word(byte: u8) -> bool {
    byte.is_ascii_alphanumeric() || matches!(byte, b'_' | b'+' | b'-' | b'.')
}

// How many bytes a number or a word has that begins here.
fn word_length(bytes: &[u8]) -> usize {
    match bytes.iter().position(|byte| !is_of_word(*byte)) {
        Some(length) => length,
        None => bytes.len(),
    }
}

// How many of these bytes are told as one.
fn piece_length(bytes: &[u8], first: u8, wanted: Wanted) -> usize {
    if wanted == Wanted::Pair {
        6
    } else if is_in_text(wanted) {
        1
    } else if first == b'"' {
        text_length(bytes)
    } else if is_of_word(first) {
        word_length(bytes)
    } else {
        1
    }
}

// What is told in place of a text, a number or a word that is long or not plain, by its first
// byte.
fn name_of_long(first: u8) -> Piece
    ensures { result ≡ name_of_long first }
{
    match first {
        b'"' => Piece::Text,
        b'-' | b'0'..=b'9' => Piece::Number,
        _ => Piece::Word,
    }
}

// These bytes, as they are told.
fn told_piece(alloc: Global, piece: &[u8], first: u8) -> Result<Piece, AllocError>
    ensures { IfOk result (IsToldAs piece.now first) }
{
    match str::from_utf8(piece) {
        Ok(text) if is_plain(text) => Ok(Piece::Told(String::from_str(alloc, text)?)),
        _ => Ok(name_of_long(first)),
    }
}

// What is told of these bytes where the first is a control character or beyond ASCII.
fn name_of_sign(bytes: &[u8], first: u8) -> Option<Piece>
    ensures { result ≡ name_of_sign bytes.now first }
{
    match first {
        b'\n' | b'\r' => Some(Piece::LineBreak),
        b'\t' => Some(Piece::Tab),
        0..=0x1f | 0x7f => Some(Piece::Control),
        0x20..=0x7e => None,
        _ if bytes.starts_with(b"\xef\xbb\xbf") => Some(Piece::ByteOrderMark),
        _ => Some(Piece::Character),
    }
}

// What stands at the start of these bytes.
fn piece_of(alloc: Global, bytes: &[u8], wanted: Wanted) -> Result<Piece, AllocError>
    ensures { IfOk result (IsPieceAt bytes.now) }
{
    let Some(first) = bytes.first().copied() else {
        return Ok(Piece::End);
    };
    match name_of_sign(bytes, first) {
        Some(name) => Ok(name),
        None => {
            let length = piece_length(bytes, first, wanted).max(1).min(bytes.len());
            told_piece(alloc, &bytes[..length], first)
        }
    }
}

/// How what is wanted may begin. Nothing may follow a document.
pub fn example_of(wanted: Wanted) -> Option<&'static str>
    ensures { option_map (λ text. text.now) result ≡ example_of wanted }
{
    match wanted {
        Wanted::Document | Wanted::Value | Wanted::FirstItem | Wanted::Item => Some("\"\""),
        Wanted::FirstKey | Wanted::Key => Some("\"\":0"),
        Wanted::Colon => Some(":0"),
        Wanted::More { in_array: true } | Wanted::Closing { is_array: true, .. } => Some(",0"),
        Wanted::More { .. } | Wanted::Closing { .. } => Some(",\"\":0"),
        Wanted::Nothing => None,
        Wanted::Word => Some("true"),
        Wanted::DoubleQuote | Wanted::Quote { .. } | Wanted::Escaped => Some("\""),
        Wanted::Escape => Some("n"),
        Wanted::Pair => Some("\\ud800\\udc00"),
        Wanted::Digit | Wanted::NoZero | Wanted::InRange | Wanted::HexDigit | Wanted::Depth => Some(
            "0",
        ),
    }
}

// Whether a text in double quotes may stand there.
fn takes_text(wanted: Wanted) -> bool
    ensures { result ≡ takes_text wanted }
{
    matches!(
        wanted,
        Wanted::Document
            | Wanted::Value
            | Wanted::FirstItem
            | Wanted::Item
            | Wanted::FirstKey
            | Wanted::Key
    )
}

/// How an array ends that has a value, an object, and a text, by the sign that begins each.
pub fn end_of(sign: u8) -> &'static str
    ensures { result.now ≡ end_of sign }
{
    match sign {
        b'[' => ",0]",
        b'{' => ",\"\":0}",
        _ => "\"",
    }
}

fn is_opening(byte: u8) -> bool
    ensures { result ≡ is_opening byte }
{
    matches!(byte, b'[' | b'{')
}

// How many arrays and objects begin in these bytes, at most: what stands in a text counts too.
fn openings_in(bytes: &[u8]) -> usize
    ensures { result ≡ openings_in bytes.now }
{
    bytes.iter().filter(|byte| is_opening(**byte)).count()
}

// Whether what is wanted comes after a comma, which these bytes end with but for white space.
fn is_after_comma(before: &[u8], wanted: Wanted) -> bool
    ensures { result ≡ true → EndWithComma before.now }
{
    matches!(wanted, Wanted::Item | Wanted::Key) && before.trim_ascii_end().ends_with(b",")
}

// What ends a text that begins at this place, where these bytes end.
fn wanted_in_text(before: &[u8], next: Option<u8>, begin: Spot) -> Wanted
    ensures example { example_of result ≡ Some (codes "\"") }
    ensures begun { IsSpot before.now begin → IsOpenFrom before.now begin.at
        → IsBegunAt before.now result }
{
    match (next, before.get(begin.at).copied()) {
        (None, Some(b'"')) => Wanted::Quote {
            line: begin.line,
            column: begin.column,
        },
        _ => Wanted::Escaped,
    }
}

// What follows a value in an array or an object that begins at this place. Its end is told with the
// place before the end of another, or where these bytes end.
fn wanted_after_value(before: &[u8], in_array: bool, next: Option<u8>, begin: Spot) -> Wanted
    ensures example { example_of result ≡ example_of (Wanted.More in_array) }
    ensures begun { IsSpot before.now begin → IsOpenFrom before.now begin.at
        → IsBegunAt before.now result }
{
    match (next, before.get(begin.at).copied()) {
        (None | Some(b']' | b'}'), Some(b'[')) if in_array => Wanted::Closing {
            is_array: true,
            line: begin.line,
            column: begin.column,
        },
        (None | Some(b']' | b'}'), Some(b'{')) if !in_array => Wanted::Closing {
            is_array: false,
            line: begin.line,
            column: begin.column,
        },
        _ => Wanted::More { in_array },
    }
}

// What is wanted between these bytes and this one, or the end, in what begins at the place.
fn wanted_before(before: &[u8], wanted: Wanted, next: Option<u8>, begin: Spot) -> Wanted
    ensures example { example_of result ≡ example_of wanted }
    ensures begun { IsSpot before.now begin → IsOpenFrom before.now begin.at
        → IsBegunAt before.now result }
{
    match wanted {
        Wanted::Escaped | Wanted::Quote { .. } => wanted_in_text(before, next, begin),
        Wanted::More { in_array } => wanted_after_value(before, in_array, next, begin),
        Wanted::Closing { is_array, .. } => wanted_after_value(before, is_array, next, begin),
        _ => wanted,
    }
}

// The same, where a single quote stands in place of a double one.
fn wanted_at(before: &[u8], wanted: Wanted, next: Option<u8>, begin: Spot) -> Wanted
    ensures allowed { IsWantedAfter before.now wanted → IsWantedAfter before.now result }
    ensures begun { IsSpot before.now begin → IsOpenFrom before.now begin.at
        → IsBegunAt before.now result }
{
    match next {
        Some(b'\'') if takes_text(wanted) => Wanted::DoubleQuote,
        _ => wanted_before(before, wanted, next, begin),
    }
}

/// What is wrong between the bytes before a place and these, where something else is wanted in what
/// begins at another place.
pub fn syntax_of(
    alloc: Global,
    before: &[u8],
    bytes: &[u8],
    wanted: Wanted,
    begin: Spot,
) -> Result<Syntax, AllocError>
    ensures { IsWantedAfter before.now wanted → IsSpot before.now begin
        → IsOpenFrom before.now begin.at
        → IfOk result (IsSyntaxAt before.now bytes.now) }
{
    let next = bytes.first().copied();
    match next {
        Some(b'[' | b'{') if wanted == Wanted::Depth && openings_in(before) >= MOST_NESTED => {
            Ok(Syntax::TooDeep)
        }
        Some(b'}') if is_after_comma(before, wanted) => Ok(Syntax::CommaBefore { what: "}" }),
        Some(b']') if is_after_comma(before, wanted) => Ok(Syntax::CommaBefore { what: "]" }),
        Some(b'/') if is_between(wanted) => Ok(Syntax::Comment),
        _ => Ok(Syntax::Unwanted {
            found: piece_of(alloc, bytes, wanted)?,
            wanted: wanted_at(before, wanted, next, begin),
        }),
    }
}
