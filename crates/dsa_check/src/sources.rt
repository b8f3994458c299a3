//! The source line that a remark points to, with a mark below its column.

ghost use Rattle.std.specs.Prelude.{◌≡◌, ◌<◌, ◌∷◌, [], map, length, replicate, IfSome};
ghost use Rattle.std.specs.List.{position};
ghost use Rattle.dsa_check.specs.Places.{is_line_feed};
ghost use Rattle.dsa_event_text.specs.Added.{Adds};
ghost use Rattle.dsa_check.specs.Sources.{shown_byte, before_place, until_line_feed, rest_from};
ghost use Rattle.dsa_check.specs.Sources.{from_place};
ghost use Rattle.dsa_check.specs.Sources.{mark_begin, mark_end, colored_mark, lines_at};
ghost use Rattle.dsa_check.specs.Sources.{source_text};

use crate::places::Spot;
use crate::remarks::Remark;
use dsa_event_text::Added;

/// The most bytes of a line that are shown before a place.
const MOST_BEFORE: usize = 60;

/// The most that are shown from it on.
const MOST_FROM: usize = 40;

// A byte, as it is shown.
fn shown(byte: u8) -> char
    ensures { result ≡ shown_byte byte }
{
    match byte {
        b' '..=b'~' => byte as char,
        _ => '?',
    }
}

fn add_byte(text: &mut String, byte: u8) -> Added
    ensures { Adds result text.old text.new (shown_byte byte ∷ []) }
{
    text.push(shown(byte))
}

fn add_shown(text: &mut String, bytes: &[u8]) -> Added
    ensures { Adds result text.old text.new (map shown_byte bytes.now) }
{
    for byte in bytes {
        add_byte(text, *byte)?;
    }
    Ok(())
}

// What is shown of the line before the place.
fn before_place(bytes: &[u8], spot: Spot) -> &[u8]
    ensures { result.now ≡ before_place bytes.now spot }
{
    let count = spot.column.saturating_sub(1).min(MOST_BEFORE);
    bytes
        .get(spot.at.saturating_sub(count)..spot.at)
        .unwrap_or(&[])
}

fn is_line_feed(byte: u8) -> bool
    ensures { result ≡ is_line_feed byte }
{
    byte == b'\n'
}

fn end_of_line(bytes: &[u8]) -> Option<usize>
    ensures place { result ≡ position is_line_feed bytes.now }
    ensures bound { IfSome result (λ end. end < length bytes.now) }
{
    bytes.iter().position(|byte| is_line_feed(*byte))
}

fn until_line_feed(bytes: &[u8]) -> &[u8]
    ensures { result.now ≡ until_line_feed bytes.now }
{
    match end_of_line(bytes) {
        Some(end) => &bytes[..end],
        None => bytes,
    }
}

fn rest_from(bytes: &[u8], at: usize) -> &[u8]
    ensures { result.now ≡ rest_from bytes.now at }
{
    bytes.get(at..).unwrap_or(&[])
}

// What is shown of it from the place on.
fn from_place(bytes: &[u8], spot: Spot) -> &[u8]
    ensures { result.now ≡ from_place bytes.now spot }
{
    let rest = rest_from(bytes, spot.at);
    until_line_feed(&rest[..rest.len().min(MOST_FROM)])
}

fn add_spaces(text: &mut String, count: usize) -> Added
    ensures { Adds result text.old text.new (replicate count 32) }
{
    for _turn in 0..count {
        text.push_str(" ")?;
    }
    Ok(())
}

fn mark_begin(is_colored: bool, is_warning: bool) -> &'static str
    ensures { result.now ≡ mark_begin is_colored is_warning }
{
    match (is_colored, is_warning) {
        (false, _) => "",
        (true, false) => "\u{1b}[31m",
        (true, true) => "\u{1b}[33m",
    }
}

fn mark_end(is_colored: bool) -> &'static str
    ensures { result.now ≡ mark_end is_colored }
{
    if is_colored { "\u{1b}[0m" } else { "" }
}

fn add_colored(text: &mut String, is_colored: bool, is_warning: bool) -> Added
    ensures { Adds result text.old text.new (colored_mark is_colored is_warning) }
{
    text.push_str(mark_begin(is_colored, is_warning))?;
    text.push_str("^")?;
    text.push_str(mark_end(is_colored))
}

/// Adds the line of a place, and a mark below.
pub fn add_lines(
    text: &mut String,
    is_colored: bool,
    is_warning: bool,
    bytes: &[u8],
    spot: Spot,
) -> Added
    ensures { Adds result text.old text.new (lines_at is_colored is_warning bytes.now spot) }
{
    let before = before_place(bytes, spot);
    add_shown(text, before)?;
    add_shown(text, from_place(bytes, spot))?;
    text.push_str("\n")?;
    add_spaces(text, before.len())?;
    add_colored(text, is_colored, is_warning)?;
    text.push_str("\n")
}

/// Adds the line that the remark points to, and a mark below.
pub fn add_source(text: &mut String, is_colored: bool, bytes: &[u8], remark: &Remark<'_>) -> Added
    ensures { Adds result text.old text.new (source_text is_colored bytes.now remark.now) }
{
    match remark.spot {
        Some(spot) => add_lines(text, is_colored, remark.is_warning, bytes, spot),
        None => Ok(()),
    }
}
