//! The text of an answer that was seen, in one line.

ghost use Rattle.std.specs.Prelude.{◌≡◌, ◌++◌, OnOk, string_bytes, flat_map};
ghost use Rattle.std.specs.List.{list_all};
ghost use Rattle.std.specs.Char.Escape.{encode_utf16};
ghost use Rattle.dsa_conform.specs.Quoted.{is_unescaped, unit_text, char_text, quoted_text, seen_text};

use std::alloc::AllocError;
use std::fmt::Write;

// A unit of UTF-16, as JSON escapes it.
fn add_unit(text: &mut String, unit: u16) -> Result<(), AllocError>
    ensures { OnOk result (string_bytes text.new ≡ string_bytes text.old ++ unit_text unit) }
{
    let [high, low] = unit.to_be_bytes();
    write!(text, "\\u{high:02x}{low:02x}")
}

fn add_units(text: &mut String, c: char) -> Result<(), AllocError>
    ensures { OnOk result
        (string_bytes text.new ≡ string_bytes text.old ++ flat_map unit_text (encode_utf16 c)) }
{
    let mut units = [0; 2];
    for unit in c.encode_utf16(&mut units).iter() {
        add_unit(text, *unit)?;
    }
    Ok(())
}

fn add_char(text: &mut String, c: char) -> Result<(), AllocError>
    ensures { OnOk result (string_bytes text.new ≡ string_bytes text.old ++ char_text c) }
{
    match c {
        '"' | '\\' => {
            text.push('\\')?;
            text.push(c)
        }
        ' '..='~' => text.push(c),
        _ => add_units(text, c),
    }
}

fn add_quoted(text: &mut String, seen: &str) -> Result<(), AllocError>
    ensures { OnOk result (string_bytes text.new ≡ string_bytes text.old ++ quoted_text seen.now) }
{
    text.push('"')?;
    for c in seen.chars() {
        add_char(text, c)?;
    }
    text.push('"')
}

fn is_plain(text: &str) -> bool
    ensures { result ≡ list_all is_unescaped text.now }
{
    text.bytes().all(|byte| matches!(byte, b' '..=b'~') && byte != b'"' && byte != b'\\')
}

/// Adds the text as it is where it is plain, and else as JSON in ASCII.
pub fn add_seen_text(text: &mut String, seen: &str) -> Result<(), AllocError>
    ensures { OnOk result (string_bytes text.new ≡ string_bytes text.old ++ seen_text seen.now) }
{
    if is_plain(seen) {
        text.push_str(seen)
    } else {
        add_quoted(text, seen)
    }
}
