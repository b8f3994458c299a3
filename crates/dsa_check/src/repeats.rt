//! Keys that come more than once in one object of a text.

ghost use Rattle.std.specs.Prelude.{◌≡◌, ◌&&◌, ◌||◌, ℕ, List, not, bytes_eq, option_map};
ghost use Rattle.std.specs.Prelude.{option_and_then, IsUtf8, IfOk, OnOk};
ghost use Rattle.json.specs.{Json.{document}, Value.{value_view, members_view}, Find.{as_object}};
ghost use Rattle.dsa_check.specs.Repeats.{caps_written, step_written, has_text};

use json::{Error, Scratch, Value as Written};
use std::alloc::{AllocError, Global};
use std::collections::BTreeSet;

/// The JSON text with each key as often as it stands there. Text that is read as JSON is one.
pub fn read_written<'a>(
    alloc: Global,
    bytes: &'a [u8],
    scratch: &'a mut Scratch,
) -> Result<Option<Written<'a>>, AllocError>
    ensures { IsUtf8 bytes.entry.now → IfOk result
        (λ written. option_map value_view written ≡ document bytes.entry.now) }
{
    match Written::from_slice(alloc, bytes, scratch) {
        Ok(written) => Ok(Some(written)),
        Err(Error::OutOfMemory) => Err(AllocError),
        Err(_) => Ok(None),
    }
}

/// The caps of a document, as they stand in its text.
pub fn caps_written<'w, 'a>(written: Option<&'w Written<'a>>) -> Option<&'w Written<'a>>
    ensures { option_map (λ v. value_view v.now) result
        ≡ caps_written (option_map (λ v. value_view v.now) written.entry) }
{
    written?.get("caps")
}

/// An item of the steps of a document, as it stands in its text.
pub fn step_written<'w, 'a>(written: Option<&'w Written<'a>>, i: usize) -> Option<&'w Written<'a>>
    ensures { option_map (λ v. value_view v.now) result
        ≡ step_written (option_map (λ v. value_view v.now) written.entry) i }
{
    written?.get("steps")?.at(i)
}

/// The members of an object, each as often as it stands in the text.
pub fn members_of<'w, 'a>(
    written: Option<&'w Written<'a>>,
) -> Option<&'w Vec<(&'a str, Written<'a>)>>
    ensures { option_map (λ members. members_view members.now.items) result
        ≡ option_and_then as_object (option_map (λ v. value_view v.now) written.entry) }
{
    match written? {
        Written::Object(members) => Some(members),
        _ => None,
    }
}

/// Notes a key, and whether it comes for the second time.
pub fn note_key<'a>(
    seen: &mut BTreeSet<&'a str>,
    again: &mut BTreeSet<&'a str>,
    key: &'a str,
) -> Result<bool, AllocError>
    ensures seen { OnOk result ((text : List ℕ)
        → has_text seen.new text ≡ (bytes_eq key.entry.now text || has_text seen.old text)) }
    ensures again { OnOk result ((text : List ℕ)
        → has_text again.new text
        ≡ (bytes_eq key.entry.now text && has_text seen.old text || has_text again.old text)) }
    ensures second { IfOk result (λ second. second
        ≡ (has_text seen.old key.entry.now && not (has_text again.old key.entry.now))) }
{
    Ok(!seen.insert(key)? && again.insert(key)?)
}
