//! Members of JSON objects, each after another one.

ghost use Rattle.std.specs.Prelude.{◌≡◌, ◌++◌, codes};
ghost use Rattle.serde_json.specs.Data.{boolean, string};
ghost use Rattle.dsa_event_text.specs.Added.{Adds};
ghost use Rattle.dsa_recordings.specs.Recordings.{desc_digits, natural};
ghost use Rattle.dsa_recordings.specs.Texts.{further_member};

use dsa_desc::Descriptor;
use dsa_event_text::{Added, truth_text};
use itoa::Buffer;

// Adds the key of a member, and the quotes around it.
fn add_key(text: &mut String, key: &str) -> Added
    ensures { Adds result text.old text.new (codes ",\"" ++ key.now ++ codes "\":") }
{
    text.push_str(",\"")?;
    text.push_str(key)?;
    text.push_str("\":")
}

/// Adds a number at a key.
pub fn add_number_at(text: &mut String, key: &str, number: u64) -> Added
    ensures { Adds result text.old text.new (further_member (key.now, natural number)) }
{
    let mut buffer = Buffer::new();
    add_key(text, key)?;
    text.push_str(buffer.format(number))
}

/// Adds a truth value at a key.
pub fn add_truth_at(text: &mut String, key: &str, truth: bool) -> Added
    ensures { Adds result text.old text.new (further_member (key.now, boolean truth)) }
{
    add_key(text, key)?;
    text.push_str(truth_text(truth))
}

/// Adds the 64 bytes of a descriptor in hexadecimal, at `desc`.
pub fn add_desc(text: &mut String, desc: Descriptor) -> Added
    ensures { Adds result text.old text.new
        (further_member (codes "desc", string (desc_digits desc))) }
{
    let alloc = *text.allocator();
    let digits = hex::encode(alloc, desc.to_bytes().as_slice())?;
    add_key(text, "desc")?;
    text.push_str("\"")?;
    text.push_str(digits.as_str())?;
    text.push_str("\"")
}
