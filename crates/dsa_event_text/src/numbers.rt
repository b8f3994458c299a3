//! Numbers in texts.

ghost use Rattle.std.specs.Prelude.{◌≡◌, ◌++◌};
ghost use Rattle.std.specs.Fmt.{decimal};
ghost use Rattle.dsa_event_text.specs.Added.{Adds};
ghost use Rattle.dsa_event_text.specs.Text.{count_text, one_or_many};

use crate::Added;
use itoa::Buffer;

/// Adds a text and a number.
#[inline(always)]
pub fn add_number(text: &mut String, word: &str, number: u32) -> Added
    ensures { Adds result text.old text.new (word.now ++ decimal number) }
{
    let mut buffer = Buffer::new();
    text.push_str(word)?;
    text.push_str(buffer.format(number))
}

/// `one` after the number 1, and `many` after any other.
pub fn one_or_many<'a>(number: u64, one: &'a str, many: &'a str) -> &'a str
    ensures { result.now ≡ one_or_many number one.now many.now }
{
    if number == 1 { one } else { many }
}

/// Adds a text, a number, and what is counted: `1 entry`, `2 entries`.
pub fn add_count(text: &mut String, before: &str, number: u64, one: &str, many: &str) -> Added
    ensures { Adds result text.old text.new (count_text before.now number one.now many.now) }
{
    let mut buffer = Buffer::new();
    text.push_str(before)?;
    text.push_str(buffer.format(number))?;
    text.push_str(" ")?;
    text.push_str(one_or_many(number, one, many))
}
