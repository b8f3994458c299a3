//! Own names at the end of a line.

ghost use Rattle.std.specs.Prelude.{◌≡◌, codes, flat_map, map};
ghost use Rattle.dsa_event_text.specs.Added.{Adds};
ghost use Rattle.dsa_named.specs.Names.{own_of};
ghost use Rattle.dsa_named.specs.Notes.{names_note, own_words};

use crate::names::OwnName;
use dsa_event_text::{Added, add_number};

fn add_own(text: &mut String, mark: &str, own: &OwnName<'_>) -> Added
    ensures { Adds result text.old text.new (own_words mark.now (own_of own.now)) }
{
    add_number(text, mark, own.name)?;
    text.push_str(" is ")?;
    text.push_str(own.text)
}

fn add_others(text: &mut String, names: &[OwnName<'_>]) -> Added
    ensures { Adds result text.old text.new
        (flat_map (own_words (codes ", ")) (map own_of names.now)) }
{
    for own in names {
        add_own(text, ", ", own)?;
    }
    Ok(())
}

/// Adds the own names in brackets, such as ` [4 is x17, 7 is y]`. Nothing is added where there is
/// none.
pub fn add_note(text: &mut String, names: &[OwnName<'_>]) -> Added
    ensures { Adds result text.old text.new (names_note (map own_of names.now)) }
{
    let Some((first, rest)) = names.split_first() else {
        return Ok(());
    };
    add_own(text, " [", first)?;
    add_others(text, rest)?;
    text.push_str("]")
}
