//! Own names, and which steps give them.

ghost use Rattle.std.specs.Prelude.{◌≡◌, ◌++◌, [], ◌∷◌, OnOk, filter_map, map, option_map};
ghost use Rattle.serde_json.specs.View.{view};
ghost use Rattle.dsa_scenario.specs.Run.{ticket_given_by};
ghost use Rattle.std.specs.List.{list_all};
ghost use Rattle.dsa_named.specs.Names.{given_at, is_own_character, is_own_text, own_of, own_text};

use dsa_book::{FetchAnswer, Reply, SubmitAnswer};
use dsa_scenario::{Added, Record};
use serde_json::Value;

/// The own name of the entry of this name.
#[derive(Clone, Copy, Debug, PartialEq, Eq)]
pub struct OwnName<'a> {
    pub name: u32,
    pub text: &'a str,
}

// Whether each character can be shown as it is.
fn has_own_characters(text: &str) -> bool
    ensures { result ≡ list_all is_own_character text.now }
{
    text.bytes().all(|byte| matches!(byte, b' '..=b'~') && byte != b'"' && byte != b'\\')
}

// Whether the text can be shown as it is, and is neither empty nor long.
fn is_own_text(text: &str) -> bool
    ensures { result ≡ is_own_text text.now }
{
    0 < text.len() && text.len() <= 40 && has_own_characters(text)
}

/// The own name that a step object has for the entry that it may be given.
pub fn own_text(step: &Value) -> Option<&str>
    ensures { option_map (λ text. text.now) result ≡ own_text (view step.now) }
{
    let text = step.get("as")?.as_str()?;
    if is_own_text(text) { Some(text) } else { None }
}

/// The name that a step gave.
pub fn name_given(entry: &Record) -> Option<u32>
    ensures { result ≡ option_map (λ ticket. ticket.name) (ticket_given_by entry.now) }
{
    let Record::Stepped(step) = entry else {
        return None;
    };
    match step.reply {
        Reply::Submit(SubmitAnswer::Accepted(ticket)) => Some(ticket.name),
        Reply::Fetch(FetchAnswer::Fetched(ticket)) => Some(ticket.name),
        _ => None,
    }
}

// The own name that the step of this number gave, by its object and its record.
fn name_of_step<'a>(steps: &'a [Value], number: usize, entry: &Record) -> Option<OwnName<'a>>
    ensures { option_map own_of result ≡ given_at (map view steps.now) number entry.now }
{
    let name = name_given(entry)?;
    let text = own_text(steps.get(number)?)?;
    Some(OwnName { name, text })
}

/// Notes the own name that the step of this number gave, if it gave one.
pub fn note_name<'a>(
    names: &mut Vec<OwnName<'a>>,
    steps: &'a [Value],
    number: usize,
    entry: &Record,
) -> Added
    ensures { OnOk result
        (map own_of names.new.items
        ≡ map own_of names.old.items
        ++ filter_map (given_at (map view steps.now) number) (entry.now ∷ [])) }
{
    if let Some(own) = name_of_step(steps, number, entry) {
        names.push(own)?;
    }
    Ok(())
}
