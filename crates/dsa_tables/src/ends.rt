//! The line of how runs can end.

ghost use Rattle.std.specs.Prelude.{◌≡◌, codes, flat_map, map, option_map, string_bytes};
ghost use Rattle.dsa_event_text.specs.Added.{Adds};
ghost use Rattle.dsa_tables.specs.Ends.{ask_words, way_words, ending_words, endings_words, ends_line, entries_held_words, left_words};

use crate::words::add_name;
use dsa_event_text::{Added, add_number};
use dsa_explore::{Ask, Ending};

fn add_ask(text: &mut String, labels: &[String], acts: &[String], mark: &str, ask: Ask) -> Added
    ensures { Adds result text.old text.new
        (ask_words (map string_bytes labels.now) (map string_bytes acts.now) mark.now
        ask) }
{
    text.push_str(mark)?;
    match ask {
        Ask::Submission(label) => add_name(text, labels, label as usize),
        Ask::Act(act) => add_name(text, acts, act as usize),
    }
}

fn add_more_asks(text: &mut String, labels: &[String], acts: &[String], asks: &[Ask]) -> Added
    ensures { Adds result text.old text.new
        (flat_map
        (ask_words (map string_bytes labels.now) (map string_bytes acts.now)
        (codes " and ")) asks.now) }
{
    for ask in asks {
        add_ask(text, labels, acts, " and ", *ask)?;
    }
    Ok(())
}

// All are through, or they are stuck at these.
fn add_left(text: &mut String, labels: &[String], acts: &[String], left: &[Ask]) -> Added
    ensures { Adds result text.old text.new
        (left_words (map string_bytes labels.now) (map string_bytes acts.now)
        left.now) }
{
    let Some((first, more)) = left.split_first() else {
        return text.push_str("all through");
    };
    add_ask(text, labels, acts, "stuck at ", *first)?;
    add_more_asks(text, labels, acts, more)
}

fn entries_held_words(holds_entries: bool) -> &'static str
    ensures { result.now ≡ entries_held_words holds_entries }
{
    if holds_entries {
        " with entries held"
    } else {
        ""
    }
}

/// Adds how a run may end.
pub fn add_way(text: &mut String, labels: &[String], acts: &[String], ending: &Ending) -> Added
    ensures { Adds result text.old text.new
        (way_words (map string_bytes labels.now) (map string_bytes acts.now) ending.now) }
{
    add_left(text, labels, acts, ending.left.as_slice())?;
    text.push_str(entries_held_words(ending.holds_entries))
}

fn add_ending(
    text: &mut String,
    labels: &[String],
    acts: &[String],
    mark: &str,
    ending: &Ending,
) -> Added
    ensures { Adds result text.old text.new
        (ending_words (map string_bytes labels.now) (map string_bytes acts.now)
        mark.now ending.now) }
{
    text.push_str(mark)?;
    add_way(text, labels, acts, ending)?;
    add_number(text, " [", ending.steps)?;
    text.push_str("]")
}

fn add_more_endings(
    text: &mut String,
    labels: &[String],
    acts: &[String],
    endings: &[Ending],
) -> Added
    ensures { Adds result text.old text.new
        (flat_map
        (ending_words (map string_bytes labels.now) (map string_bytes acts.now)
        (codes ", ")) endings.now) }
{
    for ending in endings {
        add_ending(text, labels, acts, ", ", ending)?;
    }
    Ok(())
}

fn add_endings(text: &mut String, labels: &[String], acts: &[String], endings: &[Ending]) -> Added
    ensures { Adds result text.old text.new
        (endings_words (map string_bytes labels.now) (map string_bytes acts.now)
        endings.now) }
{
    let Some((first, more)) = endings.split_first() else {
        return text.push_str("ends: none");
    };
    add_ending(text, labels, acts, "ends: ", first)?;
    add_more_endings(text, labels, acts, more)
}

/// Adds the line of the endings that a search found, if it looked for them.
#[tactic(auto, unfolding(crate::specs::Ends::ends_line))]
pub fn add_ends(
    text: &mut String,
    labels: &[String],
    acts: &[String],
    ends: &Option<Vec<Ending>>,
) -> Added
    ensures { Adds result text.old text.new
        (ends_line (map string_bytes labels.now) (map string_bytes acts.now)
        (option_map (λ endings. endings.items) ends.now)) }
{
    let Some(endings) = ends else {
        return Ok(());
    };
    add_endings(text, labels, acts, endings.as_slice())?;
    text.push_str("\n")
}
