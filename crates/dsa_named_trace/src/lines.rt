//! A line with own names before its end.

ghost use Rattle.std.specs.Prelude.{◌≡◌, ◌++◌, ◌-◌, ℕ, List, OnOk, codes, flat_map, length, map, string_bytes, take};
ghost use Rattle.dsa_event_text.specs.Added.{Adds};
ghost use Rattle.dsa_named.specs.Names.{own_of};
ghost use Rattle.dsa_trace.specs.declared.form.Part.TheVariants.{LineEnd};
ghost use Rattle.dsa_trace.specs.Marks.{mark};
ghost use Rattle.dsa_named_trace.specs.Lines.{noted_line, own_member, own_members, trace_note};

use dsa_event_text::add_number;
use dsa_named::{OwnName, add_note};
use dsa_scenario::Added;
use dsa_trace::Trace;

fn add_member(text: &mut String, before: &str, own: &OwnName<'_>) -> Added
    ensures { Adds result text.old text.new (own_member before.now (own_of own.now)) }
{
    add_number(text, before, own.name)?;
    text.push_str("\":\"")?;
    text.push_str(own.text)?;
    text.push_str("\"")
}

fn add_more_members(text: &mut String, names: &[OwnName<'_>]) -> Added
    ensures { Adds result text.old text.new
        (flat_map (own_member (codes ",\"")) (map own_of names.now)) }
{
    for own in names {
        add_member(text, ",\"", own)?;
    }
    Ok(())
}

// The own names as the last member of an object.
fn add_members(text: &mut String, names: &[OwnName<'_>]) -> Added
    ensures { Adds result text.old text.new (own_members (map own_of names.now)) }
{
    let Some((first, rest)) = names.split_first() else {
        return Ok(());
    };
    add_member(text, ",\"as\":{\"", first)?;
    add_more_members(text, rest)?;
    text.push_str("}")
}

fn add_trace_note(text: &mut String, form: Trace, names: &[OwnName<'_>]) -> Added
    ensures { Adds result text.old text.new (trace_note form (map own_of names.now)) }
{
    match form {
        Trace::Json => add_members(text, names),
        Trace::Table | Trace::Wide | Trace::Changes => add_note(text, names),
    }
}

// The last bytes of a line.
fn line_end(form: Trace) -> &'static str
    ensures { result.now ≡ mark form LineEnd }
{
    match form {
        Trace::Json => "}\n",
        Trace::Table | Trace::Wide | Trace::Changes => "\n",
    }
}

// The text without the bytes that it ends with.
fn front_of<'l>(line: &'l str, end: &str) -> &'l str
    ensures { (front : List ℕ)
        → line.now ≡ front ++ end.now
        → result.now ≡ take (length line.now - length end.now) line.now }
{
    match line.strip_suffix(end) {
        Some(front) => front,
        None => line,
    }
}

/// Adds a line of this form, which has its end, with these own names before that. Where there is
/// none, it is the line.
pub fn add_noted_line(text: &mut String, form: Trace, line: &str, names: &[OwnName<'_>]) -> Added
    ensures { OnOk result
        ((front : List ℕ)
        → line.now ≡ front ++ mark form LineEnd
        → string_bytes text.new
        ≡ string_bytes text.old ++ noted_line form (map own_of names.now) line.now) }
{
    if names.is_empty() {
        return text.push_str(line);
    }
    let end = line_end(form);
    text.push_str(front_of(line, end))?;
    add_trace_note(text, form, names)?;
    text.push_str(end)
}
