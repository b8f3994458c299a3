//! The lines of entries and of acts.

ghost use Rattle.std.specs.Prelude.{◌≡◌, length, flat_map, map, string_bytes};
ghost use Rattle.dsa_base.specs.Numbers.{numbers_below};
ghost use Rattle.dsa_event_text.specs.Added.{Adds};
ghost use Rattle.dsa_tables.specs.Lines.{act_line, entry_line, part_text};

use crate::parts::{Part, is_in_part, part_mark, part_none};
use crate::words::{add_name, add_row};
use dsa_event_text::Added;
use dsa_explore::Found;

// The findings of a part, with commas between them.
fn add_part(text: &mut String, labels: &[String], rows: &[Found], part: Part) -> Added
    ensures { Adds result text.old text.new
        (part_text (map string_bytes labels.now) rows.now part) }
{
    let mut mark = part_mark(part);
    let mut none = part_none(part);
    for row in rows {
        if is_in_part(part, &row.finding) {
            add_row(text, labels, mark, row)?;
            mark = ", ";
            none = "";
        }
    }
    text.push_str(none)
}

#[tactic(auto, unfolding(crate::specs::Lines::entry_line))]
fn add_entry(text: &mut String, labels: &[String], rows: &[Found], label: usize) -> Added
    ensures { Adds result text.old text.new
        (entry_line (map string_bytes labels.now) rows.now label) }
{
    add_name(text, labels, label)?;
    add_part(text, labels, rows, Part::Entry(label))?;
    text.push_str("\n")
}

#[tactic(auto, unfolding(crate::specs::Lines::act_line))]
fn add_act(
    text: &mut String,
    labels: &[String],
    acts: &[String],
    rows: &[Found],
    act: usize,
) -> Added
    ensures { Adds result text.old text.new
        (act_line (map string_bytes labels.now) (map string_bytes acts.now) rows.now act) }
{
    add_name(text, acts, act)?;
    add_part(text, labels, rows, Part::Answers(act))?;
    add_part(text, labels, rows, Part::Waits(act))?;
    add_part(text, labels, rows, Part::Removals(act))?;
    text.push_str("\n")
}

/// Adds the line of each label.
pub fn add_entries(text: &mut String, labels: &[String], rows: &[Found]) -> Added
    ensures { Adds result text.old text.new
        (flat_map (entry_line (map string_bytes labels.now) rows.now)
        (numbers_below (length labels.now))) }
{
    for label in 0..labels.len() {
        add_entry(text, labels, rows, label)?;
    }
    Ok(())
}

/// Adds the line of each act.
pub fn add_acts(text: &mut String, labels: &[String], acts: &[String], rows: &[Found]) -> Added
    ensures { Adds result text.old text.new
        (flat_map (act_line (map string_bytes labels.now) (map string_bytes acts.now) rows.now)
        (numbers_below (length acts.now))) }
{
    for act in 0..acts.len() {
        add_act(text, labels, acts, rows, act)?;
    }
    Ok(())
}
