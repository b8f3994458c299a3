//! Rows by what stands before their steps in the table.

ghost use Rattle.std.specs.Prelude.{◌≡◌, ◌++◌, flat_map, map, string_bytes, true, false, IfNone, IfOk, IfSome, OnOk};
ghost use Rattle.dsa_base.specs.Numbers.{numbers_below};
ghost use Rattle.dsa_event_text.specs.Added.{Adds};
ghost use Rattle.dsa_tables.specs.declared.parts.Part.TheVariants.{Entry};
ghost use Rattle.dsa_tables.specs.Naming.{row_name, row_subject, rows_of_act, rows_of_part, table_rows};
ghost use Rattle.dsa_tables.specs.Naming.{HasNoRowNamed, IsFirstNamed};

use crate::parts::{Part, is_in_part};
use crate::words::{add_label, add_what};
use dsa_event_text::Added;
use dsa_explore::{Ask, Finding, Found};
use std::alloc::{AllocError, Global};

/// Adds the name of the entry or the act that the finding is about.
pub fn add_subject(
    text: &mut String,
    labels: &[String],
    acts: &[String],
    finding: &Finding,
) -> Added
    ensures { Adds result text.old text.new
        (row_subject (map string_bytes labels.now) (map string_bytes acts.now) finding.now) }
{
    match *finding {
        Finding::Answer {
            ask: Ask::Submission(label),
            ..
        } => add_label(text, labels, label),
        Finding::Answer {
            ask: Ask::Act(act),
            ..
        } => add_label(text, acts, act),
        Finding::End { label, .. } => add_label(text, labels, label),
        Finding::Wait { act, .. } => add_label(text, acts, act),
        Finding::Removal { act, .. } => add_label(text, acts, act),
    }
}

// How the row is called.
#[tactic(auto, unfolding(crate::specs::Naming::row_name))]
fn add_row_name(text: &mut String, labels: &[String], acts: &[String], finding: &Finding) -> Added
    ensures { Adds result text.old text.new
        (row_name (map string_bytes labels.now) (map string_bytes acts.now) finding.now) }
{
    add_subject(text, labels, acts, finding)?;
    text.push_str(": ")?;
    add_what(text, labels, finding)
}

// Whether the row is called so.
fn has_name(
    alloc: Global,
    labels: &[String],
    acts: &[String],
    row: &Found,
    name: &str,
) -> Result<bool, AllocError>
    ensures same { IfOk result
        (λ has. has ≡ true
        → row_name (map string_bytes labels.now) (map string_bytes acts.now) row.now.finding
        ≡ name.now) }
    ensures other { IfOk result
        (λ has. has ≡ false
        → row_name (map string_bytes labels.now) (map string_bytes acts.now) row.now.finding
        ≡ name.now
        → ⊥) }
{
    let mut text = String::new(alloc);
    add_row_name(&mut text, labels, acts, &row.finding)?;
    Ok(text.as_str() == name)
}

// Adds the rows of a part.
fn add_part_rows(ordered: &mut Vec<Found>, rows: &[Found], part: Part) -> Added
    ensures { OnOk result
        (ordered.new.items ≡ ordered.old.items ++ rows_of_part rows.now part) }
{
    for row in rows {
        if is_in_part(part, &row.finding) {
            ordered.push(*row)?;
        }
    }
    Ok(())
}

// Adds the rows of an act.
#[tactic(auto, unfolding(crate::specs::Naming::rows_of_act))]
fn add_act_rows(ordered: &mut Vec<Found>, rows: &[Found], act: usize) -> Added
    ensures { OnOk result (ordered.new.items ≡ ordered.old.items ++ rows_of_act rows.now act) }
{
    add_part_rows(ordered, rows, Part::Answers(act))?;
    add_part_rows(ordered, rows, Part::Waits(act))?;
    add_part_rows(ordered, rows, Part::Removals(act))
}

// Adds the rows of so many entries.
fn add_rows_of_entries(ordered: &mut Vec<Found>, rows: &[Found], entries: usize) -> Added
    ensures { OnOk result
        (ordered.new.items
        ≡ ordered.old.items
        ++ flat_map (λ number. rows_of_part rows.now (Entry number)) (numbers_below entries)) }
{
    for number in 0..entries {
        add_part_rows(ordered, rows, Part::Entry(number))?;
    }
    Ok(())
}

// Adds the rows of so many acts.
fn add_rows_of_acts(ordered: &mut Vec<Found>, rows: &[Found], acts: usize) -> Added
    ensures { OnOk result
        (ordered.new.items
        ≡ ordered.old.items ++ flat_map (rows_of_act rows.now) (numbers_below acts)) }
{
    for act in 0..acts {
        add_act_rows(ordered, rows, act)?;
    }
    Ok(())
}

/// The rows in the order of the table.
pub fn table_rows(
    alloc: Global,
    labels: &[String],
    acts: &[String],
    rows: &[Found],
) -> Result<Vec<Found>, AllocError>
    ensures { IfOk result
        (λ ordered. ordered.items
        ≡ table_rows (map string_bytes labels.now) (map string_bytes acts.now) rows.now) }
{
    let mut ordered = Vec::new(alloc);
    add_rows_of_entries(&mut ordered, rows, labels.len())?;
    add_rows_of_acts(&mut ordered, rows, acts.len())?;
    Ok(ordered)
}

// The first of these rows that is called so.
fn first_named(
    alloc: Global,
    labels: &[String],
    acts: &[String],
    rows: &[Found],
    name: &str,
) -> Result<Option<Found>, AllocError>
    ensures found { IfOk result
        (λ found. IfSome found (IsFirstNamed (map string_bytes labels.now)
        (map string_bytes acts.now) rows.now name.now)) }
    ensures none { IfOk result
        (λ found. IfNone found (HasNoRowNamed (map string_bytes labels.now)
        (map string_bytes acts.now) rows.now name.now)) }
{
    for row in rows {
        if has_name(alloc, labels, acts, row, name)? {
            return Ok(Some(*row));
        }
    }
    Ok(None)
}

/// The first row of the table that is called so. A row is called by what stands before its steps,
/// as `x0: aborted 10`, `drain: active`, `drain: waits for x0` or `reset: removes x0`.
pub fn row_named(
    alloc: Global,
    labels: &[String],
    acts: &[String],
    rows: &[Found],
    name: &str,
) -> Result<Option<Found>, AllocError>
    ensures found { IfOk result
        (λ found. IfSome found (IsFirstNamed (map string_bytes labels.now)
        (map string_bytes acts.now)
        (table_rows (map string_bytes labels.now) (map string_bytes acts.now) rows.now)
        name.now)) }
    ensures none { IfOk result
        (λ found. IfNone found (HasNoRowNamed (map string_bytes labels.now)
        (map string_bytes acts.now)
        (table_rows (map string_bytes labels.now) (map string_bytes acts.now) rows.now)
        name.now)) }
{
    let ordered = table_rows(alloc, labels, acts, rows)?;
    first_named(alloc, labels, acts, ordered.as_slice(), name)
}
