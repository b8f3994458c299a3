//! What a search found as JSON objects, one in each line.

ghost use Rattle.std.specs.Prelude.{◌≡◌, ◌++◌, decimal, flat_map, map, option_map, string_bytes};
ghost use Rattle.dsa_event_text.specs.Added.{Adds};
ghost use Rattle.dsa_tables.specs.Objects.{body_objects, end_object, end_objects, last_steps, row_object, search_object, subject_mark};

use crate::ends::add_way;
use crate::naming::{add_subject, table_rows};
use crate::words::add_what;
use dsa_event_text::{Added, add_number, truth_text};
use dsa_explore::{Ask, Ending, Explored, Finding, Found};
use itoa::Buffer;
use std::alloc::Global;

// What stands before the name of an entry or of an act.
fn subject_mark(finding: &Finding) -> &'static str
    ensures { result.now ≡ subject_mark finding.now }
{
    match *finding {
        Finding::Answer {
            ask: Ask::Submission(_),
            ..
        }
        | Finding::End { .. } => "{\"entry\":\"",
        Finding::Answer {
            ask: Ask::Act(_),
            ..
        }
        | Finding::Wait { .. }
        | Finding::Removal { .. } => "{\"command\":\"",
    }
}

// Adds what stands behind a text: the fewest steps.
fn add_last_steps(text: &mut String, steps: u32) -> Added
    ensures { Adds result text.old text.new (last_steps steps) }
{
    add_number(text, "\",\"steps\":", steps)?;
    text.push_str("}\n")
}

// Adds the object of a row.
#[tactic(auto, unfolding(crate::specs::Objects::row_object))]
fn add_row_object(text: &mut String, labels: &[String], acts: &[String], row: &Found) -> Added
    ensures { Adds result text.old text.new
        (row_object (map string_bytes labels.now) (map string_bytes acts.now) row.now) }
{
    text.push_str(subject_mark(&row.finding))?;
    add_subject(text, labels, acts, &row.finding)?;
    text.push_str("\",\"what\":\"")?;
    add_what(text, labels, &row.finding)?;
    add_last_steps(text, row.steps)
}

// Adds the objects of these rows.
fn add_row_objects(text: &mut String, labels: &[String], acts: &[String], rows: &[Found]) -> Added
    ensures { Adds result text.old text.new
        (flat_map (row_object (map string_bytes labels.now) (map string_bytes acts.now))
        rows.now) }
{
    for row in rows {
        add_row_object(text, labels, acts, row)?;
    }
    Ok(())
}

// Adds the object of an end.
#[tactic(auto, unfolding(crate::specs::Objects::end_object))]
fn add_end_object(text: &mut String, labels: &[String], acts: &[String], ending: &Ending) -> Added
    ensures { Adds result text.old text.new
        (end_object (map string_bytes labels.now) (map string_bytes acts.now) ending.now) }
{
    text.push_str("{\"end\":\"")?;
    add_way(text, labels, acts, ending)?;
    add_last_steps(text, ending.steps)
}

// Adds the objects of these ends.
fn add_each_end(text: &mut String, labels: &[String], acts: &[String], endings: &[Ending]) -> Added
    ensures { Adds result text.old text.new
        (flat_map (end_object (map string_bytes labels.now) (map string_bytes acts.now))
        endings.now) }
{
    for ending in endings {
        add_end_object(text, labels, acts, ending)?;
    }
    Ok(())
}

// Adds the objects of the ends that a search found, if it looked for them.
fn add_end_objects(
    text: &mut String,
    labels: &[String],
    acts: &[String],
    ends: &Option<Vec<Ending>>,
) -> Added
    ensures { Adds result text.old text.new
        (end_objects (map string_bytes labels.now) (map string_bytes acts.now)
        (option_map (λ endings. endings.items) ends.now)) }
{
    match ends {
        Some(endings) => add_each_end(text, labels, acts, endings.as_slice()),
        None => Ok(()),
    }
}

/// Adds an object for each row, in the order of the table, and then one for each way in which runs
/// can end, if the search looked for that.
pub fn add_objects(
    alloc: Global,
    text: &mut String,
    labels: &[String],
    acts: &[String],
    explored: &Explored,
) -> Added
    ensures { Adds result text.old text.new
        (body_objects (map string_bytes labels.now) (map string_bytes acts.now) explored.now) }
{
    let rows = table_rows(alloc, labels, acts, explored.rows.as_slice())?;
    add_row_objects(text, labels, acts, rows.as_slice())?;
    add_end_objects(text, labels, acts, &explored.ends)
}

/// Adds a key and how many there are.
pub fn add_long_number(text: &mut String, key: &str, count: u64) -> Added
    ensures { Adds result text.old text.new (key.now ++ decimal count) }
{
    let mut buffer = Buffer::new();
    text.push_str(key)?;
    text.push_str(buffer.format(count))
}

/// Adds the object that says how far the search came.
pub fn add_search_object(text: &mut String, explored: &Explored) -> Added
    ensures { Adds result text.old text.new
        (search_object explored.now.states explored.now.tried explored.now.depth
        explored.now.is_complete) }
{
    add_number(text, "{\"states\":", explored.states)?;
    add_long_number(text, ",\"steps\":", explored.tried)?;
    add_number(text, ",\"depth\":", explored.depth)?;
    text.push_str(",\"complete\":")?;
    text.push_str(truth_text(explored.is_complete))?;
    text.push_str("}\n")
}
