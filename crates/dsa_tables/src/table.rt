//! The whole table.

ghost use Rattle.std.specs.Prelude.{◌≡◌, map, string_bytes};
ghost use Rattle.dsa_event_text.specs.Added.{Adds};
ghost use Rattle.dsa_tables.specs.Table.{body_text, search_end, search_line, table_text};

use crate::ends::add_ends;
use crate::lines::{add_acts, add_entries};
use dsa_event_text::{add_count, add_number};
use dsa_explore::Explored;
use std::alloc::AllocError;

// Whether all was tried.
fn search_end(is_complete: bool) -> &'static str
    ensures { result.now ≡ search_end is_complete }
{
    if is_complete {
        ", complete\n"
    } else {
        ", bounded\n"
    }
}

/// Adds the line that says how far the search came.
pub fn add_search(text: &mut String, explored: &Explored) -> Result<(), AllocError>
    ensures { Adds result text.old text.new
        (search_line explored.now.states explored.now.tried explored.now.depth
        explored.now.is_complete) }
{
    add_count(text, "", u64::from(explored.states), "state", "states")?;
    add_count(text, ", ", explored.tried, "step", "steps")?;
    add_number(text, ", depth ", explored.depth)?;
    text.push_str(search_end(explored.is_complete))
}

/// Adds a line for each label, then one for each act of an administrator, both by their names, and
/// then one of how runs can end, if the search looked for that.
pub fn add_lines(
    text: &mut String,
    labels: &[String],
    acts: &[String],
    explored: &Explored,
) -> Result<(), AllocError>
    ensures { Adds result text.old text.new
        (body_text (map string_bytes labels.now) (map string_bytes acts.now) explored.now) }
{
    let rows = explored.rows.as_slice();
    add_entries(text, labels, rows)?;
    add_acts(text, labels, acts, rows)?;
    add_ends(text, labels, acts, &explored.ends)
}

/// Adds the table of a search: a line for each label, then one for each act of an administrator,
/// both by their names, then one of how runs can end, if the search looked for that, and one that
/// says how far the search came.
pub fn add_table(
    text: &mut String,
    labels: &[String],
    acts: &[String],
    explored: &Explored,
) -> Result<(), AllocError>
    ensures { Adds result text.old text.new
        (table_text (map string_bytes labels.now) (map string_bytes acts.now) explored.now) }
{
    add_lines(text, labels, acts, explored)?;
    add_search(text, explored)
}
