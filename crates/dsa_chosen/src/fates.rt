//! The line of a fate.

ghost use Rattle.std.specs.Prelude.{filter, flat_map};
ghost use Rattle.dsa_event_text.specs.Added.{Adds};
ghost use Rattle.dsa_scenario.specs.Lines.{line_of_text, row_text};
ghost use Rattle.dsa_chosen.specs.Selected.{is_row_of, selected_fates};

use dsa_book::FateRow;
use dsa_event_text::Added;
use dsa_scenario::add_rows;

// Adds the lines of those of the fates that are of this name.
fn add_fates_of(text: &mut String, name: u32, fates: &[FateRow]) -> Added
    ensures { Adds result text.old text.new
        (flat_map (λ row. line_of_text (row_text row)) (filter (is_row_of name) fates.now)) }
{
    for row in fates {
        if row.name == name {
            add_rows(text, &[*row])?;
        }
    }
    Ok(())
}

/// Adds the fate of the name, where one is wanted, as a run prints it.
pub fn add_fates(text: &mut String, name: Option<u32>, fates: &[FateRow]) -> Added
    ensures { Adds result text.old text.new
        (flat_map (λ row. line_of_text (row_text row)) (selected_fates name fates.now)) }
{
    match name {
        Some(name) => add_fates_of(text, name, fates),
        None => Ok(()),
    }
}
