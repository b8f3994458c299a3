//! Lists of entries in words.

ghost use Rattle.dsa_event_text.specs.Added.{Adds};
ghost use Rattle.dsa_event_text.specs.Text.{list_text};

use crate::Added;
use crate::numbers::add_number;
use dsa_regs::ListUse;

/// Adds the name of a list: a queue, an engine for its entries in progress, or the batch of an
/// engine.
pub fn add_list(text: &mut String, list: ListUse) -> Added
    ensures { Adds result text.old text.new (list_text list) }
{
    match list {
        ListUse::Queue(queue) => add_number(text, "q", u32::from(queue)),
        ListUse::Progress(engine) => add_number(text, "e", u32::from(engine)),
        ListUse::Members(engine) => add_number(text, "batch of e", u32::from(engine)),
    }
}
