//! What the check of Enable Device finds of groups.

ghost use Rattle.dsa_event_text.specs.Added.{Adds};
ghost use Rattle.dsa_explain_lines.specs.Sentences.{bound_words, has_words, missing_words, name_words, outside_words, shared_words};

use crate::words::{add_counted, add_group, add_two_groups};
use dsa_event_text::{Added, add_count, add_number};
use dsa_regs::{Bound, Named};

// A queue or an engine.
fn add_name(text: &mut String, named: Named) -> Added
    ensures { Adds result text.old text.new (name_words named) }
{
    match named {
        Named::Queue(queue) => add_number(text, "q", u32::from(queue)),
        Named::Engine(engine) => add_number(text, "e", u32::from(engine)),
    }
}

// How many queues or engines the device has.
fn add_has(text: &mut String, named: Named, count: u16) -> Added
    ensures { Adds result text.old text.new (has_words named count) }
{
    let (before, count) = (", and the device has ", u64::from(count));
    match named {
        Named::Queue(_) => add_count(text, before, count, "queue", "queues"),
        Named::Engine(_) => add_count(text, before, count, "engine", "engines"),
    }
}

/// Adds that the group names what the device does not have.
pub fn add_missing(text: &mut String, group: usize, named: Named, count: u16) -> Added
    ensures { Adds result text.old text.new (missing_words group named count) }
{
    add_group(text, "group ", group, " names ")?;
    add_name(text, named)?;
    add_has(text, named, count)
}

/// Adds that two groups name it.
pub fn add_shared(text: &mut String, named: Named, first: usize, second: usize) -> Added
    ensures { Adds result text.old text.new (shared_words named first second) }
{
    add_name(text, named)?;
    add_two_groups(text, " is in group ", first, " and in group ", second, "")
}

// The bound that is broken.
fn add_bound(text: &mut String, bound: Bound) -> Added
    ensures { Adds result text.old text.new (bound_words bound) }
{
    match bound {
        Bound::Reserved(reserved) => {
            add_counted(text, "below the ", u32::from(reserved), " that it reserves")
        }
        Bound::Unreserved(left) => {
            add_counted(text, "above the ", u32::from(left), " that others leave")
        }
        Bound::Need => text.push_str("below the 4 that a descriptor may need"),
    }
}

/// Adds how many read buffers the group may use, and the bound that this breaks.
pub fn add_outside(text: &mut String, group: usize, allowed: u16, bound: Bound) -> Added
    ensures { Adds result text.old text.new (outside_words group allowed bound) }
{
    add_group(text, "group ", group, "")?;
    let allowed = u64::from(allowed);
    add_count(text, " may use ", allowed, "read buffer", "read buffers")?;
    text.push_str(", ")?;
    add_bound(text, bound)
}
