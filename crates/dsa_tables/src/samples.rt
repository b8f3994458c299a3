//! How many random walks were made, in place of how far a search came.

ghost use Rattle.dsa_event_text.specs.Added.{Adds};
ghost use Rattle.dsa_tables.specs.Samples.{walks_line, walks_object};

use crate::objects::add_long_number;
use dsa_event_text::{Added, add_count, add_number};
use dsa_explore::Sampled;

/// Adds the line that says how many walks were made, and how many steps they made.
pub fn add_walks(text: &mut String, sampled: &Sampled) -> Added
    ensures { Adds result text.old text.new
        (walks_line sampled.now.walks sampled.now.explored.tried sampled.now.explored.depth) }
{
    add_count(text, "", u64::from(sampled.walks), "walk", "walks")?;
    add_count(text, ", ", sampled.explored.tried, "step", "steps")?;
    add_number(text, ", depth ", sampled.explored.depth)?;
    text.push_str(", sampled\n")
}

/// Adds the object that says so.
pub fn add_walks_object(text: &mut String, sampled: &Sampled) -> Added
    ensures { Adds result text.old text.new
        (walks_object sampled.now.walks sampled.now.explored.tried
        sampled.now.explored.depth) }
{
    add_number(text, "{\"walks\":", sampled.walks)?;
    add_long_number(text, ",\"steps\":", sampled.explored.tried)?;
    add_number(text, ",\"depth\":", sampled.explored.depth)?;
    text.push_str(",\"complete\":false}\n")
}
