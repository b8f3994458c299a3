//! Documents.

ghost use Rattle.std.specs.Prelude.{◌≡◌, ◌++◌, codes, map};
ghost use Rattle.dsa_event_text.specs.Added.{Adds};
ghost use Rattle.dsa_recordings.specs.Recordings.{recording_text, members_of_caps, members_of_step};
ghost use Rattle.dsa_recordings.specs.Texts.{object_text, objects_text};

use crate::members::add_number_at;
use crate::steps::add_step;
use dsa_book::Step;
use dsa_event_text::{Added, add_number};
use dsa_regs::Caps;

fn add_caps(text: &mut String, caps: &Caps) -> Added
    ensures { Adds result text.old text.new (object_text (members_of_caps caps.now)) }
{
    add_number(text, "{\"queues\":", u32::from(caps.queues))?;
    add_number_at(text, "groups", u64::from(caps.groups))?;
    add_number_at(text, "engines", u64::from(caps.engines))?;
    add_number_at(text, "total_size", u64::from(caps.total_size))?;
    add_number_at(text, "read_buffers", u64::from(caps.read_buffers))?;
    add_number_at(text, "slots", u64::from(caps.slots))?;
    add_number_at(text, "max_batch_shift", u64::from(caps.max_batch_shift))?;
    add_number_at(text, "max_xfer_shift", u64::from(caps.max_xfer_shift))?;
    text.push_str("}")
}

// Each step object on a line.
fn add_steps(text: &mut String, steps: &[Step]) -> Added
    ensures { Adds result text.old text.new
        (objects_text (codes "\n") (codes ",\n") (map members_of_step steps.now)) }
{
    let mut mark = "\n";
    for step in steps {
        text.push_str(mark)?;
        add_step(text, step)?;
        mark = ",\n";
    }
    Ok(())
}

/// Adds the scenario document of a run: its capabilities, the capacity of its history, and its
/// steps, each with its answer.
pub fn add_document(text: &mut String, caps: &Caps, capacity: u64, steps: &[Step]) -> Added
    ensures { Adds result text.old text.new (recording_text caps.now capacity steps.now) }
{
    text.push_str("{\"caps\":")?;
    add_caps(text, caps)?;
    add_number_at(text, "capacity", capacity)?;
    text.push_str(",\"steps\":[")?;
    add_steps(text, steps)?;
    text.push_str("\n]}")
}
