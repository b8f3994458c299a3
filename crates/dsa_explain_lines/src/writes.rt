//! Configurations that are not written, and errors that are not cleared.

ghost use Rattle.dsa_event_text.specs.Added.{Adds};
ghost use Rattle.dsa_explain_lines.specs.Sentences.{clear_sentence, device_words, write_sentence};

use crate::words::{add_counted, add_phase};
use dsa_device::{ClearReason, WriteReason};
use dsa_event_text::{Added, add_count};
use dsa_regs::Phase;

fn add_device(text: &mut String, phase: Phase) -> Added
    ensures { Adds result text.old text.new (device_words phase) }
{
    add_phase(text, "the device is ", phase)
}

/// Adds the sentence of why a configuration is refused: of a queue or of a group, named as `one`
/// and as `many`.
pub fn add_write_reason(text: &mut String, one: &str, many: &str, reason: &WriteReason) -> Added
    ensures { Adds result text.old text.new (write_sentence one.now many.now reason.now) }
{
    match *reason {
        WriteReason::BadIndex { count } => {
            add_count(text, "the device has ", u64::from(count), one, many)
        }
        WriteReason::LockedQueue { phase } => add_phase(text, "the queue is ", phase),
        WriteReason::LockedSize { phase, size } => {
            add_device(text, phase)?;
            add_counted(text, ", and the size stays ", u32::from(size), "")
        }
        WriteReason::LockedGroup { phase } => add_device(text, phase),
    }
}

/// Adds the sentence of why no error is cleared.
pub fn add_clear_reason(text: &mut String, reason: &ClearReason) -> Added
    ensures { Adds result text.old text.new (clear_sentence reason.now) }
{
    match reason {
        ClearReason::NothingNoted => text.push_str("no error is noted"),
    }
}
