//! Submissions that are turned away.

ghost use Rattle.std.specs.Prelude.{◌≡◌};
ghost use Rattle.dsa_event_text.specs.Added.{Adds};
ghost use Rattle.dsa_explain_lines.specs.Sentences.{at_limit_words, enabled_words, mode_words, submit_sentence};

use crate::words::{add_counted, add_phase};
use dsa_book::Portal;
use dsa_device::SubmitReason;
use dsa_event_text::{Added, add_count, add_number, portal_label};
use dsa_regs::Phase;

fn mode_words(dedicated: bool) -> &'static str
    ensures { result.now ≡ mode_words dedicated }
{
    if dedicated {
        " is dedicated, and takes movdir"
    } else {
        " is shared, and takes enqcmd"
    }
}

// The phases of the device and of the queue, where it has the queue.
fn add_phases(text: &mut String, queue: u16, device: Phase, phase: Option<Phase>) -> Added
    ensures { Adds result text.old text.new (enabled_words queue device phase) }
{
    let Some(phase) = phase else {
        return add_number(text, "the device has no q", u32::from(queue));
    };
    add_phase(text, "the device is ", device)?;
    add_number(text, ", and q", u32::from(queue))?;
    add_phase(text, " is ", phase)
}

// What the queue holds, and the limit of the portal.
fn add_limit(text: &mut String, queue: u16, occupancy: u32, limit: u16, portal: Portal) -> Added
    ensures { Adds result text.old text.new (at_limit_words queue occupancy limit portal) }
{
    add_number(text, "q", u32::from(queue))?;
    add_count(text, " holds ", u64::from(occupancy), "entry", "entries")?;
    text.push_str(", and the ")?;
    text.push_str(portal_label(portal))?;
    add_number(text, " portal goes up to ", u32::from(limit))
}

/// Adds the sentence of why a submission to the queue is turned away.
pub fn add_submit_reason(text: &mut String, queue: u16, reason: &SubmitReason) -> Added
    ensures { Adds result text.old text.new (submit_sentence queue reason.now) }
{
    match *reason {
        SubmitReason::NotEnabled {
            device,
            queue: phase,
        } => add_phases(text, queue, device, phase),
        SubmitReason::WrongKind { dedicated } => {
            add_counted(text, "q", u32::from(queue), mode_words(dedicated))
        }
        SubmitReason::AtLimit {
            occupancy,
            limit,
            portal,
        } => add_limit(text, queue, occupancy, limit, portal),
    }
}
