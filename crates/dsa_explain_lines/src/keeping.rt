//! For which other groups read buffers are kept.

ghost use Rattle.std.specs.Prelude.{◌<◌, flat_map};
ghost use Rattle.dsa_base.specs.Numbers.{numbers_below};
ghost use Rattle.dsa_event_text.specs.Added.{Adds};
ghost use Rattle.dsa_explain_lines.specs.Parts.{keeping_part, kept_part, queue_keeping, start_keeping};

use crate::words::add_counted_twice;
use dsa_device::Device;
use dsa_engines::{QueueReason, StartReason};
use dsa_event_text::Added;
use dsa_explain::kept_for;
use dsa_store::EntryStore;

// What is kept for another group, where anything is.
fn add_kept<S: EntryStore>(text: &mut String, device: &Device<S>, group: u16, other: u16) -> Added
    requires { other < device.now.caps.groups }
    ensures { Adds result text.old text.new (kept_part device.now.state.work group other) }
{
    let kept = kept_for(device, other).unwrap_or(0);
    if other == group || kept == 0 {
        return Ok(());
    }
    add_counted_twice(
        text,
        ", ",
        u32::from(kept),
        " for group ",
        u32::from(other),
        "",
    )
}

// For which groups but this one read buffers are kept.
fn add_keeping<S: EntryStore>(text: &mut String, device: &Device<S>, group: u16) -> Added
    ensures { Adds result text.old text.new (keeping_part device.now.state.work group) }
{
    device.state_is_replay();
    for other in 0..device.caps().groups {
        add_kept(text, device, group, other)?;
    }
    Ok(())
}

/// Adds for which other groups read buffers are kept, behind the reason of a queue that is about
/// them.
pub fn add_queue_keeping<S: EntryStore>(
    text: &mut String,
    device: &Device<S>,
    reason: &QueueReason,
) -> Added
    ensures { Adds result text.old text.new (queue_keeping device.now.state.work reason.now) }
{
    match reason {
        QueueReason::NoBuffers(want) => add_keeping(text, device, want.group),
        _ => Ok(()),
    }
}

/// The same behind the reason of a member that does not start.
pub fn add_start_keeping<S: EntryStore>(
    text: &mut String,
    device: &Device<S>,
    reason: &StartReason,
) -> Added
    ensures { Adds result text.old text.new (start_keeping device.now.state.work reason.now) }
{
    match reason {
        StartReason::NoBuffers(want) => add_keeping(text, device, want.group),
        _ => Ok(()),
    }
}
