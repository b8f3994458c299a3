//! The checks of a submission that were passed, though an answer that was seen says otherwise.

ghost use Rattle.std.specs.Prelude.{◌≡◌, option_map, string_bytes};
ghost use Rattle.dsa_event_text.specs.Added.{Adds};
ghost use Rattle.dsa_book.specs.Machine.{intake_of};
ghost use Rattle.dsa_conform.specs.Against.{passed_fact, reason_of_row, row_of_reason, row_of_text, row_seen};

use crate::observed::Observed;
use dsa_book::Portal;
use dsa_device::{Device, SubmitReason};
use dsa_event_text::Added;
use dsa_explain_lines::add_submit_reason;
use dsa_queues::limit_of;
use dsa_store::EntryStore;

// The row of the table of a submission that decides by such an answer; 3 where none does.
fn row_of_text(text: &str) -> u8
    ensures { result ≡ row_of_text text.now }
{
    match text {
        "retry not-enabled" | "dropped not-enabled" => 0,
        "retry wrong-kind" | "dropped wrong-kind" => 1,
        "retry at-limit" | "dropped at-limit" => 2,
        _ => 3,
    }
}

/// The same with the zero flag, which is set where a row decides.
pub fn row_seen(answer: Option<&str>, zf: Option<bool>) -> u8
    ensures { result ≡ row_seen (option_map (λ text. text.now) answer.entry) zf }
{
    match (answer, zf) {
        (Some(text), Some(true)) => row_of_text(text).min(2),
        (Some(text), _) => row_of_text(text),
        (None, Some(true)) => 2,
        (None, _) => 3,
    }
}

/// The row that does decide.
pub fn row_of_reason(reason: &Option<SubmitReason>) -> u8
    ensures { result ≡ row_of_reason reason.now }
{
    match reason {
        Some(SubmitReason::NotEnabled { .. }) => 0,
        Some(SubmitReason::WrongKind { .. }) => 1,
        Some(SubmitReason::AtLimit { .. }) => 2,
        None => 3,
    }
}

// What the row looks at, where the device has the queue.
fn reason_of_row<S: EntryStore>(
    device: &Device<S>,
    queue: u16,
    portal: Portal,
    row: u8,
) -> Option<SubmitReason>
    ensures { result ≡ reason_of_row (intake_of device.now.state) queue portal row }
{
    device.state_is_replay();
    let config = device.queue_config(queue)?;
    let phase = device.queue_phase(queue);
    let occupancy = u32::from(device.occupancy(queue)?);
    match row {
        0 => Some(SubmitReason::NotEnabled {
            device: device.phase(),
            queue: phase,
        }),
        1 => Some(SubmitReason::WrongKind {
            dedicated: config.dedicated,
        }),
        2 => Some(SubmitReason::AtLimit {
            occupancy,
            limit: limit_of(&config, portal),
            portal,
        }),
        _ => None,
    }
}

/// Adds what a row looks at that decides by what was seen, where it was passed.
pub fn add_passed<S: EntryStore>(
    text: &mut String,
    device: &Device<S>,
    queue: u16,
    portal: Portal,
    seen: u8,
    decides: u8,
) -> Added
    ensures { Adds result text.old text.new
        (passed_fact (intake_of device.now.state) queue portal seen decides) }
{
    if seen >= decides {
        return Ok(());
    }
    match reason_of_row(device, queue, portal, seen) {
        Some(reason) => add_submit_reason(text, queue, &reason),
        None => Ok(()),
    }
}
