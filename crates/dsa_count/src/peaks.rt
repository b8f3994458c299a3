//! The most that queues held and that groups used, after any step of a run.

ghost use Rattle.std.specs.Prelude.{◌≡◌, ◌<◌, ℕ, max, IfOk, get_or};
ghost use Rattle.dsa_event_text.specs.Added.{Adds};
ghost use Rattle.dsa_count.specs.Peaks.{gauged, peak_line, peak_lines, peak_words, reading};

use dsa_device::Device;
use dsa_event_text::{Added, add_number};
use dsa_store::EntryStore;
use std::alloc::{AllocError, Global};

/// How many queues a device has at most; of groups it has fewer.
const MOST: u16 = 64;

/// What is read of a device: of a queue its occupancy and its size, of a group the read buffers in
/// use and those that it may use.
#[derive(Clone, Copy)]
pub enum Gauge {
    Occupancy,
    Size,
    Used,
    Allowed,
}

/// What has a peak.
#[derive(Clone, Copy)]
pub enum Holder {
    Queue,
    Group,
}

// Nothing of what the device does not have.
fn reading<S: EntryStore>(device: &Device<S>, gauge: Gauge, number: u16) -> Option<u16>
    ensures { result ≡ reading device.now gauge number }
{
    match gauge {
        Gauge::Occupancy => device.occupancy(number),
        Gauge::Size => device.queue_config(number).map(|config| config.size),
        Gauge::Used => device.used(number),
        Gauge::Allowed => device.group_config(number).map(|config| config.allowed),
    }
}

fn gauged<S: EntryStore>(device: &Device<S>, gauge: Gauge, number: u16) -> u16
    ensures { result ≡ gauged device.now gauge number }
{
    reading(device, gauge, number).unwrap_or(0)
}

fn peak_at(peaks: &[u16], number: u16) -> u16
    ensures { result ≡ get_or peaks.now number 0 }
{
    peaks.get(usize::from(number)).copied().unwrap_or(0)
}

/// The peaks after one step more.
pub fn raised<S: EntryStore>(
    alloc: Global,
    peaks: &[u16],
    device: &Device<S>,
    gauge: Gauge,
) -> Result<Vec<u16>, AllocError>
    ensures { IfOk result
        (λ raised. (number : ℕ) → number < 64
        → get_or raised.items number 0
        ≡ max (get_or peaks.now number 0) (gauged device.now gauge number)) }
{
    let mut raised = Vec::new(alloc);
    for number in 0..MOST {
        raised.push(peak_at(peaks, number).max(gauged(device, gauge, number)))?;
    }
    Ok(raised)
}

// What is told before the number of a queue or a group, and behind its peak.
fn peak_words(holder: Holder) -> (&'static str, &'static str)
    ensures { (result.0.now ≡ (peak_words holder).0) × (result.1.now ≡ (peak_words holder).1) }
{
    match holder {
        Holder::Queue => ("peak queue ", " entries\n"),
        Holder::Group => ("peak group ", " read buffers\n"),
    }
}

// The line of a queue or a group, where it was configured.
fn add_peak(text: &mut String, holder: Holder, number: u16, filled: u16, bound: u16) -> Added
    ensures { Adds result text.old text.new (peak_line holder number filled bound) }
{
    if bound == 0 {
        return Ok(());
    }
    let (before, behind) = peak_words(holder);
    add_number(text, before, u32::from(number))?;
    add_number(text, ": ", u32::from(filled))?;
    add_number(text, " of ", u32::from(bound))?;
    text.push_str(behind)
}

/// Adds the lines of the numbers below this one.
#[tactic(auto, unfolding(crate::specs::Peaks::peak_lines))]
pub fn add_peaks(
    text: &mut String,
    holder: Holder,
    filled: &[u16],
    bounds: &[u16],
    below: u16,
) -> Added
    ensures { Adds result text.old text.new
        (peak_lines holder (λ number. get_or filled.now number 0)
        (λ number. get_or bounds.now number 0) below) }
{
    for number in 0..below {
        add_peak(
            text,
            holder,
            number,
            peak_at(filled, number),
            peak_at(bounds, number),
        )?;
    }
    Ok(())
}
