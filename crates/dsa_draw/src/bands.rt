//! Bands: how full a queue is, or a group's read buffers, step by step.

ghost use Rattle.std.specs.Prelude.{◌≡◌, ◌++◌, ◌==◌, [], cond, IfOk, OnOk};
ghost use Rattle.dsa_event_text.specs.Added.{Adds};
ghost use Rattle.dsa_draw.specs.Bands.{level_in, line_value, raised, peaks_of, highest, reach_text, turn_text, turns, levels_of, path_text, class_text, close_text, line_text, lines_text, frame_text, name_text, name_of_kind, band_range_text, peak_text, band_phases_text, band_text, band_part_text, next_top, bands_text, bands_end, bands_of, bands_of_kind};

use crate::geometry::{column_left, level_high};
use crate::moment::{BandKind, Level, Moment, band_count};
use crate::page::{add_again, add_numbered};
use crate::phases::{Holder, add_phases};
use dsa_event_text::Added;
use dsa_regs::Caps;
use std::alloc::{AllocError, Global};
use std::fmt::Write;

/// What a band is of.
#[derive(Clone, Copy)]
pub struct Band {
    kind: BandKind,
    number: u16,
}

/// The lines of a band.
#[derive(Clone, Copy)]
enum Line {
    Filled,
    Mark,
    Limit,
}

const NOTHING: Level = Level {
    filled: 0,
    mark: 0,
    limit: 0,
    phase: None,
};

/// Where a band stands: its lower end, and the level at its upper one.
#[derive(Clone, Copy)]
struct Scale {
    bottom: u32,
    most: u16,
}

// What the band has at a moment; all is 0 where the device has no such queue or group.
fn level_in(band: Band, moment: &Moment) -> Level
    ensures { result ≡ level_in band moment.now }
{
    let levels = match band.kind {
        BandKind::Queue => &moment.queues,
        BandKind::Group => &moment.groups,
    };
    let level = levels.get(usize::from(band.number));
    level.copied().unwrap_or(NOTHING)
}

// Each of both at its highest.
fn raised(most: Level, level: Level) -> Level
    ensures { result ≡ raised most level }
{
    Level {
        filled: most.filled.max(level.filled),
        mark: most.mark.max(level.mark),
        limit: most.limit.max(level.limit),
        phase: None,
    }
}

// The peaks of the run; all is 0 where nothing was configured.
fn peaks_of(band: Band, moments: &[Moment]) -> Level
    ensures { result ≡ peaks_of band moments.now }
{
    let mut most = NOTHING;
    for moment in moments {
        most = raised(most, level_in(band, moment));
    }
    most
}

fn highest(peaks: Level) -> u16
    ensures { result ≡ highest peaks }
{
    peaks.limit.max(peaks.mark).max(peaks.filled)
}

impl Line {
    fn value_of(self, level: Level) -> u16
        ensures { result ≡ line_value self level }
    {
        match self {
            Line::Filled => level.filled,
            Line::Mark => level.mark,
            Line::Limit => level.limit,
        }
    }

    fn class(self) -> &'static str
        ensures { result.now ≡ class_text self }
    {
        match self {
            Line::Filled => "filled",
            Line::Mark => "mark",
            Line::Limit => "limit",
        }
    }
}

// A line goes to the column of a step; after the level 0 nothing is drawn up to there.
fn add_reach(text: &mut String, step: u32, before: u16, bottom: u32) -> Added
    ensures { Adds result text.old text.new (reach_text bottom step before) }
{
    let x = column_left(step);
    if before == 0 {
        write!(text, "M{x} {bottom}")
    } else {
        write!(text, "H{x}")
    }
}

// There it goes to the height of a level.
fn add_turn(text: &mut String, step: u32, before: u16, level: u16, scale: Scale) -> Added
    ensures { Adds result text.old text.new (turn_text scale.bottom scale.most step before level) }
{
    let y = u64::from(scale.bottom).saturating_sub(level_high(level, scale.most));
    add_reach(text, step, before, scale.bottom)?;
    write!(text, "V{y}")
}

// So it does where the level is another than before.
fn add_level(text: &mut String, step: u32, before: u16, level: u16, scale: Scale) -> Added
    ensures { Adds result text.old text.new
        (cond (level == before) [] (turn_text scale.bottom scale.most step before level)) }
{
    if level == before {
        return Ok(());
    }
    add_turn(text, step, before, level, scale)
}

// The turns of a line over all steps.
fn add_turns(text: &mut String, moments: &[Moment], band: Band, line: Line, scale: Scale) -> Added
    ensures { Adds result text.old text.new
        (turns scale.bottom scale.most 0 0 (levels_of band line moments.now)) }
{
    let mut step = 0u32;
    let mut before = 0;
    for moment in moments {
        let level = line.value_of(level_in(band, moment));
        add_level(text, step, before, level, scale)?;
        before = level;
        step = step.saturating_add(1);
    }
    add_reach(text, step, before, scale.bottom)
}

// A line from its first step on.
fn add_path(text: &mut String, moments: &[Moment], band: Band, line: Line, scale: Scale) -> Added
    ensures { Adds result text.old text.new
        (path_text scale.bottom scale.most (levels_of band line moments.now)) }
{
    let bottom = scale.bottom;
    write!(text, "M112 {bottom}")?;
    add_turns(text, moments, band, line, scale)
}

// Closes a filled path at the baseline.
fn add_close(text: &mut String, line: Line, bottom: u32) -> Added
    ensures { Adds result text.old text.new (close_text bottom line) }
{
    match line {
        Line::Filled => write!(text, "V{bottom}Z"),
        Line::Mark | Line::Limit => Ok(()),
    }
}

// One line of a band over all steps.
fn add_line(text: &mut String, moments: &[Moment], band: Band, line: Line, scale: Scale) -> Added
    ensures { Adds result text.old text.new
        (line_text scale.bottom scale.most band line moments.now) }
{
    let class = line.class();
    write!(text, "<path class=\"{class}\" d=\"")?;
    add_path(text, moments, band, line, scale)?;
    add_close(text, line, scale.bottom)?;
    text.push_str("\"/>\n")
}

#[tactic(auto, unfolding(crate::specs::Bands::frame_text))]
fn add_frame(text: &mut String, steps: u32, top: u32) -> Added
    ensures { Adds result text.old text.new (frame_text steps top) }
{
    let right = column_left(steps);
    let bottom = u64::from(top) + 48;
    write!(
        text,
        "<path class=\"frame\" d=\"M112 {top}H{right}V{bottom}H112Z\"/>\n"
    )
}

fn name_of(kind: BandKind) -> &'static str
    ensures { result.now ≡ name_of_kind kind }
{
    match kind {
        BandKind::Queue => "queue",
        BandKind::Group => "buffers",
    }
}

#[tactic(auto, unfolding(crate::specs::Bands::name_text))]
fn add_band_name(text: &mut String, band: Band, top: u32) -> Added
    ensures { Adds result text.old text.new (name_text band top) }
{
    add_numbered(text, name_of(band.kind), band.number, top)
}

#[tactic(auto, unfolding(crate::specs::Bands::band_range_text))]
fn add_range(text: &mut String, most: u16, top: u32) -> Added
    ensures { Adds result text.old text.new (band_range_text most top) }
{
    let base = u64::from(top) + 24;
    write!(text, "<text x=\"4\" y=\"{base}\">0 to {most}</text>\n")
}

#[tactic(auto, unfolding(crate::specs::Bands::peak_text))]
fn add_peak(text: &mut String, peak: u16, top: u32) -> Added
    ensures { Adds result text.old text.new (peak_text peak top) }
{
    let base = u64::from(top) + 37;
    write!(text, "<text x=\"4\" y=\"{base}\">peak {peak}</text>\n")
}

#[tactic(auto, unfolding(crate::specs::Bands::lines_text))]
fn add_lines(text: &mut String, moments: &[Moment], band: Band, scale: Scale) -> Added
    ensures { Adds result text.old text.new (lines_text scale.bottom scale.most band moments.now) }
{
    add_line(text, moments, band, Line::Filled, scale)?;
    add_line(text, moments, band, Line::Mark, scale)?;
    add_line(text, moments, band, Line::Limit, scale)
}

// The phases of a queue are above its frame. A group has none.
fn add_band_phases(text: &mut String, moments: &[Moment], band: Band, bottom: u32) -> Added
    ensures { Adds result text.old text.new (band_phases_text bottom band moments.now) }
{
    match band.kind {
        BandKind::Queue => {
            let y = bottom.saturating_sub(50);
            add_phases(text, moments, Holder::Queue(band.number), y)
        }
        BandKind::Group => Ok(()),
    }
}

// Draws the band that begins at `top` and has these peaks.
#[tactic(auto, unfolding(crate::specs::Bands::band_text))]
fn draw_band(
    text: &mut String,
    moments: &[Moment],
    steps: u32,
    band: Band,
    peaks: Level,
    top: u32,
) -> Added
    ensures { Adds result text.old text.new (band_text steps top peaks band moments.now) }
{
    let scale = Scale {
        bottom: top.saturating_add(48),
        most: highest(peaks),
    };
    add_frame(text, steps, top)?;
    add_lines(text, moments, band, scale)?;
    add_band_name(text, band, top)?;
    add_range(text, scale.most, top)?;
    add_peak(text, peaks.filled, top)?;
    add_band_phases(text, moments, band, scale.bottom)?;
    add_again(text, name_of(band.kind), Some(band.number), steps, top)
}

// Draws the band, where there is anything to draw, and says where the next one begins.
fn add_band(
    text: &mut String,
    moments: &[Moment],
    steps: u32,
    band: Band,
    top: u32,
) -> Result<u32, AllocError>
    ensures text { Adds result text.old text.new (band_part_text steps top band moments.now) }
    ensures next { IfOk result (λ next. next ≡ next_top top band moments.now) }
{
    let peaks = peaks_of(band, moments);
    if highest(peaks) == 0 {
        return Ok(top);
    }
    draw_band(text, moments, steps, band, peaks, top)?;
    Ok(top.saturating_add(56))
}

/// Draws bands one below the other, the first one at `top`, and says where what follows begins.
pub fn add_bands(
    text: &mut String,
    moments: &[Moment],
    steps: u32,
    bands: &[Band],
    top: u32,
) -> Result<u32, AllocError>
    ensures text { Adds result text.old text.new (bands_text steps top bands.now moments.now) }
    ensures end { IfOk result (λ end. end ≡ bands_end top bands.now moments.now) }
{
    let mut top = top;
    for band in bands {
        top = add_band(text, moments, steps, *band, top)?;
    }
    Ok(top)
}

fn push_bands(bands: &mut Vec<Band>, kind: BandKind, caps: &Caps) -> Result<(), AllocError>
    ensures { OnOk result (bands.new.items ≡ bands.old.items ++ bands_of_kind caps.now kind) }
{
    for number in 0..band_count(caps, kind) {
        bands.push(Band { kind, number })?;
    }
    Ok(())
}

/// The bands of a device: its queues, and then its groups.
pub fn bands_of(alloc: Global, caps: &Caps) -> Result<Vec<Band>, AllocError>
    ensures { IfOk result (λ bands. bands.items ≡ bands_of caps.now) }
{
    let mut bands = Vec::new(alloc);
    push_bands(&mut bands, BandKind::Queue, caps)?;
    push_bands(&mut bands, BandKind::Group, caps)?;
    Ok(bands)
}
