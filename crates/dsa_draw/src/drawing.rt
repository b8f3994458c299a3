//! The whole drawing.

ghost use Rattle.std.specs.Prelude.{◌≡◌, ◌++◌, ◌==◌, cond, nat_lt, [], IfOk, OnOk, string_bytes};
ghost use Rattle.std.specs.List.{range_with_len};
ghost use Rattle.dsa_event_text.specs.Added.{Adds};
ghost use Rattle.dsa_draw.specs.Columns.{step_words, title_text, column_text, grid_text, label_text, step_number_text, fifth_text, columns_text};
ghost use Rattle.dsa_draw.specs.Rows.{command_place_text, command_name_text, event_name_text, label_above_text, asker_of, asker_text, fate_mark, ended_head_text, ended_title_text, ended_text, fates_text, marks_of_step_text, marks_above_text, names_above_text, names_again_text, steps_above_text, rows_above_text};
ghost use Rattle.dsa_draw.specs.{Engines.{engines_text, engines_end}, Pages.{small_number_text}};
ghost use Rattle.dsa_draw.specs.Active.{waits_from, waits_text};
ghost use Rattle.dsa_draw.specs.Drawings.{step_count, extent_of, IsTextOf};

use crate::active::{add_waits, waits_of};
use crate::bands::{add_bands, bands_of};
use crate::bars::{Bar, bars_of, rows_between};
use crate::engines::add_engine;
use crate::geometry::column_left;
use crate::marks::{Mark, mark_of};
use crate::moment::Moment;
use crate::page::{
    add_again, add_foot, add_head, add_legend, add_mark, add_name, add_rect, add_rule,
    add_small_number, add_xml,
};
use crate::phases::{Holder, add_phases};
use crate::range::{Extent, StepRange, ended_before, moments_in};
use crate::run::Story;
use dsa_book::{Actor, Event, Fate, FateRow};
use dsa_event_text::{Added, add_command, add_number};
use dsa_explain_lines::{add_asked, add_shown};
use dsa_regs::Command;
use dsa_scenario::{Record, add_answer, add_rows};
use std::alloc::{AllocError, Global};
use std::fmt::Write;

// The rows above the bands.
const NUMBERS: u32 = 80;

const CLIENTS: u32 = 96;

const ADMINISTRATOR: u32 = 112;

const FATES: u32 = 160;

// The first frame, below the line of a queue's phase.
const BANDS: u32 = 190;

// ---- columns

// The line of an explanation has a number before these words, and ends behind them.
fn words_of(alloc: Global, moment: &Moment) -> Result<String, AllocError>
    ensures { IfOk result (λ words. string_bytes words ≡ step_words moment.now) }
{
    let mut words = String::new(alloc);
    add_asked(&mut words, &moment.entry)?;
    words.push_str(" -> ")?;
    add_answer(&mut words, &moment.entry)?;
    add_shown(&mut words, &moment.entry, moment.reason.as_str())?;
    words.pop();
    words.push_str(moment.note.as_str())?;
    Ok(words)
}

// The title of a column.
#[tactic(auto, unfolding(crate::specs::Columns::title_text))]
fn add_title(alloc: Global, text: &mut String, moment: &Moment) -> Added
    ensures { Adds result text.old text.new (title_text moment.now) }
{
    let words = words_of(alloc, moment)?;
    add_number(text, "step ", moment.number)?;
    text.push_str(": ")?;
    add_xml(text, words.as_str())
}

// A column has the step as its title.
fn add_column(alloc: Global, text: &mut String, moment: &Moment, column: u32, height: u32) -> Added
    ensures { Adds result text.old text.new (column_text height column moment.now) }
{
    let high = height.saturating_sub(NUMBERS);
    add_rect(
        text,
        "column",
        column,
        u64::from(NUMBERS),
        14,
        u64::from(high),
    )?;
    text.push_str("><title>")?;
    add_title(alloc, text, moment)?;
    write!(text, "</title></rect>\n")
}

#[tactic(auto, unfolding(crate::specs::Columns::grid_text))]
fn add_grid(text: &mut String, step: u32, height: u32) -> Added
    ensures { Adds result text.old text.new (grid_text height step) }
{
    let x = column_left(step);
    let high = height.saturating_sub(NUMBERS);
    write!(text, "<path class=\"grid\" d=\"M{x} 80v{high}\"/>\n")
}

#[tactic(auto, unfolding(crate::specs::Columns::label_text))]
fn add_step_label(text: &mut String, step: u32, column: u32) -> Added
    ensures { Adds result text.old text.new (label_text column step) }
{
    let x = column_left(column) + 2;
    write!(text, "<text x=\"{x}\" y=\"91\">{step}</text>\n")
}

// A line, and the number of the step.
fn add_step_number(text: &mut String, step: u32, column: u32, height: u32) -> Added
    ensures { Adds result text.old text.new (step_number_text height column step) }
{
    add_grid(text, column, height)?;
    add_step_label(text, step, column)
}

// That of every fifth step.
fn add_fifth(text: &mut String, step: u32, column: u32, height: u32) -> Added
    ensures { Adds result text.old text.new (fifth_text height column step) }
{
    if step % 5 == 0 {
        add_step_number(text, step, column, height)
    } else {
        Ok(())
    }
}

fn add_columns(alloc: Global, text: &mut String, moments: &[Moment], height: u32) -> Added
    ensures { Adds result text.old text.new (columns_text height 0 moments.now) }
{
    let mut column = 0u32;
    for moment in moments {
        add_fifth(text, moment.number, column, height)?;
        add_column(alloc, text, moment, column, height)?;
        column = column.saturating_add(1);
    }
    Ok(())
}

// ---- the rows above the bands

#[tactic(auto, unfolding(crate::specs::Rows::command_place_text))]
fn add_command_place(text: &mut String, step: u32) -> Added
    ensures { Adds result text.old text.new (command_place_text step) }
{
    let x = column_left(step) + 10;
    write!(text, "<text transform=\"translate({x} 76) rotate(-60)\">")
}

// A command with its operand stands above its column.
fn add_command_name(text: &mut String, command: &Command, step: u32) -> Added
    ensures { Adds result text.old text.new (command_name_text step command.now) }
{
    add_command_place(text, step)?;
    add_command(text, command)?;
    text.push_str("</text>\n")
}

fn add_event_name(text: &mut String, event: &Event, step: u32) -> Added
    ensures { Adds result text.old text.new (event_name_text step event.now) }
{
    match event {
        Event::Issue { command } => add_command_name(text, command, step),
        _ => Ok(()),
    }
}

fn add_label(text: &mut String, entry: &Record, step: u32) -> Added
    ensures { Adds result text.old text.new (label_above_text step entry.now) }
{
    match entry {
        Record::Stepped(made) => add_event_name(text, &made.event, step),
        Record::Refused(_) => Ok(()),
    }
}

// A word that is no command is the administrator's.
fn asker_of(entry: &Record) -> Actor
    ensures { result ≡ asker_of entry.now }
{
    match entry {
        Record::Stepped(made) => made.event.actor(),
        Record::Refused(_) => Actor::Admin,
    }
}

fn add_asker(text: &mut String, entry: &Record, step: u32) -> Added
    ensures { Adds result text.old text.new (asker_text step entry.now) }
{
    match asker_of(entry) {
        Actor::Client(_) => add_mark(text, mark_of(entry), step, CLIENTS),
        Actor::Admin => add_mark(text, mark_of(entry), step, ADMINISTRATOR),
        Actor::Engine(_) => Ok(()),
    }
}

fn status_mark(status: u8) -> Mark
    ensures { result ≡ cond (status == 1) Mark.Done Mark.Failed }
{
    if status == 0x01 {
        Mark::Done
    } else {
        Mark::Failed
    }
}

fn fate_mark(fate: Fate) -> Mark
    ensures { result ≡ fate_mark fate }
{
    match fate {
        Fate::Completed(status) => status_mark(status),
        _ => Mark::Failed,
    }
}

#[tactic(auto, unfolding(crate::specs::Rows::ended_head_text))]
fn add_ended_head(text: &mut String, step: u32) -> Added
    ensures { Adds result text.old text.new (ended_head_text step) }
{
    write!(text, "<g><title>step {step}\n")
}

fn add_ended_title(text: &mut String, rows: &[FateRow], step: u32) -> Added
    ensures { Adds result text.old text.new (ended_title_text step rows.now) }
{
    add_ended_head(text, step)?;
    add_rows(text, rows)?;
    text.push_str("</title>")
}

fn add_ended_many(text: &mut String, step: u32, count: usize) -> Added
    ensures { Adds result text.old text.new
        (cond (nat_lt 1 count) (small_number_text step 183 count) []) }
{
    if count > 1 {
        add_small_number(text, step, 183, count as u64)
    } else {
        Ok(())
    }
}

fn add_ended(text: &mut String, rows: &[FateRow], mark: Mark, step: u32, column: u32) -> Added
    ensures { Adds result text.old text.new (ended_text column step rows.now mark) }
{
    add_ended_title(text, rows, step)?;
    add_rect(text, "column", column, u64::from(FATES), 14, 16)?;
    text.push_str("/>")?;
    add_ended_many(text, column, rows.len())?;
    add_mark(text, mark, column, FATES)?;
    text.push_str("</g>\n")
}

// A mark for the last entry that ended in this step, and how many did where it was not alone.
fn add_fates(text: &mut String, rows: &[FateRow], step: u32, column: u32) -> Added
    ensures { Adds result text.old text.new (fates_text column step rows.now) }
{
    match rows.last() {
        Some(row) => add_ended(text, rows, fate_mark(row.fate), step, column),
        None => Ok(()),
    }
}

// What a step has in these rows; before it so many entries had ended.
fn add_marks_of_step(
    text: &mut String,
    fates: &[FateRow],
    moment: &Moment,
    column: u32,
    ended: usize,
) -> Added
    ensures { Adds result text.old text.new (marks_of_step_text fates.now column ended moment.now) }
{
    add_label(text, &moment.entry, column)?;
    add_asker(text, &moment.entry, column)?;
    let rows = rows_between(fates, ended, moment.ended);
    add_fates(text, rows, moment.number, column)
}

fn add_marks(text: &mut String, fates: &[FateRow], moments: &[Moment], before: usize) -> Added
    ensures { Adds result text.old text.new (marks_above_text fates.now 0 before moments.now) }
{
    let mut column = 0u32;
    let mut ended = before;
    for moment in moments {
        add_marks_of_step(text, fates, moment, column, ended)?;
        ended = moment.ended;
        column = column.saturating_add(1);
    }
    Ok(())
}

// The phase of the device.
const DEVICE: u32 = 128;

const ACTIVE: u32 = 144;

#[tactic(auto, unfolding(crate::specs::Rows::names_above_text))]
fn add_names_above(text: &mut String, steps: u32) -> Added
    ensures { Adds result text.old text.new (names_above_text steps) }
{
    add_name(text, "step", NUMBERS)?;
    add_name(text, "clients", CLIENTS)?;
    add_name(text, "administrator", ADMINISTRATOR)?;
    add_name(text, "device", DEVICE)?;
    add_name(text, "active", ACTIVE)?;
    add_name(text, "fates", FATES)?;
    add_rule(text, steps, CLIENTS)?;
    add_rule(text, steps, ADMINISTRATOR)?;
    add_rule(text, steps, DEVICE)?;
    add_rule(text, steps, ACTIVE)?;
    add_rule(text, steps, FATES)
}

fn add_names_again(text: &mut String, steps: u32) -> Added
    ensures { Adds result text.old text.new (names_again_text steps) }
{
    add_again(text, "clients", None, steps, CLIENTS)?;
    add_again(text, "administrator", None, steps, ADMINISTRATOR)?;
    add_again(text, "device", None, steps, DEVICE)?;
    add_again(text, "active", None, steps, ACTIVE)?;
    add_again(text, "fates", None, steps, FATES)
}

fn add_active(alloc: Global, text: &mut String, moments: &[Moment], extent: Extent) -> Added
    ensures { Adds result text.old text.new (waits_text extent (waits_from 0 moments.now)) }
{
    let waits = waits_of(alloc, moments)?;
    add_waits(alloc, text, &waits, extent)
}

// What the steps that are drawn have there.
fn add_steps_above(
    text: &mut String,
    fates: &[FateRow],
    moments: &[Moment],
    range: StepRange,
) -> Added
    ensures { Adds result text.old text.new (steps_above_text range fates.now moments.now) }
{
    let shown = moments_in(moments, range);
    add_marks(text, fates, shown, ended_before(moments, range))?;
    add_phases(text, shown, Holder::Device, DEVICE + 13)
}

fn add_rows_above(
    alloc: Global,
    text: &mut String,
    fates: &[FateRow],
    moments: &[Moment],
    extent: Extent,
) -> Added
    ensures { Adds result text.old text.new (rows_above_text extent fates.now moments.now) }
{
    add_names_above(text, extent.columns())?;
    add_steps_above(text, fates, moments, extent.range)?;
    add_active(alloc, text, moments, extent)?;
    add_names_again(text, extent.columns())
}

// ---- bands and engines

fn add_engines(
    alloc: Global,
    text: &mut String,
    moments: &[Moment],
    bars: &[Bar],
    engines: u16,
    extent: Extent,
    top: u32,
) -> Result<u32, AllocError>
    ensures text { Adds result text.old text.new
        (engines_text extent top (range_with_len 0 engines) moments.now bars.now) }
    ensures end { IfOk result
        (λ end. end ≡ engines_end extent top (range_with_len 0 engines) moments.now bars.now) }
{
    let mut top = top;
    for engine in 0..engines {
        top = add_engine(alloc, text, moments, bars, engine, extent, top)?;
    }
    Ok(top)
}

fn count_of(moments: &[Moment]) -> u32
    ensures { result ≡ step_count moments.now }
{
    u32::try_from(moments.len()).unwrap_or(u32::MAX)
}

fn add_parts(text: &mut String, above: &str, bands: &str, below: &str) -> Added
    ensures { OnOk result
        (string_bytes text.new ≡ (string_bytes text.old ++ above.now) ++ bands.now ++ below.now) }
{
    text.push_str(above)?;
    text.push_str(bands)?;
    text.push_str(below)
}

// What is drawn of these moments.
fn extent_of(moments: &[Moment], range: StepRange) -> Extent
    ensures { result ≡ extent_of range moments.now }
{
    let last = count_of(moments);
    Extent {
        range: range.within(last),
        last,
    }
}

/// The drawing of a story.
pub fn draw(alloc: Global, story: &Story, steps: StepRange) -> Result<String, AllocError>
    ensures { IfOk result (λ text. IsTextOf steps story.now (string_bytes text)) }
{
    let moments = story.moments.as_slice();
    let fates = story.fates.as_slice();
    let extent = extent_of(moments, steps);
    let shown = moments_in(moments, extent.range);
    let mut above = String::new(alloc);
    add_rows_above(alloc, &mut above, fates, moments, extent)?;
    let list = bands_of(alloc, &story.caps)?;
    let mut bands = String::new(alloc);
    let top = add_bands(&mut bands, shown, extent.columns(), &list, BANDS)?;
    let bars = bars_of(alloc, moments, fates)?;
    let mut below = String::new(alloc);
    let engines = story.caps.engines;
    let height = add_engines(alloc, &mut below, moments, &bars, engines, extent, top)?;
    add_legend(&mut below, height)?;
    add_foot(&mut below)?;
    let mut text = String::new(alloc);
    add_head(&mut text, extent, height)?;
    add_columns(alloc, &mut text, shown, height)?;
    add_parts(&mut text, above.as_str(), bands.as_str(), below.as_str())?;
    Ok(text)
}
