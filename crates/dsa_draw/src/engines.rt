//! Engines: what they asked for, and how long they had which entries.

ghost use Rattle.std.specs.Prelude.{◌≡◌, ◌++◌, ◌<◌, ◌^◌, ◌==◌, ◌&&◌, [], cond, false, Some, IfOk, codes, option_map, slice_get};
ghost use Rattle.std.specs.Fmt.{digit_glyph};
ghost use Rattle.dsa_event_text.specs.Added.{Adds};
ghost use Rattle.dsa_scenario.specs.Lines.{two_digits};
ghost use Rattle.dsa_draw.specs.Bars.{end_step};
ghost use Rattle.dsa_draw.specs.Engines.{is_step_by, has_steps, engine_mark_text, engine_marks_text, class_of_fate, class_of_end, strokes_text, sign_text, end_sign_text, fate_phrase, kind_phrase, work_phrase, client_phrase, parent_phrase, bar_reason_text, completion_reason, end_phrase, own_at, own_phrase, entry_phrase, steps_phrase, bar_title_text, box_part_text, lane_by, bar_top, boxes_text, is_shown, bar_text, bars_text, lanes_bottom, batch_title_text, batch_text, batches_text, taken_in_lanes, bars_in_lanes, lanes_of, engine_bottom, engine_name_text, engine_rows_text, engine_part_text, engine_end};

use crate::bars::{Bar, End, lay_bars};
use crate::geometry::{column_left, columns_wide, lane_top};
use crate::labels::{Sign, add_label, sign_of};
use crate::marks::mark_of;
use crate::moment::Moment;
use crate::page::{add_again, add_box, add_mark, add_numbered, add_rect, add_rule, add_xml};
use crate::range::{Extent, moments_in};
use dsa_book::{Actor, Fate};
use dsa_desc::Descriptor;
use dsa_event_text::{Added, add_descriptor, add_number};
use dsa_scenario::Record;
use std::alloc::{AllocError, Global};
use std::fmt::Write;

/// Where the lanes of an engine stand, and those of its members.
#[derive(Clone, Copy)]
struct Lanes {
    top: u32,
    taken: u32,
    members: u32,
    extent: Extent,
}

fn is_of(entry: &Record, engine: u16) -> bool
    ensures { result ≡ is_step_by engine entry.now }
{
    match entry {
        Record::Stepped(step) => step.event.actor() == Actor::Engine(engine),
        Record::Refused(_) => false,
    }
}

fn has_steps(moments: &[Moment], engine: u16) -> bool
    ensures { result ≡ has_steps engine moments.now }
{
    for moment in moments {
        if is_of(&moment.entry, engine) {
            return true;
        }
    }
    false
}

fn add_engine_mark(text: &mut String, entry: &Record, engine: u16, step: u32, top: u32) -> Added
    ensures { Adds result text.old text.new (engine_mark_text engine top step entry.now) }
{
    if is_of(entry, engine) {
        add_mark(text, mark_of(entry), step, top)
    } else {
        Ok(())
    }
}

fn add_marks(text: &mut String, moments: &[Moment], engine: u16, top: u32) -> Added
    ensures { Adds result text.old text.new (engine_marks_text engine top 0 moments.now) }
{
    let mut step = 0u32;
    for moment in moments {
        add_engine_mark(text, &moment.entry, engine, step, top)?;
        step = step.saturating_add(1);
    }
    Ok(())
}

// ---- bars

fn class_of_status(status: u8) -> &'static str
    ensures { result.now ≡ cond (status == 1) (codes "success") (codes "failure") }
{
    if status == 0x01 { "success" } else { "failure" }
}

fn class_of(end: Option<End>) -> &'static str
    ensures { result.now ≡ class_of_end end }
{
    match end {
        None => "held",
        Some(end) => match end.fate {
            Fate::Completed(status) => class_of_status(status),
            _ => "lost",
        },
    }
}

fn hex_digit(n: u8) -> char
    requires { n < 16 }
    ensures { result ≡ digit_glyph false n }
{
    char::from(if n < 10 { b'0' + n } else { b'a' + (n - 10) })
}

fn add_status(text: &mut String, status: u8) -> Added
    ensures { Adds result text.old text.new (two_digits status) }
{
    text.push(hex_digit(status / 16))?;
    text.push(hex_digit(status % 16))
}

// A word and a status.
fn add_completed(text: &mut String, word: &str, status: u8) -> Added
    ensures { Adds result text.old text.new (word.now ++ two_digits status) }
{
    text.push_str(word)?;
    add_status(text, status)
}

fn add_fate(text: &mut String, fate: Fate) -> Added
    ensures { Adds result text.old text.new (fate_phrase fate) }
{
    match fate {
        Fate::Completed(status) => add_completed(text, "completed ", status),
        Fate::Aborted(command) => write!(text, "aborted by command {command}"),
        Fate::Abandoned => text.push_str("abandoned"),
    }
}

#[tactic(auto, unfolding(crate::specs::Engines::kind_phrase))]
fn kind_of(is_batch: bool) -> &'static str
    ensures { result.now ≡ kind_phrase is_batch }
{
    if is_batch { "batch " } else { "entry " }
}

// What the entry asks for.
fn add_work(text: &mut String, desc: Option<Descriptor>) -> Added
    ensures { Adds result text.old text.new (work_phrase desc) }
{
    let Some(desc) = desc else {
        return Ok(());
    };
    text.push_str(": ")?;
    add_descriptor(text, &desc)?;
    add_number(text, ", PASID ", desc.pasid)
}

fn add_client(text: &mut String, client: Option<u16>) -> Added
    ensures { Adds result text.old text.new (client_phrase client) }
{
    match client {
        Some(client) => add_number(text, ", client ", u32::from(client)),
        None => Ok(()),
    }
}

fn add_parent(text: &mut String, parent: Option<u32>) -> Added
    ensures { Adds result text.old text.new (parent_phrase parent) }
{
    match parent {
        Some(parent) => write!(text, ", member of batch {parent}"),
        None => Ok(()),
    }
}

fn add_reason(text: &mut String, moments: &[Moment], step: u32) -> Added
    ensures { Adds result text.old text.new (bar_reason_text (slice_get moments.now step)) }
{
    match moments.get(step as usize) {
        Some(moment) => add_xml(text, moment.reason.as_str()),
        None => Ok(()),
    }
}

// Why an entry completed so, as the step that ended it says.
fn add_completion(text: &mut String, moments: &[Moment], end: End) -> Added
    ensures { Adds result text.old text.new (completion_reason moments.now end.step end.fate) }
{
    match end.fate {
        Fate::Completed(_) => add_reason(text, moments, end.step),
        _ => Ok(()),
    }
}

fn add_end(text: &mut String, moments: &[Moment], end: End) -> Added
    ensures { Adds result text.old text.new (end_phrase moments.now (Some end)) }
{
    add_number(text, " to ", end.step)?;
    text.push_str(": ")?;
    add_fate(text, end.fate)?;
    add_completion(text, moments, end)
}

fn add_end_part(text: &mut String, moments: &[Moment], end: Option<End>) -> Added
    ensures { Adds result text.old text.new (end_phrase moments.now end) }
{
    match end {
        Some(end) => add_end(text, moments, end),
        None => text.push_str(", still held"),
    }
}

// The own name of the entry, as the step tells it that brought it to the engine.
fn own_at(moments: &[Moment], step: u32) -> Option<&str>
    ensures { option_map (λ own. own.now) result ≡ own_at moments.now step }
{
    moments.get(step as usize)?.own.as_deref()
}

fn add_own(text: &mut String, own: Option<&str>) -> Added
    ensures { Adds result text.old text.new (own_phrase (option_map (λ own. own.now) own.entry)) }
{
    let Some(own) = own else {
        return Ok(());
    };
    text.push_str(" is ")?;
    add_xml(text, own)
}

// What the bar is of, an entry with this own name.
fn add_bar_entry(text: &mut String, own: Option<&str>, bar: &Bar) -> Added
    ensures { Adds result text.old text.new
        (entry_phrase (option_map (λ own. own.now) own.entry) bar.now) }
{
    add_number(text, kind_of(bar.is_batch), bar.name)?;
    add_own(text, own)?;
    add_work(text, bar.desc)?;
    add_client(text, bar.client)?;
    add_parent(text, bar.parent)
}

// From where to where it goes, and how it ended.
fn add_bar_steps(text: &mut String, moments: &[Moment], bar: &Bar) -> Added
    ensures { Adds result text.old text.new (steps_phrase moments.now bar.now) }
{
    add_number(text, ", on e", u32::from(bar.engine))?;
    add_number(text, " from step ", bar.begin)?;
    add_end_part(text, moments, bar.end)
}

#[tactic(auto, unfolding(crate::specs::Engines::bar_title_text))]
fn add_bar_title(text: &mut String, moments: &[Moment], bar: &Bar) -> Added
    ensures { Adds result text.old text.new (bar_title_text moments.now bar.now) }
{
    text.push_str("<title>")?;
    add_bar_entry(text, own_at(moments, bar.begin), bar)?;
    add_bar_steps(text, moments, bar)?;
    text.push_str("</title>")
}

// A box has a column at least.
fn add_box_part(text: &mut String, class: &str, begin: u32, end: u32, y: u64) -> Added
    ensures { Adds result text.old text.new (box_part_text class.now begin end y) }
{
    if begin < end {
        add_box(text, class, begin, end, y)
    } else {
        Ok(())
    }
}

impl Sign {
    fn strokes(self) -> &'static str
        ensures { result.now ≡ strokes_text self }
    {
        match self {
            Sign::Cross => "l4 4m0-4l-4 4",
            Sign::Slash => "m0 4l4-4",
        }
    }
}

#[tactic(auto, unfolding(crate::specs::Engines::sign_text))]
fn add_sign(text: &mut String, sign: Sign, end: u32, y: u64) -> Added
    ensures { Adds result text.old text.new (sign_text sign end y) }
{
    let x = column_left(end) - 6;
    let strokes = sign.strokes();
    write!(text, "<path class=\"sign\" d=\"M{x} {y}{strokes}\"/>")
}

fn add_end_sign(text: &mut String, sign: Option<Sign>, end: u32, y: u64) -> Added
    ensures { Adds result text.old text.new (end_sign_text sign end y) }
{
    match sign {
        Some(sign) => add_sign(text, sign, end, y),
        None => Ok(()),
    }
}

fn lane_of(bar: &Bar, lanes: Lanes) -> u32
    ensures { result ≡ lane_by lanes bar.now.lane bar.now.parent }
{
    match bar.parent {
        Some(_) => lanes.taken.saturating_add(bar.lane),
        None => bar.lane,
    }
}

fn add_boxes(
    alloc: Global,
    text: &mut String,
    bar: &Bar,
    own: Option<&str>,
    extent: Extent,
    y: u64,
) -> Added
    requires { y < 2 ^ 40 }
    ensures { Adds result text.old text.new
        (boxes_text extent bar.now (option_map (λ own. own.now) own.entry) y) }
{
    let last = bar.end_step(extent.last);
    let begin = extent.range.column_of(bar.begin);
    let runs = extent.range.column_of(bar.started.unwrap_or(last));
    let end = extent.range.column_of(last);
    add_box_part(text, "waits", begin, runs, y)?;
    add_box_part(text, class_of(bar.end), runs, end, y)?;
    add_label(alloc, text, bar, own, begin, end, y + 9)?;
    add_end_sign(text, sign_of(bar.end), end, y + 4)
}

fn add_bar(alloc: Global, text: &mut String, moments: &[Moment], bar: &Bar, lanes: Lanes) -> Added
    ensures { Adds result text.old text.new (bar_text lanes moments.now bar.now) }
{
    let y = lane_top(lanes.top, lane_of(bar, lanes));
    text.push_str("<g>")?;
    add_bar_title(text, moments, bar)?;
    add_boxes(
        alloc,
        text,
        bar,
        own_at(moments, bar.begin),
        lanes.extent,
        y,
    )?;
    text.push_str("</g>\n")
}

// Whether it is of this engine, and of a step that is drawn.
fn is_shown(bar: &Bar, engine: u16, extent: Extent) -> bool
    ensures { result ≡ is_shown engine extent bar.now }
{
    bar.engine == engine && extent.range.is_within(bar.begin, bar.end_step(extent.last))
}

fn add_bar_of(
    alloc: Global,
    text: &mut String,
    moments: &[Moment],
    bar: &Bar,
    engine: u16,
    lanes: Lanes,
) -> Added
    ensures { Adds result text.old text.new
        (cond (is_shown engine lanes.extent bar.now) (bar_text lanes moments.now bar.now) []) }
{
    if is_shown(bar, engine, lanes.extent) {
        add_bar(alloc, text, moments, bar, lanes)
    } else {
        Ok(())
    }
}

fn add_bars(
    alloc: Global,
    text: &mut String,
    moments: &[Moment],
    bars: &[Bar],
    engine: u16,
    lanes: Lanes,
) -> Added
    ensures { Adds result text.old text.new (bars_text engine lanes moments.now bars.now) }
{
    for bar in bars {
        add_bar_of(alloc, text, moments, bar, engine, lanes)?;
    }
    Ok(())
}

// ---- batches

#[tactic(auto, unfolding(crate::specs::Engines::batch_title_text))]
fn add_batch_title(text: &mut String, engine: u16, name: u32) -> Added
    ensures { Adds result text.old text.new (batch_title_text engine name) }
{
    write!(
        text,
        "><title>batch of e{engine}: batch {name} and its members</title></rect>\n"
    )
}

// A batch stands around its members.
fn add_batch(text: &mut String, bar: &Bar, lanes: Lanes) -> Added
    ensures { Adds result text.old text.new (batch_text lanes bar.now) }
{
    let y = lane_top(lanes.top, bar.lane);
    let bottom = lane_top(lanes.top, lanes.taken.saturating_add(lanes.members));
    let begin = lanes.extent.range.column_of(bar.begin);
    let end = lanes
        .extent
        .range
        .column_of(bar.end_step(lanes.extent.last));
    let high = bottom.saturating_sub(y);
    add_rect(text, "batch", begin, y, columns_wide(begin, end), high)?;
    add_batch_title(text, bar.engine, bar.name)
}

fn add_batch_of(text: &mut String, bar: &Bar, engine: u16, lanes: Lanes) -> Added
    ensures { Adds result text.old text.new
        (cond (is_shown engine lanes.extent bar.now && bar.now.is_batch)
        (batch_text lanes bar.now) []) }
{
    if is_shown(bar, engine, lanes.extent) && bar.is_batch {
        add_batch(text, bar, lanes)
    } else {
        Ok(())
    }
}

fn add_batches(text: &mut String, bars: &[Bar], engine: u16, lanes: Lanes) -> Added
    ensures { Adds result text.old text.new (batches_text engine lanes bars.now) }
{
    for bar in bars {
        add_batch_of(text, bar, engine, lanes)?;
    }
    Ok(())
}

// ---- engines

// Where the rows of an engine end.
fn bottom_of(lanes: Lanes) -> u32
    ensures { result ≡ engine_bottom lanes }
{
    let rows = lanes.taken.saturating_add(lanes.members).saturating_mul(13);
    lanes.top.saturating_add(rows).saturating_add(4)
}

#[tactic(auto, unfolding(crate::specs::Engines::engine_name_text))]
fn add_engine_name(text: &mut String, engine: u16, steps: u32, top: u32) -> Added
    ensures { Adds result text.old text.new (engine_name_text engine steps top) }
{
    add_numbered(text, "engine", engine, top)?;
    add_again(text, "engine", Some(engine), steps, top)
}

fn add_engine_rows(
    alloc: Global,
    text: &mut String,
    moments: &[Moment],
    bars: &[Bar],
    engine: u16,
    lanes: Lanes,
    top: u32,
) -> Added
    ensures { Adds result text.old text.new
        (engine_rows_text engine top moments.now lanes bars.now) }
{
    let columns = lanes.extent.columns();
    add_engine_name(text, engine, columns, top)?;
    add_marks(text, moments_in(moments, lanes.extent.range), engine, top)?;
    add_batches(text, bars, engine, lanes)?;
    add_bars(alloc, text, moments, bars, engine, lanes)?;
    add_rule(text, columns, bottom_of(lanes))
}

/// Draws the engine from `top` on, where it made a step, and says where the next one begins.
pub fn add_engine(
    alloc: Global,
    text: &mut String,
    moments: &[Moment],
    bars: &[Bar],
    engine: u16,
    extent: Extent,
    top: u32,
) -> Result<u32, AllocError>
    ensures text { Adds result text.old text.new
        (engine_part_text engine extent top moments.now bars.now) }
    ensures end { IfOk result (λ end. end ≡ engine_end engine extent top moments.now bars.now) }
{
    if !has_steps(moments, engine) {
        return Ok(top);
    }
    let taken = lay_bars(alloc, bars, engine, false, extent.last)?;
    let all = lay_bars(alloc, &taken.bars, engine, true, extent.last)?;
    let lanes = Lanes {
        top: top.saturating_add(18),
        taken: taken.lanes,
        members: all.lanes,
        extent,
    };
    add_engine_rows(alloc, text, moments, &all.bars, engine, lanes, top)?;
    Ok(bottom_of(lanes).saturating_add(4))
}
