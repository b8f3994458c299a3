//! Pieces of a page: its head and foot, its style, names, lines and marks.

ghost use Rattle.std.specs.Prelude.{◌≡◌};
ghost use Rattle.dsa_event_text.specs.Added.{Adds};
ghost use Rattle.dsa_draw.specs.Bands.{again_at_text, again_place_text, again_text, number_after_text, numbered_text};
ghost use Rattle.dsa_draw.specs.Pages.{svg_text, page_size_text, view_text, xml_char, xml_text, whole_title_text, some_steps_text, of_run_text, part_title_text, run_title_text, told_text, description_text, page_height, shapes_text, legend_text, style_text, sheet_text, rect_text, box_text, letters_text, small_number_text, head_text, foot_text, row_name_text, rule_text, dot_text, cross_text, mark_text};

use crate::geometry::{column_left, columns_wide};
use crate::marks::Mark;
use crate::range::Extent;
use dsa_event_text::{Added, add_count, add_number};
use std::alloc::Global;
use std::fmt::Write;

// Colours for light and for dark. Titles are those of columns and bars, so marks let the pointer
// through.
const STYLE: &str = "<style>
text{font:10px ui-monospace,monospace;fill:#1f2328}
.sheet{fill:#ffffff}.column{fill:#ffffff;fill-opacity:0}.grid{stroke:#d8dee4}.frame{fill:none;stroke:#d8dee4}
.filled{fill:#9ec9f5}.mark{fill:none;stroke:#bf8700;stroke-dasharray:4 2}.limit{fill:none;stroke:#6e7781}
.done{fill:#1a7f37}.wait{fill:none;stroke:#9a6700}.failed{fill:none;stroke:#cf222e;stroke-width:1.5}
.sign{fill:none;stroke:#1f2328}.done,.wait,.failed,.sign,.label,.again{pointer-events:none}.again{fill-opacity:.5}
.waits{fill:#eaeef2;stroke:#6e7781;stroke-dasharray:2 2}.batch{fill:#fff8c5;fill-opacity:.6;stroke:#bf8700}
.held{fill:#b6d7fb;stroke:#0969da}.success{fill:#aceebb;stroke:#1a7f37}.failure{fill:#ffcecb;stroke:#cf222e}
.lost{fill:#d0d7de;stroke:#57606a}.active{fill:#e6dcfd;stroke:#8250df}
.on,.stopping{fill:none;stroke:#1a7f37;stroke-width:3}.stopping{stroke:#bf8700;stroke-dasharray:3 2}
@media (prefers-color-scheme:dark){text{fill:#e6edf3}.sheet{fill:#0d1117}.grid,.frame{stroke:#30363d}
.filled{fill:#1f4a7a}.mark{stroke:#d29922}.limit{stroke:#8b949e}.done{fill:#3fb950}.wait{stroke:#d29922}
.failed{stroke:#f85149}.active{fill:#34225f;stroke:#a371f7}.on{stroke:#3fb950}.stopping{stroke:#d29922}
.waits{fill:#21262d;stroke:#8b949e}.batch{fill:#3b2e00;stroke:#d29922}
.held{fill:#14386b;stroke:#58a6ff}.success{fill:#12391f;stroke:#3fb950}.failure{fill:#5c1a1b;stroke:#f85149}
.sign{stroke:#e6edf3}.lost{fill:#343b43;stroke:#8b949e}}
</style>
";

// For those who do not see the picture.
const DESCRIPTION: &str = "<desc>Each step has a column, whose title says what was asked and
answered. The rows, from the top: commands; marks for what clients and the administrator asked; a
line while the device is enabled; a bar for each command that was active; marks where entries ended;
how full each queue is, below a line while it is enabled, and the read buffers of each group; for
each engine marks for its steps, and a bar for each entry that it had. A legend is below.</desc>
";

// What stands above and below the rows: 28 for long commands, and a legend of 207.
const BESIDE_ROWS: u32 = 235;

const LEGEND: &str = "<circle class=\"done\" cx=\"14\" cy=\"14\" r=\"3\"/>
<text x=\"28\" y=\"18\">done as asked</text>
<circle class=\"wait\" cx=\"14\" cy=\"27\" r=\"3\"/>
<text x=\"28\" y=\"31\">ask again, or nothing to do</text>
<path class=\"failed\" d=\"M11 37l6 6m0-6l-6 6\"/>
<text x=\"28\" y=\"44\">refused or failed</text>
<rect x=\"6\" y=\"49\" width=\"16\" height=\"8\" class=\"filled\"/>
<text x=\"28\" y=\"57\">waiting, or in use</text>
<path class=\"mark\" d=\"M6 66h16\"/>
<text x=\"28\" y=\"70\">threshold, or reserved</text>
<path class=\"limit\" d=\"M6 79h16\"/>
<text x=\"28\" y=\"83\">size, or allowed</text>
<rect x=\"6\" y=\"88\" width=\"16\" height=\"8\" rx=\"2\" class=\"waits\"/>
<text x=\"28\" y=\"96\">member not started</text>
<rect x=\"6\" y=\"101\" width=\"16\" height=\"8\" rx=\"2\" class=\"held\"/>
<text x=\"28\" y=\"109\">still held</text>
<rect x=\"6\" y=\"114\" width=\"16\" height=\"8\" rx=\"2\" class=\"success\"/>
<text x=\"28\" y=\"122\">completed 01</text>
<rect x=\"6\" y=\"127\" width=\"16\" height=\"8\" rx=\"2\" class=\"failure\"/>
<path class=\"sign\" d=\"M16 129l4 4m0-4l-4 4\"/>
<text x=\"28\" y=\"135\">completed otherwise</text>
<rect x=\"6\" y=\"140\" width=\"16\" height=\"8\" rx=\"2\" class=\"lost\"/>
<path class=\"sign\" d=\"M16 146l4-4\"/>
<text x=\"28\" y=\"148\">aborted or abandoned</text>
<rect x=\"6\" y=\"153\" width=\"16\" height=\"8\" class=\"batch\"/>
<text x=\"28\" y=\"161\">batch and its members</text>
<rect x=\"6\" y=\"166\" width=\"16\" height=\"8\" rx=\"2\" class=\"active\"/>
<text x=\"28\" y=\"174\">command active</text>
<path class=\"on\" d=\"M6 183h16\"/>
<text x=\"28\" y=\"187\">device or queue on</text>
<path class=\"stopping\" d=\"M6 196h16\"/>
<text x=\"28\" y=\"200\">device or queue stopping</text>
";

fn add_xml_char(text: &mut String, c: char) -> Added
    ensures { Adds result text.old text.new (xml_char c) }
{
    match c {
        '&' => text.push_str("&amp;"),
        '<' => text.push_str("&lt;"),
        '>' => text.push_str("&gt;"),
        _ => text.push(c),
    }
}

/// Adds a text as XML has it.
pub fn add_xml(text: &mut String, plain: &str) -> Added
    ensures { Adds result text.old text.new (xml_text plain.now) }
{
    for c in plain.chars() {
        add_xml_char(text, c)?;
    }
    Ok(())
}

#[tactic(auto, unfolding(crate::specs::Pages::svg_text))]
fn add_svg(text: &mut String) -> Added
    ensures { Adds result text.old text.new svg_text }
{
    text.push_str("<svg xmlns=\"http://www.w3.org/2000/svg\"")
}

#[tactic(auto, unfolding(crate::specs::Pages::page_size_text))]
fn add_size(text: &mut String, width: u64, height: u32) -> Added
    ensures { Adds result text.old text.new (page_size_text width height) }
{
    write!(text, " width=\"{width}\" height=\"{height}\"")
}

#[tactic(auto, unfolding(crate::specs::Pages::view_text))]
fn add_view(text: &mut String, width: u64, height: u32) -> Added
    ensures { Adds result text.old text.new (view_text width height) }
{
    write!(text, " viewBox=\"0 -28 {width} {height}\" role=\"img\">\n")
}

#[tactic(auto, unfolding(crate::specs::Pages::description_text))]
fn add_description(text: &mut String) -> Added
    ensures { Adds result text.old text.new description_text }
{
    text.push_str(DESCRIPTION)
}

#[tactic(auto, unfolding(crate::specs::Pages::whole_title_text))]
fn add_whole_title(text: &mut String, steps: u64) -> Added
    ensures { Adds result text.old text.new (whole_title_text steps) }
{
    add_count(text, "<title>Run of ", steps, "step", "steps")
}

#[tactic(auto, unfolding(crate::specs::Pages::some_steps_text))]
fn add_some_steps(text: &mut String, steps: u32) -> Added
    ensures { Adds result text.old text.new (some_steps_text steps) }
{
    add_count(text, "<title>", u64::from(steps), "step", "steps")
}

#[tactic(auto, unfolding(crate::specs::Pages::of_run_text))]
fn add_of_run(text: &mut String, steps: u32) -> Added
    ensures { Adds result text.old text.new (of_run_text steps) }
{
    add_count(text, " of a run of ", u64::from(steps), "step", "steps")
}

fn add_part_title(text: &mut String, extent: Extent) -> Added
    ensures { Adds result text.old text.new (part_title_text extent) }
{
    add_some_steps(text, extent.columns())?;
    add_number(text, " from step ", extent.range.first)?;
    add_of_run(text, extent.last)
}

// Some steps of a run, or all.
fn add_run_title(text: &mut String, extent: Extent) -> Added
    ensures { Adds result text.old text.new (run_title_text extent) }
{
    if extent.columns() == extent.last {
        add_whole_title(text, u64::from(extent.last))
    } else {
        add_part_title(text, extent)
    }
}

// What the page is of, in words.
fn add_told(text: &mut String, extent: Extent) -> Added
    ensures { Adds result text.old text.new (told_text extent) }
{
    add_run_title(text, extent)?;
    text.push_str("</title>\n")?;
    add_description(text)
}

#[tactic(auto, unfolding(crate::specs::Pages::style_text))]
fn add_style(text: &mut String) -> Added
    ensures { Adds result text.old text.new style_text }
{
    text.push_str(STYLE)
}

#[tactic(auto, unfolding(crate::specs::Pages::sheet_text))]
fn add_sheet(text: &mut String, width: u64, height: u32) -> Added
    ensures { Adds result text.old text.new (sheet_text width height) }
{
    write!(
        text,
        "<rect class=\"sheet\" y=\"-28\" width=\"{width}\" height=\"{height}\"/>\n"
    )
}

/// Begins a rectangle from the left of the column of a step on. Its tag is left open.
#[tactic(auto, unfolding(crate::specs::Pages::rect_text))]
pub fn add_rect(text: &mut String, class: &str, step: u32, y: u64, wide: u64, high: u64) -> Added
    ensures { Adds result text.old text.new (rect_text class.now step y wide high) }
{
    let x = column_left(step);
    write!(
        text,
        "<rect class=\"{class}\" x=\"{x}\" y=\"{y}\" width=\"{wide}\" height=\"{high}\""
    )
}

/// A box over the columns from `begin` up to, but without, `end`.
pub fn add_box(text: &mut String, class: &str, begin: u32, end: u32, y: u64) -> Added
    ensures { Adds result text.old text.new (box_text class.now begin end y) }
{
    add_rect(text, class, begin, y, columns_wide(begin, end), 11)?;
    text.push_str(" rx=\"2\"/>")
}

/// Small letters, none of which is an entity, from the column of a step on.
#[tactic(auto, unfolding(crate::specs::Pages::letters_text))]
pub fn add_letters(text: &mut String, step: u32, base: u64, letters: &str) -> Added
    ensures { Adds result text.old text.new (letters_text step base letters.now) }
{
    let x = column_left(step) + 2;
    write!(
        text,
        "<text class=\"label\" x=\"{x}\" y=\"{base}\">{letters}</text>"
    )
}

/// The same of any text.
pub fn add_xml_letters(alloc: Global, text: &mut String, step: u32, base: u64, plain: &str) -> Added
    ensures { Adds result text.old text.new (letters_text step base (xml_text plain.now)) }
{
    let mut letters = String::new(alloc);
    add_xml(&mut letters, plain)?;
    add_letters(text, step, base, letters.as_str())
}

/// A small number in the column of a step.
#[tactic(auto, unfolding(crate::specs::Pages::letters_text))]
pub fn add_small_number(text: &mut String, step: u32, base: u64, number: u64) -> Added
    ensures { Adds result text.old text.new (small_number_text step base number) }
{
    let x = column_left(step) + 2;
    write!(
        text,
        "<text class=\"label\" x=\"{x}\" y=\"{base}\">{number}</text>"
    )
}

fn page_height(rows: u32) -> u32
    ensures { result ≡ page_height rows }
{
    rows.saturating_add(BESIDE_ROWS)
}

/// Begins a page for so many steps, whose rows are so high.
pub fn add_head(text: &mut String, extent: Extent, rows: u32) -> Added
    ensures { Adds result text.old text.new (head_text extent rows) }
{
    let width = column_left(extent.columns()) + 56;
    let height = page_height(rows);
    add_svg(text)?;
    add_size(text, width, height)?;
    add_view(text, width, height)?;
    add_told(text, extent)?;
    add_style(text)?;
    add_sheet(text, width, height)
}

#[tactic(auto, unfolding(crate::specs::Pages::shapes_text))]
fn add_shapes(text: &mut String) -> Added
    ensures { Adds result text.old text.new shapes_text }
{
    text.push_str(LEGEND)
}

/// What the marks, lines and bars mean, below the rows.
#[tactic(auto, unfolding(crate::specs::Pages::legend_text))]
pub fn add_legend(text: &mut String, rows: u32) -> Added
    ensures { Adds result text.old text.new (legend_text rows) }
{
    write!(text, "<g transform=\"translate(0 {rows})\">\n")?;
    add_shapes(text)?;
    text.push_str("</g>\n")
}

/// Ends a page.
pub fn add_foot(text: &mut String) -> Added
    ensures { Adds result text.old text.new foot_text }
{
    text.push_str("</svg>\n")
}

/// The name of a row, at the left.
#[tactic(auto, unfolding(crate::specs::Pages::row_name_text))]
pub fn add_name(text: &mut String, name: &str, top: u32) -> Added
    ensures { Adds result text.old text.new (row_name_text name.now top) }
{
    let base = u64::from(top) + 11;
    write!(text, "<text x=\"4\" y=\"{base}\">{name}</text>\n")
}

/// The same with a number.
pub fn add_numbered(text: &mut String, name: &str, number: u16, top: u32) -> Added
    ensures { Adds result text.old text.new (numbered_text name.now number top) }
{
    let base = u64::from(top) + 11;
    write!(text, "<text x=\"4\" y=\"{base}\">{name} {number}</text>\n")
}

fn add_number_after(text: &mut String, number: Option<u16>) -> Added
    ensures { Adds result text.old text.new (number_after_text number) }
{
    match number {
        Some(number) => add_number(text, " ", u32::from(number)),
        None => Ok(()),
    }
}

#[tactic(auto, unfolding(crate::specs::Bands::again_place_text))]
fn add_again_place(text: &mut String, place: u32, top: u32) -> Added
    ensures { Adds result text.old text.new (again_place_text top place) }
{
    let x = 1514 + 1400 * u64::from(place);
    let base = u64::from(top) + 11;
    write!(text, "<text class=\"again\" x=\"{x}\" y=\"{base}\">")
}

fn add_again_at(text: &mut String, name: &str, number: Option<u16>, place: u32, top: u32) -> Added
    ensures { Adds result text.old text.new (again_at_text name.now number top place) }
{
    add_again_place(text, place, top)?;
    text.push_str(name)?;
    add_number_after(text, number)?;
    text.push_str("</text>\n")
}

/// The name of a row again, faint, in every hundredth column after the first.
pub fn add_again(text: &mut String, name: &str, number: Option<u16>, steps: u32, top: u32) -> Added
    ensures { Adds result text.old text.new (again_text name.now number steps top) }
{
    for place in 0..steps.saturating_sub(1) / 100 {
        add_again_at(text, name, number, place, top)?;
    }
    Ok(())
}

/// A line below a row, over all columns.
#[tactic(auto, unfolding(crate::specs::Pages::rule_text))]
pub fn add_rule(text: &mut String, steps: u32, y: u32) -> Added
    ensures { Adds result text.old text.new (rule_text steps y) }
{
    let wide = columns_wide(0, steps);
    write!(text, "<path class=\"grid\" d=\"M112 {y}h{wide}\"/>\n")
}

#[tactic(auto, unfolding(crate::specs::Pages::dot_text))]
fn add_dot(text: &mut String, class: &str, step: u32, top: u32) -> Added
    ensures { Adds result text.old text.new (dot_text class.now step top) }
{
    let x = column_left(step) + 7;
    let y = u64::from(top) + 8;
    write!(
        text,
        "<circle class=\"{class}\" cx=\"{x}\" cy=\"{y}\" r=\"3\"/>\n"
    )
}

#[tactic(auto, unfolding(crate::specs::Pages::cross_text))]
fn add_cross(text: &mut String, step: u32, top: u32) -> Added
    ensures { Adds result text.old text.new (cross_text step top) }
{
    let left = column_left(step) + 4;
    let upper = u64::from(top) + 5;
    write!(
        text,
        "<path class=\"failed\" d=\"M{left} {upper}l6 6m0-6l-6 6\"/>\n"
    )
}

/// A mark in the column of a step, in a row that begins at `top`.
pub fn add_mark(text: &mut String, mark: Mark, step: u32, top: u32) -> Added
    ensures { Adds result text.old text.new (mark_text mark step top) }
{
    match mark {
        Mark::Done => add_dot(text, "done", step, top),
        Mark::Wait => add_dot(text, "wait", step, top),
        Mark::Failed => add_cross(text, step, top),
    }
}
