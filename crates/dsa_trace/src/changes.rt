//! What a step changed of what a device shows: the lines of a snapshot that are not those of the
//! snapshot before the step.

ghost use Rattle.std.specs.Prelude.{◌≡◌, ◌<◌, ◌+◌, [], IfOk, IsTrue, get_or};
ghost use Rattle.std.specs.Str.Lines.{lines};
ghost use Rattle.dsa_regs.specs.Caps.{check_caps, list_count};
ghost use Rattle.dsa_event_text.specs.Added.{Adds};
ghost use Rattle.dsa_trace.specs.Changes.{changed_columns, changed_lists, column_count, item_line};
ghost use Rattle.dsa_trace.specs.Changes.{item_lines, line_of_command, lines_of_lists, list_line};
ghost use Rattle.dsa_trace.specs.Changes.{shown_line, shown_lines, snapshot, line_texts};
ghost use Rattle.dsa_trace.specs.Columns.{item_count};

use crate::columns::{add_command_column, add_item, item_count};
use crate::form::{Items, Trace};
use crate::names::add_bracketed_names;
use dsa_device::Device;
use dsa_event_text::Added;
use dsa_explain::entries_of_list;
use dsa_regs::{Caps, list_count};
use dsa_store::EntryStore;
use std::alloc::{AllocError, Global};

fn add_item_line<S: EntryStore>(
    text: &mut String,
    device: &Device<S>,
    items: Items,
    place: u16,
) -> Added
    requires { place < item_count device.now.caps items }
    ensures { Adds result text.old text.new
        (item_line device.now.caps device.now.state items place) }
{
    add_item(text, Trace::Changes, device, items, place)?;
    text.push_str("\n")
}

fn add_item_lines<S: EntryStore>(text: &mut String, device: &Device<S>, items: Items) -> Added
    ensures { Adds result text.old text.new (item_lines device.now.caps device.now.state items) }
{
    for place in 0..item_count(&device.caps(), items) {
        add_item_line(text, device, items, place)?;
    }
    Ok(())
}

fn add_list_line<S: EntryStore>(text: &mut String, device: &Device<S>, number: u16) -> Added
    requires { number < list_count device.now.caps }
    ensures { Adds result text.old text.new (list_line device.now.caps device.now.state number) }
{
    let list = device.caps().list_use(number);
    add_bracketed_names(text, list, entries_of_list(device, list))?;
    text.push_str("\n")
}

fn add_lines_of_lists<S: EntryStore>(text: &mut String, device: &Device<S>) -> Added
    ensures { Adds result text.old text.new (lines_of_lists device.now.caps device.now.state) }
{
    device.state_is_replay();
    for number in 0..list_count(&device.caps()) {
        add_list_line(text, device, number)?;
    }
    Ok(())
}

fn add_line_of_command<S: EntryStore>(text: &mut String, device: &Device<S>) -> Added
    ensures { Adds result text.old text.new (line_of_command device.now.state) }
{
    add_command_column(text, Trace::Changes, device)?;
    text.push_str("\n")
}

/// Adds a line for each part of a device: queues, engines, groups, lists, and the active command.
pub fn add_snapshot<S: EntryStore>(text: &mut String, device: &Device<S>) -> Added
    ensures { Adds result text.old text.new (snapshot device.now.caps device.now.state) }
{
    add_item_lines(text, device, Items::Queues)?;
    add_item_lines(text, device, Items::Engines)?;
    add_item_lines(text, device, Items::Groups)?;
    add_lines_of_lists(text, device)?;
    add_line_of_command(text, device)
}

/// The lines of a text.
pub fn lines_of<'a>(alloc: Global, text: &'a str) -> Result<Vec<&'a str>, AllocError>
    ensures { IfOk result (λ found. line_texts found.items ≡ lines text.now) }
{
    text.lines().collect(alloc)
}

// The line of this number. After the last one, lines are empty.
#[tactic(auto, using(crate::proofs::Snapshots::line_there, crate::proofs::Snapshots::line_past))]
fn line_at<'a>(lines: &[&'a str], number: usize) -> &'a str
    ensures { result.now ≡ get_or (line_texts lines.now) number [] }
{
    match lines.get(number) {
        Some(line) => *line,
        None => "",
    }
}

fn add_shown_line(text: &mut String, was: &[&str], now: &[&str], number: usize) -> Added
    ensures { Adds result text.old text.new
        (shown_line (line_texts was.now) (line_texts now.now) number) }
{
    let line = line_at(now, number);
    if line == line_at(was, number) {
        return Ok(());
    }
    text.push_str(line)
}

fn add_shown_lines(text: &mut String, was: &[&str], now: &[&str], first: u16, count: u16) -> Added
    ensures { Adds result text.old text.new
        (shown_lines (line_texts was.now) (line_texts now.now) first count) }
{
    for place in 0..count {
        add_shown_line(text, was, now, first as usize + place as usize)?;
    }
    Ok(())
}

fn column_count(caps: &Caps) -> u16
    requires { IsTrue (check_caps caps.now) }
    ensures { result ≡ column_count caps.now }
{
    caps.queues + caps.engines + caps.groups
}

/// Adds the columns that are not as before: queues, engines and groups.
pub fn add_changed_columns<S: EntryStore>(
    text: &mut String,
    was: &[&str],
    now: &[&str],
    device: &Device<S>,
) -> Added
    ensures { Adds result text.old text.new
        (changed_columns (line_texts was.now) (line_texts now.now) device.now.caps) }
{
    device.state_is_replay();
    add_shown_lines(text, was, now, 0, column_count(&device.caps()))
}

/// Adds the lists and the active command that are not as before.
pub fn add_changed_lists<S: EntryStore>(
    text: &mut String,
    was: &[&str],
    now: &[&str],
    device: &Device<S>,
) -> Added
    ensures { Adds result text.old text.new
        (changed_lists (line_texts was.now) (line_texts now.now) device.now.caps) }
{
    device.state_is_replay();
    let caps = device.caps();
    add_shown_lines(text, was, now, column_count(&caps), list_count(&caps) + 1)
}
