//! What is told of a step that differs.

ghost use Rattle.std.specs.Prelude.{◌≡◌, ◌++◌, true, false, OnOk, IfOk, map, flat_map, string_bytes};
ghost use Rattle.dsa_conform.specs.Allowed.{queue_taken};
ghost use Rattle.dsa_conform.specs.Lines.{allowed_line, difference_text};
ghost use Rattle.dsa_conform.specs.Seen.{seen_as};
ghost use Rattle.dsa_conform.specs.ToldLines.{HasText, IsPlaceOf, IsLinePlaced, AddsLines, AreLinesTold, IsTextTold, fact_told, line_as};

use crate::difference::{add_against, add_allowed, add_seen, add_step};
use crate::observed::Observed;
use crate::way::queue_of_record;
use dsa_scenario::Record;
use std::alloc::{AllocError, Global};

/// What one device allows, why, and which fact of it speaks against what was seen.
#[derive(Drop)]
pub struct Told {
    pub why: String,
    pub against: String,
    pub allowed: Vec<Record>,
}

/// An answer that is allowed, with its line.
#[derive(Drop)]
pub struct Line {
    pub entry: Record,
    pub text: String,
}

// The queue that the line's entry is taken from, and of any other answer 0.
fn queue_of_line(line: &Line) -> u16
    ensures { result ≡ queue_taken line.now.entry }
{
    queue_of_record(&line.entry).unwrap_or(0)
}

// Whether one of the lines has this text.
fn has_text(lines: &[Line], text: &str) -> bool
    ensures found { result ≡ true → HasText lines.now text.now }
    ensures none { result ≡ false → ¬ HasText lines.now text.now }
{
    for line in lines {
        if line.text.as_str() == text {
            return true;
        }
    }
    false
}

// The place of the first line of a higher queue, or behind all.
fn place_of(lines: &[Line], queue: u16) -> usize
    ensures { IsPlaceOf lines.now queue result }
{
    for (k, line) in lines.iter().enumerate() {
        if queue < queue_of_line(line) {
            return k;
        }
    }
    lines.len()
}

// Puts the line before those of higher queues, where there is none with its text.
fn place(lines: &mut Vec<Line>, line: Line) -> Result<(), AllocError>
    ensures { OnOk result (IsLinePlaced lines.old.items line lines.new.items) }
{
    if has_text(lines.as_slice(), line.text.as_str()) {
        return Ok(());
    }
    let at = place_of(lines.as_slice(), queue_of_line(&line));
    lines.insert(at, line)?;
    Ok(())
}

fn line_of(alloc: Global, why: &str, entry: &Record) -> Result<Line, AllocError>
    ensures { IfOk result (λ line. (line.entry ≡ entry.now)
        × (string_bytes line.text ≡ allowed_line why.now entry.now)) }
{
    let mut text = String::new(alloc);
    add_allowed(&mut text, why, entry)?;
    Ok(Line {
        entry: *entry,
        text,
    })
}

// Places the lines of what one device allows.
fn add_told(alloc: Global, lines: &mut Vec<Line>, told: &Told) -> Result<(), AllocError>
    ensures { OnOk result
        (AddsLines lines.old.items lines.new.items told.now told.now.allowed.items) }
{
    for entry in &told.allowed {
        let line = line_of(alloc, told.why.as_str(), entry)?;
        place(lines, line)?;
    }
    Ok(())
}

fn lines_of(alloc: Global, tolds: &[Told]) -> Result<Vec<Line>, AllocError>
    ensures { IfOk result (λ lines. AreLinesTold tolds.now lines.items) }
{
    let mut lines = Vec::new(alloc);
    for told in tolds {
        add_told(alloc, &mut lines, told)?;
    }
    Ok(lines)
}

fn add_lines(text: &mut String, lines: &[Line]) -> Result<(), AllocError>
    ensures { OnOk result
        (string_bytes text.new
        ≡ string_bytes text.old ++ flat_map (λ line. string_bytes line.text) lines.now) }
{
    for line in lines {
        text.push_str(line.text.as_str())?;
    }
    Ok(())
}

// The fact of the first device.
fn fact_told(tolds: &[Told]) -> &str
    ensures { result.now ≡ fact_told tolds.now }
{
    match tolds.first() {
        Some(told) => told.against.as_str(),
        None => "",
    }
}

/// The step of this number, what was seen of it, the fact of the first device against that, and
/// what each device allowed, each line once.
pub fn told_text(
    alloc: Global,
    number: usize,
    seen: &Observed<'_>,
    tolds: &[Told],
) -> Result<String, AllocError>
    ensures { IfOk result
        (λ text. IsTextTold number (seen_as seen.now) tolds.now (string_bytes text)) }
{
    let found = lines_of(alloc, tolds)?;
    let lines = found.as_slice();
    let mut text = String::new(alloc);
    if let Some(first) = lines.first() {
        add_step(&mut text, number, &first.entry)?;
        add_seen(&mut text, seen)?;
        add_against(&mut text, fact_told(tolds))?;
        add_lines(&mut text, lines)?;
    }
    Ok(text)
}
