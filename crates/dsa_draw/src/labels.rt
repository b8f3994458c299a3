//! Labels of bars: the name of the entry, its own name, and as much of what it asks for as there is
//! room for.

ghost use Rattle.std.specs.Prelude.{◌≡◌, ◌==◌, cond, Some, IfOk, option_map, string_bytes};
ghost use Rattle.dsa_event_text.specs.Added.{Adds};
ghost use Rattle.dsa_event_text.specs.Text.{operation_label};
ghost use Rattle.dsa_draw.specs.Labels.{sign_of_fate, sign_of, operation_part, pasid_part, own_part, label_with, letters_in, sign_letters, is_fitting, longest_label, label_of, label_shown, bar_label_text};

use crate::bars::{Bar, End};
use crate::geometry::columns_wide;
use crate::page::add_xml_letters;
use dsa_book::Fate;
use dsa_desc::Descriptor;
use dsa_desc::opcode::Operation;
use dsa_event_text::{Added, add_number};
use std::alloc::{AllocError, Global};
use std::fmt::Write;

/// What is at the end of a bar, beside its colour.
#[derive(Clone, Copy)]
pub enum Sign {
    /// The entry was not successful.
    Cross,
    /// It was aborted or abandoned.
    Slash,
}

/// How much of an entry a label has.
#[derive(Clone, Copy)]
enum Detail {
    Name,
    Operation,
    Pasid,
}

fn sign_of_status(status: u8) -> Option<Sign>
    ensures { result ≡ cond (status == 1) None (Some Sign.Cross) }
{
    if status == 0x01 {
        None
    } else {
        Some(Sign::Cross)
    }
}

fn sign_of_fate(fate: Fate) -> Option<Sign>
    ensures { result ≡ sign_of_fate fate }
{
    match fate {
        Fate::Completed(status) => sign_of_status(status),
        _ => Some(Sign::Slash),
    }
}

/// The sign of an end.
pub fn sign_of(end: Option<End>) -> Option<Sign>
    ensures { result ≡ sign_of end }
{
    sign_of_fate(end?.fate)
}

fn add_operation(text: &mut String, op: u8) -> Added
    ensures { Adds result text.old text.new (operation_label op) }
{
    match Operation::of(op) {
        Some(operation) => text.push_str(operation.word),
        None => write!(text, "operation 0x{op:x}"),
    }
}

fn add_operation_part(text: &mut String, desc: Option<Descriptor>) -> Added
    ensures { Adds result text.old text.new (operation_part desc) }
{
    let Some(desc) = desc else {
        return Ok(());
    };
    text.push_str(" ")?;
    add_operation(text, desc.op)
}

fn add_pasid_part(text: &mut String, desc: Option<Descriptor>) -> Added
    ensures { Adds result text.old text.new (pasid_part desc) }
{
    match desc {
        Some(desc) => add_number(text, " PASID ", desc.pasid),
        None => Ok(()),
    }
}

fn add_own_part(text: &mut String, own: Option<&str>) -> Added
    ensures { Adds result text.old text.new (own_part (option_map (λ own. own.now) own.entry)) }
{
    let Some(own) = own else {
        return Ok(());
    };
    text.push_str(" ")?;
    text.push_str(own)
}

fn add_detail(text: &mut String, bar: &Bar, own: Option<&str>, detail: Detail) -> Added
    ensures { Adds result text.old text.new
        (label_with (option_map (λ own. own.now) own.entry) detail bar.now) }
{
    add_number(text, "", bar.name)?;
    add_own_part(text, own)?;
    match detail {
        Detail::Name => Ok(()),
        Detail::Operation => add_operation_part(text, bar.desc),
        Detail::Pasid => {
            add_operation_part(text, bar.desc)?;
            add_pasid_part(text, bar.desc)
        }
    }
}

fn label_with(
    alloc: Global,
    bar: &Bar,
    own: Option<&str>,
    detail: Detail,
) -> Result<String, AllocError>
    ensures { IfOk result (λ label. string_bytes label
        ≡ label_with (option_map (λ own. own.now) own.entry) detail bar.now) }
{
    let mut label = String::new(alloc);
    add_detail(&mut label, bar, own, detail)?;
    Ok(label)
}

/// How many letters have room, 6 wide each, after 2 that are left free.
pub fn letters_in(wide: u64) -> u64
    ensures { result ≡ letters_in wide }
{
    wide.saturating_sub(2) / 6
}

// A sign takes as much room as a letter.
fn sign_letters(end: Option<End>) -> u64
    ensures { result ≡ sign_letters end }
{
    if sign_of(end).is_some() { 1 } else { 0 }
}

fn is_fitting(label: &String, bar: &Bar, wide: u64) -> bool
    ensures { result ≡ is_fitting wide bar.now (string_bytes label.now) }
{
    label.len() as u64 + sign_letters(bar.end) <= letters_in(wide)
}

// The longest label with this own name that there is room for.
fn longest_label(
    alloc: Global,
    bar: &Bar,
    own: Option<&str>,
    wide: u64,
) -> Result<Option<String>, AllocError>
    ensures { IfOk result (λ label. option_map string_bytes label
        ≡ longest_label wide bar.now (option_map (λ own. own.now) own.entry)) }
{
    let whole_run = label_with(alloc, bar, own, Detail::Pasid)?;
    if is_fitting(&whole_run, bar, wide) {
        return Ok(Some(whole_run));
    }
    let shorter = label_with(alloc, bar, own, Detail::Operation)?;
    if is_fitting(&shorter, bar, wide) {
        return Ok(Some(shorter));
    }
    let name = label_with(alloc, bar, own, Detail::Name)?;
    if is_fitting(&name, bar, wide) {
        return Ok(Some(name));
    }
    Ok(None)
}

// And without it, where there is room for none with it.
fn label_of(
    alloc: Global,
    bar: &Bar,
    own: Option<&str>,
    wide: u64,
) -> Result<Option<String>, AllocError>
    ensures { IfOk result (λ label. option_map string_bytes label
        ≡ label_of wide bar.now (option_map (λ own. own.now) own.entry)) }
{
    match longest_label(alloc, bar, own, wide)? {
        Some(label) => Ok(Some(label)),
        None => longest_label(alloc, bar, None, wide),
    }
}

/// The label of a bar over these columns, whose entry has this own name: the longest that it has
/// room for.
#[tactic(auto, unfolding(crate::specs::Labels::bar_label_text))]
pub fn add_label(
    alloc: Global,
    text: &mut String,
    bar: &Bar,
    own: Option<&str>,
    begin: u32,
    end: u32,
    base: u64,
) -> Added
    ensures { Adds result text.old text.new
        (bar_label_text bar.now (option_map (λ own. own.now) own.entry) begin end base) }
{
    match label_of(alloc, bar, own, columns_wide(begin, end))? {
        Some(label) => add_xml_letters(alloc, text, begin, base, label.as_str()),
        None => Ok(()),
    }
}
