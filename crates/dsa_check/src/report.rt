//! The lines that are told of the faults of a document.

ghost use Rattle.std.specs.Prelude.{◌≡◌, ◌++◌, true, Some, IfOk, codes, decimal, string_bytes, option_map};
ghost use Rattle.dsa_event_text.specs.Added.{Adds};
ghost use Rattle.dsa_check.specs.Lines.{digits_text, key_text, whole_range_text, form_text};
ghost use Rattle.dsa_check.specs.Lines.{found_text, bound_text, wanted_of, hint_text, unfit_text};
ghost use Rattle.dsa_check.specs.Lines.{piece_text};
ghost use Rattle.dsa_check.specs.Lines.{begun_text, closing_text, wanted_text, syntax_text, near_kind_text};
ghost use Rattle.dsa_check.specs.Lines.{no_kind_text, stray_text, twice_text, reason_text};
ghost use Rattle.dsa_check.specs.Lines.{no_own_name_text};
ghost use Rattle.dsa_check.specs.Lines.{known_number_text, step_text, fault_part_text, own_place_text};
ghost use Rattle.dsa_check.specs.Lines.{after_place, spot_text, warning_mark, known_text};
ghost use Rattle.dsa_check.specs.Lines.{remark_text};
ghost use Rattle.dsa_check.specs.{Check.{text_in, report_text}, Sources.{source_text}};

use crate::checking::CheckForm;
use crate::fields::{Found, Key};
use crate::finding::{Finding, Reason};
use crate::friendly::expands_found;
use crate::objects::add_object;
use crate::places::Spot;
use crate::remarks::Remark;
use crate::sources::add_source;
use crate::syntax::{Piece, Syntax, Wanted};
use dsa_event_text::{Added, add_count, truth_text};
use dsa_scenario::{Form, KIND_NAMES, ScenarioFault, StepKind};
use std::alloc::{AllocError, Global};
use std::fmt::Write;

fn add_key(text: &mut String, key: Key) -> Added
    ensures { Adds result text.old text.new (key_text key) }
{
    let holder = if key.in_caps { " of \"caps\"" } else { "" };
    write!(text, "\"{}\"{holder}", key.name)
}

fn add_range(text: &mut String, least: u64, most: u64) -> Added
    ensures { Adds result text.old text.new (whole_range_text least most) }
{
    write!(text, "a whole number from {least} to {most}")
}

fn add_form(text: &mut String, form: Form) -> Added
    ensures { Adds result text.old text.new (form_text form) }
{
    match form {
        Form::Whole { least, most } => add_range(text, least, most),
        Form::Bounded { least, most, .. } => add_range(text, least, most),
        Form::Truth => text.push_str("true or false"),
        Form::Text => text.push_str("a text"),
        Form::Digits => text.push_str("a text of hexadecimal digits"),
        Form::Array => text.push_str("an array"),
        Form::Object => text.push_str("an object"),
    }
}

/// Adds what is found somewhere.
pub fn add_found(text: &mut String, found: Found) -> Added
    ensures { Adds result text.old text.new (found_text found) }
{
    match found {
        Found::Null => text.push_str("null"),
        Found::Truth(truth) => text.push_str(truth_text(truth)),
        Found::Whole(number) => write!(text, "{number}"),
        Found::Below(number) => write!(text, "{number}"),
        Found::Number => {
            text.push_str("a number with a sign, a fraction, an exponent or past 64 bits")
        }
        Found::Text => text.push_str("a text"),
        Found::Array => text.push_str("an array"),
        Found::Object => text.push_str("an object"),
    }
}

// What may stand there, of a number that is too large or too small its bound.
fn add_bound(text: &mut String, found: Found, least: u64, most: u64) -> Added
    ensures { Adds result text.old text.new (bound_text found least most) }
{
    match found {
        Found::Whole(number) if number > most => write!(text, "at most {most}"),
        Found::Whole(_) | Found::Below(_) => write!(text, "at least {least}"),
        _ => add_range(text, least, most),
    }
}

/// Adds what is wanted, of a number that is too large or too small its bound.
pub fn add_wanted(text: &mut String, found: Found, form: Form) -> Added
    ensures { Adds result text.old text.new (wanted_of found form) }
{
    match form {
        Form::Whole { least, most } => add_bound(text, found, least, most),
        Form::Bounded { least, most, .. } => add_bound(text, found, least, most),
        _ => add_form(text, form),
    }
}

// That `expand` writes what is wanted, where it does.
fn add_hint(text: &mut String, is_written: bool) -> Added
    ensures { Adds result text.old text.new (hint_text is_written) }
{
    if is_written {
        text.push_str(" (dsa_run expand writes it)")
    } else {
        Ok(())
    }
}

fn add_unfit(text: &mut String, key: Key, found: Found, wanted: Form) -> Added
    ensures { Adds result text.old text.new (unfit_text key.name.now key.in_caps found wanted) }
{
    add_key(text, key)?;
    text.push_str(" is ")?;
    add_found(text, found)?;
    text.push_str(", ")?;
    add_wanted(text, found, wanted)?;
    text.push_str(" is wanted")?;
    add_hint(text, !key.in_caps && expands_found(key.name, found))
}

fn add_expandable(text: &mut String, key: Key) -> Added
    ensures { Adds result text.old text.new
        (key_text key ++ (codes " is missing" ++ hint_text true)) }
{
    add_at_key(text, key, " is missing (dsa_run expand writes it)")
}

#[tactic(auto, using(std::proofs::lemmas::Grind::elements))]
fn add_piece(text: &mut String, piece: &Piece) -> Added
    ensures { Adds result text.old text.new (piece_text piece.now) }
{
    match piece {
        Piece::End => text.push_str("the end is here"),
        Piece::LineBreak => text.push_str("a line break stands here"),
        Piece::Tab => text.push_str("a tab stands here"),
        Piece::Control => text.push_str("a control character stands here"),
        Piece::Character => text.push_str("a character beyond ASCII stands here"),
        Piece::ByteOrderMark => text.push_str("a byte order mark stands here"),
        Piece::Told(told) => write!(text, "{told} stands here"),
        Piece::Text => text.push_str("a text stands here"),
        Piece::Number => text.push_str("a number stands here"),
        Piece::Word => text.push_str("a word stands here"),
    }
}

// What ends what begins at a place.
fn add_begun(text: &mut String, ending: &str, line: usize, column: usize) -> Added
    ensures { Adds result text.old text.new (begun_text ending.now line column) }
{
    write!(text, "{ending} of line {line}, column {column}")
}

// What ends an array or an object.
fn add_closing(text: &mut String, is_array: bool, line: usize, column: usize) -> Added
    ensures { Adds result text.old text.new (closing_text is_array line column) }
{
    if is_array {
        add_begun(text, "a ] for the [", line, column)
    } else {
        add_begun(text, "a } for the {", line, column)
    }
}

#[tactic(auto, using(std::proofs::lemmas::Grind::elements))]
fn add_syntax_wanted(text: &mut String, wanted: Wanted) -> Added
    ensures { Adds result text.old text.new (wanted_text wanted) }
{
    match wanted {
        Wanted::Document => text.push_str("an object"),
        Wanted::Value | Wanted::Item => text.push_str("a value"),
        Wanted::FirstItem => text.push_str("a value or ]"),
        Wanted::FirstKey => text.push_str("a key in double quotes or }"),
        Wanted::Key => text.push_str("a key in double quotes"),
        Wanted::Colon => text.push_str("a colon"),
        Wanted::More { in_array: true } => text.push_str("a comma or ]"),
        Wanted::More { in_array: false } => text.push_str("a comma or }"),
        Wanted::Closing {
            is_array,
            line,
            column,
        } => add_closing(text, is_array, line, column),
        Wanted::Nothing => text.push_str("the end"),
        Wanted::Word => text.push_str("true, false, null or a text in double quotes"),
        Wanted::Digit => text.push_str("a digit"),
        Wanted::NoZero => text.push_str("a number with no 0 before its other digits"),
        Wanted::InRange => text.push_str("a number that floats of 64 bits reach"),
        Wanted::DoubleQuote => text.push_str("a double quote"),
        Wanted::Quote { line, column } => {
            add_begun(text, "a double quote for the text", line, column)
        }
        Wanted::Escaped => text.push_str("a double quote or an escape"),
        Wanted::Escape => text.push_str("one of \" \\ / b f n r t u"),
        Wanted::HexDigit => text.push_str("a hexadecimal digit"),
        Wanted::Pair => text.push_str("a whole surrogate pair"),
        Wanted::Depth => text.push_str("less nesting"),
    }
}

fn add_unwanted(text: &mut String, found: &Piece, wanted: Wanted) -> Added
    ensures { Adds result text.old text.new
        (piece_text found.now ++ codes ", " ++ wanted_text wanted ++ codes " is wanted") }
{
    add_piece(text, found)?;
    text.push_str(", ")?;
    add_syntax_wanted(text, wanted)?;
    text.push_str(" is wanted")
}

fn add_syntax(text: &mut String, syntax: &Syntax) -> Added
    ensures { Adds result text.old text.new (syntax_text syntax.now) }
{
    match syntax {
        Syntax::TooDeep => text.push_str("nested more than 127 deep"),
        Syntax::CommaBefore { what } => write!(text, "a comma before {what}"),
        Syntax::Comment => text.push_str("a comment, of which JSON has none"),
        Syntax::Unwanted { found, wanted } => add_unwanted(text, found, *wanted),
    }
}

// A key, and what is wrong there.
fn add_at_key(text: &mut String, key: Key, what: &str) -> Added
    ensures { Adds result text.old text.new (key_text key ++ what.now) }
{
    add_key(text, key)?;
    text.push_str(what)
}

fn add_near_kind(text: &mut String, name: &str, near: StepKind) -> Added
    ensures { Adds result text.old text.new (near_kind_text name.now near) }
{
    write!(
        text,
        "\"do\" is \"{name}\", which is no kind of step, but \"{}\" is",
        near.name()
    )
}

fn add_kind(text: &mut String, name: &Option<String>, near: Option<StepKind>) -> Added
    ensures { Adds result text.old text.new (no_kind_text name.now near) }
{
    match (name, near) {
        (Some(name), Some(kind)) => add_near_kind(text, name.as_str(), kind),
        (Some(name), None) => { write!(text, "\"do\" is \"{name}\", none of {}", KIND_NAMES) }
        (None, _) => text.push_str("\"do\" names no kind of step"),
    }
}

fn add_digits(text: &mut String, key: Key, count: usize, wanted: &str) -> Added
    ensures { Adds result text.old text.new (key_text key ++ digits_text count ++ wanted.now) }
{
    add_key(text, key)?;
    add_count(text, " has ", count as u64, "digit", "digits")?;
    text.push_str(wanted)
}

fn add_no_digit(text: &mut String, key: Key, at: usize) -> Added
    ensures { Adds result text.old text.new
        (key_text key ++ (codes " has no hexadecimal digit at character " ++ decimal at)) }
{
    add_key(text, key)?;
    write!(text, " has no hexadecimal digit at character {at}")
}

fn add_no_own_name(text: &mut String) -> Added
    ensures { Adds result text.old text.new no_own_name_text }
{
    text.push_str(
        "\"as\" is no own name, \
        1 to 40 printable ASCII characters other than \" and \\ are wanted",
    )
}

fn add_misspelled(text: &mut String, key: Key, found: &str) -> Added
    ensures { Adds result text.old text.new
        (key_text key ++ (codes " is missing, and \"" ++ (found.now
        ++ codes "\" is no key here"))) }
{
    add_key(text, key)?;
    write!(text, " is missing, and \"{found}\" is no key here")
}

fn add_no_object(text: &mut String, found: Found) -> Added
    ensures { Adds result text.old text.new
        (found_text found ++ codes " stands here, an object is wanted") }
{
    add_found(text, found)?;
    text.push_str(" stands here, an object is wanted")
}

fn add_near_name(text: &mut String, key: &str, near: &str) -> Added
    ensures { Adds result text.old text.new (stray_text (Some key.now) (Some near.now)) }
{
    write!(text, "\"{key}\" is no key here, but \"{near}\" is")
}

/// Adds that nothing reads a key.
pub fn add_stray(text: &mut String, key: &Option<String>, near: Option<&'static str>) -> Added
    ensures { Adds result text.old text.new
        (stray_text (option_map string_bytes key.now) (option_map (λ name. name.now) near.entry)) }
{
    match (key, near) {
        (Some(key), Some(near)) => add_near_name(text, key.as_str(), near),
        (Some(key), None) => { write!(text, "\"{key}\" is no key here") }
        (None, _) => text.push_str("a key that is long or not plain is no key here"),
    }
}

fn add_twice(text: &mut String, key: &Option<String>) -> Added
    ensures { Adds result text.old text.new (twice_text (option_map string_bytes key.now)) }
{
    match key {
        Some(key) => { write!(text, "\"{key}\" comes twice") }
        None => text.push_str("a key that is long or not plain comes twice"),
    }
}

/// Adds the text of a reason.
pub fn add_reason(text: &mut String, reason: &Reason) -> Added
    ensures { Adds result text.old text.new (reason_text reason.now) }
{
    match reason {
        Reason::Missing { key } => add_at_key(text, *key, " is missing"),
        Reason::Misspelled { key, found } => add_misspelled(text, *key, found.as_str()),
        Reason::Expandable { key } => add_expandable(text, *key),
        Reason::Unfit { key, found, wanted } => add_unfit(text, *key, *found, *wanted),
        Reason::OddDigits { key, count } => add_digits(
            text,
            *key,
            *count,
            ", an even number is wanted",
        ),
        Reason::ManyDigits { key, count } => add_digits(
            text,
            *key,
            *count,
            ", at most 128 are wanted",
        ),
        Reason::NoDigit { key, at } => add_no_digit(text, *key, *at),
        Reason::NoOwnName => add_no_own_name(text),
        Reason::NoObject { found } => add_no_object(text, *found),
        Reason::UnknownKind { found, near } => add_kind(text, found, *near),
        Reason::Stray { found, near } => add_stray(text, found, *near),
        Reason::Twice { found } => add_twice(text, found),
        Reason::NotUtf8 => text.push_str("the bytes are no UTF-8"),
        Reason::Syntax(syntax) => add_syntax(text, syntax),
    }
}

// A line or a column, where it is known.
fn add_number(text: &mut String, word: &str, number: Option<usize>, after: &str) -> Added
    ensures { Adds result text.old text.new (known_number_text word.now number after.now) }
{
    match number {
        Some(number) => write!(text, "{word}{number}{after}"),
        None => Ok(()),
    }
}

fn add_step(text: &mut String, i: u64, kind: Option<StepKind>) -> Added
    ensures { Adds result text.old text.new (step_text i kind) }
{
    match kind {
        Some(kind) => write!(text, "step {i} ({}): ", kind.name()),
        None => write!(text, "step {i}: "),
    }
}

fn add_part(text: &mut String, finding: &Finding) -> Added
    ensures { Adds result text.old text.new
        (fault_part_text finding.now.fault finding.now.place.kind) }
{
    match finding.fault {
        ScenarioFault::NotJson => text.push_str("not JSON: "),
        ScenarioFault::BadDocument => text.push_str("document: "),
        ScenarioFault::BadStep(i) => add_step(text, i, finding.place.kind),
        ScenarioFault::BadCaps => text.push_str("caps: "),
        ScenarioFault::BadCapacity => text.push_str("capacity: "),
        _ => Ok(()),
    }
}

// Where the finding is, where no place of its own is known of a reason.
fn add_line(text: &mut String, finding: &Finding) -> Added
    ensures { Adds result text.old text.new (own_place_text finding.now) }
{
    add_number(text, "line ", finding.place.line, ", ")?;
    add_number(text, "column ", finding.place.column, ": ")
}

// What comes between a place and a part.
fn after_place(fault: ScenarioFault) -> &'static str
    ensures { result.now ≡ after_place fault }
{
    match fault {
        ScenarioFault::NotJson => ": ",
        _ => ", ",
    }
}

fn add_spot(text: &mut String, finding: &Finding, spot: Option<Spot>) -> Added
    ensures { Adds result text.old text.new (spot_text finding.now spot) }
{
    match spot {
        Some(spot) => {
            write!(text, "line {}, column {}", spot.line, spot.column)?;
            text.push_str(after_place(finding.fault))
        }
        None => add_line(text, finding),
    }
}

/// Marks a warning.
pub fn add_mark(text: &mut String, is_warning: bool) -> Added
    ensures { Adds result text.old text.new (warning_mark is_warning) }
{
    if is_warning {
        text.push_str("warning: ")
    } else {
        Ok(())
    }
}

/// Adds a reason, or that none is known.
pub fn add_known(text: &mut String, reason: Option<&Reason>) -> Added
    ensures { Adds result text.old text.new (known_text (option_map (λ r. r.now) reason.entry)) }
{
    match reason {
        Some(reason) => add_reason(text, reason),
        None => text.push_str("not understood"),
    }
}

// The line of a remark.
fn add_remark(text: &mut String, remark: &Remark<'_>) -> Added
    ensures { Adds result text.old text.new (remark_text remark.now) }
{
    add_mark(text, remark.is_warning)?;
    add_spot(text, remark.finding, remark.spot)?;
    add_part(text, remark.finding)?;
    add_known(text, remark.reason)?;
    text.push_str("\n")
}

// A line, and what it points to.
fn add_pointed(text: &mut String, is_colored: bool, bytes: &[u8], remark: &Remark<'_>) -> Added
    ensures { Adds result text.old text.new
        (remark_text remark.now ++ source_text is_colored bytes.now remark.now) }
{
    add_remark(text, remark)?;
    add_source(text, is_colored, bytes, remark)
}

// A remark of these bytes in this form.
fn add_form_of(
    alloc: Global,
    text: &mut String,
    bytes: &[u8],
    form: CheckForm,
    remark: &Remark<'_>,
) -> Added
    ensures { Adds result text.old text.new (text_in form bytes.now remark.now) }
{
    match form {
        CheckForm::Lines => add_remark(text, remark),
        CheckForm::Json => add_object(alloc, text, remark),
        CheckForm::Source { is_colored } => add_pointed(text, is_colored, bytes, remark),
    }
}

// These remarks in this form.
fn add_remarks(
    alloc: Global,
    text: &mut String,
    bytes: &[u8],
    form: CheckForm,
    remarks: &[Remark<'_>],
) -> Added
    ensures { Adds result text.old text.new (report_text form bytes.now remarks.now) }
{
    for remark in remarks {
        add_form_of(alloc, text, bytes, form, remark)?;
    }
    Ok(())
}

/// The text of these remarks of these bytes in this form.
pub fn report_lines(
    alloc: Global,
    bytes: &[u8],
    form: CheckForm,
    remarks: &[Remark<'_>],
) -> Result<String, AllocError>
    ensures { IfOk result
        (λ text. string_bytes text ≡ report_text form bytes.now remarks.now) }
{
    let mut text = String::new(alloc);
    add_remarks(alloc, &mut text, bytes, form, remarks)?;
    Ok(text)
}
