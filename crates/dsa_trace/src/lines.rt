//! The line of a step.

ghost use Rattle.std.specs.Prelude.{◌++◌};
ghost use Rattle.std.specs.Fmt.{decimal};
ghost use Rattle.dsa_event_text.specs.Added.{Adds};
ghost use Rattle.dsa_trace.specs.declared.form.Part.TheVariants as part;
ghost use Rattle.dsa_trace.specs.Columns.{marked};
ghost use Rattle.dsa_trace.specs.Ended.{ended_rows, fate_objects};
ghost use Rattle.dsa_trace.specs.Changes.{line_texts};
ghost use Rattle.dsa_trace.specs.Lines.{answered_text, change_line, change_row, json_line};
ghost use Rattle.dsa_trace.specs.Lines.{outcome_text, row_line};
ghost use Rattle.dsa_trace.specs.Lines.{step_line, traced_event_words};
ghost use Rattle.dsa_trace.specs.Marks.{mark, pad};
ghost use Rattle.dsa_trace.specs.Results.{result_kind, record_members};

use crate::changes::{add_changed_columns, add_changed_lists, add_snapshot, lines_of};
use crate::columns::{add_columns, add_command_column, add_state_members};
use crate::ended::{add_fates, ended_rows};
use crate::form::{Part, Trace, add_mark, add_pad};
use crate::held::add_names_columns;
use crate::results::{add_kind, add_record_members};
use dsa_book::FateRow;
use dsa_device::Device;
use dsa_event_text::{Added, add_bad_word, add_event};
use dsa_scenario::{Record, StepMade, add_answer};
use dsa_store::EntryStore;
use itoa::Buffer;
use std::alloc::Global;

fn add_place(text: &mut String, form: Trace, number: usize) -> Added
    ensures { Adds result text.old text.new (marked form part.Step number) }
{
    let mut buffer = Buffer::new();
    add_mark(text, form, Part::Step)?;
    text.push_str(buffer.format(number))
}

fn add_asked(text: &mut String, form: Trace, entry: &Record) -> Added
    ensures { Adds result text.old text.new (mark form part.Event ++ traced_event_words entry.now) }
{
    add_mark(text, form, Part::Event)?;
    match entry {
        Record::Stepped(step) => add_event(text, &step.event),
        Record::Refused(refused) => add_bad_word(text, refused.word),
    }
}

fn add_answered(text: &mut String, form: Trace, entry: &Record) -> Added
    ensures { Adds result text.old text.new (answered_text form entry.now) }
{
    add_mark(text, form, Part::Answer)?;
    add_answer(text, entry)?;
    add_mark(text, form, Part::AnswerEnd)
}

// The answer as an object.
fn add_result(alloc: Global, text: &mut String, entry: &Record) -> Added
    ensures { Adds result text.old text.new
        (mark Trace.Json part.Result
        ++ result_kind entry.now
        ++ mark Trace.Json part.TextEnd
        ++ record_members entry.now) }
{
    add_mark(text, Trace::Json, Part::Result)?;
    add_kind(alloc, text, entry)?;
    add_mark(text, Trace::Json, Part::TextEnd)?;
    add_record_members(text, entry)
}

// The fates of the entries that the step ended.
fn add_ended(text: &mut String, entry: &Record, fates: &[FateRow]) -> Added
    ensures { Adds result text.old text.new
        (mark Trace.Json part.Fates
        ++ fate_objects (ended_rows entry.now fates.now)
        ++ mark Trace.Json part.FatesEnd) }
{
    add_mark(text, Trace::Json, Part::Fates)?;
    add_fates(text, ended_rows(entry, fates))?;
    add_mark(text, Trace::Json, Part::FatesEnd)
}

fn add_outcome<S: EntryStore>(text: &mut String, step: &StepMade<'_, S>) -> Added
    ensures { Adds result text.old text.new
        (outcome_text step.now.entry.now step.now.device.now.state.work.fates) }
{
    add_result(step.alloc, text, step.entry)?;
    add_ended(text, step.entry, step.device.fates())
}

fn add_object<S: EntryStore>(text: &mut String, step: &StepMade<'_, S>) -> Added
    ensures { Adds result text.old text.new
        (json_line step.now.number step.now.entry.now step.now.device.now) }
{
    let form = Trace::Json;
    add_place(text, form, step.number)?;
    add_asked(text, form, step.entry)?;
    add_answered(text, form, step.entry)?;
    add_outcome(text, step)?;
    add_state_members(text, form, step.device)?;
    add_mark(text, form, Part::LineEnd)
}

// The number of the step, as wide as the capacity.
fn add_aligned_place<S: EntryStore>(
    text: &mut String,
    form: Trace,
    number: usize,
    device: &Device<S>,
) -> Added
    ensures { Adds result text.old text.new
        (pad form number device.now.capacity ++ decimal number) }
{
    let mut buffer = Buffer::new();
    add_pad(text, form, number as u64, device.capacity())?;
    text.push_str(buffer.format(number))
}

fn add_row<S: EntryStore>(text: &mut String, form: Trace, step: &StepMade<'_, S>) -> Added
    ensures { Adds result text.old text.new
        (row_line form step.now.number step.now.entry.now step.now.device.now) }
{
    add_aligned_place(text, form, step.number, step.device)?;
    add_columns(text, form, step.device)?;
    add_asked(text, form, step.entry)?;
    add_answered(text, form, step.entry)?;
    add_names_columns(text, step.device)?;
    add_command_column(text, form, step.device)?;
    add_mark(text, form, Part::LineEnd)
}

// The row of a step with these lines of the snapshots before and after it.
fn add_change_row<S: EntryStore>(
    text: &mut String,
    step: &StepMade<'_, S>,
    was: &[&str],
    now: &[&str],
) -> Added
    ensures { Adds result text.old text.new
        (change_row (line_texts was.now) (line_texts now.now) step.now.number step.now.entry.now
        step.now.device.now.caps) }
{
    let form = Trace::Changes;
    add_place(text, form, step.number)?;
    add_changed_columns(text, was, now, step.device)?;
    add_asked(text, form, step.entry)?;
    add_answered(text, form, step.entry)?;
    add_changed_lists(text, was, now, step.device)?;
    add_mark(text, form, Part::LineEnd)
}

// The row of a step, from the snapshot that was told of the device before it.
fn add_changes<S: EntryStore>(text: &mut String, step: &StepMade<'_, S>) -> Added
    ensures { Adds result text.old text.new
        (change_line step.now.told.now step.now.number step.now.entry.now step.now.device.now) }
{
    let mut snapshot = String::new(step.alloc);
    add_snapshot(&mut snapshot, step.device)?;
    let was = lines_of(step.alloc, step.told)?;
    let now = lines_of(step.alloc, &snapshot)?;
    add_change_row(text, step, was.as_slice(), now.as_slice())
}

/// Adds the line of a step, with what the device shows after it, or with what that changed.
pub fn add_step<S: EntryStore>(text: &mut String, form: Trace, step: &StepMade<'_, S>) -> Added
    ensures { Adds result text.old text.new
        (step_line form step.now.told.now step.now.number step.now.entry.now step.now.device.now) }
{
    match form {
        Trace::Json => add_object(text, step),
        Trace::Changes => add_changes(text, step),
        Trace::Table => add_row(text, Trace::Table, step),
        Trace::Wide => add_row(text, Trace::Wide, step),
    }
}
