//! The rows of a search: each finding once, with the fewest steps.

ghost use Rattle.std.specs.Prelude.{◌≡◌, ◌∷◌, [], true, false, map, IfOk, OnOk};
ghost use Rattle.dsa_base.specs.Lists.{In};
ghost use Rattle.dsa_book.specs.declared.fate.FateRow.{FateRow};
ghost use Rattle.dsa_keys.specs.Labels.{labelled_reply, labelled_row, labelled_ticket};
ghost use Rattle.dsa_explore.specs.Findings.{answer_to, ending_told, ends_of, findings_told};
ghost use Rattle.dsa_explore.specs.Findings.{removal_told, removals_of, waits_told};
ghost use Rattle.dsa_explore.specs.Rows.{HasFinding, AddsRows, labels_of};

use crate::found::{Ask, Finding, Found};
use dsa_book::{DispatchAnswer, FateRow, FetchAnswer, Reply, StartAnswer, SubmitAnswer, Ticket};
use dsa_store::Cell;
use std::alloc::{AllocError, Global};

/// What a step told: what a party asked for and was answered, the rows of what ended, and the
/// labels of what is waited for.
#[derive(Clone, Copy)]
pub struct Told<'a> {
    pub labels: &'a [u32],
    pub ask: Option<Ask>,
    pub reply: Reply,
    pub ends: &'a [FateRow],
    pub awaited: &'a [u32],
}

/// The label of a name; 0 for a name without one.
pub fn label_of(labels: &[u32], name: u32) -> u32
    ensures { result ≡ labels_of labels.now name }
{
    labels.get(name as usize).copied().unwrap_or(0)
}

// The ticket, with a label for the name and nothing for the cell.
fn labelled_ticket(labels: &[u32], ticket: Ticket) -> Ticket
    ensures { result ≡ labelled_ticket (labels_of labels.now) ticket }
{
    Ticket {
        cell: Cell(0),
        name: label_of(labels, ticket.name),
    }
}

/// The reply, with labels for names.
pub fn labelled_reply(labels: &[u32], reply: Reply) -> Reply
    ensures { result ≡ labelled_reply (labels_of labels.now) reply }
{
    match reply {
        Reply::Submit(SubmitAnswer::Accepted(ticket)) => {
            Reply::Submit(SubmitAnswer::Accepted(labelled_ticket(labels, ticket)))
        }
        Reply::Dispatch(DispatchAnswer::Taken { ticket, queue }) => {
            let ticket = labelled_ticket(labels, ticket);
            Reply::Dispatch(DispatchAnswer::Taken { ticket, queue })
        }
        Reply::Fetch(FetchAnswer::Fetched(ticket)) => {
            Reply::Fetch(FetchAnswer::Fetched(labelled_ticket(labels, ticket)))
        }
        Reply::Start(StartAnswer::Started(ticket)) => {
            Reply::Start(StartAnswer::Started(labelled_ticket(labels, ticket)))
        }
        _ => reply,
    }
}

// The row, with a label for the name and none for that of its batch.
fn labelled_row(labels: &[u32], row: &FateRow) -> FateRow
    ensures { result ≡ labelled_row (labels_of labels.now) row.now }
{
    FateRow {
        name: label_of(labels, row.name),
        parent: None,
        fate: row.fate,
    }
}

/// The rows, with labels for names.
pub fn labelled_rows(
    alloc: Global,
    labels: &[u32],
    rows: &[FateRow],
) -> Result<Vec<FateRow>, AllocError>
    ensures { IfOk result
        (λ labelled. labelled.items ≡ map (labelled_row (labels_of labels.now)) rows.now) }
{
    rows.iter()
        .map(|row| labelled_row(labels, row))
        .collect(alloc)
}

// How an entry ended, with its label.
fn ending_told(labels: &[u32], row: &FateRow) -> Finding
    ensures { result ≡ ending_told (labelled_row (labels_of labels.now) row.now) }
{
    Finding::End {
        label: label_of(labels, row.name),
        fate: row.fate,
    }
}

/// Whether this row has the finding.
pub fn is_row_of(row: &Found, finding: &Finding) -> bool
    ensures same { result ≡ true → row.now.finding ≡ finding.now }
    ensures other { result ≡ false → row.now.finding ≡ finding.now → ⊥ }
{
    row.finding == *finding
}

/// Whether a row has the finding.
pub fn has_finding(rows: &[Found], finding: &Finding) -> bool
    ensures found { result ≡ true → HasFinding rows.now finding.now }
    ensures none { result ≡ false → (row : Found)
        → In row rows.now
        → row.finding ≡ finding.now
        → ⊥ }
{
    for row in rows {
        if is_row_of(row, finding) {
            return true;
        }
    }
    false
}

// Adds the finding, unless a row has it.
fn add_finding(rows: &mut Vec<Found>, finding: Finding, steps: u32) -> Result<(), AllocError>
    ensures { OnOk result
        (AddsRows steps (finding ∷ []) rows.old.items rows.new.items) }
{
    if has_finding(rows.as_slice(), &finding) {
        return Ok(());
    }
    rows.push(Found { finding, steps })?;
    Ok(())
}

// Adds how the entries of these rows ended.
fn add_ends(
    rows: &mut Vec<Found>,
    labels: &[u32],
    ends: &[FateRow],
    steps: u32,
) -> Result<(), AllocError>
    ensures { OnOk result
        (AddsRows steps (ends_of (labels_of labels.now) ends.now) rows.old.items rows.new.items) }
{
    for end in ends {
        add_finding(rows, ending_told(labels, end), steps)?;
    }
    Ok(())
}

// Adds what a party was answered.
fn add_answer(
    rows: &mut Vec<Found>,
    labels: &[u32],
    ask: Option<Ask>,
    reply: Reply,
    steps: u32,
) -> Result<(), AllocError>
    ensures { OnOk result
        (AddsRows steps (answer_to ask (labels_of labels.now) reply) rows.old.items
        rows.new.items) }
{
    let Some(ask) = ask else {
        return Ok(());
    };
    let reply = labelled_reply(labels, reply);
    add_finding(rows, Finding::Answer { ask, reply }, steps)?;
    Ok(())
}

// Adds for which entries the act waits.
fn add_waits(
    rows: &mut Vec<Found>,
    ask: Option<Ask>,
    awaited: &[u32],
    steps: u32,
) -> Result<(), AllocError>
    ensures { OnOk result
        (AddsRows steps (waits_told ask awaited.now) rows.old.items rows.new.items) }
{
    let Some(Ask::Act(act)) = ask else {
        return Ok(());
    };
    for label in awaited {
        add_finding(rows, Finding::Wait { act, label: *label }, steps)?;
    }
    Ok(())
}

// The act removed the entry of this row.
fn removal_told(labels: &[u32], act: u32, row: &FateRow) -> Finding
    ensures { result ≡ removal_told act (labelled_row (labels_of labels.now) row.now) }
{
    Finding::Removal {
        act,
        label: label_of(labels, row.name),
    }
}

// Adds which entries the act removed.
fn add_removals(
    rows: &mut Vec<Found>,
    labels: &[u32],
    ask: Option<Ask>,
    ends: &[FateRow],
    steps: u32,
) -> Result<(), AllocError>
    ensures { OnOk result
        (AddsRows steps (removals_of ask (labels_of labels.now) ends.now) rows.old.items
        rows.new.items) }
{
    let Some(Ask::Act(act)) = ask else {
        return Ok(());
    };
    for end in ends {
        add_finding(rows, removal_told(labels, act, end), steps)?;
    }
    Ok(())
}

/// Adds all that a step tells.
pub fn add_findings(rows: &mut Vec<Found>, told: &Told<'_>, steps: u32) -> Result<(), AllocError>
    ensures { OnOk result
        (AddsRows steps
        (findings_told told.now.ask (labels_of told.now.labels.now) told.now.reply told.now.ends.now
        told.now.awaited.now) rows.old.items rows.new.items) }
{
    add_answer(rows, told.labels, told.ask, told.reply, steps)?;
    add_ends(rows, told.labels, told.ends, steps)?;
    add_waits(rows, told.ask, told.awaited, steps)?;
    add_removals(rows, told.labels, told.ask, told.ends, steps)?;
    Ok(())
}

/// Adds rows with the findings of these, and so many steps.
pub fn add_all(rows: &mut Vec<Found>, told: &[Found], steps: u32) -> Result<(), AllocError>
    ensures { OnOk result
        (AddsRows steps (map (λ row. row.finding) told.now) rows.old.items rows.new.items) }
{
    for row in told {
        add_finding(rows, row.finding, steps)?;
    }
    Ok(())
}
