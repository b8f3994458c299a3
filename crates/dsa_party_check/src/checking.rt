//! The check of a document with its parties and questions, as a way to make a text of it.

ghost use Rattle.std.specs.Prelude.{◌≡◌, ◌⊎◌, ◌++◌, [], codes, None, map, string_bytes, IfOk, OnOk};
ghost use Rattle.serde_json.specs.{View.{view}, Find.{get}};
ghost use Rattle.dsa_event_text.specs.Added.{Adds};
ghost use Rattle.dsa_scenario.specs.Document.{IsJson};
ghost use Rattle.dsa_check.specs.Sources.{source_at};
ghost use Rattle.dsa_party_check.specs.Complaints.{complained, flawed};
ghost use Rattle.dsa_party_check.specs.OddKeys.{odd_at_parties};
ghost use Rattle.dsa_party_check.specs.PartyCheck.{first_fault, first_flaw, flaws_that_count};
ghost use Rattle.dsa_party_check.specs.PartyCheck.{party_remark_line, party_report_text};
ghost use Rattle.dsa_party_check.specs.PartyCheck.{party_text_in};
ghost use Rattle.dsa_party_check.specs.PartyCheck.{IsPartyReport, IsPartyReportOf, IsWholeCheck};

use crate::complaint::Flaw;
use crate::lines::add_line;
use crate::objects::add_object;
use crate::odd_keys::odd_parties;
use crate::questions::all_flaws_of;
use crate::remarks::{PartyRemark, remarks_of};
use dsa_check::{Check, CheckForm, Spot, add_lines};
use dsa_event_text::Added;
use dsa_scenario::{Render, Rendered, Rendering, ScenarioFault, parse_json};
use serde_json::Value;
use std::alloc::{AllocError, Global};

/// All faults of a document and all warnings, and after them those of its parties and questions, in
/// one form; and the first fault.
#[derive(Clone, Copy, Debug, PartialEq, Eq)]
pub struct WholeCheck {
    pub check: Check,
}

// A report on parties and questions, and the fault that is told of it.
#[derive(Drop)]
struct PartyReport {
    text: String,
    fault: Option<ScenarioFault>,
}

fn add_remark_line(text: &mut String, remark: &PartyRemark) -> Added
    ensures { Adds result text.old text.new (party_remark_line remark.now) }
{
    add_line(
        text,
        remark.is_warning,
        remark.fault,
        remark.subject,
        &remark.complaint,
        remark.spot,
    )
}

// The source line of a place, if that is known.
fn add_source(
    text: &mut String,
    is_colored: bool,
    is_warning: bool,
    bytes: &[u8],
    spot: Option<Spot>,
) -> Added
    ensures { Adds result text.old text.new (source_at is_colored is_warning bytes.now spot) }
{
    match spot {
        Some(spot) => add_lines(text, is_colored, is_warning, bytes, spot),
        None => Ok(()),
    }
}

// A remark of these bytes in this form.
fn add_in_form(
    alloc: Global,
    text: &mut String,
    bytes: &[u8],
    form: CheckForm,
    remark: &PartyRemark,
) -> Added
    ensures { Adds result text.old text.new (party_text_in form bytes.now remark.now) }
{
    match form {
        CheckForm::Lines => add_remark_line(text, remark),
        CheckForm::Json => add_object(
            alloc,
            text,
            remark.is_warning,
            remark.fault,
            &remark.complaint,
            remark.spot,
        ),
        CheckForm::Source { is_colored } => {
            add_remark_line(text, remark)?;
            add_source(text, is_colored, remark.is_warning, bytes, remark.spot)
        }
    }
}

// These remarks in this form.
fn add_remarks(
    alloc: Global,
    text: &mut String,
    bytes: &[u8],
    form: CheckForm,
    remarks: &[PartyRemark],
) -> Added
    ensures { Adds result text.old text.new (party_report_text form bytes.now remarks.now) }
{
    for remark in remarks {
        add_in_form(alloc, text, bytes, form, remark)?;
    }
    Ok(())
}

fn first_flaw(flaws: &[Flaw]) -> Option<ScenarioFault>
    ensures { result ≡ first_flaw (map flawed flaws.now) }
{
    match flaws.first() {
        Some(flaw) => Some(flaw.fault),
        None => None,
    }
}

// The fault that is told: of what is wrong, or where warnings count of what is odd.
fn fault_told(is_strict: bool, wrong: &[Flaw], odd: &[Flaw]) -> Option<ScenarioFault>
    ensures { result
        ≡ first_flaw
        (flaws_that_count is_strict (map flawed wrong.now) (map flawed odd.now)) }
{
    match first_flaw(wrong) {
        Some(fault) => Some(fault),
        None if is_strict => first_flaw(odd),
        None => None,
    }
}

// The keys of parties that nothing reads.
fn odd_at(alloc: Global, document: &Value) -> Result<Vec<Flaw>, AllocError>
    ensures { IfOk result (λ odd. map flawed odd.items
        ≡ odd_at_parties (get (codes "parties") (view document.now))) }
{
    match document.get("parties") {
        Some(object) => odd_parties(alloc, object),
        None => Ok(Vec::new(alloc)),
    }
}

// The report on the parties and questions of a document.
fn report_on(
    alloc: Global,
    check: Check,
    bytes: &[u8],
    document: &Value,
) -> Result<PartyReport, AllocError>
    requires { IsJson bytes.now (view document.now) }
    ensures { IfOk result (λ report. IsPartyReport check bytes.now (view document.now)
        report.fault (string_bytes report.text)) }
{
    let wrong = all_flaws_of(alloc, document)?;
    let odd = odd_at(alloc, document)?;
    let fault = fault_told(check.is_strict, wrong.as_slice(), odd.as_slice());
    let remarks = remarks_of(alloc, bytes, document, wrong, odd)?;
    let mut text = String::new(alloc);
    add_remarks(alloc, &mut text, bytes, check.form, remarks.as_slice())?;
    Ok(PartyReport { text, fault })
}

// The report on the parties and questions in these bytes.
fn report_in(alloc: Global, check: Check, bytes: &[u8]) -> Result<PartyReport, AllocError>
    ensures { IfOk result (λ report. IsPartyReportOf check bytes.now report.fault
        (string_bytes report.text)) }
{
    match parse_json(alloc, bytes) {
        Ok(document) => report_on(alloc, check, bytes, &document),
        Err(ScenarioFault::OutOfMemory) => Err(AllocError),
        Err(_) => Ok(PartyReport {
            text: String::new(alloc),
            fault: None,
        }),
    }
}

fn first_fault(fault: Option<ScenarioFault>, other: Option<ScenarioFault>) -> Option<ScenarioFault>
    ensures { result ≡ first_fault fault other }
{
    match fault {
        Some(fault) => Some(fault),
        None => other,
    }
}

// Both reports.
fn join(mut run: String, more: &str) -> Result<String, AllocError>
    ensures { IfOk result
        (λ text. string_bytes text ≡ string_bytes run ++ more.now) }
{
    run.push_str(more)?;
    Ok(run)
}

impl Render for WholeCheck {
    ghost is_rendering = { λ whole bytes fault text. IsWholeCheck whole.check bytes fault text };

    fn render(&self, alloc: Global, bytes: &[u8]) -> Rendered {
        let run = self.check.render(alloc, bytes)?;
        let parties = report_in(alloc, self.check, bytes)?;
        let fault = first_fault(run.fault, parties.fault);
        Ok(Rendering {
            text: join(run.text, parties.text.as_str())?,
            fault,
            document: None,
        })
    }
}
