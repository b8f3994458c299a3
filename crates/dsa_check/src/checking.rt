//! The check of a document, as a way to make a text of it.

ghost use Rattle.std.specs.Prelude.{◌≡◌, ◌++◌, true};
ghost use Rattle.dsa_check.specs.Judgement.{faults_told};
ghost use Rattle.dsa_check.specs.Check.{IsCheckReportOf, first_of, faults_warned, too_long_text};

use crate::finding::{Finding, Judgement};
use crate::judge::judge_document;
use crate::remarks::remarks_of;
use crate::report::report_lines;
use dsa_scenario::{Render, Rendered, Rendering, ScenarioFault};
use std::alloc::Global;

/// How the remarks of a check are written.
#[derive(Clone, Copy, Debug, PartialEq, Eq)]
pub enum CheckForm {
    /// A line each.
    Lines,
    /// A JSON object each, one a line.
    Json,
    /// A line each, and below it the source line that it points to, with a mark.
    Source { is_colored: bool },
}

/// All faults of a document and all warnings, in one form, and the first fault.
#[derive(Clone, Copy, Debug, PartialEq, Eq)]
pub struct Check {
    /// Whether a warning counts as a fault of its part.
    pub is_strict: bool,
    pub form: CheckForm,
}

/// The report on a document that is too long, of which nothing else is checked.
#[tactic(auto, unfolding(json::specs::Print::print_from, json::specs::Print::escape_byte))]
pub fn too_long_report(form: CheckForm) -> &'static str
    ensures { result.now ≡ too_long_text form }
{
    match form {
        CheckForm::Json => {
            "{\"part\":\"text\",\"level\":\"fault\",\
            \"reason\":\"it has more than 1048576 bytes\"}\n"
        }
        _ => "document too long: it has more than 1048576 bytes\n",
    }
}

fn first_fault(findings: &[Finding]) -> Option<ScenarioFault>
    ensures { result ≡ first_of (faults_told findings.now) }
{
    match findings.first() {
        Some(finding) => Some(finding.fault),
        None => None,
    }
}

// The fault of the first warning.
fn first_warned(warnings: &[Finding]) -> Option<ScenarioFault>
    ensures { result ≡ first_of (faults_warned true warnings.now) }
{
    for warning in warnings {
        if !warning.reasons.is_empty() {
            return Some(warning.fault);
        }
    }
    None
}

// The fault that is told: the first, or where warnings count that of the first warning.
fn fault_told(is_strict: bool, faults: &[Finding], warnings: &[Finding]) -> Option<ScenarioFault>
    ensures { result
        ≡ first_of (faults_told faults.now ++ faults_warned is_strict warnings.now) }
{
    match first_fault(faults) {
        Some(fault) => Some(fault),
        None if is_strict => first_warned(warnings),
        None => None,
    }
}

impl Render for Check {
    ghost is_rendering = { λ check bytes fault text. IsCheckReportOf check bytes fault text };

    fn render(&self, alloc: Global, bytes: &[u8]) -> Rendered {
        let Judgement { faults, warnings } = judge_document(alloc, bytes)?;
        let remarks = remarks_of(alloc, bytes, faults.as_slice(), warnings.as_slice())?;
        let text = report_lines(alloc, bytes, self.form, remarks.as_slice())?;
        let fault = fault_told(self.is_strict, faults.as_slice(), warnings.as_slice());
        Ok(Rendering {
            text,
            fault,
            document: None,
        })
    }
}
