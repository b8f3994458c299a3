//! Texts that are made of a document in place of its lines.

ghost use Rattle.std.specs.Prelude.{◌≡◌, ◌⊎◌, IfOk, IfErr, option_map, string_bytes};
ghost use Rattle.dsa_scenario.specs.Document.{IsFaultOf};
ghost use Rattle.dsa_scenario.specs.declared.faults.ScenarioFault.{ScenarioFault};
ghost use Rattle.dsa_cli.specs.CommandLine.{has_friendly_form};
ghost use Rattle.dsa_cli.specs.Reports.{IsMadeOfRun, IsNamedOfRun, IsReportOf};
ghost use Rattle.dsa_cli.specs.Reports.{streamed_form, text_if_too_long};

use dsa_check::{Check, too_long_report};
use dsa_chosen::Selection;
use dsa_chrome::ChromeTrace;
use dsa_conform::{AsSeen, Conformance};
use dsa_draw::Drawing;
use dsa_expand::{Expansion, Friendly};
use dsa_exploration::{Exploring, Sampling, Showing};
use dsa_named::{RenderNamed, WithNames};
use dsa_named_lines::NamedLines;
use dsa_named_seen::SeenWithNames;
use dsa_named_trace::NamedTrace;
use dsa_party_check::WholeCheck;
use dsa_scenario::{Render, RenderSteps, Rendered, render_steps};
use dsa_trace::Trace;
use std::alloc::Global;

/// Which run of a document is shown.
#[derive(Clone, Copy, Debug, PartialEq, Eq)]
pub enum Run {
    /// The one in which the device answers by itself.
    Own,
    /// The one that a comparison follows, by what the steps say that another device answered.
    Seen,
}

/// In which form a document is written.
#[derive(Clone, Copy, Debug, PartialEq, Eq)]
pub enum Written {
    /// As a run reads it.
    Strict,
    /// As `expand` reads it.
    Friendly,
}

impl Written {
    /// Whether it is as `expand` reads it.
    pub fn is_friendly(self) -> bool
        ensures { result ≡ has_friendly_form self }
    {
        match self {
            Written::Strict => false,
            Written::Friendly => true,
        }
    }
}

/// What is made of a document in place of its lines.
#[derive(Clone, Copy, Debug, PartialEq, Eq)]
pub enum Report<'a> {
    /// All faults of the document and all warnings, without a run of it.
    Check(Check),
    /// Why each of the selected steps was answered as it was.
    Explain(Selection<'a>, Run),
    /// What the device shows after each step.
    Trace(Trace, Run),
    /// A trace of it in the format of Chrome.
    Chrome(Run),
    /// How many of its submissions were turned away, and other totals.
    Count,
    /// A drawing of its run, of these steps.
    Draw(Drawing, Run),
    /// Whether what its steps say that another device answered is allowed.
    Conform(Conformance, Written),
    /// Its strict form.
    Expand,
    /// What may come of its parties, in every order of their steps.
    Explore(Exploring),
    /// The document of a row of that.
    Show(Showing<'a>),
    /// What random walks of its parties find.
    Sample(Sampling),
}

// What `what` makes of this run of the document in these bytes.
fn render_run<D: RenderSteps>(alloc: Global, what: D, run: Run, bytes: &[u8]) -> Rendered
    ensures ok { IfOk result (λ r. IsMadeOfRun run (D.is_text what) bytes.now r.fault
        (string_bytes r.text)) }
    ensures err { IfErr result
        (λ e. (e ≡ ScenarioFault.OutOfMemory) ⊎ IsFaultOf bytes.now e) }
{
    match run {
        Run::Own => render_steps(alloc, &what, bytes),
        Run::Seen => AsSeen { what }.render(alloc, bytes),
    }
}

// The same with own names.
fn render_named<D: RenderNamed>(alloc: Global, what: D, run: Run, bytes: &[u8]) -> Rendered
    ensures ok { IfOk result (λ r. IsNamedOfRun run (D.is_text what) bytes.now r.fault
        (string_bytes r.text)) }
    ensures err { IfErr result
        (λ e. (e ≡ ScenarioFault.OutOfMemory) ⊎ IsFaultOf bytes.now e) }
{
    match run {
        Run::Own => WithNames { what }.render(alloc, bytes),
        Run::Seen => SeenWithNames { what }.render(alloc, bytes),
    }
}

impl Render for Report<'_> {
    ghost is_rendering = { λ report bytes fault text. IsReportOf report bytes fault text };

    fn render(&self, alloc: Global, bytes: &[u8]) -> Rendered {
        match *self {
            Report::Check(check) => WholeCheck { check }.render(alloc, bytes),
            Report::Explain(selection, run) => {
                render_named(alloc, NamedLines { selection }, run, bytes)
            }
            Report::Trace(form, run) => render_named(alloc, NamedTrace { form }, run, bytes),
            Report::Chrome(run) => render_run(alloc, ChromeTrace, run, bytes),
            Report::Count => dsa_count::Totals.render(alloc, bytes),
            Report::Draw(drawing, run) => render_named(alloc, drawing, run, bytes),
            Report::Conform(inner, Written::Strict) => inner.render(alloc, bytes),
            Report::Conform(inner, Written::Friendly) => Friendly { inner }.render(alloc, bytes),
            Report::Expand => Expansion.render(alloc, bytes),
            Report::Explore(exploring) => exploring.render(alloc, bytes),
            Report::Show(showing) => showing.render(alloc, bytes),
            Report::Sample(sampling) => sampling.render(alloc, bytes),
        }
    }
}

impl Report<'_> {
    /// The form of a trace of the device's own run. It alone is written while the run is made.
    pub fn streamed(&self) -> Option<Trace>
        ensures { result ≡ streamed_form self.now }
    {
        match *self {
            Report::Trace(form, Run::Own) => Some(form),
            _ => None,
        }
    }

    /// What is written of a document that is too long. Only a check has a text of it.
    pub fn text_if_too_long(&self) -> Option<&'static str>
        ensures { option_map (λ text. text.now) result ≡ text_if_too_long self.now }
    {
        match self {
            Report::Check(check) => Some(too_long_report(check.form)),
            _ => None,
        }
    }
}
