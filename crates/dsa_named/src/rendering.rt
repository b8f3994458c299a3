//! A document in, a text of its run that shows own names out.

ghost use Rattle.std.specs.Prelude.{◌≡◌, ◌⊎◌, ℕ, List, None, IfErr, IfOk, map, string_bytes};
ghost use Rattle.serde_json.specs.View.{view};
ghost use Rattle.dsa_scenario.specs.{Document.{HasHead, IsFaultOf}, Steps.{IsTextOfDocument}};
ghost use Rattle.dsa_named.specs.Steps.{IsNamedText};

use crate::steps::{NamedRun, RenderNamed};
use dsa_cells::LinkedStore;
use dsa_scenario::{
    Head, Render, RenderSteps, Rendered, Rendering, Run, ScenarioFault, open_run, parse_head,
    parse_json,
};
use std::alloc::Global;

/// What makes a text of a document's run that shows own names, as a way to make a text of it.
#[derive(Clone, Copy, Debug, Drop)]
pub struct WithNames<D: RenderNamed> {
    /// What makes the text of the run.
    pub what: D,
}

// What `what` makes of a run of a document of this head.
fn render_head<D: RenderSteps>(
    alloc: Global,
    what: &D,
    head: &Head<'_>,
) -> Result<String, ScenarioFault>
    ensures ok { IfOk result
        (λ text. (bytes : List ℕ)
        → HasHead bytes head.now.caps head.now.capacity (map view head.now.steps.now)
        → IsTextOfDocument (D.is_text what.now) bytes (string_bytes text)) }
    ensures err { IfErr result
        (λ e. (bytes : List ℕ)
        → HasHead bytes head.now.caps head.now.capacity (map view head.now.steps.now)
        → (e ≡ ScenarioFault.OutOfMemory) ⊎ IsFaultOf bytes e) }
{
    let mut run: Run<LinkedStore> = open_run(alloc, head)?;
    let mut page = what.open(alloc);
    run.walk(alloc, what, &mut page, head.steps)?;
    let text = what.finish(alloc, page, &run.device)?;
    Ok(text)
}

impl<D: RenderNamed> Render for WithNames<D> {
    ghost is_rendering = { λ with bytes fault text. (fault ≡ None)
        × IsNamedText (D.is_text with.what) bytes text };

    fn render(&self, alloc: Global, bytes: &[u8]) -> Rendered {
        let value = parse_json(alloc, bytes)?;
        let Some(head) = parse_head(&value) else {
            return Err(ScenarioFault::BadDocument);
        };
        let named = NamedRun {
            what: &self.what,
            steps: head.steps,
        };
        let text = render_head(alloc, &named, &head)?;
        Ok(Rendering {
            text,
            fault: None,
            document: Some(value),
        })
    }
}
