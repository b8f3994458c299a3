//! A document in, a text of the run that was seen out, with own names.

ghost use Rattle.dsa_named_seen.specs.Seen.{IsNamedAsSeen};

use dsa_conform::AsSeen;
use dsa_named::{NamedRun, RenderNamed};
use dsa_scenario::{Render, Rendered, Rendering, ScenarioFault, parse_head, parse_json};
use std::alloc::Global;

/// What is made, with own names, of a run of a document that shows what was seen, as a way to make
/// a text of it.
#[derive(Clone, Copy, Debug, Drop)]
pub struct SeenWithNames<D: RenderNamed> {
    /// What makes the text of the run.
    pub what: D,
}

impl<D: RenderNamed> Render for SeenWithNames<D> {
    ghost is_rendering = { λ seen bytes fault text.
        IsNamedAsSeen (D.is_text seen.what) bytes fault text };

    fn render(&self, alloc: Global, bytes: &[u8]) -> Rendered {
        let value = parse_json(alloc, bytes)?;
        let Some(head) = parse_head(&value) else {
            return Err(ScenarioFault::BadDocument);
        };
        let what = NamedRun {
            what: &self.what,
            steps: head.steps,
        };
        let seen = AsSeen { what }.render_head(alloc, &head)?;
        Ok(Rendering {
            text: seen.text,
            fault: seen.fault,
            document: Some(value),
        })
    }
}
