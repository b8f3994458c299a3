//! A document in, what is told of its steps by what was seen of them out.

ghost use Rattle.std.specs.Prelude.{◌≡◌, ◌⊎◌, ℕ, List, Option, None, Some, IfErr, IfOk, IfSome, map, string_bytes};
ghost use Rattle.serde_json.specs.{Data.{Data}, View.{view}};
ghost use Rattle.dsa_regs.specs.declared.Caps.{Caps};
ghost use Rattle.dsa_scenario.specs.Document.{HasHead, IsJson};
ghost use Rattle.dsa_scenario.specs.declared.faults.ScenarioFault.{ScenarioFault};
ghost use Rattle.dsa_scenario.specs.declared.faults.ScenarioFault.TheVariants.{BadStep};
ghost use Rattle.dsa_conform.specs.Run.{AreAllRead, IsConformance, IsOtherFault, IsToldOf};
ghost use Rattle.dsa_conform.specs.Every.{IsConformanceOf, IsVerdictOf, no_bad_step};

use crate::every::walk_every;
use crate::observed::first_unread;
use crate::walk::{Verdict, walk_steps};
use dsa_scenario::{
    Head, Render, Rendered, Rendering, ScenarioFault, check_head, parse_head, parse_json,
};
use std::alloc::{AllocError, Global};

/// A way to tell of a document's steps by what was seen of them.
pub trait TellSteps: Drop {
    // the text, and the fault that is told after it, are what this tells of these steps
    ghost is_told: { Self → Caps → ℕ → List Data → Option ScenarioFault → List ℕ → Type 0 };

    // no object is told to be no step object, since all were read
    ghost reads_all: { (what : Self) → (caps : Caps) → (capacity : ℕ) → (steps : List Data)
        → (i : ℕ) → (text : List ℕ) → ¬ is_told what caps capacity steps (Some (BadStep i)) text };

    /// What is told of the steps of a document of this head.
    fn tell(&self, alloc: Global, head: &Head<'_>) -> Result<Verdict, AllocError>
        requires { AreAllRead (map view head.now.steps.now) }
        ensures { IfOk result
            (λ verdict. is_told self.now head.now.caps head.now.capacity
            (map view head.now.steps.now) verdict.fault (string_bytes verdict.text)) };
}

/// Whether a document's steps may be answered as was seen, as a way to make a text of it.
///
/// The first step that differs is told, or all: after one, the walk goes on as if nothing had been
/// seen of it.
#[derive(Clone, Copy, Debug, PartialEq, Eq)]
pub struct Conformance {
    /// Whether all steps that differ are told.
    pub is_all: bool,
}

impl TellSteps for Conformance {
    ghost is_told = { λ conformance. IsVerdictOf conformance.is_all };

    ghost reads_all = { λ conformance. no_bad_step conformance.is_all };

    fn tell(&self, alloc: Global, head: &Head<'_>) -> Result<Verdict, AllocError> {
        if self.is_all {
            return walk_every(alloc, head);
        }
        walk_steps(alloc, head)
    }
}

impl Render for Conformance {
    ghost is_rendering = { λ conformance bytes fault text.
        IsConformanceOf conformance.is_all bytes fault text };

    fn render(&self, alloc: Global, bytes: &[u8]) -> Rendered {
        render_told(alloc, self, bytes)
    }
}

/// What `what` tells of the steps of a document of this head. It holds no value.
///
/// The first object that is no step object with what was seen is told in any case. No step is run
/// before all objects are read, and of the other faults only those of what is no document come
/// before.
pub fn tell_head<T: TellSteps>(alloc: Global, what: &T, head: &Head<'_>) -> Rendered
    ensures ok { IfOk result
        (λ r. (bytes : List ℕ)
        → HasHead bytes head.now.caps head.now.capacity (map view head.now.steps.now)
        → IsToldOf (T.is_told what.now) bytes r.fault (string_bytes r.text)) }
    ensures err { IfErr result
        (λ e. (bytes : List ℕ)
        → HasHead bytes head.now.caps head.now.capacity (map view head.now.steps.now)
        → (e ≡ ScenarioFault.OutOfMemory) ⊎ IsOtherFault bytes e) }
    ensures held { IfOk result (λ r. r.document ≡ None) }
{
    if let Some(i) = first_unread(head.steps) {
        return Ok(Rendering {
            text: String::new(alloc),
            fault: Some(ScenarioFault::BadStep(i as u64)),
            document: None,
        });
    }
    check_head(head)?;
    let verdict = what.tell(alloc, head)?;
    Ok(Rendering {
        text: verdict.text,
        fault: verdict.fault,
        document: None,
    })
}

/// What `what` tells of the steps of the document in these bytes, as [`tell_head`] does.
pub fn render_told<T: TellSteps>(alloc: Global, what: &T, bytes: &[u8]) -> Rendered
    ensures ok { IfOk result
        (λ r. IsToldOf (T.is_told what.now) bytes.now r.fault (string_bytes r.text)) }
    ensures err { IfErr result (λ e. (e ≡ ScenarioFault.OutOfMemory) ⊎ IsOtherFault bytes.now e) }
    ensures held { IfOk result (λ r. IfSome r.document (λ value. IsJson bytes.now (view value))) }
{
    let value = parse_json(alloc, bytes)?;
    let Some(head) = parse_head(&value) else {
        return Err(ScenarioFault::BadDocument);
    };
    let told = tell_head(alloc, what, &head)?;
    Ok(Rendering {
        text: told.text,
        fault: told.fault,
        document: Some(value),
    })
}

/// Whether the steps of the document in these bytes may be answered as was seen.
///
/// All of it is the work of [`render_told`].
pub fn render_conformance(alloc: Global, bytes: &[u8]) -> Rendered
    ensures ok { IfOk result (λ r. IsConformance bytes.now r.fault (string_bytes r.text)) }
    ensures err { IfErr result (λ e. (e ≡ ScenarioFault.OutOfMemory) ⊎ IsOtherFault bytes.now e) }
    ensures held { IfOk result (λ r. IfSome r.document (λ value. IsJson bytes.now (view value))) }
{
    render_told(alloc, &Conformance { is_all: false }, bytes)
}
