//! A document in, what is made of its run as it was seen out.

ghost use Rattle.std.specs.Prelude.{◌≡◌, ◌≤◌, ◌⊎◌, ℕ, List, None, IfErr, IfOk, map, length, string_bytes};
ghost use Rattle.serde_json.specs.View.{view};
ghost use Rattle.dsa_scenario.specs.Document.{HasHead, IsFaultOf};
ghost use Rattle.dsa_conform.specs.Run.{AreAllRead};
ghost use Rattle.dsa_conform.specs.AsSeen.{IsMadeAsSeen, IsReadFarthest, IsToldAsSeen};

use crate::alone::count_alone;
use crate::rendering::{TellSteps, render_told, tell_head};
use crate::retelling::{count_shown, retell};
use crate::walk::{Verdict, walk_steps};
use crate::way::{Way, queues_taken};
use dsa_scenario::{Head, Render, RenderSteps, Rendered, ScenarioFault};
use std::alloc::{AllocError, Global};

/// What is made of a run of a document that shows what was seen, as a way to make a text of it.
///
/// It is the device's own run, if that shows what was seen, and else one that a comparison follows.
/// Where no run shows what was seen of a step, it shows what was seen of those before, and goes on
/// as the device does by itself.
#[derive(Clone, Copy, Debug, Drop)]
pub struct AsSeen<D: RenderSteps> {
    /// What makes the text of the run.
    pub what: D,
}

// A device that has answered the first steps, so many, as was seen.
fn way_before(alloc: Global, head: &Head<'_>, count: usize) -> Result<Way, AllocError>
    requires inside { count ≤ length head.now.steps.now }
    requires read { AreAllRead (map view head.now.steps.now) }
{
    let before = Head {
        caps: head.caps,
        capacity: head.capacity,
        steps: &head.steps[..count],
    };
    let verdict = walk_steps(alloc, &before)?;
    verdict.way.ok_or(AllocError)
}

// The queues that it took from in turn. It is at hand where it has answered all steps.
fn choices_before(
    alloc: Global,
    head: &Head<'_>,
    count: usize,
    at_hand: Option<Way>,
) -> Result<Vec<u16>, AllocError>
    requires inside { count ≤ length head.now.steps.now }
    requires read { AreAllRead (map view head.now.steps.now) }
{
    let way = match at_hand {
        Some(way) => way,
        None => way_before(alloc, head, count)?,
    };
    queues_taken(alloc, way.device.history())
}

// How far a run goes as was seen, and the queues that it takes from in turn: by itself where none.
#[derive(Drop)]
struct Course {
    count: usize,
    choices: Vec<u16>,
}

// A run that goes as far as any, and where the device itself does so, that.
fn farthest_course(alloc: Global, head: &Head<'_>) -> Result<Course, AllocError>
    requires { AreAllRead (map view head.now.steps.now) }
    ensures { IfOk result
        (λ course. IsReadFarthest head.now.caps head.now.capacity (map view head.now.steps.now)
        course.count) }
{
    let alone = count_alone(alloc, head)?;
    if alone == head.steps.len() {
        let choices = Vec::new(alloc);
        return Ok(Course {
            count: alone,
            choices,
        });
    }
    let Verdict { fault, way, .. } = walk_steps(alloc, head)?;
    let count = count_shown(head.steps.len(), &fault);
    if alone == count {
        let choices = Vec::new(alloc);
        return Ok(Course { count, choices });
    }
    let choices = choices_before(alloc, head, count, way)?;
    Ok(Course { count, choices })
}

impl<D: RenderSteps> TellSteps for AsSeen<D> {
    ghost is_told = { λ seen. IsToldAsSeen (D.is_text seen.what) };

    ghost reads_all = { λ seen caps capacity steps i text h. h };

    fn tell(&self, alloc: Global, head: &Head<'_>) -> Result<Verdict, AllocError> {
        let course = farthest_course(alloc, head)?;
        let choices = course.choices.as_slice();
        let text = retell(alloc, &self.what, head, course.count, choices)?;
        Ok(Verdict {
            text,
            fault: None,
            way: None,
        })
    }
}

impl<D: RenderSteps> AsSeen<D> {
    /// What is made of a document of this head. It holds no value.
    pub fn render_head(&self, alloc: Global, head: &Head<'_>) -> Rendered
        ensures ok { IfOk result
            (λ r. (bytes : List ℕ)
            → HasHead bytes head.now.caps head.now.capacity (map view head.now.steps.now)
            → IsMadeAsSeen (D.is_text self.now.what) bytes r.fault (string_bytes r.text)) }
        ensures err { IfErr result
            (λ e. (bytes : List ℕ)
            → HasHead bytes head.now.caps head.now.capacity (map view head.now.steps.now)
            → (e ≡ ScenarioFault.OutOfMemory) ⊎ IsFaultOf bytes e) }
        ensures held { IfOk result (λ r. r.document ≡ None) }
    {
        tell_head(alloc, self, head)
    }
}

impl<D: RenderSteps> Render for AsSeen<D> {
    ghost is_rendering = { λ seen bytes fault text.
        IsMadeAsSeen (D.is_text seen.what) bytes fault text };

    fn render(&self, alloc: Global, bytes: &[u8]) -> Rendered {
        render_told(alloc, self, bytes)
    }
}
