//! Steps of which some count as if nothing had been seen of them.

ghost use Rattle.std.specs.Prelude.{◌≡◌, ◌<◌, length, option_map};
ghost use Rattle.dsa_conform.specs.Seen.{seen_as};
ghost use Rattle.dsa_conform.specs.Sights.{is_marked, step_at, steps_counted};

use crate::observed::{Observed, parse_step};
use dsa_scenario::{Action, Head, parse_action};

/// The steps of a document, and marks of those of which nothing counts as seen.
///
/// A step behind the last mark is not marked.
#[derive(Clone, Copy)]
pub struct Sights<'v> {
    pub head: &'v Head<'v>,
    pub left_out: &'v [bool],
}

fn is_marked(marks: &[bool], number: usize) -> bool
    ensures { result ≡ is_marked marks.now number }
{
    marks.get(number).copied().unwrap_or(false)
}

/// What the step of this number asks, and what was seen of it, as far as that counts.
pub fn step_at<'v>(sights: &Sights<'v>, number: usize) -> Option<(Action, Observed<'v>)>
    requires { number < length sights.now.head.now.steps.now }
    ensures { option_map (λ o. (o.0, seen_as o.1)) result
        ≡ step_at (steps_counted sights.now) number }
{
    let step = &sights.head.steps[number];
    if !is_marked(sights.left_out, number) {
        return parse_step(step);
    }
    let Some(action) = parse_action(step) else {
        return None;
    };
    Some((
        action,
        Observed {
            answer: None,
            zf: None,
        },
    ))
}
