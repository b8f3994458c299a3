//! What a document says was seen of its steps.

ghost use Rattle.std.specs.Prelude.{◌≡◌, None, codes, map, option_map, MatchOption, Some};
ghost use Rattle.serde_json.specs.View.{view};
ghost use Rattle.serde_json.specs.Find.{get, as_bool, as_str};
ghost use Rattle.dsa_conform.specs.Seen.{perhaps, seen_of, seen_as, is_seen, observation_of};
ghost use Rattle.dsa_conform.specs.Run.{AreAllRead, IsUnreadAt};

use dsa_scenario::{Action, parse_action};
use serde_json::Value;

/// What was seen of a step: the text of its answer and the zero flag after it, as far as a document
/// says so.
#[derive(Clone, Copy, Debug, PartialEq, Eq)]
pub struct Observed<'v> {
    pub answer: Option<&'v str>,
    pub zf: Option<bool>,
}

impl Observed<'_> {
    /// Whether anything was seen.
    pub fn is_seen(&self) -> bool
        ensures { result ≡ is_seen (seen_as self.now) }
    {
        self.answer.is_some() || self.zf.is_some()
    }
}

// The text at the key, where something stands there.
fn text_at<'v>(object: &'v Value, key: &str) -> Option<Option<&'v str>>
    ensures { option_map (λ found. option_map (λ text. text.now) found) result
        ≡ perhaps as_str (get key.now (view object.now)) }
{
    match object.get(key) {
        None => Some(None),
        Some(value) => Some(Some(value.as_str()?)),
    }
}

// The truth value at the key, where something stands there.
fn truth_at(object: &Value, key: &str) -> Option<Option<bool>>
    ensures { result ≡ perhaps as_bool (get key.now (view object.now)) }
{
    match object.get(key) {
        None => Some(None),
        Some(value) => Some(Some(value.as_bool()?)),
    }
}

/// What a step object says was seen: a text at `answer` and a truth value at `zf`, where these keys
/// stand there.
pub fn parse_observed(step: &Value) -> Option<Observed<'_>>
    ensures { option_map seen_as result ≡ seen_of (view step.now) }
{
    let answer = text_at(step, "answer")?;
    let zf = truth_at(step, "zf")?;
    Some(Observed { answer, zf })
}

/// What a step object asks, and what it says was seen.
pub fn parse_step(step: &Value) -> Option<(Action, Observed<'_>)>
    ensures { option_map (λ o. (o.0, seen_as o.1)) result ≡ observation_of (view step.now) }
{
    let action = parse_action(step)?;
    let observed = parse_observed(step)?;
    Some((action, observed))
}

/// The first item that is no step object with what was seen, by its number.
pub fn first_unread(steps: &[Value]) -> Option<usize>
    ensures { MatchOption result
        (AreAllRead (map view steps.now))
        (λ i. IsUnreadAt (map view steps.now) i) }
{
    for (i, step) in steps.iter().enumerate() {
        if parse_step(step).is_none() {
            return Some(i);
        }
    }
    None
}
