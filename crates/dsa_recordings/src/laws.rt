//! Laws of documents, as functions with nothing to do.

ghost use Rattle.std.specs.Prelude.{◌≡◌, ◌<◌, ◌^◌, Some, codes, map, string_bytes};
ghost use Rattle.dsa_scenario.specs.Actions.{action_of};
ghost use Rattle.dsa_scenario.specs.Document.{IsDocument};
ghost use Rattle.dsa_scenario.specs.Fields.{text_of};
ghost use Rattle.dsa_scenario.specs.Lines.{reply_text};
ghost use Rattle.dsa_recordings.specs.Reading.{AreAskable, FitsCaps, IsAskable, action_of_step, step_object};
ghost use Rattle.dsa_recordings.specs.Recordings.{recording_text};

use dsa_book::Step;
use dsa_regs::Caps;

/// A step object asks for the event of its step, and has its answer.
pub fn steps_read(step: &Step)
    ensures asks { IsAskable step.now
        → action_of (step_object step.now) ≡ Some (action_of_step step.now) }
    ensures answer { text_of (codes "answer") (step_object step.now)
        ≡ Some (reply_text step.now.reply) }
{}

/// The document of a run is read as its capabilities, its capacity, and the actions that ask for
/// its events. That capabilities and steps fit is shown by [`caps_fit`](crate::fits::caps_fit) and
/// [`steps_fit`](crate::fits::steps_fit).
pub fn documents_read(document: &String, caps: &Caps, capacity: u64, steps: &[Step])
    ensures { string_bytes document.now ≡ recording_text caps.now capacity steps.now
        → FitsCaps caps.now → capacity < 2 ^ 64 → AreAskable steps.now
        → IsDocument (string_bytes document.now) caps.now capacity
        (map action_of_step steps.now) }
{}
