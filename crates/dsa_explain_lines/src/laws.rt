//! A law of the explanations, on a function with nothing to do.

ghost use Rattle.std.specs.Prelude.{◌≡◌, ◌≢◌, ℕ, true, false, [], Ok, Err, Some};
ghost use Rattle.dsa_book.specs.declared.event.Step.{Step};
ghost use Rattle.dsa_book.specs.{Choice.{nothing}, State.{Work}, Work.{may_leave}, Machine.{Reaches, may_follow}};
ghost use Rattle.dsa_engines.specs.Dispatch.{is_offered};
ghost use Rattle.dsa_device.specs.Running.{HasPast, Running, after_answer};
ghost use Rattle.dsa_scenario.specs.declared.{actions.BadWord.{BadWord}, run.Record.TheVariants.{Stepped, Refused}};
ghost use Rattle.dsa_explain_lines.specs.{Lines.{shown}, Parts.{any_reason, part_of}, Success.{is_success}};

use dsa_admin::{commands_follow_reasons, polls_follow_reasons};
use dsa_explain::waits_follow_reasons;
use dsa_queues::{submissions_follow_reasons, writes_follow_reasons};

/// Whatever a device answers in a state that its history leads to, what was asked was done or the
/// line has a reason; so it is of each device, whatever it did before its history began anew. The
/// line of a word that is no command has a reason, too. An idle engine of which no queue has one is
/// of a group without a queue.
pub fn answers_have_reasons()
    ensures steps { (now : Running) (step : Step)
        → Reaches now.caps now.history now.state
        → may_follow now.caps now.capacity now.history step ≡ true
        → is_success step.reply ≡ false
        → shown (part_of now (Ok step.event)) (Stepped step) ≢ [] }
    ensures devices { (now after : Running) (step : Step)
        → HasPast now
        → after_answer now step.event step.reply ≡ Some after
        → is_success step.reply ≡ false
        → shown (part_of now (Ok step.event)) (Stepped step) ≢ [] }
    ensures words { (now : Running) (word : BadWord)
        → shown (part_of now (Err word)) (Refused word) ≢ [] }
    ensures no_queue { (w : Work) (engine queue : ℕ)
        → may_leave w engine nothing ≡ true
        → any_reason w engine w.setup.caps.queues ≡ false
        → is_offered w engine queue ≡ false }
{
    submissions_follow_reasons();
    writes_follow_reasons();
    commands_follow_reasons();
    polls_follow_reasons();
    waits_follow_reasons();
}
