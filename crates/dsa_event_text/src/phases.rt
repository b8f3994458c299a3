//! Phases in words.

ghost use Rattle.std.specs.Prelude.{◌≡◌};
ghost use Rattle.dsa_event_text.specs.Text.{phase_word};

use dsa_regs::Phase;

/// The word of a phase.
pub fn phase_word(phase: Phase) -> &'static str
    ensures { result.now ≡ phase_word phase }
{
    match phase {
        Phase::Off => "off",
        Phase::On => "on",
        Phase::Stopping => "stopping",
    }
}
