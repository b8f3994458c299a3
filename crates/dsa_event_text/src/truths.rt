//! Truth values in words.

ghost use Rattle.std.specs.Prelude.{◌≡◌};
ghost use Rattle.dsa_event_text.specs.Text.{truth_text};

/// The word of a truth value.
pub fn truth_text(truth: bool) -> &'static str
    ensures { result.now ≡ truth_text truth }
{
    if truth { "true" } else { "false" }
}
