//! The words of conditions, and the names of questions.

ghost use Rattle.std.specs.Prelude.{◌≡◌};
ghost use Rattle.std.specs.List.{list_all};
ghost use Rattle.dsa_named.specs.Names.{is_own_character};
ghost use Rattle.dsa_questions.specs.Words.{became_called, being_called, is_name, phase_called, replied_called};

use dsa_formulas::Being;
use dsa_parties::{Became, Replied};
use dsa_regs::Phase;

/// What becomes of an entry, by this word.
pub fn became_called(word: &str) -> Option<Became>
    ensures { result ≡ became_called word.now }
{
    match word {
        "accepted" => Some(Became::Accepted),
        "retry" => Some(Became::Retry),
        "dropped" => Some(Became::Dropped),
        "completed" => Some(Became::Completed),
        "successful" => Some(Became::Successful),
        "failed" => Some(Became::Failed),
        "aborted" => Some(Became::Aborted),
        "abandoned" => Some(Became::Abandoned),
        _ => None,
    }
}

/// What a step of an administrator is answered, by this word.
pub fn replied_called(word: &str) -> Option<Replied>
    ensures { result ≡ replied_called word.now }
{
    match word {
        "ended" => Some(Replied::Ended),
        "active" => Some(Replied::Active),
        "refused" => Some(Replied::Refused),
        "finished" => Some(Replied::Finished),
        "nothing" => Some(Replied::Nothing),
        "written" => Some(Replied::Written),
        "cleared" => Some(Replied::Cleared),
        _ => None,
    }
}

/// How an entry is held, by this word.
pub fn being_called(word: &str) -> Option<Being>
    ensures { result ≡ being_called word.now }
{
    match word {
        "held" => Some(Being::Held),
        "waiting" => Some(Being::Waiting),
        _ => None,
    }
}

/// The phase of this word.
pub fn phase_called(word: &str) -> Option<Phase>
    ensures { result ≡ phase_called word.now }
{
    match word {
        "off" => Some(Phase::Off),
        "on" => Some(Phase::On),
        "stopping" => Some(Phase::Stopping),
        _ => None,
    }
}

// Whether each character can be shown as it is.
fn has_own_characters(text: &str) -> bool
    ensures { result ≡ list_all is_own_character text.now }
{
    text.bytes().all(|byte| matches!(byte, b' '..=b'~') && byte != b'"' && byte != b'\\')
}

/// Whether the text can be shown as it is, and is neither empty nor long.
pub fn is_name(text: &str) -> bool
    ensures { result ≡ is_name text.now }
{
    0 < text.len() && text.len() <= 80 && has_own_characters(text)
}
