//! Which findings a question asks for.

ghost use Rattle.std.specs.Prelude.{◌≡◌, ◌==◌};
ghost use Rattle.dsa_questions.specs.Asked.{is_about_entry, is_row_asked};

use crate::question::Condition;
use dsa_book::Reply;
use dsa_explore::{Ask, Finding};

// Whether the label, or the act, has this number.
fn is_number(label: u32, number: usize) -> bool
    ensures { result ≡ (label == number) }
{
    label as usize == number
}

// Whether the condition is about the finding.
fn is_about_entry(condition: Condition, finding: &Finding) -> bool
    ensures { result ≡ is_about_entry condition finding.now }
{
    match (condition, *finding) {
        (
            Condition::Entry { label, became },
            Finding::Answer {
                ask: Ask::Submission(other),
                reply: Reply::Submit(answer),
            },
        ) => is_number(other, label) && became.is_submitted_so(answer),
        (Condition::Entry { label, became }, Finding::End { label: other, fate }) => {
            is_number(other, label) && became.is_ended_so(fate)
        }
        (
            Condition::Act { act, replied },
            Finding::Answer {
                ask: Ask::Act(other),
                reply,
            },
        ) => is_number(other, act) && replied.is_replied_so(reply),
        (
            Condition::Wait { act, label },
            Finding::Wait {
                act: other,
                label: entry,
            },
        ) => is_number(other, act) && is_number(entry, label),
        (
            Condition::Removal { act, label },
            Finding::Removal {
                act: other,
                label: entry,
            },
        ) => is_number(other, act) && is_number(entry, label),
        _ => false,
    }
}

/// Whether one of the conditions is about the finding.
pub fn is_row_asked(conditions: &[Condition], finding: &Finding) -> bool
    ensures { result ≡ is_row_asked conditions.now finding.now }
{
    conditions
        .iter()
        .any(|condition| is_about_entry(*condition, finding))
}
