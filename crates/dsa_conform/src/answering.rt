//! Which answers a step of a kind may have.

ghost use Rattle.std.specs.Prelude.{◌≡◌, bytes_eq, option_map};
ghost use Rattle.std.specs.List.{list_any};
ghost use Rattle.dsa_conform.specs.Seen.{seen_as};
ghost use Rattle.dsa_conform.specs.Answers.{is_answer_to, is_numbered_answer, plain_answers};
ghost use Rattle.dsa_conform.specs.Against.{is_possible, is_refusal, kind_label, may_have_answer, may_report, reports_zf, text_seen};

use crate::answers::{following, is_cleared, is_counted, is_refusal_text, is_status, is_take};
use crate::observed::Observed;
use dsa_book::{Event, Kind};

/// The text of the answer that was seen, where one was.
pub fn text_seen<'v>(seen: &Observed<'v>) -> &'v str
    ensures { result.now ≡ text_seen (seen_as seen.now) }
{
    seen.answer.unwrap_or("")
}

// Whether the text is an answer without a number, but for that of a full history.
fn is_plain_answer(event: &Event, text: &str) -> bool
    ensures { result ≡ list_any (bytes_eq text.now) (plain_answers event.now) }
{
    match *event {
        Event::Submit {
            kind: Kind::Enqcmd { .. },
            ..
        } => matches!(
            text,
            "accepted" | "retry not-enabled" | "retry wrong-kind" | "retry at-limit"
        ),
        Event::Submit {
            kind: Kind::Movdir64b,
            ..
        } => matches!(
            text,
            "accepted" | "dropped not-enabled" | "dropped wrong-kind" | "dropped at-limit"
        ),
        Event::Dispatch { .. } => text == "idle",
        Event::Fetch { .. } => matches!(text, "fetched" | "no-batch" | "all-fetched"),
        Event::Start { .. } => {
            matches!(text, "started" | "fence-wait" | "no-buffers" | "nothing")
        }
        Event::Finish { .. } => matches!(text, "not-ready" | "gone"),
        Event::Issue { .. } => text == "active",
        Event::Poll => matches!(text, "finished" | "active" | "nothing"),
        Event::WriteQueue { .. } | Event::WriteGroup { .. } => text == "written",
        Event::ClearError => text == "nothing",
    }
}

// Whether the text is an answer with a number.
fn is_numbered_answer(event: &Event, text: &str) -> bool
    ensures { result ≡ is_numbered_answer event.now text.now }
{
    match *event {
        Event::Submit { .. } => is_counted("accepted ", text),
        Event::Dispatch { .. } => is_take(text),
        Event::Fetch { .. } => is_counted("fetched ", text),
        Event::Start { .. } => is_counted("started ", text) || is_counted("abandoned ", text),
        Event::Finish { .. } => is_status(following(text, "done ")),
        Event::Issue { .. } => is_counted("ended ", text) || is_refusal_text(text),
        Event::Poll => false,
        Event::WriteQueue { .. } | Event::WriteGroup { .. } => is_refusal_text(text),
        Event::ClearError => is_cleared(text),
    }
}

fn is_answer_to(event: &Event, text: &str) -> bool
    ensures { result ≡ is_answer_to event.now text.now }
{
    text == "full" || (is_plain_answer(event, text) || is_numbered_answer(event, text))
}

fn reports_zf(event: &Event) -> bool
    ensures { result ≡ reports_zf event.now }
{
    matches!(
        event,
        Event::Submit {
            kind: Kind::Enqcmd { .. },
            ..
        }
    )
}

fn may_have_answer(event: &Event, answer: Option<&str>) -> bool
    ensures { result ≡ may_have_answer event.now (option_map (λ text. text.now) answer.entry) }
{
    match answer {
        Some(text) => is_answer_to(event, text),
        None => true,
    }
}

fn may_report(event: &Event, zf: Option<bool>) -> bool
    ensures { result ≡ may_report event.now zf }
{
    zf.is_none() || reports_zf(event)
}

/// Whether a step of this kind may be answered so.
pub fn is_possible(event: &Event, seen: &Observed<'_>) -> bool
    ensures { result ≡ is_possible event.now (seen_as seen.now) }
{
    may_have_answer(event, seen.answer) && may_report(event, seen.zf)
}

/// Whether a word that is no command may be answered so.
pub fn is_refusal(seen: &Observed<'_>) -> bool
    ensures { result ≡ is_refusal (seen_as seen.now) }
{
    is_refusal_text(text_seen(seen)) && seen.zf.is_none()
}

/// The kind of the step, as documents have it.
pub fn kind_label(event: &Event) -> &'static str
    ensures { result.now ≡ kind_label event.now }
{
    match event {
        Event::Submit {
            kind: Kind::Enqcmd { .. },
            ..
        } => "enqcmd",
        Event::Submit {
            kind: Kind::Movdir64b,
            ..
        } => "movdir",
        Event::Dispatch { .. } => "dispatch",
        Event::Fetch { .. } => "fetch",
        Event::Start { .. } => "start",
        Event::Finish { .. } => "finish",
        Event::Issue { .. } => "command",
        Event::Poll => "poll",
        Event::WriteQueue { .. } => "queue",
        Event::WriteGroup { .. } => "group",
        Event::ClearError => "clear",
    }
}
