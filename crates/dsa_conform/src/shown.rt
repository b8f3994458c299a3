//! Which answers show what was seen.

ghost use Rattle.std.specs.Prelude.{◌≡◌, ◌++◌, OnOk, IfOk, bytes_eq, option_map, string_bytes};
ghost use Rattle.dsa_scenario.specs.Lines.{record_text};
ghost use Rattle.dsa_conform.specs.Seen.{seen_as, nameless_reply, nameless_text, answer_shown, zf_of, zf_shown, shows};

use crate::observed::Observed;
use dsa_book::{DispatchAnswer, Event, FetchAnswer, Reply, StartAnswer, SubmitAnswer};
use dsa_event_text::add_number;
use dsa_scenario::{Record, add_answer};
use std::alloc::{AllocError, Global};

// Adds the answer without the name that it gives or tells.
fn add_nameless(text: &mut String, entry: &Record) -> Result<(), AllocError>
    ensures { OnOk result
        (string_bytes text.new ≡ string_bytes text.old ++ nameless_text entry.now) }
{
    let Record::Stepped(step) = entry else {
        return add_answer(text, entry);
    };
    match step.reply {
        Reply::Submit(SubmitAnswer::Accepted(_)) => text.push_str("accepted"),
        Reply::Dispatch(DispatchAnswer::Taken { queue, .. }) => {
            add_number(text, "taken from ", u32::from(queue))
        }
        Reply::Fetch(FetchAnswer::Fetched(_)) => text.push_str("fetched"),
        Reply::Start(StartAnswer::Started(_)) => text.push_str("started"),
        _ => add_answer(text, entry),
    }
}

// Whether the text is the line of the answer.
fn is_line(alloc: Global, answer: &str, entry: &Record) -> Result<bool, AllocError>
    ensures { IfOk result (λ same. same ≡ bytes_eq answer.now (record_text entry.now)) }
{
    let mut text = String::new(alloc);
    add_answer(&mut text, entry)?;
    Ok(answer == text.as_str())
}

// Whether the text is the line of the answer without its name.
fn is_nameless_line(alloc: Global, answer: &str, entry: &Record) -> Result<bool, AllocError>
    ensures { IfOk result (λ same. same ≡ bytes_eq answer.now (nameless_text entry.now)) }
{
    let mut text = String::new(alloc);
    add_nameless(&mut text, entry)?;
    Ok(answer == text.as_str())
}

fn answer_shown(alloc: Global, answer: Option<&str>, entry: &Record) -> Result<bool, AllocError>
    ensures { IfOk result
        (λ shown. shown ≡ answer_shown (option_map (λ text. text.now) answer.entry) entry.now) }
{
    let Some(answer) = answer else {
        return Ok(true);
    };
    if is_line(alloc, answer, entry)? {
        return Ok(true);
    }
    is_nameless_line(alloc, answer, entry)
}

fn zf_of(entry: &Record) -> Option<bool>
    ensures { result ≡ zf_of entry.now }
{
    let Record::Stepped(step) = entry else {
        return None;
    };
    match (step.event, step.reply) {
        (Event::Submit { kind, .. }, Reply::Submit(answer)) => answer.zf(kind),
        _ => None,
    }
}

fn zf_shown(zf: Option<bool>, entry: &Record) -> bool
    ensures { result ≡ zf_shown zf entry.now }
{
    match (zf, zf_of(entry)) {
        (None, _) => true,
        (Some(_), None) => false,
        (Some(seen), Some(told)) => seen == told,
    }
}

/// Whether the answer shows what was seen of it.
pub fn is_shown(alloc: Global, seen: &Observed<'_>, entry: &Record) -> Result<bool, AllocError>
    ensures { IfOk result (λ shown. shown ≡ shows (seen_as seen.now) entry.now) }
{
    if !answer_shown(alloc, seen.answer, entry)? {
        return Ok(false);
    }
    Ok(zf_shown(seen.zf, entry))
}
