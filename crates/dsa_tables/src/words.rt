//! Findings in words.

ghost use Rattle.std.specs.Prelude.{◌≡◌, ◌<◌, ◌++◌, false, map, string_bytes};
ghost use Rattle.std.specs.Fmt.{digit_glyph};
ghost use Rattle.dsa_event_text.specs.Added.{Adds};
ghost use Rattle.dsa_scenario.specs.Lines.{fate_text, two_digits};
ghost use Rattle.dsa_tables.specs.Words.{deed_words, finding_words, label_name, row_words, told_answer, what_words};

use dsa_book::{Event, Fate, Reply, Step, SubmitAnswer};
use dsa_event_text::{Added, add_number};
use dsa_explore::{Finding, Found};
use dsa_scenario::{Record, add_answer};
use itoa::Buffer;

/// Adds the name of a label or of an act, or its number where it has no name.
pub fn add_name(text: &mut String, names: &[String], number: usize) -> Added
    ensures { Adds result text.old text.new (label_name (map string_bytes names.now) number) }
{
    match names.get(number) {
        Some(name) => text.push_str(name.as_str()),
        None => {
            let mut buffer = Buffer::new();
            text.push_str(buffer.format(number))
        }
    }
}

/// Adds the name of a label.
pub fn add_label(text: &mut String, labels: &[String], label: u32) -> Added
    ensures { Adds result text.old text.new (label_name (map string_bytes labels.now) label) }
{
    add_name(text, labels, label as usize)
}

// An answer; a label stands for the name that it gives.
fn add_told_answer(text: &mut String, reply: Reply) -> Added
    ensures { Adds result text.old text.new (told_answer reply) }
{
    match reply {
        Reply::Submit(SubmitAnswer::Accepted(_)) => text.push_str("accepted"),
        _ => {
            let event = Event::Poll;
            add_answer(text, &Record::Stepped(Step { event, reply }))
        }
    }
}

fn hex_digit(n: u8) -> char
    requires { n < 16 }
    ensures { result ≡ digit_glyph false n }
{
    char::from(if n < 10 { b'0' + n } else { b'a' + (n - 10) })
}

// A word, and a status as two digits.
fn add_status(text: &mut String, word: &str, status: u8) -> Added
    ensures { Adds result text.old text.new (word.now ++ two_digits status) }
{
    text.push_str(word)?;
    text.push(hex_digit(status / 16))?;
    text.push(hex_digit(status % 16))
}

fn add_fate(text: &mut String, fate: Fate) -> Added
    ensures { Adds result text.old text.new (fate_text fate) }
{
    match fate {
        Fate::Completed(status) => add_status(text, "completed ", status),
        Fate::Aborted(command) => add_number(text, "aborted ", u32::from(command)),
        Fate::Abandoned => text.push_str("abandoned"),
    }
}

// Adds the words of a finding.
fn add_finding(text: &mut String, labels: &[String], finding: &Finding) -> Added
    ensures { Adds result text.old text.new
        (finding_words (map string_bytes labels.now) finding.now) }
{
    match *finding {
        Finding::Answer { reply, .. } => add_told_answer(text, reply),
        Finding::End { fate, .. } => add_fate(text, fate),
        Finding::Wait { label, .. } => add_label(text, labels, label),
        Finding::Removal { label, .. } => add_label(text, labels, label),
    }
}

// What the act does to the entry of the finding.
fn deed_words(finding: &Finding) -> &'static str
    ensures { result.now ≡ deed_words finding.now }
{
    match *finding {
        Finding::Answer { .. } | Finding::End { .. } => "",
        Finding::Wait { .. } => "waits for ",
        Finding::Removal { .. } => "removes ",
    }
}

/// Adds all that is said of the entry or the act that the finding is about.
pub fn add_what(text: &mut String, labels: &[String], finding: &Finding) -> Added
    ensures { Adds result text.old text.new
        (what_words (map string_bytes labels.now) finding.now) }
{
    text.push_str(deed_words(finding))?;
    add_finding(text, labels, finding)
}

/// Adds a mark, a finding, and with how many steps it may come.
pub fn add_row(text: &mut String, labels: &[String], mark: &str, row: &Found) -> Added
    ensures { Adds result text.old text.new
        (mark.now ++ row_words (map string_bytes labels.now) row.now) }
{
    text.push_str(mark)?;
    add_finding(text, labels, &row.finding)?;
    add_number(text, " [", row.steps)?;
    text.push_str("]")
}
