//! Which texts have the form of an answer.

ghost use Rattle.std.specs.Prelude.{◌≡◌, bytes_eq};
ghost use Rattle.std.specs.Char.{is_ascii_digit};
ghost use Rattle.std.specs.List.{list_all};
ghost use Rattle.dsa_scenario.specs.Lines.{refusal_text};
ghost use Rattle.dsa_conform.specs.Answers.{following, is_cleared, is_counted, is_error, is_error_of_queue, is_named_source, is_number, is_refusal_text, is_status, is_status_digit, is_take, leading_word};

use dsa_regs::Fault;
use itoa::Buffer;

/// What comes before the first blank.
pub fn leading_word(text: &str) -> &str
    ensures { result.now ≡ leading_word text.now }
{
    match text.split_once(' ') {
        Some((word, _rest)) => word,
        None => text,
    }
}

/// What follows this beginning; nothing, where the text begins otherwise.
pub fn following<'t>(text: &'t str, beginning: &str) -> &'t str
    ensures { result.now ≡ following text.now beginning.now }
{
    match text.strip_prefix(beginning) {
        Some(rest) => rest,
        None => "",
    }
}

fn has_digits_alone(text: &str) -> bool
    ensures { result ≡ list_all is_ascii_digit text.now }
{
    text.bytes().all(|byte| byte.is_ascii_digit())
}

// 0, or digits of which the first is not 0.
fn is_number(text: &str) -> bool
    ensures { result ≡ is_number text.now }
{
    text == "0" || (has_digits_alone(text) && !text.is_empty() && !text.starts_with("0"))
}

fn has_status_digits_alone(text: &str) -> bool
    ensures { result ≡ list_all is_status_digit text.now }
{
    text.bytes()
        .all(|byte| matches!(byte, b'0'..=b'9' | b'a'..=b'f'))
}

/// Whether the text is two lower case hexadecimal digits.
pub fn is_status(text: &str) -> bool
    ensures { result ≡ is_status text.now }
{
    text.len() == 2 && has_status_digits_alone(text)
}

/// Whether the text is this beginning and a number.
pub fn is_counted(beginning: &str, text: &str) -> bool
    ensures { result ≡ is_counted beginning.now text.now }
{
    is_number(following(text, beginning))
}

// A number, ` from `, and a number.
fn is_named_source(text: &str) -> bool
    ensures { result ≡ is_named_source text.now }
{
    let name = leading_word(text);
    is_number(name) && is_counted(" from ", following(text, name))
}

/// Whether the text is that of an entry that was taken, with or without its name.
pub fn is_take(text: &str) -> bool
    ensures { result ≡ is_take text.now }
{
    is_counted("taken from ", text) || is_named_source(following(text, "taken "))
}

// The cause of an error, and whether more errors came.
fn is_error(text: &str) -> bool
    ensures { result ≡ is_error text.now }
{
    matches!(
        text,
        " at-limit"
            | " at-limit overflow"
            | " not-enabled"
            | " not-enabled overflow"
            | " wrong-kind"
            | " wrong-kind overflow"
    )
}

// A number, and an error.
fn is_error_of_queue(text: &str) -> bool
    ensures { result ≡ is_error_of_queue text.now }
{
    let queue = leading_word(text);
    is_number(queue) && is_error(following(text, queue))
}

/// Whether the text is that of an error that was cleared.
pub fn is_cleared(text: &str) -> bool
    ensures { result ≡ is_cleared text.now }
{
    is_error_of_queue(following(text, "cleared "))
}

const FAULTS: [Fault; 20] = [
    Fault::SizesTooLarge,
    Fault::TwoGroups,
    Fault::ReservedTooMany,
    Fault::AllowedOutOfRange,
    Fault::GroupWithoutEngine,
    Fault::GroupWithoutQueue,
    Fault::SizeZero,
    Fault::PriorityZero,
    Fault::ThresholdZero,
    Fault::ThresholdAboveSize,
    Fault::BatchTooLarge,
    Fault::NoGroup,
    Fault::BadCommand,
    Fault::BadQueue,
    Fault::Locked,
    Fault::WrongState,
    Fault::Busy,
    Fault::PriorityTooLarge,
    Fault::TransferTooLarge,
    Fault::BadIndex,
];

fn is_refusal_by(text: &str, fault: Fault) -> bool
    ensures { result ≡ bytes_eq text.now (refusal_text fault) }
{
    let mut buffer = Buffer::new();
    let number = buffer.format(u32::from(fault.number()));
    let name = following(following(following(text, "refused "), number), " ");
    name == fault.name()
}

/// Whether the text is that of a refusal.
pub fn is_refusal_text(text: &str) -> bool
    ensures { result ≡ is_refusal_text text.now }
{
    FAULTS.iter().any(|fault| is_refusal_by(text, *fault))
}
