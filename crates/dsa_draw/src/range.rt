//! Which steps of a run a drawing has.

ghost use Rattle.std.specs.Prelude.{◌≡◌, ◌==◌, ◌<◌, IfSome, length, position};
ghost use Rattle.dsa_draw.specs.Ranges.{all_steps, narrow, digit_more, number_from, digits_number, bound_of, range_between, range_of_bounds, range_around, range_at, range_of_text, within, column_of, columns_of, is_in_range, moments_in, ended_before};

use crate::moment::Moment;

/// The steps from `first` on to before `end`.
#[derive(Clone, Copy, Debug, PartialEq, Eq)]
pub struct StepRange {
    pub first: u32,
    pub end: u32,
}

/// The steps that are drawn, within a run of so many.
#[derive(Clone, Copy)]
pub struct Extent {
    pub range: StepRange,
    pub last: u32,
}

// A number of 32 bits.
fn narrow(number: u64) -> Option<u32>
    ensures { result ≡ narrow number }
{
    u32::try_from(number).ok()
}

// The number with one digit more.
fn digit_more(number: u32, byte: u8) -> Option<u32>
    ensures { result ≡ digit_more number byte }
{
    if byte < b'0' || byte > b'9' {
        return None;
    }
    narrow(10 * u64::from(number) + u64::from(byte - b'0'))
}

// The number that these digits go on with.
fn number_from(number: u32, digits: &[u8]) -> Option<u32>
    ensures { result ≡ number_from number digits.now }
{
    let mut number = number;
    for byte in digits {
        number = digit_more(number, *byte)?;
    }
    Some(number)
}

/// The number of a text of digits alone. `None` where it is another text, or has no 32 bits.
pub fn digits_number(digits: &[u8]) -> Option<u32>
    ensures { result ≡ digits_number digits.now }
{
    if digits.is_empty() {
        None
    } else {
        number_from(0, digits)
    }
}

// A bound, or what stands for none.
fn bound_of(digits: &[u8], absent: u32) -> Option<u32>
    ensures { result ≡ bound_of absent digits.now }
{
    if digits.is_empty() {
        Some(absent)
    } else {
        number_from(0, digits)
    }
}

fn range_between(first: u32, last: u32) -> Option<StepRange>
    ensures { result ≡ range_between first last }
{
    if first <= last {
        Some(StepRange {
            first,
            end: last.saturating_add(1),
        })
    } else {
        None
    }
}

fn range_of_bounds(first: Option<u32>, last: Option<u32>) -> Option<StepRange>
    ensures { result ≡ range_of_bounds first last }
{
    range_between(first?, last?)
}

// What is around the first of two dots.
fn range_around(first: &[u8], rest: &[u8]) -> Option<StepRange>
    ensures { result ≡ range_around first.now rest.now }
{
    let Some((dot, last)) = rest.split_first() else {
        return None;
    };
    if *dot != b'.' {
        return None;
    }
    range_of_bounds(bound_of(first, 0), bound_of(last, u32::MAX))
}

fn place_of_dot(text: &[u8]) -> Option<usize>
    ensures place { result ≡ position (λ byte. byte == 46) text.now }
    ensures bound { IfSome result (λ place. place < length text.now) }
{
    text.iter().position(|byte| *byte == b'.')
}

impl StepRange {
    /// All steps.
    pub fn all() -> StepRange
        ensures { result ≡ all_steps }
    {
        StepRange {
            first: 0,
            end: u32::MAX,
        }
    }

    /// The range `A..B`, with both A and B, `A..` to the last step, or `..B` from the first one;
    /// `None` where the text is none of these, or A is above B.
    pub fn parse(text: &str) -> Option<StepRange>
        ensures { result ≡ range_of_text text.now }
    {
        let bytes = text.as_bytes();
        let place = place_of_dot(bytes)?;
        range_around(&bytes[..place], &bytes[place + 1..])
    }

    /// Of a run of so many steps.
    pub fn within(self, steps: u32) -> StepRange
        ensures { result ≡ within steps self }
    {
        StepRange {
            first: self.first.min(steps),
            end: self.end.min(steps),
        }
    }

    /// The column of a step; that of an earlier one is the first, and that of a later one is after
    /// the last.
    pub fn column_of(self, step: u32) -> u32
        ensures { result ≡ column_of self step }
    {
        step.min(self.end).saturating_sub(self.first)
    }

    /// Whether anything of what goes from a step on to before another is in it.
    pub fn is_within(self, begin: u32, end: u32) -> bool
        ensures { result ≡ is_in_range self begin end }
    {
        begin < self.end && self.first < end
    }
}

impl Extent {
    /// How many columns there are.
    pub fn columns(self) -> u32
        ensures { result ≡ columns_of self }
    {
        self.range.column_of(self.last)
    }
}

/// The moments of these steps.
pub fn moments_in(moments: &[Moment], range: StepRange) -> &[Moment]
    ensures { result.now ≡ moments_in range moments.now }
{
    let end = (range.end as usize).min(moments.len());
    let first = (range.first as usize).min(end);
    &moments[first..end]
}

/// How many entries had ended before them.
pub fn ended_before(moments: &[Moment], range: StepRange) -> usize
    ensures { result ≡ ended_before range moments.now }
{
    let first = range.first as usize;
    if first == 0 {
        return 0;
    }
    match moments.get(first - 1) {
        Some(moment) => moment.ended,
        None => 0,
    }
}
