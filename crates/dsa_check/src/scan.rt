//! One walk over the bytes of a text: where it is no JSON, and where its steps are.

ghost use Rattle.std.specs.Prelude.{◌≡◌, true, is_some, IfOk};
ghost use Rattle.std.specs.Char.{is_ascii_hexdigit};
ghost use Rattle.dsa_check.specs.{Flaws.{IsWantedAfter}, Places.{AreJson, BeginJson}};

use crate::syntax::{MOST_NESTED, Wanted, example_of, is_in_text};
use dsa_scenario::{ScenarioFault, parse_json};
use std::alloc::{AllocError, Global};

/// The first place of a text where it is no JSON, and what may stand there.
#[derive(Clone, Copy)]
pub struct Flaw {
    pub at: usize,
    pub wanted: Wanted,
}

/// Where a value or a key begins, and where it has ended.
#[derive(Clone, Copy)]
pub struct Extent {
    pub begin: usize,
    pub end: usize,
}

/// Where a member of an object is.
#[derive(Clone, Copy)]
pub struct Member {
    pub key: Extent,
    pub value: Extent,
}

// An array or an object that has not ended.
#[derive(Clone, Copy)]
struct Opening {
    is_array: bool,
    // Whether it is the array `steps` of the document.
    is_steps: bool,
    at: usize,
}

/// A whole number with more digits may pass the floats of 64 bits.
const SURELY_IN_RANGE: usize = 308;

// How far a number is read.
#[derive(Clone, Copy, PartialEq, Eq)]
enum Numeral {
    Minus,
    Zero,
    Whole,
    Point,
    Fraction,
    Exponent,
    Sign,
    Power,
}

// What a byte is in the middle of.
#[derive(Clone, Copy)]
enum Mode {
    Between(Wanted),
    Word,
    Number(Numeral),
    Text,
    // After a backslash.
    Escape,
    // After `\u`, with so many digits to come.
    Digits(usize),
}

// How a number goes on with this byte.
fn numeral_after(numeral: Numeral, byte: u8) -> Option<Numeral> {
    match (numeral, byte) {
        (Numeral::Minus, b'0') => Some(Numeral::Zero),
        (Numeral::Minus | Numeral::Whole, b'0'..=b'9') => Some(Numeral::Whole),
        (Numeral::Zero | Numeral::Whole, b'.') => Some(Numeral::Point),
        (Numeral::Zero | Numeral::Whole | Numeral::Fraction, b'e' | b'E') => {
            Some(Numeral::Exponent)
        }
        (Numeral::Point | Numeral::Fraction, b'0'..=b'9') => Some(Numeral::Fraction),
        (Numeral::Exponent, b'+' | b'-') => Some(Numeral::Sign),
        (Numeral::Exponent | Numeral::Sign | Numeral::Power, b'0'..=b'9') => Some(Numeral::Power),
        _ => None,
    }
}

/// Whether these bytes are JSON.
pub fn is_json(alloc: Global, bytes: &[u8]) -> Result<bool, AllocError>
    ensures { IfOk result (λ is. is ≡ true → AreJson bytes.now) }
{
    match parse_json(alloc, bytes) {
        Ok(_) => Ok(true),
        Err(ScenarioFault::OutOfMemory) => Err(AllocError),
        Err(_) => Ok(false),
    }
}

fn hex_value(byte: u8) -> Option<u32>
    ensures { is_some result ≡ is_ascii_hexdigit byte }
{
    match byte {
        b'0'..=b'9' => Some((byte - b'0') as u32),
        b'a'..=b'f' => Some((byte - b'a') as u32 + 10),
        b'A'..=b'F' => Some((byte - b'A') as u32 + 10),
        _ => None,
    }
}

/// A walk over the bytes of a text, up to the first that may not stand where it does.
#[derive(Drop)]
pub struct Scan {
    pub flaw: Option<Flaw>,
    /// The items of the steps. Where the key `steps` is written with an escape they are not found.
    pub steps: Vec<Extent>,
    /// The members of the object that the whole text is.
    pub members: Vec<Member>,
    mode: Mode,
    open: Vec<Opening>,
    // Where the last text, word or number begins.
    start: usize,
    is_key: bool,
    // Whether the last key of the document was `steps`.
    is_steps: bool,
    // Where the last escape begins, the number that its digits have so far, and where the first
    // half of a pair begins.
    escape: usize,
    unit: u32,
    half: Option<usize>,
}

impl Scan {
    fn new(alloc: Global) -> Scan {
        Scan {
            flaw: None,
            steps: Vec::new(alloc),
            members: Vec::new(alloc),
            mode: Mode::Between(Wanted::Document),
            open: Vec::new(alloc),
            start: 0,
            is_key: false,
            is_steps: false,
            escape: 0,
            unit: 0,
            half: None,
        }
    }

    // Notes a place where something else is wanted.
    fn refuse(&mut self, at: usize, wanted: Wanted) {
        self.flaw = Some(Flaw { at, wanted });
    }

    // A text, a word or a number begins.
    fn begin(&mut self, at: usize, mode: Mode) {
        self.start = at;
        self.mode = mode;
    }

    // Whether a value is an item of the steps.
    fn is_in_steps(&self) -> bool {
        match self.open.last() {
            Some(opening) => opening.is_steps,
            None => false,
        }
    }

    // The last member of the object that the whole text is, where this is inside no other.
    fn last_member(&mut self) -> Option<&mut Member> {
        if self.open.len() == 1 {
            self.members.last_mut()
        } else {
            None
        }
    }

    // A value has ended before this place.
    fn end_value(&mut self, end: usize) {
        if let Some(member) = self.last_member() {
            member.value.end = end;
        }
        if self.is_in_steps()
            && let Some(step) = self.steps.last_mut()
        {
            step.end = end;
        }
        let wanted = match self.open.last() {
            Some(opening) => Wanted::More {
                in_array: opening.is_array,
            },
            None => Wanted::Nothing,
        };
        self.mode = Mode::Between(wanted);
    }

    // An array or an object begins. If `steps` comes twice, the last one counts.
    fn open_at(&mut self, at: usize, is_array: bool) -> Result<(), AllocError> {
        if self.open.len() >= MOST_NESTED {
            self.refuse(at, Wanted::Depth);
            return Ok(());
        }
        let is_steps = is_array && self.is_steps && self.open.len() == 1;
        if is_steps {
            self.steps.clear();
        }
        self.open.push(Opening {
            is_array,
            is_steps,
            at,
        })?;
        self.mode = Mode::Between(if is_array {
            Wanted::FirstItem
        } else {
            Wanted::FirstKey
        });
        Ok(())
    }

    fn close(&mut self, at: usize) {
        let _ = self.open.pop();
        self.end_value(at.saturating_add(1));
    }

    // The first byte of a value.
    fn value_byte(&mut self, at: usize, byte: u8, wanted: Wanted) -> Result<(), AllocError> {
        if self.is_in_steps() {
            self.steps.push(Extent { begin: at, end: at })?;
        }
        if let Some(member) = self.last_member() {
            member.value.begin = at;
        }
        match byte {
            b'[' => self.open_at(at, true)?,
            b'{' => self.open_at(at, false)?,
            b'"' => self.begin_text(at, false),
            b'-' => self.begin(at, Mode::Number(Numeral::Minus)),
            b'0' => self.begin(at, Mode::Number(Numeral::Zero)),
            b'1'..=b'9' => self.begin(at, Mode::Number(Numeral::Whole)),
            b'a'..=b'z' | b'A'..=b'Z' => self.begin(at, Mode::Word),
            _ => self.refuse(at, wanted),
        }
        Ok(())
    }

    fn begin_text(&mut self, at: usize, is_key: bool) {
        self.is_key = is_key;
        self.begin(at, Mode::Text);
    }

    // The first byte of a key.
    fn begin_key(&mut self, at: usize) -> Result<(), AllocError> {
        if self.open.len() == 1 {
            let here = Extent { begin: at, end: at };
            self.members.push(Member {
                key: here,
                value: here,
            })?;
        }
        self.begin_text(at, true);
        Ok(())
    }

    // A byte that stands in no text, word or number.
    fn plain_byte(&mut self, at: usize, byte: u8, wanted: Wanted) -> Result<(), AllocError> {
        match (wanted, byte) {
            (_, b' ' | b'\t' | b'\n' | b'\r') => {}
            (Wanted::Colon, b':') => self.mode = Mode::Between(Wanted::Value),
            (Wanted::More { in_array: true }, b',') => self.mode = Mode::Between(Wanted::Item),
            (Wanted::More { in_array: false }, b',') => self.mode = Mode::Between(Wanted::Key),
            (Wanted::More { in_array: true } | Wanted::FirstItem, b']') => self.close(at),
            (Wanted::More { in_array: false } | Wanted::FirstKey, b'}') => self.close(at),
            (Wanted::Key | Wanted::FirstKey, b'"') => self.begin_key(at)?,
            (Wanted::Document | Wanted::Value | Wanted::Item | Wanted::FirstItem, _) =>
                self.value_byte(at, byte, wanted)?,
            _ => self.refuse(at, wanted),
        }
        Ok(())
    }

    fn end_word(&mut self, word: &[u8], at: usize) {
        match word {
            b"true" | b"false" | b"null" => self.end_value(at),
            _ => self.refuse(self.start, Wanted::Word),
        }
    }

    fn end_number(
        &mut self,
        alloc: Global,
        numeral: Numeral,
        number: &[u8],
        at: usize,
        byte: u8,
    ) -> Result<(), AllocError> {
        match numeral {
            Numeral::Minus | Numeral::Point | Numeral::Exponent | Numeral::Sign => {
                self.refuse(at, Wanted::Digit);
            }
            Numeral::Zero if byte.is_ascii_digit() => self.refuse(self.start, Wanted::NoZero),
            _ => {
                let is_sure = numeral != Numeral::Power && number.len() <= SURELY_IN_RANGE;
                if is_sure || is_json(alloc, number)? {
                    self.end_value(at);
                } else {
                    self.refuse(self.start, Wanted::InRange);
                }
            }
        }
        Ok(())
    }

    // The pair whose first half has been read needs its second one here.
    fn refuse_half(&mut self) -> bool {
        match self.half {
            Some(half) => {
                self.refuse(half, Wanted::Pair);
                true
            }
            None => false,
        }
    }

    fn text_byte(&mut self, at: usize, byte: u8, begun: &[u8]) {
        if byte == b'\\' {
            self.escape = at;
            self.mode = Mode::Escape;
        } else if !self.refuse_half() {
            match byte {
                b'"' => self.end_text(at, begun),
                0..=0x1f => self.refuse(at, Wanted::Escaped),
                _ => {}
            }
        }
    }

    // The last byte of a text, which follows these.
    fn end_text(&mut self, at: usize, begun: &[u8]) {
        if self.is_key {
            if let Some(member) = self.last_member() {
                member.key.end = at.saturating_add(1);
            }
            self.is_steps = self.open.len() == 1 && begun == b"\"steps".as_slice();
            self.mode = Mode::Between(Wanted::Colon);
        } else {
            self.end_value(at.saturating_add(1));
        }
    }

    fn escape_byte(&mut self, at: usize, byte: u8) {
        if byte == b'u' {
            self.unit = 0;
            self.mode = Mode::Digits(4);
        } else if !self.refuse_half() {
            match byte {
                b'"' | b'\\' | b'/' | b'b' | b'f' | b'n' | b'r' | b't' => self.mode = Mode::Text,
                _ => self.refuse(at, Wanted::Escape),
            }
        }
    }

    // A digit after `\u`. The first two tell whether it is the second half of a pair.
    fn digit_byte(&mut self, at: usize, byte: u8, left: usize) {
        let Some(value) = hex_value(byte) else {
            if !self.refuse_half() {
                self.refuse(at, Wanted::HexDigit);
            }
            return;
        };
        self.unit = self.unit.wrapping_mul(16).wrapping_add(value);
        if left == 3 && self.half.is_none() && matches!(self.unit, 0xdc..=0xdf) {
            self.refuse(self.escape, Wanted::Pair);
        } else if left > 1 {
            self.mode = Mode::Digits(left - 1);
        } else {
            self.end_escape();
        }
    }

    // The last digit after `\u` was read.
    fn end_escape(&mut self) {
        self.mode = Mode::Text;
        if self.half.is_some() && matches!(self.unit, 0xdc00..=0xdfff) {
            self.half = None;
        } else if !self.refuse_half() && matches!(self.unit, 0xd800..=0xdbff) {
            self.half = Some(self.escape);
        }
    }

    // A byte that ends a word or a number, or stands in neither.
    fn next_byte(&mut self, at: usize, byte: u8, begun: &[u8]) -> Result<(), AllocError> {
        match self.mode {
            Mode::Between(wanted) => self.plain_byte(at, byte, wanted)?,
            Mode::Text => self.text_byte(at, byte, begun),
            Mode::Escape => self.escape_byte(at, byte),
            Mode::Digits(left) => self.digit_byte(at, byte, left),
            Mode::Word | Mode::Number(_) => {}
        }
        Ok(())
    }

    // Passes a byte, which follows these.
    fn pass(&mut self, alloc: Global, before: &[u8], byte: u8) -> Result<(), AllocError> {
        let at = before.len();
        let begun = before.get(self.start..).unwrap_or(&[]);
        match self.mode {
            Mode::Word if byte.is_ascii_alphanumeric() => return Ok(()),
            Mode::Word => self.end_word(begun, at),
            Mode::Number(numeral) => match numeral_after(numeral, byte) {
                Some(next) => {
                    self.mode = Mode::Number(next);
                    return Ok(());
                }
                None => self.end_number(alloc, numeral, begun, at, byte)?,
            },
            _ => {}
        }
        if self.flaw.is_none() {
            self.next_byte(at, byte, begun)?;
        }
        Ok(())
    }

    // What is wanted where the text ends.
    fn end(&mut self, at: usize) {
        match self.mode {
            Mode::Between(Wanted::Nothing) => {}
            Mode::Between(wanted) => self.refuse(at, wanted),
            _ => self.refuse(at, Wanted::Escaped),
        }
    }

    /// Where the text begins that has not ended, or else what was opened last.
    pub fn last_begun(&self) -> usize {
        match (self.mode, self.open.last()) {
            (Mode::Text, _) => self.start,
            (_, Some(opening)) => opening.at,
            (_, None) => 0,
        }
    }

    // Adds the digits that are to come after another one, and the second half of a pair where they
    // are the first.
    fn add_digits_left(&self, text: &mut Vec<u8>) -> Result<(), AllocError> {
        let mut unit = self.unit;
        if let Mode::Digits(left) = self.mode {
            for i in 0..left {
                if i > 0 {
                    text.push(b'0')?;
                }
                unit = unit.wrapping_mul(16);
            }
        }
        if matches!(unit, 0xd800..=0xdbff) {
            text.extend_from_slice(b"\\udc00")?;
        }
        Ok(())
    }

    // What ends all that has begun, after an example of what may stand at a flaw.
    fn ends(&self, alloc: Global, wanted: Wanted) -> Result<Vec<u8>, AllocError> {
        let mut text = Vec::new(alloc);
        if wanted == Wanted::HexDigit {
            self.add_digits_left(&mut text)?;
        }
        if matches!(wanted, Wanted::Escape | Wanted::HexDigit | Wanted::Pair) {
            text.push(b'"')?;
        }
        if self.is_key && is_in_text(wanted) {
            text.extend_from_slice(b":0")?;
        }
        for opening in self.open.iter().rev() {
            text.push(if opening.is_array { b']' } else { b'}' })?;
        }
        Ok(text)
    }

    /// Whether some JSON text begins with these bytes, which come before the flaw, and what is
    /// wanted may follow them: they are one with an example of it and an end to all that is open.
    pub fn begins_json(
        &self,
        alloc: Global,
        before: &[u8],
        wanted: Wanted,
    ) -> Result<bool, AllocError>
        ensures begun { IfOk result (λ begins. begins ≡ true → BeginJson before.now) }
        ensures wanted { IfOk result
            (λ begins. begins ≡ true → IsWantedAfter before.now wanted) }
    {
        let Some(example) = example_of(wanted) else {
            return is_json(alloc, before);
        };
        let mut text = Vec::new(alloc);
        text.extend_from_slice(before)?;
        text.extend_from_slice(example.as_bytes())?;
        text.extend_from_slice(self.ends(alloc, wanted)?.as_slice())?;
        is_json(alloc, text.as_slice())
    }
}

/// Walks over these bytes, which are UTF-8.
pub fn scan_text(alloc: Global, bytes: &[u8]) -> Result<Scan, AllocError> {
    let mut scan = Scan::new(alloc);
    for (at, byte) in bytes.iter().enumerate() {
        scan.pass(alloc, &bytes[..at], *byte)?;
        if scan.flaw.is_some() {
            return Ok(scan);
        }
    }
    // A space ends a word or a number, and changes nothing else.
    scan.pass(alloc, bytes, b' ')?;
    if scan.flaw.is_none() {
        scan.end(bytes.len());
    }
    Ok(scan)
}
