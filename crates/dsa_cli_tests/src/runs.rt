//! One run of the program's words.

use dsa_cli::run_words;
use dsa_fixtures::streams::{ALL, Course, Narrow, Trickle};
use std::alloc::{AllocError, Global};
use std::fmt::Debug;
use std::marker::Sync;
use std::process::Abort;
use std::sync::Wait;
use std::thread::Threads;

pub type Words = &'static [&'static str];

/// A document of one step.
pub const DOCUMENT: &str = concat!(
    r#"{"caps":{"queues":1,"groups":1,"engines":1,"total_size":1,"read_buffers":4,"#,
    r#""slots":1,"max_batch_shift":1,"max_xfer_shift":0},"capacity":9,"#,
    r#""steps":[{"do":"poll"}],"parties":{}}"#,
);

/// The input, the output and the errors of a run.
#[derive(Drop)]
pub struct Streams<'b> {
    pub input: Trickle<'b>,
    pub output: Narrow,
    pub errors: Narrow,
}

impl<'b> Streams<'b> {
    /// Streams of which no call fails.
    pub fn working(alloc: Global, bytes: &'b [u8]) -> Self {
        Streams::failing(alloc, bytes, [(ALL, ALL); 3], false)
    }

    /// Streams that give or take at most so many bytes a call, and so many before a call fails.
    pub fn failing(
        alloc: Global,
        bytes: &'b [u8],
        [input, output, errors]: [(usize, usize); 3],
        fails_once: bool,
    ) -> Self {
        Streams {
            input: Trickle::new(bytes, Course::new(input, fails_once)),
            output: Narrow::new(alloc, Course::new(output, fails_once)),
            errors: Narrow::new(alloc, Course::new(errors, fails_once)),
        }
    }

    /// Runs the words over them, and gives the exit status.
    pub fn run<R: Threads + Wait + Sync + Abort>(
        &mut self,
        rt: &R,
        alloc: Global,
        words: &[&str],
    ) -> u8 {
        let words = strings(alloc, words).expect(rt, "memory for words");
        run_words(
            rt,
            alloc,
            &words,
            &mut self.input,
            &mut self.output,
            &mut self.errors,
        )
    }

    /// How often each was asked.
    pub fn calls(&self) -> [u32; 3] {
        [self.input.calls, self.output.calls, self.errors.calls]
    }
}

fn strings(alloc: Global, words: &[&str]) -> Result<Vec<String>, AllocError> {
    let mut strings = Vec::new(alloc);
    for word in words {
        strings.push(String::from_str(alloc, word)?)?;
    }
    Ok(strings)
}

/// Ends the test where the two differ.
pub fn are_same<T: PartialEq + Debug>(rt: &impl Abort, words: Words, found: &T, wanted: &T) {
    if *found != *wanted {
        panic!(rt; "{words:?}: {found:?}, and not {wanted:?}");
    }
}

/// A document is answered without an error, by so many reads, and the output begins so.
pub fn is_answered<R: Threads + Wait + Sync + Abort>(
    rt: &R,
    alloc: Global,
    words: Words,
    wanted: u32,
    beginning: &str,
) {
    let mut streams = Streams::working(alloc, DOCUMENT.as_bytes());
    let status = streams.run(rt, alloc, words);
    let [reads, _, errors] = streams.calls();
    are_same(rt, words, &(status, reads, errors), &(0, wanted, 0));
    begins(rt, words, &streams.output.taken, beginning);
}

/// Ends the test where the text does not begin so.
pub fn begins(rt: &impl Abort, words: Words, text: &[u8], beginning: &str) {
    if !text.starts_with(beginning.as_bytes()) {
        panic!(rt; "{words:?}: the text does not begin with {beginning:?}");
    }
}
