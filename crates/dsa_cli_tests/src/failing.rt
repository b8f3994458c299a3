//! Streams of which a call fails. It is the last call to that stream, also where a further one
//! would work.

use crate::reading::READERS;
use crate::runs::{DOCUMENT, Streams, Words, are_same};
use dsa_cli::ThreadsFault;
use dsa_fixtures::streams::{ALL, Course, Narrow};
use dsa_scenario::{ScenarioFault, WatchedWriter};
use std::alloc::Global;
use std::io::Write;
use std::marker::Sync;
use std::process::Abort;
use std::sync::Wait;
use std::thread::Threads;

const WORKS: (usize, usize) = (ALL, ALL);

const READ_FAILED: &str = "dsa_run: read failed\n";

const WRITE_FAILED: &str = "dsa_run: write failed\n";

// What a run is to leave: the status, how often the input and the output were asked, and the
// errors.
type Left = (u8, u32, u32, &'static str);

// The words lead to this, where all calls fail after the first that does, and where it alone fails.
fn leads<R: Threads + Wait + Sync + Abort>(
    rt: &R,
    alloc: Global,
    words: Words,
    courses: [(usize, usize); 3],
    left: Left,
) {
    for fails_once in [false, true] {
        let mut streams = Streams::failing(alloc, DOCUMENT.as_bytes(), courses, fails_once);
        let status = streams.run(rt, alloc, words);
        let [reads, writes, _] = streams.calls();
        let (wanted, wanted_reads, wanted_writes, errors) = left;
        are_same(
            rt,
            words,
            &(status, reads, writes),
            &(wanted, wanted_reads, wanted_writes),
        );
        are_same(
            rt,
            words,
            &streams.errors.taken.as_slice(),
            &errors.as_bytes(),
        );
    }
}

// The second read fails, after ten bytes.
#[test]
fn input(rt: HostRuntime) {
    for (words, _) in READERS {
        let courses = [(10, 10), WORKS, WORKS];
        leads(&rt, rt.alloc(), words, courses, (1, 2, 0, READ_FAILED));
    }
}

// The second write fails, after five bytes. A check of the document writes nothing.
#[test]
fn output(rt: HostRuntime) {
    for (words, beginning) in READERS {
        if beginning.is_empty() {
            continue;
        }
        let courses = [WORKS, (ALL, 5), WORKS];
        leads(&rt, rt.alloc(), words, courses, (1, 2, 2, WRITE_FAILED));
    }
}

const UNREAD: [Words; 6] = [
    &["--help"],
    &["check", "--help"],
    &["help", "serve"],
    &["--version"],
    &["-V"],
    &["threads", "--each=1", "--turns=1"],
];

#[test]
fn output_without_input(rt: HostRuntime) {
    for words in UNREAD {
        let courses = [WORKS, (ALL, 0), WORKS];
        leads(&rt, rt.alloc(), words, courses, (1, 0, 1, WRITE_FAILED));
    }
}

// The words, the status, and how often the input is asked.
const TOLD: [(Words, u8, u32); 8] = [
    (&[], 1, 1),
    (&["draw"], 1, 1),
    (&["serve"], 1, 1),
    (&["fly"], 2, 0),
    (&["threads", "--turns=0"], 2, 0),
    (&["threads", "--threshold=17"], 2, 0),
    (&["explain", "--only=idel"], 2, 0),
    (&["draw", "--steps=3"], 2, 0),
];

// No more of a fault's line, or of what is said of the words, is tried after so many bytes of it.
fn are_told_once<R: Threads + Wait + Sync + Abort>(rt: &R, alloc: Global, taken: usize) {
    for (words, wanted, reads) in TOLD {
        let courses = [(ALL, 0), WORKS, (ALL, taken)];
        let mut streams = Streams::failing(alloc, b"", courses, true);
        let status = streams.run(rt, alloc, words);
        let calls = 1 + u32::from(taken > 0);
        are_same(
            rt,
            words,
            &(status, streams.calls()),
            &(wanted, [reads, 0, calls]),
        );
        are_same(rt, words, &streams.errors.taken.len(), &taken);
    }
}

#[test]
fn errors(rt: HostRuntime) {
    are_told_once(&rt, rt.alloc(), 0);
    are_told_once(&rt, rt.alloc(), 4);
}

// What is printed to a writer that is watched, and the line of a fault.
#[test]
fn printed(rt: HostRuntime) {
    let mut narrow = Narrow::new(rt.alloc(), Course::new((ALL, 0), true));
    let printed = WatchedWriter::new(&mut narrow).print("some text");
    are_same(&rt, &[], &(printed.is_err(), narrow.calls), &(true, 1));
    let mut narrow = Narrow::new(rt.alloc(), Course::new((ALL, 3), true));
    let printed = WatchedWriter::new(&mut narrow).print("some text");
    are_same(&rt, &[], &(printed.is_err(), narrow.calls), &(true, 2));
    let mut narrow = Narrow::new(rt.alloc(), Course::new((ALL, 0), true));
    let status = dsa_cli::tell(&mut narrow, &ScenarioFault::OutOfMemory);
    are_same(&rt, &[], &(status, narrow.calls), &(1, 1));
}

const FAULTS: [(ThreadsFault, &str); 3] = [
    (ThreadsFault::SettleRefused, "dsa_run: settle refused\n"),
    (ThreadsFault::Write, WRITE_FAILED),
    (ThreadsFault::OutOfMemory, "dsa_run: out of memory\n"),
];

// The line of each fault of the workers, also of the one that no words lead to.
#[test]
fn faults_of_threads(rt: HostRuntime) {
    for (fault, line) in FAULTS {
        let mut narrow = Narrow::new(rt.alloc(), Course::new(WORKS, false));
        let status = dsa_cli::tell(&mut narrow, &fault);
        are_same(&rt, &[], &status, &1);
        are_same(&rt, &[], &narrow.taken.as_slice(), &line.as_bytes());
    }
}

// What comes after a write that was refused is handed on too.
#[test]
fn written_after_a_refusal(rt: HostRuntime) {
    let mut narrow = Narrow::new(rt.alloc(), Course::new((ALL, 0), true));
    let mut writer = WatchedWriter::new(&mut narrow);
    let refused = writer.write(b"some text").is_err();
    let taken = writer.write(b"text").ok();
    are_same(&rt, &[], &(refused, taken), &(true, Some(4)));
    are_same(&rt, &[], &narrow.taken.as_slice(), &"text".as_bytes());
}

// A flush of a writer that is watched is handed on, and so is its error.
#[test]
fn flushed(rt: HostRuntime) {
    for (left, fails) in [(ALL, false), (0, true)] {
        let mut narrow = Narrow::new(rt.alloc(), Course::new((ALL, left), true));
        let flushed = WatchedWriter::new(&mut narrow).flush();
        are_same(&rt, &[], &(flushed.is_err(), narrow.calls), &(fails, 1));
    }
}
