//! Words with which nothing is read.

use crate::runs::{DOCUMENT, Streams, Words, are_same, begins, is_answered};
use dsa_release::version_text;
use std::alloc::Global;
use std::marker::Sync;
use std::process::Abort;
use std::sync::Wait;
use std::thread::Threads;

const WRONG: [Words; 39] = [
    &["fly"],
    &[""],
    &["--json"],
    &["-x"],
    &["--", "check"],
    &["check", "extra"],
    &["check", "check"],
    &["draw", "--json"],
    &["trace", "--json", "--json"],
    &["trace", "--clients", "1"],
    &["trace", "--name", "1"],
    &["explain", "--only", "retry,idel"],
    &["explain", "--only", ""],
    &["explain", "--client=65536"],
    &["draw", "--steps", "9..3"],
    &["conform", "--wide"],
    &["explore", "--states", "0"],
    &["explore", "--key-bytes=65537"],
    &["explore", "--json", "--show", "x: accepted"],
    &["explore", "--walks=0"],
    &["explore", "--walks", "1", "--show", "x: accepted"],
    &["explore", "--walks", "1", "--shard", "2/2"],
    &["explore", "--seed", "1"],
    &["serve", "serve"],
    &["serve", "--friendly", "--friendly"],
    &["threads", "extra"],
    &["threads", "--fly", "1"],
    &["threads", "--clients"],
    &["threads", "--clients", "many"],
    &["threads", "--clients", "1", "--clients", "1"],
    &["threads", "--clients", "0"],
    &["threads", "--clients", "17"],
    &["threads", "--engines", "9"],
    &["threads", "--each", "1001"],
    &["threads", "--turns", "40001"],
    &["threads", "--size", "4"],
    &["threads", "--threshold", "17"],
    &["threads", "--buffers", "3"],
    &["help", "fly"],
];

// Each with how the output begins. The numbers of `threads` are such that each run has these
// totals.
const RIGHT: [(Words, &str); 17] = [
    (&["--help"], "Runs a model "),
    (&["-h"], "Runs a model "),
    (&["help"], "Runs a model "),
    (&["--help", "fly"], "Runs a model "),
    (&["check", "--help"], "What is wrong with "),
    (&["explain", "-h"], "Why was each step "),
    (&["trace", "--json", "--help"], "What does the device hold "),
    (&["help", "draw"], "What does the whole run "),
    (&["help", "conform"], "May a device answer "),
    (&["help", "explore"], "What may come of the parties"),
    (&["serve", "--help"], "What does the device answer "),
    (&["threads", "--help"], "Do the totals balance "),
    (&["threads", "--each", "1", "-h"], "Do the totals balance "),
    (&["-V"], "dsa_run "),
    (&["--version"], "dsa_run "),
    (
        &["threads", "--each=3", "--turns=3"],
        "accepted 6\nfetched 0\n",
    ),
    (
        &[
            "threads",
            "--clients=1",
            "--engines=1",
            "--each=1",
            "--turns=1",
        ],
        "accepted 1\nfetched 0\n",
    ),
];

fn are_refused<R: Threads + Wait + Sync + Abort>(rt: &R, alloc: Global, words: Words) {
    let mut streams = Streams::working(alloc, DOCUMENT.as_bytes());
    let status = streams.run(rt, alloc, words);
    let [reads, writes, _] = streams.calls();
    are_same(rt, words, &(status, reads, writes), &(2, 0, 0));
    begins(rt, words, &streams.errors.taken, "error: ");
}

// No number of words is told as want of memory.
#[test]
fn wrong_words(rt: HostRuntime) {
    const MANY: [&str; 400] = ["threads"; 400];
    are_refused(&rt, rt.alloc(), &MANY);
    for words in WRONG {
        are_refused(&rt, rt.alloc(), words);
    }
}

// Nor is the length of one.
#[test]
fn a_long_word(rt: HostRuntime) {
    let mut long = String::new(rt.alloc());
    for _ in 0..10_000 {
        long.push_str("fly").expect(&rt, "memory for a word");
    }
    let mut streams = Streams::working(rt.alloc(), b"");
    let status = streams.run(&rt, rt.alloc(), &[long.as_str()]);
    are_same(
        &rt,
        &["a long word"],
        &(status, streams.calls()[0]),
        &(2, 0),
    );
    begins(&rt, &["a long word"], &streams.errors.taken, "error: ");
}

#[test]
fn help_version_and_threads(rt: HostRuntime) {
    for (words, beginning) in RIGHT {
        is_answered(&rt, rt.alloc(), words, 0, beginning);
    }
}

#[test]
fn version(rt: HostRuntime) {
    let mut streams = Streams::working(rt.alloc(), b"");
    streams.run(&rt, rt.alloc(), &["--version"]);
    let mut wanted = String::from_str(rt.alloc(), "dsa_run ").expect(&rt, "memory");
    wanted.push_str(version_text()).expect(&rt, "memory");
    wanted.push('\n').expect(&rt, "memory");
    are_same(
        &rt,
        &["--version"],
        &streams.output.taken.as_slice(),
        &wanted.as_bytes(),
    );
}
