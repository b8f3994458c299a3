//! Words with which all of the input is read.

use crate::runs::{Streams, Words, are_same, is_answered};
use std::alloc::Global;
use std::marker::Sync;
use std::process::Abort;
use std::sync::Wait;
use std::thread::Threads;

/// Each with how the output begins, of a document of one step.
pub const READERS: [(Words, &str); 18] = [
    (&[], "nothing\n"),
    (&["--"], "nothing\n"),
    (&["check"], ""),
    (&["explain"], "0 poll -> nothing"),
    (&["explain", "--only", "idle,nothing"], "0 poll -> nothing"),
    (&["trace"], "0 | | | | poll -> nothing"),
    (&["trace", "--json"], "{\"step\":0,"),
    (&["trace", "--wide"], "0 | "),
    (&["trace", "--chrome"], "{\"traceEvents\":"),
    (&["draw"], "<svg "),
    (&["draw", "--steps", "3.."], "<svg "),
    (&["conform"], "conforms"),
    (&["conform", "--all"], "conforms"),
    (&["explore"], "ends: all through [0]\n1 state, "),
    (
        &["explore", "--json"],
        "{\"end\":\"all through\",\"steps\":0}\n{\"states\":1,",
    ),
    (
        &["explore", "--states=1", "--key-bytes", "128"],
        "ends: all through [0]\n1 state, ",
    ),
    (&["serve"], "nothing\n"),
    (&["serve", "--friendly"], "nothing\n"),
];

// The status and the error of input that is no document.
fn is_no_document<R: Threads + Wait + Sync + Abort>(rt: &R, alloc: Global, words: Words) {
    let mut streams = Streams::working(alloc, b"{");
    let status = streams.run(rt, alloc, words);
    are_same(rt, words, &status, &1);
    are_same(
        rt,
        words,
        &streams.errors.taken.as_slice(),
        &NOT_JSON.as_bytes(),
    );
}

const NOT_JSON: &str = "dsa_run: not JSON\n";

// One read gives all of the input, and one more its end.
#[test]
fn readers(rt: HostRuntime) {
    for (words, beginning) in READERS {
        is_answered(&rt, rt.alloc(), words, 2, beginning);
        is_no_document(&rt, rt.alloc(), words);
    }
}
