//! A document from a reader, and its lines to a writer.

use crate::runs::are_same;
use crate::streams::{READ, Row, WRITE, Way};
use dsa_fixtures::streams::{ALL, Course, Narrow, Trickle};
use dsa_scenario::{ScenarioFault, run_scenario};
use std::alloc::{AllocError, Global};
use std::io::ErrorKind;
use std::process::Abort;

pub const DOCUMENT: &str =
    r#"{"caps":{"queues":2,"groups":2,"engines":2,"total_size":8,"read_buffers":16,
"slots":2,"max_batch_shift":3,"max_xfer_shift":20},"capacity":100,"steps":[
{"do":"queue","queue":0,"size":4,"threshold":2,"dedicated":false,"priority":1,"pasid":0,
"batch":3,"xfer":20},
{"do":"group","group":0,"queues":1,"engines":1,"reserved":4,"allowed":8},
{"do":"command","word":1048576},{"do":"command","word":6291456},
{"do":"enqcmd","client":0,"queue":0,"limited":true,"pasid":5,"desc":""},
{"do":"dispatch","engine":0},{"do":"finish","engine":0,"name":0,"fault":false}]}"#;

const LINES: &str =
    "written\nwritten\nended 0\nended 0\naccepted 0\ntaken 0 from 0\ndone 01\nfate 0 - completed 01\n";

// A reader that has given the last byte may still fail, in place of the end of input.
#[test]
fn little_by_little(rt: HostRuntime) {
    const READS: u32 = DOCUMENT.len() as u32 + 1;
    const WRITES: u32 = LINES.len() as u32;
    const ROWS: [Row; 10] = [
        ((ALL, ALL), (ALL, ALL), Ok(()), LINES, (2, 1)),
        ((1, ALL), (ALL, ALL), Ok(()), LINES, (READS, 1)),
        ((ALL, 10), (ALL, ALL), READ, "", (2, 0)),
        ((1, 10), (ALL, ALL), READ, "", (11, 0)),
        ((1, DOCUMENT.len()), (ALL, ALL), READ, "", (READS, 0)),
        ((ALL, 0), (ALL, 0), READ, "", (1, 0)),
        ((ALL, ALL), (1, ALL), Ok(()), LINES, (2, WRITES)),
        ((ALL, ALL), (ALL, 5), WRITE, "writt", (2, 2)),
        ((1, ALL), (1, 5), WRITE, "writt", (READS, 6)),
        ((ALL, ALL), (0, ALL), WRITE, "", (2, 1)),
    ];
    Way::Document.leads_each(&rt, rt.alloc(), DOCUMENT.as_bytes(), &ROWS);
}

// The reader's second call fails, or the writer's third.
#[test]
fn one_error(rt: HostRuntime) {
    const ROWS: [Row; 2] = [
        ((10, 10), (10, ALL), READ, "", (2, 0)),
        (
            (ALL, ALL),
            (10, 20),
            WRITE,
            "written\nwritten\nende",
            (2, 3),
        ),
    ];
    Way::Document.leads_each(&rt, rt.alloc(), DOCUMENT.as_bytes(), &ROWS);
    Way::Document.leads_by_each_kind(&rt, rt.alloc(), DOCUMENT.as_bytes(), &ROWS);
}

// A reader of one byte a call is asked once for each byte up to the first that is too many.
#[test]
fn too_long(rt: HostRuntime) {
    const TOO_LONG: Result<(), ScenarioFault> = Err(ScenarioFault::TooLong);
    const ROW: Row = ((1, ALL), (ALL, ALL), TOO_LONG, "", (1_048_577, 0));
    let spaces = spaces(&rt, rt.alloc(), 1_048_600);
    let works = (false, ErrorKind::Other);
    Way::Document.leads(&rt, rt.alloc(), &spaces, (0, &ROW), works);
}

fn spaces(rt: &impl Abort, alloc: Global, count: usize) -> Vec<u8> {
    Vec::from_elem(alloc, b' ', count).expect(rt, "memory for spaces")
}

// A document of so many polls, on the smallest device.
fn polls(alloc: Global, count: usize) -> Result<Vec<u8>, AllocError> {
    let mut bytes = Vec::new(alloc);
    bytes.extend_from_slice(HEAD.as_bytes())?;
    for i in 0..count {
        if i > 0 {
            bytes.push(b',')?;
        }
        bytes.extend_from_slice(b"{\"do\":\"poll\"}")?;
    }
    bytes.extend_from_slice(b"]}")?;
    Ok(bytes)
}

const HEAD: &str = concat!(
    r#"{"caps":{"queues":1,"groups":1,"engines":1,"total_size":1,"read_buffers":4,"#,
    r#""slots":1,"max_batch_shift":1,"max_xfer_shift":0},"capacity":9,"steps":["#,
);

// How long the line of a poll is, with its line feed.
const LINE: usize = 8;

// What so many polls come to: the result, how many bytes were written, and how often the writer was
// asked, which fails once after so many bytes.
fn written(
    rt: &impl Abort,
    alloc: Global,
    count: usize,
    taken: usize,
) -> (Result<(), ScenarioFault>, usize, u32) {
    let bytes = polls(alloc, count).expect(rt, "memory for polls");
    let mut reader = Trickle::new(&bytes, Course::new((ALL, ALL), false));
    let mut writer = Narrow::new(alloc, Course::new((ALL, taken), true));
    let result = run_scenario(alloc, &mut reader, &mut writer);
    (result, writer.taken.len(), writer.calls)
}

// A text of each length is written at once.
#[test]
fn each_length(rt: HostRuntime) {
    for count in 1..1_200 {
        let found = written(&rt, rt.alloc(), count, ALL);
        are_same(
            &rt,
            &[],
            &(count, found),
            &(count, (Ok(()), count * LINE, 1)),
        );
    }
}

// Of a long text too, nothing is written after a call that fails.
#[test]
fn a_long_text(rt: HostRuntime) {
    for taken in [1, 4_096, 100_000] {
        are_same(
            &rt,
            &[],
            &written(&rt, rt.alloc(), 20_000, taken),
            &(WRITE, taken, 2),
        );
    }
    are_same(
        &rt,
        &[],
        &written(&rt, rt.alloc(), 20_000, 0),
        &(WRITE, 0, 1),
    );
}
