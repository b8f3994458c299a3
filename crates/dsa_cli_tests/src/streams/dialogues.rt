//! A dialogue: lines from a reader, and their answers to a writer.

use crate::streams::{READ, Row, WRITE, Way};
use dsa_fixtures::streams::ALL;

pub const DIALOGUE: &str = concat!(
    r#"{"caps":{"queues":1,"groups":1,"engines":1,"total_size":1,"read_buffers":4,"#,
    r#""slots":1,"max_batch_shift":1,"max_xfer_shift":0},"capacity":9,"steps":[{"do":"poll"}]}"#,
    "\n",
    r#"{"do":"dispatch","engine":0}"#,
    "\n",
    r#"{"do":"poll"}"#
);

// The bytes of the first line, and of the first two.
const ONE_LINE: usize = DIALOGUE.len() - 42;

const TWO_LINES: usize = DIALOGUE.len() - 13;

const ANSWERS: &str = "nothing\nready 1\nidle\nnothing\n";

#[test]
fn little_by_little(rt: HostRuntime) {
    const READS: u32 = DIALOGUE.len() as u32 + 1;
    const ROWS: [Row; 6] = [
        ((ALL, ALL), (ALL, ALL), Ok(()), ANSWERS, (2, 2)),
        ((1, ALL), (ALL, ALL), Ok(()), ANSWERS, (READS, 3)),
        ((1, ALL), (1, ALL), Ok(()), ANSWERS, (READS, 29)),
        ((ALL, 0), (ALL, 0), READ, "", (1, 0)),
        (
            (1, DIALOGUE.len()),
            (ALL, ALL),
            READ,
            "nothing\nready 1\nidle\n",
            (READS, 2),
        ),
        ((ALL, ALL), (0, ALL), WRITE, "", (1, 1)),
    ];
    Way::Dialogue.leads_each(&rt, rt.alloc(), DIALOGUE.as_bytes(), &ROWS);
}

// The error comes in the first line, after it, and after the second; or with the answer to each of
// the three.
#[test]
fn one_error(rt: HostRuntime) {
    const LATER: u32 = TWO_LINES as u32;
    const ROWS: [Row; 6] = [
        ((10, 10), (ALL, ALL), READ, "", (2, 0)),
        (
            (ONE_LINE, ONE_LINE),
            (ALL, ALL),
            READ,
            "nothing\nready 1\n",
            (2, 1),
        ),
        (
            (1, TWO_LINES),
            (ALL, ALL),
            READ,
            "nothing\nready 1\nidle\n",
            (LATER + 1, 2),
        ),
        ((ALL, ALL), (3, 6), WRITE, "nothin", (1, 3)),
        ((1, ALL), (ALL, 16), WRITE, "nothing\nready 1\n", (LATER, 2)),
        (
            (ALL, ALL),
            (ALL, 21),
            WRITE,
            "nothing\nready 1\nidle\n",
            (2, 2),
        ),
    ];
    Way::Dialogue.leads_each(&rt, rt.alloc(), DIALOGUE.as_bytes(), &ROWS);
    Way::Dialogue.leads_by_each_kind(&rt, rt.alloc(), DIALOGUE.as_bytes(), &ROWS);
}
