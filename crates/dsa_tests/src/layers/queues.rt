//! Submissions to a store of vectors, on two queues: queue 0 is shared, of size 4 and threshold 2,
//! and queue 1 dedicated, of size 2.

ghost use Rattle.dsa_queues.specs.Queues.{IsCounted};

use crate::layers::setup::{enabled, numbers, store};
use dsa_book::{Cause, Kind, Portal, SubmitAnswer, Ticket};
use dsa_fixtures::{ENQCMD, FIRST_GROUP, MOVE, SECOND_GROUP};
use dsa_queues::Queues;
use dsa_regs::{cell_count, list_count};
use dsa_store::EntryStore;
use std::process::Abort;

// The queues of the enabled device, over an empty store.
fn enabled_over<S: EntryStore>(rt: &impl Abort, store: &S) -> Queues
    ensures { IsCounted result (S.content store.now) }
{
    assert!(rt; store.free() == store.cells());
    enabled(rt, [FIRST_GROUP, SECOND_GROUP])
}

// The move is submitted, once it is seen that a cell and a name are left.
fn submit<S: EntryStore>(
    rt: &impl Abort,
    queues: &mut Queues,
    store: &mut S,
    queue: u16,
    portal: Portal,
    kind: Kind,
) -> SubmitAnswer
    requires { IsCounted queues.old (S.content store.old) }
    ensures { IsCounted queues.new (S.content store.new) }
{
    let caps = queues.caps();
    assert!(rt; store.lists() == list_count(&caps) && store.cells() == cell_count(&caps));
    assert!(rt; store.free() > 0 && queues.next_name() < 1000);
    queues.submit(store, queue, portal, kind, MOVE)
}

// The name that was given, where the move was accepted, and else the answer.
fn name_of(answer: SubmitAnswer) -> Result<u32, SubmitAnswer> {
    match answer {
        SubmitAnswer::Accepted(Ticket { name, .. }) => Ok(name),
        other => Err(other),
    }
}

// A submission of the move, and the name that it is given or the answer that it gets.
type Row = (u16, Portal, Kind, Result<u32, SubmitAnswer>);

// The move is submitted in each way in turn.
fn submit_each<S: EntryStore>(rt: &impl Abort, queues: &mut Queues, store: &mut S, rows: &[Row])
    requires { IsCounted queues.old (S.content store.old) }
    ensures { IsCounted queues.new (S.content store.new) }
{
    for (queue, portal, kind, named) in rows {
        let answer = submit(rt, queues, store, *queue, *portal, *kind);
        claim!(rt; name_of(answer) == *named);
    }
}

// Each submission that is accepted is counted, and none that is turned away.
fn counted<S: EntryStore>(rt: &impl Abort, store: &mut S) {
    const LIMIT: SubmitAnswer = SubmitAnswer::Retry(Cause::AtLimit);
    const WRONG: SubmitAnswer = SubmitAnswer::Retry(Cause::WrongKind);
    const ROWS: [Row; 5] = [
        (0, Portal::Limited, ENQCMD, Ok(0)),
        (1, Portal::Limited, Kind::Movdir64b, Ok(1)),
        (0, Portal::Limited, ENQCMD, Ok(2)),
        (0, Portal::Limited, ENQCMD, Err(LIMIT)),
        (1, Portal::Limited, ENQCMD, Err(WRONG)),
    ];
    let mut queues = enabled_over(rt, store);
    claim!(rt; numbers(rt, &queues) == [0, 0]);
    submit_each(rt, &mut queues, store, &ROWS);
    claim!(rt; numbers(rt, &queues) == [2, 1]);
}

#[test]
fn numbers_of_accepted_submissions(rt: HostRuntime) {
    counted(&rt, &mut store(&rt, rt.alloc()));
}
