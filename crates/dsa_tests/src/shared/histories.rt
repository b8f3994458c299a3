//! Worked histories: each step by its seat with its answer, the fates, and what settling adds up.

use crate::shared::playing::Play;
use crate::shared::steps::{
    accepted, begun, cleared, dispatched, done, ended, fetched, finished, group_written, issued,
    limited, member, polled, queue_written, row, sent, started, taken, ticket, totals, unlimited,
    writes, written_to,
};
use crate::shared::stores::{Trial, over_both_stores};
use dsa_book::{
    Cause, ClearAnswer, DispatchAnswer, Fate, FateRow, FetchAnswer, FinishAnswer, IssueAnswer,
    Kind, NotedError, PollAnswer, Reply, StartAnswer, Step, SubmitAnswer, Ticket, WriteAnswer,
};
use dsa_desc::Outcome;
use dsa_fixtures::{
    DRAIN, ENQCMD, FENCED_MOVE, FENCED_NO_OP, FIRST_GROUP, FIRST_QUEUE, LARGE_MOVE, MOVE, NO_OP,
    SHARED_QUEUE, batch_of,
};
use dsa_regs::{Command, Fault};
use dsa_shared::Totals;
use dsa_store::Cell;
use std::alloc::Global;
use std::marker::Sync;
use std::process::Abort;
use std::sync::Wait;
use std::thread::Threads;
use std::time::Clock;

const COMPLETED: Fate = Fate::Completed(0x01);

const RETRY_AT_LIMIT: SubmitAnswer = SubmitAnswer::Retry(Cause::AtLimit);

const DROPPED_AT_LIMIT: SubmitAnswer = SubmitAnswer::Dropped(Cause::AtLimit);

// Enables the device, and then makes the steps. The history has room for so many.
fn play_within<R: Threads + Wait + Clock + Abort + Sync>(
    rt: &R,
    alloc: Global,
    capacity: u64,
    steps: &[Step],
    fates: &[FateRow],
    totals: Totals,
) {
    let play = Play {
        capacity,
        steps,
        fates,
        totals,
    };
    over_both_stores(rt, alloc, Trial::PlayEnabled(play));
}

fn play<R: Threads + Wait + Clock + Abort + Sync>(
    rt: &R,
    alloc: Global,
    steps: &[Step],
    fates: &[FateRow],
    totals: Totals,
) {
    play_within(rt, alloc, 100, steps, fates, totals);
}

#[test]
fn one_move(rt: HostRuntime) {
    let steps = [limited(MOVE, accepted(0)), taken(0, 0), done(0, 0x01)];
    let fates = [row(0, None, COMPLETED)];
    let totals = totals(1, 0, 0, 1, 0, 0, 10);
    play(&rt, rt.alloc(), &steps, &fates, totals);
}

#[test]
fn limits_of_two_portals(rt: HostRuntime) {
    let steps = [
        limited(NO_OP, accepted(0)),
        limited(NO_OP, accepted(1)),
        limited(NO_OP, RETRY_AT_LIMIT),
        unlimited(5, accepted(2)),
        unlimited(5, accepted(3)),
        unlimited(5, RETRY_AT_LIMIT),
        taken(0, 0),
        limited(NO_OP, RETRY_AT_LIMIT),
        unlimited(5, accepted(4)),
    ];
    let totals = totals(5, 0, 3, 0, 0, 5, 16);
    play(&rt, rt.alloc(), &steps, &[], totals);
}

#[test]
fn noted_error(rt: HostRuntime) {
    let noted = NotedError {
        queue: 1,
        cause: Cause::AtLimit,
        overflow: false,
    };
    let overflow = NotedError {
        overflow: true,
        ..noted
    };
    let steps = [
        written_to(1, Kind::Movdir64b, NO_OP, accepted(0)),
        written_to(1, Kind::Movdir64b, NO_OP, accepted(1)),
        written_to(1, Kind::Movdir64b, NO_OP, DROPPED_AT_LIMIT),
        written_to(1, Kind::Movdir64b, NO_OP, DROPPED_AT_LIMIT),
        cleared(ClearAnswer::Cleared(overflow)),
        cleared(ClearAnswer::Nothing),
        written_to(1, Kind::Movdir64b, NO_OP, DROPPED_AT_LIMIT),
        cleared(ClearAnswer::Cleared(noted)),
    ];
    let totals = totals(2, 0, 0, 0, 0, 2, 14);
    play(&rt, rt.alloc(), &steps, &[], totals);
}

#[test]
fn causes_of_refused_submissions(rt: HostRuntime) {
    let not_enabled = SubmitAnswer::Retry(Cause::NotEnabled);
    let steps = [
        written_to(1, ENQCMD, NO_OP, SubmitAnswer::Retry(Cause::WrongKind)),
        written_to(
            0,
            Kind::Movdir64b,
            NO_OP,
            SubmitAnswer::Dropped(Cause::WrongKind),
        ),
        ended(Command::DisableWq(FIRST_QUEUE), 0),
        written_to(0, ENQCMD, NO_OP, not_enabled),
        written_to(9, ENQCMD, NO_OP, not_enabled),
    ];
    let totals = totals(0, 0, 0, 0, 0, 0, 12);
    play(&rt, rt.alloc(), &steps, &[], totals);
}

#[test]
fn read_buffers_of_two_groups(rt: HostRuntime) {
    let steps = [
        limited(LARGE_MOVE, accepted(0)),
        limited(LARGE_MOVE, accepted(1)),
        taken(0, 0),
        taken(0, 1),
        written_to(1, Kind::Movdir64b, batch_of(3), accepted(2)),
        taken(1, 2),
        member(1, LARGE_MOVE, 3),
        member(1, LARGE_MOVE, 4),
        member(1, LARGE_MOVE, 5),
        begun(1, 3),
        begun(1, 4),
        started(1, StartAnswer::NoBuffers),
        done(0, 0x01),
        begun(1, 5),
        limited(LARGE_MOVE, accepted(6)),
        dispatched(0, DispatchAnswer::Idle),
    ];
    let fates = [row(0, None, COMPLETED)];
    let totals = totals(4, 3, 0, 1, 0, 6, 21);
    play(&rt, rt.alloc(), &steps, &fates, totals);
}

#[test]
fn fence_waits(rt: HostRuntime) {
    let steps = [
        limited(batch_of(3), accepted(0)),
        taken(0, 0),
        member(0, NO_OP, 1),
        member(0, NO_OP, 2),
        member(0, FENCED_NO_OP, 3),
        fetched(0, NO_OP, FetchAnswer::AllFetched),
        begun(0, 1),
        begun(0, 2),
        started(0, StartAnswer::FenceWait),
        done(2, 0x01),
        started(0, StartAnswer::FenceWait),
        done(1, 0x01),
        begun(0, 3),
        finished(0, ticket(0), Outcome::Success, FinishAnswer::NotReady),
        done(3, 0x01),
        done(0, 0x01),
    ];
    let fates = [
        row(2, Some(0), COMPLETED),
        row(1, Some(0), COMPLETED),
        row(3, Some(0), COMPLETED),
        row(0, None, COMPLETED),
    ];
    let totals = totals(1, 3, 0, 4, 0, 0, 19);
    play(&rt, rt.alloc(), &steps, &fates, totals);
}

#[test]
fn fence_abandons(rt: HostRuntime) {
    let steps = [
        limited(batch_of(3), accepted(0)),
        taken(0, 0),
        member(0, MOVE, 1),
        member(0, FENCED_MOVE, 2),
        begun(0, 1),
        finished(0, ticket(1), Outcome::PageFault, FinishAnswer::Done(0x03)),
        started(0, StartAnswer::Abandoned(1)),
        fetched(0, NO_OP, FetchAnswer::AllFetched),
        started(0, StartAnswer::Nothing),
        done(0, 0x05),
    ];
    let fates = [
        row(1, Some(0), Fate::Completed(0x03)),
        row(2, Some(0), Fate::Abandoned),
        row(0, None, Fate::Completed(0x05)),
    ];
    let totals = totals(1, 2, 0, 2, 1, 0, 15);
    play(&rt, rt.alloc(), &steps, &fates, totals);
}

#[test]
fn batches_of_too_few_and_too_many(rt: HostRuntime) {
    let steps = [
        limited(batch_of(1), accepted(0)),
        taken(0, 0),
        fetched(0, NO_OP, FetchAnswer::NoBatch),
        done(0, 0x14),
        limited(batch_of(9), accepted(1)),
        taken(0, 1),
        done(1, 0x14),
        limited(batch_of(8), accepted(2)),
        taken(0, 2),
        member(0, NO_OP, 3),
    ];
    let refused = Fate::Completed(0x14);
    let fates = [row(0, None, refused), row(1, None, refused)];
    let totals = totals(3, 1, 0, 2, 0, 2, 16);
    play(&rt, rt.alloc(), &steps, &fates, totals);
}

#[test]
fn drain_of_a_queue(rt: HostRuntime) {
    let steps = [
        limited(NO_OP, accepted(0)),
        issued(Command::DrainWq(FIRST_QUEUE), IssueAnswer::Active),
        issued(Command::DrainAll, IssueAnswer::Refused(Fault::Busy)),
        limited(NO_OP, accepted(1)),
        polled(PollAnswer::Active),
        taken(0, 0),
        done(0, 0x01),
        polled(PollAnswer::Finished),
        polled(PollAnswer::Nothing),
    ];
    let fates = [row(0, None, COMPLETED)];
    let totals = totals(2, 0, 0, 1, 0, 1, 13);
    play(&rt, rt.alloc(), &steps, &fates, totals);
}

#[test]
fn drains_of_two_programs(rt: HostRuntime) {
    let steps = [
        unlimited(5, accepted(0)),
        unlimited(6, accepted(1)),
        sent(5, DRAIN, accepted(2)),
        sent(6, DRAIN, accepted(3)),
        taken(0, 0),
        taken(0, 1),
        done(1, 0x01),
        taken(0, 2),
        finished(0, ticket(2), Outcome::Success, FinishAnswer::NotReady),
        dispatched(0, DispatchAnswer::Idle),
        done(0, 0x01),
        dispatched(0, DispatchAnswer::Idle),
        done(2, 0x01),
        taken(0, 3),
        done(3, 0x01),
    ];
    let fates = [
        row(1, None, COMPLETED),
        row(0, None, COMPLETED),
        row(2, None, COMPLETED),
        row(3, None, COMPLETED),
    ];
    let totals = totals(4, 0, 0, 4, 0, 0, 19);
    play(&rt, rt.alloc(), &steps, &fates, totals);
}

#[test]
fn abort_of_a_pasid(rt: HostRuntime) {
    let steps = [
        unlimited(5, accepted(0)),
        unlimited(6, accepted(1)),
        unlimited(5, accepted(2)),
        unlimited(6, accepted(3)),
        ended(Command::AbortPasid(5), 2),
        taken(0, 1),
        taken(0, 3),
    ];
    let fates = [
        row(0, None, Fate::Aborted(12)),
        row(2, None, Fate::Aborted(12)),
    ];
    let totals = totals(4, 0, 0, 0, 2, 2, 14);
    play(&rt, rt.alloc(), &steps, &fates, totals);
}

#[test]
fn tickets_after_an_abort(rt: HostRuntime) {
    let forged = Ticket {
        cell: Cell(1),
        name: 0,
    };
    let steps = [
        limited(NO_OP, accepted(0)),
        taken(0, 0),
        ended(Command::AbortAll, 1),
        limited(NO_OP, accepted(1)),
        taken(0, 1),
        finished(0, ticket(0), Outcome::Success, FinishAnswer::Gone),
        finished(0, forged, Outcome::Success, FinishAnswer::Gone),
        done(1, 0x01),
    ];
    let fates = [row(0, None, Fate::Aborted(4)), row(1, None, COMPLETED)];
    let totals = totals(2, 0, 0, 1, 1, 0, 13);
    play(&rt, rt.alloc(), &steps, &fates, totals);
}

// Every kind of step is refused, and by each kind of seat.
#[test]
fn full_history(rt: HostRuntime) {
    let [write, _, group, _] = writes();
    let steps = [
        unlimited(5, accepted(0)),
        unlimited(5, accepted(1)),
        unlimited(5, accepted(2)),
        unlimited(5, SubmitAnswer::Full),
        dispatched(0, DispatchAnswer::Full),
        polled(PollAnswer::Full),
        fetched(1, NO_OP, FetchAnswer::Full),
        started(1, StartAnswer::Full),
        finished(0, ticket(0), Outcome::Success, FinishAnswer::Full),
        issued(Command::AbortAll, IssueAnswer::Full),
        Step {
            reply: Reply::Write(WriteAnswer::Full),
            ..write
        },
        Step {
            reply: Reply::Write(WriteAnswer::Full),
            ..group
        },
        cleared(ClearAnswer::Full),
    ];
    let totals = totals(3, 0, 0, 0, 0, 3, 10);
    play_within(&rt, rt.alloc(), 10, &steps, &[], totals);
}

// One call of each kind, and four of these steps are stored.
fn each_call() -> [Step; 12] {
    let locked = WriteAnswer::Refused(Fault::Locked);
    [
        limited(MOVE, accepted(0)),
        taken(0, 0),
        done(0, 0x01),
        dispatched(0, DispatchAnswer::Idle),
        fetched(0, NO_OP, FetchAnswer::NoBatch),
        started(0, StartAnswer::Nothing),
        finished(0, ticket(0), Outcome::Success, FinishAnswer::Gone),
        ended(Command::AbortAll, 0),
        polled(PollAnswer::Nothing),
        queue_written(0, SHARED_QUEUE, locked),
        group_written(0, FIRST_GROUP, locked),
        cleared(ClearAnswer::Nothing),
    ]
}

// The second client is turned away more often than 16 bits count, and then each call is made.
fn many_steps(rt: &impl Abort, alloc: Global) -> Vec<Step> {
    let turned_away = written_to(9, ENQCMD, NO_OP, SubmitAnswer::Retry(Cause::NotEnabled));
    let mut steps = Vec::from_elem(alloc, turned_away, 70_000).expect(rt, "memory for steps");
    let added = steps.extend_from_slice(&each_call());
    added.expect(rt, "memory for steps");
    steps
}

#[test]
fn long_history(rt: HostRuntime) {
    let steps = many_steps(&rt, rt.alloc());
    let fates = [row(0, None, COMPLETED)];
    let totals = totals(1, 0, 0, 1, 0, 0, 70_011);
    play_within(&rt, rt.alloc(), 70_020, &steps, &fates, totals);
}
