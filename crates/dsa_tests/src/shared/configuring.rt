//! Configurations that are refused, told to the administrator's seat.

use crate::shared::playing::Play;
use crate::shared::steps::{ended, group_written, issued, queue_written, totals, writes};
use crate::shared::stores::{Trial, over_both_stores};
use dsa_book::{IssueAnswer, Step, WriteAnswer};
use dsa_fixtures::{DEDICATED_QUEUE, FIRST_GROUP, FIRST_QUEUE, SHARED_QUEUE};
use dsa_regs::{Command, Fault, GroupConfig, QueueConfig};
use std::process::Abort;

const WRITTEN: WriteAnswer = WriteAnswer::Written;

const LOCKED: WriteAnswer = WriteAnswer::Refused(Fault::Locked);

const BAD_INDEX: WriteAnswer = WriteAnswer::Refused(Fault::BadIndex);

fn refused(command: Command, fault: Fault) -> Step {
    issued(command, IssueAnswer::Refused(fault))
}

// A group is written with these numbers.
fn group(number: u16, queues: u64, engines: u64, reserved: u16, allowed: u16) -> Step {
    let config = GroupConfig {
        queues,
        engines,
        reserved,
        allowed,
    };
    group_written(number, config, WRITTEN)
}

// One of the four writes is changed in one number, and the fault that enabling the device then has.
fn changes() -> [(usize, Step, Fault); 7] {
    let large = QueueConfig {
        size: 5,
        ..DEDICATED_QUEUE
    };
    [
        (3, group(1, 2, 2, 13, 12), Fault::ReservedTooMany),
        (3, group(1, 2, 3, 8, 12), Fault::TwoGroups),
        (3, group(1, 0, 2, 8, 12), Fault::GroupWithoutQueue),
        (3, group(1, 6, 2, 8, 12), Fault::BadIndex),
        (2, group(0, 1, 0, 4, 8), Fault::GroupWithoutEngine),
        (2, group(0, 1, 1, 4, 9), Fault::AllowedOutOfRange),
        (1, queue_written(1, large, WRITTEN), Fault::SizesTooLarge),
    ]
}

// The four writes with another one at this place.
fn changed(rt: &impl Abort, place: usize, write: Step) -> [Step; 4] {
    let mut writes = writes();
    assert!(rt; place < writes.len());
    writes[place] = write;
    writes
}

#[test]
fn device_is_not_enabled(rt: HostRuntime) {
    for (place, write, fault) in changes() {
        let [a, b, c, d] = changed(&rt, place, write);
        let play = Play {
            capacity: 100,
            steps: &[a, b, c, d, refused(Command::EnableDevice, fault)],
            fates: &[],
            totals: totals(0, 0, 0, 0, 0, 0, 4),
        };
        over_both_stores(&rt, rt.alloc(), Trial::Play(play));
    }
}

// The shared queue is written with these numbers.
fn queue(threshold: u16, priority: u8, max_batch_shift: u8, max_xfer_shift: u8) -> Step {
    let config = QueueConfig {
        threshold,
        priority,
        max_batch_shift,
        max_xfer_shift,
        ..SHARED_QUEUE
    };
    queue_written(0, config, WRITTEN)
}

#[test]
fn queue_is_not_enabled(rt: HostRuntime) {
    let enable = Command::EnableWq(0);
    let play = Play {
        capacity: 100,
        steps: &[
            ended(Command::DisableWq(FIRST_QUEUE), 0),
            queue(2, 0, 3, 20),
            refused(enable, Fault::PriorityZero),
            queue(2, 16, 3, 20),
            refused(enable, Fault::PriorityTooLarge),
            queue(0, 1, 3, 20),
            refused(enable, Fault::ThresholdZero),
            queue(5, 1, 3, 20),
            refused(enable, Fault::ThresholdAboveSize),
            queue(2, 1, 4, 20),
            refused(enable, Fault::BatchTooLarge),
            queue(2, 1, 3, 21),
            refused(enable, Fault::TransferTooLarge),
            queue(4, 1, 3, 20),
            ended(enable, 0),
            queue_written(0, SHARED_QUEUE, LOCKED),
            group_written(0, FIRST_GROUP, LOCKED),
            refused(Command::EnableDevice, Fault::WrongState),
        ],
        fates: &[],
        totals: totals(0, 0, 0, 0, 0, 0, 16),
    };
    over_both_stores(&rt, rt.alloc(), Trial::PlayEnabled(play));
}

// The first queue is in no group, the second was not written, and there is no third, nor a third
// group.
#[test]
fn queues_that_are_not_there(rt: HostRuntime) {
    let play = Play {
        capacity: 100,
        steps: &[
            queue_written(0, SHARED_QUEUE, WRITTEN),
            ended(Command::EnableDevice, 0),
            refused(Command::EnableWq(0), Fault::NoGroup),
            refused(Command::EnableWq(1), Fault::SizeZero),
            refused(Command::EnableWq(2), Fault::BadQueue),
            queue_written(2, SHARED_QUEUE, BAD_INDEX),
            group_written(2, FIRST_GROUP, BAD_INDEX),
        ],
        fates: &[],
        totals: totals(0, 0, 0, 0, 0, 0, 2),
    };
    over_both_stores(&rt, rt.alloc(), Trial::Play(play));
}
