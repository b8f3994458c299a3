//! The book of a device.

use crate::layers::setup::book;
use dsa_book::{Book, Cause, DispatchAnswer, Event, Reply, Step, SubmitAnswer, Ticket};
use dsa_store::Cell;
use std::process::Abort;

const TICKET: Ticket = Ticket {
    cell: Cell(3),
    name: 7,
};

// The step, once it is seen that the book has room.
fn record(rt: &impl Abort, book: &mut Book, event: Event, reply: Reply) {
    assert!(rt; book.history().len() < book.capacity());
    book.record(event, reply);
}

fn add_step(rt: &impl Abort, book: &mut Book, step: Step) {
    assert!(rt; book.history().len() < book.capacity());
    book.add_step(step);
}

#[test]
fn a_book_keeps_steps_and_rows(rt: HostRuntime) {
    const EVENT: Event = Event::Dispatch { engine: 0 };
    const IDLE: Reply = Reply::Dispatch(DispatchAnswer::Idle);
    const TAKEN: Step = Step {
        event: EVENT,
        reply: Reply::Dispatch(DispatchAnswer::Taken {
            ticket: TICKET,
            queue: 0,
        }),
    };
    const RETRY: Step = Step {
        event: EVENT,
        reply: Reply::Submit(SubmitAnswer::Retry(Cause::AtLimit)),
    };
    const STEPS: [Step; 2] = [TAKEN, RETRY];
    let mut book = book(&rt, rt.alloc(), 2);
    claim!(&rt; (book.capacity(), book.is_full()) == (2, false));
    claim!(&rt; (book.history().len(), book.fates().len()) == (0, 0));
    record(&rt, &mut book, EVENT, IDLE);
    claim!(&rt; book.history().is_empty());
    record(&rt, &mut book, EVENT, TAKEN.reply);
    add_step(&rt, &mut book, RETRY);
    claim!(&rt; book.is_full());
    claim!(&rt; book.history() == STEPS.as_slice());
}
