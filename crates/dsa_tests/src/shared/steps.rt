//! What the tables are made of: descriptors, configurations, and steps with their answers.
//!
//! Which free cell an entry takes is open. So the cell of a ticket stands here for the one that the
//! entry of that name was given.

use dsa_book::{
    ClearAnswer, DispatchAnswer, Event, Fate, FateRow, FetchAnswer, FinishAnswer, IssueAnswer,
    Kind, PollAnswer, Portal, Reply, StartAnswer, Step, SubmitAnswer, Ticket, WriteAnswer,
};
use dsa_desc::{Descriptor, Outcome};
use dsa_fixtures::{DEDICATED_QUEUE, ENQCMD, FIRST_GROUP, NO_OP, SECOND_GROUP, SHARED_QUEUE};
use dsa_regs::{Command, GroupConfig, QueueConfig};
use dsa_shared::Totals;
use dsa_store::Cell;

pub fn ticket(name: u32) -> Ticket {
    Ticket {
        cell: Cell(name),
        name,
    }
}

pub fn submitted(
    client: u16,
    queue: u16,
    portal: Portal,
    kind: Kind,
    desc: Descriptor,
    answer: SubmitAnswer,
) -> Step {
    Step {
        event: Event::Submit {
            client,
            queue,
            portal,
            kind,
            desc,
        },
        reply: Reply::Submit(answer),
    }
}

// By the first client, on the limited portal of the shared queue.
pub fn limited(desc: Descriptor, answer: SubmitAnswer) -> Step {
    submitted(0, 0, Portal::Limited, ENQCMD, desc, answer)
}

// By the first client, on the unlimited portal of the shared queue.
pub fn unlimited(pasid: u32, answer: SubmitAnswer) -> Step {
    sent(pasid, NO_OP, answer)
}

// The same with any descriptor.
pub fn sent(pasid: u32, desc: Descriptor, answer: SubmitAnswer) -> Step {
    submitted(
        0,
        0,
        Portal::Unlimited,
        Kind::Enqcmd { pasid },
        desc,
        answer,
    )
}

// By the second client, to any queue.
pub fn written_to(queue: u16, kind: Kind, desc: Descriptor, answer: SubmitAnswer) -> Step {
    submitted(1, queue, Portal::Limited, kind, desc, answer)
}

pub fn accepted(name: u32) -> SubmitAnswer {
    SubmitAnswer::Accepted(ticket(name))
}

pub fn dispatched(engine: u16, answer: DispatchAnswer) -> Step {
    Step {
        event: Event::Dispatch { engine },
        reply: Reply::Dispatch(answer),
    }
}

// Each queue has the number of its engine.
pub fn taken(engine: u16, name: u32) -> Step {
    dispatched(
        engine,
        DispatchAnswer::Taken {
            ticket: ticket(name),
            queue: engine,
        },
    )
}

pub fn fetched(engine: u16, desc: Descriptor, answer: FetchAnswer) -> Step {
    Step {
        event: Event::Fetch { engine, desc },
        reply: Reply::Fetch(answer),
    }
}

pub fn member(engine: u16, desc: Descriptor, name: u32) -> Step {
    fetched(engine, desc, FetchAnswer::Fetched(ticket(name)))
}

pub fn started(engine: u16, answer: StartAnswer) -> Step {
    Step {
        event: Event::Start { engine },
        reply: Reply::Start(answer),
    }
}

pub fn begun(engine: u16, name: u32) -> Step {
    started(engine, StartAnswer::Started(ticket(name)))
}

pub fn finished(engine: u16, ticket: Ticket, outcome: Outcome, answer: FinishAnswer) -> Step {
    Step {
        event: Event::Finish {
            engine,
            ticket,
            outcome,
        },
        reply: Reply::Finish(answer),
    }
}

// An end with success by the first engine.
pub fn done(name: u32, status: u8) -> Step {
    finished(
        0,
        ticket(name),
        Outcome::Success,
        FinishAnswer::Done(status),
    )
}

pub fn issued(command: Command, answer: IssueAnswer) -> Step {
    Step {
        event: Event::Issue { command },
        reply: Reply::Issue(answer),
    }
}

pub fn ended(command: Command, aborted: u32) -> Step {
    issued(command, IssueAnswer::Ended { aborted })
}

pub fn polled(answer: PollAnswer) -> Step {
    Step {
        event: Event::Poll,
        reply: Reply::Poll(answer),
    }
}

pub fn cleared(answer: ClearAnswer) -> Step {
    Step {
        event: Event::ClearError,
        reply: Reply::Clear(answer),
    }
}

pub fn queue_written(queue: u16, config: QueueConfig, answer: WriteAnswer) -> Step {
    Step {
        event: Event::WriteQueue { queue, config },
        reply: Reply::Write(answer),
    }
}

pub fn group_written(group: u16, config: GroupConfig, answer: WriteAnswer) -> Step {
    Step {
        event: Event::WriteGroup { group, config },
        reply: Reply::Write(answer),
    }
}

// What configures both queues and both groups.
pub fn writes() -> [Step; 4] {
    [
        queue_written(0, SHARED_QUEUE, WriteAnswer::Written),
        queue_written(1, DEDICATED_QUEUE, WriteAnswer::Written),
        group_written(0, FIRST_GROUP, WriteAnswer::Written),
        group_written(1, SECOND_GROUP, WriteAnswer::Written),
    ]
}

// What enables the device and both queues.
pub fn enables() -> [Step; 3] {
    [
        ended(Command::EnableDevice, 0),
        ended(Command::EnableWq(0), 0),
        ended(Command::EnableWq(1), 0),
    ]
}

pub fn row(name: u32, parent: Option<u32>, fate: Fate) -> FateRow {
    FateRow { name, parent, fate }
}

pub fn totals(
    accepted: u64,
    fetched: u64,
    retried: u64,
    done: u64,
    lost: u64,
    held: u64,
    steps: u64,
) -> Totals {
    Totals {
        accepted,
        fetched,
        retried,
        done,
        lost,
        held,
        steps,
    }
}
