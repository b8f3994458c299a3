//! Answers and endings as numbers.

ghost use Rattle.std.specs.Prelude.{◌≡◌};
ghost use Rattle.dsa_book.specs.declared.answer.Reply.TheVariants as reply;
ghost use Rattle.dsa_c.specs.Answers.{plain, of_ticket, kind_number, cause_number, of_noted};
ghost use Rattle.dsa_c.specs.Answers.{no_device, bad_argument, refusal_answer, answer_of, step_answer};
ghost use Rattle.dsa_c.specs.Answers.{noted_answer, fate_kind, fate_number, parent_number};
ghost use Rattle.dsa_c.specs.Answers.{answer_from_queue, ending_of};

use crate::numbers::{
    ABORTED, AT_LIMIT, BEHIND_FENCE, COMPLETED, NOT_ENABLED, NOT_ENDED, WRONG_KIND,
};
use dsa_book::{
    Cause, ClearAnswer, DispatchAnswer, Fate, FateRow, FetchAnswer, FinishAnswer, IssueAnswer,
    NotedError, PollAnswer, Reply, StartAnswer, Step, SubmitAnswer, Ticket, WriteAnswer,
};
use dsa_regs::Fault;

/// The kind of an answer, with its number in `enum dsa_kind` of the header.
#[derive(Clone, Copy)]
pub enum AnswerKind {
    NoDevice = 0,
    Accepted = 1,
    Retry = 2,
    Dropped = 3,
    Taken = 4,
    Idle = 5,
    Fetched = 6,
    NoBatch = 7,
    AllFetched = 8,
    Started = 9,
    FenceWait = 10,
    NoBuffers = 11,
    Abandoned = 12,
    Nothing = 13,
    Done = 14,
    NotReady = 15,
    Gone = 16,
    Ended = 17,
    Active = 18,
    Refused = 19,
    Finished = 20,
    Written = 21,
    Cleared = 22,
    Full = 23,
    BadArgument = 24,
}

/// An answer: its kind, and the numbers that come with it.
#[repr(C)]
#[derive(Clone, Copy, Debug, PartialEq, Eq)]
pub struct Answer {
    pub kind: u32,
    pub name: u32,
    pub cell: u32,
    pub more: u32,
}

/// How an entry ended.
#[repr(C)]
#[derive(Clone, Copy, Debug, PartialEq, Eq)]
pub struct Ending {
    pub kind: u32,
    pub name: u32,
    pub parent: u32,
    pub number: u32,
}

fn cause_number(cause: Cause) -> u32
    ensures { result ≡ cause_number cause }
{
    match cause {
        Cause::AtLimit => AT_LIMIT,
        Cause::NotEnabled => NOT_ENABLED,
        Cause::WrongKind => WRONG_KIND,
    }
}

impl AnswerKind {
    fn number(self) -> u32
        ensures { result ≡ kind_number self }
    {
        self as u32
    }
}

// What an answer is to C: one with numbers as its arm says, and any other by the kind of its name.
macro_rules! answer_for_c {
    ($answer:ident, { $($numbered:pat => $made:expr,)* }, $Answers:ident: $($Plain:ident),*) => {
        match $answer {
            $($numbered => $made,)*
            $($Answers::$Plain => Answer::plain(AnswerKind::$Plain, 0),)*
        }
    };
}

impl Answer {
    fn plain(kind: AnswerKind, more: u32) -> Answer
        ensures { result ≡ plain kind more }
    {
        Answer {
            kind: kind.number(),
            name: 0,
            cell: 0,
            more,
        }
    }

    fn ticket(kind: AnswerKind, ticket: Ticket, more: u32) -> Answer
        ensures { result ≡ of_ticket kind ticket more }
    {
        Answer {
            kind: kind.number(),
            name: ticket.name,
            cell: ticket.cell.0,
            more,
        }
    }

    fn of_noted(noted: NotedError) -> Answer
        ensures { result ≡ of_noted noted }
    {
        Answer {
            kind: AnswerKind::Cleared.number(),
            name: u32::from(noted.queue),
            cell: if noted.overflow { 1 } else { 0 },
            more: cause_number(noted.cause),
        }
    }

    /// The handle has no device.
    pub(crate) fn no_device() -> Answer
        ensures { result ≡ no_device }
    {
        Answer::plain(AnswerKind::NoDevice, 0)
    }

    /// An argument is none of the numbers that it may be.
    pub(crate) fn bad_argument() -> Answer
        ensures { result ≡ bad_argument }
    {
        Answer::plain(AnswerKind::BadArgument, 0)
    }

    /// Nothing changed, for this fault.
    pub(crate) fn refused(fault: Fault) -> Answer
        ensures { result ≡ refusal_answer fault }
    {
        Answer::plain(AnswerKind::Refused, u32::from(fault.number()))
    }

    /// What the answer is to C.
    pub(crate) fn of_submit(answer: SubmitAnswer) -> Answer
        ensures { result ≡ answer_of (reply.Submit answer) }
    {
        answer_for_c!(answer, {
            SubmitAnswer::Accepted(ticket) => Answer::ticket(AnswerKind::Accepted, ticket, 0),
            SubmitAnswer::Retry(cause) => Answer::plain(AnswerKind::Retry, cause_number(cause)),
            SubmitAnswer::Dropped(cause) => Answer::plain(AnswerKind::Dropped, cause_number(cause)),
        }, SubmitAnswer: Full)
    }

    /// What the answer is to C.
    pub(crate) fn of_dispatch(answer: DispatchAnswer) -> Answer
        ensures { result ≡ answer_of (reply.Dispatch answer) }
    {
        answer_for_c!(answer, {
            DispatchAnswer::Taken { ticket, queue } => Answer::ticket(
                AnswerKind::Taken,
                ticket,
                u32::from(queue),
            ),
        }, DispatchAnswer: Idle, Full)
    }

    /// What the answer of a dispatch from a queue is to C.
    pub(crate) fn of_dispatch_from(answer: Option<DispatchAnswer>) -> Answer
        ensures { result ≡ answer_from_queue answer }
    {
        match answer {
            Some(answer) => Answer::of_dispatch(answer),
            None => Answer::plain(AnswerKind::Idle, 0),
        }
    }

    /// What the answer is to C.
    pub(crate) fn of_fetch(answer: FetchAnswer) -> Answer
        ensures { result ≡ answer_of (reply.Fetch answer) }
    {
        answer_for_c!(answer, {
            FetchAnswer::Fetched(ticket) => Answer::ticket(AnswerKind::Fetched, ticket, 0),
        }, FetchAnswer: NoBatch, AllFetched, Full)
    }

    /// What the answer is to C.
    pub(crate) fn of_start(answer: StartAnswer) -> Answer
        ensures { result ≡ answer_of (reply.Start answer) }
    {
        answer_for_c!(answer, {
            StartAnswer::Started(ticket) => Answer::ticket(AnswerKind::Started, ticket, 0),
            StartAnswer::Abandoned(count) => Answer::plain(AnswerKind::Abandoned, count),
        }, StartAnswer: FenceWait, NoBuffers, Nothing, Full)
    }

    /// What the answer is to C.
    pub(crate) fn of_finish(answer: FinishAnswer) -> Answer
        ensures { result ≡ answer_of (reply.Finish answer) }
    {
        answer_for_c!(answer, {
            FinishAnswer::Done(status) => Answer::plain(AnswerKind::Done, u32::from(status)),
        }, FinishAnswer: NotReady, Gone, Full)
    }

    /// What the answer is to C.
    pub(crate) fn of_issue(answer: IssueAnswer) -> Answer
        ensures { result ≡ answer_of (reply.Issue answer) }
    {
        answer_for_c!(answer, {
            IssueAnswer::Ended { aborted } => Answer::plain(AnswerKind::Ended, aborted),
            IssueAnswer::Refused(fault) => Answer::refused(fault),
        }, IssueAnswer: Active, Full)
    }

    /// What the answer is to C.
    pub(crate) fn of_poll(answer: PollAnswer) -> Answer
        ensures { result ≡ answer_of (reply.Poll answer) }
    {
        answer_for_c!(answer, {}, PollAnswer: Finished, Active, Nothing, Full)
    }

    /// What the answer is to C.
    pub(crate) fn of_write(answer: WriteAnswer) -> Answer
        ensures { result ≡ answer_of (reply.Write answer) }
    {
        answer_for_c!(answer, {
            WriteAnswer::Refused(fault) => Answer::refused(fault),
        }, WriteAnswer: Written, Full)
    }

    /// What the answer is to C.
    pub(crate) fn of_clear(answer: ClearAnswer) -> Answer
        ensures { result ≡ answer_of (reply.Clear answer) }
    {
        answer_for_c!(answer, {
            ClearAnswer::Cleared(noted) => Answer::of_noted(noted),
        }, ClearAnswer: Nothing, Full)
    }

    /// What the reply is to C.
    pub(crate) fn of(reply: Reply) -> Answer
        ensures { result ≡ answer_of reply }
    {
        match reply {
            Reply::Submit(answer) => Answer::of_submit(answer),
            Reply::Dispatch(answer) => Answer::of_dispatch(answer),
            Reply::Fetch(answer) => Answer::of_fetch(answer),
            Reply::Start(answer) => Answer::of_start(answer),
            Reply::Finish(answer) => Answer::of_finish(answer),
            Reply::Issue(answer) => Answer::of_issue(answer),
            Reply::Poll(answer) => Answer::of_poll(answer),
            Reply::Write(answer) => Answer::of_write(answer),
            Reply::Clear(answer) => Answer::of_clear(answer),
        }
    }

    /// The answer of a stored step, or that there is none.
    pub(crate) fn of_step(step: Option<Step>) -> Answer
        ensures { result ≡ step_answer step }
    {
        match step {
            Some(step) => Answer::of(step.reply),
            None => Answer::plain(AnswerKind::Nothing, 0),
        }
    }

    /// The noted error, or that there is none.
    pub(crate) fn noted(noted: Option<NotedError>) -> Answer
        ensures { result ≡ noted_answer noted }
    {
        match noted {
            Some(noted) => Answer::of_noted(noted),
            None => Answer::plain(AnswerKind::Nothing, 0),
        }
    }
}

impl Ending {
    /// The row as numbers, where there is one.
    pub(crate) fn of(row: Option<FateRow>) -> Ending
        ensures { result ≡ ending_of row }
    {
        let Some(row) = row else {
            return Ending {
                kind: NOT_ENDED,
                name: 0,
                parent: 0,
                number: 0,
            };
        };
        let (kind, number) = match row.fate {
            Fate::Completed(status) => (COMPLETED, u32::from(status)),
            Fate::Aborted(command) => (ABORTED, u32::from(command)),
            Fate::Abandoned => (BEHIND_FENCE, 0),
        };
        Ending {
            kind,
            name: row.name,
            parent: row.parent.unwrap_or(u32::MAX),
            number,
        }
    }
}
