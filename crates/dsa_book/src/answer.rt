//! What each step of the device answers.

ghost use Rattle.std.specs.Prelude.{◌≡◌};

use crate::event::Kind;
use dsa_regs::Fault;
use dsa_store::Cell;

/// What names an entry that the device holds: the cell that it stands in, and its name, which is
/// given once and never again.
#[derive(Clone, Copy, Debug, PartialEq, Eq)]
pub struct Ticket {
    pub cell: Cell,
    pub name: u32,
}

/// Why a submission was turned away. A program sees the zero flag alone, so the cause is the
/// profile's.
#[derive(Clone, Copy, Debug, PartialEq, Eq)]
pub enum Cause {
    /// The occupancy of the queue is at or above the limit of the portal.
    AtLimit,
    /// The queue is not on, or the device has no such queue.
    NotEnabled,
    /// ENQCMD to a dedicated queue, or MOVDIR64B to a shared one.
    WrongKind,
}

/// The error that the device keeps of descriptors that MOVDIR64B wrote and no queue took.
#[derive(Clone, Copy, Debug, PartialEq, Eq)]
pub struct NotedError {
    /// The queue of the first descriptor that was dropped since the error was last cleared.
    pub queue: u16,
    /// Why that one was dropped.
    pub cause: Cause,
    /// Whether more were dropped since.
    pub overflow: bool,
}

/// The answer to a submission.
#[derive(Clone, Copy, Debug, PartialEq, Eq)]
pub enum SubmitAnswer {
    /// The descriptor stands last in its queue.
    Accepted(Ticket),
    /// ENQCMD was told to come again.
    Retry(Cause),
    /// MOVDIR64B wrote what no queue took.
    Dropped(Cause),
    /// The history has no room.
    Full,
}

/// The answer to an engine that asks for an entry.
#[derive(Clone, Copy, Debug, PartialEq, Eq)]
pub enum DispatchAnswer {
    /// The front of that queue, which runs on the engine now.
    Taken { ticket: Ticket, queue: u16 },
    /// No queue of the engine's group has a front that the engine may take.
    Idle,
    /// The history has no room.
    Full,
}

/// The answer to an engine that fetches a member of its batch.
#[derive(Clone, Copy, Debug, PartialEq, Eq)]
pub enum FetchAnswer {
    /// The member stands last among the engine's members.
    Fetched(Ticket),
    /// The engine works on no batch.
    NoBatch,
    /// As many were fetched as the batch has, or its rest was abandoned.
    AllFetched,
    /// The history has no room.
    Full,
}

/// The answer to an engine that starts the next member of its batch.
#[derive(Clone, Copy, Debug, PartialEq, Eq)]
pub enum StartAnswer {
    /// The first member that did not run runs.
    Started(Ticket),
    /// That member has a fence, and members before it have not ended.
    FenceWait,
    /// The read buffers that it needs are not to be had.
    NoBuffers,
    /// It has a fence, and a member before it was not successful: so many members end, and the
    /// batch is closed.
    Abandoned(u32),
    /// No member waits.
    Nothing,
    /// The history has no room.
    Full,
}

/// The answer to an engine that ends an entry.
#[derive(Clone, Copy, Debug, PartialEq, Eq)]
pub enum FinishAnswer {
    /// The entry left, with this status.
    Done(u8),
    /// A batch with members that are left, or that are still to be fetched.
    NotReady,
    /// No running entry of the engine has the ticket's cell and name.
    Gone,
    /// The history has no room.
    Full,
}

/// The answer to a command.
#[derive(Clone, Copy, Debug, PartialEq, Eq)]
pub enum IssueAnswer {
    /// The command is carried out, and so many entries were aborted.
    Ended { aborted: u32 },
    /// The command waits for entries that are held.
    Active,
    /// The command changed nothing.
    Refused(Fault),
    /// The history has no room.
    Full,
}

/// The answer to one who asks after the command that was issued.
#[derive(Clone, Copy, Debug, PartialEq, Eq)]
pub enum PollAnswer {
    /// The command is over.
    Finished,
    /// The command waits still.
    Active,
    /// There is no command.
    Nothing,
    /// The history has no room.
    Full,
}

/// The answer to a write of a queue's or a group's configuration.
#[derive(Clone, Copy, Debug, PartialEq, Eq)]
pub enum WriteAnswer {
    /// The configuration is the written one.
    Written,
    /// The write changed nothing.
    Refused(Fault),
    /// The history has no room.
    Full,
}

/// The answer to one who clears the noted error.
#[derive(Clone, Copy, Debug, PartialEq, Eq)]
pub enum ClearAnswer {
    /// This error was noted, and is no more.
    Cleared(NotedError),
    /// No error was noted.
    Nothing,
    /// The history has no room.
    Full,
}

/// The answer to any event: a variant for each kind of answer. Both writes have one.
#[derive(Clone, Copy, Debug, PartialEq, Eq)]
pub enum Reply {
    Submit(SubmitAnswer),
    Dispatch(DispatchAnswer),
    Fetch(FetchAnswer),
    Start(StartAnswer),
    Finish(FinishAnswer),
    Issue(IssueAnswer),
    Poll(PollAnswer),
    Write(WriteAnswer),
    Clear(ClearAnswer),
}

impl SubmitAnswer {
    ghost use Rattle.dsa_book.specs.Submit.{zf};

    /// The zero flag after the instruction: clear where the descriptor was accepted, set where the
    /// program is to come again; MOVDIR64B is posted and reports nothing (Intel SDM, ENQCMD and
    /// MOVDIR64B). A full history is no answer of a device, and reports nothing (profile).
    pub fn zf(&self, kind: Kind) -> Option<bool>
        ensures { result ≡ zf self.now kind }
    {
        match (self, kind) {
            (SubmitAnswer::Accepted(_), Kind::Enqcmd { .. }) => Some(false),
            (SubmitAnswer::Retry(_), _) => Some(true),
            _ => None,
        }
    }
}

impl Reply {
    ghost use Rattle.dsa_book.specs.Machine.{is_stored};

    /// Whether the history keeps a step with this reply. A step whose reply it does not keep
    /// changed nothing.
    pub fn is_stored(&self) -> bool
        ensures { result ≡ is_stored self.now }
    {
        match self {
            Reply::Submit(answer) => !matches!(answer, SubmitAnswer::Full),
            Reply::Dispatch(answer) => matches!(answer, DispatchAnswer::Taken { .. }),
            Reply::Fetch(answer) => matches!(answer, FetchAnswer::Fetched(_)),
            Reply::Start(answer) => {
                matches!(answer, StartAnswer::Started(_) | StartAnswer::Abandoned(_))
            }
            Reply::Finish(answer) => matches!(answer, FinishAnswer::Done(_)),
            Reply::Issue(answer) => {
                matches!(answer, IssueAnswer::Ended { .. } | IssueAnswer::Active)
            }
            Reply::Poll(answer) => matches!(answer, PollAnswer::Finished),
            Reply::Write(answer) => matches!(answer, WriteAnswer::Written),
            Reply::Clear(answer) => matches!(answer, ClearAnswer::Cleared(_)),
        }
    }
}
