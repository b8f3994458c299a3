//! What a step is marked with.

ghost use Rattle.std.specs.Prelude.{◌≡◌};
ghost use Rattle.dsa_draw.specs.Marks.{is_done_as_asked, is_failed, reply_mark, mark_of};

use dsa_book::{
    ClearAnswer, DispatchAnswer, FetchAnswer, FinishAnswer, IssueAnswer, PollAnswer, Reply,
    StartAnswer, SubmitAnswer, WriteAnswer,
};
use dsa_scenario::Record;

/// How a step came out.
#[derive(Clone, Copy)]
pub enum Mark {
    /// It did what it was asked for.
    Done,
    /// It is to be asked for again, or there was nothing to do.
    Wait,
    /// It was refused or dropped, the history was full, or what it ended was not successful.
    Failed,
}

// The status of what was successful.
const SUCCESS: u8 = 0x01;

fn is_done(reply: Reply) -> bool
    ensures { result ≡ is_done_as_asked reply }
{
    match reply {
        Reply::Submit(answer) => matches!(answer, SubmitAnswer::Accepted(_)),
        Reply::Dispatch(answer) => matches!(answer, DispatchAnswer::Taken { .. }),
        Reply::Fetch(answer) => matches!(answer, FetchAnswer::Fetched(_)),
        Reply::Start(answer) => matches!(answer, StartAnswer::Started(_)),
        Reply::Finish(FinishAnswer::Done(status)) => status == SUCCESS,
        Reply::Finish(_) => false,
        Reply::Issue(answer) => matches!(answer, IssueAnswer::Ended { .. }),
        Reply::Poll(answer) => matches!(answer, PollAnswer::Finished),
        Reply::Write(answer) => matches!(answer, WriteAnswer::Written),
        Reply::Clear(answer) => matches!(answer, ClearAnswer::Cleared(_)),
    }
}

fn is_failed(reply: Reply) -> bool
    ensures { result ≡ is_failed reply }
{
    match reply {
        Reply::Submit(answer) => matches!(answer, SubmitAnswer::Dropped(_) | SubmitAnswer::Full),
        Reply::Dispatch(answer) => matches!(answer, DispatchAnswer::Full),
        Reply::Fetch(answer) => matches!(answer, FetchAnswer::Full),
        Reply::Start(answer) => matches!(answer, StartAnswer::Abandoned(_) | StartAnswer::Full),
        Reply::Finish(FinishAnswer::Done(status)) => status != SUCCESS,
        Reply::Finish(answer) => matches!(answer, FinishAnswer::Gone | FinishAnswer::Full),
        Reply::Issue(answer) => matches!(answer, IssueAnswer::Refused(_) | IssueAnswer::Full),
        Reply::Poll(answer) => matches!(answer, PollAnswer::Full),
        Reply::Write(answer) => matches!(answer, WriteAnswer::Refused(_) | WriteAnswer::Full),
        Reply::Clear(answer) => matches!(answer, ClearAnswer::Full),
    }
}

fn reply_mark(reply: Reply) -> Mark
    ensures { result ≡ reply_mark reply }
{
    if is_done(reply) {
        Mark::Done
    } else if is_failed(reply) {
        Mark::Failed
    } else {
        Mark::Wait
    }
}

/// How a step object came out.
pub fn mark_of(entry: &Record) -> Mark
    ensures { result ≡ mark_of entry.now }
{
    match entry {
        Record::Stepped(step) => reply_mark(step.reply),
        Record::Refused(_) => Mark::Failed,
    }
}
