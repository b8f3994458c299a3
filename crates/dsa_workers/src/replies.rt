//! What an answer means to a worker.

ghost use Rattle.std.specs.Prelude.{◌≡◌};
ghost use Rattle.dsa_workers.specs.Calls.{goes_on, is_history_full};

use dsa_book::{
    Cause, DispatchAnswer, FetchAnswer, FinishAnswer, IssueAnswer, PollAnswer, Reply, StartAnswer,
    SubmitAnswer,
};

/// Whether the worker goes on to the next step of its script.
pub fn goes_on(reply: &Reply) -> bool
    ensures { result ≡ goes_on reply.now }
{
    match reply {
        Reply::Submit(answer) => {
            !matches!(
                answer,
                SubmitAnswer::Retry(Cause::AtLimit) | SubmitAnswer::Full
            )
        }
        Reply::Issue(answer) => !matches!(answer, IssueAnswer::Active | IssueAnswer::Full),
        Reply::Poll(answer) => matches!(answer, PollAnswer::Finished),
        _ => false,
    }
}

/// Whether the history has no room.
pub fn is_full(reply: &Reply) -> bool
    ensures { result ≡ is_history_full reply.now }
{
    matches!(
        reply,
        Reply::Submit(SubmitAnswer::Full)
            | Reply::Dispatch(DispatchAnswer::Full)
            | Reply::Fetch(FetchAnswer::Full)
            | Reply::Start(StartAnswer::Full)
            | Reply::Finish(FinishAnswer::Full)
            | Reply::Issue(IssueAnswer::Full)
            | Reply::Poll(PollAnswer::Full)
    )
}
