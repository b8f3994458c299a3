//! What a list of steps adds up to.

ghost use Rattle.std.specs.Prelude.{◌≡◌, ◌+◌, ◌<◌, ◌≤◌, ◌^◌, cond, length};
ghost use Rattle.dsa_book.specs.declared.answer.Reply.TheVariants as reply;
ghost use Rattle.dsa_book.specs.Totals.{is_accepted, is_retried, is_fetched, is_done, lost_by, total_lost};

use crate::settle::Totals;
use dsa_book::{
    Cause, FetchAnswer, FinishAnswer, IssueAnswer, Reply, StartAnswer, Step, SubmitAnswer,
};

pub fn is_accepted(step: &Step) -> bool
    ensures { result ≡ is_accepted step.now.reply }
{
    matches!(step.reply, Reply::Submit(SubmitAnswer::Accepted(_)))
}

pub fn is_retried(step: &Step) -> bool
    ensures { result ≡ is_retried step.now.reply }
{
    matches!(
        step.reply,
        Reply::Submit(SubmitAnswer::Retry(Cause::AtLimit))
    )
}

pub fn is_fetched(step: &Step) -> bool
    ensures { result ≡ is_fetched step.now.reply }
{
    matches!(step.reply, Reply::Fetch(FetchAnswer::Fetched(_)))
}

pub fn is_done(step: &Step) -> bool
    ensures { result ≡ is_done step.now.reply }
{
    matches!(step.reply, Reply::Finish(FinishAnswer::Done(_)))
}

fn lost_by(step: &Step) -> u32
    ensures { result ≡ lost_by step.now.reply }
{
    match step.reply {
        Reply::Start(StartAnswer::Abandoned(lost)) => lost,
        Reply::Issue(IssueAnswer::Ended { aborted }) => aborted,
        _ => 0,
    }
}

pub fn lost_in(steps: &[Step]) -> u64
    requires { length steps.now ≤ 2 ^ 20 }
    ensures { result ≡ total_lost steps.now }
{
    let mut lost = 0;
    for step in steps {
        lost += u64::from(lost_by(step));
    }
    lost
}

// Adds what the step counts as.
#[inline(always)]
pub fn add(totals: &mut Totals, step: &Step)
    requires { (totals.old.accepted < 2 ^ 63) × (totals.old.fetched < 2 ^ 63)
        × (totals.old.retried < 2 ^ 63) × (totals.old.done < 2 ^ 63)
        × (totals.old.lost < 2 ^ 63) }
    ensures accepted { totals.new.accepted
        ≡ totals.old.accepted + cond (is_accepted step.now.reply) 1 0 }
    ensures fetched { totals.new.fetched
        ≡ totals.old.fetched + cond (is_fetched step.now.reply) 1 0 }
    ensures retried { totals.new.retried
        ≡ totals.old.retried + cond (is_retried step.now.reply) 1 0 }
    ensures done { totals.new.done ≡ totals.old.done + cond (is_done step.now.reply) 1 0 }
    ensures lost { totals.new.lost ≡ totals.old.lost + lost_by step.now.reply }
    ensures at_most { (totals.new.accepted ≤ totals.old.accepted + 1)
        × (totals.new.fetched ≤ totals.old.fetched + 1)
        × (totals.new.retried ≤ totals.old.retried + 1)
        × (totals.new.done ≤ totals.old.done + 1)
        × (totals.new.lost ≤ totals.old.lost + 4294967295) }
    ensures rest { (totals.new.held ≡ totals.old.held) × (totals.new.steps ≡ totals.old.steps) }
{
    match step.reply {
        Reply::Submit(answer) => add_submission(totals, answer),
        Reply::Fetch(FetchAnswer::Fetched(_)) => totals.fetched += 1,
        Reply::Finish(FinishAnswer::Done(_)) => totals.done += 1,
        Reply::Start(StartAnswer::Abandoned(lost)) => totals.lost += u64::from(lost),
        Reply::Issue(IssueAnswer::Ended { aborted }) => totals.lost += u64::from(aborted),
        _ => {}
    }
}

#[inline(always)]
fn add_submission(totals: &mut Totals, answer: SubmitAnswer)
    requires { (totals.old.accepted < 2 ^ 63) × (totals.old.retried < 2 ^ 63) }
    ensures accepted { totals.new.accepted
        ≡ totals.old.accepted + cond (is_accepted (reply.Submit answer)) 1 0 }
    ensures retried { totals.new.retried
        ≡ totals.old.retried + cond (is_retried (reply.Submit answer)) 1 0 }
    ensures at_most { (totals.new.accepted ≤ totals.old.accepted + 1)
        × (totals.new.retried ≤ totals.old.retried + 1) }
    ensures rest { (totals.new.fetched ≡ totals.old.fetched) × (totals.new.done ≡ totals.old.done)
        × (totals.new.lost ≡ totals.old.lost) × (totals.new.held ≡ totals.old.held)
        × (totals.new.steps ≡ totals.old.steps) }
{
    if let SubmitAnswer::Retry(Cause::AtLimit) = answer {
        totals.retried += 1;
    } else if let SubmitAnswer::Accepted(_) = answer {
        totals.accepted += 1;
    }
}
