//! Whose turn is what, and where a party stands after an answer.

ghost use Rattle.std.specs.Prelude.{◌≡◌, ◌+◌, ◌<◌, ◌^◌};
ghost use Rattle.dsa_parties.specs.Offers.{act_event, allows, submission_event};
ghost use Rattle.dsa_parties.specs.Standing.{act_after, ends_polling, is_busy, is_through, next_in, place_after, place_behind, place_by, turn_with};

use crate::places::{ClientPlace, ClientTurn};
use crate::script::{Act, Origin, Outcomes, Part, RetryPolicy, ScriptEntry, Until};
use dsa_book::{Event, IssueAnswer, PollAnswer, Reply, SubmitAnswer};
use dsa_desc::Outcome;
use dsa_regs::Fault;

impl Outcomes {
    /// Whether an engine may give this outcome.
    pub fn allows(self, outcome: Outcome) -> bool
        ensures { result ≡ allows self outcome }
    {
        match (self, outcome) {
            (Outcomes::SuccessAlone, Outcome::Success) => true,
            (Outcomes::PageFaultAlone, Outcome::PageFault) => true,
            (Outcomes::Both, _) => true,
            _ => false,
        }
    }
}

impl Part {
    /// What is next in it, if the party is not through.
    pub fn next_in(self, next: u32) -> Option<u32>
        ensures { result ≡ next_in self next }
    {
        if next < self.end { Some(next) } else { None }
    }
}

impl ScriptEntry {
    /// The entry as the turn of a client with this number, if a client submits it.
    pub fn turn_with(self, number: u16, place: ClientPlace) -> Option<ClientTurn>
        ensures { result ≡ turn_with number place self }
    {
        match self.origin {
            Origin::Submitted(submission) => Some(ClientTurn {
                client: number,
                place,
                desc: self.desc,
                submission,
            }),
            Origin::Fetched { .. } => None,
        }
    }
}

impl Until {
    /// Whether a poll until then ends with this answer.
    pub fn ends_polling(self, answer: PollAnswer) -> bool
        ensures { result ≡ ends_polling self answer }
    {
        match (self, answer) {
            (Until::Once, _) => true,
            (Until::Finished | Until::Over, PollAnswer::Finished) => true,
            (Until::Over, PollAnswer::Nothing) => true,
            _ => false,
        }
    }
}

/// Whether the command was not issued because another is active.
pub fn is_busy(answer: IssueAnswer) -> bool
    ensures { result ≡ is_busy answer }
{
    match answer {
        IssueAnswer::Refused(fault) => matches!(fault, Fault::Busy),
        _ => false,
    }
}

impl Act {
    /// What is asked for.
    pub fn event(self) -> Event
        ensures { result ≡ act_event self }
    {
        match self {
            Act::Issue { command, .. } => Event::Issue { command },
            Act::Poll { .. } => Event::Poll,
            Act::WriteQueue { queue, config } => Event::WriteQueue { queue, config },
            Act::WriteGroup { group, config } => Event::WriteGroup { group, config },
            Act::ClearError => Event::ClearError,
        }
    }

    /// Whether the administrator goes on after this answer.
    pub fn is_through(self, reply: &Reply) -> bool
        ensures { result ≡ is_through reply.now self }
    {
        match (reply, self) {
            (Reply::Issue(answer), Act::Issue { again, .. }) => !(again && is_busy(*answer)),
            (Reply::Poll(answer), Act::Poll { until }) => until.ends_polling(*answer),
            _ => true,
        }
    }

    /// The number of what an administrator does after an answer to the act of this number.
    pub fn after(self, reply: &Reply, next: u32) -> u32
        requires { next + 1 < 2 ^ 32 }
        ensures { result ≡ act_after reply.now next self }
    {
        if self.is_through(reply) {
            next + 1
        } else {
            next
        }
    }
}

impl ClientTurn {
    /// What is asked for.
    pub fn event(&self) -> Event
        ensures { result ≡ submission_event self.now }
    {
        Event::Submit {
            client: self.client,
            queue: self.submission.queue,
            portal: self.submission.portal,
            kind: self.submission.kind,
            desc: self.desc,
        }
    }

    /// Behind the submission and its members.
    pub fn place_behind(&self) -> ClientPlace
        requires { self.now.place.next + 1 + self.now.submission.members < 2 ^ 32 }
        ensures { result ≡ place_behind self.now }
    {
        ClientPlace {
            next: self.place.next + 1 + self.submission.members,
            refusals: 0,
        }
    }

    /// Where a client stands that is told to retry, by its policy.
    pub fn place_by(&self, policy: RetryPolicy) -> ClientPlace
        requires { self.now.place.next + 1 + self.now.submission.members < 2 ^ 32 }
        ensures { result ≡ place_by policy self.now }
    {
        match policy {
            RetryPolicy::GiveUp => self.place_behind(),
            RetryPolicy::Again => self.place,
            RetryPolicy::AtMost(most) => {
                if self.place.refusals < most {
                    ClientPlace {
                        next: self.place.next,
                        refusals: self.place.refusals + 1,
                    }
                } else {
                    self.place_behind()
                }
            }
        }
    }

    /// Where the client stands after an answer.
    pub fn place_after(&self, reply: &Reply) -> ClientPlace
        requires { self.now.place.next + 1 + self.now.submission.members < 2 ^ 32 }
        ensures { result ≡ place_after reply.now self.now }
    {
        match reply {
            Reply::Submit(SubmitAnswer::Accepted(_) | SubmitAnswer::Dropped(_)) => {
                self.place_behind()
            }
            Reply::Submit(SubmitAnswer::Retry(_)) => self.place_by(self.submission.retry),
            _ => self.place,
        }
    }
}
