//! What a script remembers: of each of its watches, whether it has come.

ghost use Rattle.std.specs.Prelude.{◌≡◌};
ghost use Rattle.std.specs.List.{list_any};
ghost use Rattle.dsa_parties.specs.Standing.{Standing, stand_of};
ghost use Rattle.dsa_parties.specs.Watches.{asks_for_act, came_after, is_ahead, is_answered_so};
ghost use Rattle.dsa_parties.specs.Watches.{is_end_so, is_ended_so, is_replied_so, is_watch_seen};
ghost use Rattle.dsa_parties.specs.Watches.{is_submitted_so, is_to_do, submits_label};

use crate::places::{Move, Places};
use crate::script::{Part, Script};
use dsa_book::{
    ClearAnswer, Fate, FateRow, IssueAnswer, PollAnswer, Reply, SubmitAnswer, WriteAnswer,
};

/// What becomes of an entry.
#[derive(Clone, Copy, Debug, PartialEq, Eq)]
pub enum Became {
    Accepted,
    /// ENQCMD was told to come again, whatever the cause.
    Retry,
    /// MOVDIR64B wrote what no queue took, whatever the cause.
    Dropped,
    /// An engine ended it, with any status.
    Completed,
    /// An engine ended it, with status 01.
    Successful,
    /// An engine ended it, with another status.
    Failed,
    /// A command took it out, whichever.
    Aborted,
    /// It is a member that never ran: a member before its fence failed.
    Abandoned,
}

/// What is answered to a step of an administrator.
#[derive(Clone, Copy, Debug, PartialEq, Eq)]
pub enum Replied {
    /// A command is carried out, whatever it aborted.
    Ended,
    /// A command waits, or a poll found that one does.
    Active,
    /// A command or a write changed nothing, whatever the fault.
    Refused,
    /// A poll found that the command is over.
    Finished,
    /// A poll found no command, or a clear no error.
    Nothing,
    /// A write of a configuration was made.
    Written,
    /// A clear found an error.
    Cleared,
}

/// What may come of a step. A script remembers of each of its watches whether it has come.
#[derive(Clone, Copy, Debug, PartialEq, Eq)]
pub enum Watch {
    /// The entry with this label became so.
    Entry { label: u32, became: Became },
    /// The act of this number was answered so.
    Act { act: u32, replied: Replied },
    /// The entry with this label was accepted while the act of this number was still to be done.
    Before { label: u32, act: u32 },
}

/// What a step shows: who moved, and by labels the reply and the rows of what ended.
#[derive(Clone, Copy, Debug)]
pub struct Shown<'a> {
    pub made: Move,
    pub reply: Reply,
    pub ends: &'a [FateRow],
}

impl Became {
    /// Whether a submission is answered so.
    pub fn is_submitted_so(self, answer: SubmitAnswer) -> bool
        ensures { result ≡ is_submitted_so self answer }
    {
        matches!(
            (self, answer),
            (Became::Accepted, SubmitAnswer::Accepted(_))
                | (Became::Retry, SubmitAnswer::Retry(_))
                | (Became::Dropped, SubmitAnswer::Dropped(_))
        )
    }

    /// Whether an entry ends so.
    pub fn is_ended_so(self, ending: Fate) -> bool
        ensures { result ≡ is_ended_so self ending }
    {
        match (self, ending) {
            (Became::Completed, Fate::Completed(_)) => true,
            (Became::Successful, Fate::Completed(status)) => status == 0x01,
            (Became::Failed, Fate::Completed(status)) => status != 0x01,
            (Became::Aborted, Fate::Aborted(_)) => true,
            (Became::Abandoned, Fate::Abandoned) => true,
            _ => false,
        }
    }

    // Whether the reply is such an answer to a submission.
    fn is_answered_so(self, reply: &Reply) -> bool
        ensures { result ≡ is_answered_so self reply.now }
    {
        match *reply {
            Reply::Submit(answer) => self.is_submitted_so(answer),
            _ => false,
        }
    }

    // Whether this row is of the entry with the label, which ended so.
    fn is_end_so(self, label: u32, row: &FateRow) -> bool
        ensures { result ≡ is_end_so label self row.now }
    {
        row.name == label && self.is_ended_so(row.fate)
    }

    // Whether one of these rows is.
    fn has_ended_so(self, label: u32, rows: &[FateRow]) -> bool
        ensures { result ≡ list_any (is_end_so label self) rows.now }
    {
        rows.iter().any(|row| self.is_end_so(label, row))
    }
}

impl Replied {
    /// Whether a step of an administrator is answered so.
    pub fn is_replied_so(self, answer: Reply) -> bool
        ensures { result ≡ is_replied_so self answer }
    {
        match (self, answer) {
            (Replied::Ended, Reply::Issue(IssueAnswer::Ended { .. })) => true,
            (Replied::Active, Reply::Issue(IssueAnswer::Active)) => true,
            (Replied::Active, Reply::Poll(PollAnswer::Active)) => true,
            (Replied::Refused, Reply::Issue(IssueAnswer::Refused(_))) => true,
            (Replied::Refused, Reply::Write(WriteAnswer::Refused(_))) => true,
            (Replied::Finished, Reply::Poll(PollAnswer::Finished)) => true,
            (Replied::Nothing, Reply::Poll(PollAnswer::Nothing)) => true,
            (Replied::Nothing, Reply::Clear(ClearAnswer::Nothing)) => true,
            (Replied::Written, Reply::Write(WriteAnswer::Written)) => true,
            (Replied::Cleared, Reply::Clear(ClearAnswer::Cleared(_))) => true,
            _ => false,
        }
    }
}

// Whether the act is in this part, and not before what its administrator does next.
fn is_ahead(part: Part, next: u32, act: u32) -> bool
    ensures { result ≡ is_ahead act part next }
{
    part.first <= act && act < part.end && next <= act
}

// Whether an administrator has still to do the act: these are their parts, and what each does next.
fn is_to_do(parts: &[Part], nexts: &[u32], act: u32) -> bool
    ensures { result ≡ is_to_do act parts.now nexts.now }
{
    let count = parts.len().min(nexts.len());
    for number in 0..count {
        if is_ahead(parts[number], nexts[number], act) {
            return true;
        }
    }
    false
}

impl Script {
    // Whether the move submits the entry with this label.
    fn submits_label(&self, places: &Places, made: Move, label: u32) -> bool
        ensures { result ≡ submits_label self.now (stand_of places.now) made label }
    {
        let Move::Client(client) = made else {
            return false;
        };
        match self.turn(places, client) {
            Some(turn) => turn.place.next == label,
            None => false,
        }
    }

    // Whether the move asks for the act of this number.
    fn asks_for_act(&self, places: &Places, made: Move, act: u32) -> bool
        ensures { result ≡ asks_for_act self.now (stand_of places.now) made act }
    {
        let Move::Administrator(administrator) = made else {
            return false;
        };
        match self.next_act(places, administrator) {
            Some(next) => next == act,
            None => false,
        }
    }

    /// Whether the step shows what is watched for, where the parties stood there.
    pub fn is_seen(&self, places: &Places, shown: &Shown<'_>, watch: Watch) -> bool
        ensures { result
            ≡ is_watch_seen self.now (stand_of places.now) shown.now.made shown.now.reply
            shown.now.ends.now watch }
    {
        match watch {
            Watch::Entry { label, became } => {
                (self.submits_label(places, shown.made, label)
                    && became.is_answered_so(&shown.reply))
                    || became.has_ended_so(label, shown.ends)
            }
            Watch::Act { act, replied } => {
                self.asks_for_act(places, shown.made, act) && replied.is_replied_so(shown.reply)
            }
            Watch::Before { label, act } => {
                self.submits_label(places, shown.made, label)
                    && Became::Accepted.is_answered_so(&shown.reply)
                    && is_to_do(
                        self.administrators.as_slice(),
                        places.administrators.as_slice(),
                        act,
                    )
            }
        }
    }

    /// Marks each watch that the step shows, where the parties stood there.
    pub fn remember(&self, places: &mut Places, shown: &Shown<'_>)
        ensures { stand_of places.new
            ≡ record (stand_of places.old) {
              came = came_after self.now (stand_of places.old) shown.now.made shown.now.reply
                  shown.now.ends.now;
            } }
    {
        for number in 0..self.watches.len() {
            let watch = self.watches[number];
            if number < places.came.len() && self.is_seen(places, shown, watch) {
                places.came[number] = true;
            }
        }
    }
}
