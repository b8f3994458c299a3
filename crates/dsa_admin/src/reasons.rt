//! Why a command is refused, and why the active one is not over.

ghost use Rattle.std.specs.Prelude.{◌≡◌, Some};
ghost use Rattle.dsa_regs.specs.declared.Command.{Command};
ghost use Rattle.dsa_book.specs.State.{State};
ghost use Rattle.dsa_book.specs.Commands.{issue, poll};
ghost use Rattle.dsa_admin.specs.Command.{fault_of_command, issue_by, issue_reason, poll_answer_by, poll_reason};

use dsa_book::PollAnswer;
use dsa_regs::{CheckReason, Command, Fault, Phase};

/// What refuses a command, in the order in which the causes are tried.
#[derive(Clone, Copy, Debug, PartialEq, Eq)]
pub enum IssueReason {
    /// Another command is active, and waits for so many held entries.
    Busy { active: Command, awaited: u64 },
    /// The device does not have this queue that is named, the first such; `None` where no queue is
    /// named.
    NoQueue { queue: Option<u32> },
    /// The queue, the first such that is named, is not in a phase that the command needs; `None`
    /// where it is the device that is not.
    WrongPhase { queue: Option<u32>, phase: Phase },
    /// The check of an enable finds this of the configuration.
    Check(CheckReason),
}

impl IssueReason {
    /// The fault that is answered for the reason.
    pub fn fault(&self) -> Fault
        ensures { result ≡ fault_of_command self.now }
    {
        match self {
            IssueReason::Busy { .. } => Fault::Busy,
            IssueReason::NoQueue { .. } => Fault::BadQueue,
            IssueReason::WrongPhase { .. } => Fault::WrongState,
            IssueReason::Check(reason) => reason.fault(),
        }
    }
}

/// Why one who asks after the active command is not told that it is over.
#[derive(Clone, Copy, Debug, PartialEq, Eq)]
pub enum PollReason {
    /// No command is active.
    Nothing,
    /// The active command waits for so many held entries.
    Waits { awaited: u64 },
}

impl PollReason {
    /// The answer for the reason.
    pub fn answer(&self) -> PollAnswer
        ensures { result ≡ poll_answer_by (Some self.now) }
    {
        match self {
            PollReason::Nothing => PollAnswer::Nothing,
            PollReason::Waits { .. } => PollAnswer::Active,
        }
    }
}

/// The machine refuses a command for the fault of its reason, and carries it out exactly where
/// there is none.
pub fn commands_follow_reasons()
    ensures { (s : State) (command : Command)
        → issue s command ≡ issue_by s command (issue_reason s command) }
{}

/// The machine answers one who asks after the active command by the reason, and that it is over
/// exactly where there is none.
pub fn polls_follow_reasons()
    ensures { (s : State) → (poll s).0 ≡ poll_answer_by (poll_reason s) }
{}
