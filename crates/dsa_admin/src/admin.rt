//! The active command, and what is issued and polled.

ghost use Rattle.std.specs.Prelude.{◌≡◌, ℕ, ◌+◌, ◌-◌, ◌<◌, ◌≤◌, IsTrue, cond, List, None, Option, length, true};
ghost use Rattle.std.specs.Option.{option_map};
ghost use Rattle.dsa_store.specs.Content.{Content, count_where, held_count};
ghost use Rattle.dsa_book.specs.declared.fate.FateRow.{FateRow};
ghost use Rattle.dsa_book.specs.declared.note.ActiveCommand.{ActiveCommand};
ghost use Rattle.dsa_regs.specs.Caps.{check_caps};
ghost use Rattle.dsa_regs.specs.declared.Deed.TheVariants.{Enable};
ghost use Rattle.dsa_regs.specs.Command.{scope_of, deed_of};
ghost use Rattle.dsa_book.specs.State.{State};
ghost use Rattle.dsa_book.specs.Commands.{issue, poll, command_done_of, wait_of, after_stop, after_enable, may_come};
ghost use Rattle.dsa_engines.specs.Engines.{EnginesState, IsInStep};
ghost use Rattle.dsa_queues.specs.Queues.{IsCounted};
ghost use Rattle.dsa_admin.specs.Admin.{IsAwaiting, IsUnrefused, is_awaited_by, is_counted_by, is_waited_for, state};
ghost use Rattle.dsa_admin.specs.Command.{issue_reason, poll_reason};

use crate::abort::{abort_alone, reset};
use crate::ends::{count_awaited, count_watched, is_at_end};
use crate::refusals::{found_by_check, phase_reason, queue_reason};
use crate::scope::{is_waited_for, is_watched};
use crate::{IssueReason, PollReason};
use dsa_book::{ActiveCommand, Book, IssueAnswer, PollAnswer};
use dsa_engines::Engines;
use dsa_queues::Queues;
use dsa_regs::{Command, Deed, Phase, Scope};
use dsa_store::{Entry, EntryStore};
use std::marker::Model;

/// The command that is not over yet, if there is one, with the name that was the next one when it
/// was issued, and the number of entries that it still waits for, where it is a drain.
#[derive(Drop)]
pub struct Admin {
    active: Option<ActiveCommand>,
    awaited: u32,
}

impl Model for Admin {
    ghost use Rattle.dsa_admin.specs.Admin.{Watch};

    ghost Value = { Watch };

    ghost view = { λ a. record { active = a.active; awaited = a.awaited } };
}

// A disable brings the device with its queues, or the named queues, to this phase; other commands
// stop nothing.
fn stop(queues: &mut Queues, command: &Command, phase: Phase)
    ensures { queues.new
        ≡ record queues.old {
          setup = after_stop (deed_of command.now) (scope_of command.now) phase
              queues.old.setup;
        } }
{
    let Deed::Disable = command.deed() else {
        return;
    };
    match command.scope() {
        Scope::Device => {
            queues.set_live_phases(phase);
            queues.set_device(phase);
        }
        scope => queues.set_phases(&scope, phase),
    }
}

// Turns the device or the queue On. No command enables by a mask or a PASID.
fn enable(queues: &mut Queues, engines: &mut Engines, scope: &Scope)
    requires unrefused { IsUnrefused queues.old.setup Enable scope.now }
    requires caps { IsTrue (check_caps queues.old.setup.caps) }
    requires notes { length engines.old.notes ≡ queues.old.setup.caps.engines }
    ensures enabled { queues.new
        ≡ record queues.old { setup = after_enable scope.now queues.old.setup } }
    ensures notes { engines.new.notes ≡ engines.old.notes }
    ensures in_step { (cells : ℕ) (content : Content)
        → IsInStep queues.old.setup engines.old cells content
        → IsInStep queues.new.setup engines.new cells content }
{
    match scope {
        Scope::Device => {
            queues.set_device(Phase::On);
            engines.enable(queues);
        }
        Scope::Queue(queue) => queues.set_phase(*queue as u16, Phase::On),
        _ => {}
    }
}

impl Admin {
    /// No command is active.
    pub fn new() -> Admin
        ensures { result ≡ record { active = None; awaited = 0 } }
    {
        Admin {
            active: None,
            awaited: 0,
        }
    }

    /// The command that is not over yet.
    #[inline(always)]
    pub fn active(&self) -> Option<ActiveCommand>
        ensures { result ≡ self.now.active }
    {
        self.active
    }

    /// How many held entries the active command still waits for, by the numbers that are kept.
    /// `None` exactly when no command is active. Looks at no list.
    pub fn awaited(&self, queues: &Queues) -> Option<u64>
        ensures { (content : Content)
            → IsCounted queues.now content
            → IsAwaiting self.now queues.now.setup.next_name content
            → result
            ≡ option_map
            (λ active. count_where (is_waited_for active) content) self.now.active }
    {
        let active = self.active?;
        Some(count_awaited(queues, &active, self.awaited))
    }

    /// Whether the active command waits for the entry. It does for none where no command is active.
    pub fn awaits(&self, entry: &Entry) -> bool
        ensures { result ≡ is_awaited_by self.now.active entry.now }
    {
        match &self.active {
            Some(active) => is_waited_for(active, entry),
            None => false,
        }
    }

    /// Why the command would be refused: the first reason that holds. `None` exactly where it would
    /// be carried out.
    pub fn why_issue(&self, queues: &Queues, command: &Command) -> Option<IssueReason>
        ensures reason { (s : State)
            → s.active ≡ self.now.active
            → s.work.setup ≡ queues.now.setup
            → IsCounted queues.now s.work.content
            → IsAwaiting self.now queues.now.setup.next_name s.work.content
            → result ≡ issue_reason s command.now }
        ensures idle { result ≡ None → self.now.active ≡ None }
        ensures unrefused { result ≡ None
            → IsUnrefused queues.now.setup (deed_of command.now) (scope_of command.now) }
    {
        if let Some(active) = self.active {
            return Some(IssueReason::Busy {
                active: active.command,
                awaited: count_awaited(queues, &active, self.awaited),
            });
        }
        let (deed, scope) = (command.deed(), command.scope());
        if let Some(reason) = queue_reason(queues, &scope) {
            return Some(reason);
        }
        if let Some(reason) = phase_reason(queues, deed, &scope) {
            return Some(reason);
        }
        let reason = found_by_check(queues, deed, &scope)?;
        Some(IssueReason::Check(reason))
    }

    // The command ends at once where nothing is to be waited for, else it is active from here on.
    fn wait<S: EntryStore>(
        &mut self,
        queues: &mut Queues,
        store: &S,
        command: Command,
    ) -> IssueAnswer
        requires counted { IsCounted queues.old (S.content store.now) }
        requires idle { self.old.active ≡ None }
        ensures waiting { (engines_state : EnginesState) (fates : List FateRow)
            → wait_of
            (state queues.old.setup engines_state (S.content store.now) fates
            self.old.active)
            command
            ≡ (
              result,
              state queues.new.setup engines_state (S.content store.now) fates
                  self.new.active,
            ) }
        ensures in_step { (engines_state : EnginesState)
            → may_come queues.old.setup (deed_of command) (scope_of command) ≡ true
            → IsInStep queues.old.setup engines_state (S.cells store.now) (S.content store.now)
            → IsInStep queues.new.setup engines_state (S.cells store.now) (S.content store.now) }
        ensures counted { IsCounted queues.new (S.content store.now) }
        ensures awaiting { IsAwaiting self.new queues.new.setup.next_name (S.content store.now) }
    {
        let active = ActiveCommand {
            command,
            mark: queues.next_name(),
        };
        let awaited = count_watched(store, &active);
        if is_at_end(queues, &active, awaited) {
            stop(queues, &command, Phase::Off);
            return IssueAnswer::Ended { aborted: 0 };
        }
        stop(queues, &command, Phase::Stopping);
        self.active = Some(active);
        self.awaited = awaited;
        IssueAnswer::Active
    }

    // Does what the command does, where nothing refuses it.
    fn carry_out<S: EntryStore>(
        &mut self,
        queues: &mut Queues,
        engines: &mut Engines,
        store: &mut S,
        book: &mut Book,
        command: Command,
    ) -> IssueAnswer
        requires idle { self.old.active ≡ None }
        requires unrefused { IsUnrefused queues.old.setup (deed_of command) (scope_of command) }
        requires in_step { IsInStep queues.old.setup engines.old (S.cells store.old)
            (S.content store.old) }
        requires counted { IsCounted queues.old (S.content store.old) }
        requires room { length book.old.fates + held_count (S.content store.old)
            ≤ book.old.row_room }
        ensures carried { command_done_of
            (state queues.old.setup engines.old (S.content store.old) book.old.fates
            self.old.active)
            command
            ≡ (
              result,
              state queues.new.setup engines.new (S.content store.new) book.new.fates
                  self.new.active,
            ) }
        ensures book { book.new ≡ record book.old { fates = book.new.fates } }
        ensures in_step { IsInStep queues.new.setup engines.new (S.cells store.new)
            (S.content store.new) }
        ensures counted { IsCounted queues.new (S.content store.new) }
        ensures awaiting { IsAwaiting self.new queues.new.setup.next_name (S.content store.new) }
    {
        match command.deed() {
            Deed::Enable => {
                enable(queues, engines, &command.scope());
                IssueAnswer::Ended { aborted: 0 }
            }
            Deed::Disable => self.wait(queues, store, command),
            Deed::Drain => self.wait(queues, store, command),
            Deed::Abort => abort_alone(queues, engines, store, book, &command),
            Deed::Reset => reset(queues, engines, store, book, &command),
        }
    }

    /// Issues a command.
    ///
    /// Where there is a reason ([`Admin::why_issue`]), its fault answers the command, and nothing
    /// changes.
    ///
    /// Enables, aborts and resets are over at once, and so is a drain or a disable that nothing is
    /// held for; `Ended` gives the number of aborted entries, each of which has a new row in the
    /// book. Else the drain or the disable is active until [`Admin::poll`] finds it over. Walks the
    /// lists, but for an enable and a disable.
    ///
    /// The book needs room for a row of each entry that is held.
    pub fn issue<S: EntryStore>(
        &mut self,
        queues: &mut Queues,
        engines: &mut Engines,
        store: &mut S,
        book: &mut Book,
        command: Command,
    ) -> IssueAnswer
        requires in_step { IsInStep queues.old.setup engines.old (S.cells store.old)
            (S.content store.old) }
        requires counted { IsCounted queues.old (S.content store.old) }
        requires awaiting { IsAwaiting self.old queues.old.setup.next_name (S.content store.old) }
        requires room { length book.old.fates + held_count (S.content store.old)
            ≤ book.old.row_room }
        ensures issued { issue
            (state queues.old.setup engines.old (S.content store.old) book.old.fates
            self.old.active)
            command
            ≡ (
              result,
              state queues.new.setup engines.new (S.content store.new) book.new.fates
                  self.new.active,
            ) }
        ensures book { book.new ≡ record book.old { fates = book.new.fates } }
        ensures in_step { IsInStep queues.new.setup engines.new (S.cells store.new)
            (S.content store.new) }
        ensures counted { IsCounted queues.new (S.content store.new) }
        ensures awaiting { IsAwaiting self.new queues.new.setup.next_name (S.content store.new) }
    {
        if let Some(reason) = self.why_issue(queues, &command) {
            return IssueAnswer::Refused(reason.fault());
        }
        self.carry_out(queues, engines, store, book, command)
    }

    /// Why one who asks after the active command would not be told that it is over. `None` exactly
    /// where that would be told. Looks at numbers that are kept, and at no list.
    pub fn why_poll(&self, queues: &Queues) -> Option<PollReason>
        ensures { (s : State)
            → s.active ≡ self.now.active
            → IsCounted queues.now s.work.content
            → IsAwaiting self.now queues.now.setup.next_name s.work.content
            → result ≡ poll_reason s }
    {
        match self.awaited(queues) {
            None => Some(PollReason::Nothing),
            Some(0) => None,
            Some(awaited) => Some(PollReason::Waits { awaited }),
        }
    }

    /// Asks after the active command. It is over, and no more active, when nothing is held that it
    /// waits for: a drain waits for the entries of its scope that were submitted before it, a
    /// disable for all of its scope. Looks at no list.
    pub fn poll(&mut self, queues: &mut Queues) -> PollAnswer
        ensures polled { (engines_state : EnginesState) (content : Content) (fates : List FateRow)
            → IsCounted queues.old content
            → IsAwaiting self.old queues.old.setup.next_name content
            → poll (state queues.old.setup engines_state content fates self.old.active)
            ≡ (result, state queues.new.setup engines_state content fates self.new.active) }
        ensures in_step { (engines_state : EnginesState) (cells : ℕ) (content : Content)
            → IsCounted queues.old content
            → IsAwaiting self.old queues.old.setup.next_name content
            → IsInStep queues.old.setup engines_state cells content
            → IsInStep queues.new.setup engines_state cells content }
        ensures counted { (content : Content)
            → IsCounted queues.old content
            → IsCounted queues.new content }
        ensures awaiting { (content : Content)
            → IsAwaiting self.old queues.old.setup.next_name content
            → IsAwaiting self.new queues.new.setup.next_name content }
    {
        if let Some(reason) = self.why_poll(queues) {
            return reason.answer();
        }
        if let Some(active) = self.active.take() {
            stop(queues, &active.command, Phase::Off);
        }
        PollAnswer::Finished
    }

    // Whether the entry is one that the active command counts.
    #[inline(always)]
    fn is_counted_by(&self, entry: &Entry) -> bool
        ensures { result ≡ is_counted_by self.now entry.now }
    {
        match &self.active {
            Some(active) => is_watched(active, entry),
            None => false,
        }
    }

    /// An entry has ended. Where the active command waited for it, it waits for one less.
    #[inline(always)]
    pub fn ended(&mut self, entry: &Entry)
        requires { is_counted_by self.old entry.now ≡ true → 0 < self.old.awaited }
        ensures { self.new
            ≡ record self.old
            { awaited = self.old.awaited - cond (is_counted_by self.old entry.now) 1 0 } }
    {
        if self.is_counted_by(entry) {
            self.awaited -= 1;
        }
    }
}
