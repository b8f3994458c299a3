//! Why a step of a client or of the administrator would be refused.

ghost use Rattle.std.specs.Prelude.{◌≡◌};
ghost use Rattle.dsa_store.specs.Content.{count_where};
ghost use Rattle.dsa_book.specs.Machine.{intake_of};
ghost use Rattle.dsa_queues.specs.Submission.{submit_reason};
ghost use Rattle.dsa_queues.specs.Write.{clear_reason, write_group_reason, write_queue_reason};
ghost use Rattle.dsa_admin.specs.Admin.{is_waited_for};
ghost use Rattle.dsa_admin.specs.Command.{issue_reason, poll_reason};

use super::Device;
use dsa_admin::{IssueReason, PollReason, count_waited};
use dsa_book::{ActiveCommand, Kind, Portal};
use dsa_queues::{ClearReason, SubmitReason, WriteReason};
use dsa_regs::{Command, QueueConfig};
use dsa_store::EntryStore;

impl<S: EntryStore> Device<S> {
    /// Why this submission would be turned away. `None` exactly where it would be accepted.
    pub fn why_submit(&self, queue: u16, portal: Portal, kind: Kind) -> Option<SubmitReason>
        ensures { result ≡ submit_reason (intake_of self.now.state) queue portal kind }
    {
        self.queues.why_submit(&self.store, queue, portal, kind)
    }

    /// Why this command would be refused. `None` exactly where it would be carried out.
    pub fn why_issue(&self, command: Command) -> Option<IssueReason>
        ensures { result ≡ issue_reason self.now.state command }
    {
        self.admin.why_issue(&self.queues, &command)
    }

    /// Why one who asks after the active command would not be told that it is over. `None` exactly
    /// where that would be told.
    pub fn why_poll(&self) -> Option<PollReason>
        ensures { result ≡ poll_reason self.now.state }
    {
        self.admin.why_poll(&self.queues)
    }

    /// Why this configuration of the queue would be refused. `None` exactly where it would be
    /// written.
    pub fn why_write_queue(&self, queue: u16, config: &QueueConfig) -> Option<WriteReason>
        ensures { result ≡ write_queue_reason self.now.state.work.setup queue config.now }
    {
        self.queues.why_write_queue(queue, config)
    }

    /// Why a configuration of the group would be refused. `None` exactly where it would be written.
    pub fn why_write_group(&self, group: u16) -> Option<WriteReason>
        ensures { result ≡ write_group_reason self.now.state.work.setup group }
    {
        self.queues.why_write_group(group)
    }

    /// Why no error would be cleared. `None` exactly where one is noted.
    pub fn why_clear(&self) -> Option<ClearReason>
        ensures { result ≡ clear_reason self.now.state.work.setup.noted }
    {
        self.queues.why_clear()
    }

    /// How many held entries a command waits for that is active so. Walks the lists.
    pub fn count_waited(&self, active: &ActiveCommand) -> u32
        ensures { result ≡ count_where (is_waited_for active.now) self.now.state.work.content }
    {
        count_waited(&self.store, active)
    }
}
