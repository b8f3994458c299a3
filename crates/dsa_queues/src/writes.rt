//! Writes of configurations, and the noted error.

ghost use Rattle.std.specs.Prelude.{◌≡◌};
ghost use Rattle.dsa_book.specs.Commands.{write_queue, write_group};
ghost use Rattle.dsa_queues.specs.Write.{write_queue_reason, write_group_reason, clear_reason};

use crate::{ClearReason, Queues, WriteReason};
use dsa_book::WriteAnswer;
use dsa_regs::{GroupConfig, Phase, QueueConfig};

impl Queues {
    /// Why this configuration of the queue would be refused: the first reason that holds. `None`
    /// exactly where it would be written.
    pub fn why_write_queue(&self, queue: u16, config: &QueueConfig) -> Option<WriteReason>
        ensures { result ≡ write_queue_reason self.now.setup queue config.now }
    {
        if !self.has_queue(queue) {
            let count = self.caps().queues;
            return Some(WriteReason::BadIndex { count });
        }
        let phase = self.phase(queue);
        if phase != Phase::Off {
            return Some(WriteReason::LockedQueue { phase });
        }
        let (phase, size) = (self.device(), self.queue(queue).size);
        if phase != Phase::Off && config.size != size {
            return Some(WriteReason::LockedSize { phase, size });
        }
        None
    }

    /// Writes the configuration of a queue, whatever its values, where no reason refuses it
    /// ([`Queues::why_write_queue`]).
    pub fn write_queue(&mut self, queue: u16, config: QueueConfig) -> WriteAnswer
        ensures answer { write_queue self.old.setup queue config ≡ (result, self.new.setup) }
        ensures held { self.new.held ≡ self.old.held }
    {
        if let Some(reason) = self.why_write_queue(queue, &config) {
            return WriteAnswer::Refused(reason.fault());
        }
        self.set_queue(queue, config);
        WriteAnswer::Written
    }

    /// Why a configuration of the group would be refused: the first reason that holds. `None`
    /// exactly where it would be written.
    pub fn why_write_group(&self, group: u16) -> Option<WriteReason>
        ensures { result ≡ write_group_reason self.now.setup group }
    {
        let count = self.caps().groups;
        if group >= count {
            return Some(WriteReason::BadIndex { count });
        }
        match self.device() {
            Phase::Off => None,
            phase => Some(WriteReason::LockedGroup { phase }),
        }
    }

    /// Writes the configuration of a group, whatever its values, where no reason refuses it
    /// ([`Queues::why_write_group`]).
    pub fn write_group(&mut self, group: u16, config: GroupConfig) -> WriteAnswer
        ensures answer { write_group self.old.setup group config ≡ (result, self.new.setup) }
        ensures held { self.new.held ≡ self.old.held }
    {
        if let Some(reason) = self.why_write_group(group) {
            return WriteAnswer::Refused(reason.fault());
        }
        self.set_group(group, config);
        WriteAnswer::Written
    }

    /// Why no error would be cleared. `None` exactly where one is noted.
    pub fn why_clear(&self) -> Option<ClearReason>
        ensures { result ≡ clear_reason self.now.setup.noted }
    {
        match self.noted() {
            Some(_) => None,
            None => Some(ClearReason::NothingNoted),
        }
    }
}
