//! What a device tells of itself.

ghost use Rattle.std.specs.Prelude.{◌≡◌, ◌≤◌, ◌==◌, false, nat_lt, find, length};
ghost use Rattle.dsa_regs.specs.Caps.{cell_count};
ghost use Rattle.dsa_regs.specs.Config.{queue_at, group_at};
ghost use Rattle.std.specs.Option.{option_map};
ghost use Rattle.dsa_base.specs.Rows.{when};
ghost use Rattle.dsa_store.specs.Content.{held_count};
ghost use Rattle.dsa_book.specs.State.{occupancy, phase_at};
ghost use Rattle.dsa_book.specs.Work.{used, note_at};
ghost use Rattle.dsa_admin.specs.Admin.{is_awaited_by};
ghost use Rattle.dsa_laws.specs.WellFormed.{IsWellFormed};
ghost use Rattle.dsa_laws.specs.Forgotten.{IsLawful};
ghost use Rattle.dsa_device.specs.Running.{HasPast, IsReplay};
ghost use Rattle.dsa_device.specs.Reads.{awaited, is_held};

use super::Device;
use dsa_book::{ActiveCommand, BatchNote, Fate, FateRow, NotedError, Step, Ticket};
use dsa_regs::{Caps, Command, GroupConfig, Phase, QueueConfig};
use dsa_store::{Entry, EntryStore};

impl<S: EntryStore> Device<S> {
    /// What the device has, as it was made.
    pub fn caps(&self) -> Caps
        ensures { result ≡ self.now.caps }
    {
        self.caps
    }

    /// For how many steps the device took memory: the capacity that it was made with.
    pub fn room(&self) -> u64
        ensures { result ≡ self.now.room }
    {
        self.book.room() as u64
    }

    /// Whether the history began anew.
    pub fn is_anew(&self) -> bool
        ensures { result ≡ self.now.anew }
    {
        self.book.is_anew()
    }

    /// How many steps the history may have. That is less than `room` only where fewer names were
    /// left when the history began anew.
    pub fn capacity(&self) -> u64
        ensures { result ≡ self.now.capacity }
    {
        self.book.capacity() as u64
    }

    /// The phase of the device.
    pub fn phase(&self) -> Phase
        ensures { result ≡ self.now.state.work.setup.device }
    {
        self.queues.device()
    }

    /// The phase of the queue. `None` exactly when the device has no such queue.
    pub fn queue_phase(&self, queue: u16) -> Option<Phase>
        ensures { result
            ≡ when (nat_lt queue self.now.caps.queues) (phase_at self.now.state.work.setup queue) }
    {
        (queue < self.caps.queues).then_some(self.queues.phase(queue))
    }

    /// The configuration of the queue. `None` exactly when the device has no such queue.
    pub fn queue_config(&self, queue: u16) -> Option<QueueConfig>
        ensures { result
            ≡ when (nat_lt queue self.now.caps.queues)
            (queue_at self.now.state.work.setup.configs queue) }
    {
        (queue < self.caps.queues).then_some(self.queues.queue(queue))
    }

    /// The configurations of all queues, by number.
    pub fn queue_configs(&self) -> &[QueueConfig]
        ensures { result.now ≡ self.now.state.work.setup.configs }
    {
        self.queues.configs()
    }

    /// The configurations of all groups, by number.
    pub fn group_configs(&self) -> &[GroupConfig]
        ensures { result.now ≡ self.now.state.work.setup.groups }
    {
        self.queues.groups()
    }

    /// The configuration of the group. `None` exactly when the device has no such group.
    pub fn group_config(&self, group: u16) -> Option<GroupConfig>
        ensures { result
            ≡ when (nat_lt group self.now.caps.groups)
            (group_at self.now.state.work.setup.groups group) }
    {
        (group < self.caps.groups).then_some(self.queues.group(group))
    }

    /// The number of entries that wait in the queue; those that engines have taken are not counted
    /// (profile). `None` exactly when the device has no such queue.
    pub fn occupancy(&self, queue: u16) -> Option<u16>
        ensures { result
            ≡ when (nat_lt queue self.now.caps.queues)
            (occupancy self.now.state.work.content queue) }
    {
        self.queues.occupancy(&self.store, queue)
    }

    /// The number of read buffers that the running entries of the group's engines hold. `None`
    /// exactly when the device has no such group.
    pub fn used(&self, group: u16) -> Option<u16>
        ensures { result
            ≡ when (nat_lt group self.now.caps.groups) (used self.now.state.work group) }
    {
        if group >= self.caps.groups {
            return None;
        }
        match self.queues.device() {
            Phase::Off => Some(0),
            _ => Some(self.engines.used(group)),
        }
    }

    /// The error that is noted of descriptors which MOVDIR64B wrote and no queue took.
    pub fn noted(&self) -> Option<NotedError>
        ensures { result ≡ self.now.state.work.setup.noted }
    {
        self.queues.noted()
    }

    /// What is noted of the batch that the engine works on. `None` exactly when it works on none,
    /// or the device has no such engine.
    pub fn batch(&self, engine: u16) -> Option<BatchNote>
        ensures { result ≡ note_at self.now.state.work engine }
    {
        self.engines.note(engine)
    }

    /// Whether the device holds the entry of that ticket still, in any list.
    pub fn holds(&self, ticket: Ticket) -> bool
        ensures { result ≡ is_held self.now.state.work.content ticket }
    {
        match self.store.get(ticket.cell) {
            Some(entry) => entry.name == ticket.name,
            None => false,
        }
    }

    /// The command that is not over yet, with the name that was the next one when it was issued.
    pub fn active_command(&self) -> Option<ActiveCommand>
        ensures { result ≡ self.now.state.active }
    {
        self.admin.active()
    }

    /// The command that is not over yet.
    pub fn active(&self) -> Option<Command>
        ensures { result ≡ option_map (λ active. active.command) self.now.state.active }
    {
        self.active_command().map(|active| active.command)
    }

    /// How many held entries the active command still waits for: of a drain's scope those that were
    /// submitted before it, all of a disable's. `None` exactly when no command is active.
    pub fn awaited(&self) -> Option<u32>
        ensures { result ≡ awaited self.now.state }
    {
        let awaited = self.admin.awaited(&self.queues)?;
        Some(awaited as u32)
    }

    /// Whether the active command still waits for the entry. It does for none where no command is
    /// active.
    pub fn awaits(&self, entry: &Entry) -> bool
        ensures { result ≡ is_awaited_by self.now.state.active entry.now }
    {
        self.admin.awaits(entry)
    }

    /// The number of entries that the device holds, in all queues and engines.
    pub fn held(&self) -> u32
        ensures value { result ≡ held_count self.now.state.work.content }
        ensures bound { result ≤ cell_count self.now.caps }
    {
        self.store.cells() - self.store.free()
    }

    /// The name that the next entry gets, which is the number of names that were given.
    pub fn next_name(&self) -> u32
        ensures { result ≡ self.now.state.work.setup.next_name }
    {
        self.queues.next_name()
    }

    /// Whether the history has no room left, so that each step is answered `Full`.
    pub fn is_full(&self) -> bool
        ensures { result ≡ (length self.now.history == self.now.capacity) }
    {
        self.book.is_full()
    }

    /// The steps that were stored, the first one first.
    pub fn history(&self) -> &[Step]
        ensures { result.now ≡ self.now.history }
    {
        self.book.history()
    }

    /// A row for each entry that ended, in the order in which they did.
    pub fn fates(&self) -> &[FateRow]
        ensures { result.now ≡ self.now.state.work.fates }
    {
        self.book.fates()
    }

    /// What became of the entry of that name. `None` exactly while it is held, no entry has the
    /// name, or its fate was forgotten.
    pub fn fate(&self, name: u32) -> Option<Fate>
        ensures { result
            ≡ option_map (λ row. row.fate)
            (find (λ row. row.name == name) self.now.state.work.fates) }
    {
        self.book.fate(name).map(|row| row.fate)
    }

    /// What holds of every device, for a caller to name. A history that did not begin anew is a
    /// legal one within its capacity, the state is what the machine comes to by it, and so is well
    /// formed. Of any other the same holds with the steps before it and the fates that were
    /// forgotten. The call does nothing.
    pub fn state_is_replay(&self)
        ensures replay { self.now.anew ≡ false → IsReplay self.now }
        ensures well_formed { self.now.anew ≡ false → IsWellFormed self.now.caps self.now.state }
        ensures past { HasPast self.now }
        ensures lawful { IsLawful self.now.caps self.now.state }
    {
        let _book = &self.book;
    }
}
