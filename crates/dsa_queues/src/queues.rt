//! What is kept of the queues and groups: a reader and a setter for each part.

ghost use Rattle.std.specs.Prelude.{◌≡◌, ◌+◌, ◌-◌, ◌==◌, ◌<◌, ◌≤◌, ◌^◌, true, false, IsTrue, IfSome, replicate, slice_index, slice_set, position, Some};
ghost use Rattle.dsa_regs.specs.Caps.{HasList, cell_count, check_caps, list_count, list_number, list_use};
ghost use Rattle.dsa_store.specs.Content.{Content, held_count};
ghost use Rattle.dsa_regs.specs.declared.Scope.TheVariants.{Device};
ghost use Rattle.dsa_base.specs.Numbers.{has};
ghost use Rattle.dsa_base.specs.Rows.{when};
ghost use Rattle.dsa_regs.specs.Config.{queue_at, group_at};
ghost use Rattle.dsa_book.specs.State.{opening_setup, phase_at, is_off, has_queue, limits_at, need_of, held_by, status_of_entry, is_batch_of, is_drain_of};
ghost use Rattle.dsa_book.specs.Submit.{next_noted};
ghost use Rattle.dsa_book.specs.Commands.{clear, reset, with_device, with_phases};
ghost use Rattle.dsa_queues.specs.Queues.{IsWholeSetup, IsCounted};

use arrayvec::ArrayVec;
use dsa_book::{Cause, ClearAnswer, NotedError};
use dsa_desc::{Outcome, QueueLimits};
use dsa_regs::{
    Caps, GroupConfig, GroupTable, ListUse, MAX_QUEUES, Phase, PhaseTable, QueueConfig, QueueTable,
    off_phases, zero_groups, zero_queues,
};
use dsa_store::{Entry, ListId};
use std::marker::Model;

/// The configurations and phases of a device, its next name, its noted error, and for each queue
/// the number of held entries that name it (profile).
///
/// A queue that the device does not have reads as `Off` and all zero, and so does a group.
#[derive(Drop)]
pub struct Queues {
    caps: Caps,
    device: Phase,
    configs: QueueTable,
    phases: PhaseTable,
    groups: GroupTable,
    next_name: u32,
    noted: Option<NotedError>,
    held: ArrayVec<u32, MAX_QUEUES>,
}

impl Model for Queues {
    ghost use Rattle.dsa_queues.specs.Queues.{Kept, IsKept};

    ghost Value = { Kept };

    ghost view = { λ q. record {
      setup = record {
        caps = q.caps;
        device = q.device;
        configs = q.configs.items;
        phases = q.phases.items;
        groups = q.groups.items;
        next_name = q.next_name;
        noted = q.noted;
      };
      held = q.held.items;
    } };

    ghost invariant = { λ q. IsKept (record {
      setup = record {
        caps = q.caps;
        device = q.device;
        configs = q.configs.items;
        phases = q.phases.items;
        groups = q.groups.items;
        next_name = q.next_name;
        noted = q.noted;
      };
      held = q.held.items;
    }) };
}

// The noted error after one more descriptor was dropped.
fn noted_more(noted: Option<NotedError>, queue: u16, cause: Cause) -> NotedError
    ensures { result ≡ next_noted noted queue cause }
{
    match noted {
        Some(first) => NotedError {
            overflow: true,
            ..first
        },
        None => NotedError {
            queue,
            cause,
            overflow: false,
        },
    }
}

// No entry, for each queue.
fn no_entries(queues: u16) -> ArrayVec<u32, MAX_QUEUES>
    requires { queues ≤ MAX_QUEUES }
    ensures { result.items ≡ replicate queues 0 }
{
    let mut held = ArrayVec::new();
    for _ in 0..queues {
        held.push(0);
    }
    held
}

impl Queues {
    /// The queues of a device before anything is written: all zero, all `Off`, no name given, no
    /// error noted and no entry held.
    pub fn new(caps: Caps) -> Queues
        requires { IsTrue (check_caps caps) }
        ensures value { result
            ≡ record { setup = opening_setup caps; held = replicate caps.queues 0 } }
        ensures counted { (content : Content) → held_count content ≡ 0 → IsCounted result content }
    {
        Queues {
            caps,
            device: Phase::Off,
            configs: zero_queues(&caps),
            phases: off_phases(&caps),
            groups: zero_groups(&caps),
            next_name: 0,
            noted: None,
            held: no_entries(caps.queues),
        }
    }

    /// All zero, `Off` and with no error noted again, but for the next name, so that no name is
    /// given twice. The numbers of held entries stay.
    pub fn reset(&mut self)
        ensures { self.new ≡ record self.old { setup = reset Device self.old.setup } }
    {
        self.device = Phase::Off;
        self.configs = zero_queues(&self.caps);
        self.phases = off_phases(&self.caps);
        self.groups = zero_groups(&self.caps);
        self.noted = None;
    }

    /// What the device has. It never changes.
    #[inline(always)]
    pub fn caps(&self) -> Caps
        ensures value { result ≡ self.now.setup.caps }
        ensures whole { IsWholeSetup self.now.setup }
    {
        self.caps
    }

    /// The list of the store that is for this.
    #[inline(always)]
    pub fn list(&self, list: ListUse) -> ListId
        requires { HasList self.now.setup.caps list }
        ensures { result.0 ≡ list_number self.now.setup.caps list }
    {
        ListId(self.caps.list_number(list))
    }

    /// What the list of the store is for.
    #[inline(always)]
    pub fn list_use(&self, list: ListId) -> ListUse
        requires { list.0 < list_count self.now.setup.caps }
        ensures use_of { result ≡ list_use self.now.setup.caps list.0 }
        ensures list { HasList self.now.setup.caps result }
        ensures number { list_number self.now.setup.caps result ≡ list.0 }
    {
        self.caps.list_use(list.0)
    }

    /// The phase of the device.
    #[inline(always)]
    pub fn device(&self) -> Phase
        ensures { result ≡ self.now.setup.device }
    {
        self.device
    }

    /// Brings the device to this phase, and no queue.
    #[inline(always)]
    pub fn set_device(&mut self, phase: Phase)
        ensures { self.new ≡ record self.old { setup = with_device phase self.old.setup } }
    {
        self.device = phase;
    }

    /// Whether the device has the queue.
    #[inline(always)]
    pub fn has_queue(&self, queue: u16) -> bool
        ensures { result ≡ has_queue self.now.setup queue }
    {
        queue < self.caps.queues
    }

    /// The phase of the queue; `Off` where the device has no such queue.
    #[inline(always)]
    pub fn phase(&self, queue: u16) -> Phase
        ensures value { result ≡ phase_at self.now.setup queue }
        ensures known { is_off result ≡ false → has_queue self.now.setup queue ≡ true }
    {
        match self.phases.get(usize::from(queue)) {
            Some(phase) => *phase,
            None => Phase::Off,
        }
    }

    /// The phase of the queue. `None` exactly where the device has no such queue.
    #[inline(always)]
    pub fn known_phase(&self, queue: u16) -> Option<Phase>
        ensures { result ≡ when (has_queue self.now.setup queue) (phase_at self.now.setup queue) }
    {
        if self.has_queue(queue) {
            Some(self.phase(queue))
        } else {
            None
        }
    }

    /// Brings the queue to this phase.
    #[inline(always)]
    pub fn set_phase(&mut self, queue: u16, phase: Phase)
        requires { has_queue self.old.setup queue ≡ true }
        ensures place { self.new
            ≡ record self.old {
              setup = record self.old.setup
                  { phases = slice_set self.old.setup.phases queue phase };
            } }
        ensures alone { self.new
            ≡ record self.old { setup = with_phases (λ q. q == queue) phase self.old.setup } }
    {
        self.phases[usize::from(queue)] = phase;
    }

    /// The configuration of the queue; all zero where the device has no such queue.
    #[inline(always)]
    pub fn queue(&self, queue: u16) -> QueueConfig
        ensures { result ≡ queue_at self.now.setup.configs queue }
    {
        match self.configs.get(usize::from(queue)) {
            Some(config) => *config,
            None => QueueConfig::default(),
        }
    }

    /// The configuration of the group; all zero where the device has no such group.
    #[inline(always)]
    pub fn group(&self, group: u16) -> GroupConfig
        ensures { result ≡ group_at self.now.setup.groups group }
    {
        match self.groups.get(usize::from(group)) {
            Some(config) => *config,
            None => GroupConfig::default(),
        }
    }

    /// The configurations of all queues, by number.
    #[inline(always)]
    pub fn configs(&self) -> &[QueueConfig]
        ensures { result.now ≡ self.now.setup.configs }
    {
        self.configs.as_slice()
    }

    /// The configurations of all groups, by number.
    #[inline(always)]
    pub fn groups(&self) -> &[GroupConfig]
        ensures { result.now ≡ self.now.setup.groups }
    {
        self.groups.as_slice()
    }

    /// Gives the queue this configuration.
    #[inline(always)]
    pub fn set_queue(&mut self, queue: u16, config: QueueConfig)
        requires { has_queue self.old.setup queue ≡ true }
        ensures { self.new
            ≡ record self.old {
              setup = record self.old.setup
                  { configs = slice_set self.old.setup.configs queue config };
            } }
    {
        self.configs[usize::from(queue)] = config;
    }

    /// Gives the group this configuration.
    #[inline(always)]
    pub fn set_group(&mut self, group: u16, config: GroupConfig)
        requires { group < self.old.setup.caps.groups }
        ensures { self.new
            ≡ record self.old {
              setup = record self.old.setup
                  { groups = slice_set self.old.setup.groups group config };
            } }
    {
        self.groups[usize::from(group)] = config;
    }

    /// The name that the next entry gets.
    #[inline(always)]
    pub fn next_name(&self) -> u32
        ensures { result ≡ self.now.setup.next_name }
    {
        self.next_name
    }

    /// Gives the next name away. No later call gives it again.
    #[inline(always)]
    pub fn give_name(&mut self) -> u32
        requires { self.old.setup.next_name + 1 < 2 ^ 32 }
        ensures name { result ≡ self.old.setup.next_name }
        ensures after { self.new
            ≡ record self.old
            { setup = record self.old.setup { next_name = self.old.setup.next_name + 1 } } }
    {
        let name = self.next_name;
        self.next_name += 1;
        name
    }

    /// The error that is noted of descriptors that were dropped.
    #[inline(always)]
    pub fn noted(&self) -> Option<NotedError>
        ensures { result ≡ self.now.setup.noted }
    {
        self.noted
    }

    /// Notes that a descriptor was dropped: queue and cause where no error is noted, else the
    /// overflow mark alone.
    pub fn note_error(&mut self, queue: u16, cause: Cause)
        ensures { self.new
            ≡ record self.old {
              setup = record self.old.setup
                  { noted = Some (next_noted self.old.setup.noted queue cause) };
            } }
    {
        self.noted = Some(noted_more(self.noted, queue, cause));
    }

    /// Removes the noted error and gives it; `Nothing` where none was noted (profile).
    pub fn clear_error(&mut self) -> ClearAnswer
        ensures answer { clear self.old.setup ≡ (result, self.new.setup) }
        ensures held { self.new.held ≡ self.old.held }
    {
        match self.noted.take() {
            Some(noted) => ClearAnswer::Cleared(noted),
            None => ClearAnswer::Nothing,
        }
    }

    /// The number of held entries that name the queue: those that entered, less those that left.
    #[inline(always)]
    pub fn held_of(&self, queue: u16) -> u32
        requires { has_queue self.now.setup queue ≡ true }
        ensures { result ≡ slice_index self.now.held queue }
    {
        self.held[usize::from(queue)]
    }

    /// One more held entry names the queue.
    #[inline(always)]
    pub fn entered(&mut self, queue: u16)
        requires there { has_queue self.old.setup queue ≡ true }
        requires room { slice_index self.old.held queue < cell_count self.old.setup.caps }
        ensures { self.new
            ≡ record self.old
            { held = slice_set self.old.held queue (slice_index self.old.held queue + 1) } }
    {
        self.held[usize::from(queue)] += 1;
    }

    /// One held entry less names the queue.
    #[inline(always)]
    pub fn left(&mut self, queue: u16)
        requires there { has_queue self.old.setup queue ≡ true }
        requires some { 0 < slice_index self.old.held queue }
        ensures { self.new
            ≡ record self.old
            { held = slice_set self.old.held queue (slice_index self.old.held queue - 1) } }
    {
        self.held[usize::from(queue)] -= 1;
    }

    /// The group that the engine is of: the first that has it. Looks at the groups in turn.
    pub fn group_of(&self, engine: u16) -> Option<u16>
        ensures group { result ≡ position (λ g. has g.engines engine) self.now.setup.groups }
        ensures within { IfSome result (λ group. group < self.now.setup.caps.groups) }
        ensures engine { IfSome result
            (λ group. has (group_at self.now.setup.groups group).engines engine ≡ true) }
    {
        for group in 0..self.caps.groups {
            if self.groups[usize::from(group)].has_engine(engine) {
                return Some(group);
            }
        }
        None
    }

    /// The priority of the queue; 0 where the device has no such queue.
    #[inline(always)]
    pub fn priority(&self, queue: u16) -> u8
        ensures { result ≡ (queue_at self.now.setup.configs queue).priority }
    {
        match self.configs.get(usize::from(queue)) {
            Some(config) => config.priority,
            None => 0,
        }
    }

    /// What the queue's descriptors may ask for; all zero where the device has no such queue.
    #[inline(always)]
    pub fn limits(&self, queue: u16) -> QueueLimits
        ensures { result ≡ limits_at self.now.setup queue }
    {
        self.queue(queue).limits()
    }

    /// The read buffers that the entry takes as it starts, 0 to 4.
    #[inline(always)]
    pub fn need(&self, entry: &Entry) -> u8
        ensures { result ≡ need_of self.now.setup entry.now }
    {
        entry
            .desc
            .need(&self.limits(entry.queue), entry.parent.is_some())
    }

    /// The read buffers that the entry holds: none while it does not run.
    #[inline(always)]
    pub fn held_by(&self, entry: &Entry) -> u8
        ensures { result ≡ held_by self.now.setup entry.now }
    {
        if entry.running { self.need(entry) } else { 0 }
    }

    /// The status that the entry ends with, a well-formed Batch as if its members were successful.
    #[inline(always)]
    pub fn status(&self, entry: &Entry, outcome: Outcome) -> u8
        ensures { result ≡ status_of_entry self.now.setup entry.now outcome }
    {
        entry
            .desc
            .status(&self.limits(entry.queue), entry.parent.is_some(), outcome)
    }

    /// Whether the entry is a well-formed Batch, whose members its engine fetches.
    #[inline(always)]
    pub fn is_batch(&self, entry: &Entry) -> bool
        ensures { result ≡ is_batch_of self.now.setup entry.now }
    {
        entry
            .desc
            .is_lawful_batch(&self.limits(entry.queue), entry.parent.is_some())
    }

    /// Whether the entry is a well-formed Drain, which waits for what was submitted before it.
    #[inline(always)]
    pub fn is_drain(&self, entry: &Entry) -> bool
        ensures { result ≡ is_drain_of self.now.setup entry.now }
    {
        entry
            .desc
            .is_lawful_drain(&self.limits(entry.queue), entry.parent.is_some())
    }
}
