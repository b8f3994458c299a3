//! What is kept of the engines, and how a step reads and changes it.

ghost use Rattle.std.specs.Prelude.{◌≡◌, ℕ, ◌<◌, ◌≤◌, ◌+◌, true, false, IsTrue, None, length, get_or, slice_index, slice_set, replicate};
ghost use Rattle.dsa_regs.specs.Buffers.{fits};
ghost use Rattle.dsa_regs.specs.Caps.{check_caps};
ghost use Rattle.dsa_regs.specs.Config.{check_device};
ghost use Rattle.dsa_store.specs.Content.{Content, held_count};
ghost use Rattle.dsa_book.specs.State.{opening_setup};
ghost use Rattle.dsa_buffers.specs.Buffers.{IsRoom, want_of};
ghost use Rattle.dsa_queues.specs.Queues.{IsStoreFor};
ghost use Rattle.dsa_engines.specs.Engines.{IsInStep, engines_at_first, homes_of, buffers_at_rest, buffers_after_return, Holds};

use arrayvec::ArrayVec;
use dsa_book::BatchNote;
use dsa_buffers::{BufferWant, ReadBuffers};
use dsa_queues::Queues;
use dsa_regs::{Caps, MAX_ENGINES, MAX_GROUPS};
use dsa_store::Cell;
use std::marker::Model;

/// The engines of a device: the note of each engine that works on a batch, the read buffers of the
/// groups, the group of each engine, the queue whose turn is next in each group, and the cell of the
/// member that each engine started last.
#[derive(Drop)]
pub struct Engines {
    notes: ArrayVec<Option<BatchNote>, MAX_ENGINES>,
    buffers: ReadBuffers,
    homes: ArrayVec<Option<u16>, MAX_ENGINES>,
    turns: [u16; MAX_GROUPS],
    started: [Cell; MAX_ENGINES],
}

impl Model for Engines {
    ghost use Rattle.dsa_engines.specs.Engines.{EnginesState};

    ghost Value = { EnginesState };

    ghost view = { λ e. record {
      notes = e.notes.items;
      buffers = e.buffers;
      homes = e.homes.items;
    } };
}

// No note, for each engine.
fn no_notes(engines: u16) -> ArrayVec<Option<BatchNote>, MAX_ENGINES>
    requires { engines ≤ MAX_ENGINES }
    ensures { result.items ≡ replicate engines None }
{
    let mut notes = ArrayVec::new();
    for _ in 0..engines {
        notes.push(None);
    }
    notes
}

// The group of each engine.
fn homes(queues: &Queues) -> ArrayVec<Option<u16>, MAX_ENGINES>
    ensures { result.items ≡ homes_of queues.now.setup }
{
    let mut homes = ArrayVec::new();
    for engine in 0..queues.caps().engines {
        homes.push(queues.group_of(engine));
    }
    homes
}

impl Engines {
    /// The engines of a device before it is first enabled: none works on a batch, and there are no
    /// read buffers.
    pub fn new(caps: &Caps) -> Engines
        requires { IsTrue (check_caps caps.now) }
        ensures value { result ≡ engines_at_first caps.now }
        ensures in_step { (cells : ℕ) (content : Content)
            → IsStoreFor caps.now cells content
            → held_count content ≡ 0
            → IsInStep (opening_setup caps.now) result cells content }
    {
        Engines {
            notes: no_notes(caps.engines),
            buffers: ReadBuffers::new(0, &[]),
            homes: ArrayVec::new(),
            turns: [0; MAX_GROUPS],
            started: [Cell(0); MAX_ENGINES],
        }
    }

    /// Makes the read buffers and finds the group of each engine, as Enable Device asks. Nothing
    /// may be held then.
    pub fn enable(&mut self, queues: &Queues)
        requires checked { check_device queues.now.setup.caps queues.now.setup.configs
            queues.now.setup.groups
            ≡ None }
        requires notes { length self.old.notes ≡ queues.now.setup.caps.engines }
        ensures after { self.new
            ≡ record self.old
            { homes = homes_of queues.now.setup; buffers = buffers_at_rest queues.now.setup } }
        ensures in_step { (cells : ℕ) (content : Content)
            → IsStoreFor queues.now.setup.caps cells content
            → held_count content ≡ 0
            → IsInStep queues.now.setup self.new cells content }
    {
        self.homes = homes(queues);
        self.buffers = ReadBuffers::new(queues.caps().read_buffers, queues.groups());
    }

    /// The group of the engine, as it was when the device was enabled.
    #[inline(always)]
    pub(crate) fn home(&self, engine: u16) -> Option<u16>
        ensures { result ≡ get_or self.now.homes engine None }
    {
        match self.homes.get(usize::from(engine)) {
            Some(home) => *home,
            None => None,
        }
    }

    /// The note of the batch that the engine works on.
    #[inline(always)]
    pub fn note(&self, engine: u16) -> Option<BatchNote>
        ensures { result ≡ get_or self.now.notes engine None }
    {
        match self.notes.get(usize::from(engine)) {
            Some(note) => *note,
            None => None,
        }
    }

    #[inline(always)]
    pub(crate) fn set_note(&mut self, engine: u16, note: Option<BatchNote>)
        requires { engine < length self.old.notes }
        ensures { self.new ≡ record self.old { notes = slice_set self.old.notes engine note } }
    {
        self.notes[usize::from(engine)] = note;
    }

    /// Whether so many more read buffers fit the group.
    #[inline(always)]
    pub(crate) fn fits(&self, group: u16, n: u8) -> bool
        requires { group < length self.now.buffers.groups }
        ensures { result
            ≡ fits self.now.buffers.total self.now.buffers.groups self.now.buffers.used group n }
    {
        self.buffers.fits(group, u16::from(n))
    }

    /// How many more read buffers the group has room for.
    #[inline(always)]
    pub(crate) fn room(&self, group: u16) -> u16
        ensures { IsRoom self.now.buffers group result }
    {
        self.buffers.room(group)
    }

    /// The numbers of the group that so many more read buffers are asked for.
    pub(crate) fn want(&self, group: u16, asked: u8) -> BufferWant
        requires { group < length self.now.buffers.groups }
        ensures { result ≡ want_of self.now.buffers group asked }
    {
        self.buffers.want(group, asked)
    }

    /// Takes so many read buffers for the group.
    #[inline(always)]
    pub(crate) fn take(&mut self, group: u16, n: u8)
        requires group { group < length self.old.buffers.groups }
        requires fits { fits self.old.buffers.total self.old.buffers.groups self.old.buffers.used
            group n
            ≡ true }
        ensures { self.new
            ≡ record self.old {
              buffers = record self.old.buffers {
                used = slice_set self.old.buffers.used group
                    (slice_index self.old.buffers.used group + n);
              };
            } }
    {
        self.buffers.take(group, u16::from(n));
    }

    /// Gives so many read buffers of the group back.
    #[inline(always)]
    pub(crate) fn give_back(&mut self, home: Option<u16>, n: u8)
        requires { Holds home n self.old.buffers }
        ensures { self.new
            ≡ record self.old { buffers = buffers_after_return home n self.old.buffers } }
    {
        if let Some(group) = home {
            self.buffers.give(group, u16::from(n));
        }
    }

    /// How many read buffers the group has taken since the device was enabled and not given back.
    #[inline(always)]
    pub fn used(&self, group: u16) -> u16
        requires { group < length self.now.buffers.groups }
        ensures { result ≡ slice_index self.now.buffers.used group }
    {
        self.buffers.used(group)
    }

    /// The queue whose turn is next in the group.
    #[inline(always)]
    pub(crate) fn turn(&self, group: u16) -> u16 {
        match self.turns.get(usize::from(group)) {
            Some(turn) => *turn,
            None => 0,
        }
    }

    #[inline(always)]
    pub(crate) fn set_turn(&mut self, group: u16, queue: u16)
        ensures { self.new ≡ self.old }
    {
        if let Some(turn) = self.turns.get_mut(usize::from(group)) {
            *turn = queue;
        }
    }

    /// The cell of the member that the engine started last. That member may have left it.
    #[inline(always)]
    pub(crate) fn last_started(&self, engine: u16) -> Option<Cell> {
        self.started.get(usize::from(engine)).copied()
    }

    #[inline(always)]
    pub(crate) fn set_last_started(&mut self, engine: u16, cell: Cell)
        ensures { self.new ≡ self.old }
    {
        if let Some(started) = self.started.get_mut(usize::from(engine)) {
            *started = cell;
        }
    }
}
