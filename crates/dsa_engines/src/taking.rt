//! Dispatch: an engine takes an entry from a queue of its group.

ghost use Rattle.std.specs.Prelude.{◌≡◌, ℕ, List, ◌<◌, ◌≢◌, nat_le, nat_lt, not, true, false, Some, None, [], length, get_or, slice_get, slice_index, slice_set, cond, find, is_some, IfSome, IfNone, MatchOption};
ghost use Rattle.dsa_base.specs.Numbers.{has};
ghost use Rattle.dsa_base.specs.Rows.{first_row, when};
ghost use Rattle.dsa_buffers.specs.Buffers.{IsRoom};
ghost use Rattle.dsa_regs.specs.Config.{group_at};
ghost use Rattle.dsa_store.specs.Content.{Content, chain, after_push, without_front};
ghost use Rattle.dsa_book.specs.declared.fate.FateRow.{FateRow};
ghost use Rattle.dsa_book.specs.State.{is_off, need_of, is_batch_of, is_drain_of};
ghost use Rattle.dsa_book.specs.declared.answer.DispatchAnswer.TheVariants.{Taken};
ghost use Rattle.dsa_book.specs.declared.answer.Reply.TheVariants as reply;
ghost use Rattle.dsa_book.specs.Choice.{choice_of, from_queue};
ghost use Rattle.dsa_book.specs.Work.{qualifies, may_leave, dispatch, group_in, progress_list, as_running, opened_note, with_note};
ghost use Rattle.dsa_queues.specs.Queues.{IsCounted, IsStoreFor};
ghost use Rattle.dsa_engines.specs.Engines.{EnginesState, work, IsInStep, IsOpen};
ghost use Rattle.dsa_engines.specs.Dispatch.{block_table, engine_reason, is_offered, queue_reason};

use crate::Engines;
use crate::reasons::{EngineReason, QueueReason};
use dsa_book::{BatchNote, DispatchAnswer, Ticket};
use dsa_queues::Queues;
use dsa_regs::ListUse;
use dsa_store::{Cell, Entry, EntryStore, ListId, front_entry, held_entries};

// An engine's group, and how many more read buffers it has room for.
#[derive(Clone, Copy)]
struct Share {
    group: u16,
    room: u16,
}

// The front of one list runs, and goes to the end of the other. It is written where it was just
// read, so that only the mark that it runs changes.
#[inline(always)]
fn run_front<S: EntryStore>(store: &mut S, from: ListId, to: ListId, front: (Cell, Entry))
    requires from { from.0 < length (S.content store.old) }
    requires to { to.0 < length (S.content store.old) }
    requires apart { from.0 ≢ to.0 }
    requires front { slice_get (chain (S.content store.old) from.0) 0 ≡ Some front }
    ensures after { S.content store.new
        ≡ after_push (without_front (S.content store.old) from.0) to.0 front.0
        (as_running front.1) }
    ensures cells { S.cells store.new ≡ S.cells store.old }
{
    let (cell, entry) = front;
    let _ = store.set(
        cell,
        Entry {
            running: true,
            ..entry
        },
    );
    let _ = store.move_front(from, to);
}

// What keeps an engine with a slot left from taking a front: its read buffers, the batch or the
// Drain of that name.
#[derive(Clone, Copy)]
enum TakeBlock {
    Buffers,
    Batch(u32),
    Drain(u32),
}

// The first Drain in progress on the engine.
fn drain_on<S: EntryStore>(queues: &Queues, store: &S, engine: u16) -> Option<(Cell, Entry)>
    requires store { IsStoreFor queues.now.setup.caps (S.cells store.now) (S.content store.now) }
    requires engine { engine < queues.now.setup.caps.engines }
    ensures { result
        ≡ find (λ pair. is_drain_of queues.now.setup pair.1)
        (chain (S.content store.now) (progress_list queues.now.setup engine)) }
{
    let progress = queues.list(ListUse::Progress(engine));
    held_entries(store, progress).find(|pair| queues.is_drain(&pair.1))
}

// How many slots of the engine are taken, where all are.
#[inline(always)]
fn full_slots<S: EntryStore>(queues: &Queues, store: &S, engine: u16) -> Option<u32>
    requires store { IsStoreFor queues.now.setup.caps (S.cells store.now) (S.content store.now) }
    requires engine { engine < queues.now.setup.caps.engines }
    ensures { result
        ≡ when (not (nat_lt
        (length (chain (S.content store.now) (progress_list queues.now.setup engine)))
        queues.now.setup.caps.slots))
        (length (chain (S.content store.now) (progress_list queues.now.setup engine))) }
{
    let used = store.len(queues.list(ListUse::Progress(engine)));
    if used < u32::from(queues.caps().slots) {
        return None;
    }
    Some(used)
}

/// Why no queue is looked at for the engine, the first cause that stands. `None` exactly where the
/// engine is of a group.
pub fn engine_reason(queues: &Queues, engine: u16) -> Option<EngineReason>
    ensures { (engines_state : EnginesState) (content : Content)
        → result ≡ engine_reason (work queues.now.setup engines_state content []) engine }
{
    if engine >= queues.caps().engines {
        return Some(EngineReason::NoEngine);
    }
    match queues.group_of(engine) {
        Some(_) => None,
        None => Some(EngineReason::NoGroup),
    }
}

// The group of the engine, where the queue is one of the group's and the device has both.
fn offered_in(queues: &Queues, engine: u16, queue: u16) -> Option<u16>
    ensures { (engines_state : EnginesState) (content : Content)
        → result
        ≡ cond (is_offered (work queues.now.setup engines_state content []) engine queue)
        (group_in queues.now.setup.groups engine) None }
{
    if engine >= queues.caps().engines || !queues.has_queue(queue) {
        return None;
    }
    let group = queues.group_of(engine)?;
    queues.group(group).has_queue(queue).then_some(group)
}

impl Engines {
    // The engine's group, where the engine has a slot left.
    fn open_group<S: EntryStore>(&self, queues: &Queues, store: &S, engine: u16) -> Option<u16>
        requires in_step { IsInStep queues.now.setup self.now (S.cells store.now)
            (S.content store.now) }
        ensures none { IfNone result
            ((q : ℕ)
            → qualifies (work queues.now.setup self.now (S.content store.now) []) engine q
            ≡ false) }
        ensures some { IfSome result
            (λ group. is_off queues.now.setup.device ≡ false
            → IsOpen queues.now.setup (S.content store.now) engine group) }
    {
        let caps = queues.caps();
        if engine >= caps.engines {
            return None;
        }
        if full_slots(queues, store, engine).is_some() {
            return None;
        }
        self.home(engine)
    }

    // What keeps the engine, which has a slot left, from this front, where its group has room for
    // so many read buffers: the first cause that stands.
    #[inline(always)]
    fn take_block<S: EntryStore>(
        &self,
        queues: &Queues,
        store: &S,
        engine: u16,
        room: u16,
        front: &Entry,
    ) -> Option<TakeBlock>
        requires store { IsStoreFor queues.now.setup.caps (S.cells store.now)
            (S.content store.now) }
        requires engine { engine < queues.now.setup.caps.engines }
        ensures { result
            ≡ first_row (block_table
            (work queues.now.setup self.now (S.content store.now) []) engine
            (nat_le (need_of queues.now.setup front.now) room) front.now) }
    {
        if u16::from(queues.need(front)) > room {
            return Some(TakeBlock::Buffers);
        }
        if let Some(note) = self.note(engine) {
            if queues.is_batch(front) {
                return Some(TakeBlock::Batch(note.batch));
            }
        }
        if !queues.is_drain(front) {
            return None;
        }
        let (_, drain) = drain_on(queues, store, engine)?;
        Some(TakeBlock::Drain(drain.name))
    }

    // Whether the engine may take the front of the queue, which is one of the group's.
    #[inline(always)]
    fn qualifies<S: EntryStore>(
        &self,
        queues: &Queues,
        store: &S,
        engine: u16,
        share: Share,
        queue: u16,
    ) -> bool
        requires in_step { IsInStep queues.now.setup self.now (S.cells store.now)
            (S.content store.now) }
        requires group { is_off queues.now.setup.device ≡ false
            → IsOpen queues.now.setup (S.content store.now) engine share.group }
        requires room { IsRoom self.now.buffers share.group share.room }
        requires served { has (group_at queues.now.setup.groups share.group).queues queue ≡ true }
        ensures { result
            ≡ qualifies (work queues.now.setup self.now (S.content store.now) []) engine queue }
    {
        if !queues.has_queue(queue) {
            return false;
        }
        let Some((_, entry)) = front_entry(store, ListId(queue)) else {
            return false;
        };
        let block = self.take_block(queues, store, engine, share.room, &entry);
        block.is_none()
    }

    // Whether the queue goes before the other: by priority, and among equals by whose turn is next.
    #[inline(always)]
    fn goes_before(&self, queues: &Queues, group: u16, queue: u16, other: u16) -> bool {
        let mine = queues.priority(queue);
        let theirs = queues.priority(other);
        let turn = self.turn(group);
        mine > theirs || mine == theirs && queue >= turn && other < turn
    }

    // Whether this queue of the group is better than the best so far. Its front is looked at only
    // where it goes before.
    #[inline(always)]
    fn is_better<S: EntryStore>(
        &self,
        queues: &Queues,
        store: &S,
        engine: u16,
        share: Share,
        best: Option<u16>,
        queue: u16,
    ) -> bool
        requires in_step { IsInStep queues.now.setup self.now (S.cells store.now)
            (S.content store.now) }
        requires group { is_off queues.now.setup.device ≡ false
            → IsOpen queues.now.setup (S.content store.now) engine share.group }
        requires room { IsRoom self.now.buffers share.group share.room }
        requires served { has (group_at queues.now.setup.groups share.group).queues queue ≡ true }
        ensures better { result ≡ true
            → qualifies (work queues.now.setup self.now (S.content store.now) []) engine queue
            ≡ true }
        ensures first { best ≡ None
            → result
            ≡ qualifies (work queues.now.setup self.now (S.content store.now) []) engine queue }
    {
        if let Some(other) = best {
            if !self.goes_before(queues, share.group, queue, other) {
                return false;
            }
        }
        self.qualifies(queues, store, engine, share, queue)
    }

    // A queue whose front the engine may take. Looks at the queues of the group alone.
    #[inline(always)]
    fn choose<S: EntryStore>(
        &self,
        queues: &Queues,
        store: &S,
        engine: u16,
        share: Share,
    ) -> Option<u16>
        requires in_step { IsInStep queues.now.setup self.now (S.cells store.now)
            (S.content store.now) }
        requires group { is_off queues.now.setup.device ≡ false
            → IsOpen queues.now.setup (S.content store.now) engine share.group }
        requires room { IsRoom self.now.buffers share.group share.room }
        ensures { MatchOption result
            ((q : ℕ)
            → qualifies (work queues.now.setup self.now (S.content store.now) []) engine q
            ≡ false)
            (λ queue. qualifies (work queues.now.setup self.now (S.content store.now) []) engine
            queue
            ≡ true) }
    {
        let config = queues.group(share.group);
        let mut best = None;
        let mut from = 0;
        while let Some(queue) = config.next_queue(from) {
            if self.is_better(queues, store, engine, share, best, queue) {
                best = Some(queue);
            }
            from = queue + 1;
        }
        best
    }

    /// Why the engine does not take the front of the queue, the first cause that stands. `None`
    /// exactly where the queue is not one of the engine's group, or the engine may take its front.
    pub fn queue_reason<S: EntryStore>(
        &self,
        queues: &Queues,
        store: &S,
        engine: u16,
        queue: u16,
    ) -> Option<QueueReason>
        requires in_step { IsInStep queues.now.setup self.now (S.cells store.now)
            (S.content store.now) }
        ensures { result
            ≡ queue_reason (work queues.now.setup self.now (S.content store.now) []) engine
            queue }
    {
        let group = offered_in(queues, engine, queue)?;
        let Some((_, front)) = front_entry(store, ListId(queue)) else {
            return Some(QueueReason::Empty);
        };
        if let Some(used) = full_slots(queues, store, engine) {
            let slots = queues.caps().slots;
            return Some(QueueReason::NoSlot { used, slots });
        }
        let need = queues.need(&front);
        let block = self.take_block(queues, store, engine, self.room(group), &front)?;
        match block {
            TakeBlock::Buffers => Some(QueueReason::NoBuffers(self.want(group, need))),
            TakeBlock::Batch(batch) => Some(QueueReason::OtherBatch { batch }),
            TakeBlock::Drain(drain) => Some(QueueReason::OtherDrain { drain }),
        }
    }

    // A well-formed Batch opens a note.
    fn open_note(&mut self, queues: &Queues, engine: u16, entry: &Entry)
        requires { engine < length self.old.notes }
        ensures { self.new
            ≡ record self.old {
              notes = cond (is_batch_of queues.now.setup entry.now)
                  (with_note self.old.notes engine (Some (opened_note entry.now)))
                  self.old.notes;
            } }
    {
        if queues.is_batch(entry) {
            self.set_note(
                engine,
                Some(BatchNote {
                    batch: entry.name,
                    count: entry.desc.size,
                    fetched: 0,
                    failed: false,
                    closed: false,
                }),
            );
        }
    }

    // The engine's group, where the engine may take the front of the queue.
    #[inline(always)]
    fn taking_group<S: EntryStore>(
        &self,
        queues: &Queues,
        store: &S,
        engine: u16,
        queue: u16,
    ) -> Option<u16>
        requires in_step { IsInStep queues.now.setup self.now (S.cells store.now)
            (S.content store.now) }
        ensures qualifies { is_some result
            ≡ qualifies (work queues.now.setup self.now (S.content store.now) []) engine queue }
        ensures open { IfSome result
            (λ group. is_off queues.now.setup.device ≡ false
            → IsOpen queues.now.setup (S.content store.now) engine group) }
    {
        let group = self.open_group(queues, store, engine)?;
        if !queues.group(group).has_queue(queue) {
            return None;
        }
        let share = Share {
            group,
            room: self.room(group),
        };
        if !self.qualifies(queues, store, engine, share, queue) {
            return None;
        }
        Some(group)
    }

    // The engine takes the front of the queue, which qualifies, and it runs.
    #[inline(always)]
    fn take_front<S: EntryStore>(
        &mut self,
        queues: &Queues,
        store: &mut S,
        engine: u16,
        group: u16,
        queue: u16,
    ) -> Ticket
        requires in_step { IsInStep queues.now.setup self.old (S.cells store.old)
            (S.content store.old) }
        requires counted { IsCounted queues.now (S.content store.old) }
        requires group { is_off queues.now.setup.device ≡ false
            → IsOpen queues.now.setup (S.content store.old) engine group }
        requires qualifies { qualifies (work queues.now.setup self.old (S.content store.old) [])
            engine queue
            ≡ true }
        ensures step { (fates : List FateRow)
            → dispatch (work queues.now.setup self.old (S.content store.old) fates) engine
            (from_queue queue)
            ≡ (Taken result queue, work queues.now.setup self.new (S.content store.new) fates) }
        ensures in_step { IsInStep queues.now.setup self.new (S.cells store.new)
            (S.content store.new) }
        ensures counted { IsCounted queues.now (S.content store.new) }
    {
        let Some((cell, entry)) = front_entry(store, ListId(queue)) else {
            unreachable!();
        };
        let progress = queues.list(ListUse::Progress(engine));
        run_front(store, ListId(queue), progress, (cell, entry));
        self.take(group, queues.need(&entry));
        self.open_note(queues, engine, &entry);
        self.set_turn(group, queue + 1);
        let name = entry.name;
        Ticket { cell, name }
    }

    /// The engine takes the front of a queue of its group, and it runs: it goes to the end of those
    /// in progress, and a well-formed Batch opens the engine's note (profile).
    ///
    /// A queue qualifies if its front's read buffers fit the group, and if it is no well-formed
    /// Batch or Drain while the engine works on one. Of those that qualify the one of the highest
    /// priority is served, and among equals they take turns. `Idle` exactly where none qualifies;
    /// so too where all slots of the engine are taken. Looks at the queues of the group, at the
    /// fronts of those that go before the best so far, and for a Drain at what is in progress.
    #[inline(always)]
    pub fn dispatch<S: EntryStore>(
        &mut self,
        queues: &Queues,
        store: &mut S,
        engine: u16,
    ) -> DispatchAnswer
        requires in_step { IsInStep queues.now.setup self.old (S.cells store.old)
            (S.content store.old) }
        requires counted { IsCounted queues.now (S.content store.old) }
        ensures step { (fates : List FateRow)
            → dispatch (work queues.now.setup self.old (S.content store.old) fates) engine
            (choice_of (reply.Dispatch result))
            ≡ (result, work queues.now.setup self.new (S.content store.new) fates) }
        ensures free { may_leave (work queues.now.setup self.old (S.content store.old) []) engine
            (choice_of (reply.Dispatch result))
            ≡ true }
        ensures in_step { IsInStep queues.now.setup self.new (S.cells store.new)
            (S.content store.new) }
        ensures counted { IsCounted queues.now (S.content store.new) }
    {
        let Some(group) = self.open_group(queues, store, engine) else {
            return DispatchAnswer::Idle;
        };
        let share = Share {
            group,
            room: self.room(group),
        };
        let Some(queue) = self.choose(queues, store, engine, share) else {
            return DispatchAnswer::Idle;
        };
        let ticket = self.take_front(queues, store, engine, group, queue);
        DispatchAnswer::Taken { ticket, queue }
    }

    /// The ticket of the queue's front, where the engine may take it. `None` exactly where the
    /// queue does not qualify.
    pub fn offered<S: EntryStore>(
        &self,
        queues: &Queues,
        store: &S,
        engine: u16,
        queue: u16,
    ) -> Option<Ticket>
        requires in_step { IsInStep queues.now.setup self.now (S.cells store.now)
            (S.content store.now) }
        ensures { MatchOption result
            (qualifies (work queues.now.setup self.now (S.content store.now) []) engine queue
            ≡ false)
            (λ ticket. (qualifies (work queues.now.setup self.now (S.content store.now) []) engine
            queue
            ≡ true)
            × ((dispatch (work queues.now.setup self.now (S.content store.now) []) engine
            (from_queue queue)).0
            ≡ Taken ticket queue)) }
    {
        self.taking_group(queues, store, engine, queue)?;
        let (cell, entry) = front_entry(store, ListId(queue))?;
        let name = entry.name;
        Some(Ticket { cell, name })
    }

    /// The engine takes the front of this queue, as `dispatch` does of one that it chooses, and the
    /// ticket is told. `None`, and nothing changed, exactly where the queue does not qualify.
    #[inline(always)]
    pub fn dispatch_from<S: EntryStore>(
        &mut self,
        queues: &Queues,
        store: &mut S,
        engine: u16,
        queue: u16,
    ) -> Option<Ticket>
        requires in_step { IsInStep queues.now.setup self.old (S.cells store.old)
            (S.content store.old) }
        requires counted { IsCounted queues.now (S.content store.old) }
        ensures qualifies { is_some result
            ≡ qualifies (work queues.now.setup self.old (S.content store.old) []) engine queue }
        ensures none { IfNone result
            ((self.new ≡ self.old) × (S.content store.new ≡ S.content store.old)) }
        ensures step { IfSome result
            (λ ticket. (fates : List FateRow)
            → dispatch (work queues.now.setup self.old (S.content store.old) fates) engine
            (from_queue queue)
            ≡ (
              Taken ticket queue,
              work queues.now.setup self.new (S.content store.new) fates,
            )) }
        ensures in_step { IsInStep queues.now.setup self.new (S.cells store.new)
            (S.content store.new) }
        ensures counted { IsCounted queues.now (S.content store.new) }
    {
        let group = self.taking_group(queues, store, engine, queue)?;
        Some(self.take_front(queues, store, engine, group, queue))
    }
}
