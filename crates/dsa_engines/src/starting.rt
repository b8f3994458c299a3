//! Start: an engine starts the first of its members that does not run.

ghost use Rattle.std.specs.Prelude.{◌≡◌, ℕ, ◌<◌, ◌≤◌, ◌+◌, ◌&&◌, ◌==◌, ◌++◌, List, not, true, false, Some, None, is_some, map, length, find, get_or, slice_get, slice_set, option_map, IfErr, IfOk, MatchResult};
ghost use Rattle.std.specs.Result.{result_err};
ghost use Rattle.dsa_base.specs.Rows.{passes};
ghost use Rattle.dsa_desc.specs.Descriptor.{is_fenced};
ghost use Rattle.dsa_regs.specs.Buffers.{fits};
ghost use Rattle.dsa_store.specs.Content.{Content, after_give_back, chain, entry_of, is_cell, list_of_cell};
ghost use Rattle.dsa_book.specs.declared.note.BatchNote.{BatchNote};
ghost use Rattle.dsa_book.specs.declared.fate.Fate.TheVariants.{Abandoned};
ghost use Rattle.dsa_book.specs.declared.fate.FateRow.{FateRow};
ghost use Rattle.dsa_book.specs.State.{Setup, need_of};
ghost use Rattle.dsa_book.specs.Work.{members, member_list, start, fate_row, with_note};
ghost use Rattle.dsa_queues.specs.Queues.{IsCounted, IsStoreFor};
ghost use Rattle.dsa_engines.specs.Batch.{MayStart, MayTell, block_of_group, failed_member, first_member, name_of_entry, start_reason, told_as};
ghost use Rattle.dsa_engines.specs.Engines.{work, lists_alone, IsInStep, Holds, WaitInOrder};

use crate::Engines;
use crate::failing::first_failed;
use crate::reasons::StartReason;
use dsa_book::{BatchNote, Book, Fate, FateRow, StartAnswer, Ticket};
use dsa_queues::Queues;
use dsa_regs::ListUse;
use dsa_store::{Cell, Entry, EntryStore, ListId, entries_from, front_entry, held_entries};

// Whether a running entry of the list is in the cell.
#[inline(always)]
fn is_running_in<S: EntryStore>(store: &S, list: ListId, cell: Cell) -> bool
    ensures { result
        ≡ (passes (λ at. at == list.0) (list_of_cell (S.content store.now) cell)
        && passes (λ (entry : Entry). entry.running) (entry_of (S.content store.now) cell)) }
{
    let Some(at) = store.list_of(cell) else {
        return false;
    };
    let Some(entry) = store.get(cell) else {
        return false;
    };
    at.0 == list.0 && entry.running
}

// The first entry of the list that does not run. Looks at those before it, but where a running entry
// is in the given cell, only at that one and those after it.
#[inline(always)]
fn first_waiting<S: EntryStore>(
    store: &S,
    list: ListId,
    started: Option<Cell>,
) -> Option<(Cell, Entry)>
    requires list { list.0 < length (S.content store.now) }
    requires order { is_some started ≡ true → WaitInOrder (chain (S.content store.now) list.0) }
    ensures { result ≡ find (λ pair. not pair.1.running) (chain (S.content store.now) list.0) }
{
    match started {
        Some(cell) if is_running_in(store, list, cell) => {
            entries_from(store, cell).find(|pair| !pair.1.running)
        }
        _ => held_entries(store, list).find(|pair| !pair.1.running),
    }
}

// Whether the entry is fenced and other members are ahead of it.
fn waits_at_fence<S: EntryStore>(store: &S, list: ListId, cell: Cell, entry: &Entry) -> bool
    requires { list.0 < length (S.content store.now) }
    ensures { result
        ≡ (is_fenced entry.now.desc
        && not (passes (is_cell cell) (slice_get (chain (S.content store.now) list.0) 0))) }
{
    if !entry.desc.is_fenced() {
        return false;
    }
    match store.front(list) {
        Some(front) => front.0 != cell.0,
        None => true,
    }
}

// A row for each entry of the list, front first, and none of them is counted any more.
fn abandon_all<S: EntryStore>(queues: &mut Queues, store: &S, book: &mut Book, list: ListId)
    requires list { list.0 < length (S.content store.now) }
    requires counted { IsCounted queues.old (S.content store.now) }
    requires room { length book.old.fates + length (chain (S.content store.now) list.0)
        ≤ book.old.row_room }
    ensures counted { IsCounted queues.new (after_give_back (S.content store.now) list.0) }
    ensures setup { queues.new.setup ≡ queues.old.setup }
    ensures rows { book.new
        ≡ record book.old {
          fates = book.old.fates
              ++ map (fate_row Abandoned) (chain (S.content store.now) list.0);
        } }
{
    for (_, entry) in held_entries(store, list) {
        book.add_row(FateRow {
            name: entry.name,
            parent: entry.parent,
            fate: Fate::Abandoned,
        });
        queues.left(entry.queue);
    }
}

// What keeps an engine from starting a member.
#[derive(Clone, Copy)]
enum StartBlock {
    // No member waits.
    Nothing,
    // The member of that name waits at its fence.
    Fence { member: u32 },
    // A member before the fence of that one failed, and so many are left.
    Failed { member: u32, left: u32 },
    // So many read buffers do not fit the group.
    Buffers { group: u16, need: u8 },
    // The engine is of no group.
    NoGroup,
}

// A member that is to be started, and the read buffers that it takes of its group.
#[derive(Clone, Copy)]
struct Startable {
    cell: Cell,
    entry: Entry,
    group: u16,
    need: u8,
}

// The first of the engine's members that have not ended.
fn first_member<S: EntryStore>(queues: &Queues, store: &S, engine: u16) -> Option<(Cell, Entry)>
    requires { IsStoreFor queues.now.setup.caps (S.cells store.now) (S.content store.now) }
    ensures { result ≡ first_member (lists_alone queues.now.setup (S.content store.now)) engine }
{
    let caps = queues.caps();
    if engine >= caps.engines {
        return None;
    }
    front_entry(store, queues.list(ListUse::Members(engine)))
}

// The name of an entry that is there.
fn name_of(pair: Option<(Cell, Entry)>) -> u32
    ensures { result ≡ name_of_entry pair }
{
    match pair {
        Some((_, entry)) => entry.name,
        None => 0,
    }
}

impl Engines {
    // Whether the entry is fenced, and a member of the engine's batch was not successful.
    fn fails_at_fence(&self, engine: u16, entry: &Entry) -> bool
        ensures { result
            ≡ (is_fenced entry.now.desc
            && passes (λ (note : BatchNote). note.failed)
            (get_or self.now.notes engine None)) }
    {
        if !entry.desc.is_fenced() {
            return false;
        }
        match self.note(engine) {
            Some(note) => note.failed,
            None => false,
        }
    }

    // The engine's group, where so many more buffers fit it.
    #[inline(always)]
    fn roomy_group(&self, engine: u16, need: u8) -> Result<u16, StartBlock>
        requires { Holds (get_or self.now.homes engine None) 0 self.now.buffers }
        ensures { MatchResult result
            (λ group. (get_or self.now.homes engine None ≡ Some group)
            × (group < length self.now.buffers.groups)
            × (fits self.now.buffers.total self.now.buffers.groups self.now.buffers.used
            group need
            ≡ true))
            (λ block. (passes
            (λ g. fits self.now.buffers.total self.now.buffers.groups self.now.buffers.used
            g need)
            (get_or self.now.homes engine None)
            ≡ false)
            × (block ≡ block_of_group need (get_or self.now.homes engine None))
            × MayTell self.now.buffers block) }
    {
        let Some(group) = self.home(engine) else {
            return Err(StartBlock::NoGroup);
        };
        if !self.fits(group, need) {
            return Err(StartBlock::Buffers { group, need });
        }
        Ok(group)
    }

    // The first member that does not run and the engine's group, where the member is to be started;
    // else what keeps it from starting, the first cause that stands. The given cell may have the
    // member that was started last.
    #[inline(always)]
    fn member_to_start<S: EntryStore>(
        &self,
        queues: &Queues,
        store: &S,
        engine: u16,
        started: Option<Cell>,
    ) -> Result<Startable, StartBlock>
        requires in_step { IsInStep queues.now.setup self.now (S.cells store.now)
            (S.content store.now) }
        requires order { is_some started ≡ true
            → WaitInOrder (members (lists_alone queues.now.setup (S.content store.now)) engine) }
        ensures reason { (fates : List FateRow)
            → option_map (told_as
            (work queues.now.setup self.now (S.content store.now) fates) self.now.buffers engine)
            (result_err result)
            ≡ start_reason (work queues.now.setup self.now (S.content store.now) fates) engine }
        ensures told { IfErr result (MayTell self.now.buffers) }
        ensures member { IfOk result
            (λ found. MayStart queues.now.setup self.now (S.content store.now) engine
            (found.cell, found.entry) found.group) }
        ensures need { IfOk result
            (λ found. found.need ≡ need_of queues.now.setup found.entry) }
    {
        let caps = queues.caps();
        if engine >= caps.engines {
            return Err(StartBlock::Nothing);
        }
        let list = queues.list(ListUse::Members(engine));
        let Some((cell, entry)) = first_waiting(store, list, started) else {
            return Err(StartBlock::Nothing);
        };
        let member = entry.name;
        if waits_at_fence(store, list, cell, &entry) {
            return Err(StartBlock::Fence { member });
        }
        if self.fails_at_fence(engine, &entry) {
            let left = store.len(list);
            return Err(StartBlock::Failed { member, left });
        }
        let need = queues.need(&entry);
        match self.roomy_group(engine, need) {
            Ok(group) => Ok(Startable {
                cell,
                entry,
                group,
                need,
            }),
            Err(block) => Err(block),
        }
    }

    // The name of the first member of the engine's batch that was not successful.
    fn failed_member(&self, book: &Book, engine: u16) -> Option<u32>
        ensures { (setup : Setup) (content : Content)
            → result ≡ failed_member (work setup self.now content book.now.fates) engine }
    {
        let note = self.note(engine)?;
        let row = first_failed(book.fates(), note.batch)?;
        Some(row.name)
    }

    // The reason that the block is told as, with its numbers.
    fn told<S: EntryStore>(
        &self,
        queues: &Queues,
        store: &S,
        book: &Book,
        engine: u16,
        block: StartBlock,
    ) -> StartReason
        requires store { IsStoreFor queues.now.setup.caps (S.cells store.now)
            (S.content store.now) }
        requires told { MayTell self.now.buffers block }
        ensures { result
            ≡ told_as (work queues.now.setup self.now (S.content store.now) book.now.fates)
            self.now.buffers engine block }
    {
        match block {
            StartBlock::Nothing => StartReason::Nothing,
            StartBlock::Fence { member } => StartReason::Fence {
                member,
                waits_for: name_of(first_member(queues, store, engine)),
            },
            StartBlock::Failed { member, left } => StartReason::Failed {
                member,
                failed: self.failed_member(book, engine),
                left,
            },
            StartBlock::Buffers { group, need } => StartReason::NoBuffers(self.want(group, need)),
            StartBlock::NoGroup => StartReason::NoGroup,
        }
    }

    /// Why the engine starts no member, the first cause that stands. `None` exactly where it starts
    /// one. Looks at what `start` looks at, and at the fates for the member that failed.
    pub fn start_reason<S: EntryStore>(
        &self,
        queues: &Queues,
        store: &S,
        book: &Book,
        engine: u16,
    ) -> Option<StartReason>
        requires in_step { IsInStep queues.now.setup self.now (S.cells store.now)
            (S.content store.now) }
        ensures { result
            ≡ start_reason (work queues.now.setup self.now (S.content store.now) book.now.fates)
            engine }
    {
        let block = self.member_to_start(queues, store, engine, None).err()?;
        Some(self.told(queues, store, book, engine, block))
    }

    // The batch that the engine works on is closed.
    fn close_note(&mut self, engine: u16)
        requires { engine < length self.old.notes }
        ensures { self.new
            ≡ record self.old {
              notes = with_note self.old.notes engine
                  (option_map (λ (note : BatchNote). record note { closed = true })
                  (get_or self.old.notes engine None));
            } }
    {
        let note = match self.note(engine) {
            Some(note) => Some(BatchNote {
                closed: true,
                ..note
            }),
            None => None,
        };
        self.set_note(engine, note);
    }

    // All members that are left end as abandoned, and the batch is closed. How many they were.
    fn abandon<S: EntryStore>(
        &mut self,
        queues: &mut Queues,
        store: &mut S,
        book: &mut Book,
        engine: u16,
    ) -> u32
        requires engine { engine < queues.old.setup.caps.engines }
        requires notes { length self.old.notes ≡ queues.old.setup.caps.engines }
        requires store { IsStoreFor queues.old.setup.caps (S.cells store.old)
            (S.content store.old) }
        requires counted { IsCounted queues.old (S.content store.old) }
        requires room { length book.old.fates
            + length (chain (S.content store.old) (member_list queues.old.setup engine))
            ≤ book.old.row_room }
        ensures setup { queues.new.setup ≡ queues.old.setup }
        ensures counted { IsCounted queues.new (S.content store.new) }
        ensures left { result
            ≡ length (chain (S.content store.old) (member_list queues.old.setup engine)) }
        ensures content { S.content store.new
            ≡ after_give_back (S.content store.old) (member_list queues.old.setup engine) }
        ensures cells { S.cells store.new ≡ S.cells store.old }
        ensures book { book.new
            ≡ record book.old {
              fates = book.old.fates
                  ++ map (fate_row Abandoned)
                  (chain (S.content store.old) (member_list queues.old.setup engine));
            } }
        ensures note { self.new
            ≡ record self.old {
              notes = with_note self.old.notes engine
                  (option_map (λ (note : BatchNote). record note { closed = true })
                  (get_or self.old.notes engine None));
            } }
    {
        let list = queues.list(ListUse::Members(engine));
        abandon_all(queues, store, book, list);
        self.close_note(engine);
        store.give_back(list)
    }

    /// The engine starts the first member of its batch that does not run.
    ///
    /// `Nothing` where no member waits. A fenced member waits for all members before it
    /// (`FenceWait`), and if one of them was not successful all members that are left end as
    /// `Abandoned`, and the batch is closed. `NoBuffers` where the read buffers that the member
    /// needs do not fit the group. Else it is `Started`, and takes them. Looks at the member that was
    /// started last and the next one. If the former has ended it looks at the members up to the first
    /// that waits, and at all of them where they are abandoned.
    pub fn start<S: EntryStore>(
        &mut self,
        queues: &mut Queues,
        store: &mut S,
        book: &mut Book,
        engine: u16,
    ) -> StartAnswer
        requires in_step { IsInStep queues.old.setup self.old (S.cells store.old)
            (S.content store.old) }
        requires counted { IsCounted queues.old (S.content store.old) }
        requires order { WaitInOrder
            (members (lists_alone queues.old.setup (S.content store.old)) engine) }
        requires room { length book.old.fates
            + length (members (lists_alone queues.old.setup (S.content store.old)) engine)
            ≤ book.old.row_room }
        ensures step { start
            (work queues.old.setup self.old (S.content store.old) book.old.fates) engine
            ≡ (result, work queues.new.setup self.new (S.content store.new) book.new.fates) }
        ensures book { book.new ≡ record book.old { fates = book.new.fates } }
        ensures in_step { IsInStep queues.new.setup self.new (S.cells store.new)
            (S.content store.new) }
        ensures counted { IsCounted queues.new (S.content store.new) }
    {
        let started = self.last_started(engine);
        let member = match self.member_to_start(queues, store, engine, started) {
            Ok(member) => member,
            Err(StartBlock::Nothing) => return StartAnswer::Nothing,
            Err(StartBlock::Fence { .. }) => return StartAnswer::FenceWait,
            Err(StartBlock::Failed { .. }) => {
                return StartAnswer::Abandoned(self.abandon(queues, store, book, engine));
            }
            Err(StartBlock::Buffers { .. }) => return StartAnswer::NoBuffers,
            Err(StartBlock::NoGroup) => return StartAnswer::NoBuffers,
        };
        let Startable {
            cell,
            entry,
            group,
            need,
        } = member;
        let name = entry.name;
        let _ = store.set(
            cell,
            Entry {
                running: true,
                ..entry
            },
        );
        self.take(group, need);
        self.set_last_started(engine, cell);
        StartAnswer::Started(Ticket { cell, name })
    }
}
