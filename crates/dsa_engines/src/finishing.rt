//! Finish: an engine ends a running entry.

ghost use Rattle.std.specs.Prelude.{◌≡◌, ℕ, ◌<◌, ◌||◌, false, [], length, find, option_map, Some, IfOk, MatchResult};
ghost use Rattle.std.specs.Result.{result_err, result_ok};
ghost use Rattle.dsa_base.specs.Rows.{first_row};
ghost use Rattle.dsa_store.specs.declared.entry.Cell.{Cell};
ghost use Rattle.dsa_store.specs.Content.{Content, chain};
ghost use Rattle.dsa_book.specs.State.{is_batch_of, is_ticket};
ghost use Rattle.dsa_book.specs.Work.{running_on, waits_for, must_wait, last_status, note_after, with_note, finish};
ghost use Rattle.dsa_queues.specs.Queues.{IsCounted, IsStoreFor};
ghost use Rattle.dsa_engines.specs.Engines.{EnginesState, work, lists_alone, IsInStep, IsInPlace, NamesRise, QueuesRise};
ghost use Rattle.dsa_engines.specs.Finish.{batch_table, finish_reason, first_waited, gone_table, wait_table};

use crate::Engines;
use crate::fetching::is_all_fetched;
use crate::reasons::FinishReason;
use dsa_book::{BatchNote, Book, Fate, FateRow, FinishAnswer, Ticket};
use dsa_desc::Outcome;
use dsa_queues::Queues;
use dsa_regs::ListUse;
use dsa_store::{Cell, Entry, EntryStore, ListId, held_entries};

// Why the entry, which stands in that list, is not the engine's to end, the first cause that
// stands.
#[inline(always)]
fn gone_reason(engine: u16, name: u32, entry: &Entry, list: ListUse) -> Option<FinishReason>
    ensures { result ≡ first_row (gone_table engine name entry.now list) }
{
    if entry.name != name {
        return Some(FinishReason::OtherName { name: entry.name });
    }
    if list.engine() != Some(engine) {
        return Some(FinishReason::Elsewhere { list });
    }
    if !entry.running {
        return Some(FinishReason::NotStarted);
    }
    None
}

// The running entry of the engine that has the ticket's cell and name; else why there is none.
#[inline(always)]
fn find_running<S: EntryStore>(
    queues: &Queues,
    store: &S,
    engine: u16,
    ticket: Ticket,
) -> Result<Entry, FinishReason>
    requires { IsStoreFor queues.now.setup.caps (S.cells store.now) (S.content store.now) }
    ensures running { find (is_ticket ticket)
        (running_on (lists_alone queues.now.setup (S.content store.now)) engine)
        ≡ option_map (λ entry. (ticket.cell, entry)) (result_ok result) }
    ensures engine { IfOk result (λ entry. engine < queues.now.setup.caps.engines) }
    ensures reason { (engines_state : EnginesState)
        → MatchResult result
        (λ entry. finish_reason (work queues.now.setup engines_state (S.content store.now) [])
        engine ticket
        ≡ first_row (wait_table
        (work queues.now.setup engines_state (S.content store.now) []) engine entry))
        (λ reason. finish_reason
        (work queues.now.setup engines_state (S.content store.now) []) engine ticket
        ≡ Some reason) }
{
    let caps = queues.caps();
    if engine >= caps.engines {
        return Err(FinishReason::NoEngine);
    }
    let Some(list) = store.list_of(ticket.cell) else {
        return Err(FinishReason::NoEntry);
    };
    let Some(entry) = store.get(ticket.cell) else {
        return Err(FinishReason::NoEntry);
    };
    match gone_reason(engine, ticket.name, &entry, queues.list_use(list)) {
        Some(reason) => Err(reason),
        None => Ok(entry),
    }
}

// Whether the Drain waits for this entry.
fn waits_for(drain: &Entry, other: &Entry) -> bool
    ensures { result ≡ waits_for drain.now other.now }
{
    other.parent.is_none()
        && other.queue == drain.queue
        && other.desc.pasid == drain.desc.pasid
        && other.name < drain.name
}

// The first entry of the list that the Drain waits for.
fn first_in<S: EntryStore>(store: &S, list: ListId, drain: &Entry) -> Option<(Cell, Entry)>
    requires { list.0 < length (S.content store.now) }
    ensures { result
        ≡ find (λ pair. waits_for drain.now pair.1) (chain (S.content store.now) list.0) }
{
    held_entries(store, list).find(|pair| waits_for(drain, &pair.1))
}

// The same of a list along which names rise: it is walked only as far as its names are lower than
// the Drain's, which in the Drain's own queue none is.
fn first_older<S: EntryStore>(store: &S, list: ListId, drain: &Entry) -> Option<(Cell, Entry)>
    requires list { list.0 < length (S.content store.now) }
    requires order { NamesRise (chain (S.content store.now) list.0) }
    ensures { result
        ≡ find (λ pair. waits_for drain.now pair.1) (chain (S.content store.now) list.0) }
{
    held_entries(store, list)
        .take_while(|pair| pair.1.name < drain.name)
        .find(|pair| waits_for(drain, &pair.1))
}

// The first held entry that the Drain waits for, by the lists in their order. It stands in the
// Drain's queue or is in progress on an engine, so no other list is looked at.
fn first_waited<S: EntryStore>(queues: &Queues, store: &S, drain: &Entry) -> Option<(Cell, Entry)>
    requires store { IsStoreFor queues.now.setup.caps (S.cells store.now) (S.content store.now) }
    requires placed { IsInPlace queues.now.setup (S.content store.now) }
    requires order { QueuesRise queues.now.setup (S.content store.now) }
    ensures { result
        ≡ first_waited (lists_alone queues.now.setup (S.content store.now)) drain.now }
{
    if queues.has_queue(drain.queue) {
        let queued = first_older(store, ListId(drain.queue), drain);
        if queued.is_some() {
            return queued;
        }
    }
    for engine in 0..queues.caps().engines {
        let found = first_in(store, queues.list(ListUse::Progress(engine)), drain);
        if found.is_some() {
            return found;
        }
    }
    None
}

impl Engines {
    // What the engine's batch waits for: members that are left, then those that are still to be
    // fetched.
    #[inline(always)]
    fn batch_reason<S: EntryStore>(
        &self,
        queues: &Queues,
        store: &S,
        engine: u16,
    ) -> Option<FinishReason>
        requires store { IsStoreFor queues.now.setup.caps (S.cells store.now)
            (S.content store.now) }
        requires engine { engine < queues.now.setup.caps.engines }
        ensures { result
            ≡ first_row
            (batch_table (work queues.now.setup self.now (S.content store.now) []) engine) }
    {
        let left = store.len(queues.list(ListUse::Members(engine)));
        if left > 0 {
            return Some(FinishReason::MembersLeft { left });
        }
        let note = self.note(engine)?;
        if is_all_fetched(&note) {
            return None;
        }
        Some(FinishReason::StillToFetch {
            fetched: note.fetched,
            count: note.count,
        })
    }

    // What the entry, a batch or not, has to wait for, the first cause that stands.
    #[inline(always)]
    fn wait_reason<S: EntryStore>(
        &self,
        queues: &Queues,
        store: &S,
        engine: u16,
        entry: &Entry,
        is_batch: bool,
    ) -> Option<FinishReason>
        requires batch { is_batch ≡ is_batch_of queues.now.setup entry.now }
        requires store { IsStoreFor queues.now.setup.caps (S.cells store.now)
            (S.content store.now) }
        requires placed { IsInPlace queues.now.setup (S.content store.now) }
        requires order { QueuesRise queues.now.setup (S.content store.now) }
        requires engine { engine < queues.now.setup.caps.engines }
        ensures { result
            ≡ first_row
            (wait_table (work queues.now.setup self.now (S.content store.now) []) engine
            entry.now) }
    {
        if is_batch {
            return self.batch_reason(queues, store, engine);
        }
        if !queues.is_drain(entry) {
            return None;
        }
        // A copy for the search, so that an entry that is no Drain need not be in memory.
        let drain = *entry;
        let (_, waited) = first_waited(queues, store, &drain)?;
        Some(FinishReason::DrainWaits { first: waited.name })
    }

    // The entry of the ticket, and whether it is a batch, where the engine may end it; else why it
    // may not, the first cause that stands.
    #[inline(always)]
    fn entry_to_end<S: EntryStore>(
        &self,
        queues: &Queues,
        store: &S,
        engine: u16,
        ticket: Ticket,
    ) -> Result<(Entry, bool), FinishReason>
        requires store { IsStoreFor queues.now.setup.caps (S.cells store.now)
            (S.content store.now) }
        requires placed { IsInPlace queues.now.setup (S.content store.now) }
        requires order { QueuesRise queues.now.setup (S.content store.now) }
        ensures reason { result_err result
            ≡ finish_reason (work queues.now.setup self.now (S.content store.now) []) engine
            ticket }
        ensures running { IfOk result
            (λ end. find (is_ticket ticket)
            (running_on (lists_alone queues.now.setup (S.content store.now)) engine)
            ≡ Some (ticket.cell, end.0)) }
        ensures batch { IfOk result (λ end. end.1 ≡ is_batch_of queues.now.setup end.0) }
        ensures ready { IfOk result
            (λ end. must_wait (work queues.now.setup self.now (S.content store.now) []) engine
            end.0
            ≡ false) }
    {
        let entry = find_running(queues, store, engine, ticket)?;
        let is_batch = queues.is_batch(&entry);
        match self.wait_reason(queues, store, engine, &entry, is_batch) {
            Some(reason) => Err(reason),
            None => Ok((entry, is_batch)),
        }
    }

    /// Why the engine does not end the entry of the ticket, the first cause that stands. `None`
    /// exactly where it ends the entry. Looks at what `finish` looks at.
    pub fn finish_reason<S: EntryStore>(
        &self,
        queues: &Queues,
        store: &S,
        engine: u16,
        ticket: Ticket,
    ) -> Option<FinishReason>
        requires store { IsStoreFor queues.now.setup.caps (S.cells store.now)
            (S.content store.now) }
        requires placed { IsInPlace queues.now.setup (S.content store.now) }
        requires order { QueuesRise queues.now.setup (S.content store.now) }
        ensures { result
            ≡ finish_reason (work queues.now.setup self.now (S.content store.now) []) engine
            ticket }
    {
        self.entry_to_end(queues, store, engine, ticket).err()
    }

    // The status of an entry that ends.
    #[inline(always)]
    fn last_status(
        &self,
        queues: &Queues,
        engine: u16,
        entry: &Entry,
        is_batch: bool,
        outcome: Outcome,
    ) -> u8
        requires batch { is_batch ≡ is_batch_of queues.now.setup entry.now }
        ensures { (content : Content) (cell : Cell)
            → result
            ≡ last_status (work queues.now.setup self.now content []) engine
            (cell, entry.now) outcome }
    {
        match self.note(engine) {
            Some(note) if is_batch && note.failed => 0x05,
            _ => queues.status(entry, outcome),
        }
    }

    // Writes what the engine's note is after the entry ends, where it changes.
    #[inline(always)]
    fn write_note_after(
        &mut self,
        queues: &Queues,
        engine: u16,
        entry: &Entry,
        is_batch: bool,
        outcome: Outcome,
    )
        requires engine { engine < length self.old.notes }
        requires batch { is_batch ≡ is_batch_of queues.now.setup entry.now }
        ensures { (content : Content) (cell : Cell)
            → self.new
            ≡ record self.old {
              notes = with_note self.old.notes engine
                  (note_after (work queues.now.setup self.old content []) engine
                  (cell, entry.now) outcome);
            } }
    {
        if is_batch {
            self.set_note(engine, None);
            return;
        }
        if entry.parent.is_none() || queues.status(entry, outcome) == 0x01 {
            return;
        }
        if let Some(note) = self.note(engine) {
            self.set_note(
                engine,
                Some(BatchNote {
                    failed: true,
                    ..note
                }),
            );
        }
    }

    /// The engine ends the running entry that has the ticket's cell and name, and says how its work
    /// went.
    ///
    /// `Gone` where no running entry of the engine has them, `NotReady` for a well-formed Batch
    /// with members that are left or that may still be fetched and for a well-formed Drain while an
    /// entry that was submitted before it to its queue and under its PASID is held, else `Done`
    /// with the status. The entry leaves and gives its read buffers back, and the book gets a row.
    /// A member that was not successful marks its batch as failed; a batch that is so marked ends
    /// with 0x05, and its note goes. Touches the cell of the ticket alone; the end of a Drain looks
    /// at the front of its queue and at what is in progress on each engine.
    #[inline(always)]
    pub fn finish<S: EntryStore>(
        &mut self,
        queues: &mut Queues,
        store: &mut S,
        book: &mut Book,
        engine: u16,
        ticket: Ticket,
        outcome: Outcome,
    ) -> FinishAnswer
        requires in_step { IsInStep queues.old.setup self.old (S.cells store.old)
            (S.content store.old) }
        requires counted { IsCounted queues.old (S.content store.old) }
        requires placed { IsInPlace queues.old.setup (S.content store.old) }
        requires order { QueuesRise queues.old.setup (S.content store.old) }
        requires room { length book.old.fates < book.old.row_room }
        ensures step { finish (work queues.old.setup self.old (S.content store.old) book.old.fates)
            engine ticket outcome
            ≡ (result, work queues.new.setup self.new (S.content store.new) book.new.fates) }
        ensures book { book.new ≡ record book.old { fates = book.new.fates } }
        ensures in_step { IsInStep queues.new.setup self.new (S.cells store.new)
            (S.content store.new) }
        ensures counted { IsCounted queues.new (S.content store.new) }
    {
        let (entry, is_batch) = match self.entry_to_end(queues, store, engine, ticket) {
            Ok(end) => end,
            Err(reason) => return reason.answer(),
        };
        let status = self.last_status(queues, engine, &entry, is_batch, outcome);
        self.give_back(self.home(engine), queues.need(&entry));
        self.write_note_after(queues, engine, &entry, is_batch, outcome);
        let _ = store.unlink(ticket.cell);
        queues.left(entry.queue);
        book.add_row(FateRow {
            name: entry.name,
            parent: entry.parent,
            fate: Fate::Completed(status),
        });
        FinishAnswer::Done(status)
    }
}
