//! Fetch: an engine hands in the next member of its batch.

ghost use Rattle.std.specs.Prelude.{◌≡◌, ℕ, ◌<◌, ◌+◌, ◌^◌, ◌==◌, true, false, List, [], length, find, get_or, Some, None, IfOk};
ghost use Rattle.std.specs.Result.{result_err};
ghost use Rattle.dsa_store.specs.Content.{chain, held_count};
ghost use Rattle.dsa_book.specs.declared.fate.FateRow.{FateRow};
ghost use Rattle.dsa_book.specs.declared.answer.Reply.TheVariants as reply;
ghost use Rattle.dsa_book.specs.Choice.{choice_of, chosen_cell, may_enter};
ghost use Rattle.dsa_book.specs.Work.{fetch, is_all_fetched, progress_list};
ghost use Rattle.dsa_queues.specs.Queues.{IsCounted};
ghost use Rattle.dsa_engines.specs.Engines.{work, IsInStep, is_fetching};
ghost use Rattle.dsa_engines.specs.Batch.{fetch_reason};

use crate::Engines;
use crate::reasons::FetchReason;
use dsa_book::{BatchNote, FetchAnswer, Ticket};
use dsa_desc::Descriptor;
use dsa_queues::Queues;
use dsa_regs::ListUse;
use dsa_store::{Cell, Entry, EntryStore, ListId, held_entries};

// The first entry of the list that has the name. Looks at those before it.
fn find_named<S: EntryStore>(store: &S, list: ListId, name: u32) -> Option<(Cell, Entry)>
    requires { list.0 < length (S.content store.now) }
    ensures { result ≡ find (λ pair. pair.1.name == name) (chain (S.content store.now) list.0) }
{
    held_entries(store, list).find(|pair| pair.1.name == name)
}

// Whether no member is to be fetched any more.
pub(crate) fn is_all_fetched(note: &BatchNote) -> bool
    ensures { result ≡ is_all_fetched note.now }
{
    note.closed || note.count <= note.fetched
}

impl Engines {
    // The note of the engine's batch and the batch, where a member of it is to be fetched; else why
    // none is, the first cause that stands.
    #[inline(always)]
    fn batch_to_fetch<S: EntryStore>(
        &self,
        queues: &Queues,
        store: &S,
        engine: u16,
    ) -> Result<(BatchNote, (Cell, Entry)), FetchReason>
        requires in_step { IsInStep queues.now.setup self.now (S.cells store.now)
            (S.content store.now) }
        ensures reason { result_err result
            ≡ fetch_reason (work queues.now.setup self.now (S.content store.now) []) engine }
        ensures engine { IfOk result (λ found. engine < queues.now.setup.caps.engines) }
        ensures found { IfOk result
            (λ found. (Some found.0 ≡ get_or self.now.notes engine None)
            × (find (λ pair. pair.1.name == found.0.batch)
            (chain (S.content store.now) (progress_list queues.now.setup engine))
            ≡ Some found.1)
            × (false ≡ is_all_fetched found.0)) }
    {
        let caps = queues.caps();
        if engine >= caps.engines {
            return Err(FetchReason::NoEngine);
        }
        let Some(note) = self.note(engine) else {
            return Err(FetchReason::NoBatch);
        };
        let progress = queues.list(ListUse::Progress(engine));
        let Some(batch) = find_named(store, progress, note.batch) else {
            return Err(FetchReason::NoBatch);
        };
        if is_all_fetched(&note) {
            return Err(FetchReason::AllFetched {
                count: note.count,
                fetched: note.fetched,
                closed: note.closed,
            });
        }
        Ok((note, batch))
    }

    /// Why the engine fetches no member, the first cause that stands. `None` exactly where it
    /// fetches one.
    pub fn fetch_reason<S: EntryStore>(
        &self,
        queues: &Queues,
        store: &S,
        engine: u16,
    ) -> Option<FetchReason>
        requires { IsInStep queues.now.setup self.now (S.cells store.now) (S.content store.now) }
        ensures { result
            ≡ fetch_reason (work queues.now.setup self.now (S.content store.now) []) engine }
    {
        self.batch_to_fetch(queues, store, engine).err()
    }

    /// The engine hands in the next member of the batch that it works on. It stands last among the
    /// members, waits, and has the next name, the PASID and the queue of the batch (profile).
    ///
    /// `NoBatch` where the engine works on no batch, `AllFetched` where the batch has no more
    /// members or is closed. Looks for the batch among the entries in progress.
    pub fn fetch<S: EntryStore>(
        &mut self,
        queues: &mut Queues,
        store: &mut S,
        engine: u16,
        desc: Descriptor,
    ) -> FetchAnswer
        requires in_step { IsInStep queues.old.setup self.old (S.cells store.old)
            (S.content store.old) }
        requires counted { IsCounted queues.old (S.content store.old) }
        requires room { is_fetching (work queues.old.setup self.old (S.content store.old) []) engine
            ≡ true
            → held_count (S.content store.old) < S.cells store.old }
        requires names { is_fetching
            (work queues.old.setup self.old (S.content store.old) []) engine
            ≡ true
            → queues.old.setup.next_name + 1 < 2 ^ 32 }
        ensures step { (fates : List FateRow)
            → fetch (work queues.old.setup self.old (S.content store.old) fates) engine desc
            (chosen_cell (choice_of (reply.Fetch result)))
            ≡ (result, work queues.new.setup self.new (S.content store.new) fates) }
        ensures free { may_enter queues.old.setup (S.content store.old)
            (choice_of (reply.Fetch result))
            ≡ true }
        ensures in_step { IsInStep queues.new.setup self.new (S.cells store.new)
            (S.content store.new) }
        ensures counted { IsCounted queues.new (S.content store.new) }
    {
        let (note, (_, batch)) = match self.batch_to_fetch(queues, store, engine) {
            Ok(found) => found,
            Err(reason) => return reason.answer(),
        };
        let name = queues.next_name();
        let member = Entry {
            name,
            parent: Some(note.batch),
            desc: desc.with_pasid(batch.desc.pasid),
            queue: batch.queue,
            running: false,
        };
        let members = queues.list(ListUse::Members(engine));
        let Some(cell) = store.push_back(members, member) else {
            unreachable!();
        };
        queues.give_name();
        queues.entered(batch.queue);
        let fetched = note.fetched + 1;
        self.set_note(engine, Some(BatchNote { fetched, ..note }));
        FetchAnswer::Fetched(Ticket { cell, name })
    }
}
