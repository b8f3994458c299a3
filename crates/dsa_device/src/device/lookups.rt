//! What a device tells of one engine, of one cell and of one entry.

ghost use Rattle.std.specs.Prelude.{◌≡◌, true, false, MatchOption};
ghost use Rattle.std.specs.Option.{option_map};
ghost use Rattle.dsa_regs.specs.Caps.{list_use};
ghost use Rattle.dsa_store.specs.Content.{entry_of, list_of_cell};
ghost use Rattle.dsa_book.specs.State.{need_of, is_batch_of, is_drain_of};
ghost use Rattle.dsa_book.specs.declared.answer.DispatchAnswer.TheVariants.{Taken};
ghost use Rattle.dsa_book.specs.Choice.{from_queue};
ghost use Rattle.dsa_book.specs.Work.{group_of_engine, qualifies, dispatch};

use super::Device;
use dsa_book::Ticket;
use dsa_regs::ListUse;
use dsa_store::{Cell, Entry, EntryStore};

impl<S: EntryStore> Device<S> {
    /// The group that the engine is of: the first that has it. `None` exactly where none has.
    pub fn group_of(&self, engine: u16) -> Option<u16>
        ensures { result ≡ group_of_engine self.now.state.work engine }
    {
        self.queues.group_of(engine)
    }

    /// The ticket of the queue's front, where the engine may take it: what `dispatch_from` takes,
    /// once the history has room. `None` exactly where the queue does not qualify.
    pub fn offered(&self, engine: u16, queue: u16) -> Option<Ticket>
        ensures { MatchOption result (qualifies self.now.state.work engine queue ≡ false)
            (λ ticket. (qualifies self.now.state.work engine queue ≡ true)
            × ((dispatch self.now.state.work engine (from_queue queue)).0 ≡ Taken ticket queue)) }
    {
        self.engines
            .offered(&self.queues, &self.store, engine, queue)
    }

    /// The entry that the cell holds. `None` exactly where it holds none.
    pub fn entry_in(&self, cell: Cell) -> Option<Entry>
        ensures { result ≡ entry_of self.now.state.work.content cell }
    {
        self.store.get(cell)
    }

    /// What the list is for that the cell stands in. `None` exactly where it stands in none.
    pub fn list_with(&self, cell: Cell) -> Option<ListUse>
        ensures { result
            ≡ option_map (list_use self.now.caps) (list_of_cell self.now.state.work.content cell) }
    {
        let list = self.store.list_of(cell)?;
        Some(self.queues.list_use(list))
    }

    /// How many read buffers the entry takes while it runs, by the limits of its queue (profile).
    pub fn need(&self, entry: &Entry) -> u8
        ensures { result ≡ need_of self.now.state.work.setup entry.now }
    {
        self.queues.need(entry)
    }

    /// Whether the entry is a well-formed Batch, by the limits of its queue (profile).
    pub fn is_batch(&self, entry: &Entry) -> bool
        ensures { result ≡ is_batch_of self.now.state.work.setup entry.now }
    {
        self.queues.is_batch(entry)
    }

    /// Whether the entry is a well-formed Drain, by the limits of its queue (profile).
    pub fn is_drain(&self, entry: &Entry) -> bool
        ensures { result ≡ is_drain_of self.now.state.work.setup entry.now }
    {
        self.queues.is_drain(entry)
    }
}
