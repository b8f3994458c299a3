//! Why an engine does not take, fetch, start or end an entry.

ghost use Rattle.std.specs.Prelude.{◌≡◌, ◌&&◌, not, is_some};
ghost use Rattle.std.specs.Option.{option_map};
ghost use Rattle.dsa_desc.specs.declared.Descriptor.{Descriptor};
ghost use Rattle.dsa_desc.specs.declared.Outcome.{Outcome};
ghost use Rattle.dsa_store.specs.declared.entry.Cell.{Cell};
ghost use Rattle.dsa_book.specs.Work.{fetch, finish, qualifies, start};
ghost use Rattle.dsa_engines.specs.Batch.{fetch_answer, fetch_reason, start_answer, start_reason, unfetched, unstarted};
ghost use Rattle.dsa_engines.specs.Dispatch.{engine_reason, is_offered, queue_reason};
ghost use Rattle.dsa_engines.specs.Finish.{finish_answer, finish_reason, unended};

use super::Device;
use dsa_book::Ticket;
use dsa_engines::{
    EngineReason, FetchReason, FinishReason, QueueReason, StartReason, engine_reason,
};
use dsa_store::EntryStore;

impl<S: EntryStore> Device<S> {
    /// Why no queue is looked at for the engine, the first cause that stands. `None` exactly where
    /// the engine is of a group.
    pub fn engine_reason(&self, engine: u16) -> Option<EngineReason>
        ensures { result ≡ engine_reason self.now.state.work engine }
    {
        engine_reason(&self.queues, engine)
    }

    /// Why the engine does not take the front of the queue, the first cause that stands. `None`
    /// exactly where the queue is not one of the engine's group, or the engine may take its front:
    /// so an engine is idle exactly where each queue of its group has a reason.
    pub fn queue_reason(&self, engine: u16, queue: u16) -> Option<QueueReason>
        ensures reason { result ≡ queue_reason self.now.state.work engine queue }
        ensures some { is_some result
            ≡ (is_offered self.now.state.work engine queue
            && not (qualifies self.now.state.work engine queue)) }
    {
        self.engines
            .queue_reason(&self.queues, &self.store, engine, queue)
    }

    /// Why the engine fetches no member, the first cause that stands. `None` exactly where it
    /// fetches one, and any other answer is the one that the reason is for.
    pub fn fetch_reason(&self, engine: u16) -> Option<FetchReason>
        ensures reason { result ≡ fetch_reason self.now.state.work engine }
        ensures answer { (desc : Descriptor) (cell : Cell)
            → option_map fetch_answer result
            ≡ unfetched (fetch self.now.state.work engine desc cell).0 }
    {
        self.engines.fetch_reason(&self.queues, &self.store, engine)
    }

    /// Why the engine starts no member, the first cause that stands. `None` exactly where it starts
    /// one, and any other answer is the one that the reason is for.
    pub fn start_reason(&self, engine: u16) -> Option<StartReason>
        ensures reason { result ≡ start_reason self.now.state.work engine }
        ensures answer { option_map start_answer result
            ≡ unstarted (start self.now.state.work engine).0 }
    {
        self.engines
            .start_reason(&self.queues, &self.store, &self.book, engine)
    }

    /// Why the engine does not end the entry of the ticket, the first cause that stands. `None`
    /// exactly where it ends the entry, and any other answer is the one that the reason is for.
    pub fn finish_reason(&self, engine: u16, ticket: Ticket) -> Option<FinishReason>
        ensures reason { result ≡ finish_reason self.now.state.work engine ticket }
        ensures answer { (outcome : Outcome)
            → option_map finish_answer result
            ≡ unended (finish self.now.state.work engine ticket outcome).0 }
    {
        self.engines
            .finish_reason(&self.queues, &self.store, engine, ticket)
    }
}
