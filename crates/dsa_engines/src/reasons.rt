//! Why an engine does not take, fetch, start or end an entry.

ghost use Rattle.std.specs.Prelude.{◌≡◌, ℕ};
ghost use Rattle.dsa_book.specs.State.{Work};
ghost use Rattle.dsa_book.specs.Choice.{nothing};
ghost use Rattle.dsa_book.specs.Work.{may_leave};
ghost use Rattle.dsa_engines.specs.Batch.{fetch_answer};
ghost use Rattle.dsa_engines.specs.Dispatch.{all_have_reasons};
ghost use Rattle.dsa_engines.specs.Finish.{finish_answer};

use dsa_book::{FetchAnswer, FinishAnswer};
use dsa_buffers::BufferWant;
use dsa_regs::ListUse;

/// Why no queue is looked at for an engine.
#[derive(Clone, Copy, Debug, PartialEq, Eq)]
pub enum EngineReason {
    /// The device has no such engine.
    NoEngine,
    /// The engine is of no group.
    NoGroup,
}

/// Why an engine does not take the front of a queue of its group.
#[derive(Clone, Copy, Debug, PartialEq, Eq)]
pub enum QueueReason {
    /// Nothing waits in the queue.
    Empty,
    /// All slots of the engine are taken: so many, of so many.
    NoSlot { used: u32, slots: u16 },
    /// The read buffers that the front needs do not fit the group.
    NoBuffers(BufferWant),
    /// The front is a Batch, and the engine works on the batch of that name.
    OtherBatch { batch: u32 },
    /// The front is a Drain, and the Drain of that name is in progress on the engine.
    OtherDrain { drain: u32 },
}

/// Why an engine fetches no member.
#[derive(Clone, Copy, Debug, PartialEq, Eq)]
pub enum FetchReason {
    /// The device has no such engine.
    NoEngine,
    /// The engine works on no batch.
    NoBatch,
    /// `fetched` of `count` members were fetched, or the rest was abandoned and the batch is
    /// closed.
    AllFetched {
        count: u32,
        fetched: u32,
        closed: bool,
    },
}

/// Why an engine starts no member.
#[derive(Clone, Copy, Debug, PartialEq, Eq)]
pub enum StartReason {
    /// No member waits.
    Nothing,
    /// The member of that name has a fence and waits for all before it, of which the first is
    /// named.
    Fence {
        member: u32,
        waits_for: u32,
    },
    /// The member of that name has a fence, and a member before it failed (`failed` names the
    /// first): the remaining `left` members are abandoned.
    Failed {
        member: u32,
        failed: Option<u32>,
        left: u32,
    },
    /// The read buffers that the member needs do not fit the group.
    NoBuffers(BufferWant),
    /// The engine is of no group, so that there are no read buffers for it.
    NoGroup,
}

/// Why an engine does not end the entry of a ticket.
#[derive(Clone, Copy, Debug, PartialEq, Eq)]
pub enum FinishReason {
    /// The device has no such engine.
    NoEngine,
    /// The ticket's cell holds no entry.
    NoEntry,
    /// The ticket's cell holds the entry of that name by now.
    OtherName { name: u32 },
    /// The entry stands in that list, which is not one of the engine's.
    Elsewhere { list: ListUse },
    /// The entry is a member of the engine's batch that has not started.
    NotStarted,
    /// The entry is a Batch, and so many of its members have not ended.
    MembersLeft { left: u32 },
    /// The entry is a Batch of so many members, and so many of them were fetched.
    StillToFetch { fetched: u32, count: u32 },
    /// The entry is a Drain, and waits for the entry of that name: the first, by the lists in their
    /// order.
    DrainWaits { first: u32 },
}

impl FetchReason {
    /// The answer that the reason is one for.
    #[inline(always)]
    pub fn answer(self) -> FetchAnswer
        ensures { result ≡ fetch_answer self }
    {
        match self {
            FetchReason::AllFetched { .. } => FetchAnswer::AllFetched,
            FetchReason::NoEngine | FetchReason::NoBatch => FetchAnswer::NoBatch,
        }
    }
}

impl FinishReason {
    /// The answer that the reason is one for.
    #[inline(always)]
    pub fn answer(self) -> FinishAnswer
        ensures { result ≡ finish_answer self }
    {
        match self {
            FinishReason::MembersLeft { .. }
            | FinishReason::StillToFetch { .. }
            | FinishReason::DrainWaits { .. } => FinishAnswer::NotReady,
            _ => FinishAnswer::Gone,
        }
    }
}

/// An engine may be idle exactly where each queue of its group has a reason. The call does nothing.
pub fn idle_engines_have_reasons()
    ensures { (w : Work) (engine : ℕ) → may_leave w engine nothing ≡ all_have_reasons w engine }
{}
