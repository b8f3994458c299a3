//! Submission: ENQCMD and MOVDIR64B to either portal of a queue.

ghost use Rattle.std.specs.Prelude.{◌≡◌, ◌+◌, ◌<◌, ◌^◌, None, true};
ghost use Rattle.dsa_base.specs.Rows.{when};
ghost use Rattle.dsa_desc.specs.Descriptor.{with_pasid};
ghost use Rattle.dsa_regs.specs.Config.{queue_at};
ghost use Rattle.dsa_store.specs.Content.{Content, held_count};
ghost use Rattle.dsa_book.specs.State.{occupancy, has_queue};
ghost use Rattle.dsa_book.specs.Submit.{submit, after_refusal, limit_of, pasid_by, is_movdir64b};
ghost use Rattle.dsa_book.specs.declared.answer.Reply.TheVariants as reply;
ghost use Rattle.dsa_book.specs.Choice.{choice_of, nothing, chosen_cell, may_enter};
ghost use Rattle.dsa_queues.specs.Queues.{IsCounted, IsStoreFor, intake, is_accepting};
ghost use Rattle.dsa_queues.specs.Submission.{submit_reason};

use crate::{Queues, SubmitReason};
use dsa_book::{Cause, Kind, Portal, SubmitAnswer, Ticket};
use dsa_desc::Descriptor;
use dsa_regs::{Phase, QueueConfig};
use dsa_store::{Entry, EntryStore, ListId};

/// The number of entries at which the portal turns away: the size of the queue, or its threshold at
/// the limited portal of a shared one.
pub fn limit_of(config: &QueueConfig, portal: Portal) -> u16
    ensures { result ≡ limit_of config.now portal }
{
    match portal {
        Portal::Limited if !config.dedicated => config.threshold,
        _ => config.size,
    }
}

fn is_movdir64b(kind: Kind) -> bool
    ensures { result ≡ is_movdir64b kind }
{
    matches!(kind, Kind::Movdir64b)
}

// The PASID that a descriptor gets.
fn pasid_by(kind: Kind, config: &QueueConfig) -> u32
    ensures { result ≡ pasid_by kind config.now }
{
    match kind {
        Kind::Enqcmd { pasid } => pasid,
        Kind::Movdir64b => config.pasid,
    }
}

impl Queues {
    // ENQCMD is told to come again, MOVDIR64B leaves a noted error.
    fn turned_away(&mut self, queue: u16, kind: Kind, cause: Cause) -> SubmitAnswer
        ensures answer { (content : Content)
            → after_refusal (intake self.old.setup content) queue kind cause
            ≡ (result, intake self.new.setup content) }
        ensures held { self.new.held ≡ self.old.held }
        ensures no_cell { choice_of (reply.Submit result) ≡ nothing }
    {
        match kind {
            Kind::Enqcmd { .. } => SubmitAnswer::Retry(cause),
            Kind::Movdir64b => {
                self.note_error(queue, cause);
                SubmitAnswer::Dropped(cause)
            }
        }
    }

    /// Why a submission would be turned away: the first reason that holds. `None` exactly where it
    /// would be accepted.
    #[inline(always)]
    pub fn why_submit<S: EntryStore>(
        &self,
        store: &S,
        queue: u16,
        portal: Portal,
        kind: Kind,
    ) -> Option<SubmitReason>
        requires { IsStoreFor self.now.setup.caps (S.cells store.now) (S.content store.now) }
        ensures reason { result
            ≡ submit_reason (intake self.now.setup (S.content store.now)) queue portal kind }
        ensures known { result ≡ None → has_queue self.now.setup queue ≡ true }
    {
        if self.phase(queue) != Phase::On {
            return Some(SubmitReason::NotEnabled {
                device: self.device(),
                queue: self.known_phase(queue),
            });
        }
        let config = self.queue(queue);
        let dedicated = config.dedicated;
        if is_movdir64b(kind) != dedicated {
            return Some(SubmitReason::WrongKind { dedicated });
        }
        let (occupancy, limit) = (store.len(ListId(queue)), limit_of(&config, portal));
        if occupancy >= u32::from(limit) {
            return Some(SubmitReason::AtLimit {
                occupancy,
                limit,
                portal,
            });
        }
        None
    }

    /// Writes a descriptor to a portal of a queue.
    ///
    /// Where there is a reason ([`Queues::why_submit`]), ENQCMD is answered `Retry` with its cause,
    /// MOVDIR64B `Dropped`, and an error is noted. Else the descriptor stands last in its queue,
    /// under the PASID that the instruction or the queue gives it.
    #[inline(always)]
    pub fn submit<S: EntryStore>(
        &mut self,
        store: &mut S,
        queue: u16,
        portal: Portal,
        kind: Kind,
        desc: Descriptor,
    ) -> SubmitAnswer
        requires store { IsStoreFor self.old.setup.caps (S.cells store.old) (S.content store.old) }
        requires room { is_accepting (intake self.old.setup (S.content store.old)) queue portal kind
            ≡ true
            → held_count (S.content store.old) < S.cells store.old }
        requires counted { IsCounted self.old (S.content store.old) }
        requires names { is_accepting (intake self.old.setup (S.content store.old)) queue portal
            kind
            ≡ true
            → self.old.setup.next_name + 1 < 2 ^ 32 }
        ensures answer { submit (intake self.old.setup (S.content store.old)) queue portal kind desc
            (chosen_cell (choice_of (reply.Submit result)))
            ≡ (result, intake self.new.setup (S.content store.new)) }
        ensures free { may_enter self.old.setup (S.content store.old)
            (choice_of (reply.Submit result))
            ≡ true }
        ensures counted { IsCounted self.new (S.content store.new) }
        ensures store { IsStoreFor self.new.setup.caps (S.cells store.new) (S.content store.new) }
    {
        if let Some(reason) = self.why_submit(store, queue, portal, kind) {
            return self.turned_away(queue, kind, reason.cause());
        }
        let config = self.queue(queue);
        let name = self.next_name();
        let entry = Entry {
            name,
            parent: None,
            desc: desc.with_pasid(pasid_by(kind, &config)),
            queue,
            running: false,
        };
        match store.push_back(ListId(queue), entry) {
            Some(cell) => {
                self.give_name();
                self.entered(queue);
                SubmitAnswer::Accepted(Ticket { cell, name })
            }
            None => unreachable!(),
        }
    }

    /// The number of entries in the queue's own list. `None` exactly when the device has no such
    /// queue.
    pub fn occupancy<S: EntryStore>(&self, store: &S, queue: u16) -> Option<u16>
        requires store { IsStoreFor self.now.setup.caps (S.cells store.now) (S.content store.now) }
        requires short { has_queue self.now.setup queue ≡ true
            → occupancy (S.content store.now) queue < 2 ^ 16 }
        ensures { result
            ≡ when (has_queue self.now.setup queue) (occupancy (S.content store.now) queue) }
    {
        if queue < self.caps().queues {
            Some(store.len(ListId(queue)) as u16)
        } else {
            None
        }
    }
}
