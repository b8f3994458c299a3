//! The value behind the lock, and its steps.
//!
//! Each step makes one step of the device, by the seat that it is lent, and adds it to the ledger
//! and to the receipts of the seat where the history keeps it.

ghost use Rattle.std.specs.Prelude.{◌≡◌, ℕ, Some};
ghost use Rattle.dsa_desc.specs.Descriptor.{read};
ghost use Rattle.dsa_book.specs.declared.event.Event.TheVariants as event;
ghost use Rattle.dsa_book.specs.declared.answer.Reply.TheVariants as reply;
ghost use Rattle.dsa_device.specs.Running.{after_answer};
ghost use Rattle.dsa_shared.specs.Locked.{IsAdminStep, IsSeatStep};

mod checks;
mod kept;
mod walk;

use crate::blanks::Sharing;
use crate::seats::{AdminSeat, ClientSeat, EngineSeat};
pub use checks::check;
use dsa_book::{
    ClearAnswer, DispatchAnswer, FetchAnswer, FinishAnswer, IssueAnswer, Kind, PollAnswer, Portal,
    StartAnswer, SubmitAnswer, Ticket, WriteAnswer,
};
use dsa_desc::{Descriptor, Outcome};
use dsa_device::Device;
use dsa_regs::{Command, GroupConfig, QueueConfig};
use dsa_store::EntryStore;
pub use kept::state_is_replay;
use std::alloc::Allocator;
use std::marker::Model;
use std::sync::ledger::Book;

/// A device, and the ledger of the steps of its history. Contracts see the device.
#[derive(Drop)]
pub struct Locked<S: EntryStore, L: Sharing> {
    pub(crate) device: Device<S>,
    pub(crate) ledger: Book<L>,
}

impl<S: EntryStore, L: Sharing> Model for Locked<S, L> {
    ghost use Rattle.std.specs.Prelude.{◌≡◌, false, length};
    ghost use Rattle.dsa_device.specs.Running.{Running};

    ghost Value = { Running };

    ghost view = { λ l. l.device };

    ghost invariant = { λ l. (l.ledger.total ≡ length l.device.history)
        × (l.device.capacity ≡ L.capacity) × (l.device.caps ≡ L.caps)
        × (l.device.anew ≡ false) };
}

// Makes a step of the device, and adds it to the ledger and to the receipts of the seat where the
// history keeps it.
macro_rules! noting {
    ($locked:ident, $seat:ident, |$device:ident| $step:expr) => {{
        let Locked {
            device: $device,
            ledger,
        } = $locked;
        $device.state_is_replay();
        let before = $device.history().len();
        let answer = $step;
        $seat.receipts.note(ledger, $device, before);
        answer
    }};
}

/// The client of the seat writes the 64 bytes of a descriptor to a portal of a queue.
#[inline(always)]
pub fn submit<S: EntryStore, L: Sharing, A: Allocator>(
    locked: &mut Locked<S, L>,
    seat: &mut ClientSeat<L, A>,
    queue: u16,
    portal: Portal,
    kind: Kind,
    bytes: &[u8; 64],
) -> SubmitAnswer
    ensures step { after_answer locked.old
        (event.Submit seat.old.number queue portal kind (read bytes.now)) (reply.Submit result)
        ≡ Some locked.new }
    ensures seat { IsSeatStep L.caps L.capacity seat.old seat.new
        (event.Submit seat.old.number queue portal kind (read bytes.now)) (reply.Submit result) }
{
    noting!(
        locked,
        seat,
        |device| device.submit(seat.number, queue, portal, kind, bytes)
    )
}

/// The engine of the seat asks for an entry.
#[inline(always)]
pub fn dispatch<S: EntryStore, L: Sharing, A: Allocator>(
    locked: &mut Locked<S, L>,
    seat: &mut EngineSeat<L, A>,
) -> DispatchAnswer
    ensures step { after_answer locked.old (event.Dispatch seat.old.number) (reply.Dispatch result)
        ≡ Some locked.new }
    ensures seat { IsSeatStep L.caps L.capacity seat.old seat.new
        (event.Dispatch seat.old.number) (reply.Dispatch result) }
{
    noting!(locked, seat, |device| device.dispatch(seat.number))
}

/// The engine of the seat hands in the next member of its batch.
#[inline(always)]
pub fn fetch<S: EntryStore, L: Sharing, A: Allocator>(
    locked: &mut Locked<S, L>,
    seat: &mut EngineSeat<L, A>,
    desc: Descriptor,
) -> FetchAnswer
    ensures step { after_answer locked.old (event.Fetch seat.old.number desc) (reply.Fetch result)
        ≡ Some locked.new }
    ensures seat { IsSeatStep L.caps L.capacity seat.old seat.new
        (event.Fetch seat.old.number desc) (reply.Fetch result) }
{
    noting!(locked, seat, |device| device.fetch(seat.number, desc))
}

/// The engine of the seat starts the first of its members that does not run.
#[inline(always)]
pub fn start<S: EntryStore, L: Sharing, A: Allocator>(
    locked: &mut Locked<S, L>,
    seat: &mut EngineSeat<L, A>,
) -> StartAnswer
    ensures step { after_answer locked.old (event.Start seat.old.number) (reply.Start result)
        ≡ Some locked.new }
    ensures seat { IsSeatStep L.caps L.capacity seat.old seat.new
        (event.Start seat.old.number) (reply.Start result) }
{
    noting!(locked, seat, |device| device.start(seat.number))
}

/// The engine of the seat ends the running entry of that ticket.
#[inline(always)]
pub fn finish<S: EntryStore, L: Sharing, A: Allocator>(
    locked: &mut Locked<S, L>,
    seat: &mut EngineSeat<L, A>,
    ticket: Ticket,
    outcome: Outcome,
) -> FinishAnswer
    ensures step { after_answer locked.old (event.Finish seat.old.number ticket outcome)
        (reply.Finish result)
        ≡ Some locked.new }
    ensures seat { IsSeatStep L.caps L.capacity seat.old seat.new
        (event.Finish seat.old.number ticket outcome) (reply.Finish result) }
{
    noting!(
        locked,
        seat,
        |device| device.finish(seat.number, ticket, outcome)
    )
}

/// The administrator issues a command.
#[inline(always)]
pub fn issue<S: EntryStore, L: Sharing, A: Allocator>(
    locked: &mut Locked<S, L>,
    seat: &mut AdminSeat<L, A>,
    command: Command,
) -> IssueAnswer
    ensures step { after_answer locked.old (event.Issue command) (reply.Issue result)
        ≡ Some locked.new }
    ensures seat { IsAdminStep L.caps L.capacity seat.old seat.new
        (event.Issue command) (reply.Issue result) }
{
    noting!(locked, seat, |device| device.issue(command))
}

/// The administrator asks whether the active command is over.
#[inline(always)]
pub fn poll<S: EntryStore, L: Sharing, A: Allocator>(
    locked: &mut Locked<S, L>,
    seat: &mut AdminSeat<L, A>,
) -> PollAnswer
    ensures step { after_answer locked.old event.Poll (reply.Poll result) ≡ Some locked.new }
    ensures seat { IsAdminStep L.caps L.capacity seat.old seat.new event.Poll (reply.Poll result) }
{
    noting!(locked, seat, |device| device.poll())
}

/// The administrator clears the noted error, and is told it.
#[inline(always)]
pub fn clear_error<S: EntryStore, L: Sharing, A: Allocator>(
    locked: &mut Locked<S, L>,
    seat: &mut AdminSeat<L, A>,
) -> ClearAnswer
    ensures step { after_answer locked.old event.ClearError (reply.Clear result)
        ≡ Some locked.new }
    ensures seat { IsAdminStep L.caps L.capacity seat.old seat.new
        event.ClearError (reply.Clear result) }
{
    noting!(locked, seat, |device| device.clear_error())
}

/// The administrator writes the configuration of a queue.
#[inline(always)]
pub fn write_queue<S: EntryStore, L: Sharing, A: Allocator>(
    locked: &mut Locked<S, L>,
    seat: &mut AdminSeat<L, A>,
    queue: u16,
    config: QueueConfig,
) -> WriteAnswer
    ensures step { after_answer locked.old (event.WriteQueue queue config) (reply.Write result)
        ≡ Some locked.new }
    ensures seat { IsAdminStep L.caps L.capacity seat.old seat.new
        (event.WriteQueue queue config) (reply.Write result) }
{
    noting!(locked, seat, |device| device.write_queue(queue, config))
}

/// The administrator writes the configuration of a group.
#[inline(always)]
pub fn write_group<S: EntryStore, L: Sharing, A: Allocator>(
    locked: &mut Locked<S, L>,
    seat: &mut AdminSeat<L, A>,
    group: u16,
    config: GroupConfig,
) -> WriteAnswer
    ensures step { after_answer locked.old (event.WriteGroup group config) (reply.Write result)
        ≡ Some locked.new }
    ensures seat { IsAdminStep L.caps L.capacity seat.old seat.new
        (event.WriteGroup group config) (reply.Write result) }
{
    noting!(locked, seat, |device| device.write_group(group, config))
}
