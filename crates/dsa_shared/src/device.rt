//! The shared device: a lock round a device and the ledger of its steps.

ghost use Rattle.std.specs.Prelude.{◌≡◌, ◌≤◌, ◌==◌, find, option_map};
ghost use Rattle.dsa_store.specs.Content.{held_count};
ghost use Rattle.dsa_regs.specs.Caps.{cell_count};
ghost use Rattle.dsa_desc.specs.Descriptor.{read};
ghost use Rattle.dsa_book.specs.declared.event.Event.TheVariants as event;
ghost use Rattle.dsa_book.specs.declared.answer.Reply.TheVariants as reply;
ghost use Rattle.dsa_shared.specs.Locked.{IsAdminStep, IsReadOf, IsSeatStep};

use crate::blanks::Sharing;
use crate::locked;
use crate::locked::Locked;
use crate::seats::{AdminSeat, ClientSeat, EngineSeat};
use dsa_book::{
    ClearAnswer, DispatchAnswer, Fate, FetchAnswer, FinishAnswer, IssueAnswer, Kind, PollAnswer,
    Portal, StartAnswer, SubmitAnswer, Ticket, WriteAnswer,
};
use dsa_desc::{Descriptor, Outcome};
use dsa_regs::{Command, GroupConfig, QueueConfig};
use dsa_store::EntryStore;
use std::alloc::Allocator;
use std::sync::{Mutex, Wait};

/// A device that threads share. Each step takes the lock once, and promises only what it answers if
/// it returns.
#[derive(Drop)]
pub struct SharedDevice<S: EntryStore, L: Sharing> {
    pub(crate) clients: u16,
    pub(crate) locked: Mutex<Locked<S, L>>,
    pub(crate) ghost clients_are: { clients ≡ L.clients },
}

impl<S: EntryStore, L: Sharing> SharedDevice<S, L> {
    /// The client of the seat writes the 64 bytes of a descriptor to a portal of a queue, by ENQCMD
    /// or MOVDIR64B.
    #[inline(always)]
    pub fn submit<R: Wait, A: Allocator>(
        &self,
        rt: &R,
        seat: &mut ClientSeat<L, A>,
        queue: u16,
        portal: Portal,
        kind: Kind,
        bytes: &[u8; 64],
    ) -> SubmitAnswer
        ensures { IsSeatStep L.caps L.capacity seat.old seat.new
            (event.Submit seat.old.number queue portal kind (read bytes.now))
            (reply.Submit result) }
    {
        locked::submit(&mut self.locked.lock(rt), seat, queue, portal, kind, bytes)
    }

    /// The engine of the seat asks for an entry, and takes the front of a queue of its group.
    #[inline(always)]
    pub fn dispatch<R: Wait, A: Allocator>(
        &self,
        rt: &R,
        seat: &mut EngineSeat<L, A>,
    ) -> DispatchAnswer
        ensures { IsSeatStep L.caps L.capacity seat.old seat.new
            (event.Dispatch seat.old.number) (reply.Dispatch result) }
    {
        locked::dispatch(&mut self.locked.lock(rt), seat)
    }

    /// The engine of the seat hands in the next member of its batch.
    #[inline(always)]
    pub fn fetch<R: Wait, A: Allocator>(
        &self,
        rt: &R,
        seat: &mut EngineSeat<L, A>,
        desc: Descriptor,
    ) -> FetchAnswer
        ensures { IsSeatStep L.caps L.capacity seat.old seat.new
            (event.Fetch seat.old.number desc) (reply.Fetch result) }
    {
        locked::fetch(&mut self.locked.lock(rt), seat, desc)
    }

    /// The engine of the seat starts the first of its members that does not run.
    #[inline(always)]
    pub fn start<R: Wait, A: Allocator>(&self, rt: &R, seat: &mut EngineSeat<L, A>) -> StartAnswer
        ensures { IsSeatStep L.caps L.capacity seat.old seat.new
            (event.Start seat.old.number) (reply.Start result) }
    {
        locked::start(&mut self.locked.lock(rt), seat)
    }

    /// The engine of the seat ends the running entry of that ticket, and says how its work went.
    #[inline(always)]
    pub fn finish<R: Wait, A: Allocator>(
        &self,
        rt: &R,
        seat: &mut EngineSeat<L, A>,
        ticket: Ticket,
        outcome: Outcome,
    ) -> FinishAnswer
        ensures { IsSeatStep L.caps L.capacity seat.old seat.new
            (event.Finish seat.old.number ticket outcome) (reply.Finish result) }
    {
        locked::finish(&mut self.locked.lock(rt), seat, ticket, outcome)
    }

    /// The administrator issues a command.
    #[inline(always)]
    pub fn issue<R: Wait, A: Allocator>(
        &self,
        rt: &R,
        seat: &mut AdminSeat<L, A>,
        command: Command,
    ) -> IssueAnswer
        ensures { IsAdminStep L.caps L.capacity seat.old seat.new
            (event.Issue command) (reply.Issue result) }
    {
        locked::issue(&mut self.locked.lock(rt), seat, command)
    }

    /// The administrator asks whether the active command is over.
    #[inline(always)]
    pub fn poll<R: Wait, A: Allocator>(&self, rt: &R, seat: &mut AdminSeat<L, A>) -> PollAnswer
        ensures { IsAdminStep L.caps L.capacity seat.old seat.new event.Poll (reply.Poll result) }
    {
        locked::poll(&mut self.locked.lock(rt), seat)
    }

    /// The administrator writes the configuration of a queue.
    #[inline(always)]
    pub fn write_queue<R: Wait, A: Allocator>(
        &self,
        rt: &R,
        seat: &mut AdminSeat<L, A>,
        queue: u16,
        config: QueueConfig,
    ) -> WriteAnswer
        ensures { IsAdminStep L.caps L.capacity seat.old seat.new
            (event.WriteQueue queue config) (reply.Write result) }
    {
        locked::write_queue(&mut self.locked.lock(rt), seat, queue, config)
    }

    /// The administrator writes the configuration of a group.
    #[inline(always)]
    pub fn write_group<R: Wait, A: Allocator>(
        &self,
        rt: &R,
        seat: &mut AdminSeat<L, A>,
        group: u16,
        config: GroupConfig,
    ) -> WriteAnswer
        ensures { IsAdminStep L.caps L.capacity seat.old seat.new
            (event.WriteGroup group config) (reply.Write result) }
    {
        locked::write_group(&mut self.locked.lock(rt), seat, group, config)
    }

    /// The administrator clears the noted error, and is told it.
    #[inline(always)]
    pub fn clear_error<R: Wait, A: Allocator>(
        &self,
        rt: &R,
        seat: &mut AdminSeat<L, A>,
    ) -> ClearAnswer
        ensures { IsAdminStep L.caps L.capacity seat.old seat.new
            event.ClearError (reply.Clear result) }
    {
        locked::clear_error(&mut self.locked.lock(rt), seat)
    }

    /// The number of entries that the device holds at some moment of the call.
    pub fn held<R: Wait>(&self, rt: &R) -> u32
        ensures read { IsReadOf L.caps L.capacity (λ d. held_count d.state.work.content) result }
        ensures bound { result ≤ cell_count L.caps }
    {
        let locked = self.locked.lock(rt);
        locked::state_is_replay(&locked);
        locked.device.held()
    }

    /// What became of the entry of that name, at some moment of the call.
    pub fn fate<R: Wait>(&self, rt: &R, name: u32) -> Option<Fate>
        ensures { IsReadOf L.caps L.capacity (λ d. option_map (λ row. row.fate)
            (find (λ row. row.name == name) d.state.work.fates)) result }
    {
        let locked = self.locked.lock(rt);
        locked::state_is_replay(&locked);
        locked.device.fate(name)
    }
}
