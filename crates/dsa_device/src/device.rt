//! A device: how it is made, and its steps.

ghost use Rattle.std.specs.Prelude.{◌≡◌, ◌≢◌, ◌≤◌, ◌-◌, IsTrue, false, None, Some, length, IfOk, IfErr, IfSome, IfNone, OnOk, OnErr};
ghost use Rattle.dsa_desc.specs.Descriptor.{read};
ghost use Rattle.dsa_regs.specs.Caps.{check_caps};
ghost use Rattle.dsa_book.specs.declared.event.Event.TheVariants as event;
ghost use Rattle.dsa_book.specs.declared.answer.DispatchAnswer.TheVariants.{Full};
ghost use Rattle.dsa_book.specs.declared.answer.Reply.TheVariants as reply;
ghost use Rattle.dsa_book.specs.Choice.{choice_of, from_queue};
ghost use Rattle.dsa_book.specs.Work.{qualifies};
ghost use Rattle.dsa_base.specs.Rows.{first_row};
ghost use Rattle.dsa_device.specs.Made.{is_store_of, opening_table, make_fault, fault_or_memory};
ghost use Rattle.dsa_device.specs.Running.{running_at_first, running_anew, after_answer, watched_in, awaited_end};

mod engine_reasons;
mod entries;
mod lookups;
mod reads;
mod reasons;
mod runs;

use crate::MakeFault;
use dsa_admin::Admin;
use dsa_book::{
    Book, ClearAnswer, DispatchAnswer, Event, FetchAnswer, FinishAnswer, IssueAnswer, Kind,
    PastFates, PollAnswer, Portal, Reply, StartAnswer, SubmitAnswer, Ticket, WriteAnswer,
};
use dsa_desc::{Descriptor, Outcome};
use dsa_engines::Engines;
use dsa_queues::Queues;
use dsa_regs::{Caps, Command, GroupConfig, QueueConfig, cell_count, check_caps, list_count};
use dsa_store::{Entry, EntryStore};
use std::alloc::{AllocError, Global};
use std::marker::Model;

/// The most steps that a history may have room for (profile).
const MAX_CAPACITY: u64 = 1_048_576;

/// A device over a store, used by one thread (profile).
///
/// It numbers its queues, groups and engines from 0. Each step may be called with any numbers. A
/// step whose reply is kept stands in the history, and takes one of the places that [`Device::new`]
/// took memory for; any other changes nothing. Once all places are taken every step is answered
/// `Full`, until the history begins anew. No step takes memory.
#[derive(Drop)]
pub struct Device<S: EntryStore> {
    caps: Caps,
    store: S,
    queues: Queues,
    engines: Engines,
    admin: Admin,
    book: Book,
}

impl<S: EntryStore> Model for Device<S> {
    ghost use Rattle.dsa_device.specs.Running.{Running, running_of, IsRunning};

    ghost Value = { Running };

    ghost view = { λ d. running_of d.caps d.queues.setup d.engines (S.content d.store)
        d.admin.active d.book };

    ghost invariant = { λ d. IsRunning (S.cells d.store) d.book.row_room d.queues d.engines d.admin
        (running_of d.caps d.queues.setup d.engines (S.content d.store) d.admin.active
        d.book) };
}

// Whether the store is empty, with the lists and cells of such a device.
fn is_store_of<S: EntryStore>(store: &S, caps: &Caps) -> bool
    requires { IsTrue (check_caps caps.now) }
    ensures { result ≡ is_store_of caps.now (S.cells store.now) (S.content store.now) }
{
    store.free() == store.cells()
        && store.lists() == list_count(caps)
        && store.cells() == cell_count(caps)
}

/// The first cause that keeps a device from being made, whatever its store: `BadCaps`, then
/// `BadCapacity` (profile).
pub fn check_opening(caps: &Caps, capacity: u64) -> Option<MakeFault>
    ensures { result ≡ first_row (opening_table caps.now capacity) }
{
    if !check_caps(caps) {
        return Some(MakeFault::BadCaps);
    }
    if capacity > MAX_CAPACITY {
        return Some(MakeFault::BadCapacity);
    }
    None
}

// The first cause that keeps a device from being made over this store.
fn make_fault<S: EntryStore>(store: &S, caps: &Caps, capacity: u64) -> Option<MakeFault>
    ensures { result ≡ make_fault caps.now capacity (S.cells store.now) (S.content store.now) }
{
    let fault = check_opening(caps, capacity);
    if fault.is_some() {
        return fault;
    }
    if !is_store_of(store, caps) {
        return Some(MakeFault::BadStore);
    }
    None
}

// Tells the administrator of the entry that an answer ends, which was read before it.
#[inline(always)]
fn tell_end(admin: &mut Admin, entry: Option<Entry>, answer: FinishAnswer)
    requires { awaited_end admin.old entry answer ≤ admin.old.awaited }
    ensures { admin.new
        ≡ record admin.old { awaited = admin.old.awaited - awaited_end admin.old entry answer } }
{
    if let (Some(entry), FinishAnswer::Done(_)) = (entry, answer) {
        admin.ended(&entry);
    }
}

impl<S: EntryStore> Device<S> {
    /// A device that is `Off`, with nothing configured and nothing held, over an empty store. Its
    /// history has room for `capacity` steps, at most 1,048,576; with 0 each step is answered
    /// `Full`.
    ///
    /// `BadStore` says that the store is not empty, or has other lists or cells than
    /// `dsa_regs::list_count` and `dsa_regs::cell_count` say. Whatever the error, the store comes
    /// back as it was.
    pub fn new(
        alloc: Global,
        store: S,
        caps: Caps,
        capacity: u64,
    ) -> Result<Device<S>, (MakeFault, S)>
        ensures opened { IfOk result (λ device. device ≡ running_at_first caps capacity) }
        ensures no_fault { IfOk result
            (λ device. make_fault caps capacity (S.cells store) (S.content store) ≡ None) }
        ensures fault { IfErr result
            (λ e. e.0 ≡ fault_or_memory caps capacity (S.cells store) (S.content store)) }
        ensures store { IfErr result (λ e. e.1 ≡ store) }
    {
        if let Some(fault) = make_fault(&store, &caps, capacity) {
            return Err((fault, store));
        }
        let Ok(book) = Book::new(alloc, capacity as usize) else {
            return Err((MakeFault::OutOfMemory, store));
        };
        Ok(Device {
            caps,
            store,
            queues: Queues::new(caps),
            engines: Engines::new(&caps),
            admin: Admin::new(),
            book,
        })
    }

    /// Begins the history anew at the present state: no step is stored then, and there is room for
    /// as many as the device took memory for, or as names are left. What is configured, held and
    /// active stays, and names go on. Takes memory for the fates to come beside those that are
    /// kept. Where that is refused, nothing changes.
    pub fn begin_anew(&mut self, past: PastFates) -> Result<(), AllocError>
        ensures ok { OnOk result (self.new ≡ running_anew self.old past) }
        ensures err { OnErr result (self.new ≡ self.old) }
    {
        let names = u32::MAX - self.queues.next_name();
        let held = self.store.cells() - self.store.free();
        self.book.begin_anew(past, names as usize, held as usize)
    }

    // A submission of a descriptor that is parsed.
    #[inline(always)]
    fn submit_parsed(
        &mut self,
        client: u16,
        queue: u16,
        portal: Portal,
        kind: Kind,
        desc: Descriptor,
    ) -> SubmitAnswer
        ensures { after_answer self.old (event.Submit client queue portal kind desc)
            (reply.Submit result)
            ≡ Some self.new }
    {
        if self.book.is_full() {
            return SubmitAnswer::Full;
        }
        let answer = self
            .queues
            .submit(&mut self.store, queue, portal, kind, desc);
        let event = Event::Submit {
            client,
            queue,
            portal,
            kind,
            desc,
        };
        self.book.record(event, Reply::Submit(answer));
        answer
    }

    /// A client writes the 64 bytes of a descriptor to a portal of a queue, by ENQCMD or MOVDIR64B.
    #[inline(always)]
    pub fn submit(
        &mut self,
        client: u16,
        queue: u16,
        portal: Portal,
        kind: Kind,
        bytes: &[u8; 64],
    ) -> SubmitAnswer
        ensures { after_answer self.old (event.Submit client queue portal kind (read bytes.now))
            (reply.Submit result)
            ≡ Some self.new }
    {
        self.submit_parsed(client, queue, portal, kind, Descriptor::parse(bytes))
    }

    /// An engine asks for an entry, and takes the front of a queue of its group.
    #[inline(always)]
    pub fn dispatch(&mut self, engine: u16) -> DispatchAnswer
        ensures { after_answer self.old (event.Dispatch engine) (reply.Dispatch result)
            ≡ Some self.new }
    {
        if self.book.is_full() {
            return DispatchAnswer::Full;
        }
        let answer = self.engines.dispatch(&self.queues, &mut self.store, engine);
        self.book
            .record(Event::Dispatch { engine }, Reply::Dispatch(answer));
        answer
    }

    /// An engine takes the front of this queue, as `dispatch` does of one that the device chooses:
    /// `None`, and nothing changed, where the queue does not qualify. A history without room is
    /// answered `Full` whether it does or not.
    #[inline(always)]
    pub fn dispatch_from(&mut self, engine: u16, queue: u16) -> Option<DispatchAnswer>
        ensures some { IfSome result
            (λ answer. after_answer self.old (event.Dispatch engine) (reply.Dispatch answer)
            ≡ Some self.new) }
        ensures queue { IfSome result
            (λ answer. answer ≢ Full → choice_of (reply.Dispatch answer) ≡ from_queue queue) }
        ensures none { IfNone result (self.new ≡ self.old) }
        ensures unqualified { IfNone result (qualifies self.old.state.work engine queue ≡ false) }
        ensures room { IfNone result (length self.old.history ≢ self.old.capacity) }
    {
        if self.book.is_full() {
            return Some(DispatchAnswer::Full);
        }
        let ticket = self
            .engines
            .dispatch_from(&self.queues, &mut self.store, engine, queue)?;
        let answer = DispatchAnswer::Taken { ticket, queue };
        self.book
            .record(Event::Dispatch { engine }, Reply::Dispatch(answer));
        Some(answer)
    }

    /// An engine hands in the next member of its batch.
    #[inline(always)]
    pub fn fetch(&mut self, engine: u16, desc: Descriptor) -> FetchAnswer
        ensures { after_answer self.old (event.Fetch engine desc) (reply.Fetch result)
            ≡ Some self.new }
    {
        if self.book.is_full() {
            return FetchAnswer::Full;
        }
        let answer = self
            .engines
            .fetch(&mut self.queues, &mut self.store, engine, desc);
        self.book
            .record(Event::Fetch { engine, desc }, Reply::Fetch(answer));
        answer
    }

    /// An engine starts the first of its members that does not run.
    #[inline(always)]
    pub fn start(&mut self, engine: u16) -> StartAnswer
        ensures { after_answer self.old (event.Start engine) (reply.Start result) ≡ Some self.new }
    {
        if self.book.is_full() {
            return StartAnswer::Full;
        }
        let answer = self
            .engines
            .start(&mut self.queues, &mut self.store, &mut self.book, engine);
        self.book
            .record(Event::Start { engine }, Reply::Start(answer));
        answer
    }

    // The entry in the ticket's cell, while a command is active that may count it.
    #[inline(always)]
    fn watched(&self, ticket: Ticket) -> Option<Entry>
        ensures { result ≡ watched_in self.now.state ticket }
    {
        self.admin.active()?;
        self.store.get(ticket.cell)
    }

    /// An engine ends the running entry of that ticket, and says how its work went.
    #[inline(always)]
    pub fn finish(&mut self, engine: u16, ticket: Ticket, outcome: Outcome) -> FinishAnswer
        ensures { after_answer self.old (event.Finish engine ticket outcome) (reply.Finish result)
            ≡ Some self.new }
    {
        if self.book.is_full() {
            return FinishAnswer::Full;
        }
        let entry = self.watched(ticket);
        let answer = self.engines.finish(
            &mut self.queues,
            &mut self.store,
            &mut self.book,
            engine,
            ticket,
            outcome,
        );
        tell_end(&mut self.admin, entry, answer);
        let event = Event::Finish {
            engine,
            ticket,
            outcome,
        };
        self.book.record(event, Reply::Finish(answer));
        answer
    }

    /// The administrator issues a command.
    #[inline(always)]
    pub fn issue(&mut self, command: Command) -> IssueAnswer
        ensures { after_answer self.old (event.Issue command) (reply.Issue result) ≡ Some self.new }
    {
        if self.book.is_full() {
            return IssueAnswer::Full;
        }
        let answer = self.admin.issue(
            &mut self.queues,
            &mut self.engines,
            &mut self.store,
            &mut self.book,
            command,
        );
        self.book
            .record(Event::Issue { command }, Reply::Issue(answer));
        answer
    }

    /// The administrator asks whether the active command is over.
    #[inline(always)]
    pub fn poll(&mut self) -> PollAnswer
        ensures { after_answer self.old event.Poll (reply.Poll result) ≡ Some self.new }
    {
        if self.book.is_full() {
            return PollAnswer::Full;
        }
        let answer = self.admin.poll(&mut self.queues);
        self.book.record(Event::Poll, Reply::Poll(answer));
        answer
    }

    /// The administrator writes the configuration of a queue.
    #[inline(always)]
    pub fn write_queue(&mut self, queue: u16, config: QueueConfig) -> WriteAnswer
        ensures { after_answer self.old (event.WriteQueue queue config) (reply.Write result)
            ≡ Some self.new }
    {
        if self.book.is_full() {
            return WriteAnswer::Full;
        }
        let answer = self.queues.write_queue(queue, config);
        let event = Event::WriteQueue { queue, config };
        self.book.record(event, Reply::Write(answer));
        answer
    }

    /// The administrator writes the configuration of a group.
    #[inline(always)]
    pub fn write_group(&mut self, group: u16, config: GroupConfig) -> WriteAnswer
        ensures { after_answer self.old (event.WriteGroup group config) (reply.Write result)
            ≡ Some self.new }
    {
        if self.book.is_full() {
            return WriteAnswer::Full;
        }
        let answer = self.queues.write_group(group, config);
        let event = Event::WriteGroup { group, config };
        self.book.record(event, Reply::Write(answer));
        answer
    }

    /// The administrator clears the noted error, and is told it.
    #[inline(always)]
    pub fn clear_error(&mut self) -> ClearAnswer
        ensures { after_answer self.old event.ClearError (reply.Clear result) ≡ Some self.new }
    {
        if self.book.is_full() {
            return ClearAnswer::Full;
        }
        let answer = self.queues.clear_error();
        self.book.record(Event::ClearError, Reply::Clear(answer));
        answer
    }
}
