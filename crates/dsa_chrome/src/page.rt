//! What is made of the steps so far: events, and the lanes of engines.

ghost use Rattle.std.specs.Prelude.{◌≡◌, ◌<◌, OnOk, length};
ghost use Rattle.dsa_chrome.specs.Pages.{after_arrival, after_arrival_of, after_fate, after_ends, after_event, after_name, client_named, naming, arrival, ended_in_lane, count_of_ends, rows_of_ends, ended_work, made_in, next_made, rows_of_record};

use crate::counters::After;
use crate::events::{add_command_part, add_instant};
use crate::lanes::{Lane, Work, lane_of, set_lane, take};
use crate::slices::{End, add_slice};
use dsa_book::{
    DispatchAnswer, Event, FateRow, FetchAnswer, FinishAnswer, IssueAnswer, Reply, StartAnswer,
    Step, SubmitAnswer, Ticket,
};
use dsa_device::Device;
use dsa_event_text::Added;
use dsa_scenario::Record;
use dsa_store::{Entry, EntryStore};

/// The events of the steps so far, the lanes of engines after them, and the clients of names.
#[derive(Drop)]
pub struct Page {
    pub text: String,
    pub lanes: Vec<Lane>,
    /// For each name that was given the client that submitted; of a member none.
    pub clients: Vec<Option<u16>>,
}

// The engine that took or fetched an entry, and its ticket.
fn arrival(step: &Step) -> Option<(u16, Ticket)>
    ensures { result ≡ arrival step.now.event step.now.reply }
{
    match (step.event, step.reply) {
        (Event::Dispatch { engine }, Reply::Dispatch(DispatchAnswer::Taken { ticket, .. }))
        | (Event::Fetch { engine, .. }, Reply::Fetch(FetchAnswer::Fetched(ticket))) => {
            Some((engine, ticket))
        }
        _ => None,
    }
}

// A step that gives a name: that of a submission, with its client, or that of a member.
fn naming(step: &Step) -> Option<Option<u16>>
    ensures { result ≡ naming step.now.event step.now.reply }
{
    match (step.event, step.reply) {
        (Event::Submit { client, .. }, Reply::Submit(SubmitAnswer::Accepted(_))) => {
            Some(Some(client))
        }
        (_, Reply::Fetch(FetchAnswer::Fetched(_))) => Some(None),
        _ => None,
    }
}

// How many entries ended with this step.
fn ended_count(reply: &Reply) -> u32
    ensures { result ≡ count_of_ends reply.now }
{
    match reply {
        Reply::Finish(FinishAnswer::Done(_)) => 1,
        Reply::Start(StartAnswer::Abandoned(count)) => *count,
        Reply::Issue(IssueAnswer::Ended { aborted }) => *aborted,
        _ => 0,
    }
}

// The rows of the entries that ended last, so many.
fn last_rows(fates: &[FateRow], count: u32) -> &[FateRow]
    ensures { result.now ≡ rows_of_ends fates.now count }
{
    let count = count as usize;
    let from = fates.len().saturating_sub(count);
    &fates[from..]
}

// The rows of the entries that ended with this step.
fn rows_of<'f>(fates: &'f [FateRow], entry: &Record) -> &'f [FateRow]
    ensures { result.now ≡ rows_of_record fates.now entry.now }
{
    match entry {
        Record::Stepped(step) => last_rows(fates, ended_count(&step.reply)),
        Record::Refused(_) => last_rows(fates, 0),
    }
}

impl Page {
    fn client_named(&self, name: u32) -> Option<u16>
        ensures { result ≡ client_named name (made_in self.now) }
    {
        self.clients.get(name as usize).copied()?
    }

    // The client of a name that was given with this step.
    fn name(&mut self, step: &Step) -> Added
        ensures { OnOk result
            (made_in self.new
            ≡ after_name (naming step.now.event step.now.reply) (made_in self.old)) }
    {
        match naming(step) {
            Some(client) => {
                self.clients.push(client)?;
                Ok(())
            }
            None => Ok(()),
        }
    }

    fn arrive(&mut self, number: usize, engine: u16, entry: Option<Entry>) -> Added
        ensures { OnOk result
            (made_in self.new ≡ after_arrival number engine entry (made_in self.old)) }
    {
        match entry {
            Some(entry) => {
                let work = Work {
                    begin: number,
                    client: self.client_named(entry.name),
                    entry,
                };
                take(&mut self.lanes, engine, work)
            }
            None => Ok(()),
        }
    }

    // What an engine took or fetched with this step comes into a lane.
    fn arrive_by<S: EntryStore>(&mut self, number: usize, device: &Device<S>, step: &Step) -> Added
        ensures { OnOk result
            (made_in self.new
            ≡ after_arrival_of number device.now (arrival step.now.event step.now.reply)
            (made_in self.old)) }
    {
        match arrival(step) {
            Some((engine, ticket)) => self.arrive(number, engine, device.entry_in(ticket.cell)),
            None => Ok(()),
        }
    }

    // The name that was given with this step, and what came to an engine.
    fn note<S: EntryStore>(&mut self, number: usize, device: &Device<S>, entry: &Record) -> Added
        ensures { OnOk result
            (made_in self.new ≡ after_event number device.now entry.now (made_in self.old)) }
    {
        match entry {
            Record::Stepped(step) => {
                self.name(step)?;
                self.arrive_by(number, device, step)
            }
            Record::Refused(_) => Ok(()),
        }
    }

    fn end_work(&mut self, place: usize, engine: u16, work: Option<Work>, end: End) -> Added
        requires { place < length self.now.lanes.items }
        ensures { OnOk result
            (made_in self.new ≡ ended_work place engine end work (made_in self.old)) }
    {
        match work {
            Some(work) => {
                let _count = self.lanes.len();
                add_slice(&mut self.text, place + 1, &work, Some(end))?;
                set_lane(&mut self.lanes, place, Lane::empty(engine));
                Ok(())
            }
            None => Ok(()),
        }
    }

    fn end_at(&mut self, place: usize, end: End) -> Added
        ensures { OnOk result (made_in self.new ≡ ended_in_lane place end (made_in self.old)) }
    {
        match self.lanes.get(place).copied() {
            Some(lane) => self.end_work(place, lane.engine, lane.work, end),
            None => Ok(()),
        }
    }

    fn end(&mut self, number: usize, row: &FateRow) -> Added
        ensures { OnOk result (made_in self.new ≡ after_fate number row.now (made_in self.old)) }
    {
        let end = End {
            step: number,
            fate: row.fate,
        };
        match lane_of(&self.lanes, row.name) {
            Some(place) => self.end_at(place, end),
            None => Ok(()),
        }
    }

    fn end_all(&mut self, number: usize, rows: &[FateRow]) -> Added
        ensures { OnOk result (made_in self.new ≡ after_ends number rows.now (made_in self.old)) }
    {
        for row in rows {
            self.end(number, row)?;
        }
        Ok(())
    }

    /// Adds a step, after which the device stands so.
    pub fn add_step<S: EntryStore>(
        &mut self,
        number: usize,
        entry: &Record,
        device: &Device<S>,
    ) -> Added
        ensures { OnOk result
            (made_in self.new ≡ next_made number entry.now device.now (made_in self.old)) }
    {
        add_instant(&mut self.text, number, entry)?;
        add_command_part(&mut self.text, number, entry)?;
        After { device, number }.add_counters(&mut self.text, entry)?;
        self.note(number, device, entry)?;
        self.end_all(number, rows_of(device.fates(), entry))
    }
}
