//! How long engines had entries, by steps.

ghost use Rattle.std.specs.Prelude.{◌≡◌, [], ◌∷◌, ◌++◌, cond, nat_lt, set, length, IfOk, OnOk};
ghost use Rattle.dsa_draw.specs.Rows.{rows_between};
ghost use Rattle.dsa_draw.specs.Bars.{noted_in, with_name, with_bar, with_change, changed_at, place_of, submitter_in, started_at, ended_at, with_ends, is_batch_named, begun_bar, taken_bar, fetched_bar, engine_of_actor, client_of_actor, arrival_of, noted_submit, noted_dispatch, noted_fetch, noted_start, noted_reply, noted_entry, noted_moment, bars_of, end_step, is_kind, is_bar_of, free_place, lane_number, in_lane, lanes_after, in_lanes, all_lanes, lane_count};

use crate::moment::Moment;
use dsa_book::{
    Actor, DispatchAnswer, Fate, FateRow, FetchAnswer, Reply, StartAnswer, SubmitAnswer,
};
use dsa_desc::Descriptor;
use dsa_scenario::Record;
use std::alloc::{AllocError, Global};

/// The end of an entry, and the step that brought it.
#[derive(Clone, Copy)]
pub struct End {
    pub step: u32,
    pub fate: Fate,
}

/// An entry that an engine took or fetched.
#[derive(Clone, Copy)]
pub struct Bar {
    pub name: u32,
    pub engine: u16,
    pub desc: Option<Descriptor>,
    /// Who submitted it.
    pub client: Option<u16>,
    /// The batch whose member it is.
    pub parent: Option<u32>,
    /// Whether it is the batch that its engine works on.
    pub is_batch: bool,
    /// The step that brought it to the engine.
    pub begin: u32,
    /// The step since which it runs.
    pub started: Option<u32>,
    pub end: Option<End>,
    /// Its lane among the engine's, or among those of the engine's members.
    pub lane: u32,
}

/// What brings an entry of this descriptor to an engine: this step, while the engine works on this
/// batch.
#[derive(Clone, Copy)]
struct Arrival {
    engine: u16,
    step: u32,
    batch: Option<u32>,
    desc: Option<Descriptor>,
}

/// The bars in the order in which they begin, and for each name the place of its bar and who
/// submitted it.
#[derive(Drop)]
struct Table {
    bars: Vec<Bar>,
    places: Vec<Option<usize>>,
    clients: Vec<Option<u16>>,
}

impl Table {
    fn place_of(&self, name: u32) -> Option<usize>
        ensures { result ≡ place_of name self.now.places.items }
    {
        self.places.get(name as usize).copied()?
    }

    fn client_of(&self, name: u32) -> Option<u16>
        ensures { result ≡ submitter_in name self.now.clients.items }
    {
        self.clients.get(name as usize).copied()?
    }

    // An entry that waits in its queue has a name, and no bar yet.
    fn name(&mut self, client: Option<u16>) -> Result<(), AllocError>
        ensures { OnOk result (noted_in self.new ≡ with_name client (noted_in self.old)) }
    {
        self.places.push(None)?;
        self.clients.push(client)?;
        Ok(())
    }

    fn take(&mut self, bar: Bar) -> Result<(), AllocError>
        ensures { OnOk result (noted_in self.new ≡ with_bar bar (noted_in self.old)) }
    {
        let place = self.bars.len();
        let name = bar.name as usize;
        if name < self.places.len() {
            self.places[name] = Some(place);
        }
        self.bars.push(bar)?;
        Ok(())
    }

    fn start_at(&mut self, place: usize, step: u32)
        ensures bars { self.new.bars.items
            ≡ changed_at (started_at step) place self.old.bars.items }
        ensures places { self.new.places ≡ self.old.places }
        ensures clients { self.new.clients ≡ self.old.clients }
    {
        if place < self.bars.len() {
            self.bars[place].started = Some(step);
        }
    }

    fn start(&mut self, name: u32, step: u32)
        ensures { noted_in self.new ≡ with_change (started_at step) name (noted_in self.old) }
    {
        match self.place_of(name) {
            Some(place) => self.start_at(place, step),
            None => {}
        }
    }

    fn end_at(&mut self, place: usize, row: &FateRow, step: u32)
        ensures bars { self.new.bars.items
            ≡ changed_at (ended_at step row.now) place self.old.bars.items }
        ensures places { self.new.places ≡ self.old.places }
        ensures clients { self.new.clients ≡ self.old.clients }
    {
        if place < self.bars.len() {
            self.bars[place].end = Some(End {
                step,
                fate: row.fate,
            });
        }
    }

    fn end(&mut self, row: &FateRow, step: u32)
        ensures { noted_in self.new
            ≡ with_change (ended_at step row.now) row.now.name (noted_in self.old) }
    {
        match self.place_of(row.name) {
            Some(place) => self.end_at(place, row, step),
            None => {}
        }
    }

    fn end_all(&mut self, rows: &[FateRow], step: u32)
        ensures { noted_in self.new ≡ with_ends step rows.now (noted_in self.old) }
    {
        for row in rows {
            self.end(row, step);
        }
    }

    fn note_submit(&mut self, answer: SubmitAnswer, actor: Actor) -> Result<(), AllocError>
        ensures { OnOk result (noted_in self.new ≡ noted_submit actor answer (noted_in self.old)) }
    {
        match answer {
            SubmitAnswer::Accepted(_) => self.name(client_of_actor(actor)),
            _ => Ok(()),
        }
    }

    fn note_dispatch(&mut self, answer: DispatchAnswer, arrival: Arrival) -> Result<(), AllocError>
        ensures { OnOk result (noted_in self.new
            ≡ noted_dispatch arrival answer (noted_in self.old)) }
    {
        match answer {
            DispatchAnswer::Taken { ticket, .. } => {
                let client = self.client_of(ticket.name);
                self.take(taken_bar(ticket.name, client, arrival))
            }
            _ => Ok(()),
        }
    }

    fn note_fetch(&mut self, answer: FetchAnswer, arrival: Arrival) -> Result<(), AllocError>
        ensures { OnOk result (noted_in self.new
            ≡ noted_fetch arrival answer (noted_in self.old)) }
    {
        match answer {
            FetchAnswer::Fetched(ticket) => {
                self.name(None)?;
                self.take(fetched_bar(ticket.name, arrival))
            }
            _ => Ok(()),
        }
    }

    fn note_start(&mut self, answer: StartAnswer, step: u32)
        ensures { noted_in self.new ≡ noted_start step answer (noted_in self.old) }
    {
        match answer {
            StartAnswer::Started(ticket) => self.start(ticket.name, step),
            _ => {}
        }
    }

    // What the step of this actor brought to its engine.
    fn note_reply(&mut self, actor: Actor, arrival: Arrival, reply: Reply) -> Result<(), AllocError>
        ensures { OnOk result
            (noted_in self.new ≡ noted_reply actor arrival reply (noted_in self.old)) }
    {
        match reply {
            Reply::Submit(answer) => self.note_submit(answer, actor),
            Reply::Dispatch(answer) => self.note_dispatch(answer, arrival),
            Reply::Fetch(answer) => self.note_fetch(answer, arrival),
            Reply::Start(answer) => {
                self.note_start(answer, arrival.step);
                Ok(())
            }
            _ => Ok(()),
        }
    }

    fn note_entry(&mut self, moment: &Moment, step: u32) -> Result<(), AllocError>
        ensures { OnOk result
            (noted_in self.new ≡ noted_entry step moment.now (noted_in self.old)) }
    {
        match &moment.entry {
            Record::Stepped(made) => {
                let actor = made.event.actor();
                self.note_reply(actor, arrival_of(actor, moment, step), made.reply)
            }
            Record::Refused(_) => Ok(()),
        }
    }

    // What a moment brought, and then what ended in it; before it so many entries had ended.
    fn note_moment(
        &mut self,
        fates: &[FateRow],
        moment: &Moment,
        step: u32,
        ended: usize,
    ) -> Result<(), AllocError>
        ensures { OnOk result (noted_in self.new
            ≡ noted_moment fates.now step ended moment.now (noted_in self.old)) }
    {
        self.note_entry(moment, step)?;
        self.end_all(rows_between(fates, ended, moment.ended), step);
        Ok(())
    }
}

// The engine whose step it was; 0 where it was of none.
fn engine_of_actor(actor: Actor) -> u16
    ensures { result ≡ engine_of_actor actor }
{
    match actor {
        Actor::Engine(engine) => engine,
        _ => 0,
    }
}

fn client_of_actor(actor: Actor) -> Option<u16>
    ensures { result ≡ client_of_actor actor }
{
    match actor {
        Actor::Client(client) => Some(client),
        _ => None,
    }
}

fn arrival_of(actor: Actor, moment: &Moment, step: u32) -> Arrival
    ensures { result ≡ arrival_of step actor moment.now }
{
    Arrival {
        engine: engine_of_actor(actor),
        step,
        batch: moment.batch,
        desc: moment.desc,
    }
}

fn is_batch_named(batch: Option<u32>, name: u32) -> bool
    ensures { result ≡ is_batch_named name batch }
{
    match batch {
        Some(batch) => batch == name,
        None => false,
    }
}

// What comes to an engine, before more is known of it.
fn begun_bar(name: u32, arrival: Arrival) -> Bar
    ensures { result ≡ begun_bar name arrival }
{
    Bar {
        name,
        engine: arrival.engine,
        desc: arrival.desc,
        client: None,
        parent: None,
        is_batch: false,
        begin: arrival.step,
        started: None,
        end: None,
        lane: 0,
    }
}

fn taken_bar(name: u32, client: Option<u16>, arrival: Arrival) -> Bar
    ensures { result ≡ taken_bar name client arrival }
{
    Bar {
        client,
        is_batch: is_batch_named(arrival.batch, name),
        started: Some(arrival.step),
        ..begun_bar(name, arrival)
    }
}

fn fetched_bar(name: u32, arrival: Arrival) -> Bar
    ensures { result ≡ fetched_bar name arrival }
{
    Bar {
        parent: arrival.batch,
        ..begun_bar(name, arrival)
    }
}

/// The rows from one number on to before another.
pub fn rows_between(fates: &[FateRow], from: usize, to: usize) -> &[FateRow]
    ensures { result.now ≡ rows_between fates.now from to }
{
    let to = to.min(fates.len());
    let from = from.min(to);
    &fates[from..to]
}

/// The bars of a run, in the order in which they begin.
pub fn bars_of(alloc: Global, moments: &[Moment], fates: &[FateRow]) -> Result<Vec<Bar>, AllocError>
    ensures { IfOk result (λ bars. bars.items ≡ bars_of moments.now fates.now) }
{
    let mut table = Table {
        bars: Vec::new(alloc),
        places: Vec::new(alloc),
        clients: Vec::new(alloc),
    };
    let mut step = 0u32;
    let mut ended = 0;
    for moment in moments {
        table.note_moment(fates, moment, step, ended)?;
        ended = moment.ended;
        step = step.saturating_add(1);
    }
    Ok(table.bars)
}

impl Bar {
    /// The step whose column the bar does not reach, `last` where it has no end.
    pub fn end_step(&self, last: u32) -> u32
        ensures { result ≡ end_step last self.now }
    {
        match self.end {
            Some(end) => end.step,
            None => last,
        }
    }

    fn is_kind(&self, members: bool) -> bool
        ensures { result ≡ is_kind members self.now.parent }
    {
        match self.parent {
            Some(_) => members,
            None => !members,
        }
    }

    fn is_in(&self, engine: u16, members: bool) -> bool
        ensures { result ≡ is_bar_of engine members self.now }
    {
        self.engine == engine && self.is_kind(members)
    }
}

// The place of the first lane that is free from `begin` on, or the one after all of them.
fn free_place(lanes: &[u32], begin: u32) -> usize
    ensures { result ≡ free_place begin lanes.now }
{
    for (place, free_from) in lanes.iter().enumerate() {
        if *free_from <= begin {
            return place;
        }
    }
    lanes.len()
}

// That lane is taken until `end`.
fn take_place(lanes: &mut Vec<u32>, place: usize, end: u32) -> Result<(), AllocError>
    ensures { OnOk result (lanes.new.items ≡ cond (nat_lt place (length lanes.old.items))
        (set lanes.old.items place end) (lanes.old.items ++ end ∷ [])) }
{
    if place < lanes.len() {
        lanes[place] = end;
    } else {
        lanes.push(end)?;
    }
    Ok(())
}

/// The number of what has this place.
pub fn lane_number(place: usize) -> u32
    ensures { result ≡ lane_number place }
{
    u32::try_from(place).unwrap_or(u32::MAX)
}

// The bar in its lane, if it is of this engine, and of its members or not.
fn lay(
    lanes: &mut Vec<u32>,
    bar: &Bar,
    engine: u16,
    members: bool,
    last: u32,
) -> Result<Bar, AllocError>
    ensures bar { IfOk result
        (λ laid. laid ≡ in_lane engine members lanes.old.items bar.now) }
    ensures lanes { OnOk result
        (lanes.new.items ≡ lanes_after engine members last lanes.old.items bar.now) }
{
    if !bar.is_in(engine, members) {
        return Ok(*bar);
    }
    let place = free_place(lanes, bar.begin);
    take_place(lanes, place, bar.end_step(last))?;
    Ok(Bar {
        lane: lane_number(place),
        ..*bar
    })
}

/// Bars with lanes, and how many lanes they take.
#[derive(Drop)]
pub struct Laid {
    pub bars: Vec<Bar>,
    pub lanes: u32,
}

/// Gives each bar of the engine a lane in which it is alone, the members apart from the others.
pub fn lay_bars(
    alloc: Global,
    bars: &[Bar],
    engine: u16,
    members: bool,
    last: u32,
) -> Result<Laid, AllocError>
    ensures bars { IfOk result
        (λ laid. laid.bars.items ≡ in_lanes engine members last [] bars.now) }
    ensures lanes { IfOk result
        (λ laid. laid.lanes ≡ lane_count (all_lanes engine members last [] bars.now)) }
{
    let mut lanes = Vec::new(alloc);
    let mut laid = Vec::new(alloc);
    for bar in bars {
        let next = lay(&mut lanes, bar, engine, members, last)?;
        laid.push(next)?;
    }
    Ok(Laid {
        bars: laid,
        lanes: lane_number(lanes.len()),
    })
}
