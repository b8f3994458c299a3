//! The counters of queues and groups.

ghost use Rattle.std.specs.Prelude.{◌≡◌, ◌++◌};
ghost use Rattle.dsa_event_text.specs.Added.{Adds};
ghost use Rattle.dsa_chrome.specs.declared.counters.Gauge.TheVariants as gauge;
ghost use Rattle.dsa_chrome.specs.Counters.{all_counters, gauge_count, counter_part, counter_text, counter_words, counters_of_record, counters_of_step, each_counter, engine_counter, filled};

use crate::events::add_place;
use dsa_book::{
    DispatchAnswer, Event, FinishAnswer, IssueAnswer, Reply, StartAnswer, Step, SubmitAnswer,
};
use dsa_device::Device;
use dsa_event_text::{Added, add_number};
use dsa_regs::Caps;
use dsa_scenario::Record;
use dsa_store::EntryStore;

/// A device as it stands after the step of this number.
#[derive(Drop)]
pub struct After<'a, S: EntryStore> {
    pub device: &'a Device<S>,
    pub number: usize,
}

/// What has a counter.
#[derive(Clone, Copy)]
pub enum Gauge {
    /// A queue: how many entries wait in it.
    Queue,
    /// A group: how many read buffers are in use.
    Group,
}

// What comes before the number, and before the value.
fn counter_words(gauge: Gauge) -> (&'static str, &'static str)
    ensures name { result.0.now ≡ (counter_words gauge).0 }
    ensures unit { result.1.now ≡ (counter_words gauge).1 }
{
    match gauge {
        Gauge::Queue => (",\n{\"name\":\"queue ", ",\"pid\":1,\"args\":{\"entries\":"),
        Gauge::Group => (
            ",\n{\"name\":\"group ",
            ",\"pid\":1,\"args\":{\"read buffers\":",
        ),
    }
}

fn add_value(text: &mut String, gauge: Gauge, number: usize, index: u16, value: u16) -> Added
    ensures { Adds result text.old text.new (counter_text gauge number index value) }
{
    let (name, unit) = counter_words(gauge);
    add_number(text, name, u32::from(index))?;
    add_place(text, "\",\"ph\":\"C\",\"ts\":", number)?;
    add_number(text, unit, u32::from(value))?;
    text.push_str("}}")
}

/// How many of them a device has.
fn gauge_count(caps: &Caps, gauge: Gauge) -> u16
    ensures { result ≡ gauge_count caps.now gauge }
{
    match gauge {
        Gauge::Queue => caps.queues,
        Gauge::Group => caps.groups,
    }
}

impl<S: EntryStore> After<'_, S> {
    fn filled(&self, gauge: Gauge, index: u16) -> Option<u16>
        ensures { result ≡ filled self.now.device.now gauge index }
    {
        match gauge {
            Gauge::Queue => self.device.occupancy(index),
            Gauge::Group => self.device.used(index),
        }
    }

    fn add_counter(&self, text: &mut String, gauge: Gauge, index: u16) -> Added
        ensures { Adds result text.old text.new
            (counter_part self.now.device.now gauge self.now.number index) }
    {
        match self.filled(gauge, index) {
            Some(value) => add_value(text, gauge, self.number, index, value),
            None => Ok(()),
        }
    }

    fn add_each(&self, text: &mut String, gauge: Gauge) -> Added
        ensures { Adds result text.old text.new
            (each_counter self.now.device.now gauge self.now.number) }
    {
        for index in 0..gauge_count(&self.device.caps(), gauge) {
            self.add_counter(text, gauge, index)?;
        }
        Ok(())
    }

    fn add_all(&self, text: &mut String) -> Added
        ensures { Adds result text.old text.new
            (all_counters self.now.device.now self.now.number) }
    {
        self.add_each(text, Gauge::Queue)?;
        self.add_each(text, Gauge::Group)
    }

    // The counter of the group that has this engine.
    fn add_group(&self, text: &mut String, engine: u16) -> Added
        ensures { Adds result text.old text.new
            (engine_counter self.now.device.now self.now.number engine) }
    {
        match self.device.group_of(engine) {
            Some(group) => self.add_counter(text, Gauge::Group, group),
            None => Ok(()),
        }
    }

    fn add_taken(&self, text: &mut String, queue: u16, engine: u16) -> Added
        ensures { Adds result text.old text.new
            (counter_part self.now.device.now gauge.Queue self.now.number queue
            ++ engine_counter self.now.device.now self.now.number engine) }
    {
        self.add_counter(text, Gauge::Queue, queue)?;
        self.add_group(text, engine)
    }

    fn add_of_step(&self, text: &mut String, step: &Step) -> Added
        ensures { Adds result text.old text.new
            (counters_of_step self.now.device.now self.now.number step.now.event
            step.now.reply) }
    {
        match (step.event, step.reply) {
            (Event::Submit { queue, .. }, Reply::Submit(SubmitAnswer::Accepted(_))) => {
                self.add_counter(text, Gauge::Queue, queue)
            }
            (Event::Dispatch { engine }, Reply::Dispatch(DispatchAnswer::Taken { queue, .. })) => {
                self.add_taken(text, queue, engine)
            }
            (Event::Start { engine }, Reply::Start(StartAnswer::Started(_)))
            | (Event::Finish { engine, .. }, Reply::Finish(FinishAnswer::Done(_))) => {
                self.add_group(text, engine)
            }
            (_, Reply::Issue(IssueAnswer::Ended { aborted })) if aborted > 0 => self.add_all(text),
            _ => Ok(()),
        }
    }

    /// Adds the counters that the step may have changed.
    pub fn add_counters(&self, text: &mut String, entry: &Record) -> Added
        ensures { Adds result text.old text.new
            (counters_of_record self.now.device.now self.now.number entry.now) }
    {
        match entry {
            Record::Stepped(step) => self.add_of_step(text, step),
            Record::Refused(_) => Ok(()),
        }
    }
}
