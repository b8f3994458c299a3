//! What is read of a device after a step.

ghost use Rattle.std.specs.Prelude.{◌≡◌, ◌<◌, IfOk, map, option_map, string_bytes};
ghost use Rattle.dsa_device.specs.Running.{Running};
ghost use Rattle.dsa_scenario.specs.{Run.{answered_by}, Steps.{visit}};
ghost use Rattle.dsa_explain_lines.specs.Parts.{part_of};
ghost use Rattle.std.specs.List.{range_with_len};
ghost use Rattle.dsa_named.specs.{Names.{own_of}, Notes.{names_note}, Steps.{named_visit}};
ghost use Rattle.dsa_named_lines.specs.Lines.{named_in};
ghost use Rattle.dsa_draw.specs.Moments.{level_with, queue_mark, queue_level_of, group_level_of, level_of, band_count, batch_after, ticket_brought, desc_in, desc_brought, own_name_of, own_of_ticket, own_brought, IsMomentOf};

use crate::bars::lane_number;
use dsa_book::{Actor, BatchNote, DispatchAnswer, FetchAnswer, Reply, Ticket};
use dsa_desc::Descriptor;
use dsa_device::Device;
use dsa_named::{OwnName, add_note};
use dsa_named_lines::names_in;
use dsa_regs::{Caps, Phase, QueueConfig};
use dsa_scenario::{MadeText, Record, StepMade};
use dsa_store::{Entry, EntryStore};
use std::alloc::{AllocError, Global};

/// How full something is: of a queue its occupancy, its threshold where it has one and its size, of
/// a group the read buffers that are used, reserved and allowed.
#[derive(Clone, Copy)]
pub struct Level {
    pub filled: u16,
    pub mark: u16,
    pub limit: u16,
    /// The phase of a queue. A group has none.
    pub phase: Option<Phase>,
}

/// What has levels, by number.
#[derive(Clone, Copy)]
pub enum BandKind {
    Queue,
    Group,
}

/// What a step was, and what the device says of itself after it.
#[derive(Drop)]
pub struct Moment {
    /// The number of the step, from 0.
    pub number: u32,
    pub entry: Record,
    /// Why it was answered so, as an explanation says it.
    pub reason: String,
    /// The own names of the entries that its line mentions, as an explanation says them.
    pub note: String,
    /// The phase of the device.
    pub phase: Phase,
    /// Of each queue, by number.
    pub queues: Vec<Level>,
    /// Of each group, by number.
    pub groups: Vec<Level>,
    /// The batch that the engine works on whose step this was.
    pub batch: Option<u32>,
    /// The descriptor of the entry that the step brought to an engine.
    pub desc: Option<Descriptor>,
    /// The own name of that entry.
    pub own: Option<String>,
    /// How many entries have ended.
    pub ended: usize,
}

fn level_with(filled: Option<u16>, mark: u16, limit: u16) -> Level
    ensures { result ≡ level_with filled mark limit }
{
    Level {
        filled: filled.unwrap_or(0),
        mark,
        limit,
        phase: None,
    }
}

// A dedicated queue ignores its threshold.
fn queue_mark(config: &QueueConfig) -> u16
    ensures { result ≡ queue_mark config.now }
{
    if config.dedicated {
        0
    } else {
        config.threshold
    }
}

/// The level of a queue of the device.
pub fn queue_level<S: EntryStore>(device: &Device<S>, queue: u16) -> Level
    requires { queue < device.now.caps.queues }
    ensures { result ≡ queue_level_of device.now queue }
{
    let level = match device.queue_config(queue) {
        Some(config) => level_with(device.occupancy(queue), queue_mark(&config), config.size),
        None => level_with(None, 0, 0),
    };
    Level {
        phase: device.queue_phase(queue),
        ..level
    }
}

/// The level of a group of the device.
pub fn group_level<S: EntryStore>(device: &Device<S>, group: u16) -> Level
    requires { group < device.now.caps.groups }
    ensures { result ≡ group_level_of device.now group }
{
    match device.group_config(group) {
        Some(config) => level_with(device.used(group), config.reserved, config.allowed),
        None => level_with(None, 0, 0),
    }
}

fn level_of<S: EntryStore>(device: &Device<S>, kind: BandKind, number: u16) -> Level
    requires { number < band_count device.now.caps kind }
    ensures { result ≡ level_of device.now kind number }
{
    match kind {
        BandKind::Queue => queue_level(device, number),
        BandKind::Group => group_level(device, number),
    }
}

/// How many of them the device has.
pub fn band_count(caps: &Caps, kind: BandKind) -> u16
    ensures { result ≡ band_count caps.now kind }
{
    match kind {
        BandKind::Queue => caps.queues,
        BandKind::Group => caps.groups,
    }
}

fn levels<S: EntryStore>(
    alloc: Global,
    device: &Device<S>,
    kind: BandKind,
) -> Result<Vec<Level>, AllocError>
    ensures { IfOk result
        (λ levels. levels.items
        ≡ map (level_of device.now kind) (range_with_len 0 (band_count device.now.caps kind))) }
{
    let mut levels = Vec::new(alloc);
    for number in 0..band_count(&device.caps(), kind) {
        levels.push(level_of(device, kind, number))?;
    }
    Ok(levels)
}

fn name_of(note: Option<BatchNote>) -> Option<u32>
    ensures { result ≡ option_map (λ note. note.batch) note }
{
    Some(note?.batch)
}

// The batch of the engine whose step it was.
fn batch_after<S: EntryStore>(device: &Device<S>, entry: &Record) -> Option<u32>
    ensures { result ≡ batch_after device.now entry.now }
{
    match entry {
        Record::Stepped(step) => match step.event.actor() {
            Actor::Engine(engine) => name_of(device.batch(engine)),
            _ => None,
        },
        Record::Refused(_) => None,
    }
}

// The ticket of the entry that came to an engine.
fn ticket_brought(reply: Reply) -> Option<Ticket>
    ensures { result ≡ ticket_brought reply }
{
    match reply {
        Reply::Dispatch(DispatchAnswer::Taken { ticket, .. }) => Some(ticket),
        Reply::Fetch(FetchAnswer::Fetched(ticket)) => Some(ticket),
        _ => None,
    }
}

fn desc_of(entry: Option<Entry>) -> Option<Descriptor>
    ensures { result ≡ option_map (λ entry. entry.desc) entry }
{
    Some(entry?.desc)
}

fn desc_in<S: EntryStore>(device: &Device<S>, ticket: Option<Ticket>) -> Option<Descriptor>
    ensures { result ≡ desc_in device.now ticket }
{
    desc_of(device.entry_in(ticket?.cell))
}

// What it is, with the PASID that the device gave it.
fn desc_brought<S: EntryStore>(device: &Device<S>, entry: &Record) -> Option<Descriptor>
    ensures { result ≡ desc_brought device.now entry.now }
{
    match entry {
        Record::Stepped(step) => desc_in(device, ticket_brought(step.reply)),
        Record::Refused(_) => None,
    }
}

// The own name of the entry of this name.
fn own_name_of<'a>(names: &[OwnName<'a>], name: u32) -> Option<&'a str>
    ensures { option_map (λ text. text.now) result ≡ own_name_of name (map own_of names.now) }
{
    for own in names {
        if own.name == name {
            return Some(own.text);
        }
    }
    None
}

fn own_of_ticket<'a>(names: &[OwnName<'a>], ticket: Option<Ticket>) -> Option<&'a str>
    ensures { option_map (λ text. text.now) result
        ≡ own_of_ticket (map own_of names.now) ticket }
{
    own_name_of(names, ticket?.name)
}

fn own_brought<'a>(names: &[OwnName<'a>], entry: &Record) -> Option<&'a str>
    ensures { option_map (λ text. text.now) result ≡ own_brought (map own_of names.now) entry.now }
{
    match entry {
        Record::Stepped(step) => own_of_ticket(names, ticket_brought(step.reply)),
        Record::Refused(_) => None,
    }
}

fn owned(alloc: Global, text: Option<&str>) -> Result<Option<String>, AllocError>
    ensures { IfOk result (λ owned. option_map string_bytes owned
        ≡ option_map (λ text. text.now) text.entry) }
{
    match text {
        Some(text) => Ok(Some(String::from_str(alloc, text)?)),
        None => Ok(None),
    }
}

// The own names of the entries that the line of a step mentions, as they are at its end.
fn note_of<S: EntryStore>(step: &StepMade<'_, S>, names: &[OwnName<'_>]) -> MadeText
    ensures { IfOk result (λ note. string_bytes note
        ≡ names_note (named_in (map own_of names.now) step.now.entry.now
        step.now.device.now.state)) }
{
    let mentioned = names_in(step.alloc, names, step.entry, step.device)?;
    let mut note = String::new(step.alloc);
    add_note(&mut note, &mentioned)?;
    Ok(note)
}

/// What there is to draw of a step, up to which these own names were given: what was told of the
/// device before it, and what is read of the device after it.
pub fn take_moment<S: EntryStore>(
    step: &StepMade<'_, S>,
    names: &[OwnName<'_>],
) -> Result<Moment, AllocError>
    ensures { IfOk result (λ moment. (before : Running)
        → step.now.told.now ≡ part_of before (answered_by step.now.entry.now)
        → IsMomentOf (named_visit (map own_of names.now)
        (visit step.now.number before step.now.entry.now step.now.device.now)) moment) }
{
    let alloc = step.alloc;
    let device = step.device;
    let entry = *step.entry;
    Ok(Moment {
        number: lane_number(step.number),
        entry,
        reason: String::from_str(alloc, step.told)?,
        note: note_of(step, names)?,
        phase: device.phase(),
        queues: levels(alloc, device, BandKind::Queue)?,
        groups: levels(alloc, device, BandKind::Group)?,
        batch: batch_after(device, &entry),
        desc: desc_brought(device, &entry),
        own: owned(alloc, own_brought(names, &entry))?,
        ended: device.fates().len(),
    })
}
