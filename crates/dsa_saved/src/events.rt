//! An event as nine words, and as bytes.

ghost use Rattle.std.specs.Prelude.{◌≡◌, Some};
ghost use Rattle.dsa_book.specs.declared.event.Event.TheVariants.{Submit, Fetch, Finish, Issue, WriteQueue, WriteGroup};
ghost use Rattle.dsa_saved.specs.Words.{words_of};
ghost use Rattle.dsa_saved.specs.Format.{flag_word, portal_word, outcome_word, kind_word, pasid_word};
ghost use Rattle.dsa_saved.specs.Format.{scope_word, mask_word, event_words, event_bytes};
ghost use Rattle.dsa_saved.specs.Said.{portal_of_word, outcome_of_word, descriptor_of_words};
ghost use Rattle.dsa_saved.specs.Said.{submission_of_words, fetch_of_words, finish_of_words};
ghost use Rattle.dsa_saved.specs.Said.{mask_of_words, command_of_words, issue_of_words};
ghost use Rattle.dsa_saved.specs.Said.{queue_of_words, group_of_words, event_of_words};

use crate::words::{both_words, bytes_of, high_word, low_byte, low_half, low_word};
use dsa_book::{Event, Kind, Portal, Ticket};
use dsa_desc::{Descriptor, Outcome};
use dsa_regs::{Command, GroupConfig, QueueConfig, QueueMask, Scope};
use dsa_store::Cell;

fn portal_word(portal: Portal) -> u32
    ensures { result ≡ portal_word portal }
{
    match portal {
        Portal::Limited => 0,
        Portal::Unlimited => 1,
    }
}

fn outcome_word(outcome: Outcome) -> u32
    ensures { result ≡ outcome_word outcome }
{
    match outcome {
        Outcome::Success => 0,
        Outcome::PageFault => 1,
    }
}

fn kind_words(kind: Kind) -> (u32, u32)
    ensures kind { result.0 ≡ kind_word kind }
    ensures pasid { result.1 ≡ pasid_word kind }
{
    match kind {
        Kind::Enqcmd { pasid } => (1, pasid),
        Kind::Movdir64b => (2, 0),
    }
}

fn scope_words(scope: Scope) -> (u32, u32)
    ensures scope { result.0 ≡ scope_word scope }
    ensures mask { result.1 ≡ mask_word scope }
{
    match scope {
        Scope::Device => (0, 0),
        Scope::Queue(queue) => (queue, 0),
        Scope::Queues(queues) => (u32::from(queues.group), u32::from(queues.mask)),
        Scope::Pasid(pasid) => (pasid, 0),
    }
}

fn queue_words(queue: u16, config: QueueConfig) -> [u32; 9]
    ensures { result ≡ event_words (WriteQueue queue config) }
{
    [
        9,
        u32::from(queue),
        u32::from(config.size),
        u32::from(config.threshold),
        u32::from(config.dedicated),
        u32::from(config.priority),
        config.pasid,
        u32::from(config.max_batch_shift),
        u32::from(config.max_xfer_shift),
    ]
}

fn group_words(group: u16, config: GroupConfig) -> [u32; 9]
    ensures { result ≡ event_words (WriteGroup group config) }
{
    [
        10,
        u32::from(group),
        low_word(config.queues),
        high_word(config.queues),
        low_word(config.engines),
        high_word(config.engines),
        u32::from(config.reserved),
        u32::from(config.allowed),
        0,
    ]
}

fn issue_words(command: Command) -> [u32; 9]
    ensures { result ≡ event_words (Issue command) }
{
    let (scope, mask) = scope_words(command.scope());
    [7, u32::from(command.number()), scope, mask, 0, 0, 0, 0, 0]
}

fn submission_words(
    client: u16,
    queue: u16,
    portal: Portal,
    kind: Kind,
    desc: Descriptor,
) -> [u32; 9]
    ensures { result ≡ event_words (Submit client queue portal kind desc) }
{
    let (kind, pasid) = kind_words(kind);
    [
        kind,
        u32::from(client),
        u32::from(queue),
        portal_word(portal),
        pasid,
        desc.pasid,
        desc.flags,
        u32::from(desc.op),
        desc.size,
    ]
}

fn fetch_words(engine: u16, desc: Descriptor) -> [u32; 9]
    ensures { result ≡ event_words (Fetch engine desc) }
{
    [
        4,
        u32::from(engine),
        desc.pasid,
        desc.flags,
        u32::from(desc.op),
        desc.size,
        0,
        0,
        0,
    ]
}

fn finish_words(engine: u16, ticket: Ticket, outcome: Outcome) -> [u32; 9]
    ensures { result ≡ event_words (Finish engine ticket outcome) }
{
    let outcome = outcome_word(outcome);
    [
        6,
        u32::from(engine),
        ticket.cell.0,
        ticket.name,
        outcome,
        0,
        0,
        0,
        0,
    ]
}

fn event_words(event: Event) -> [u32; 9]
    ensures { result ≡ event_words event }
{
    match event {
        Event::Submit {
            client,
            queue,
            portal,
            kind,
            desc,
        } => submission_words(client, queue, portal, kind, desc),
        Event::Dispatch { engine } => [3, u32::from(engine), 0, 0, 0, 0, 0, 0, 0],
        Event::Fetch { engine, desc } => fetch_words(engine, desc),
        Event::Start { engine } => [5, u32::from(engine), 0, 0, 0, 0, 0, 0, 0],
        Event::Finish {
            engine,
            ticket,
            outcome,
        } => finish_words(engine, ticket, outcome),
        Event::Issue { command } => issue_words(command),
        Event::Poll => [8, 0, 0, 0, 0, 0, 0, 0, 0],
        Event::WriteQueue { queue, config } => queue_words(queue, config),
        Event::WriteGroup { group, config } => group_words(group, config),
        Event::ClearError => [11, 0, 0, 0, 0, 0, 0, 0, 0],
    }
}

// ---- the event that words say

fn portal_of_word(word: u32) -> Portal
    ensures { result ≡ portal_of_word word }
{
    match word {
        1 => Portal::Unlimited,
        _ => Portal::Limited,
    }
}

fn outcome_of_word(word: u32) -> Outcome
    ensures { result ≡ outcome_of_word word }
{
    match word {
        1 => Outcome::PageFault,
        _ => Outcome::Success,
    }
}

fn descriptor_of_words(pasid: u32, flags: u32, op: u32, size: u32) -> Descriptor
    ensures { result ≡ descriptor_of_words pasid flags op size }
{
    Descriptor {
        pasid,
        flags,
        op: low_byte(op),
        size,
    }
}

fn submission_of_words(kind: Kind, words: &[u32; 9]) -> Event
    ensures { result ≡ submission_of_words kind words.now }
{
    Event::Submit {
        client: low_half(words[1]),
        queue: low_half(words[2]),
        portal: portal_of_word(words[3]),
        kind,
        desc: descriptor_of_words(words[5], words[6], words[7], words[8]),
    }
}

fn fetch_of_words(words: &[u32; 9]) -> Event
    ensures { result ≡ fetch_of_words words.now }
{
    Event::Fetch {
        engine: low_half(words[1]),
        desc: descriptor_of_words(words[2], words[3], words[4], words[5]),
    }
}

fn finish_of_words(words: &[u32; 9]) -> Event
    ensures { result ≡ finish_of_words words.now }
{
    Event::Finish {
        engine: low_half(words[1]),
        ticket: Ticket {
            cell: Cell(words[2]),
            name: words[3],
        },
        outcome: outcome_of_word(words[4]),
    }
}

fn mask_of_words(group: u32, mask: u32) -> QueueMask
    ensures { result ≡ mask_of_words group mask }
{
    QueueMask {
        group: low_byte(group),
        mask: low_half(mask),
    }
}

fn command_of_words(number: u32, first: u32, mask: u32) -> Option<Command>
    ensures { result ≡ command_of_words number first mask }
{
    let queues = mask_of_words(first, mask);
    Some(match number {
        1 => Command::EnableDevice,
        2 => Command::DisableDevice,
        3 => Command::DrainAll,
        4 => Command::AbortAll,
        5 => Command::ResetDevice,
        6 => Command::EnableWq(first),
        7 => Command::DisableWq(queues),
        8 => Command::DrainWq(queues),
        9 => Command::AbortWq(queues),
        10 => Command::ResetWq(queues),
        11 => Command::DrainPasid(first),
        12 => Command::AbortPasid(first),
        _ => return None,
    })
}

fn issue_of_words(words: &[u32; 9]) -> Option<Event>
    ensures { result ≡ issue_of_words words.now }
{
    let command = command_of_words(words[1], words[2], words[3])?;
    Some(Event::Issue { command })
}

fn queue_of_words(words: &[u32; 9]) -> Event
    ensures { result ≡ queue_of_words words.now }
{
    Event::WriteQueue {
        queue: low_half(words[1]),
        config: QueueConfig {
            size: low_half(words[2]),
            threshold: low_half(words[3]),
            dedicated: words[4] == 1,
            priority: low_byte(words[5]),
            pasid: words[6],
            max_batch_shift: low_byte(words[7]),
            max_xfer_shift: low_byte(words[8]),
        },
    }
}

fn group_of_words(words: &[u32; 9]) -> Event
    ensures { result ≡ group_of_words words.now }
{
    Event::WriteGroup {
        group: low_half(words[1]),
        config: GroupConfig {
            queues: both_words(words[2], words[3]),
            engines: both_words(words[4], words[5]),
            reserved: low_half(words[6]),
            allowed: low_half(words[7]),
        },
    }
}

/// The event that the words say, by their kind.
pub(crate) fn event_of_words(words: &[u32; 9]) -> Option<Event>
    ensures { result ≡ event_of_words words.now }
{
    let engine = low_half(words[1]);
    Some(match words[0] {
        1 => submission_of_words(Kind::Enqcmd { pasid: words[4] }, words),
        2 => submission_of_words(Kind::Movdir64b, words),
        3 => Event::Dispatch { engine },
        4 => fetch_of_words(words),
        5 => Event::Start { engine },
        6 => finish_of_words(words),
        7 => return issue_of_words(words),
        8 => Event::Poll,
        9 => queue_of_words(words),
        10 => group_of_words(words),
        11 => Event::ClearError,
        _ => return None,
    })
}

// ---- what is written says the event

// The words of a submission say it.
fn submissions_are_read(client: u16, queue: u16, portal: Portal, kind: Kind, desc: Descriptor)
    ensures { event_of_words (event_words (Submit client queue portal kind desc))
        ≡ Some (Submit client queue portal kind desc) }
{
    match portal {
        Portal::Limited => {}
        Portal::Unlimited => {}
    }
    match kind {
        Kind::Enqcmd { .. } => {}
        Kind::Movdir64b => {}
    }
}

// The words of a command say it.
fn commands_are_read(command: Command)
    ensures { event_of_words (event_words (Issue command)) ≡ Some (Issue command) }
{
    match command {
        Command::EnableDevice => {}
        Command::DisableDevice => {}
        Command::DrainAll => {}
        Command::AbortAll => {}
        Command::ResetDevice => {}
        Command::EnableWq(_) => {}
        Command::DisableWq(_) => {}
        Command::DrainWq(_) => {}
        Command::AbortWq(_) => {}
        Command::ResetWq(_) => {}
        Command::DrainPasid(_) => {}
        Command::AbortPasid(_) => {}
    }
}

// The words of a queue's configuration say it.
fn queues_are_read(queue: u16, config: QueueConfig)
    ensures { event_of_words (event_words (WriteQueue queue config))
        ≡ Some (WriteQueue queue config) }
{
    match config.dedicated {
        true => {}
        false => {}
    }
}

// The words of an event say it.
fn events_are_read(event: Event)
    ensures { event_of_words (event_words event) ≡ Some event }
{
    match event {
        Event::Submit {
            client,
            queue,
            portal,
            kind,
            desc,
        } => submissions_are_read(client, queue, portal, kind, desc),
        Event::Dispatch { .. } => {}
        Event::Fetch { .. } => {}
        Event::Start { .. } => {}
        Event::Finish { .. } => {}
        Event::Issue { command } => commands_are_read(command),
        Event::Poll => {}
        Event::WriteQueue { queue, config } => queues_are_read(queue, config),
        Event::WriteGroup { .. } => {}
        Event::ClearError => {}
    }
}

/// The bytes of the event, which say it.
pub(crate) fn event_bytes(event: Event) -> [u8; 36]
    ensures bytes { result ≡ event_bytes event }
    ensures read { event_of_words (words_of 9 result) ≡ Some event }
{
    events_are_read(event);
    let words = event_words(event);
    bytes_of(&words)
}
