//! The events of the history as numbers.

ghost use Rattle.std.specs.Prelude.{◌≡◌, Some, option_and_then};
ghost use Rattle.dsa_c.specs.Calls.{IsCall, IsReadAs, asked_for};
ghost use Rattle.dsa_c.specs.Reads.{IsReadForC, queue_for_c, group_for_c};
ghost use Rattle.dsa_c.specs.Events.{portal_number, outcome_number, of_kind, of_engine};
ghost use Rattle.dsa_c.specs.Events.{with_descriptor, of_instruction, of_finish, event_for_c};
ghost use Rattle.dsa_c.specs.Events.{event_at, queue_written, group_written};
ghost use Rattle.dsa_c.specs.Events.{command_said, descriptor_from_c, event_from_c};
ghost use Rattle.dsa_c.specs.Events.{finish_said, submission_said, IsWrite};

use crate::answer::Answer;
use crate::handle::{Handle, let_device};
use crate::numbers::{
    EVENT_CLEAR_ERROR, EVENT_COMMAND, EVENT_DISPATCH, EVENT_ENQCMD, EVENT_FETCH, EVENT_FINISH,
    EVENT_MOVDIR64B, EVENT_POLL, EVENT_START, EVENT_WRITE_GROUP, EVENT_WRITE_QUEUE, LIMITED,
    PAGE_FAULT, SUCCESS, UNLIMITED,
};
use crate::standing::{write_group, write_queue};
use crate::steps::{DeviceGroup, DeviceQueue, outcome_of, portal_of};
use dsa_book::{Event, Kind, Portal, Ticket};
use dsa_desc::{Descriptor, Outcome};
use dsa_regs::{CommandWord, GroupConfig, QueueConfig};
use dsa_store::Cell;

/// An event: its kind, and the numbers that it speaks of.
#[repr(C)]
#[derive(Clone, Copy)]
pub struct DeviceEvent {
    pub kind: u32,
    pub name: u32,
    pub cell: u32,
    pub pasid: u32,
    pub flags: u32,
    pub size: u32,
    pub operand: u32,
    pub descriptor_pasid: u32,
    pub client: u16,
    pub queue: u16,
    pub group: u16,
    pub engine: u16,
    pub operation: u8,
    pub portal: u8,
    pub outcome: u8,
    pub command: u8,
}

pub(crate) fn portal_number(portal: Portal) -> u8
    ensures { result ≡ portal_number portal }
{
    match portal {
        Portal::Limited => LIMITED as u8,
        Portal::Unlimited => UNLIMITED as u8,
    }
}

fn outcome_number(outcome: Outcome) -> u8
    ensures { result ≡ outcome_number outcome }
{
    match outcome {
        Outcome::Success => SUCCESS as u8,
        Outcome::PageFault => PAGE_FAULT as u8,
    }
}

fn of_kind(kind: u32) -> DeviceEvent
    ensures { result ≡ of_kind kind }
{
    DeviceEvent {
        kind,
        name: 0,
        cell: 0,
        pasid: 0,
        flags: 0,
        size: 0,
        operand: 0,
        descriptor_pasid: 0,
        client: 0,
        queue: 0,
        group: 0,
        engine: 0,
        operation: 0,
        portal: 0,
        outcome: 0,
        command: 0,
    }
}

fn of_engine(kind: u32, engine: u16) -> DeviceEvent
    ensures { result ≡ of_engine kind engine }
{
    DeviceEvent {
        engine,
        ..of_kind(kind)
    }
}

fn with_descriptor(desc: Descriptor, event: DeviceEvent) -> DeviceEvent
    ensures { result ≡ with_descriptor desc event }
{
    DeviceEvent {
        operation: desc.op,
        flags: desc.flags,
        size: desc.size,
        descriptor_pasid: desc.pasid,
        ..event
    }
}

fn of_instruction(kind: Kind) -> DeviceEvent
    ensures { result ≡ of_instruction kind }
{
    match kind {
        Kind::Enqcmd { pasid } => DeviceEvent {
            pasid,
            ..of_kind(EVENT_ENQCMD)
        },
        Kind::Movdir64b => of_kind(EVENT_MOVDIR64B),
    }
}

fn of_finish(engine: u16, ticket: Ticket, outcome: Outcome) -> DeviceEvent
    ensures { result ≡ of_finish engine ticket outcome }
{
    DeviceEvent {
        name: ticket.name,
        cell: ticket.cell.0,
        outcome: outcome_number(outcome),
        ..of_engine(EVENT_FINISH, engine)
    }
}

fn event_for_c(event: Event) -> DeviceEvent
    ensures { result ≡ event_for_c event }
{
    match event {
        Event::Submit {
            client,
            queue,
            portal,
            kind,
            desc,
        } => DeviceEvent {
            client,
            queue,
            portal: portal_number(portal),
            ..with_descriptor(desc, of_instruction(kind))
        },
        Event::Dispatch { engine } => of_engine(EVENT_DISPATCH, engine),
        Event::Fetch { engine, desc } => with_descriptor(desc, of_engine(EVENT_FETCH, engine)),
        Event::Start { engine } => of_engine(EVENT_START, engine),
        Event::Finish {
            engine,
            ticket,
            outcome,
        } => of_finish(engine, ticket, outcome),
        Event::Issue { command } => DeviceEvent {
            command: command.number(),
            operand: command.scope().operand(),
            ..of_kind(EVENT_COMMAND)
        },
        Event::Poll => of_kind(EVENT_POLL),
        Event::WriteQueue { queue, .. } => DeviceEvent {
            queue,
            ..of_kind(EVENT_WRITE_QUEUE)
        },
        Event::WriteGroup { group, .. } => DeviceEvent {
            group,
            ..of_kind(EVENT_WRITE_GROUP)
        },
        Event::ClearError => of_kind(EVENT_CLEAR_ERROR),
    }
}

fn queue_written(event: Event) -> Option<QueueConfig>
    ensures { result ≡ queue_written event }
{
    match event {
        Event::WriteQueue { config, .. } => Some(config),
        _ => None,
    }
}

fn group_written(event: Event) -> Option<GroupConfig>
    ensures { result ≡ group_written event }
{
    match event {
        Event::WriteGroup { config, .. } => Some(config),
        _ => None,
    }
}

// The event of the stored step at this position.
fn event_at(handle: &mut Handle, position: u64) -> Option<Event>
    ensures { IsReadAs (asked_for (event_at position))
        handle.old.place.machine result handle.new.place.machine }
{
    let_device!(device, handle, None);
    let step = device.history().get(position as usize).copied();
    step.map(|step| step.event)
}

/// Reads the event of the stored step at this position, the first one at 0.
#[unsafe(no_mangle)]
pub extern "C" fn dsa_history_event(
    handle: &mut Handle,
    position: u64,
    event: &mut DeviceEvent,
) -> u32
    ensures { IsReadForC event_for_c (event_at position)
        handle.old.place.machine result event.old event.new handle.new.place.machine }
{
    let Some(found) = event_at(handle, position) else {
        return 0;
    };
    *event = event_for_c(found);
    1
}

/// Reads the configuration that the stored step at this position wrote to a queue.
#[unsafe(no_mangle)]
pub extern "C" fn dsa_history_queue_config(
    handle: &mut Handle,
    position: u64,
    config: &mut DeviceQueue,
) -> u32
    ensures { IsReadForC queue_for_c (λ d. option_and_then queue_written (event_at position d))
        handle.old.place.machine result config.old config.new handle.new.place.machine }
{
    let written = event_at(handle, position).and_then(|event| queue_written(event));
    write_queue(written, config)
}

/// Reads the configuration that the stored step at this position wrote to a group.
#[unsafe(no_mangle)]
pub extern "C" fn dsa_history_group_config(
    handle: &mut Handle,
    position: u64,
    config: &mut DeviceGroup,
) -> u32
    ensures { IsReadForC group_for_c (λ d. option_and_then group_written (event_at position d))
        handle.old.place.machine result config.old config.new handle.new.place.machine }
{
    let written = event_at(handle, position).and_then(|event| group_written(event));
    write_group(written, config)
}

// ---- events as steps

fn descriptor_of(event: &DeviceEvent) -> Descriptor
    ensures { result ≡ descriptor_from_c event.now }
{
    Descriptor {
        pasid: event.descriptor_pasid,
        flags: event.flags,
        op: event.operation,
        size: event.size,
    }
}

fn submission_said(kind: Kind, event: &DeviceEvent) -> Option<Event>
    ensures { result ≡ submission_said kind event.now }
{
    let portal = portal_of(u32::from(event.portal))?;
    Some(Event::Submit {
        client: event.client,
        queue: event.queue,
        portal,
        kind,
        desc: descriptor_of(event),
    })
}

fn finish_said(event: &DeviceEvent) -> Option<Event>
    ensures { result ≡ finish_said event.now }
{
    let outcome = outcome_of(u32::from(event.outcome))?;
    let ticket = Ticket {
        cell: Cell(event.cell),
        name: event.name,
    };
    Some(Event::Finish {
        engine: event.engine,
        ticket,
        outcome,
    })
}

fn command_said(event: &DeviceEvent) -> Option<Event>
    ensures { result ≡ command_said event.now }
{
    if event.operand >= 1 << 20 {
        return None;
    }
    match CommandWord::parse((u32::from(event.command) << 20) + event.operand) {
        Ok(command) => Some(Event::Issue { command }),
        Err(_) => None,
    }
}

// The event that C describes, where it is none that writes a configuration.
pub(crate) fn event_from_c(event: &DeviceEvent) -> Option<Event>
    ensures { result ≡ event_from_c event.now }
{
    let engine = event.engine;
    match event.kind {
        EVENT_ENQCMD => submission_said(Kind::Enqcmd { pasid: event.pasid }, event),
        EVENT_MOVDIR64B => submission_said(Kind::Movdir64b, event),
        EVENT_DISPATCH => Some(Event::Dispatch { engine }),
        EVENT_FETCH => Some(Event::Fetch {
            engine,
            desc: descriptor_of(event),
        }),
        EVENT_START => Some(Event::Start { engine }),
        EVENT_FINISH => finish_said(event),
        EVENT_COMMAND => command_said(event),
        EVENT_POLL => Some(Event::Poll),
        EVENT_CLEAR_ERROR => Some(Event::ClearError),
        _ => None,
    }
}

/// The step of an event that writes no configuration.
#[unsafe(no_mangle)]
pub extern "C" fn dsa_step(handle: &mut Handle, event: &DeviceEvent) -> Answer
    ensures { IsCall handle.old.place.machine (event_from_c event.now) result
        handle.new.place.machine }
{
    let Some(event) = event_from_c(event) else {
        return Answer::bad_argument();
    };
    let_device!(device, handle, Answer::no_device());
    Answer::of(device.step(event))
}

// What C reads of an event describes it, unless it writes a configuration, or is a command whose
// operand no word has.
#[allow(dead_code)]
fn events_describe_themselves(event: Event)
    ensures { ¬ IsWrite event → event_from_c (event_for_c event) ≡ Some event }
{
    if let Event::Issue { command } = event {
        let _ = command.word();
    }
}
