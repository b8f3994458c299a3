//! The steps of the machine.

ghost use Rattle.std.specs.Prelude.{◌≡◌, None, Some, option_map};
ghost use Rattle.dsa_desc.specs.Descriptor.{read};
ghost use Rattle.dsa_regs.specs.Command.{command_of};
ghost use Rattle.dsa_book.specs.declared.event.Event.TheVariants as event;
ghost use Rattle.dsa_book.specs.declared.event.Kind.TheVariants as kind;
ghost use Rattle.dsa_c.specs.Calls.{IsStep, IsStepFrom, IsCall, IsIssue, portal_from_c, bit_of};
ghost use Rattle.dsa_c.specs.Calls.{submission_from_c, finishing, queue_write, group_from_c, outcome_from_c};

use crate::answer::Answer;
use crate::handle::{Handle, let_device};
use crate::numbers::{LIMITED, PAGE_FAULT, SUCCESS, UNLIMITED};
use dsa_book::{Kind, Portal, Ticket};
use dsa_desc::{Descriptor, Outcome};
use dsa_regs::{Command, CommandWord, GroupConfig, QueueConfig};
use dsa_store::Cell;

/// The 64 bytes of a descriptor.
#[repr(C)]
#[derive(Clone, Copy)]
pub struct Bytes {
    pub bytes: [u8; 64],
}

/// The configuration of a queue, as C says it.
#[repr(C)]
#[derive(Clone, Copy)]
pub struct DeviceQueue {
    pub size: u16,
    pub threshold: u16,
    pub dedicated: u8,
    pub priority: u8,
    pub max_batch_shift: u8,
    pub max_xfer_shift: u8,
    pub pasid: u32,
}

/// The configuration of a group, as C says it.
#[repr(C)]
#[derive(Clone, Copy)]
pub struct DeviceGroup {
    pub queues: u64,
    pub engines: u64,
    pub reserved: u16,
    pub allowed: u16,
}

pub(crate) fn portal_of(number: u32) -> Option<Portal>
    ensures { result ≡ portal_from_c number }
{
    match number {
        LIMITED => Some(Portal::Limited),
        UNLIMITED => Some(Portal::Unlimited),
        _ => None,
    }
}

fn bit_of(number: u8) -> Option<bool>
    ensures { result ≡ bit_of number }
{
    match number {
        0 => Some(false),
        1 => Some(true),
        _ => None,
    }
}

pub(crate) fn outcome_of(number: u32) -> Option<Outcome>
    ensures { result ≡ outcome_from_c number }
{
    match number {
        SUCCESS => Some(Outcome::Success),
        PAGE_FAULT => Some(Outcome::PageFault),
        _ => None,
    }
}

#[inline(always)]
fn submit_at(
    handle: &mut Handle,
    client: u16,
    queue: u16,
    portal: Portal,
    kind: Kind,
    bytes: &Bytes,
) -> Answer
    ensures { IsStep handle.old.place.machine
        (event.Submit client queue portal kind (read bytes.now.bytes))
        result handle.new.place.machine }
{
    let_device!(device, handle, Answer::no_device());
    Answer::of_submit(device.submit(client, queue, portal, kind, &bytes.bytes))
}

fn finish_at(handle: &mut Handle, engine: u16, ticket: Ticket, outcome: Outcome) -> Answer
    ensures { IsStep handle.old.place.machine (event.Finish engine ticket outcome)
        result handle.new.place.machine }
{
    let_device!(device, handle, Answer::no_device());
    Answer::of_finish(device.finish(engine, ticket, outcome))
}

fn issue(handle: &mut Handle, command: Command) -> Answer
    ensures { IsStep handle.old.place.machine (event.Issue command)
        result handle.new.place.machine }
{
    let_device!(device, handle, Answer::no_device());
    Answer::of_issue(device.issue(command))
}

fn write_queue(handle: &mut Handle, queue: u16, config: QueueConfig) -> Answer
    ensures { IsStep handle.old.place.machine (event.WriteQueue queue config)
        result handle.new.place.machine }
{
    let_device!(device, handle, Answer::no_device());
    Answer::of_write(device.write_queue(queue, config))
}

// A submission, where the portal's number is one.
#[inline(always)]
fn submit(
    handle: &mut Handle,
    client: u16,
    queue: u16,
    portal: u32,
    kind: Kind,
    bytes: &Bytes,
) -> Answer
    ensures { IsCall handle.old.place.machine
        (submission_from_c client queue portal kind bytes.now.bytes) result
        handle.new.place.machine }
{
    match portal_of(portal) {
        Some(portal) => submit_at(handle, client, queue, portal, kind, bytes),
        None => Answer::bad_argument(),
    }
}

/// The step of a client that writes a descriptor by ENQCMD.
#[unsafe(no_mangle)]
pub extern "C" fn dsa_enqcmd(
    handle: &mut Handle,
    client: u16,
    queue: u16,
    portal: u32,
    pasid: u32,
    bytes: &Bytes,
) -> Answer
    ensures { IsCall handle.old.place.machine
        (submission_from_c client queue portal (kind.Enqcmd pasid) bytes.now.bytes)
        result handle.new.place.machine }
{
    submit(handle, client, queue, portal, Kind::Enqcmd { pasid }, bytes)
}

/// The step of a client that writes a descriptor by MOVDIR64B.
#[unsafe(no_mangle)]
pub extern "C" fn dsa_movdir64b(
    handle: &mut Handle,
    client: u16,
    queue: u16,
    portal: u32,
    bytes: &Bytes,
) -> Answer
    ensures { IsCall handle.old.place.machine
        (submission_from_c client queue portal kind.Movdir64b bytes.now.bytes)
        result handle.new.place.machine }
{
    submit(handle, client, queue, portal, Kind::Movdir64b, bytes)
}

/// The step of an engine that asks for an entry.
#[unsafe(no_mangle)]
pub extern "C" fn dsa_dispatch(handle: &mut Handle, engine: u16) -> Answer
    ensures { IsStep handle.old.place.machine (event.Dispatch engine)
        result handle.new.place.machine }
{
    let_device!(device, handle, Answer::no_device());
    Answer::of_dispatch(device.dispatch(engine))
}

/// The step of an engine that takes the front of this queue.
#[unsafe(no_mangle)]
pub extern "C" fn dsa_dispatch_from(handle: &mut Handle, engine: u16, queue: u16) -> Answer
    ensures { IsStepFrom engine queue handle.old.place.machine result handle.new.place.machine }
{
    let_device!(device, handle, Answer::no_device());
    Answer::of_dispatch_from(device.dispatch_from(engine, queue))
}

/// The step of an engine that starts the first of its members that does not run.
#[unsafe(no_mangle)]
pub extern "C" fn dsa_start(handle: &mut Handle, engine: u16) -> Answer
    ensures { IsStep handle.old.place.machine (event.Start engine) result handle.new.place.machine }
{
    let_device!(device, handle, Answer::no_device());
    Answer::of_start(device.start(engine))
}

/// The step of an engine that hands in the next member of its batch.
#[unsafe(no_mangle)]
pub extern "C" fn dsa_fetch(handle: &mut Handle, engine: u16, bytes: &Bytes) -> Answer
    ensures { IsStep handle.old.place.machine (event.Fetch engine (read bytes.now.bytes))
        result handle.new.place.machine }
{
    let desc = Descriptor::parse(&bytes.bytes);
    let_device!(device, handle, Answer::no_device());
    Answer::of_fetch(device.fetch(engine, desc))
}

/// The step of an engine that ends an entry, and says by 0 that all was done or by 1 that an
/// address had no page.
#[unsafe(no_mangle)]
pub extern "C" fn dsa_finish(
    handle: &mut Handle,
    engine: u16,
    cell: u32,
    name: u32,
    outcome: u32,
) -> Answer
    ensures { IsCall handle.old.place.machine (finishing engine cell name outcome)
        result handle.new.place.machine }
{
    let ticket = Ticket {
        cell: Cell(cell),
        name,
    };
    match outcome_of(outcome) {
        Some(outcome) => finish_at(handle, engine, ticket, outcome),
        None => Answer::bad_argument(),
    }
}

/// The step of an administrator who writes the command register.
#[unsafe(no_mangle)]
pub extern "C" fn dsa_command(handle: &mut Handle, word: u32) -> Answer
    ensures { IsIssue (command_of word) handle.old.place.machine result handle.new.place.machine }
{
    match CommandWord::parse(word) {
        Ok(command) => issue(handle, command),
        Err(fault) => Answer::refused(fault),
    }
}

/// The step of an administrator who asks whether the active command is over.
#[unsafe(no_mangle)]
pub extern "C" fn dsa_poll(handle: &mut Handle) -> Answer
    ensures { IsStep handle.old.place.machine event.Poll result handle.new.place.machine }
{
    let_device!(device, handle, Answer::no_device());
    Answer::of_poll(device.poll())
}

/// The step of an administrator who writes the configuration of a queue.
#[unsafe(no_mangle)]
pub extern "C" fn dsa_write_queue(handle: &mut Handle, queue: u16, config: &DeviceQueue) -> Answer
    ensures { IsCall handle.old.place.machine (queue_write queue config.now)
        result handle.new.place.machine }
{
    let Some(dedicated) = bit_of(config.dedicated) else {
        return Answer::bad_argument();
    };
    let config = QueueConfig {
        size: config.size,
        threshold: config.threshold,
        dedicated,
        priority: config.priority,
        pasid: config.pasid,
        max_batch_shift: config.max_batch_shift,
        max_xfer_shift: config.max_xfer_shift,
    };
    write_queue(handle, queue, config)
}

/// The step of an administrator who writes the configuration of a group.
#[unsafe(no_mangle)]
pub extern "C" fn dsa_write_group(handle: &mut Handle, group: u16, config: &DeviceGroup) -> Answer
    ensures { IsStep handle.old.place.machine (event.WriteGroup group (group_from_c config.now))
        result handle.new.place.machine }
{
    let config = GroupConfig {
        queues: config.queues,
        engines: config.engines,
        reserved: config.reserved,
        allowed: config.allowed,
    };
    let_device!(device, handle, Answer::no_device());
    Answer::of_write(device.write_group(group, config))
}

/// The step of an administrator who clears the noted error, and is told it.
#[unsafe(no_mangle)]
pub extern "C" fn dsa_clear_error(handle: &mut Handle) -> Answer
    ensures { IsStep handle.old.place.machine event.ClearError result handle.new.place.machine }
{
    let_device!(device, handle, Answer::no_device());
    Answer::of_clear(device.clear_error())
}
