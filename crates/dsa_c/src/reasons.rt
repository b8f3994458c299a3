//! Why the device behind a handle would answer an event as it does, as numbers. Nothing changes.

ghost use Rattle.std.specs.{Prelude.{◌≡◌, ◌<◌, ◌↔◌, false, []}, Option.{option_map}};
ghost use Rattle.dsa_regs.specs.Command.{deed_of};
ghost use Rattle.dsa_book.specs.{declared.event.Event.{Event}, Machine.{intake_of}};
ghost use Rattle.dsa_queues.specs.{Submission.{submit_reason}, Write.{clear_reason}};
ghost use Rattle.dsa_engines.specs.{Batch.{fetch_reason}, Dispatch.{engine_reason}, Finish.{finish_reason}};
ghost use Rattle.dsa_admin.specs.Command.{issue_reason, poll_reason};
ghost use Rattle.dsa_device.specs.Running.{Running};
ghost use Rattle.dsa_explain.specs.{Done.{done_reason}, Held.{awaited_entry}, Wait.{wait_reason}};
ghost use Rattle.dsa_c.specs.{declared.kinds.TheConstants.{NONE}, Events.{event_from_c}, Reads.{IsReadForC}, Why.{reason_words}, Reasons.{submit_numbers, fetch_numbers, done_numbers, poll_numbers, wait_numbers, clear_numbers, without_reason, told_in_numbers, idle_numbers, unstarted_numbers, unended_numbers, end_numbers, removal_numbers, deed_numbers, command_told, event_numbers, full_numbers, reason_for_c, queue_reason_for_c, writes_config}};

use crate::commanded::{clear_numbers, issue_numbers, poll_numbers, wait_numbers};
use crate::entries::{
    done_numbers, engine_numbers, fate_numbers, fetch_numbers, finish_numbers, queue_numbers,
    start_numbers, submit_numbers,
};
use crate::events::{DeviceEvent, event_from_c};
use crate::handle::{Handle, let_device};
use crate::kinds;
use crate::reason::{DeviceReason, in_32_bits};
use crate::removed::count_removed;
use crate::why::{is_taking, may_take};
use dsa_book::{Event, Kind, Portal, Ticket};
use dsa_desc::Outcome;
use dsa_device::Device;
use dsa_engines::FinishReason;
use dsa_explain::{awaited_entry, done_reason, wait_reason};
use dsa_explain_lines::{any_reason, front_name};
use dsa_regs::{Command, Deed};
use dsa_store::EntryStore;

// The kind that says that there is no reason.
fn without_reason() -> DeviceReason
    ensures { result ≡ without_reason }
{
    DeviceReason::of(kinds::NONE)
}

fn submission_told<S: EntryStore>(
    device: &Device<S>,
    queue: u16,
    portal: Portal,
    kind: Kind,
) -> DeviceReason
    ensures { result ≡ told_in_numbers (submit_numbers queue)
        (submit_reason (intake_of device.now.state) queue portal kind) }
{
    match device.why_submit(queue, portal, kind) {
        Some(reason) => submit_numbers(queue, &reason),
        None => without_reason(),
    }
}

// The reason of the engine, or that each queue of its group has one, or that there is no queue.
fn idle_told<S: EntryStore>(device: &Device<S>, engine: u16) -> DeviceReason
    ensures { result ≡ idle_numbers device.now.state.work engine
        (engine_reason device.now.state.work engine) }
{
    device.state_is_replay();
    if let Some(reason) = device.engine_reason(engine) {
        return engine_numbers(engine, &reason);
    }
    if any_reason(device, engine, device.caps().queues) {
        return DeviceReason::of_engine(kinds::ENGINE_IDLE, engine);
    }
    DeviceReason::of_engine(kinds::ENGINE_WITHOUT_QUEUE, engine)
}

fn fetch_told<S: EntryStore>(device: &Device<S>, engine: u16) -> DeviceReason
    ensures { result ≡ told_in_numbers (fetch_numbers engine)
        (fetch_reason device.now.state.work engine) }
{
    match device.fetch_reason(engine) {
        Some(reason) => fetch_numbers(engine, &reason),
        None => without_reason(),
    }
}

fn start_told<S: EntryStore>(device: &Device<S>, engine: u16) -> DeviceReason
    ensures { result ≡ unstarted_numbers device.now.state.work engine }
{
    device.state_is_replay();
    if engine >= device.caps().engines {
        return DeviceReason::of_engine(kinds::NO_SUCH_ENGINE, engine);
    }
    match device.start_reason(engine) {
        Some(reason) => start_numbers(engine, &reason),
        None => without_reason(),
    }
}

// Why the engine does not end the entry of the ticket. Where the reason is what the cell of the
// ticket holds, that is how the entry ended, or that no entry has the name.
fn unended_told<S: EntryStore>(
    device: &Device<S>,
    engine: u16,
    ticket: Ticket,
    reason: &FinishReason,
) -> DeviceReason
    ensures { result ≡ unended_numbers device.now.state.work engine ticket reason.now }
{
    if !matches!(
        reason,
        FinishReason::NoEntry | FinishReason::OtherName { .. }
    ) {
        return finish_numbers(engine, reason);
    }
    match device.fate(ticket.name) {
        Some(fate) => fate_numbers(ticket.name, fate),
        None if ticket.name < device.next_name() => finish_numbers(engine, reason),
        None => DeviceReason::of_name(kinds::NO_SUCH_NAME, ticket.name),
    }
}

// Why an entry ends without success, where it does.
fn done_told<S: EntryStore>(
    device: &Device<S>,
    engine: u16,
    ticket: Ticket,
    outcome: Outcome,
) -> DeviceReason
    ensures { result ≡ told_in_numbers done_numbers
        (done_reason device.now.state.work engine ticket outcome) }
{
    match done_reason(device, engine, ticket, outcome) {
        Some(reason) => done_numbers(&reason),
        None => without_reason(),
    }
}

fn end_told<S: EntryStore>(
    device: &Device<S>,
    engine: u16,
    ticket: Ticket,
    outcome: Outcome,
) -> DeviceReason
    ensures { result ≡ end_numbers device.now.state.work engine ticket outcome
        (finish_reason device.now.state.work engine ticket) }
{
    match device.finish_reason(engine, ticket) {
        Some(reason) => unended_told(device, engine, ticket, &reason),
        None => done_told(device, engine, ticket, outcome),
    }
}

// How many entries are removed, where any are.
fn removal_numbers(removed: u32) -> DeviceReason
    ensures { result ≡ removal_numbers removed }
{
    if removed == 0 {
        return without_reason();
    }
    DeviceReason {
        count: removed,
        ..DeviceReason::of(kinds::WOULD_REMOVE)
    }
}

// What the command would wait for, where it would be answered active.
fn wait_told<S: EntryStore>(device: &Device<S>, command: Command) -> DeviceReason
    ensures { result ≡ told_in_numbers wait_numbers (wait_reason device.now.state command) }
{
    match wait_reason(device, command) {
        Some(reason) => wait_numbers(&reason),
        None => without_reason(),
    }
}

// Of a command that is carried out.
fn deed_told<S: EntryStore>(device: &Device<S>, command: Command) -> DeviceReason
    ensures { result ≡ deed_numbers device.now.state command (deed_of command) }
{
    match command.deed() {
        Deed::Abort => removal_numbers(count_removed(device, &command)),
        Deed::Reset => removal_numbers(count_removed(device, &command)),
        _ => wait_told(device, command),
    }
}

fn command_told<S: EntryStore>(device: &Device<S>, command: Command) -> DeviceReason
    ensures { result ≡ command_told device.now.state command
        (issue_reason device.now.state command) }
{
    match device.why_issue(command) {
        Some(reason) => issue_numbers(&awaited_entry(device), &reason),
        None => deed_told(device, command),
    }
}

fn poll_told<S: EntryStore>(device: &Device<S>) -> DeviceReason
    ensures { result ≡ told_in_numbers (poll_numbers (awaited_entry device.now.state))
        (poll_reason device.now.state) }
{
    match device.why_poll() {
        Some(reason) => poll_numbers(&awaited_entry(device), &reason),
        None => without_reason(),
    }
}

fn clear_told<S: EntryStore>(device: &Device<S>) -> DeviceReason
    ensures { result ≡ told_in_numbers clear_numbers
        (clear_reason device.now.state.work.setup.noted) }
{
    match device.why_clear() {
        Some(reason) => clear_numbers(&reason),
        None => without_reason(),
    }
}

// Why the device answers the event as it does.
fn event_told<S: EntryStore>(device: &Device<S>, event: &Event) -> DeviceReason
    ensures { result ≡ event_numbers device.now.state event.now }
{
    match *event {
        Event::Submit {
            queue,
            portal,
            kind,
            ..
        } => submission_told(device, queue, portal, kind),
        Event::Dispatch { engine } => idle_told(device, engine),
        Event::Fetch { engine, .. } => fetch_told(device, engine),
        Event::Start { engine } => start_told(device, engine),
        Event::Finish {
            engine,
            ticket,
            outcome,
        } => end_told(device, engine, ticket, outcome),
        Event::Issue { command } => command_told(device, command),
        Event::Poll => poll_told(device),
        Event::ClearError => clear_told(device),
        Event::WriteQueue { .. } | Event::WriteGroup { .. } => without_reason(),
    }
}

// That the history has no room, or that no more names were left.
fn full_told<S: EntryStore>(device: &Device<S>) -> DeviceReason
    ensures { result ≡ full_numbers device.now }
{
    let kind = if device.capacity() < device.room() {
        kinds::NAMES_SHORT
    } else {
        kinds::HISTORY_FULL
    };
    DeviceReason {
        limit: in_32_bits(device.capacity()),
        ..DeviceReason::of(kind)
    }
}

fn reason_told<S: EntryStore>(device: &Device<S>, event: &Event) -> DeviceReason
    ensures { result ≡ reason_for_c device.now event.now }
{
    if is_taking(device, event) {
        return without_reason();
    }
    if device.is_full() {
        return full_told(device);
    }
    event_told(device, event)
}

/// Writes why a step of the event would be answered as it would.
#[unsafe(no_mangle)]
pub extern "C" fn dsa_reason_of(
    handle: &mut Handle,
    event: &DeviceEvent,
    reason: &mut DeviceReason,
) -> u32
    ensures { IsReadForC (λ told. told)
        (λ d. option_map (reason_for_c d) (event_from_c event.now))
        handle.old.place.machine result reason.old reason.new handle.new.place.machine }
{
    let_device!(device, handle, 0);
    let Some(event) = event_from_c(event) else {
        return 0;
    };
    *reason = reason_told(device, &event);
    1
}

// Why the engine does not take the front of the queue, where the queue is one of its group.
fn queue_told<S: EntryStore>(device: &Device<S>, engine: u16, queue: u16) -> Option<DeviceReason>
    ensures { result ≡ queue_reason_for_c engine queue device.now }
{
    device.state_is_replay();
    if may_take(device, engine, queue) {
        return Some(without_reason());
    }
    let reason = device.queue_reason(engine, queue)?;
    Some(queue_numbers(queue, front_name(device, queue), &reason))
}

/// Writes why the engine does not take the front of the queue.
#[unsafe(no_mangle)]
pub extern "C" fn dsa_queue_reason(
    handle: &mut Handle,
    engine: u16,
    queue: u16,
    reason: &mut DeviceReason,
) -> u32
    ensures { IsReadForC (λ told. told) (queue_reason_for_c engine queue)
        handle.old.place.machine result reason.old reason.new handle.new.place.machine }
{
    let_device!(device, handle, 0);
    let Some(told) = queue_told(device, engine, queue) else {
        return 0;
    };
    *reason = told;
    1
}

// An event has no kind of a reason exactly where the text of its reason is empty, whatever the
// device, but for events that write a configuration, which C does not ask for.
#[allow(dead_code)]
fn reasons_have_texts()
    ensures { (now : Running) (event : Event)
        → writes_config event ≡ false
        → ((reason_for_c now event).kind ≡ NONE) ↔ (reason_words now event ≡ []) }
{}
