//! What a line shows of a device.

ghost use Rattle.std.specs.Prelude.{◌≡◌, ◌<◌, ◌^◌, IsTrue};
ghost use Rattle.dsa_regs.specs.Caps.{check_caps};
ghost use Rattle.dsa_event_text.specs.Added.{Adds};
ghost use Rattle.dsa_trace.specs.Columns.{absent_command, row_columns, command_column};
ghost use Rattle.dsa_trace.specs.Columns.{command_text, engine_text};
ghost use Rattle.dsa_trace.specs.Columns.{group_text, is_left_out, is_unplaced, is_unused};
ghost use Rattle.dsa_trace.specs.Columns.{item_count, item_text, items_text};
ghost use Rattle.dsa_trace.specs.Columns.{limits_text, phase_text, queue_phase, queue_text};
ghost use Rattle.dsa_trace.specs.Columns.{reserved_text};
ghost use Rattle.dsa_trace.specs.Columns.{state_members, state_object, threshold_text};
ghost use Rattle.dsa_trace.specs.Columns.{waiting_text, work_text};

use crate::errors::add_error;
use crate::form::{Items, Part, Trace, add_aligned, add_comma, add_mark, add_marked};
use crate::names::add_names;
use crate::notes::add_batch;
use dsa_book::BatchNote;
use dsa_device::Device;
use dsa_event_text::{Added, add_command, phase_word};
use dsa_regs::{Caps, Command, GroupConfig, Phase, QueueConfig};
use dsa_store::{EntryStore, Walk};

fn is_left_out(form: Trace, config: &QueueConfig) -> bool
    ensures { result ≡ is_left_out form config.now }
{
    match form {
        Trace::Table => config.size == 0,
        Trace::Wide | Trace::Json | Trace::Changes => false,
    }
}

fn is_unplaced(form: Trace, group: Option<u16>) -> bool
    ensures { result ≡ is_unplaced form group }
{
    match form {
        Trace::Table => group.is_none(),
        Trace::Wide | Trace::Json | Trace::Changes => false,
    }
}

fn is_unused(form: Trace, config: &GroupConfig) -> bool
    ensures { result ≡ is_unused form config.now }
{
    match form {
        Trace::Table => config.queues == 0 && config.engines == 0,
        Trace::Wide | Trace::Json | Trace::Changes => false,
    }
}

fn add_threshold(text: &mut String, form: Trace, config: &QueueConfig) -> Added
    ensures { Adds result text.old text.new (threshold_text form config.now) }
{
    match form {
        Trace::Table if config.dedicated => Ok(()),
        _ => add_marked(text, form, Part::Threshold, u32::from(config.threshold)),
    }
}

fn add_limits(text: &mut String, form: Trace, config: &QueueConfig) -> Added
    ensures { Adds result text.old text.new (limits_text form config.now) }
{
    add_threshold(text, form, config)?;
    add_marked(text, form, Part::Size, u32::from(config.size))
}

// A phase behind its mark.
fn add_phase(text: &mut String, form: Trace, part: Part, phase: Phase) -> Added
    ensures { Adds result text.old text.new (phase_text form part phase) }
{
    match form {
        Trace::Table | Trace::Wide | Trace::Changes => Ok(()),
        Trace::Json => {
            add_mark(text, form, part)?;
            text.push_str(phase_word(phase))
        }
    }
}

// The phase of a queue.
fn add_queue_phase(text: &mut String, form: Trace, phase: Phase) -> Added
    ensures { Adds result text.old text.new (queue_phase form phase) }
{
    add_phase(text, form, Part::QueuePhase, phase)?;
    add_mark(text, form, Part::TextEnd)
}

fn add_queue(
    text: &mut String,
    form: Trace,
    queue: u16,
    waiting: u16,
    config: &QueueConfig,
    phase: Phase,
) -> Added
    ensures { Adds result text.old text.new (queue_text form queue waiting config.now phase) }
{
    if is_left_out(form, config) {
        return Ok(());
    }
    add_comma(text, form, queue)?;
    add_marked(text, form, Part::Queue, u32::from(queue))?;
    add_aligned(
        text,
        form,
        Part::Occupancy,
        u32::from(waiting),
        u32::from(config.size),
    )?;
    add_limits(text, form, config)?;
    add_queue_phase(text, form, phase)
}

// The most members that a batch has.
fn most_members(caps: &Caps) -> u32
    requires { IsTrue (check_caps caps.now) }
    ensures { result ≡ 2 ^ caps.now.max_batch_shift }
{
    1 << caps.max_batch_shift
}

fn add_engine(
    text: &mut String,
    form: Trace,
    caps: &Caps,
    engine: u16,
    taken: u32,
    left: u32,
) -> Added
    requires { IsTrue (check_caps caps.now) }
    ensures { Adds result text.old text.new (engine_text form caps.now engine taken left) }
{
    let slots = u32::from(caps.slots);
    add_comma(text, form, engine)?;
    add_marked(text, form, Part::Engine, u32::from(engine))?;
    add_aligned(text, form, Part::InProgress, taken, slots)?;
    add_marked(text, form, Part::Slots, slots)?;
    add_aligned(text, form, Part::Members, left, most_members(caps))
}

// The names of the entries that wait in a queue, and the end of its column.
fn add_waiting<S: EntryStore>(text: &mut String, form: Trace, entries: Walk<'_, S>) -> Added
    ensures { Adds result text.old text.new (waiting_text form entries.entry) }
{
    add_names(text, form, Part::Waiting, entries)?;
    add_mark(text, form, Part::ObjectEnd)
}

// The names of what an engine has, what is noted of its batch, and the end of its column.
fn add_work<S: EntryStore>(
    text: &mut String,
    form: Trace,
    taken: Walk<'_, S>,
    left: Walk<'_, S>,
    note: Option<BatchNote>,
) -> Added
    ensures { Adds result text.old text.new (work_text form taken.entry left.entry note) }
{
    add_names(text, form, Part::Names, taken)?;
    add_names(text, form, Part::MemberNames, left)?;
    add_batch(text, form, note)?;
    add_mark(text, form, Part::ObjectEnd)
}

fn add_reserved(text: &mut String, form: Trace, reserved: u16) -> Added
    ensures { Adds result text.old text.new (reserved_text form reserved) }
{
    match form {
        Trace::Table | Trace::Wide | Trace::Changes => Ok(()),
        Trace::Json => add_marked(text, form, Part::Reserved, u32::from(reserved)),
    }
}

fn add_group(text: &mut String, form: Trace, group: u16, taken: u16, config: &GroupConfig) -> Added
    ensures { Adds result text.old text.new (group_text form group taken config.now) }
{
    if is_unused(form, config) {
        return Ok(());
    }
    let (taken, allowed) = (u32::from(taken), u32::from(config.allowed));
    add_comma(text, form, group)?;
    add_marked(text, form, Part::Group, u32::from(group))?;
    add_aligned(text, form, Part::Used, taken, allowed)?;
    add_marked(text, form, Part::Allowed, allowed)?;
    add_reserved(text, form, config.reserved)?;
    add_mark(text, form, Part::ObjectEnd)
}

// The part that a line has where no command is active.
fn absent_command(form: Trace) -> Part
    ensures { result ≡ absent_command form }
{
    match form {
        Trace::Changes => Part::NoMoreCommand,
        Trace::Table | Trace::Wide | Trace::Json => Part::NoCommand,
    }
}

fn add_active(
    text: &mut String,
    form: Trace,
    command: Option<Command>,
    awaited: Option<u32>,
) -> Added
    ensures { Adds result text.old text.new (command_text form command awaited) }
{
    match (command, awaited) {
        (Some(command), Some(count)) => {
            add_mark(text, form, Part::Active)?;
            add_command(text, &command)?;
            add_marked(text, form, Part::Awaited, count)?;
            add_mark(text, form, Part::ObjectEnd)
        }
        _ => add_mark(text, form, absent_command(form)),
    }
}

/// Adds what a line shows of the item of this number.
pub fn add_item<S: EntryStore>(
    text: &mut String,
    form: Trace,
    device: &Device<S>,
    items: Items,
    place: u16,
) -> Added
    requires { place < item_count device.now.caps items }
    ensures { Adds result text.old text.new
        (item_text form device.now.caps device.now.state items place) }
{
    match items {
        Items::Queues => match (
            device.occupancy(place),
            device.queue_config(place),
            device.queue_phase(place),
            device.waiting(place),
        ) {
            (Some(waiting), Some(config), Some(phase), Some(entries)) => {
                add_queue(text, form, place, waiting, &config, phase)?;
                add_waiting(text, form, entries)
            }
            _ => unreachable!(),
        },
        Items::Engines => match (
            device.in_progress_count(place),
            device.member_count(place),
            device.in_progress(place),
            device.members(place),
        ) {
            (Some(taken), Some(left), Some(entries), Some(members)) => {
                if is_unplaced(form, device.group_of(place)) {
                    return Ok(());
                }
                device.state_is_replay();
                let caps = device.caps();
                add_engine(text, form, &caps, place, taken, left)?;
                add_work(text, form, entries, members, device.batch(place))
            }
            _ => unreachable!(),
        },
        Items::Groups => match (device.used(place), device.group_config(place)) {
            (Some(taken), Some(config)) => add_group(text, form, place, taken, &config),
            _ => unreachable!(),
        },
    }
}

/// How many items of this kind the device has.
pub fn item_count(caps: &Caps, items: Items) -> u16
    ensures { result ≡ item_count caps.now items }
{
    match items {
        Items::Queues => caps.queues,
        Items::Engines => caps.engines,
        Items::Groups => caps.groups,
    }
}

fn add_items<S: EntryStore>(
    text: &mut String,
    form: Trace,
    device: &Device<S>,
    items: Items,
) -> Added
    ensures { Adds result text.old text.new
        (items_text form device.now.caps device.now.state items) }
{
    add_mark(text, form, Part::Items(items))?;
    for place in 0..item_count(&device.caps(), items) {
        add_item(text, form, device, items, place)?;
    }
    Ok(())
}

/// Adds the columns of a row: the queues, the engines and the groups.
pub fn add_columns<S: EntryStore>(text: &mut String, form: Trace, device: &Device<S>) -> Added
    ensures { Adds result text.old text.new
        (row_columns form device.now.caps device.now.state) }
{
    add_items(text, form, device, Items::Queues)?;
    add_items(text, form, device, Items::Engines)?;
    add_items(text, form, device, Items::Groups)
}

/// Adds the active command, where there is one.
pub fn add_command_column<S: EntryStore>(
    text: &mut String,
    form: Trace,
    device: &Device<S>,
) -> Added
    ensures { Adds result text.old text.new (command_column form device.now.state) }
{
    add_active(text, form, device.active(), device.awaited())
}

/// Adds what is told of the device as it stands: the members of an object.
pub fn add_state_members<S: EntryStore>(text: &mut String, form: Trace, device: &Device<S>) -> Added
    ensures { Adds result text.old text.new
        (state_members form device.now.caps device.now.state) }
{
    add_phase(text, form, Part::DevicePhase, device.phase())?;
    add_error(text, form, device.noted())?;
    add_columns(text, form, device)?;
    add_command_column(text, form, device)
}

/// Adds the JSON object of the device as it stands, which has the members that the trace shows of
/// it after a step: `{"phase":"on","error":null,"queues":[..],"engines":[..],"groups":[..],` and
/// `"active":null}`.
pub fn add_state<S: EntryStore>(text: &mut String, device: &Device<S>) -> Added
    ensures { Adds result text.old text.new (state_object device.now.caps device.now.state) }
{
    add_mark(text, Trace::Json, Part::StateStart)?;
    add_state_members(text, Trace::Json, device)?;
    add_mark(text, Trace::Json, Part::ObjectEnd)
}
