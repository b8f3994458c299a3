//! The kinds of step objects, and what they ask.

ghost use Rattle.std.specs.Prelude.{◌≡◌, map, IfSome};
ghost use Rattle.serde_json.specs.View.{view};
ghost use Rattle.dsa_scenario.specs.Fields.{row_of_field};
ghost use Rattle.dsa_scenario.specs.Actions.{caps_of, portal_of_limited, outcome_of_fault, action_of_word, kind_text, rows_of_kind, kind_named, kind_of, action_by, action_of};

use crate::fields::{Field, Form, digits_at, truth_at, u8_at, u16_at, u32_at, u64_at};
use crate::objects::Object;
use crate::table_of;
use dsa_book::{Event, Kind, Portal};
use dsa_desc::{Descriptor, Outcome};
use dsa_regs::{Caps, CommandWord, Fault, GroupConfig, QueueConfig};
use serde_json::Value;

/// A kind of step objects, by its text `do`.
#[derive(Clone, Copy)]
pub enum StepKind {
    Queue,
    Group,
    Enqcmd,
    Movdir,
    Dispatch,
    Fetch,
    Start,
    Finish,
    Command,
    Poll,
    Clear,
}

/// All kinds.
pub const KINDS: [StepKind; 11] = [
    StepKind::Queue,
    StepKind::Group,
    StepKind::Enqcmd,
    StepKind::Movdir,
    StepKind::Dispatch,
    StepKind::Fetch,
    StepKind::Start,
    StepKind::Finish,
    StepKind::Command,
    StepKind::Poll,
    StepKind::Clear,
];

/// Their names, in words.
pub const KIND_NAMES: &str =
    "queue, group, enqcmd, movdir, dispatch, fetch, start, finish, command, poll and clear";

// A whole number without sign of so many bits.
macro_rules! bits {
    ($bits:literal) => { Form::Whole { least: 0, most: u64::MAX >> (64 - $bits) } };
}

const QUEUE: [Field; 8] = table_of!(
    "queue": bits!(16),
    "size": bits!(16),
    "threshold": bits!(16),
    "dedicated": Form::Truth,
    "priority": bits!(8),
    "pasid": bits!(32),
    "batch": bits!(8),
    "xfer": bits!(8)
);

const GROUP: [Field; 5] = table_of!(
    "group": bits!(16),
    "queues": bits!(64),
    "engines": bits!(64),
    "reserved": bits!(16),
    "allowed": bits!(16)
);

const ENQCMD: [Field; 5] = table_of!(
    "client": bits!(16),
    "queue": bits!(16),
    "limited": Form::Truth,
    "pasid": bits!(32),
    "desc": Form::Digits
);

const MOVDIR: [Field; 4] = table_of!(
    "client": bits!(16),
    "queue": bits!(16),
    "limited": Form::Truth,
    "desc": Form::Digits
);

const ENGINE: [Field; 1] = table_of!("engine": bits!(16));

const FETCH: [Field; 2] = table_of!("engine": bits!(16), "desc": Form::Digits);

const FINISH: [Field; 3] = table_of!("engine": bits!(16), "name": bits!(32), "fault": Form::Truth);

const COMMAND: [Field; 1] = table_of!("word": bits!(32));

impl StepKind {
    /// The kind of this name.
    #[inline(always)]
    pub fn parse(name: &str) -> Option<StepKind>
        ensures found { IfSome result (λ kind. kind_text kind ≡ name.now) }
        ensures named { result ≡ kind_named name.now }
    {
        match name {
            "queue" => Some(StepKind::Queue),
            "group" => Some(StepKind::Group),
            "enqcmd" => Some(StepKind::Enqcmd),
            "movdir" => Some(StepKind::Movdir),
            "dispatch" => Some(StepKind::Dispatch),
            "fetch" => Some(StepKind::Fetch),
            "start" => Some(StepKind::Start),
            "finish" => Some(StepKind::Finish),
            "command" => Some(StepKind::Command),
            "poll" => Some(StepKind::Poll),
            "clear" => Some(StepKind::Clear),
            _ => None,
        }
    }

    /// Its name.
    pub fn name(self) -> &'static str
        ensures { result.now ≡ kind_text self }
    {
        match self {
            StepKind::Queue => "queue",
            StepKind::Group => "group",
            StepKind::Enqcmd => "enqcmd",
            StepKind::Movdir => "movdir",
            StepKind::Dispatch => "dispatch",
            StepKind::Fetch => "fetch",
            StepKind::Start => "start",
            StepKind::Finish => "finish",
            StepKind::Command => "command",
            StepKind::Poll => "poll",
            StepKind::Clear => "clear",
        }
    }

    /// Its keys beside `do`.
    pub fn fields(self) -> &'static [Field]
        ensures { map row_of_field result.now ≡ rows_of_kind self }
    {
        match self {
            StepKind::Queue => &QUEUE,
            StepKind::Group => &GROUP,
            StepKind::Enqcmd => &ENQCMD,
            StepKind::Movdir => &MOVDIR,
            StepKind::Dispatch | StepKind::Start => &ENGINE,
            StepKind::Fetch => &FETCH,
            StepKind::Finish => &FINISH,
            StepKind::Command => &COMMAND,
            StepKind::Poll | StepKind::Clear => &[],
        }
    }
}

#[inline(always)]
fn kind_at<O: Object>(step: &O) -> Option<StepKind>
    ensures { result ≡ kind_of (O.stands_for step.now) }
{
    StepKind::parse(step.get("do")?.as_str()?)
}

/// The kind of a step object, by its text `do`.
#[inline(always)]
pub fn kind_of(step: &Value) -> Option<StepKind>
    ensures { result ≡ kind_of (view step.now) }
{
    kind_at(&step)
}

/// What one step object asks (profile).
#[derive(Clone, Copy, Debug, PartialEq, Eq)]
pub enum Action {
    /// An event that the object says in full.
    Ask(Event),
    /// The end of an entry, which the object calls by its name.
    Finish {
        engine: u16,
        name: u32,
        outcome: Outcome,
    },
    /// A word that is no command. It is no event, and the device is not asked.
    Refuse(BadWord),
}

/// A word of the command register that is no command.
#[derive(Clone, Copy, Debug, PartialEq, Eq)]
pub struct BadWord {
    pub word: u32,
    /// What refuses it.
    pub fault: Fault,
}

/// The object `caps`.
pub fn caps_at<O: Object>(object: &O) -> Option<Caps>
    ensures { result ≡ caps_of (O.stands_for object.now) }
{
    Some(Caps {
        queues: u16_at(object, "queues")?,
        groups: u16_at(object, "groups")?,
        engines: u16_at(object, "engines")?,
        total_size: u16_at(object, "total_size")?,
        read_buffers: u16_at(object, "read_buffers")?,
        slots: u16_at(object, "slots")?,
        max_batch_shift: u8_at(object, "max_batch_shift")?,
        max_xfer_shift: u8_at(object, "max_xfer_shift")?,
    })
}

/// The object `caps`, of a value.
pub fn parse_caps(object: &Value) -> Option<Caps>
    ensures { result ≡ caps_of (view object.now) }
{
    caps_at(&object)
}

#[inline(always)]
fn portal_of(limited: bool) -> Portal
    ensures { result ≡ portal_of_limited limited }
{
    if limited {
        Portal::Limited
    } else {
        Portal::Unlimited
    }
}

#[inline(always)]
fn outcome_of(fault: bool) -> Outcome
    ensures { result ≡ outcome_of_fault fault }
{
    if fault {
        Outcome::PageFault
    } else {
        Outcome::Success
    }
}

#[inline(never)]
fn parse_queue<O: Object>(object: &O) -> Option<Action>
    ensures { result ≡ action_by StepKind.Queue (O.stands_for object.now) }
{
    let queue = u16_at(object, "queue")?;
    let config = QueueConfig {
        size: u16_at(object, "size")?,
        threshold: u16_at(object, "threshold")?,
        dedicated: truth_at(object, "dedicated")?,
        priority: u8_at(object, "priority")?,
        pasid: u32_at(object, "pasid")?,
        max_batch_shift: u8_at(object, "batch")?,
        max_xfer_shift: u8_at(object, "xfer")?,
    };
    Some(Action::Ask(Event::WriteQueue { queue, config }))
}

#[inline(never)]
fn parse_group<O: Object>(object: &O) -> Option<Action>
    ensures { result ≡ action_by StepKind.Group (O.stands_for object.now) }
{
    let group = u16_at(object, "group")?;
    let config = GroupConfig {
        queues: u64_at(object, "queues")?,
        engines: u64_at(object, "engines")?,
        reserved: u16_at(object, "reserved")?,
        allowed: u16_at(object, "allowed")?,
    };
    Some(Action::Ask(Event::WriteGroup { group, config }))
}

#[inline(never)]
fn parse_enqcmd<O: Object>(object: &O) -> Option<Action>
    ensures { result ≡ action_by StepKind.Enqcmd (O.stands_for object.now) }
{
    let client = u16_at(object, "client")?;
    let queue = u16_at(object, "queue")?;
    let limited = truth_at(object, "limited")?;
    let pasid = u32_at(object, "pasid")?;
    let desc = digits_at(object, "desc")?;
    Some(Action::Ask(Event::Submit {
        client,
        queue,
        portal: portal_of(limited),
        kind: Kind::Enqcmd { pasid },
        desc: Descriptor::parse(&desc),
    }))
}

#[inline(never)]
fn parse_movdir<O: Object>(object: &O) -> Option<Action>
    ensures { result ≡ action_by StepKind.Movdir (O.stands_for object.now) }
{
    let client = u16_at(object, "client")?;
    let queue = u16_at(object, "queue")?;
    let limited = truth_at(object, "limited")?;
    let desc = digits_at(object, "desc")?;
    Some(Action::Ask(Event::Submit {
        client,
        queue,
        portal: portal_of(limited),
        kind: Kind::Movdir64b,
        desc: Descriptor::parse(&desc),
    }))
}

#[inline(always)]
fn parse_dispatch<O: Object>(object: &O) -> Option<Action>
    ensures { result ≡ action_by StepKind.Dispatch (O.stands_for object.now) }
{
    let engine = u16_at(object, "engine")?;
    Some(Action::Ask(Event::Dispatch { engine }))
}

#[inline(never)]
fn parse_fetch<O: Object>(object: &O) -> Option<Action>
    ensures { result ≡ action_by StepKind.Fetch (O.stands_for object.now) }
{
    let engine = u16_at(object, "engine")?;
    let desc = digits_at(object, "desc")?;
    Some(Action::Ask(Event::Fetch {
        engine,
        desc: Descriptor::parse(&desc),
    }))
}

#[inline(always)]
fn parse_start<O: Object>(object: &O) -> Option<Action>
    ensures { result ≡ action_by StepKind.Start (O.stands_for object.now) }
{
    let engine = u16_at(object, "engine")?;
    Some(Action::Ask(Event::Start { engine }))
}

#[inline(never)]
fn parse_finish<O: Object>(object: &O) -> Option<Action>
    ensures { result ≡ action_by StepKind.Finish (O.stands_for object.now) }
{
    let engine = u16_at(object, "engine")?;
    let name = u32_at(object, "name")?;
    let fault = truth_at(object, "fault")?;
    Some(Action::Finish {
        engine,
        name,
        outcome: outcome_of(fault),
    })
}

/// What a word of the command register asks.
#[inline(always)]
pub fn action_of_word(word: u32) -> Action
    ensures { result ≡ action_of_word word }
{
    match CommandWord::parse(word) {
        Ok(command) => Action::Ask(Event::Issue { command }),
        Err(fault) => Action::Refuse(BadWord { word, fault }),
    }
}

#[inline(always)]
fn parse_command<O: Object>(object: &O) -> Option<Action>
    ensures { result ≡ action_by StepKind.Command (O.stands_for object.now) }
{
    let word = u32_at(object, "word")?;
    Some(action_of_word(word))
}

#[inline(always)]
fn parse_by_kind<O: Object>(kind: StepKind, object: &O) -> Option<Action>
    ensures { result ≡ action_by kind (O.stands_for object.now) }
{
    match kind {
        StepKind::Queue => parse_queue(object),
        StepKind::Group => parse_group(object),
        StepKind::Enqcmd => parse_enqcmd(object),
        StepKind::Movdir => parse_movdir(object),
        StepKind::Dispatch => parse_dispatch(object),
        StepKind::Fetch => parse_fetch(object),
        StepKind::Start => parse_start(object),
        StepKind::Finish => parse_finish(object),
        StepKind::Command => parse_command(object),
        StepKind::Poll => Some(Action::Ask(Event::Poll)),
        StepKind::Clear => Some(Action::Ask(Event::ClearError)),
    }
}

/// What a step object asks, by its text `do` and the fields of that kind of step; other fields are
/// ignored. `None` says that it is no step object.
#[inline(always)]
pub fn action_at<O: Object>(object: &O) -> Option<Action>
    ensures { result ≡ action_of (O.stands_for object.now) }
{
    parse_by_kind(kind_at(object)?, object)
}

/// What a step object asks, of a value.
#[inline(always)]
pub fn parse_action(object: &Value) -> Option<Action>
    ensures { result ≡ action_of (view object.now) }
{
    action_at(&object)
}
