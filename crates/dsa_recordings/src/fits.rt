//! That the numbers of steps and capabilities have the bits of their types.

ghost use Rattle.std.specs.Prelude.{◌<◌, ◌^◌};
ghost use Rattle.dsa_recordings.specs.Reading.{AreAskable, FitsCaps, FitsCommand, FitsDescriptor, FitsEvent, FitsKind};
ghost use Rattle.dsa_recordings.specs.Reading.{FitsReply, HasWord, HaveWords, IsAskable};

use dsa_book::{
    ClearAnswer, DispatchAnswer, Event, FetchAnswer, FinishAnswer, IssueAnswer, Kind, Reply,
    StartAnswer, Step, SubmitAnswer,
};
use dsa_desc::Descriptor;
use dsa_regs::{Caps, Command, GroupConfig, QueueConfig};

fn byte(number: u8)
    ensures { number < 2 ^ 8 }
{}

fn short(number: u16)
    ensures { number < 2 ^ 16 }
{}

fn word(number: u32)
    ensures { number < 2 ^ 32 }
{}

fn long(number: u64)
    ensures { number < 2 ^ 64 }
{}

/// The numbers of capabilities have the bits of their types.
pub fn caps_fit(caps: &Caps)
    ensures { FitsCaps caps.now }
{
    short(caps.queues);
    short(caps.groups);
    short(caps.engines);
    short(caps.total_size);
    short(caps.read_buffers);
    short(caps.slots);
    byte(caps.max_batch_shift);
    byte(caps.max_xfer_shift);
}

fn kind_fits(kind: Kind)
    ensures { FitsKind kind }
{
    match kind {
        Kind::Enqcmd { pasid } => word(pasid),
        Kind::Movdir64b => {}
    }
}

fn descriptor_fits(desc: Descriptor)
    ensures { FitsDescriptor desc }
{
    byte(desc.op);
    word(desc.size);
}

fn command_fits(command: Command)
    ensures { FitsCommand command }
{
    match command {
        Command::DisableWq(queues)
        | Command::DrainWq(queues)
        | Command::AbortWq(queues)
        | Command::ResetWq(queues) => short(queues.mask),
        _ => {}
    }
}

fn queue_fits(config: QueueConfig)
    ensures { (config.size < 2 ^ 16) × (config.threshold < 2 ^ 16) × (config.priority < 2 ^ 8)
        × (config.pasid < 2 ^ 32) × (config.max_batch_shift < 2 ^ 8)
        × (config.max_xfer_shift < 2 ^ 8) }
{
    short(config.size);
    short(config.threshold);
    byte(config.priority);
    word(config.pasid);
    byte(config.max_batch_shift);
    byte(config.max_xfer_shift);
}

fn group_fits(config: GroupConfig)
    ensures { (config.queues < 2 ^ 64) × (config.engines < 2 ^ 64) × (config.reserved < 2 ^ 16)
        × (config.allowed < 2 ^ 16) }
{
    long(config.queues);
    long(config.engines);
    short(config.reserved);
    short(config.allowed);
}

fn event_fits(event: Event)
    ensures { FitsEvent event }
{
    match event {
        Event::Submit {
            client,
            queue,
            portal: _,
            kind,
            desc,
        } => {
            short(client);
            short(queue);
            kind_fits(kind);
            descriptor_fits(desc)
        }
        Event::Dispatch { engine } | Event::Start { engine } => short(engine),
        Event::Fetch { engine, desc } => {
            short(engine);
            descriptor_fits(desc)
        }
        Event::Finish { engine, ticket, .. } => {
            short(engine);
            word(ticket.name)
        }
        Event::Issue { command } => command_fits(command),
        Event::WriteQueue { queue, config } => {
            short(queue);
            queue_fits(config)
        }
        Event::WriteGroup { group, config } => {
            short(group);
            group_fits(config)
        }
        Event::Poll | Event::ClearError => {}
    }
}

fn reply_fits(reply: Reply)
    ensures { FitsReply reply }
{
    match reply {
        Reply::Submit(SubmitAnswer::Accepted(ticket)) => word(ticket.name),
        Reply::Dispatch(DispatchAnswer::Taken { ticket, queue }) => {
            word(ticket.name);
            short(queue)
        }
        Reply::Fetch(FetchAnswer::Fetched(ticket)) => word(ticket.name),
        Reply::Start(StartAnswer::Started(ticket)) => word(ticket.name),
        Reply::Start(StartAnswer::Abandoned(count)) => word(count),
        Reply::Finish(FinishAnswer::Done(status)) => byte(status),
        Reply::Issue(IssueAnswer::Ended { aborted }) => word(aborted),
        Reply::Clear(ClearAnswer::Cleared(noted)) => short(noted.queue),
        _ => {}
    }
}

fn step_fits(step: &Step)
    ensures { HasWord step.now.event → IsAskable step.now }
{
    event_fits(step.event);
    reply_fits(step.reply);
}

/// Steps whose commands have words are askable: their numbers have the bits of their types.
pub fn steps_fit(steps: &[Step])
    ensures { HaveWords steps.now → AreAskable steps.now }
{
    for step in steps {
        step_fits(step);
    }
}
