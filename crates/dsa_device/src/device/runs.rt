//! A step of any event, and lists of events.

ghost use Rattle.std.specs.Prelude.{◌≡◌, false, Some, OnOk, OnErr};
ghost use Rattle.dsa_device.specs.Running.{after_answer};
ghost use Rattle.dsa_device.specs.Runs.{IsAnswered, IsRunOf};

use super::Device;
use dsa_book::{Event, Reply, Step};
use dsa_store::EntryStore;
use std::alloc::AllocError;

impl<S: EntryStore> Device<S> {
    /// The step of any event. A submission has its descriptor as it was parsed.
    #[inline(always)]
    pub fn step(&mut self, event: Event) -> Reply
        ensures { after_answer self.old event result ≡ Some self.new }
    {
        match event {
            Event::Submit {
                client,
                queue,
                portal,
                kind,
                desc,
            } => Reply::Submit(self.submit_parsed(client, queue, portal, kind, desc)),
            Event::Dispatch { engine } => Reply::Dispatch(self.dispatch(engine)),
            Event::Fetch { engine, desc } => Reply::Fetch(self.fetch(engine, desc)),
            Event::Start { engine } => Reply::Start(self.start(engine)),
            Event::Finish {
                engine,
                ticket,
                outcome,
            } => Reply::Finish(self.finish(engine, ticket, outcome)),
            Event::Issue { command } => Reply::Issue(self.issue(command)),
            Event::Poll => Reply::Poll(self.poll()),
            Event::WriteQueue { queue, config } => Reply::Write(self.write_queue(queue, config)),
            Event::WriteGroup { group, config } => Reply::Write(self.write_group(group, config)),
            Event::ClearError => Reply::Clear(self.clear_error()),
        }
    }

    /// Makes the step of each event in turn, and adds each step with its reply to `steps`. The
    /// vector takes the memory for them first; where that is refused, nothing has changed.
    pub fn run(&mut self, events: &[Event], steps: &mut Vec<Step>) -> Result<(), AllocError>
        ensures ok { OnOk result
            (IsAnswered self.old events.now steps.old.items steps.new.items self.new) }
        ensures run { self.old.anew ≡ false
            → OnOk result
            (IsRunOf self.old events.now steps.old.items steps.new.items self.new) }
        ensures err { OnErr result ((self.new ≡ self.old) × (steps.new.items ≡ steps.old.items)) }
    {
        steps.reserve(events.len())?;
        self.state_is_replay();
        for event in events {
            let reply = self.step(*event);
            steps.push_reserved(Step {
                event: *event,
                reply,
            });
        }
        Ok(())
    }
}
