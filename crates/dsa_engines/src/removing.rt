//! Removal: what an engine gives up for an entry that a command takes out of the lists.

ghost use Rattle.std.specs.Prelude.{◌≡◌, cond, length};
ghost use Rattle.dsa_regs.specs.Caps.{HasList, engine_of_list};
ghost use Rattle.dsa_book.specs.State.{is_batch_of};
ghost use Rattle.dsa_engines.specs.Engines.{MayRelease, notes_without, buffers_after_removal, engines_after_removal};

use crate::Engines;
use dsa_queues::Queues;
use dsa_regs::ListUse;
use dsa_store::Entry;

impl Engines {
    // A well-formed Batch in progress takes the engine's note along.
    fn drop_note(&mut self, queues: &Queues, from: ListUse, entry: &Entry)
        requires notes { length self.old.notes ≡ queues.now.setup.caps.engines }
        requires list { HasList queues.now.setup.caps from }
        ensures { self.new
            ≡ record self.old {
              notes = cond (is_batch_of queues.now.setup entry.now)
                  (notes_without from self.old.notes) self.old.notes;
            } }
    {
        if !queues.is_batch(entry) {
            return;
        }
        match from {
            ListUse::Queue(_) => {}
            ListUse::Progress(engine) => self.set_note(engine, None),
            ListUse::Members(_) => {}
        }
    }

    // What runs gives its read buffers back.
    fn release(&mut self, queues: &Queues, engine: Option<u16>, entry: &Entry)
        requires { MayRelease queues.now.setup self.old engine entry.now }
        ensures { self.new
            ≡ record self.old
            { buffers = buffers_after_removal queues.now.setup self.old engine entry.now } }
    {
        if let Some(engine) = engine {
            self.give_back(self.home(engine), queues.held_by(entry));
        }
    }

    /// Releases what an entry holds that a command removes from this list: the read buffers of one
    /// that runs, and the engine's note of a well-formed Batch in progress (profile).
    pub fn removed(&mut self, queues: &Queues, from: ListUse, entry: &Entry)
        requires notes { length self.old.notes ≡ queues.now.setup.caps.engines }
        requires list { HasList queues.now.setup.caps from }
        requires held { MayRelease queues.now.setup self.old (engine_of_list from) entry.now }
        ensures { self.new ≡ engines_after_removal queues.now.setup from entry.now self.old }
    {
        self.release(queues, from.engine(), entry);
        self.drop_note(queues, from, entry);
    }
}
