//! What commands change of the queues.

ghost use Rattle.std.specs.Prelude.{◌≡◌, not};
ghost use Rattle.dsa_regs.specs.Command.{queues_in};
ghost use Rattle.dsa_book.specs.State.{phase_at, is_off};
ghost use Rattle.dsa_book.specs.Commands.{is_among, with_phases, with_sizes_alone};

use crate::Queues;
use dsa_regs::{Phase, QueueConfig, Scope};

impl Queues {
    /// Gives the named queues this phase. A number that no queue has names nothing.
    pub fn set_phases(&mut self, named: &Scope, phase: Phase)
        ensures { self.new
            ≡ record self.old
            { setup = with_phases (is_among (queues_in named.now)) phase self.old.setup } }
    {
        for queue in 0..self.caps().queues {
            if named.contains(queue) {
                self.set_phase(queue, phase);
            }
        }
    }

    /// Gives the queues that are not `Off` this phase.
    pub fn set_live_phases(&mut self, phase: Phase)
        ensures { self.new
            ≡ record self.old {
              setup = with_phases (λ q. not (is_off (phase_at self.old.setup q)))
                  phase self.old.setup;
            } }
    {
        for queue in 0..self.caps().queues {
            if self.phase(queue) != Phase::Off {
                self.set_phase(queue, phase);
            }
        }
    }

    /// Makes the configurations of the named queues zero but for their sizes.
    pub fn keep_sizes(&mut self, named: &Scope)
        ensures { self.new
            ≡ record self.old { setup = with_sizes_alone (queues_in named.now) self.old.setup } }
    {
        for queue in 0..self.caps().queues {
            if named.contains(queue) {
                let size = self.queue(queue).size;
                self.set_queue(
                    queue,
                    QueueConfig {
                        size,
                        ..QueueConfig::default()
                    },
                );
            }
        }
    }
}
