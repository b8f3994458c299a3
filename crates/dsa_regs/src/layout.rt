//! The layout of the lists: which list of the store is for what.

ghost use Rattle.std.specs.Prelude.{◌≡◌, ◌<◌, IsTrue};
ghost use Rattle.dsa_regs.specs.Caps.{HasList, check_caps, engine_of_list, list_count, list_number, list_use};

use crate::Caps;

/// What a list of the device's store is for (profile).
#[derive(Clone, Copy, Debug, PartialEq, Eq)]
pub enum ListUse {
    /// What waits in a queue.
    Queue(u16),
    /// The submitted entries in progress on an engine.
    Progress(u16),
    /// The members of the batch that an engine works on.
    Members(u16),
}

impl ListUse {
    /// The engine whose list it is. `None` where it is a queue's.
    #[inline(always)]
    pub fn engine(self) -> Option<u16>
        ensures { result ≡ engine_of_list self }
    {
        match self {
            ListUse::Queue(_) => None,
            ListUse::Progress(engine) => Some(engine),
            ListUse::Members(engine) => Some(engine),
        }
    }
}

impl Caps {
    /// The number of the list.
    #[inline(always)]
    pub fn list_number(&self, list: ListUse) -> u16
        requires caps { IsTrue (check_caps self.now) }
        requires list { HasList self.now list }
        ensures { result ≡ list_number self.now list }
    {
        match list {
            ListUse::Queue(queue) => queue,
            ListUse::Progress(engine) => self.queues + engine,
            ListUse::Members(engine) => self.queues + self.engines + engine,
        }
    }

    /// What the list of this number is for.
    #[inline(always)]
    pub fn list_use(&self, number: u16) -> ListUse
        requires { number < list_count self.now }
        ensures use_of { result ≡ list_use self.now number }
        ensures list { HasList self.now result }
        ensures number { list_number self.now result ≡ number }
    {
        if number < self.queues {
            return ListUse::Queue(number);
        }
        let place = number - self.queues;
        if place < self.engines {
            return ListUse::Progress(place);
        }
        ListUse::Members(place - self.engines)
    }
}
