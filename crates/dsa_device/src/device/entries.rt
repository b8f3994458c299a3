//! The entries of a device, list by list.

ghost use Rattle.std.specs.Prelude.{◌≡◌, ◌<◌, nat_lt, length};
ghost use Rattle.dsa_regs.specs.Caps.{HasList, list_number};
ghost use Rattle.dsa_base.specs.Rows.{when};
ghost use Rattle.dsa_store.specs.Content.{chain};
ghost use Rattle.dsa_book.specs.Work.{in_progress, members};
ghost use Rattle.dsa_device.specs.Reads.{entry_at};

use super::Device;
use dsa_regs::ListUse;
use dsa_store::{Cell, Entry, EntryStore, ListId, Walk, held_entries};

// The cell and the entry at a place of the list, the front at 0.
fn entry_at<S: EntryStore>(entries: Option<Walk<'_, S>>, place: usize) -> Option<(Cell, Entry)>
    ensures { result ≡ entry_at entries.entry place }
{
    let mut entries = entries?;
    entries.nth(place)
}

impl<S: EntryStore> Device<S> {
    // The list of the store that is for this.
    fn list(&self, list: ListUse) -> ListId
        requires { HasList self.now.caps list }
        ensures number { result.0 ≡ list_number self.now.caps list }
        ensures within { result.0 < length self.now.state.work.content }
        ensures caps { self.now.state.work.setup.caps ≡ self.now.caps }
    {
        self.queues.list(list)
    }

    /// The entries that wait in the queue, the front first. `None` exactly when the device has no
    /// such queue.
    pub fn waiting(&self, queue: u16) -> Option<Walk<'_, S>>
        ensures { result
            ≡ when (nat_lt queue self.now.caps.queues) (chain self.now.state.work.content queue) }
    {
        if queue >= self.caps.queues {
            return None;
        }
        Some(held_entries(&self.store, self.list(ListUse::Queue(queue))))
    }

    /// The submitted entries that the engine has in progress, in the order in which it took them.
    /// `None` exactly when the device has no such engine.
    pub fn in_progress(&self, engine: u16) -> Option<Walk<'_, S>>
        ensures { result
            ≡ when (nat_lt engine self.now.caps.engines) (in_progress self.now.state.work engine) }
    {
        if engine >= self.caps.engines {
            return None;
        }
        Some(held_entries(&self.store, self.list(ListUse::Progress(engine))))
    }

    /// The members of the engine's batch that have not ended, in the order in which it fetched
    /// them. `None` exactly when the device has no such engine.
    pub fn members(&self, engine: u16) -> Option<Walk<'_, S>>
        ensures { result
            ≡ when (nat_lt engine self.now.caps.engines) (members self.now.state.work engine) }
    {
        if engine >= self.caps.engines {
            return None;
        }
        Some(held_entries(&self.store, self.list(ListUse::Members(engine))))
    }

    /// The entry that waits at this place of the queue, the front at 0. `None` exactly where there
    /// is none.
    pub fn waiting_at(&self, queue: u16, place: usize) -> Option<(Cell, Entry)>
        ensures { result
            ≡ entry_at
            (when (nat_lt queue self.now.caps.queues) (chain self.now.state.work.content queue))
            place }
    {
        entry_at(self.waiting(queue), place)
    }

    /// The submitted entry at this place of those that the engine has in progress, the first one
    /// taken at 0. `None` exactly where there is none.
    pub fn in_progress_at(&self, engine: u16, place: usize) -> Option<(Cell, Entry)>
        ensures { result
            ≡ entry_at
            (when (nat_lt engine self.now.caps.engines)
            (in_progress self.now.state.work engine))
            place }
    {
        entry_at(self.in_progress(engine), place)
    }

    /// The member at this place of those of the engine's batch that have not ended, the first one
    /// fetched at 0. `None` exactly where there is none.
    pub fn member_at(&self, engine: u16, place: usize) -> Option<(Cell, Entry)>
        ensures { result
            ≡ entry_at
            (when (nat_lt engine self.now.caps.engines) (members self.now.state.work engine))
            place }
    {
        entry_at(self.members(engine), place)
    }

    /// How many submitted entries the engine has in progress. `None` exactly when the device has no
    /// such engine.
    pub fn in_progress_count(&self, engine: u16) -> Option<u32>
        ensures { result
            ≡ when (nat_lt engine self.now.caps.engines)
            (length (in_progress self.now.state.work engine)) }
    {
        if engine >= self.caps.engines {
            return None;
        }
        Some(self.store.len(self.list(ListUse::Progress(engine))))
    }

    /// How many members of the engine's batch have not ended. `None` exactly when the device has no
    /// such engine.
    pub fn member_count(&self, engine: u16) -> Option<u32>
        ensures { result
            ≡ when (nat_lt engine self.now.caps.engines)
            (length (members self.now.state.work engine)) }
    {
        if engine >= self.caps.engines {
            return None;
        }
        Some(self.store.len(self.list(ListUse::Members(engine))))
    }
}
