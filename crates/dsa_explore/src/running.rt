//! The entries that run on an engine.

ghost use Rattle.std.specs.Prelude.{◌≡◌, ◌++◌, filter, IfOk, OnOk};
ghost use Rattle.dsa_book.specs.Work.{running_on};

use dsa_device::Device;
use dsa_store::{Cell, Entry, EntryStore, Walk};
use std::alloc::{AllocError, Global};

// Adds those of these entries that run.
fn add_running<S: EntryStore>(
    found: &mut Vec<(Cell, Entry)>,
    mut entries: Walk<'_, S>,
) -> Result<(), AllocError>
    ensures { OnOk result
        (found.new.items ≡ found.old.items ++ filter (λ pair. pair.1.running) entries.entry) }
{
    while let Some((cell, entry)) = entries.next() {
        if entry.running {
            found.push((cell, entry))?;
        }
    }
    Ok(())
}

/// The entries that run on the engine, with their cells.
pub fn running_on<S: EntryStore>(
    alloc: Global,
    device: &Device<S>,
    engine: u16,
) -> Result<Vec<(Cell, Entry)>, AllocError>
    ensures { IfOk result (λ found. found.items ≡ running_on device.now.state.work engine) }
{
    device.state_is_replay();
    let mut found = Vec::new(alloc);
    let Some(submitted) = device.in_progress(engine) else {
        return Ok(found);
    };
    add_running(&mut found, submitted)?;
    let Some(fetched) = device.members(engine) else {
        return Ok(found);
    };
    add_running(&mut found, fetched)?;
    Ok(found)
}
