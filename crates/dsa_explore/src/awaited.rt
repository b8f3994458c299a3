//! The entries that a command waits for.

ghost use Rattle.std.specs.Prelude.{◌≡◌, ◌++◌, IfOk, OnOk};
ghost use Rattle.dsa_store.specs.Content.{all_held};
ghost use Rattle.dsa_explore.specs.Findings.{awaited_among, labels_waited_for};
ghost use Rattle.dsa_explore.specs.Rows.{labels_of};

use crate::rows::label_of;
use dsa_book::{IssueAnswer, Reply};
use dsa_device::Device;
use dsa_explain::entries_of_list;
use dsa_regs::list_count;
use dsa_store::{EntryStore, Walk};
use std::alloc::{AllocError, Global};

// Adds the labels of those of these entries that the active command waits for.
fn add_awaited<S: EntryStore>(
    found: &mut Vec<u32>,
    device: &Device<S>,
    labels: &[u32],
    mut entries: Walk<'_, S>,
) -> Result<(), AllocError>
    ensures { OnOk result
        (found.new.items
        ≡ found.old.items
        ++ awaited_among (labels_of labels.now) device.now.state.active entries.entry) }
{
    while let Some((_, entry)) = entries.next() {
        if device.awaits(&entry) {
            found.push(label_of(labels, entry.name))?;
        }
    }
    Ok(())
}

// The labels of all held entries that the active command waits for.
fn awaited_labels<S: EntryStore>(
    alloc: Global,
    device: &Device<S>,
    labels: &[u32],
) -> Result<Vec<u32>, AllocError>
    ensures { IfOk result
        (λ found. found.items
        ≡ awaited_among (labels_of labels.now) device.now.state.active
        (all_held device.now.state.work.content)) }
{
    device.state_is_replay();
    let caps = device.caps();
    let mut found = Vec::new(alloc);
    for number in 0..list_count(&caps) {
        let entries = entries_of_list(device, caps.list_use(number));
        add_awaited(&mut found, device, labels, entries)?;
    }
    Ok(found)
}

/// The labels of the entries that a command waits for, if the reply tells that one is active from
/// here on.
pub fn labels_waited_for<S: EntryStore>(
    alloc: Global,
    device: &Device<S>,
    labels: &[u32],
    reply: Reply,
) -> Result<Vec<u32>, AllocError>
    ensures { IfOk result
        (λ found. found.items
        ≡ labels_waited_for (labels_of labels.now) device.now.state reply) }
{
    if let Reply::Issue(IssueAnswer::Active) = reply {
        return awaited_labels(alloc, device, labels);
    }
    Ok(Vec::new(alloc))
}
