//! Facts, as they are read of a device and of where its parties stand.

ghost use Rattle.std.specs.Prelude.{◌≡◌, false, get_or};
ghost use Rattle.std.specs.List.{list_any};
ghost use Rattle.dsa_store.specs.Content.{HeldEntry, all_held};
ghost use Rattle.dsa_keys.specs.Key.{key, labelled_entry};
ghost use Rattle.dsa_parties.specs.Standing.{stand_of};
ghost use Rattle.dsa_formulas.specs.Facts.{is_found_so, is_in_phase, is_so};
ghost use Rattle.dsa_formulas.specs.declared.formula.Fact.TheVariants as fact;
ghost use Rattle.dsa_parties.specs.declared.{places.Places.{Places}, script.Script.{Script}};

use crate::formula::{Being, Fact};
use dsa_device::Device;
use dsa_explain::entries_of_list;
use dsa_parties::{Places, Script};
use dsa_regs::{Phase, list_count};
use dsa_store::{Entry, EntryStore, Walk};

// Whether the device or a queue is in this phase.
fn is_in_phase(wanted: Phase, phase: Phase) -> bool
    ensures { result ≡ is_in_phase wanted phase }
{
    match wanted {
        Phase::Off => matches!(phase, Phase::Off),
        Phase::On => matches!(phase, Phase::On),
        Phase::Stopping => matches!(phase, Phase::Stopping),
    }
}

// The label of a name; 0 for a name without one.
fn label_of(labels: &[u32], name: u32) -> u32
    ensures { result ≡ get_or labels.now name 0 }
{
    labels.get(name as usize).copied().unwrap_or(0)
}

// Whether the entry has the label, and is held so.
fn is_found_so(labels: &[u32], label: u32, being: Being, entry: &Entry) -> bool
    ensures { (pair : HeldEntry)
        → pair.1 ≡ entry.now
        → result
        ≡ is_found_so label being (labelled_entry (λ name. get_or labels.now name 0) pair) }
{
    let is_being = match being {
        Being::Held => true,
        Being::Waiting => !entry.running && entry.parent.is_none(),
    };
    label_of(labels, entry.name) == label && is_being
}

// Whether one of these entries has the label, and is held so.
fn has_found<S: EntryStore>(
    labels: &[u32],
    label: u32,
    being: Being,
    mut entries: Walk<'_, S>,
) -> bool
    ensures { result
        ≡ list_any
        (λ (pair : HeldEntry).
        is_found_so label being (labelled_entry (λ name. get_or labels.now name 0) pair))
        entries.entry }
{
    while let Some((_, entry)) = entries.next() {
        if is_found_so(labels, label, being, &entry) {
            return true;
        }
    }
    false
}

// Whether a held entry has the label, and is held so.
fn holds_found<S: EntryStore>(device: &Device<S>, labels: &[u32], label: u32, being: Being) -> bool
    ensures { result
        ≡ list_any
        (λ (pair : HeldEntry).
        is_found_so label being (labelled_entry (λ name. get_or labels.now name 0) pair))
        (all_held device.now.state.work.content) }
{
    device.state_is_replay();
    let caps = device.caps();
    for number in 0..list_count(&caps) {
        let entries = entries_of_list(device, caps.list_use(number));
        if has_found(labels, label, being, entries) {
            return true;
        }
    }
    false
}

// Whether the device has the queue, and that is in this phase.
fn is_queue_in<S: EntryStore>(device: &Device<S>, labels: &[u32], queue: u16, phase: Phase) -> bool
    ensures { (script : Script) (places : Places) → result
        ≡ is_so script (stand_of places)
        (key (λ name. get_or labels.now name 0) device.now.state) (fact.Queue queue phase) }
{
    device.state_is_replay();
    match device.queue_phase(queue) {
        Some(now) => is_in_phase(phase, now),
        None => false,
    }
}

// Whether the device has the queue, in which so many entries wait, or more.
fn is_filled<S: EntryStore>(device: &Device<S>, labels: &[u32], queue: u16, least: u16) -> bool
    ensures { (script : Script) (places : Places) → result
        ≡ is_so script (stand_of places)
        (key (λ name. get_or labels.now name 0) device.now.state) (fact.Filled queue least) }
{
    device.state_is_replay();
    match device.occupancy(queue) {
        Some(count) => least <= count,
        None => false,
    }
}

// Whether this has come.
fn has_come(came: &[bool], watch: usize) -> bool
    ensures { result ≡ get_or came.now watch false }
{
    came.get(watch).copied().unwrap_or(false)
}

/// Whether the fact is so where the parties stand, on a device whose names have these labels.
pub fn is_so<S: EntryStore>(
    script: &Script,
    places: &Places,
    labels: &[u32],
    device: &Device<S>,
    fact: Fact,
) -> bool
    ensures { result
        ≡ is_so script.now (stand_of places.now)
        (key (λ name. get_or labels.now name 0) device.now.state) fact }
{
    match fact {
        Fact::Came { watch } => has_come(places.came.as_slice(), watch),
        Fact::Entry { label, being } => holds_found(device, labels, label, being),
        Fact::Queue { queue, phase } => is_queue_in(device, labels, queue, phase),
        Fact::Filled { queue, least } => is_filled(device, labels, queue, least),
        Fact::Device { phase } => is_in_phase(phase, device.phase()),
        Fact::Client { client } => script.turn(places, client).is_none(),
        Fact::Administrator { administrator } => script.next_act(places, administrator).is_none(),
    }
}
