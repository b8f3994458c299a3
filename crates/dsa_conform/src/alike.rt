//! Devices that answer alike from now on.

ghost use Rattle.std.specs.Prelude.{◌≡◌, ◌≢◌, ◌<◌, true, false, ℕ, List, Some, length};
ghost use Rattle.dsa_regs.specs.Config.{group_at};
ghost use Rattle.dsa_store.specs.Content.{HeldEntry, chain};
ghost use Rattle.dsa_book.specs.State.{phase_at};
ghost use Rattle.dsa_book.specs.Work.{in_progress, members, note_at};
ghost use Rattle.dsa_conform.specs.Ways.{AreDevicesAlike, IsQueueAlike, IsEngineAlike, entries_only};

use dsa_device::Device;
use dsa_store::{EntryStore, Walk};

// Whether both have the same entries in the same order, whatever their cells.
fn same_walks<S: EntryStore>(mut first: Walk<'_, S>, mut second: Walk<'_, S>) -> bool
    ensures same { result ≡ true → entries_only first.entry ≡ entries_only second.entry }
    ensures other { result ≡ false → entries_only first.entry ≢ entries_only second.entry }
{
    while let Some((_, entry)) = first.next() {
        let Some((_, other)) = second.next() else {
            return false;
        };
        if entry != other {
            return false;
        }
    }
    second.next().is_none()
}

fn same_entries<S: EntryStore>(first: Option<Walk<'_, S>>, second: Option<Walk<'_, S>>) -> bool
    ensures same { result ≡ true → (xs ys : List HeldEntry)
        → first.entry ≡ Some xs
        → second.entry ≡ Some ys
        → entries_only xs ≡ entries_only ys }
    ensures other { result ≡ false → (xs ys : List HeldEntry)
        → first.entry ≡ Some xs
        → second.entry ≡ Some ys
        → entries_only xs ≢ entries_only ys }
{
    match (first, second) {
        (Some(first), Some(second)) => same_walks(first, second),
        _ => false,
    }
}

// Whether the queue is configured alike and in the same phase, and has the same entries waiting.
fn same_queue<S: EntryStore>(first: &Device<S>, second: &Device<S>, queue: u16) -> bool
    requires { queue < first.now.caps.queues }
    ensures same { result ≡ true → IsQueueAlike first.now.state.work second.now.state.work queue }
    ensures other { result ≡ false → first.now.caps ≡ second.now.caps
        → ¬ IsQueueAlike first.now.state.work second.now.state.work queue }
{
    if first.queue_config(queue) != second.queue_config(queue) {
        return false;
    }
    if first.queue_phase(queue) != second.queue_phase(queue) {
        return false;
    }
    same_entries(first.waiting(queue), second.waiting(queue))
}

// Whether the engine has the same entries in progress, and the same members.
fn same_lists<S: EntryStore>(first: &Device<S>, second: &Device<S>, engine: u16) -> bool
    requires first { engine < first.now.caps.engines }
    requires second { engine < second.now.caps.engines }
    ensures same { result ≡ true
        → (entries_only (in_progress first.now.state.work engine)
        ≡ entries_only (in_progress second.now.state.work engine))
        × (entries_only (members first.now.state.work engine)
        ≡ entries_only (members second.now.state.work engine)) }
    ensures other { result ≡ false
        → entries_only (in_progress first.now.state.work engine)
        ≡ entries_only (in_progress second.now.state.work engine)
        → entries_only (members first.now.state.work engine)
        ≢ entries_only (members second.now.state.work engine) }
{
    if !same_entries(first.in_progress(engine), second.in_progress(engine)) {
        return false;
    }
    same_entries(first.members(engine), second.members(engine))
}

// Whether the engine has the same note, and the same entries.
fn same_engine<S: EntryStore>(first: &Device<S>, second: &Device<S>, engine: u16) -> bool
    requires first { engine < first.now.caps.engines }
    requires second { engine < second.now.caps.engines }
    ensures same { result ≡ true → IsEngineAlike first.now.state.work second.now.state.work engine }
    ensures other { result ≡ false
        → ¬ IsEngineAlike first.now.state.work second.now.state.work engine }
{
    if first.batch(engine) != second.batch(engine) {
        return false;
    }
    same_lists(first, second, engine)
}

fn same_queues<S: EntryStore>(first: &Device<S>, second: &Device<S>) -> bool
    ensures same { result ≡ true → (queue : ℕ) → queue < first.now.caps.queues
        → IsQueueAlike first.now.state.work second.now.state.work queue }
    ensures other { result ≡ false → first.now.caps ≡ second.now.caps
        → ¬ ((queue : ℕ) → queue < first.now.caps.queues
        → IsQueueAlike first.now.state.work second.now.state.work queue) }
{
    for queue in 0..first.caps().queues {
        if !same_queue(first, second, queue) {
            return false;
        }
    }
    true
}

fn same_engines<S: EntryStore>(first: &Device<S>, second: &Device<S>) -> bool
    requires { first.now.caps ≡ second.now.caps }
    ensures same { result ≡ true → (engine : ℕ) → engine < first.now.caps.engines
        → IsEngineAlike first.now.state.work second.now.state.work engine }
    ensures other { result ≡ false → ¬ ((engine : ℕ) → engine < first.now.caps.engines
        → IsEngineAlike first.now.state.work second.now.state.work engine) }
{
    for engine in 0..first.caps().engines {
        if !same_engine(first, second, engine) {
            return false;
        }
    }
    true
}

fn same_groups<S: EntryStore>(first: &Device<S>, second: &Device<S>) -> bool
    ensures same { result ≡ true → (group : ℕ) → group < first.now.caps.groups
        → group_at first.now.state.work.setup.groups group
        ≡ group_at second.now.state.work.setup.groups group }
    ensures other { result ≡ false → first.now.caps ≡ second.now.caps
        → ¬ ((group : ℕ) → group < first.now.caps.groups
        → group_at first.now.state.work.setup.groups group
        ≡ group_at second.now.state.work.setup.groups group) }
{
    for group in 0..first.caps().groups {
        if first.group_config(group) != second.group_config(group) {
            return false;
        }
    }
    true
}

// Whether the devices have the same phase, next name and noted error.
fn same_setups<S: EntryStore>(first: &Device<S>, second: &Device<S>) -> bool
    ensures same { result ≡ true
        → (first.now.state.work.setup.device ≡ second.now.state.work.setup.device)
        × (first.now.state.work.setup.next_name ≡ second.now.state.work.setup.next_name)
        × (first.now.state.work.setup.noted ≡ second.now.state.work.setup.noted) }
    ensures other { result ≡ false
        → first.now.state.work.setup.device ≡ second.now.state.work.setup.device
        → first.now.state.work.setup.next_name ≡ second.now.state.work.setup.next_name
        → first.now.state.work.setup.noted ≢ second.now.state.work.setup.noted }
{
    if first.phase() != second.phase() {
        return false;
    }
    if first.next_name() != second.next_name() {
        return false;
    }
    first.noted() == second.noted()
}

// Whether the devices have the same parts.
fn same_caps<S: EntryStore>(first: &Device<S>, second: &Device<S>) -> bool
    ensures same { result ≡ true → first.now.caps ≡ second.now.caps }
    ensures other { result ≡ false → first.now.caps ≢ second.now.caps }
{
    first.caps() == second.caps()
}

// Whether their histories are as long, and have room for as many steps.
fn same_histories<S: EntryStore>(first: &Device<S>, second: &Device<S>) -> bool
    ensures same { result ≡ true
        → (first.now.capacity ≡ second.now.capacity)
        × (length first.now.history ≡ length second.now.history) }
    ensures other { result ≡ false
        → first.now.capacity ≡ second.now.capacity
        → length first.now.history ≢ length second.now.history }
{
    first.capacity() == second.capacity() && first.history().len() == second.history().len()
}

// Whether the same command is active in both, or none in either.
fn same_commands<S: EntryStore>(first: &Device<S>, second: &Device<S>) -> bool
    ensures same { result ≡ true → first.now.state.active ≡ second.now.state.active }
    ensures other { result ≡ false → first.now.state.active ≢ second.now.state.active }
{
    first.active_command() == second.active_command()
}

/// Whether the devices differ in the cells of their entries and in fates alone, so that they answer
/// alike from now on.
pub fn is_alike<S: EntryStore>(first: &Device<S>, second: &Device<S>) -> bool
    ensures alike { result ≡ true → AreDevicesAlike first.now second.now }
    ensures other { result ≡ false → ¬ AreDevicesAlike first.now second.now }
{
    first.state_is_replay();
    second.state_is_replay();
    if !same_caps(first, second) {
        return false;
    }
    if !same_setups(first, second) {
        return false;
    }
    if !same_histories(first, second) {
        return false;
    }
    if !same_commands(first, second) {
        return false;
    }
    if !same_groups(first, second) {
        return false;
    }
    if !same_queues(first, second) {
        return false;
    }
    same_engines(first, second)
}
