//! A shared device over each kind of store.

ghost use Rattle.std.specs.Prelude.{◌≡◌};

use crate::shared::crew::Crew;
use crate::shared::crowd::{CROWD, CROWDED_CAPS};
use crate::shared::playing::Play;
use crate::shared::soak::{SOAKED_CAPACITY, SOAKED_CAPS, SOAKING_CLIENTS};
use crate::shared::stage::Stage;
use dsa_cells::LinkedStore;
use dsa_device::Device;
use dsa_fixtures::CAPS;
use dsa_regs::{Caps, cell_count, check_caps, list_count};
use dsa_shared::{Blanks, SharedDevice, Sharing};
use dsa_store::{EntryStore, PlainStore};
use std::alloc::Global;
use std::marker::{Brand, Send, Sync};
use std::process::Abort;
use std::sync::Wait;
use std::thread::Threads;
use std::time::Clock;

/// What is tried on a shared device that has made no step.
#[derive(Clone, Copy)]
pub enum Trial<'a> {
    Play(Play<'a>),
    PlayEnabled(Play<'a>),
    Crowd(Play<'a>),
    SeatsWithheld,
    FateIsRead,
    BusyRun,
    HistoryFills,
    WorkersMeet,
    IdleAtFirst,
    ActiveAtFirst,
    LongScripts,
    CrewMeets(Crew),
    CrewRuns(Crew),
    NothingIsDone,
    RunWithoutMemory,
    Soak,
}

impl<'a> Trial<'a> {
    // The device's capabilities, how many steps its history has room for, and how many clients it
    // has.
    fn shape(self) -> (Caps, u64, u16) {
        match self {
            Trial::Play(play) | Trial::PlayEnabled(play) => (CAPS, play.capacity, 2),
            Trial::Crowd(play) => (CROWDED_CAPS, play.capacity, CROWD),
            Trial::CrewMeets(crew) | Trial::CrewRuns(crew) => (crew.caps(), 100, crew.clients),
            Trial::BusyRun | Trial::LongScripts => (CAPS, 12_000, 2),
            Trial::HistoryFills => (CAPS, 40, 2),
            Trial::Soak => (SOAKED_CAPS, SOAKED_CAPACITY, SOAKING_CLIENTS),
            _ => (CAPS, 100, 2),
        }
    }
}

impl<'a, S, L, R> Stage<'a, S, L, R>
where
    S: EntryStore + Send,
    L: Sharing + Send + Sync,
    R: Threads + Wait + Clock + Abort + Sync,
{
    fn try_on(self, trial: Trial) {
        match trial {
            Trial::Play(play) | Trial::Crowd(play) => self.played(play),
            Trial::PlayEnabled(play) => self.played_enabled(play),
            Trial::SeatsWithheld => self.seats_withheld(),
            Trial::FateIsRead => self.fate_is_read(),
            Trial::BusyRun => self.busy_run(),
            Trial::HistoryFills => self.history_fills(),
            Trial::WorkersMeet => self.workers_meet(),
            Trial::IdleAtFirst => self.engines_are_idle_at_first(),
            Trial::ActiveAtFirst => self.command_is_active_at_first(),
            Trial::LongScripts => self.scripts_are_long(),
            Trial::CrewMeets(crew) => self.crew_meets(crew),
            Trial::CrewRuns(crew) => self.crew_runs(crew),
            Trial::NothingIsDone => self.nothing_is_done(),
            Trial::RunWithoutMemory => self.run_without_memory(),
            Trial::Soak => self.soaked(),
        }
    }
}

/// Makes the trial over a store of vectors and over one of linked cells.
pub fn over_both_stores<R>(rt: &R, alloc: Global, trial: Trial)
where
    R: Threads + Wait + Clock + Abort + Sync,
{
    let (caps, _, _) = trial.shape();
    let (lists, cells) = counts(rt, &caps);
    let plain = PlainStore::new(alloc, lists, cells).expect(rt, "memory for a store");
    over_store(rt, alloc, trial, plain);
    let linked = LinkedStore::new(alloc, lists, cells).expect(rt, "memory for a store");
    over_store(rt, alloc, trial, linked);
}

// How many lists and cells the device asks of a store.
fn counts(rt: &impl Abort, caps: &Caps) -> (u16, u32) {
    assert!(rt; check_caps(caps));
    (list_count(caps), cell_count(caps))
}

fn device_of<S: EntryStore>(rt: &impl Abort, alloc: Global, trial: Trial, store: S) -> Device<S> {
    let (caps, capacity, _) = trial.shape();
    match Device::new(alloc, store, caps, capacity) {
        Ok(device) => device,
        Err(_) => panic!(rt; "the device was not made"),
    }
}

fn over_store<S, R>(rt: &R, alloc: Global, trial: Trial, store: S)
where
    S: EntryStore + Send,
    R: Threads + Wait + Clock + Abort + Sync,
{
    let (_, _, clients) = trial.shape();
    let device = device_of(rt, alloc, trial, store);
    over_device::<S, Brand, R>(rt, alloc, trial, device, Blanks::new(), clients);
}

fn over_device<S, L, R>(
    rt: &R,
    alloc: Global,
    trial: Trial,
    device: Device<S>,
    blanks: Blanks,
    clients: u16,
)
where
    S: EntryStore + Send,
    L: Sharing + Send + Sync,
    R: Threads + Wait + Clock + Abort + Sync,
    requires blanks { (blanks ≡ L.name) × (L.parts ≡ 129) }
    requires device { (L.caps ≡ device.caps) × (L.capacity ≡ device.capacity) }
    requires clients { L.clients ≡ clients }
{
    match SharedDevice::<S, L>::new(alloc, device, blanks, clients) {
        Ok((shared, seats)) => Stage::new(rt, alloc, shared, seats).try_on(trial),
        Err(_) => panic!(rt; "the device was not shared"),
    }
}
