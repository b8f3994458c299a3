//! The threads mode: clients, engines and an administrator in threads of their own, on one shared
//! device.

ghost use Rattle.std.specs.Prelude.{◌≡◌, ◌≢◌, ◌≤◌, ◌<◌, ◌+◌, ◌*◌, ◌^◌, ◌++◌, ◌↔◌, true, false, ℕ};
ghost use Rattle.std.specs.Prelude.{All, IfOk, OnOk, IfErr, IsErrOf, vec_len, length, take};
ghost use Rattle.std.specs.Prelude.{replicate, [], Some};
ghost use Rattle.std.specs.Io.KnownBytes.{Appends};
ghost use Rattle.dsa_shared.specs.declared.settle.Totals.{Totals};
ghost use Rattle.dsa_book.specs.Totals.{actor_of};
ghost use Rattle.dsa_shared.specs.Seat.{AllFresh};
ghost use Rattle.dsa_device.specs.Running.{running_at_first};
ghost use Rattle.dsa_scenario.specs.Watched.{watched_contents, has_refused, IsSameWriter};
ghost use Rattle.dsa_cli.specs.Threads.{IsInRange, AreTotalsOf, AreScriptsOf, HaveWorked};
ghost use Rattle.dsa_cli.specs.Threads.{IsClientScript, Submits, caps_for, capacity_for};
ghost use Rattle.dsa_cli.specs.Threads.{queue_config, group_config, setup_steps, engine_script};
ghost use Rattle.dsa_cli.specs.Threads.{totals_text};

use crate::options::Workload;
use crate::pace::Pace;
use crate::totals::render_totals;
use dsa_book::{Actor, IssueAnswer, Kind, Portal, Step, WriteAnswer};
use dsa_cells::LinkedStore;
use dsa_desc::{Descriptor, Outcome};
use dsa_device::Device;
use dsa_regs::{Caps, Command, GroupConfig, QueueConfig, cell_count, list_count};
use dsa_scenario::{WatchedWriter, write_text};
use dsa_shared::{AdminSeat, Blanks, Seats, ShareFault, SharedDevice, Sharing, Totals};
use dsa_store::EntryStore;
use dsa_workers::{ClientStep, EngineScript, RunFault, Scripts, WorkerEnd, run_threads};
use std::alloc::{AllocError, Global};
use std::fmt;
use std::fmt::Display;
use std::io::Write;
use std::marker::{Brand, Send, Sync};
use std::sync::Wait;
use std::thread::Threads;
use thiserror::Error;

/// Why the threads mode did not write its totals, or not all of them.
#[derive(Clone, Copy, Debug, PartialEq, Eq, Error)]
pub enum ThreadsFault {
    /// Settling refused the seats, or they are not those of a whole run: the device was not set up
    /// first, a worker found the history full, or nothing was accepted.
    SettleRefused,
    /// The writer answered an error, or took no byte.
    Write,
    /// Memory was refused.
    OutOfMemory,
}

impl Display for ThreadsFault {
    ghost use Rattle.std.specs.Prelude.{Some};
    ghost use Rattle.dsa_cli.specs.Threads.{threads_fault_text};

    ghost output = { λ fault. Some (threads_fault_text fault) };

    fn fmt<W: fmt::Write>(&self, f: &mut fmt::Formatter<W>) -> fmt::Result {
        match self {
            Self::SettleRefused => f.write_str("settle refused"),
            Self::Write => f.write_str("write failed"),
            Self::OutOfMemory => f.write_str("out of memory"),
        }
    }
}

impl From<AllocError> for ThreadsFault {
    ghost use Rattle.std.specs.Prelude.{◌≡◌};
    ghost use Rattle.dsa_cli.specs.declared.threads.ThreadsFault.TheVariants.{OutOfMemory};

    ghost from_gives = { λ _ e. e ≡ OutOfMemory };

    fn from(_refused: AllocError) -> ThreadsFault {
        ThreadsFault::OutOfMemory
    }
}

/// The steps that set the device up.
const SETUP_STEPS: u64 = 4;

const NO_OP: Descriptor = Descriptor {
    pasid: 0,
    flags: 0,
    op: 0,
    size: 0,
};

const ENGINE: EngineScript = EngineScript {
    member: NO_OP,
    outcome: Outcome::Success,
};

fn caps_for(load: &Workload) -> Caps
    ensures { result ≡ caps_for load.now }
{
    Caps {
        queues: 1,
        groups: 1,
        engines: load.engines,
        total_size: load.size,
        read_buffers: load.buffers,
        slots: load.slots,
        max_batch_shift: 3,
        max_xfer_shift: 20,
    }
}

fn queue_for(load: &Workload) -> QueueConfig
    ensures { result ≡ queue_config load.now }
{
    QueueConfig {
        size: load.size,
        threshold: load.threshold,
        dedicated: false,
        priority: 1,
        pasid: 0,
        max_batch_shift: 3,
        max_xfer_shift: 20,
    }
}

// All engines are in the group, and the read buffers are theirs.
fn group_for(load: &Workload) -> GroupConfig
    requires { load.now.engines ≤ 8 }
    ensures { result ≡ group_config load.now }
{
    GroupConfig {
        queues: 1,
        engines: (1u64 << load.engines) - 1,
        reserved: 0,
        allowed: load.buffers,
    }
}

// The clients, the engines and the administrator.
fn workers_of(load: &Workload) -> u32
    ensures { result ≡ load.now.clients + load.now.engines + 1 }
{
    u32::from(load.clients) + u32::from(load.engines) + 1
}

// Room for a step at each turn of each worker.
fn capacity_for(load: &Workload) -> u64
    requires { IsInRange load.now }
    ensures number { result ≡ capacity_for load.now }
    ensures bound { result ≤ 2 ^ 20 }
{
    u64::from(workers_of(load)) * u64::from(load.turns) + SETUP_STEPS
}

// A Move of 4096 bytes by ENQCMD, on the limited portal.
fn one_move(pasid: u32) -> ClientStep
    ensures { Submits pasid result }
{
    let mut bytes = [0u8; 64];
    bytes[7] = 0x03;
    bytes[33] = 0x10;
    ClientStep {
        queue: 0,
        portal: Portal::Limited,
        kind: Kind::Enqcmd { pasid },
        bytes,
    }
}

fn client_script(alloc: Global, pasid: u32, each: u32) -> Result<Vec<ClientStep>, AllocError>
    ensures { IfOk result (IsClientScript pasid each) }
{
    vec![in alloc; one_move(pasid); each as usize]
}

// The administrator has nothing to do.
fn scripts_for(alloc: Global, load: &Workload) -> Result<Scripts, AllocError>
    requires { IsInRange load.now }
    ensures { IfOk result (AreScriptsOf load.now) }
{
    let mut clients = Vec::new(alloc);
    for client in 0..load.clients {
        clients.push(client_script(alloc, u32::from(client) + 1, load.each)?)?;
    }
    Ok(Scripts {
        clients,
        engines: vec![in alloc; ENGINE; load.engines as usize]?,
        admin: Vec::new(alloc),
    })
}

// Whether each step that sets the device up was done.
fn all_done(first: WriteAnswer, second: WriteAnswer, third: IssueAnswer, last: IssueAnswer) -> bool
    ensures { (result ≡ true) ↔ ((first ≡ WriteAnswer.Written)
        × (second ≡ WriteAnswer.Written)
        × (third ≡ IssueAnswer.Ended 0)
        × (last ≡ IssueAnswer.Ended 0)) }
{
    matches!(first, WriteAnswer::Written)
        && matches!(second, WriteAnswer::Written)
        && matches!(third, IssueAnswer::Ended { aborted: 0 })
        && matches!(last, IssueAnswer::Ended { aborted: 0 })
}

// Sets the device up, and says whether each step was done.
fn set_up<S: EntryStore, L: Sharing, R: Wait>(
    rt: &R,
    shared: &SharedDevice<S, L>,
    load: &Workload,
    admin: &mut AdminSeat<L>,
) -> bool
    requires { load.now.engines ≤ 8 }
    ensures done { result ≡ true → admin.new ≡ admin.old ++ setup_steps load.now }
    ensures not_done { result ≡ false → admin.new ≢ admin.old ++ setup_steps load.now }
{
    let first = shared.write_queue(rt, admin, 0, queue_for(load));
    let second = shared.write_group(rt, admin, 0, group_for(load));
    let third = shared.issue(rt, admin, Command::EnableDevice);
    let last = shared.issue(rt, admin, Command::EnableWq(0));
    all_done(first, second, third, last)
}

// Whether no worker found the history full.
fn none_full(ended: &[WorkerEnd]) -> bool
    ensures { (result ≡ true) ↔ All (λ end. end ≢ WorkerEnd.HistoryFull) ended.now }
{
    ended
        .iter()
        .all(|end| !matches!(end, WorkerEnd::HistoryFull))
}

// Whether the first four steps are the administrator's.
fn admin_was_first(history: &[Step]) -> bool
    ensures { result ≡ true
        → All (λ step. actor_of step.event ≡ Actor.Admin) (take 4 history.now) }
{
    if history.len() < 4 {
        return false;
    }
    history[..4]
        .iter()
        .all(|step| matches!(step.event.actor(), Actor::Admin))
}

// Sets the device up, and runs the workers over their seats.
fn run_seats<S: EntryStore + Send, L: Sharing + Send + Sync, R: Threads + Wait + Sync>(
    rt: &R,
    alloc: Global,
    shared: &SharedDevice<S, L>,
    seats: &mut Seats<L>,
    load: &Workload,
) -> Result<(), ThreadsFault>
    requires load { IsInRange load.now }
    requires clients { AllFresh load.now.clients seats.old.clients.items }
    requires engines { AllFresh load.now.engines seats.old.engines.items }
    requires admin { seats.old.admin ≡ Some [] }
    ensures ok { OnOk result
        (HaveWorked L.caps L.capacity load.now seats.new.clients.items seats.new.engines.items
        seats.new.admin) }
    ensures fault { IfErr result (λ e. e ≢ ThreadsFault.Write) }
{
    let scripts = scripts_for(alloc, load)?;
    let pace = Pace::new(rt, load.clients, workers_of(load));
    match seats.admin.as_mut() {
        Some(admin) => {
            if !set_up(rt, shared, load, admin) {
                return Err(ThreadsFault::SettleRefused);
            }
        }
        None => unreachable!(),
    }
    match run_threads(rt, alloc, shared, seats, &scripts, &pace, load.turns) {
        Ok(report) => {
            if none_full(&report.ended) {
                return Ok(());
            }
            Err(ThreadsFault::SettleRefused)
        }
        Err(RunFault::OutOfMemory) => Err(ThreadsFault::OutOfMemory),
        Err(RunFault::ScriptCount) => unreachable!(),
    }
}

// Shares the device, runs the workers and settles.
fn run_shared<S: EntryStore + Send, L: Sharing + Send + Sync, R: Threads + Wait + Sync>(
    rt: &R,
    alloc: Global,
    device: Device<S>,
    blanks: Blanks,
    load: &Workload,
) -> Result<Totals, ThreadsFault>
    requires load { IsInRange load.now }
    requires device { device
        ≡ running_at_first (caps_for load.now) (capacity_for load.now) }
    requires blanks { (blanks ≡ L.name) × (L.parts ≡ 129) }
    requires sharing { (L.caps ≡ device.caps)
        × (L.capacity ≡ device.capacity)
        × (L.clients ≡ load.now.clients) }
    ensures ok { IfOk result (AreTotalsOf load.now) }
    ensures fault { IfErr result (λ e. e ≢ ThreadsFault.Write) }
{
    let made = SharedDevice::<S, L>::new(alloc, device, blanks, load.clients);
    let (shared, mut seats) = match made {
        Ok(made) => made,
        Err((ShareFault::OutOfMemory, _, _)) => return Err(ThreadsFault::OutOfMemory),
        Err(_) => unreachable!(),
    };
    run_seats(rt, alloc, &shared, &mut seats, load)?;
    match shared.settle(seats) {
        Ok(settled) => {
            if settled.totals.accepted > 0 && admin_was_first(settled.device.history()) {
                return Ok(settled.totals);
            }
            Err(ThreadsFault::SettleRefused)
        }
        Err(_) => Err(ThreadsFault::SettleRefused),
    }
}

/// Runs the workers in threads on a new device, settles, and writes their totals.
///
/// Nothing is written before the seats are settled. On `Write` the writer has got a proper prefix
/// of the lines.
pub fn run_workload<R: Threads + Wait + Sync, W: Write>(
    rt: &R,
    alloc: Global,
    load: &Workload,
    writer: &mut WatchedWriter<'_, W>,
) -> Result<(), ThreadsFault>
    requires { IsInRange load.now }
    ensures same_writer { IsSameWriter writer.old writer.new }
    ensures ok { OnOk result
        ((totals : Totals)
        × AreTotalsOf load.now totals
        × Appends (watched_contents W.contents writer.old)
        (watched_contents W.contents writer.new) (totals_text totals)) }
    ensures nothing { IfErr result (λ e. e ≢ ThreadsFault.Write → writer.new ≡ writer.old) }
    ensures refused { IsErrOf result ThreadsFault.Write → has_refused writer.new ≡ true }
    ensures prefix { IsErrOf result ThreadsFault.Write
        → (totals : Totals)
        × (count : ℕ)
        × AreTotalsOf load.now totals
        × (count < length (totals_text totals))
        × Appends (watched_contents W.contents writer.old)
        (watched_contents W.contents writer.new) (take count (totals_text totals)) }
{
    let caps = caps_for(load);
    let store = LinkedStore::new(alloc, list_count(&caps), cell_count(&caps))?;
    let Ok(device) = Device::new(alloc, store, caps, capacity_for(load)) else {
        return Err(ThreadsFault::OutOfMemory);
    };
    let totals = run_shared::<LinkedStore, Brand, R>(rt, alloc, device, Blanks::new(), load)?;
    let text = render_totals(alloc, &totals)?;
    match write_text(writer, text.as_bytes()) {
        Ok(()) => Ok(()),
        Err(_) => Err(ThreadsFault::Write),
    }
}
