//! A program on a shared device, from making its seats to settling them.

ghost use Rattle.std.specs.Prelude.{◌≡◌, ◌+◌, ◌<◌, ◌≤◌, ◌↔◌, ◌⊎◌, true, false, [], IfOk, IfErr, length};
ghost use Rattle.std.specs.Fork.{AcceptsEach, ChangesEach};
ghost use Rattle.dsa_store.specs.Content.{held_count};
ghost use Rattle.dsa_laws.specs.WellFormed.{IsWellFormed};
ghost use Rattle.dsa_device.specs.Running.{IsReplay};
ghost use Rattle.dsa_shared.specs.Totals.{totals_of, Balance};

use dsa_device::Device;
use dsa_shared::{
    AdminSeat, Blanks, ClientSeat, EngineSeat, Seats, SettleFault, Settled, ShareFault,
    SharedDevice, Sharing,
};
use dsa_store::EntryStore;
use std::alloc::Global;
use std::marker::{Brand, Send, Sync};
use std::sync::Wait;
use std::thread;
use std::thread::Threads;

/// What each user of a shared device does. A method is called once for each seat of its kind.
pub trait Program {
    /// The administrator's part, before clients and engines begin.
    fn set_up<S: EntryStore, L: Sharing, R: Wait>(
        &self,
        rt: &R,
        shared: &SharedDevice<S, L>,
        seat: &mut AdminSeat<L>,
    );

    /// A client's part, in a thread of its own.
    fn submit<S: EntryStore, L: Sharing, R: Wait>(
        &self,
        rt: &R,
        shared: &SharedDevice<S, L>,
        seat: &mut ClientSeat<L>,
    );

    /// An engine's part, in a thread of its own.
    fn serve<S: EntryStore, L: Sharing, R: Wait>(
        &self,
        rt: &R,
        shared: &SharedDevice<S, L>,
        seat: &mut EngineSeat<L>,
    );
}

/// Why a program came to no totals.
#[derive(Drop)]
pub enum ProgramFault<S: EntryStore> {
    /// The device was not shared, and comes back as it was.
    NotShared(ShareFault, Device<S>),
    /// Settling was refused. The device is gone with its seats.
    NotSettled(SettleFault),
}

/// Shares a device that has made no step yet among so many clients (1 to 64), its engines and an
/// administrator, runs the program on it, and settles. A client or an engine whose thread the
/// system refuses runs after another one.
pub fn run_program<S: EntryStore + Send, P: Program + Sync, R: Threads + Wait + Sync>(
    rt: &R,
    alloc: Global,
    device: Device<S>,
    clients: u16,
    program: &P,
) -> Result<Settled<S>, ProgramFault<S>>
    ensures totals { IfOk result
        (λ s. s.totals ≡ totals_of s.device.history (held_count s.device.state.work.content)) }
    ensures balance { IfOk result (λ s. Balance s.totals s.device.state.work) }
    ensures caps { IfOk result (λ s. s.device.caps ≡ device.caps) }
    ensures not_anew { IfOk result (λ s. s.device.anew ≡ false) }
    ensures replay { IfOk result (λ s. IsReplay s.device) }
    ensures well_formed { IfOk result (λ s. IsWellFormed s.device.caps s.device.state) }
    ensures bad_clients { (result ≡ Err (ProgramFault.NotShared ShareFault.BadClients device))
        ↔ ((clients ≡ 0) ⊎ (64 < clients)) }
    ensures not_fresh { (result ≡ Err (ProgramFault.NotShared ShareFault.NotFresh device))
        ↔ ((0 < clients) × (clients ≤ 64) × (0 < length device.history)) }
    ensures begun_anew { (result ≡ Err (ProgramFault.NotShared ShareFault.BegunAnew device))
        ↔ ((0 < clients) × (clients ≤ 64) × (device.history ≡ []) × (device.anew ≡ true)) }
    ensures back { (f : _) (d : _) → result ≡ Err (ProgramFault.NotShared f d) → d ≡ device }
{
    run_as::<S, Brand, P, R>(rt, alloc, device, Blanks::new(), clients, program)
}

fn run_as<
    S: EntryStore + Send,
    L: Sharing + Send + Sync,
    P: Program + Sync,
    R: Threads + Wait + Sync,
>(
    rt: &R,
    alloc: Global,
    device: Device<S>,
    blanks: Blanks,
    clients: u16,
    program: &P,
) -> Result<Settled<S>, ProgramFault<S>>
    requires blanks { (blanks ≡ L.name) × (L.parts ≡ 129) }
    requires device { (L.caps ≡ device.caps) × (L.capacity ≡ device.capacity) }
    requires clients { L.clients ≡ clients }
    ensures totals { IfOk result
        (λ s. s.totals ≡ totals_of s.device.history (held_count s.device.state.work.content)) }
    ensures balance { IfOk result (λ s. Balance s.totals s.device.state.work) }
    ensures caps { IfOk result (λ s. s.device.caps ≡ device.caps) }
    ensures not_anew { IfOk result (λ s. s.device.anew ≡ false) }
    ensures replay { IfOk result (λ s. IsReplay s.device) }
    ensures well_formed { IfOk result (λ s. IsWellFormed s.device.caps s.device.state) }
    ensures bad_clients { (result ≡ Err (ProgramFault.NotShared ShareFault.BadClients device))
        ↔ ((clients ≡ 0) ⊎ (64 < clients)) }
    ensures not_fresh { (result ≡ Err (ProgramFault.NotShared ShareFault.NotFresh device))
        ↔ ((0 < clients) × (clients ≤ 64) × (0 < length device.history)) }
    ensures begun_anew { (result ≡ Err (ProgramFault.NotShared ShareFault.BegunAnew device))
        ↔ ((0 < clients) × (clients ≤ 64) × (device.history ≡ []) × (device.anew ≡ true)) }
    ensures back { (f : _) (d : _) → result ≡ Err (ProgramFault.NotShared f d) → d ≡ device }
{
    match SharedDevice::<S, L>::new(alloc, device, blanks, clients) {
        Err((fault, device, _blanks)) => Err(ProgramFault::NotShared(fault, device)),
        Ok((shared, seats)) => {
            let mut seats = seats;
            run_seats(rt, &shared, &mut seats, program);
            match shared.settle(seats) {
                Ok(settled) => Ok(settled),
                Err(refused) => Err(ProgramFault::NotSettled(refused.fault)),
            }
        }
    }
}

fn run_seats<
    S: EntryStore + Send,
    L: Sharing + Send + Sync,
    P: Program + Sync,
    R: Threads + Wait + Sync,
>(rt: &R, shared: &SharedDevice<S, L>, seats: &mut Seats<L>, program: &P) {
    let Seats {
        clients,
        engines,
        admin,
    } = seats;
    if let Some(admin) = admin {
        program.set_up(rt, shared, admin);
    }
    let clients = clients.as_mut_slice();
    let engines = engines.as_mut_slice();
    thread::join(
        rt,
        || in_threads(rt, clients, &|_, seat| program.submit(rt, shared, seat)),
        || in_threads(rt, engines, &|_, seat| program.serve(rt, shared, seat)),
    );
}

// Each seat's part, in a thread of its own.
fn in_threads<T: Send, F: Fn(usize, &mut T) + Sync, R: Threads + Sync>(
    rt: &R,
    seats: &mut [T],
    part: &F,
)
    requires { AcceptsEach F.Fn part.now seats.old }
    ensures { ChangesEach F.Fn part.now seats.old seats.new }
{
    let threads = seats.len();
    if threads > 0 {
        thread::for_each_mut(rt, seats, threads, part);
    }
}
