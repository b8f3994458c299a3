//! Running all workers over the seats that are lent.

ghost use Rattle.std.specs.Prelude.{◌≡◌, ◌≤◌, ◌<◌, ◌+◌, ◌^◌, ◌↔◌, All, IsSome, OnOk, OnErr, IfOk, length, vec_len, vec_capacity};
ghost use Rattle.dsa_workers.specs.Calls.{HasRoomForTickets};
ghost use Rattle.dsa_workers.specs.Workers.{ReportsClients, ReportsEngines, RunsAdmin, IsFitting, stint_at, receipts_in};

use crate::lanes::{Lane, Spare, idle, unload};
use crate::run::Rest;
use crate::scripts::{Gate, Run, RunFault, RunReport, Scripts};
use crate::tickets::Tickets;
use dsa_shared::{AdminSeat, ClientSeat, EngineSeat, Seats, SharedDevice, Sharing};
use dsa_store::EntryStore;
use std::alloc::{AllocError, Allocator};
use std::marker::{Send, Sync};
use std::sync::Wait;
use std::thread::Threads;

// The memory that a run takes.
#[derive(Drop)]
struct Rooms<L: Sharing, A: Allocator> {
    clients: Spare<ClientSeat<L>, A>,
    engines: Spare<EngineSeat<L>, A>,
    admin: Tickets<A>,
    report: RunReport<A>,
}

impl<S: EntryStore + Send, L: Sharing + Send + Sync, G: Gate + Sync> Run<'_, S, L, G> {
    // Puts the seats into lanes, runs all workers, and puts the seats back.
    fn run_loaded<A: Allocator + Send, R: Threads + Wait + Sync>(
        &self,
        rt: &R,
        scripts: &Scripts,
        rooms: Rooms<L, A>,
        clients: &mut Vec<ClientSeat<L>>,
        engines: &mut Vec<EngineSeat<L>>,
        admin: AdminSeat<L>,
    ) -> (AdminSeat<L>, RunReport<A>)
        requires scripts { (vec_len clients.old ≡ vec_len scripts.now.clients)
            × (vec_len engines.old ≡ vec_len scripts.now.engines) }
        requires workers { vec_len clients.old + vec_len engines.old + 1 < 2 ^ 64 }
        requires client_rooms { (vec_len rooms.clients.tickets ≡ vec_len clients.old)
            × All (λ t. HasRoomForTickets t 0) rooms.clients.tickets.items }
        requires engine_rooms { (vec_len rooms.engines.tickets ≡ vec_len engines.old)
            × All (λ t. HasRoomForTickets t self.now.turns) rooms.engines.tickets.items }
        requires report { (vec_len rooms.report.turns ≡ 0)
            × (vec_len rooms.report.ended ≡ 0)
            × (vec_len clients.old + vec_len engines.old + 1 ≤ vec_capacity rooms.report.turns)
            × (vec_len clients.old + vec_len engines.old + 1 ≤ vec_capacity rooms.report.ended) }
        ensures clients { ReportsClients L.caps L.capacity scripts.now.clients.items self.now.turns
            clients.old.items clients.new.items result.1 }
        ensures engines { ReportsEngines L.caps L.capacity scripts.now.engines.items self.now.turns
            (vec_len clients.old) engines.old.items engines.new.items result.1 }
        ensures admin { RunsAdmin L.caps L.capacity scripts.now.admin.items self.now.turns admin
            result.0 (stint_at result.1 (vec_len clients.old + vec_len engines.old)) }
        ensures len { (length clients.new.items ≡ length clients.old.items)
            × (length engines.new.items ≡ length engines.old.items) }
        ensures items { (vec_len result.1.turns ≡ vec_len clients.old + vec_len engines.old + 1)
            × (vec_len result.1.ended ≡ vec_len clients.old + vec_len engines.old + 1) }
    {
        let Rooms {
            clients: client_spare,
            engines: engine_spare,
            admin: admin_tickets,
            report,
        } = rooms;
        let mut report = report;
        let mut client_lanes = client_spare.load(clients, 0);
        let engine_lanes = engine_spare.load(engines, self.turns);
        let mut rest = Rest {
            engines: engine_lanes,
            admin: idle(admin, admin_tickets),
        };
        self.run_all(rt, scripts, &mut client_lanes, &mut rest);
        let Rest {
            engines: engine_lanes,
            admin: admin_lane,
        } = rest;
        unload(client_lanes, clients, &mut report);
        unload(engine_lanes, engines, &mut report);
        let Lane {
            seat,
            tickets: _,
            stint,
        } = admin_lane;
        report.turns.push_reserved(stint.turns);
        report.ended.push_reserved(stint.ended);
        (seat, report)
    }
}

/// Runs each worker in a thread of its own over the seat that it is lent. The administrator's is
/// the caller's. Script k goes to the seat at place k of its kind. Workers are numbered clients
/// first, then engines, then the administrator. A worker whose thread the system refuses runs after
/// another one.
///
/// Between the old receipts of a seat and the new ones stand the worker's calls that the history
/// kept: at most one call a turn, each the next by the script after those before it. Each answer,
/// kept or not, is what the device gives in some state that is not older than the receipts of the
/// seat before the call. Whatever the fault, nothing ran and the seats are as they were.
pub fn run_threads<
    S: EntryStore + Send,
    L: Sharing + Send + Sync,
    G: Gate + Sync,
    A: Allocator + Copy + Send,
    R: Threads + Wait + Sync,
>(
    rt: &R,
    alloc: A,
    shared: &SharedDevice<S, L>,
    seats: &mut Seats<L>,
    scripts: &Scripts,
    gate: &G,
    turns: u32,
) -> Result<RunReport<A>, RunFault>
    ensures script_count { (result ≡ Err RunFault.ScriptCount)
        ↔ ¬ IsFitting (vec_len seats.old.clients) (vec_len seats.old.engines)
        (vec_len scripts.now.clients) (vec_len scripts.now.engines) seats.old.admin }
    ensures nothing_ran { OnErr result
        ((seats.new.clients.items ≡ seats.old.clients.items)
        × (seats.new.engines.items ≡ seats.old.engines.items)
        × (seats.new.admin ≡ seats.old.admin)) }
    ensures back { OnOk result
        ((length seats.new.clients.items ≡ length seats.old.clients.items)
        × (length seats.new.engines.items ≡ length seats.old.engines.items)
        × IsSome seats.new.admin) }
    ensures clients { IfOk result
        (λ r. ReportsClients L.caps L.capacity scripts.now.clients.items turns
        seats.old.clients.items seats.new.clients.items r) }
    ensures engines { IfOk result
        (λ r. ReportsEngines L.caps L.capacity scripts.now.engines.items turns
        (vec_len seats.old.clients) seats.old.engines.items seats.new.engines.items r) }
    ensures admin { IfOk result
        (λ r. RunsAdmin L.caps L.capacity scripts.now.admin.items turns
        (receipts_in seats.old.admin) (receipts_in seats.new.admin)
        (stint_at r (vec_len seats.old.clients + vec_len seats.old.engines))) }
    ensures items { IfOk result
        (λ r. (vec_len r.turns ≡ vec_len seats.old.clients + vec_len seats.old.engines + 1)
        × (vec_len r.ended ≡ vec_len seats.old.clients + vec_len seats.old.engines + 1)) }
{
    let Seats {
        clients,
        engines,
        admin,
    } = seats;
    if admin.is_none() {
        return Err(RunFault::ScriptCount);
    }
    if clients.len() != scripts.clients.len() {
        return Err(RunFault::ScriptCount);
    }
    if engines.len() != scripts.engines.len() {
        return Err(RunFault::ScriptCount);
    }
    let Ok(rooms) = Rooms::<L, A>::new(alloc, clients.len(), engines.len(), turns) else {
        return Err(RunFault::OutOfMemory);
    };
    let Some(seat) = admin.take() else {
        unreachable!()
    };
    let run = Run {
        shared,
        gate,
        turns,
    };
    let (seat, report) = run.run_loaded(rt, scripts, rooms, clients, engines, seat);
    *admin = Some(seat);
    Ok(report)
}

impl<L: Sharing, A: Allocator + Copy> Rooms<L, A> {
    fn new(alloc: A, clients: usize, engines: usize, turns: u32) -> Result<Self, AllocError>
        requires { clients + engines + 1 < 2 ^ 64 }
        ensures clients { IfOk result
            (λ r. (vec_len r.clients.tickets ≡ clients)
            × All (λ t. HasRoomForTickets t 0) r.clients.tickets.items) }
        ensures engines { IfOk result
            (λ r. (vec_len r.engines.tickets ≡ engines)
            × All (λ t. HasRoomForTickets t turns) r.engines.tickets.items) }
        ensures report { IfOk result
            (λ r. (vec_len r.report.turns ≡ 0)
            × (vec_len r.report.ended ≡ 0)
            × (clients + engines + 1 ≤ vec_capacity r.report.turns)
            × (clients + engines + 1 ≤ vec_capacity r.report.ended)) }
    {
        let client_rooms = Spare::new(alloc, clients, 0)?;
        let engine_rooms = Spare::new(alloc, engines, turns as usize)?;
        let admin = Tickets::new(alloc, 0)?;
        let count = clients + engines + 1;
        let report = RunReport {
            turns: Vec::with_capacity(alloc, count)?,
            ended: Vec::with_capacity(alloc, count)?,
        };
        Ok(Rooms {
            clients: client_rooms,
            engines: engine_rooms,
            admin,
            report,
        })
    }
}
