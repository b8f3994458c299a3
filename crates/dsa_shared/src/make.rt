//! Making a shared device and its seats.

ghost use Rattle.std.specs.Prelude.{◌≡◌, ◌+◌, ◌<◌, ◌≤◌, ◌↔◌, ◌^◌, ◌⊎◌, true, false, [], Some, IfOk, IfErr, length, vec_len, vec_capacity};
ghost use Rattle.dsa_shared.specs.Seat.{AllFresh};

use crate::blanks::{Blanks, Sharing};
use crate::device::SharedDevice;
use crate::locked::Locked;
use crate::receipts::Room;
use crate::seats::{AdminSeat, ClientSeat, EngineSeat, NumberedSeat, Role, Seats};
use dsa_device::Device;
use dsa_store::EntryStore;
use std::alloc::{AllocError, Allocator};
use std::marker::PhantomData;
use std::sync::Mutex;
use std::sync::ledger::Share;
use thiserror::Error;

/// Why a device was not shared: the first of these that stands.
#[derive(Clone, Copy, Debug, PartialEq, Eq, Error)]
pub enum ShareFault {
    /// The number of clients is 0, or above 64.
    #[error("a shared device has 1 to 64 clients")]
    BadClients,
    /// The history of the device is not empty.
    #[error("the device has made a step")]
    NotFresh,
    /// The history of the device began anew.
    #[error("the history of the device began anew")]
    BegunAnew,
    /// The memory of the seats was refused.
    #[error("out of memory")]
    OutOfMemory,
}

// The memory of all seats.
#[derive(Drop)]
struct Rooms<L: Sharing, A: Allocator> {
    clients: Vec<ClientSeat<L, A>, A>,
    client_rooms: Vec<Room<L, A>, A>,
    engines: Vec<EngineSeat<L, A>, A>,
    engine_rooms: Vec<Room<L, A>, A>,
    admin: Room<L, A>,
    ghost no_clients: { vec_len clients ≡ 0 },
    ghost no_engines: { vec_len engines ≡ 0 },
    ghost client_room: { vec_len client_rooms ≤ vec_capacity clients },
    ghost engine_room: { vec_len engine_rooms ≤ vec_capacity engines },
}

impl<S: EntryStore, L: Sharing> SharedDevice<S, L> {
    /// Shares a device that has made no step yet among `clients` clients, 1 to 64, its engines and
    /// one administrator, with a seat for each. A device whose history began anew made steps, and
    /// is not shared. Takes room for as many receipts in each seat as the history has for steps; no
    /// other call takes memory. Whatever the error, the device and the blanks come back as they
    /// were, and what memory was taken is free again.
    pub fn new<A: Allocator + Copy>(
        alloc: A,
        device: Device<S>,
        blanks: Blanks,
        clients: u16,
    ) -> Result<(SharedDevice<S, L>, Seats<L, A>), (ShareFault, Device<S>, Blanks)>
        requires blanks { (blanks ≡ L.name) × (L.parts ≡ 129) }
        requires device { (L.caps ≡ device.caps) × (L.capacity ≡ device.capacity) }
        requires clients { L.clients ≡ clients }
        ensures clients { IfOk result (λ r. AllFresh clients r.1.clients.items) }
        ensures engines { IfOk result (λ r. AllFresh device.caps.engines r.1.engines.items) }
        ensures admin { IfOk result (λ r. r.1.admin ≡ Some []) }
        ensures fresh { IfOk result (λ r. (0 < clients) × (clients ≤ 64) × (device.history ≡ [])
            × (device.anew ≡ false)) }
        ensures back { IfErr result (λ e. (e.1 ≡ device) × (e.2 ≡ blanks)) }
        ensures bad_clients { IfErr result (λ e. (e.0 ≡ ShareFault.BadClients)
            ↔ ((clients ≡ 0) ⊎ (64 < clients))) }
        ensures not_fresh { IfErr result (λ e. (e.0 ≡ ShareFault.NotFresh)
            ↔ ((0 < clients) × (clients ≤ 64) × (0 < length device.history))) }
        ensures begun_anew { IfErr result (λ e. (e.0 ≡ ShareFault.BegunAnew)
            ↔ ((0 < clients) × (clients ≤ 64) × (device.history ≡ []) × (device.anew ≡ true))) }
    {
        if clients == 0 || clients > 64 {
            return Err((ShareFault::BadClients, device, blanks));
        }
        if !device.history().is_empty() {
            return Err((ShareFault::NotFresh, device, blanks));
        }
        if device.is_anew() {
            return Err((ShareFault::BegunAnew, device, blanks));
        }
        device.state_is_replay();
        let engines = device.caps().engines;
        let Ok(rooms) = Rooms::<L, A>::new(alloc, device.capacity(), clients, engines) else {
            return Err((ShareFault::OutOfMemory, device, blanks));
        };
        let (ledger, share) = blanks.open::<L>();
        let seats = rooms.seats(share);
        let shared = SharedDevice {
            clients,
            locked: Mutex::new(Locked { device, ledger }),
        };
        Ok((shared, seats))
    }
}

impl<L: Sharing, A: Allocator + Copy> Rooms<L, A> {
    fn new(alloc: A, capacity: u64, clients: u16, engines: u16) -> Result<Rooms<L, A>, AllocError>
        requires capacity { L.capacity ≡ capacity }
        requires bounded { capacity ≤ 2 ^ 20 }
        ensures clients { IfOk result (λ r. vec_len r.client_rooms ≡ clients) }
        ensures engines { IfOk result (λ r. vec_len r.engine_rooms ≡ engines) }
    {
        let client_seats = Vec::with_capacity(alloc, clients as usize)?;
        let client_rooms = take_rooms(alloc, capacity, clients)?;
        let engine_seats = Vec::with_capacity(alloc, engines as usize)?;
        let engine_rooms = take_rooms(alloc, capacity, engines)?;
        let admin = Room::new(alloc, capacity)?;
        Ok(Rooms {
            clients: client_seats,
            client_rooms,
            engines: engine_seats,
            engine_rooms,
            admin,
        })
    }

    // Cuts the share into those of the seats.
    fn seats(self, share: Share<L>) -> Seats<L, A>
        requires parts { share.parts ≡ L.parts }
        requires amount { share.amount ≡ 0 }
        requires clients { (vec_len self.client_rooms ≡ L.clients) × (L.clients ≤ 64) }
        requires engines { (vec_len self.engine_rooms ≡ L.caps.engines) × (L.caps.engines ≤ 64) }
        requires enough { L.clients + L.caps.engines < L.parts }
        ensures clients { AllFresh L.clients result.clients.items }
        ensures engines { AllFresh L.caps.engines result.engines.items }
        ensures admin { result.admin ≡ Some [] }
    {
        let Rooms {
            clients,
            client_rooms,
            engines,
            engine_rooms,
            admin,
        } = self;
        let mut rest = share;
        let clients = numbered_seats(clients, client_rooms, &mut rest);
        let engines = numbered_seats(engines, engine_rooms, &mut rest);
        Seats {
            clients,
            engines,
            admin: Some(AdminSeat {
                receipts: admin.with(rest),
            }),
        }
    }
}

fn numbered_seats<K: Role, L: Sharing, A: Allocator>(
    seats: Vec<NumberedSeat<K, L, A>, A>,
    rooms: Vec<Room<L, A>, A>,
    rest: &mut Share<L>,
) -> Vec<NumberedSeat<K, L, A>, A>
    requires none { vec_len seats ≡ 0 }
    requires room { vec_len rooms ≤ vec_capacity seats }
    requires few { vec_len rooms ≤ 64 }
    requires parts { vec_len rooms < rest.old.parts }
    requires amount { rest.old.amount ≡ 0 }
    ensures fresh { AllFresh (vec_len rooms) result.items }
    ensures parts { rest.new.parts + vec_len rooms ≡ rest.old.parts }
    ensures amount { rest.new.amount ≡ 0 }
{
    let mut seats = seats;
    let mut number = 0u16;
    for room in rooms {
        let receipts = room.with(rest.split_off(1, 0));
        let role = PhantomData;
        seats.push_reserved(NumberedSeat {
            number,
            receipts,
            role,
        });
        number += 1;
    }
    seats
}

fn take_rooms<L: Sharing, A: Allocator + Copy>(
    alloc: A,
    capacity: u64,
    count: u16,
) -> Result<Vec<Room<L, A>, A>, AllocError>
    requires capacity { L.capacity ≡ capacity }
    requires bounded { capacity ≤ 2 ^ 20 }
    ensures { IfOk result (λ r. vec_len r ≡ count) }
{
    let mut rooms = Vec::with_capacity(alloc, count as usize)?;
    for _i in 0..count {
        rooms.push_reserved(Room::new(alloc, capacity)?);
    }
    Ok(rooms)
}
