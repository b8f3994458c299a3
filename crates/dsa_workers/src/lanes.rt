//! Seats under way with their workers.

ghost use Rattle.std.specs.Prelude.{◌≡◌, ◌+◌, ◌≤◌, ◌++◌, [], All, IfOk, map, vec_len, vec_capacity};
ghost use Rattle.dsa_workers.specs.Calls.{HasRoomForTickets};

use crate::scripts::{RunReport, Stint, WorkerEnd};
use crate::tickets::Tickets;
use std::alloc::{AllocError, Allocator};

/// A seat with its worker's tickets, and what the worker did.
#[derive(Drop)]
pub struct Lane<T, A: Allocator> {
    pub seat: T,
    pub tickets: Tickets<A>,
    pub stint: Stint,
}

/// The memory that the workers of some seats take.
#[derive(Drop)]
pub struct Spare<T, A: Allocator> {
    lanes: Vec<Lane<T, A>, A>,
    pub tickets: Vec<Tickets<A>, A>,
    ghost no_lanes: { vec_len lanes ≡ 0 },
    ghost lane_room: { vec_len tickets ≤ vec_capacity lanes },
}

/// A seat whose worker has had no turn.
pub fn idle<T, A: Allocator>(seat: T, tickets: Tickets<A>) -> Lane<T, A>
    ensures { (result.seat ≡ seat) × (result.tickets ≡ tickets) }
{
    Lane {
        seat,
        tickets,
        stint: Stint {
            turns: 0,
            ended: WorkerEnd::TurnsOut,
        },
    }
}

impl<T: Drop, A: Allocator + Copy> Spare<T, A> {
    /// For so many workers, each with room for so many tickets.
    pub fn new(alloc: A, count: usize, room: usize) -> Result<Self, AllocError>
        ensures count { IfOk result (λ r. vec_len r.tickets ≡ count) }
        ensures room { IfOk result (λ r. All (λ t. HasRoomForTickets t room) r.tickets.items) }
    {
        let lanes = Vec::with_capacity(alloc, count)?;
        let tickets = ticket_rooms(alloc, count, room)?;
        Ok(Spare { lanes, tickets })
    }
}

impl<T: Drop, A: Allocator> Spare<T, A> {
    /// Puts each seat in a lane. The room of the seats stays.
    pub fn load(self, seats: &mut Vec<T>, limit: u32) -> Vec<Lane<T, A>, A>
        requires count { vec_len self.tickets ≡ vec_len seats.old }
        requires room { All (λ t. HasRoomForTickets t limit) self.tickets.items }
        ensures seats { map (λ l. l.seat) result.items ≡ seats.old.items }
        ensures room { All (λ l. HasRoomForTickets l.tickets limit) result.items }
        ensures none_left { seats.new.items ≡ [] }
        ensures room_left { vec_len seats.old ≤ vec_capacity seats.new }
    {
        let Spare { lanes, tickets } = self;
        let mut lanes = lanes;
        let mut rooms = tickets;
        for seat in seats.drain(..) {
            let Some(tickets) = rooms.pop() else {
                unreachable!()
            };
            lanes.push_reserved(idle(seat, tickets));
        }
        lanes
    }
}

/// Gives the seats back, and notes what their workers did.
pub fn unload<T: Drop, A: Allocator>(
    lanes: Vec<Lane<T, A>, A>,
    seats: &mut Vec<T>,
    report: &mut RunReport<A>,
)
    requires seats { (seats.old.items ≡ []) × (vec_len lanes ≤ vec_capacity seats.old) }
    requires report { (vec_len report.old.turns + vec_len lanes ≤ vec_capacity report.old.turns)
        × (vec_len report.old.ended + vec_len lanes ≤ vec_capacity report.old.ended) }
    ensures seats { seats.new.items ≡ map (λ l. l.seat) lanes.items }
    ensures turns { report.new.turns.items
        ≡ report.old.turns.items ++ map (λ l. l.stint.turns) lanes.items }
    ensures ended { report.new.ended.items
        ≡ report.old.ended.items ++ map (λ l. l.stint.ended) lanes.items }
    ensures room { (vec_capacity report.old.turns ≤ vec_capacity report.new.turns)
        × (vec_capacity report.old.ended ≤ vec_capacity report.new.ended) }
{
    for lane in lanes {
        let Lane {
            seat,
            tickets: _,
            stint,
        } = lane;
        seats.push_reserved(seat);
        report.turns.push_reserved(stint.turns);
        report.ended.push_reserved(stint.ended);
    }
}

fn ticket_rooms<A: Allocator + Copy>(
    alloc: A,
    count: usize,
    room: usize,
) -> Result<Vec<Tickets<A>, A>, AllocError>
    ensures count { IfOk result (λ r. vec_len r ≡ count) }
    ensures room { IfOk result (λ r. All (λ t. HasRoomForTickets t room) r.items) }
{
    let mut rooms = Vec::new(alloc);
    for _i in 0..count {
        rooms.push(Tickets::new(alloc, room)?)?;
    }
    Ok(rooms)
}
