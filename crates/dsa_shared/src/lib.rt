//! A device that threads share: a lock, a seat for each of its users, and settling.
//!
//! [`SharedDevice::new`] puts a device behind one lock, and makes a seat for each client, for each
//! engine and for the administrator. Each step is lent the seat of the one who makes it, takes the
//! lock once, makes one step of the device, and adds it to the receipts of the seat where the
//! history keeps it. [`SharedDevice::settle`] takes the device and the seats back, and compares the
//! receipts of each seat with the history.
//!
//! The parameter `L: Sharing` names one shared device. The device and its seats bear it, so that a
//! seat of another device does not compile. A caller writes a function that is generic in `L`, and
//! that makes, uses and settles the device inside it: it takes [`Blanks`] and asks in its
//! `requires` that `L` is of these blanks, of the device's capabilities and capacity, and of the
//! number of clients, as [`SharedDevice::new`] does. It is called with `std::marker::Brand` for
//! `L`, and the proof file of the function that calls it gives what `L` stands for: the blanks'
//! name and 129 parts, the capabilities, the capacity and the number of clients.
//!
//! A call that takes the lock may wait, and promises what it answers only if it returns. All other
//! calls, settling and the reads of seats among them, wait for nobody. No call but
//! [`SharedDevice::new`] takes memory.
#![tactic(auto)]

mod blanks;
mod compare;
mod counts;
mod device;
pub mod locked;
mod make;
mod receipts;
mod seats;
mod settle;

pub use blanks::{Blanks, Sharing};
pub use compare::compare_receipts;
pub use device::SharedDevice;
pub use dsa_book::Actor;
pub use make::ShareFault;
pub use seats::{
    AdminSeat, ClientRole, ClientSeat, EngineRole, EngineSeat, NumberedSeat, Role, Seats,
};
pub use settle::{SettleFault, SettleRefused, Settled, Totals};
