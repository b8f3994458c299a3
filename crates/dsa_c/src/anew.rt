//! A history that begins anew.

ghost use Rattle.std.specs.Prelude.{◌≡◌};
ghost use Rattle.dsa_c.specs.Anew.{IsBeginning, past_from_c};
ghost use Rattle.dsa_c.specs.{Calls.{IsReadAs, number_told}, Reads.{bit_asked}};

use crate::handle::{Handle, let_device};
use crate::numbers::{ANEW_BEGUN, ANEW_NO_DEVICE, ANEW_NO_MEMORY, NONE};
use dsa_book::PastFates;

fn past_of(keep_fates: u32) -> PastFates
    ensures { result ≡ past_from_c keep_fates }
{
    match keep_fates {
        0 => PastFates::Forgotten,
        _ => PastFates::Kept,
    }
}

/// Begins the history of the device behind a handle anew at the present state, and forgets the
/// fates of what ended where `keep_fates` is 0.
#[unsafe(no_mangle)]
pub extern "C" fn dsa_begin_anew(handle: &mut Handle, keep_fates: u32) -> u32
    ensures { IsBeginning (past_from_c keep_fates)
        handle.old.place.machine result handle.new.place.machine }
{
    let_device!(device, handle, ANEW_NO_DEVICE);
    match device.begin_anew(past_of(keep_fates)) {
        Ok(()) => ANEW_BEGUN,
        Err(_) => ANEW_NO_MEMORY,
    }
}

/// Whether the history began anew: 1 or 0.
#[unsafe(no_mangle)]
pub extern "C" fn dsa_is_anew(handle: &mut Handle) -> u32
    ensures { IsReadAs (bit_asked (λ d. d.anew))
        handle.old.place.machine result handle.new.place.machine }
{
    let_device!(device, handle, 0);
    u32::from(device.is_anew())
}

/// For how many steps the device took memory.
#[unsafe(no_mangle)]
pub extern "C" fn dsa_room(handle: &mut Handle) -> u64
    ensures { IsReadAs (number_told (λ d. d.room))
        handle.old.place.machine result handle.new.place.machine }
{
    let_device!(device, handle, NONE);
    device.room()
}
