//! How the device behind a handle is saved as bytes, and a handle gets the device of bytes.

ghost use Rattle.std.specs.Prelude.{◌≡◌};
ghost use Rattle.dsa_c.specs.Calls.{IsReadAs};
ghost use Rattle.dsa_c.specs.Saving.{IsLoading, IsSaving, bytes_saved, load_number};

use crate::buffers::write_bytes;
use crate::handle::{Handle, let_device};
use crate::numbers::{
    LOAD_ALREADY_OPEN, LOAD_BAD_CAPACITY, LOAD_BAD_CAPS, LOAD_BAD_CHECKSUM, LOAD_BAD_EVENT,
    LOAD_BAD_LENGTH, LOAD_BAD_MAGIC, LOAD_BAD_STEP, LOAD_BAD_VERSION, LOAD_OUT_OF_MEMORY,
    LOAD_TRUNCATED, LOADED, NO_MEMORY, NOT_SAVED,
};
use dsa_saved::{LoadFault, load, save, saved_size};
use std::alloc::Global;

fn load_number(fault: LoadFault) -> u32
    ensures { result ≡ load_number fault }
{
    match fault {
        LoadFault::Truncated => LOAD_TRUNCATED,
        LoadFault::BadMagic => LOAD_BAD_MAGIC,
        LoadFault::BadVersion => LOAD_BAD_VERSION,
        LoadFault::BadLength => LOAD_BAD_LENGTH,
        LoadFault::BadChecksum => LOAD_BAD_CHECKSUM,
        LoadFault::BadCaps => LOAD_BAD_CAPS,
        LoadFault::BadCapacity => LOAD_BAD_CAPACITY,
        LoadFault::OutOfMemory => LOAD_OUT_OF_MEMORY,
        LoadFault::BadEvent { .. } => LOAD_BAD_EVENT,
        LoadFault::BadStep { .. } => LOAD_BAD_STEP,
    }
}

/// How many bytes `dsa_save` writes of the device, where there is room: 0 where there is none, or
/// its history began anew.
#[unsafe(no_mangle)]
pub extern "C" fn dsa_saved_size(handle: &mut Handle) -> u64
    ensures { IsReadAs bytes_saved
        handle.old.place.machine result handle.new.place.machine }
{
    let_device!(device, handle, 0);
    match saved_size(device) {
        Some(size) => size,
        None => 0,
    }
}

/// Writes the bytes of the device, where there is room for all of them.
#[unsafe(no_mangle)]
pub extern "C" fn dsa_save(alloc: Global, handle: &mut Handle, buffer: &mut [u8]) -> u64
    ensures saved { IsSaving handle.old.place.machine result buffer.old buffer.new }
    ensures kept { handle.new.place.machine ≡ handle.old.place.machine }
{
    let_device!(device, handle, 0);
    let Some(size) = saved_size(device) else {
        return NOT_SAVED;
    };
    if (buffer.len() as u64) < size {
        return size;
    }
    let Ok(bytes) = save(alloc, device) else {
        return NO_MEMORY;
    };
    write_bytes(bytes.as_slice(), buffer);
    size
}

/// Opens the device of these bytes behind a handle that has none: 0, or the number of what keeps it
/// from being loaded.
#[unsafe(no_mangle)]
pub extern "C" fn dsa_load(alloc: Global, handle: &mut Handle, bytes: &[u8]) -> u32
    ensures { IsLoading handle.old.place.machine bytes.now result handle.new.place.machine }
{
    if handle.holds {
        return LOAD_ALREADY_OPEN;
    }
    let machine = match load(alloc, bytes) {
        Ok(machine) => machine,
        Err(fault) => return load_number(fault),
    };
    let Ok(machine) = Box::new(alloc, machine) else {
        return LOAD_OUT_OF_MEMORY;
    };
    handle.put(machine);
    LOADED
}
