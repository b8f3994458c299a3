//! The key of a world in bytes.

ghost use Rattle.std.specs.Prelude.{◌≡◌, ◌<◌, ◌++◌, true, false, length, IfOk, OnOk, flat_map};
ghost use Rattle.dsa_key_bytes.specs.Numbers.{number_bytes};
ghost use Rattle.dsa_parties.specs.Standing.{stand_of};
ghost use Rattle.dsa_explore.specs.Keys.{client_bytes, mark_bytes, place_bytes, world_bytes};
ghost use Rattle.dsa_explore.specs.Walked.{world_of};

use crate::walked::Walked;
use dsa_key_bytes::{Line, write_key};
use dsa_parties::{ClientPlace, Places};
use std::alloc::{AllocError, Global};

// Adds the bytes of a number: seven bits in each, the least ones first, and 128 more in all but the
// last.
fn add_number(out: &mut Vec<u8>, number: u64) -> Result<(), AllocError>
    ensures { OnOk result (out.new.items ≡ out.old.items ++ number_bytes number) }
{
    let mut rest = number;
    while rest > 127 {
        out.push((rest % 128 + 128) as u8)?;
        rest /= 128;
    }
    out.push(rest as u8)?;
    Ok(())
}

// Adds the bytes of a label, or of another number of 32 bits.
fn add_small_number(out: &mut Vec<u8>, number: u32) -> Result<(), AllocError>
    ensures { OnOk result (out.new.items ≡ out.old.items ++ number_bytes number) }
{
    add_number(out, u64::from(number))?;
    Ok(())
}

// Adds where a client stands.
fn add_client(out: &mut Vec<u8>, place: &ClientPlace) -> Result<(), AllocError>
    ensures { OnOk result (out.new.items ≡ out.old.items ++ client_bytes place.now) }
{
    add_small_number(out, place.next)?;
    add_small_number(out, place.refusals)?;
    Ok(())
}

// Adds where each client stands.
fn add_clients(out: &mut Vec<u8>, places: &[ClientPlace]) -> Result<(), AllocError>
    ensures { OnOk result
        (out.new.items
        ≡ out.old.items ++ flat_map client_bytes places.now) }
{
    for place in places {
        add_client(out, place)?;
    }
    Ok(())
}

// Adds the bytes of each number.
fn add_numbers(out: &mut Vec<u8>, numbers: &[u32]) -> Result<(), AllocError>
    ensures { OnOk result
        (out.new.items ≡ out.old.items ++ flat_map number_bytes numbers.now) }
{
    for number in numbers {
        add_small_number(out, *number)?;
    }
    Ok(())
}

// Adds whether a watch has come.
fn add_mark(out: &mut Vec<u8>, came: bool) -> Result<(), AllocError>
    ensures { OnOk result (out.new.items ≡ out.old.items ++ mark_bytes came) }
{
    if came {
        return add_number(out, 1);
    }
    add_number(out, 0)
}

// Adds of each watch whether it has come.
fn add_marks(out: &mut Vec<u8>, came: &[bool]) -> Result<(), AllocError>
    ensures { OnOk result
        (out.new.items ≡ out.old.items ++ flat_map mark_bytes came.now) }
{
    for mark in came {
        add_mark(out, *mark)?;
    }
    Ok(())
}

// Adds where all parties stand, and what they remember.
fn add_places(out: &mut Vec<u8>, places: &Places) -> Result<(), AllocError>
    ensures { OnOk result
        (out.new.items ≡ out.old.items ++ place_bytes (stand_of places.now)) }
{
    add_number(out, places.clients.len() as u64)?;
    add_clients(out, places.clients.as_slice())?;
    add_number(out, places.administrators.len() as u64)?;
    add_numbers(out, places.administrators.as_slice())?;
    add_number(out, places.came.len() as u64)?;
    add_marks(out, places.came.as_slice())?;
    Ok(())
}

/// The bytes of a world, and a line for those of its device.
#[derive(Drop)]
pub struct Key {
    line: Line,
    pub bytes: Vec<u8>,
}

impl Key {
    /// No bytes, with the memory for so many.
    pub fn new(alloc: Global, count: u32) -> Result<Key, AllocError>
        ensures room { IfOk result (λ key. key.line.capacity ≡ count) }
    {
        let line = Line::new(alloc, count as usize)?;
        let bytes = Vec::with_capacity(alloc, count as usize)?;
        Ok(Key { line, bytes })
    }
}

/// Writes the bytes of the world. False where those of its device have no room.
pub fn write_world(walked: &Walked, key: &mut Key) -> Result<bool, AllocError>
    ensures written { IfOk result
        (λ fits. fits ≡ true → key.new.bytes.items ≡ world_bytes (world_of walked.now)) }
    ensures too_long { IfOk result
        (λ fits. fits ≡ false
        → key.old.line.capacity < length (world_bytes (world_of walked.now))) }
    ensures room { OnOk result (key.new.line.capacity ≡ key.old.line.capacity) }
{
    key.bytes.clear();
    add_places(&mut key.bytes, &walked.places)?;
    let labels = walked.labels.as_slice();
    let Ok(()) = write_key(&walked.machine.device, labels, &mut key.line) else {
        return Ok(false);
    };
    key.bytes.extend_from_slice(key.line.bytes())?;
    Ok(true)
}
