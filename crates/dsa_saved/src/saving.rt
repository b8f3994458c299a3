//! A device as bytes.

ghost use Rattle.std.specs.Prelude.{◌≡◌, ◌++◌, ◌↔◌, true, false, flat_map, length};
ghost use Rattle.std.specs.Prelude.{OnOk, IfOk, IfErr, OnSome, IfSome, IfNone};
ghost use Rattle.std.specs.List.{All};
ghost use Rattle.dsa_saved.specs.Format.{record_of};
ghost use Rattle.dsa_saved.specs.Said.{IsStepRead};
ghost use Rattle.dsa_saved.specs.Saved.{IsReadAgain, saved_bytes};

use crate::SaveFault;
use crate::choices::choice_bytes;
use crate::events::event_bytes;
use crate::header::header_bytes;
use dsa_book::Step;
use dsa_device::Device;
use dsa_store::EntryStore;
use sha2::{Digest, Sha256};
use std::alloc::{AllocError, Global};

/// Adds the record of a step, which says the step again.
fn push_record(bytes: &mut Vec<u8>, step: &Step) -> Result<(), AllocError>
    ensures bytes { OnOk result (bytes.new.items ≡ bytes.old.items ++ record_of step.now) }
    ensures read { IsStepRead step.now }
{
    let event = event_bytes(step.event);
    let choice = choice_bytes(&step.reply);
    bytes.extend_from_slice(&event)?;
    bytes.extend_from_slice(&choice)
}

/// Adds the record of each step.
fn push_records(bytes: &mut Vec<u8>, history: &[Step]) -> Result<(), AllocError>
    ensures bytes { OnOk result
        (bytes.new.items ≡ bytes.old.items ++ flat_map record_of history.now) }
    ensures read { OnOk result (All IsStepRead history.now) }
{
    for step in history {
        push_record(bytes, step)?;
    }
    Ok(())
}

// The bytes of a device whose history is its whole past. An error means that memory was refused.
fn device_bytes<S: EntryStore>(alloc: Global, device: &Device<S>) -> Result<Vec<u8>, AllocError>
    requires { device.now.anew ≡ false }
    ensures bytes { IfOk result (λ bytes. bytes.items ≡ saved_bytes device.now) }
    ensures read { OnOk result (IsReadAgain device.now) }
{
    device.state_is_replay();
    let history = device.history();
    let mut bytes = Vec::with_capacity(alloc, 84 + 44 * history.len())?;
    bytes.extend_from_slice(b"DSASAVED")?;
    let header = header_bytes(
        device.caps(),
        device.capacity() as u32,
        history.len() as u32,
    );
    bytes.extend_from_slice(&header)?;
    push_records(&mut bytes, history)?;
    let checksum = Sha256::digest(bytes.as_slice());
    bytes.extend_from_slice(&checksum)?;
    Ok(bytes)
}

/// The bytes of the device: what it has, for how many steps its history has room, the event of each
/// step with what was free in it, and a checksum. A device whose history began anew made steps that
/// it does not store, and is not saved.
pub fn save<S: EntryStore>(alloc: Global, device: &Device<S>) -> Result<Vec<u8>, SaveFault>
    ensures bytes { IfOk result (λ bytes. bytes.items ≡ saved_bytes device.now) }
    ensures read { OnOk result (IsReadAgain device.now) }
    ensures begun_anew { IfErr result
        (λ fault. (fault ≡ SaveFault.BegunAnew) ↔ (device.now.anew ≡ true)) }
{
    if device.is_anew() {
        return Err(SaveFault::BegunAnew);
    }
    match device_bytes(alloc, device) {
        Ok(bytes) => Ok(bytes),
        Err(_) => Err(SaveFault::OutOfMemory),
    }
}

/// How many bytes [`save`] gives of the device, and `None` exactly if its history began anew.
pub fn saved_size<S: EntryStore>(device: &Device<S>) -> Option<u64>
    ensures size { IfSome result (λ size. size ≡ length (saved_bytes device.now)) }
    ensures whole { OnSome result (device.now.anew ≡ false) }
    ensures begun_anew { IfNone result (device.now.anew ≡ true) }
{
    if device.is_anew() {
        return None;
    }
    device.state_is_replay();
    Some(84 + 44 * device.history().len() as u64)
}
