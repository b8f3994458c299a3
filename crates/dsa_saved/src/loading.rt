//! A device from bytes.

ghost use Rattle.std.specs.Prelude.{◌≡◌, false, OnOk, IfOk, IfErr};
ghost use Rattle.dsa_device.specs.Running.{Running, IsReplay};
ghost use Rattle.dsa_saved.specs.Faults.{HasStart, IsLoadFault, records_in, first_in};
ghost use Rattle.dsa_saved.specs.Steps.{HaveMade};
ghost use Rattle.dsa_saved.specs.Saved.{IsReadAgain, saved_bytes};

use crate::LoadFault;
use crate::header::caps_of_words;
use crate::replay::make_records;
use crate::start::{header_words_of, records_of, start_fault};
use dsa_device::Device;
use dsa_linked::LinkedDevice;
use dsa_store::EntryStore;
use std::alloc::Global;

// Makes the steps of the records, with the device that the header says.
fn make_steps<S: EntryStore>(device: &mut Device<S>, bytes: &[u8]) -> Result<(), LoadFault>
    requires start { HasStart bytes.now }
    requires first { device.old ≡ first_in bytes.now }
    ensures made { OnOk result
        (HaveMade (records_in bytes.now) (first_in bytes.now) device.new) }
    ensures fault { IfErr result (λ fault. IsLoadFault fault bytes.now) }
{
    let words = header_words_of(bytes);
    let records = records_of(bytes);
    let made = make_records(device, records, words[10]);
    made
}

/// The device that the bytes save: it is opened, and makes the step of each record in turn. So its
/// history did not begin anew, it saves to these bytes, and equals each device that does. Else the
/// fault is the first that stands.
///
/// A store may choose another cell for an entry than that of the device that was saved; then the
/// fault is `BadStep`. Over linked cells a device that was saved makes its steps again (tested).
pub fn load(alloc: Global, bytes: &[u8]) -> Result<LinkedDevice, LoadFault>
    ensures saved { IfOk result (λ machine. saved_bytes machine.device ≡ bytes.now) }
    ensures not_anew { IfOk result (λ machine. machine.device.anew ≡ false) }
    ensures room { IfOk result (λ machine. machine.device.room ≡ machine.device.capacity) }
    ensures equal { IfOk result (λ machine. (d : Running)
        → IsReplay d
        → IsReadAgain d
        → saved_bytes d ≡ bytes.now
        → machine.device ≡ d) }
    ensures fault { IfErr result (λ fault. IsLoadFault fault bytes.now) }
    ensures start { OnOk result (HasStart bytes.now) }
{
    if let Some(fault) = start_fault(bytes) {
        return Err(fault);
    }
    let words = header_words_of(bytes);
    let caps = caps_of_words(&words);
    let Ok(mut machine) = LinkedDevice::new(alloc, caps, u64::from(words[9])) else {
        return Err(LoadFault::OutOfMemory);
    };
    make_steps(&mut machine.device, bytes)?;
    machine.device.state_is_replay();
    Ok(machine)
}
