//! The steps of records, made again.

ghost use Rattle.std.specs.Prelude.{◌≡◌, ◌*◌, ◌++◌, Some, take, drop, flat_map, length, OnOk, IfSome, IfNone, IfErr};
ghost use Rattle.std.specs.List.{All};
ghost use Rattle.dsa_device.specs.Running.{after_answer};
ghost use Rattle.dsa_saved.specs.Words.{words_of};
ghost use Rattle.dsa_saved.specs.Format.{event_bytes, choice_bytes, record_of};
ghost use Rattle.dsa_saved.specs.Said.{event_of_words, IsStepRead};
ghost use Rattle.dsa_saved.specs.Steps.{HasMade, HaveMade};
ghost use Rattle.dsa_saved.specs.Faults.{IsNoEvent, IsRecordFault, IsFirstFault};

use crate::LoadFault;
use crate::choices::choice_bytes;
use crate::events::{event_bytes, event_of_words};
use crate::words::{is_same, words_of};
use dsa_book::{Event, Reply};
use dsa_device::Device;
use dsa_store::EntryStore;

/// The bytes of a record.
const RECORD: usize = 44;

/// The bytes of a record's event.
const EVENT: usize = 36;

// The event of these bytes, where they are the bytes of an event.
fn read_event(bytes: &[u8]) -> Option<Event>
    requires { length bytes.now ≡ 36 }
    ensures said { IfSome result (λ event. event_of_words (words_of 9 bytes.now) ≡ Some event) }
    ensures bytes { IfSome result (λ event. event_bytes event ≡ bytes.now) }
    ensures none { IfNone result (IsNoEvent bytes.now) }
{
    let words: [u32; 9] = words_of(bytes);
    let event = event_of_words(&words)?;
    let written = event_bytes(event);
    if !is_same(&written, bytes) {
        return None;
    }
    Some(event)
}

// The queue that these bytes name, where an entry is to be taken from one.
fn read_queue(bytes: &[u8]) -> Option<u16>
    requires { length bytes.now ≡ 8 }
{
    let words: [u32; 2] = words_of(bytes);
    if words[0] != 2 || words[1] > 0xffff {
        return None;
    }
    Some(words[1] as u16)
}

// The step of the event: where these bytes name a queue, an engine takes an entry from it, if it
// may.
fn make_step<S: EntryStore>(device: &mut Device<S>, event: Event, choice: &[u8]) -> Reply
    requires { length choice.now ≡ 8 }
    ensures { after_answer device.old event result ≡ Some device.new }
{
    if let (Event::Dispatch { engine }, Some(queue)) = (event, read_queue(choice)) {
        if let Some(answer) = device.dispatch_from(engine, queue) {
            return Reply::Dispatch(answer);
        }
    }
    device.step(event)
}

// Makes the step of the record of this number.
fn make_record<S: EntryStore>(
    device: &mut Device<S>,
    bytes: &[u8],
    number: u32,
) -> Result<(), LoadFault>
    requires { length bytes.now ≡ 44 }
    ensures made { OnOk result (HasMade bytes.now device.old device.new) }
    ensures fault { IfErr result (λ fault. IsRecordFault fault bytes.now device.old number) }
{
    let (event_part, choice_part) = bytes.split_at(EVENT);
    let Some(event) = read_event(event_part) else {
        return Err(LoadFault::BadEvent { number });
    };
    let reply = make_step(device, event, choice_part);
    if !reply.is_stored() {
        return Err(LoadFault::BadStep { number });
    }
    let choice = choice_bytes(&reply);
    if !is_same(&choice, choice_part) {
        return Err(LoadFault::BadStep { number });
    }
    Ok(())
}

/// Makes the step of each record in turn.
pub(crate) fn make_records<S: EntryStore>(
    device: &mut Device<S>,
    records: &[u8],
    count: u32,
) -> Result<(), LoadFault>
    requires { length records.now ≡ 44 * count }
    ensures made { OnOk result (HaveMade records.now device.old device.new) }
    ensures fault { IfErr result (λ fault. IsFirstFault fault records.now device.old) }
{
    for number in 0..count {
        let at = RECORD * number as usize;
        make_record(device, &records[at..at + RECORD], number)?;
    }
    Ok(())
}
