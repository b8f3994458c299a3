//! What stands at the keys of a party and of its steps.

ghost use Rattle.std.specs.Prelude.{◌≡◌, ◌^◌, [], codes, false, map, option_and_then, option_map};
ghost use Rattle.std.specs.Prelude.{IfOk};
ghost use Rattle.serde_json.specs.{View.{view}, Find.{get}};
ghost use Rattle.dsa_scenario.specs.Fields.{whole_of, truth_of, digits_of};
ghost use Rattle.dsa_plans.specs.Said.{busy_called, busy_said, items_in, outcomes_said, read_or};
ghost use Rattle.dsa_plans.specs.Said.{retry_called, retry_said, until_called, until_said};
ghost use Rattle.dsa_plans.specs.Said.{whole_below};

use dsa_parties::{Outcomes, RetryPolicy, Until};
use dsa_scenario::bytes_of_hex;
use serde_json::Value;
use std::alloc::AllocError;

/// The items of an array.
#[tactic(auto, using(crate::proofs::Items::listed))]
pub fn items_in(value: &Value) -> Option<&[Value]>
    ensures { option_map (λ items. map view items.now) result ≡ items_in (view value.now) }
{
    Some(value.as_array()?.as_slice())
}

/// The items of the array at the key; none where nothing stands there.
pub fn items_or_none<'v>(object: &'v Value, key: &str) -> Option<&'v [Value]>
    ensures { option_map (λ items. map view items.now) result
        ≡ read_or [] items_in (get key.now (view object.now)) }
{
    match object.get(key) {
        None => Some(&[]),
        Some(value) => items_in(value),
    }
}

/// The steps of a party.
pub fn steps_of(party: &Value) -> Option<&[Value]>
    ensures { option_map (λ items. map view items.now) result
        ≡ option_and_then items_in (get (codes "steps") (view party.now)) }
{
    items_in(party.get("steps")?)
}

/// The number as a label or an end of labels.
pub fn label_of(number: usize) -> Result<u32, AllocError>
    ensures { IfOk result (λ label. label ≡ number) }
{
    u32::try_from(number).ok().ok_or(AllocError)
}

/// The whole number of 16 bits that this is.
pub fn u16_in(value: &Value) -> Option<u16>
    ensures { result ≡ whole_below (2 ^ 16) (view value.now) }
{
    u16::try_from(value.as_u64()?).ok()
}

/// The whole number of 32 bits that this is.
pub fn u32_in(value: &Value) -> Option<u32>
    ensures { result ≡ whole_below (2 ^ 32) (view value.now) }
{
    u32::try_from(value.as_u64()?).ok()
}

/// The whole number of 16 bits at the key.
pub fn u16_at(object: &Value, key: &str) -> Option<u16>
    ensures { result ≡ whole_of (2 ^ 16) key.now (view object.now) }
{
    u16::try_from(object.get(key)?.as_u64()?).ok()
}

/// The whole number of 32 bits at the key.
pub fn u32_at(object: &Value, key: &str) -> Option<u32>
    ensures { result ≡ whole_of (2 ^ 32) key.now (view object.now) }
{
    u32::try_from(object.get(key)?.as_u64()?).ok()
}

/// The truth value at the key.
pub fn truth_at(object: &Value, key: &str) -> Option<bool>
    ensures { result ≡ truth_of key.now (view object.now) }
{
    object.get(key)?.as_bool()
}

/// The bytes that the text at the key says.
pub fn digits_at(object: &Value, key: &str) -> Option<[u8; 64]>
    ensures { result ≡ digits_of key.now (view object.now) }
{
    bytes_of_hex(object.get(key)?.as_str()?)
}

// The policy of this name.
fn retry_called(word: &str) -> Option<RetryPolicy>
    ensures { result ≡ retry_called word.now }
{
    match word {
        "give-up" => Some(RetryPolicy::GiveUp),
        "again" => Some(RetryPolicy::Again),
        _ => None,
    }
}

// The policy that this says.
fn retry_said(value: &Value) -> Option<RetryPolicy>
    ensures { result ≡ retry_said (view value.now) }
{
    match value.as_str() {
        Some(word) => retry_called(word),
        None => Some(RetryPolicy::AtMost(u32_in(value)?)),
    }
}

/// What a client does when it is told to retry.
pub fn retry_at(step: &Value) -> Option<RetryPolicy>
    ensures { result
        ≡ read_or RetryPolicy.GiveUp retry_said (get (codes "retry") (view step.now)) }
{
    match step.get("retry") {
        None => Some(RetryPolicy::GiveUp),
        Some(value) => retry_said(value),
    }
}

// The outcomes that this says.
fn outcomes_said(value: &Value) -> Option<Outcomes>
    ensures { result ≡ outcomes_said (view value.now) }
{
    match value.as_str() {
        Some("may") => Some(Outcomes::Both),
        Some(_) => None,
        None => {
            if value.as_bool()? {
                Some(Outcomes::PageFaultAlone)
            } else {
                Some(Outcomes::SuccessAlone)
            }
        }
    }
}

/// The outcomes that a step or a member says, or else these.
pub fn outcomes_at(object: &Value, outcomes: Outcomes) -> Option<Outcomes>
    ensures { result ≡ read_or outcomes outcomes_said (get (codes "fault") (view object.now)) }
{
    match object.get("fault") {
        None => Some(outcomes),
        Some(value) => outcomes_said(value),
    }
}

// Whether to issue again, by this word.
fn busy_called(word: &str) -> Option<bool>
    ensures { result ≡ busy_called word.now }
{
    match word {
        "give-up" => Some(false),
        "again" => Some(true),
        _ => None,
    }
}

/// Whether a command is issued again while another is active.
pub fn busy_at(step: &Value) -> Option<bool>
    ensures { result ≡ read_or false busy_said (get (codes "busy") (view step.now)) }
{
    match step.get("busy") {
        None => Some(false),
        Some(value) => busy_called(value.as_str()?),
    }
}

// What ends the polling, by this word.
fn until_called(word: &str) -> Option<Until>
    ensures { result ≡ until_called word.now }
{
    match word {
        "once" => Some(Until::Once),
        "finished" => Some(Until::Finished),
        "over" => Some(Until::Over),
        _ => None,
    }
}

/// Which answer ends the polling.
pub fn until_at(step: &Value) -> Option<Until>
    ensures { result ≡ read_or Until.Once until_said (get (codes "until") (view step.now)) }
{
    match step.get("until") {
        None => Some(Until::Once),
        Some(value) => until_called(value.as_str()?),
    }
}
