//! What comes of the tries from a stored world. A search is only read, so threads may share it.

ghost use Rattle.std.specs.Prelude.{◌≡◌, ◌+◌, ◌<◌, ◌≤◌, ◌++◌, ◌∷◌, [], length, List, Some, IfOk, IfErr, IfSome, IfNone, OnOk, slice_get, true, false};
ghost use Rattle.dsa_keys.specs.Parties.{World, Stored, world_after};
ghost use Rattle.dsa_book.specs.declared.answer.Reply.{Reply};
ghost use Rattle.dsa_parties.specs.Offers.{parties_of};
ghost use Rattle.dsa_parties.specs.Standing.{Standing};
ghost use Rattle.dsa_explore.specs.Ends.{IsLed};
ghost use Rattle.dsa_explore.specs.Keys.{world_bytes};
ghost use Rattle.dsa_explore.specs.Ready.{is_filled, CannotMake, HasLabels};
ghost use Rattle.dsa_explore.specs.Trials.{AreExpansions, AreTrials, IsWholeExpansion, IsTrial};
ghost use Rattle.dsa_explore.specs.Trying.{IsSearch, IsThere};
ghost use Rattle.dsa_explore.specs.Walked.{space_of, world_of, IsFirst};
ghost use Rattle.dsa_explore.specs.declared.halting.Halt.TheVariants.{KeyBytes};

use crate::found::Found;
use crate::halting::Halt;
use crate::keys::{Key, write_world};
use crate::stored::{Search, Try};
use crate::tries::tries_at;
use crate::trying::{as_taken, come, go_to};
use crate::walked::{Plan, Walked};
use crate::walking::make_told;
use std::alloc::{AllocError, Global};

/// What came of a try: the try with the queue that an entry was taken from, rows with what its step
/// told, and the key of the world that it led to. The steps of the rows are all 0.
#[derive(Drop)]
pub struct Trial {
    pub tried: Try,
    pub taken: Try,
    pub rows: Vec<Found>,
    pub key: Vec<u8>,
}

/// What came of the tries from a stored world, in their order, and which bound was met, if not all
/// of them were made.
#[derive(Drop)]
pub struct Expansion {
    pub trials: Vec<Trial>,
    pub halted: Option<Halt>,
}

// Makes the try. `None` where it cannot be made.
fn attempt(
    alloc: Global,
    plan: &Plan<'_>,
    walked: &mut Walked,
    tried: Try,
    key: &mut Key,
) -> Result<Result<Option<Trial>, Halt>, AllocError>
    ensures trial { IfOk result
        (λ led. IfOk led (λ found. IfSome found (λ trial. (x : Stored Standing)
        → IsThere (space_of plan.now.caps plan.now.script.now) x (world_of walked.old)
        → IsTrial (space_of plan.now.caps plan.now.script.now) x trial))) }
    ensures tried { IfOk result
        (λ led. IfOk led (λ found. IfSome found (λ trial. trial.tried ≡ tried))) }
    ensures led { IfOk result
        (λ led. IfOk led (λ found. IfSome found (λ trial. IsLed (parties_of plan.now.script.now)
        (world_of walked.old) tried (world_of walked.new)))) }
    ensures key { IfOk result
        (λ led. IfOk led (λ found. IfSome found
        (λ trial. trial.key.items ≡ world_bytes (world_of walked.new)))) }
    ensures none { IfOk result
        (λ led. IfOk led (λ found. IfNone found
        (HasLabels walked.old
        → is_filled walked.old.machine.device ≡ false
        → CannotMake plan.now.script.now (world_of walked.old) tried))) }
    ensures labels { IfOk result
        (λ led. IfOk led (λ found. IfSome found
        (λ trial. HasLabels walked.old → HasLabels walked.new))) }
    ensures long { IfOk result
        (λ led. IfErr led (λ halt. (halt ≡ KeyBytes)
        × ((reply : Reply) × (world_after (parties_of plan.now.script.now) (world_of walked.old)
        tried.by reply ≡ Some (world_of walked.new))
        × (key.old.line.capacity < length (world_bytes (world_of walked.new)))))) }
    ensures room { OnOk result (key.new.line.capacity ≡ key.old.line.capacity) }
{
    let mut rows = Vec::new(alloc);
    let Some(reply) = make_told(alloc, plan, &mut rows, walked, 0, tried)? else {
        return Ok(Ok(None));
    };
    if !write_world(walked, key)? {
        return Ok(Err(Halt::KeyBytes));
    }
    let bytes = Vec::from_slice(alloc, key.bytes.as_slice())?;
    Ok(Ok(Some(Trial {
        tried,
        taken: as_taken(tried, reply),
        rows,
        key: bytes,
    })))
}

// Whether the key is that of the stored world of this number.
fn is_key_of(search: &Search, number: u32, key: &[u8]) -> bool
    ensures { result ≡ true → slice_get search.now.seen.strings number ≡ Some key.now }
{
    if number >= search.seen.len() {
        return false;
    }
    search.seen.get(number) == key
}

// Whether the try was made and led back to the stored world of this number.
fn led_back(search: &Search, number: u32, led: &Option<Trial>) -> bool
    ensures back { result ≡ true → IfSome led.now
        (λ trial. slice_get search.now.seen.strings number ≡ Some trial.key.items) }
    ensures made { result ≡ true → IfNone led.now ⊥ }
{
    let Some(trial) = led else {
        return false;
    };
    is_key_of(search, number, trial.key.as_slice())
}

// Adds what came of the try, if it was made.
fn add_trial(trials: &mut Vec<Trial>, led: Option<Trial>) -> Result<(), AllocError>
    ensures some { OnOk result
        (IfSome led (λ trial. trials.new.items ≡ trials.old.items ++ trial ∷ [])) }
    ensures none { OnOk result (IfNone led (trials.new.items ≡ trials.old.items)) }
{
    if let Some(trial) = led {
        trials.push(trial)?;
    }
    Ok(())
}

// Makes all these tries from the stored world of this number, as far as no bound is met.
fn try_all(
    alloc: Global,
    plan: &Plan<'_>,
    search: &Search,
    at_first: Box<Walked>,
    number: u32,
    tries: &[Try],
    key: &mut Key,
) -> Result<Expansion, AllocError>
    ensures trials { IfOk result (λ expansion. (first : World Standing)
        → (table : List (Stored Standing))
        → (x : Stored Standing)
        → IsFirst plan.now.caps plan.now.script.now plan.now.setup.now first
        → IsSearch (space_of plan.now.caps plan.now.script.now) first search.now table
        → slice_get table number ≡ Some x
        → IsThere (space_of plan.now.caps plan.now.script.now) x (world_of at_first.value)
        → HasLabels at_first.value
        → AreTrials (space_of plan.now.caps plan.now.script.now) (length plan.now.setup.now)
        key.old.line.capacity x tries.now expansion) }
    ensures room { OnOk result (key.new.line.capacity ≡ key.old.line.capacity) }
{
    let mut walked = at_first;
    let mut is_there = true;
    let mut trials = Vec::new(alloc);
    for tried in tries {
        let mut here = match come(alloc, plan, search, walked, is_there, number)? {
            Ok(here) => here,
            Err(halt) => return Ok(halted_at(trials, halt)),
        };
        let led = match attempt(alloc, plan, &mut here, *tried, key)? {
            Ok(led) => led,
            Err(halt) => return Ok(halted_at(trials, halt)),
        };
        is_there = led_back(search, number, &led);
        add_trial(&mut trials, led)?;
        walked = here;
    }
    Ok(Expansion {
        trials,
        halted: None,
    })
}

// So far came the tries until this bound was met.
fn halted_at(trials: Vec<Trial>, halt: Halt) -> Expansion
    ensures trials { result.trials ≡ trials }
    ensures halted { result.halted ≡ Some halt }
{
    Expansion {
        trials,
        halted: Some(halt),
    }
}

// Makes all tries from the stored world of this number, as far as no bound is met.
fn expansion_of(
    alloc: Global,
    plan: &Plan<'_>,
    search: &Search,
    number: u32,
    key: &mut Key,
) -> Result<Expansion, AllocError>
    ensures expansion { IfOk result (λ expansion. (first : World Standing)
        → (table : List (Stored Standing))
        → (x : Stored Standing)
        → IsFirst plan.now.caps plan.now.script.now plan.now.setup.now first
        → IsSearch (space_of plan.now.caps plan.now.script.now) first search.now table
        → slice_get table number ≡ Some x
        → IsWholeExpansion (space_of plan.now.caps plan.now.script.now) (length plan.now.setup.now)
        key.old.line.capacity x expansion) }
    ensures room { OnOk result (key.new.line.capacity ≡ key.old.line.capacity) }
{
    let walked = match go_to(alloc, plan, search, number)? {
        Ok(walked) => walked,
        Err(halt) => return Ok(halted_at(Vec::new(alloc), halt)),
    };
    let tries = tries_at(alloc, plan, &walked)?;
    let expansion = try_all(alloc, plan, search, walked, number, tries.as_slice(), key)?;
    Ok(expansion)
}

/// Makes all tries from the stored worlds of these numbers, the last one left out. A key may have
/// so many bytes.
pub fn expansions_of(
    alloc: Global,
    plan: &Plan<'_>,
    search: &Search,
    width: u32,
    from: u32,
    to: u32,
) -> Result<Vec<Expansion>, AllocError>
    requires { from ≤ to }
    ensures each { IfOk result (λ expansions. (first : World Standing)
        → (table : List (Stored Standing))
        → IsFirst plan.now.caps plan.now.script.now plan.now.setup.now first
        → IsSearch (space_of plan.now.caps plan.now.script.now) first search.now table
        → AreExpansions (space_of plan.now.caps plan.now.script.now) (length plan.now.setup.now)
        width table from expansions.items) }
    ensures count { IfOk result (λ expansions. from + length expansions.items ≡ to) }
{
    let mut key = Key::new(alloc, width)?;
    let mut expansions = Vec::new(alloc);
    for number in from..to {
        let expansion = expansion_of(alloc, plan, search, number, &mut key)?;
        expansions.push(expansion)?;
    }
    Ok(expansions)
}
