//! The search: stored worlds are expanded in the order of their numbers, part by part. What comes
//! of the tries from a part is noted world by world.

ghost use Rattle.std.specs.Prelude.{◌≡◌, ℕ, ◌+◌, ◌≤◌, ◌<◌, ◌^◌, ◌∷◌, [], length, List, Some, IfOk, IfSome, IfNone, OnOk};
ghost use Rattle.std.specs.Prelude.{map, slice_get, true, false};
ghost use Rattle.dsa_base.specs.Lists.{In};
ghost use Rattle.dsa_regs.specs.declared.Caps.{Caps};
ghost use Rattle.dsa_keys.specs.Parties.{World, Stored};
ghost use Rattle.dsa_parties.specs.Standing.{Standing};
ghost use Rattle.dsa_parties.specs.declared.script.Script.{Script};
ghost use Rattle.dsa_explore.specs.Halting.{IsHalted};
ghost use Rattle.dsa_explore.specs.Search.{IsFine};
ghost use Rattle.dsa_explore.specs.Stored.{IsAdvanced};
ghost use Rattle.dsa_explore.specs.Trials.{AreExpansions, IsAhead, IsWholeExpansion, IsTrial};
ghost use Rattle.dsa_explore.specs.Trying.{AreTried, HasReached, IsAt, IsExpandedAt, IsSearch, IsSearched};
ghost use Rattle.dsa_explore.specs.Walked.{space_of, IsFirst};

use crate::crews::Crew;
use crate::halting::Halt;
use crate::search::Bounds;
use crate::stored::{Node, Search, note};
use crate::trials::{Expansion, Trial};
use crate::trying::has_room;
use crate::walked::Plan;
use std::alloc::{AllocError, Global};

/// How many stored worlds a part has for each thread.
const PART: u32 = 64;

/// The node of the world with this number.
pub fn node_of(search: &Search, number: u32) -> Option<Node>
    ensures { result ≡ slice_get search.now.nodes.items number }
{
    search.nodes.get(number as usize).copied()
}

// The front moves to the level behind this one. False where it stands further on.
fn advance(search: &mut Search, level: u32) -> bool
    ensures moved { result ≡ true → IsAdvanced search.old level search.new }
    ensures kept { result ≡ false → search.new ≡ search.old }
    ensures further { result ≡ false
        → level + 1 < 2 ^ 32
        → search.old.front ≤ level + 1
        → ⊥ }
{
    let Some(front) = level.checked_add(1) else {
        return false;
    };
    if search.front > front {
        return false;
    }
    search.front = front;
    true
}

// Notes what came of a try from the stored world of this number, or says why the search halts.
fn note_trial(search: &mut Search, number: u32, trial: &Trial) -> Result<Option<Halt>, AllocError>
    ensures noted { IfOk result
        (λ halted. IfNone halted ((caps : Caps)
        → (script : Script)
        → (first : World Standing)
        → (table : List (Stored Standing))
        → (x : Stored Standing)
        → IsAt (space_of caps script) first search.old table number x
        → IsTrial (space_of caps script) x trial.now
        → AreTried (space_of caps script) first search.old table number x (trial.now.tried ∷ [])
        search.new)) }
    ensures halted { IfOk result
        (λ halted. IfSome halted (λ halt. (caps : Caps)
        → (script : Script)
        → (first : World Standing)
        → (table : List (Stored Standing))
        → (x : Stored Standing)
        → (set_up : ℕ)
        → IsAt (space_of caps script) first search.old table number x
        → IsTrial (space_of caps script) x trial.now
        → IsHalted (space_of caps script) first set_up search.new halt)) }
    ensures most { OnOk result (search.new.seen.most ≡ search.old.seen.most) }
    ensures width { OnOk result (search.new.seen.width ≡ search.old.seen.width) }
    ensures front { OnOk result (search.new.front ≡ search.old.front) }
{
    let rows = trial.rows.as_slice();
    let noted = note(search, rows, trial.key.as_slice(), number, trial.taken)?;
    match noted {
        Ok(_at) => Ok(None),
        Err(halt) => Ok(Some(halt)),
    }
}

// Notes what came of these tries from the stored world of this number, or says why the search
// halts.
fn note_trials(
    search: &mut Search,
    number: u32,
    trials: &[Trial],
) -> Result<Option<Halt>, AllocError>
    ensures noted { IfOk result
        (λ halted. IfNone halted ((caps : Caps)
        → (script : Script)
        → (first : World Standing)
        → (table : List (Stored Standing))
        → (x : Stored Standing)
        → IsAt (space_of caps script) first search.old table number x
        → ((trial : Trial) → In trial trials.now → IsTrial (space_of caps script) x trial)
        → AreTried (space_of caps script) first search.old table number x
        (map (λ trial. trial.tried) trials.now) search.new)) }
    ensures halted { IfOk result
        (λ halted. IfSome halted (λ halt. (caps : Caps)
        → (script : Script)
        → (first : World Standing)
        → (table : List (Stored Standing))
        → (x : Stored Standing)
        → (set_up : ℕ)
        → IsAt (space_of caps script) first search.old table number x
        → ((trial : Trial) → In trial trials.now → IsTrial (space_of caps script) x trial)
        → IsHalted (space_of caps script) first set_up search.new halt)) }
    ensures most { OnOk result (search.new.seen.most ≡ search.old.seen.most) }
    ensures width { OnOk result (search.new.seen.width ≡ search.old.seen.width) }
    ensures front { OnOk result (search.new.front ≡ search.old.front) }
{
    for trial in trials {
        if let Some(halt) = note_trial(search, number, trial)? {
            return Ok(Some(halt));
        }
    }
    Ok(None)
}

// Notes what came of all tries from the stored world of this number, or says why the search halts.
fn expand(
    plan: &Plan<'_>,
    search: &mut Search,
    number: u32,
    expansion: &Expansion,
) -> Result<Option<Halt>, AllocError>
    requires { number + 1 < 2 ^ 32 }
    ensures expanded { IfOk result
        (λ halted. IfNone halted ((first : World Standing)
        → (table : List (Stored Standing))
        → (x : Stored Standing)
        → (width : ℕ)
        → IsSearch (space_of plan.now.caps plan.now.script.now) first search.old table
        → slice_get table number ≡ Some x
        → IsWholeExpansion (space_of plan.now.caps plan.now.script.now) (length plan.now.setup.now)
        width x expansion.now
        → IsExpandedAt (space_of plan.now.caps plan.now.script.now) first search.old table number x
        search.new)) }
    ensures halted { IfOk result
        (λ halted. IfSome halted (λ halt. (first : World Standing)
        → (table : List (Stored Standing))
        → (x : Stored Standing)
        → (width : ℕ)
        → IsSearch (space_of plan.now.caps plan.now.script.now) first search.old table
        → slice_get table number ≡ Some x
        → search.old.front ≤ x.level + 1
        → width ≡ search.old.seen.width
        → IsWholeExpansion (space_of plan.now.caps plan.now.script.now) (length plan.now.setup.now)
        width x expansion.now
        → IsHalted (space_of plan.now.caps plan.now.script.now) first (length plan.now.setup.now)
        search.new halt)) }
    ensures early { OnOk result (length plan.now.setup.now + search.old.front ≤ 2 ^ 20
        → length plan.now.setup.now + search.new.front ≤ 2 ^ 20) }
    ensures most { OnOk result (search.new.seen.most ≡ search.old.seen.most) }
    ensures width { OnOk result (search.new.seen.width ≡ search.old.seen.width) }
{
    let Some(node) = node_of(search, number) else {
        return Ok(Some(Halt::Lost));
    };
    if !has_room(plan, node.level) {
        return Ok(Some(Halt::Steps));
    }
    if !advance(search, node.level) {
        return Ok(Some(Halt::Lost));
    }
    if let Some(halt) = note_trials(search, number, expansion.trials.as_slice())? {
        return Ok(Some(halt));
    }
    Ok(expansion.halted)
}

// Notes these expansions, which are those of the stored worlds from this number on, or says why the
// search halts.
fn expand_part(
    plan: &Plan<'_>,
    search: &mut Search,
    from: u32,
    expansions: &[Expansion],
) -> Result<Option<Halt>, AllocError>
    requires { from + length expansions.now < 2 ^ 32 }
    ensures ahead { IfOk result
        (λ halted. IfNone halted ((first : World Standing)
        → (table : List (Stored Standing))
        → (width : ℕ)
        → (a : IsAhead (space_of plan.now.caps plan.now.script.now) first table search.old from)
        → from + length expansions.now ≤ length a.more
        → AreExpansions (space_of plan.now.caps plan.now.script.now) (length plan.now.setup.now)
        width a.more from expansions.now
        → IsAhead (space_of plan.now.caps plan.now.script.now) first table search.new
        (from + length expansions.now))) }
    ensures halted { IfOk result
        (λ halted. IfSome halted (λ halt. (first : World Standing)
        → (table : List (Stored Standing))
        → (width : ℕ)
        → (a : IsAhead (space_of plan.now.caps plan.now.script.now) first table search.old from)
        → from + length expansions.now ≤ length a.more
        → width ≡ search.old.seen.width
        → AreExpansions (space_of plan.now.caps plan.now.script.now) (length plan.now.setup.now)
        width a.more from expansions.now
        → IsHalted (space_of plan.now.caps plan.now.script.now) first (length plan.now.setup.now)
        search.new halt)) }
    ensures early { OnOk result (length plan.now.setup.now + search.old.front ≤ 2 ^ 20
        → length plan.now.setup.now + search.new.front ≤ 2 ^ 20) }
    ensures most { OnOk result (search.new.seen.most ≡ search.old.seen.most) }
    ensures width { OnOk result (search.new.seen.width ≡ search.old.seen.width) }
{
    let mut number = from;
    for expansion in expansions {
        if let Some(halt) = expand(plan, search, number, expansion)? {
            return Ok(Some(halt));
        }
        number += 1;
    }
    Ok(None)
}

// The number behind the part that begins with this number: a part has so many worlds for each of
// the threads, one at least, and none that is not stored.
fn end_of_part(number: u32, stored: u32, threads: u32) -> u32
    requires { number < stored }
    ensures some { number < result }
    ensures stored { result ≤ stored }
{
    let size = threads.saturating_mul(PART).max(1);
    number.saturating_add(size).min(stored)
}

/// Expands each stored world, or says why the search halts.
pub fn expand_all<C: Crew>(
    alloc: Global,
    plan: &Plan<'_>,
    search: &mut Search,
    bounds: Bounds,
    crew: &C,
) -> Result<Option<Halt>, AllocError>
    requires { search.old.seen.most ≡ bounds.states }
    ensures searched { IfOk result
        (λ halted. IfNone halted ((first : World Standing)
        → (table : List (Stored Standing))
        → IsFine (space_of plan.now.caps plan.now.script.now) first
        → IsFirst plan.now.caps plan.now.script.now plan.now.setup.now first
        → search.old.front ≡ 0
        → IsSearch (space_of plan.now.caps plan.now.script.now) first search.old table
        → IsSearched (space_of plan.now.caps plan.now.script.now) first search.new true)) }
    ensures reached { IfOk result
        (λ halted. IfNone halted ((first : World Standing)
        → (table : List (Stored Standing))
        → IsFine (space_of plan.now.caps plan.now.script.now) first
        → IsFirst plan.now.caps plan.now.script.now plan.now.setup.now first
        → search.old.front ≡ 0
        → IsSearch (space_of plan.now.caps plan.now.script.now) first search.old table
        → HasReached (space_of plan.now.caps plan.now.script.now) first search.new)) }
    ensures halted { IfOk result
        (λ halted. IfSome halted (λ halt. (first : World Standing)
        → (table : List (Stored Standing))
        → IsFirst plan.now.caps plan.now.script.now plan.now.setup.now first
        → search.old.front ≡ 0
        → IsSearch (space_of plan.now.caps plan.now.script.now) first search.old table
        → bounds.key_bytes ≡ search.old.seen.width
        → IsHalted (space_of plan.now.caps plan.now.script.now) first (length plan.now.setup.now)
        search.new halt)) }
    ensures early { OnOk result (length plan.now.setup.now + search.old.front ≤ 2 ^ 20
        → length plan.now.setup.now + search.new.front ≤ 2 ^ 20) }
    ensures most { OnOk result (search.new.seen.most ≡ search.old.seen.most) }
    ensures width { OnOk result (search.new.seen.width ≡ search.old.seen.width) }
{
    let mut number = 0;
    while number < search.seen.len() {
        let end = end_of_part(number, search.seen.len(), crew.threads());
        let width = bounds.key_bytes;
        let expansions = crew.expansions(alloc, plan, search, width, number, end)?;
        if let Some(halt) = expand_part(plan, search, number, expansions.as_slice())? {
            return Ok(Some(halt));
        }
        number = end;
    }
    Ok(None)
}
