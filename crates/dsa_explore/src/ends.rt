//! How runs can end: the stored worlds from which no move leads on.

ghost use Rattle.std.specs.Prelude.{◌≡◌, ◌≤◌, ◌^◌, ◌+◌, ◌++◌, ◌<◌, ℕ, List, Some, IfNone, IfOk, IfSome, OnOk, flat_map, length, nat_lt, slice_get, true, false};
ghost use Rattle.dsa_base.specs.Numbers.{numbers_below};
ghost use Rattle.dsa_store.specs.Content.{all_held};
ghost use Rattle.dsa_keys.specs.Parties.{World, Stored};
ghost use Rattle.dsa_parties.specs.declared.places.Move.TheVariants as move;
ghost use Rattle.dsa_parties.specs.Offers.{parties_of};
ghost use Rattle.dsa_parties.specs.Standing.{Standing, stand_of};
ghost use Rattle.dsa_explore.specs.declared.found.Ending.{Ending};
ghost use Rattle.dsa_explore.specs.Ends.{AreEndingsOf, AreLikeEndings, IsDecided, IsLastWorld, IsEndingOf, IsLed, IsEndingNoted, IsWorldNoted, AreDecided, with_fewer_steps, holds_entries};
ghost use Rattle.dsa_explore.specs.Asks.{ask_of, asked, asks_left};
ghost use Rattle.dsa_explore.specs.Keys.{world_bytes};
ghost use Rattle.dsa_explore.specs.Ready.{is_filled, CannotMake, HasLabels};
ghost use Rattle.dsa_explore.specs.Trying.{HasRoomBehind, IsSearch, IsThere};
ghost use Rattle.dsa_explore.specs.Walked.{space_of, world_of, IsFirst};

use crate::expanding::node_of;
use crate::found::{Ask, Ending};
use crate::keys::{Key, write_world};
use crate::making::make;
use crate::stored::{Search, Try};
use crate::tries::tries_at;
use crate::trying::{come, go_to};
use crate::walked::{Plan, Walked, ask_of};
use dsa_device::Device;
use dsa_explain::entries_of_list;
use dsa_parties::Move;
use dsa_regs::list_count;
use dsa_store::{EntryStore, Walk};
use std::alloc::{AllocError, Global};

// ---- what is left

// Adds what a party asks for, if it is not through.
fn add_ask(
    left: &mut Vec<Ask>,
    plan: &Plan<'_>,
    walked: &Walked,
    by: Move,
) -> Result<(), AllocError>
    ensures { OnOk result
        (left.new.items
        ≡ left.old.items
        ++ asked (ask_of plan.now.script.now (stand_of walked.now.places) by)) }
{
    if let Some(ask) = ask_of(plan, walked, by) {
        left.push(ask)?;
    }
    Ok(())
}

// Adds what the first clients ask for.
fn add_clients(
    left: &mut Vec<Ask>,
    plan: &Plan<'_>,
    walked: &Walked,
    count: usize,
) -> Result<(), AllocError>
    requires { count ≤ 2 ^ 16 }
    ensures { OnOk result
        (left.new.items
        ≡ left.old.items
        ++ flat_map
        (λ c. asked (ask_of plan.now.script.now (stand_of walked.now.places) (move.Client c)))
        (numbers_below count)) }
{
    for client in 0..count {
        add_ask(left, plan, walked, Move::Client(client as u16))?;
    }
    Ok(())
}

// Adds what the first administrators ask for.
fn add_administrators(
    left: &mut Vec<Ask>,
    plan: &Plan<'_>,
    walked: &Walked,
    count: usize,
) -> Result<(), AllocError>
    requires { count ≤ 2 ^ 16 }
    ensures { OnOk result
        (left.new.items
        ≡ left.old.items
        ++ flat_map
        (λ a. asked
        (ask_of plan.now.script.now (stand_of walked.now.places) (move.Administrator a)))
        (numbers_below count)) }
{
    for administrator in 0..count {
        add_ask(
            left,
            plan,
            walked,
            Move::Administrator(administrator as u16),
        )?;
    }
    Ok(())
}

// What the parties still ask for.
fn asks_left(alloc: Global, plan: &Plan<'_>, walked: &Walked) -> Result<Vec<Ask>, AllocError>
    ensures { IfOk result
        (λ left. left.items ≡ asks_left plan.now.script.now (stand_of walked.now.places)) }
{
    let mut left = Vec::new(alloc);
    add_clients(&mut left, plan, walked, plan.script.clients.len())?;
    add_administrators(&mut left, plan, walked, plan.script.administrators.len())?;
    Ok(left)
}

// Whether there is one of these entries.
fn has_entry<S: EntryStore>(mut entries: Walk<'_, S>) -> bool
    ensures { result ≡ nat_lt 0 (length entries.entry) }
{
    match entries.next() {
        Some(_) => true,
        None => false,
    }
}

// Whether a list of the device holds an entry.
fn holds_entries<S: EntryStore>(device: &Device<S>) -> bool
    ensures { result ≡ holds_entries device.now.state }
{
    device.state_is_replay();
    let caps = device.caps();
    for number in 0..list_count(&caps) {
        let entries = entries_of_list(device, caps.list_use(number));
        if has_entry(entries) {
            return true;
        }
    }
    false
}

// ---- one world

// Makes the try, and says whether it leads back to the stored world of this number. `None` where it
// cannot be made.
fn leads_back(
    alloc: Global,
    plan: &Plan<'_>,
    search: &Search,
    walked: &mut Walked,
    number: u32,
    tried: Try,
    key: &mut Key,
) -> Result<Option<bool>, AllocError>
    ensures led { IfOk result
        (λ found. IfSome found
        (λ back. IsLed (parties_of plan.now.script.now) (world_of walked.old) tried
        (world_of walked.new))) }
    ensures back { IfOk result
        (λ found. found ≡ Some true → slice_get search.now.seen.strings number
        ≡ Some (world_bytes (world_of walked.new))) }
    ensures away { IfOk result
        (λ found. found ≡ Some false → key.old.line.capacity ≡ search.now.seen.width
        → slice_get search.now.seen.strings number
        ≡ Some (world_bytes (world_of walked.new)) → ⊥) }
    ensures none { IfOk result
        (λ found. IfNone found
        (HasLabels walked.old
        → is_filled walked.old.machine.device ≡ false
        → CannotMake plan.now.script.now (world_of walked.old) tried)) }
    ensures labels { IfOk result
        (λ found. IfSome found (λ back. HasLabels walked.old → HasLabels walked.new)) }
    ensures room { OnOk result (key.new.line.capacity ≡ key.old.line.capacity) }
{
    let Some(_) = make(alloc, plan, walked, tried)? else {
        return Ok(None);
    };
    if number >= search.seen.len() {
        return Ok(Some(false));
    }
    let stored = search.seen.get(number);
    if !write_world(walked, key)? {
        return Ok(Some(false));
    }
    Ok(Some(stored == key.bytes.as_slice()))
}

// Whether none of these tries leads on from the stored world of this number. `None` where no device
// comes there any more.
fn none_leads_on(
    alloc: Global,
    plan: &Plan<'_>,
    search: &Search,
    at_first: Box<Walked>,
    number: u32,
    tries: &[Try],
    key: &mut Key,
) -> Result<Option<bool>, AllocError>
    ensures decided { IfOk result
        (λ found. IfSome found (λ none. (first : World Standing)
        → (table : List (Stored Standing))
        → (x : Stored Standing)
        → IsFirst plan.now.caps plan.now.script.now plan.now.setup.now first
        → IsSearch (space_of plan.now.caps plan.now.script.now) first search.now table
        → slice_get table number ≡ Some x
        → IsThere (space_of plan.now.caps plan.now.script.now) x (world_of at_first.value)
        → HasLabels at_first.value
        → key.old.line.capacity ≡ search.now.seen.width
        → AreDecided (space_of plan.now.caps plan.now.script.now) x tries.now none)) }
    ensures none { IfOk result
        (λ found. IfNone found ((first : World Standing)
        → (table : List (Stored Standing))
        → (x : Stored Standing)
        → IsFirst plan.now.caps plan.now.script.now plan.now.setup.now first
        → IsSearch (space_of plan.now.caps plan.now.script.now) first search.now table
        → slice_get table number ≡ Some x
        → 2 ^ 20 ≤ length plan.now.setup.now + x.level)) }
    ensures room { OnOk result (key.new.line.capacity ≡ key.old.line.capacity) }
{
    let mut walked = at_first;
    let mut is_there = true;
    for tried in tries {
        let Ok(mut here) = come(alloc, plan, search, walked, is_there, number)? else {
            return Ok(None);
        };
        let led = leads_back(alloc, plan, search, &mut here, number, *tried, key)?;
        walked = here;
        let Some(back) = led else {
            is_there = false;
            continue;
        };
        if !back {
            return Ok(Some(false));
        }
        is_there = true;
    }
    Ok(Some(true))
}

// Whether no move leads on from the stored world of this number. `None` where no device comes there
// any more.
fn is_end(
    alloc: Global,
    plan: &Plan<'_>,
    search: &Search,
    number: u32,
    key: &mut Key,
) -> Result<Option<bool>, AllocError>
    ensures decided { IfOk result
        (λ found. IfSome found (λ is. (first : World Standing)
        → (table : List (Stored Standing))
        → (x : Stored Standing)
        → IsFirst plan.now.caps plan.now.script.now plan.now.setup.now first
        → IsSearch (space_of plan.now.caps plan.now.script.now) first search.now table
        → slice_get table number ≡ Some x
        → key.old.line.capacity ≡ search.now.seen.width
        → IsDecided (IsLastWorld (parties_of plan.now.script.now) x.world) is)) }
    ensures none { IfOk result
        (λ found. IfNone found ((first : World Standing)
        → (table : List (Stored Standing))
        → (x : Stored Standing)
        → IsFirst plan.now.caps plan.now.script.now plan.now.setup.now first
        → IsSearch (space_of plan.now.caps plan.now.script.now) first search.now table
        → slice_get table number ≡ Some x
        → 2 ^ 20 ≤ length plan.now.setup.now + x.level)) }
    ensures room { OnOk result (key.new.line.capacity ≡ key.old.line.capacity) }
{
    let Ok(walked) = go_to(alloc, plan, search, number)? else {
        return Ok(None);
    };
    let tries = tries_at(alloc, plan, &walked)?;
    let none = none_leads_on(alloc, plan, search, walked, number, tries.as_slice(), key)?;
    Ok(none)
}

// The ending of a run in the stored world of this number. `None` where no device comes there any
// more.
fn ending_at(
    alloc: Global,
    plan: &Plan<'_>,
    search: &Search,
    number: u32,
) -> Result<Option<Ending>, AllocError>
    ensures ending { IfOk result
        (λ found. IfSome found (λ ending. (first : World Standing)
        → (table : List (Stored Standing))
        → (x : Stored Standing)
        → IsFirst plan.now.caps plan.now.script.now plan.now.setup.now first
        → IsSearch (space_of plan.now.caps plan.now.script.now) first search.now table
        → slice_get table number ≡ Some x
        → IsEndingOf plan.now.script.now ending x.world × (ending.steps ≡ x.level))) }
    ensures none { IfOk result
        (λ found. IfNone found ((first : World Standing)
        → (table : List (Stored Standing))
        → (x : Stored Standing)
        → IsFirst plan.now.caps plan.now.script.now plan.now.setup.now first
        → IsSearch (space_of plan.now.caps plan.now.script.now) first search.now table
        → slice_get table number ≡ Some x
        → 2 ^ 20 ≤ length plan.now.setup.now + x.level)) }
{
    let Some(node) = node_of(search, number) else {
        return Ok(None);
    };
    let Ok(walked) = go_to(alloc, plan, search, number)? else {
        return Ok(None);
    };
    let left = asks_left(alloc, plan, &walked)?;
    Ok(Some(Ending {
        left,
        holds_entries: holds_entries(&walked.machine.device),
        steps: node.level,
    }))
}

// ---- all of them

fn is_same_ask(ask: &Ask, other: &Ask) -> bool
    ensures same { result ≡ true → ask.now ≡ other.now }
    ensures other { result ≡ false → ask.now ≡ other.now → ⊥ }
{
    *ask == *other
}

// Whether the same is left, in the same order.
fn are_same_asks(asks: &[Ask], others: &[Ask]) -> bool
    ensures same { result ≡ true → asks.now ≡ others.now }
    ensures other { result ≡ false → asks.now ≡ others.now → ⊥ }
{
    if asks.len() != others.len() {
        return false;
    }
    for i in 0..asks.len() {
        if !is_same_ask(&asks[i], &others[i]) {
            return false;
        }
    }
    true
}

// Whether the same is left, and entries are held in both or in neither.
fn are_alike(ending: &Ending, other: &Ending) -> bool
    ensures alike { result ≡ true → AreLikeEndings ending.now other.now }
    ensures other { result ≡ false → AreLikeEndings ending.now other.now → ⊥ }
{
    ending.holds_entries == other.holds_entries
        && are_same_asks(ending.left.as_slice(), other.left.as_slice())
}

// Whether the ending at this place is like this one.
fn is_alike_at(endings: &[Ending], i: usize, ending: &Ending) -> bool
    requires { i < length endings.now }
    ensures alike { result ≡ true → IfSome (slice_get endings.now i)
        (λ other. AreLikeEndings other ending.now) }
    ensures other { result ≡ false → IfSome (slice_get endings.now i)
        (λ other. AreLikeEndings other ending.now → ⊥) }
{
    are_alike(&endings[i], ending)
}

// The place of an ending like this one.
fn place_of(endings: &[Ending], ending: &Ending) -> Option<usize>
    ensures inside { IfSome result (λ i. i < length endings.now) }
    ensures alike { IfSome result
        (λ i. IfSome (slice_get endings.now i) (λ other. AreLikeEndings other ending.now)) }
    ensures none { IfNone result ((i : ℕ)
        → (other : Ending)
        → slice_get endings.now i ≡ Some other
        → AreLikeEndings other ending.now
        → ⊥) }
{
    for i in 0..endings.len() {
        if is_alike_at(endings, i, ending) {
            return Some(i);
        }
    }
    None
}

// The ending at this place has no more steps than these.
fn lower_steps(endings: &mut Vec<Ending>, i: usize, steps: u32)
    requires { i < length endings.old.items }
    ensures { endings.new.items ≡ with_fewer_steps endings.old.items i steps }
{
    if steps < endings[i].steps {
        endings[i].steps = steps;
    }
}

// Notes the ending. If one like it is there, that has the fewer steps of both.
fn note_ending(endings: &mut Vec<Ending>, ending: Ending) -> Result<(), AllocError>
    ensures { OnOk result (IsEndingNoted endings.old.items ending endings.new.items) }
{
    let Some(i) = place_of(endings.as_slice(), &ending) else {
        endings.push(ending)?;
        return Ok(());
    };
    lower_steps(endings, i, ending.steps);
    Ok(())
}

// Notes the ending of a run in the stored world of this number, if no move leads on from there.
// False where no device comes there any more.
fn note_at(
    alloc: Global,
    plan: &Plan<'_>,
    search: &Search,
    endings: &mut Vec<Ending>,
    number: u32,
    key: &mut Key,
) -> Result<bool, AllocError>
    ensures noted { IfOk result
        (λ goes_on. goes_on ≡ true → (first : World Standing)
        → (table : List (Stored Standing))
        → (x : Stored Standing)
        → IsFirst plan.now.caps plan.now.script.now plan.now.setup.now first
        → IsSearch (space_of plan.now.caps plan.now.script.now) first search.now table
        → slice_get table number ≡ Some x
        → key.old.line.capacity ≡ search.now.seen.width
        → IsWorldNoted plan.now.script.now endings.old.items x endings.new.items) }
    ensures stops { IfOk result
        (λ goes_on. goes_on ≡ false → (first : World Standing)
        → (table : List (Stored Standing))
        → (x : Stored Standing)
        → IsFirst plan.now.caps plan.now.script.now plan.now.setup.now first
        → IsSearch (space_of plan.now.caps plan.now.script.now) first search.now table
        → slice_get table number ≡ Some x
        → 2 ^ 20 ≤ length plan.now.setup.now + x.level) }
    ensures room { OnOk result (key.new.line.capacity ≡ key.old.line.capacity) }
{
    let Some(is_end) = is_end(alloc, plan, search, number, key)? else {
        return Ok(false);
    };
    if !is_end {
        return Ok(true);
    }
    let Some(ending) = ending_at(alloc, plan, search, number)? else {
        return Ok(false);
    };
    note_ending(endings, ending)?;
    Ok(true)
}

/// How runs can end, by the worlds that a search stored: an ending for each in which no party can
/// get on. `None` where a history has no room for the way to one of them, and one step more.
pub fn endings_of(
    alloc: Global,
    plan: &Plan<'_>,
    search: &Search,
    key: &mut Key,
) -> Result<Option<Vec<Ending>>, AllocError>
    ensures endings { IfOk result
        (λ found. IfSome found (λ endings. (first : World Standing)
        → (table : List (Stored Standing))
        → IsFirst plan.now.caps plan.now.script.now plan.now.setup.now first
        → IsSearch (space_of plan.now.caps plan.now.script.now) first search.now table
        → key.old.line.capacity ≡ search.now.seen.width
        → AreEndingsOf plan.now.script.now table endings.items)) }
    ensures none { IfOk result
        (λ found. IfNone found ((first : World Standing)
        → (table : List (Stored Standing))
        → IsFirst plan.now.caps plan.now.script.now plan.now.setup.now first
        → IsSearch (space_of plan.now.caps plan.now.script.now) first search.now table
        → HasRoomBehind (length plan.now.setup.now) table
        → ⊥)) }
{
    let mut endings = Vec::new(alloc);
    for number in 0..search.seen.len() {
        if !note_at(alloc, plan, search, &mut endings, number, key)? {
            return Ok(None);
        }
    }
    Ok(Some(endings))
}
