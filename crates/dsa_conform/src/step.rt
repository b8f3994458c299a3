//! One step of one device, where nothing is to be chosen.

ghost use Rattle.std.specs.Prelude.{◌≡◌, ◌+◌, ◌++◌, ◌∷◌, [], ℕ, List, IfOk, string_bytes};
ghost use Rattle.dsa_regs.specs.declared.Caps.{Caps};
ghost use Rattle.dsa_scenario.specs.Run.{event_of};
ghost use Rattle.dsa_scenario.specs.declared.actions.Action.{Action};
ghost use Rattle.dsa_explain_lines.specs.Parts.{part_of};
ghost use Rattle.dsa_conform.specs.Seen.{Seen, seen_as};
ghost use Rattle.dsa_conform.specs.Run.{IsFollowedTo};
ghost use Rattle.dsa_conform.specs.Ways.{IsFollowedOn, IsNamedEnd, IsOn, IsOneWay};

use crate::against::fact_against;
use crate::following::{Followed, follow};
use crate::observed::Observed;
use crate::told::Told;
use crate::way::Way;
use dsa_book::Event;
use dsa_device::Device;
use dsa_explain_lines::add_part;
use dsa_scenario::{Action, Asked, ask, event_for, note_ticket};
use dsa_store::EntryStore;
use std::alloc::{AllocError, Global};

// Why the device answers what is asked as it does.
fn reason_of<S: EntryStore>(
    alloc: Global,
    device: &Device<S>,
    asked: &Asked,
) -> Result<String, AllocError>
    ensures { IfOk result (λ told. string_bytes told ≡ part_of device.now asked.now) }
{
    let mut told = String::new(alloc);
    add_part(&mut told, device, asked)?;
    Ok(told)
}

/// A step where all answers that show what was seen tell of the same queue, or of none: the device
/// goes on, or what it allows is told.
pub fn walk_step(
    alloc: Global,
    way: &mut Way,
    action: Action,
    seen: &Observed<'_>,
) -> Result<Option<Told>, AllocError>
    requires { (caps : Caps) → (capacity : ℕ) → (done : List (Action × Seen)) → (number : ℕ)
        → (h : IsFollowedTo caps capacity done number way.old.device way.old.tickets.items)
        → IsOneWay way.old.device (event_of h.records action) (seen_as seen.now) }
    ensures { IfOk result (λ told. (caps : Caps) → (capacity : ℕ) → (done : List (Action × Seen))
        → (number : ℕ)
        → IsNamedEnd action
        → (h : IsFollowedTo caps capacity done number way.old.device way.old.tickets.items)
        → IsFollowedOn caps capacity (done ++ (action, seen_as seen.now) ∷ []) (number + 1)
        way.new told
        × IsOn way.old.device (event_of h.records action) (seen_as seen.now) way.new told) }
{
    let asked = event_for(way.tickets.as_slice(), action);
    if !seen.is_seen() {
        let entry = ask(&mut way.device, &asked);
        note_ticket(&mut way.tickets, &entry)?;
        return Ok(None);
    }
    let why = reason_of(alloc, &way.device, &asked)?;
    let against = fact_against(alloc, &way.device, &asked, seen, why.as_str())?;
    let followed = follow(alloc, &mut way.device, &asked, seen)?;
    match followed {
        Followed::Shown(entry) => {
            note_ticket(&mut way.tickets, &entry)?;
            Ok(None)
        }
        Followed::Differs(allowed) => Ok(Some(Told {
            why,
            against,
            allowed,
        })),
    }
}
