//! Receipts against a history.

ghost use Rattle.std.specs.Prelude.{◌≡◌, ◌↔◌, IsNone, IfSome};
ghost use Rattle.dsa_book.specs.Totals.{steps_of_actor, actor_of, same_actor};
ghost use Rattle.dsa_shared.specs.Compare.{DiffersFirstAt};

use dsa_book::{Actor, Step};

/// The first position at which the receipts and the actor's steps of the history differ, or at
/// which only one of the two lists has ended. `None` exactly where they are the same.
pub fn compare_receipts(history: &[Step], actor: Actor, receipts: &[Step]) -> Option<u64>
    ensures none { IsNone result ↔ (receipts.now ≡ steps_of_actor history.now actor) }
    ensures some { IfSome result (DiffersFirstAt receipts.now (steps_of_actor history.now actor)) }
{
    let mut at = 0;
    for step in history {
        if is_of(step, actor) {
            if at >= receipts.len() {
                return Some(at as u64);
            }
            if !receipts[at].is_same(step) {
                return Some(at as u64);
            }
            at += 1;
        }
    }
    if at < receipts.len() {
        Some(at as u64)
    } else {
        None
    }
}

fn is_of(step: &Step, actor: Actor) -> bool
    ensures { result ≡ same_actor (actor_of step.now.event) actor }
{
    match (step.event.actor(), actor) {
        (Actor::Client(a), Actor::Client(b)) => a == b,
        (Actor::Engine(a), Actor::Engine(b)) => a == b,
        (Actor::Admin, Actor::Admin) => true,
        _ => false,
    }
}
