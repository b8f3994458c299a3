//! All that has to be tried from a world.

ghost use Rattle.std.specs.Prelude.{◌≡◌, ◌<◌, ◌≤◌, ◌^◌, ℕ, Some, IfOk, OnOk, true};
ghost use Rattle.dsa_base.specs.Lists.{In};
ghost use Rattle.dsa_desc.specs.declared.Outcome.{Outcome};
ghost use Rattle.dsa_store.specs.Content.{HeldEntry};
ghost use Rattle.dsa_book.specs.declared.answer.Reply.{Reply};
ghost use Rattle.dsa_book.specs.Work.{qualifies};
ghost use Rattle.dsa_keys.specs.Parties.{World, world_after};
ghost use Rattle.dsa_parties.specs.declared.places.Move.{Move};
ghost use Rattle.dsa_parties.specs.declared.places.Move.TheVariants as move;
ghost use Rattle.dsa_parties.specs.Standing.{Standing};
ghost use Rattle.dsa_parties.specs.Offers.{parties_of};
ghost use Rattle.dsa_explore.specs.Rows.{labels_of};
ghost use Rattle.dsa_explore.specs.Search.{IsFine, queue_taken_from};
ghost use Rattle.dsa_explore.specs.Tries.{KeepsTries, ListsEngine, ListsMove};
ghost use Rattle.dsa_explore.specs.Walked.{space_of, world_of};

use crate::rows::label_of;
use crate::running::running_on;
use crate::stored::Try;
use crate::walked::{Plan, Walked, offer};
use dsa_desc::Outcome;
use dsa_parties::Move;
use dsa_store::{Cell, Entry};
use std::alloc::{AllocError, Global};

// Adds a dispatch by this queue, if the engine may take from it.
fn add_queue(
    tries: &mut Vec<Try>,
    walked: &Walked,
    engine: u16,
    queue: u16,
) -> Result<(), AllocError>
    ensures kept { OnOk result (KeepsTries tries.old.items tries.new.items) }
    ensures adds { OnOk result (qualifies walked.now.machine.device.state.work engine queue ≡ true
        → In (record { by = move.Dispatch engine; queue = Some queue }) tries.new.items) }
{
    let Some(_) = walked.machine.device.offered(engine, queue) else {
        return Ok(());
    };
    tries.push(Try {
        by: Move::Dispatch { engine },
        queue: Some(queue),
    })?;
    Ok(())
}

// Adds a dispatch by each queue that the engine may take from.
fn add_queues(tries: &mut Vec<Try>, walked: &Walked, engine: u16) -> Result<(), AllocError>
    ensures kept { OnOk result (KeepsTries tries.old.items tries.new.items) }
    ensures adds { OnOk result ((q : ℕ)
        → q < walked.now.machine.device.state.work.setup.caps.queues
        → qualifies walked.now.machine.device.state.work engine q ≡ true
        → In (record { by = move.Dispatch engine; queue = Some q }) tries.new.items) }
{
    walked.machine.device.state_is_replay();
    for queue in 0..walked.machine.device.caps().queues {
        add_queue(tries, walked, engine, queue)?;
    }
    Ok(())
}

// Adds a dispatch by each queue, if the move is one.
fn add_dispatches(tries: &mut Vec<Try>, walked: &Walked, by: Move) -> Result<(), AllocError>
    ensures kept { OnOk result (KeepsTries tries.old.items tries.new.items) }
    ensures adds { OnOk result ((engine q : ℕ)
        → by ≡ move.Dispatch engine
        → q < walked.now.machine.device.state.work.setup.caps.queues
        → qualifies walked.now.machine.device.state.work engine q ≡ true
        → In (record { by = by; queue = Some q }) tries.new.items) }
{
    let Move::Dispatch { engine } = by else {
        return Ok(());
    };
    add_queues(tries, walked, engine)?;
    Ok(())
}

// Adds the move if it is offered, and a dispatch by each queue too.
fn add_move(
    tries: &mut Vec<Try>,
    plan: &Plan<'_>,
    walked: &Walked,
    by: Move,
) -> Result<(), AllocError>
    ensures kept { OnOk result (KeepsTries tries.old.items tries.new.items) }
    ensures lists { OnOk result
        (ListsMove plan.now.script.now walked.now tries.new.items by) }
{
    let Some(_) = offer(plan.script, walked, by) else {
        return Ok(());
    };
    tries.push(Try { by, queue: None })?;
    add_dispatches(tries, walked, by)?;
    Ok(())
}

// Adds the moves of the clients.
fn add_clients(
    tries: &mut Vec<Try>,
    plan: &Plan<'_>,
    walked: &Walked,
    count: usize,
) -> Result<(), AllocError>
    requires { count ≤ 2 ^ 16 }
    ensures kept { OnOk result (KeepsTries tries.old.items tries.new.items) }
    ensures lists { OnOk result ((client : ℕ)
        → client < count
        → ListsMove plan.now.script.now walked.now tries.new.items (move.Client client)) }
{
    for client in 0..count {
        add_move(tries, plan, walked, Move::Client(client as u16))?;
    }
    Ok(())
}

// Adds the moves of the administrators.
fn add_administrators(
    tries: &mut Vec<Try>,
    plan: &Plan<'_>,
    walked: &Walked,
    count: usize,
) -> Result<(), AllocError>
    requires { count ≤ 2 ^ 16 }
    ensures kept { OnOk result (KeepsTries tries.old.items tries.new.items) }
    ensures lists { OnOk result ((administrator : ℕ)
        → administrator < count
        → ListsMove plan.now.script.now walked.now tries.new.items
        (move.Administrator administrator)) }
{
    for administrator in 0..count {
        add_move(
            tries,
            plan,
            walked,
            Move::Administrator(administrator as u16),
        )?;
    }
    Ok(())
}

// Adds the end of an entry with each outcome.
fn add_ends_of(
    tries: &mut Vec<Try>,
    plan: &Plan<'_>,
    walked: &Walked,
    engine: u16,
    label: u32,
) -> Result<(), AllocError>
    ensures kept { OnOk result (KeepsTries tries.old.items tries.new.items) }
    ensures lists { OnOk result ((outcome : Outcome)
        → ListsMove plan.now.script.now walked.now tries.new.items
        (move.Finish engine label outcome)) }
{
    let succeeds = Move::Finish {
        engine,
        label,
        outcome: Outcome::Success,
    };
    add_move(tries, plan, walked, succeeds)?;
    let fails = Move::Finish {
        engine,
        label,
        outcome: Outcome::PageFault,
    };
    add_move(tries, plan, walked, fails)?;
    Ok(())
}

// Adds the end of this entry with each outcome.
fn add_ends_for(
    tries: &mut Vec<Try>,
    plan: &Plan<'_>,
    walked: &Walked,
    engine: u16,
    pair: &(Cell, Entry),
) -> Result<(), AllocError>
    ensures kept { OnOk result (KeepsTries tries.old.items tries.new.items) }
    ensures lists { OnOk result ((outcome : Outcome)
        → ListsMove plan.now.script.now walked.now tries.new.items
        (move.Finish engine (labels_of walked.now.labels.items pair.now.1.name) outcome)) }
{
    let label = label_of(walked.labels.as_slice(), pair.1.name);
    add_ends_of(tries, plan, walked, engine, label)?;
    Ok(())
}

// Adds the end of each of these entries.
fn add_ends(
    tries: &mut Vec<Try>,
    plan: &Plan<'_>,
    walked: &Walked,
    engine: u16,
    running: &[(Cell, Entry)],
) -> Result<(), AllocError>
    ensures kept { OnOk result (KeepsTries tries.old.items tries.new.items) }
    ensures lists { OnOk result ((pair : HeldEntry)
        → (outcome : Outcome)
        → In pair running.now
        → ListsMove plan.now.script.now walked.now tries.new.items
        (move.Finish engine (labels_of walked.now.labels.items pair.1.name) outcome)) }
{
    for pair in running {
        add_ends_for(tries, plan, walked, engine, pair)?;
    }
    Ok(())
}

// Adds all that an engine may do.
fn add_engine(
    alloc: Global,
    tries: &mut Vec<Try>,
    plan: &Plan<'_>,
    walked: &Walked,
    engine: u16,
) -> Result<(), AllocError>
    ensures kept { OnOk result (KeepsTries tries.old.items tries.new.items) }
    ensures lists { OnOk result
        (ListsEngine plan.now.script.now walked.now tries.new.items engine) }
{
    add_move(tries, plan, walked, Move::Dispatch { engine })?;
    add_move(tries, plan, walked, Move::Fetch { engine })?;
    add_move(tries, plan, walked, Move::Start { engine })?;
    let running = running_on(alloc, &walked.machine.device, engine)?;
    add_ends(tries, plan, walked, engine, running.as_slice())?;
    Ok(())
}

// Adds all that these engines may do.
fn add_engines(
    alloc: Global,
    tries: &mut Vec<Try>,
    plan: &Plan<'_>,
    walked: &Walked,
    engines: &[u16],
) -> Result<(), AllocError>
    ensures kept { OnOk result (KeepsTries tries.old.items tries.new.items) }
    ensures lists { OnOk result ((engine : ℕ)
        → In engine engines.now
        → ListsEngine plan.now.script.now walked.now tries.new.items engine) }
{
    for engine in engines {
        add_engine(alloc, tries, plan, walked, *engine)?;
    }
    Ok(())
}

/// All that has to be tried: each move, and each queue that an entry may be taken from.
pub fn tries_at(alloc: Global, plan: &Plan<'_>, walked: &Walked) -> Result<Vec<Try>, AllocError>
    ensures { IfOk result
        (λ tries. IsFine (space_of plan.now.caps plan.now.script.now) (world_of walked.now)
        → (w : World Standing)
        → (move : Move)
        → (reply : Reply)
        → world_after (parties_of plan.now.script.now) (world_of walked.now) move reply ≡ Some w
        → In (record { by = move; queue = queue_taken_from reply }) tries.items) }
{
    let mut tries = Vec::new(alloc);
    add_clients(&mut tries, plan, walked, plan.script.clients.len())?;
    add_administrators(&mut tries, plan, walked, plan.script.administrators.len())?;
    add_engines(
        alloc,
        &mut tries,
        plan,
        walked,
        plan.script.engines.as_slice(),
    )?;
    Ok(tries)
}
