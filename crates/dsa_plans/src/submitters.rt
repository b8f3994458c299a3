//! Clients: what each of their steps submits, with its members.

ghost use Rattle.std.specs.Prelude.{◌≡◌, ◌++◌, [], ◌∷◌, codes, map, option_map, IfOk};
ghost use Rattle.serde_json.specs.{View.{view}, Find.{get}};
ghost use Rattle.dsa_base.specs.Rows.{when};
ghost use Rattle.dsa_scenario.specs.Actions.{portal_of_limited};
ghost use Rattle.dsa_plans.specs.Said.{each_onto, lacks, read_onto};
ghost use Rattle.dsa_plans.specs.Submitters.{client_number, client_onto, client_step, entry_with};
ghost use Rattle.dsa_plans.specs.Submitters.{member_bytes, member_said, members_wanted, step_onto};
ghost use Rattle.dsa_plans.specs.Submitters.{step_with, submission_kind, submission_of_step};
ghost use Rattle.dsa_plans.specs.Reads.{step_read};

use crate::said::{
    digits_at, items_or_none, label_of, outcomes_at, retry_at, steps_of, truth_at, u16_at, u16_in,
    u32_at,
};
use dsa_book::{Kind, Portal};
use dsa_desc::Descriptor;
use dsa_parties::{ClientScript, Origin, Outcomes, Part, ScriptEntry, Submission};
use dsa_scenario::{StepKind, bytes_of_hex, kind_of};
use serde_json::Value;
use std::alloc::AllocError;

/// A client's step as it is read: its entry, and its members with the outcomes where they say none.
#[derive(Drop)]
pub struct ClientStep<'v> {
    pub entry: ScriptEntry,
    pub outcomes: Outcomes,
    pub members: &'v [Value],
}

// An entry with these bytes.
fn entry_with(bytes: &[u8; 64], outcomes: Outcomes, origin: Origin) -> ScriptEntry
    ensures { result ≡ entry_with bytes.now outcomes origin }
{
    let desc = Descriptor::parse(bytes);
    let outcomes = if desc.is_transfer() {
        outcomes
    } else {
        Outcomes::SuccessAlone
    };
    ScriptEntry {
        desc,
        outcomes,
        origin,
    }
}

// The bytes of a member.
fn member_bytes(member: &Value) -> Option<[u8; 64]>
    ensures { result ≡ member_bytes (view member.now) }
{
    match member.as_str() {
        Some(text) => bytes_of_hex(text),
        None => digits_at(member, "desc"),
    }
}

/// A member of the batch with this label.
pub fn member_said(batch: u32, outcomes: Outcomes, member: &Value) -> Option<ScriptEntry>
    ensures { result ≡ member_said batch outcomes (view member.now) }
{
    let bytes = member_bytes(member)?;
    let own = outcomes_at(member, outcomes)?;
    Some(entry_with(&bytes, own, Origin::Fetched { batch }))
}

// Adds the members of the batch with this label, and says whether each can be read.
fn add_members(
    entries: &mut Vec<ScriptEntry>,
    batch: u32,
    outcomes: Outcomes,
    members: &[Value],
) -> Result<bool, AllocError>
    ensures { IfOk result (λ good. when good entries.new.items
        ≡ each_onto (read_onto (member_said batch outcomes)) entries.old.items
        (map view members.now)) }
{
    for member in members {
        let Some(entry) = member_said(batch, outcomes, member) else {
            return Ok(false);
        };
        entries.push(entry)?;
    }
    Ok(true)
}

fn portal_of(limited: bool) -> Portal
    ensures { result ≡ portal_of_limited limited }
{
    if limited {
        Portal::Limited
    } else {
        Portal::Unlimited
    }
}

// How a step of this kind submits.
fn submission_kind(kind: StepKind, step: &Value) -> Option<Kind>
    ensures { result ≡ submission_kind kind (view step.now) }
{
    match kind {
        StepKind::Enqcmd => Some(Kind::Enqcmd {
            pasid: u32_at(step, "pasid")?,
        }),
        StepKind::Movdir => Some(Kind::Movdir64b),
        _ => None,
    }
}

// The submission of a step, with so many members.
fn submission_of_step(members: u32, step: &Value) -> Option<Submission>
    ensures { result ≡ submission_of_step members (view step.now) }
{
    let kind = submission_kind(kind_of(step)?, step)?;
    let queue = u16_at(step, "queue")?;
    let limited = truth_at(step, "limited")?;
    let retry = retry_at(step)?;
    Some(Submission {
        queue,
        portal: portal_of(limited),
        kind,
        retry,
        members,
    })
}

/// How many members there have to be.
pub fn members_wanted(desc: Descriptor) -> u32
    ensures { result ≡ members_wanted desc }
{
    if desc.is_batch() { desc.size } else { 0 }
}

// A step with these bytes and so many members, which are these.
fn step_with<'v>(
    bytes: &[u8; 64],
    count: u32,
    members: &'v [Value],
    step: &'v Value,
) -> Option<ClientStep<'v>>
    ensures { option_map step_read result
        ≡ step_with bytes.now count (map view members.now) (view step.now) }
{
    let outcomes = outcomes_at(step, Outcomes::SuccessAlone)?;
    let submission = submission_of_step(count, step)?;
    Some(ClientStep {
        entry: entry_with(bytes, outcomes, Origin::Submitted(submission)),
        outcomes,
        members,
    })
}

// Whether the step has no condition, and no client of its own.
fn is_plain_step(step: &Value) -> bool
    ensures { result
        ≡ lacks (codes "when" ∷ codes "if" ∷ codes "client" ∷ []) (view step.now) }
{
    step.get("when").is_none() && step.get("if").is_none() && step.get("client").is_none()
}

// A client's step.
fn client_step(step: &Value) -> Option<ClientStep<'_>>
    ensures { option_map step_read result ≡ client_step (view step.now) }
{
    if !is_plain_step(step) {
        return None;
    }
    let bytes = digits_at(step, "desc")?;
    let members = items_or_none(step, "members")?;
    let count = members_wanted(Descriptor::parse(&bytes));
    if members.len() != count as usize {
        return None;
    }
    step_with(&bytes, count, members, step)
}

/// Adds the entry of a step and its members, and says whether all can be read.
pub fn add_step(entries: &mut Vec<ScriptEntry>, step: &Value) -> Result<bool, AllocError>
    ensures { IfOk result (λ good. when good entries.new.items
        ≡ step_onto entries.old.items (view step.now)) }
{
    let Some(read) = client_step(step) else {
        return Ok(false);
    };
    let label = label_of(entries.len())?;
    entries.push(read.entry)?;
    add_members(entries, label, read.outcomes, read.members)
}

// Adds what these steps submit, and says whether all can be read.
fn add_steps(entries: &mut Vec<ScriptEntry>, steps: &[Value]) -> Result<bool, AllocError>
    ensures { IfOk result (λ good. when good entries.new.items
        ≡ each_onto step_onto entries.old.items (map view steps.now)) }
{
    for step in steps {
        if !add_step(entries, step)? {
            return Ok(false);
        }
    }
    Ok(true)
}

// The number of the client at this place.
fn client_number(place: usize, client: &Value) -> Option<u16>
    ensures { result ≡ client_number place (get (codes "client") (view client.now)) }
{
    match client.get("client") {
        None => u16::try_from(place).ok(),
        Some(number) => u16_in(number),
    }
}

/// Adds a client, and says whether it can be read.
pub fn add_client(
    entries: &mut Vec<ScriptEntry>,
    clients: &mut Vec<ClientScript>,
    client: &Value,
) -> Result<bool, AllocError>
    ensures { IfOk result (λ good. when good (entries.new.items, clients.new.items)
        ≡ client_onto (entries.old.items, clients.old.items) (view client.now)) }
{
    let Some(number) = client_number(clients.len(), client) else {
        return Ok(false);
    };
    let Some(steps) = steps_of(client) else {
        return Ok(false);
    };
    let first = label_of(entries.len())?;
    if !add_steps(entries, steps)? {
        return Ok(false);
    }
    let end = label_of(entries.len())?;
    clients.push(ClientScript {
        number,
        part: Part { first, end },
    })?;
    Ok(true)
}
