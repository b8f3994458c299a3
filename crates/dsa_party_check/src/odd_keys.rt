//! Keys of parties that nothing reads.

ghost use Rattle.std.specs.Prelude.{◌≡◌, ◌+◌, ◌<◌, ◌^◌, ◌++◌, ◌∷◌, [], length, map, option_map};
ghost use Rattle.std.specs.Prelude.{IfOk, OnOk};
ghost use Rattle.serde_json.specs.View.{view};
ghost use Rattle.dsa_scenario.specs.Fields.{row_of_field};
ghost use Rattle.dsa_plans.specs.PartyLabels.{numbered_from};
ghost use Rattle.dsa_party_check.specs.Complaints.{complained, flawed, Complains, Finds};
ghost use Rattle.dsa_party_check.specs.OddKeys.{acting_names, client_names, odd_administrator};
ghost use Rattle.dsa_party_check.specs.OddKeys.{odd_client, odd_of_act, odd_of_kind, odd_of_party};
ghost use Rattle.dsa_party_check.specs.OddKeys.{odd_of_submitter, odd_parties, party_names};
ghost use Rattle.dsa_party_check.specs.OddKeys.{names_beside, rows_if_any};

use crate::complaint::{Complaint, Flaw, Inside, Subject, add_flaw};
use crate::rules::{is_acted, is_submitted};
use crate::strays::add_strays;
use dsa_check::names_of;
use dsa_plans::items_or;
use dsa_scenario::{Field, ScenarioFault, StepKind, kind_of};
use serde_json::Value;
use std::alloc::{AllocError, Global};

const OBJECT_NAMES: [&str; 4] = ["clients", "admins", "engines", "note"];

const CLIENT_NAMES: [&str; 3] = ["client", "steps", "note"];

const ADMINISTRATOR_NAMES: [&str; 2] = ["steps", "note"];

const SUBMITTER_NAMES: [&str; 8] = [
    "retry", "fault", "members", "do", "as", "when", "if", "note",
];

const COMMAND_NAMES: [&str; 6] = ["busy", "do", "as", "when", "if", "note"];

const POLL_NAMES: [&str; 6] = ["until", "do", "as", "when", "if", "note"];

const STEP_NAMES: [&str; 5] = ["do", "as", "when", "if", "note"];

// What a step of an administrator may have beside the keys of its kind.
fn acting_names(kind: Option<StepKind>) -> &'static [&'static str]
    ensures { map (λ name. name.now) result.now ≡ acting_names kind }
{
    match kind {
        Some(StepKind::Command) => &COMMAND_NAMES,
        Some(StepKind::Poll) => &POLL_NAMES,
        _ => &STEP_NAMES,
    }
}

// The keys of a kind.
fn fields_if_any(kind: Option<StepKind>) -> &'static [Field]
    ensures { map row_of_field result.now ≡ rows_if_any kind }
{
    match kind {
        Some(kind) => kind.fields(),
        None => &[],
    }
}

// The keys of a kind, and these.
fn names_with(
    alloc: Global,
    kind: Option<StepKind>,
    names: &[&'static str],
) -> Result<Vec<&'static str>, AllocError>
    ensures { IfOk result
        (λ all. map (λ name. name.now) all.items
        ≡ names_beside kind (map (λ name. name.now) names.now)) }
{
    names_of(alloc, fields_if_any(kind), names)
}

// Adds the keys of a step of a kind that nothing reads, where it may also have these.
fn add_of_kind(
    alloc: Global,
    complaints: &mut Vec<Complaint>,
    step: usize,
    kind: Option<StepKind>,
    names: &[&'static str],
    value: &Value,
) -> Result<(), AllocError>
    ensures { OnOk result
        (Complains complaints.old.items complaints.new.items
        (odd_of_kind step kind (view value.now) (map (λ name. name.now) names.now))) }
{
    let all = names_with(alloc, kind, names)?;
    let inside = Inside::Step { step, kind };
    add_strays(alloc, complaints, inside, all.as_slice(), value)
}

// Adds those of a client's step, where its kind is known.
fn add_submitter(
    alloc: Global,
    complaints: &mut Vec<Complaint>,
    step: usize,
    value: &Value,
) -> Result<(), AllocError>
    ensures { OnOk result
        (Complains complaints.old.items complaints.new.items
        (odd_of_submitter step (view value.now))) }
{
    let kind = kind_of(value);
    if is_submitted(kind) {
        add_of_kind(alloc, complaints, step, kind, &SUBMITTER_NAMES, value)
    } else {
        Ok(())
    }
}

// Adds those of the steps of a client.
fn add_submitters(
    alloc: Global,
    complaints: &mut Vec<Complaint>,
    steps: &[Value],
) -> Result<(), AllocError>
    ensures { OnOk result
        (Complains complaints.old.items complaints.new.items
        (numbered_from odd_of_submitter 0 (map view steps.now))) }
{
    for (step, value) in steps.iter().enumerate() {
        add_submitter(alloc, complaints, step, value)?;
    }
    Ok(())
}

// Adds those of an administrator's step, where its kind is known.
fn add_act(
    alloc: Global,
    complaints: &mut Vec<Complaint>,
    step: usize,
    value: &Value,
) -> Result<(), AllocError>
    ensures { OnOk result
        (Complains complaints.old.items complaints.new.items (odd_of_act step (view value.now))) }
{
    let kind = kind_of(value);
    if is_acted(kind) {
        add_of_kind(alloc, complaints, step, kind, acting_names(kind), value)
    } else {
        Ok(())
    }
}

// Adds those of the steps of an administrator.
fn add_acts(
    alloc: Global,
    complaints: &mut Vec<Complaint>,
    steps: &[Value],
) -> Result<(), AllocError>
    ensures { OnOk result
        (Complains complaints.old.items complaints.new.items
        (numbered_from odd_of_act 0 (map view steps.now))) }
{
    for (step, value) in steps.iter().enumerate() {
        add_act(alloc, complaints, step, value)?;
    }
    Ok(())
}

// Those of a client.
fn of_client(alloc: Global, client: &Value) -> Result<Vec<Complaint>, AllocError>
    ensures { IfOk result (λ all. map complained all.items
        ≡ odd_of_party client_names odd_of_submitter (view client.now)) }
{
    let mut found = Vec::new(alloc);
    add_strays(alloc, &mut found, Inside::All, &CLIENT_NAMES, client)?;
    add_submitters(alloc, &mut found, items_or(client, "steps"))?;
    Ok(found)
}

// Those of an administrator.
fn of_administrator(alloc: Global, administrator: &Value) -> Result<Vec<Complaint>, AllocError>
    ensures { IfOk result (λ all. map complained all.items
        ≡ odd_of_party party_names odd_of_act (view administrator.now)) }
{
    let mut found = Vec::new(alloc);
    add_strays(
        alloc,
        &mut found,
        Inside::All,
        &ADMINISTRATOR_NAMES,
        administrator,
    )?;
    add_acts(alloc, &mut found, items_or(administrator, "steps"))?;
    Ok(found)
}

// Adds those of each client.
fn add_clients(alloc: Global, odd: &mut Vec<Flaw>, clients: &[Value]) -> Result<(), AllocError>
    ensures { OnOk result
        (Finds odd.old.items odd.new.items (numbered_from odd_client 0 (map view clients.now))) }
{
    for (place, client) in clients.iter().enumerate() {
        let complaints = of_client(alloc, client)?;
        let fault = ScenarioFault::BadParty(place as u64);
        add_flaw(odd, fault, Subject::Client(place), complaints)?;
    }
    Ok(())
}

// Adds those of each administrator, where so many clients come first.
fn add_administrators(
    alloc: Global,
    odd: &mut Vec<Flaw>,
    clients: usize,
    administrators: &[Value],
) -> Result<(), AllocError>
    requires { clients + length administrators.now < 2 ^ 64 }
    ensures { OnOk result
        (Finds odd.old.items odd.new.items
        (numbered_from (odd_administrator clients) 0 (map view administrators.now))) }
{
    for (place, administrator) in administrators.iter().enumerate() {
        let complaints = of_administrator(alloc, administrator)?;
        let fault = ScenarioFault::BadParty((clients + place) as u64);
        add_flaw(odd, fault, Subject::Administrator(place), complaints)?;
    }
    Ok(())
}

/// All keys of the object `parties` that nothing reads.
pub fn odd_parties(alloc: Global, object: &Value) -> Result<Vec<Flaw>, AllocError>
    ensures { IfOk result (λ odd. map flawed odd.items ≡ odd_parties (view object.now)) }
{
    let mut odd = Vec::new(alloc);
    let mut own = Vec::new(alloc);
    add_strays(alloc, &mut own, Inside::All, &OBJECT_NAMES, object)?;
    add_flaw(&mut odd, ScenarioFault::BadParties, Subject::Parties, own)?;
    let clients = items_or(object, "clients");
    add_clients(alloc, &mut odd, clients)?;
    add_administrators(alloc, &mut odd, clients.len(), items_or(object, "admins"))?;
    Ok(odd)
}
