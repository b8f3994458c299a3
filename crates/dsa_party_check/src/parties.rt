//! What is wrong with the parties of a document.

ghost use Rattle.std.specs.Prelude.{◌≡◌, ◌+◌, ◌<◌, ◌^◌, ◌∷◌, [], length, codes, map, is_some};
ghost use Rattle.std.specs.Prelude.{option_map, IfOk, OnOk};
ghost use Rattle.serde_json.specs.{View.{view}, Find.{as_str, get}};
ghost use Rattle.dsa_event_text.specs.Added.{Adds};
ghost use Rattle.dsa_scenario.specs.{Actions.{kind_of}, Fields.{digits_of, row_of_field}};
ghost use Rattle.dsa_plans.specs.Said.{items_in, read_or};
ghost use Rattle.dsa_plans.specs.{Acting.{act_said}, PartyLabels.{items_or, numbered_from}};
ghost use Rattle.dsa_plans.specs.Submitters.{member_said, step_onto};
ghost use Rattle.dsa_party_check.specs.Complaints.{complained, or_general, Complains, Finds};
ghost use Rattle.dsa_party_check.specs.PartyFlaws.{act_complaints, acting_complaints, acting_rows};
ghost use Rattle.dsa_party_check.specs.PartyFlaws.{administrator_flaws, administrator_rules};
ghost use Rattle.dsa_party_check.specs.PartyFlaws.{client_flaws, client_rules, count_complaint};
ghost use Rattle.dsa_party_check.specs.PartyFlaws.{count_complaints, engine_complaint};
ghost use Rattle.dsa_party_check.specs.PartyFlaws.{engine_complaints, reason_of_item};
ghost use Rattle.dsa_party_check.specs.PartyFlaws.{lists_complaints};
ghost use Rattle.dsa_party_check.specs.PartyFlaws.{member_complaints, member_complaints_by};
ghost use Rattle.dsa_party_check.specs.PartyFlaws.{member_of_step, object_flaws, of_count, parties_flaws};
ghost use Rattle.dsa_party_check.specs.PartyFlaws.{party_complaints, rules_of_acting, step_inside};
ghost use Rattle.dsa_party_check.specs.PartyFlaws.{submission_complaints, submitter_complaints};
ghost use Rattle.dsa_party_check.specs.PartyFlaws.{submitter_rows};
ghost use Rattle.dsa_party_check.specs.Rules.{of_object, wanting_of};

use crate::complaint::{
    Complaint, Flaw, Inside, Subject, add_all, add_flaw, or_general, plain_complaint,
};
use crate::rules::{Rule, Want, add_digits_flaw, add_fields, add_rules, add_shown, no_object};
use crate::rules_of;
use dsa_check::{Aim, add_wanted, found_in};
use dsa_desc::Descriptor;
use dsa_event_text::{Added, add_count};
use dsa_parties::Outcomes;
use dsa_plans::{
    act_said, add_step, digits_at, engine_in, items_or, items_or_none, member_said, members_wanted,
};
use dsa_scenario::{Field, Form, ScenarioFault, StepKind, kind_of};
use serde_json::Value;
use std::alloc::{AllocError, Global};
use std::fmt::Write;

const MEMBER: [Rule; 2] = rules_of!("desc": Want::Needed(Form::Digits), "fault": Want::Fault);

const SUBMITTER: [Rule; 4] = rules_of!(
    "do": Want::Submits,
    "client": Want::Nothing,
    "when": Want::Nothing,
    "if": Want::Nothing
);

const POLICY: [Rule; 3] = rules_of!(
    "retry": Want::Retry,
    "fault": Want::Fault,
    "members": Want::Allowed(Form::Array)
);

const ACTING: [Rule; 3] = rules_of!(
    "do": Want::Acts,
    "when": Want::Nothing,
    "if": Want::Nothing
);

const COMMAND: [Rule; 2] = rules_of!("word": Want::Word, "busy": Want::Busy);

const POLL: [Rule; 1] = rules_of!("until": Want::Until);

const ADMINISTRATOR: [Rule; 1] = rules_of!("steps": Want::Needed(Form::Array));

const CLIENT: [Rule; 2] = rules_of!(
    "client": Want::Allowed(Form::Whole { least: 0, most: 0xffff }),
    "steps": Want::Needed(Form::Array)
);

const LISTS: [Rule; 3] = rules_of!(
    "clients": Want::Allowed(Form::Array),
    "admins": Want::Allowed(Form::Array),
    "engines": Want::Allowed(Form::Array)
);

const PARTIES: [Rule; 1] = rules_of!("parties": Want::Needed(Form::Object));

// What is wrong with a member that is no text of digits, or no object with one.
fn member_reasons(
    alloc: Global,
    inside: Inside,
    member: &Value,
) -> Result<Vec<Complaint>, AllocError>
    ensures { IfOk result
        (λ all. map complained all.items
        ≡ member_complaints_by inside (view member.now) (as_str (view member.now))) }
{
    let mut found = Vec::new(alloc);
    if let Some(digits) = member.as_str() {
        let mut reason = String::from_str(alloc, "it")?;
        add_digits_flaw(&mut reason, digits)?;
        found.push(plain_complaint(inside, reason))?;
        return Ok(found);
    }
    if member.as_object().is_none() {
        return no_object(alloc, inside, member);
    }
    add_rules(alloc, &mut found, inside, &MEMBER, member)?;
    Ok(found)
}

// Adds what is wrong with a member, where it cannot be read.
fn add_member(
    alloc: Global,
    complaints: &mut Vec<Complaint>,
    inside: Inside,
    member: &Value,
) -> Result<(), AllocError>
    ensures { OnOk result
        (Complains complaints.old.items complaints.new.items
        (member_complaints inside (view member.now))) }
{
    if member_said(0, Outcomes::SuccessAlone, member).is_some() {
        return Ok(());
    }
    let found = member_reasons(alloc, inside, member)?;
    add_all(complaints, or_general(alloc, found, inside)?)
}

// Adds what is wrong with the members of a step.
fn add_members(
    alloc: Global,
    complaints: &mut Vec<Complaint>,
    step: usize,
    kind: Option<StepKind>,
    members: &[Value],
) -> Result<(), AllocError>
    ensures { OnOk result
        (Complains complaints.old.items complaints.new.items
        (numbered_from (member_of_step step kind) 0 (map view members.now))) }
{
    for (member, value) in members.iter().enumerate() {
        let inside = Inside::Member { step, kind, member };
        add_member(alloc, complaints, inside, value)?;
    }
    Ok(())
}

// The descriptor counts other members than there are.
fn count_complaint(
    alloc: Global,
    inside: Inside,
    count: usize,
    wanted: u32,
) -> Result<Complaint, AllocError>
    ensures { IfOk result (λ c. complained c ≡ count_complaint inside count wanted) }
{
    let mut reason = String::new(alloc);
    add_count(
        &mut reason,
        "\"members\" has ",
        count as u64,
        "item",
        "items",
    )?;
    write!(reason, ", the descriptor counts {wanted}")?;
    Ok(Complaint {
        inside,
        aim: Aim::Whole,
        name: Some(String::from_str(alloc, "members")?),
        reason,
    })
}

// Adds that the descriptor counts other members than there are, if it does.
fn add_count_told(
    alloc: Global,
    complaints: &mut Vec<Complaint>,
    inside: Inside,
    count: usize,
    wanted: u32,
) -> Result<(), AllocError>
    ensures { OnOk result
        (Complains complaints.old.items complaints.new.items (of_count inside count wanted)) }
{
    if count != wanted as usize {
        complaints.push(count_complaint(alloc, inside, count, wanted)?)?;
    }
    Ok(())
}

// Adds whether the descriptor counts other members than there are.
fn add_count_of_members(
    alloc: Global,
    complaints: &mut Vec<Complaint>,
    inside: Inside,
    step: &Value,
) -> Result<(), AllocError>
    ensures { OnOk result
        (Complains complaints.old.items complaints.new.items
        (count_complaints inside (digits_of (codes "desc") (view step.now))
        (read_or [] items_in (get (codes "members") (view step.now))))) }
{
    match (digits_at(step, "desc"), items_or_none(step, "members")) {
        (Some(bytes), Some(members)) => {
            let wanted = members_wanted(Descriptor::parse(&bytes));
            add_count_told(alloc, complaints, inside, members.len(), wanted)
        }
        _ => Ok(()),
    }
}

// The keys of a kind that clients make.
fn submitter_fields(kind: Option<StepKind>) -> &'static [Field]
    ensures { map row_of_field result.now ≡ submitter_rows kind }
{
    match kind {
        Some(StepKind::Enqcmd) => StepKind::Enqcmd.fields(),
        Some(StepKind::Movdir) => StepKind::Movdir.fields(),
        _ => &[],
    }
}

// What is wrong with a client's step.
fn submission_reasons(
    alloc: Global,
    step: usize,
    inside: Inside,
    value: &Value,
) -> Result<Vec<Complaint>, AllocError>
    ensures { IfOk result
        (λ all. map complained all.items
        ≡ of_object inside (view value.now)
        (submission_complaints step inside (view value.now))) }
{
    if value.as_object().is_none() {
        return no_object(alloc, inside, value);
    }
    let mut found = Vec::new(alloc);
    let kind = kind_of(value);
    add_rules(alloc, &mut found, inside, &SUBMITTER, value)?;
    add_fields(alloc, &mut found, inside, submitter_fields(kind), value)?;
    add_rules(alloc, &mut found, inside, &POLICY, value)?;
    add_count_of_members(alloc, &mut found, inside, value)?;
    add_members(alloc, &mut found, step, kind, items_or(value, "members"))?;
    Ok(found)
}

// Whether a client's step can be read, with its members.
fn can_submit(alloc: Global, step: &Value) -> Result<bool, AllocError>
    ensures { IfOk result (λ can. can ≡ is_some (step_onto [] (view step.now))) }
{
    let mut entries = Vec::new(alloc);
    add_step(&mut entries, step)
}

// Adds what is wrong with a client's step, where it cannot be read.
fn add_submitter(
    alloc: Global,
    complaints: &mut Vec<Complaint>,
    step: usize,
    value: &Value,
) -> Result<(), AllocError>
    ensures { OnOk result
        (Complains complaints.old.items complaints.new.items
        (submitter_complaints step (view value.now))) }
{
    if can_submit(alloc, value)? {
        return Ok(());
    }
    let inside = Inside::Step {
        step,
        kind: kind_of(value),
    };
    let found = submission_reasons(alloc, step, inside, value)?;
    add_all(complaints, or_general(alloc, found, inside)?)
}

// Adds what is wrong with the steps of a client.
fn add_submitters(
    alloc: Global,
    complaints: &mut Vec<Complaint>,
    steps: &[Value],
) -> Result<(), AllocError>
    ensures { OnOk result
        (Complains complaints.old.items complaints.new.items
        (numbered_from submitter_complaints 0 (map view steps.now))) }
{
    for (step, value) in steps.iter().enumerate() {
        add_submitter(alloc, complaints, step, value)?;
    }
    Ok(())
}

// The keys of a kind of an administrator's steps, but for a command's.
fn acting_fields(kind: Option<StepKind>) -> &'static [Field]
    ensures { map row_of_field result.now ≡ acting_rows kind }
{
    match kind {
        Some(StepKind::Queue) => StepKind::Queue.fields(),
        Some(StepKind::Group) => StepKind::Group.fields(),
        _ => &[],
    }
}

// What the kind asks for besides.
fn rules_of_acting(kind: Option<StepKind>) -> &'static [Rule]
    ensures { map wanting_of result.now ≡ rules_of_acting kind }
{
    match kind {
        Some(StepKind::Command) => &COMMAND,
        Some(StepKind::Poll) => &POLL,
        _ => &[],
    }
}

// What is wrong with a step of an administrator.
fn acting_reasons(alloc: Global, inside: Inside, step: &Value) -> Result<Vec<Complaint>, AllocError>
    ensures { IfOk result
        (λ all. map complained all.items
        ≡ of_object inside (view step.now) (acting_complaints inside (view step.now))) }
{
    if step.as_object().is_none() {
        return no_object(alloc, inside, step);
    }
    let mut found = Vec::new(alloc);
    let kind = kind_of(step);
    add_rules(alloc, &mut found, inside, &ACTING, step)?;
    add_fields(alloc, &mut found, inside, acting_fields(kind), step)?;
    add_rules(alloc, &mut found, inside, rules_of_acting(kind), step)?;
    Ok(found)
}

// Adds what is wrong with a step of an administrator, where it cannot be read.
#[tactic(auto, unfolding(crate::specs::PartyFlaws::act_complaints))]
fn add_act(
    alloc: Global,
    complaints: &mut Vec<Complaint>,
    step: usize,
    value: &Value,
) -> Result<(), AllocError>
    ensures { OnOk result
        (Complains complaints.old.items complaints.new.items
        (act_complaints step (view value.now))) }
{
    if act_said(value).is_some() {
        return Ok(());
    }
    let inside = Inside::Step {
        step,
        kind: kind_of(value),
    };
    let found = acting_reasons(alloc, inside, value)?;
    add_all(complaints, or_general(alloc, found, inside)?)
}

// Adds what is wrong with the steps of an administrator.
fn add_acts(
    alloc: Global,
    complaints: &mut Vec<Complaint>,
    steps: &[Value],
) -> Result<(), AllocError>
    ensures { OnOk result
        (Complains complaints.old.items complaints.new.items
        (numbered_from act_complaints 0 (map view steps.now))) }
{
    for (step, value) in steps.iter().enumerate() {
        add_act(alloc, complaints, step, value)?;
    }
    Ok(())
}

// What is wrong with a client.
fn client_complaints(alloc: Global, client: &Value) -> Result<Vec<Complaint>, AllocError>
    ensures { IfOk result
        (λ all. map complained all.items
        ≡ party_complaints client_rules submitter_complaints (view client.now)) }
{
    if client.as_object().is_none() {
        return no_object(alloc, Inside::All, client);
    }
    let mut found = Vec::new(alloc);
    add_rules(alloc, &mut found, Inside::All, &CLIENT, client)?;
    add_submitters(alloc, &mut found, items_or(client, "steps"))?;
    Ok(found)
}

// What is wrong with an administrator.
fn administrator_complaints(
    alloc: Global,
    administrator: &Value,
) -> Result<Vec<Complaint>, AllocError>
    ensures { IfOk result
        (λ all. map complained all.items
        ≡ party_complaints administrator_rules act_complaints (view administrator.now)) }
{
    if administrator.as_object().is_none() {
        return no_object(alloc, Inside::All, administrator);
    }
    let mut found = Vec::new(alloc);
    add_rules(
        alloc,
        &mut found,
        Inside::All,
        &ADMINISTRATOR,
        administrator,
    )?;
    add_acts(alloc, &mut found, items_or(administrator, "steps"))?;
    Ok(found)
}

// Adds what is wrong with each client.
fn add_clients(alloc: Global, flaws: &mut Vec<Flaw>, clients: &[Value]) -> Result<(), AllocError>
    ensures { OnOk result
        (Finds flaws.old.items flaws.new.items
        (numbered_from client_flaws 0 (map view clients.now))) }
{
    for (place, client) in clients.iter().enumerate() {
        let complaints = client_complaints(alloc, client)?;
        let fault = ScenarioFault::BadParty(place as u64);
        add_flaw(flaws, fault, Subject::Client(place), complaints)?;
    }
    Ok(())
}

// Adds what is wrong with each administrator, where so many clients come first.
fn add_administrators(
    alloc: Global,
    flaws: &mut Vec<Flaw>,
    clients: usize,
    administrators: &[Value],
) -> Result<(), AllocError>
    requires { clients + length administrators.now < 2 ^ 64 }
    ensures { OnOk result
        (Finds flaws.old.items flaws.new.items
        (numbered_from (administrator_flaws clients) 0 (map view administrators.now))) }
{
    for (place, administrator) in administrators.iter().enumerate() {
        let complaints = administrator_complaints(alloc, administrator)?;
        let fault = ScenarioFault::BadParty((clients + place) as u64);
        add_flaw(flaws, fault, Subject::Administrator(place), complaints)?;
    }
    Ok(())
}

fn add_engine_reason(text: &mut String, count: u16, place: usize, item: &Value) -> Added
    ensures { Adds result text.old text.new (reason_of_item count place (view item.now)) }
{
    let found = found_in(item);
    let most = count.saturating_sub(1) as u64;
    write!(text, "item {place} of \"engines\" is ")?;
    add_shown(text, item)?;
    text.push_str(", ")?;
    add_wanted(text, found, Form::Whole { least: 0, most })?;
    text.push_str(" is wanted")
}

// An item of `engines` is no number of an engine.
fn engine_complaint(
    alloc: Global,
    count: u16,
    place: usize,
    item: &Value,
) -> Result<Complaint, AllocError>
    ensures { IfOk result
        (λ c. complained c ≡ engine_complaint count place (view item.now)) }
{
    let mut reason = String::new(alloc);
    add_engine_reason(&mut reason, count, place, item)?;
    Ok(Complaint {
        inside: Inside::All,
        aim: Aim::Value,
        name: Some(String::from_str(alloc, "engines")?),
        reason,
    })
}

// Adds an item of `engines` that is no number of an engine.
#[tactic(auto, unfolding(crate::specs::PartyFlaws::engine_complaints))]
fn add_engine(
    alloc: Global,
    complaints: &mut Vec<Complaint>,
    count: u16,
    place: usize,
    item: &Value,
) -> Result<(), AllocError>
    ensures { OnOk result
        (Complains complaints.old.items complaints.new.items
        (engine_complaints count place (view item.now))) }
{
    if engine_in(count, item).is_none() {
        complaints.push(engine_complaint(alloc, count, place, item)?)?;
    }
    Ok(())
}

// Adds the items of `engines` that are no numbers of engines.
fn add_engines(
    alloc: Global,
    complaints: &mut Vec<Complaint>,
    count: u16,
    items: &[Value],
) -> Result<(), AllocError>
    ensures { OnOk result
        (Complains complaints.old.items complaints.new.items
        (numbered_from (engine_complaints count) 0 (map view items.now))) }
{
    for (place, item) in items.iter().enumerate() {
        add_engine(alloc, complaints, count, place, item)?;
    }
    Ok(())
}

// What is wrong with the object itself, for a device with so many engines.
fn lists_complaints(alloc: Global, count: u16, object: &Value) -> Result<Vec<Complaint>, AllocError>
    ensures { IfOk result
        (λ all. map complained all.items ≡ lists_complaints count (view object.now)) }
{
    let mut found = Vec::new(alloc);
    add_rules(alloc, &mut found, Inside::All, &LISTS, object)?;
    add_engines(alloc, &mut found, count, items_or(object, "engines"))?;
    Ok(found)
}

// Adds what is wrong with the object, and with each party by itself.
fn add_object(
    alloc: Global,
    flaws: &mut Vec<Flaw>,
    count: u16,
    object: &Value,
) -> Result<(), AllocError>
    ensures { OnOk result
        (Finds flaws.old.items flaws.new.items (object_flaws count (view object.now))) }
{
    let lists = lists_complaints(alloc, count, object)?;
    add_flaw(flaws, ScenarioFault::BadParties, Subject::Parties, lists)?;
    let clients = items_or(object, "clients");
    add_clients(alloc, flaws, clients)?;
    add_administrators(alloc, flaws, clients.len(), items_or(object, "admins"))
}

/// Adds what is wrong with what stands at `parties` of a document, for a device with so many
/// engines.
pub fn add_parties(
    alloc: Global,
    flaws: &mut Vec<Flaw>,
    count: u16,
    document: &Value,
    object: &Value,
) -> Result<(), AllocError>
    ensures { OnOk result
        (Finds flaws.old.items flaws.new.items
        (parties_flaws count (view document.now) (view object.now))) }
{
    if object.as_object().is_some() {
        return add_object(alloc, flaws, count, object);
    }
    let mut found = Vec::new(alloc);
    add_rules(alloc, &mut found, Inside::All, &PARTIES, document)?;
    add_flaw(flaws, ScenarioFault::BadParties, Subject::Document, found)
}
