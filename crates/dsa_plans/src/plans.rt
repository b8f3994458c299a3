//! The parties of a document, as a script.

ghost use Rattle.std.specs.Prelude.{◌≡◌, ◌⊎◌, ◌+◌, ◌<◌, ◌^◌, Ok, Err, Some, [], true, codes};
ghost use Rattle.std.specs.Prelude.{length, map, option_map, string_bytes, IfErr, IfOk, OnOk};
ghost use Rattle.serde_json.specs.{View.{view}, Find.{get}};
ghost use Rattle.dsa_base.specs.{Rows.{when}, Numbers.{numbers_below}};
ghost use Rattle.dsa_parties.specs.Scripts.{is_script};
ghost use Rattle.dsa_scenario.specs.declared.faults.ScenarioFault.{ScenarioFault};
ghost use Rattle.dsa_plans.specs.Said.{each_onto, read_onto, read_or, whole_below};
ghost use Rattle.dsa_plans.specs.{Submitters.{client_onto}, Acting.{administrator_onto}};
ghost use Rattle.dsa_plans.specs.Plans.{are_few, engines_in, few_tables, party_lists, parties_onto};
ghost use Rattle.dsa_plans.specs.Plans.{parties_said, script_said, tables_of, tables_said};
ghost use Rattle.dsa_plans.specs.Plans.{tables_with};
ghost use Rattle.dsa_plans.specs.{PartyLabels.{act_labels, entry_labels}, Reads.{lists_read}};

use crate::acting::add_administrator;
use crate::labels::{act_labels, entry_labels};
use crate::said::{items_in, items_or_none};
use crate::submitters::add_client;
use dsa_parties::{Act, ClientScript, Part, Script, ScriptEntry, Watch};
use dsa_regs::Caps;
use dsa_scenario::ScenarioFault;
use serde_json::Value;
use std::alloc::{AllocError, Global};

/// What the parties of a document do.
#[derive(Debug, Drop)]
pub struct PartyScripts {
    pub script: Script,
    /// A label for each entry.
    pub labels: Vec<String>,
    /// A label for each act of an administrator.
    pub acts: Vec<String>,
}

/// The lists of the object `parties`.
#[derive(Drop)]
pub struct Lists<'v> {
    pub clients: &'v [Value],
    pub administrators: &'v [Value],
    pub engines: Vec<u16>,
}

/// The number of an engine, which the device has.
pub fn engine_in(count: u16, value: &Value) -> Option<u16>
    ensures { result ≡ whole_below count (view value.now) }
{
    let number = value.as_u64()?;
    if number < count as u64 {
        Some(number as u16)
    } else {
        None
    }
}

// Adds the numbers of engines, and says whether the device has each.
fn add_engines(engines: &mut Vec<u16>, count: u16, items: &[Value]) -> Result<bool, AllocError>
    ensures { IfOk result (λ good. when good engines.new.items
        ≡ each_onto (read_onto (whole_below count)) engines.old.items (map view items.now)) }
{
    for item in items {
        let Some(engine) = engine_in(count, item) else {
            return Ok(false);
        };
        engines.push(engine)?;
    }
    Ok(true)
}

// The numbers of engines that stand there.
fn engines_in(alloc: Global, count: u16, value: &Value) -> Result<Option<Vec<u16>>, AllocError>
    ensures { IfOk result (λ found. option_map (λ engines. engines.items) found
        ≡ engines_in count (view value.now)) }
{
    let Some(items) = items_in(value) else {
        return Ok(None);
    };
    let mut engines = Vec::new(alloc);
    if add_engines(&mut engines, count, items)? {
        Ok(Some(engines))
    } else {
        Ok(None)
    }
}

// The numbers of all engines.
fn all_engines(alloc: Global, count: u16) -> Result<Vec<u16>, AllocError>
    ensures { IfOk result (λ engines. engines.items ≡ numbers_below count) }
{
    let mut engines = Vec::new(alloc);
    for engine in 0..count {
        engines.push(engine)?;
    }
    Ok(engines)
}

// The engines that make steps: all where nothing is said.
fn engines_at(alloc: Global, count: u16, object: &Value) -> Result<Option<Vec<u16>>, AllocError>
    ensures { IfOk result (λ found. option_map (λ engines. engines.items) found
        ≡ read_or (numbers_below count) (engines_in count)
        (get (codes "engines") (view object.now))) }
{
    match object.get("engines") {
        None => Ok(Some(all_engines(alloc, count)?)),
        Some(value) => engines_in(alloc, count, value),
    }
}

// The lists of the object, for a device with so many engines.
fn party_lists(alloc: Global, count: u16, object: &Value) -> Result<Option<Lists<'_>>, AllocError>
    ensures { IfOk result (λ lists. option_map lists_read lists
        ≡ party_lists count (view object.now)) }
{
    if object.as_object().is_none() {
        return Ok(None);
    }
    let Some(clients) = items_or_none(object, "clients") else {
        return Ok(None);
    };
    let Some(administrators) = items_or_none(object, "admins") else {
        return Ok(None);
    };
    let Some(engines) = engines_at(alloc, count, object)? else {
        return Ok(None);
    };
    Ok(Some(Lists {
        clients,
        administrators,
        engines,
    }))
}

// Adds the clients, one after the other.
fn add_clients(
    entries: &mut Vec<ScriptEntry>,
    clients: &mut Vec<ClientScript>,
    objects: &[Value],
) -> Result<(), ScenarioFault>
    ensures ok { OnOk result
        (parties_onto client_onto 0 (entries.old.items, clients.old.items)
        (map view objects.now)
        ≡ Ok (entries.new.items, clients.new.items)) }
    ensures err { IfErr result (λ e. (e ≡ ScenarioFault.OutOfMemory)
        ⊎ (parties_onto client_onto 0 (entries.old.items, clients.old.items)
        (map view objects.now)
        ≡ Err e)) }
{
    for (i, object) in objects.iter().enumerate() {
        if !add_client(entries, clients, object)? {
            return Err(ScenarioFault::BadParty(i as u64));
        }
    }
    Ok(())
}

// Adds the administrators, one after the other, which are counted from this number.
fn add_administrators(
    acts: &mut Vec<Act>,
    administrators: &mut Vec<Part>,
    first: u64,
    objects: &[Value],
) -> Result<(), ScenarioFault>
    requires { first + length objects.now < 2 ^ 64 }
    ensures ok { OnOk result
        (parties_onto administrator_onto first (acts.old.items, administrators.old.items)
        (map view objects.now)
        ≡ Ok (acts.new.items, administrators.new.items)) }
    ensures err { IfErr result (λ e. (e ≡ ScenarioFault.OutOfMemory)
        ⊎ (parties_onto administrator_onto first (acts.old.items, administrators.old.items)
        (map view objects.now)
        ≡ Err e)) }
{
    for (i, object) in objects.iter().enumerate() {
        if !add_administrator(acts, administrators, object)? {
            return Err(ScenarioFault::BadParty(first + i as u64));
        }
    }
    Ok(())
}

// The script of these tables with these watches, unless they are too many.
fn few_script(
    entries: Vec<ScriptEntry>,
    clients: Vec<ClientScript>,
    acts: Vec<Act>,
    administrators: Vec<Part>,
    engines: Vec<u16>,
    watches: Vec<Watch>,
) -> Result<Script, ScenarioFault>
    requires { are_few
        (tables_with engines.items (entries.items, clients.items)
        (acts.items, administrators.items))
        ≡ true
        → is_script entries.items clients.items acts.items administrators.items ≡ true }
    ensures ok { IfOk result (λ script.
        few_tables
        (tables_with engines.items (entries.items, clients.items)
        (acts.items, administrators.items))
        ≡ Ok (tables_of script)) }
    ensures err { IfErr result (λ e.
        few_tables
        (tables_with engines.items (entries.items, clients.items)
        (acts.items, administrators.items))
        ≡ Err e) }
    ensures watched { IfOk result (λ script. script.watches ≡ watches) }
{
    if clients.len() > 16 || administrators.len() > 8 || entries.len() > 256 {
        return Err(ScenarioFault::TooManyParties);
    }
    if acts.len() >= 1 << 32 {
        return Err(ScenarioFault::TooManyParties);
    }
    let Some(script) = Script::new(entries, clients, acts, administrators, engines, watches) else {
        unreachable!();
    };
    Ok(script)
}

// The script of these parties.
fn script_of(alloc: Global, lists: Lists<'_>) -> Result<Script, ScenarioFault>
    ensures ok { IfOk result
        (λ script. tables_said (lists_read lists.entry) ≡ Ok (tables_of script)) }
    ensures err { IfErr result (λ e. (e ≡ ScenarioFault.OutOfMemory)
        ⊎ (tables_said (lists_read lists.entry) ≡ Err e)) }
    ensures watches { IfOk result (λ script. script.watches.items ≡ []) }
{
    let mut entries = Vec::new(alloc);
    let mut clients = Vec::new(alloc);
    add_clients(&mut entries, &mut clients, lists.clients)?;
    let mut acts = Vec::new(alloc);
    let mut administrators = Vec::new(alloc);
    let first = lists.clients.len() as u64;
    add_administrators(&mut acts, &mut administrators, first, lists.administrators)?;
    let watches = Vec::new(alloc);
    few_script(
        entries,
        clients,
        acts,
        administrators,
        lists.engines,
        watches,
    )
}

// The script of the object `parties`, for a device with so many engines.
fn script_in(alloc: Global, engines: u16, object: &Value) -> Result<Script, ScenarioFault>
    ensures ok { IfOk result
        (λ script. script_said engines (view object.now) ≡ Ok (tables_of script)) }
    ensures err { IfErr result (λ e. (e ≡ ScenarioFault.OutOfMemory)
        ⊎ (script_said engines (view object.now) ≡ Err e)) }
    ensures watches { IfOk result (λ script. script.watches.items ≡ []) }
{
    let Some(lists) = party_lists(alloc, engines, object)? else {
        return Err(ScenarioFault::BadParties);
    };
    script_of(alloc, lists)
}

/// Reads the parties of a document for a device with these caps.
///
/// The key `parties` has an object with the arrays `clients`, `admins` and `engines`. Where one of
/// the first two is missing there are no such parties, and where the third is missing each engine
/// of the device makes steps. An engine that the device does not have is refused.
///
/// A client has `steps`, and a number at `client`, or else its place among the clients. Each of its
/// steps is an `enqcmd` or a `movdir` without `client`, and may have `retry`: `"give-up"`, which is
/// the default, `"again"`, or how often it submits again at most. A Batch has `members`, as many as
/// it counts: texts of digits, or objects with one at `desc`. What stands at `fault` says how an
/// operation on memory may end: `false`, which is the default, `true`, or `"may"` for both. A
/// member without `fault` has that of its Batch.
///
/// An administrator has `steps`, each a `command`, a `poll`, a `queue`, a `group` or a `clear`. A
/// word that is no command makes the party bad. A command may have `busy`: `"give-up"`, which is
/// the default, or `"again"`. A poll may have `until`: `"once"`, which is the default,
/// `"finished"` or `"over"`.
///
/// Where a step has a text at `as` that can be an own name of an entry, this is its label. Else its
/// label is the letter of its party and its place: `a0`, `a1`, `b0` for clients, and `A0` for the
/// first administrator. The members of a Batch with the label `x` have the labels `x/0`, `x/1` and
/// so on. Two labels may be equal.
///
/// The script has no watches. Conditions are not read yet: a step with `when` or `if` makes its
/// party bad. Other keys are ignored.
pub fn read_parties(
    alloc: Global,
    caps: &Caps,
    document: &Value,
) -> Result<PartyScripts, ScenarioFault>
    ensures script { IfOk result
        (λ read. parties_said caps.now.engines (view document.now) ≡ Ok (tables_of read.script)) }
    ensures labels { IfOk result
        (λ read. option_map entry_labels (get (codes "parties") (view document.now))
        ≡ Some (map string_bytes read.labels.items)) }
    ensures acts { IfOk result
        (λ read. option_map act_labels (get (codes "parties") (view document.now))
        ≡ Some (map string_bytes read.acts.items)) }
    ensures watches { IfOk result (λ read. read.script.watches.items ≡ []) }
    ensures err { IfErr result (λ e. (e ≡ ScenarioFault.OutOfMemory)
        ⊎ (parties_said caps.now.engines (view document.now) ≡ Err e)) }
{
    let Some(object) = document.get("parties") else {
        return Err(ScenarioFault::NoParties);
    };
    let script = script_in(alloc, caps.engines, object)?;
    let labels = entry_labels(alloc, object)?;
    let acts = act_labels(alloc, object)?;
    Ok(PartyScripts {
        script,
        labels,
        acts,
    })
}
