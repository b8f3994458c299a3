//! The formulas on states.

ghost use Rattle.std.specs.Prelude.{◌≡◌, ◌^◌, None, codes, map, option_map, IfOk};
ghost use Rattle.serde_json.specs.{View.{view}, Find.{get}};
ghost use Rattle.dsa_base.specs.Rows.{when};
ghost use Rattle.dsa_plans.specs.Said.{each_onto};
ghost use Rattle.dsa_scenario.specs.Fields.{whole_of};
ghost use Rattle.dsa_questions.specs.Formed.{formed, as_names};
ghost use Rattle.dsa_questions.specs.Stating.{act_stated, become_stated, client_stated, device_stated};
ghost use Rattle.dsa_questions.specs.Stating.{administrator_stated, entry_stated, entry_stated_by};
ghost use Rattle.dsa_questions.specs.Stating.{formula_onto, joined_onto, one_key_onto, pair_stated};
ghost use Rattle.dsa_questions.specs.Stating.{part_onto, queue_stated, queue_stated_by, single_stated};
ghost use Rattle.dsa_questions.specs.Stating.{with_stated};
ghost use Rattle.dsa_questions.specs.Words.{became_called};

use crate::conditions::{has_keys, items_in, place_number, text_at};
use crate::words::{became_called, being_called, phase_called, replied_called};
use dsa_formulas::{Fact, Term};
use dsa_parties::Watch;
use dsa_plans::PartyScripts;
use dsa_regs::Caps;
use serde_json::Value;
use std::alloc::AllocError;

/// What questions may name: what a device has, and what its parties are called.
#[derive(Clone, Copy)]
pub struct Naming<'a> {
    pub caps: &'a Caps,
    pub parties: &'a PartyScripts,
}

/// What a condition on states says: that something has come, or that a fact is so.
#[derive(Clone, Copy, Debug, PartialEq, Eq)]
pub enum Stated {
    Watched(Watch),
    Stands(Fact),
}

/// A formula so far, and what all formulas watch for.
#[derive(Drop)]
pub struct Formed {
    pub terms: Vec<Term>,
    pub watches: Vec<Watch>,
}

// ---- facts

// The number of a label, of which there are not so many.
fn small_number(number: usize) -> Result<u32, AllocError>
    ensures { IfOk result (λ small. small ≡ number) }
{
    u32::try_from(number).ok().ok_or(AllocError)
}

// What has become of the entry, or else how it is held.
fn become_stated(label: u32, word: &str) -> Option<Stated>
    ensures { result ≡ become_stated label word.now (became_called word.now) }
{
    match became_called(word) {
        Some(became) => Some(Stated::Watched(Watch::Entry { label, became })),
        None => {
            let being = being_called(word)?;
            Some(Stated::Stands(Fact::Entry { label, being }))
        }
    }
}

// That the entry was accepted before the act at `accepted-before`.
fn before_stated(
    naming: &Naming<'_>,
    label: u32,
    object: &Value,
) -> Result<Option<Stated>, AllocError>
    ensures { IfOk result
        (λ found. found
        ≡ entry_stated_by (as_names naming.now).acts label (view object.now) None) }
{
    let acts = naming.parties.acts.as_slice();
    let Some(act) = place_number(acts, "accepted-before", object) else {
        return Ok(None);
    };
    let act = small_number(act)?;
    Ok(Some(Stated::Watched(Watch::Before { label, act })))
}

// What is said of the entry with this label.
fn entry_stated_by(
    naming: &Naming<'_>,
    label: u32,
    object: &Value,
) -> Result<Option<Stated>, AllocError>
    ensures { IfOk result
        (λ found. found
        ≡ entry_stated_by (as_names naming.now).acts label (view object.now)
        (get (codes "is") (view object.now))) }
{
    let Some(is) = object.get("is") else {
        return before_stated(naming, label, object);
    };
    let Some(word) = is.as_str() else {
        return Ok(None);
    };
    Ok(become_stated(label, word))
}

// What is said of an entry.
fn entry_stated(naming: &Naming<'_>, object: &Value) -> Result<Option<Stated>, AllocError>
    ensures { IfOk result (λ found. found ≡ entry_stated (as_names naming.now) (view object.now)) }
{
    let Some(label) = place_number(naming.parties.labels.as_slice(), "entry", object) else {
        return Ok(None);
    };
    let label = small_number(label)?;
    entry_stated_by(naming, label, object)
}

// How an act was answered.
fn act_stated(naming: &Naming<'_>, object: &Value) -> Result<Option<Stated>, AllocError>
    ensures { IfOk result (λ found. found ≡ act_stated (as_names naming.now) (view object.now)) }
{
    let Some(act) = place_number(naming.parties.acts.as_slice(), "command", object) else {
        return Ok(None);
    };
    let act = small_number(act)?;
    let Some(word) = text_at(object, "is") else {
        return Ok(None);
    };
    let Some(replied) = replied_called(word) else {
        return Ok(None);
    };
    Ok(Some(Stated::Watched(Watch::Act { act, replied })))
}

// The whole number of 16 bits at the key.
fn whole_at(object: &Value, key: &str) -> Option<u16>
    ensures { result ≡ whole_of (2 ^ 16) key.now (view object.now) }
{
    u16::try_from(object.get(key)?.as_u64()?).ok()
}

// The number at the key, if it is below this count.
fn number_below(count: usize, object: &Value, key: &str) -> Option<u64>
    ensures { result ≡ whole_of count key.now (view object.now) }
{
    let number = object.get(key)?.as_u64()?;
    if number < count as u64 {
        Some(number)
    } else {
        None
    }
}

// What is said of the queue with this number.
fn queue_stated_by(queue: u16, object: &Value) -> Option<Stated>
    ensures { result
        ≡ queue_stated_by queue (view object.now) (get (codes "phase") (view object.now)) }
{
    match object.get("phase") {
        Some(word) => {
            let phase = phase_called(word.as_str()?)?;
            Some(Stated::Stands(Fact::Queue { queue, phase }))
        }
        None => {
            let least = whole_at(object, "occupancy")?;
            Some(Stated::Stands(Fact::Filled { queue, least }))
        }
    }
}

// What is said of a queue.
fn queue_stated(naming: &Naming<'_>, object: &Value) -> Option<Stated>
    ensures { result ≡ queue_stated (as_names naming.now) (view object.now) }
{
    let queue = number_below(usize::from(naming.caps.queues), object, "queue")?;
    queue_stated_by(queue as u16, object)
}

// A fact that has two keys.
fn pair_stated(naming: &Naming<'_>, object: &Value) -> Result<Option<Stated>, AllocError>
    ensures { IfOk result (λ found. found ≡ pair_stated (as_names naming.now) (view object.now)) }
{
    if object.get("entry").is_some() {
        entry_stated(naming, object)
    } else if object.get("command").is_some() {
        act_stated(naming, object)
    } else {
        Ok(queue_stated(naming, object))
    }
}

// The phase of the device.
fn device_stated(object: &Value) -> Option<Stated>
    ensures { result ≡ device_stated (view object.now) }
{
    let phase = phase_called(text_at(object, "device")?)?;
    Some(Stated::Stands(Fact::Device { phase }))
}

// That a client is through.
fn client_stated(naming: &Naming<'_>, object: &Value) -> Option<Stated>
    ensures { result ≡ client_stated (as_names naming.now) (view object.now) }
{
    let client = number_below(naming.parties.script.clients.len(), object, "client")?;
    Some(Stated::Stands(Fact::Client {
        client: u16::try_from(client).ok()?,
    }))
}

// That an administrator is through.
fn administrator_stated(naming: &Naming<'_>, object: &Value) -> Option<Stated>
    ensures { result ≡ administrator_stated (as_names naming.now) (view object.now) }
{
    let number = number_below(naming.parties.script.administrators.len(), object, "admin")?;
    Some(Stated::Stands(Fact::Administrator {
        administrator: u16::try_from(number).ok()?,
    }))
}

// A fact that has one key.
fn single_stated(naming: &Naming<'_>, object: &Value) -> Option<Stated>
    ensures { result ≡ single_stated (as_names naming.now) (view object.now) }
{
    if object.get("device").is_some() {
        device_stated(object)
    } else if object.get("client").is_some() {
        client_stated(naming, object)
    } else {
        administrator_stated(naming, object)
    }
}

// ---- what they are added to

// One fact more, if there is one.
fn add_stated(so_far: &mut Formed, stated: Option<Stated>) -> Result<bool, AllocError>
    ensures { IfOk result
        (λ good. when good (formed so_far.new)
        ≡ option_map (with_stated (formed so_far.old)) stated) }
{
    match stated {
        None => return Ok(false),
        Some(Stated::Stands(fact)) => so_far.terms.push(Term::Is(fact))?,
        Some(Stated::Watched(watch)) => {
            let came = Fact::Came {
                watch: so_far.watches.len(),
            };
            so_far.terms.push(Term::Is(came))?;
            so_far.watches.push(watch)?;
        }
    }
    Ok(true)
}

// Adds all these parts, each of which this joins with those before. They are nested so deep at
// most.
#[cycle(formulas)]
fn add_parts(
    so_far: &mut Formed,
    join: Term,
    depth: u32,
    naming: &Naming<'_>,
    parts: &[Value],
) -> Result<bool, AllocError>
    ensures { IfOk result
        (λ good. when good (formed so_far.new)
        ≡ each_onto (part_onto join (formula_onto depth (as_names naming.now))) (formed so_far.old)
        (map view parts.now)) }
{
    for part in parts {
        if !add_formula(so_far, depth, naming, part)? {
            return Ok(false);
        }
        so_far.terms.push(join)?;
    }
    Ok(true)
}

// Adds what joins the parts that stand there.
#[cycle(formulas)]
fn add_joined(
    so_far: &mut Formed,
    join: Term,
    none: bool,
    depth: u32,
    naming: &Naming<'_>,
    value: &Value,
) -> Result<bool, AllocError>
    ensures { IfOk result
        (λ good. when good (formed so_far.new)
        ≡ joined_onto join none (formula_onto depth (as_names naming.now)) (formed so_far.old)
        (view value.now)) }
{
    let Some(parts) = items_in(value) else {
        return Ok(false);
    };
    so_far.terms.push(Term::Known(none))?;
    add_parts(so_far, join, depth, naming, parts)
}

// Adds what stands at `all`, `any` or `not`, or else a fact.
#[cycle(formulas)]
fn add_one_key(
    so_far: &mut Formed,
    depth: u32,
    naming: &Naming<'_>,
    object: &Value,
) -> Result<bool, AllocError>
    ensures { IfOk result
        (λ good. when good (formed so_far.new)
        ≡ one_key_onto (formula_onto depth (as_names naming.now)) (as_names naming.now)
        (formed so_far.old) (view object.now) (get (codes "all") (view object.now))
        (get (codes "any") (view object.now)) (get (codes "not") (view object.now))) }
{
    if let Some(all) = object.get("all") {
        return add_joined(so_far, Term::Both, true, depth, naming, all);
    }
    if let Some(any) = object.get("any") {
        return add_joined(so_far, Term::Either, false, depth, naming, any);
    }
    let Some(no) = object.get("not") else {
        return add_stated(so_far, single_stated(naming, object));
    };
    if !add_formula(so_far, depth, naming, no)? {
        return Ok(false);
    }
    so_far.terms.push(Term::Not)?;
    Ok(true)
}

/// Adds a formula that is nested so deep at most, and says whether it can be read.
#[cycle(formulas)]
pub fn add_formula(
    so_far: &mut Formed,
    depth: u32,
    naming: &Naming<'_>,
    value: &Value,
) -> Result<bool, AllocError>
    ensures { IfOk result
        (λ good. when good (formed so_far.new)
        ≡ formula_onto depth (as_names naming.now) (formed so_far.old) (view value.now)) }
{
    if depth == 0 {
        return Ok(false);
    }
    if has_keys(1, value) {
        return add_one_key(so_far, depth - 1, naming, value);
    }
    if !has_keys(2, value) {
        return Ok(false);
    }
    let stated = pair_stated(naming, value)?;
    add_stated(so_far, stated)
}
