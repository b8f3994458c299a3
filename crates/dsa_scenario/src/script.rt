//! What a document asks, as it is read from its text.
//!
//! A document is read from the tokens of its text where each of its numbers is whole and without
//! sign, and no object or array is in it but the steps, their objects and the capabilities. Any
//! other text, and one that is no document, is read by a JSON value, which is slower and takes more
//! memory.

ghost use Rattle.std.specs.Prelude.{◌≡◌, ◌⊎◌, ◌<◌, ◌^◌, IfOk, IfSome, IfErr, IsTrue, Some, map, option_map};
ghost use Rattle.serde_json.specs.{Data.{Data, array, number, unsigned, object, Items, Members, no_members, put}, Read.{read}, View.{view}};
ghost use Rattle.dsa_scenario.specs.Actions.{action_of, caps_of};
ghost use Rattle.dsa_scenario.specs.Document.{list_of_items, IsDocument, IsFirstBad, IsFaultOf};
ghost use Rattle.dsa_scenario.specs.Tokens.{put_all, Reads, ReadsMembers, ReadsSteps, HasParts, IsScript};

use crate::actions::{Action, action_at, caps_at, parse_action};
use crate::document::{parse_head, parse_json};
use crate::faults::ScenarioFault;
use crate::members::{Leaf, Part, read_leaf, read_members};
use dsa_regs::Caps;
use json::{Reader, Scratch, Token};
use serde_json::Value;
use std::alloc::{AllocError, Global};

/// The capabilities, the capacity and the actions of a document.
#[derive(Drop)]
pub struct Script {
    pub caps: Caps,
    pub capacity: u64,
    pub actions: Vec<Action>,
}

/// What the step objects ask, or the first that is none.
pub fn read_actions(alloc: Global, steps: &[Value]) -> Result<Vec<Action>, ScenarioFault>
    ensures ok { IfOk result
        (λ actions. map action_of (map view steps.now) ≡ map Some actions.items) }
    ensures bad { IfErr result
        (λ e. (e ≡ ScenarioFault.OutOfMemory) ⊎ IsFirstBad (map view steps.now) e) }
{
    let mut actions = Vec::new(alloc);
    for (i, step) in steps.iter().enumerate() {
        match parse_action(step) {
            Some(action) => actions.push(action)?,
            None => return Err(ScenarioFault::BadStep(i as u64)),
        }
    }
    Ok(actions)
}

// The script of a document, by its JSON value.
fn script_by_value(alloc: Global, bytes: &[u8]) -> Result<Script, ScenarioFault>
    ensures ok { IfOk result
        (λ script. IsDocument bytes.now script.caps script.capacity script.actions.items) }
    ensures err { IfErr result (λ e. (e ≡ ScenarioFault.OutOfMemory) ⊎ IsFaultOf bytes.now e) }
{
    let value = parse_json(alloc, bytes)?;
    let Some(head) = parse_head(&value) else {
        return Err(ScenarioFault::BadDocument);
    };
    let actions = read_actions(alloc, head.steps)?;
    Ok(Script {
        caps: head.caps,
        capacity: head.capacity,
        actions,
    })
}

// What the object with these members asks, where it is a step object. A call of its own keeps the
// reading of tokens in one piece.
#[inline(never)]
fn action_of_members(members: &[(&str, Leaf<'_>)]) -> Option<Action>
    ensures { result ≡ action_of (object (put_all members.now no_members)) }
{
    action_at(&Part::Members(members))
}

// What the step objects behind a bracket ask, as far as the one that closes it. None where not all
// are step objects whose members are leaves.
#[inline(never)]
fn read_steps(alloc: Global, reader: &mut Reader<'_>) -> Result<Option<Vec<Action>>, AllocError>
    ensures { IfOk result
        (λ o. IfSome o (λ actions. ReadsSteps reader.old actions.items reader.new)) }
{
    let mut members = Vec::new(alloc);
    let mut actions = Vec::new(alloc);
    loop {
        match reader.next() {
            Some(Token::EndArray) => return Ok(Some(actions)),
            Some(Token::BeginObject) => {
                if !read_members(reader, &mut members)? {
                    return Ok(None);
                }
                let Some(action) = action_of_members(&members) else {
                    return Ok(None);
                };
                actions.push(action)?;
            }
            _ => return Ok(None),
        }
    }
}

// The capabilities that come next, where they are an object whose members are leaves.
#[inline(never)]
fn read_caps(alloc: Global, reader: &mut Reader<'_>) -> Result<Option<Caps>, AllocError>
    ensures { IfOk result
        (λ o. IfSome o
        (λ caps. (d : Data) × Reads 1 reader.old d reader.new × (caps_of d ≡ Some caps))) }
{
    let Some(Token::BeginObject) = reader.next() else {
        return Ok(None);
    };
    let mut members = Vec::new(alloc);
    if !read_members(reader, &mut members)? {
        return Ok(None);
    }
    Ok(caps_at(&Part::Members(&members)))
}

// The whole number without sign that comes next.
#[inline(never)]
fn read_number(reader: &mut Reader<'_>) -> Option<u64>
    ensures read { IfSome result (λ n. Reads 0 reader.old (number (unsigned n)) reader.new) }
    ensures fits { IfSome result (λ n. n < 2 ^ 64) }
{
    match read_leaf(reader)? {
        Leaf::Number(number) => Some(number),
        _ => None,
    }
}

// The actions of the step objects that come next as an array.
fn read_list(alloc: Global, reader: &mut Reader<'_>) -> Result<Option<Vec<Action>>, AllocError>
    ensures { IfOk result
        (λ o. IfSome o
        (λ actions. (steps : Items)
        × Reads 2 reader.old (array steps) reader.new
        × (map action_of (list_of_items steps) ≡ map Some actions.items))) }
{
    match reader.next() {
        Some(Token::BeginArray) => read_steps(alloc, reader),
        _ => Ok(None),
    }
}

// What was read so far of a document's three keys.
#[derive(Drop)]
struct Parts {
    caps: Option<Caps>,
    capacity: Option<u64>,
    actions: Option<Vec<Action>>,
}

impl Parts {
    // The script, where all three are there.
    fn script(self) -> Option<Script>
        ensures { IfSome result
            (λ script. (self.caps ≡ Some script.caps)
            × (self.capacity ≡ Some script.capacity)
            × (option_map (λ v. v.items) self.actions ≡ Some script.actions.items)) }
    {
        Some(Script {
            caps: self.caps?,
            capacity: self.capacity?,
            actions: self.actions?,
        })
    }
}

// Reads what stands at this key of a document. Says whether it can be read so.
fn read_part(
    alloc: Global,
    reader: &mut Reader<'_>,
    parts: &mut Parts,
    key: &str,
) -> Result<bool, AllocError>
    ensures { IfOk result
        (λ good. IsTrue good → (d : Data)
        × Reads 2 reader.old d reader.new
        × ((found : Members)
        → HasParts found parts.old.caps parts.old.capacity
        (option_map (λ v. v.items) parts.old.actions)
        → HasParts (put key.now d found) parts.new.caps parts.new.capacity
        (option_map (λ v. v.items) parts.new.actions))) }
{
    match key {
        "caps" => {
            parts.caps = read_caps(alloc, reader)?;
            Ok(parts.caps.is_some())
        }
        "capacity" => {
            parts.capacity = read_number(reader);
            Ok(parts.capacity.is_some())
        }
        "steps" => {
            parts.actions = read_list(alloc, reader)?;
            Ok(parts.actions.is_some())
        }
        _ => Ok(read_leaf(reader).is_some()),
    }
}

// Reads the keys of a document behind its brace, as far as the one that closes it.
fn read_parts(alloc: Global, reader: &mut Reader<'_>, parts: &mut Parts) -> Result<bool, AllocError>
    ensures { IfOk result
        (λ good. IsTrue good → (all : Members)
        × ReadsMembers 2 reader.old no_members all reader.new
        × (HasParts no_members parts.old.caps parts.old.capacity
        (option_map (λ v. v.items) parts.old.actions)
        → HasParts all parts.new.caps parts.new.capacity
        (option_map (λ v. v.items) parts.new.actions))) }
{
    loop {
        let Ok(next) = reader.next_key() else {
            return Ok(false);
        };
        let Some(key) = next else {
            return Ok(true);
        };
        if !read_part(alloc, reader, parts, key)? {
            return Ok(false);
        }
    }
}

// The script of a document, by the tokens of its text. None says that its value has to be read.
fn script_by_tokens(alloc: Global, text: &str) -> Result<Option<Script>, ScenarioFault>
    ensures ok { IfOk result (λ o. IfSome o
        (λ script. (d : Data)
        × (read text.now ≡ Some d)
        × IsScript d script.caps script.capacity script.actions.items)) }
    ensures err { IfErr result (λ e. e ≡ ScenarioFault.OutOfMemory) }
{
    let mut scratch = Scratch::new(alloc);
    let mut reader = Reader::new(text, &mut scratch)?;
    let mut parts = Parts {
        caps: None,
        capacity: None,
        actions: None,
    };
    let Some(Token::BeginObject) = reader.next() else {
        return Ok(None);
    };
    if !read_parts(alloc, &mut reader, &mut parts)? || reader.next().is_some() {
        return Ok(None);
    }
    Ok(parts.script())
}

/// The script of the document in these bytes.
pub fn read_script(alloc: Global, bytes: &[u8]) -> Result<Script, ScenarioFault>
    ensures ok { IfOk result
        (λ script. IsDocument bytes.now script.caps script.capacity script.actions.items) }
    ensures err { IfErr result (λ e. (e ≡ ScenarioFault.OutOfMemory) ⊎ IsFaultOf bytes.now e) }
{
    if let Ok(text) = simdutf8::compat::from_utf8(bytes) {
        if let Some(script) = script_by_tokens(alloc, text)? {
            return Ok(script);
        }
    }
    script_by_value(alloc, bytes)
}
