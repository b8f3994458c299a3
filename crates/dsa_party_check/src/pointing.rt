//! Where what is told of parties and questions is in the text of their document.

ghost use Rattle.std.specs.Prelude.{◌≡◌, option_map, string_bytes, IfOk, IfSome};
ghost use Rattle.serde_json.specs.View.{view};
ghost use Rattle.dsa_scenario.specs.Document.{IsJson};
ghost use Rattle.dsa_check.specs.{Places.{IsShallow}, Remarks.{IsAimedAt}};
ghost use Rattle.dsa_party_check.specs.Complaints.{complained};
ghost use Rattle.dsa_party_check.specs.Pointing.{IsComplaintAt, item_at, value_inside};
ghost use Rattle.dsa_party_check.specs.Pointing.{value_of_subject, value_told};

use crate::complaint::{Complaint, Inside, Subject};
use dsa_check::{Extent, START, Spot, is_text_at, last_member, offset_of, scan_text};
use dsa_plans::items_or;
use dsa_questions::{Kind, key_of};
use serde_json::Value;
use std::alloc::{AllocError, Global};

// An item of the array at the key.
fn item_at<'v>(object: &'v Value, key: &str, place: usize) -> Option<&'v Value>
    ensures { option_map (λ v. view v.now) result ≡ item_at key.now place (view object.now) }
{
    items_or(object, key).get(place)
}

// The value that a subject is.
fn value_of_subject(document: &Value, subject: Subject) -> Option<&Value>
    ensures { option_map (λ v. view v.now) result
        ≡ value_of_subject (view document.now) subject }
{
    match subject {
        Subject::Document => Some(document),
        Subject::Parties => document.get("parties"),
        Subject::Client(place) => item_at(document.get("parties")?, "clients", place),
        Subject::Administrator(place) => item_at(document.get("parties")?, "admins", place),
        Subject::Question(kind, place) => item_at(document, key_of(kind), place),
    }
}

// A part of it.
fn value_inside(value: &Value, inside: Inside) -> Option<&Value>
    ensures { option_map (λ v. view v.now) result ≡ value_inside (view value.now) inside }
{
    match inside {
        Inside::All => Some(value),
        Inside::Step { step, .. } => item_at(value, "steps", step),
        Inside::Member { step, member, .. } => {
            item_at(item_at(value, "steps", step)?, "members", member)
        }
    }
}

// What is told of.
fn value_told(document: &Value, subject: Subject, inside: Inside) -> Option<&Value>
    ensures { option_map (λ v. view v.now) result
        ≡ value_told (view document.now) subject inside }
{
    value_inside(value_of_subject(document, subject)?, inside)
}

// What makes an object of a text of an array, so that a walk finds its items.
const BEFORE_ITEMS: &str = "{\"steps\":";

// Where the items of an array are, which these bytes are a text of.
fn items_in_text(alloc: Global, text: &[u8]) -> Result<Vec<Extent>, AllocError> {
    let mut object = Vec::new(alloc);
    object.extend_from_slice(BEFORE_ITEMS.as_bytes())?;
    object.extend_from_slice(text)?;
    object.extend_from_slice(b"}")?;
    Ok(scan_text(alloc, object.as_slice())?.steps)
}

// So far from the begin of a value.
fn moved(extent: Extent, from: usize) -> Extent {
    Extent {
        begin: extent.begin.saturating_add(from),
        end: extent.end.saturating_add(from),
    }
}

// The value at the key of an object, where that is.
fn value_at(
    alloc: Global,
    bytes: &[u8],
    object: Extent,
    key: &str,
) -> Result<Option<Extent>, AllocError> {
    let Some(text) = bytes.get(object.begin..object.end) else {
        return Ok(None);
    };
    let members = scan_text(alloc, text)?.members;
    match last_member(alloc, text, members.as_slice(), key)? {
        Some(member) => Ok(Some(moved(member.value, object.begin))),
        None => Ok(None),
    }
}

/// Where the items of the array at the key of an object are.
pub fn items_at(
    alloc: Global,
    bytes: &[u8],
    object: Extent,
    key: &str,
) -> Result<Vec<Extent>, AllocError> {
    let mut items = Vec::new(alloc);
    let Some(array) = value_at(alloc, bytes, object, key)? else {
        return Ok(items);
    };
    let Some(text) = bytes.get(array.begin..array.end) else {
        return Ok(items);
    };
    for item in items_in_text(alloc, text)?.as_slice() {
        let begin = item.begin.saturating_sub(BEFORE_ITEMS.len());
        let end = item.end.saturating_sub(BEFORE_ITEMS.len());
        items.push(moved(Extent { begin, end }, array.begin))?;
    }
    Ok(items)
}

// An item of the array at the key of an object.
fn item_extent(
    alloc: Global,
    bytes: &[u8],
    object: Option<Extent>,
    key: &str,
    place: usize,
) -> Result<Option<Extent>, AllocError> {
    match object {
        Some(object) => Ok(items_at(alloc, bytes, object, key)?.get(place).copied()),
        None => Ok(None),
    }
}

/// Where the parts of a document are that have its parties, and its questions.
#[derive(Drop)]
pub struct Extents {
    document: Extent,
    parties: Option<Extent>,
    clients: Vec<Extent>,
    administrators: Vec<Extent>,
    nevers: Vec<Extent>,
    others: Vec<Extent>,
    always: Vec<Extent>,
}

// The items of the array at a key of the object `parties`.
fn parties_at(
    alloc: Global,
    bytes: &[u8],
    parties: Option<Extent>,
    key: &str,
) -> Result<Vec<Extent>, AllocError> {
    match parties {
        Some(parties) => items_at(alloc, bytes, parties, key),
        None => Ok(Vec::new(alloc)),
    }
}

/// Walks over a document.
pub fn extents_of(alloc: Global, bytes: &[u8]) -> Result<Extents, AllocError> {
    let document = Extent {
        begin: bytes.iter().position(|byte| *byte > b' ').unwrap_or(0),
        end: bytes.len(),
    };
    let parties = value_at(alloc, bytes, document, "parties")?;
    Ok(Extents {
        document,
        parties,
        clients: parties_at(alloc, bytes, parties, "clients")?,
        administrators: parties_at(alloc, bytes, parties, "admins")?,
        nevers: items_at(alloc, bytes, document, "never")?,
        others: items_at(alloc, bytes, document, "sometimes")?,
        always: items_at(alloc, bytes, document, "always")?,
    })
}

impl Extents {
    // Where the questions of a kind are.
    fn questions(&self, kind: Kind) -> &[Extent] {
        match kind {
            Kind::Never => self.nevers.as_slice(),
            Kind::Sometimes => self.others.as_slice(),
            Kind::Always => self.always.as_slice(),
        }
    }

    // Where a subject is.
    fn of_subject(&self, subject: Subject) -> Option<Extent> {
        match subject {
            Subject::Document => Some(self.document),
            Subject::Parties => self.parties,
            Subject::Client(place) => self.clients.get(place).copied(),
            Subject::Administrator(place) => self.administrators.get(place).copied(),
            Subject::Question(kind, place) => self.questions(kind).get(place).copied(),
        }
    }

    // Where a part of it is.
    fn inside(
        &self,
        alloc: Global,
        bytes: &[u8],
        subject: Subject,
        inside: Inside,
    ) -> Result<Option<Extent>, AllocError> {
        let all = self.of_subject(subject);
        match inside {
            Inside::All => Ok(all),
            Inside::Step { step, .. } => item_extent(alloc, bytes, all, "steps", step),
            Inside::Member { step, member, .. } => {
                let own = item_extent(alloc, bytes, all, "steps", step)?;
                item_extent(alloc, bytes, own, "members", member)
            }
        }
    }
}

// The place to which a complaint points in its value, whose text these bytes are.
fn offset_in(
    alloc: Global,
    text: &[u8],
    value: &Value,
    complaint: &Complaint,
) -> Result<Option<usize>, AllocError>
    ensures { IfOk result (λ offset. IfSome offset
        (IsAimedAt text.now (view value.now) complaint.now.aim
        (option_map string_bytes complaint.now.name))) }
{
    let members = scan_text(alloc, text)?.members;
    let name = complaint.name.as_deref();
    offset_of(alloc, text, members.as_slice(), value, complaint.aim, name)
}

/// The place to which a complaint points, where that is found.
pub fn spot_of(
    alloc: Global,
    bytes: &[u8],
    document: &Value,
    extents: &Extents,
    subject: Subject,
    complaint: &Complaint,
) -> Result<Option<Spot>, AllocError>
    requires { IsJson bytes.now (view document.now) }
    ensures { IfOk result (λ spot. IfSome spot
        (IsComplaintAt bytes.now subject (complained complaint.now))) }
{
    let Some(value) = value_told(document, subject, complaint.inside) else {
        return Ok(None);
    };
    let Some(Extent { begin, end }) = extents.inside(alloc, bytes, subject, complaint.inside)?
    else {
        return Ok(None);
    };
    if !is_text_at(alloc, bytes, begin, end, value)? {
        return Ok(None);
    }
    let Some(text) = bytes.get(begin..end) else {
        return Ok(None);
    };
    match offset_in(alloc, text, value, complaint)? {
        Some(offset) if offset <= text.len() => { Ok(Some(START.moved_to(bytes, begin + offset))) }
        _ => Ok(None),
    }
}
