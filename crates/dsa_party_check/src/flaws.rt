//! All that is wrong with the parties of a document.

ghost use Rattle.std.specs.Prelude.{◌≡◌, codes, map, string_bytes, IfOk, Some};
ghost use Rattle.serde_json.specs.{View.{view}, Find.{get}};
ghost use Rattle.dsa_check.specs.Judgement.{caps_at};
ghost use Rattle.dsa_party_check.specs.Complaints.{flawed};
ghost use Rattle.dsa_party_check.specs.Flaws.{begins_with_fault, flaws_by_caps, flaws_of_document};
ghost use Rattle.dsa_party_check.specs.Flaws.{is_same_fault, led_by};
ghost use Rattle.dsa_party_check.specs.PartyFlaws.{parties_flaws};

use crate::complaint::{Flaw, Subject, flaw_of_fault};
use crate::parties::add_parties;
use dsa_plans::read_parties;
use dsa_regs::Caps;
use dsa_scenario::{ScenarioFault, parse_caps};
use serde_json::Value;
use std::alloc::{AllocError, Global};

// Whether both are the same fault of parties.
fn is_same_fault(fault: ScenarioFault, other: ScenarioFault) -> bool
    ensures { result ≡ is_same_fault fault other }
{
    match (fault, other) {
        (ScenarioFault::BadParties, ScenarioFault::BadParties) => true,
        (ScenarioFault::BadParty(i), ScenarioFault::BadParty(j)) => i == j,
        (ScenarioFault::TooManyParties, ScenarioFault::TooManyParties) => true,
        _ => false,
    }
}

// Whether the flaws begin with this fault.
fn begins_with_fault(fault: ScenarioFault, flaws: &[Flaw]) -> bool
    ensures { result ≡ begins_with_fault fault (map flawed flaws.now) }
{
    match flaws.first() {
        Some(flaw) => is_same_fault(flaw.fault, fault),
        None => false,
    }
}

// The flaws, begun with the fault that is told first.
fn led_by(
    alloc: Global,
    subject: Subject,
    fault: ScenarioFault,
    mut flaws: Vec<Flaw>,
) -> Result<Vec<Flaw>, AllocError>
    ensures { IfOk result
        (λ all. map flawed all.items ≡ led_by subject fault (map flawed flaws.items)) }
{
    if begins_with_fault(fault, flaws.as_slice()) {
        return Ok(flaws);
    }
    flaws.insert(0, flaw_of_fault(alloc, subject, fault)?)?;
    Ok(flaws)
}

// What is wrong with what stands at `parties`.
fn flaws_by_caps(
    alloc: Global,
    document: &Value,
    object: &Value,
    caps: Option<Caps>,
) -> Result<Vec<Flaw>, AllocError>
    ensures { get (codes "parties") (view document.now) ≡ Some (view object.now) → IfOk result
        (λ all. map flawed all.items
        ≡ flaws_by_caps (view document.now) (view object.now) caps) }
{
    let mut flaws = Vec::new(alloc);
    let Some(caps) = caps else {
        add_parties(alloc, &mut flaws, u16::MAX, document, object)?;
        return Ok(flaws);
    };
    match read_parties(alloc, &caps, document) {
        Ok(_) => Ok(flaws),
        Err(ScenarioFault::OutOfMemory) => Err(AllocError),
        Err(fault) => {
            add_parties(alloc, &mut flaws, caps.engines, document, object)?;
            led_by(alloc, Subject::Parties, fault, flaws)
        }
    }
}

/// The caps of a document.
pub fn caps_in(document: &Value) -> Option<Caps>
    ensures { result ≡ caps_at (view document.now) }
{
    parse_caps(document.get("caps")?)
}

/// All that is wrong with the parties of a document. Without parties nothing is. If `explore`
/// cannot read them, the first is the fault that it tells, if a plain run of the document has none.
pub fn flaws_of_document(alloc: Global, document: &Value) -> Result<Vec<Flaw>, AllocError>
    ensures { IfOk result
        (λ all. map flawed all.items ≡ flaws_of_document (view document.now)) }
{
    match document.get("parties") {
        Some(object) => flaws_by_caps(alloc, document, object, caps_in(document)),
        None => Ok(Vec::new(alloc)),
    }
}
