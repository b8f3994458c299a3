//! What is remarked of parties, and where.

ghost use Rattle.std.specs.Prelude.{◌≡◌, ◌∷◌, ◌++◌, [], false, flat_map, map, true, IfOk, IfSome};
ghost use Rattle.std.specs.Prelude.{OnOk};
ghost use Rattle.serde_json.specs.View.{view};
ghost use Rattle.dsa_scenario.specs.Document.{IsJson};
ghost use Rattle.dsa_check.specs.Findings.{AppendsAll};
ghost use Rattle.dsa_party_check.specs.Complaints.{complained, flawed};
ghost use Rattle.dsa_party_check.specs.Pointing.{IsComplaintAt};
ghost use Rattle.dsa_party_check.specs.PartyCheck.{said_of_flaw, ArePartyRemarks};
ghost use Rattle.dsa_party_check.specs.PartyCheck.{IsPartyRemarkPlaced};
ghost use Rattle.dsa_party_check.specs.PartyCheck.{SaysOfParties};

use crate::complaint::{Complaint, Flaw, Subject};
use crate::pointing::{Extents, extents_of, spot_of};
use dsa_check::Spot;
use dsa_scenario::ScenarioFault;
use serde_json::Value;
use std::alloc::{AllocError, Global};

/// A line of a report: one thing that is wrong or odd, of which part, and where that is, as far as
/// it is known.
#[derive(Drop)]
pub struct PartyRemark {
    pub is_warning: bool,
    pub fault: ScenarioFault,
    pub subject: Subject,
    pub complaint: Complaint,
    pub spot: Option<Spot>,
}

/// So many remarks have their places sought.
const MOST_PLACED: usize = 40;

// The place of a complaint before which so many came.
fn spot_for(
    alloc: Global,
    bytes: &[u8],
    document: &Value,
    extents: &Extents,
    before: usize,
    subject: Subject,
    complaint: &Complaint,
) -> Result<Option<Spot>, AllocError>
    requires { IsJson bytes.now (view document.now) }
    ensures { IfOk result (λ spot. IfSome spot
        (IsComplaintAt bytes.now subject (complained complaint.now))) }
{
    if before < MOST_PLACED {
        spot_of(alloc, bytes, document, extents, subject, complaint)
    } else {
        Ok(None)
    }
}

// Adds the remark of a complaint.
fn add_remark(
    alloc: Global,
    bytes: &[u8],
    document: &Value,
    extents: &Extents,
    is_warning: bool,
    fault: ScenarioFault,
    subject: Subject,
    complaint: Complaint,
    remarks: &mut Vec<PartyRemark>,
) -> Result<(), AllocError>
    requires { IsJson bytes.now (view document.now) }
    ensures all { OnOk result (SaysOfParties remarks.old.items remarks.new.items
        ((is_warning, fault, subject, complained complaint) ∷ [])) }
    ensures placed { OnOk result
        (AppendsAll (IsPartyRemarkPlaced bytes.now) remarks.old.items remarks.new.items) }
{
    let before = remarks.len();
    let spot = spot_for(alloc, bytes, document, extents, before, subject, &complaint)?;
    remarks.push(PartyRemark {
        is_warning,
        fault,
        subject,
        complaint,
        spot,
    })?;
    Ok(())
}

// Adds the remarks of a flaw.
fn add_flaw(
    alloc: Global,
    bytes: &[u8],
    document: &Value,
    extents: &Extents,
    is_warning: bool,
    flaw: Flaw,
    remarks: &mut Vec<PartyRemark>,
) -> Result<(), AllocError>
    requires { IsJson bytes.now (view document.now) }
    ensures all { OnOk result (SaysOfParties remarks.old.items remarks.new.items
        (said_of_flaw is_warning (flawed flaw))) }
    ensures placed { OnOk result
        (AppendsAll (IsPartyRemarkPlaced bytes.now) remarks.old.items remarks.new.items) }
{
    let Flaw {
        fault,
        subject,
        complaints,
    } = flaw;
    for complaint in complaints {
        add_remark(
            alloc, bytes, document, extents, is_warning, fault, subject, complaint, remarks,
        )?;
    }
    Ok(())
}

// Adds the remarks of these flaws.
fn add_flaws(
    alloc: Global,
    bytes: &[u8],
    document: &Value,
    extents: &Extents,
    is_warning: bool,
    flaws: Vec<Flaw>,
    remarks: &mut Vec<PartyRemark>,
) -> Result<(), AllocError>
    requires { IsJson bytes.now (view document.now) }
    ensures all { OnOk result (SaysOfParties remarks.old.items remarks.new.items
        (flat_map (said_of_flaw is_warning) (map flawed flaws.items))) }
    ensures placed { OnOk result
        (AppendsAll (IsPartyRemarkPlaced bytes.now) remarks.old.items remarks.new.items) }
{
    for flaw in flaws {
        add_flaw(alloc, bytes, document, extents, is_warning, flaw, remarks)?;
    }
    Ok(())
}

/// What is remarked of all that is wrong and odd, each with its place, as far as that is found.
pub fn remarks_of(
    alloc: Global,
    bytes: &[u8],
    document: &Value,
    wrong: Vec<Flaw>,
    odd: Vec<Flaw>,
) -> Result<Vec<PartyRemark>, AllocError>
    requires { IsJson bytes.now (view document.now) }
    ensures { IfOk result
        (λ remarks. ArePartyRemarks bytes.now (map flawed wrong.items)
        (map flawed odd.items) remarks.items) }
{
    let mut remarks = Vec::new(alloc);
    if wrong.is_empty() && odd.is_empty() {
        return Ok(remarks);
    }
    let extents = extents_of(alloc, bytes)?;
    add_flaws(alloc, bytes, document, &extents, false, wrong, &mut remarks)?;
    add_flaws(alloc, bytes, document, &extents, true, odd, &mut remarks)?;
    Ok(remarks)
}
