//! What is told of the parties and of the questions of a document.

ghost use Rattle.std.specs.Prelude.{◌≡◌, ◌++◌, ◌∷◌, [], map, option_map, string_bytes, IfOk, OnOk};
ghost use Rattle.dsa_party_check.specs.Complaints.{complained, Complains, Finds, flaw_of_fault};
ghost use Rattle.dsa_party_check.specs.Complaints.{flawed, flaws_of, general_reason, or_general};
ghost use Rattle.dsa_party_check.specs.Complaints.{plain_complaint, reason_of_fault};

use dsa_check::Aim;
use dsa_questions::Kind;
use dsa_scenario::{ScenarioFault, StepKind};
use std::alloc::{AllocError, Global};

/// What is told of: the document, the object at its key `parties`, or one of the parties or of the
/// questions by its place in its array.
#[derive(Clone, Copy, Debug, PartialEq, Eq)]
pub enum Subject {
    Document,
    Parties,
    Client(usize),
    Administrator(usize),
    Question(Kind, usize),
}

/// What in it is told of: all of it, a step of a party, or a member of that step's Batch.
#[derive(Clone, Copy)]
pub enum Inside {
    All,
    Step {
        step: usize,
        kind: Option<StepKind>,
    },
    Member {
        step: usize,
        kind: Option<StepKind>,
        member: usize,
    },
}

/// One thing that is wrong or odd, and what it points to.
#[derive(Drop)]
pub struct Complaint {
    pub inside: Inside,
    pub aim: Aim,
    /// The key, where that is told.
    pub name: Option<String>,
    pub reason: String,
}

/// All that is wrong or odd with a subject, and the fault that `explore` tells of it where no other
/// comes before.
#[derive(Drop)]
pub struct Flaw {
    pub fault: ScenarioFault,
    pub subject: Subject,
    pub complaints: Vec<Complaint>,
}

/// A complaint of all of it, for this reason.
pub fn plain_complaint(inside: Inside, reason: String) -> Complaint
    ensures { complained result ≡ plain_complaint inside (string_bytes reason) }
{
    Complaint {
        inside,
        aim: Aim::Whole,
        name: None,
        reason,
    }
}

/// These complaints, or where there are none that it is not understood.
pub fn or_general(
    alloc: Global,
    mut found: Vec<Complaint>,
    inside: Inside,
) -> Result<Vec<Complaint>, AllocError>
    ensures { IfOk result
        (λ all. map complained all.items
        ≡ or_general inside (map complained found.items)) }
{
    if !found.is_empty() {
        return Ok(found);
    }
    let reason = String::from_str(alloc, "not understood")?;
    found.push(plain_complaint(inside, reason))?;
    Ok(found)
}

/// Adds these complaints.
pub fn add_all(complaints: &mut Vec<Complaint>, more: Vec<Complaint>) -> Result<(), AllocError>
    ensures { OnOk result
        (Complains complaints.old.items complaints.new.items (map complained more.items)) }
{
    for complaint in more {
        complaints.push(complaint)?;
    }
    Ok(())
}

/// Adds the flaw of this subject, if anything is told of it.
pub fn add_flaw(
    flaws: &mut Vec<Flaw>,
    fault: ScenarioFault,
    subject: Subject,
    complaints: Vec<Complaint>,
) -> Result<(), AllocError>
    ensures { OnOk result
        (Finds flaws.old.items flaws.new.items
        (flaws_of fault subject (map complained complaints.items))) }
{
    if complaints.is_empty() {
        return Ok(());
    }
    flaws.push(Flaw {
        fault,
        subject,
        complaints,
    })?;
    Ok(())
}

fn reason_of_fault(fault: ScenarioFault) -> &'static str
    ensures { result.now ≡ reason_of_fault fault }
{
    match fault {
        ScenarioFault::TooManyParties => {
            "more than 16 clients, 8 administrators or 256 entries, members included"
        }
        _ => "not understood",
    }
}

/// The flaw of which nothing but the fault is known.
pub fn flaw_of_fault(
    alloc: Global,
    subject: Subject,
    fault: ScenarioFault,
) -> Result<Flaw, AllocError>
    ensures { IfOk result (λ flaw. flawed flaw ≡ flaw_of_fault subject fault) }
{
    let reason = String::from_str(alloc, reason_of_fault(fault))?;
    let complaint = plain_complaint(Inside::All, reason);
    Ok(Flaw {
        fault,
        subject,
        complaints: vec![in alloc; complaint]?,
    })
}
