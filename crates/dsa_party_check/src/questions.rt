//! What is wrong with the questions of a document.

ghost use Rattle.std.specs.Prelude.{◌≡◌, ◌++◌, ◌+◌, ◌∷◌, [], map, option_map};
ghost use Rattle.std.specs.Prelude.{codes, string_bytes, IfOk, OnOk, Some};
ghost use Rattle.serde_json.specs.{View.{view}, Find.{get}};
ghost use Rattle.dsa_plans.specs.PartyLabels.{numbered_from};
ghost use Rattle.dsa_questions.specs.{Formed.{as_names}, Reading.{most_nested}};
ghost use Rattle.dsa_party_check.specs.Complaints.{complained, flawed, Complains, Finds};
ghost use Rattle.dsa_party_check.specs.Flaws.{flaws_of_document};
ghost use Rattle.dsa_party_check.specs.QuestionFlaws.{all_flaws_of, count_of_list};
ghost use Rattle.dsa_party_check.specs.QuestionFlaws.{flaws_of_questions, is_readable, kind_flaws};
ghost use Rattle.dsa_party_check.specs.QuestionFlaws.{names_by_caps, or_no_condition};
ghost use Rattle.dsa_party_check.specs.QuestionFlaws.{question_complaints, question_flaws};
ghost use Rattle.dsa_party_check.specs.QuestionFlaws.{question_names, question_rules};
ghost use Rattle.dsa_party_check.specs.QuestionFlaws.{questions_at, questions_flaws};
ghost use Rattle.dsa_party_check.specs.QuestionFlaws.{that_complaints};
ghost use Rattle.dsa_party_check.specs.{Rules.{of_object, of_rules}, Strays.{stray_complaints}};

use crate::complaint::{Complaint, Flaw, Inside, Subject, add_flaw};
use crate::expectations::{add_condition, condition_complaint};
use crate::flaws::{caps_in, flaws_of_document};
use crate::rules::{Rule, Want, add_rule, add_rules, no_object};
use crate::rules_of;
use crate::strays::add_strays;
use dsa_plans::{items_or_none, read_parties};
use dsa_questions::{Kind, Naming, is_formed, is_question, key_of, most_nested};
use dsa_regs::Caps;
use dsa_scenario::{Form, ScenarioFault};
use serde_json::Value;
use std::alloc::{AllocError, Global};

const QUESTION: [Rule; 2] = rules_of!("name": Want::Name, "that": Want::Needed(Form::Object));

const QUESTION_NAMES: [&str; 2] = ["name", "that"];

// Whether a question can be read, as far as it is known what may be named.
fn is_readable(
    alloc: Global,
    naming: Option<Naming<'_>>,
    kind: Kind,
    question: &Value,
) -> Result<bool, AllocError>
    ensures { IfOk result
        (λ good. good ≡ is_readable (option_map as_names naming.entry) kind (view question.now)) }
{
    match naming {
        Some(naming) => is_question(alloc, kind, &naming, question),
        None => Ok(is_formed(question)),
    }
}

// Adds what is wrong with the condition of a question.
fn add_that(
    alloc: Global,
    complaints: &mut Vec<Complaint>,
    naming: Option<Naming<'_>>,
    that: Option<&Value>,
) -> Result<(), AllocError>
    ensures { OnOk result
        (Complains complaints.old.items complaints.new.items
        (that_complaints (option_map as_names naming.entry)
        (option_map (λ v. view v.now) that.entry))) }
{
    match (naming, that) {
        (Some(naming), Some(that)) => {
            add_condition(alloc, complaints, most_nested(), &naming, that)
        }
        _ => Ok(()),
    }
}

// What is wrong with a question.
fn question_reasons(
    alloc: Global,
    naming: Option<Naming<'_>>,
    question: &Value,
) -> Result<Vec<Complaint>, AllocError>
    ensures { IfOk result
        (λ all. map complained all.items
        ≡ of_object Inside.All (view question.now)
        (of_rules Inside.All (view question.now) question_rules
        ++ stray_complaints Inside.All question_names (view question.now)
        ++ that_complaints (option_map as_names naming.entry)
        (get (codes "that") (view question.now)))) }
{
    if question.as_object().is_none() {
        return no_object(alloc, Inside::All, question);
    }
    let mut found = Vec::new(alloc);
    add_rules(alloc, &mut found, Inside::All, &QUESTION, question)?;
    add_strays(alloc, &mut found, Inside::All, &QUESTION_NAMES, question)?;
    add_that(alloc, &mut found, naming, question.get("that"))?;
    Ok(found)
}

// These complaints, or where there are none that it is no condition.
fn or_no_condition(alloc: Global, mut found: Vec<Complaint>) -> Result<Vec<Complaint>, AllocError>
    ensures { IfOk result
        (λ all. map complained all.items ≡ or_no_condition (map complained found.items)) }
{
    if !found.is_empty() {
        return Ok(found);
    }
    let reason = String::from_str(alloc, "\"that\" is no condition")?;
    found.push(condition_complaint(alloc, reason)?)?;
    Ok(found)
}

// What is wrong with a question that cannot be read.
fn question_complaints(
    alloc: Global,
    naming: Option<Naming<'_>>,
    kind: Kind,
    question: &Value,
) -> Result<Vec<Complaint>, AllocError>
    ensures { IfOk result
        (λ all. map complained all.items
        ≡ question_complaints (option_map as_names naming.entry) kind (view question.now)) }
{
    if is_readable(alloc, naming, kind, question)? {
        return Ok(Vec::new(alloc));
    }
    let found = question_reasons(alloc, naming, question)?;
    or_no_condition(alloc, found)
}

// The sum of two counts, which memory has room for.
fn sum_of(count: usize, more: usize) -> Result<usize, AllocError>
    ensures { IfOk result (λ sum. sum ≡ count + more) }
{
    count.checked_add(more).ok_or(AllocError)
}

// Adds what is wrong with each question of a list, which begins with this number.
fn add_questions(
    alloc: Global,
    flaws: &mut Vec<Flaw>,
    naming: Option<Naming<'_>>,
    kind: Kind,
    first: usize,
    items: &[Value],
) -> Result<(), AllocError>
    ensures { OnOk result
        (Finds flaws.old.items flaws.new.items
        (numbered_from (question_flaws (option_map as_names naming.entry) kind first) 0
        (map view items.now))) }
{
    for (place, item) in items.iter().enumerate() {
        let complaints = question_complaints(alloc, naming, kind, item)?;
        let number = sum_of(first, place)?;
        let fault = ScenarioFault::BadQuestion(number as u64);
        add_flaw(flaws, fault, Subject::Question(kind, place), complaints)?;
    }
    Ok(())
}

// How many questions a list has; what is no list counts as one.
fn count_of_list(items: Option<&[Value]>) -> usize
    ensures { result ≡ count_of_list (option_map (λ items. map view items.now) items.entry) }
{
    match items {
        Some(items) => items.len(),
        None => 1,
    }
}

// Adds what is wrong with the questions of a kind, from this number on.
fn add_kind(
    alloc: Global,
    flaws: &mut Vec<Flaw>,
    naming: Option<Naming<'_>>,
    document: &Value,
    kind: Kind,
    first: usize,
) -> Result<(), AllocError>
    ensures { OnOk result
        (Finds flaws.old.items flaws.new.items
        (kind_flaws (option_map as_names naming.entry) (view document.now) kind first)) }
{
    let key = key_of(kind);
    if let Some(items) = items_or_none(document, key) {
        return add_questions(alloc, flaws, naming, kind, first, items);
    }
    let mut found = Vec::new(alloc);
    let rule = Rule {
        name: key,
        want: Want::Allowed(Form::Array),
    };
    add_rule(alloc, &mut found, Inside::All, rule, document)?;
    add_flaw(
        flaws,
        ScenarioFault::BadQuestion(first as u64),
        Subject::Document,
        found,
    )
}

// Adds what is wrong with each question of a document.
fn add_all_questions(
    alloc: Global,
    flaws: &mut Vec<Flaw>,
    naming: Option<Naming<'_>>,
    document: &Value,
) -> Result<(), AllocError>
    ensures { OnOk result
        (Finds flaws.old.items flaws.new.items
        (questions_flaws (option_map as_names naming.entry) (view document.now))) }
{
    let nevers = count_of_list(items_or_none(document, "never"));
    let others = count_of_list(items_or_none(document, "sometimes"));
    add_kind(alloc, flaws, naming, document, Kind::Never, 0)?;
    add_kind(alloc, flaws, naming, document, Kind::Sometimes, nevers)?;
    let first = sum_of(nevers, others)?;
    add_kind(alloc, flaws, naming, document, Kind::Always, first)
}

// Adds what is wrong with the questions of a document with these caps, which has parties.
fn add_by_caps(
    alloc: Global,
    flaws: &mut Vec<Flaw>,
    document: &Value,
    object: &Value,
    caps: Option<Caps>,
) -> Result<(), AllocError>
    ensures { get (codes "parties") (view document.now) ≡ Some (view object.now) → OnOk result
        (Finds flaws.old.items flaws.new.items
        (questions_flaws (names_by_caps (view document.now) (view object.now) caps)
        (view document.now))) }
{
    let Some(caps) = caps else {
        return add_all_questions(alloc, flaws, None, document);
    };
    match read_parties(alloc, &caps, document) {
        Ok(parties) => {
            let naming = Naming {
                caps: &caps,
                parties: &parties,
            };
            add_all_questions(alloc, flaws, Some(naming), document)
        }
        Err(ScenarioFault::OutOfMemory) => Err(AllocError),
        Err(_) => add_all_questions(alloc, flaws, None, document),
    }
}

// Adds what is wrong with the questions of a document. Without parties nothing is.
fn add_of_document(alloc: Global, flaws: &mut Vec<Flaw>, document: &Value) -> Result<(), AllocError>
    ensures { OnOk result
        (Finds flaws.old.items flaws.new.items (flaws_of_questions (view document.now))) }
{
    match document.get("parties") {
        Some(object) => add_by_caps(alloc, flaws, document, object, caps_in(document)),
        None => Ok(()),
    }
}

/// All that is wrong with the parties of a document, and after it with its questions. The first is
/// the fault that `explore` tells, if a plain run of the document has none.
pub fn all_flaws_of(alloc: Global, document: &Value) -> Result<Vec<Flaw>, AllocError>
    ensures { IfOk result (λ all. map flawed all.items ≡ all_flaws_of (view document.now)) }
{
    let mut flaws = flaws_of_document(alloc, document)?;
    add_of_document(alloc, &mut flaws, document)?;
    Ok(flaws)
}
