//! Keys that nothing reads.

ghost use Rattle.std.specs.Prelude.{◌≡◌, ◌∷◌, if◌then◌else◌, [], map, not, option_map};
ghost use Rattle.std.specs.Prelude.{string_bytes};
ghost use Rattle.std.specs.Prelude.{IfOk, OnOk};
ghost use Rattle.serde_json.specs.View.{view};
ghost use Rattle.dsa_check.specs.Warnings.{is_named, stray_key_text};
ghost use Rattle.dsa_party_check.specs.Complaints.{complained, Complains};
ghost use Rattle.dsa_party_check.specs.Strays.{stray_complaint, stray_complaints};

use crate::complaint::{Complaint, Inside};
use dsa_check::{Aim, add_stray, is_named, near_name, plain_name};
use dsa_event_text::Added;
use serde_json::Value;
use std::alloc::{AllocError, Global};

// What is told of a key that is none of these.
fn stray_complaint(
    alloc: Global,
    inside: Inside,
    names: &[&'static str],
    key: &str,
) -> Result<Complaint, AllocError>
    ensures { IfOk result (λ c. complained c
        ≡ stray_complaint inside (map (λ name. name.now) names.now) key.now) }
{
    let name = plain_name(alloc, key)?;
    let near = near_name(alloc, names, key)?;
    let mut reason = String::new(alloc);
    add_stray(&mut reason, &name, near)?;
    Ok(Complaint {
        inside,
        aim: Aim::Key,
        name,
        reason,
    })
}

/// Adds the keys of an object that are none of these.
pub fn add_strays(
    alloc: Global,
    complaints: &mut Vec<Complaint>,
    inside: Inside,
    names: &[&'static str],
    object: &Value,
) -> Result<(), AllocError>
    ensures { OnOk result
        (Complains complaints.old.items complaints.new.items
        (stray_complaints inside (map (λ name. name.now) names.now) (view object.now))) }
{
    let Some(members) = object.as_object() else {
        return Ok(());
    };
    for key in members.keys() {
        if !is_named(names, key.as_str()) {
            complaints.push(stray_complaint(alloc, inside, names, key.as_str())?)?;
        }
    }
    Ok(())
}
