//! Names that are spelled nearly as others.

ghost use Rattle.std.specs.Prelude.{◌≡◌, ◌<◌, [], ◌∷◌, bytes_eq, length, map, true, IfOk, IfSome};
ghost use Rattle.std.specs.Prelude.{option_map, string_bytes, None};
ghost use Rattle.serde_json.specs.View.{view};
ghost use Rattle.dsa_check.specs.Reasons.{is_asked, letters_of, begins_with, distance_of};
ghost use Rattle.dsa_check.specs.Reasons.{stray_distance, is_below, near_key, near_kind};
ghost use Rattle.dsa_check.specs.Reasons.{IsStrayKey};
ghost use Rattle.dsa_check.specs.Warnings.{near_name};
ghost use Rattle.dsa_scenario.specs.Fields.{row_of_field};

use crate::syntax::is_plain;
use dsa_scenario::{Field, KINDS, StepKind};
use serde_json::Value;
use std::alloc::{AllocError, Global};
use strsim::osa_distance;

// How far a longer name is from the one that it begins with: farther than one with an edit or two.
const FAR: usize = 3;

// The first letter or digit of a name, with a small letter for a capital, and what follows it.
fn next_letter(name: &[u8]) -> Option<(u8, &[u8])>
    ensures letter { IfSome result (λ next. letters_of name.now ≡ next.0 ∷ letters_of next.1.now) }
    ensures shorter { IfSome result (λ next. length next.1.now < length name.now) }
    ensures end { result ≡ None → letters_of name.now ≡ [] }
{
    let mut left = name;
    while let Some((first, rest)) = left.split_first() {
        if first.is_ascii_alphanumeric() {
            return Some((first.to_ascii_lowercase(), rest));
        }
        left = rest;
    }
    None
}

// Whether two names have the same letters and digits, in the same order, in either case.
fn has_letters_of(name: &[u8], other: &[u8]) -> bool
    ensures { result ≡ bytes_eq (letters_of name.now) (letters_of other.now) }
{
    let (mut left, mut other_left) = (name, other);
    while let Some((letter, rest)) = next_letter(left) {
        match next_letter(other_left) {
            Some((other_letter, other_rest)) if other_letter == letter => other_left = other_rest,
            _ => return false,
        }
        left = rest;
    }
    next_letter(other_left).is_none()
}

// Whether the other name is a longer one that begins with this one.
fn begins_with(name: &str, other: &str) -> bool
    ensures { result ≡ begins_with name.now other.now }
{
    name.len() > 3 && other.as_bytes().starts_with(name.as_bytes())
}

// How far the other name is from this one, where it is spelled nearly so.
fn distance_of(alloc: Global, name: &str, other: &str) -> Result<Option<usize>, AllocError>
    ensures { IfOk result (λ distance. distance ≡ distance_of name.now other.now) }
{
    if !is_plain(other) {
        return Ok(None);
    }
    if has_letters_of(name.as_bytes(), other.as_bytes()) {
        return Ok(Some(0));
    }
    if begins_with(name, other) {
        return Ok(Some(FAR));
    }
    let most = if name.len() < 5 { 1 } else { 2 };
    if other.len().abs_diff(name.len()) > most {
        return Ok(None);
    }
    let distance = osa_distance(alloc, name, other)?;
    Ok(if distance <= most {
        Some(distance)
    } else {
        None
    })
}

fn is_asked(fields: &[Field], name: &str) -> bool
    ensures { result ≡ is_asked (map row_of_field fields.now) name.now }
{
    name == "do" || fields.iter().any(|field| field.name == name)
}

// How far the other key is from this one, where nobody asks for it.
fn stray_distance(
    alloc: Global,
    fields: &[Field],
    name: &str,
    other: &str,
) -> Result<Option<usize>, AllocError>
    ensures { IfOk result
        (λ distance. distance
        ≡ stray_distance (map row_of_field fields.now) name.now other.now) }
{
    if is_asked(fields, other) {
        return Ok(None);
    }
    distance_of(alloc, name, other)
}

// Whether it is nearer than the bound.
fn is_below(bound: usize, distance: Option<usize>) -> bool
    ensures { result ≡ is_below bound distance }
{
    match distance {
        Some(distance) => distance < bound,
        None => false,
    }
}

/// The key of the object that nobody asks for, and that is spelled nearly so, the nearest.
pub fn near_key(
    alloc: Global,
    object: &Value,
    fields: &[Field],
    name: &str,
) -> Result<Option<String>, AllocError>
    ensures stray { IfOk result
        (λ found. IfSome found
        (λ key. IsStrayKey (view object.now)
        (map row_of_field fields.now) (string_bytes key))) }
    ensures nearest { IfOk result
        (λ found. option_map string_bytes found
        ≡ near_key (view object.now) (map row_of_field fields.now) name.now) }
{
    let Some(members) = object.as_object() else {
        return Ok(None);
    };
    let (mut nearest, mut least) = (None, FAR + 1);
    for other in members.keys() {
        let other = other.as_str();
        let distance = stray_distance(alloc, fields, name, other)?;
        if is_below(least, distance) {
            nearest = Some(other);
            least = distance.unwrap_or(least);
        }
    }
    match nearest {
        Some(other) => Ok(Some(String::from_str(alloc, other)?)),
        None => Ok(None),
    }
}

/// The kind of step whose name is spelled nearly so, the nearest.
pub fn near_kind(alloc: Global, name: &str) -> Result<Option<StepKind>, AllocError>
    ensures { IfOk result (λ near. near ≡ near_kind name.now) }
{
    let (mut nearest, mut least) = (None, FAR + 1);
    for kind in KINDS {
        let distance = distance_of(alloc, kind.name(), name)?;
        if is_below(least, distance) {
            nearest = Some(kind);
            least = distance.unwrap_or(least);
        }
    }
    Ok(nearest)
}

/// The name here that the key is spelled nearly as, the nearest.
pub fn near_name(
    alloc: Global,
    names: &[&'static str],
    key: &str,
) -> Result<Option<&'static str>, AllocError>
    ensures { IfOk result
        (λ near. option_map (λ name. name.now) near
        ≡ near_name (map (λ name. name.now) names.now) key.now) }
{
    let (mut near, mut least) = (None, FAR + 1);
    for name in names {
        let distance = distance_of(alloc, name, key)?;
        if is_below(least, distance) {
            near = Some(*name);
            least = distance.unwrap_or(least);
        }
    }
    Ok(near)
}
