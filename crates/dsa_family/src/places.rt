//! Places in a JSON value.

ghost use Rattle.std.specs.Prelude.{◌≡◌, ◌==◌, IfOk, map, option_map, slice_index};
ghost use Rattle.serde_json.specs.Data.{array, object, put};
ghost use Rattle.serde_json.specs.Find.{index_of};
ghost use Rattle.serde_json.specs.View.{items_view, members_view, view};
ghost use Rattle.dsa_family.specs.Places.{child_at, keys_of_path, set_at_place};
ghost use Rattle.dsa_family.specs.Places.{with_child_at, with_item_at, without_key, without_member};

use fast_float::Numeral;
use serde_json::{Map, Value};
use std::alloc::{AllocError, Global};

/// The keys and numbers of a path.
pub fn keys_of_path(alloc: Global, path: &str) -> Result<Vec<&str>, AllocError>
    ensures { IfOk result (λ keys. map (λ key. key.now) keys.items ≡ keys_of_path path.now) }
{
    let mut keys = Vec::new(alloc);
    let mut rest = path;
    'keys: while let Some((key, more)) = rest.split_once('/') {
        keys.push(key)?;
        rest = more;
    }
    keys.push(rest)?;
    Ok(keys)
}

fn starts_with_zero(bytes: &[u8]) -> bool
    ensures { result ≡ (slice_index bytes.now 0 == 48) }
{
    !bytes.is_empty() && bytes[0] == b'0'
}

// The number of an item, in digits with no 0 before another.
fn item_number(key: &str) -> Option<usize>
    ensures { result ≡ index_of key.now }
{
    let bytes = key.as_bytes();
    let numeral = Numeral::scan(bytes);
    let index = numeral.to_u64()?;
    if (numeral.len() == bytes.len()) & ((bytes.len() == 1) | !starts_with_zero(bytes)) {
        Some(index as usize)
    } else {
        None
    }
}

// What is there at a key or a number.
fn child_at<'v>(key: &str, whole: &'v Value) -> Option<&'v Value>
    ensures { option_map (λ v. view v.now) result ≡ child_at key.now (view whole.now) }
{
    match whole.get(key) {
        Some(found) => Some(found),
        None => whole.get(item_number(key)?),
    }
}

// The object of these members, with the value at the key.
fn with_member(
    alloc: Global,
    members: Map<String, Value>,
    key: &str,
    value: Value,
) -> Result<Value, AllocError>
    ensures { IfOk result
        (λ made. view made ≡ object (put key.now (view value) (members_view members.entries))) }
{
    let mut members = members;
    members.insert(String::from_str(alloc, key)?, value)?;
    Ok(Value::Object(members))
}

// The array of these items, with the value at the number.
fn with_item_at(items: Vec<Value>, key: &str, value: Value) -> Option<Value>
    ensures { option_map view result ≡ with_item_at key.now (view value) (items_view items.items) }
{
    let mut items = items;
    let number = item_number(key)?;
    if number >= items.len() {
        return None;
    }
    items[number] = value;
    Some(Value::Array(items))
}

// The value with this one there.
fn with_child_at(
    alloc: Global,
    key: &str,
    value: Value,
    whole: &Value,
) -> Result<Option<Value>, AllocError>
    ensures { IfOk result
        (λ made. option_map view made ≡ with_child_at key.now (view value) (view whole.now)) }
{
    match whole.clone()? {
        Value::Object(members) => Ok(Some(with_member(alloc, members, key, value)?)),
        Value::Array(items) => Ok(with_item_at(items, key, value)),
        _ => Ok(None),
    }
}

/// The whole with the value at this place.
pub fn set_at_place(
    alloc: Global,
    keys: &[&str],
    value: &Value,
    whole: &Value,
) -> Result<Option<Value>, AllocError>
    ensures { IfOk result
        (λ made. option_map view made
        ≡ set_at_place (map (λ key. key.now) keys.now) (view value.now) (view whole.now)) }
{
    let Some((key, rest)) = keys.split_first() else {
        return Ok(None);
    };
    if rest.is_empty() {
        return with_child_at(alloc, key, value.clone()?, whole);
    }
    let Some(inner) = child_at(key, whole) else {
        return Ok(None);
    };
    let Some(changed) = set_at_place(alloc, rest, value, inner)? else {
        return Ok(None);
    };
    with_child_at(alloc, key, changed, whole)
}

// The object of the members but the one at the key.
fn without_member(members: Map<String, Value>, key: &str) -> Value
    ensures { view result ≡ object (without_member key.now (members_view members.entries)) }
{
    let mut members = members;
    drop(members.remove(key));
    Value::Object(members)
}

/// The value, which has nothing at the key if it is an object.
pub fn without_key(key: &str, whole: &Value) -> Result<Value, AllocError>
    ensures { IfOk result (λ made. view made ≡ without_key key.now (view whole.now)) }
{
    match whole.clone()? {
        Value::Object(members) => Ok(without_member(members, key)),
        other => Ok(other),
    }
}
