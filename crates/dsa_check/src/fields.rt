//! The keys that objects are asked for, and what stands at them.

ghost use Rattle.std.specs.Prelude.{◌≡◌};
ghost use Rattle.serde_json.specs.View.{view};
ghost use Rattle.dsa_check.specs.Reasons.{found_of, is_of_form};

use dsa_scenario::{Form, bytes_of_hex};
use serde_json::Value;

/// A key of a document, by its name and the object that it stands in.
#[derive(Clone, Copy)]
pub struct Key {
    pub name: &'static str,
    /// Whether it stands in the object `caps` of the one that is told of.
    pub in_caps: bool,
}

/// What stands somewhere in a document.
#[derive(Clone, Copy)]
pub enum Found {
    Null,
    Truth(bool),
    /// A whole number of 64 bits without sign.
    Whole(u64),
    /// A whole number below 0.
    Below(i64),
    /// Any other number.
    Number,
    Text,
    Array,
    Object,
}

/// What this value is.
pub fn found_in(value: &Value) -> Found
    ensures { result ≡ found_of (view value.now) }
{
    match value {
        Value::Null => Found::Null,
        Value::Bool(truth) => Found::Truth(*truth),
        Value::Number(number) => match (number.as_u64(), number.as_i64()) {
            (Some(whole), _) => Found::Whole(whole),
            (None, Some(below)) => Found::Below(below),
            (None, None) => Found::Number,
        },
        Value::String(_) => Found::Text,
        Value::Array(_) => Found::Array,
        Value::Object(_) => Found::Object,
    }
}

/// Whether this value may stand there.
pub fn is_of(form: Form, value: &Value) -> bool
    ensures { result ≡ is_of_form form (view value.now) }
{
    match form {
        Form::Whole { least, most } => match value.as_u64() {
            Some(number) => least <= number && number <= most,
            None => false,
        },
        Form::Bounded { field, .. } => match value.as_u64() {
            Some(number) => number <= field,
            None => false,
        },
        Form::Truth => value.as_bool().is_some(),
        Form::Text => value.as_str().is_some(),
        Form::Digits => match value.as_str() {
            Some(text) => bytes_of_hex(text).is_some(),
            None => false,
        },
        Form::Array => value.as_array().is_some(),
        Form::Object => value.as_object().is_some(),
    }
}
